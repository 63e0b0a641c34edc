//! What the cases of a store are made of: words, numbers and texts of a line (`text.rt`), lines that ask for records
//! (`records.rt`) and for chains of them (`chains.rt`), and where pieces of work meet (`meeting.rt`).
#![tactic(auto)]

pub mod chains;
pub mod meeting;
pub mod records;
pub mod text;

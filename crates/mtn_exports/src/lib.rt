//! What one store sends another: a revision and its ancestors as packets, in definitions and laws. Nothing here runs.
//!
//! An *export* of a revision, for one who has others, is the packets of the revisions that `ancestry_difference` answers, in log
//! order. A revision goes behind the files that it brings and that the export has not had, and before its certificates
//! (`specs/Exports.antt`).
//!
//! The crates above rely on this: an export is one at most, and there is one where all ids are known. Each of its packets can be
//! written, and each file in it is held.
#![tactic(auto)]

mod laws;

pub use laws::{are_writable, held_files, one_export, some_export};

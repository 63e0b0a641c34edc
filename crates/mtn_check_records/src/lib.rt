//! The records of a position of the log beside a stored roster that agrees: whether they are those of the revision that its text
//! makes, or which of them is not.
//!
//! A check that walks along the log has a verdict on each stored roster (`mtn_check_pieces`): that it is the tree that the text
//! makes of the parents' ones, with its marks and births. What is left stands here, for one position, over what was read of it
//! and no store: the text's limit and id, its contents, the limits of the tree, the manifest's id, the parents and the next number
//! that the log tells, the numbers of the nodes, and the form of the roster's record.
//!
//! The crates above rely on this: where the job of a position agrees and [`judge_run`] says that its records are those that are due, they
//! lead behind the front of those below to one revision more (`specs/Reading.antt`); and where it says which of them is not, that
//! record is the first damage of the position (`specs/Fitting.antt`). It says one or the other of each position whose job agrees and
//! that was read behind such a front. So no text is applied again to find it. [`judge_run`] gives the jobs of some positions to
//! `check_pieces`, in lots of at most four, and looks at the rest of the records of those that agree.
//!
//! Cost: linear in the text and in the rosters of the revision and its parents.
#![tactic(auto)]

mod due;
mod fit;
mod hand;
mod laws;
mod numbers;
mod pieces;
mod sound;
mod text;

pub use hand::{Fit, Hand, JobAnswer, Parent, Position};
pub use laws::{hand_stays, step_is_kept};
pub use pieces::{MAX_JOBS, judge_run};

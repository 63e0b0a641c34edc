//! What a merge of two revisions comes to before anything is put, in definitions. Nothing here runs.
//!
//! The *sides* of a merge are two revisions, of which the one with the lesser id is *left*
//! (`specs/Sides.antt`). What their history decides is overridden by *resolutions*, and then it has conflicts,
//! or it has none and is a tree, whose text is that of the merge (`specs/Plans.antt`). A tree is named over an
//! id that is no birth on either side; the text is the same for each such id. No draft or record occurs here.
//!
//! The crates above rely on this: the step of a merge and the code that plans one cite these definitions.
#![tactic(auto)]

mod outcome;

pub use outcome::MergeOutcome;

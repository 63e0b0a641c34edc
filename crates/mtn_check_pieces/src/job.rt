// What is checked, and the answer.
use crate::SharedRecord;
use mtn_ancestry::Pos;
use mtn_base::{Bytes, Id, List};
use mtn_make_roster::Uncommon;

/// A revision whose stored roster is checked: its text, its position and its id, the whole records of its parents' rosters in
/// the order of the edges and that of its own; and, where it has two parents, what each has above it that the other lacks.
#[derive(Drop)]
pub struct CheckJob {
    pub text: Bytes,
    pub at: Pos,
    pub id: Id,
    pub parents: List<SharedRecord>,
    pub stored: SharedRecord,
    pub only_left: Uncommon,
    pub only_right: Uncommon,
}

/// Whether the stored roster, its marks and its births are those that the text makes of the parents' ones.
#[derive(Clone, Copy)]
pub enum Verdict {
    Agrees,
    Differs,
}

// What a revision is made on.
use mtn_ancestry::PosSet;
use mtn_base::Id;
use mtn_marking::MarkedRoster;
use std::collections::BTreeSet;

/// The ancestors of one parent that the other lacks, by their positions and by their ids.
#[derive(Drop)]
pub struct Uncommon {
    pub positions: PosSet,
    pub ids: BTreeSet<Id>,
}

/// What is known of the parents, in the order of the edges.
#[derive(Clone, Copy)]
pub enum Basis<'a> {
    Root,
    One(&'a MarkedRoster),
    Two {
        left: &'a MarkedRoster,
        right: &'a MarkedRoster,
        only_left: &'a Uncommon,
        only_right: &'a Uncommon,
    },
}

// Jobs of a revision that makes the root directory, whose id is twenty bytes of 11.
use mtn_ancestry::{Pos, PosSet};
use mtn_base::{Bytes, Id, List};
use mtn_check_pieces::{CheckJob, SharedRecord};
use mtn_make_roster::Uncommon;
use mtn_records::{RosterRecord, read_roster};
use std::alloc::Global;
use std::collections::BTreeSet;

const TEXT: &str =
    "format_version \"1\"\n\nnew_manifest [2222222222222222222222222222222222222222]\n\nold_revision []\n\nadd_dir \"\"\n";

// A whole record of one entry, as the layout has it: its number 1, its birth at 0, its name, no parent and no name there, a mark
// at 0, no attribute.
const RECORD: &str =
    "00000000000000000100000000000000010000000000000000111111111111111111111111111111111111111100000000000000000000000000000000000000000100000000000000000000000000000000";

fn nothing(alloc: Global) -> Option<Uncommon> {
    Some(Uncommon {
        positions: PosSet::new(alloc, Vec::new(alloc)).ok()?,
        ids: BTreeSet::new(alloc),
    })
}

fn record(alloc: Global) -> Option<RosterRecord> {
    let body = hex::decode(alloc, RECORD.as_bytes()).ok()?;
    read_roster(alloc, Pos(0), &body).ok()
}

/// The job of the revision at a position.
pub fn job(alloc: Global, at: Pos) -> Option<CheckJob> {
    Some(CheckJob {
        text: Bytes::from_slice(alloc, TEXT.as_bytes()).ok()?,
        at,
        id: Id([0x11; 20]),
        parents: List::new(alloc),
        stored: SharedRecord::new(alloc, record(alloc)?).ok()?,
        only_left: nothing(alloc)?,
        only_right: nothing(alloc)?,
    })
}

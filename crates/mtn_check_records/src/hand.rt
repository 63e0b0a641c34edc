// What was read of a revision.
use mtn_ancestry::Pos;
use mtn_base::{Id, List};
use mtn_check_pieces::{SharedEntries, Verdict};
use mtn_records::LogRecord;

/// What is kept of a revision below: its id, the least number that no node has after it, how many deltas its record stands above a
/// whole one, and the entries of its roster.
#[derive(Drop)]
pub struct Hand {
    pub id: Id,
    pub next: u64,
    pub depth: u8,
    pub entries: SharedEntries,
}

/// A parent of a revision, beside the entries of its roster: where it stands, its id, and how many deltas its record stands above a
/// whole one.
#[derive(Clone, Copy)]
pub struct Parent {
    pub at: Pos,
    pub id: Id,
    pub depth: u8,
}

/// What stands at a position of the log beside its text and its roster's entries: the record of the log with its body, the body of
/// the roster's record, and how many deltas that stands above a whole one; the least number that no node has below the position;
/// the parents that the text names, in the order of its edges; and whether each content that it brings is held.
#[derive(Drop)]
pub struct Position {
    pub entry: LogRecord,
    pub log: Vec<u8>,
    pub roster: Vec<u8>,
    pub depth: u8,
    pub next: u64,
    pub parents: List<Parent>,
    pub held: bool,
}

/// What is said of the records of a position whose job agrees: that they are those that are due; or which of them is the first that
/// is not: the text's, the log's, the roster's. `Undecided` where the job differs, or where what was read is of no position of the log.
#[derive(Clone, Copy)]
pub enum Fit {
    Fits,
    OtherText,
    OtherLog,
    OtherRoster,
    Undecided,
}

/// The verdict on the job of a position, and what is said of its records, which is nothing where the job differs.
#[derive(Clone, Copy)]
pub struct JobAnswer {
    pub verdict: Verdict,
    pub fit: Fit,
}

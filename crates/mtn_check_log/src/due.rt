// What is due of a revision.
use mtn_history::Memory;

/// The record of the log and the roster's record of a revision.
#[derive(Drop)]
pub struct Records {
    pub log: Vec<u8>,
    pub roster: Vec<u8>,
}

/// Both records of a revision that is due, and what is remembered of the records that end with them.
#[derive(Drop)]
pub struct Due {
    pub records: Records,
    pub memory: Memory,
}

// The keepers of a session. They are one type, so that `run` is compiled once; it tells nothing, since nothing is claimed here.
ghost use Rattle.std.specs.Prelude.{⊤, None};
ghost use Rattle.mtn_cases_store.specs.Held.{faults_of, reads_of};

use mtn_ports::{Batch, Doubtful, KeepError, Keeper, MemKeeper};
use std::alloc::Global;

/// A keeper of one of two kinds.
#[derive(Drop)]
pub enum Held {
    Plain(MemKeeper),
    Doubtful(Doubtful<MemKeeper>),
}

impl Held {
    /// One without records, of the kind that a word names, whose calls of these numbers fail.
    pub fn new(alloc: Global, kind: &[u8], failing: Vec<u64>) -> Option<Held> {
        let keeper = MemKeeper::new(Batch::new(alloc), failing).ok()?;
        match kind {
            b"plain" => Some(Held::Plain(keeper)),
            b"doubtful" => Some(Held::Doubtful(Doubtful::new(keeper))),
            _ => None,
        }
    }
}

impl Keeper for Held {
    ghost contents = { λ _. None };

    ghost faults = { faults_of };

    ghost reads = { reads_of };

    ghost leaves = { λ _ _. ⊤ };

    fn get(&mut self, table: u8, key: &[u8], out: &mut Vec<u8>) -> Result<bool, KeepError> {
        match self {
            Held::Plain(keeper) => keeper.get(table, key, out),
            Held::Doubtful(keeper) => keeper.get(table, key, out),
        }
    }

    fn next(&mut self, table: u8, after: &[u8], key: &mut Vec<u8>) -> Result<bool, KeepError> {
        match self {
            Held::Plain(keeper) => keeper.next(table, after, key),
            Held::Doubtful(keeper) => keeper.next(table, after, key),
        }
    }

    fn next_record(
        &mut self,
        table: u8,
        after: &[u8],
        key: &mut Vec<u8>,
        body: &mut Vec<u8>,
    ) -> Result<bool, KeepError> {
        match self {
            Held::Plain(keeper) => keeper.next_record(table, after, key, body),
            Held::Doubtful(keeper) => keeper.next_record(table, after, key, body),
        }
    }

    fn apply(&mut self, batch: Batch) -> Result<(), KeepError> {
        match self {
            Held::Plain(keeper) => keeper.apply(batch),
            Held::Doubtful(keeper) => keeper.apply(batch),
        }
    }
}

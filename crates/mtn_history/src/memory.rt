// What is remembered from draft to draft.
ghost use Rattle.std.specs.Prelude.{◌≡◌};
ghost use Rattle.mtn_model.specs.Table.{Contents};
ghost use Rattle.mtn_history.specs.Memory.{Knows};

use crate::Meta;
use crate::cache::Cache;
use std::alloc::Global;

/// What drafts over one keeper remember of its records, each for the next: the number of revisions, the rosters of those that
/// were read or accepted last, and the records of the log that a walk asked for.
#[derive(Drop)]
pub struct Memory {
    pub(crate) meta: Option<Meta>,
    pub(crate) cache: Cache,
}

impl Memory {
    /// Nothing is remembered. It takes no memory.
    pub fn new(alloc: Global) -> Memory
        ensures { (c : Contents) → Knows result c }
    {
        Memory {
            meta: None,
            cache: Cache::new(alloc),
        }
    }

    /// What table 1 says, if it is remembered.
    pub(crate) fn meta(&self) -> Option<Meta>
        ensures { result ≡ self.now.meta }
    {
        self.meta
    }
}

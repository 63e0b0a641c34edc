// How much a store takes: our choice, each limit once. Clauses cite these names.
ghost use Rattle.std.specs.Prelude.{◌≡◌, ◌<◌, ◌≤◌, OnOk, IfErr};
ghost use Rattle.mtn_base.specs.declared.limits.TheConstants.{MAX_LOG};

use crate::Cause;

/// The most bytes of a file, a revision text, a resolution text, a certificate's value or signature: 2^26.
pub const MAX_TEXT: usize = 67_108_864;

/// The most bytes of the input of a run, and of a word of a request: 2^28.
pub const MAX_INPUT: usize = 268_435_456;

/// The most revisions of a store: 2^31.
pub const MAX_LOG: u64 = 2_147_483_648;

/// The most nodes of a tree.
pub const MAX_NODES: usize = 100_000;

/// The greatest number that a log can have as its next: one for each node of each revision that it may have, from 1.
pub const LAST_NUMBER: u64 = MAX_NODES as u64 * MAX_LOG + 1;

/// The most bytes of the text of a path.
pub const MAX_PATH: usize = 4096;

/// The most bytes of a component of a path.
pub const MAX_COMP: usize = 255;

/// The most bytes of the key of an attribute.
pub const MAX_KEY: usize = 255;

/// The most bytes of a word of a packet: of a certificate's name, of a key's.
pub const MAX_FIELD: usize = 255;

/// The most records of a chain of roster records, from the one that is asked for to the full one.
pub const MAX_CHAIN: u8 = 16;

/// That a log of so many revisions takes one more.
pub fn room_in_log(count: u64) -> Result<(), Cause>
    ensures ok { OnOk result (count < MAX_LOG) }
    ensures full { IfErr result (λ cause. (cause ≡ Cause.LogFull count) × (MAX_LOG ≤ count)) }
{
    if count < MAX_LOG {
        Ok(())
    } else {
        Err(Cause::LogFull { count })
    }
}

// The statuses that leave the records.
ghost use Rattle.mtn_frame.specs.Frame.{LeavesRecords};
ghost use Rattle.mtn_frame.specs.Script.{is_session as session_words};

use mtn_base::Bytes;
use mtn_model::Status;
use mtn_ports::{Ident, Keeper, Sink, Source};
use std::alloc::Global;
use std::thread::Threads;

/// `mtn_cli::run`.
pub fn run<R: Threads + Sync, I: Ident, S: Source, O: Sink, K: Keeper>(
    rt: &R,
    alloc: Global,
    words: &[Bytes],
    ident: &I,
    source: &mut S,
    sink: &mut O,
    keeper: &mut K,
) -> Status
    ensures { LeavesRecords (session_words words.now) (K.contents keeper.old) (K.contents keeper.new) result }
{
    mtn_cli::run(rt, alloc, words, ident, source, sink, keeper)
}

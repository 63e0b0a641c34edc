// The records that it ends with.
ghost use Rattle.mtn_cli.specs.Run.{StaysLawful};

use mtn_base::Bytes;
use mtn_model::Status;
use mtn_ports::{Ident, Keeper, Sink, Source};
use std::alloc::Global;
use std::thread::Threads;

/// `mtn_cli::run`.
pub fn run<R: Threads + Sync, I: Ident, S: Source, O: Sink, K: Keeper>(
    rt: &R,
    alloc: Global,
    words: &[Bytes],
    ident: &I,
    source: &mut S,
    sink: &mut O,
    keeper: &mut K,
) -> Status
    ensures { StaysLawful (I.meaning ident.now) (K.contents keeper.old) (K.contents keeper.new) }
{
    mtn_cli::run(rt, alloc, words, ident, source, sink, keeper)
}

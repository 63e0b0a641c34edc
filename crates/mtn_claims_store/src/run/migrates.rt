// What a command over an older store comes to.
ghost use Rattle.mtn_cli.specs.Run.{OldStoresMigrate};

use mtn_base::Bytes;
use mtn_model::Status;
use mtn_ports::{Ident, Keeper, Sink, Source};
use std::alloc::Global;
use std::thread::Threads;

/// `mtn_cli::run`.
pub fn run<R: Threads + Sync, I: Ident, S: Source, O: Sink, K: Keeper>(
    rt: &R,
    alloc: Global,
    words: &[Bytes],
    ident: &I,
    source: &mut S,
    sink: &mut O,
    keeper: &mut K,
) -> Status
    ensures { OldStoresMigrate (I.meaning ident.now) words.now
        (record { contents = K.contents keeper.old; left = S.left source.old; written = O.written sink.old })
        (record { contents = K.contents keeper.new; left = S.left source.new; written = O.written sink.new }) result }
{
    mtn_cli::run(rt, alloc, words, ident, source, sink, keeper)
}

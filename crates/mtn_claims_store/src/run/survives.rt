// What a crash leaves.
ghost use Rattle.mtn_cli.specs.Run.{Outcomes, Scripts, is_read};
ghost use Rattle.mtn_frame.specs.Frame.{Survives};
ghost use Rattle.mtn_old_stores.specs.Stores.{StandsIn};

use mtn_base::Bytes;
use mtn_model::Status;
use mtn_ports::{Ident, Keeper, Sink, Source};
use std::alloc::Global;
use std::thread::Threads;

/// `mtn_cli::run`.
pub fn run<R: Threads + Sync, I: Ident, S: Source, O: Sink, K: Keeper>(
    rt: &R,
    alloc: Global,
    words: &[Bytes],
    ident: &I,
    source: &mut S,
    sink: &mut O,
    keeper: &mut K,
) -> Status
    ensures { Survives (StandsIn (I.meaning ident.now)) (Outcomes (I.meaning ident.now)) (Scripts words.now) (is_read words.now)
        (record { contents = K.contents keeper.old; left = S.left source.old; written = O.written sink.old })
        (record { contents = K.contents keeper.new; left = S.left source.new; written = O.written sink.new })
        (K.leaves keeper.old) (K.leaves keeper.new) }
{
    mtn_cli::run(rt, alloc, words, ident, source, sink, keeper)
}

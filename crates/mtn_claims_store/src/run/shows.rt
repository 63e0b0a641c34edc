// A damage that it shows.
ghost use Rattle.mtn_cli.specs.Run.{ChecksStore, MigratesStore, ReadsPackets};
ghost use Rattle.mtn_cli.specs.Store.{ShowsDamage};
ghost use Rattle.mtn_frame.specs.Frame.{TellsDamage};
ghost use Rattle.mtn_frame.specs.Script.{is_session as session_words};

use mtn_base::Bytes;
use mtn_model::Status;
use mtn_ports::{Ident, Keeper, Sink, Source};
use std::alloc::Global;
use std::thread::Threads;

/// `mtn_cli::run`.
pub fn run<R: Threads + Sync, I: Ident, S: Source, O: Sink, K: Keeper>(
    rt: &R,
    alloc: Global,
    words: &[Bytes],
    ident: &I,
    source: &mut S,
    sink: &mut O,
    keeper: &mut K,
) -> Status
    ensures { TellsDamage (ShowsDamage (I.meaning ident.now) (ReadsPackets words.now (S.left source.old) (S.left source.new)) (ChecksStore words.now (S.left source.old) (S.left source.new)) (MigratesStore words.now (S.left source.old) (S.left source.new))) (session_words words.now)
        (record { contents = K.contents keeper.old; left = S.left source.old; written = O.written sink.old })
        (record { contents = K.contents keeper.new; left = S.left source.new; written = O.written sink.new }) result }
{
    mtn_cli::run(rt, alloc, words, ident, source, sink, keeper)
}

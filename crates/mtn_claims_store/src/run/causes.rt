// The cause of each status.
ghost use Rattle.mtn_cli.specs.Run.{is_read};
ghost use Rattle.mtn_cli.specs.Store.{is_merging, is_spelled};
ghost use Rattle.mtn_frame.specs.Frame.{HasCauses};
ghost use Rattle.mtn_frame.specs.Script.{is_session as session_words};
ghost use Rattle.mtn_frame.specs.Top.{in_grammar, is_merge};

use mtn_base::Bytes;
use mtn_model::Status;
use mtn_ports::{Ident, Keeper, Sink, Source};
use std::alloc::Global;
use std::thread::Threads;

/// `mtn_cli::run`.
pub fn run<R: Threads + Sync, I: Ident, S: Source, O: Sink, K: Keeper>(
    rt: &R,
    alloc: Global,
    words: &[Bytes],
    ident: &I,
    source: &mut S,
    sink: &mut O,
    keeper: &mut K,
) -> Status
    ensures { HasCauses (session_words words.now) (in_grammar is_spelled words.now) (is_merge is_merging words.now) (is_read words.now)
        (record { contents = K.contents keeper.old; left = S.left source.old; written = O.written sink.old })
        (record { contents = K.contents keeper.new; left = S.left source.new; written = O.written sink.new })
        (record { keeper = K.faults keeper.old; source = S.faults source.old; sink = O.faults sink.old; reads = K.reads keeper.old })
        (record { keeper = K.faults keeper.new; source = S.faults source.new; sink = O.faults sink.new; reads = K.reads keeper.new }) result }
{
    mtn_cli::run(rt, alloc, words, ident, source, sink, keeper)
}

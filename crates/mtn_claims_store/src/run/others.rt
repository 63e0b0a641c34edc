// Its other clauses.
ghost use Rattle.mtn_cli.specs.Run.{AtMost, ChecksAreSound, HeadsMergesAreDecided, OrderFree, Outcomes, Scripts, is_read};
ghost use Rattle.mtn_cli.specs.Store.{IsLine};
ghost use Rattle.mtn_frame.specs.Frame.{AsksFew, Completes, Writes};
ghost use Rattle.mtn_frame.specs.Script.{is_session as session_words};
ghost use Rattle.mtn_history.specs.Stands.{Stands};
ghost use Rattle.mtn_old_stores.specs.Stores.{StandsIn};

use mtn_base::Bytes;
use mtn_model::Status;
use mtn_ports::{Ident, Keeper, Sink, Source};
use std::alloc::Global;
use std::thread::Threads;

/// `mtn_cli::run`.
pub fn run<R: Threads + Sync, I: Ident, S: Source, O: Sink, K: Keeper>(
    rt: &R,
    alloc: Global,
    words: &[Bytes],
    ident: &I,
    source: &mut S,
    sink: &mut O,
    keeper: &mut K,
) -> Status
    ensures written { Writes IsLine (session_words words.now) (O.written sink.old) (O.written sink.new) result }
    ensures complete { Completes (StandsIn (I.meaning ident.now)) (Outcomes (I.meaning ident.now)) (Scripts words.now) (is_read words.now)
        (record { contents = K.contents keeper.old; left = S.left source.old; written = O.written sink.old })
        (record { contents = K.contents keeper.new; left = S.left source.new; written = O.written sink.new })
        (record { keeper = K.faults keeper.old; source = S.faults source.old; sink = O.faults sink.old; reads = K.reads keeper.old })
        (record { keeper = K.faults keeper.new; source = S.faults source.new; sink = O.faults sink.new; reads = K.reads keeper.new }) result }
    ensures checks { ChecksAreSound (I.meaning ident.now) words.now
        (record { contents = K.contents keeper.old; left = S.left source.old; written = O.written sink.old })
        (record { contents = K.contents keeper.new; left = S.left source.new; written = O.written sink.new }) result }
    ensures few_reads { AsksFew (Stands (I.meaning ident.now)) (AtMost (I.meaning ident.now) words.now) (session_words words.now) (is_read words.now)
        (record { contents = K.contents keeper.old; left = S.left source.old; written = O.written sink.old })
        (record { contents = K.contents keeper.new; left = S.left source.new; written = O.written sink.new })
        (record { keeper = K.faults keeper.old; source = S.faults source.old; sink = O.faults sink.old; reads = K.reads keeper.old })
        (record { keeper = K.faults keeper.new; source = S.faults source.new; sink = O.faults sink.new; reads = K.reads keeper.new }) }
    ensures order_free { OrderFree (I.meaning ident.now) words.now }
    ensures merges_heads { HeadsMergesAreDecided (I.meaning ident.now) words.now
        (record { contents = K.contents keeper.old; left = S.left source.old; written = O.written sink.old })
        (record { contents = K.contents keeper.new; left = S.left source.new; written = O.written sink.new }) result }
{
    mtn_cli::run(rt, alloc, words, ident, source, sink, keeper)
}

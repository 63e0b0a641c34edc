//! The public calls of the frame under their own contracts.
ghost use Rattle.std.specs.Prelude.{◌≡◌, ◌≤◌, IfOk, IsErrOf, OnErr, true};
ghost use Rattle.mtn_frame.specs.Limit.{Stops};
ghost use Rattle.mtn_frame.specs.One.{Puts};
ghost use Rattle.mtn_frame.specs.Payload.{takes_last as takes_payload};
ghost use Rattle.mtn_frame.specs.Requests.{ReadsList};
ghost use Rattle.mtn_frame.specs.Script.{Does, IsScript, is_session as session_words};
ghost use Rattle.mtn_frame.specs.Session.{goes_on as answers_on};
ghost use Rattle.mtn_frame.specs.Works.{Settles};
ghost use Rattle.mtn_frame.specs.Top.{Feeds, Runs, Unread, fed, in_grammar, is_merge, is_vouch, reads};
ghost use Rattle.mtn_ports.specs.Causes.{Rose};

use mtn_base::{Bytes, List};
use mtn_frame::settle::Settled;
use mtn_frame::{Commands, Form, ReadStop, Request, RequestStop, WorkError, Worked};
use mtn_model::Status;
use mtn_ports::{Batch, KeepError, Keeper, Sink, Source};
use std::alloc::Global;

/// As `mtn_frame::takes_last`.
pub fn takes_last(words: &[Bytes]) -> bool
    ensures { result ≡ takes_payload words.now }
{
    mtn_frame::takes_last(words)
}

/// As `mtn_frame::read_requests`.
pub fn read_requests(alloc: Global, input: &[u8]) -> Result<List<Request>, RequestStop>
    ensures { ReadsList input.now result }
{
    mtn_frame::read_requests(alloc, input)
}

/// As `mtn_frame::feed`.
pub fn feed<S: Source>(alloc: Global, reads: bool, source: &mut S) -> Result<Vec<u8>, ReadStop>
    ensures all { IfOk result (λ payload. Feeds reads (S.left source.old) (S.left source.new) payload.items) }
    ensures limit { Stops reads (S.left source.old) (S.left source.new) result }
    ensures unread { Unread reads (S.left source.old) (S.left source.new) }
    ensures reads { OnErr result (reads ≡ true) }
    ensures later { S.faults source.old ≤ S.faults source.new }
    ensures failed { IsErrOf result ReadStop.Failed → Rose (S.faults source.old) (S.faults source.new) }
{
    mtn_frame::feed(alloc, reads, source)
}

/// As `mtn_frame::settle::settle`.
pub fn settle(alloc: Global, form: Form, worked: Result<Worked, WorkError>) -> Settled
    ensures { Settles form worked result }
{
    mtn_frame::settle::settle(alloc, form, worked)
}

/// As `mtn_frame::goes_on`.
pub fn goes_on(status: Status) -> bool
    ensures { result ≡ answers_on status }
{
    mtn_frame::goes_on(status)
}

/// As `mtn_frame::put_all`, handed where memory is taken from: it takes none.
pub fn put_all<K: Keeper>(_alloc: Global, keeper: &mut K, batch: Batch) -> Result<(), KeepError>
    ensures { Puts K.contents K.leaves K.faults K.reads keeper.old keeper.new batch result }
{
    mtn_frame::put_all(keeper, batch)
}

/// As `mtn_frame::run_frame`.
pub fn run_frame<C: Commands, S: Source, O: Sink, K: Keeper>(
    alloc: Global,
    words: &[Bytes],
    commands: &C,
    source: &mut S,
    sink: &mut O,
    keeper: &mut K,
) -> Status
    ensures { Runs (C.stands commands.now) (C.damages commands.now) (C.firsts commands.now) (C.refuses commands.now) C.lines (Does (C.does commands.now)) (λ input. C.bounds commands.now words.now (fed (reads C.spelled C.takes words.now) input)) (λ input. C.changes commands.now words.now (fed (reads C.spelled C.takes words.now) input)) (C.does commands.now words.now) (λ input. IsScript C.takes words.now (fed (reads C.spelled C.takes words.now) input))
        (session_words words.now) (in_grammar C.spelled words.now) (is_merge C.merging words.now) (is_vouch C.vouching words.now) (reads C.spelled C.takes words.now)
        (record { contents = K.contents keeper.old; left = S.left source.old; written = O.written sink.old })
        (record { contents = K.contents keeper.new; left = S.left source.new; written = O.written sink.new })
        (record { keeper = K.faults keeper.old; source = S.faults source.old; sink = O.faults sink.old; reads = K.reads keeper.old })
        (record { keeper = K.faults keeper.new; source = S.faults source.new; sink = O.faults sink.new; reads = K.reads keeper.new })
        (K.leaves keeper.old) (K.leaves keeper.new) result }
{
    mtn_frame::run_frame(alloc, words, commands, source, sink, keeper)
}

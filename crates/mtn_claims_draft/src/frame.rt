//! An answer that is written.
ghost use Rattle.std.specs.Prelude.{◌≡◌, ◌≤◌};
ghost use Rattle.mtn_frame.specs.One.{Delivers};
ghost use Rattle.mtn_frame.specs.Script.{is_session as session_words};

use mtn_base::Bytes;
use mtn_model::Status;
use mtn_ports::Sink;

/// As `mtn_frame::deliver`.
pub fn deliver<O: Sink>(sink: &mut O, status: Status, text: &[u8]) -> Status
    ensures later { O.faults sink.old ≤ O.faults sink.new }
    ensures delivers { Delivers status text.now (O.written sink.old) (O.written sink.new) (O.faults sink.old) (O.faults sink.new) result }
{
    mtn_frame::deliver(sink, status, text)
}

/// As `mtn_frame::is_session`.
pub fn is_session(words: &[Bytes]) -> bool
    ensures { result ≡ session_words words.now }
{
    mtn_frame::is_session(words)
}

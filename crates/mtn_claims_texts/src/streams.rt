// Sources and sinks.
ghost use Rattle.std.specs.Prelude.{◌≡◌, ◌<◌, [], IfOk, Some, length};
ghost use Rattle.std.specs.Io.{ReadsAtMost};
ghost use Rattle.std.specs.Io.KnownBytes.{ReadConsumes, WriteAppends};
ghost use Rattle.mtn_ports.specs.Causes.{HasCause, Takes};
ghost use Rattle.mtn_ports.specs.Memory.{none_yet, source_calls, source_left};

use mtn_base::NoMemory;
use mtn_ports::{MemSink, MemSource, Sink, SinkError, Source, SourceError};
use std::alloc::Global;

/// As `Source::read`.
pub fn read<S: Source>(source: &mut S, buf: &mut [u8]) -> Result<usize, SourceError>
    requires { 0 < length buf.old }
    ensures bound { ReadsAtMost result buf.new }
    ensures bytes { ReadConsumes (S.left source.old) (S.left source.new) result buf.new }
    ensures cause { HasCause (S.faults source.old) (S.faults source.new) result }
{
    source.read(buf)
}

/// As `Sink::write`.
pub fn write<O: Sink>(sink: &mut O, bytes: &[u8]) -> Result<usize, SinkError>
    ensures bound { Takes result bytes.now }
    ensures bytes { WriteAppends (O.written sink.old) (O.written sink.new) result bytes.now }
    ensures cause { HasCause (O.faults sink.old) (O.faults sink.new) result }
{
    sink.write(bytes)
}

/// As `MemSource::new`.
pub fn new_source(input: Vec<u8>, failing: Vec<u64>) -> MemSource
    ensures left { source_left result ≡ Some input.items }
    ensures calls { source_calls result ≡ none_yet failing.items }
{
    MemSource::new(input, failing)
}

/// As `MemSink::new`.
pub fn new_sink(alloc: Global, room: usize, failing: Vec<u64>) -> Result<MemSink, NoMemory>
    ensures { IfOk result (λ s. s ≡ record { written = []; room = room; calls = none_yet failing.items }) }
{
    MemSink::new(alloc, room, failing)
}

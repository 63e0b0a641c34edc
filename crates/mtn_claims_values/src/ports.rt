//! Batches, and the objects from outside.
ghost use Rattle.std.specs.List.{AllByRecursion};
ghost use Rattle.std.specs.Prelude.{[], ◌≡◌, IfOk, Some, length, true};
ghost use Rattle.mtn_ports.specs.Indexed.{IsKeyed};
ghost use Rattle.mtn_ports.specs.Memory.{sink_written};

use mtn_base::NoMemory;
use mtn_ports::{Batch, Doubtful, Keeper, MemKeeper, MemSink, Put, StdSink, StdSource};
use std::alloc::Global;
use std::io::{Read, Write};

/// As `Put::copy`.
pub fn copy_put(one: &Put, alloc: Global) -> Result<Put, NoMemory>
    ensures { IfOk result (λ put. put ≡ one.now) }
{
    one.copy(alloc)
}

/// As `Batch::new`.
pub fn new_batch(alloc: Global) -> Batch
    ensures { result ≡ [] }
{
    Batch::new(alloc)
}

/// As `Batch::len`.
pub fn batch_len(batch: &Batch) -> usize
    ensures { result ≡ length batch.now }
{
    batch.len()
}

/// As `Batch::copy`.
pub fn copy_batch(batch: &Batch) -> Result<Batch, NoMemory>
    ensures { IfOk result (λ copy. copy ≡ batch.now) }
{
    batch.copy()
}

/// As `Batch::as_slice`.
pub fn as_slice(batch: &Batch) -> &[Put]
    ensures value { result.now ≡ batch.now }
    ensures keyed { AllByRecursion IsKeyed batch.now }
{
    batch.as_slice()
}

/// As `Doubtful::new`.
pub fn new_doubtful<K: Keeper>(keeper: K) -> Doubtful<K>
    ensures keeper { result.keeper ≡ keeper }
    ensures is_clean { result.is_clean ≡ true }
{
    Doubtful::new(keeper)
}

/// As `MemKeeper::reads`.
pub fn reads(keeper: &MemKeeper) -> u64
    ensures { result ≡ keeper.now.reads }
{
    keeper.reads()
}

/// As `MemSink::written`.
pub fn written(sink: &MemSink) -> &[u8]
    ensures { Some result.now ≡ sink_written sink.now }
{
    sink.written()
}

/// As `StdSink::new`.
pub fn new_std_sink<W: Write>(writer: W) -> StdSink<W>
    ensures writer { result.writer ≡ writer }
    ensures faults { result.faults ≡ 0 }
{
    StdSink::new(writer)
}

/// As `StdSource::new`.
pub fn new_std_source<R: Read>(reader: R) -> StdSource<R>
    ensures reader { result.reader ≡ reader }
    ensures faults { result.faults ≡ 0 }
{
    StdSource::new(reader)
}

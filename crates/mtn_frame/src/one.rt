//! One job: done, put, and answered.
ghost use Rattle.std.specs.Prelude.{◌≡◌, ◌≤◌, IfSome};
ghost use Rattle.mtn_frame.specs.Script.{Does, BoundsJob, ChangesJob};
ghost use Rattle.mtn_frame.specs.Works.{Works, is_spelled, is_merging, is_vouching};
ghost use Rattle.mtn_frame.specs.One.{One, Puts, Delivers};

use crate::script::{Form, Job};
use crate::settle::settle;
use crate::works::{Commands, WorkError, Worked};
use mtn_base::{Cause, Refusal};
use mtn_model::Status;
use mtn_ports::{Batch, KeepError, Keeper, Sink};
use std::alloc::Global;

// What a job comes to.
fn work_on<C: Commands, K: Keeper>(
    alloc: Global,
    commands: &C,
    job: Job,
    memory: &mut C::Memory,
    keeper: &mut K,
) -> Result<Worked, WorkError>
    requires { IfSome (K.contents keeper.old) (C.knows commands.now memory.old) }
    ensures { Works (C.stands commands.now) (C.damages commands.now) (C.firsts commands.now) (C.refuses commands.now) C.lines (C.knows commands.now) K.contents K.leaves K.faults K.reads keeper.old keeper.new memory.new
        (is_spelled C.spelled job) (is_merging C.merging job) (is_vouching C.vouching job) (Does (C.does commands.now) job) (BoundsJob (C.bounds commands.now) job) (ChangesJob (C.changes commands.now) job) result }
{
    match job {
        Job::Call { words, payload } => {
            commands.work(alloc, words.as_slice(), payload, memory, keeper)
        }
        Job::BadInput { number } => Err(WorkError::Refused {
            refusal: Refusal {
                packet: 0,
                cause: Cause::BadRequest { number },
            },
        }),
    }
}

/// Puts the records, all of them or none; where there are none the keeper is not called.
pub fn put_all<K: Keeper>(keeper: &mut K, batch: Batch) -> Result<(), KeepError>
    ensures { Puts K.contents K.leaves K.faults K.reads keeper.old keeper.new batch result }
{
    if batch.len() == 0 {
        return Ok(());
    }
    keeper.apply(batch)
}

/// Writes the text from its front; the status is that, or SinkFault.
pub fn deliver<O: Sink>(sink: &mut O, status: Status, text: &[u8]) -> Status
    ensures later { O.faults sink.old ≤ O.faults sink.new }
    ensures delivers { Delivers status text.now (O.written sink.old) (O.written sink.new) (O.faults sink.old) (O.faults sink.new) result }
{
    let mut at = 0;
    while at < text.len() {
        match sink.write(&text[at..]) {
            Ok(count) => at += count,
            Err(_) => return Status::SinkFault,
        }
    }
    status
}

/// Does one job, puts its records and writes its answer. Nothing takes memory after the keeper's call.
pub fn one<C: Commands, O: Sink, K: Keeper>(
    alloc: Global,
    commands: &C,
    form: Form,
    job: Job,
    memory: &mut C::Memory,
    sink: &mut O,
    keeper: &mut K,
) -> Status
    requires { IfSome (K.contents keeper.old) (C.knows commands.now memory.old) }
    ensures { One (C.stands commands.now) (C.damages commands.now) (C.firsts commands.now) (C.refuses commands.now) C.lines (C.knows commands.now) K.contents K.leaves K.faults K.reads keeper.old keeper.new memory.new
        (O.written sink.old) (O.written sink.new) (O.faults sink.old) (O.faults sink.new) form (is_spelled C.spelled job) (is_merging C.merging job) (is_vouching C.vouching job) (Does (C.does commands.now) job) (BoundsJob (C.bounds commands.now) job) (ChangesJob (C.changes commands.now) job) result }
{
    let worked = work_on(alloc, commands, job, memory, keeper);
    let settled = settle(alloc, form, worked);
    match put_all(keeper, settled.batch) {
        Ok(()) => deliver(sink, settled.status, settled.text.as_slice()),
        Err(KeepError::Failed) => Status::StoreFault,
        Err(KeepError::NoMemory) => Status::NoMemory,
    }
}

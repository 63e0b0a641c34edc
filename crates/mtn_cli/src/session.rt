// One job, and the jobs of a session one after the other.
ghost use Rattle.std.specs.Prelude.{◌≡◌, true, IfSome};
ghost use Rattle.std.specs.List.{list_any};
ghost use Rattle.mtn_cli.specs.Step.{Step};
ghost use Rattle.mtn_cli.specs.Store.{IsFirstLine, IsLine, IsOldStore, ShowsDamage, bounds, changes, is_checking, is_merging, is_spelled, job_checking, job_migrating, job_reading, script_checking, script_migrating, script_reading};
ghost use Rattle.mtn_frame.specs.One.{One};
ghost use Rattle.mtn_frame.specs.Script.{BoundsJob, ChangesJob, Does};
ghost use Rattle.mtn_frame.specs.Session.{RunsJobs, RunsScript, script_merging, script_spelled, script_vouching};
ghost use Rattle.mtn_frame.specs.Works.{is_merging as job_merging, is_spelled as job_spelled, is_vouching as job_vouching};
ghost use Rattle.mtn_history.specs.Memory.{Knows};
ghost use Rattle.mtn_old_stores.specs.Stores.{StandsIn};

use crate::works::work_job;
use mtn_base::List;
use mtn_frame::settle::settle;
use mtn_frame::{Form, Job, Script, deliver, goes_on, put_all};
use mtn_history::Memory;
use mtn_model::Status;
use mtn_ports::{Ident, KeepError, Keeper, Sink};
use std::alloc::Global;
use std::thread::Threads;

// Does one job, puts its records and writes its answer. Nothing takes memory after the keeper's call.
fn one<R: Threads + Sync, I: Ident, O: Sink, K: Keeper>(
    rt: &R,
    alloc: Global,
    ident: &I,
    form: Form,
    job: Job,
    memory: &mut Memory,
    sink: &mut O,
    keeper: &mut K,
) -> Status
    requires { IfSome (K.contents keeper.old) (Knows memory.old) }
    ensures { One (StandsIn (I.meaning ident.now)) (ShowsDamage (I.meaning ident.now) (job_reading job ≡ true) (job_checking job ≡ true) (job_migrating job ≡ true)) (IsFirstLine (I.meaning ident.now)) IsOldStore IsLine Knows K.contents K.leaves K.faults K.reads keeper.old keeper.new memory.new
        (O.written sink.old) (O.written sink.new) (O.faults sink.old) (O.faults sink.new) form (job_spelled is_spelled job) (job_merging is_merging job) (job_vouching is_checking job) (Does (Step (I.meaning ident.now)) job) (BoundsJob (bounds (I.meaning ident.now)) job) (ChangesJob (changes (I.meaning ident.now)) job) result }
{
    let worked = work_job(rt, alloc, ident, job, memory, keeper);
    let settled = settle(alloc, form, worked);
    match put_all(keeper, settled.batch) {
        Ok(()) => deliver(sink, settled.status, settled.text.as_slice()),
        Err(KeepError::Failed) => Status::StoreFault,
        Err(KeepError::NoMemory) => Status::NoMemory,
    }
}

// Does the jobs in order: each is done, put and answered before the next begins. A fault of the sink or of the keeper, want of
// memory and a damage end the session.
fn run_jobs<R: Threads + Sync, I: Ident, O: Sink, K: Keeper>(
    rt: &R,
    alloc: Global,
    ident: &I,
    jobs: List<Job>,
    memory: &mut Memory,
    sink: &mut O,
    keeper: &mut K,
) -> Status
    requires { IfSome (K.contents keeper.old) (Knows memory.old) }
    ensures { RunsJobs (StandsIn (I.meaning ident.now)) (ShowsDamage (I.meaning ident.now) (list_any job_reading jobs ≡ true) (list_any job_checking jobs ≡ true) (list_any job_migrating jobs ≡ true)) (Does (Step (I.meaning ident.now))) K.contents K.leaves K.faults keeper.old keeper.new
        (O.written sink.old) (O.written sink.new) (O.faults sink.old) (O.faults sink.new) jobs result }
{
    let jobs = jobs.into_vec();
    // No number is above it.
    let _count = jobs.len();
    let mut number = 0;
    for job in jobs {
        let form = Form::Numbered { number };
        let status = one(rt, alloc, ident, form, job, memory, sink, keeper);
        if !goes_on(status) {
            return status;
        }
        number += 1;
    }
    Status::Ok
}

/// Does what the words and the input are to do.
pub fn run_script<R: Threads + Sync, I: Ident, O: Sink, K: Keeper>(
    rt: &R,
    alloc: Global,
    ident: &I,
    script: Script,
    sink: &mut O,
    keeper: &mut K,
) -> Status
    ensures { RunsScript (StandsIn (I.meaning ident.now)) (ShowsDamage (I.meaning ident.now) (script_reading script ≡ true) (script_checking script ≡ true) (script_migrating script ≡ true)) (IsFirstLine (I.meaning ident.now)) IsOldStore IsLine (Does (Step (I.meaning ident.now))) (BoundsJob (bounds (I.meaning ident.now))) (ChangesJob (changes (I.meaning ident.now))) K.contents K.leaves K.faults K.reads keeper.old keeper.new
        (O.written sink.old) (O.written sink.new) (O.faults sink.old) (O.faults sink.new) script (script_spelled is_spelled script) (script_merging is_merging script) (script_vouching is_checking script) result }
{
    let mut memory = Memory::new(alloc);
    match script {
        Script::Bare { job } => one(
            rt,
            alloc,
            ident,
            Form::Plain,
            job,
            &mut memory,
            sink,
            keeper,
        ),
        Script::Framed { jobs } => run_jobs(rt, alloc, ident, jobs, &mut memory, sink, keeper),
    }
}

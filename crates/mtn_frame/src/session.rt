//! The jobs of a session, one after the other.
ghost use Rattle.std.specs.Prelude.{◌≡◌, IfSome};
ghost use Rattle.mtn_frame.specs.Script.{Does, BoundsJob, ChangesJob};
ghost use Rattle.mtn_frame.specs.Works.{is_spelled, is_merging, is_vouching};
ghost use Rattle.mtn_frame.specs.Session.{RunsJobs, RunsScript, goes_on as answers_on, script_spelled, script_merging, script_vouching};

use crate::one::one;
use crate::script::{Form, Job, Script};
use crate::works::Commands;
use mtn_base::List;
use mtn_model::Status;
use mtn_ports::{Keeper, Sink};
use std::alloc::Global;

/// Whether a session goes on behind such an answer.
pub fn goes_on(status: Status) -> bool
    ensures { result ≡ answers_on status }
{
    match status {
        Status::Ok | Status::Refused | Status::Usage | Status::Conflicts => true,
        Status::SourceFault | Status::SinkFault | Status::StoreFault => false,
        Status::NoMemory | Status::Damaged | Status::TooLong => false,
    }
}

/// Does the jobs in order, each of which is handed over: each is done, put and answered before the next begins. A fault of the sink or of the keeper, want
/// of memory and a damage end the session.
pub fn run_jobs<C: Commands, O: Sink, K: Keeper>(
    alloc: Global,
    commands: &C,
    jobs: List<Job>,
    memory: &mut C::Memory,
    sink: &mut O,
    keeper: &mut K,
) -> Status
    requires { IfSome (K.contents keeper.old) (C.knows commands.now memory.old) }
    ensures { RunsJobs (C.stands commands.now) (C.damages commands.now) (Does (C.does commands.now)) K.contents K.leaves K.faults keeper.old keeper.new
        (O.written sink.old) (O.written sink.new) (O.faults sink.old) (O.faults sink.new) jobs result }
{
    let jobs = jobs.into_vec();
    // No number is above it.
    let _count = jobs.len();
    let mut number = 0;
    for job in jobs {
        let form = Form::Numbered { number };
        let status = one(alloc, commands, form, job, memory, sink, keeper);
        if !goes_on(status) {
            return status;
        }
        number += 1;
    }
    Status::Ok
}

/// Does what the words and the input are to do.
pub fn run_script<C: Commands, O: Sink, K: Keeper>(
    alloc: Global,
    commands: &C,
    script: Script,
    sink: &mut O,
    keeper: &mut K,
) -> Status
    ensures { RunsScript (C.stands commands.now) (C.damages commands.now) (C.firsts commands.now) (C.refuses commands.now) C.lines (Does (C.does commands.now)) (BoundsJob (C.bounds commands.now)) (ChangesJob (C.changes commands.now)) K.contents K.leaves K.faults K.reads keeper.old keeper.new
        (O.written sink.old) (O.written sink.new) (O.faults sink.old) (O.faults sink.new) script (script_spelled C.spelled script) (script_merging C.merging script) (script_vouching C.vouching script) result }
{
    let mut memory = commands.begin(alloc);
    match script {
        Script::Bare { job } => one(alloc, commands, Form::Plain, job, &mut memory, sink, keeper),
        Script::Framed { jobs } => run_jobs(alloc, commands, jobs, &mut memory, sink, keeper),
    }
}

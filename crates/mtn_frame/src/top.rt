//! The frame of the top call.
ghost use Rattle.std.specs.Prelude.{◌≡◌, ◌≤◌, ◌&&◌, ◌||◌, IfOk, OnErr, IsErrOf, map, true};
ghost use Rattle.mtn_frame.specs.Script.{Does, IsScript, is_session as session_words, IsSession, job_of, front_of, last_of};
ghost use Rattle.mtn_frame.specs.Limit.{Stops};
ghost use Rattle.mtn_frame.specs.Top.{Feeds, Unread, Runs, reads, fed, in_grammar, is_merge, is_vouch};
ghost use Rattle.mtn_ports.specs.Causes.{Rose};

use crate::payload::{ReadStop, read_payload};
use crate::requests::{Request, RequestStop, read_requests};
use crate::script::{Job, Script};
use crate::session::run_script;
use crate::works::Commands;
use mtn_base::{Bytes, List, NoMemory};
use mtn_model::Status;
use mtn_ports::{Keeper, Sink, Source};
use std::alloc::Global;

/// Whether the words are those of a session: `stdio`, or that and the word that ends options.
pub fn is_session(words: &[Bytes]) -> bool
    ensures { result ≡ session_words words.now }
{
    match words {
        [word] => word.as_slice() == b"stdio".as_slice(),
        [word, end] => {
            word.as_slice() == b"stdio".as_slice() && end.as_slice() == b"--".as_slice()
        }
        _ => false,
    }
}

// Whether the source is read.
fn reads_source<C: Commands>(alloc: Global, commands: &C, words: &[Bytes]) -> Result<bool, NoMemory>
    ensures { IfOk result (λ b. b ≡ reads C.spelled C.takes words.now) }
{
    if is_session(words) {
        return Ok(true);
    }
    let spelled = commands.is_spelled(alloc, words)?;
    Ok(spelled && commands.takes_payload(words))
}

/// What is given of the source: all of it, or nothing where it is not read.
pub fn feed<S: Source>(alloc: Global, reads: bool, source: &mut S) -> Result<Vec<u8>, ReadStop>
    ensures all { IfOk result (λ payload. Feeds reads (S.left source.old) (S.left source.new) payload.items) }
    ensures limit { Stops reads (S.left source.old) (S.left source.new) result }
    ensures unread { Unread reads (S.left source.old) (S.left source.new) }
    ensures reads { OnErr result (reads ≡ true) }
    ensures later { S.faults source.old ≤ S.faults source.new }
    ensures failed { IsErrOf result ReadStop.Failed → Rose (S.faults source.old) (S.faults source.new) }
{
    if reads {
        read_payload(alloc, source)
    } else {
        Ok(Vec::new(alloc))
    }
}

fn copies(alloc: Global, words: &[Bytes]) -> Result<List<Bytes>, NoMemory>
    ensures { IfOk result (λ l. l ≡ words.now) }
{
    let mut copies = Vec::with_capacity(alloc, words.len())?;
    for word in words {
        copies.push(word.copy(alloc)?)?;
    }
    Ok(List::from_vec(copies))
}

// The job of a request.
fn job_of_request<C: Commands>(alloc: Global, commands: &C, request: Request) -> Job
    ensures { result ≡ job_of C.takes request }
{
    let takes = commands.takes_payload(request.words.as_slice());
    let mut words = request.words.into_vec();
    if !takes {
        return Job::Call {
            words: List::from_vec(words),
            payload: List::new(alloc),
        };
    }
    match words.pop() {
        Some(payload) => Job::Call {
            words: List::from_vec(words),
            payload,
        },
        None => Job::Call {
            words: List::from_vec(words),
            payload: List::new(alloc),
        },
    }
}

fn jobs_of_requests<C: Commands>(
    alloc: Global,
    commands: &C,
    requests: List<Request>,
) -> Result<List<Job>, NoMemory>
    ensures { IfOk result (λ jobs. jobs ≡ map (job_of C.takes) requests) }
{
    let mut jobs = List::new(alloc);
    for request in requests.into_vec() {
        jobs.push(job_of_request(alloc, commands, request))?;
    }
    Ok(jobs)
}

// What a session is to do.
fn session_of<C: Commands>(alloc: Global, commands: &C, input: &[u8]) -> Result<Script, NoMemory>
    ensures { IfOk result (IsSession C.takes input.now) }
{
    match read_requests(alloc, input) {
        Ok(requests) => Ok(Script::Framed {
            jobs: jobs_of_requests(alloc, commands, requests)?,
        }),
        Err(RequestStop::Bad { number }) => Ok(Script::Bare {
            job: Job::BadInput { number },
        }),
        Err(RequestStop::NoMemory) => Err(NoMemory),
    }
}

// What the words with the input are to do.
fn script_of<C: Commands>(
    alloc: Global,
    commands: &C,
    words: &[Bytes],
    input: Vec<u8>,
) -> Result<Script, NoMemory>
    ensures { IfOk result (IsScript C.takes words.now input.items) }
{
    if is_session(words) {
        return session_of(alloc, commands, &input);
    }
    Ok(Script::Bare {
        job: Job::Call {
            words: copies(alloc, words)?,
            payload: List::from_vec(input),
        },
    })
}

/// Does one command or one session over a store: reads the words, then, if they ask for it, the source to its end; then each job
/// is done, its records are put by one call of the keeper, and its answer, which stood before, is written.
pub fn run_frame<C: Commands, S: Source, O: Sink, K: Keeper>(
    alloc: Global,
    words: &[Bytes],
    commands: &C,
    source: &mut S,
    sink: &mut O,
    keeper: &mut K,
) -> Status
    ensures { Runs (C.stands commands.now) (C.damages commands.now) (C.firsts commands.now) (C.refuses commands.now) C.lines (Does (C.does commands.now)) (λ input. C.bounds commands.now words.now (fed (reads C.spelled C.takes words.now) input)) (λ input. C.changes commands.now words.now (fed (reads C.spelled C.takes words.now) input)) (C.does commands.now words.now) (λ input. IsScript C.takes words.now (fed (reads C.spelled C.takes words.now) input))
        (session_words words.now) (in_grammar C.spelled words.now) (is_merge C.merging words.now) (is_vouch C.vouching words.now) (reads C.spelled C.takes words.now)
        (record { contents = K.contents keeper.old; left = S.left source.old; written = O.written sink.old })
        (record { contents = K.contents keeper.new; left = S.left source.new; written = O.written sink.new })
        (record { keeper = K.faults keeper.old; source = S.faults source.old; sink = O.faults sink.old; reads = K.reads keeper.old })
        (record { keeper = K.faults keeper.new; source = S.faults source.new; sink = O.faults sink.new; reads = K.reads keeper.new })
        (K.leaves keeper.old) (K.leaves keeper.new) result }
{
    let Ok(reads) = reads_source(alloc, commands, words) else {
        return Status::NoMemory;
    };
    let input = match feed(alloc, reads, source) {
        Ok(input) => input,
        Err(ReadStop::Failed) => return Status::SourceFault,
        Err(ReadStop::TooLong) => return Status::TooLong,
        Err(ReadStop::NoMemory) => return Status::NoMemory,
    };
    match script_of(alloc, commands, words, input) {
        Ok(script) => run_script(alloc, commands, script, sink, keeper),
        Err(NoMemory) => Status::NoMemory,
    }
}

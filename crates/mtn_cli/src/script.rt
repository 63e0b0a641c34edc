// From words and an input to what is to be done.
ghost use Rattle.std.specs.Prelude.{◌≡◌, IfOk, map};
ghost use Rattle.mtn_frame.specs.Payload.{takes_last as takes_payload};
ghost use Rattle.mtn_frame.specs.Script.{IsScript, IsSession, job_of};

use mtn_base::{Bytes, List, NoMemory};
use mtn_frame::{Job, Request, RequestStop, Script, is_session, read_requests, takes_last};
use std::alloc::Global;

fn copies(alloc: Global, words: &[Bytes]) -> Result<List<Bytes>, NoMemory>
    ensures { IfOk result (λ l. l ≡ words.now) }
{
    let mut copies = Vec::with_capacity(alloc, words.len())?;
    for word in words {
        copies.push(word.copy(alloc)?)?;
    }
    Ok(List::from_vec(copies))
}

// The job of a request.
fn job_of_request(alloc: Global, request: Request) -> Job
    ensures { result ≡ job_of takes_payload request }
{
    let takes = takes_last(request.words.as_slice());
    let mut words = request.words.into_vec();
    if !takes {
        return Job::Call {
            words: List::from_vec(words),
            payload: List::new(alloc),
        };
    }
    match words.pop() {
        Some(payload) => Job::Call {
            words: List::from_vec(words),
            payload,
        },
        None => Job::Call {
            words: List::from_vec(words),
            payload: List::new(alloc),
        },
    }
}

fn jobs_of_requests(alloc: Global, requests: List<Request>) -> Result<List<Job>, NoMemory>
    ensures { IfOk result (λ jobs. jobs ≡ map (job_of takes_payload) requests) }
{
    let mut jobs = List::new(alloc);
    for request in requests.into_vec() {
        jobs.push(job_of_request(alloc, request))?;
    }
    Ok(jobs)
}

// What a session is to do.
fn session_of(alloc: Global, input: &[u8]) -> Result<Script, NoMemory>
    ensures { IfOk result (IsSession takes_payload input.now) }
{
    match read_requests(alloc, input) {
        Ok(requests) => Ok(Script::Framed {
            jobs: jobs_of_requests(alloc, requests)?,
        }),
        Err(RequestStop::Bad { number }) => Ok(Script::Bare {
            job: Job::BadInput { number },
        }),
        Err(RequestStop::NoMemory) => Err(NoMemory),
    }
}

/// What the words with the input are to do.
pub fn script_of(alloc: Global, words: &[Bytes], input: Vec<u8>) -> Result<Script, NoMemory>
    ensures { IfOk result (IsScript takes_payload words.now input.items) }
{
    if is_session(words) {
        return session_of(alloc, &input);
    }
    Ok(Script::Bare {
        job: Job::Call {
            words: copies(alloc, words)?,
            payload: List::from_vec(input),
        },
    })
}

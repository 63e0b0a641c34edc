//! What the top call is to do.
use crate::requests::Request;
use mtn_base::{Bytes, List};

/// One thing to do: a command by its words with a payload, or to refuse an input that is no list of requests.
#[derive(Drop)]
pub enum Job {
    Call { words: List<Bytes>, payload: Bytes },
    BadInput { number: u64 },
}

/// One job, whose answer is written bare, or the jobs of a session, whose answers are framed.
#[derive(Drop)]
pub enum Script {
    Bare { job: Job },
    Framed { jobs: List<Job> },
}

/// How an answer is written: bare, or as the answer to a request of that number, counted from 0.
#[derive(Clone, Copy, PartialEq, Eq)]
pub enum Form {
    Plain,
    Numbered { number: u64 },
}

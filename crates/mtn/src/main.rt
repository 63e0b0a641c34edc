//! The program: `mtn STORE WORD..` runs one command over a store.
//!
//! STORE is a file, or `-` for an empty store in memory; where the file is not there, it is made by the first command that keeps
//! something. The payload is standard input, the answer standard output, the exit status the number of the answer's
//! status. Nothing is printed to standard error. The proofs here say that the program is safe and ends; what a command
//! does is said by the clauses of `mtn_cli::run`.
#![tactic(auto)]

mod help;
mod line;
mod store;

use line::{Line, line_of};
use mtn_base::{Bytes, NoMemory};
use mtn_cli::{Status, are_words};
use std::process::ExitCode;
use std::thread::Threads;
use store::{in_file, in_memory};

// Prints a text and a line's end; no store is opened.
fn print(rt: &HostRuntime, text: &str, status: Status) -> Status {
    match println!(rt; "{text}") {
        Ok(()) => status,
        Err(_) => Status::SinkFault,
    }
}

// A command over the store that is named; words outside the grammar open none.
fn command<T: Threads + Sync>(
    threads: &T,
    rt: &HostRuntime,
    store: &str,
    words: &[Bytes],
) -> Status {
    match are_words(rt.alloc(), words) {
        Ok(true) if store == "-" => in_memory(threads, rt, words),
        Ok(true) => in_file(threads, rt, store, words),
        Ok(false) => print(rt, "usage", Status::Usage),
        Err(NoMemory) => Status::NoMemory,
    }
}

fn status_of<T: Threads + Sync>(threads: &T, rt: &HostRuntime) -> Status {
    let Ok(line) = line_of(rt) else {
        return Status::NoMemory;
    };
    match line {
        Line::Text(text) => print(rt, text, Status::Ok),
        Line::Usage => print(rt, "usage", Status::Usage),
        Line::Command { store, words } => command(threads, rt, store.as_str(), words.as_slice()),
    }
}

fn main(rt: HostRuntime) -> ExitCode {
    ExitCode::from(status_of(&rt, &rt).number())
}

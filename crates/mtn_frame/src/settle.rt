//! What is written for what a command did: all of it stands before anything is put.
ghost use Rattle.std.specs.Prelude.{◌≡◌, ◌⊎◌, ◌++◌, [], decimal, IfOk, OnOk};
ghost use Rattle.mtn_frame.specs.Script.{print_as, framed, usage_line};
ghost use Rattle.mtn_frame.specs.Works.{Settles, OrWant, settled, silent};
ghost use Rattle.mtn_base.specs.Refusals.{refusal_text};

use crate::script::Form;
use crate::works::{WorkError, Worked};
use mtn_base::{Bytes, List, NoMemory, Refusal};
use mtn_model::Status;
use mtn_ports::Batch;
use std::alloc::Global;

/// How a job ends, what is written for it, and what is put before.
#[derive(Drop)]
pub struct Settled {
    pub status: Status,
    pub text: Bytes,
    pub batch: Batch,
}

/// The answer of a command, whatever it was, in its form; want of memory where it cannot be framed.
pub fn settle(alloc: Global, form: Form, worked: Result<Worked, WorkError>) -> Settled
    ensures { Settles form worked result }
{
    match worked {
        Ok(Worked { reply, batch }) => {
            let status = if reply.conflicts {
                Status::Conflicts
            } else {
                Status::Ok
            };
            or_want(alloc, form, status, reply.text, batch)
        }
        Err(WorkError::Usage) => usage(alloc, form),
        Err(WorkError::Refused { refusal }) => refused(alloc, form, &refusal),
        Err(WorkError::Damaged { line }) => {
            or_want(alloc, form, Status::Damaged, line, Batch::new(alloc))
        }
        Err(WorkError::Failed) => silently(alloc, Status::StoreFault),
        Err(WorkError::NoMemory) => silently(alloc, Status::NoMemory),
    }
}

fn usage(alloc: Global, form: Form) -> Settled
    ensures { OrWant result (settled form Status.Usage usage_line []) }
{
    match Bytes::from_slice(alloc, b"usage\n") {
        Ok(text) => or_want(alloc, form, Status::Usage, text, Batch::new(alloc)),
        Err(NoMemory) => silently(alloc, Status::NoMemory),
    }
}

fn refused(alloc: Global, form: Form, refusal: &Refusal) -> Settled
    ensures { OrWant result (settled form Status.Refused (refusal_text refusal.now) []) }
{
    let mut text = Vec::new(alloc);
    match refusal.print(&mut text) {
        Ok(()) => or_want(
            alloc,
            form,
            Status::Refused,
            List::from_vec(text),
            Batch::new(alloc),
        ),
        Err(NoMemory) => silently(alloc, Status::NoMemory),
    }
}

// The answer in its form, or want of memory with nothing to be put.
fn or_want(alloc: Global, form: Form, status: Status, text: Bytes, batch: Batch) -> Settled
    ensures { OrWant result (settled form status text batch) }
{
    match print_in(alloc, form, status, text) {
        Ok(text) => Settled {
            status,
            text,
            batch,
        },
        Err(NoMemory) => silently(alloc, Status::NoMemory),
    }
}

// A status that is not answered.
fn silently(alloc: Global, status: Status) -> Settled
    ensures { result ≡ silent status }
{
    Settled {
        status,
        text: List::new(alloc),
        batch: Batch::new(alloc),
    }
}

fn print_in(alloc: Global, form: Form, status: Status, text: Bytes) -> Result<Bytes, NoMemory>
    ensures { IfOk result (λ printed. printed ≡ print_as form status text) }
{
    match form {
        Form::Plain => Ok(text),
        Form::Numbered { number } => frame(alloc, number, status, text.as_slice()),
    }
}

// The most that a frame has around its text: two numbers of twenty digits, a size of as many, a status, and what stands between.
const MOST_AROUND: usize = 72;

fn frame(alloc: Global, number: u64, status: Status, text: &[u8]) -> Result<Bytes, NoMemory>
    ensures { IfOk result (λ printed. printed ≡ framed number status text.now) }
{
    let digits = number.to_string(alloc)?;
    let mut out = Vec::with_capacity(alloc, text.len().saturating_add(MOST_AROUND))?;
    out.extend_from_slice(digits.as_bytes())?;
    out.extend_from_slice(b":m:")?;
    push_number(alloc, &mut out, text.len() as u64)?;
    out.push(b':')?;
    out.extend_from_slice(text)?;
    out.extend_from_slice(digits.as_bytes())?;
    out.extend_from_slice(b":l:1:")?;
    push_number(alloc, &mut out, u64::from(status.number()))?;
    Ok(List::from_vec(out))
}

fn push_number(alloc: Global, out: &mut Vec<u8>, number: u64) -> Result<(), NoMemory>
    ensures { OnOk result (out.new.items ≡ out.old.items ++ decimal number) }
{
    let digits = number.to_string(alloc)?;
    out.extend_from_slice(digits.as_bytes())?;
    Ok(())
}

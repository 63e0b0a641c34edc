// The command `read`.
ghost use Rattle.std.specs.Prelude.{◌≡◌, [], IfOk, false, true};
ghost use Rattle.mtn_commands.specs.Drafts.{Performs};
ghost use Rattle.mtn_commands.specs.Reading.{ToldCounts, command_error};
ghost use Rattle.mtn_imports.specs.Imports.{kept_text};
ghost use Rattle.mtn_reading.specs.Reading.{kept_of};
ghost use Rattle.mtn_step.specs.Step.{Steps};

use crate::error::CommandError;
use mtn_base::{Bytes, NoMemory};
use mtn_frame::Reply;
use mtn_history::{Draft, StoreError};
use mtn_ports::{Ident, Keeper};
use mtn_reading::{Counts, ReadError};
use mtn_step::Call;
use std::alloc::Global;
use std::thread::Threads;

// How many of each are new, a line each.
fn counts_text(alloc: Global, new: &Counts) -> Result<Bytes, NoMemory>
    ensures { IfOk result (λ text. text ≡ kept_text (kept_of new.now)) }
{
    let mut text = Vec::new(alloc);
    text.extend_from_slice(b"files ")?;
    text.extend_from_slice(new.files.to_string(alloc)?.as_bytes())?;
    text.extend_from_slice(b"\nrevisions ")?;
    text.extend_from_slice(new.revisions.to_string(alloc)?.as_bytes())?;
    text.extend_from_slice(b"\ncerts ")?;
    text.extend_from_slice(new.certs.to_string(alloc)?.as_bytes())?;
    text.push(b'\n')?;
    Ok(Bytes::from_vec(text))
}

// The reply that tells them.
fn told(alloc: Global, new: &Counts) -> Result<Reply, CommandError>
    ensures { ToldCounts (kept_of new.now) result }
{
    match counts_text(alloc, new) {
        Ok(text) => Ok(Reply {
            conflicts: false,
            text,
        }),
        Err(NoMemory) => Err(CommandError::Store(StoreError::NoMemory)),
    }
}

// The same error for a command.
fn of_command(error: ReadError) -> CommandError
    ensures { result ≡ command_error error }
{
    match error {
        ReadError::Refused(refusal) => CommandError::Refused(refusal),
        ReadError::Store(error) => CommandError::Store(error),
    }
}

/// Reads packets: all are kept, or none, and answers how many files, revisions and certificates are new.
pub fn read<R: Threads + Sync, I: Ident, K: Keeper>(
    rt: &R,
    alloc: Global,
    ident: &I,
    payload: &[u8],
    draft: &mut Draft<'_, K>,
) -> Result<Reply, CommandError>
    requires bare { draft.old.pending.batch ≡ [] }
    ensures same_reference { draft.new.keeper.ghost_name ≡ draft.old.keeper.ghost_name }
    ensures performs { Performs (I.meaning ident.now) K.contents K.leaves K.faults draft.old.keeper.now draft.new.keeper.now draft.old.pending draft.new.pending
        false true (Steps (I.meaning ident.now) Call.Read payload.now) result }
{
    match mtn_reading::read(rt, alloc, ident, draft, payload) {
        Ok(new) => told(alloc, &new),
        Err(error) => Err(of_command(error)),
    }
}

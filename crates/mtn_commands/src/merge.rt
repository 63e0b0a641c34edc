// The command `merge`.
ghost use Rattle.std.specs.Prelude.{◌≡◌, IfOk, Some, None, true, option_copied, if◌then◌else◌};
ghost use Rattle.mtn_conflicts.specs.ConflictText.{IsLesser};
ghost use Rattle.mtn_commands.specs.Certifying.{Merging};
ghost use Rattle.mtn_commands.specs.Drafts.{Replies, reply_of};
ghost use Rattle.mtn_step.specs.Step.{Steps, conflict_text as text_of_conflicts};

use crate::put_text::{KnownText, put_text};
use mtn_base::{Bytes, Id, NoMemory};
use mtn_conflicts::{Conflicts, write};
use mtn_frame::Reply;
use mtn_history::{Draft, HistoryError};
use mtn_merge::{Planned, plan_with};
use mtn_ports::{Ident, Keeper};
use mtn_step::{Call, Said};
use std::alloc::Global;

/// The text of conflicts.
pub fn conflict_text(
    alloc: Global,
    left: Id,
    right: Id,
    conflicts: &Conflicts,
) -> Result<Bytes, NoMemory>
    requires { IsLesser left right }
    ensures { IfOk result (λ text. text ≡ text_of_conflicts left right conflicts.now) }
{
    let mut text = Vec::new(alloc);
    write(left, right, conflicts, &mut text)?;
    Ok(Bytes::from_vec(text))
}

// The text of the resolutions: the payload, where the option says so.
fn resolution_text(resolves: bool, payload: &[u8]) -> Option<&[u8]>
    ensures { option_copied result ≡ if resolves then Some payload.now else None }
{
    if resolves { Some(payload) } else { None }
}

/// The reply of a command that answered a text.
pub fn told(worked: Result<Bytes, HistoryError>) -> Result<Reply, HistoryError>
    ensures { result ≡ reply_of worked }
{
    match worked {
        Ok(text) => Ok(Reply {
            conflicts: false,
            text,
        }),
        Err(error) => Err(error),
    }
}

/// Accepts the merge of two revisions, with what is said of it where something is, and answers its id, or answers the conflicts.
pub fn merge_two<I: Ident, K: Keeper>(
    alloc: Global,
    ident: &I,
    a: Id,
    b: Id,
    resolves: bool,
    payload: &[u8],
    said: Option<&Said>,
    draft: &mut Draft<'_, K>,
) -> Result<Reply, HistoryError>
    ensures same_reference { draft.new.keeper.ghost_name ≡ draft.old.keeper.ghost_name }
    ensures replies { Replies (I.meaning ident.now) K.contents K.leaves K.faults draft.old.keeper.now draft.new.keeper.now draft.old.pending draft.new.pending
        true (Merging (I.meaning ident.now) a b resolves (option_copied said.entry) payload.now) result }
{
    let text = resolution_text(resolves, payload);
    match plan_with(alloc, ident, draft, a, b, text)? {
        Planned::Merged { text, id, tree } => {
            let known = Some(KnownText { id, tree });
            told(put_text(alloc, ident, text.as_slice(), known, said, draft))
        }
        Planned::Conflicted {
            left,
            right,
            conflicts,
        } => Ok(Reply {
            conflicts: true,
            text: conflict_text(alloc, left, right, &conflicts)?,
        }),
    }
}

/// Accepts the merge of two revisions and answers its id, or answers the conflicts.
pub fn merge<I: Ident, K: Keeper>(
    alloc: Global,
    ident: &I,
    a: Id,
    b: Id,
    resolves: bool,
    payload: &[u8],
    draft: &mut Draft<'_, K>,
) -> Result<Reply, HistoryError>
    ensures same_reference { draft.new.keeper.ghost_name ≡ draft.old.keeper.ghost_name }
    ensures replies { Replies (I.meaning ident.now) K.contents K.leaves K.faults draft.old.keeper.now draft.new.keeper.now draft.old.pending draft.new.pending
        true (Steps (I.meaning ident.now) (Call.Merge a b resolves) payload.now) result }
{
    merge_two(alloc, ident, a, b, resolves, payload, None, draft)
}

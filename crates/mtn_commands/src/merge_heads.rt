// The command `merge_heads`.
ghost use Rattle.std.specs.Prelude.{◌≡◌, IfOk, true};
ghost use Rattle.mtn_commands.specs.Certifying.{first_two as first_of};
ghost use Rattle.mtn_commands.specs.Drafts.{Replies};
ghost use Rattle.mtn_step.specs.Certifying.{merge_log as log_of, merge_said as said_of};
ghost use Rattle.mtn_step.specs.Step.{Steps};

use crate::ask::push_id;
use crate::heads::heads_of;
use crate::merge::merge_two;
use mtn_base::{Bytes, Cause, Id, NoMemory};
use mtn_frame::Reply;
use mtn_history::{Draft, HistoryError};
use mtn_ports::{Ident, Keeper};
use mtn_step::{Call, Said};
use std::alloc::Global;

// The changelog of a merge of two heads.
fn merge_log(alloc: Global, left: Id, right: Id) -> Result<Bytes, NoMemory>
    ensures { IfOk result (λ text. text ≡ log_of left right) }
{
    let mut text = Vec::new(alloc);
    text.extend_from_slice(b"merge of '")?;
    push_id(&mut text, left)?;
    text.extend_from_slice(b"'\n     and '")?;
    push_id(&mut text, right)?;
    text.push(b'\'')?;
    Ok(Bytes::from_vec(text))
}

/// What is said of a merge of two heads.
pub fn merge_said(
    alloc: Global,
    key: Id,
    author: &Bytes,
    branch: &Bytes,
    date: &Bytes,
    left: Id,
    right: Id,
) -> Result<Said, NoMemory>
    ensures { IfOk result (λ said. said ≡ said_of key author.now branch.now date.now left right) }
{
    Ok(Said {
        author: author.copy(alloc)?,
        branch: branch.copy(alloc)?,
        changelog: merge_log(alloc, left, right)?,
        date: date.copy(alloc)?,
        key,
    })
}

/// The first two of the heads of a branch, the least since they stand by ascending ids; NoBranch where there is none, OneHead where
/// there is one.
pub fn first_two(ids: &[Id]) -> Result<(Id, Id), HistoryError>
    ensures { result ≡ first_of ids.now }
{
    match ids {
        [] => Err(HistoryError::Refused(Cause::NoBranch)),
        [id] => Err(HistoryError::Refused(Cause::OneHead { id: *id })),
        [left, right, ..] => Ok((*left, *right)),
    }
}

/// Accepts the merge of the two least heads of a branch with what is said of it, and answers its id, or answers the conflicts;
/// NoBranch where the branch has no member, OneHead where it has one head.
pub fn merge_heads<I: Ident, K: Keeper>(
    alloc: Global,
    ident: &I,
    branch: &Bytes,
    author: &Bytes,
    date: &Bytes,
    key: Id,
    resolves: bool,
    payload: &[u8],
    draft: &mut Draft<'_, K>,
) -> Result<Reply, HistoryError>
    ensures same_reference { draft.new.keeper.ghost_name ≡ draft.old.keeper.ghost_name }
    ensures replies { Replies (I.meaning ident.now) K.contents K.leaves K.faults draft.old.keeper.now draft.new.keeper.now draft.old.pending draft.new.pending
        true (Steps (I.meaning ident.now) (Call.MergeHeads branch.now author.now date.now key resolves) payload.now) result }
{
    let ids = heads_of(alloc, draft, branch.as_slice())?;
    let (left, right) = first_two(ids.as_slice())?;
    let said = merge_said(alloc, key, author, branch, date, left, right)?;
    merge_two(
        alloc,
        ident,
        left,
        right,
        resolves,
        payload,
        Some(&said),
        draft,
    )
}

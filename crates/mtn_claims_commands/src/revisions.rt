// Revisions with what is said of them.
ghost use Rattle.std.specs.Prelude.{◌≡◌, IfOk, true};
ghost use Rattle.mtn_commands.specs.Certifying.{first_two as first_of};
ghost use Rattle.mtn_commands.specs.Drafts.{Drafts, Replies};
ghost use Rattle.mtn_step.specs.Certifying.{merge_said as said_of};
ghost use Rattle.mtn_step.specs.Step.{Steps};

use mtn_base::{Bytes, Id, NoMemory};
use mtn_frame::Reply;
use mtn_history::{Draft, HistoryError};
use mtn_ports::{Ident, Keeper};
use mtn_step::{Call, Said};
use std::alloc::Global;

/// `mtn_commands::put_revision::commit`.
pub fn commit<I: Ident, K: Keeper>(
    alloc: Global,
    ident: &I,
    said: &Said,
    payload: &[u8],
    draft: &mut Draft<'_, K>,
) -> Result<Bytes, HistoryError>
    ensures same_reference { draft.new.keeper.ghost_name ≡ draft.old.keeper.ghost_name }
    ensures drafts { Drafts (I.meaning ident.now) K.contents K.leaves K.faults draft.old.keeper.now draft.new.keeper.now draft.old.pending draft.new.pending
        (Steps (I.meaning ident.now) (Call.Commit said.now) payload.now) result }
{
    mtn_commands::put_revision::commit(alloc, ident, said, payload, draft)
}

/// `mtn_commands::merge_heads::merge_said`.
pub fn merge_said(
    alloc: Global,
    key: Id,
    author: &Bytes,
    branch: &Bytes,
    date: &Bytes,
    left: Id,
    right: Id,
) -> Result<Said, NoMemory>
    ensures { IfOk result (λ said. said ≡ said_of key author.now branch.now date.now left right) }
{
    mtn_commands::merge_heads::merge_said(alloc, key, author, branch, date, left, right)
}

/// `mtn_commands::merge_heads::first_two`.
pub fn first_two(ids: &[Id]) -> Result<(Id, Id), HistoryError>
    ensures { result ≡ first_of ids.now }
{
    mtn_commands::merge_heads::first_two(ids)
}

/// `mtn_commands::merge_heads::merge_heads`.
pub fn merge_heads<I: Ident, K: Keeper>(
    alloc: Global,
    ident: &I,
    branch: &Bytes,
    author: &Bytes,
    date: &Bytes,
    key: Id,
    resolves: bool,
    payload: &[u8],
    draft: &mut Draft<'_, K>,
) -> Result<Reply, HistoryError>
    ensures same_reference { draft.new.keeper.ghost_name ≡ draft.old.keeper.ghost_name }
    ensures replies { Replies (I.meaning ident.now) K.contents K.leaves K.faults draft.old.keeper.now draft.new.keeper.now draft.old.pending draft.new.pending
        true (Steps (I.meaning ident.now) (Call.MergeHeads branch.now author.now date.now key resolves) payload.now) result }
{
    let reply = mtn_commands::merge_heads::merge_heads(
        alloc, ident, branch, author, date, key, resolves, payload, draft,
    );
    reply
}

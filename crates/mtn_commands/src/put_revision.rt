// The commands that put a revision's text.
ghost use Rattle.std.specs.Prelude.{◌≡◌, ◌≤◌, ◌+◌, ℕ, Some};
ghost use Rattle.mtn_commands.specs.Drafts.{Drafts};
ghost use Rattle.mtn_step.specs.Step.{Steps};
ghost use Rattle.mtn_put_revision.specs.Reads.{IsBoundOf};
ghost use Rattle.mtn_model.specs.State.{State};
ghost use Rattle.mtn_model.specs.Table.{Contents};
ghost use Rattle.mtn_history.specs.Stands.{IsDraft};

use crate::put_text::put_text;
use mtn_base::Bytes;
use mtn_history::{Draft, HistoryError};
use mtn_ports::{Ident, Keeper};
use mtn_step::{Call, Said};
use std::alloc::Global;

/// Accepts the payload as a revision's text, and answers its id.
pub fn put_revision<I: Ident, K: Keeper>(
    alloc: Global,
    ident: &I,
    payload: &[u8],
    draft: &mut Draft<'_, K>,
) -> Result<Bytes, HistoryError>
    ensures same_reference { draft.new.keeper.ghost_name ≡ draft.old.keeper.ghost_name }
    ensures drafts { Drafts (I.meaning ident.now) K.contents K.leaves K.faults draft.old.keeper.now draft.new.keeper.now draft.old.pending draft.new.pending
        (Steps (I.meaning ident.now) Call.PutRevision payload.now) result }
    ensures reads { (c : Contents) (s : State) (n : ℕ) → K.contents draft.new.keeper.now ≡ Some c → IsDraft (I.meaning ident.now) c draft.old.pending s →
        IsBoundOf 38 (I.meaning ident.now) s payload.now n → K.reads draft.new.keeper.now ≤ K.reads draft.old.keeper.now + n }
{
    put_text(alloc, ident, payload, None, None, draft)
}

/// The same with what is said of the revision, also where its text is held.
pub fn commit<I: Ident, K: Keeper>(
    alloc: Global,
    ident: &I,
    said: &Said,
    payload: &[u8],
    draft: &mut Draft<'_, K>,
) -> Result<Bytes, HistoryError>
    ensures same_reference { draft.new.keeper.ghost_name ≡ draft.old.keeper.ghost_name }
    ensures drafts { Drafts (I.meaning ident.now) K.contents K.leaves K.faults draft.old.keeper.now draft.new.keeper.now draft.old.pending draft.new.pending
        (Steps (I.meaning ident.now) (Call.Commit said.now) payload.now) result }
{
    put_text(alloc, ident, payload, None, Some(said), draft)
}

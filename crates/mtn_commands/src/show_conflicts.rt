// The command `show_conflicts`.
ghost use Rattle.std.specs.Prelude.{◌≡◌};
ghost use Rattle.mtn_commands.specs.Drafts.{Drafts};
ghost use Rattle.mtn_step.specs.Step.{Steps};

use crate::merge::conflict_text;
use mtn_base::{Bytes, Id};
use mtn_history::{Draft, HistoryError};
use mtn_merge::{MergeOutcome, look};
use mtn_ports::{Ident, Keeper};
use mtn_step::Call;
use std::alloc::Global;

/// Answers the conflicts of a merge, also where there are none.
pub fn show_conflicts<I: Ident, K: Keeper>(
    alloc: Global,
    ident: &I,
    a: Id,
    b: Id,
    payload: &[u8],
    draft: &mut Draft<'_, K>,
) -> Result<Bytes, HistoryError>
    ensures same_reference { draft.new.keeper.ghost_name ≡ draft.old.keeper.ghost_name }
    ensures drafts { Drafts (I.meaning ident.now) K.contents K.leaves K.faults draft.old.keeper.now draft.new.keeper.now draft.old.pending draft.new.pending
        (Steps (I.meaning ident.now) (Call.ShowConflicts a b) payload.now) result }
{
    match look(alloc, draft, a, b)? {
        MergeOutcome::Merged { .. } => unreachable!(),
        MergeOutcome::Conflicted {
            left,
            right,
            conflicts,
        } => Ok(conflict_text(alloc, left, right, &conflicts)?),
    }
}

// The command `packets`.
ghost use Rattle.std.specs.Prelude.{◌≡◌};
ghost use Rattle.mtn_commands.specs.Drafts.{Drafts};
ghost use Rattle.mtn_step.specs.Step.{Steps};

use mtn_base::{Bytes, Id, List};
use mtn_history::{Draft, HistoryError};
use mtn_ports::{Ident, Keeper};
use mtn_sending::export;
use mtn_step::Call;
use std::alloc::Global;

/// Answers the packets of a revision and its ancestors, without those that others are or have as ancestors.
pub fn packets<I: Ident, K: Keeper>(
    alloc: Global,
    ident: &I,
    id: Id,
    have: &List<Id>,
    payload: &[u8],
    draft: &mut Draft<'_, K>,
) -> Result<Bytes, HistoryError>
    ensures same_reference { draft.new.keeper.ghost_name ≡ draft.old.keeper.ghost_name }
    ensures drafts { Drafts (I.meaning ident.now) K.contents K.leaves K.faults draft.old.keeper.now draft.new.keeper.now draft.old.pending draft.new.pending
        (Steps (I.meaning ident.now) (Call.Packets id have.now) payload.now) result }
{
    export(alloc, draft, id, have.as_slice())
}

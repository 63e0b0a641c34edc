// The command `generate`.
ghost use Rattle.std.specs.Prelude.{◌≡◌, [], false, true};
ghost use Rattle.mtn_commands.specs.Drafts.{Performs};
ghost use Rattle.mtn_step.specs.Step.{Steps};

use crate::error::{CommandError, whole};
use crate::merge::told;
use mtn_frame::Reply;
use mtn_history::Draft;
use mtn_ports::{Ident, Keeper};
use mtn_step::Call;
use std::alloc::Global;

/// Accepts so many generated revisions with their files, all or none, in a store that has no revision, and answers their summary.
pub fn generate<I: Ident, K: Keeper>(
    alloc: Global,
    ident: &I,
    count: u64,
    payload: &[u8],
    draft: &mut Draft<'_, K>,
) -> Result<Reply, CommandError>
    requires bare { draft.old.pending.batch ≡ [] }
    ensures same_reference { draft.new.keeper.ghost_name ≡ draft.old.keeper.ghost_name }
    ensures performs { Performs (I.meaning ident.now) K.contents K.leaves K.faults draft.old.keeper.now draft.new.keeper.now draft.old.pending draft.new.pending
        false true (Steps (I.meaning ident.now) (Call.Generate count) payload.now) result }
{
    whole(told(mtn_generating::generate(alloc, ident, count, draft)))
}

// The command `get_corresponding_path`.
ghost use Rattle.std.specs.Prelude.{◌≡◌};
ghost use Rattle.mtn_commands.specs.Drafts.{Drafts};
ghost use Rattle.mtn_step.specs.Step.{Steps};

use mtn_base::{Bytes, Id, Path};
use mtn_history::{Draft, HistoryError};
use mtn_ports::{Ident, Keeper};
use mtn_step::Call;

/// Answers where the node at a path stands in another revision.
pub fn get_corresponding_path<I: Ident, K: Keeper>(
    ident: &I,
    id: Id,
    path: &Path,
    other: Id,
    payload: &[u8],
    draft: &mut Draft<'_, K>,
) -> Result<Bytes, HistoryError>
    ensures same_reference { draft.new.keeper.ghost_name ≡ draft.old.keeper.ghost_name }
    ensures drafts { Drafts (I.meaning ident.now) K.contents K.leaves K.faults draft.old.keeper.now draft.new.keeper.now draft.old.pending draft.new.pending
        (Steps (I.meaning ident.now) (Call.GetCorrespondingPath id path.now other) payload.now) result }
{
    let text = mtn_roster_queries::get_corresponding_path(draft, id, path, other)?;
    Ok(text)
}

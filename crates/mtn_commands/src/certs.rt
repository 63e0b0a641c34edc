// The command `certs`.
ghost use Rattle.std.specs.Prelude.{◌≡◌};
ghost use Rattle.mtn_commands.specs.Drafts.{Drafts};
ghost use Rattle.mtn_step.specs.Step.{Steps};

use mtn_base::{Bytes, Id};
use mtn_certs::list;
use mtn_history::{Draft, HistoryError};
use mtn_ports::{Ident, Keeper};
use mtn_put_certs::{certs_of, names_of};
use mtn_step::Call;
use std::alloc::Global;

/// Answers the certificates of a revision.
pub fn certs<I: Ident, K: Keeper>(
    alloc: Global,
    ident: &I,
    id: Id,
    payload: &[u8],
    draft: &mut Draft<'_, K>,
) -> Result<Bytes, HistoryError>
    ensures same_reference { draft.new.keeper.ghost_name ≡ draft.old.keeper.ghost_name }
    ensures drafts { Drafts (I.meaning ident.now) K.contents K.leaves K.faults draft.old.keeper.now draft.new.keeper.now draft.old.pending draft.new.pending
        (Steps (I.meaning ident.now) (Call.Certs id) payload.now) result }
{
    let mut text = Vec::new(alloc);
    draft.text_of(id, &mut text)?;
    let certs = certs_of(draft, id)?;
    let names = names_of(draft, &certs)?;
    text.clear();
    list(&certs, &names, &mut text)?;
    Ok(Bytes::from_vec(text))
}

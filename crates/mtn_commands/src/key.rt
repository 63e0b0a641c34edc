// The command `key`.
ghost use Rattle.std.specs.Prelude.{◌≡◌};
ghost use Rattle.mtn_commands.specs.Drafts.{Drafts};
ghost use Rattle.mtn_step.specs.Step.{Steps};

use mtn_base::{Bytes, Cause, Field, Id};
use mtn_certs::is_field;
use mtn_history::{Draft, HistoryError};
use mtn_ports::{Ident, Keeper};
use mtn_put_certs::put_key;
use mtn_step::Call;
use std::alloc::Global;

/// Gives a key its name, and answers nothing.
pub fn key<I: Ident, K: Keeper>(
    alloc: Global,
    ident: &I,
    id: Id,
    name: &Bytes,
    payload: &[u8],
    draft: &mut Draft<'_, K>,
) -> Result<Bytes, HistoryError>
    ensures same_reference { draft.new.keeper.ghost_name ≡ draft.old.keeper.ghost_name }
    ensures drafts { Drafts (I.meaning ident.now) K.contents K.leaves K.faults draft.old.keeper.now draft.new.keeper.now draft.old.pending draft.new.pending
        (Steps (I.meaning ident.now) (Call.Key id name.now) payload.now) result }
{
    if !is_field(name.as_slice()) {
        return Err(HistoryError::Refused(Cause::BadField { field: Field::Key }));
    }
    put_key(draft, id, name.as_slice())?;
    Ok(Bytes::new(alloc))
}

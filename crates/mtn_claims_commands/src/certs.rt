// Certificates and the names of keys.
ghost use Rattle.std.specs.Prelude.{◌≡◌};
ghost use Rattle.mtn_commands.specs.Drafts.{Drafts};
ghost use Rattle.mtn_step.specs.Step.{Steps};

use mtn_base::{Bytes, Id};
use mtn_history::{Draft, HistoryError};
use mtn_ports::{Ident, Keeper};
use mtn_step::Call;
use std::alloc::Global;

/// `mtn_commands::cert::cert`.
pub fn cert<I: Ident, K: Keeper>(
    alloc: Global,
    ident: &I,
    revision: Id,
    name: &Bytes,
    key: Id,
    value: &Bytes,
    signature: &Option<Bytes>,
    payload: &[u8],
    draft: &mut Draft<'_, K>,
) -> Result<Bytes, HistoryError>
    ensures same_reference { draft.new.keeper.ghost_name ≡ draft.old.keeper.ghost_name }
    ensures drafts { Drafts (I.meaning ident.now) K.contents K.leaves K.faults draft.old.keeper.now draft.new.keeper.now draft.old.pending draft.new.pending
        (Steps (I.meaning ident.now) (Call.Cert revision name.now key value.now signature.now) payload.now) result }
{
    let done = mtn_commands::cert::cert(
        alloc, ident, revision, name, key, value, signature, payload, draft,
    );
    done
}

/// `mtn_commands::certs::certs`.
pub fn certs<I: Ident, K: Keeper>(
    alloc: Global,
    ident: &I,
    id: Id,
    payload: &[u8],
    draft: &mut Draft<'_, K>,
) -> Result<Bytes, HistoryError>
    ensures same_reference { draft.new.keeper.ghost_name ≡ draft.old.keeper.ghost_name }
    ensures drafts { Drafts (I.meaning ident.now) K.contents K.leaves K.faults draft.old.keeper.now draft.new.keeper.now draft.old.pending draft.new.pending
        (Steps (I.meaning ident.now) (Call.Certs id) payload.now) result }
{
    mtn_commands::certs::certs(alloc, ident, id, payload, draft)
}

/// `mtn_commands::key::key`.
pub fn key<I: Ident, K: Keeper>(
    alloc: Global,
    ident: &I,
    id: Id,
    name: &Bytes,
    payload: &[u8],
    draft: &mut Draft<'_, K>,
) -> Result<Bytes, HistoryError>
    ensures same_reference { draft.new.keeper.ghost_name ≡ draft.old.keeper.ghost_name }
    ensures drafts { Drafts (I.meaning ident.now) K.contents K.leaves K.faults draft.old.keeper.now draft.new.keeper.now draft.old.pending draft.new.pending
        (Steps (I.meaning ident.now) (Call.Key id name.now) payload.now) result }
{
    mtn_commands::key::key(alloc, ident, id, name, payload, draft)
}

// What is said of a revision that is put.
ghost use Rattle.std.specs.Prelude.{◌≡◌, ℕ, List, [], true, None, Some, Err, IfErr, IfOk, IsSome, OnErr, OnOk};
ghost use Rattle.mtn_certs.specs.Certificates.{certificate, is_field};
ghost use Rattle.mtn_commands.specs.Certifying.{Certifies};
ghost use Rattle.mtn_history.specs.Errors.{IfStoreDamage};
ghost use Rattle.mtn_history.specs.Stands.{IsDraft};
ghost use Rattle.mtn_model.specs.State.{State};
ghost use Rattle.mtn_model.specs.Table.{Contents};
ghost use Rattle.mtn_ports.specs.Causes.{Rose};
ghost use Rattle.mtn_ports.specs.Kept.{Stays};
ghost use Rattle.mtn_put_revision.specs.Finding.{IsRefusal};
ghost use Rattle.mtn_replay.specs.Texts.{text_under};
ghost use Rattle.mtn_step.specs.Certifying.{said_certs as certs_said, said_refusal, value_refusal};

use crate::cert::broken;
use mtn_base::{Bytes, Id};
use mtn_certs::Cert;
use mtn_history::{Draft, HistoryError, StoreError};
use mtn_ports::Keeper;
use mtn_put_certs::hold_cert;
use mtn_step::Said;
use std::alloc::Global;

// An unsigned certificate of a revision, under a name that is a field.
fn said_cert(
    alloc: Global,
    revision: Id,
    name: &str,
    key: Id,
    value: &Bytes,
) -> Result<Cert, HistoryError>
    requires { is_field name.now ≡ true }
    ensures ok { IfOk result (λ c. c ≡ certificate revision name.now key value.now []) }
    ensures fits { OnOk result (value_refusal value.now ≡ None) }
    ensures refused { IfErr result (IsRefusal (value_refusal value.now)) }
    ensures sound { IfErr result (λ e. IfStoreDamage e (λ _. ⊥)) }
    ensures failed { OnErr result (result ≡ Err (HistoryError.Store StoreError.Failed) → ⊥) }
{
    match Cert::new(alloc, revision, name.as_bytes(), key, value.as_slice(), &[]) {
        Ok(cert) => Ok(cert),
        Err(error) => Err(broken(error)),
    }
}

// The certificates that say it, or the first value that is too long.
fn said_certs(alloc: Global, id: Id, said: &Said) -> Result<Vec<Cert>, HistoryError>
    ensures ok { IfOk result (λ certs. certs.items ≡ certs_said id said.now) }
    ensures fits { OnOk result (said_refusal said.now ≡ None) }
    ensures refused { IfErr result (IsRefusal (said_refusal said.now)) }
    ensures sound { IfErr result (λ e. IfStoreDamage e (λ _. ⊥)) }
    ensures failed { OnErr result (result ≡ Err (HistoryError.Store StoreError.Failed) → ⊥) }
{
    let mut certs = Vec::with_capacity(alloc, 4)?;
    certs.push(said_cert(alloc, id, "author", said.key, &said.author)?)?;
    certs.push(said_cert(alloc, id, "branch", said.key, &said.branch)?)?;
    certs.push(said_cert(alloc, id, "changelog", said.key, &said.changelog)?)?;
    certs.push(said_cert(alloc, id, "date", said.key, &said.date)?)?;
    Ok(certs)
}

/// Holds what is said of a revision that is held; TextTooLong for the first value that is too long.
pub fn certify<K: Keeper>(
    alloc: Global,
    draft: &mut Draft<'_, K>,
    id: Id,
    said: &Said,
) -> Result<(), HistoryError>
    ensures same_reference { draft.new.keeper.ghost_name ≡ draft.old.keeper.ghost_name }
    ensures stays { Stays K.contents K.leaves K.faults draft.old.keeper.now draft.new.keeper.now }
    ensures certifies { (f : List ℕ → List ℕ) (c : Contents) (s : State) → K.contents draft.new.keeper.now ≡ Some c → IsDraft f c draft.old.pending s → IsSome (text_under s.log id.0) →
        Certifies f c s id said.now result draft.new.pending }
    ensures sound { IfErr result (λ e. IfStoreDamage e (λ _. ⊥)) }
    ensures failed { result ≡ Err (HistoryError.Store StoreError.Failed) → Rose (K.faults draft.old.keeper.now) (K.faults draft.new.keeper.now) }
{
    let certs = said_certs(alloc, id, said)?;
    for cert in &certs {
        hold_cert(draft, cert)?;
    }
    Ok(())
}

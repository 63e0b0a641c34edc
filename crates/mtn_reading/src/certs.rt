// A certificate of a packet.
ghost use Rattle.std.specs.Prelude.{◌≡◌, ℕ, List as Seq, true, None, Some, Err, IfErr, IfOk, IfSome, IsSome, OnErr, OnOk};
ghost use Rattle.mtn_changeset_laws.specs.Changes.{or_else};
ghost use Rattle.mtn_certs.specs.Certificates.{IsIdBytes, IsLawfulCertificate, certificate, is_field};
ghost use Rattle.mtn_history.specs.Certificates.{KeyDamage, cert_key as cert_text};
ghost use Rattle.mtn_history.specs.Damage.{IsDamage};
ghost use Rattle.mtn_history.specs.Errors.{IfDamage, IfStoreDamage};
ghost use Rattle.mtn_history.specs.Stands.{IsDraft};
ghost use Rattle.mtn_history.specs.Texts.{TextDamage};
ghost use Rattle.mtn_imports.specs.Imports.{IsKeyFor, kept, one_new, too_long};
ghost use Rattle.mtn_model.specs.State.{State};
ghost use Rattle.mtn_model.specs.Table.{Contents, Table};
ghost use Rattle.mtn_packets.specs.declared.packet.Packet.{Packet};
ghost use Rattle.mtn_ports.specs.Causes.{Rose};
ghost use Rattle.mtn_ports.specs.Kept.{Stays, with_all};
ghost use Rattle.mtn_replay.specs.Texts.{text_under};
ghost use Rattle.mtn_reading.specs.Reading.{HoldsNew, IsFound, IsOne, ReadsTo, Speaks, spoken_refusal};

use crate::Counts;
use crate::counts::one_where;
use crate::head::CertPacket;
use mtn_base::{Cause, Id, MAX_TEXT, NoMemory};
use mtn_history::{CERTS, Draft, HistoryError, StoreError};
use mtn_packets::PacketKey;
use mtn_ports::Keeper;
use mtn_put_certs::key_named;
use mtn_records::Field;
use std::alloc::Global;

// The key of a certificate: that of its packet's id, or the one that alone has its packet's name.
fn key_for<K: Keeper>(draft: &mut Draft<'_, K>, key: &PacketKey) -> Result<Option<Id>, StoreError>
    ensures same_reference { draft.new.keeper.ghost_name ≡ draft.old.keeper.ghost_name }
    ensures stays { Stays K.contents K.leaves K.faults draft.old.keeper.now draft.new.keeper.now }
    ensures pending { draft.new.pending ≡ draft.old.pending }
    ensures found { (f : Seq ℕ → Seq ℕ) (c : Contents) (s : State) → K.contents draft.new.keeper.now ≡ Some c → IsDraft f c draft.old.pending s
        → IfOk result (IsKeyFor s.keys key.now) }
    ensures sound { (f : Seq ℕ → Seq ℕ) (c : Contents) (s : State) → K.contents draft.new.keeper.now ≡ Some c → IsDraft f c draft.old.pending s
        → IfErr result (λ e. IfDamage e (λ _. ⊥)) }
    ensures damaged { IfSome (K.contents draft.new.keeper.now) (λ c. IfErr result (λ e. IfDamage e (KeyDamage (with_all c draft.old.pending.batch)))) }
    ensures failed { result ≡ Err StoreError.Failed → Rose (K.faults draft.old.keeper.now) (K.faults draft.new.keeper.now) }
{
    match key {
        PacketKey::Id(id) => Ok(Some(*id)),
        PacketKey::Name(name) => key_named(draft, name.as_slice()),
    }
}

// The id of a key that was looked for; UnknownKey where none was found.
fn found_or(alloc: Global, key: &PacketKey, found: Option<Id>) -> Result<Id, HistoryError>
    ensures found { (keys : Table) → IsKeyFor keys key.now found → IsFound key.now found result }
    ensures sound { IfErr result (λ e. IfStoreDamage e (λ _. ⊥)) }
    ensures failed { OnErr result (result ≡ Err (HistoryError.Store StoreError.Failed) → ⊥) }
{
    match key {
        PacketKey::Id(id) => Ok(*id),
        PacketKey::Name(name) => match found {
            Some(id) => Ok(id),
            None => Err(HistoryError::Refused(Cause::UnknownKey {
                name: name.copy(alloc)?,
            })),
        },
    }
}

// The cause of a text that has more than 64 MiB.
fn excess(text: &[u8]) -> Option<Cause>
    ensures { result ≡ too_long text.now }
{
    if text.len() <= MAX_TEXT {
        return None;
    }
    Some(Cause::TextTooLong {
        length: text.len() as u64,
    })
}

// The same of a value, or else of a signature.
fn too_much(cert: &CertPacket) -> Option<Cause>
    ensures { result ≡ or_else (too_long cert.now.value) (too_long cert.now.signature) }
{
    match excess(cert.value.as_slice()) {
        Some(cause) => Some(cause),
        None => excess(cert.signature.as_slice()),
    }
}

// That value and signature are within 64 MiB, and the log has the revision.
fn spoken_of<K: Keeper>(draft: &mut Draft<'_, K>, cert: &CertPacket) -> Result<(), HistoryError>
    ensures same_reference { draft.new.keeper.ghost_name ≡ draft.old.keeper.ghost_name }
    ensures stays { Stays K.contents K.leaves K.faults draft.old.keeper.now draft.new.keeper.now }
    ensures pending { draft.new.pending ≡ draft.old.pending }
    ensures speaks { (f : Seq ℕ → Seq ℕ) (c : Contents) (s : State) → K.contents draft.new.keeper.now ≡ Some c → IsDraft f c draft.old.pending s
        → Speaks s cert.now.revision cert.now.value cert.now.signature result }
    ensures lengths { OnOk result (or_else (too_long cert.now.value) (too_long cert.now.signature) ≡ None) }
    ensures damaged { IfSome (K.contents draft.new.keeper.now) (λ c. IfErr result (λ e. IfStoreDamage e (TextDamage (with_all c draft.old.pending.batch)))) }
    ensures failed { result ≡ Err (HistoryError.Store StoreError.Failed) → Rose (K.faults draft.old.keeper.now) (K.faults draft.new.keeper.now) }
{
    if let Some(cause) = too_much(cert) {
        return Err(HistoryError::Refused(cause));
    }
    let mut text = Vec::new(draft.alloc());
    draft.text_of(cert.revision, &mut text)
}

// The key of a certificate's record.
fn record_key(alloc: Global, cert: &CertPacket, key: Id) -> Result<Vec<u8>, NoMemory>
    requires lawful { IsLawfulCertificate (certificate cert.now.revision cert.now.name key cert.now.value cert.now.signature) }
    ensures key { IfOk result (λ k. k.items ≡ cert_text (certificate cert.now.revision cert.now.name key cert.now.value cert.now.signature)) }
    ensures revision { OnOk result (IsIdBytes cert.now.revision.0) }
    ensures made_by { OnOk result (IsIdBytes key.0) }
{
    let _revision = cert.revision.as_slice();
    let _key = key.as_slice();
    let mut out = Vec::new(alloc);
    cert.revision.write(&mut out)?;
    cert.name.write(&mut out)?;
    key.write(&mut out)?;
    cert.value.write(&mut out)?;
    cert.signature.write(&mut out)?;
    Ok(out)
}

// Holds a certificate of a revision that the log has, and answers whether it was not held.
fn hold<K: Keeper>(draft: &mut Draft<'_, K>, cert: &CertPacket, key: Id) -> Result<bool, StoreError>
    requires lawful { IsLawfulCertificate (certificate cert.now.revision cert.now.name key cert.now.value cert.now.signature) }
    ensures same_reference { draft.new.keeper.ghost_name ≡ draft.old.keeper.ghost_name }
    ensures stays { Stays K.contents K.leaves K.faults draft.old.keeper.now draft.new.keeper.now }
    ensures holds { (f : Seq ℕ → Seq ℕ) (c : Contents) (s : State) → K.contents draft.new.keeper.now ≡ Some c → IsDraft f c draft.old.pending s
        → IsSome (text_under s.log cert.now.revision.0) → IfOk result (HoldsNew f c s (certificate cert.now.revision cert.now.name key cert.now.value cert.now.signature) draft.new.pending) }
    ensures err { OnErr result (draft.new.pending ≡ draft.old.pending) }
    ensures sound { IfErr result (λ e. IfDamage e (λ _. ⊥)) }
    ensures failed { result ≡ Err StoreError.Failed → Rose (K.faults draft.old.keeper.now) (K.faults draft.new.keeper.now) }
{
    let mut body = Vec::new(draft.alloc());
    let key = record_key(draft.alloc(), cert, key)?;
    if draft.get(CERTS, &key, &mut body)? {
        return Ok(false);
    }
    draft.keep(CERTS, &key, &[])?;
    Ok(true)
}

// Holds the certificate of a packet whose key was looked for, where nothing but the key may be refused.
fn hold_found<K: Keeper>(
    draft: &mut Draft<'_, K>,
    cert: &CertPacket,
    found: Option<Id>,
) -> Result<Counts, HistoryError>
    requires name { is_field cert.now.name ≡ true }
    requires lengths { or_else (too_long cert.now.value) (too_long cert.now.signature) ≡ None }
    ensures same_reference { draft.new.keeper.ghost_name ≡ draft.old.keeper.ghost_name }
    ensures stays { Stays K.contents K.leaves K.faults draft.old.keeper.now draft.new.keeper.now }
    ensures reads { (f : Seq ℕ → Seq ℕ) (c : Contents) (s : State) → K.contents draft.new.keeper.now ≡ Some c → IsDraft f c draft.old.pending s
        → IsKeyFor s.keys cert.now.key found → spoken_refusal s cert.now.revision cert.now.value cert.now.signature ≡ None
        → ReadsTo f c s (Packet.Cert cert.now.revision cert.now.name cert.now.key cert.now.value cert.now.signature) result draft.new.pending }
    ensures few { IfOk result IsOne }
    ensures err { OnErr result (draft.new.pending ≡ draft.old.pending) }
    ensures sound { IfErr result (λ e. IfStoreDamage e (λ _. ⊥)) }
    ensures failed { result ≡ Err (HistoryError.Store StoreError.Failed) → Rose (K.faults draft.old.keeper.now) (K.faults draft.new.keeper.now) }
{
    let key = found_or(draft.alloc(), &cert.key, found)?;
    let new = hold(draft, cert, key)?;
    Ok(Counts {
        files: 0,
        revisions: 0,
        certs: one_where(new),
    })
}

/// Holds the certificate of a packet, whose name is a field.
pub fn read_cert<K: Keeper>(
    draft: &mut Draft<'_, K>,
    cert: &CertPacket,
) -> Result<Counts, HistoryError>
    requires name { is_field cert.now.name ≡ true }
    ensures same_reference { draft.new.keeper.ghost_name ≡ draft.old.keeper.ghost_name }
    ensures stays { Stays K.contents K.leaves K.faults draft.old.keeper.now draft.new.keeper.now }
    ensures reads { (f : Seq ℕ → Seq ℕ) (c : Contents) (s : State) → K.contents draft.new.keeper.now ≡ Some c → IsDraft f c draft.old.pending s
        → ReadsTo f c s (Packet.Cert cert.now.revision cert.now.name cert.now.key cert.now.value cert.now.signature) result draft.new.pending }
    ensures few { IfOk result IsOne }
    ensures err { OnErr result (draft.new.pending ≡ draft.old.pending) }
    ensures damaged { IfSome (K.contents draft.new.keeper.now) (λ c. IfErr result (λ e. IfStoreDamage e (IsDamage (with_all c draft.old.pending.batch)))) }
    ensures failed { result ≡ Err (HistoryError.Store StoreError.Failed) → Rose (K.faults draft.old.keeper.now) (K.faults draft.new.keeper.now) }
{
    let found = key_for(draft, &cert.key)?;
    spoken_of(draft, cert)?;
    hold_found(draft, cert, found)
}

// The certificates of a revision, as packets.
ghost use Rattle.std.specs.Prelude.{◌≡◌, ◌++◌, map, List, ℕ, Err, IfErr, IfSome, OnOk};
ghost use Rattle.mtn_exports.specs.Exports.{cert_packet, packets_text};
ghost use Rattle.mtn_history.specs.Certificates.{CertDamage};
ghost use Rattle.mtn_history.specs.Errors.{IfDamage};
ghost use Rattle.mtn_history.specs.Stands.{IsFounded};
ghost use Rattle.mtn_model.specs.State.{State};
ghost use Rattle.mtn_packets.specs.Printed.{printed};
ghost use Rattle.mtn_ports.specs.Causes.{Rose};
ghost use Rattle.mtn_ports.specs.Kept.{Stays, with_all};
ghost use Rattle.mtn_sending.specs.Sending.{Gives, WritesCerts};

use mtn_base::{Id, NoMemory};
use mtn_certs::{Cert, sorted_of};
use mtn_history::{Draft, StoreError};
use mtn_packets::{Packet, PacketKey, write};
use mtn_ports::Keeper;
use mtn_put_certs::certs_of;

// Appends the packet of a certificate, which names its key by the id.
fn write_cert(cert: &Cert, out: &mut Vec<u8>) -> Result<(), NoMemory>
    ensures { OnOk result (out.new.items ≡ out.old.items ++ printed (cert_packet cert.now)) }
{
    let alloc = *out.allocator();
    let packet = Packet::Cert {
        revision: cert.revision,
        name: cert.name.copy(alloc)?,
        key: PacketKey::Id(cert.key),
        value: cert.value.copy(alloc)?,
        signature: cert.signature.copy(alloc)?,
    };
    write(&packet, out)
}

fn write_all(certs: &[&Cert], out: &mut Vec<u8>) -> Result<(), NoMemory>
    ensures { OnOk result (out.new.items ≡ out.old.items ++ packets_text (map cert_packet (map (λ b. b.now) certs.now))) }
{
    for cert in certs {
        write_cert(cert, out)?;
    }
    Ok(())
}

/// Appends the packets of a revision's certificates in their order.
pub fn write_certs<K: Keeper>(
    draft: &mut Draft<'_, K>,
    id: Id,
    out: &mut Vec<u8>,
) -> Result<(), StoreError>
    ensures same_reference { draft.new.keeper.ghost_name ≡ draft.old.keeper.ghost_name }
    ensures stays { Stays K.contents K.leaves K.faults draft.old.keeper.now draft.new.keeper.now }
    ensures pending { draft.new.pending ≡ draft.old.pending }
    ensures found { (f : List ℕ → List ℕ) (s : State) → IsFounded f (K.contents draft.new.keeper.now) draft.old.pending s
        → Gives result (λ _. WritesCerts s id out.old.items out.new.items) }
    ensures shown { IfSome (K.contents draft.new.keeper.now) (λ c. IfErr result (λ e. IfDamage e (CertDamage (with_all c draft.old.pending.batch)))) }
    ensures failed { result ≡ Err StoreError.Failed → Rose (K.faults draft.old.keeper.now) (K.faults draft.new.keeper.now) }
{
    let certs = certs_of(draft, id)?;
    let sorted = sorted_of(draft.alloc(), &certs)?;
    write_all(&sorted, out)?;
    Ok(())
}

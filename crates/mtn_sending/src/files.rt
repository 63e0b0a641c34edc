// The files of a revision, as packets.
ghost use Rattle.std.specs.Prelude.{◌≡◌, ◌++◌, map, List, ℕ, Some, Err, IfErr, IfSome};
ghost use Rattle.std.specs.FinMap.{get};
ghost use Rattle.mtn_exports.specs.Exports.{file_packet, packets_text};
ghost use Rattle.mtn_history.specs.Errors.{IfDamage};
ghost use Rattle.mtn_history.specs.Logs.{IsHeldAt};
ghost use Rattle.mtn_history.specs.Stands.{IsFounded};
ghost use Rattle.mtn_model.specs.State.{State};
ghost use Rattle.mtn_packets.specs.Printed.{printed};
ghost use Rattle.mtn_ports.specs.Causes.{Rose};
ghost use Rattle.mtn_ports.specs.Kept.{Stays, with_all};
ghost use Rattle.mtn_sending.specs.Sending.{AreHeld, Gives};

use mtn_ancestry::Pos;
use mtn_base::{Bytes, Id};
use mtn_history::{Draft, HistoryError, StoreError};
use mtn_packets::{Packet, write};
use mtn_ports::Keeper;

// The bytes of a file that a revision brings. Where none is held the log's record at the revision's position is shown.
fn read_file<K: Keeper>(
    draft: &mut Draft<'_, K>,
    at: Pos,
    id: Id,
    bytes: &mut Vec<u8>,
) -> Result<(), StoreError>
    ensures same_reference { draft.new.keeper.ghost_name ≡ draft.old.keeper.ghost_name }
    ensures stays { Stays K.contents K.leaves K.faults draft.old.keeper.now draft.new.keeper.now }
    ensures pending { draft.new.pending ≡ draft.old.pending }
    ensures found { (f : List ℕ → List ℕ) (s : State) → IsFounded f (K.contents draft.new.keeper.now) draft.old.pending s
        → (held : List ℕ) → get s.files id.0 ≡ Some held → Gives result (λ _. held ≡ bytes.new.items) }
    ensures shown { IfSome (K.contents draft.new.keeper.now) (λ c. IfErr result (λ e. IfDamage e (IsHeldAt (with_all c draft.old.pending.batch) at))) }
    ensures failed { result ≡ Err StoreError.Failed → Rose (K.faults draft.old.keeper.now) (K.faults draft.new.keeper.now) }
{
    match draft.file(id, bytes) {
        Ok(()) => Ok(()),
        Err(HistoryError::Refused(_)) => Err(draft.log_held(at)),
        Err(HistoryError::Store(error)) => Err(error),
    }
}

// Appends the packet of a file that a revision brings.
fn write_file<K: Keeper>(
    draft: &mut Draft<'_, K>,
    at: Pos,
    id: &Id,
    out: &mut Vec<u8>,
) -> Result<(), StoreError>
    ensures same_reference { draft.new.keeper.ghost_name ≡ draft.old.keeper.ghost_name }
    ensures stays { Stays K.contents K.leaves K.faults draft.old.keeper.now draft.new.keeper.now }
    ensures pending { draft.new.pending ≡ draft.old.pending }
    ensures found { (f : List ℕ → List ℕ) (s : State) → IsFounded f (K.contents draft.new.keeper.now) draft.old.pending s
        → (held : List ℕ) → get s.files id.now.0 ≡ Some held → Gives result (λ _. out.new.items ≡ out.old.items ++ printed (file_packet s id.now)) }
    ensures shown { IfSome (K.contents draft.new.keeper.now) (λ c. IfErr result (λ e. IfDamage e (IsHeldAt (with_all c draft.old.pending.batch) at))) }
    ensures failed { result ≡ Err StoreError.Failed → Rose (K.faults draft.old.keeper.now) (K.faults draft.new.keeper.now) }
{
    let mut bytes = Vec::new(draft.alloc());
    read_file(draft, at, *id, &mut bytes)?;
    let packet = Packet::File {
        id: *id,
        bytes: Bytes::from_vec(bytes),
    };
    write(&packet, out)?;
    Ok(())
}

/// Appends the packets of files that a revision brings.
pub fn write_files<K: Keeper>(
    draft: &mut Draft<'_, K>,
    at: Pos,
    ids: &[Id],
    out: &mut Vec<u8>,
) -> Result<(), StoreError>
    ensures same_reference { draft.new.keeper.ghost_name ≡ draft.old.keeper.ghost_name }
    ensures stays { Stays K.contents K.leaves K.faults draft.old.keeper.now draft.new.keeper.now }
    ensures pending { draft.new.pending ≡ draft.old.pending }
    ensures found { (f : List ℕ → List ℕ) (s : State) → IsFounded f (K.contents draft.new.keeper.now) draft.old.pending s
        → AreHeld s ids.now → Gives result (λ _. out.new.items ≡ out.old.items ++ packets_text (map (file_packet s) ids.now)) }
    ensures shown { IfSome (K.contents draft.new.keeper.now) (λ c. IfErr result (λ e. IfDamage e (IsHeldAt (with_all c draft.old.pending.batch) at))) }
    ensures failed { result ≡ Err StoreError.Failed → Rose (K.faults draft.old.keeper.now) (K.faults draft.new.keeper.now) }
{
    for id in ids {
        write_file(draft, at, id, out)?;
    }
    Ok(())
}

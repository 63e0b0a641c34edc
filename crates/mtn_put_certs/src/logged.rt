// Certificates beside the log.
ghost use Rattle.std.specs.Prelude.{◌≡◌, ◌↔◌, List, ℕ, Some, Err, Contains, IfErr, IfOk, IfSome, IsSome, MatchOption};
ghost use Rattle.mtn_ancestry.specs.declared.pos.LogEntry.{LogEntry};
ghost use Rattle.mtn_branches.specs.Graphs.{IsHeldBy};
ghost use Rattle.mtn_certs.specs.Certificates.{Certificate};
ghost use Rattle.mtn_model.specs.Table.{Contents, body_at};
ghost use Rattle.mtn_model.specs.State.{Holds, State};
ghost use Rattle.mtn_ports.specs.Causes.{Rose};
ghost use Rattle.mtn_ports.specs.Kept.{Stays, with_all};
ghost use Rattle.mtn_history.specs.Asking.{OnlyAsks};
ghost use Rattle.mtn_history.specs.Certificates.{cert_key as cert_text};
ghost use Rattle.mtn_history.specs.Damage.{IsDamage};
ghost use Rattle.mtn_history.specs.Errors.{IfDamage};
ghost use Rattle.mtn_history.specs.Logs.{IsReadTo};
ghost use Rattle.mtn_history.specs.Marked.{IsCounted};
ghost use Rattle.mtn_history.specs.Stands.{IsDraft};
ghost use Rattle.mtn_put_certs.specs.Reading.{AreKnown, IsCertHeld, IsRecorded};

use crate::damaged::bad;
use crate::held::certs;
use crate::key::cert_key;
use mtn_ancestry::Graph;
use mtn_certs::Cert;
use mtn_history::{CERTS, Draft, StoreError};
use mtn_ports::Keeper;

// The record of a certificate, shown as it is.
fn cert_held<K: Keeper>(draft: &mut Draft<'_, K>, cert: &Cert) -> StoreError
    ensures asks { OnlyAsks K.contents K.leaves K.faults K.reads 1 draft.old draft.new }

    ensures damaged { (c : Contents) → K.contents draft.new.keeper.now ≡ Some c → IsSome (body_at (with_all c draft.old.pending.batch) 8 (cert_text cert.now))
        → IfDamage result (IsCertHeld (with_all c draft.old.pending.batch) cert.now) }
    ensures failed { result ≡ StoreError.Failed → Rose (K.faults draft.old.keeper.now) (K.faults draft.new.keeper.now) }
{
    let mut body = Vec::new(draft.alloc());
    let Ok(key) = cert_key(draft.alloc(), cert) else {
        return StoreError::NoMemory;
    };
    match draft.get(CERTS, &key, &mut body) {
        Ok(_) => bad(draft.alloc(), CERTS, &key, &body),
        Err(error) => error,
    }
}

// What is shown for a certificate whose revision the log does not have: its own record, or, where the revision has a text, what
// stands in the log at the position of the text.
fn unlogged<K: Keeper>(draft: &mut Draft<'_, K>, cert: &Cert) -> StoreError
    ensures same_reference { draft.new.keeper.ghost_name ≡ draft.old.keeper.ghost_name }
    ensures stays { Stays K.contents K.leaves K.faults draft.old.keeper.now draft.new.keeper.now }
    ensures pending { draft.new.pending ≡ draft.old.pending }
    ensures damaged { (c : Contents) (log : List LogEntry) → K.contents draft.new.keeper.now ≡ Some c → IsCounted draft.old.pending c
        → IsReadTo (with_all c draft.old.pending.batch) draft.old.pending.count log → (IsHeldBy log cert.now.revision → ⊥) → IsRecorded (with_all c draft.old.pending.batch) cert.now
        → IfDamage result (IsDamage (with_all c draft.old.pending.batch)) }
    ensures failed { result ≡ StoreError.Failed → Rose (K.faults draft.old.keeper.now) (K.faults draft.new.keeper.now) }
{
    let mut text = Vec::new(draft.alloc());
    match draft.placed(cert.revision, &mut text) {
        Ok(Some(at)) => draft.log_held(at),
        Ok(None) => cert_held(draft, cert),
        Err(error) => error,
    }
}

// The first certificate whose revision the graph does not have.
fn first_unlogged<'a>(graph: &Graph, certs: &'a [Cert]) -> Option<&'a Cert>
    ensures { MatchOption result (AreKnown graph.now certs.now)
        (λ cert. Contains certs.now cert.now × (IsHeldBy graph.now cert.now.revision → ⊥)) }
{
    for cert in certs {
        if graph.find(cert.revision).is_none() {
            return Some(cert);
        }
    }
    None
}

/// The graph that the log tells, and all certificates, each of a revision that it has. One of another revision is damage.
pub fn graph_and_certs<K: Keeper>(
    draft: &mut Draft<'_, K>,
) -> Result<(Graph, Vec<Cert>), StoreError>
    ensures same_reference { draft.new.keeper.ghost_name ≡ draft.old.keeper.ghost_name }
    ensures stays { Stays K.contents K.leaves K.faults draft.old.keeper.now draft.new.keeper.now }
    ensures pending { draft.new.pending ≡ draft.old.pending }
    ensures read { IfSome (K.contents draft.new.keeper.now) (λ c. IfOk result (λ r. IsReadTo (with_all c draft.old.pending.batch) draft.old.pending.count r.0)) }
    ensures known { IfOk result (λ r. AreKnown r.0 r.1.items) }
    ensures found { (f : List ℕ → List ℕ) (c : Contents) (s : State) → K.contents draft.new.keeper.now ≡ Some c → IsDraft f c draft.old.pending s
        → IfOk result (λ r. (x : Certificate) → Contains r.1.items x ↔ Holds s.certs x) }
    ensures damaged { IfSome (K.contents draft.new.keeper.now) (λ c. IsCounted draft.old.pending c → IfErr result (λ e. IfDamage e (IsDamage (with_all c draft.old.pending.batch)))) }
    ensures failed { result ≡ Err StoreError.Failed → Rose (K.faults draft.old.keeper.now) (K.faults draft.new.keeper.now) }
{
    let certs = certs(draft)?;
    let graph = draft.graph()?;
    if let Some(cert) = first_unlogged(&graph, &certs) {
        return Err(unlogged(draft, cert));
    }
    Ok((graph, certs))
}

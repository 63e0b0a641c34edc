// Revisions one after the other.
ghost use Rattle.std.specs.Prelude.{◌≡◌, ◌<◌, List, ℕ, Err, Contains, IfErr, IfSome, length};
ghost use Rattle.mtn_answers.specs.Queries.{IsHeld};
ghost use Rattle.mtn_branches.specs.Graphs.{IsHeldBy};
ghost use Rattle.mtn_base.specs.declared.id.Id.{Id as Named};
ghost use Rattle.mtn_history.specs.Errors.{IfDamage};
ghost use Rattle.mtn_history.specs.Stands.{IsFounded};
ghost use Rattle.mtn_model.specs.State.{State};
ghost use Rattle.mtn_ports.specs.Causes.{Rose};
ghost use Rattle.mtn_ports.specs.Kept.{Stays, with_all};
ghost use Rattle.mtn_sending.specs.Sending.{Gives, IsSetOf, IsShownAt, IsShownBelow, WritesAll, WritesOne};

use crate::brought::new_files;
use crate::files::write_files;
use crate::said::write_certs;
use crate::texts::{read_text, spelled};
use mtn_ancestry::{Graph, Pos};
use mtn_base::{Bytes, Id};
use mtn_history::{Draft, StoreError};
use mtn_packets::{Packet, write};
use mtn_ports::Keeper;
use std::collections::BTreeSet;

// Appends the packets of the revision at a position, without the files of earlier ones.
fn send_one<K: Keeper>(
    draft: &mut Draft<'_, K>,
    at: Pos,
    id: Id,
    sent: &mut BTreeSet<Id>,
    out: &mut Vec<u8>,
) -> Result<(), StoreError>
    ensures same_reference { draft.new.keeper.ghost_name ≡ draft.old.keeper.ghost_name }
    ensures stays { Stays K.contents K.leaves K.faults draft.old.keeper.now draft.new.keeper.now }
    ensures pending { draft.new.pending ≡ draft.old.pending }
    ensures found { (f : List ℕ → List ℕ) (s : State) (d : IsFounded f (K.contents draft.new.keeper.now) draft.old.pending s)
        → IsHeld d.stands.history id → (before : List Named) → IsSetOf sent.old before → Gives result (λ _. WritesOne s before id sent.new out.old.items out.new.items) }
    ensures shown { IfSome (K.contents draft.new.keeper.now) (λ c. IfErr result (λ e. IfDamage e (IsShownAt (with_all c draft.old.pending.batch) at))) }
    ensures failed { result ≡ Err StoreError.Failed → Rose (K.faults draft.old.keeper.now) (K.faults draft.new.keeper.now) }
{
    let mut text = Vec::new(draft.alloc());
    read_text(draft, at, id, &mut text)?;
    let revision = spelled(draft, at, &text)?;
    let files = new_files(draft.alloc(), sent, revision.edges.as_slice())?;
    write_files(draft, at, &files, out)?;
    let packet = Packet::Revision {
        id,
        text: Bytes::from_vec(text),
    };
    write(&packet, out)?;
    write_certs(draft, id, out)
}

// Where a revision of the graph stands.
fn place(graph: &Graph, id: Id) -> Pos
    requires { IsHeldBy graph.now id }
    ensures { result < length graph.now }
{
    graph.find(id).unwrap()
}

/// Appends the packets of revisions that the graph has.
pub fn send_all<K: Keeper>(
    draft: &mut Draft<'_, K>,
    graph: &Graph,
    ids: &[Id],
    out: &mut Vec<u8>,
) -> Result<(), StoreError>
    requires { (x : Named) → Contains ids.now x → IsHeldBy graph.now x }
    ensures same_reference { draft.new.keeper.ghost_name ≡ draft.old.keeper.ghost_name }
    ensures stays { Stays K.contents K.leaves K.faults draft.old.keeper.now draft.new.keeper.now }
    ensures pending { draft.new.pending ≡ draft.old.pending }
    ensures found { (f : List ℕ → List ℕ) (s : State) (d : IsFounded f (K.contents draft.new.keeper.now) draft.old.pending s)
        → ((x : Named) → Contains ids.now x → IsHeld d.stands.history x) → Gives result (λ _. WritesAll s ids.now out.old.items out.new.items) }
    ensures shown { IfSome (K.contents draft.new.keeper.now) (λ c. IfErr result (λ e. IfDamage e (IsShownBelow (with_all c draft.old.pending.batch) (length graph.now)))) }
    ensures failed { result ≡ Err StoreError.Failed → Rose (K.faults draft.old.keeper.now) (K.faults draft.new.keeper.now) }
{
    let mut sent = BTreeSet::new(draft.alloc());
    for id in ids {
        send_one(draft, place(graph, *id), *id, &mut sent, out)?;
    }
    Ok(())
}

// What a text mentions.
ghost use Rattle.std.specs.List.{cons_option};
ghost use Rattle.std.specs.Prelude.{◌≡◌, ◌++◌, [], false, None, Err, IfErr, IfOk, IfSome, IsSome, IsTrue, OnOk};
ghost use Rattle.mtn_model.specs.Table.{body_at};
ghost use Rattle.mtn_ports.specs.Causes.{Rose};
ghost use Rattle.mtn_ports.specs.Kept.{Stays};
ghost use Rattle.mtn_history.specs.Errors.{IfDamage};
ghost use Rattle.mtn_put_revision.specs.Finding.{unknown_in, first_unknown};
ghost use Rattle.mtn_replay.specs.Making.{unknown_file};
ghost use Rattle.mtn_check_records.specs.Reading.{named_in};
ghost use Rattle.mtn_check_hands.specs.Reading.{IsMentioned};

use mtn_base::{Id, List, NoMemory};
use mtn_changes::{Change, Edge};
use mtn_check_pieces::revision_of;
use mtn_history::{FILES, StoreError, just_below};
use mtn_make_roster::new_content;
use mtn_ports::Keeper;
use std::alloc::Global;

/// The parents that a text names, in the order of its edges, and whether each content that it brings is held.
#[derive(Drop)]
pub struct Mentions {
    pub parents: List<Id>,
    pub held: bool,
}

// Whether a content is the next just below which something stands. So it is not read.
fn is_next<K: Keeper>(alloc: Global, keeper: &mut K, id: Id) -> Result<bool, StoreError>
    ensures stays { Stays K.contents K.leaves K.faults keeper.old keeper.new }
    ensures held { IfSome (K.contents keeper.new) (λ c. IfOk result (λ held. IsTrue held → IsSome (body_at c 2 id.0))) }
    ensures sound { IfErr result (λ e. IfDamage e (λ _. ⊥)) }
    ensures failed { result ≡ Err StoreError.Failed → Rose (K.faults keeper.old) (K.faults keeper.new) }
{
    let (below, len) = just_below(&id.0);
    let mut next = Vec::new(alloc);
    if !keeper.next(FILES, &below[..len], &mut next)? {
        return Ok(false);
    }
    Ok(next.as_slice() == id.0.as_slice())
}

// Whether a content is there.
fn is_there<K: Keeper>(alloc: Global, keeper: &mut K, id: Id) -> Result<bool, StoreError>
    ensures stays { Stays K.contents K.leaves K.faults keeper.old keeper.new }
    ensures held { IfSome (K.contents keeper.new) (λ c. IfOk result (λ held. IsTrue held → IsSome (body_at c 2 id.0))) }
    ensures unheld { IfSome (K.contents keeper.new) (λ c. IfOk result (λ held. held ≡ false → body_at c 2 id.0 ≡ None)) }
    ensures sound { IfErr result (λ e. IfDamage e (λ _. ⊥)) }
    ensures failed { result ≡ Err StoreError.Failed → Rose (K.faults keeper.old) (K.faults keeper.new) }
{
    let mut body = Vec::new(alloc);
    Ok(keeper.get(FILES, &id.0, &mut body)?)
}

// Whether a content is held. It is read only where another key stands in front of it, or none.
fn holds<K: Keeper>(alloc: Global, keeper: &mut K, id: Id) -> Result<bool, StoreError>
    ensures stays { Stays K.contents K.leaves K.faults keeper.old keeper.new }
    ensures held { IfSome (K.contents keeper.new) (λ c. IfOk result (λ held. IsTrue held → IsSome (body_at c 2 id.0))) }
    ensures unheld { IfSome (K.contents keeper.new) (λ c. IfOk result (λ held. held ≡ false → body_at c 2 id.0 ≡ None)) }
    ensures sound { IfErr result (λ e. IfDamage e (λ _. ⊥)) }
    ensures failed { result ≡ Err StoreError.Failed → Rose (K.faults keeper.old) (K.faults keeper.new) }
{
    if is_next(alloc, keeper, id)? {
        return Ok(true);
    }
    is_there(alloc, keeper, id)
}

// Whether the content that a change brings is.
fn holds_of<K: Keeper>(alloc: Global, keeper: &mut K, change: &Change) -> Result<bool, StoreError>
    ensures stays { Stays K.contents K.leaves K.faults keeper.old keeper.new }
    ensures held { IfSome (K.contents keeper.new) (λ c. IfOk result (λ held. IsTrue held → unknown_in (c 2) change.now ≡ None)) }
    ensures unheld { IfSome (K.contents keeper.new) (λ c. IfOk result (λ held. held ≡ false → IsSome (unknown_in (c 2) change.now))) }
    ensures sound { IfErr result (λ e. IfDamage e (λ _. ⊥)) }
    ensures failed { result ≡ Err StoreError.Failed → Rose (K.faults keeper.old) (K.faults keeper.new) }
{
    match new_content(change) {
        None => Ok(true),
        Some(id) => holds(alloc, keeper, id),
    }
}

// The same of changes.
fn holds_each<K: Keeper>(
    alloc: Global,
    keeper: &mut K,
    changes: &[Change],
) -> Result<bool, StoreError>
    ensures stays { Stays K.contents K.leaves K.faults keeper.old keeper.new }
    ensures held { IfSome (K.contents keeper.new) (λ c. IfOk result (λ held. IsTrue held → first_unknown (c 2) changes.now ≡ None)) }
    ensures unheld { IfSome (K.contents keeper.new) (λ c. IfOk result (λ held. held ≡ false → IsSome (first_unknown (c 2) changes.now))) }
    ensures sound { IfErr result (λ e. IfDamage e (λ _. ⊥)) }
    ensures failed { result ≡ Err StoreError.Failed → Rose (K.faults keeper.old) (K.faults keeper.new) }
{
    for change in changes {
        if !holds_of(alloc, keeper, change)? {
            return Ok(false);
        }
    }
    Ok(true)
}

// The same of edges.
fn holds_all<K: Keeper>(alloc: Global, keeper: &mut K, edges: &[Edge]) -> Result<bool, StoreError>
    ensures stays { Stays K.contents K.leaves K.faults keeper.old keeper.new }
    ensures held { IfSome (K.contents keeper.new) (λ c. IfOk result (λ held. IsTrue held → unknown_file (c 2) edges.now ≡ None)) }
    ensures unheld { IfSome (K.contents keeper.new) (λ c. IfOk result (λ held. held ≡ false → IsSome (unknown_file (c 2) edges.now))) }
    ensures sound { IfErr result (λ e. IfDamage e (λ _. ⊥)) }
    ensures failed { result ≡ Err StoreError.Failed → Rose (K.faults keeper.old) (K.faults keeper.new) }
{
    for edge in edges {
        if !holds_each(alloc, keeper, edge.changes.changes.as_slice())? {
            return Ok(false);
        }
    }
    Ok(true)
}

// Appends the id of the parent that an edge names, if it names one.
fn push_parent(ids: &mut Vec<Id>, edge: &Edge) -> Result<(), NoMemory>
    ensures { OnOk result (ids.new.items ≡ ids.old.items ++ cons_option edge.now.parent []) }
{
    if let Some(id) = edge.parent {
        ids.push(id)?;
    }
    Ok(())
}

// The ids of the parents that edges name.
fn named_by(alloc: Global, edges: &[Edge]) -> Result<List<Id>, NoMemory>
    ensures { IfOk result (λ ids. ids ≡ named_in edges.now) }
{
    let mut ids = Vec::new(alloc);
    for edge in edges {
        push_parent(&mut ids, edge)?;
    }
    Ok(List::from_vec(ids))
}

/// What a text mentions, where it is one of a revision. It asks once for each content, and reads none that is held.
pub fn mentions_in<K: Keeper>(
    alloc: Global,
    keeper: &mut K,
    text: &[u8],
) -> Result<Option<Mentions>, StoreError>
    ensures stays { Stays K.contents K.leaves K.faults keeper.old keeper.new }
    ensures found { IfSome (K.contents keeper.new) (λ c. IfOk result (λ o. IfSome o (IsMentioned c text.now))) }
    ensures sound { IfErr result (λ e. IfDamage e (λ _. ⊥)) }
    ensures failed { result ≡ Err StoreError.Failed → Rose (K.faults keeper.old) (K.faults keeper.new) }
{
    let Some(revision) = revision_of(alloc, text)? else {
        return Ok(None);
    };
    let edges = revision.edges.as_slice();
    let parents = named_by(alloc, edges)?;
    let held = holds_all(alloc, keeper, edges)?;
    Ok(Some(Mentions { parents, held }))
}

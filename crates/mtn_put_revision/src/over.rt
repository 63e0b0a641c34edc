// A revision accepted over its parents, by how many there are.
ghost use Rattle.std.specs.Prelude.{◌≡◌, ◌<◌, ◌≤◌, All, List, ℕ, [], ◌∷◌, length, None, Ok, Err, false, IfOk, IfErr, IfSome, IsTrue, OnOk, OnErr, ◌+◌};
ghost use Rattle.mtn_base.specs.declared.limits.TheConstants.{MAX_LOG};
ghost use Rattle.mtn_roster_deltas.specs.Numbering.{shown};
ghost use Rattle.mtn_changes.specs.RevisionText.{AreEdges};
ghost use Rattle.mtn_entry_laws.specs.Entries.{AreBounded};
ghost use Rattle.mtn_replay.specs.Making.{made_tree, new_contents};
ghost use Rattle.mtn_make_roster.specs.Basis.{Underlies};
ghost use Rattle.mtn_roster.specs.Walk.{AreStops};
ghost use Rattle.mtn_model.specs.State.{State};
ghost use Rattle.mtn_ports.specs.Causes.{Rose};
ghost use Rattle.mtn_ports.specs.Kept.{Stays, with_all};
ghost use Rattle.mtn_history.specs.Errors.{IfDamage, IfStoreDamage};
ghost use Rattle.mtn_history.specs.Stands.{IsFounded};
ghost use Rattle.mtn_put_revision.specs.Finding.{IsFound, IsRefusal, made_refusal_of};
ghost use Rattle.mtn_put_revision.specs.Keeping.{Accepts, AreParents, IsFirstRebuilt, IsNew, IsPlanned, AreOn};
ghost use Rattle.mtn_put_revision.specs.Writing.{AllAscend, NoneMakes};
ghost use Rattle.mtn_ports.specs.Ident.{MakesIds};
ghost use Rattle.mtn_history_laws.specs.History.{parents_at};
ghost use Rattle.mtn_put_revision.specs.Reads.{IsWindow};

use crate::keep::keep;
use crate::pair::two_parents;
use crate::records::KeptParents;
use crate::tree::tree_of;
use crate::unfit::unfit;
use mtn_ancestry::Pos;
use mtn_base::{Id, MAX_NODES};
use mtn_changes::Revision;
use mtn_history::{Draft, HistoryError, StoreError};
use mtn_make_roster::{Basis, WalkedTree, mark};
use mtn_ports::{Ident, Keeper};
use mtn_roster::Roster;
use std::alloc::Global;

/// A text that is new to the log, the revision that it spells, and its id.
#[derive(Clone, Copy)]
pub struct NewRevision<'a> {
    pub text: &'a [u8],
    pub read: &'a Revision,
    pub id: Id,
}

// Puts a tree with its marks, and tells whether it did, as it does with the tree that the edges make over a history.
fn over_tree<K: Keeper>(
    alloc: Global,
    draft: &mut Draft<'_, K>,
    fresh: &NewRevision<'_>,
    basis: &Basis,
    known: &KeptParents<'_>,
    made: WalkedTree,
) -> Result<bool, StoreError>
    requires edges { AreEdges fresh.now.read.now.edges }
    requires bounded { AreBounded fresh.now.read.now.edges }
    requires room { draft.old.pending.count < MAX_LOG }
    requires walk { AreStops made.tree made.stops.items }
    requires few { length known.now.places.now ≤ 2 }
    requires below { All (λ p. p < draft.old.pending.count) known.now.places.now }
    requires unknown { known.now.places.now ≡ [] → shown known.now.entries.now ≡ [] }
    requires based { (f : List ℕ → List ℕ) (s : State) → (d : IsFounded f (K.contents draft.old.keeper.now) draft.old.pending s) →
        Underlies d.stands.history fresh.now.read.now.edges basis.now fresh.now.id × AreParents d.stands.history d.stands.kept fresh.now.read.now.edges known.now.places.now (shown known.now.entries.now) known.now.depth }
    requires first { IfSome (K.contents draft.old.keeper.now) (λ c. IsFirstRebuilt (with_all c draft.old.pending.batch) known.now.places.now (shown known.now.entries.now) known.now.depth) }
    ensures same_reference { draft.new.keeper.ghost_name ≡ draft.old.keeper.ghost_name }
    ensures stays { Stays K.contents K.leaves K.faults draft.old.keeper.now draft.new.keeper.now }
    ensures accepts { (f : List ℕ → List ℕ) (s : State) → (d : IsFounded f (K.contents draft.new.keeper.now) draft.old.pending s) →
        IsNew f d.stands.history fresh.now → made_refusal_of f s.files d.stands.history fresh.now.id fresh.now.read.now ≡ None → made.tree ≡ made_tree d.stands.history fresh.now.id fresh.now.read.now.edges →
        IfOk result (λ kept. IsTrue kept → Accepts f d.records s d.stands.history fresh.now draft.new.pending) }
    ensures unkept { result ≡ Ok false → draft.new.pending ≡ draft.old.pending }
    ensures none { result ≡ Ok false → AllAscend (shown known.now.entries.now) → NoneMakes draft.old.pending.count fresh.now.id fresh.now.read.now.edges basis.now made.tree }
    ensures reads { (f : List ℕ → List ℕ) (s : State) → IsFounded f (K.contents draft.new.keeper.now) draft.old.pending s → K.reads draft.new.keeper.now ≤ K.reads draft.old.keeper.now + 1 }
    ensures err { OnErr result (draft.new.pending ≡ draft.old.pending) }
    ensures damaged { IfSome (K.contents draft.new.keeper.now) (λ c. IfErr result (λ e. IfDamage e
        (IsFound (K.contents draft.new.keeper.now) draft.old.pending (with_all c draft.old.pending.batch)))) }
    ensures failed { result ≡ Err StoreError.Failed → Rose (K.faults draft.old.keeper.now) (K.faults draft.new.keeper.now) }
{
    let WalkedTree { tree, stops } = made;
    if tree.len() > MAX_NODES as u64 {
        return Ok(false);
    }
    let at = Pos(draft.count());
    let marked = mark(alloc, tree, basis, at)?;
    keep(alloc, draft, fresh.id, fresh.text, marked, &stops, known)
}

// Puts the tree that was planned, where one was and its record can be written.
fn over_plan<K: Keeper>(
    alloc: Global,
    draft: &mut Draft<'_, K>,
    fresh: &NewRevision<'_>,
    basis: &Basis,
    known: &KeptParents<'_>,
    planned: Option<Roster>,
) -> Result<bool, StoreError>
    requires edges { AreEdges fresh.now.read.now.edges }
    requires bounded { AreBounded fresh.now.read.now.edges }
    requires room { draft.old.pending.count < MAX_LOG }
    requires few { length known.now.places.now ≤ 2 }
    requires below { All (λ p. p < draft.old.pending.count) known.now.places.now }
    requires unknown { known.now.places.now ≡ [] → shown known.now.entries.now ≡ [] }
    requires based { (f : List ℕ → List ℕ) (s : State) → (d : IsFounded f (K.contents draft.old.keeper.now) draft.old.pending s) →
        Underlies d.stands.history fresh.now.read.now.edges basis.now fresh.now.id × AreParents d.stands.history d.stands.kept fresh.now.read.now.edges known.now.places.now (shown known.now.entries.now) known.now.depth }
    requires first { IfSome (K.contents draft.old.keeper.now) (λ c. IsFirstRebuilt (with_all c draft.old.pending.batch) known.now.places.now (shown known.now.entries.now) known.now.depth) }
    ensures same_reference { draft.new.keeper.ghost_name ≡ draft.old.keeper.ghost_name }
    ensures stays { Stays K.contents K.leaves K.faults draft.old.keeper.now draft.new.keeper.now }
    ensures accepts { (f : List ℕ → List ℕ) (s : State) → (d : IsFounded f (K.contents draft.new.keeper.now) draft.old.pending s) →
        IfSome planned (λ t. IsPlanned f s.files d.stands.history fresh.now.text.now t) → IsNew f d.stands.history fresh.now →
        IfOk result (λ kept. IsTrue kept → Accepts f d.records s d.stands.history fresh.now draft.new.pending) }
    ensures unkept { result ≡ Ok false → draft.new.pending ≡ draft.old.pending }
    ensures reads { (f : List ℕ → List ℕ) (s : State) → IsFounded f (K.contents draft.new.keeper.now) draft.old.pending s → K.reads draft.new.keeper.now ≤ K.reads draft.old.keeper.now + 1 }
    ensures err { OnErr result (draft.new.pending ≡ draft.old.pending) }
    ensures damaged { IfSome (K.contents draft.new.keeper.now) (λ c. IfErr result (λ e. IfDamage e
        (IsFound (K.contents draft.new.keeper.now) draft.old.pending (with_all c draft.old.pending.batch)))) }
    ensures failed { result ≡ Err StoreError.Failed → Rose (K.faults draft.old.keeper.now) (K.faults draft.new.keeper.now) }
{
    match planned {
        Some(tree) => {
            let stops = tree.stops(alloc)?;
            let made = WalkedTree { tree, stops };
            over_tree(alloc, draft, fresh, basis, known, made)
        }
        None => Ok(false),
    }
}

// Puts the tree that the edges make over the basis. One whose record cannot be written is made over no history.
fn over_edges<I: Ident, K: Keeper>(
    alloc: Global,
    ident: &I,
    draft: &mut Draft<'_, K>,
    fresh: &NewRevision<'_>,
    basis: &Basis,
    known: &KeptParents<'_>,
) -> Result<(), HistoryError>
    requires edges { AreEdges fresh.now.read.now.edges }
    requires bounded { AreBounded fresh.now.read.now.edges }
    requires room { draft.old.pending.count < MAX_LOG }
    requires few { length known.now.places.now ≤ 2 }
    requires below { All (λ p. p < draft.old.pending.count) known.now.places.now }
    requires root { known.now.places.now ≡ [] → Underlies [] fresh.now.read.now.edges basis.now fresh.now.id }
    requires unknown { known.now.places.now ≡ [] → shown known.now.entries.now ≡ [] }
    requires based { (f : List ℕ → List ℕ) (s : State) → (d : IsFounded f (K.contents draft.old.keeper.now) draft.old.pending s) →
        Underlies d.stands.history fresh.now.read.now.edges basis.now fresh.now.id × AreParents d.stands.history d.stands.kept fresh.now.read.now.edges known.now.places.now (shown known.now.entries.now) known.now.depth }
    requires first { IfSome (K.contents draft.old.keeper.now) (λ c. IsFirstRebuilt (with_all c draft.old.pending.batch) known.now.places.now (shown known.now.entries.now) known.now.depth) }
    ensures same_reference { draft.new.keeper.ghost_name ≡ draft.old.keeper.ghost_name }
    ensures stays { Stays K.contents K.leaves K.faults draft.old.keeper.now draft.new.keeper.now }
    ensures accepts { (s : State) → (d : IsFounded (I.meaning ident.now) (K.contents draft.new.keeper.now) draft.old.pending s) →
        IsNew (I.meaning ident.now) d.stands.history fresh.now → OnOk result (Accepts (I.meaning ident.now) d.records s d.stands.history fresh.now draft.new.pending) }
    ensures refused { (s : State) → (d : IsFounded (I.meaning ident.now) (K.contents draft.new.keeper.now) draft.old.pending s) →
        IfErr result (IsRefusal (made_refusal_of (I.meaning ident.now) s.files d.stands.history fresh.now.id fresh.now.read.now)) }
    ensures reads { (f : List ℕ → List ℕ) (s : State) → IsFounded f (K.contents draft.new.keeper.now) draft.old.pending s → MakesIds f →
        K.reads draft.new.keeper.now ≤ K.reads draft.old.keeper.now + (length (new_contents fresh.now.read.now.edges) + 1) }
    ensures err { OnErr result (draft.new.pending ≡ draft.old.pending) }
    ensures damaged { IfSome (K.contents draft.new.keeper.now) (λ c. IfErr result (λ e. IfStoreDamage e
        (IsFound (K.contents draft.new.keeper.now) draft.old.pending (with_all c draft.old.pending.batch)))) }
    ensures failed { result ≡ Err (HistoryError.Store StoreError.Failed) → Rose (K.faults draft.old.keeper.now) (K.faults draft.new.keeper.now) }
{
    let first = known.places.first().copied();
    let made = tree_of(alloc, ident, draft, fresh.read, basis, first, fresh.id)?;
    let kept = over_tree(alloc, draft, fresh, basis, known, made)?;
    if kept {
        return Ok(());
    }
    let parent = known.places.first().copied();
    Err(HistoryError::Store(unfit(draft, parent)))
}

// Accepts a revision over this basis, whose parents are kept so.
fn over<I: Ident, K: Keeper>(
    alloc: Global,
    ident: &I,
    draft: &mut Draft<'_, K>,
    fresh: &NewRevision<'_>,
    basis: &Basis,
    known: &KeptParents<'_>,
    planned: Option<Roster>,
) -> Result<(), HistoryError>
    requires edges { AreEdges fresh.now.read.now.edges }
    requires bounded { AreBounded fresh.now.read.now.edges }
    requires room { draft.old.pending.count < MAX_LOG }
    requires few { length known.now.places.now ≤ 2 }
    requires below { All (λ p. p < draft.old.pending.count) known.now.places.now }
    requires root { known.now.places.now ≡ [] → Underlies [] fresh.now.read.now.edges basis.now fresh.now.id }
    requires unknown { known.now.places.now ≡ [] → shown known.now.entries.now ≡ [] }
    requires based { (f : List ℕ → List ℕ) (s : State) → (d : IsFounded f (K.contents draft.old.keeper.now) draft.old.pending s) →
        Underlies d.stands.history fresh.now.read.now.edges basis.now fresh.now.id × AreParents d.stands.history d.stands.kept fresh.now.read.now.edges known.now.places.now (shown known.now.entries.now) known.now.depth }
    requires first { IfSome (K.contents draft.old.keeper.now) (λ c. IsFirstRebuilt (with_all c draft.old.pending.batch) known.now.places.now (shown known.now.entries.now) known.now.depth) }
    requires planned { (s : State) → (d : IsFounded (I.meaning ident.now) (K.contents draft.old.keeper.now) draft.old.pending s) →
        IfSome planned (λ t. IsPlanned (I.meaning ident.now) s.files d.stands.history fresh.now.text.now t) }
    ensures same_reference { draft.new.keeper.ghost_name ≡ draft.old.keeper.ghost_name }
    ensures stays { Stays K.contents K.leaves K.faults draft.old.keeper.now draft.new.keeper.now }
    ensures accepts { (s : State) → (d : IsFounded (I.meaning ident.now) (K.contents draft.new.keeper.now) draft.old.pending s) →
        IsNew (I.meaning ident.now) d.stands.history fresh.now → OnOk result (Accepts (I.meaning ident.now) d.records s d.stands.history fresh.now draft.new.pending) }
    ensures refused { (s : State) → (d : IsFounded (I.meaning ident.now) (K.contents draft.new.keeper.now) draft.old.pending s) →
        IfErr result (IsRefusal (made_refusal_of (I.meaning ident.now) s.files d.stands.history fresh.now.id fresh.now.read.now)) }
    ensures reads { (f : List ℕ → List ℕ) (s : State) → IsFounded f (K.contents draft.new.keeper.now) draft.old.pending s → MakesIds f →
        K.reads draft.new.keeper.now ≤ K.reads draft.old.keeper.now + (length (new_contents fresh.now.read.now.edges) + 2) }
    ensures err { OnErr result (draft.new.pending ≡ draft.old.pending) }
    ensures damaged { IfSome (K.contents draft.new.keeper.now) (λ c. IfErr result (λ e. IfStoreDamage e
        (IsFound (K.contents draft.new.keeper.now) draft.old.pending (with_all c draft.old.pending.batch)))) }
    ensures failed { result ≡ Err (HistoryError.Store StoreError.Failed) → Rose (K.faults draft.old.keeper.now) (K.faults draft.new.keeper.now) }
{
    let kept = over_plan(alloc, draft, fresh, basis, known, planned)?;
    if kept {
        return Ok(());
    }
    over_edges(alloc, ident, draft, fresh, basis, known)
}

// The same where one parent stands there.
fn over_one<I: Ident, K: Keeper>(
    alloc: Global,
    ident: &I,
    draft: &mut Draft<'_, K>,
    fresh: &NewRevision<'_>,
    places: &[Pos],
    at: Pos,
    planned: Option<Roster>,
) -> Result<(), HistoryError>
    requires edges { AreEdges fresh.now.read.now.edges }
    requires bounded { AreBounded fresh.now.read.now.edges }
    requires room { draft.old.pending.count < MAX_LOG }
    requires one { places.now ≡ at ∷ [] }
    requires below { at < draft.old.pending.count }
    requires parents { (f : List ℕ → List ℕ) (s : State) → (d : IsFounded f (K.contents draft.old.keeper.now) draft.old.pending s) →
        AreOn d.stands.history fresh.now places.now }
    requires planned { (s : State) → (d : IsFounded (I.meaning ident.now) (K.contents draft.old.keeper.now) draft.old.pending s) →
        IfSome planned (λ t. IsPlanned (I.meaning ident.now) s.files d.stands.history fresh.now.text.now t) }
    ensures same_reference { draft.new.keeper.ghost_name ≡ draft.old.keeper.ghost_name }
    ensures stays { Stays K.contents K.leaves K.faults draft.old.keeper.now draft.new.keeper.now }
    ensures accepts { (s : State) → (d : IsFounded (I.meaning ident.now) (K.contents draft.new.keeper.now) draft.old.pending s) →
        IsNew (I.meaning ident.now) d.stands.history fresh.now → OnOk result (Accepts (I.meaning ident.now) d.records s d.stands.history fresh.now draft.new.pending) }
    ensures refused { (s : State) → (d : IsFounded (I.meaning ident.now) (K.contents draft.new.keeper.now) draft.old.pending s) →
        IfErr result (IsRefusal (made_refusal_of (I.meaning ident.now) s.files d.stands.history fresh.now.id fresh.now.read.now)) }
    ensures reads { (f : List ℕ → List ℕ) (s : State) → IsFounded f (K.contents draft.new.keeper.now) draft.old.pending s → MakesIds f →
        K.reads draft.new.keeper.now ≤ K.reads draft.old.keeper.now + (length (new_contents fresh.now.read.now.edges) + 18) }
    ensures err { OnErr result (draft.new.pending ≡ draft.old.pending) }
    ensures damaged { IfSome (K.contents draft.new.keeper.now) (λ c. IfErr result (λ e. IfStoreDamage e
        (IsFound (K.contents draft.new.keeper.now) draft.old.pending (with_all c draft.old.pending.batch)))) }
    ensures failed { result ≡ Err (HistoryError.Store StoreError.Failed) → Rose (K.faults draft.old.keeper.now) (K.faults draft.new.keeper.now) }
{
    let held = draft.roster_at(at)?;
    let parent = held.as_ref();
    let entries = parent.entries(alloc)?;
    let all = [&entries];
    let known = KeptParents {
        places,
        entries: all.as_slice(),
        depth: parent.depth(),
    };
    over(
        alloc,
        ident,
        draft,
        fresh,
        &Basis::One(parent.roster()),
        &known,
        planned,
    )
}

// The same where two parents stand there.
fn over_two<I: Ident, K: Keeper>(
    alloc: Global,
    ident: &I,
    draft: &mut Draft<'_, K>,
    fresh: &NewRevision<'_>,
    places: &[Pos],
    left: Pos,
    right: Pos,
    planned: Option<Roster>,
) -> Result<(), HistoryError>
    requires edges { AreEdges fresh.now.read.now.edges }
    requires bounded { AreBounded fresh.now.read.now.edges }
    requires room { draft.old.pending.count < MAX_LOG }
    requires two { places.now ≡ left ∷ right ∷ [] }
    requires below { (left < draft.old.pending.count) × (right < draft.old.pending.count) }
    requires parents { (f : List ℕ → List ℕ) (s : State) → (d : IsFounded f (K.contents draft.old.keeper.now) draft.old.pending s) →
        AreOn d.stands.history fresh.now places.now }
    requires planned { (s : State) → (d : IsFounded (I.meaning ident.now) (K.contents draft.old.keeper.now) draft.old.pending s) →
        IfSome planned (λ t. IsPlanned (I.meaning ident.now) s.files d.stands.history fresh.now.text.now t) }
    ensures same_reference { draft.new.keeper.ghost_name ≡ draft.old.keeper.ghost_name }
    ensures stays { Stays K.contents K.leaves K.faults draft.old.keeper.now draft.new.keeper.now }
    ensures accepts { (s : State) → (d : IsFounded (I.meaning ident.now) (K.contents draft.new.keeper.now) draft.old.pending s) →
        IsNew (I.meaning ident.now) d.stands.history fresh.now → OnOk result (Accepts (I.meaning ident.now) d.records s d.stands.history fresh.now draft.new.pending) }
    ensures refused { (s : State) → (d : IsFounded (I.meaning ident.now) (K.contents draft.new.keeper.now) draft.old.pending s) →
        IfErr result (IsRefusal (made_refusal_of (I.meaning ident.now) s.files d.stands.history fresh.now.id fresh.now.read.now)) }
    ensures reads { (f : List ℕ → List ℕ) (s : State) → (d : IsFounded f (K.contents draft.new.keeper.now) draft.old.pending s) → MakesIds f → (w : ℕ) → IsWindow (parents_at d.stands.history) places.now w →
        K.reads draft.new.keeper.now ≤ K.reads draft.old.keeper.now + (34 + length (new_contents fresh.now.read.now.edges) + w) }
    ensures err { OnErr result (draft.new.pending ≡ draft.old.pending) }
    ensures damaged { IfSome (K.contents draft.new.keeper.now) (λ c. IfErr result (λ e. IfStoreDamage e
        (IsFound (K.contents draft.new.keeper.now) draft.old.pending (with_all c draft.old.pending.batch)))) }
    ensures failed { result ≡ Err (HistoryError.Store StoreError.Failed) → Rose (K.faults draft.old.keeper.now) (K.faults draft.new.keeper.now) }
{
    let pair = two_parents(alloc, draft, left, right)?;
    let first = pair.left.as_ref();
    let second = pair.right.as_ref();
    let all = [&pair.left_entries, &pair.right_entries];
    let basis = Basis::Two {
        left: first.roster(),
        right: second.roster(),
        only_left: &pair.only_left,
        only_right: &pair.only_right,
    };
    let known = KeptParents {
        places,
        entries: all.as_slice(),
        depth: first.depth(),
    };
    over(alloc, ident, draft, fresh, &basis, &known, planned)
}

/// Accepts a revision over the parents that stand at these places.
pub fn over_places<I: Ident, K: Keeper>(
    alloc: Global,
    ident: &I,
    draft: &mut Draft<'_, K>,
    fresh: &NewRevision<'_>,
    places: &[Pos],
    planned: Option<Roster>,
) -> Result<(), HistoryError>
    requires edges { AreEdges fresh.now.read.now.edges }
    requires bounded { AreBounded fresh.now.read.now.edges }
    requires room { draft.old.pending.count < MAX_LOG }
    requires few { length places.now ≤ 2 }
    requires below { All (λ p. p < draft.old.pending.count) places.now }
    requires root { places.now ≡ [] → All (λ e. e.parent ≡ None) fresh.now.read.now.edges }
    requires parents { (f : List ℕ → List ℕ) (s : State) → (d : IsFounded f (K.contents draft.old.keeper.now) draft.old.pending s) →
        AreOn d.stands.history fresh.now places.now }
    requires planned { (s : State) → (d : IsFounded (I.meaning ident.now) (K.contents draft.old.keeper.now) draft.old.pending s) →
        IfSome planned (λ t. IsPlanned (I.meaning ident.now) s.files d.stands.history fresh.now.text.now t) }
    ensures same_reference { draft.new.keeper.ghost_name ≡ draft.old.keeper.ghost_name }
    ensures stays { Stays K.contents K.leaves K.faults draft.old.keeper.now draft.new.keeper.now }
    ensures accepts { (s : State) → (d : IsFounded (I.meaning ident.now) (K.contents draft.new.keeper.now) draft.old.pending s) →
        IsNew (I.meaning ident.now) d.stands.history fresh.now → OnOk result (Accepts (I.meaning ident.now) d.records s d.stands.history fresh.now draft.new.pending) }
    ensures refused { (s : State) → (d : IsFounded (I.meaning ident.now) (K.contents draft.new.keeper.now) draft.old.pending s) →
        IfErr result (IsRefusal (made_refusal_of (I.meaning ident.now) s.files d.stands.history fresh.now.id fresh.now.read.now)) }
    ensures reads { (f : List ℕ → List ℕ) (s : State) → (d : IsFounded f (K.contents draft.new.keeper.now) draft.old.pending s) → MakesIds f → (w : ℕ) → IsWindow (parents_at d.stands.history) places.now w →
        K.reads draft.new.keeper.now ≤ K.reads draft.old.keeper.now + (34 + length (new_contents fresh.now.read.now.edges) + w) }
    ensures err { OnErr result (draft.new.pending ≡ draft.old.pending) }
    ensures damaged { IfSome (K.contents draft.new.keeper.now) (λ c. IfErr result (λ e. IfStoreDamage e
        (IsFound (K.contents draft.new.keeper.now) draft.old.pending (with_all c draft.old.pending.batch)))) }
    ensures failed { result ≡ Err (HistoryError.Store StoreError.Failed) → Rose (K.faults draft.old.keeper.now) (K.faults draft.new.keeper.now) }
{
    match places {
        [] => {
            let known = KeptParents {
                places,
                entries: &[],
                depth: 0,
            };
            over(alloc, ident, draft, fresh, &Basis::Root, &known, planned)
        }
        [at] => over_one(alloc, ident, draft, fresh, places, *at, planned),
        [left, right] => over_two(alloc, ident, draft, fresh, places, *left, *right, planned),
        _ => unreachable!(),
    }
}

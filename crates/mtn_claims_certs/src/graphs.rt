//! The graph of revisions of `mtn_ancestry`.
ghost use Rattle.std.specs.Prelude.{◌≡◌, ℕ, ◌+◌, ◌-◌, ◌↔◌, ◌<◌, ◌≤◌, max, [], List, ◌∷◌, ◌++◌, length, All, Contains, IsTrue, IfOk, IfErr, OnErr, IfSome, OnOk};
ghost use Rattle.std.specs.List.Sorted.{IsStrictlyIncreasing};
ghost use Rattle.mtn_ancestry.specs.Ancestors.{IsAncestor, IsProperAncestor, IsUncommon, ReachesFrom};
ghost use Rattle.mtn_ancestry.specs.Log.{list_of, parents_of, id_at, IsLog};
ghost use Rattle.mtn_ancestry.specs.Outcome.{IfAsked};
ghost use Rattle.mtn_ancestry.specs.Sets.{IsAscendingListOf};

use mtn_ancestry::{Graph, ParentList, Parents, Pos, PosSet, WalkError, uncommon};
use mtn_base::{Id, NoMemory};
use std::alloc::Global;

/// `PosSet::new`.
pub fn set(alloc: Global, items: Vec<Pos>) -> Result<PosSet, NoMemory>
    requires { IsStrictlyIncreasing items.items }
    ensures { IfOk result (λ s. s ≡ items.items) }
{
    PosSet::new(alloc, items)
}

/// `PosSet::has`.
pub fn has(set: &PosSet, at: Pos) -> bool
    ensures { IsTrue result ↔ Contains set.now at }
{
    set.has(at)
}

/// `PosSet::copy`.
pub fn copy_set(set: &PosSet) -> Result<PosSet, NoMemory>
    ensures { IfOk result (λ s. s ≡ set.now) }
{
    set.copy()
}

/// `Graph::push`.
pub fn push(graph: &mut Graph, id: Id, parents: ParentList) -> Result<Pos, NoMemory>
    requires fresh { (r : ℕ) → ¬ (id_at graph.old r ≡ Some id) }
    requires known { (p : ℕ) → Contains (list_of parents) p → p < length graph.old }
    ensures at { IfOk result (λ at. at ≡ length graph.old) }
    ensures ok { OnOk result (graph.new ≡ graph.old ++ record { id = id; parents = parents } ∷ []) }
    ensures err { OnErr result (graph.new ≡ graph.old) }
{
    graph.push(id, parents)
}

/// `Graph::len`.
pub fn count(graph: &Graph) -> u64
    ensures count { result ≡ length graph.now }
    ensures log { IsLog graph.now }
{
    graph.len()
}

/// `Graph::find`.
pub fn find(graph: &Graph, id: Id) -> Option<Pos>
    ensures found { IfSome result (λ at. id_at graph.now at ≡ Some id) }
    ensures all { (at : ℕ) → id_at graph.now at ≡ Some id → result ≡ Some at }
{
    graph.find(id)
}

/// `Graph::id`.
pub fn id(graph: &Graph, at: Pos) -> Option<Id>
    ensures { result ≡ id_at graph.now at }
{
    graph.id(at)
}

/// `Graph::is_ancestor`.
pub fn is_ancestor(graph: &Graph, alloc: Global, older: Pos, newer: Pos) -> Result<bool, NoMemory>
    requires older { older < length graph.now }
    requires newer { newer < length graph.now }
    ensures { IfOk result (λ b. IsTrue b ↔ IsAncestor (parents_of graph.now) older newer) }
{
    graph.is_ancestor(alloc, older, newer)
}

/// `Graph::ancestors`.
pub fn ancestors(graph: &Graph, alloc: Global, of: &[Pos]) -> Result<PosSet, NoMemory>
    requires { All (λ r. r < length graph.now) of.now }
    ensures { IfOk result (IsAscendingListOf (λ x. (r : ℕ) × Contains of.now r
        × IsProperAncestor (parents_of graph.now) x r)) }
{
    graph.ancestors(alloc, of)
}

/// `Graph::descendents`.
pub fn descendents(graph: &Graph, alloc: Global, of: &[Pos]) -> Result<PosSet, NoMemory>
    requires { All (λ r. r < length graph.now) of.now }
    ensures { IfOk result (IsAscendingListOf (λ x. (r : ℕ) × Contains of.now r
        × IsProperAncestor (parents_of graph.now) r x)) }
{
    graph.descendents(alloc, of)
}

/// `Graph::common`.
pub fn common(graph: &Graph, alloc: Global, of: &[Pos]) -> Result<PosSet, NoMemory>
    requires within { All (λ r. r < length graph.now) of.now }
    requires some { 0 < length of.now }
    ensures { IfOk result (IsAscendingListOf (λ x. (r : ℕ) → Contains of.now r
        → IsAncestor (parents_of graph.now) x r)) }
{
    graph.common(alloc, of)
}

/// `Graph::erase_ancestors`.
pub fn erase_ancestors(graph: &Graph, alloc: Global, of: &[Pos]) -> Result<PosSet, NoMemory>
    requires { All (λ r. r < length graph.now) of.now }
    ensures { IfOk result (IsAscendingListOf (λ x. Contains of.now x
        × ((r : ℕ) → Contains of.now r → ¬ IsProperAncestor (parents_of graph.now) x r))) }
{
    graph.erase_ancestors(alloc, of)
}

/// `Graph::toposort`.
pub fn toposort(graph: &Graph, alloc: Global, of: &[Pos]) -> Result<Vec<Pos>, NoMemory>
    requires { All (λ r. r < length graph.now) of.now }
    ensures { IfOk result (λ v. IsAscendingListOf (Contains of.now) v.items) }
{
    graph.toposort(alloc, of)
}

/// `uncommon`, what it answers.
pub fn uncommon_of<P: Parents>(
    alloc: Global,
    graph: &mut P,
    left: Pos,
    right: Pos,
) -> Result<(PosSet, PosSet), WalkError<P::Error>>
    requires { (count : ℕ) (parents : ℕ → List ℕ) →
        P.tells graph.old count parents → (left < count) × (right < count) }
    ensures left { IfOk result (λ sets. (count : ℕ) (parents : ℕ → List ℕ) →
        P.tells graph.new count parents → IsAscendingListOf (IsUncommon parents left right) sets.0) }
    ensures right { IfOk result (λ sets. (count : ℕ) (parents : ℕ → List ℕ) →
        P.tells graph.new count parents → IsAscendingListOf (IsUncommon parents right left) sets.1) }
    ensures within { IfOk result (λ sets. All (λ x. x ≤ max left right) sets.0 × All (λ x. x ≤ max left right) sets.1) }
{
    uncommon(alloc, graph, left, right)
}

/// `uncommon`, what it asks for and leaves.
pub fn uncommon_asks<P: Parents>(
    alloc: Global,
    graph: &mut P,
    left: Pos,
    right: Pos,
) -> Result<(PosSet, PosSet), WalkError<P::Error>>
    requires { (count : ℕ) (parents : ℕ → List ℕ) →
        P.tells graph.old count parents → (left < count) × (right < count) }
    ensures same_graph { (count : ℕ) (parents : ℕ → List ℕ) →
        P.tells graph.new count parents → P.tells graph.old count parents }
    ensures count { (count : ℕ) (parents : ℕ → List ℕ) (low : ℕ) →
        P.tells graph.new count parents → ReachesFrom parents left right low →
        P.asked graph.new ≤ P.asked graph.old + (max left right + 1 - low) }
    ensures stays { P.stays graph.old graph.new }
    ensures caused { IfErr result (λ e. IfAsked e (P.caused graph.old graph.new)) }
{
    mtn_ancestry::uncommon(alloc, graph, left, right)
}

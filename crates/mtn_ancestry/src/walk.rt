// The walk from two positions down to what they have in common.
//
// It goes by position: the greatest pending position is left first, so that what it was reached from is
// final when it is left. It ends when no pending position was reached from one side alone.
ghost use Rattle.std.specs.Prelude.{◌≡◌, ◌≢◌, ℕ, ◌+◌, ◌-◌, ◌↔◌, ◌<◌, ◌≤◌, ◌⊎◌, suc, max, [], All, List, Some, None, IfOk, IfErr, OnOk, Contains, reverse};
ghost use Rattle.std.specs.List.Sorted.{IsStrictlyIncreasing};
ghost use Rattle.mtn_ancestry.specs.Ancestors.{IsUncommon, ParentsAreEarlier, ReachesFrom};
ghost use Rattle.mtn_ancestry.specs.Log.{list_of};
ghost use Rattle.mtn_ancestry.specs.Sets.{IsAscendingListOf};
ghost use Rattle.mtn_ancestry.specs.Outcome.{IfAsked};

use crate::frontier::{Frontier, Reach};
use crate::{ParentList, Pos, PosSet};
use mtn_base::NoMemory;
use std::alloc::Global;

/// Why a walk has no result.
#[derive(Drop)]
pub enum WalkError<E: Drop> {
    /// The graph answered a question with this error.
    Asked(E),
    /// Memory is wanting.
    NoMemory,
}

impl<E: Drop> From<NoMemory> for WalkError<E> {
    ghost use Rattle.mtn_ancestry.specs.Outcome.{IsNoMemory};

    ghost from_gives = { λ _ e. IsNoMemory e };

    fn from(_: NoMemory) -> WalkError<E> {
        WalkError::NoMemory
    }
}

/// Whoever can be asked for the parents of a position: a graph in memory, or one that is kept elsewhere.
pub trait Parents {
    type Error: Drop;

    // the graph that this tells: how many positions it has, and the parents of each
    ghost tells: { Self → ℕ → (ℕ → List ℕ) → Type 0 };

    // how often it was asked
    ghost asked: { Self → ℕ };

    // what lies between this at a start and this now
    ghost stays: { Self → Self → Type 0 };

    // between this at a start and this now lies what this error was answered for
    ghost caused: { Self → Self → Self.Error → Type 0 };

    /// The parents of a position, which must be in the graph where one is told. Whoever is asked may stop
    /// telling, as after a failed read: what is told at the end was told at the start.
    fn parents(&mut self, at: Pos) -> Result<ParentList, Self::Error>
        requires { (count : ℕ) (graph : ℕ → List ℕ) → tells self.old count graph → at < count }
        ensures below { IfOk result (λ ps. (p : ℕ) → Contains (list_of ps) p → p < at) }
        ensures told { IfOk result (λ ps. (count : ℕ) (graph : ℕ → List ℕ) →
            tells self.new count graph → list_of ps ≡ graph at) }
        ensures same_graph { (count : ℕ) (graph : ℕ → List ℕ) →
            tells self.new count graph → tells self.old count graph }
        ensures count { asked self.new ≤ asked self.old + 1 }
        ensures stays { stays self.old self.new }
        ensures caused { IfErr result (caused self.old self.new) };

    ghost earlier: { (s : Self) (count : ℕ) (graph : ℕ → List ℕ) → tells s count graph → ParentsAreEarlier graph };

    ghost stays_itself: { (s : Self) → stays s s };

    ghost stays_on: { (s t u : Self) → stays s t → stays t u → stays s u };

    ghost caused_before: { (s t u : Self) (e : Self.Error) → stays s t → caused t u e → caused s u e };
}

#[derive(Drop)]
struct Walk {
    frontier: Frontier,
    left: Vec<Pos>,
    right: Vec<Pos>,
}

impl Walk {
    ghost use Rattle.mtn_ancestry.specs.Walking.{pending_of, IsMatched, IsOrderly, IsUnderWay, IsInOrder, StandsAt, IsNextBelow, AreUpTo, left_noted, right_noted};

    // Begins at two unlike positions. The walk stands at the greater.
    fn begin(alloc: Global, left: Pos, right: Pos) -> Result<(Walk, Pos, Reach), NoMemory>
        requires { left ≢ right }
        ensures matched { IfOk result (λ w. IsMatched w.0.frontier) }
        ensures greater { IfOk result (λ w. w.1 ≡ max left right) }
        ensures order { IfOk result (λ w. IsInOrder w.1 (pending_of w.0.frontier) w.0.left.items w.0.right.items) }
        ensures none { IfOk result (λ w. (w.0.left.items ≡ []) × (w.0.right.items ≡ [])) }
        ensures stands { IfOk result (λ w. (graph : ℕ → List ℕ) (low : ℕ) →
            ParentsAreEarlier graph → ReachesFrom graph left right low →
            StandsAt graph left right low w.1 w.2 (pending_of w.0.frontier) w.0.left.items w.0.right.items) }
    {
        let mut frontier = Frontier::new(alloc);
        let (at, reach) = if right < left {
            frontier.add(right, Reach::Right)?;
            (left, Reach::Left)
        } else {
            frontier.add(left, Reach::Left)?;
            (right, Reach::Right)
        };
        let walk = Walk {
            frontier,
            left: Vec::new(alloc),
            right: Vec::new(alloc),
        };
        Ok((walk, at, reach))
    }

    // Leaves the position where the walk stands, which has these parents, and gives the next.
    fn advance(
        &mut self,
        at: Pos,
        reach: Reach,
        parents: &ParentList,
    ) -> Result<Option<(Pos, Reach)>, NoMemory>
        requires matched { IsMatched self.old.frontier }
        requires order { IsInOrder at (pending_of self.old.frontier) self.old.left.items self.old.right.items }
        requires earlier { (p : ℕ) → Contains (list_of parents.now) p → p < at }
        ensures matched { OnOk result (IsMatched self.new.frontier) }
        ensures below { IfOk result (λ next. IsNextBelow next at) }
        ensures order { IfOk result (λ next.
            IsOrderly next (pending_of self.new.frontier) self.new.left.items self.new.right.items) }
        ensures up_to { OnOk result ((top : ℕ) → at ≤ top → AreUpTo top self.old.left.items self.old.right.items →
            AreUpTo top self.new.left.items self.new.right.items) }
        ensures walked { IfOk result (λ next. (graph : ℕ → List ℕ) (a b low : ℕ) →
            ParentsAreEarlier graph → ReachesFrom graph a b low → list_of parents.now ≡ graph at →
            StandsAt graph a b low at reach (pending_of self.old.frontier) self.old.left.items self.old.right.items →
            IsUnderWay graph a b low next (pending_of self.new.frontier) self.new.left.items self.new.right.items) }
    {
        self.note(at, reach)?;
        self.frontier.add_all(parents, reach)?;
        Ok(self.frontier.pop())
    }

    // Lists the position if it is uncommon.
    fn note(&mut self, at: Pos, reach: Reach) -> Result<(), NoMemory>
        ensures same { self.new.frontier ≡ self.old.frontier }
        ensures left { OnOk result (self.new.left.items ≡ left_noted reach self.old.left.items at) }
        ensures right { OnOk result (self.new.right.items ≡ right_noted reach self.old.right.items at) }
    {
        match reach {
            Reach::Left => self.left.push(at)?,
            Reach::Right => self.right.push(at)?,
            Reach::Both => {}
        }
        Ok(())
    }
}

// The set of a list that descends.
fn ascending(alloc: Global, mut items: Vec<Pos>) -> Result<PosSet, NoMemory>
    requires { IsStrictlyIncreasing (reverse items.items) }
    ensures { IfOk result (λ s. s ≡ reverse items.items) }
{
    items.reverse();
    PosSet::new(alloc, items)
}

/// The uncommon positions of two: the ancestors of `left` that are none of `right`, and the reverse.
///
/// What is told at the end was told at the start, and the answer is about the graph that is told at the end.
/// No position in it is above both of the given ones, also where no graph is told. Where one is, no position below the least of the uncommon ones and their parents is asked for, and none
/// twice. So for W positions from there up to the greater of the two, this takes W log W steps.
/// It answers `Asked` only with an error that the graph answered in this call.
pub fn uncommon<P: Parents>(
    alloc: Global,
    graph: &mut P,
    left: Pos,
    right: Pos,
) -> Result<(PosSet, PosSet), WalkError<P::Error>>
    requires { (count : ℕ) (parents : ℕ → List ℕ) →
        P.tells graph.old count parents → (left < count) × (right < count) }
    ensures left { IfOk result (λ sets. (count : ℕ) (parents : ℕ → List ℕ) →
        P.tells graph.new count parents → IsAscendingListOf (IsUncommon parents left right) sets.0) }
    ensures right { IfOk result (λ sets. (count : ℕ) (parents : ℕ → List ℕ) →
        P.tells graph.new count parents → IsAscendingListOf (IsUncommon parents right left) sets.1) }
    ensures within { IfOk result (λ sets. All (λ x. x ≤ max left right) sets.0 × All (λ x. x ≤ max left right) sets.1) }
    ensures same_graph { (count : ℕ) (parents : ℕ → List ℕ) →
        P.tells graph.new count parents → P.tells graph.old count parents }
    ensures count { (count : ℕ) (parents : ℕ → List ℕ) (low : ℕ) →
        P.tells graph.new count parents → ReachesFrom parents left right low →
        P.asked graph.new ≤ P.asked graph.old + (max left right + 1 - low) }
    ensures stays { P.stays graph.old graph.new }
    ensures caused { IfErr result (λ e. IfAsked e (P.caused graph.old graph.new)) }
{
    if left == right {
        return Ok((empty(alloc)?, empty(alloc)?));
    }
    let (mut walk, at, reach) = Walk::begin(alloc, left, right)?;
    let mut next = Some((at, reach));
    while let Some(here) = next {
        let (at, reach) = here;
        let parents = match graph.parents(at) {
            Ok(parents) => parents,
            Err(e) => return Err(WalkError::Asked(e)),
        };
        next = walk.advance(at, reach, &parents)?;
    }
    Ok((ascending(alloc, walk.left)?, ascending(alloc, walk.right)?))
}

fn empty(alloc: Global) -> Result<PosSet, NoMemory>
    ensures { IfOk result (λ s. s ≡ []) }
{
    PosSet::new(alloc, Vec::new(alloc))
}

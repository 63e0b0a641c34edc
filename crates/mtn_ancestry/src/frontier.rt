// The positions that a walk from two positions has come to and not yet left.
ghost use Rattle.std.specs.Prelude.{◌≡◌, ◌≢◌, ℕ, ◌↔◌, ◌<◌, ◌≤◌, ◌⊎◌, Some, None, if◌then◌else◌, OnOk, IfSome, IfNone, Contains};
ghost use Rattle.std.specs.Option.{option_copied};
ghost use Rattle.mtn_ancestry.specs.Log.{list_of};

use crate::{ParentList, Pos};
use mtn_base::NoMemory;
use std::alloc::Global;
use std::collections::{BTreeMap, BTreeSet};

/// From which of the two positions the walk came.
#[derive(Clone, Copy, PartialEq, Eq)]
pub enum Reach {
    Left,
    Right,
    Both,
}

/// The pending positions. Those that only one side reached stand in `single` too.
#[derive(Drop)]
pub struct Frontier {
    reaches: BTreeMap<Pos, Reach>,
    single: BTreeSet<Pos>,
}

impl Frontier {
    ghost use Rattle.mtn_ancestry.specs.Walking.{pending_of, IsMatched, IsLeftAt, IsRightAt, IsFromLeft, IsFromRight, IsSingle};

    /// Nothing is pending.
    pub fn new(alloc: Global) -> Frontier
        ensures none { (x : ℕ) → pending_of result x ≡ None }
        ensures matched { IsMatched result }
    {
        Frontier {
            reaches: BTreeMap::new(alloc),
            single: BTreeSet::new(alloc),
        }
    }

    /// Takes the greatest position, if some position is single.
    pub fn pop(&mut self) -> Option<(Pos, Reach)>
        requires { IsMatched self.old }
        ensures matched { IsMatched self.new }
        ensures done { IfNone result ((x : ℕ) → ¬ IsSingle (pending_of self.old x)) }
        ensures had { IfSome result (λ p. pending_of self.old p.0 ≡ Some p.1) }
        ensures greatest { IfSome result (λ p. (x : ℕ) → p.0 < x → pending_of self.old x ≡ None) }
        ensures taken { IfSome result (λ p. pending_of self.new p.0 ≡ None) }
        ensures rest { IfSome result (λ p. (x : ℕ) → x ≢ p.0 → pending_of self.new x ≡ pending_of self.old x) }
        ensures single { IfSome result (λ p. (u : ℕ) × (u ≤ p.0) × IsSingle (pending_of self.old u)) }
    {
        self.single.last()?;
        let (at, reach) = self.reaches.pop_last()?;
        let _ = self.single.remove(&at);
        Some((at, reach))
    }

    /// Comes to a position from some side.
    pub fn add(&mut self, at: Pos, reach: Reach) -> Result<(), NoMemory>
        requires { IsMatched self.old }
        ensures matched { OnOk result (IsMatched self.new) }
        ensures left { OnOk result ((x : ℕ) → IsLeftAt (pending_of self.new x)
            ↔ (IsLeftAt (pending_of self.old x) ⊎ ((x ≡ at) × IsFromLeft reach))) }
        ensures right { OnOk result ((x : ℕ) → IsRightAt (pending_of self.new x)
            ↔ (IsRightAt (pending_of self.old x) ⊎ ((x ≡ at) × IsFromRight reach))) }
    {
        let joined = reached(self.reaches.get(&at), reach);
        set_single(&mut self.single, at, joined)?;
        let _ = self.reaches.insert(at, joined)?;
        Ok(())
    }

    /// Comes to each of the parents from some side.
    pub fn add_all(&mut self, parents: &ParentList, reach: Reach) -> Result<(), NoMemory>
        requires { IsMatched self.old }
        ensures matched { OnOk result (IsMatched self.new) }
        ensures left { OnOk result ((x : ℕ) → IsLeftAt (pending_of self.new x)
            ↔ (IsLeftAt (pending_of self.old x) ⊎ (Contains (list_of parents.now) x × IsFromLeft reach))) }
        ensures right { OnOk result ((x : ℕ) → IsRightAt (pending_of self.new x)
            ↔ (IsRightAt (pending_of self.old x) ⊎ (Contains (list_of parents.now) x × IsFromRight reach))) }
    {
        match *parents {
            ParentList::Zero => {}
            ParentList::One(p) => self.add(p, reach)?,
            ParentList::Two(p, q) => {
                self.add(p, reach)?;
                self.add(q, reach)?;
            }
        }
        Ok(())
    }
}

ghost use Rattle.std.specs.BTreeSet.{contains};
ghost use Rattle.std.specs.Ordering.{nat_cmp, is_eq};
ghost use Rattle.mtn_ancestry.specs.Walking.{after_reach, is_single};

fn reached(had: Option<&Reach>, reach: Reach) -> Reach
    ensures { result ≡ after_reach (option_copied had.entry) reach }
{
    match (had, reach) {
        (None, _) => reach,
        (Some(Reach::Left), Reach::Left) => Reach::Left,
        (Some(Reach::Right), Reach::Right) => Reach::Right,
        (Some(_), _) => Reach::Both,
    }
}

// Keeps a position among the single ones exactly where one side alone reached it.
fn set_single(single: &mut BTreeSet<Pos>, at: Pos, reach: Reach) -> Result<(), NoMemory>
    ensures { OnOk result ((x : ℕ) → contains nat_cmp single.new x
        ≡ (if is_eq (nat_cmp at x) then is_single reach else contains nat_cmp single.old x)) }
{
    if reach == Reach::Both {
        let _ = single.remove(&at);
    } else {
        let _ = single.insert(at)?;
    }
    Ok(())
}

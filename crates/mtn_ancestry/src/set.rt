// Sets of positions.
ghost use Rattle.std.specs.Prelude.{◌≡◌, ◌↔◌, IsTrue, IfOk, Contains};
ghost use Rattle.std.specs.List.Sorted.{IsStrictlyIncreasing};
ghost use Rattle.mtn_ancestry.specs.Members.{members_of};

use crate::Pos;
use mtn_base::NoMemory;
use std::alloc::Global;
use std::marker::Model;
use std::sync::Arc;

/// A position alone, as most sets of marks have it, or a list that copies share.
enum Members {
    One([Pos; 1]),
    Listed(Arc<Vec<Pos>>),
}

// By hand, so that whoever drops a set calls this, and no proof above knows of two cases.
impl Drop for Members {
    fn drop(self) {
        match self {
            Members::One(_) => {}
            Members::Listed(items) => drop(items),
        }
    }
}

/// A set of positions, which contracts see as a list that ascends without repeats. Copies share the list, and one position alone
/// takes no memory.
#[derive(Drop)]
pub struct PosSet {
    members: Members,
}

impl Model for PosSet {
    ghost use Rattle.std.specs.Prelude.{ℕ, List};
    ghost use Rattle.std.specs.List.Sorted.{IsStrictlyIncreasing};
    ghost use Rattle.mtn_ancestry.specs.Members.{members_of};

    ghost Value = { List ℕ };

    ghost view = { λ s. members_of s.members };

    ghost invariant = { λ s. IsStrictlyIncreasing (members_of s.members) };
}

// The positions of a list: one alone in place.
fn members_in(alloc: Global, items: Vec<Pos>) -> Result<Members, NoMemory>
    ensures { IfOk result (λ m. members_of m ≡ items.items) }
{
    if let [one] = items.as_slice() {
        return Ok(Members::One([*one]));
    }
    Ok(Members::Listed(Arc::new(alloc, items)?))
}

impl Members {
    fn as_slice(&self) -> &[Pos]
        ensures { result.now ≡ members_of self.now }
    {
        match self {
            Members::One(one) => one.as_slice(),
            Members::Listed(items) => items.as_slice(),
        }
    }

    fn copy(&self) -> Result<Members, NoMemory>
        ensures { IfOk result (λ m. members_of m ≡ members_of self.now) }
    {
        match self {
            Members::One(one) => Ok(Members::One(*one)),
            Members::Listed(items) => Ok(Members::Listed(Arc::try_clone(items)?)),
        }
    }
}

impl PosSet {
    /// The set of a list that ascends without repeats.
    pub fn new(alloc: Global, items: Vec<Pos>) -> Result<PosSet, NoMemory>
        requires { IsStrictlyIncreasing items.items }
        ensures { IfOk result (λ s. s ≡ items.items) }
    {
        Ok(PosSet {
            members: members_in(alloc, items)?,
        })
    }

    /// The positions, ascending. It takes no memory.
    pub fn as_slice(&self) -> &[Pos]
        ensures value { result.now ≡ self.now }
        ensures ascending { IsStrictlyIncreasing self.now }
    {
        self.members.as_slice()
    }

    /// Whether the position is in the set, by a binary search. It takes no memory.
    pub fn has(&self, at: Pos) -> bool
        ensures { IsTrue result ↔ Contains self.now at }
    {
        self.as_slice().binary_search(&at).is_ok()
    }

    /// An equal set, which shares the list. Of one position alone it takes no memory.
    pub fn copy(&self) -> Result<PosSet, NoMemory>
        ensures { IfOk result (λ s. s ≡ self.now) }
    {
        Ok(PosSet {
            members: self.members.copy()?,
        })
    }
}

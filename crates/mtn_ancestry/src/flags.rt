// A set of positions while it is made: one flag for each position of the log.
ghost use Rattle.std.specs.Prelude.{◌≡◌, ℕ, ◌↔◌, ◌⊎◌, ◌<◌, ◌≤◌, IsTrue, IfOk, Contains, All, length, true, slice_set, vec_len};
ghost use Rattle.mtn_ancestry.specs.Log.{list_of};
ghost use Rattle.mtn_ancestry.specs.Sets.{IsFlagged, IsAscendingListOf};

use crate::{ParentList, Pos};
use mtn_base::NoMemory;
use std::alloc::Global;

/// No position is flagged.
pub fn no_flags(alloc: Global, count: usize) -> Result<Vec<bool>, NoMemory>
    ensures count { IfOk result (λ f. vec_len f ≡ count) }
    ensures none { IfOk result (λ f. (x : ℕ) → ¬ IsFlagged f.items x) }
{
    Ok(vec![in alloc; false; count]?)
}

/// Each position is flagged.
pub fn all_flags(alloc: Global, count: usize) -> Result<Vec<bool>, NoMemory>
    ensures count { IfOk result (λ f. vec_len f ≡ count) }
    ensures all { IfOk result (λ f. (x : ℕ) → IsFlagged f.items x ↔ (x < count)) }
{
    Ok(vec![in alloc; true; count]?)
}

/// Exactly these positions are flagged.
pub fn flags_of(alloc: Global, count: usize, of: &[Pos]) -> Result<Vec<bool>, NoMemory>
    requires { All (λ p. p < count) of.now }
    ensures count { IfOk result (λ f. vec_len f ≡ count) }
    ensures exact { IfOk result (λ f. (x : ℕ) → IsFlagged f.items x ↔ Contains of.now x) }
{
    let mut flags = no_flags(alloc, count)?;
    for at in of {
        flag(&mut flags, *at);
    }
    Ok(flags)
}

/// Flags a position.
pub fn flag(flags: &mut [bool], at: Pos)
    requires { at < length flags.old }
    ensures { flags.new ≡ slice_set flags.old at true }
{
    flags[at.0 as usize] = true;
}

/// Whether a position is flagged.
pub fn is_flagged(flags: &[bool], at: Pos) -> bool
    requires { at < length flags.now }
    ensures { IsTrue result ↔ IsFlagged flags.now at }
{
    flags[at.0 as usize]
}

/// Flags each of the parents.
pub fn flag_parents(flags: &mut [bool], parents: &ParentList)
    requires { (p : ℕ) → Contains (list_of parents.now) p → p < length flags.old }
    ensures count { length flags.new ≡ length flags.old }
    ensures exact { (x : ℕ) → IsFlagged flags.new x
        ↔ (IsFlagged flags.old x ⊎ Contains (list_of parents.now) x) }
{
    match *parents {
        ParentList::Zero => {}
        ParentList::One(p) => flag(flags, p),
        ParentList::Two(p, q) => {
            flag(flags, p);
            flag(flags, q);
        }
    }
}

/// Turns the flags into those of the given positions that were not flagged.
pub fn flag_rest(given: &[bool], flags: &mut [bool])
    requires { length flags.old ≡ length given.now }
    ensures count { length flags.new ≡ length flags.old }
    ensures exact { (x : ℕ) → IsFlagged flags.new x ↔ (IsFlagged given.now x × ¬ IsFlagged flags.old x) }
{
    for at in 0..given.len() {
        flags[at] = given[at] && !flags[at];
    }
}

/// The flagged positions, ascending.
pub fn flagged(alloc: Global, flags: &[bool]) -> Result<Vec<Pos>, NoMemory>
    ensures { IfOk result (λ v. IsAscendingListOf (IsFlagged flags.now) v.items) }
{
    let mut out = Vec::new(alloc);
    for (at, is_set) in flags.iter().enumerate() {
        if *is_set {
            out.push(Pos(at as u64))?;
        }
    }
    Ok(out)
}

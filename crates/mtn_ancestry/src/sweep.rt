// Sweeps over the log, which find what follows from flagged positions.
ghost use Rattle.std.specs.Prelude.{◌≡◌, ℕ, ◌↔◌, ◌<◌, ◌≤◌, ◌+◌, ◌⊎◌, length, vec_len, slice_index, All, Contains, IsTrue, IfOk};
ghost use Rattle.mtn_ancestry.specs.Ancestors.{IsAncestor, IsProperAncestor, ParentsAreEarlier};
ghost use Rattle.mtn_ancestry.specs.Log.{list_of, parents_of};
ghost use Rattle.mtn_ancestry.specs.Sets.{IsFlagged, IsFlaggedIn};

use crate::flags::{all_flags, flag, flag_parents, flag_rest, flags_of, is_flagged, no_flags};
use crate::words::{FLAGS, flag_each, join_parents, keep_full, no_words};
use crate::{LogEntry, ParentList, Pos};
use mtn_base::NoMemory;
use std::alloc::Global;

/// Flags the parents of each of these positions.
pub fn flag_all_parents(log: &[LogEntry], of: &[Pos], flags: &mut [bool])
    requires earlier { ParentsAreEarlier (parents_of log.now) }
    requires within { All (λ r. r < length log.now) of.now }
    requires room { length flags.old ≡ length log.now }
    ensures count { length flags.new ≡ length flags.old }
    ensures exact { (x : ℕ) → IsFlagged flags.new x
        ↔ (IsFlagged flags.old x ⊎ ((r : ℕ) × Contains of.now r × Contains (parents_of log.now r) x)) }
{
    for at in of {
        flag_parents(flags, &parents_at(log, *at));
    }
}

/// The parents of the revision at a position.
pub fn parents_at(log: &[LogEntry], at: Pos) -> ParentList
    requires { at < length log.now }
    ensures { list_of result ≡ parents_of log.now at }
{
    log[at.0 as usize].parents
}

/// Flags each ancestor of a flagged position, from the position `low` on. Each position is looked at once.
pub fn flag_ancestors(log: &[LogEntry], flags: &mut [bool], low: Pos)
    requires earlier { ParentsAreEarlier (parents_of log.now) }
    requires room { length flags.old ≤ length log.now }
    ensures count { length flags.new ≡ length flags.old }
    ensures exact { (x : ℕ) → low ≤ x → IsFlagged flags.new x
        ↔ ((r : ℕ) × IsFlagged flags.old r × IsAncestor (parents_of log.now) x r) }
{
    let low = low.0 as usize;
    let mut at = flags.len();
    while low < at {
        at -= 1;
        if flags[at] {
            flag_parents(flags, &log[at].parents);
        }
    }
}

/// Whether `older` is `newer` or an ancestor of it.
pub fn is_reached(log: &[LogEntry], flags: &mut [bool], older: Pos, newer: Pos) -> bool
    requires earlier { ParentsAreEarlier (parents_of log.now) }
    requires order { older ≤ newer }
    requires room { length flags.old ≡ newer + 1 }
    requires known { newer < length log.now }
    requires none { (x : ℕ) → ¬ IsFlagged flags.old x }
    ensures { IsTrue result ↔ IsAncestor (parents_of log.now) older newer }
{
    flag(flags, newer);
    flag_ancestors(log, flags, older);
    is_flagged(flags, older)
}

/// The flags of the proper ancestors of at least one of these.
pub fn proper_ancestors(alloc: Global, log: &[LogEntry], of: &[Pos]) -> Result<Vec<bool>, NoMemory>
    requires earlier { ParentsAreEarlier (parents_of log.now) }
    requires within { All (λ r. r < length log.now) of.now }
    ensures count { IfOk result (λ f. vec_len f ≡ length log.now) }
    ensures exact { IfOk result (λ f. (x : ℕ) → IsFlagged f.items x
        ↔ ((r : ℕ) × Contains of.now r × IsProperAncestor (parents_of log.now) x r)) }
{
    let mut flags = no_flags(alloc, log.len())?;
    flag_proper_ancestors(log, of, &mut flags);
    Ok(flags)
}

fn flag_proper_ancestors(log: &[LogEntry], of: &[Pos], flags: &mut [bool])
    requires earlier { ParentsAreEarlier (parents_of log.now) }
    requires within { All (λ r. r < length log.now) of.now }
    requires room { length flags.old ≡ length log.now }
    requires none { (x : ℕ) → ¬ IsFlagged flags.old x }
    ensures count { length flags.new ≡ length flags.old }
    ensures exact { (x : ℕ) → IsFlagged flags.new x
        ↔ ((r : ℕ) × Contains of.now r × IsProperAncestor (parents_of log.now) x r) }
{
    flag_all_parents(log, of, flags);
    flag_ancestors(log, flags, Pos(0));
}

/// The flags of the ancestors of every one of these. It sweeps once for each `FLAGS` of them.
pub fn common_ancestors(alloc: Global, log: &[LogEntry], of: &[Pos]) -> Result<Vec<bool>, NoMemory>
    requires earlier { ParentsAreEarlier (parents_of log.now) }
    requires within { All (λ r. r < length log.now) of.now }
    requires some { 0 < length of.now }
    ensures count { IfOk result (λ f. vec_len f ≡ length log.now) }
    ensures exact { IfOk result (λ f. (x : ℕ) → IsFlagged f.items x
        ↔ ((r : ℕ) → Contains of.now r → IsAncestor (parents_of log.now) x r)) }
{
    let mut common = all_flags(alloc, log.len())?;
    let mut from = 0;
    while from < of.len() {
        let sets = (of.len() - from).min(FLAGS);
        let words = ancestor_words(alloc, log, &of[from..from + sets])?;
        keep_full(&mut common, &words, sets);
        from += sets;
    }
    Ok(common)
}

// For each of these the set of it and its ancestors.
fn ancestor_words(alloc: Global, log: &[LogEntry], of: &[Pos]) -> Result<Vec<u64>, NoMemory>
    requires earlier { ParentsAreEarlier (parents_of log.now) }
    requires within { All (λ r. r < length log.now) of.now }
    requires few { length of.now ≤ 64 }
    ensures count { IfOk result (λ w. vec_len w ≡ length log.now) }
    ensures exact { IfOk result (λ w. (j x : ℕ) → IsFlaggedIn w.items j x
        ↔ ((j < length of.now) × IsAncestor (parents_of log.now) x (slice_index of.now j))) }
{
    let mut words = no_words(alloc, log.len())?;
    flag_ancestors_of_each(log, &mut words, of);
    Ok(words)
}

fn flag_ancestors_of_each(log: &[LogEntry], words: &mut [u64], of: &[Pos])
    requires earlier { ParentsAreEarlier (parents_of log.now) }
    requires within { All (λ r. r < length log.now) of.now }
    requires few { length of.now ≤ 64 }
    requires room { length words.old ≡ length log.now }
    requires none { (j x : ℕ) → ¬ IsFlaggedIn words.old j x }
    ensures count { length words.new ≡ length words.old }
    ensures exact { (j x : ℕ) → IsFlaggedIn words.new j x
        ↔ ((j < length of.now) × IsAncestor (parents_of log.now) x (slice_index of.now j)) }
{
    flag_each(words, of);
    join_ancestors(log, words);
}

// Adds to each set the ancestors of what is in it. Each position is looked at once, after its children.
fn join_ancestors(log: &[LogEntry], words: &mut [u64])
    requires earlier { ParentsAreEarlier (parents_of log.now) }
    requires room { length words.old ≡ length log.now }
    ensures count { length words.new ≡ length words.old }
    ensures exact { (j x : ℕ) → IsFlaggedIn words.new j x
        ↔ ((r : ℕ) × IsFlaggedIn words.old j r × IsAncestor (parents_of log.now) x r) }
{
    let mut at = words.len();
    while 0 < at {
        at -= 1;
        let word = words[at];
        join_parents(words, &log[at].parents, word);
    }
}

/// The flags of those of these that are proper ancestors of no other.
pub fn no_ancestors(alloc: Global, log: &[LogEntry], of: &[Pos]) -> Result<Vec<bool>, NoMemory>
    requires earlier { ParentsAreEarlier (parents_of log.now) }
    requires within { All (λ r. r < length log.now) of.now }
    ensures count { IfOk result (λ f. vec_len f ≡ length log.now) }
    ensures exact { IfOk result (λ f. (x : ℕ) → IsFlagged f.items x
        ↔ (Contains of.now x × ((r : ℕ) → Contains of.now r → ¬ IsProperAncestor (parents_of log.now) x r))) }
{
    let given = flags_of(alloc, log.len(), of)?;
    let mut flags = proper_ancestors(alloc, log, of)?;
    flag_rest(&given, &mut flags);
    Ok(flags)
}

/// The flags of the proper descendents of at least one of these.
pub fn proper_descendents(
    alloc: Global,
    log: &[LogEntry],
    of: &[Pos],
) -> Result<Vec<bool>, NoMemory>
    requires earlier { ParentsAreEarlier (parents_of log.now) }
    requires within { All (λ r. r < length log.now) of.now }
    ensures count { IfOk result (λ f. vec_len f ≡ length log.now) }
    ensures exact { IfOk result (λ f. (x : ℕ) → IsFlagged f.items x
        ↔ ((r : ℕ) × Contains of.now r × IsProperAncestor (parents_of log.now) r x)) }
{
    let given = flags_of(alloc, log.len(), of)?;
    let mut flags = no_flags(alloc, log.len())?;
    flag_descendents(log, &given, &mut flags);
    Ok(flags)
}

// Each position is looked at once, after its parents.
fn flag_descendents(log: &[LogEntry], given: &[bool], below: &mut [bool])
    requires earlier { ParentsAreEarlier (parents_of log.now) }
    requires given { length given.now ≡ length log.now }
    requires room { length below.old ≡ length log.now }
    requires none { (x : ℕ) → ¬ IsFlagged below.old x }
    ensures count { length below.new ≡ length below.old }
    ensures exact { (x : ℕ) → IsFlagged below.new x
        ↔ ((r : ℕ) × IsFlagged given.now r × IsProperAncestor (parents_of log.now) r x) }
{
    for at in 0..log.len() {
        below[at] = has_parent_in(&log[at].parents, given, below);
    }
}

// Whether a parent is flagged in one of the two.
fn has_parent_in(parents: &ParentList, given: &[bool], below: &[bool]) -> bool
    requires given { (p : ℕ) → Contains (list_of parents.now) p → p < length given.now }
    requires below { (p : ℕ) → Contains (list_of parents.now) p → p < length below.now }
    ensures { IsTrue result ↔ ((p : ℕ) × Contains (list_of parents.now) p
        × (IsFlagged given.now p ⊎ IsFlagged below.now p)) }
{
    match *parents {
        ParentList::Zero => false,
        ParentList::One(p) => is_in_either(given, below, p),
        ParentList::Two(p, q) => is_in_either(given, below, p) || is_in_either(given, below, q),
    }
}

fn is_in_either(given: &[bool], below: &[bool], at: Pos) -> bool
    requires given { at < length given.now }
    requires below { at < length below.now }
    ensures { IsTrue result ↔ (IsFlagged given.now at ⊎ IsFlagged below.now at) }
{
    is_flagged(given, at) || is_flagged(below, at)
}

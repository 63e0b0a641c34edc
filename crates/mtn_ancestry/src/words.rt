// Sets of positions, up to 64 at once: one word for each position of the log, with one flag for each set.
ghost use Rattle.std.specs.Prelude.{◌≡◌, ℕ, ◌↔◌, ◌⊎◌, ◌<◌, ◌≤◌, IsTrue, IfOk, Contains, length, vec_len, slice_index};
ghost use Rattle.mtn_ancestry.specs.Log.{list_of};
ghost use Rattle.mtn_ancestry.specs.Sets.{IsFlagged, HasFlag, IsFlaggedIn};

use crate::{ParentList, Pos};
use mtn_base::NoMemory;
use std::alloc::Global;

/// The number of flags of a word.
pub const FLAGS: usize = 64;

/// Each set is empty.
pub fn no_words(alloc: Global, count: usize) -> Result<Vec<u64>, NoMemory>
    ensures count { IfOk result (λ w. vec_len w ≡ count) }
    ensures none { IfOk result (λ w. (j x : ℕ) → ¬ IsFlaggedIn w.items j x) }
{
    Ok(vec![in alloc; 0; count]?)
}

/// Adds the flags of a word to the word of a position.
pub fn join(words: &mut [u64], at: Pos, word: u64)
    requires { at < length words.old }
    ensures count { length words.new ≡ length words.old }
    ensures exact { (j x : ℕ) → IsFlaggedIn words.new j x ↔ (IsFlaggedIn words.old j x ⊎ ((at ≡ x) × HasFlag word j)) }
{
    let at = at.0 as usize;
    words[at] |= word;
}

/// Adds the flags of a word to the word of each of the parents.
pub fn join_parents(words: &mut [u64], parents: &ParentList, word: u64)
    requires { (p : ℕ) → Contains (list_of parents.now) p → p < length words.old }
    ensures count { length words.new ≡ length words.old }
    ensures exact { (j x : ℕ) → IsFlaggedIn words.new j x
        ↔ (IsFlaggedIn words.old j x ⊎ (Contains (list_of parents.now) x × HasFlag word j)) }
{
    match *parents {
        ParentList::Zero => {}
        ParentList::One(p) => join(words, p, word),
        ParentList::Two(p, q) => {
            join(words, p, word);
            join(words, q, word);
        }
    }
}

/// Flags each of these in a set of its own: the first in set 0, and so on.
pub fn flag_each(words: &mut [u64], of: &[Pos])
    requires within { (r : ℕ) → Contains of.now r → r < length words.old }
    requires few { length of.now ≤ 64 }
    requires none { (j x : ℕ) → ¬ IsFlaggedIn words.old j x }
    ensures count { length words.new ≡ length words.old }
    ensures exact { (j x : ℕ) → IsFlaggedIn words.new j x ↔ ((j < length of.now) × (slice_index of.now j ≡ x)) }
{
    for set in 0..of.len() {
        join(words, of[set], 1 << set);
    }
}

/// Keeps the flags of the positions that are in each of the first `sets` sets.
pub fn keep_full(flags: &mut [bool], words: &[u64], sets: usize)
    requires room { length flags.old ≡ length words.now }
    requires few { sets ≤ 64 }
    ensures count { length flags.new ≡ length flags.old }
    ensures exact { (x : ℕ) → IsFlagged flags.new x
        ↔ (IsFlagged flags.old x × ((j : ℕ) → j < sets → IsFlaggedIn words.now j x)) }
{
    for at in 0..words.len() {
        flags[at] = flags[at] && is_full(words[at], sets);
    }
}

// Whether the first `sets` flags are set.
fn is_full(word: u64, sets: usize) -> bool
    requires { sets ≤ 64 }
    ensures { IsTrue result ↔ ((j : ℕ) → j < sets → HasFlag word j) }
{
    word.trailing_ones() as usize >= sets
}

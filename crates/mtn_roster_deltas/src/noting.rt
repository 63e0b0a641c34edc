// The numbers of a tree's nodes, by their places.
ghost use Rattle.std.specs.Prelude.{◌≡◌, ◌<◌, ◌≤◌, ◌+◌, ◌-◌, ◌^◌, ◌++◌, ◌∷◌, [], ℕ, List, map, length, slice_get, slice_index, Some, Contains, IfOk, IsTrue};
ghost use Rattle.mtn_base.specs.Names.{name_cmp};
ghost use Rattle.mtn_base.specs.declared.name.NodeName.{NodeName};
ghost use Rattle.mtn_marking.specs.declared.node.NodeMarks.{NodeMarks};
ghost use Rattle.mtn_base.specs.Lists.{rises};
ghost use Rattle.mtn_roster.specs.Walk.{AreStops};
ghost use Rattle.mtn_roster.specs.declared.entry.Entry.{Entry};
ghost use Rattle.mtn_roster_deltas.specs.Chain.{Entries};
ghost use Rattle.mtn_roster_deltas.specs.Numbering.{all_of, fresh, shown, AreKnown};
ghost use Rattle.mtn_roster_deltas.specs.Noting.{AreFilled, AreNoted, AreOne, HaveNumbers};

use mtn_base::NoMemory;
use mtn_marking::{MarkMap, MarkedRoster};
use mtn_records::{Numbered, NumberedEntry};
use mtn_roster::Stop;
use std::alloc::Global;

/// So many zeros.
fn zeros(alloc: Global, count: usize) -> Result<Vec<u64>, NoMemory>
    ensures long { IfOk result (λ v. length v.items ≡ count) }
    ensures none { IfOk result (λ v. (k : ℕ) → slice_index v.items k ≡ 0) }
{
    let mut numbers = Vec::with_capacity(alloc, count)?;
    for place in 0..count {
        numbers.push(0)?;
    }
    Ok(numbers)
}

/// Notes the number of an entry at the place of its node, if it has one, which is looked for at a guess first, and answers the
/// next guess: the place behind it, since nodes of one birth are numbered as their paths ascend.
fn note_one(numbers: &mut [u64], marks: &MarkMap, entry: &NumberedEntry, guess: usize) -> usize
    requires { length numbers.old ≡ length marks.now }
    ensures { (seen : Entries) → AreNoted seen (map (λ (m : NodeMarks). m.name) marks.now) numbers.old → AreOne (seen ++ entry.now ∷ []) →
        AreNoted (seen ++ entry.now ∷ []) (map (λ (m : NodeMarks). m.name) marks.now) numbers.new }
{
    let _rising = marks.len();
    match marks.place_near(guess, &entry.node) {
        None => guess,
        Some(place) => {
            numbers[place] = entry.number;
            place.saturating_add(1)
        }
    }
}

/// Notes the numbers of entries.
fn note(numbers: &mut [u64], marks: &MarkMap, entries: &[NumberedEntry])
    requires { length numbers.old ≡ length marks.now }
    ensures { (seen : Entries) → AreNoted seen (map (λ (m : NodeMarks). m.name) marks.now) numbers.old → AreOne (seen ++ entries.now) →
        AreNoted (seen ++ entries.now) (map (λ (m : NodeMarks). m.name) marks.now) numbers.new }
{
    let mut guess = 0;
    for entry in entries {
        guess = note_one(numbers, marks, entry, guess);
    }
}

/// The numbers that nodes have already.
pub fn known_numbers(
    alloc: Global,
    marks: &MarkMap,
    known: &[&Numbered],
) -> Result<Vec<u64>, NoMemory>
    ensures long { IfOk result (λ v. length v.items ≡ length marks.now) }
    ensures noted { AreOne (all_of (shown known.now)) → IfOk result (λ v. AreNoted (all_of (shown known.now)) (map (λ (m : NodeMarks). m.name) marks.now) v.items) }
{
    let mut numbers = zeros(alloc, marks.len() as usize)?;
    for list in known {
        note(&mut numbers, marks, list.entries.as_slice());
    }
    Ok(numbers)
}

/// Gives the node at a place the next number where it has none, and answers the next after it.
fn fill_one(numbers: &mut [u64], place: usize, next: u64) -> u64
    requires within { place < length numbers.old }
    requires room { next < 2 ^ 64 - 1 }
    ensures most { result ≤ next + 1 }
    ensures filled { (es : Entries) (first : ℕ) (names met : List NodeName) (n : NodeName) → 0 < first → IsTrue (rises name_cmp names) → slice_get names place ≡ Some n →
        (Contains met n → ⊥) → AreFilled es first names met numbers.old next → AreFilled es first names (met ++ n ∷ []) numbers.new result }
{
    if numbers[place] != 0 {
        return next;
    }
    numbers[place] = next;
    next + 1
}

/// The number of each node: its own, or the next ones as the walk meets them; and the next after these.
pub fn numbers_of(
    alloc: Global,
    roster: &MarkedRoster,
    stops: &[Stop],
    known: &[&Numbered],
    next: u64,
) -> Result<(Vec<u64>, u64), NoMemory>
    requires walk { AreStops roster.now.tree stops.now }
    requires room { next + length roster.now.tree < 2 ^ 63 }
    ensures long { IfOk result (λ r. length r.0.items ≡ length roster.now.tree) }
    ensures numbers { AreKnown (shown known.now) next → IfOk result (λ r. HaveNumbers (shown known.now) next roster.now.tree r.0.items) }
    ensures next { AreKnown (shown known.now) next → IfOk result (λ r. r.1 ≡ next + length (fresh (shown known.now) roster.now.tree)) }
{
    let mut numbers = known_numbers(alloc, roster.marks(), known)?;
    let tree = roster.roster();
    let _sane = tree.len();
    let mut free = next;
    for stop in stops {
        free = fill_one(&mut numbers, stop.place, free);
    }
    Ok((numbers, free))
}

// The chains of records that rosters are rebuilt from, and where one comes to another.
ghost use Rattle.std.specs.Prelude.{◌≡◌, ◌<◌, [], ℕ, reverse, length, Some, None, IfOk, IfSome, IsErrOf, slice_get};
ghost use Rattle.mtn_model.specs.Table.{Contents};
ghost use Rattle.mtn_roster_deltas.specs.Spelled.{Spells};
ghost use Rattle.mtn_history.specs.Rosters.{AreDeltasOn, AreEntriesAt, EndsAt, GivesNoTree, IsChainDown, IsChainOf, IsRebuilt, Rebuilds, base_of as base_in, places};

use crate::Rebuilt;
use mtn_ancestry::Pos;
use mtn_base::NoMemory;
use mtn_marking::MarkedRoster;
use mtn_records::{Numbered, RecordError, RosterRecord};
use mtn_roster_deltas::{entries_of, marked_tree, rebuild_on};
use std::alloc::Global;

/// The entries at a position, and how many deltas its record stands above a whole one.
#[derive(Drop)]
pub struct Base {
    pub entries: Numbered,
    pub depth: u8,
}

/// What the records of a chain end at.
#[derive(Drop)]
pub enum End {
    /// The last is whole.
    ToWhole,
    /// The entries at the position below them are known.
    ToBase(Base),
    /// That position stands on another chain.
    ToMeeting(Pos),
}

/// A step down a chain.
#[derive(Drop)]
pub enum Step {
    /// The records at hand end there.
    End(End),
    /// One record more, which stands on the one at that position.
    To(Pos),
}

/// The records of a position and of those below it, the highest first.
#[derive(Drop)]
pub struct Chain {
    pub records: Vec<RosterRecord>,
    pub end: End,
}

/// A position whose roster cannot be made, and why.
#[derive(Clone, Copy)]
pub struct Unmade {
    pub at: Pos,
    pub error: RecordError,
}

/// What a record stands on; None for a whole one.
pub fn base_of(stored: &RosterRecord) -> Option<Pos>
    ensures { result ≡ base_in stored.now }
{
    match stored {
        RosterRecord::Whole(_) => None,
        RosterRecord::Delta { base, .. } => Some(*base),
    }
}

/// The place among these records, from a position down, of the one of another position.
pub fn place_of(records: &[RosterRecord], top: Pos, at: Pos) -> Option<usize>
    ensures within { IfSome result (λ i. i < length records.now) }
    ensures found { IfSome result (λ i. slice_get (places top records.now) i ≡ Some at) }
    ensures none { result ≡ None → (i : ℕ) → slice_get (places top records.now) i ≡ Some at → ⊥ }
{
    let mut next = top;
    for (place, record) in records.iter().enumerate() {
        if next == at {
            return Some(place);
        }
        next = base_of(record)?;
    }
    None
}

/// That the records of a chain which come to a position end there, where it stands on another chain.
pub fn meeting_at(beside: &[RosterRecord], top: Pos, at: Pos) -> Option<End>
    ensures met { (c : Contents) → IfSome result (EndsAt c at top beside.now []) }
    ensures none { result ≡ None → (i : ℕ) → slice_get (places top beside.now) i ≡ Some at → ⊥ }
{
    match place_of(beside, top, at) {
        Some(_) => Some(End::ToMeeting(at)),
        None => None,
    }
}

/// The entries of a roster that is remembered.
pub fn base_on(alloc: Global, known: &Rebuilt) -> Result<Base, NoMemory>
    ensures entries { IfOk result (λ b. b.entries ≡ known.now.entries) }
    ensures depth { IfOk result (λ b. b.depth ≡ known.now.depth) }
{
    Ok(Base {
        entries: known.entries(alloc)?,
        depth: known.depth(),
    })
}

// The entries that a chain with a whole record gives, its lowest record first. Bad where it gives none.
fn entries_at(alloc: Global, records: Vec<RosterRecord>) -> Result<Base, RecordError>
    ensures right { (c : Contents) (at : ℕ) → IsChainDown c at (reverse records.items) → IfOk result (λ b. AreEntriesAt c at b.entries b.depth) }
    ensures bad { IsErrOf result RecordError.Bad → (c : Contents) (at : ℕ) → IsChainDown c at (reverse records.items) → GivesNoTree c at }
{
    let count = records.len();
    let entries = entries_of(alloc, records)?;
    Ok(Base {
        entries,
        depth: (count - 1) as u8,
    })
}

// The roster of entries. Bad where they spell none.
fn roster_of(alloc: Global, base: Base) -> Result<Rebuilt, RecordError>
    ensures rebuilt { (c : Contents) (at : ℕ) → AreEntriesAt c at base.entries base.depth → IfOk result (Rebuilds c at) }
    ensures bad { IsErrOf result RecordError.Bad → (c : Contents) (at : ℕ) → AreEntriesAt c at base.entries base.depth → GivesNoTree c at }
{
    let Base { entries, depth } = base;
    let roster = marked_tree(alloc, &entries)?;
    Ok(Rebuilt::new(alloc, &entries, roster, depth)?)
}

// The roster of a chain with a whole record, its lowest record first. Bad where it gives none.
fn rebuilt_whole(alloc: Global, records: Vec<RosterRecord>) -> Result<Rebuilt, RecordError>
    ensures rebuilt { (c : Contents) (at : ℕ) → IsChainDown c at (reverse records.items) → IfOk result (Rebuilds c at) }
    ensures bad { IsErrOf result RecordError.Bad → (c : Contents) (at : ℕ) → IsChainDown c at (reverse records.items) → GivesNoTree c at }
{
    let base = entries_at(alloc, records)?;
    roster_of(alloc, base)
}

// The entries that deltas above known entries give, the lowest first, the tree that these spell, and its depth. Bad where they give
// none.
fn made_on(
    alloc: Global,
    base: Base,
    deltas: Vec<RosterRecord>,
) -> Result<(Numbered, MarkedRoster, u8), RecordError>
    ensures spelled { IfOk result (λ r. Spells r.0 r.1) }
    ensures rebuilt { (c : Contents) (at : ℕ) → AreDeltasOn c at (reverse deltas.items) base → IfOk result (λ r. IsRebuilt c at r.0 r.1 r.2) }
    ensures bad { IsErrOf result RecordError.Bad → (c : Contents) (at : ℕ) → AreDeltasOn c at (reverse deltas.items) base → GivesNoTree c at }
{
    let count = deltas.len();
    let Base { entries, depth } = base;
    let (entries, roster) = rebuild_on(alloc, entries, depth, deltas)?;
    Ok((entries, roster, depth + count as u8))
}

// The roster of deltas above known entries, the lowest first. Bad where they give none.
fn rebuilt_on(alloc: Global, base: Base, deltas: Vec<RosterRecord>) -> Result<Rebuilt, RecordError>
    ensures rebuilt { (c : Contents) (at : ℕ) → AreDeltasOn c at (reverse deltas.items) base → IfOk result (Rebuilds c at) }
    ensures bad { IsErrOf result RecordError.Bad → (c : Contents) (at : ℕ) → AreDeltasOn c at (reverse deltas.items) base → GivesNoTree c at }
{
    let (entries, roster, depth) = made_on(alloc, base, deltas)?;
    Ok(Rebuilt::new(alloc, &entries, roster, depth)?)
}

/// The roster that a chain gives. Bad where it gives none.
pub fn rebuilt_by(alloc: Global, chain: Chain) -> Result<Rebuilt, RecordError>
    ensures rebuilt { (c : Contents) (at : ℕ) → IsChainOf c at chain → IfOk result (Rebuilds c at) }
    ensures bad { IsErrOf result RecordError.Bad → (c : Contents) (at : ℕ) → IsChainOf c at chain → GivesNoTree c at }
{
    let Chain { mut records, end } = chain;
    records.reverse();
    match end {
        End::ToWhole => rebuilt_whole(alloc, records),
        End::ToBase(base) => rebuilt_on(alloc, base, records),
        End::ToMeeting(_) => Err(RecordError::Bad),
    }
}

// The entries that deltas above known entries give, the lowest first. Bad where they give no roster.
fn entries_on(alloc: Global, base: Base, deltas: Vec<RosterRecord>) -> Result<Base, RecordError>
    ensures right { (c : Contents) (at : ℕ) → AreDeltasOn c at (reverse deltas.items) base → IfOk result (λ b. AreEntriesAt c at b.entries b.depth) }
    ensures bad { IsErrOf result RecordError.Bad → (c : Contents) (at : ℕ) → AreDeltasOn c at (reverse deltas.items) base → GivesNoTree c at }
{
    let (entries, _roster, depth) = made_on(alloc, base, deltas)?;
    Ok(Base { entries, depth })
}

/// The entries that a chain gives. Bad where it gives no roster.
pub fn base_by(alloc: Global, chain: Chain) -> Result<Base, RecordError>
    ensures right { (c : Contents) (at : ℕ) → IsChainOf c at chain → IfOk result (λ b. AreEntriesAt c at b.entries b.depth) }
    ensures bad { IsErrOf result RecordError.Bad → (c : Contents) (at : ℕ) → IsChainOf c at chain → GivesNoTree c at }
{
    let Chain { mut records, end } = chain;
    records.reverse();
    match end {
        End::ToWhole => entries_at(alloc, records),
        End::ToBase(base) => entries_on(alloc, base, records),
        End::ToMeeting(_) => Err(RecordError::Bad),
    }
}

// Numbers, deltas and chains.
ghost use Rattle.mtn_marking.specs.Marking.{MarkedTree};
ghost use Rattle.mtn_records.specs.declared.record.RosterRecord.{RosterRecord};
ghost use Rattle.mtn_roster.specs.Walk.{AreStops};
ghost use Rattle.mtn_roster_deltas.specs.Chain.{ascend, deepest, rebuilt, Entries, after_all};
ghost use Rattle.mtn_roster_deltas.specs.Difference.{IsDeltaTo};
ghost use Rattle.mtn_roster_deltas.specs.Numbering.{fresh, shown, AreKnown, IsNumbering};
ghost use Rattle.mtn_roster_deltas.specs.Spelled.{Spells};
ghost use Rattle.std.specs.Prelude.{◌≡◌, ◌<◌, ◌+◌, ◌^◌, length, Some, Err, IfOk, ◌≤◌, ◌++◌, ◌∷◌, [], List, IsTrue, None, IsErrOf};

use mtn_ancestry::Pos;
use mtn_base::NoMemory;
use mtn_marking::MarkedRoster;
use mtn_records::{Numbered, RecordError, RosterRecord};
use mtn_roster::Stop;
use mtn_roster_deltas::NumberError;
use std::alloc::Global;

/// As `mtn_roster_deltas::number`.
pub fn number(
    alloc: Global,
    roster: &MarkedRoster,
    stops: &[Stop],
    known: &[&Numbered],
    next: u64,
) -> Result<(Numbered, u64), NumberError>
    requires walk { AreStops roster.now.tree stops.now }
    requires room { next + length roster.now.tree < 2 ^ 63 }
    ensures spells { IfOk result (λ r. Spells r.0 roster.now) }
    ensures numbers { AreKnown (shown known.now) next → IfOk result (λ r. IsNumbering (shown known.now) next roster.now r.0) }
    ensures next { AreKnown (shown known.now) next → IfOk result (λ r. r.1 ≡ next + length (fresh (shown known.now) roster.now.tree)) }
    ensures clash { result ≡ Err NumberError.Clash → AreKnown (shown known.now) next → ⊥ }
{
    mtn_roster_deltas::number(alloc, roster, stops, known, next)
}

/// As `mtn_roster_deltas::delta`.
pub fn delta(
    alloc: Global,
    base: &Numbered,
    base_at: Pos,
    depth: u8,
    new: &Numbered,
) -> Result<RosterRecord, NoMemory>
    ensures is { IsTrue (ascend base.now) → IsTrue (ascend new.now) → IfOk result (IsDeltaTo base.now base_at depth new.now) }
    ensures rebuilds { IfOk result (λ r. (chain : List RosterRecord) → length chain ≡ depth → depth ≤ deepest → rebuilt chain ≡ Some base.now → IsTrue (ascend new.now) →
        rebuilt (chain ++ r ∷ []) ≡ Some new.now) }
{
    mtn_roster_deltas::delta(alloc, base, base_at, depth, new)
}

/// As `mtn_roster_deltas::rebuild`.
pub fn rebuild(
    alloc: Global,
    chain: Vec<RosterRecord>,
) -> Result<(Numbered, MarkedRoster), RecordError>
    ensures entries { IfOk result (λ r. rebuilt chain.items ≡ Some r.0) }
    ensures spelled { IfOk result (λ r. Spells r.0 r.1) }
    ensures bad { IsErrOf result RecordError.Bad → (es : Entries) (t : MarkedTree) → rebuilt chain.items ≡ Some es → Spells es t → ⊥ }
{
    mtn_roster_deltas::rebuild(alloc, chain)
}

/// As `mtn_roster_deltas::rebuild_on`.
pub fn rebuild_on(
    alloc: Global,
    base: Numbered,
    depth: u8,
    deltas: Vec<RosterRecord>,
) -> Result<(Numbered, MarkedRoster), RecordError>
    ensures entries { IfOk result (λ r. after_all (depth + 1) base deltas.items ≡ Some r.0) }
    ensures spelled { IfOk result (λ r. Spells r.0 r.1) }
    ensures bad { IsErrOf result RecordError.Bad → depth ≤ deepest → IsTrue (ascend base) → (es : Entries) (t : MarkedTree) → after_all (depth + 1) base deltas.items ≡ Some es → Spells es t → ⊥ }
{
    mtn_roster_deltas::rebuild_on(alloc, base, depth, deltas)
}

/// As `mtn_roster_deltas::entries_of`.
pub fn entries_of(alloc: Global, chain: Vec<RosterRecord>) -> Result<Numbered, RecordError>
    ensures ok { IfOk result (λ r. rebuilt chain.items ≡ Some r) }
    ensures ascending { IfOk result (λ r. IsTrue (ascend r)) }
    ensures bad { IsErrOf result RecordError.Bad → rebuilt chain.items ≡ None }
{
    mtn_roster_deltas::entries_of(alloc, chain)
}

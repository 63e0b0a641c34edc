// The records of a new revision, put behind the others.
ghost use Rattle.std.specs.Prelude.{◌≡◌, ◌<◌, ◌≤◌, [], All, List, ℕ, length, Ok, Err, None, false, IfOk, IfErr, IfSome, IsTrue, OnErr, OnOk, ◌+◌};
ghost use Rattle.mtn_base.specs.declared.limits.TheConstants.{MAX_LOG, MAX_NODES};
ghost use Rattle.mtn_roster_deltas.specs.Numbering.{shown};
ghost use Rattle.mtn_roster_deltas.specs.Spelled.{Spells};
ghost use Rattle.mtn_changes.specs.declared.change.Edge.{Edge};
ghost use Rattle.mtn_history_laws.specs.History.{Revision};
ghost use Rattle.mtn_replay.specs.Lawful.{IsNext};
ghost use Rattle.mtn_replay.specs.Making.{made};
ghost use Rattle.mtn_roster.specs.Walk.{AreStops};
ghost use Rattle.mtn_model.specs.State.{State};
ghost use Rattle.mtn_ports.specs.Causes.{Rose};
ghost use Rattle.mtn_ports.specs.Kept.{Stays, with_all};
ghost use Rattle.mtn_history.specs.Errors.{IfDamage};
ghost use Rattle.mtn_history.specs.Records.{with_revision};
ghost use Rattle.mtn_history.specs.Rosters.{Rebuilds};
ghost use Rattle.mtn_history.specs.Stands.{IsDraft, IsFounded};
ghost use Rattle.mtn_put_revision.specs.Finding.{IsFound};
ghost use Rattle.mtn_put_revision.specs.Keeping.{AreKeptAt, AreParents, IsFirstRebuilt, IsLogBodyOf, IsMade, IsNewRecord, IsNumberedOn, with_text};
ghost use Rattle.mtn_put_revision.specs.Writing.{AllAscend, IsNextTree, NoneHas};

use crate::records::{KeptParents, Written, log_body, next_number, write_record};
use crate::unfit::unfit;
use mtn_ancestry::Pos;
use mtn_base::{Bytes, Id, NoMemory};
use mtn_history::{Draft, Rebuilt, StoreError};
use mtn_marking::MarkedRoster;
use mtn_ports::Keeper;
use mtn_records::Numbered;
use mtn_roster::Stop;
use mtn_roster_deltas::{NumberError, number};
use std::alloc::Global;

// The entries of a tree, whose walk the caller has, under their numbers behind those that the log has given, and the least number that
// is free then. A clash is damage.
fn number_behind<K: Keeper>(
    alloc: Global,
    draft: &mut Draft<'_, K>,
    roster: &MarkedRoster,
    stops: &[Stop],
    known: &KeptParents<'_>,
) -> Result<(Numbered, u64), StoreError>
    requires nodes { length roster.now.tree ≤ MAX_NODES }
    requires walk { AreStops roster.now.tree stops.now }
    requires below { All (λ p. p < draft.old.pending.count) known.now.places.now }
    requires unknown { known.now.places.now ≡ [] → shown known.now.entries.now ≡ [] }
    requires parents { (f : List ℕ → List ℕ) (s : State) → (d : IsFounded f (K.contents draft.old.keeper.now) draft.old.pending s) →
        AreKeptAt d.stands.kept known.now.places.now (shown known.now.entries.now) }
    ensures same_reference { draft.new.keeper.ghost_name ≡ draft.old.keeper.ghost_name }
    ensures stays { Stays K.contents K.leaves K.faults draft.old.keeper.now draft.new.keeper.now }
    ensures pending { draft.new.pending ≡ draft.old.pending }
    ensures spells { IfOk result (λ r. Spells r.0 roster.now) }
    ensures numbered { (f : List ℕ → List ℕ) (s : State) → (d : IsFounded f (K.contents draft.new.keeper.now) draft.old.pending s) →
        IfOk result (λ r. IsNumberedOn d.stands.kept (shown known.now.entries.now) roster.now r.0 r.1) }
    ensures reads { (f : List ℕ → List ℕ) (s : State) → IsFounded f (K.contents draft.new.keeper.now) draft.old.pending s → K.reads draft.new.keeper.now ≤ K.reads draft.old.keeper.now + 1 }
    ensures damaged { IfSome (K.contents draft.new.keeper.now) (λ c. IfErr result (λ e. IfDamage e
        (IsFound (K.contents draft.new.keeper.now) draft.old.pending (with_all c draft.old.pending.batch)))) }
    ensures failed { result ≡ Err StoreError.Failed → Rose (K.faults draft.old.keeper.now) (K.faults draft.new.keeper.now) }
{
    let next = next_number(draft)?;
    match number(alloc, roster, stops, known.entries, next) {
        Ok(numbers) => Ok(numbers),
        Err(NumberError::Clash) => Err(unfit(draft, known.places.first().copied())),
        Err(NumberError::NoMemory) => Err(StoreError::NoMemory),
    }
}

// The body of a roster's record, and what it gives back.
#[derive(Drop)]
struct NewRecord {
    body: Bytes,
    rebuilt: Rebuilt,
}

// The record of a roster whose entries have their numbers. There is none where it cannot be written.
fn record_of(
    alloc: Global,
    roster: MarkedRoster,
    entries: Numbered,
    known: &KeptParents<'_>,
    at: Pos,
) -> Result<Option<NewRecord>, NoMemory>
    requires { Spells entries roster }
    ensures record { IfOk result (λ o. IfSome o (λ r. IsNewRecord known.now.places.now (shown known.now.entries.now) known.now.depth entries roster at r)) }
    ensures none { result ≡ Ok None → All (λ p. p < at) known.now.places.now → AllAscend (shown known.now.entries.now) → NoneHas at entries }
{
    match write_record(alloc, known, entries, at)? {
        None => Ok(None),
        Some(
            Written {
                body,
                entries,
                depth,
            },
        ) => {
            let rebuilt = Rebuilt::new(alloc, &entries, roster, depth)?;
            Ok(Some(NewRecord { body, rebuilt }))
        }
    }
}

// Puts the records of a revision, and the draft remembers them.
fn put_records<K: Keeper>(
    alloc: Global,
    draft: &mut Draft<'_, K>,
    id: Id,
    text: &[u8],
    free: u64,
    places: &[Pos],
    fresh: NewRecord,
) -> Result<(), NoMemory>
    requires room { draft.old.pending.count < MAX_LOG }
    requires few { length places.now ≤ 2 }
    requires below { All (λ p. p < draft.old.pending.count) places.now }
    requires right { (log : List ℕ) → IfSome (K.contents draft.old.keeper.now) (λ c.
        Rebuilds (with_all c (with_revision draft.old.pending (record { id = id.0; text = text.now }) log fresh.body).batch) draft.old.pending.count fresh.rebuilt) }
    ensures keeper { draft.new.keeper ≡ draft.old.keeper }
    ensures ok { OnOk result ((log : List ℕ) × IsLogBodyOf id free places.now draft.old.pending.count log ×
        (draft.new.pending ≡ with_revision draft.old.pending (record { id = id.0; text = text.now }) log fresh.body)) }
    ensures err { OnErr result (draft.new.pending ≡ draft.old.pending) }
{
    let at = Pos(draft.count());
    let (entry, log) = log_body(alloc, id, free, places, at)?;
    draft.keep_revision(id, text, log, fresh.body, fresh.rebuilt)?;
    draft.remember_log(at, &entry);
    Ok(())
}

/// Puts the records of a revision with this tree, whose walk the caller has, and these parents, and the draft remembers its roster; and tells whether it
/// did, as it does with each tree that a history may have next. Otherwise, and with an error, what is pending is as it was.
pub fn keep<K: Keeper>(
    alloc: Global,
    draft: &mut Draft<'_, K>,
    id: Id,
    text: &[u8],
    roster: MarkedRoster,
    stops: &[Stop],
    known: &KeptParents<'_>,
) -> Result<bool, StoreError>
    requires room { draft.old.pending.count < MAX_LOG }
    requires nodes { length roster.tree ≤ MAX_NODES }
    requires walk { AreStops roster.tree stops.now }
    requires few { length known.now.places.now ≤ 2 }
    requires below { All (λ p. p < draft.old.pending.count) known.now.places.now }
    requires unknown { known.now.places.now ≡ [] → shown known.now.entries.now ≡ [] }
    requires parents { (f : List ℕ → List ℕ) (s : State) → (d : IsFounded f (K.contents draft.old.keeper.now) draft.old.pending s) →
        AreKeptAt d.stands.kept known.now.places.now (shown known.now.entries.now) }
    requires first { IfSome (K.contents draft.old.keeper.now) (λ c. IsFirstRebuilt (with_all c draft.old.pending.batch) known.now.places.now (shown known.now.entries.now) known.now.depth) }
    ensures same_reference { draft.new.keeper.ghost_name ≡ draft.old.keeper.ghost_name }
    ensures stays { Stays K.contents K.leaves K.faults draft.old.keeper.now draft.new.keeper.now }
    ensures kept { (f : List ℕ → List ℕ) (s : State) → (d : IsFounded f (K.contents draft.new.keeper.now) draft.old.pending s) → (edges : List Edge) →
        IsMade d.stands.history edges id roster → AreParents d.stands.history d.stands.kept edges known.now.places.now (shown known.now.entries.now) known.now.depth →
        IsNext f s.files d.stands.history (record { id = id.0; text = text.now }) (made d.stands.history id edges) →
        IfOk result (λ kept. IsTrue kept → IsDraft f d.records draft.new.pending (with_text s (record { id = id.0; text = text.now }))) }
    ensures unkept { result ≡ Ok false → draft.new.pending ≡ draft.old.pending }
    ensures none { result ≡ Ok false → AllAscend (shown known.now.entries.now) → (h : List Revision) (v : Revision) → IsNextTree h v roster → length h ≡ draft.old.pending.count → ⊥ }
    ensures reads { (f : List ℕ → List ℕ) (s : State) → IsFounded f (K.contents draft.new.keeper.now) draft.old.pending s → K.reads draft.new.keeper.now ≤ K.reads draft.old.keeper.now + 1 }
    ensures err { OnErr result (draft.new.pending ≡ draft.old.pending) }
    ensures damaged { IfSome (K.contents draft.new.keeper.now) (λ c. IfErr result (λ e. IfDamage e
        (IsFound (K.contents draft.new.keeper.now) draft.old.pending (with_all c draft.old.pending.batch)))) }
    ensures failed { result ≡ Err StoreError.Failed → Rose (K.faults draft.old.keeper.now) (K.faults draft.new.keeper.now) }
{
    let at = Pos(draft.count());
    let (entries, free) = number_behind(alloc, draft, &roster, stops, known)?;
    let Some(fresh) = record_of(alloc, roster, entries, known, at)? else {
        return Ok(false);
    };
    put_records(alloc, draft, id, text, free, known.places, fresh)?;
    Ok(true)
}

// Rosters with their marks.
ghost use Rattle.std.specs.Prelude.{◌≡◌, List, ℕ, Err, IfOk, IfErr, IfSome};
ghost use Rattle.std.specs.List.Sorted.{IsStrictlyIncreasing};
ghost use Rattle.mtn_basic_io.specs.Spelling.{spelling};
ghost use Rattle.mtn_history.specs.Damage.{IsDamage};
ghost use Rattle.mtn_history.specs.Errors.{IfStoreDamage};
ghost use Rattle.mtn_history.specs.Marked.{IsCounted};
ghost use Rattle.mtn_history.specs.Stands.{IsFounded};
ghost use Rattle.mtn_model.specs.State.{State};
ghost use Rattle.mtn_ports.specs.Causes.{Rose};
ghost use Rattle.mtn_ports.specs.Kept.{Stays, with_all};
ghost use Rattle.mtn_roster_text.specs.Naming.{ids_in, table_of};
ghost use Rattle.mtn_roster_text.specs.RosterText.{roster_of};
ghost use Rattle.mtn_roster_queries.specs.Answers.{Gives};
ghost use Rattle.mtn_answers.specs.Views.{IsRoster};

use mtn_ancestry::Pos;
use mtn_base::{Bytes, Id, NoMemory};
use mtn_history::{Draft, HistoryError, StoreError};
use mtn_marking::MarkedRoster;
use mtn_ports::Keeper;
use mtn_roster_text::{IdTable, marked_positions};
use std::alloc::Global;

// The text, by ascending positions and the ids beside them.
fn text_of(
    alloc: Global,
    roster: &MarkedRoster,
    places: &[Pos],
    ids: &[Id],
) -> Result<Bytes, NoMemory>
    requires { IsStrictlyIncreasing places.now }
    ensures { IfOk result (λ text. text ≡ spelling (roster_of roster.now.tree (ids_in (table_of places.now ids.now) roster.now.marks))) }
{
    let table = IdTable::new(alloc, places, ids)?;
    let mut text = Vec::new(alloc);
    mtn_roster_text::write(roster, &table, &mut text)?;
    Ok(Bytes::from_vec(text))
}

/// The roster of a revision with the marks of each scalar; UnknownRevision where the log has no such id. It asks for
/// the record of each revision that is a mark, once.
pub fn get_roster<K: Keeper>(draft: &mut Draft<'_, K>, id: Id) -> Result<Bytes, HistoryError>
    ensures same_reference { draft.new.keeper.ghost_name ≡ draft.old.keeper.ghost_name }
    ensures stays { Stays K.contents K.leaves K.faults draft.old.keeper.now draft.new.keeper.now }
    ensures pending { draft.new.pending ≡ draft.old.pending }
    ensures found { (f : List ℕ → List ℕ) (s : State) (d : IsFounded f (K.contents draft.new.keeper.now) draft.old.pending s) → Gives (IsRoster d.stands.history id) result }
    ensures damaged { IfSome (K.contents draft.new.keeper.now) (λ c. IsCounted draft.old.pending c → IfErr result (λ e. IfStoreDamage e (IsDamage (with_all c draft.old.pending.batch)))) }
    ensures failed { result ≡ Err (HistoryError.Store StoreError.Failed) → Rose (K.faults draft.old.keeper.now) (K.faults draft.new.keeper.now) }
{
    let (at, held) = draft.roster_of(id)?;
    let alloc = draft.alloc();
    let roster = held.marked();
    let places = marked_positions(alloc, roster)?;
    let ids = draft.ids_at(at, &places)?;
    Ok(text_of(alloc, roster, &places, &ids)?)
}

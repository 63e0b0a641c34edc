// The marks of a file's content.
ghost use Rattle.std.specs.Prelude.{◌≡◌, ◌≢◌, List, ℕ, Err, IfOk, IfErr, IfSome, option_copied};
ghost use Rattle.mtn_history_laws.specs.History.{Revision};
ghost use Rattle.mtn_history_laws.specs.Scalars.Scalar.{ContentOf};
ghost use Rattle.mtn_history.specs.Damage.{IsDamage};
ghost use Rattle.mtn_history.specs.Errors.{IfStoreDamage};
ghost use Rattle.mtn_history.specs.Marked.{IsCounted};
ghost use Rattle.mtn_history.specs.Stands.{IsFounded};
ghost use Rattle.mtn_marking.specs.Graph.{IsMarkedAt};
ghost use Rattle.mtn_marking.specs.Marking.{marks_in};
ghost use Rattle.mtn_model.specs.State.{State};
ghost use Rattle.mtn_ports.specs.Causes.{Rose};
ghost use Rattle.mtn_ports.specs.Kept.{Stays, with_all};
ghost use Rattle.mtn_roster_queries.specs.Answers.{Gives};
ghost use Rattle.mtn_roster_queries.specs.Marks.{GivesMarks};
ghost use Rattle.mtn_answers.specs.Views.{IsContentChanged, mark_stanza as stanza_of_mark, marks_text as text_of_marks};

use mtn_ancestry::PosSet;
use mtn_base::{Bytes, Cause, Id, NoMemory, NodeName, Path, put_in_order};
use mtn_basic_io::{Line, Stanza, Value};
use mtn_history::{Draft, HistoryError, StoreError};
use mtn_marking::{MarkMap, MarkedRoster};
use mtn_ports::Keeper;
use std::alloc::Global;

// The marks of the content of a node; a directory has none.
fn content_of<'a>(marks: &'a MarkMap, name: &NodeName) -> Option<&'a PosSet>
    ensures { option_copied result ≡ marks_in marks.now (ContentOf name.now) }
{
    match marks.get(name) {
        None => None,
        Some(marking) => match &marking.content {
            None => None,
            Some(marks) => Some(marks),
        },
    }
}

// The marks of the content at a path, or why there are none.
fn content_marks(alloc: Global, roster: &MarkedRoster, path: &Path) -> Result<PosSet, HistoryError>
    ensures found { (h : List Revision) (r : ℕ) → IsMarkedAt h r roster.now → GivesMarks h r path.now result }
    ensures sound { IfErr result (λ e. IfStoreDamage e (λ _. ⊥)) }
    ensures failed { result ≢ Err (HistoryError.Store StoreError.Failed) }
{
    let tree = roster.roster();
    let _nodes = tree.len();
    let Some(entry) = tree.at_path(path) else {
        let path = path.copy(alloc)?;
        return Err(HistoryError::Refused(Cause::NoSuchPath { path }));
    };
    match content_of(roster.marks(), &entry.name) {
        Some(marks) => Ok(marks.copy()?),
        None => {
            let path = path.copy(alloc)?;
            Err(HistoryError::Refused(Cause::NotAFile { path }))
        }
    }
}

fn mark_stanza(alloc: Global, id: Id) -> Result<Stanza, NoMemory>
    ensures { IfOk result (λ stanza. stanza ≡ stanza_of_mark id) }
{
    Stanza::new(
        alloc,
        Line::new(alloc, b"content_mark", Value::Hex(Some(id)))?,
    )
}

fn marks_text(alloc: Global, ids: &[Id]) -> Result<Bytes, NoMemory>
    ensures { IfOk result (λ text. text ≡ text_of_marks ids.now) }
{
    let mut stanzas = Vec::new(alloc);
    for id in ids {
        stanzas.push(mark_stanza(alloc, *id)?)?;
    }
    let mut text = Vec::new(alloc);
    mtn_basic_io::write(&stanzas, &mut text)?;
    Ok(Bytes::from_vec(text))
}

/// The marks of the content of the file at a path; UnknownRevision, NoSuchPath or NotAFile where there is none.
pub fn get_content_changed<K: Keeper>(
    draft: &mut Draft<'_, K>,
    id: Id,
    path: &Path,
) -> Result<Bytes, HistoryError>
    ensures same_reference { draft.new.keeper.ghost_name ≡ draft.old.keeper.ghost_name }
    ensures stays { Stays K.contents K.leaves K.faults draft.old.keeper.now draft.new.keeper.now }
    ensures pending { draft.new.pending ≡ draft.old.pending }
    ensures found { (f : List ℕ → List ℕ) (s : State) (d : IsFounded f (K.contents draft.new.keeper.now) draft.old.pending s) → Gives (IsContentChanged d.stands.history id path.now) result }
    ensures damaged { IfSome (K.contents draft.new.keeper.now) (λ c. IsCounted draft.old.pending c → IfErr result (λ e. IfStoreDamage e (IsDamage (with_all c draft.old.pending.batch)))) }
    ensures failed { result ≡ Err (HistoryError.Store StoreError.Failed) → Rose (K.faults draft.old.keeper.now) (K.faults draft.new.keeper.now) }
{
    let (at, held) = draft.roster_of(id)?;
    let alloc = draft.alloc();
    let marks = content_marks(alloc, held.marked(), path)?;
    let mut ids = draft.ids_at(at, marks.as_slice())?;
    put_in_order(&mut ids);
    Ok(marks_text(alloc, &ids)?)
}

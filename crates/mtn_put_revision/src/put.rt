// The calls `put_revision` and `put_revision_as`.
ghost use Rattle.std.specs.Prelude.{◌≡◌, ◌≤◌, List, ℕ, length, Some, None, Err, IfErr, IfSome, OnOk, OnErr, ◌+◌};
ghost use Rattle.mtn_base.specs.declared.limits.TheConstants.{MAX_TEXT};
ghost use Rattle.mtn_changes.specs.RevisionText.{AreEdges};
ghost use Rattle.mtn_entry_laws.specs.Entries.{AreBounded};
ghost use Rattle.mtn_replay.specs.Making.{place_of, refusal_of, unknown_parent};
ghost use Rattle.mtn_replay.specs.Texts.{text_under};
ghost use Rattle.mtn_model.specs.State.{State};
ghost use Rattle.mtn_model.specs.Table.{Contents};
ghost use Rattle.mtn_ports.specs.Causes.{Rose};
ghost use Rattle.mtn_ports.specs.Kept.{Stays, with_all};
ghost use Rattle.mtn_history.specs.Damage.{IsDamage};
ghost use Rattle.mtn_history.specs.Meta.{IsMetaOf};
ghost use Rattle.mtn_history.specs.Errors.{IfDamage, IfStoreDamage};
ghost use Rattle.mtn_history.specs.Stands.{IsDraft, IsFounded};
ghost use Rattle.mtn_put_revision.specs.Finding.{IsFound, IsRefusal};
ghost use Rattle.mtn_put_revision.specs.Keeping.{AcceptsNew, IsPlanned, IsSpelled};
ghost use Rattle.mtn_history.specs.Texts.{TextDamage};
ghost use Rattle.mtn_put_revision.specs.Accepting.{AcceptsRevision, IsCollided, IsHeld, IsUnreadAs, KeepsRevision};
ghost use Rattle.mtn_ports.specs.Ident.{MakesIds};
ghost use Rattle.mtn_put_revision.specs.Reads.{IsBoundOf, IsFor};

use crate::over::{NewRevision, over_places};
use crate::places::places_of;
use mtn_base::{Cause, Id, MAX_LOG, MAX_TEXT};
use mtn_changes::{ChangeTextError, read_revision};
use mtn_history::{Draft, HistoryError, StoreError};
use mtn_ports::{Ident, Keeper};
use mtn_roster::Roster;
use std::alloc::Global;

// What a text that spells no revision is refused for.
fn unread(error: ChangeTextError) -> HistoryError
    ensures { IsUnreadAs error result }
{
    HistoryError::Refused(match error {
        ChangeTextError::NotText { offset } => Cause::NotText { offset },
        ChangeTextError::BadStanza { number } => Cause::BadStanza { number },
        ChangeTextError::BadOrder { number } => Cause::BadOrder { number },
        ChangeTextError::Repeated { number } => Cause::Repeated { number },
        ChangeTextError::BadEdge { number } => Cause::BadEdge { number },
        ChangeTextError::NoMemory => return HistoryError::Store(StoreError::NoMemory),
    })
}

// Whether the log has a text under the id, and whether it is this one.
fn held_text<K: Keeper>(
    alloc: Global,
    draft: &mut Draft<'_, K>,
    id: Id,
    text: &[u8],
) -> Result<Option<bool>, StoreError>
    ensures same_reference { draft.new.keeper.ghost_name ≡ draft.old.keeper.ghost_name }
    ensures stays { Stays K.contents K.leaves K.faults draft.old.keeper.now draft.new.keeper.now }
    ensures pending { draft.new.pending ≡ draft.old.pending }
    ensures held { (f : List ℕ → List ℕ) (c : Contents) (s : State) → K.contents draft.new.keeper.now ≡ Some c → IsDraft f c draft.old.pending s →
        IsHeld s id text.now result }
    ensures reads { K.reads draft.new.keeper.now ≤ K.reads draft.old.keeper.now + 1 }
    ensures damaged { IfSome (K.contents draft.new.keeper.now) (λ c. IfErr result (λ e. IfDamage e (TextDamage (with_all c draft.old.pending.batch)))) }
    ensures failed { result ≡ Err StoreError.Failed → Rose (K.faults draft.old.keeper.now) (K.faults draft.new.keeper.now) }
{
    let mut held = Vec::new(alloc);
    match draft.text_of(id, &mut held) {
        Ok(()) => Ok(Some(held.as_slice() == text)),
        Err(HistoryError::Refused(_)) => Ok(None),
        Err(HistoryError::Store(error)) => Err(error),
    }
}

// Why a text is refused under whose id the log has another: its own fault, or a Collision.
fn collided(alloc: Global, id: Id, text: &[u8]) -> HistoryError
    ensures { IsCollided id text.now result }
{
    match read_revision(alloc, text) {
        Ok(_) => HistoryError::Refused(Cause::Collision { id }),
        Err(error) => unread(error),
    }
}

/// Accepts a revision by its text, and answers its id. A text that is held is accepted already. The first refusal is answered
/// otherwise: a text of more than 64 MiB; the fault of a text that spells no revision; a Collision, where another text is held
/// under the id; a full log; the first parent that is not held; a change that fails, or a path at which the trees of two edges
/// cannot be joined; a tree of too many nodes, or a path that is too long; a content that is not held; another manifest. Any
/// error leaves what is pending as it was. It asks for a record for each parent and new content, at most sixteen for each
/// parent's roster, and those of the walk between two parents.
pub fn put_revision<I: Ident, K: Keeper>(
    alloc: Global,
    ident: &I,
    draft: &mut Draft<'_, K>,
    text: &[u8],
) -> Result<Id, HistoryError>
    ensures same_reference { draft.new.keeper.ghost_name ≡ draft.old.keeper.ghost_name }
    ensures stays { Stays K.contents K.leaves K.faults draft.old.keeper.now draft.new.keeper.now }
    ensures accepts { (c : Contents) (s : State) → K.contents draft.new.keeper.now ≡ Some c → IsDraft (I.meaning ident.now) c draft.old.pending s →
        AcceptsRevision (I.meaning ident.now) c s text.now result draft.new.pending }
    ensures reads { (c : Contents) (s : State) (n : ℕ) → K.contents draft.new.keeper.now ≡ Some c → IsDraft (I.meaning ident.now) c draft.old.pending s →
        IsBoundOf 38 (I.meaning ident.now) s text.now n → K.reads draft.new.keeper.now ≤ K.reads draft.old.keeper.now + n }
    ensures err { OnErr result (draft.new.pending ≡ draft.old.pending) }
    ensures damaged { IfSome (K.contents draft.new.keeper.now) (λ c. IsMetaOf (with_all c draft.old.pending.batch) (record { count = draft.old.pending.count; is_new = draft.old.pending.is_new }) →
        IfErr result (λ e. IfStoreDamage e (IsDamage (with_all c draft.old.pending.batch)))) }
    ensures failed { result ≡ Err (HistoryError.Store StoreError.Failed) → Rose (K.faults draft.old.keeper.now) (K.faults draft.new.keeper.now) }
{
    if text.len() > MAX_TEXT {
        return Err(HistoryError::Refused(Cause::TextTooLong {
            length: text.len() as u64,
        }));
    }
    let id = ident.id(text);
    put_revision_as(alloc, ident, draft, id, text, None)?;
    Ok(id)
}

/// Accepts a revision by its text as [`put_revision`] does, under an id that the caller has, and with the tree that the text
/// makes where the caller has it, as who planned the text does. The id is not computed again. With a tree no edge is applied, no
/// trees are joined, no content is looked for, and no manifest is printed or hashed; the text is read, and the marks and records
/// are made, as ever. Both are trusted by the `requires` alone and compared with nothing: the id has to be the text's; and over
/// every state that the draft may stand for, a new text that the log has room for has to be one of which nothing is refused and
/// that makes this tree. Other texts are answered whatever the tree. Errors, and what they leave, are those of `put_revision`.
/// It asks for as many records, without those of the contents where there is a tree.
pub fn put_revision_as<I: Ident, K: Keeper>(
    alloc: Global,
    ident: &I,
    draft: &mut Draft<'_, K>,
    id: Id,
    text: &[u8],
    tree: Option<Roster>,
) -> Result<(), HistoryError>
    requires id { id.0 ≡ I.meaning ident.now text.now }
    requires planned { (s : State) → (d : IsFounded (I.meaning ident.now) (K.contents draft.old.keeper.now) draft.old.pending s) →
        IfSome tree (λ t. IsPlanned (I.meaning ident.now) s.files d.stands.history text.now t) }
    ensures same_reference { draft.new.keeper.ghost_name ≡ draft.old.keeper.ghost_name }
    ensures stays { Stays K.contents K.leaves K.faults draft.old.keeper.now draft.new.keeper.now }
    ensures accepts { (c : Contents) (s : State) → K.contents draft.new.keeper.now ≡ Some c → IsDraft (I.meaning ident.now) c draft.old.pending s →
        KeepsRevision (I.meaning ident.now) c s text.now result draft.new.pending }
    ensures reads { (c : Contents) (s : State) (n : ℕ) → K.contents draft.new.keeper.now ≡ Some c → IsDraft (I.meaning ident.now) c draft.old.pending s →
        IsBoundOf 38 (I.meaning ident.now) s text.now n → K.reads draft.new.keeper.now ≤ K.reads draft.old.keeper.now + n }
    ensures err { OnErr result (draft.new.pending ≡ draft.old.pending) }
    ensures damaged { IfSome (K.contents draft.new.keeper.now) (λ c. IsMetaOf (with_all c draft.old.pending.batch) (record { count = draft.old.pending.count; is_new = draft.old.pending.is_new }) →
        IfErr result (λ e. IfStoreDamage e (IsDamage (with_all c draft.old.pending.batch)))) }
    ensures failed { result ≡ Err (HistoryError.Store StoreError.Failed) → Rose (K.faults draft.old.keeper.now) (K.faults draft.new.keeper.now) }
{
    if text.len() > MAX_TEXT {
        return Err(HistoryError::Refused(Cause::TextTooLong {
            length: text.len() as u64,
        }));
    }
    let Some(same) = held_text(alloc, draft, id, text)? else {
        return put_new(alloc, ident, draft, id, text, tree);
    };
    if same {
        return Ok(());
    }
    Err(collided(alloc, id, text))
}

// The same of a text whose id the log does not have.
fn put_new<I: Ident, K: Keeper>(
    alloc: Global,
    ident: &I,
    draft: &mut Draft<'_, K>,
    id: Id,
    text: &[u8],
    planned: Option<Roster>,
) -> Result<(), HistoryError>
    requires short { length text.now ≤ MAX_TEXT }
    requires id { id.0 ≡ I.meaning ident.now text.now }
    requires new { (f : List ℕ → List ℕ) (c : Contents) (s : State) → K.contents draft.old.keeper.now ≡ Some c → IsDraft f c draft.old.pending s → text_under s.log id.0 ≡ None }
    requires planned { (s : State) → (d : IsFounded (I.meaning ident.now) (K.contents draft.old.keeper.now) draft.old.pending s) →
        IfSome planned (λ t. IsPlanned (I.meaning ident.now) s.files d.stands.history text.now t) }
    ensures same_reference { draft.new.keeper.ghost_name ≡ draft.old.keeper.ghost_name }
    ensures stays { Stays K.contents K.leaves K.faults draft.old.keeper.now draft.new.keeper.now }
    ensures accepts { (c : Contents) (s : State) → K.contents draft.new.keeper.now ≡ Some c → IsDraft (I.meaning ident.now) c draft.old.pending s →
        KeepsRevision (I.meaning ident.now) c s text.now result draft.new.pending }
    ensures reads { (c : Contents) (s : State) (n : ℕ) → K.contents draft.new.keeper.now ≡ Some c → IsDraft (I.meaning ident.now) c draft.old.pending s →
        IsBoundOf 37 (I.meaning ident.now) s text.now n → K.reads draft.new.keeper.now ≤ K.reads draft.old.keeper.now + n }
    ensures err { OnErr result (draft.new.pending ≡ draft.old.pending) }
    ensures damaged { IfSome (K.contents draft.new.keeper.now) (λ c. IsMetaOf (with_all c draft.old.pending.batch) (record { count = draft.old.pending.count; is_new = draft.old.pending.is_new }) →
        IfErr result (λ e. IfStoreDamage e (IsDamage (with_all c draft.old.pending.batch)))) }
    ensures failed { result ≡ Err (HistoryError.Store StoreError.Failed) → Rose (K.faults draft.old.keeper.now) (K.faults draft.new.keeper.now) }
{
    let read = match read_revision(alloc, text) {
        Ok(read) => read,
        Err(error) => return Err(unread(error)),
    };
    let fresh = NewRevision {
        text,
        read: &read,
        id,
    };
    accept(alloc, ident, draft, &fresh, planned)
}

// Accepts a text that is new to the log.
fn accept<I: Ident, K: Keeper>(
    alloc: Global,
    ident: &I,
    draft: &mut Draft<'_, K>,
    fresh: &NewRevision<'_>,
    planned: Option<Roster>,
) -> Result<(), HistoryError>
    requires edges { AreEdges fresh.now.read.now.edges }
    requires bounded { AreBounded fresh.now.read.now.edges }
    requires new { (f : List ℕ → List ℕ) (s : State) → (d : IsFounded f (K.contents draft.old.keeper.now) draft.old.pending s) → place_of d.stands.history fresh.now.id ≡ None }
    requires planned { (s : State) → (d : IsFounded (I.meaning ident.now) (K.contents draft.old.keeper.now) draft.old.pending s) →
        IfSome planned (λ t. IsPlanned (I.meaning ident.now) s.files d.stands.history fresh.now.text.now t) }
    ensures same_reference { draft.new.keeper.ghost_name ≡ draft.old.keeper.ghost_name }
    ensures stays { Stays K.contents K.leaves K.faults draft.old.keeper.now draft.new.keeper.now }
    ensures accepts { (s : State) → (d : IsFounded (I.meaning ident.now) (K.contents draft.new.keeper.now) draft.old.pending s) →
        IsSpelled (I.meaning ident.now) fresh.now → OnOk result (AcceptsNew (I.meaning ident.now) d.records s d.stands.history fresh.now draft.new.pending) }
    ensures refused { (s : State) → (d : IsFounded (I.meaning ident.now) (K.contents draft.new.keeper.now) draft.old.pending s) →
        IfErr result (IsRefusal (refusal_of (I.meaning ident.now) s.files d.stands.history fresh.now.id fresh.now.read.now)) }
    ensures reads { (f : List ℕ → List ℕ) (s : State) → (d : IsFounded f (K.contents draft.new.keeper.now) draft.old.pending s) → MakesIds f → (n : ℕ) → 37 ≤ n →
        (unknown_parent d.stands.history fresh.now.read.now.edges ≡ None → IsFor 37 d.stands.history fresh.now.read.now.edges n) → K.reads draft.new.keeper.now ≤ K.reads draft.old.keeper.now + n }
    ensures err { OnErr result (draft.new.pending ≡ draft.old.pending) }
    ensures damaged { IfSome (K.contents draft.new.keeper.now) (λ c. IfErr result (λ e. IfStoreDamage e
        (IsFound (K.contents draft.new.keeper.now) draft.old.pending (with_all c draft.old.pending.batch)))) }
    ensures failed { result ≡ Err (HistoryError.Store StoreError.Failed) → Rose (K.faults draft.old.keeper.now) (K.faults draft.new.keeper.now) }
{
    let count = draft.count();
    if count >= MAX_LOG {
        return Err(HistoryError::Refused(Cause::LogFull { count }));
    }
    let places = places_of(alloc, draft, fresh.read.edges.as_slice())?;
    over_places(alloc, ident, draft, fresh, &places, planned)
}

// A revision's text, put.
ghost use Rattle.std.specs.Prelude.{◌≡◌, Err, IfErr, IfSome, Some, option_copied, ◌≤◌, ◌+◌, ℕ, None};
ghost use Rattle.mtn_commands.specs.Certifying.{ending};
ghost use Rattle.mtn_commands.specs.Drafts.{Drafts};
ghost use Rattle.mtn_history.specs.Damage.{IsDamage};
ghost use Rattle.mtn_history.specs.Errors.{IfStoreDamage};
ghost use Rattle.mtn_history.specs.Meta.{IsMetaOf};
ghost use Rattle.mtn_history.specs.Stands.{IsDraft, IsFounded};
ghost use Rattle.mtn_model.specs.State.{State};
ghost use Rattle.mtn_model.specs.Table.{Contents};
ghost use Rattle.mtn_ports.specs.Causes.{Rose};
ghost use Rattle.mtn_ports.specs.Kept.{Stays, with_all};
ghost use Rattle.mtn_put_revision.specs.Accepting.{AcceptsRevision};
ghost use Rattle.mtn_put_revision.specs.Keeping.{IsPlanned};
ghost use Rattle.mtn_put_revision.specs.Reads.{IsBoundOf};

use crate::put_file::id_text;
use crate::said::certify;
use mtn_base::{Bytes, Id};
use mtn_history::{Draft, HistoryError, StoreError};
use mtn_ports::{Ident, Keeper};
use mtn_put_revision::{put_revision, put_revision_as};
use mtn_roster::Roster;
use mtn_step::Said;
use std::alloc::Global;

/// What is known of a text before it is put: its id, and the tree that it makes.
#[derive(Drop)]
pub struct KnownText {
    pub id: Id,
    pub tree: Option<Roster>,
}

// Accepts a text as a revision's, and answers its id.
fn put<I: Ident, K: Keeper>(
    alloc: Global,
    ident: &I,
    text: &[u8],
    known: Option<KnownText>,
    draft: &mut Draft<'_, K>,
) -> Result<Id, HistoryError>
    requires id { IfSome known (λ k. k.id.0 ≡ I.meaning ident.now text.now) }
    requires planned { (s : State) → (d : IsFounded (I.meaning ident.now) (K.contents draft.old.keeper.now) draft.old.pending s) →
        IfSome known (λ k. IfSome k.tree (λ t. IsPlanned (I.meaning ident.now) s.files d.stands.history text.now t)) }
    ensures same_reference { draft.new.keeper.ghost_name ≡ draft.old.keeper.ghost_name }
    ensures stays { Stays K.contents K.leaves K.faults draft.old.keeper.now draft.new.keeper.now }
    ensures accepts { (c : Contents) (s : State) → K.contents draft.new.keeper.now ≡ Some c → IsDraft (I.meaning ident.now) c draft.old.pending s →
        AcceptsRevision (I.meaning ident.now) c s text.now result draft.new.pending }
    ensures damaged { IfSome (K.contents draft.new.keeper.now) (λ c. IsMetaOf (with_all c draft.old.pending.batch) (record { count = draft.old.pending.count; is_new = draft.old.pending.is_new }) →
        IfErr result (λ e. IfStoreDamage e (IsDamage (with_all c draft.old.pending.batch)))) }
    ensures failed { result ≡ Err (HistoryError.Store StoreError.Failed) → Rose (K.faults draft.old.keeper.now) (K.faults draft.new.keeper.now) }
    ensures reads { (c : Contents) (s : State) (n : ℕ) → K.contents draft.new.keeper.now ≡ Some c → IsDraft (I.meaning ident.now) c draft.old.pending s →
        IsBoundOf 38 (I.meaning ident.now) s text.now n → K.reads draft.new.keeper.now ≤ K.reads draft.old.keeper.now + n }
{
    match known {
        None => put_revision(alloc, ident, draft, text),
        Some(KnownText { id, tree }) => {
            put_revision_as(alloc, ident, draft, id, text, tree)?;
            Ok(id)
        }
    }
}

/// Accepts a text as a revision's, with what is said of it where something is, and answers its id. What is known of the text is
/// trusted: its id, and that it makes the tree.
pub fn put_text<I: Ident, K: Keeper>(
    alloc: Global,
    ident: &I,
    text: &[u8],
    known: Option<KnownText>,
    said: Option<&Said>,
    draft: &mut Draft<'_, K>,
) -> Result<Bytes, HistoryError>
    requires id { IfSome known (λ k. k.id.0 ≡ I.meaning ident.now text.now) }
    requires planned { (s : State) → (d : IsFounded (I.meaning ident.now) (K.contents draft.old.keeper.now) draft.old.pending s) →
        IfSome known (λ k. IfSome k.tree (λ t. IsPlanned (I.meaning ident.now) s.files d.stands.history text.now t)) }
    ensures same_reference { draft.new.keeper.ghost_name ≡ draft.old.keeper.ghost_name }
    ensures drafts { Drafts (I.meaning ident.now) K.contents K.leaves K.faults draft.old.keeper.now draft.new.keeper.now draft.old.pending draft.new.pending
        (ending (I.meaning ident.now) (option_copied said.entry) text.now) result }
    ensures reads { option_copied said.entry ≡ None → (c : Contents) (s : State) (n : ℕ) → K.contents draft.new.keeper.now ≡ Some c → IsDraft (I.meaning ident.now) c draft.old.pending s →
        IsBoundOf 38 (I.meaning ident.now) s text.now n → K.reads draft.new.keeper.now ≤ K.reads draft.old.keeper.now + n }
{
    let id = put(alloc, ident, text, known, draft)?;
    match said {
        None => Ok(id_text(alloc, id)?),
        Some(said) => {
            certify(alloc, draft, id, said)?;
            Ok(id_text(alloc, id)?)
        }
    }
}

//! The promises of the calls that accept a revision's text, and of questions over a draft. How many records a text asks for stands
//! alone, under the clause `reads`; the other clauses are in `accepted.rt`. Rosters are asked about in `questions.rt`; the queries
//! of `mtn_near_queries` ask for records near their revisions alone.
//!
//! Each function here restates the contract of one public call of a crate below, in the same words, with the call as its body; it
//! says nothing of its own. Each edit of `must-fail/` puts a body that asks for more, or answers something else, in the place of the
//! call, and is refused.
#![tactic(auto)]

pub mod accepted;
pub mod near;
pub mod questions;

ghost use Rattle.std.specs.Prelude.{◌≡◌, ◌≤◌, ◌+◌, IfSome, Some, ℕ};
ghost use Rattle.mtn_history.specs.Stands.{IsDraft, IsFounded};
ghost use Rattle.mtn_model.specs.State.{State};
ghost use Rattle.mtn_model.specs.Table.{Contents};
ghost use Rattle.mtn_put_revision.specs.Keeping.{IsPlanned};
ghost use Rattle.mtn_put_revision.specs.Reads.{IsBoundOf};

use mtn_base::Id;
use mtn_history::{Draft, HistoryError};
use mtn_ports::{Ident, Keeper};
use mtn_put_revision::{put_revision, put_revision_as};
use mtn_roster::Roster;
use std::alloc::Global;

/// `put_revision`.
pub fn asks<I: Ident, K: Keeper>(
    alloc: Global,
    ident: &I,
    draft: &mut Draft<'_, K>,
    text: &[u8],
) -> Result<Id, HistoryError>
    ensures reads { (c : Contents) (s : State) (n : ℕ) → K.contents draft.new.keeper.now ≡ Some c → IsDraft (I.meaning ident.now) c draft.old.pending s →
        IsBoundOf 38 (I.meaning ident.now) s text.now n → K.reads draft.new.keeper.now ≤ K.reads draft.old.keeper.now + n }
{
    put_revision(alloc, ident, draft, text)
}

/// `put_revision_as`.
pub fn asks_as<I: Ident, K: Keeper>(
    alloc: Global,
    ident: &I,
    draft: &mut Draft<'_, K>,
    id: Id,
    text: &[u8],
    tree: Option<Roster>,
) -> Result<(), HistoryError>
    requires id { id.0 ≡ I.meaning ident.now text.now }
    requires planned { (s : State) → (d : IsFounded (I.meaning ident.now) (K.contents draft.old.keeper.now) draft.old.pending s) →
        IfSome tree (λ t. IsPlanned (I.meaning ident.now) s.files d.stands.history text.now t) }
    ensures reads { (c : Contents) (s : State) (n : ℕ) → K.contents draft.new.keeper.now ≡ Some c → IsDraft (I.meaning ident.now) c draft.old.pending s →
        IsBoundOf 38 (I.meaning ident.now) s text.now n → K.reads draft.new.keeper.now ≤ K.reads draft.old.keeper.now + n }
{
    put_revision_as(alloc, ident, draft, id, text, tree)
}

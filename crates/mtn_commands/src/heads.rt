// The commands `heads` and `branches`.
ghost use Rattle.std.specs.Prelude.{◌≡◌, List as Seq, ℕ, Err, IfErr, IfOk, IfSome};
ghost use Rattle.mtn_commands.specs.Certifying.{AreHeadsOver};
ghost use Rattle.mtn_commands.specs.Drafts.{Drafts};
ghost use Rattle.mtn_history.specs.Damage.{IsDamage};
ghost use Rattle.mtn_history.specs.Errors.{IfDamage};
ghost use Rattle.mtn_history.specs.Marked.{IsCounted};
ghost use Rattle.mtn_ports.specs.Causes.{Rose};
ghost use Rattle.mtn_ports.specs.Kept.{Stays, with_all};
ghost use Rattle.mtn_step.specs.Certifying.{value_lines as lines_of};
ghost use Rattle.mtn_step.specs.Step.{Steps};

use crate::ask::id_lines;
use mtn_base::{Bytes, Id, NoMemory};
use mtn_history::{Draft, HistoryError, StoreError};
use mtn_ports::{Ident, Keeper};
use mtn_put_certs::graph_and_certs;
use mtn_step::Call;
use std::alloc::Global;

/// The heads of a branch, by ascending ids. A certificate of a revision that the log does not have is damage.
pub fn heads_of<K: Keeper>(
    alloc: Global,
    draft: &mut Draft<'_, K>,
    branch: &[u8],
) -> Result<Vec<Id>, StoreError>
    ensures same_reference { draft.new.keeper.ghost_name ≡ draft.old.keeper.ghost_name }
    ensures stays { Stays K.contents K.leaves K.faults draft.old.keeper.now draft.new.keeper.now }
    ensures pending { draft.new.pending ≡ draft.old.pending }
    ensures found { IfOk result (λ ids. (f : Seq ℕ → Seq ℕ) → AreHeadsOver f (K.contents draft.new.keeper.now) draft.old.pending branch.now ids.items) }
    ensures damaged { IfSome (K.contents draft.new.keeper.now) (λ c. IsCounted draft.old.pending c → IfErr result (λ e. IfDamage e (IsDamage (with_all c draft.old.pending.batch)))) }
    ensures failed { result ≡ Err StoreError.Failed → Rose (K.faults draft.old.keeper.now) (K.faults draft.new.keeper.now) }
{
    let (graph, certs) = graph_and_certs(draft)?;
    Ok(mtn_branches::heads(alloc, &graph, &certs, branch)?)
}

/// Answers the heads of a branch.
pub fn heads<I: Ident, K: Keeper>(
    alloc: Global,
    ident: &I,
    branch: &Bytes,
    payload: &[u8],
    draft: &mut Draft<'_, K>,
) -> Result<Bytes, HistoryError>
    ensures same_reference { draft.new.keeper.ghost_name ≡ draft.old.keeper.ghost_name }
    ensures drafts { Drafts (I.meaning ident.now) K.contents K.leaves K.faults draft.old.keeper.now draft.new.keeper.now draft.old.pending draft.new.pending
        (Steps (I.meaning ident.now) (Call.Heads branch.now) payload.now) result }
{
    let ids = heads_of(alloc, draft, branch.as_slice())?;
    Ok(id_lines(alloc, &ids)?)
}

// Values, one a line.
fn value_lines(alloc: Global, values: &[Bytes]) -> Result<Bytes, NoMemory>
    ensures { IfOk result (λ text. text ≡ lines_of values.now) }
{
    let mut text = Vec::new(alloc);
    for value in values {
        text.extend_from_slice(value.as_slice())?;
        text.push(b'\n')?;
    }
    Ok(Bytes::from_vec(text))
}

/// Answers the branches that have a member. A certificate of a revision that the log does not have is damage.
pub fn branches<I: Ident, K: Keeper>(
    alloc: Global,
    ident: &I,
    payload: &[u8],
    draft: &mut Draft<'_, K>,
) -> Result<Bytes, HistoryError>
    ensures same_reference { draft.new.keeper.ghost_name ≡ draft.old.keeper.ghost_name }
    ensures drafts { Drafts (I.meaning ident.now) K.contents K.leaves K.faults draft.old.keeper.now draft.new.keeper.now draft.old.pending draft.new.pending
        (Steps (I.meaning ident.now) Call.Branches payload.now) result }
{
    let (_graph, certs) = graph_and_certs(draft)?;
    let values = mtn_branches::branches(alloc, &certs)?;
    Ok(value_lines(alloc, &values)?)
}

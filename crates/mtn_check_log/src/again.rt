// A text accepted again, for the records that are due of it.
ghost use Rattle.std.specs.Prelude.{◌≡◌, ◌<◌, ◌^◌, ℕ, List, length, Some, None, Err, false, IfErr, IfOk, IfSome};
ghost use Rattle.mtn_model.specs.State.{State};
ghost use Rattle.mtn_model.specs.Table.{Contents, body_at};
ghost use Rattle.mtn_ports.specs.Causes.{Rose};
ghost use Rattle.mtn_ports.specs.Kept.{Stays, with_all};
ghost use Rattle.mtn_records.specs.Fields.{number_text};
ghost use Rattle.mtn_history.specs.Errors.{IfDamage};
ghost use Rattle.mtn_history.specs.Memory.{Knows};
ghost use Rattle.mtn_history.specs.Meta.{IsMetaOf};
ghost use Rattle.mtn_history.specs.Stands.{IsDraft, StandsFor};
ghost use Rattle.mtn_check_log.specs.Below.{below};
ghost use Rattle.mtn_check_log.specs.Positions.{IsAgain, IsTaken, AreBroughtIn};

use crate::below::{Behind, Below, Lent};
use crate::due::{Due, Records};
use mtn_base::Id;
use mtn_history::{Draft, HistoryError, LOG, Memory, Pending, ROSTERS, StoreError};
use mtn_ports::{Batch, Ident, Keeper};
use mtn_put_revision::put_revision_as;
use std::alloc::Global;
use std::marker::Brand;

// The body under a key of a draft's records. Records that stand for a state have one under each key that is asked for here.
fn body_of<K: Keeper>(
    draft: &mut Draft<'_, K>,
    table: u8,
    key: &[u8],
) -> Result<Vec<u8>, StoreError>
    ensures same_reference { draft.new.keeper.ghost_name ≡ draft.old.keeper.ghost_name }
    ensures stays { Stays K.contents K.leaves K.faults draft.old.keeper.now draft.new.keeper.now }
    ensures pending { draft.new.pending ≡ draft.old.pending }
    ensures found { IfSome (K.contents draft.new.keeper.now) (λ c. IfOk result (λ body. body_at (with_all c draft.old.pending.batch) table key.now ≡ Some body.items)) }
    ensures sound { IfErr result (λ e. IfDamage e (λ _. ⊥)) }
    ensures failed { result ≡ Err StoreError.Failed → Rose (K.faults draft.old.keeper.now) (K.faults draft.new.keeper.now) }
{
    let mut body = Vec::new(draft.alloc());
    if draft.get(table, key, &mut body)? {
        Ok(body)
    } else {
        Err(StoreError::NoMemory)
    }
}

// The records of a position in a draft.
fn records_of<K: Keeper>(draft: &mut Draft<'_, K>, at: u64) -> Result<Records, StoreError>
    ensures same_reference { draft.new.keeper.ghost_name ≡ draft.old.keeper.ghost_name }
    ensures stays { Stays K.contents K.leaves K.faults draft.old.keeper.now draft.new.keeper.now }
    ensures pending { draft.new.pending ≡ draft.old.pending }
    ensures found { IfSome (K.contents draft.new.keeper.now) (λ c. IfOk result (AreBroughtIn (with_all c draft.old.pending.batch) at)) }
    ensures sound { IfErr result (λ e. IfDamage e (λ _. ⊥)) }
    ensures failed { result ≡ Err StoreError.Failed → Rose (K.faults draft.old.keeper.now) (K.faults draft.new.keeper.now) }
{
    let key = at.to_be_bytes();
    let log = body_of(draft, LOG, &key)?;
    let roster = body_of(draft, ROSTERS, &key)?;
    Ok(Records { log, roster })
}

// Puts a text at the end of a draft's log, and gives the records that this brings; none where it is refused.
fn put_again<I: Ident, K: Keeper>(
    alloc: Global,
    ident: &I,
    draft: &mut Draft<'_, K>,
    at: u64,
    id: Id,
    text: &[u8],
) -> Result<Option<Records>, StoreError>
    requires { id.0 ≡ I.meaning ident.now text.now }
    ensures same_reference { draft.new.keeper.ghost_name ≡ draft.old.keeper.ghost_name }
    ensures stays { Stays K.contents K.leaves K.faults draft.old.keeper.now draft.new.keeper.now }
    ensures again { (c : Contents) (s : State) → K.contents draft.new.keeper.now ≡ Some c → IsDraft (I.meaning ident.now) c draft.old.pending s →
        IsTaken (I.meaning ident.now) s at text.now (with_all c draft.new.pending.batch) result }
    ensures failed { result ≡ Err StoreError.Failed → Rose (K.faults draft.old.keeper.now) (K.faults draft.new.keeper.now) }
{
    match put_revision_as(alloc, ident, draft, id, text, None) {
        Ok(()) => Ok(Some(records_of(draft, at)?)),
        Err(HistoryError::Refused(_)) => Ok(None),
        Err(HistoryError::Store(error)) => Err(error),
    }
}

// What was taken, with what is remembered.
fn with_memory(
    taken: Result<Option<Records>, StoreError>,
    memory: Memory,
) -> Result<Option<Due>, StoreError>
    ensures again { (f : List ℕ → List ℕ) (s : State) (r : ℕ) (text : List ℕ) (d : Contents) → Knows memory d → IsTaken f s r text d taken → IsAgain f s r text result }
    ensures failed { result ≡ Err StoreError.Failed → taken ≡ Err StoreError.Failed }
{
    match taken {
        Ok(Some(records)) => Ok(Some(Due { records, memory })),
        Ok(None) => Ok(None),
        Err(error) => Err(error),
    }
}

/// The records that a text brings which is accepted at the end of the log, where the keeper's records stand for a state with as
/// many revisions; none where it is refused. The keeper is only asked.
pub fn due_again<I: Ident, K: Keeper>(
    alloc: Global,
    ident: &I,
    keeper: &mut K,
    at: u64,
    id: Id,
    text: &[u8],
    memory: Memory,
) -> Result<Option<Due>, StoreError>
    requires id { id.0 ≡ I.meaning ident.now text.now }
    requires counted { IfSome (K.contents keeper.old) (λ c. IsMetaOf c (record { count = at; is_new = false })) }
    requires knows { IfSome (K.contents keeper.old) (λ c. Knows memory c) }
    ensures stays { Stays K.contents K.leaves K.faults keeper.old keeper.new }
    ensures again { (c : Contents) (s : State) → K.contents keeper.new ≡ Some c → StandsFor (I.meaning ident.now) c s → at ≡ length s.log →
        IsAgain (I.meaning ident.now) s at text.now result }
    ensures failed { result ≡ Err StoreError.Failed → Rose (K.faults keeper.old) (K.faults keeper.new) }
{
    let pending = Pending {
        alloc,
        batch: Batch::new(alloc),
        count: at,
        is_new: false,
    };
    let mut draft = Draft::new(keeper, pending, memory);
    let taken = put_again(alloc, ident, &mut draft, at, id, text);
    let (keeper, _, memory) = draft.into_parts();
    let _ = keeper;
    with_memory(taken, memory)
}

// The same over a keeper that is lent, of which only the first revisions are shown.
fn due_over<'a, I: Ident, K: Keeper, N: Behind>(
    ident: &I,
    lent: Lent<'a, K>,
    id: Id,
    text: &[u8],
    memory: Memory,
) -> (Result<Option<Due>, StoreError>, Lent<'a, K>)
    requires id { id.0 ≡ I.meaning ident.now text.now }
    requires reference { lent.keeper.ghost_name ≡ N.reference }
    requires count { lent.count ≡ N.count }
    requires told { N.told ≡ K.contents lent.keeper.now }
    requires fits { lent.count < 2 ^ 64 }
    requires knows { IfSome (K.contents lent.keeper.now) (λ c. Knows memory (below lent.count c)) }
    ensures same_reference { result.1.keeper.ghost_name ≡ lent.entry.keeper.ghost_name }
    ensures stays { Stays K.contents K.leaves K.faults lent.entry.keeper.now result.1.keeper.now }
    ensures again { (c : Contents) (s : State) → K.contents result.1.keeper.now ≡ Some c → StandsFor (I.meaning ident.now) (below lent.entry.count c) s →
        lent.entry.count ≡ length s.log → IsAgain (I.meaning ident.now) s lent.entry.count text.now result.0 }
    ensures failed { result.0 ≡ Err StoreError.Failed → Rose (K.faults lent.entry.keeper.now) (K.faults result.1.keeper.now) }
{
    let alloc = lent.alloc;
    let at = lent.count;
    let mut shown = Below::<'a, K, N>::new(lent);
    let result = due_again(alloc, ident, &mut shown, at, id, text, memory);
    (result, shown.into_lent())
}

/// The records that are due of a text at a position, over the revisions below it, of which something may be remembered; none
/// where it is refused there. The keeper is only asked.
pub fn due_at<I: Ident, K: Keeper>(
    alloc: Global,
    ident: &I,
    keeper: &mut K,
    at: u64,
    id: Id,
    text: &[u8],
    memory: Memory,
) -> Result<Option<Due>, StoreError>
    requires id { id.0 ≡ I.meaning ident.now text.now }
    requires knows { IfSome (K.contents keeper.old) (λ c. Knows memory (below at c)) }
    ensures stays { Stays K.contents K.leaves K.faults keeper.old keeper.new }
    ensures again { (c : Contents) (s : State) → K.contents keeper.new ≡ Some c → StandsFor (I.meaning ident.now) (below at c) s → at ≡ length s.log →
        IsAgain (I.meaning ident.now) s at text.now result }
    ensures failed { result ≡ Err StoreError.Failed → Rose (K.faults keeper.old) (K.faults keeper.new) }
{
    let lent = Lent::new(alloc, keeper, at);
    let (result, lent) = due_over::<I, K, Brand>(ident, lent, id, text, memory);
    let Lent {
        alloc: _,
        keeper: back,
        count: _,
    } = lent;
    let _ = back;
    result
}

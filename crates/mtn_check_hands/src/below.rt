// What the records below a position tell of revisions.
ghost use Rattle.std.specs.Prelude.{◌≡◌, ◌<◌, ◌^◌, ℕ, List, length, Some, Err, false, IfErr, IfOk, IfSome};
ghost use Rattle.mtn_model.specs.State.{State};
ghost use Rattle.mtn_model.specs.Table.{Contents};
ghost use Rattle.mtn_ports.specs.Causes.{Rose};
ghost use Rattle.mtn_ports.specs.Kept.{Stays};
ghost use Rattle.mtn_history.specs.Errors.{IfDamage};
ghost use Rattle.mtn_history.specs.Meta.{IsMetaOf};
ghost use Rattle.mtn_history.specs.Stands.{StandsFor};
ghost use Rattle.mtn_check_log.specs.Below.{below};
ghost use Rattle.mtn_check_hands.specs.Reading.{IsAnswer, IsAnswerBelow, front_with};

use crate::asked::{Answer, Asked, ask_draft};
use mtn_check_log::{Behind, Below, Lent, undamaged};
use mtn_history::{Draft, Memory, Pending, StoreError};
use mtn_ports::{Batch, Keeper};
use std::alloc::Global;
use std::marker::Brand;

// The answer to a question, over a keeper whose records stand for a state with so many revisions. The keeper is only asked.
fn answer_over<K: Keeper>(
    alloc: Global,
    keeper: &mut K,
    count: u64,
    asked: Asked,
) -> Result<Answer, StoreError>
    requires counted { IfSome (K.contents keeper.old) (λ c. IsMetaOf c (record { count = count; is_new = false })) }
    ensures stays { Stays K.contents K.leaves K.faults keeper.old keeper.new }
    ensures found { (f : List ℕ → List ℕ) (c : Contents) (s : State) (stands : StandsFor f c s) → K.contents keeper.new ≡ Some c → count ≡ length s.log →
        IfOk result (IsAnswer (front_with s.log stands.base.history stands.base.kept) asked) }
    ensures failed { result ≡ Err StoreError.Failed → Rose (K.faults keeper.old) (K.faults keeper.new) }
{
    let pending = Pending {
        alloc,
        batch: Batch::new(alloc),
        count,
        is_new: false,
    };
    let mut draft = Draft::new(keeper, pending, Memory::new(alloc));
    let result = ask_draft(alloc, &mut draft, asked);
    let (keeper, _, _) = draft.into_parts();
    let _ = keeper;
    result
}

// The same over a keeper that is lent, of which only the first revisions are shown.
fn answer_lent<'a, K: Keeper, N: Behind>(
    lent: Lent<'a, K>,
    asked: Asked,
) -> (Result<Answer, StoreError>, Lent<'a, K>)
    requires reference { lent.keeper.ghost_name ≡ N.reference }
    requires count { lent.count ≡ N.count }
    requires told { N.told ≡ K.contents lent.keeper.now }
    requires fits { lent.count < 2 ^ 64 }
    ensures same_reference { result.1.keeper.ghost_name ≡ lent.entry.keeper.ghost_name }
    ensures stays { Stays K.contents K.leaves K.faults lent.entry.keeper.now result.1.keeper.now }
    ensures found { (f : List ℕ → List ℕ) (c : Contents) (s : State) (stands : StandsFor f (below lent.entry.count c) s) → K.contents result.1.keeper.now ≡ Some c →
        lent.entry.count ≡ length s.log → IfOk result.0 (IsAnswer (front_with s.log stands.base.history stands.base.kept) asked) }
    ensures failed { result.0 ≡ Err StoreError.Failed → Rose (K.faults lent.entry.keeper.now) (K.faults result.1.keeper.now) }
{
    let alloc = lent.alloc;
    let count = lent.count;
    let mut shown = Below::<'a, K, N>::new(lent);
    let result = answer_over(alloc, &mut shown, count, asked);
    (result, shown.into_lent())
}

// The answer over the records below a position. The keeper is only asked.
fn answer_at<K: Keeper>(
    alloc: Global,
    keeper: &mut K,
    at: u64,
    asked: Asked,
) -> Result<Answer, StoreError>
    ensures stays { Stays K.contents K.leaves K.faults keeper.old keeper.new }
    ensures found { IfSome (K.contents keeper.new) (λ c. IfOk result (IsAnswerBelow c at asked)) }
    ensures failed { result ≡ Err StoreError.Failed → Rose (K.faults keeper.old) (K.faults keeper.new) }
{
    let lent = Lent::new(alloc, keeper, at);
    let (result, lent) = answer_lent::<K, Brand>(lent, asked);
    let Lent {
        alloc: _,
        keeper: back,
        count: _,
    } = lent;
    let _ = back;
    result
}

/// The answer to a question about revisions below a position; none where a record is missing or bad. It costs what the draft
/// asks for: at most seventeen records for what is kept of one, and the records of the log between two.
pub fn ask_below<K: Keeper>(
    alloc: Global,
    keeper: &mut K,
    at: u64,
    asked: Asked,
) -> Result<Option<Answer>, StoreError>
    ensures stays { Stays K.contents K.leaves K.faults keeper.old keeper.new }
    ensures found { IfSome (K.contents keeper.new) (λ c. IfOk result (λ o. IfSome o (IsAnswerBelow c at asked))) }
    ensures sound { IfErr result (λ e. IfDamage e (λ _. ⊥)) }
    ensures failed { result ≡ Err StoreError.Failed → Rose (K.faults keeper.old) (K.faults keeper.new) }
{
    undamaged(answer_at(alloc, keeper, at, asked))
}

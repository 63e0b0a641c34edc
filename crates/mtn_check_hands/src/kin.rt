// The parents of a position.
ghost use Rattle.std.specs.Prelude.{◌≡◌, ◌∷◌, [], ℕ, List as Seq, Some, Err, IfErr, IfOk, IfSome, IsTrue};
ghost use Rattle.mtn_ports.specs.Causes.{Rose};
ghost use Rattle.mtn_ports.specs.Kept.{Stays};
ghost use Rattle.mtn_records.specs.declared.record.RosterRecord.TheVariants.{Whole};
ghost use Rattle.mtn_history.specs.Errors.{IfDamage};
ghost use Rattle.mtn_check_laws.specs.FirstDamage.{IsBegun};
ghost use Rattle.mtn_check_laws.specs.Fronts.{Front, IsFrontAt};
ghost use Rattle.mtn_check_records.specs.Reading.{ids_of};
ghost use Rattle.mtn_check_hands.specs.Reading.{AreApart, AreKinAt, IsHandAt};

use crate::Hands;
use crate::asked::{Answer, Asked};
use crate::below::ask_below;
use crate::records::Records;
use mtn_ancestry::{ParentList, Pos, PosSet};
use mtn_base::{Id, List, NoMemory};
use mtn_check_log::get_shown;
use mtn_check_pieces::SharedRecord;
use mtn_check_records::{Hand, Parent};
use mtn_history::{StoreError, TEXTS};
use mtn_make_roster::Uncommon;
use mtn_ports::Keeper;
use std::alloc::Global;
use std::collections::BTreeSet;

/// The parents of a position in the order of the text, and the whole records of their rosters; and, where they are
/// two, what each has above it that the other lacks.
#[derive(Drop)]
pub struct Kin {
    pub parents: List<Parent>,
    pub records: List<SharedRecord>,
    pub only_left: Uncommon,
    pub only_right: Uncommon,
}

fn copy_of(hand: &Hand) -> Result<Hand, NoMemory>
    ensures { IfOk result (λ h. h ≡ hand.now) }
{
    Ok(Hand {
        id: hand.id,
        next: hand.next,
        depth: hand.depth,
        entries: hand.entries.copy()?,
    })
}

// What is kept of the revision at a position below: what is at hand, or else what the records tell.
fn hand_at<K: Keeper>(
    alloc: Global,
    keeper: &mut K,
    hands: &Hands,
    at: u64,
    place: u64,
) -> Result<Option<Hand>, StoreError>
    ensures stays { Stays K.contents K.leaves K.faults keeper.old keeper.new }
    ensures found { IfSome (K.contents keeper.new) (λ c. IfOk result (λ o. IfSome o (IsHandAt c at hands.now place))) }
    ensures sound { IfErr result (λ e. IfDamage e (λ _. ⊥)) }
    ensures failed { result ≡ Err StoreError.Failed → Rose (K.faults keeper.old) (K.faults keeper.new) }
{
    if place >= at {
        return Ok(None);
    }
    if let Some(hand) = hands.get(place) {
        return Ok(Some(copy_of(hand)?));
    }
    match ask_below(alloc, keeper, at, Asked::Kept(place))? {
        Some(Answer::Held(hand)) => Ok(Some(hand)),
        Some(Answer::Apart(_, _)) => Ok(None),
        None => Ok(None),
    }
}

// What each of two parents has above it that the other lacks.
fn apart_at<K: Keeper>(
    alloc: Global,
    keeper: &mut K,
    at: u64,
    left: u64,
    right: u64,
) -> Result<Option<(Uncommon, Uncommon)>, StoreError>
    ensures stays { Stays K.contents K.leaves K.faults keeper.old keeper.new }
    ensures found { IfSome (K.contents keeper.new) (λ c. IfOk result (λ o. IfSome o (λ u. (f : Seq ℕ → Seq ℕ) (n : ℕ) (front : Front) → IsBegun f c n → IsFrontAt f c at front →
        AreApart front.history (left ∷ right ∷ []) u.0 u.1))) }
    ensures sound { IfErr result (λ e. IfDamage e (λ _. ⊥)) }
    ensures failed { result ≡ Err StoreError.Failed → Rose (K.faults keeper.old) (K.faults keeper.new) }
{
    match ask_below(alloc, keeper, at, Asked::Between(left, right))? {
        Some(Answer::Apart(only_left, only_right)) => Ok(Some((only_left, only_right))),
        Some(Answer::Held(_)) => Ok(None),
        None => Ok(None),
    }
}

fn nothing_apart(alloc: Global) -> Result<Uncommon, NoMemory> {
    Ok(Uncommon {
        positions: PosSet::new(alloc, Vec::new(alloc))?,
        ids: BTreeSet::new(alloc),
    })
}

fn kin_of_none(alloc: Global) -> Result<Kin, NoMemory>
    ensures parents { IfOk result (λ k. k.parents ≡ []) }
    ensures records { IfOk result (λ k. k.records ≡ []) }
{
    Ok(Kin {
        parents: List::new(alloc),
        records: List::new(alloc),
        only_left: nothing_apart(alloc)?,
        only_right: nothing_apart(alloc)?,
    })
}

fn parent_of(place: u64, hand: &Hand) -> Parent
    ensures { result ≡ record { at = place; id = hand.now.id; depth = hand.now.depth } }
{
    Parent {
        at: Pos(place),
        id: hand.id,
        depth: hand.depth,
    }
}

fn kin_of_one(alloc: Global, place: u64, hand: Hand) -> Result<Kin, NoMemory>
    ensures parents { IfOk result (λ k. k.parents ≡ record { at = place; id = hand.id; depth = hand.depth } ∷ []) }
    ensures records { IfOk result (λ k. k.records ≡ Whole hand.entries ∷ []) }
{
    let parent = parent_of(place, &hand);
    let whole = hand.entries.whole()?;
    Ok(Kin {
        parents: List::from_vec(vec![in alloc; parent]?),
        records: List::from_vec(vec![in alloc; whole]?),
        only_left: nothing_apart(alloc)?,
        only_right: nothing_apart(alloc)?,
    })
}

// The whole records of two rosters.
fn both_whole(alloc: Global, left: &Hand, right: &Hand) -> Result<List<SharedRecord>, NoMemory>
    ensures { IfOk result (λ rs. rs ≡ Whole left.now.entries ∷ Whole right.now.entries ∷ []) }
{
    let first = left.entries.whole()?;
    let second = right.entries.whole()?;
    Ok(List::from_vec(vec![in alloc; first, second]?))
}

fn kin_of_two(
    alloc: Global,
    places: (u64, u64),
    left: &Hand,
    right: &Hand,
    apart: (Uncommon, Uncommon),
) -> Result<Kin, NoMemory>
    ensures parents { IfOk result (λ k. k.parents ≡ record { at = places.0; id = left.now.id; depth = left.now.depth } ∷ record { at = places.1; id = right.now.id; depth = right.now.depth } ∷ []) }
    ensures records { IfOk result (λ k. k.records ≡ Whole left.now.entries ∷ Whole right.now.entries ∷ []) }
    ensures left { IfOk result (λ k. k.only_left ≡ apart.0) }
    ensures right { IfOk result (λ k. k.only_right ≡ apart.1) }
{
    let (only_left, only_right) = apart;
    let first = parent_of(places.0, left);
    let second = parent_of(places.1, right);
    Ok(Kin {
        parents: List::from_vec(vec![in alloc; first, second]?),
        records: both_whole(alloc, left, right)?,
        only_left,
        only_right,
    })
}

// One parent.
fn one_parent<K: Keeper>(
    alloc: Global,
    keeper: &mut K,
    hands: &Hands,
    at: u64,
    place: u64,
) -> Result<Option<Kin>, StoreError>
    ensures stays { Stays K.contents K.leaves K.faults keeper.old keeper.new }
    ensures found { IfSome (K.contents keeper.new) (λ c. IfOk result (λ o. IfSome o (AreKinAt c at hands.now))) }
    ensures sound { IfErr result (λ e. IfDamage e (λ _. ⊥)) }
    ensures failed { result ≡ Err StoreError.Failed → Rose (K.faults keeper.old) (K.faults keeper.new) }
{
    match hand_at(alloc, keeper, hands, at, place)? {
        Some(hand) => Ok(Some(kin_of_one(alloc, place, hand)?)),
        None => Ok(None),
    }
}

// Two parents.
fn two_parents<K: Keeper>(
    alloc: Global,
    keeper: &mut K,
    hands: &Hands,
    at: u64,
    left: u64,
    right: u64,
) -> Result<Option<Kin>, StoreError>
    ensures stays { Stays K.contents K.leaves K.faults keeper.old keeper.new }
    ensures found { IfSome (K.contents keeper.new) (λ c. IfOk result (λ o. IfSome o (AreKinAt c at hands.now))) }
    ensures sound { IfErr result (λ e. IfDamage e (λ _. ⊥)) }
    ensures failed { result ≡ Err StoreError.Failed → Rose (K.faults keeper.old) (K.faults keeper.new) }
{
    let Some(first) = hand_at(alloc, keeper, hands, at, left)? else {
        return Ok(None);
    };
    let Some(second) = hand_at(alloc, keeper, hands, at, right)? else {
        return Ok(None);
    };
    let Some(apart) = apart_at(alloc, keeper, at, left, right)? else {
        return Ok(None);
    };
    let kin = kin_of_two(alloc, (left, right), &first, &second, apart)?;
    Ok(Some(kin))
}

// The parents that the record of the log tells.
fn told_kin<K: Keeper>(
    alloc: Global,
    keeper: &mut K,
    hands: &Hands,
    at: u64,
    parents: ParentList,
) -> Result<Option<Kin>, StoreError>
    ensures stays { Stays K.contents K.leaves K.faults keeper.old keeper.new }
    ensures found { IfSome (K.contents keeper.new) (λ c. IfOk result (λ o. IfSome o (AreKinAt c at hands.now))) }
    ensures sound { IfErr result (λ e. IfDamage e (λ _. ⊥)) }
    ensures failed { result ≡ Err StoreError.Failed → Rose (K.faults keeper.old) (K.faults keeper.new) }
{
    match parents {
        ParentList::Zero => Ok(Some(kin_of_none(alloc)?)),
        ParentList::One(place) => one_parent(alloc, keeper, hands, at, place.0),
        ParentList::Two(left, right) => two_parents(alloc, keeper, hands, at, left.0, right.0),
    }
}

// Where the revision with an id stands below a position, if its text says so.
fn place_of<K: Keeper>(
    alloc: Global,
    keeper: &mut K,
    at: u64,
    id: &Id,
) -> Result<Option<u64>, StoreError>
    ensures stays { Stays K.contents K.leaves K.faults keeper.old keeper.new }
    ensures sound { IfErr result (λ e. IfDamage e (λ _. ⊥)) }
    ensures failed { result ≡ Err StoreError.Failed → Rose (K.faults keeper.old) (K.faults keeper.new) }
{
    let mut body = Vec::new(alloc);
    if !get_shown(alloc, keeper, at, TEXTS, &id.0, &mut body)? {
        return Ok(None);
    }
    match body.split_first_chunk::<8>() {
        Some((place, _)) => Ok(Some(u64::from_be_bytes(*place))),
        None => Ok(None),
    }
}

// The parent with this id, wherever it stands below.
fn one_by_id<K: Keeper>(
    alloc: Global,
    keeper: &mut K,
    hands: &Hands,
    at: u64,
    id: &Id,
) -> Result<Option<Kin>, StoreError>
    ensures stays { Stays K.contents K.leaves K.faults keeper.old keeper.new }
    ensures found { IfSome (K.contents keeper.new) (λ c. IfOk result (λ o. IfSome o (AreKinAt c at hands.now))) }
    ensures sound { IfErr result (λ e. IfDamage e (λ _. ⊥)) }
    ensures failed { result ≡ Err StoreError.Failed → Rose (K.faults keeper.old) (K.faults keeper.new) }
{
    match place_of(alloc, keeper, at, id)? {
        Some(place) => one_parent(alloc, keeper, hands, at, place),
        None => Ok(None),
    }
}

// Both parents with these.
fn two_by_ids<K: Keeper>(
    alloc: Global,
    keeper: &mut K,
    hands: &Hands,
    at: u64,
    first: &Id,
    second: &Id,
) -> Result<Option<Kin>, StoreError>
    ensures stays { Stays K.contents K.leaves K.faults keeper.old keeper.new }
    ensures found { IfSome (K.contents keeper.new) (λ c. IfOk result (λ o. IfSome o (AreKinAt c at hands.now))) }
    ensures sound { IfErr result (λ e. IfDamage e (λ _. ⊥)) }
    ensures failed { result ≡ Err StoreError.Failed → Rose (K.faults keeper.old) (K.faults keeper.new) }
{
    let Some(left) = place_of(alloc, keeper, at, first)? else {
        return Ok(None);
    };
    match place_of(alloc, keeper, at, second)? {
        Some(right) => two_parents(alloc, keeper, hands, at, left, right),
        None => Ok(None),
    }
}

// As many as there are ids.
fn kin_by_ids<K: Keeper>(
    alloc: Global,
    keeper: &mut K,
    hands: &Hands,
    at: u64,
    ids: &[Id],
) -> Result<Option<Kin>, StoreError>
    ensures stays { Stays K.contents K.leaves K.faults keeper.old keeper.new }
    ensures found { IfSome (K.contents keeper.new) (λ c. IfOk result (λ o. IfSome o (AreKinAt c at hands.now))) }
    ensures sound { IfErr result (λ e. IfDamage e (λ _. ⊥)) }
    ensures failed { result ≡ Err StoreError.Failed → Rose (K.faults keeper.old) (K.faults keeper.new) }
{
    match ids {
        [] => Ok(Some(kin_of_none(alloc)?)),
        [id] => one_by_id(alloc, keeper, hands, at, id),
        [first, second] => two_by_ids(alloc, keeper, hands, at, first, second),
        _ => Ok(None),
    }
}

// Whether a parent has this id.
fn has_id(parent: &Parent, id: &Id) -> bool
    ensures { IsTrue result → parent.now.id ≡ id.now }
{
    parent.id.0 == id.0
}

// Whether parents have these ids.
fn have_ids(parents: &[Parent], ids: &[Id]) -> bool
    ensures { IsTrue result → ids_of parents.now ≡ ids.now }
{
    match (parents, ids) {
        ([], []) => true,
        ([one], [id]) => has_id(one, id),
        ([left, right], [first, second]) => has_id(left, first) && has_id(right, second),
        _ => false,
    }
}

// The parents, if they have these ids.
fn with_ids(kin: Option<Kin>, ids: &[Id]) -> Option<Kin>
    ensures same { IfSome result (λ k. kin ≡ Some k) }
    ensures named { IfSome result (λ k. ids_of k.parents ≡ ids.now) }
{
    let kin = kin?;
    if have_ids(kin.parents.as_slice(), ids) {
        Some(kin)
    } else {
        None
    }
}

/// The parents of a position that its text names, where no record that is asked for is missing or bad. They are looked for where the
/// record of the log tells them, and else by their texts.
pub fn kin_at<K: Keeper>(
    alloc: Global,
    keeper: &mut K,
    hands: &Hands,
    at: u64,
    records: &Records,
) -> Result<Option<Kin>, StoreError>
    ensures stays { Stays K.contents K.leaves K.faults keeper.old keeper.new }
    ensures found { IfSome (K.contents keeper.new) (λ c. IfOk result (λ o. IfSome o (AreKinAt c at hands.now))) }
    ensures named { IfOk result (λ o. IfSome o (λ k. ids_of k.parents ≡ records.now.mentions.parents)) }
    ensures sound { IfErr result (λ e. IfDamage e (λ _. ⊥)) }
    ensures failed { result ≡ Err StoreError.Failed → Rose (K.faults keeper.old) (K.faults keeper.new) }
{
    let ids = records.mentions.parents.as_slice();
    let kin = told_kin(alloc, keeper, hands, at, records.entry.parents)?;
    if let Some(kin) = with_ids(kin, ids) {
        return Ok(Some(kin));
    }
    let other = kin_by_ids(alloc, keeper, hands, at, ids)?;
    Ok(with_ids(other, ids))
}

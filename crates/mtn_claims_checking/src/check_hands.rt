//! Rosters at hand, and positions that are read with them.
ghost use Rattle.std.specs.Prelude.{◌+◌, ◌≡◌, ◌≤◌, Err, IfErr, IfOk, IfSome, OnOk, length, ℕ};
ghost use Rattle.mtn_check_hands.specs.Hands.{AreRead, Has, NoneFrom};
ghost use Rattle.mtn_check_hands.specs.Reading.{AreWith};
ghost use Rattle.mtn_check_records.specs.declared.hand.Hand.{Hand as Held};
ghost use Rattle.mtn_history.specs.Errors.{IfDamage};
ghost use Rattle.mtn_ports.specs.Causes.{Rose};
ghost use Rattle.mtn_ports.specs.Kept.{Stays};

use mtn_base::NoMemory;
use mtn_check_hands::{Hands, Stretch};
use mtn_check_records::Hand;
use mtn_history::StoreError;
use mtn_ports::Keeper;
use mtn_records::LogRecord;
use std::alloc::Global;

/// As `Hands::new`.
pub fn new_hands(alloc: Global) -> Hands
    ensures { (p : ℕ) (hand : Held) → Has result p hand → ⊥ }
{
    Hands::new(alloc)
}

/// As `Hands::get`.
pub fn get(hands: &Hands, at: u64) -> Option<&Hand>
    ensures { IfSome result (λ hand. Has hands.now at hand.now) }
{
    hands.get(at)
}

/// As `Hands::put`.
pub fn put(hands: &mut Hands, at: u64, hand: Hand, entry: &LogRecord) -> Result<(), NoMemory>
    ensures { OnOk result (AreWith hands.old at hand hands.new) }
{
    hands.put(at, hand, entry)
}

/// As `mtn_check_hands::load_stretch`.
pub fn load_stretch<K: Keeper>(
    alloc: Global,
    keeper: &mut K,
    hands: &mut Hands,
    from: u64,
    count: u64,
    most: u64,
) -> Result<Stretch, StoreError>
    requires none { NoneFrom from hands.old }
    ensures stays { Stays K.contents K.leaves K.faults keeper.old keeper.new }
    ensures long { IfOk result (λ stretch. length stretch.positions.items ≡ length stretch.jobs.items) }
    ensures within { from ≤ count → IfOk result (λ stretch. from + length stretch.jobs.items ≤ count) }
    ensures few { IfOk result (λ stretch. length stretch.jobs.items ≤ most) }
    ensures none { IfOk result (λ stretch. NoneFrom (from + length stretch.jobs.items) hands.new) }
    ensures read { IfSome (K.contents keeper.new) (λ c. IfOk result (λ stretch. AreRead c from hands.old stretch.positions.items stretch.jobs.items hands.new)) }
    ensures sound { IfErr result (λ e. IfDamage e (λ _. ⊥)) }
    ensures failed { result ≡ Err StoreError.Failed → Rose (K.faults keeper.old) (K.faults keeper.new) }
{
    mtn_check_hands::load_stretch(alloc, keeper, hands, from, count, most)
}

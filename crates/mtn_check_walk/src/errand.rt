// What is done beside a walk along the log.
ghost use Rattle.std.specs.Prelude.{◌≡◌, ℕ, Err, IfErr, IfSome};
ghost use Rattle.mtn_history.specs.Errors.{IfDamage};
ghost use Rattle.mtn_model.specs.Table.{Contents};
ghost use Rattle.mtn_ports.specs.Causes.{Rose};
ghost use Rattle.mtn_ports.specs.Kept.{Stays};

use mtn_history::StoreError;
use mtn_ports::Keeper;
use std::alloc::Global;

/// What the thread that reads does behind each stretch, while the one before is judged.
pub trait Errand {
    /// What holds of it over the records, and so many revisions.
    ghost holds: { Self → ℕ → Contents → Type 0 };

    /// A step of it. It tells no damage.
    fn go<K: Keeper>(&mut self, alloc: Global, count: u64, keeper: &mut K) -> Result<(), StoreError>
        requires held { IfSome (K.contents keeper.old) (holds self.old count) }
        ensures stays { Stays K.contents K.leaves K.faults keeper.old keeper.new }
        ensures held { IfSome (K.contents keeper.new) (holds self.new count) }
        ensures sound { IfErr result (λ e. IfDamage e (λ _. ⊥)) }
        ensures failed { result ≡ Err StoreError.Failed → Rose (K.faults keeper.old) (K.faults keeper.new) };
}

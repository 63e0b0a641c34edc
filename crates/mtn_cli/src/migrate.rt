// The migration of an older store, which goes over the keeper itself.
ghost use Rattle.std.specs.Prelude.{◌≡◌, ℕ, List, Some, ⊤, false, true};
ghost use Rattle.mtn_cli.specs.Step.{StepIn};
ghost use Rattle.mtn_cli.specs.Store.{IsFirstLine, IsLine, IsOldStore, ShowsDamage, changes_of};
ghost use Rattle.mtn_frame.specs.Works.{Works};
ghost use Rattle.mtn_old_stores.specs.Stores.{StandsIn};
ghost use Rattle.mtn_step.specs.declared.call.Call.TheVariants.{Migrate};

use crate::damage::{tell, whole};
use mtn_frame::{Reply, WorkError, Worked};
use mtn_migrating::migrate;
use mtn_ports::Keeper;
use std::alloc::Global;

/// Takes a store of the older form to the present one by the key table that is the payload, or says why not. It remembers nothing.
pub fn migrate_store<K: Keeper>(
    alloc: Global,
    payload: &[u8],
    keeper: &mut K,
) -> Result<Worked, WorkError>
    ensures { (f : List ℕ → List ℕ) → Works (StandsIn f) (ShowsDamage f (false ≡ true) (false ≡ true) (true ≡ true)) (IsFirstLine f) IsOldStore IsLine {M = Unit {0}} (λ m c. ⊤) K.contents K.leaves K.faults K.reads keeper.old keeper.new tt
        true false false (StepIn f (Some Migrate) payload.now) (λ s n. ⊥) (changes_of f (Some Migrate) payload.now) result }
{
    match migrate(alloc, keeper, payload) {
        Ok(done) => Ok(Worked {
            reply: Reply {
                conflicts: false,
                text: done.text,
            },
            batch: done.batch,
        }),
        Err(error) => Err(tell(alloc, whole(error))),
    }
}

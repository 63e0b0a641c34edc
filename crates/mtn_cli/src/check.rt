// The check of the whole store, which goes over the keeper itself.
ghost use Rattle.std.specs.Prelude.{◌≡◌, ◌∷◌, ◌++◌, [], IfOk, IfSome, Some, ⊤, false, true, codes, decimal};
ghost use Rattle.mtn_cli.specs.Store.{IsFirstLine, IsFirstShown, IsLine, IsOldStore, ShowsDamage, changes_of};
ghost use Rattle.mtn_frame.specs.Works.{Works};
ghost use Rattle.mtn_cli.specs.Step.{StepIn};
ghost use Rattle.mtn_history.specs.Meta.{HasOldVersion};
ghost use Rattle.mtn_history.specs.Stands.{Stands};
ghost use Rattle.mtn_old_stores.specs.Stores.{StandsIn};
ghost use Rattle.mtn_step.specs.declared.call.Call.TheVariants.{Check};
ghost use Rattle.mtn_model.specs.State.{State};
ghost use Rattle.mtn_ports.specs.Kept.{Stays};

use crate::damage::{tell, whole};
use mtn_base::{Bytes, List, NoMemory};
use mtn_check::check_store;
use mtn_check_laws::standing_has_no_damage;
use mtn_commands::error::CommandError;
use mtn_frame::{Reply, WorkError, Worked};
use mtn_history::HistoryError;
use mtn_ports::{Batch, Ident, Keeper};
use mtn_store_laws::one_state;
use std::alloc::Global;
use std::thread::Threads;

// In how many pieces the positions of a check are judged.
const PIECES: usize = 4;

// The answer of a check that finds no damage.
fn sound(alloc: Global, count: u64) -> Result<Worked, NoMemory>
    ensures { IfOk result (λ worked. (worked.reply ≡ record { conflicts = false; text = codes "ok " ++ decimal count ++ 10 ∷ [] }) × (worked.batch ≡ [])) }
{
    let mut text = Vec::new(alloc);
    let number = count.to_string(alloc)?;
    text.extend_from_slice(b"ok ")?;
    text.extend_from_slice(number.as_bytes())?;
    text.push(b'\n')?;
    Ok(Worked {
        reply: Reply {
            conflicts: false,
            text: List::from_vec(text),
        },
        batch: Batch::new(alloc),
    })
}

/// Checks the store: answers how many revisions it has, or shows its first damage; one of the older form is refused. It remembers
/// nothing.
pub fn check<R: Threads + Sync, I: Ident, K: Keeper>(
    rt: &R,
    alloc: Global,
    ident: &I,
    keeper: &mut K,
) -> Result<Worked, WorkError>
    ensures { Works (StandsIn (I.meaning ident.now)) (ShowsDamage (I.meaning ident.now) (false ≡ true) (true ≡ true) (false ≡ true)) (IsFirstLine (I.meaning ident.now)) IsOldStore IsLine {M = Unit {0}} (λ m c. ⊤) K.contents K.leaves K.faults K.reads keeper.old keeper.new tt
        true false true (StepIn (I.meaning ident.now) (Some Check) []) (λ s n. ⊥) (changes_of (I.meaning ident.now) (Some Check) []) result }
{
    one_state();
    standing_has_no_damage();
    match check_store(rt, alloc, ident, PIECES, keeper) {
        Ok(count) => Ok(sound(alloc, count)?),
        Err(error) => Err(tell(alloc, whole(error))),
    }
}

/// The first damage of a store of which a command met that its records stand for no state; what the command met is shown where the
/// keeper tells nothing and a check finds no damage.
pub fn first_shown<R: Threads + Sync, I: Ident, K: Keeper>(
    rt: &R,
    alloc: Global,
    ident: &I,
    line: Bytes,
    keeper: &mut K,
) -> WorkError
    requires line { IsLine line }
    requires none { IfSome (K.contents keeper.old) (λ c. ((s : State) → Stands (I.meaning ident.now) c s → ⊥) × ¬ HasOldVersion c) }
    ensures stays { Stays K.contents K.leaves K.faults keeper.old keeper.new }
    ensures shown { IsFirstShown (I.meaning ident.now) (K.contents keeper.new) (K.faults keeper.old) (K.faults keeper.new) result }
{
    match check_store(rt, alloc, ident, PIECES, keeper) {
        Ok(_) => WorkError::Damaged { line },
        Err(HistoryError::Store(error)) => tell(alloc, CommandError::Store(error)),
        // (over a keeper that tells nothing)
        Err(HistoryError::Refused(_)) => WorkError::Damaged { line },
    }
}

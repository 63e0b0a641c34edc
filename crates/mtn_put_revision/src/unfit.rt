// The record from which no history goes on.
ghost use Rattle.std.specs.Prelude.{◌≡◌, ◌<◌, None, IfSome};
ghost use Rattle.mtn_ports.specs.Causes.{Rose};
ghost use Rattle.mtn_ports.specs.Kept.{Stays, with_all};
ghost use Rattle.mtn_history.specs.Errors.{IfDamage};
ghost use Rattle.mtn_put_revision.specs.Finding.{IsFound, IsUnfounded};

use mtn_ancestry::Pos;
use mtn_history::{Draft, StoreError};
use mtn_ports::Keeper;

// The last record of the log, which has one.
fn last_held<K: Keeper>(draft: &mut Draft<'_, K>) -> StoreError
    requires { 0 < draft.old.pending.count }
    ensures same_reference { draft.new.keeper.ghost_name ≡ draft.old.keeper.ghost_name }
    ensures stays { Stays K.contents K.leaves K.faults draft.old.keeper.now draft.new.keeper.now }
    ensures pending { draft.new.pending ≡ draft.old.pending }
    ensures damaged { IsUnfounded (K.contents draft.old.keeper.now) draft.old.pending → IfSome (K.contents draft.new.keeper.now) (λ c. IfDamage result
        (IsFound (K.contents draft.new.keeper.now) draft.old.pending (with_all c draft.old.pending.batch))) }
    ensures failed { result ≡ StoreError.Failed → Rose (K.faults draft.old.keeper.now) (K.faults draft.new.keeper.now) }
{
    let at = Pos(draft.count() - 1);
    match draft.logged(at) {
        Ok(_) => draft.log_held(at),
        Err(error) => error,
    }
}

/// The roster's record at a position, of a store that stands for no state, as the caller found.
pub fn roster_held<K: Keeper>(draft: &mut Draft<'_, K>, at: Pos) -> StoreError
    requires below { at < draft.old.pending.count }
    ensures same_reference { draft.new.keeper.ghost_name ≡ draft.old.keeper.ghost_name }
    ensures stays { Stays K.contents K.leaves K.faults draft.old.keeper.now draft.new.keeper.now }
    ensures pending { draft.new.pending ≡ draft.old.pending }
    ensures damaged { IsUnfounded (K.contents draft.old.keeper.now) draft.old.pending → IfSome (K.contents draft.new.keeper.now) (λ c. IfDamage result
        (IsFound (K.contents draft.new.keeper.now) draft.old.pending (with_all c draft.old.pending.batch))) }
    ensures failed { result ≡ StoreError.Failed → Rose (K.faults draft.old.keeper.now) (K.faults draft.new.keeper.now) }
{
    match draft.roster_at(at) {
        Ok(_) => draft.roster_held(at),
        Err(error) => error,
    }
}

/// The roster's record of a new revision's first parent, or without one the last record of the log: those of a store that
/// stands for no state, as the caller found.
pub fn unfit<K: Keeper>(draft: &mut Draft<'_, K>, parent: Option<Pos>) -> StoreError
    requires below { IfSome parent (λ at. at < draft.old.pending.count) }
    requires logged { parent ≡ None → 0 < draft.old.pending.count }
    ensures same_reference { draft.new.keeper.ghost_name ≡ draft.old.keeper.ghost_name }
    ensures stays { Stays K.contents K.leaves K.faults draft.old.keeper.now draft.new.keeper.now }
    ensures pending { draft.new.pending ≡ draft.old.pending }
    ensures damaged { IsUnfounded (K.contents draft.old.keeper.now) draft.old.pending → IfSome (K.contents draft.new.keeper.now) (λ c. IfDamage result
        (IsFound (K.contents draft.new.keeper.now) draft.old.pending (with_all c draft.old.pending.batch))) }
    ensures failed { result ≡ StoreError.Failed → Rose (K.faults draft.old.keeper.now) (K.faults draft.new.keeper.now) }
{
    match parent {
        Some(at) => roster_held(draft, at),
        None => last_held(draft),
    }
}

// The records of a table whose keys begin with a front and go on.
ghost use Rattle.std.specs.Prelude.{◌≡◌, Err, IfErr, IfOk, IfSome};
ghost use Rattle.mtn_ports.specs.Causes.{Rose};
ghost use Rattle.mtn_ports.specs.Kept.{IsAbove, with_all};
ghost use Rattle.mtn_history.specs.Asking.{OnlyAsks};
ghost use Rattle.mtn_history.specs.Errors.{IfDamage};
ghost use Rattle.mtn_put_certs.specs.Walking.{IsFollowing, IsFrom};

use mtn_base::{Bytes, List};
use mtn_history::{Draft, StoreError};
use mtn_ports::Keeper;

/// The key and the body of the first of these records above a key, which is not below the front. It asks for one record.
pub fn following<K: Keeper>(
    draft: &mut Draft<'_, K>,
    table: u8,
    front: &[u8],
    last: &[u8],
) -> Result<Option<(Bytes, Bytes)>, StoreError>
    requires { IsFrom front.now last.now }
    ensures asks { OnlyAsks K.contents K.leaves K.faults K.reads 1 draft.old draft.new }

    ensures found { IfSome (K.contents draft.new.keeper.now) (λ c. IfOk result (IsFollowing (with_all c draft.old.pending.batch) table front.now last.now)) }
    ensures above { IfOk result (λ found. IfSome found (λ r. IsAbove last.now r.0)) }
    ensures failed { result ≡ Err StoreError.Failed → Rose (K.faults draft.old.keeper.now) (K.faults draft.new.keeper.now) }
    ensures sound { IfErr result (λ e. IfDamage e (λ _. ⊥)) }
{
    let mut key = Vec::new(draft.alloc());
    let mut body = Vec::new(draft.alloc());
    if !draft.next_record(table, last, &mut key, &mut body)? {
        return Ok(None);
    }
    if !key.starts_with(front) {
        return Ok(None);
    }
    Ok(Some((List::from_vec(key), List::from_vec(body))))
}

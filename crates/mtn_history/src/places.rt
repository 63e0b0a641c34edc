// Where revisions stand.
ghost use Rattle.std.specs.Prelude.{◌≡◌, ◌<◌, List, ℕ, Err, drop, IfOk, IfErr, IfSome};
ghost use Rattle.mtn_model.specs.State.{State};
ghost use Rattle.mtn_ports.specs.Causes.{Rose};
ghost use Rattle.mtn_ports.specs.Kept.{with_all};
ghost use Rattle.mtn_history.specs.Asking.{OnlyAsks};
ghost use Rattle.mtn_history.specs.Errors.{IfDamage};
ghost use Rattle.mtn_history.specs.Places.{IsFoundAt, IsPlaced, UnplacedBelow};
ghost use Rattle.mtn_history.specs.Stands.{IsFounded};

use crate::damaged::bad;
use crate::{Draft, StoreError, TEXTS};
use mtn_ancestry::Pos;
use mtn_base::Id;
use mtn_ports::Keeper;
use mtn_records::{Field, RecordError};

impl<'a, K: Keeper> Draft<'a, K> {
    /// Where a revision stands; None where the log has no such id. Where there is one `body` is replaced by its record: eight
    /// bytes of the position, and its text. Over records that stand for a state both are those of the log.
    pub fn placed(&mut self, id: Id, body: &mut Vec<u8>) -> Result<Option<Pos>, StoreError>
        ensures asks { OnlyAsks K.contents K.leaves K.faults K.reads 1 self.old self.new }

        ensures found { (f : List ℕ → List ℕ) (s : State) (d : IsFounded f (K.contents self.new.keeper.now) self.old.pending s) → IfOk result (λ at. IsFoundAt s d.stands.history id at (drop 8 body.new.items)) }
        ensures read { IfSome (K.contents self.new.keeper.now) (λ c. IfOk result (λ at. IsPlaced (with_all c self.old.pending.batch) self.old.pending.count id at (drop 8 body.new.items))) }
        ensures below { IfOk result (λ at. IfSome at (λ p. p < self.old.pending.count)) }
        ensures damaged { IfSome (K.contents self.new.keeper.now) (λ c. IfErr result (λ e. IfDamage e (UnplacedBelow self.old.pending.count (with_all c self.old.pending.batch)))) }
        ensures failed { result ≡ Err StoreError.Failed → Rose (K.faults self.old.keeper.now) (K.faults self.new.keeper.now) }
    {
        self.read_placed(id, body)
    }

    // The same, as the record tells it.
    fn read_placed(&mut self, id: Id, body: &mut Vec<u8>) -> Result<Option<Pos>, StoreError>
        ensures asks { OnlyAsks K.contents K.leaves K.faults K.reads 1 self.old self.new }

        ensures read { IfSome (K.contents self.new.keeper.now) (λ c. IfOk result (λ at. IsPlaced (with_all c self.old.pending.batch) self.old.pending.count id at (drop 8 body.new.items))) }
        ensures below { IfOk result (λ at. IfSome at (λ p. p < self.old.pending.count)) }
        ensures damaged { IfSome (K.contents self.new.keeper.now) (λ c. IfErr result (λ e. IfDamage e (UnplacedBelow self.old.pending.count (with_all c self.old.pending.batch)))) }
        ensures failed { result ≡ Err StoreError.Failed → Rose (K.faults self.old.keeper.now) (K.faults self.new.keeper.now) }
    {
        let count = self.count();
        let key = id.0.as_slice();
        if !self.get(TEXTS, key, body)? {
            return Ok(None);
        }
        let at = match Pos::read(self.alloc(), body) {
            Ok((at, _)) => at,
            Err(RecordError::Bad) => return Err(bad(self.alloc(), TEXTS, key, body)),
            Err(RecordError::NoMemory) => return Err(StoreError::NoMemory),
        };
        if at.0 >= count {
            return Err(bad(self.alloc(), TEXTS, key, body));
        }
        Ok(Some(at))
    }
}

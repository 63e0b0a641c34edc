// Texts of revisions, found.
ghost use Rattle.std.specs.Prelude.{◌≡◌, List, ℕ, Some, Err, IfErr, IfSome};
ghost use Rattle.mtn_model.specs.Table.{Contents};
ghost use Rattle.mtn_model.specs.State.{State};
ghost use Rattle.mtn_ports.specs.Causes.{Rose};
ghost use Rattle.mtn_ports.specs.Kept.{with_all};
ghost use Rattle.mtn_history.specs.Asking.{OnlyAsks};
ghost use Rattle.mtn_history.specs.Errors.{IfStoreDamage};
ghost use Rattle.mtn_history.specs.Stands.{IsDraft};
ghost use Rattle.mtn_history.specs.Texts.{FindsText, TextDamage};

use crate::damaged::bad;
use crate::{Draft, HistoryError, StoreError, TEXTS};
use mtn_base::{Cause, Id};
use mtn_ports::Keeper;

/// The bytes of the position that stands before each text of table 3.
pub const POSITION: usize = 8;

impl<'a, K: Keeper> Draft<'a, K> {
    /// Replaces `out` by the text of a revision; UnknownRevision where the log has no such id. After an error `out` may
    /// hold anything. What is pending stays.
    pub fn text_of(&mut self, id: Id, out: &mut Vec<u8>) -> Result<(), HistoryError>
        ensures asks { OnlyAsks K.contents K.leaves K.faults K.reads 1 self.old self.new }

        ensures finds { (f : List ℕ → List ℕ) (c : Contents) (s : State) → K.contents self.new.keeper.now ≡ Some c → IsDraft f c self.old.pending s
            → FindsText s id result out.new.items }
        ensures damaged { IfSome (K.contents self.new.keeper.now) (λ c. IfErr result (λ e. IfStoreDamage e (TextDamage (with_all c self.old.pending.batch)))) }
        ensures failed { result ≡ Err (HistoryError.Store StoreError.Failed) → Rose (K.faults self.old.keeper.now) (K.faults self.new.keeper.now) }
    {
        let key = id.0.as_slice();
        if !self.get(TEXTS, key, out)? {
            return Err(HistoryError::Refused(Cause::UnknownRevision { id }));
        }
        let len = out.len();
        if len < POSITION {
            return Err(HistoryError::Store(bad(self.alloc(), TEXTS, key, out)));
        }
        out.copy_within(POSITION.., 0);
        out.truncate(len - POSITION);
        Ok(())
    }
}

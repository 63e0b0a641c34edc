// Files, kept and found.
ghost use Rattle.std.specs.Prelude.{◌≡◌, ◌≤◌, ◌+◌, List, ℕ, Some, Err, IfOk, IfErr, IfSome, IsTrue, OnErr};
ghost use Rattle.mtn_model.specs.Table.{Contents};
ghost use Rattle.mtn_model.specs.State.{State};
ghost use Rattle.mtn_ports.specs.Causes.{Rose};
ghost use Rattle.mtn_ports.specs.Kept.{Stays, with_all};
ghost use Rattle.mtn_history.specs.Asking.{OnlyAsks};
ghost use Rattle.mtn_history.specs.Errors.{IfDamage, IfStoreDamage};
ghost use Rattle.mtn_history.specs.Files.{AcceptsFile, FindsFile, IsFileHeld, KeepsFile};
ghost use Rattle.mtn_ports.specs.Ident.{MakesIds};
ghost use Rattle.mtn_history.specs.Stands.{IsDraft, IsFounded};

use crate::{Draft, FILES, HistoryError, StoreError};
use mtn_base::{Bytes, Cause, Id, MAX_TEXT};
use mtn_ports::{Ident, Keeper};

impl<'a, K: Keeper> Draft<'a, K> {
    /// Keeps a file under its id, which it answers. The bytes are handed over, and not copied. A file that is held with the
    /// same bytes is kept already. It is refused as TextTooLong above 64 MiB, and as Collision where other bytes are held
    /// under the id. Any error leaves what is pending as it was.
    pub fn put_file<I: Ident>(&mut self, ident: &I, bytes: Bytes) -> Result<Id, HistoryError>
        ensures same_reference { self.new.keeper.ghost_name ≡ self.old.keeper.ghost_name }
        ensures stays { Stays K.contents K.leaves K.faults self.old.keeper.now self.new.keeper.now }
        ensures accepts { (c : Contents) (s : State) → K.contents self.new.keeper.now ≡ Some c → IsDraft (I.meaning ident.now) c self.old.pending s
            → AcceptsFile (I.meaning ident.now) c s bytes result self.new.pending }
        ensures err { OnErr result (self.new.pending ≡ self.old.pending) }
        ensures sound { IfErr result (λ e. IfStoreDamage e (λ _. ⊥)) }
        ensures failed { result ≡ Err (HistoryError.Store StoreError.Failed) → Rose (K.faults self.old.keeper.now) (K.faults self.new.keeper.now) }
        ensures reads { K.reads self.new.keeper.now ≤ K.reads self.old.keeper.now + 1 }
    {
        let text = bytes.as_slice();
        if text.len() > MAX_TEXT {
            return Err(HistoryError::Refused(Cause::TextTooLong {
                length: text.len() as u64,
            }));
        }
        let id = ident.id(text);
        self.put_file_as(id, bytes)?;
        Ok(id)
    }

    /// Keeps a file as [`Draft::put_file`] does, under an id that the caller has and that is not computed again. That it is the
    /// id of these bytes is trusted by the clause alone.
    pub fn put_file_as(&mut self, id: Id, bytes: Bytes) -> Result<(), HistoryError>
        ensures same_reference { self.new.keeper.ghost_name ≡ self.old.keeper.ghost_name }
        ensures stays { Stays K.contents K.leaves K.faults self.old.keeper.now self.new.keeper.now }
        ensures accepts { (f : List ℕ → List ℕ) (c : Contents) (s : State) → K.contents self.new.keeper.now ≡ Some c → IsDraft f c self.old.pending s
            → id.0 ≡ f bytes → KeepsFile f c s bytes result self.new.pending }
        ensures err { OnErr result (self.new.pending ≡ self.old.pending) }
        ensures sound { IfErr result (λ e. IfStoreDamage e (λ _. ⊥)) }
        ensures failed { result ≡ Err (HistoryError.Store StoreError.Failed) → Rose (K.faults self.old.keeper.now) (K.faults self.new.keeper.now) }
        ensures reads { K.reads self.new.keeper.now ≤ K.reads self.old.keeper.now + 1 }
    {
        let text = bytes.as_slice();
        if text.len() > MAX_TEXT {
            return Err(HistoryError::Refused(Cause::TextTooLong {
                length: text.len() as u64,
            }));
        }
        let key = id.0.as_slice();
        let mut held = Vec::new(self.alloc());
        if !self.get(FILES, key, &mut held)? {
            self.keep_owned(FILES, key, bytes)?;
            return Ok(());
        }
        if held.as_slice() != bytes.as_slice() {
            return Err(HistoryError::Refused(Cause::Collision { id }));
        }
        Ok(())
    }

    /// Whether a file is held under an id. Its bytes are not read: where it is held it asks for one record, and else for
    /// two, over records that stand for a state.
    pub fn has_file(&mut self, id: Id) -> Result<bool, StoreError>
        ensures asks { OnlyAsks K.contents K.leaves K.faults K.reads 2 self.old self.new }

        ensures found { IfSome (K.contents self.new.keeper.now) (λ c. IfOk result (IsFileHeld (with_all c self.old.pending.batch) id)) }
        ensures few { (f : List ℕ → List ℕ) (s : State) → IsFounded f (K.contents self.new.keeper.now) self.old.pending s → MakesIds f
            → IfOk result (λ held. IsTrue held → K.reads self.new.keeper.now ≤ K.reads self.old.keeper.now + 1) }
        ensures failed { result ≡ Err StoreError.Failed → Rose (K.faults self.old.keeper.now) (K.faults self.new.keeper.now) }
        ensures sound { IfErr result (λ e. IfDamage e (λ _. ⊥)) }
    {
        if self.is_pending(FILES, id.0.as_slice()) {
            return Ok(true);
        }
        if self.follows(FILES, &id.0)? {
            return Ok(true);
        }
        let mut body = Vec::new(self.alloc());
        self.get(FILES, id.0.as_slice(), &mut body)
    }

    /// Replaces `out` by the bytes of a file; UnknownFile where none is held under the id. After an
    /// error `out` may hold anything. What is pending stays.
    pub fn file(&mut self, id: Id, out: &mut Vec<u8>) -> Result<(), HistoryError>
        ensures asks { OnlyAsks K.contents K.leaves K.faults K.reads 1 self.old self.new }

        ensures finds { (f : List ℕ → List ℕ) (c : Contents) (s : State) → K.contents self.new.keeper.now ≡ Some c → IsDraft f c self.old.pending s
            → FindsFile s id result out.new.items }
        ensures sound { IfErr result (λ e. IfStoreDamage e (λ _. ⊥)) }
        ensures failed { result ≡ Err (HistoryError.Store StoreError.Failed) → Rose (K.faults self.old.keeper.now) (K.faults self.new.keeper.now) }
    {
        if self.get(FILES, id.0.as_slice(), out)? {
            Ok(())
        } else {
            Err(HistoryError::Refused(Cause::UnknownFile { id }))
        }
    }
}

//! Key tables and older stores that are read.
ghost use Rattle.std.specs.FinMap.{len};
ghost use Rattle.std.specs.List.{AllByRecursion};
ghost use Rattle.std.specs.Prelude.{◌≡◌, ◌⊎◌, ◌↔◌, ◌∷◌, List, ℕ, true, false, Some, Err, Contains, IfErr, IfOk, IfSome, length, map};
ghost use Rattle.mtn_basic_io.specs.Spelling.{AreStanzas};
ghost use Rattle.mtn_history.specs.Errors.{IfDamage};
ghost use Rattle.mtn_history.specs.Stands.{Stands};
ghost use Rattle.mtn_certs.specs.KeyTables.{IsKeyTable, IsKeysFault, IsKeysText, header, stanza_of};
ghost use Rattle.mtn_model.specs.State.{State};
ghost use Rattle.mtn_model.specs.Table.{Contents};
ghost use Rattle.mtn_old_stores.specs.Older.{HoldsOld, IsLawfulOldCertificate, OldCertificate, OldState, StandsOld};
ghost use Rattle.mtn_old_stores.specs.Reading.{AreAllOld, FormDamage, IsOlder, OldCertDamage};
ghost use Rattle.mtn_ports.specs.Causes.{Rose};
ghost use Rattle.mtn_ports.specs.Kept.{Stays};

use mtn_certs::{KeyName, KeyTextError};
use mtn_history::StoreError;
use mtn_old_stores::OldCert;
use mtn_ports::Keeper;
use std::alloc::Global;

/// As `read_keys`.
pub fn read_keys(alloc: Global, text: &[u8]) -> Result<Vec<KeyName>, KeyTextError>
    ensures ok { IfOk result (λ keys. IsKeysText text.now keys.items) }
    // Its ids are twenty bytes, so no other value has this text.
    ensures stanzas { IfOk result (λ keys. AreStanzas (header ∷ map stanza_of keys.items)) }
    ensures table { IfOk result (λ keys. IsKeyTable keys.items) }
    ensures err { IfErr result (λ e. IsKeysFault text.now e) }
{
    mtn_certs::read_keys(alloc, text)
}

/// As `is_older`.
pub fn is_older<K: Keeper>(alloc: Global, keeper: &mut K) -> Result<bool, StoreError>
    ensures stays { Stays K.contents K.leaves K.faults keeper.old keeper.new }
    ensures form { IfSome (K.contents keeper.new) (λ c. IfOk result (IsOlder c)) }
    ensures older { (f : List ℕ → List ℕ) (c : Contents) (s : OldState) → K.contents keeper.new ≡ Some c → StandsOld f c s → IfOk result (λ is. is ≡ true) }
    ensures present { (f : List ℕ → List ℕ) (c : Contents) (s : State) → K.contents keeper.new ≡ Some c → Stands f c s → IfOk result (λ is. is ≡ false) }
    ensures sound { (f : List ℕ → List ℕ) (c : Contents) (s : OldState) (t : State) → K.contents keeper.new ≡ Some c → StandsOld f c s ⊎ Stands f c t
        → IfErr result (λ e. IfDamage e (λ _. ⊥)) }
    ensures failed { result ≡ Err StoreError.Failed → Rose (K.faults keeper.old) (K.faults keeper.new) }
    ensures damaged { IfSome (K.contents keeper.new) (λ c. IfErr result (λ e. IfDamage e (FormDamage c))) }
{
    mtn_old_stores::is_older(alloc, keeper)
}

/// As `old_certs`.
pub fn old_certs<K: Keeper>(alloc: Global, keeper: &mut K) -> Result<Vec<OldCert>, StoreError>
    ensures stays { Stays K.contents K.leaves K.faults keeper.old keeper.new }
    ensures read { IfSome (K.contents keeper.new) (λ c. IfOk result (λ certs. AreAllOld c certs.items)) }
    ensures found { (f : List ℕ → List ℕ) (c : Contents) (s : OldState) → K.contents keeper.new ≡ Some c → StandsOld f c s
        → IfOk result (λ certs. (x : OldCertificate) → Contains certs.items x ↔ HoldsOld s.certs x) }
    ensures count { (f : List ℕ → List ℕ) (c : Contents) (s : OldState) → K.contents keeper.new ≡ Some c → StandsOld f c s → IfOk result (λ certs. length certs.items ≡ len s.certs) }
    ensures lawful { IfOk result (λ certs. AllByRecursion IsLawfulOldCertificate certs.items) }
    ensures sound { (f : List ℕ → List ℕ) (c : Contents) (s : OldState) → K.contents keeper.new ≡ Some c → StandsOld f c s → IfErr result (λ e. IfDamage e (λ _. ⊥)) }
    ensures damaged { IfSome (K.contents keeper.new) (λ c. IfErr result (λ e. IfDamage e (OldCertDamage c))) }
    ensures failed { result ≡ Err StoreError.Failed → Rose (K.faults keeper.old) (K.faults keeper.new) }
{
    mtn_old_stores::old_certs(alloc, keeper)
}

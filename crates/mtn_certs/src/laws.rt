// What holds of all certificates.
ghost use Rattle.std.specs.Prelude.{◌≡◌, ◌↔◌, ℕ, List, None, Some, Contains};
ghost use Rattle.std.specs.List.Sorted.{IsStrictlySortedBy};
ghost use Rattle.mtn_base.specs.declared.id.Id.{Id as Named};
ghost use Rattle.mtn_certs.specs.Certificates.{Certificate, IsLawfulCertificate, fault_of};
ghost use Rattle.mtn_certs.specs.Listing.{name_in};
ghost use Rattle.mtn_certs.specs.Order.{cert_cmp, in_order};
ghost use Rattle.mtn_certs.specs.declared.cert.KeyName.{KeyName};

/// A certificate is lawful exactly where it breaks no rule.
pub fn lawful()
    ensures { (c : Certificate) → (fault_of c ≡ None) ↔ IsLawfulCertificate c }
{}

/// The certificates in order are those of the list, ascending, each once; and two lists that hold the same certificates have
/// them in one order.
pub fn one_order()
    ensures ascending { (certs : List Certificate) → IsStrictlySortedBy cert_cmp (in_order certs) }
    ensures same { (certs : List Certificate) (c : Certificate) → Contains (in_order certs) c ↔ Contains certs c }
    ensures one { (a b : List Certificate) → ((c : Certificate) → Contains a c ↔ Contains b c) → in_order a ≡ in_order b }
{}

/// Where no key has two names, the name of a key is the one that stands beside its id.
pub fn key_names()
    ensures { (keys : List KeyName) → ((a b : KeyName) → Contains keys a → Contains keys b → a.id ≡ b.id → a ≡ b) →
        (k : Named) (name : List ℕ) → (name_in keys k ≡ Some name) ↔ Contains keys (record { id = k; name = name }) }
{}

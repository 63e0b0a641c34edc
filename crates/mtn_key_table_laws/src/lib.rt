//! Laws of key tables, over the definitions of `mtn_certs` alone. Nothing here runs.
//!
//! The crates above rely on this: each payload is exactly one key table, or has exactly one first fault, so that a command
//! that takes a key table has exactly one outcome.
#![tactic(auto)]

ghost use Rattle.std.specs.Prelude.{◌≡◌, ℕ, List, Result};
ghost use Rattle.mtn_base.specs.declared.refusal.Cause.{Cause};
ghost use Rattle.mtn_certs.specs.declared.cert.KeyName.{KeyName};
ghost use Rattle.mtn_certs.specs.GivenTables.{IsTableOf};

/// A payload comes to no more than one thing.
pub fn one_table()
    ensures { (payload : List ℕ) (a b : Result (List KeyName) Cause) → IsTableOf payload a → IsTableOf payload b → a ≡ b }
{}

/// A payload is a key table, or has a fault.
pub fn some_table()
    ensures { (payload : List ℕ) → (given : Result (List KeyName) Cause) × IsTableOf payload given }
{}

// What holds of all branches.
ghost use Rattle.std.specs.Prelude.{◌≡◌, ◌↔◌, ℕ, List, Contains};
ghost use Rattle.mtn_ancestry.specs.Log.{IsLog};
ghost use Rattle.mtn_ancestry.specs.declared.pos.LogEntry.{LogEntry};
ghost use Rattle.mtn_base.specs.Ids.{by_id};
ghost use Rattle.mtn_base.specs.Names.{bytes_cmp};
ghost use Rattle.mtn_base.specs.declared.id.Id.{Id};
ghost use Rattle.mtn_base.specs.Lists.{IsListOf};
ghost use Rattle.mtn_branches.specs.Branches.{IsBranch, IsHead, IsMember};
ghost use Rattle.mtn_branches.specs.Graphs.{IsAbove, IsHeldBy, IsProperlyAbove};
ghost use Rattle.mtn_certs.specs.Certificates.{Certificate};

/// A member is a head or an ancestor of one, so a branch that has a member has a head.
pub fn some_head()
    ensures { (log : List LogEntry) (certs : List Certificate) (branch : List ℕ) → IsLog log →
        ((r : Id) → IsMember (Contains certs) branch r → IsHeldBy log r) →
        (r : Id) → IsMember (Contains certs) branch r →
        (m : Id) × IsHead (IsProperlyAbove log) (IsMember (Contains certs) branch) m × IsAbove log r m }
{}

/// No head is a proper ancestor of another.
pub fn apart()
    ensures { (log : List LogEntry) (certs : List Certificate) (branch : List ℕ) (a b : Id) →
        IsHead (IsProperlyAbove log) (IsMember (Contains certs) branch) a →
        IsHead (IsProperlyAbove log) (IsMember (Contains certs) branch) b → ¬ IsProperlyAbove log a b }
{}

/// A branch is one exactly where it has a member.
pub fn has_member()
    ensures { (certs : List Certificate) (branch : List ℕ) →
        IsBranch (Contains certs) branch ↔ ((r : Id) × IsMember (Contains certs) branch r) }
{}

/// There is one list of the members of a branch, one of its heads, and one of the branches.
pub fn one_answer()
    ensures members { (certs : List Certificate) (branch : List ℕ) (a b : List Id) →
        IsListOf by_id (IsMember (Contains certs) branch) a → IsListOf by_id (IsMember (Contains certs) branch) b → a ≡ b }
    ensures heads { (log : List LogEntry) (certs : List Certificate) (branch : List ℕ) (a b : List Id) →
        IsListOf by_id (IsHead (IsProperlyAbove log) (IsMember (Contains certs) branch)) a →
        IsListOf by_id (IsHead (IsProperlyAbove log) (IsMember (Contains certs) branch)) b → a ≡ b }
    ensures branches { (certs : List Certificate) (a b : List (List ℕ)) →
        IsListOf bytes_cmp (IsBranch (Contains certs)) a → IsListOf bytes_cmp (IsBranch (Contains certs)) b → a ≡ b }
{}

/// Two lists that hold the same certificates name the same members and heads.
pub fn one_set()
    ensures members { (a b : List Certificate) (branch : List ℕ) → ((c : Certificate) → Contains a c ↔ Contains b c) →
        (r : Id) → IsMember (Contains a) branch r ↔ IsMember (Contains b) branch r }
    ensures heads { (log : List LogEntry) (a b : List Certificate) (branch : List ℕ) → ((c : Certificate) → Contains a c ↔ Contains b c) →
        (r : Id) → IsHead (IsProperlyAbove log) (IsMember (Contains a) branch) r ↔ IsHead (IsProperlyAbove log) (IsMember (Contains b) branch) r }
{}

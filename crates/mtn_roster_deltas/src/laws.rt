//! Laws of chains and of what entries spell, over the definitions alone.
ghost use Rattle.std.specs.Prelude.{◌≡◌, ℕ, ◌+◌, ◌<◌, ◌≤◌, List, ◌++◌, ◌∷◌, [], length, Some, Contains, IsSome, IsTrue};
ghost use Rattle.mtn_base.specs.declared.name.NodeName.{NodeName};
ghost use Rattle.mtn_records.specs.declared.record.RosterRecord.{RosterRecord};
ghost use Rattle.mtn_marking.specs.Marking.{MarkedTree};
ghost use Rattle.mtn_roster_deltas.specs.Chain.{Entries, ascend, deepest, rebuilt};
ghost use Rattle.mtn_roster_deltas.specs.Difference.{IsDifference};
ghost use Rattle.mtn_roster_deltas.specs.Laws.{Gives};
ghost use Rattle.mtn_roster_deltas.specs.Spelled.{Spells};
ghost use Rattle.mtn_records.specs.Bounds.{IsRosterAt};
ghost use Rattle.mtn_roster_deltas.specs.Numbering.{all_of, fresh, number_among, AreKnown, IsNumbering};
ghost use Rattle.mtn_records.specs.declared.entry.NumberedEntry.{NumberedEntry};
ghost use Rattle.mtn_roster.specs.Tree.{entry_of};

/// Entries spell one marked tree.
pub fn entries_spell_one()
    ensures { (es : Entries) (t u : MarkedTree) → Spells es t → Spells es u → t ≡ u }
{}

/// Entries that spell a marked tree give themselves as a whole record.
pub fn whole_rebuilds()
    ensures { (es : Entries) (t : MarkedTree) → Spells es t → rebuilt (RosterRecord.Whole es ∷ []) ≡ Some es }
{}

/// A chain with the difference to new entries behind it gives these.
pub fn delta_rebuilds()
    ensures { (chain : List RosterRecord) (base new changed : Entries) (gone : List ℕ) (base_at : ℕ) →
        length chain ≤ deepest → rebuilt chain ≡ Some base → IsTrue (ascend new) → IsDifference base new gone changed →
        rebuilt (chain ++ RosterRecord.Delta base_at (length chain) gone changed ∷ []) ≡ Some new }
{}

/// What was written of numbered entries, whole or as a delta on a base, is read as one record under its key, and the chain
/// with that record gives the entries and exactly the marked tree that was numbered.
pub fn written_again()
    ensures whole { (at : ℕ) (body : List ℕ) (known : List Entries) (next : ℕ) (t : MarkedTree) (es : Entries) (r : RosterRecord) → IsNumbering known next t es →
        IsRosterAt at body (RosterRecord.Whole es) → IsRosterAt at body r → Gives (r ∷ []) es t }
    ensures delta { (at : ℕ) (body : List ℕ) (known : List Entries) (next : ℕ) (t : MarkedTree) (es : Entries) (r : RosterRecord) (chain : List RosterRecord) (base changed : Entries)
        (gone : List ℕ) (base_at : ℕ) → IsNumbering known next t es → length chain ≤ deepest → rebuilt chain ≡ Some base → IsDifference base es gone changed →
        IsRosterAt at body (RosterRecord.Delta base_at (length chain) gone changed) → IsRosterAt at body r → Gives (chain ++ r ∷ []) es t }
{}

/// Without lists no numbers are known, and the next is 1.
pub fn known_none()
    ensures { AreKnown [] 1 }
{}

/// Known numbers with those of one more tree are known, below a next that is greater by its fresh nodes.
pub fn known_grows()
    ensures { (known : List Entries) (next : ℕ) (t : MarkedTree) (new : Entries) → AreKnown known next → IsNumbering known next t new →
        AreKnown (known ++ new ∷ []) (next + length (fresh known t.tree)) }
{}

/// Each entry's number is the known one of its node.
pub fn known_is()
    ensures { (known : List Entries) (next : ℕ) (es : Entries) (e : NumberedEntry) (n : NodeName) → AreKnown known next → Contains known es → Contains es e →
        e.node ≡ n → number_among (all_of known) n ≡ Some e.number }
{}

/// The nodes of a marked tree are those of the entries that spell it, so that each has a number among lists with these.
pub fn spelled_nodes()
    ensures of_entries { (es : Entries) (t : MarkedTree) (e : NumberedEntry) → Spells es t → Contains es e → IsSome (entry_of t.tree e.node) }
    ensures of_tree { (es : Entries) (t : MarkedTree) (n : NodeName) → Spells es t → IsSome (entry_of t.tree n) → (e : NumberedEntry) × Contains es e × (e.node ≡ n) }
    ensures known { (known : List Entries) (es : Entries) (t : MarkedTree) (n : NodeName) → Spells es t → Contains known es → IsSome (entry_of t.tree n) →
        IsSome (number_among (all_of known) n) }
{}

/// Lists with the same numbers for the nodes of a tree number it alike.
pub fn numbering_over_more()
    ensures numbers { (known all : List Entries) (next : ℕ) (t : MarkedTree) (new : Entries) →
        ((n : NodeName) → IsSome (entry_of t.tree n) → number_among (all_of known) n ≡ number_among (all_of all) n) →
        IsNumbering known next t new → IsNumbering all next t new }
    ensures fresh { (known all : List Entries) (t : MarkedTree) →
        ((n : NodeName) → IsSome (entry_of t.tree n) → number_among (all_of known) n ≡ number_among (all_of all) n) →
        fresh known t.tree ≡ fresh all t.tree }
{}

/// A tree has no more fresh nodes than nodes.
pub fn fresh_at_most()
    ensures { (known : List Entries) (t : MarkedTree) → length (fresh known t.tree) ≤ length t.tree }
{}

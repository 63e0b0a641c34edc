//! Laws of the entries of trees over a history that texts spell. Nothing here runs.
//!
//! The crates above, and readers, rely on this: what stands in an entry of such a tree is no more than a revision text
//! can spell.
#![tactic(auto)]

ghost use Rattle.std.specs.Prelude.{◌≡◌, ℕ, List, Some};
ghost use Rattle.mtn_base.specs.declared.name.NodeName.{NodeName};
ghost use Rattle.mtn_history_laws.specs.History.{Revision, entry_at};
ghost use Rattle.mtn_model.specs.State.{Logged};
ghost use Rattle.mtn_model.specs.Table.{Table};
ghost use Rattle.mtn_replay.specs.Lawful.{IsHistory};
ghost use Rattle.mtn_roster.specs.declared.entry.Entry.{Entry};
ghost use Rattle.mtn_entry_laws.specs.Entries.{IsLawfulEntry};

/// Over a lawful log each entry of each tree has a lawful component, a lawful path of birth and lawful keys, and that path and
/// its values are no longer than a text may be.
pub fn lawful_entries()
    ensures { (f : List ℕ → List ℕ) (files : Table) (log : List Logged) (h : List Revision) → IsHistory f files log h → (r : ℕ) (n : NodeName) (e : Entry) → entry_at h r n ≡ Some e → IsLawfulEntry e }
{}

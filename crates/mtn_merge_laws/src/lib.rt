//! Laws of merges for what commands come to, over the definitions alone. Nothing here runs.
//!
//! A merge of two revisions of a history decides one thing, has one list of conflicts each, and resolutions are read and
//! checked in one way; and there is such a thing, a list, a reading and an answer for each. The crates above rely on this:
//! a command that merges has exactly one outcome.
#![tactic(auto)]

ghost use Rattle.std.specs.Prelude.{◌≡◌, ◌≢◌, ◌⊎◌, ◌↔◌, ℕ, List, [], ◌∷◌, map, Some};
ghost use Rattle.mtn_base.specs.declared.name.NodeName.{NodeName};
ghost use Rattle.mtn_basic_io.specs.Spelling.{AreStanzas};
ghost use Rattle.mtn_conflicts.specs.declared.lists.Conflicts.{Conflicts};
ghost use Rattle.mtn_conflicts.specs.Lists.{AreConflictsOf};
ghost use Rattle.mtn_decide.specs.Decisions.{Merge, IsInOrder};
ghost use Rattle.mtn_decide.specs.Graph.{IsMergeOf};
ghost use Rattle.mtn_history_laws.specs.History.{Revision, IsGrown};
ghost use Rattle.mtn_resolve.specs.declared.resolution.Resolution.{Resolution};
ghost use Rattle.mtn_resolve.specs.declared.error.ResolveTextError.{ResolveTextError};
ghost use Rattle.mtn_resolve.specs.declared.error.ResolveTextError.TheVariants.{NoMemory};
ghost use Rattle.mtn_resolve.specs.declared.error.OverrideError.{OverrideError};
ghost use Rattle.mtn_resolve.specs.declared.error.OverrideError.TheVariants.{NoMemory as NoRoom};
ghost use Rattle.mtn_resolve.specs.Faults.{AreFitting, IsOverrideFault};
ghost use Rattle.mtn_resolve.specs.Texts.{IsResolutionsText, IsResolutionsFault, header, stanza_of};

/// What a merge of two revisions decides is one.
pub fn one_merge()
    ensures { (h : List Revision) (p q : ℕ) (m n : Merge) → IsInOrder m → IsInOrder n → IsMergeOf h p q m → IsMergeOf h p q n → m ≡ n }
{}

/// Decisions have one list of conflicts each.
pub fn one_conflicts()
    ensures { (m : Merge) (c d : Conflicts) → AreConflictsOf m c → AreConflictsOf m d → c ≡ d }
{}

/// A text spells one list of resolutions, or has one fault, but for want of memory.
pub fn one_reading()
    ensures resolutions { (text : List ℕ) (rs ss : List Resolution) → IsResolutionsText text rs → IsResolutionsText text ss →
        AreStanzas (header ∷ map stanza_of rs) → AreStanzas (header ∷ map stanza_of ss) → rs ≡ ss }
    ensures apart { (text : List ℕ) (rs : List Resolution) (e : ResolveTextError) → AreStanzas (header ∷ map stanza_of rs) → IsResolutionsText text rs → IsResolutionsFault text e → e ≡ NoMemory }
    ensures fault { (text : List ℕ) (d e : ResolveTextError) → d ≢ NoMemory → e ≢ NoMemory → IsResolutionsFault text d → IsResolutionsFault text e → d ≡ e }
{}

/// Resolutions fit decisions, or the first that does not has one fault.
pub fn one_override_fault()
    ensures apart { (m : Merge) (c : Conflicts) (rs : List Resolution) (e : OverrideError) → AreFitting m c rs → IsOverrideFault m c rs e → e ≡ NoRoom }
    ensures fault { (m : Merge) (c : Conflicts) (rs : List Resolution) (d e : OverrideError) → d ≢ NoRoom → e ≢ NoRoom → IsOverrideFault m c rs d → IsOverrideFault m c rs e → d ≡ e }
{}

/// A merge of two revisions of a grown history decides something.
pub fn some_merge()
    ensures { (h : List Revision) (p q : ℕ) → IsGrown h → (m : Merge) × IsInOrder m × IsMergeOf h p q m }
{}

/// Decisions in order have a list of conflicts each.
pub fn some_conflicts()
    ensures { (m : Merge) → IsInOrder m → (c : Conflicts) × AreConflictsOf m c }
{}

/// A text spells resolutions, or has a fault that is none of memory.
pub fn some_reading()
    ensures { (text : List ℕ) → ((rs : List Resolution) × IsResolutionsText text rs × AreStanzas (header ∷ map stanza_of rs)) ⊎ ((e : ResolveTextError) × (e ≢ NoMemory) × IsResolutionsFault text e) }
{}

/// Resolutions fit decisions, or have a fault that is none of memory.
pub fn some_override()
    ensures { (m : Merge) (c : Conflicts) (rs : List Resolution) → AreFitting m c rs ⊎ ((e : OverrideError) × (e ≢ NoRoom) × IsOverrideFault m c rs e) }
{}

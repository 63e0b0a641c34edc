//! Laws of what the records of a store stand for, over the definitions of `mtn_history` alone. Nothing here runs.
//!
//! Contents *stand* for a state (`Stands`) where their tables are its files, its texts, and what is kept of the history that
//! these spell. The crates above, and readers, rely on this: the state is a function of the contents, read off tables 1 to 4, 7 and 8
//! (`specs/Spelled.antt`), so that `the state of a store` has one meaning in every clause of `run`.
#![tactic(auto)]

ghost use Rattle.std.specs.Prelude.{◌≡◌, List, ℕ};
ghost use Rattle.mtn_history.specs.Stands.{Stands};
ghost use Rattle.mtn_model.specs.State.{State};
ghost use Rattle.mtn_model.specs.Table.{Contents};
ghost use Rattle.mtn_store_laws.specs.Spelled.{spelled};

/// Contents stand for one state at most, the one that they spell.
pub fn one_state()
    ensures one { (f : List ℕ → List ℕ) (c : Contents) (s t : State) → Stands f c s → Stands f c t → s ≡ t }
    ensures spells { (f : List ℕ → List ℕ) (c : Contents) (s : State) → Stands f c s → s ≡ spelled c }
{}

//! What a check of a store says, in definitions and laws. Nothing here runs.
//!
//! A check looks at the records of a store in a fixed order, and shows the first damage (`specs/FirstDamage.antt`). The walk along
//! the log is an induction over its fronts (`specs/Fronts.antt`): the records below a position stand for the first revisions, and
//! those of the position lead to one revision more.
//!
//! The code of the check (`mtn_check_log`, `mtn_check`) relies on this: contents without damage stand for the state that they spell,
//! contents that stand have no damage, and there is one first damage at most.
#![tactic(auto)]

mod laws;

pub use laws::{
    all_are_met, no_damage_stands, one_damage, one_due, one_front, one_kept,
    standing_has_no_damage, stands_walk, walk_stands,
};

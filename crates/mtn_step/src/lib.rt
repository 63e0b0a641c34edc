//! What each command does to a state, in definitions. Nothing here runs.
//!
//! A *call* is a command with what its words say. Over a state and a payload it comes to an *outcome*: the
//! state after it, its output, its status; which, is one line of `Steps` (`specs/Step.antt`). No keeper, record
//! or draft occurs in it.
//!
//! The crates above rely on this: the laws of commands stand over these definitions alone, and the code is
//! proved against them.
#![tactic(auto)]

mod call;

pub use call::{Call, Said};

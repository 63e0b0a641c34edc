//! The walk along the log of a check, in lots of jobs.
//!
//! A *job* is one stored roster beside the text of its revision and its parents' rosters (`mtn_check_pieces`). A position is *sound*
//! where its job agrees and the rest of its records fit (`mtn_check_records`). Neither asks the keeper, nor for an order, so that
//! jobs are judged in pieces beside one another, which have the verdicts in *lots* of at most four. The positions of some lots are read
//! together, one behind the other with the rosters at hand (`mtn_check_hands`): this is a *stretch*. While it is judged the
//! next one is read, and a step of an errand is done ([`Errand`]).
//!
//! [`walk_jobs`] answers what `mtn_check_log::walk_log` answers, for every number of pieces. It relies on this: behind the front of
//! the records below it, what was read of a position that is sound leads to one revision more; and where the job of a position
//! agrees but its records do not fit, the record that does not is the first damage. Only where a job differs, or the records of a
//! position give none, its text is accepted again over the records below, as `walk_log` does it, and tells whether there is damage,
//! and which. So nothing rests on what is at hand but time.
//!
//! Cost: what reading all positions and judging them costs, of which judging is shared out among the pieces, and reading is done by one
//! of them: no walk takes less time than that. The memory of two stretches, of at most 300,000 nodes each, of the rosters at hand, and
//! of one position for each piece. Where a text is accepted again, what that costs in a store of which nothing is remembered, and
//! reading the rest of the stretch again with nothing at hand.
#![tactic(auto)]

mod errand;
mod judging;
mod walk;

pub use errand::Errand;
pub use walk::walk_jobs;

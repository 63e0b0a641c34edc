//! The call `run`. Its clauses stand in several claims, so that a wrong body is tried against few of them.

pub mod causes;
pub mod leaves;
pub mod meets;
pub mod merges;
pub mod migrates;
pub mod others;
pub mod shows;
pub mod stays;
pub mod survives;
pub mod vouches;

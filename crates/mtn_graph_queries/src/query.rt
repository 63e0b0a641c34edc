// Why a query has no answer.
use mtn_base::{Id, NoMemory};
use std::alloc::{AllocError, AllocFailed};

/// Why a query has no answer.
#[derive(Clone, Copy, Drop)]
pub enum QueryError {
    /// The graph does not have this id; it is the first such that the query names.
    Unknown(Id),
    NoMemory,
}

impl From<NoMemory> for QueryError {
    ghost use Rattle.std.specs.Prelude.{◌≡◌};
    ghost use Rattle.mtn_graph_queries.specs.declared.query.QueryError.TheVariants.{NoMemory};

    ghost from_gives = { λ _ e. e ≡ NoMemory };

    fn from(_: NoMemory) -> Self {
        QueryError::NoMemory
    }
}

impl From<AllocError> for QueryError {
    ghost use Rattle.std.specs.Prelude.{◌≡◌};
    ghost use Rattle.mtn_graph_queries.specs.declared.query.QueryError.TheVariants.{NoMemory};

    ghost from_gives = { λ _ e. e ≡ NoMemory };

    fn from(_: AllocError) -> Self {
        QueryError::NoMemory
    }
}

impl<T: Drop> From<AllocFailed<T>> for QueryError {
    ghost use Rattle.std.specs.Prelude.{◌≡◌};
    ghost use Rattle.mtn_graph_queries.specs.declared.query.QueryError.TheVariants.{NoMemory};

    ghost from_gives = { λ _ e. e ≡ NoMemory };

    fn from(_: AllocFailed<T>) -> Self {
        QueryError::NoMemory
    }
}

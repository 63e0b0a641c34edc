//! Statuses.
ghost use Rattle.std.specs.Prelude.{◌≡◌};
ghost use Rattle.mtn_model.specs.Outcome.{number_of};

use mtn_model::Status;

/// As `Status::number`.
pub fn number(status: Status) -> u8
    ensures { result ≡ number_of status }
{
    status.number()
}

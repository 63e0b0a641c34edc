//! Which commands take a payload.
ghost use Rattle.std.specs.Prelude.{◌≡◌};
ghost use Rattle.mtn_step.specs.Step.{takes_payload};

use mtn_step::Call;

/// As `Call::takes_payload`.
pub fn takes_a_payload(call: &Call) -> bool
    ensures { result ≡ takes_payload call.now }
{
    call.takes_payload()
}

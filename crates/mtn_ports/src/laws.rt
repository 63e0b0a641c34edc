//! Laws of the objects in memory.
ghost use Rattle.std.specs.Prelude.{◌≡◌, ◌≤◌, ℕ, List, [], length, false};
ghost use Rattle.mtn_ports.specs.Memory.{Calls, Sunk, after, is_listed, is_refused};

/// Where no call is listed, none of any number of calls is to fail, and no fault is counted.
pub fn unlisted_calls_never_fail()
    ensures next { (c : Calls) (n : ℕ) → c.failing ≡ [] → is_listed (after n c) ≡ false }
    ensures faults { (c : Calls) (n : ℕ) → c.failing ≡ [] → (after n c).faults ≡ c.faults }
{}

/// Where no call is listed, a sink with room for all bytes of a piece takes it.
pub fn room_is_enough()
    ensures { (s : Sunk) (bytes : List ℕ) → s.calls.failing ≡ [] → length bytes ≤ s.room → is_refused s bytes ≡ false }
{}

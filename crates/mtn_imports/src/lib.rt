//! What a store becomes by the packets of an input, in definitions and laws. Nothing here runs.
//!
//! An input that is no packets is refused with its first bad packet, and one with an id that is not its payload's with the first
//! such. Then the packets go in one after the other, each as by the command that keeps what it holds, until one is refused; its
//! number is told. All are kept, or none (`specs/Imports.antt`).
//!
//! The crates above rely on this: every input is packets or has a first bad one, a mismatch of an id comes before the refusals of
//! commands, and no packets leave a store as it is.
#![tactic(auto)]

ghost use Rattle.std.specs.Prelude.{◌≡◌, ◌⊎◌, ℕ, List, [], Option, Some, None};
ghost use Rattle.mtn_base.specs.declared.refusal.Cause.{Cause};
ghost use Rattle.mtn_base.specs.declared.refusal.PacketWhy.{PacketWhy};
ghost use Rattle.mtn_base.specs.declared.refusal.Refusal.{Refusal};
ghost use Rattle.mtn_model.specs.State.{State};
ghost use Rattle.mtn_packets.specs.Faults.{FailsAt};
ghost use Rattle.mtn_packets.specs.Packets.{ArePackets};
ghost use Rattle.mtn_packets.specs.declared.packet.Packet.{Packet};
ghost use Rattle.mtn_imports.specs.Imports.{Imports, Kept, first_mismatch, kept, refusal_of_all};

/// No packets leave a store as it is.
pub fn no_packets()
    ensures { (f : List ℕ → List ℕ) (s t : State) (refusal : Option Refusal) (new : Kept) → Imports f s [] refusal t new → (refusal ≡ None) × (t ≡ s) × (new ≡ kept 0 0 0) }
{}

/// Every input is packets, or has a first bad packet.
pub fn some_reading()
    ensures { (text : List ℕ) → ((packets : List Packet) × ArePackets packets text) ⊎ ((number : ℕ) × (why : PacketWhy) × FailsAt text number why) }
{}

/// An id that is not its payload's is refused before all that the packets keep.
pub fn mismatch_first()
    ensures { (f : List ℕ → List ℕ) (s t : State) (packets : List Packet) (refusal : Option Refusal) (new : Kept) (cause : Cause) →
        first_mismatch f 1 packets ≡ Some cause → Imports f s packets refusal t new → refusal ≡ refusal_of_all cause }
{}

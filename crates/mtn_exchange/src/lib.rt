//! What one store exports another can read, in definitions and laws. Nothing here runs.
//!
//! A store exports of a revision what another lacks that has certain revisions (`mtn_exports`), and the other reads the packets
//! (`mtn_imports`). The two stores may have accepted their revisions in different orders, and hold what the other does not.
//!
//! The crates above rely on this: where the reader holds those revisions and all above them, and holds no id of a packet with
//! other bytes, no packet is refused but for want of room in its log. It then has the exporter's files, revisions and
//! certificates behind its own (`specs/Exchange.antt`).
#![tactic(auto)]

ghost use Rattle.std.specs.Prelude.{ℕ, List, []};
ghost use Rattle.mtn_base.specs.declared.id.Id.{Id};
ghost use Rattle.mtn_exports.specs.Exports.{IsExport};
ghost use Rattle.mtn_history_laws.specs.History.{Revision};
ghost use Rattle.mtn_model.specs.State.{State, empty_state};
ghost use Rattle.mtn_packets.specs.declared.packet.Packet.{Packet};
ghost use Rattle.mtn_replay.specs.Lawful.{IsHistory, IsLawful};
ghost use Rattle.mtn_exchange.specs.Exchange.{HasNoOther, HasRoom, HoldsBytes, HoldsWith, IsTaken, MakesIds};

/// What is exported of a lawful state is read into each other one that holds the revisions which the export leaves out, has no
/// other bytes under its ids, and has room: nothing is refused, and what results is the state with all packets, which is lawful and
/// holds the revision and all above it.
pub fn export_is_read()
    ensures { (f : List ℕ → List ℕ) (s t : State) (h : List Revision) (r : Id) (have : List Id) (packets : List Packet) →
        MakesIds f → HoldsBytes s → IsLawful f s → IsLawful f t → IsHistory f s.files s.log h → IsExport s h r have packets →
        HoldsWith s h t have → HasNoOther t packets → HasRoom t packets → IsTaken f s h t r have packets }
{}

/// An empty store reads what is exported of a revision with nothing left out.
pub fn all_is_read()
    ensures { (f : List ℕ → List ℕ) (s : State) (h : List Revision) (r : Id) (packets : List Packet) →
        MakesIds f → HoldsBytes s → IsLawful f s → IsHistory f s.files s.log h → IsExport s h r [] packets → IsTaken f s h empty_state r [] packets }
{}

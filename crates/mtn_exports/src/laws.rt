// Laws of exports.
ghost use Rattle.std.specs.Prelude.{◌≡◌, ℕ, List, Some, Contains};
ghost use Rattle.std.specs.FinMap.{get};
ghost use Rattle.std.specs.List.{All};
ghost use Rattle.mtn_answers.specs.Views.{TextAnswer};
ghost use Rattle.mtn_base.specs.declared.id.Id.{Id};
ghost use Rattle.mtn_certs.specs.Certificates.{Certificate};
ghost use Rattle.mtn_history_laws.specs.History.{Revision};
ghost use Rattle.mtn_model.specs.State.{State};
ghost use Rattle.mtn_packets.specs.Printed.{IsWritable};
ghost use Rattle.mtn_packets.specs.declared.packet.Packet.{Packet};
ghost use Rattle.mtn_packets.specs.declared.packet.Packet.TheVariants.{File};
ghost use Rattle.mtn_replay.specs.Lawful.{IsHistory, IsLawful};
ghost use Rattle.mtn_exports.specs.Exports.{AreCertsOf, IsExport, IsExported};

/// Who asks has one answer at most.
pub fn one_export()
    ensures { (s : State) (h : List Revision) (id : Id) (have : List Id) (a b : TextAnswer) → IsExported s h id have a → IsExported s h id have b → a ≡ b }
{}

/// Who asks has an answer, where the certificates of each revision have a list.
pub fn some_export()
    ensures { (f : List ℕ → List ℕ) (s : State) (h : List Revision) → IsHistory f s.files s.log h → ((id : Id) → (certs : List Certificate) × AreCertsOf s id certs) →
        (id : Id) (have : List Id) → (answer : TextAnswer) × IsExported s h id have answer }
{}

/// Each packet of an export can be written.
pub fn are_writable()
    ensures { (f : List ℕ → List ℕ) (s : State) (h : List Revision) (id : Id) (have : List Id) (packets : List Packet) → IsLawful f s →
        IsExport s h id have packets → All IsWritable packets }
{}

/// Each file of an export is held.
pub fn held_files()
    ensures { (f : List ℕ → List ℕ) (s : State) (h : List Revision) (id : Id) (have : List Id) (packets : List Packet) → IsHistory f s.files s.log h →
        IsExport s h id have packets → (file : Id) (bytes : List ℕ) → Contains packets (File file bytes) → get s.files file.0 ≡ Some bytes }
{}

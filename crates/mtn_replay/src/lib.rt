//! The history that a log of revision texts spells, in definitions and laws. Nothing here runs.
//!
//! A revision text names its parents by their ids and says for each what changes. Over the *history* of the
//! revisions before it the text makes one more: its parents' positions, and its tree (`specs/Making.antt`); or it
//! has a first refusal, in the order of the table. A log spells a history where each text is accepted over those
//! before it, and a state is lawful where its log does (`specs/Lawful.antt`).
//!
//! The crates above rely on this: the functions here are laws, empty bodies whose contracts hold over the
//! definitions alone. A log spells one history at most, and that is grown; one more accepted text makes it longer
//! by one revision, and more files leave it as it is.
#![tactic(auto)]

ghost use Rattle.std.specs.Prelude.{◌≡◌, ◌≤◌, ℕ, List, [], ◌∷◌, ◌++◌, length, true, None, Some};
ghost use Rattle.std.specs.FinMap.{get};
ghost use Rattle.mtn_history_laws.specs.History.{Revision, IsGrown, TellsAncestors};
ghost use Rattle.mtn_certs.specs.Certificates.{Certificate, IsIdBytes, IsLawfulCertificate, is_field};
ghost use Rattle.mtn_model.specs.State.{Logged, State};
ghost use Rattle.mtn_model.specs.Table.{Table};
ghost use Rattle.mtn_base.specs.declared.id.Id.{Id};
ghost use Rattle.mtn_base.specs.declared.limits.TheConstants.{MAX_LOG};
ghost use Rattle.mtn_replay.specs.Making.{place_of, is_above};
ghost use Rattle.mtn_replay.specs.Certificates.{cert_refusal, with_cert, with_key};
ghost use Rattle.mtn_replay.specs.Lawful.{IsHistory, IsLawful, IsNext, Keeps};

/// The history that a log spells is grown, so that the laws of marks hold in it.
pub fn history_is_grown()
    ensures { (f : List ℕ → List ℕ) (files : Table) (log : List Logged) (h : List Revision) → IsHistory f files log h → IsGrown h }
{}

/// A log spells one history at most.
pub fn one_history()
    ensures { (f : List ℕ → List ℕ) (files : Table) (log : List Logged) (h g : List Revision) → IsHistory f files log h → IsHistory f files log g → h ≡ g }
{}

/// What stands above a parent in the definitions are the ancestors of the revision that it names.
pub fn above_tells()
    ensures { (f : List ℕ → List ℕ) (files : Table) (log : List Logged) (h : List Revision) (parent : Id) (p : ℕ) → IsHistory f files log h → place_of h parent ≡ Some p →
        TellsAncestors h p (is_above h (Some parent)) }
{}

/// A revision is accepted only where the log has room for it.
pub fn log_is_short()
    ensures { (f : List ℕ → List ℕ) (files : Table) (log : List Logged) (h : List Revision) → IsHistory f files log h → length log ≤ MAX_LOG }
{}

/// An accepted text makes the history longer by one; more files leave it as it is.
pub fn history_grows()
    ensures nothing { (f : List ℕ → List ℕ) (files : Table) → IsHistory f files [] [] }
    ensures next { (f : List ℕ → List ℕ) (files : Table) (log : List Logged) (h : List Revision) (l : Logged) (v : Revision) →
        IsHistory f files log h → IsNext f files h l v → IsHistory f files (log ++ l ∷ []) (h ++ v ∷ []) }
    ensures files { (f : List ℕ → List ℕ) (files more : Table) (log : List Logged) (h : List Revision) →
        Keeps files more → IsHistory f files log h → IsHistory f more log h }
{}

/// A lawful state stays lawful with one more accepted text, with one more certificate of a revision that it has, and with one
/// more key name.
pub fn stays_lawful()
    ensures text { (f : List ℕ → List ℕ) (s : State) (h : List Revision) (l : Logged) (v : Revision) →
        IsLawful f s → IsHistory f s.files s.log h → IsNext f s.files h l v → IsLawful f (record s { log = s.log ++ l ∷ [] }) }
    ensures cert { (f : List ℕ → List ℕ) (s : State) (c : Certificate) → IsLawful f s → IsLawfulCertificate c → IsIdBytes c.revision.0 → IsIdBytes c.key.0 →
        cert_refusal s c ≡ None → IsLawful f (with_cert s c) }
    ensures key { (f : List ℕ → List ℕ) (s : State) (id : Id) (name : List ℕ) → IsLawful f s → IsIdBytes id.0 → is_field name ≡ true →
        IsLawful f (with_key s id name) }
{}

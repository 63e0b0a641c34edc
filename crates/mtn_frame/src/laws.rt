//! Laws of the definitions.
ghost use Rattle.std.specs.Prelude.{◌≡◌, ◌∷◌, [], ℕ, List, Bool, Option, take};
ghost use Rattle.std.specs.Io.KnownBytes.{Appends};
ghost use Rattle.mtn_model.specs.Table.{Contents};
ghost use Rattle.mtn_frame.specs.declared.requests.Request.{Request};
ghost use Rattle.mtn_frame.specs.declared.script.Job.{Job};
ghost use Rattle.mtn_model.specs.declared.status.Status.{Status};
ghost use Rattle.mtn_frame.specs.Requests.{IsListOf, BreaksAt};
ghost use Rattle.mtn_frame.specs.Outcome.{JobOutcome};
ghost use Rattle.mtn_frame.specs.Script.{Does, IsScript};
ghost use Rattle.mtn_frame.specs.Frame.{WalkedAll, WalkedShort, Stopped, StandsAfterSome};

use crate::script::Script;
use crate::works::Commands;

/// An input is one list of requests at most; one that breaks is none, and breaks at one number.
pub fn one_reading()
    ensures list { (input : List ℕ) (a b : List Request) → IsListOf input a → IsListOf input b → a ≡ b }
    ensures apart { (input : List ℕ) (a : List Request) (n : ℕ) → IsListOf input a → BreaksAt input n → ⊥ }
    ensures number { (input : List ℕ) (m n : ℕ) → BreaksAt input m → BreaksAt input n → m ≡ n }
    ensures script { (takes : List (List ℕ) → Bool) (words : List (List ℕ)) (input : List ℕ) (a b : Script) → IsScript takes words input a → IsScript takes words input b → a ≡ b }
{}

/// For a single command: it was done and its output is written; it was done and a front of its output is written; it left the
/// state and wrote nothing; a crash leaves records that stand for its state.
pub fn single_command<C: Commands>(commands: &C)
    ensures done { (job : Job) (s : C.State) (d : Contents) (w0 w1 : Option (List ℕ)) (result : Status) → WalkedAll (C.stands commands.now) (Does (C.does commands.now)) (Script.Bare job) s d w0 w1 result →
        (o : JobOutcome C.State) × Does (C.does commands.now) job s o × (result ≡ o.status) × C.stands commands.now d o.state × Appends w0 w1 o.output }
    ensures cut { (job : Job) (s : C.State) (d : Contents) (w0 w1 : Option (List ℕ)) → WalkedShort (C.stands commands.now) (Does (C.does commands.now)) (Script.Bare job) s (job ∷ []) d w0 w1 →
        (o : JobOutcome C.State) × Does (C.does commands.now) job s o × C.stands commands.now d o.state × ((front : ℕ) × Appends w0 w1 (take front o.output)) }
    ensures halted { (job : Job) (s : C.State) (d : Contents) (w0 w1 : Option (List ℕ)) → Stopped (C.stands commands.now) (Does (C.does commands.now)) (Script.Bare job) s d w0 w1 →
        C.stands commands.now d s × Appends w0 w1 [] }
    ensures crash { (job : Job) (s : C.State) (e : Contents) → StandsAfterSome (C.stands commands.now) (Does (C.does commands.now)) s (job ∷ []) e →
        (o : JobOutcome C.State) × Does (C.does commands.now) job s o × C.stands commands.now e o.state }
{}

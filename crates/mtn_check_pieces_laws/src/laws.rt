//! The laws of verdicts behind a front.

ghost use Rattle.std.specs.Prelude.{◌≡◌, ◌≤◌, ℕ, List, None, length};
ghost use Rattle.mtn_base.specs.declared.limits.TheConstants.{MAX_TEXT};
ghost use Rattle.mtn_check_laws.specs.Fronts.{Front, IsKeptNext, StandsTo};
ghost use Rattle.mtn_check_pieces.specs.Verdict.{IsAgreeing, IsRevisionOf};
ghost use Rattle.mtn_check_pieces.specs.declared.job.CheckJob.{CheckJob};
ghost use Rattle.mtn_make_roster.specs.Basis.{edges_refusal};
ghost use Rattle.mtn_history.specs.Revisions.{Kept};
ghost use Rattle.mtn_changes.specs.declared.change.Revision.{Revision};
ghost use Rattle.mtn_history_laws.specs.History.{Revision as Made};
ghost use Rattle.mtn_model.specs.Table.{Contents};
ghost use Rattle.mtn_records.specs.declared.record.RosterRecord.{RosterRecord};
ghost use Rattle.mtn_replay.specs.Lawful.{IsNext};
ghost use Rattle.mtn_replay.specs.Making.{log_full, made, tree_refusal};
ghost use Rattle.mtn_check_pieces_laws.specs.Behind.{AreNumbersDue, IsJobBehind, IsKeptUnnumbered, logged_of};

/// Behind a front for which the records below stand, the stored record of a job that agrees is what is kept of the revision that
/// its text makes there, but for the numbers of its nodes.
pub fn agreeing_is_kept()
    ensures { (f : List ℕ → List ℕ) (c : Contents) (r : ℕ) (front : Front) (job : CheckJob) → StandsTo f c r front → (g : IsAgreeing job) → IsJobBehind front g.revision.edges job →
        IsKeptUnnumbered front.history (made front.history job.id g.revision.edges) job.stored }
{}

/// And conversely: where the stored record is that of the revision that a text makes there, but for its numbers, and the edges of
/// the text have no fault, the job agrees. So a job that differs has another record than the one that is due, or a text that is
/// not lawful there.
pub fn kept_agrees()
    ensures { (f : List ℕ → List ℕ) (c : Contents) (r : ℕ) (front : Front) (job : CheckJob) (v : Revision) → StandsTo f c r front → IsRevisionOf job.text v → IsJobBehind front v.edges job →
        edges_refusal front.history job.id v.edges ≡ None → IsKeptUnnumbered front.history (made front.history job.id v.edges) job.stored → IsAgreeing job }
{}

/// So over a lawful text whose stored record is the one that is due, the job agrees.
pub fn due_agrees()
    ensures { (f : List ℕ → List ℕ) (c : Contents) (r : ℕ) (front : Front) (job : CheckJob) (v : Made) (new : Kept) → StandsTo f c r front →
        (n : IsNext f (c 2) front.history (logged_of job) v) → IsJobBehind front n.read.edges job → IsKeptNext front.history front.kept v new →
        job.stored ≡ RosterRecord.Whole new.entries → IsAgreeing job }
{}

/// With the numbers that are due, it is what is kept of the next revision.
pub fn numbered_is_kept()
    ensures { (h : List Made) (ks : List Kept) (v : Made) (new : Kept) → length ks ≡ length h → IsKeptUnnumbered h v (RosterRecord.Whole new.entries) → AreNumbersDue ks v new →
        IsKeptNext h ks v new }
{}

/// And the text of a job that agrees is lawful there, where it is within its limit and under its id, the log is not full, and
/// nothing is wrong with the stored tree: its limits, the files of the text, the manifest's id.
pub fn agreeing_is_lawful()
    ensures { (f : List ℕ → List ℕ) (c : Contents) (r : ℕ) (front : Front) (job : CheckJob) → StandsTo f c r front → (g : IsAgreeing job) → IsJobBehind front g.revision.edges job →
        length job.text ≤ MAX_TEXT → f job.text ≡ job.id.0 → log_full front.history ≡ None → tree_refusal f (c 2) g.revision g.stored.tree ≡ None →
        IsNext f (c 2) front.history (logged_of job) (made front.history job.id g.revision.edges) }
{}

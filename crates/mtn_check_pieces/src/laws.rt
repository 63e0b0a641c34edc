//! What a verdict says over a history.
ghost use Rattle.std.specs.Prelude.{List};
ghost use Rattle.mtn_history_laws.specs.History.{Revision};
ghost use Rattle.mtn_check_pieces.specs.declared.job.CheckJob.{CheckJob};
ghost use Rattle.mtn_check_pieces.specs.Laws.{StandsOn, IsNextMarked};
ghost use Rattle.mtn_check_pieces.specs.Verdict.{IsAgreeing};

/// Over a grown history that has the job's parents with their marks, the stored roster of a job that agrees is the tree that the
/// text makes of the history, with the marks and births of the history with the new revision: a check needs not make it again.
pub fn agreeing_is_next()
    ensures { (h : List Revision) (job : CheckJob) → (g : IsAgreeing job) → StandsOn h job g.revision.edges g.made.parents → IsNextMarked h job.id g.revision.edges g.stored }
{}

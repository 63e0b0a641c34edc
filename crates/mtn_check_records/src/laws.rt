//! The laws of what is kept of revisions, over the fronts of the log.
ghost use Rattle.std.specs.Prelude.{◌≡◌, ℕ, List};
ghost use Rattle.mtn_check_laws.specs.Fronts.{Front, Step, with_step, StandsTo};
ghost use Rattle.mtn_check_pieces.specs.declared.job.CheckJob.{CheckJob as Job};
ghost use Rattle.mtn_model.specs.Table.{Contents};
ghost use Rattle.mtn_records.specs.declared.record.RosterRecord.{RosterRecord};
ghost use Rattle.mtn_check_records.specs.Reading.{IsHandOf, IsStepOf};
ghost use Rattle.mtn_check_records.specs.declared.hand.Hand.{Hand as Held};
ghost use Rattle.mtn_check_records.specs.declared.hand.Position.{Position as At};

/// What is kept of a revision stays so behind one revision more.
pub fn hand_stays()
    ensures { (front : Front) (s : Step) (p : ℕ) (hand : Held) → IsHandOf front p hand → IsHandOf (with_step front s) p hand }
{}

/// What was read at a position that leads to one revision more is what is kept of that revision.
pub fn step_is_kept()
    ensures { (f : List ℕ → List ℕ) (c : Contents) (r : ℕ) (front : Front) (x : At) (job : Job) (hand : Held) → StandsTo f c r front → (s : IsStepOf f c r front x job) →
        hand.id ≡ x.entry.id → hand.next ≡ x.entry.next_node → hand.depth ≡ x.depth → job.stored ≡ RosterRecord.Whole hand.entries → IsHandOf (with_step front s.step) r hand }
{}

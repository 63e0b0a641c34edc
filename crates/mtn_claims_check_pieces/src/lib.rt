//! The promises of `mtn_check_pieces`, each public call under its own clauses with the call as its body. Nothing here runs.
//!
//! The wrong bodies of `must-fail/` stand in the place of a call, and the prover refuses each. Since the calls themselves
//! meet these clauses, a body that they refuse is no body of the call.
#![tactic(auto)]

ghost use Rattle.std.specs.Prelude.{◌≡◌, IfOk};
ghost use Rattle.mtn_check_pieces.specs.Verdict.{AreVerdicts, IsVerdict};

use mtn_ancestry::Pos;
use mtn_base::{List, NoMemory};
use mtn_check_pieces::{CheckJob, SharedRecord, Verdict};
use mtn_pieces::Gate;
use mtn_records::RosterRecord;
use std::alloc::Global;
use std::thread::Threads;

/// As `mtn_check_pieces::check_one`.
pub fn check_one(alloc: Global, job: &CheckJob) -> Result<Verdict, NoMemory>
    ensures { IfOk result (IsVerdict job.now) }
{
    mtn_check_pieces::check_one(alloc, job)
}

/// The same of a job that is given away.
pub fn check_given(alloc: Global, mut job: CheckJob) -> Result<Verdict, NoMemory>
    ensures { IfOk result (IsVerdict job) }
{
    mtn_check_pieces::check_one(alloc, &job)
}

/// As `mtn_check_pieces::check_pieces`.
pub fn check_pieces<R: Threads + Sync, G: Gate>(
    rt: &R,
    alloc: Global,
    gate: &G,
    pieces: usize,
    jobs: &[CheckJob],
) -> Result<Vec<Verdict>, NoMemory>
    ensures { IfOk result (λ vs. AreVerdicts jobs.now vs.items) }
{
    mtn_check_pieces::check_pieces(rt, alloc, gate, pieces, jobs)
}

/// As `SharedRecord::new`.
pub fn new_shared_record(alloc: Global, roster: RosterRecord) -> Result<SharedRecord, NoMemory>
    ensures { IfOk result (λ r. r ≡ roster) }
{
    SharedRecord::new(alloc, roster)
}

/// As `SharedRecord::as_record`.
pub fn as_record(shared: &SharedRecord) -> &RosterRecord
    ensures { result.now ≡ shared.now }
{
    shared.as_record()
}

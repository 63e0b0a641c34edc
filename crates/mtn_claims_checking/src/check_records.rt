//! The records of a position beside a roster that agrees.
ghost use Rattle.std.specs.Prelude.{◌≡◌, IfOk, length};
ghost use Rattle.mtn_check_records.specs.Fitting.{AnswersAll};

use mtn_base::NoMemory;
use mtn_check_pieces::CheckJob;
use mtn_check_records::{JobAnswer, Position};
use mtn_ports::Ident;
use std::alloc::Global;
use std::thread::Threads;

/// As `mtn_check_records::judge_run`.
pub fn judge_run<R: Threads + Sync, I: Ident>(
    rt: &R,
    alloc: Global,
    ident: &I,
    piece: usize,
    positions: &[Position],
    jobs: &[CheckJob],
) -> Result<Vec<JobAnswer>, NoMemory>
    requires same { length positions.now ≡ length jobs.now }
    ensures { IfOk result (λ v. AnswersAll (I.meaning ident.now) positions.now jobs.now v.items) }
{
    mtn_check_records::judge_run(rt, alloc, ident, piece, positions, jobs)
}

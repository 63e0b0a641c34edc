// Many positions, in lots.
ghost use Rattle.std.specs.Prelude.{◌≡◌, length, IfOk};
ghost use Rattle.mtn_check_records.specs.Fitting.{AnswersAll, AreAnswered};

use crate::fit::judge_one;
use crate::hand::{JobAnswer, Position};
use mtn_base::NoMemory;
use mtn_check_pieces::{CheckJob, check_pieces};
use mtn_pieces::FreeGate;
use mtn_ports::Ident;
use std::alloc::Global;
use std::thread::Threads;

/// The most jobs of a lot.
pub const MAX_JOBS: usize = 4;

// Both answers on each position of a lot: the verdicts of its jobs, and then what they leave. A lot stays on the thread of its piece.
fn judge_lot<R: Threads + Sync, I: Ident>(
    rt: &R,
    alloc: Global,
    ident: &I,
    positions: &[Position],
    jobs: &[CheckJob],
) -> Result<Vec<JobAnswer>, NoMemory>
    requires same { length positions.now ≡ length jobs.now }
    ensures len { IfOk result (λ v. length v.items ≡ length jobs.now) }
    ensures answers { IfOk result (λ v. AreAnswered (I.meaning ident.now) positions.now jobs.now v.items) }
{
    let verdicts = check_pieces(rt, alloc, &FreeGate, 1, jobs)?;
    let mut answers = Vec::with_capacity(alloc, jobs.len())?;
    for (place, job) in jobs.iter().enumerate() {
        let verdict = verdicts[place];
        answers.push(judge_one(alloc, ident, &positions[place], job, verdict)?)?;
    }
    Ok(answers)
}

// The same of many, a lot behind the other.
#[cycle(lots)]
fn judge_lots<R: Threads + Sync, I: Ident>(
    rt: &R,
    alloc: Global,
    ident: &I,
    positions: &[Position],
    jobs: &[CheckJob],
) -> Result<Vec<JobAnswer>, NoMemory>
    requires same { length positions.now ≡ length jobs.now }
    ensures { IfOk result (λ v. AnswersAll (I.meaning ident.now) positions.now jobs.now v.items) }
{
    if jobs.len() <= MAX_JOBS {
        return judge_lot(rt, alloc, ident, positions, jobs);
    }
    let (low, high) = positions.split_at(MAX_JOBS);
    let (left, right) = jobs.split_at(MAX_JOBS);
    let mut answers = judge_lot(rt, alloc, ident, low, left)?;
    let mut more = judge_lots(rt, alloc, ident, high, right)?;
    answers.append(&mut more)?;
    Ok(answers)
}

/// Both answers on each position, in order, as the piece with this number, which passes the ident where there is a position, and stays
/// on this thread. It gives its jobs to [`check_pieces`] in lots of at most [`MAX_JOBS`], and takes memory for the answers, and for
/// what is at hand of one position.
pub fn judge_run<R: Threads + Sync, I: Ident>(
    rt: &R,
    alloc: Global,
    ident: &I,
    piece: usize,
    positions: &[Position],
    jobs: &[CheckJob],
) -> Result<Vec<JobAnswer>, NoMemory>
    requires same { length positions.now ≡ length jobs.now }
    ensures { IfOk result (λ v. AnswersAll (I.meaning ident.now) positions.now jobs.now v.items) }
{
    if jobs.is_empty() {
        return Ok(Vec::new(alloc));
    }
    ident.pass(piece);
    judge_lots(rt, alloc, ident, positions, jobs)
}

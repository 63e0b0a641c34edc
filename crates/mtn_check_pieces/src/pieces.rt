// Verdicts on many jobs, each run of them on a thread of its own.
ghost use Rattle.std.specs.Prelude.{◌≡◌, ◌<◌, ◌+◌, ◌++◌, ◌^◌, IfOk};
ghost use Rattle.mtn_check_pieces.specs.Verdict.{AreVerdicts};

use crate::{CheckJob, Verdict, check_one};
use mtn_base::NoMemory;
use mtn_pieces::{Gate, MAX_PIECES};
use std::alloc::Global;
use std::thread::{Threads, join};

// The verdict on each job, one after the other.
fn check_all(alloc: Global, jobs: &[CheckJob]) -> Result<Vec<Verdict>, NoMemory>
    ensures { IfOk result (λ vs. AreVerdicts jobs.now vs.items) }
{
    let mut verdicts = Vec::with_capacity(alloc, jobs.len())?;
    for job in jobs {
        verdicts.push(check_one(alloc, job)?)?;
    }
    Ok(verdicts)
}

// The same of one run, which has this number.
fn check_run<G: Gate>(
    alloc: Global,
    gate: &G,
    piece: usize,
    jobs: &[CheckJob],
) -> Result<Vec<Verdict>, NoMemory>
    ensures { IfOk result (λ vs. AreVerdicts jobs.now vs.items) }
{
    gate.pass(piece);
    check_all(alloc, jobs)
}

// The verdicts of both runs.
fn in_a_row(mut verdicts: Vec<Verdict>, mut more: Vec<Verdict>) -> Result<Vec<Verdict>, NoMemory>
    ensures { IfOk result (λ vs. vs.items ≡ verdicts.items ++ more.items) }
{
    verdicts.append(&mut more)?;
    Ok(verdicts)
}

// The verdict on each job, in order, in so many runs, which are numbered from `piece`. No run is empty where there are as many
// jobs as runs. The first runs on another thread and the others from this one, so that no thread shares the handle.
fn check_in_runs<R: Threads, G: Gate>(
    rt: &R,
    alloc: Global,
    gate: &G,
    piece: usize,
    runs: usize,
    jobs: &[CheckJob],
) -> Result<Vec<Verdict>, NoMemory>
    requires { piece + runs < 2 ^ 64 }
    ensures { IfOk result (λ vs. AreVerdicts jobs.now vs.items) }
{
    if runs < 2 {
        return check_run(alloc, gate, piece, jobs);
    }
    let (first, others) = jobs.split_at(jobs.len() / runs);
    let (verdicts, rest) = join(
        rt,
        || -> Result<Vec<Verdict>, NoMemory>
            ensures { IfOk result (λ vs. AreVerdicts first.entry.now vs.items) }
        { check_run(alloc, gate, piece, first) },
        || -> Result<Vec<Verdict>, NoMemory>
            requires { (1 < runs) × (piece + runs < 2 ^ 64) }
            ensures { IfOk result (λ vs. AreVerdicts others.entry.now vs.items) }
        { check_in_runs(rt, alloc, gate, piece + 1, runs - 1, others) },
    );
    let verdicts = verdicts?;
    in_a_row(verdicts, rest?)
}

/// The verdict on each job, in order, in at most so many pieces, each of which passes the gate. A number below 1 is taken as 1,
/// one above [`MAX_PIECES`] as that. The jobs are cut by position into as many runs as there are pieces, or jobs where these are
/// fewer, and each run is a piece on a thread of its own, numbered from 0. It takes memory for the verdicts, and for what each
/// piece has at hand of one job.
pub fn check_pieces<R: Threads + Sync, G: Gate>(
    rt: &R,
    alloc: Global,
    gate: &G,
    pieces: usize,
    jobs: &[CheckJob],
) -> Result<Vec<Verdict>, NoMemory>
    ensures { IfOk result (λ vs. AreVerdicts jobs.now vs.items) }
{
    if jobs.is_empty() {
        return Ok(Vec::new(alloc));
    }
    let runs = pieces.max(1).min(MAX_PIECES).min(jobs.len());
    check_in_runs(rt, alloc, gate, 0, runs, jobs)
}

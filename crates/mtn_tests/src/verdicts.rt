// Verdicts on two jobs by hand, and that the pieces of one call run at the same time, which no clause says.
use crate::gate::MeetingGate;
use crate::jobs::job;
use mtn_ancestry::Pos;
use mtn_case_records::meeting::Meeting;
use mtn_check_pieces::{CheckJob, Verdict, check_one, check_pieces};
use std::alloc::Global;
use std::test::Fail;
use std::thread::Threads;

// The root is born at 0, so that the same record is none of a revision at 1.
fn two_jobs(alloc: Global) -> Option<Vec<CheckJob>> {
    let mut jobs = Vec::new(alloc);
    jobs.push(job(alloc, Pos(0))?).ok()?;
    jobs.push(job(alloc, Pos(1))?).ok()?;
    Some(jobs)
}

fn agree(verdicts: &[Verdict]) -> Option<(bool, bool)> {
    let [first, second] = verdicts else {
        return None;
    };
    Some((
        matches!(first, Verdict::Agrees),
        matches!(second, Verdict::Agrees),
    ))
}

fn in_pieces<R: Threads + Sync>(rt: &R, alloc: Global, meeting: &Meeting) -> Option<(bool, bool)> {
    let jobs = two_jobs(alloc)?;
    let gate = MeetingGate { meeting };
    agree(&check_pieces(rt, alloc, &gate, 2, &jobs).ok()?)
}

fn alone(alloc: Global) -> Option<bool> {
    let verdict = check_one(alloc, &job(alloc, Pos(0))?).ok()?;
    Some(matches!(verdict, Verdict::Agrees))
}

#[test]
fn a_root_agrees(rt: HostRuntime) -> Result<(), Fail> {
    assert_eq!(rt; alone(rt.alloc()), Some(true));
    Ok(())
}

#[test]
fn verdicts_meet(rt: HostRuntime) -> Result<(), Fail> {
    let meeting = Meeting::new();
    assert_eq!(rt; in_pieces(&rt, rt.alloc(), &meeting), Some((true, false)));
    assert_eq!(rt; meeting.met(), 0b11);
    Ok(())
}

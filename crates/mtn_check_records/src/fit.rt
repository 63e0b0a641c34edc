// What is said of one position.
ghost use Rattle.std.specs.Prelude.{◌≡◌, IfOk};
ghost use Rattle.mtn_check_pieces.specs.Verdict.{IsRevisionOf, IsVerdict, IsWholeOf};
ghost use Rattle.mtn_check_records.specs.Due.{IsFound, IsFoundUnder};
ghost use Rattle.mtn_check_records.specs.Fitting.{AreAnswers, IsFitting};

use crate::due::records_fit;
use crate::hand::{Fit, JobAnswer, Position};
use crate::sound::is_sound;
use crate::text::is_under_id;
use mtn_base::{Id, NoMemory};
use mtn_changes::Revision;
use mtn_check_pieces::{CheckJob, Verdict, revision_of, roster_of};
use mtn_marking::MarkedRoster;
use mtn_ports::Ident;
use std::alloc::Global;

// What is found beside a text that names this manifest, and whose contents are held.
fn beside<I: Ident>(
    alloc: Global,
    ident: &I,
    position: &Position,
    job: &CheckJob,
    manifest: Id,
    stored: &MarkedRoster,
) -> Result<Fit, NoMemory>
    requires { IsWholeOf job.now.stored stored.now }
    ensures { IfOk result (IsFoundUnder (I.meaning ident.now) position.now job.now manifest) }
{
    if !is_sound(alloc, ident, stored.roster(), manifest)? {
        return Ok(Fit::OtherText);
    }
    records_fit(alloc, position, job, stored)
}

// What is found of a position whose text and stored record spell this.
fn found<I: Ident>(
    alloc: Global,
    ident: &I,
    position: &Position,
    job: &CheckJob,
    revision: &Revision,
    stored: &MarkedRoster,
) -> Result<Fit, NoMemory>
    requires read { IsRevisionOf job.now.text revision.now }
    requires spelled { IsWholeOf job.now.stored stored.now }
    ensures { IfOk result (IsFound (I.meaning ident.now) position.now job.now) }
{
    if !is_under_id(ident, job) {
        return Ok(Fit::OtherText);
    }
    if !position.held {
        return Ok(Fit::OtherText);
    }
    beside(alloc, ident, position, job, revision.manifest, stored)
}

// Where the job of a position agrees, whether its records are those of the revision that its text makes, or which of them is the
// first that is not. `Undecided` is no answer where the position was read behind a front.
fn fits<I: Ident>(
    alloc: Global,
    ident: &I,
    position: &Position,
    job: &CheckJob,
) -> Result<Fit, NoMemory>
    ensures { IfOk result (IsFitting (I.meaning ident.now) position.now job.now) }
{
    let Some(revision) = revision_of(alloc, job.text.as_slice())? else {
        return Ok(Fit::Undecided);
    };
    let Some(stored) = roster_of(alloc, &job.stored)? else {
        return Ok(Fit::Undecided);
    };
    found(alloc, ident, position, job, &revision, &stored)
}

/// Both answers on a position whose job has this verdict. Where it agrees, the text is read and the stored roster is rebuilt; then the
/// text and the manifest are hashed once each. It costs what walking over and numbering the stored roster, and a delta to it cost, and
/// takes memory for these.
pub fn judge_one<I: Ident>(
    alloc: Global,
    ident: &I,
    position: &Position,
    job: &CheckJob,
    verdict: Verdict,
) -> Result<JobAnswer, NoMemory>
    requires { IsVerdict job.now verdict }
    ensures { IfOk result (AreAnswers (I.meaning ident.now) position.now job.now) }
{
    match verdict {
        Verdict::Agrees => Ok(JobAnswer {
            verdict,
            fit: fits(alloc, ident, position, job)?,
        }),
        Verdict::Differs => Ok(JobAnswer {
            verdict,
            fit: Fit::Undecided,
        }),
    }
}

// Whether the positions of a stretch are sound.
ghost use Rattle.std.specs.Prelude.{◌≡◌, ◌≢◌, ◌≤◌, ◌++◌, ℕ, List, length, IfOk, IfSome, IsTrue};
ghost use Rattle.mtn_history.specs.Errors.{IfDamage};
ghost use Rattle.mtn_records.specs.Fields.{number_text};
ghost use Rattle.mtn_check_pieces.specs.Verdict.{IsAgreeing};
ghost use Rattle.mtn_check_pieces.specs.declared.job.CheckJob.{CheckJob as Job};
ghost use Rattle.mtn_check_records.specs.declared.hand.Position.{Position as At};
ghost use Rattle.mtn_check_records.specs.Fitting.{AnswersAll, AreAnswered, IsFitting};
ghost use Rattle.mtn_check_walk.specs.Stretches.{AreSound, Damages, IsShown};
ghost use Rattle.mtn_check_walk.specs.Judging.{IsJudged};

use mtn_base::NoMemory;
use mtn_check_hands::Stretch;
use mtn_check_log::bad;
use mtn_check_pieces::{CheckJob, Verdict};
use mtn_check_records::{Fit, JobAnswer, Position};
use mtn_history::{Damage, LOG, ROSTERS, StoreError, TEXTS};
use mtn_ports::Ident;
use std::alloc::Global;

/// What is found of a stretch: how many positions are sound, from its first on; and the damage of the one behind them, where the answers
/// on it tell it.
#[derive(Drop)]
pub struct Judged {
    pub sound: usize,
    pub damage: Option<StoreError>,
}

// Whether a position is sound that has these answers.
fn is_sound(answer: JobAnswer) -> bool
    ensures { IsTrue result → (answer.verdict ≡ Verdict.Agrees) × (answer.fit ≡ Fit.Fits) }
{
    matches!(answer.verdict, Verdict::Agrees) && matches!(answer.fit, Fit::Fits)
}

// How many positions agree and fit, up to the first that does not.
fn count_sound(answers: &[JobAnswer]) -> usize
    ensures within { result ≤ length answers.now }
    ensures sound { (f : List ℕ → List ℕ) (xs : List At) (jobs : List Job) → length answers.now ≡ length jobs → AreAnswered f xs jobs answers.now → AreSound f xs jobs result }
{
    for (place, answer) in answers.iter().enumerate() {
        if !is_sound(*answer) {
            return place;
        }
    }
    answers.len()
}

// The record of a text.
fn text_record(alloc: Global, job: &CheckJob) -> Result<Vec<u8>, NoMemory>
    ensures { IfOk result (λ v. v.items ≡ number_text job.now.at ++ job.now.text) }
{
    let mut body = Vec::new(alloc);
    body.extend_from_slice(&job.at.0.to_be_bytes())?;
    body.extend_from_slice(job.text.as_slice())?;
    Ok(body)
}

// The text's record is bad.
fn bad_text(alloc: Global, position: &Position, job: &CheckJob) -> StoreError
    ensures damaged { IfDamage result (λ d. d ≡ Damage.Bad 3 position.now.entry.id.0 (number_text job.now.at ++ job.now.text)) }
    ensures failed { result ≢ StoreError.Failed }
{
    match text_record(alloc, job) {
        Ok(body) => bad(alloc, TEXTS, &position.entry.id.0, &body),
        Err(NoMemory) => StoreError::NoMemory,
    }
}

// The damage of a position whose job agrees, if there is one.
fn show(alloc: Global, position: &Position, job: &CheckJob, fit: Fit) -> Option<StoreError>
    ensures shown { (f : List ℕ → List ℕ) → IsFitting f position.now job.now fit → IsAgreeing job.now → IfSome result (λ e. IfDamage e (Damages f position.now job.now)) }
    ensures failed { IfSome result (λ e. e ≢ StoreError.Failed) }
{
    let at = job.at.0.to_be_bytes();
    match fit {
        Fit::OtherText => Some(bad_text(alloc, position, job)),
        Fit::OtherLog => Some(bad(alloc, LOG, &at, &position.log)),
        Fit::OtherRoster => Some(bad(alloc, ROSTERS, &at, &position.roster)),
        Fit::Fits | Fit::Undecided => None,
    }
}

// The damage of the position at a place, if the answers on it tell one.
fn damage_at(
    alloc: Global,
    positions: &[Position],
    jobs: &[CheckJob],
    place: usize,
    answers: &[JobAnswer],
) -> Option<StoreError>
    requires same { length positions.now ≡ length jobs.now }
    requires answers { length answers.now ≡ length jobs.now }
    ensures shown { (f : List ℕ → List ℕ) → AreAnswered f positions.now jobs.now answers.now → IfSome result (IsShown f positions.now jobs.now place) }
    ensures failed { IfSome result (λ e. e ≢ StoreError.Failed) }
{
    if place >= answers.len() {
        return None;
    }
    let answer = answers[place];
    match answer.verdict {
        Verdict::Agrees => show(alloc, &positions[place], &jobs[place], answer.fit),
        Verdict::Differs => None,
    }
}

// What the answers tell of a stretch.
fn found_in(
    alloc: Global,
    positions: &[Position],
    jobs: &[CheckJob],
    answers: &[JobAnswer],
) -> Judged
    requires same { length positions.now ≡ length jobs.now }
    requires answers { length answers.now ≡ length jobs.now }
    ensures within { result.sound ≤ length jobs.now }
    ensures sound { (f : List ℕ → List ℕ) → AreAnswered f positions.now jobs.now answers.now → AreSound f positions.now jobs.now result.sound }
    ensures shown { (f : List ℕ → List ℕ) → AreAnswered f positions.now jobs.now answers.now → IfSome result.damage (IsShown f positions.now jobs.now result.sound) }
    ensures failed { IfSome result.damage (λ e. e ≢ StoreError.Failed) }
{
    let sound = count_sound(answers);
    let damage = damage_at(alloc, positions, jobs, sound, answers);
    Judged { sound, damage }
}

/// How many positions of a stretch are sound, up to the first that may not be, and the damage of that one where its job agrees, by the
/// answers on all of them, if there was memory for these.
pub fn tell<I: Ident>(
    alloc: Global,
    ident: &I,
    stretch: &Stretch,
    answers: Result<Vec<JobAnswer>, NoMemory>,
) -> Result<Judged, NoMemory>
    requires same { length stretch.now.positions.items ≡ length stretch.now.jobs.items }
    requires answers { IfOk answers (λ v. AnswersAll (I.meaning ident.now) stretch.now.positions.items stretch.now.jobs.items v.items) }
    ensures { IfOk result (IsJudged (I.meaning ident.now) stretch.now) }
{
    let _ = ident;
    let answers = answers?;
    Ok(found_in(alloc, &stretch.positions, &stretch.jobs, &answers))
}

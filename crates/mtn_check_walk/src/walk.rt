// The walk along the log, in stretches.
ghost use Rattle.std.specs.Prelude.{◌≡◌, ◌<◌, ◌≤◌, ◌+◌, ◌++◌, ◌^◌, ℕ, Err, IfErr, IfOk, IfSome, MatchResult, OnOk, length};
ghost use Rattle.mtn_ports.specs.Causes.{Rose};
ghost use Rattle.mtn_ports.specs.Kept.{Stays};
ghost use Rattle.mtn_history.specs.Errors.{IfDamage};
ghost use Rattle.mtn_check_laws.specs.FirstDamage.{IsBegun, IsDamageAt};
ghost use Rattle.mtn_check_laws.specs.Fronts.{Front, IsFrontAt};
ghost use Rattle.mtn_check_log.specs.Positions.{IsFirstIn, IsWalkedTo};
ghost use Rattle.mtn_check_records.specs.Fitting.{AnswersAll};
ghost use Rattle.mtn_check_walk.specs.Walks.{IsLaidOut, IsNextStretch, IsReadBehind};
ghost use Rattle.mtn_check_walk.specs.Judging.{IsJudged};
ghost use Rattle.mtn_check_hands.specs.Hands.{AreRead, NoneFrom};

use crate::Errand;
use crate::judging::{Judged, tell};
use mtn_base::NoMemory;
use mtn_check_hands::{Hands, Stretch, load_stretch};
use mtn_check_log::walk_from;
use mtn_check_pieces::CheckJob;
use mtn_check_records::{JobAnswer, Position, judge_run};
use mtn_history::StoreError;
use mtn_pieces::MAX_PIECES;
use mtn_ports::{Ident, Keeper};
use std::alloc::Global;
use std::thread::{Threads, join_mut};

// The most positions of the first stretch, which is read with nothing judged beside it. The next may have twice as many, and so on.
const FIRST_POSITIONS: u64 = 32;

// The most positions of any: sixty-four lots of four jobs, so that threads wait for one another but once in so many.
const MAX_POSITIONS: u64 = 256;

/// A walk that stands at a position, with the stretch that was read there, and what is at hand behind that.
#[derive(Drop)]
pub struct Walk {
    pub at: u64,
    pub stretch: Stretch,
    pub hands: Hands,
}

/// A stretch read behind another: what is found of that, and the walk behind it.
#[derive(Drop)]
pub struct Ahead {
    pub judged: Judged,
    pub walk: Walk,
}

/// What is to be read: the positions from one on, of so many that the log has, and the most of them.
#[derive(Clone, Copy)]
pub struct Extent {
    pub from: u64,
    pub count: u64,
    pub most: u64,
}

/// How positions are shared out that are judged: so many runs go to threads of their own, of which the first is the piece with this
/// number, and the thread that reads has so many positions.
#[derive(Clone, Copy)]
pub struct Shares {
    pub piece: usize,
    pub runs: usize,
    pub own: usize,
}

// Reads a stretch with nothing at hand, where the walk has come.
fn begin_at<I: Ident, K: Keeper>(
    alloc: Global,
    ident: &I,
    keeper: &mut K,
    count: u64,
    at: u64,
) -> Result<Walk, StoreError>
    requires walked { IfSome (K.contents keeper.old) (IsWalkedTo (I.meaning ident.now) count at) }
    requires within { at ≤ count }
    ensures stays { Stays K.contents K.leaves K.faults keeper.old keeper.new }
    ensures read { IfSome (K.contents keeper.new) (λ c. IfOk result (λ walk. IsReadBehind (I.meaning ident.now) count walk c)) }
    ensures laid_out { IfOk result (IsLaidOut count) }
    ensures at { IfOk result (λ walk. walk.at ≡ at) }
    ensures sound { IfErr result (λ e. IfDamage e (λ _. ⊥)) }
    ensures failed { result ≡ Err StoreError.Failed → Rose (K.faults keeper.old) (K.faults keeper.new) }
{
    let _ = ident;
    let mut hands = Hands::new(alloc);
    let stretch = load_stretch(alloc, keeper, &mut hands, at, count, FIRST_POSITIONS)?;
    Ok(Walk { at, stretch, hands })
}

// Reads a stretch, with a step of an errand behind it.
fn read_and_go<K: Keeper, E: Errand>(
    alloc: Global,
    keeper: &mut K,
    errand: &mut E,
    hands: &mut Hands,
    extent: Extent,
) -> Result<Stretch, StoreError>
    requires none { NoneFrom extent.from hands.old }
    requires within { extent.from ≤ extent.count }
    requires held { IfSome (K.contents keeper.old) (E.holds errand.old extent.count) }
    ensures stays { Stays K.contents K.leaves K.faults keeper.old keeper.new }
    ensures long { IfOk result (λ stretch. length stretch.positions.items ≡ length stretch.jobs.items) }
    ensures within { IfOk result (λ stretch. extent.from + length stretch.jobs.items ≤ extent.count) }
    ensures none { IfOk result (λ stretch. NoneFrom (extent.from + length stretch.jobs.items) hands.new) }
    ensures read { IfSome (K.contents keeper.new) (λ c. IfOk result (λ stretch. AreRead c extent.from hands.old stretch.positions.items stretch.jobs.items hands.new)) }
    ensures held { IfSome (K.contents keeper.new) (E.holds errand.new extent.count) }
    ensures sound { IfErr result (λ e. IfDamage e (λ _. ⊥)) }
    ensures failed { result ≡ Err StoreError.Failed → Rose (K.faults keeper.old) (K.faults keeper.new) }
{
    let stretch = load_stretch(alloc, keeper, hands, extent.from, extent.count, extent.most)?;
    errand.go(alloc, extent.count, keeper)?;
    Ok(stretch)
}

// How many positions the stretch behind one may have.
fn most_behind(stretch: &Stretch) -> u64 {
    let len = stretch.jobs.len() as u64;
    len.saturating_add(len).min(MAX_POSITIONS)
}

// How so many positions are shared out in so many pieces, of which the thread that reads judges one: an equal share, or half of one
// where there is more to read.
fn shares_of(pieces: usize, positions: usize, reads: bool) -> Shares
    ensures first { result.piece ≡ 0 }
    ensures runs { result.runs ≤ positions }
    ensures own { result.own ≤ positions }
{
    let pieces = pieces.max(1).min(MAX_PIECES);
    let share = positions / pieces;
    Shares {
        piece: 0,
        runs: positions.min(pieces - 1),
        own: if reads { share / 2 } else { share },
    }
}

// The answers on some positions, and behind them those on others.
fn in_a_row(
    front: Result<Vec<JobAnswer>, NoMemory>,
    rest: Result<Vec<JobAnswer>, NoMemory>,
) -> Result<Vec<JobAnswer>, NoMemory>
    ensures { IfOk result (λ v. MatchResult front (λ a. MatchResult rest (λ b. v.items ≡ a.items ++ b.items) (λ _. ⊥)) (λ _. ⊥)) }
{
    let mut answers = front?;
    let mut more = rest?;
    answers.append(&mut more)?;
    Ok(answers)
}

// Judges some positions, and reads the stretch behind them, with a step of an errand. This thread begins all runs, since threads that
// others begin share processors with these for a while. Then it reads, and judges its own positions, or what the runs leave, as the
// last piece.
#[cycle(beside)]
fn judge_beside<R: Threads + Sync, I: Ident, K: Keeper, E: Errand>(
    rt: &R,
    alloc: Global,
    ident: &I,
    shares: Shares,
    positions: &[Position],
    jobs: &[CheckJob],
    keeper: &mut K,
    errand: &mut E,
    hands: &mut Hands,
    extent: Extent,
) -> (
    Result<Vec<JobAnswer>, NoMemory>,
    Result<Stretch, StoreError>,
)
    requires same { length positions.now ≡ length jobs.now }
    requires own { shares.own ≤ length jobs.now }
    requires pieces { shares.piece + shares.runs < 2 ^ 64 }
    requires none { NoneFrom extent.from hands.old }
    requires within { extent.from ≤ extent.count }
    requires held { IfSome (K.contents keeper.old) (E.holds errand.old extent.count) }
    ensures answers { IfOk result.0 (λ v. AnswersAll (I.meaning ident.now) positions.now jobs.now v.items) }
    ensures next { IsNextStretch K.contents K.leaves K.faults (E.holds errand.new extent.count) extent.from extent.count keeper.old keeper.new hands.old hands.new result.1 }
{
    let Shares { piece, runs, own } = shares;
    if runs == 0 {
        let next = read_and_go(alloc, keeper, errand, hands, extent);
        return (judge_run(rt, alloc, ident, piece, positions, jobs), next);
    }
    let size = (jobs.len() - own) / runs;
    let (low, high) = positions.split_at(size);
    let (left, right) = jobs.split_at(size);
    let rest = Shares {
        piece: piece + 1,
        runs: runs - 1,
        own,
    };
    let (front, (behind, next)) = join_mut(
        rt,
        &mut || -> Result<Vec<JobAnswer>, NoMemory>
            requires { length low.now ≡ length left.now }
            ensures { IfOk result (λ v. AnswersAll (I.meaning ident.entry.now) low.entry.now left.entry.now v.items) }
        { judge_run(rt, alloc, ident, piece, low, left) },
        &mut || -> (
            Result<Vec<JobAnswer>, NoMemory>,
            Result<Stretch, StoreError>,
        )
            requires { (length high.now ≡ length right.now) × (rest.own ≤ length right.now) × (rest.piece + rest.runs < 2 ^ 64) × NoneFrom extent.from hands.now × (extent.from ≤ extent.count) × IfSome (K.contents keeper.now) (E.holds errand.now extent.count) }
            ensures { IfOk result.0 (λ v. AnswersAll (I.meaning ident.entry.now) high.entry.now right.entry.now v.items) ×
                IsNextStretch K.contents K.leaves K.faults (E.holds errand.exit.now extent.count) extent.from extent.count keeper.entry.now keeper.exit.now hands.entry.now hands.exit.now result.1 }
        {
            judge_beside(
                rt, alloc, ident, rest, high, right, keeper, errand, hands, extent,
            )
        },
    );
    (in_a_row(front, behind), next)
}

// Judges a stretch in so many pieces beside one another, and reads the one behind it.
fn judge_and_read<R: Threads + Sync, I: Ident, K: Keeper, E: Errand>(
    rt: &R,
    alloc: Global,
    ident: &I,
    pieces: usize,
    stretch: &Stretch,
    keeper: &mut K,
    errand: &mut E,
    hands: &mut Hands,
    extent: Extent,
) -> (Result<Judged, NoMemory>, Result<Stretch, StoreError>)
    requires same { length stretch.now.positions.items ≡ length stretch.now.jobs.items }
    requires none { NoneFrom extent.from hands.old }
    requires within { extent.from ≤ extent.count }
    requires held { IfSome (K.contents keeper.old) (E.holds errand.old extent.count) }
    ensures judged { IfOk result.0 (IsJudged (I.meaning ident.now) stretch.now) }
    ensures next { IsNextStretch K.contents K.leaves K.faults (E.holds errand.new extent.count) extent.from extent.count keeper.old keeper.new hands.old hands.new result.1 }
{
    let shares = shares_of(pieces, stretch.jobs.len(), extent.from < extent.count);
    let (answers, next) = judge_beside(
        rt,
        alloc,
        ident,
        shares,
        &stretch.positions,
        &stretch.jobs,
        keeper,
        errand,
        hands,
        extent,
    );
    (tell(alloc, ident, stretch, answers), next)
}

// Judges the stretch of a walk, and reads the next one behind it, with a step of an errand.
fn look_ahead<R: Threads + Sync, I: Ident, K: Keeper, E: Errand>(
    rt: &R,
    alloc: Global,
    ident: &I,
    pieces: usize,
    count: u64,
    keeper: &mut K,
    errand: &mut E,
    walk: Walk,
) -> Result<Ahead, StoreError>
    requires read { IfSome (K.contents keeper.old) (IsReadBehind (I.meaning ident.now) count walk) }
    requires laid_out { IsLaidOut count walk }
    requires held { IfSome (K.contents keeper.old) (E.holds errand.old count) }
    ensures held { IfSome (K.contents keeper.new) (E.holds errand.new count) }
    ensures stays { Stays K.contents K.leaves K.faults keeper.old keeper.new }
    ensures walked { IfSome (K.contents keeper.new) (λ c. IfOk result (λ ahead. IsWalkedTo (I.meaning ident.now) count (walk.at + ahead.judged.sound) c)) }
    ensures read { IfSome (K.contents keeper.new) (λ c. IfOk result (λ ahead. ahead.judged.sound ≡ length walk.stretch.jobs.items → IsReadBehind (I.meaning ident.now) count ahead.walk c)) }
    ensures shown { IfSome (K.contents keeper.new) (λ c. IfOk result (λ ahead. IfSome ahead.judged.damage (λ e. IfDamage e (IsFirstIn (I.meaning ident.now) count c)))) }
    ensures laid_out { IfOk result (λ ahead. IsLaidOut count ahead.walk) }
    ensures at { IfOk result (λ ahead. ahead.walk.at ≡ walk.at + length walk.stretch.jobs.items) }
    ensures judged { IfOk result (λ ahead. IsJudged (I.meaning ident.now) walk.stretch ahead.judged) }
    ensures sound { IfErr result (λ e. IfDamage e (λ _. ⊥)) }
    ensures failed { result ≡ Err StoreError.Failed → Rose (K.faults keeper.old) (K.faults keeper.new) }
{
    let Walk {
        at,
        stretch,
        mut hands,
    } = walk;
    let extent = Extent {
        from: at + stretch.jobs.len() as u64,
        count,
        most: most_behind(&stretch),
    };
    let (judged, next) = judge_and_read(
        rt, alloc, ident, pieces, &stretch, keeper, errand, &mut hands, extent,
    );
    let judged = judged?;
    let walk = Walk {
        at: extent.from,
        stretch: next?,
        hands,
    };
    Ok(Ahead { judged, walk })
}

// Goes over a position by its text accepted again, and begins behind it.
fn go_over<I: Ident, K: Keeper>(
    alloc: Global,
    ident: &I,
    keeper: &mut K,
    count: u64,
    at: u64,
) -> Result<Walk, StoreError>
    requires walked { IfSome (K.contents keeper.old) (IsWalkedTo (I.meaning ident.now) count at) }
    requires within { at < count }
    ensures stays { Stays K.contents K.leaves K.faults keeper.old keeper.new }
    ensures read { IfSome (K.contents keeper.new) (λ c. IfOk result (λ walk. IsReadBehind (I.meaning ident.now) count walk c)) }
    ensures laid_out { IfOk result (IsLaidOut count) }
    ensures at { IfOk result (λ walk. walk.at ≡ at + 1) }
    ensures damaged { IfSome (K.contents keeper.new) (λ c. IfErr result (λ e. IfDamage e (IsFirstIn (I.meaning ident.now) count c))) }
    ensures failed { result ≡ Err StoreError.Failed → Rose (K.faults keeper.old) (K.faults keeper.new) }
{
    walk_from(alloc, ident, keeper, count, at, at + 1)?;
    begin_at(alloc, ident, keeper, count, at + 1)
}

// Goes behind the stretch of a walk, or behind the first position in it that is not sound.
fn go_on<R: Threads + Sync, I: Ident, K: Keeper, E: Errand>(
    rt: &R,
    alloc: Global,
    ident: &I,
    pieces: usize,
    count: u64,
    keeper: &mut K,
    errand: &mut E,
    walk: Walk,
) -> Result<Walk, StoreError>
    requires read { IfSome (K.contents keeper.old) (IsReadBehind (I.meaning ident.now) count walk) }
    requires laid_out { IsLaidOut count walk }
    requires held { IfSome (K.contents keeper.old) (E.holds errand.old count) }
    requires within { walk.at < count }
    ensures held { IfSome (K.contents keeper.new) (E.holds errand.new count) }
    ensures stays { Stays K.contents K.leaves K.faults keeper.old keeper.new }
    ensures read { IfSome (K.contents keeper.new) (λ c. IfOk result (λ next. IsReadBehind (I.meaning ident.now) count next c)) }
    ensures laid_out { IfOk result (IsLaidOut count) }
    ensures further { IfOk result (λ next. walk.at < next.at) }
    ensures damaged { IfSome (K.contents keeper.new) (λ c. IfErr result (λ e. IfDamage e (IsFirstIn (I.meaning ident.now) count c))) }
    ensures failed { result ≡ Err StoreError.Failed → Rose (K.faults keeper.old) (K.faults keeper.new) }
{
    let at = walk.at;
    let len = walk.stretch.jobs.len();
    if len == 0 {
        return go_over(alloc, ident, keeper, count, at);
    }
    let ahead = look_ahead(rt, alloc, ident, pieces, count, keeper, errand, walk)?;
    let Ahead { judged, walk } = ahead;
    if judged.sound == len {
        return Ok(walk);
    }
    match judged.damage {
        Some(error) => Err(error),
        None => go_over(alloc, ident, keeper, count, at + judged.sound as u64),
    }
}

/// As `mtn_check_log::walk_log`, in stretches of positions, of which the jobs of each are checked in so many pieces, while the next one
/// is read and a step of an errand is done. A text is accepted again, as `walk_log` does it, only where the job of its position
/// differs, or the records there give none.
pub fn walk_jobs<R: Threads + Sync, I: Ident, K: Keeper, E: Errand>(
    rt: &R,
    alloc: Global,
    ident: &I,
    pieces: usize,
    count: u64,
    keeper: &mut K,
    errand: &mut E,
) -> Result<(), StoreError>
    requires begun { IfSome (K.contents keeper.old) (λ c. IsBegun (I.meaning ident.now) c count) }
    requires held { IfSome (K.contents keeper.old) (E.holds errand.old count) }
    ensures held { IfSome (K.contents keeper.new) (E.holds errand.new count) }
    ensures stays { Stays K.contents K.leaves K.faults keeper.old keeper.new }
    ensures walked { IfSome (K.contents keeper.new) (λ c. OnOk result ((front : Front) × IsFrontAt (I.meaning ident.now) c count front)) }
    ensures damaged { IfSome (K.contents keeper.new) (λ c. IfErr result (λ e. IfDamage e
        (λ d. (r : ℕ) × (front : Front) × (r < count) × IsFrontAt (I.meaning ident.now) c r front × IsDamageAt (I.meaning ident.now) c r front d))) }
    ensures failed { result ≡ Err StoreError.Failed → Rose (K.faults keeper.old) (K.faults keeper.new) }
{
    let mut walk = begin_at(alloc, ident, keeper, count, 0)?;
    while walk.at < count {
        walk = go_on(rt, alloc, ident, pieces, count, keeper, errand, walk)?;
    }
    Ok(())
}

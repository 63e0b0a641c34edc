// A command over a draft of the keeper, or over the keeper itself.
ghost use Rattle.std.specs.Prelude.{◌≡◌, ◌≢◌, IfSome, Some, true};
ghost use Rattle.mtn_cli.specs.Step.{Step, StepIn};
ghost use Rattle.mtn_cli.specs.Store.{IsFirstLine, IsLine, IsOldStore, MeetsDamage, ShowsDamage, bounds, bounds_in, changes, changes_of, checks_store, is_checking, is_merging, is_migrating, is_reading, is_spelled, job_checking, job_migrating, job_reading, migrates_store};
ghost use Rattle.mtn_commands.specs.Drafts.{may_conflict, reads_packets};
ghost use Rattle.mtn_frame.specs.Script.{BoundsJob, ChangesJob, Does};
ghost use Rattle.mtn_frame.specs.Works.{Works, is_merging as job_merging, is_spelled as job_spelled, is_vouching as job_vouching};
ghost use Rattle.mtn_history.specs.Memory.{Knows};
ghost use Rattle.mtn_model.specs.Table.{Contents};
ghost use Rattle.mtn_ports.specs.Kept.{with_all};
ghost use Rattle.mtn_old_stores.specs.Stores.{StandsIn};

use crate::check::{check, first_shown};
use crate::damage::{tell, whole};
use crate::migrate::migrate_store;
use mtn_base::{Bytes, Cause, Refusal};
use mtn_commands::perform::perform;
use mtn_frame::{Job, WorkError, Worked};
use mtn_history::{Draft, Memory, Pending};
use mtn_ports::{Batch, Ident, Keeper};
use mtn_step::Call;
use mtn_words::{WordsError, read_words};
use std::alloc::Global;
use std::mem;
use std::thread::Threads;

// What is remembered where nothing is put: all of it if nothing was pending, else nothing.
fn kept(alloc: Global, batch: &Batch, remembered: Memory) -> Memory
    ensures { (c : Contents) → Knows remembered (with_all c batch.now) → Knows result c }
{
    if batch.len() == 0 {
        remembered
    } else {
        Memory::new(alloc)
    }
}

// The command's work over the keeper, which it only reads. What was remembered goes to the draft and comes back; where an
// error leaves something pending it is forgotten.
fn work_on<R: Threads + Sync, I: Ident, K: Keeper>(
    rt: &R,
    alloc: Global,
    call: &Call,
    ident: &I,
    payload: Bytes,
    memory: &mut Memory,
    keeper: &mut K,
) -> Result<Worked, WorkError>
    requires known { IfSome (K.contents keeper.old) (Knows memory.old) }
    requires unchecked { call.now ≢ Call.Check }
    requires unmigrated { call.now ≢ Call.Migrate }
    ensures { Works (StandsIn (I.meaning ident.now)) (MeetsDamage (I.meaning ident.now) (reads_packets (Some call.now) ≡ true)) (IsFirstLine (I.meaning ident.now)) IsOldStore IsLine Knows K.contents K.leaves K.faults K.reads keeper.old keeper.new memory.new
        true (may_conflict (Some call.now)) (checks_store (Some call.now)) (StepIn (I.meaning ident.now) (Some call.now) payload) (bounds_in (I.meaning ident.now) (Some call.now) payload) (changes_of (I.meaning ident.now) (Some call.now) payload) result }
{
    let pending = match Pending::open(alloc, memory, keeper) {
        Ok(pending) => pending,
        Err(error) => return Err(tell(alloc, whole(error))),
    };
    let remembered = mem::replace(memory, Memory::new(alloc));
    let mut draft = Draft::new(keeper, pending, remembered);
    let worked = perform(rt, alloc, call, ident, payload, &mut draft);
    let (keeper, pending, remembered) = draft.into_parts();
    let _ = keeper;
    match worked {
        Ok(reply) => {
            *memory = remembered;
            Ok(Worked {
                reply,
                batch: pending.batch,
            })
        }
        Err(error) => {
            *memory = kept(alloc, &pending.batch, remembered);
            Err(tell(alloc, error))
        }
    }
}

// Whether a command puts texts one behind the other, so that what it meets may be no damage of the store's records alone.
fn puts_many(call: &Call) -> bool
    ensures { result ≡ reads_packets (Some call.now) }
{
    matches!(call, Call::Read | Call::Generate { .. })
}

// The command's work over the keeper, whose damage is shown as one of the store's own records, or as its first.
fn work_shown<R: Threads + Sync, I: Ident, K: Keeper>(
    rt: &R,
    alloc: Global,
    call: &Call,
    ident: &I,
    payload: Bytes,
    memory: &mut Memory,
    keeper: &mut K,
) -> Result<Worked, WorkError>
    requires known { IfSome (K.contents keeper.old) (Knows memory.old) }
    requires unchecked { call.now ≢ Call.Check }
    requires unmigrated { call.now ≢ Call.Migrate }
    ensures { Works (StandsIn (I.meaning ident.now)) (ShowsDamage (I.meaning ident.now) (reads_packets (Some call.now) ≡ true) (checks_store (Some call.now) ≡ true) (migrates_store (Some call.now) ≡ true)) (IsFirstLine (I.meaning ident.now)) IsOldStore IsLine Knows K.contents K.leaves K.faults K.reads keeper.old keeper.new memory.new
        true (may_conflict (Some call.now)) (checks_store (Some call.now)) (StepIn (I.meaning ident.now) (Some call.now) payload) (bounds_in (I.meaning ident.now) (Some call.now) payload) (changes_of (I.meaning ident.now) (Some call.now) payload) result }
{
    let worked = work_on(rt, alloc, call, ident, payload, memory, keeper);
    if !puts_many(call) {
        return worked;
    }
    match worked {
        Ok(done) => Ok(done),
        Err(WorkError::Damaged { line }) => Err(first_shown(rt, alloc, ident, line, keeper)),
        Err(WorkError::Refused { refusal }) => Err(WorkError::Refused { refusal }),
        Err(WorkError::Usage) => Err(WorkError::Usage),
        Err(WorkError::Failed) => Err(WorkError::Failed),
        Err(WorkError::NoMemory) => Err(WorkError::NoMemory),
    }
}

// The work of any command: the check of the store and the migration of an older one go over the keeper itself, and every other over
// a draft.
fn work_call<R: Threads + Sync, I: Ident, K: Keeper>(
    rt: &R,
    alloc: Global,
    call: &Call,
    ident: &I,
    payload: Bytes,
    memory: &mut Memory,
    keeper: &mut K,
) -> Result<Worked, WorkError>
    requires { IfSome (K.contents keeper.old) (Knows memory.old) }
    ensures { Works (StandsIn (I.meaning ident.now)) (ShowsDamage (I.meaning ident.now) (reads_packets (Some call.now) ≡ true) (checks_store (Some call.now) ≡ true) (migrates_store (Some call.now) ≡ true)) (IsFirstLine (I.meaning ident.now)) IsOldStore IsLine Knows K.contents K.leaves K.faults K.reads keeper.old keeper.new memory.new
        true (may_conflict (Some call.now)) (checks_store (Some call.now)) (StepIn (I.meaning ident.now) (Some call.now) payload) (bounds_in (I.meaning ident.now) (Some call.now) payload) (changes_of (I.meaning ident.now) (Some call.now) payload) result }
{
    match call {
        Call::Check => check(rt, alloc, ident, keeper),
        Call::Migrate => {
            *memory = Memory::new(alloc);
            migrate_store(alloc, payload.as_slice(), keeper)
        }
        _ => work_shown(rt, alloc, call, ident, payload, memory, keeper),
    }
}

// What words with a payload come to.
fn work_words<R: Threads + Sync, I: Ident, K: Keeper>(
    rt: &R,
    alloc: Global,
    ident: &I,
    words: &[Bytes],
    payload: Bytes,
    memory: &mut Memory,
    keeper: &mut K,
) -> Result<Worked, WorkError>
    requires { IfSome (K.contents keeper.old) (Knows memory.old) }
    ensures { Works (StandsIn (I.meaning ident.now)) (ShowsDamage (I.meaning ident.now) (is_reading words.now ≡ true) (is_checking words.now ≡ true) (is_migrating words.now ≡ true)) (IsFirstLine (I.meaning ident.now)) IsOldStore IsLine Knows K.contents K.leaves K.faults K.reads keeper.old keeper.new memory.new
        (is_spelled words.now) (is_merging words.now) (is_checking words.now) (Step (I.meaning ident.now) words.now payload) (bounds (I.meaning ident.now) words.now payload) (changes (I.meaning ident.now) words.now payload) result }
{
    match read_words(alloc, words) {
        Ok(call) => work_call(rt, alloc, &call, ident, payload, memory, keeper),
        Err(WordsError::Usage) => Err(WorkError::Usage),
        Err(WordsError::NoMemory) => Err(WorkError::NoMemory),
    }
}

/// What a job comes to.
pub fn work_job<R: Threads + Sync, I: Ident, K: Keeper>(
    rt: &R,
    alloc: Global,
    ident: &I,
    job: Job,
    memory: &mut Memory,
    keeper: &mut K,
) -> Result<Worked, WorkError>
    requires { IfSome (K.contents keeper.old) (Knows memory.old) }
    ensures { Works (StandsIn (I.meaning ident.now)) (ShowsDamage (I.meaning ident.now) (job_reading job ≡ true) (job_checking job ≡ true) (job_migrating job ≡ true)) (IsFirstLine (I.meaning ident.now)) IsOldStore IsLine Knows K.contents K.leaves K.faults K.reads keeper.old keeper.new memory.new
        (job_spelled is_spelled job) (job_merging is_merging job) (job_vouching is_checking job) (Does (Step (I.meaning ident.now)) job) (BoundsJob (bounds (I.meaning ident.now)) job) (ChangesJob (changes (I.meaning ident.now)) job) result }
{
    match job {
        Job::Call { words, payload } => {
            work_words(rt, alloc, ident, words.as_slice(), payload, memory, keeper)
        }
        Job::BadInput { number } => Err(WorkError::Refused {
            refusal: Refusal {
                packet: 0,
                cause: Cause::BadRequest { number },
            },
        }),
    }
}

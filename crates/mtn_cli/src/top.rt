// The top call.
ghost use Rattle.std.specs.Prelude.{◌≡◌, IfOk};
ghost use Rattle.mtn_cli.specs.Run.{AtMost, ChecksAreSound, ChecksStore, HeadsMergesAreDecided, MergesAreDecided, MigratesStore, OldStoresMigrate, OrderFree, Outcomes, ReadsPackets, Scripts, StaysLawful, is_read};
ghost use Rattle.mtn_cli.specs.Step.{Step};
ghost use Rattle.mtn_cli.specs.Store.{IsFirstLine, IsLine, IsOldStore, ShowsDamage, bounds, changes, is_checking, is_merging, is_spelled};
ghost use Rattle.mtn_frame.specs.Frame.{AsksFew, Completes, HasCauses, LeavesRecords, Meets, Survives, TellsDamage, Vouches, Writes};
ghost use Rattle.mtn_frame.specs.Payload.{takes_last as takes_payload};
ghost use Rattle.mtn_frame.specs.Script.{Does, IsScript, is_session as session_words};
ghost use Rattle.mtn_frame.specs.Top.{ComesTo, Runs, fed, in_grammar, is_merge, is_vouch, reads};
ghost use Rattle.mtn_history.specs.Stands.{Stands};
ghost use Rattle.mtn_old_stores.specs.Stores.{StandsIn};

use crate::script::script_of;
use crate::session::run_script;
use mtn_base::{Bytes, NoMemory};
use mtn_frame::{ReadStop, feed, is_session, takes_last};
use mtn_model::Status;
use mtn_old_stores::one_migration;
use mtn_ports::{Ident, Keeper, Sink, Source};
use mtn_words::is_command;
use std::alloc::Global;
use std::thread::Threads;

/// Whether the words are in the grammar: those of a command, or of a session.
pub fn are_words(alloc: Global, words: &[Bytes]) -> Result<bool, NoMemory>
    ensures { IfOk result (λ b. b ≡ in_grammar is_spelled words.now) }
{
    if is_session(words) {
        return Ok(true);
    }
    is_command(alloc, words)
}

// Whether the source is read.
fn reads_source(alloc: Global, words: &[Bytes]) -> Result<bool, NoMemory>
    ensures { IfOk result (λ b. b ≡ reads is_spelled takes_payload words.now) }
{
    if is_session(words) {
        return Ok(true);
    }
    let spelled = is_command(alloc, words)?;
    Ok(spelled && takes_last(words))
}

// The top call under one clause.
fn run_words<R: Threads + Sync, I: Ident, S: Source, O: Sink, K: Keeper>(
    rt: &R,
    alloc: Global,
    words: &[Bytes],
    ident: &I,
    source: &mut S,
    sink: &mut O,
    keeper: &mut K,
) -> Status
    ensures { Runs (StandsIn (I.meaning ident.now)) (ShowsDamage (I.meaning ident.now) (ReadsPackets words.now (S.left source.old) (S.left source.new)) (ChecksStore words.now (S.left source.old) (S.left source.new)) (MigratesStore words.now (S.left source.old) (S.left source.new))) (IsFirstLine (I.meaning ident.now)) IsOldStore IsLine (Does (Step (I.meaning ident.now))) (λ input. bounds (I.meaning ident.now) words.now (fed (reads is_spelled takes_payload words.now) input)) (λ input. changes (I.meaning ident.now) words.now (fed (reads is_spelled takes_payload words.now) input)) (Step (I.meaning ident.now) words.now) (λ input. IsScript takes_payload words.now (fed (reads is_spelled takes_payload words.now) input))
        (session_words words.now) (in_grammar is_spelled words.now) (is_merge is_merging words.now) (is_vouch is_checking words.now) (reads is_spelled takes_payload words.now)
        (record { contents = K.contents keeper.old; left = S.left source.old; written = O.written sink.old })
        (record { contents = K.contents keeper.new; left = S.left source.new; written = O.written sink.new })
        (record { keeper = K.faults keeper.old; source = S.faults source.old; sink = O.faults sink.old; reads = K.reads keeper.old })
        (record { keeper = K.faults keeper.new; source = S.faults source.new; sink = O.faults sink.new; reads = K.reads keeper.new })
        (K.leaves keeper.old) (K.leaves keeper.new) result }
{
    let Ok(reads) = reads_source(alloc, words) else {
        return Status::NoMemory;
    };
    let input = match feed(alloc, reads, source) {
        Ok(input) => input,
        Err(ReadStop::Failed) => return Status::SourceFault,
        Err(ReadStop::TooLong) => return Status::TooLong,
        Err(ReadStop::NoMemory) => return Status::NoMemory,
    };
    match script_of(alloc, words, input) {
        Ok(script) => run_script(rt, alloc, ident, script, sink, keeper),
        Err(NoMemory) => Status::NoMemory,
    }
}

/// Does one command over a store, or with the word `stdio` a session of requests: reads the words, then, if they ask for it,
/// the source to its end; then each command's answer is computed whole, its records are put by one call of the keeper, if there
/// are any, and the answer is written. A command without a payload, and words outside the grammar, leave the source as it was.
///
/// A store of the older form is taken to the present one by `migrate` alone; every other command over it is refused.
///
/// A single command with a status of 1 to 4 or 6 to 9 leaves the keeper's contents as they were; where the sink fails it was
/// done. A session that ends in 5, 6, 7 or 8 has done the requests that it answered, and where the sink failed the one whose
/// answer was being written. The input is read up to 268,435,456 bytes, in pieces of 64 KiB into one buffer. Nothing takes memory
/// behind a call that puts records. `rt` is for commands that work on several threads.
pub fn run<R: Threads + Sync, I: Ident, S: Source, O: Sink, K: Keeper>(
    rt: &R,
    alloc: Global,
    words: &[Bytes],
    ident: &I,
    source: &mut S,
    sink: &mut O,
    keeper: &mut K,
) -> Status
    ensures meets { Meets (StandsIn (I.meaning ident.now)) (Outcomes (I.meaning ident.now)) (Scripts words.now) (is_read words.now)
        (record { contents = K.contents keeper.old; left = S.left source.old; written = O.written sink.old })
        (record { contents = K.contents keeper.new; left = S.left source.new; written = O.written sink.new }) result }
    ensures same { LeavesRecords (session_words words.now) (K.contents keeper.old) (K.contents keeper.new) result }
    ensures written { Writes IsLine (session_words words.now) (O.written sink.old) (O.written sink.new) result }
    ensures damage { TellsDamage (ShowsDamage (I.meaning ident.now) (ReadsPackets words.now (S.left source.old) (S.left source.new)) (ChecksStore words.now (S.left source.old) (S.left source.new)) (MigratesStore words.now (S.left source.old) (S.left source.new))) (session_words words.now)
        (record { contents = K.contents keeper.old; left = S.left source.old; written = O.written sink.old })
        (record { contents = K.contents keeper.new; left = S.left source.new; written = O.written sink.new }) result }
    ensures lawful { StaysLawful (I.meaning ident.now) (K.contents keeper.old) (K.contents keeper.new) }
    ensures causes { HasCauses (session_words words.now) (in_grammar is_spelled words.now) (is_merge is_merging words.now) (is_read words.now)
        (record { contents = K.contents keeper.old; left = S.left source.old; written = O.written sink.old })
        (record { contents = K.contents keeper.new; left = S.left source.new; written = O.written sink.new })
        (record { keeper = K.faults keeper.old; source = S.faults source.old; sink = O.faults sink.old; reads = K.reads keeper.old })
        (record { keeper = K.faults keeper.new; source = S.faults source.new; sink = O.faults sink.new; reads = K.reads keeper.new }) result }
    ensures complete { Completes (StandsIn (I.meaning ident.now)) (Outcomes (I.meaning ident.now)) (Scripts words.now) (is_read words.now)
        (record { contents = K.contents keeper.old; left = S.left source.old; written = O.written sink.old })
        (record { contents = K.contents keeper.new; left = S.left source.new; written = O.written sink.new })
        (record { keeper = K.faults keeper.old; source = S.faults source.old; sink = O.faults sink.old; reads = K.reads keeper.old })
        (record { keeper = K.faults keeper.new; source = S.faults source.new; sink = O.faults sink.new; reads = K.reads keeper.new }) result }
    ensures crash { Survives (StandsIn (I.meaning ident.now)) (Outcomes (I.meaning ident.now)) (Scripts words.now) (is_read words.now)
        (record { contents = K.contents keeper.old; left = S.left source.old; written = O.written sink.old })
        (record { contents = K.contents keeper.new; left = S.left source.new; written = O.written sink.new })
        (K.leaves keeper.old) (K.leaves keeper.new) }
    ensures vouches { Vouches (StandsIn (I.meaning ident.now)) (IsFirstLine (I.meaning ident.now)) IsOldStore (ComesTo (Step (I.meaning ident.now) words.now) (is_read words.now) (S.left source.old) (S.left source.new)) (is_vouch is_checking words.now)
        (record { contents = K.contents keeper.old; left = S.left source.old; written = O.written sink.old })
        (record { contents = K.contents keeper.new; left = S.left source.new; written = O.written sink.new }) result }
    ensures checks { ChecksAreSound (I.meaning ident.now) words.now
        (record { contents = K.contents keeper.old; left = S.left source.old; written = O.written sink.old })
        (record { contents = K.contents keeper.new; left = S.left source.new; written = O.written sink.new }) result }
    ensures few_reads { AsksFew (Stands (I.meaning ident.now)) (AtMost (I.meaning ident.now) words.now) (session_words words.now) (is_read words.now)
        (record { contents = K.contents keeper.old; left = S.left source.old; written = O.written sink.old })
        (record { contents = K.contents keeper.new; left = S.left source.new; written = O.written sink.new })
        (record { keeper = K.faults keeper.old; source = S.faults source.old; sink = O.faults sink.old; reads = K.reads keeper.old })
        (record { keeper = K.faults keeper.new; source = S.faults source.new; sink = O.faults sink.new; reads = K.reads keeper.new }) }
    ensures order_free { OrderFree (I.meaning ident.now) words.now }
    ensures merges { MergesAreDecided (I.meaning ident.now) words.now
        (record { contents = K.contents keeper.old; left = S.left source.old; written = O.written sink.old })
        (record { contents = K.contents keeper.new; left = S.left source.new; written = O.written sink.new }) result }
    ensures merges_heads { HeadsMergesAreDecided (I.meaning ident.now) words.now
        (record { contents = K.contents keeper.old; left = S.left source.old; written = O.written sink.old })
        (record { contents = K.contents keeper.new; left = S.left source.new; written = O.written sink.new }) result }
    ensures migrates { OldStoresMigrate (I.meaning ident.now) words.now
        (record { contents = K.contents keeper.old; left = S.left source.old; written = O.written sink.old })
        (record { contents = K.contents keeper.new; left = S.left source.new; written = O.written sink.new }) result }
{
    one_migration();
    run_words(rt, alloc, words, ident, source, sink, keeper)
}

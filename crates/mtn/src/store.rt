// A command over the store that the first word names.
use mtn_base::Bytes;
use mtn_cli::{Status, run};
use mtn_keeper::{DatabaseFile, LazyKeeper, Opener};
use mtn_pieces::{FreeGate, Sha1Many};
use mtn_ports::{Batch, KeepError, Keeper, MemKeeper, StdSink, StdSource};
use std::fs;
use std::thread::Threads;

// In how many pieces the ids of many texts are computed.
const PIECES: usize = 4;

/// A command over an empty store in memory.
pub fn in_memory<T: Threads + Sync>(threads: &T, rt: &HostRuntime, words: &[Bytes]) -> Status {
    let alloc = rt.alloc();
    match MemKeeper::new(Batch::new(alloc), Vec::new(alloc)) {
        Ok(mut keeper) => over(threads, rt, words, &mut keeper),
        Err(_) => Status::NoMemory,
    }
}

/// A command over a store in a file.
pub fn in_file<T: Threads + Sync>(
    threads: &T,
    rt: &HostRuntime,
    path: &str,
    words: &[Bytes],
) -> Status {
    let file = DatabaseFile { rt, path };
    in_database(threads, rt, words, file, is_missing(rt, path))
}

// A command over a database, which is opened at once where it may be there, and closed behind it.
fn in_database<T: Threads + Sync, O: Opener + Drop>(
    threads: &T,
    rt: &HostRuntime,
    words: &[Bytes],
    opener: O,
    is_missing: bool,
) -> Status {
    match keeper_of(opener, is_missing) {
        Ok(mut keeper) => {
            let status = over(threads, rt, words, &mut keeper);
            keeper.close();
            status
        }
        Err(KeepError::NoMemory) => Status::NoMemory,
        Err(KeepError::Failed) => Status::StoreFault,
    }
}

fn keeper_of<O: Opener + Drop>(opener: O, is_missing: bool) -> Result<LazyKeeper<O>, KeepError> {
    if is_missing {
        Ok(LazyKeeper::missing(opener))
    } else {
        LazyKeeper::open(opener)
    }
}

// Whether there is certainly no file of this name.
fn is_missing(rt: &HostRuntime, path: &str) -> bool {
    matches!(fs::exists(rt, path), Ok(false))
}

fn over<T: Threads + Sync, K: Keeper>(
    threads: &T,
    rt: &HostRuntime,
    words: &[Bytes],
    keeper: &mut K,
) -> Status {
    let mut source = StdSource::new(rt.stdin());
    let mut sink = StdSink::new(rt.stdout());
    run(
        threads,
        rt.alloc(),
        words,
        &Sha1Many::new(FreeGate, PIECES),
        &mut source,
        &mut sink,
        keeper,
    )
}

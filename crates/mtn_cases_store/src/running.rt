// `run` as a library call, over objects in memory.
use mtn_base::Bytes;
use mtn_cli::run;
use mtn_ports::{Ident, Keeper, MemSink, MemSource};
use std::alloc::Global;
use std::thread::Threads;

// The room of a sink for which none is named.
const ROOM: usize = 10_000;

/// What a command is given: its payload, how much it may print, and which calls of the payload's source and of the sink fail.
#[derive(Drop)]
pub struct Given {
    pub payload: Vec<u8>,
    pub source: Vec<u64>,
    pub room: usize,
    pub sink: Vec<u64>,
}

impl Given {
    /// No payload, and no call that fails.
    pub fn new(alloc: Global) -> Given {
        Given {
            payload: Vec::new(alloc),
            source: Vec::new(alloc),
            room: ROOM,
            sink: Vec::new(alloc),
        }
    }
}

/// The status of a command, and what it prints.
pub fn answer<R: Threads + Sync, I: Ident, K: Keeper>(
    rt: &R,
    alloc: Global,
    ident: &I,
    words: &[Bytes],
    given: Given,
    store: &mut K,
) -> Option<(u8, Vec<u8>)> {
    let mut source = MemSource::new(given.payload, given.source);
    let mut sink = MemSink::new(alloc, given.room, given.sink).ok()?;
    let status = run(rt, alloc, words, ident, &mut source, &mut sink, store);
    Some((status.number(), sink.written().to_vec(alloc).ok()?))
}

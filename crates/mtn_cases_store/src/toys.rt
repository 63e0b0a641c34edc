// The made-up commands of `mtn_claims_frame`, through the frame.
use mtn_base::Bytes;
use mtn_case_records::text::{first_word, number_of, numbers_of, plain, put_escaped, put_number};
use mtn_claims_frame::toy::Toy;
use mtn_frame::run_frame;
use mtn_ports::{Batch, MemKeeper, MemSink, MemSource};
use std::alloc::Global;

// The status and what was written.
fn call(
    alloc: Global,
    room: usize,
    word: &[u8],
    input: Vec<u8>,
    keeper: &mut MemKeeper,
    out: &mut Vec<u8>,
) -> Option<()> {
    let words = [Bytes::from_slice(alloc, word).ok()?];
    let mut source = MemSource::new(input, Vec::new(alloc));
    let mut sink = MemSink::new(alloc, room, Vec::new(alloc)).ok()?;
    let status = run_frame(alloc, &words, &Toy, &mut source, &mut sink, keeper);
    put_number(alloc, u64::from(status.number()), out)?;
    out.push(b' ').ok()?;
    put_escaped(sink.written(), out)
}

// The records that are there: none, or one under this key.
fn held(alloc: Global, key: &[u8]) -> Option<Batch> {
    let mut batch = Batch::new(alloc);
    if !key.is_empty() && key != b"-".as_slice() {
        batch.put(2, key, b"x").ok()?;
    }
    Some(batch)
}

/// Appends the status of a made-up command over a keeper of its own and what it wrote, and those of `get` behind it.
pub fn answer(alloc: Global, rest: &[u8], out: &mut Vec<u8>) -> Option<()> {
    let (room, rest) = first_word(rest);
    let (failing, rest) = first_word(rest);
    let (key, rest) = first_word(rest);
    let (word, input) = first_word(rest);
    let room = number_of(room)? as usize;
    let mut keeper = MemKeeper::new(held(alloc, key)?, numbers_of(alloc, failing)?).ok()?;
    call(alloc, room, word, plain(alloc, input)?, &mut keeper, out)?;
    out.extend_from_slice(b"; ").ok()?;
    call(alloc, 100, b"get", Vec::new(alloc), &mut keeper, out)
}

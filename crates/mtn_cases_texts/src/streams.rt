// Sources and sinks.
use crate::fields::{number, numbers};
use crate::said::Said;
use mtn_base::Bytes;
use mtn_ports::{MemSink, MemSource, Sink, Source, StdSink, StdSource};
use std::alloc::Global;

fn write_one<O: Sink>(alloc: Global, sink: &mut O, piece: &[u8], said: &mut Said) {
    match sink.write(piece) {
        Ok(count) => said.put_number(alloc, count as u64),
        Err(_) => said.put(b"Failed"),
    }
}

fn write_all<O: Sink>(alloc: Global, sink: &mut O, pieces: &[Bytes], said: &mut Said) {
    for piece in pieces {
        write_one(alloc, sink, piece.as_slice(), said);
        said.put(b" ");
    }
}

fn buffer_of(alloc: Global, size: &[u8]) -> Option<Vec<u8>> {
    let mut buffer = Vec::new(alloc);
    buffer.resize(number(size)? as usize, b'.').ok()?;
    Some(buffer)
}

fn read_one<S: Source>(source: &mut S, buffer: &mut [u8], said: &mut Said) -> Option<()> {
    if buffer.is_empty() {
        return None;
    }
    match source.read(buffer) {
        Ok(count) => said.put(buffer.get(..count)?),
        Err(_) => said.put(b"Failed"),
    }
    Some(())
}

fn read_all<S: Source>(
    alloc: Global,
    source: &mut S,
    sizes: &[Bytes],
    said: &mut Said,
) -> Option<()> {
    for size in sizes {
        read_one(source, &mut buffer_of(alloc, size.as_slice())?, said)?;
        said.put(b" ");
    }
    Some(())
}

fn sink_of(alloc: Global, room: &[u8], failing: &[u8]) -> Option<MemSink> {
    let room = number(room)? as usize;
    MemSink::new(alloc, room, numbers(alloc, failing)?).ok()
}

fn sink(alloc: Global, args: &[Bytes], said: &mut Said) -> Option<()> {
    let [room, failing, pieces @ ..] = args else {
        return None;
    };
    let mut sink = sink_of(alloc, room.as_slice(), failing.as_slice())?;
    write_all(alloc, &mut sink, pieces, said);
    said.put(sink.written());
    Some(())
}

fn source_of(alloc: Global, text: &[u8], failing: &[u8]) -> Option<MemSource> {
    let failing = numbers(alloc, failing)?;
    Some(MemSource::new(text.to_vec(alloc).ok()?, failing))
}

fn source(alloc: Global, args: &[Bytes], said: &mut Said) -> Option<()> {
    let [text, failing, sizes @ ..] = args else {
        return None;
    };
    let mut source = source_of(alloc, text.as_slice(), failing.as_slice())?;
    read_all(alloc, &mut source, sizes, said)
}

fn std_source(alloc: Global, args: &[Bytes], said: &mut Said) -> Option<()> {
    let (text, sizes) = args.split_first()?;
    read_all(alloc, &mut StdSource::new(text.as_slice()), sizes, said)
}

/// `sink ROOM FAILING PIECE..`: how many bytes of each piece it took, and all that it took. `source TEXT FAILING SIZE..`: what
/// each read gave. `std_sink PIECE..` and `std_source TEXT SIZE..`: the same over std.
pub fn answer(alloc: Global, word: &str, args: &[Bytes], said: &mut Said) -> Option<()> {
    match word {
        "sink" => sink(alloc, args, said),
        "source" => source(alloc, args, said),
        "std_source" => std_source(alloc, args, said),
        _ => {
            write_all(alloc, &mut StdSink::new(Vec::new(alloc)), args, said);
            Some(())
        }
    }
}

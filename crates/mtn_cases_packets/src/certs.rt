// Cases of certificates.
use crate::case::Case;
use crate::{asking, fields};
use std::alloc::Global;
use std::io;

// What adds to a case.
fn add(alloc: Global, case: &mut Case, word: &[u8], args: &[&[u8]]) -> Option<()> {
    match (word, args) {
        (b"rev", [id, parents @ ..]) => case.add_revision(id, parents),
        (b"key", [id, name]) => case.add_key(alloc, id, name),
        (b"cert", args) => case.add_cert(alloc, args),
        _ => None,
    }
}

// What asks.
fn answer(
    alloc: Global,
    case: &Case,
    word: &[u8],
    args: &[&[u8]],
    out: &mut Vec<u8>,
) -> Option<()> {
    match (word, args) {
        (b"members", [branch]) => asking::put_members(alloc, case, branch, out),
        (b"heads", [branch]) => asking::put_heads(alloc, case, branch, out),
        (b"branches", []) => asking::put_branches(alloc, case, out),
        (b"list", []) => asking::put_list(case, out),
        (b"new", [name, value, signature]) => {
            fields::put_new(alloc, name, value, signature, out)
        }
        (b"hex", [digits]) => fields::put_hex(alloc, digits, out),
        (b"long", [count]) => fields::put_long(alloc, count, out),
        _ => None,
    }
}

fn words_of<'a>(alloc: Global, line: &'a [u8]) -> Option<Vec<&'a [u8]>> {
    line.split(|byte| *byte == b' ').collect(alloc).ok()
}

fn take_line(alloc: Global, case: &mut Case, line: &[u8], out: &mut Vec<u8>) -> Option<()> {
    if let Some(text) = line.strip_prefix(b"field ") {
        return fields::put_field(text, out);
    }
    let words = words_of(alloc, line)?;
    let (word, args) = words.split_first()?;
    if matches!(*word, b"rev" | b"key" | b"cert") {
        return add(alloc, case, word, args);
    }
    answer(alloc, case, word, args, out)
}

/// The title of a case behind its `##`, and what its lines answer.
pub fn print(alloc: Global, text: &[u8], out: &mut Vec<u8>) -> io::Result<()> {
    let mut case = Case::new(alloc);
    let mut lines = text.split(|byte| *byte == b'\n');
    out.extend_from_slice(b"##")?;
    out.extend_from_slice(lines.next().unwrap_or(&[]))?;
    out.push(b'\n')?;
    for line in lines {
        if !line.is_empty() && take_line(alloc, &mut case, line, out).is_none() {
            out.extend_from_slice(b"no answer\n")?;
        }
    }
    Ok(())
}

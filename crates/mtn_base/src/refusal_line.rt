// The printed line of a refusal.
ghost use Rattle.std.specs.Prelude.{◌≡◌, ◌++◌, OnOk, OnErr};
ghost use Rattle.std.specs.List.{flat_map};
ghost use Rattle.mtn_base.specs.Quoted.{escaped_byte};
ghost use Rattle.mtn_base.specs.Refusals.{word_field, number_field, id_field, path_field, why_name, cause_fields, packet_text, refusal_text};

use crate::{Cause, Id, NoMemory, Path, Refusal, Why};

// One space and a word.
fn push_word(out: &mut Vec<u8>, word: &str) -> Result<(), NoMemory>
    ensures { OnOk result (out.new.items ≡ out.old.items ++ word_field word.now) }
{
    push_bytes(out, word.as_bytes())
}

// One space and the bytes of a name.
fn push_bytes(out: &mut Vec<u8>, bytes: &[u8]) -> Result<(), NoMemory>
    ensures { OnOk result (out.new.items ≡ out.old.items ++ word_field bytes.now) }
{
    out.push(b' ')?;
    out.extend_from_slice(bytes)?;
    Ok(())
}

// One space and a number.
fn push_number(out: &mut Vec<u8>, number: u64) -> Result<(), NoMemory>
    ensures { OnOk result (out.new.items ≡ out.old.items ++ number_field number) }
{
    let text = number.to_string(*out.allocator())?;
    push_word(out, text.as_str())
}

// One space and an id's digits.
fn push_id(out: &mut Vec<u8>, id: &Id) -> Result<(), NoMemory>
    ensures { OnOk result (out.new.items ≡ out.old.items ++ id_field id.now) }
{
    let mut digits = [0u8; 40];
    id.write_hex(&mut digits);
    out.push(b' ')?;
    out.extend_from_slice(&digits)?;
    Ok(())
}

// One space and a path as a quoted string.
fn push_path(out: &mut Vec<u8>, path: &Path) -> Result<(), NoMemory>
    ensures { OnOk result (out.new.items ≡ out.old.items ++ path_field path.now) }
{
    let mut text = Vec::new(*out.allocator());
    path.write(&mut text)?;
    out.extend_from_slice(b" \"")?;
    push_escaped(out, &text)?;
    out.push(b'"')?;
    Ok(())
}

// A backslash before each quote and each backslash.
fn push_escaped(out: &mut Vec<u8>, text: &[u8]) -> Result<(), NoMemory>
    ensures { OnOk result (out.new.items ≡ out.old.items ++ flat_map escaped_byte text.now) }
{
    for &byte in text {
        if byte == b'"' || byte == b'\\' {
            out.push(b'\\')?;
        }
        out.push(byte)?;
    }
    Ok(())
}

// An id's digits and the bytes of a name, with one space before each.
fn push_id_and_bytes(out: &mut Vec<u8>, id: &Id, bytes: &[u8]) -> Result<(), NoMemory>
    ensures { OnOk result (out.new.items ≡ out.old.items ++ id_field id.now ++ word_field bytes.now) }
{
    push_id(out, id)?;
    push_bytes(out, bytes)
}

// Two ids, with one space before each.
fn push_two_ids(out: &mut Vec<u8>, first: &Id, second: &Id) -> Result<(), NoMemory>
    ensures { OnOk result (out.new.items ≡ out.old.items ++ id_field first.now ++ id_field second.now) }
{
    push_id(out, first)?;
    push_id(out, second)
}

// A number and an id's digits, with one space before each.
fn push_number_and_id(out: &mut Vec<u8>, number: u64, id: &Id) -> Result<(), NoMemory>
    ensures { OnOk result (out.new.items ≡ out.old.items ++ number_field number ++ id_field id.now) }
{
    push_number(out, number)?;
    push_id(out, id)
}

// A number and a word, with one space before each.
fn push_number_and_word(out: &mut Vec<u8>, number: u64, word: &str) -> Result<(), NoMemory>
    ensures { OnOk result (out.new.items ≡ out.old.items ++ number_field number ++ word_field word.now) }
{
    push_number(out, number)?;
    push_word(out, word)
}

// The edge, the number of a change in it, and why it fails, with one space before each.
fn push_change(out: &mut Vec<u8>, edge: u64, number: u64, why: Why) -> Result<(), NoMemory>
    ensures { OnOk result (out.new.items ≡ out.old.items ++ number_field edge ++ number_field number ++ word_field (why_name why)) }
{
    push_number(out, edge)?;
    push_number_and_word(out, number, why.name())
}

// The fields, with one space before each.
fn push_fields(out: &mut Vec<u8>, cause: &Cause) -> Result<(), NoMemory>
    ensures { OnOk result (out.new.items ≡ out.old.items ++ cause_fields cause.now) }
{
    match cause {
        Cause::NoBranch | Cause::NotOld => Ok(()),
        Cause::OldStore => push_number(out, 1),
        Cause::TextTooLong { length: number }
        | Cause::NotText { offset: number }
        | Cause::BadStanza { number }
        | Cause::BadOrder { number }
        | Cause::Repeated { number }
        | Cause::BadEdge { number }
        | Cause::LogFull { count: number }
        | Cause::TooManyNodes { count: number }
        | Cause::UnknownNode { number }
        | Cause::NotADirectory { number }
        | Cause::NotAConflict { number }
        | Cause::StoreNotEmpty { count: number }
        | Cause::BadRequest { number } => push_number(out, *number),
        Cause::Collision { id }
        | Cause::UnknownParent { id }
        | Cause::UnknownFile { id }
        | Cause::ManifestDiffers { computed: id }
        | Cause::UnknownRevision { id }
        | Cause::OneHead { id } => push_id(out, id),
        Cause::Disagree { path }
        | Cause::Revived { path }
        | Cause::PathTooLong { path }
        | Cause::NoSuchPath { path }
        | Cause::NotAFile { path } => push_path(out, path),
        Cause::BadField { field } => push_word(out, field.name()),
        Cause::KeyNamed { id, held } => push_id_and_bytes(out, id, held.as_slice()),
        Cause::UnknownKey { name } => push_bytes(out, name.as_slice()),
        Cause::Related { older, newer } => push_two_ids(out, older, newer),
        Cause::IdMismatch { number, computed } => push_number_and_id(out, *number, computed),
        Cause::BadPacket { number, why } => push_number_and_word(out, *number, why.name()),
        Cause::BadChange { edge, number, why } => push_change(out, *edge, *number, *why),
    }
}

// Which packet it was, where packets were read.
fn push_packet(out: &mut Vec<u8>, packet: u64) -> Result<(), NoMemory>
    ensures { OnOk result (out.new.items ≡ out.old.items ++ packet_text packet) }
{
    if packet > 0 {
        push_word(out, "InPacket")?;
        push_number(out, packet)?;
    }
    Ok(())
}

fn push_line(out: &mut Vec<u8>, refusal: &Refusal) -> Result<(), NoMemory>
    ensures { OnOk result (out.new.items ≡ out.old.items ++ refusal_text refusal.now) }
{
    out.extend_from_slice(b"refused")?;
    push_packet(out, refusal.packet)?;
    push_word(out, refusal.cause.name())?;
    push_fields(out, &refusal.cause)?;
    out.push(b'\n')?;
    Ok(())
}

impl Refusal {
    /// Appends the refusal's line, LF included. An error leaves `out` as it was.
    pub fn print(&self, out: &mut Vec<u8>) -> Result<(), NoMemory>
        ensures ok { OnOk result (out.new.items ≡ out.old.items ++ refusal_text self.now) }
        ensures err { OnErr result (out.new.items ≡ out.old.items) }
    {
        let mut line = Vec::new(*out.allocator());
        push_line(&mut line, self)?;
        out.extend_from_slice(&line)?;
        Ok(())
    }
}

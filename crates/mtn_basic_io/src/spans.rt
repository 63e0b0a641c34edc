// Bytes that are read at once: those of a symbol, of an id, and what stands in a quoted value as it is.
ghost use Rattle.std.specs.Prelude.{◌≡◌, ◌+◌, ◌++◌, ◌<◌, ◌^◌, length, take, IfOk};
ghost use Rattle.std.specs.List.{prefix_len};
ghost use Rattle.mtn_base.specs.Hex.{is_lower_digit as lower_digit};
ghost use Rattle.mtn_basic_io.specs.Spelling.{is_symbol_byte as symbol_byte};
ghost use Rattle.mtn_basic_io.specs.Steps.{is_plain as plain, room_left as room_before, extent, Skims};

use crate::steps::{Done, ID_DIGITS, Phase, is_digit, is_symbol_byte};
use memchr::memchr2;
use mtn_base::{Bytes, NoMemory};

/// How many bytes at the front stand in a quoted value as they are.
pub fn plain_len(text: &[u8]) -> usize
    ensures { result ≡ prefix_len plain text.now }
{
    memchr2(b'"', b'\\', text).unwrap_or(text.len())
}

fn symbol_len(text: &[u8]) -> usize
    ensures { result ≡ prefix_len symbol_byte text.now }
{
    let mut len = 0;
    while len < text.len() && is_symbol_byte(text[len]) {
        len += 1;
    }
    len
}

fn digit_len(text: &[u8]) -> usize
    ensures { result ≡ prefix_len lower_digit text.now }
{
    let mut len = 0;
    while len < text.len() && is_digit(text[len]) {
        len += 1;
    }
    len
}

/// The front of a text, of this many bytes at most.
fn front(text: &[u8], most: usize) -> &[u8]
    ensures { result.now ≡ take most text.now }
{
    if most < text.len() {
        &text[..most]
    } else {
        text
    }
}

fn extended(bytes: Bytes, more: &[u8]) -> Result<Bytes, NoMemory>
    ensures { IfOk result (λ b. b ≡ bytes ++ more.now) }
{
    let mut all = bytes.into_vec();
    all.extend_from_slice(more)?;
    Ok(Bytes::from_vec(all))
}

/// How many bytes more may stand before the column, of this many at most.
fn room_left(column: Option<usize>, at: usize, most: usize) -> usize
    ensures { result ≡ room_before column at most }
{
    match column {
        None => most,
        Some(column) => column.saturating_sub(at),
    }
}

fn skim_symbol(
    done: &Done,
    spaces: usize,
    symbol: Bytes,
    rest: &[u8],
) -> Result<(Phase, usize), NoMemory>
    requires { spaces + length symbol < 2 ^ 64 }
    ensures { IfOk result (λ r. Skims done.now (Phase.Symbol spaces symbol) rest.now r) }
{
    let at = spaces + symbol.as_slice().len();
    let len = symbol_len(front(rest, room_left(done.column, at, rest.len())));
    Ok((Phase::Symbol(spaces, extended(symbol, &rest[..len])?), len))
}

/// What the bytes of a run make of what was read, and how many they are; none where none are taken.
pub fn skim(done: &Done, phase: Phase, rest: &[u8]) -> Result<(Phase, usize), NoMemory>
    requires { extent phase < 2 ^ 64 }
    ensures { IfOk result (λ r. Skims done.now phase rest.now r) }
{
    match phase {
        Phase::Symbol(spaces, symbol) => skim_symbol(done, spaces, symbol, rest),
        Phase::Quoted(head, body) => {
            let len = plain_len(rest);
            Ok((Phase::Quoted(head, extended(body, &rest[..len])?), len))
        }
        Phase::Digits(head, digits) => {
            let most = ID_DIGITS.saturating_sub(digits.as_slice().len());
            let len = digit_len(front(rest, most));
            Ok((Phase::Digits(head, extended(digits, &rest[..len])?), len))
        }
        phase => Ok((phase, 0)),
    }
}

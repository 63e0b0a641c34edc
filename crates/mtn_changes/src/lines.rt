// Lines of one value.
ghost use Rattle.std.specs.Prelude.{◌≡◌, IfOk, IfSome};
ghost use Rattle.std.specs.Option.{option_copied};
ghost use Rattle.mtn_changes.specs.Lines.{id_behind, parent_behind, text_behind};
ghost use Rattle.mtn_changes.specs.Stanzas.{IsPathOf, IsPathText, id_line, line_with, text_line};

use mtn_base::{Id, NoMemory, Path, PathError};
use mtn_basic_io::{Line, Value};
use std::alloc::Global;

fn text_alone<'a>(line: &'a Line, symbol: &[u8]) -> Option<&'a [u8]>
    ensures { option_copied result ≡ text_behind symbol.now line.entry.now }
{
    if line.symbol.as_slice() != symbol {
        return None;
    }
    match line.values.as_slice() {
        [Value::Text(text)] => Some(text.as_slice()),
        _ => None,
    }
}

fn id_alone(line: &Line, symbol: &[u8]) -> Option<Id>
    ensures { result ≡ id_behind symbol.now line.now }
{
    if line.symbol.as_slice() != symbol {
        return None;
    }
    match line.values.as_slice() {
        [Value::Hex(Some(id))] => Some(*id),
        _ => None,
    }
}

fn parent_alone(line: &Line, symbol: &[u8]) -> Option<Option<Id>>
    ensures { result ≡ parent_behind symbol.now line.now }
{
    if line.symbol.as_slice() != symbol {
        return None;
    }
    match line.values.as_slice() {
        [Value::Hex(id)] => Some(*id),
        _ => None,
    }
}

/// The id or empty id of a line of this symbol, which has one value.
pub fn parent_of(line: &Line, symbol: &[u8]) -> Option<Option<Id>>
    ensures value { result ≡ parent_behind symbol.now line.now }
    ensures spells { IfSome result (λ id. line.now ≡ line_with symbol.now (Value.Hex id)) }
{
    parent_alone(line, symbol)
}

/// The text of a line of this symbol, which has one value.
pub fn text_of<'a>(line: &'a Line, symbol: &[u8]) -> Option<&'a [u8]>
    ensures value { option_copied result ≡ text_behind symbol.now line.entry.now }
    ensures spells { IfSome (option_copied result) (λ text. line.entry.now ≡ text_line symbol.now text) }
{
    text_alone(line, symbol)
}

/// The id of a line of this symbol, which has one value.
pub fn id_of(line: &Line, symbol: &[u8]) -> Option<Id>
    ensures value { result ≡ id_behind symbol.now line.now }
    ensures spells { IfSome result (λ id. line.now ≡ id_line symbol.now id) }
{
    id_alone(line, symbol)
}

#[tactic(auto, using(crate::proofs::PathText::refused_text))]
fn path_in(alloc: Global, text: &[u8]) -> Result<Option<Path>, NoMemory>
    ensures { IfOk result (λ p. IsPathText text.now p) }
{
    match Path::read(alloc, text) {
        Ok(path) => Ok(Some(path)),
        Err(PathError::NoMemory) => Err(NoMemory),
        Err(PathError::Empty) => Ok(None),
        Err(PathError::Dots) => Ok(None),
        Err(PathError::TooLong) => Ok(None),
        Err(PathError::BadByte) => Ok(None),
    }
}

/// The path of a line of this symbol, which has one value.
pub fn path_of(alloc: Global, line: &Line, symbol: &[u8]) -> Result<Option<Path>, NoMemory>
    ensures { IfOk result (λ p. IsPathOf symbol.now line.now p) }
{
    match text_of(line, symbol) {
        Some(text) => path_in(alloc, text),
        None => Ok(None),
    }
}

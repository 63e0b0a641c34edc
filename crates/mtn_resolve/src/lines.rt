// Lines of names, keys, paths and ids.
ghost use Rattle.std.specs.Prelude.{◌≡◌, ◌↔◌, IfOk, IfSome, IsTrue};
ghost use Rattle.mtn_changes.specs.Changes.{IsKey};
ghost use Rattle.mtn_changes.specs.Lines.{id_behind, text_behind};
ghost use Rattle.mtn_changes.specs.Stanzas.{IsPathText, id_line, text_line};
ghost use Rattle.std.specs.Option.{option_copied};
ghost use Rattle.mtn_resolve.specs.Lines.{name_behind, key_behind, IsNameOf, IsKeyOf};

use mtn_base::{Bytes, Id, MAX_KEY, NoMemory, NodeName, Path, PathError};
use mtn_basic_io::{Line, Value};
use std::alloc::Global;

fn text_alone<'a>(line: &'a Line, symbol: &[u8]) -> Option<&'a [u8]>
    ensures { option_copied result ≡ text_behind symbol.now line.entry.now }
{
    if line.symbol.as_slice() != symbol {
        return None;
    }
    match line.values.as_slice() {
        [Value::Text(text)] => Some(text.as_slice()),
        _ => None,
    }
}

fn id_alone(line: &Line, symbol: &[u8]) -> Option<Id>
    ensures { result ≡ id_behind symbol.now line.now }
{
    if line.symbol.as_slice() != symbol {
        return None;
    }
    match line.values.as_slice() {
        [Value::Hex(Some(id))] => Some(*id),
        _ => None,
    }
}

/// The text of a line of this symbol, which has one value.
pub fn text_of<'a>(line: &'a Line, symbol: &[u8]) -> Option<&'a [u8]>
    ensures value { option_copied result ≡ text_behind symbol.now line.entry.now }
    ensures spells { IfSome (option_copied result) (λ text. line.entry.now ≡ text_line symbol.now text) }
{
    text_alone(line, symbol)
}

/// The id of a line of this symbol, which has one value.
pub fn id_of(line: &Line, symbol: &[u8]) -> Option<Id>
    ensures value { result ≡ id_behind symbol.now line.now }
    ensures spells { IfSome result (λ id. line.now ≡ id_line symbol.now id) }
{
    id_alone(line, symbol)
}

fn name_alone(alloc: Global, line: &Line, symbol: &[u8]) -> Result<Option<(Id, Bytes)>, NoMemory>
    ensures { IfOk result (λ p. p ≡ name_behind symbol.now line.now) }
{
    if line.symbol.as_slice() != symbol {
        return Ok(None);
    }
    match line.values.as_slice() {
        [Value::Hex(Some(id)), Value::Text(text)] => Ok(Some((*id, text.copy(alloc)?))),
        _ => Ok(None),
    }
}

fn key_alone(
    alloc: Global,
    line: &Line,
    symbol: &[u8],
) -> Result<Option<(Id, Bytes, Bytes)>, NoMemory>
    ensures { IfOk result (λ p. p ≡ key_behind symbol.now line.now) }
{
    if line.symbol.as_slice() != symbol {
        return Ok(None);
    }
    match line.values.as_slice() {
        [Value::Hex(Some(id)), Value::Text(text), Value::Text(key)] => {
            Ok(Some((*id, text.copy(alloc)?, key.copy(alloc)?)))
        }
        _ => Ok(None),
    }
}

fn path_in(alloc: Global, text: &[u8]) -> Result<Option<Path>, NoMemory>
    ensures { IfOk result (λ p. IsPathText text.now p) }
{
    match Path::read(alloc, text) {
        Ok(path) => Ok(Some(path)),
        Err(PathError::NoMemory) => Err(NoMemory),
        Err(PathError::Empty) => Ok(None),
        Err(PathError::Dots) => Ok(None),
        Err(PathError::TooLong) => Ok(None),
        Err(PathError::BadByte) => Ok(None),
    }
}

/// The name that a line of this symbol spells.
pub fn name_of(alloc: Global, line: &Line, symbol: &[u8]) -> Result<Option<NodeName>, NoMemory>
    ensures { IfOk result (λ n. IsNameOf symbol.now line.now n) }
{
    let Some((birth, text)) = name_alone(alloc, line, symbol)? else {
        return Ok(None);
    };
    let Some(path) = path_in(alloc, text.as_slice())? else {
        return Ok(None);
    };
    Ok(Some(NodeName { birth, path }))
}

fn is_key(text: &[u8]) -> bool
    ensures { IsTrue result ↔ IsKey text.now }
{
    !text.is_empty() && text.len() <= MAX_KEY && std::str::from_utf8(text).is_ok()
}

/// The name and the key that a line of this symbol spells.
pub fn key_of(
    alloc: Global,
    line: &Line,
    symbol: &[u8],
) -> Result<Option<(NodeName, Bytes)>, NoMemory>
    ensures { IfOk result (λ p. IsKeyOf symbol.now line.now p) }
{
    let Some((birth, text, key)) = key_alone(alloc, line, symbol)? else {
        return Ok(None);
    };
    if !is_key(key.as_slice()) {
        return Ok(None);
    }
    let Some(path) = path_in(alloc, text.as_slice())? else {
        return Ok(None);
    };
    Ok(Some((NodeName { birth, path }, key)))
}

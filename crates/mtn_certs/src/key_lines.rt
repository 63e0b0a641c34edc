// Lines of one value.
ghost use Rattle.std.specs.Prelude.{◌≡◌, IfSome};
ghost use Rattle.std.specs.Option.{option_copied};
ghost use Rattle.mtn_changes.specs.Lines.{id_behind, text_behind};
ghost use Rattle.mtn_changes.specs.Stanzas.{id_line, text_line};

use mtn_base::Id;
use mtn_basic_io::{Line, Value};

fn text_alone<'a>(line: &'a Line, symbol: &[u8]) -> Option<&'a [u8]>
    ensures { option_copied result ≡ text_behind symbol.now line.entry.now }
{
    if line.symbol.as_slice() != symbol {
        return None;
    }
    match line.values.as_slice() {
        [Value::Text(text)] => Some(text.as_slice()),
        _ => None,
    }
}

fn id_alone(line: &Line, symbol: &[u8]) -> Option<Id>
    ensures { result ≡ id_behind symbol.now line.now }
{
    if line.symbol.as_slice() != symbol {
        return None;
    }
    match line.values.as_slice() {
        [Value::Hex(Some(id))] => Some(*id),
        _ => None,
    }
}

/// The text of a line of this symbol, which has one value.
pub fn text_of<'a>(line: &'a Line, symbol: &[u8]) -> Option<&'a [u8]>
    ensures value { option_copied result ≡ text_behind symbol.now line.entry.now }
    ensures spells { IfSome (option_copied result) (λ text. line.entry.now ≡ text_line symbol.now text) }
{
    text_alone(line, symbol)
}

/// The id of a line of this symbol, which has one value.
pub fn id_of(line: &Line, symbol: &[u8]) -> Option<Id>
    ensures value { result ≡ id_behind symbol.now line.now }
    ensures spells { IfSome result (λ id. line.now ≡ id_line symbol.now id) }
{
    id_alone(line, symbol)
}

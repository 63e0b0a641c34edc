//! Stanzas.
ghost use Rattle.std.specs.Prelude.{[], ◌++◌, ◌∷◌, ◌≡◌, IfErr, IfOk, OnErr, OnOk, true};
ghost use Rattle.mtn_basic_io.specs.Spelling.{is_symbol};
ghost use Rattle.mtn_basic_io.specs.declared.stanza.Value.TheVariants.{Text};

use mtn_base::NoMemory;
use mtn_basic_io::{Line, ReadError, Stanza, Value};
use std::alloc::Global;

/// As `mtn_basic_io::read_back`.
pub fn read_back(alloc: Global, stanzas: &[Stanza]) -> Result<Vec<Stanza>, ReadError>
    ensures same { IfOk result (λ v. v.items ≡ stanzas.now) }
    ensures memory { IfErr result (λ e. e ≡ ReadError.NoMemory) }
{
    mtn_basic_io::read_back(alloc, stanzas)
}

/// As `Value::text`.
pub fn text(alloc: Global, bytes: &[u8]) -> Result<Value, NoMemory>
    ensures { IfOk result (λ v. v ≡ Text bytes.now) }
{
    Value::text(alloc, bytes)
}

/// As `Line::new`.
pub fn new_line(alloc: Global, symbol: &[u8], value: Value) -> Result<Line, NoMemory>
    requires { is_symbol symbol.now ≡ true }
    ensures { IfOk result (λ l. l ≡ record { symbol = symbol.now; values = value ∷ [] }) }
{
    Line::new(alloc, symbol, value)
}

/// As `Line::push`.
pub fn push_line(line: &mut Line, value: Value) -> Result<(), NoMemory>
    ensures ok { OnOk result (line.new ≡ record { symbol = line.old.symbol; values = line.old.values ++ value ∷ [] }) }
    ensures err { OnErr result (line.new ≡ line.old) }
{
    line.push(value)
}

/// As `Stanza::new`.
pub fn new_stanza(alloc: Global, line: Line) -> Result<Stanza, NoMemory>
    ensures { IfOk result (λ s. s ≡ line ∷ []) }
{
    Stanza::new(alloc, line)
}

/// As `Stanza::push`.
pub fn push_stanza(stanza: &mut Stanza, line: Line) -> Result<(), NoMemory>
    ensures ok { OnOk result (stanza.new ≡ stanza.old ++ line ∷ []) }
    ensures err { OnErr result (stanza.new ≡ stanza.old) }
{
    stanza.push(line)
}

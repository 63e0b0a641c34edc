// Texts of stanzas, read.
ghost use Rattle.std.specs.Prelude.{◌≡◌, List as Seq, IfErr, IfOk, MatchResult};
ghost use Rattle.mtn_basic_io.specs.Begun.{IsFault};
ghost use Rattle.mtn_basic_io.specs.Spelling.{AreStanzas, LineText, spelling};

use mtn_base::NoMemory;
use mtn_basic_io::{Line, ReadError, Stanza, Value};
use std::alloc::Global;

/// As `mtn_basic_io::read`.
pub fn read(alloc: Global, text: &[u8]) -> Result<Vec<Stanza>, ReadError>
    ensures found { IfOk result (λ v. AreStanzas v.items × (text.now ≡ spelling v.items)) }
    ensures only { (stanzas : Seq (Seq LineText)) → AreStanzas stanzas → text.now ≡ spelling stanzas → MatchResult result (λ v. v.items ≡ stanzas) (λ e. e ≡ ReadError.NoMemory) }
    ensures offset { IfErr result (λ e. IsFault text.now e) }
{
    mtn_basic_io::read(alloc, text)
}

/// As `Value::copy`.
pub fn copy_value(value: &Value, alloc: Global) -> Result<Value, NoMemory>
    ensures { IfOk result (λ copy. copy ≡ value.now) }
{
    value.copy(alloc)
}

/// As `Line::copy`.
pub fn copy_line(line: &Line, alloc: Global) -> Result<Line, NoMemory>
    ensures { IfOk result (λ copy. copy ≡ line.now) }
{
    line.copy(alloc)
}

/// As `Stanza::copy`.
pub fn copy_stanza(stanza: &Stanza, alloc: Global) -> Result<Stanza, NoMemory>
    ensures { IfOk result (λ copy. copy ≡ stanza.now) }
{
    stanza.copy(alloc)
}

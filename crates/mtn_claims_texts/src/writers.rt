// Texts of stanzas, written.
ghost use Rattle.std.specs.Prelude.{◌≡◌, ◌≤◌, ◌∷◌, [], ◌++◌, Some, OnErr, OnOk, length, map};
ghost use Rattle.mtn_base.specs.declared.id.Id.{Id as Named};
ghost use Rattle.mtn_base.specs.Front.{IsFront};
ghost use Rattle.mtn_basic_io.specs.Spelling.{AreStanzas, line_text, spelling};
ghost use Rattle.mtn_basic_io.specs.declared.stanza.Value.TheVariants.{Hex, Text};

use mtn_base::{Id, NoMemory};
use mtn_basic_io::Stanza;

/// As `mtn_basic_io::write`.
pub fn write(stanzas: &[Stanza], out: &mut Vec<u8>) -> Result<(), NoMemory>
    ensures ok { OnOk result (out.new.items ≡ out.old.items ++ spelling stanzas.now) }
    ensures err { OnErr result (out.new.items ≡ out.old.items) }
    ensures lawful { OnOk result (AreStanzas stanzas.now) }
{
    mtn_basic_io::write(stanzas, out)
}

/// As `mtn_basic_io::write_text_line`.
pub fn text_line(
    column: usize,
    symbol: &[u8],
    text: &[u8],
    out: &mut Vec<u8>,
) -> Result<(), NoMemory>
    requires { length symbol.now ≤ column }
    ensures ok { OnOk result (out.new.items ≡ out.old.items ++ line_text column (record { symbol = symbol.now; values = Text text.now ∷ [] })) }
    ensures kept { IsFront out.old.items out.new.items }
{
    mtn_basic_io::write_text_line(column, symbol, text, out)
}

/// As `mtn_basic_io::write_id_line`.
pub fn id_line(column: usize, symbol: &[u8], id: &Id, out: &mut Vec<u8>) -> Result<(), NoMemory>
    requires { length symbol.now ≤ column }
    ensures ok { OnOk result (out.new.items ≡ out.old.items ++ line_text column (record { symbol = symbol.now; values = Hex (Some id.now) ∷ [] })) }
    ensures kept { IsFront out.old.items out.new.items }
{
    mtn_basic_io::write_id_line(column, symbol, id, out)
}

/// As `mtn_basic_io::write_pair_line`.
pub fn pair_line(
    column: usize,
    symbol: &[u8],
    first: &[u8],
    second: &[u8],
    out: &mut Vec<u8>,
) -> Result<(), NoMemory>
    requires { length symbol.now ≤ column }
    ensures ok { OnOk result (out.new.items ≡ out.old.items ++ line_text column (record { symbol = symbol.now; values = Text first.now ∷ Text second.now ∷ [] })) }
    ensures kept { IsFront out.old.items out.new.items }
{
    mtn_basic_io::write_pair_line(column, symbol, first, second, out)
}

/// As `mtn_basic_io::write_ids_line`.
pub fn ids_line(column: usize, symbol: &[u8], ids: &[Id], out: &mut Vec<u8>) -> Result<(), NoMemory>
    requires { length symbol.now ≤ column }
    ensures ok { OnOk result (out.new.items ≡ out.old.items ++ line_text column (record { symbol = symbol.now; values = map (λ (i : Named). Hex (Some i)) ids.now })) }
    ensures kept { IsFront out.old.items out.new.items }
{
    mtn_basic_io::write_ids_line(column, symbol, ids, out)
}

/// As `mtn_basic_io::write_text_ids_line`.
pub fn text_ids_line(
    column: usize,
    symbol: &[u8],
    text: &[u8],
    ids: &[Id],
    out: &mut Vec<u8>,
) -> Result<(), NoMemory>
    requires { length symbol.now ≤ column }
    ensures ok { OnOk result (out.new.items ≡ out.old.items ++ line_text column (record { symbol = symbol.now; values = Text text.now ∷ map (λ (i : Named). Hex (Some i)) ids.now })) }
    ensures kept { IsFront out.old.items out.new.items }
{
    mtn_basic_io::write_text_ids_line(column, symbol, text, ids, out)
}

/// As `mtn_basic_io::write_id_text_line`.
pub fn id_text_line(
    column: usize,
    symbol: &[u8],
    id: &Id,
    text: &[u8],
    out: &mut Vec<u8>,
) -> Result<(), NoMemory>
    requires { length symbol.now ≤ column }
    ensures ok { OnOk result (out.new.items ≡ out.old.items ++ line_text column (record { symbol = symbol.now; values = Hex (Some id.now) ∷ Text text.now ∷ [] })) }
    ensures kept { IsFront out.old.items out.new.items }
{
    mtn_basic_io::write_id_text_line(column, symbol, id, text, out)
}

// The checks behind the readers of components and paths.
ghost use Rattle.std.specs.Prelude.{◌≡◌, ◌↔◌, IsTrue, OnOk, IfErr, option_copied, position, ◌==◌, ◌<◌, length};
ghost use Rattle.std.specs.List.{list_all};
ghost use Rattle.std.specs.Str.{IsUtf8};
ghost use Rattle.mtn_base.specs.Comps.{IsComp, is_dots as dots, is_plain_byte as plain};
ghost use Rattle.mtn_base.specs.Paths.{IsCompFault, FirstPiece};

use crate::PathError;
use crate::limits::MAX_COMP;

fn is_dots(text: &[u8]) -> bool
    ensures { result ≡ dots text.now }
{
    text == b".".as_slice() || text == b"..".as_slice()
}

fn is_plain_byte(byte: u8) -> bool
    ensures { result ≡ plain byte }
{
    !(byte < 32 || byte == b'/' || byte == b'\\' || byte == 127)
}

fn are_plain(text: &[u8]) -> bool
    ensures { result ≡ list_all plain text.now }
{
    text.iter().all(|&byte| is_plain_byte(byte))
}

fn is_utf8(text: &[u8]) -> bool
    ensures { IsTrue result ↔ IsUtf8 text.now }
{
    std::str::from_utf8(text).is_ok()
}

/// That a text is a component.
pub fn check(text: &[u8]) -> Result<(), PathError>
    ensures ok { OnOk result (IsComp text.now) }
    ensures err { IfErr result (λ e. IsCompFault e text.now) }
{
    if text.is_empty() {
        Err(PathError::Empty)
    } else if is_dots(text) {
        Err(PathError::Dots)
    } else if text.len() > MAX_COMP {
        Err(PathError::TooLong)
    } else if are_plain(text) && is_utf8(text) {
        Ok(())
    } else {
        Err(PathError::BadByte)
    }
}

fn slash_in(text: &[u8]) -> Option<usize>
    ensures { result ≡ position (λ b. b == 47) text.now }
{
    text.iter().position(|&byte| byte == b'/')
}

/// The first piece of a text that is cut at slashes, and what stands behind its slash.
pub fn first_piece(text: &[u8]) -> (&[u8], Option<&[u8]>)
    ensures { FirstPiece text.now result.0.now (option_copied result.1) }
{
    match slash_in(text) {
        Some(end) => (&text[..end], Some(&text[end + 1..])),
        None => (text, None),
    }
}

// Fields: the names of certificates and keys.
ghost use Rattle.std.specs.Prelude.{◌≡◌};
ghost use Rattle.std.specs.List.{list_all};
ghost use Rattle.mtn_certs.specs.Certificates.{is_field as field_test, is_field_byte as byte_test};

use mtn_base::MAX_FIELD;

fn is_field_byte(byte: u8) -> bool
    ensures { result ≡ byte_test byte }
{
    (33 <= byte && byte <= 126) && !(byte == b'[' || byte == b']')
}

fn are_field_bytes(text: &[u8]) -> bool
    ensures { result ≡ list_all byte_test text.now }
{
    text.iter().all(|&byte| is_field_byte(byte))
}

/// Whether a text is a field: 1 to 255 bytes from 0x21 to 0x7e without brackets, as Monotone's packets take them. It takes
/// no memory.
pub fn is_field(text: &[u8]) -> bool
    ensures { result ≡ field_test text.now }
{
    !text.is_empty() && text.len() <= MAX_FIELD && are_field_bytes(text)
}

// The ids of files, revisions and manifests.
ghost use Rattle.std.specs.Prelude.{◌≡◌, ◌↔◌, IsSome, IfSome, length};
ghost use Rattle.hex.specs.Hex.{encode_lower, decode_sized, IsBytes};
ghost use Rattle.std.specs.Prelude.{true};
ghost use Rattle.std.specs.List.{list_all};
ghost use Rattle.mtn_base.specs.Hex.{IsIdText, is_lower_digit as is_digit, read_id, id_from};

/// The SHA-1 of a text: twenty bytes, compared byte by byte.
#[derive(Clone, Copy, PartialEq, Eq, PartialOrd, Ord)]
pub struct Id(pub [u8; 20]);

impl Id {
    /// The id that forty lower-case hexadecimal digits spell; None exactly for any other text. It
    /// takes no memory.
    pub fn read_hex(text: &[u8]) -> Option<Id>
        ensures value { IfSome result (λ id. encode_lower id.0 ≡ text.now) }
        ensures found { IsSome result ↔ IsIdText text.now }
        ensures read { result ≡ read_id text.now }
    {
        if are_lower_digits(text) {
            decoded(text)
        } else {
            None
        }
    }

    /// Writes the id as forty lower-case hexadecimal digits. It takes no memory.
    pub fn write_hex(&self, out: &mut [u8; 40])
        ensures { out.new ≡ encode_lower self.now.0 }
    {
        let _ = hex::encode_to_slice(self.0.as_slice(), out);
    }

    /// The twenty bytes.
    pub fn as_slice(&self) -> &[u8]
        ensures value { result.now ≡ self.now.0 }
        ensures count { length self.now.0 ≡ 20 }
        ensures bytes { IsBytes self.now.0 }
    {
        let bytes = self.0.as_slice();
        let _len = bytes.len();
        bytes
    }
}

fn is_lower_digit(byte: u8) -> bool
    ensures { result ≡ is_digit byte }
{
    (b'0' <= byte && byte <= b'9') || (b'a' <= byte && byte <= b'f')
}

fn are_lower_digits(text: &[u8]) -> bool
    ensures { result ≡ list_all is_digit text.now }
{
    text.iter().all(|&byte| is_lower_digit(byte))
}

// The id of forty digits of either case; None of any other text.
fn decoded(text: &[u8]) -> Option<Id>
    requires { list_all is_digit text.now ≡ true }
    ensures value { IfSome result (λ id. encode_lower id.0 ≡ text.now) }
    ensures found { IsSome result ↔ (length text.now ≡ 40) }
    ensures read { result ≡ id_from (decode_sized text.now 20) }
{
    let mut bytes = [0; 20];
    match hex::decode_to_slice(text, &mut bytes) {
        Ok(()) => Some(Id(bytes)),
        Err(_) => None,
    }
}

// Fields, and what becomes a certificate.
use crate::words::size;
use mtn_base::{Field, Id};
use mtn_certs::{Cert, CertError, is_field};
use std::alloc::Global;

/// `field TEXT`.
pub fn put_field(text: &[u8], out: &mut Vec<u8>) -> Option<()> {
    let said: &[u8] = if is_field(text) { b"yes\n" } else { b"no\n" };
    out.extend_from_slice(said).ok()
}

/// `hex DIGITS`.
pub fn put_hex(alloc: Global, digits: &[u8], out: &mut Vec<u8>) -> Option<()> {
    let bytes = hex::decode(alloc, digits).ok()?;
    put_field(&bytes, out)
}

/// `long COUNT`.
pub fn put_long(alloc: Global, count: &[u8], out: &mut Vec<u8>) -> Option<()> {
    let bytes = vec![in alloc; b'a'; size(count)?].ok()?;
    put_field(&bytes, out)
}

fn put_error(alloc: Global, error: CertError, out: &mut Vec<u8>) -> Option<()> {
    match error {
        CertError::BadField(Field::Name) => out.extend_from_slice(b"BadField name\n").ok(),
        CertError::BadField(_) => out.extend_from_slice(b"BadField\n").ok(),
        CertError::TextTooLong { length } => {
            out.extend_from_slice(b"TextTooLong ").ok()?;
            let text = length.to_string(alloc).ok()?;
            out.extend_from_slice(text.as_bytes()).ok()?;
            out.push(b'\n').ok()
        }
        CertError::NoMemory => None,
    }
}

/// `new NAME COUNT COUNT`.
pub fn put_new(
    alloc: Global,
    name: &[u8],
    value: &[u8],
    signature: &[u8],
    out: &mut Vec<u8>,
) -> Option<()> {
    let value = vec![in alloc; b'v'; size(value)?].ok()?;
    let signature = vec![in alloc; b's'; size(signature)?].ok()?;
    let id = Id([0; 20]);
    match Cert::new(alloc, id, name, id, &value, &signature) {
        Ok(_) => out.extend_from_slice(b"certificate\n").ok(),
        Err(error) => put_error(alloc, error, out),
    }
}

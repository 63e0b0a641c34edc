// Ids of texts.
use crate::said::Said;
use mtn_ports::{Ident, Sha1One, Toy};

/// `sha1 TEXT`, `toy TEXT`.
pub fn answer(word: &str, text: &[u8], said: &mut Said) {
    if word == "sha1" {
        said.put_id(&Sha1One.id(text));
    } else {
        said.put_id(&Toy.id(text));
    }
}

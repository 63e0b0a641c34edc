//! Certificates, the names of the keys that made them, their list as text, and tables of key names.
//!
//! A *certificate* is a revision, a name, the id of a key, a value and a signature. Who has the key of an id may give it a
//! *key name*; an id may have none, and two ids may have one. A *field* is what can stand as a word of a packet: 1 to 255
//! bytes from 0x21 to 0x7e without brackets. Values and signatures are any bytes; signatures are carried and never read.
//! A *key table* is a text: a header and a stanza for each key, its id and its name, which is a field. No two of a table
//! have one id, and no two one name. An older store's certificates are given ids by one.
//!
//! The crates above rely on this: a [`Cert`] is lawful, and [`Cert::new`] answers the first rule that its parts break; [`list`] appends
//! the printed form of exactly the stanzas of a set of certificates, in an order that depends on no order of keeping, which [`sorted_of`] gives
//! (`specs/Certificates.antt`, `specs/Order.antt`, `specs/Listing.antt`); [`read_keys`] gives the key names of exactly the
//! texts that spell a table, in their order, and otherwise the first stanza at fault with its first fault
//! (`specs/KeyTables.antt`).
//!
//! Cost: a certificate is one copy of its parts; a list is one sort, one look-up of a key name for each certificate, and one
//! pass over what is printed; a key table is one pass over the text, and a look into two ordered sets for each key.
#![tactic(auto)]

mod cert;
mod field;
mod key_error;
mod key_lines;
mod key_name;
mod key_reading;
mod key_stanzas;
mod laws;
mod order;
mod text;

pub use cert::{Cert, CertError, KeyName};
pub use field::is_field;
pub use key_error::KeyTextError;
pub use key_reading::read_keys;
pub use laws::{key_names, lawful, one_order};
pub use mtn_base::Field;
pub use order::sorted_of;
pub use text::list;

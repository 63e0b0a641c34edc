//! Certificates and the names of keys on a draft.
//!
//! A *certificate* speaks of a revision of the log. A store holds a set of them; one that is held is kept already. A *key name*
//! stands under the id of its key, and stays: another name for the same key is refused.
//!
//! The crate above relies on this: [`put_cert`] and [`put_key`] lead the draft from its state to the state with the certificate
//! or the name, or answer why not, and then nothing changes (`specs/Accepting.antt`). [`certs_of`] and [`certs`] answer exactly
//! the certificates that the state holds, [`names_of`] the names that it gives their keys, and [`key_named`] the one key that has
//! a name (`specs/Named.antt`). [`graph_and_certs`] answers all certificates beside the graph, and shows one of a revision that the
//! log does not have. [`read_cert`] answers the certificate whose record stands under a key. Damage is answered only where the
//! draft's records stand for no state.
//!
//! Cost: a certificate that is put reads the text of its revision and its own record; a name reads its own record. One that is
//! read is one call of the keeper; the names of keys are a record for each key, and to look for a name reads all names.
#![tactic(auto)]

mod damaged;
mod held;
mod key;
mod logged;
mod named;
mod names;
mod put;
mod read;
mod walk;

pub use held::{certs, certs_of};
pub use logged::graph_and_certs;
pub use named::key_named;
pub use names::{key_name, names_of, put_key};
pub use put::{hold_cert, put_cert};
pub use read::read_cert;

//! Reading packets into a draft: what a store keeps of what another store sent.
//!
//! An input is read as packets (`mtn_packets`), in four pieces (`mtn_pieces`). The *payload* of a packet is a file's bytes or a
//! revision's text, which stands under an id. The payloads of all packets are hashed by one call of the ident before anything is
//! kept; then the packets go in one after the other, each as by the command that keeps what it holds: a file, a revision, a
//! certificate. A public key is passed over. The *head* of a packet is the packet without its payload, so that no payload is copied
//! before it is kept.
//!
//! The crate above relies on this: over records that stand for a state, [`read`] answers what the input comes to there
//! (`ReadsInput` of `mtn_imports`). Either it answers how much was not held before, and then the draft stands for the state with all
//! packets; or the first refusal, with the number of the packet that has it, or 0 where it is one of all packets: an input that is no
//! packets, and then an id that is not its payload's. A refusal, or another error, may leave what the packets before it kept as
//! pending: the draft is to be given up then. Damage is answered only where the draft's records stand for no state, and is one of
//! the records that it has at that moment.
//!
//! Cost: each payload is hashed once. A packet costs what its command costs: a file is looked up before it is put; a certificate
//! reads the text of its revision and its own record, and one whose key is named reads all key names.
#![tactic(auto)]

mod all;
mod certs;
mod counts;
mod error;
mod head;
mod input;
mod kept;
mod matched;
mod one;
mod unfit;

pub use counts::Counts;
pub use error::ReadError;
pub use input::read;
pub use unfit::{first_kept, kept_error};

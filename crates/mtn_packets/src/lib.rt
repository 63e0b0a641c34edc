//! Packets: the texts by which files, revisions and certificates go from one store to another, as
//! the Monotone manual has them.
//!
//! An *input* is packets with any amount of space before, between and after them. A *base64 part* is
//! any bytes without brackets that are, all space taken out, the base64 of some bytes (RFC 4648,
//! padded, with zero trailing bits). The *shape* of a packet is its text with the base64 parts taken
//! as they stand. The *printed form* of a packet is its one text among them that is written.
//!
//! The crates above rely on this: `read_all` answers exactly the packets that an input is, or the
//! number of its first bad packet and that one's first fault; `write` appends exactly the printed
//! form; packets that are printed one after the other are read as those packets. Each is linear:
//! a byte is looked at a fixed number of times, decoded or encoded once, and written once.
#![tactic(auto)]

mod bytes;
mod decoding;
mod error;
mod laws;
mod packet;
mod reading;
mod shapes;
mod writing;

pub use error::PacketError;
pub use laws::{one_fault, one_list, printed_in_a_row, read_back};
pub use mtn_base::PacketWhy;
pub use packet::{Packet, PacketKey};
pub use reading::read_all;
pub use writing::{is_writable, write};

//! What is slow in reading a long input of packets, in pieces on several threads: finding and decoding its packets, and the ids
//! of their texts, where each id is the SHA-1 of a text of its own.
//!
//! The texts of one call are cut by position into as many runs as there are pieces, or texts where these are fewer, so that no
//! run is empty and the runs are numbered from 0. Each is a piece of work on a thread of its own, and passes a [`Gate`] before
//! it begins. An input is cut into about equal parts, each but the last behind an `[end]`: there a packet ends, whatever stands in
//! front of it, so that each part reads for itself.
//!
//! The crates above rely on this: the answer is that of one thread, for every number of pieces: the id of each text in order; the
//! packets that an input is, or the number of its first bad packet and that one's first fault. No clause says that several threads
//! ran; a test does, with a gate where two pieces have to meet.
//!
//! Cost: the time of the longest run, on as many processors as there are pieces; the memory of the ids, or of the list of packets
//! (their bytes are moved), twice while runs are joined.
#![tactic(auto)]

mod gate;
mod hashing;
mod packets;
mod sha1_many;

pub use gate::{FreeGate, Gate, MAX_PIECES};
pub use packets::read_in_pieces;
pub use sha1_many::Sha1Many;

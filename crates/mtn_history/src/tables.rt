// The tables of a store, by their numbers.

/// `count` and `version`.
pub const META: u8 = 1;

/// Each file under its id.
pub const FILES: u8 = 2;

/// Under the id of each revision its position and its text.
pub const TEXTS: u8 = 3;

/// Under each position of the log its revision's id, the next node number, and its parents' positions.
pub const LOG: u8 = 4;

/// Under each position the roster of its revision, whole or as it differs from another.
pub const ROSTERS: u8 = 5;

/// Each key's name under the key's id. Table 6 is that of an older version's certificates, and is never read.
pub const KEYS: u8 = 7;

/// Each certificate as a key, without a body.
pub const CERTS: u8 = 8;

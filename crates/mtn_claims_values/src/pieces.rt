//! Ids in pieces.
ghost use Rattle.std.specs.Prelude.{◌≡◌, max, min};

use mtn_pieces::{Gate, Sha1Many};

/// As `Sha1Many::new`.
pub fn new_sha1_many<G: Gate>(gate: G, pieces: usize) -> Sha1Many<G>
    ensures gate { result.gate ≡ gate }
    ensures pieces { result.pieces ≡ min (max pieces 1) 64 }
{
    Sha1Many::new(gate, pieces)
}

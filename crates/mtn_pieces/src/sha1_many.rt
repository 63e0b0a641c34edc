// SHA-1 in pieces.
ghost use Rattle.std.specs.Prelude.{◌≡◌, IfOk, map, max, min};
ghost use Rattle.mtn_base.specs.Hex.{id_of};
ghost use Rattle.mtn_ports.specs.Ids.{sha1_makes_ids};
ghost use Rattle.sha1.specs.Sha1.{sha1};

use crate::hashing::ids_in_runs;
use crate::{FreeGate, Gate, MAX_PIECES};
use mtn_base::{Id, NoMemory, Text};
use mtn_ports::{Ident, Sha1One};
use std::alloc::Global;
use std::thread::Threads;

/// SHA-1, as FIPS 180-4 has it, of many texts in pieces on several threads. With a [`FreeGate`] it is an [`Ident`]; with any
/// gate it has the same calls with the same clauses.
#[derive(Drop)]
pub struct Sha1Many<G> {
    gate: G,
    pieces: usize,
}

impl<G: Gate> Sha1Many<G> {
    /// Hashes in at most so many pieces, each of which passes the gate. A number below 1 is taken as 1, one above
    /// [`MAX_PIECES`] as that. It takes no memory.
    pub fn new(gate: G, pieces: usize) -> Sha1Many<G>
        ensures gate { result.gate ≡ gate }
        ensures pieces { result.pieces ≡ min (max pieces 1) 64 }
    {
        Sha1Many {
            gate,
            pieces: pieces.max(1).min(MAX_PIECES),
        }
    }

    /// Lets the piece with this number pass the gate. It takes no memory.
    pub fn pass_gate(&self, piece: usize) {
        self.gate.pass(piece);
    }

    /// The id of each text, in order. It takes memory for the ids.
    pub fn ids_of<R: Threads>(
        &self,
        rt: &R,
        alloc: Global,
        texts: &[Text],
    ) -> Result<Vec<Id>, NoMemory>
        ensures { IfOk result (λ ids. ids.items ≡ map (λ text. id_of (sha1 text)) texts.now) }
    {
        if texts.is_empty() {
            return Ok(Vec::new(alloc));
        }
        let runs = self.pieces.min(texts.len());
        ids_in_runs(rt, alloc, &self.gate, 0, runs, texts)
    }
}

impl Ident for Sha1Many<FreeGate> {
    ghost meaning = { λ _. sha1 };

    ghost makes_ids = { λ _. sha1_makes_ids };

    fn pass(&self, piece: usize) {
        self.pass_gate(piece);
    }

    fn id(&self, text: &[u8]) -> Id {
        Sha1One.id(text)
    }

    fn ids<R: Threads + Sync>(
        &self,
        rt: &R,
        alloc: Global,
        texts: &[Text],
    ) -> Result<Vec<Id>, NoMemory> {
        self.ids_of(rt, alloc, texts)
    }
}

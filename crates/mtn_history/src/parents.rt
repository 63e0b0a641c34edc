// A draft as whoever can be asked for the parents of a revision.

use crate::{Draft, StoreError};
use mtn_ancestry::{ParentList, Parents, Pos};
use mtn_ports::Keeper;

impl<K: Keeper> Parents for Draft<'_, K> {
    type Error = StoreError;

    ghost use Rattle.std.proofs.Common.{◌≡◌, ◌∙◌, refl};
    ghost use Rattle.mtn_history.specs.Graph.{TellsGraph, IsGraphError, StaysDraft, draft_stays, draft_stays_on, graph_error_before};

    ghost tells = { λ d. TellsGraph (K.contents d.keeper.now) d.pending };

    ghost asked = { λ d. K.reads d.keeper.now };

    ghost stays = { λ d e. StaysDraft K.contents K.leaves K.faults d.keeper.now e.keeper.now d.pending e.pending × (e.keeper.ghost_name ≡ d.keeper.ghost_name) };

    ghost caused = { λ d e error. IsGraphError (K.faults d.keeper.now) (K.contents e.keeper.now) (K.faults e.keeper.now) e.pending error };

    // No position from `count` up stands above a revision, so that none is asked for.
    fn parents(&mut self, at: Pos) -> Result<ParentList, StoreError> {
        if at.0 >= self.count() {
            return Err(StoreError::NoMemory);
        }
        Ok(self.log_at(at)?.parents)
    }

    ghost earlier = { λ d n g tells. tells.earlier };

    ghost stays_itself = { λ d. (draft_stays K.contents K.leaves K.faults d.keeper.now d.pending, refl) };

    ghost stays_on = { λ d e g a b. (draft_stays_on K.contents K.leaves K.faults d.keeper.now e.keeper.now g.keeper.now d.pending e.pending g.pending a.0 b.0, b.1 ∙ a.1) };

    ghost caused_before = { λ d e g error a. graph_error_before K.contents K.leaves K.faults d.keeper.now e.keeper.now (K.contents g.keeper.now) (K.faults g.keeper.now) d.pending e.pending g.pending error a.0 };
}

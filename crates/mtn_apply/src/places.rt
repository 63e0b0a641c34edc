// Positions of changes, noted for the places of old nodes.
ghost use Rattle.std.specs.Prelude.{◌≡◌, ℕ, None, length, IfOk};
ghost use Rattle.mtn_apply.specs.Maps.{of_place};

use mtn_base::NoMemory;
use std::alloc::Global;

/// Room for so many places, none of which has a position.
pub fn no_positions(alloc: Global, count: usize) -> Result<Vec<Option<usize>>, NoMemory>
    ensures long { IfOk result (λ positions. length positions.items ≡ count) }
    ensures none { IfOk result (λ positions. (k : ℕ) → of_place positions.items k ≡ None) }
{
    let positions = vec![in alloc; None; count]?;
    Ok(positions)
}

/// What a place has.
pub fn position_at(positions: &[Option<usize>], place: usize) -> Option<usize>
    ensures { result ≡ of_place positions.now place }
{
    match positions.get(place) {
        None => None,
        Some(position) => *position,
    }
}

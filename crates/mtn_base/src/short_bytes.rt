// A few bytes.
ghost use Rattle.std.specs.Prelude.{◌≡◌, IfOk};

use crate::NoMemory;
use smallvec::SmallVec;
use std::alloc::Global;
use std::marker::Model;

/// A few bytes, which contracts see as a list. Up to 24 stand in place.
#[derive(Drop)]
pub struct ShortBytes {
    bytes: SmallVec<u8, 24>,
}

impl Model for ShortBytes {
    ghost use Rattle.std.specs.Prelude.{List, ℕ};

    ghost Value = { List ℕ };

    ghost view = { λ b. b.bytes.items };
}

impl ShortBytes {
    /// A copy of some bytes. It takes no memory where they stand in place.
    pub fn from_slice(alloc: Global, bytes: &[u8]) -> Result<ShortBytes, NoMemory>
        ensures { IfOk result (λ copy. copy ≡ bytes.now) }
    {
        Ok(ShortBytes {
            bytes: SmallVec::from_slice(alloc, bytes)?,
        })
    }

    /// The bytes. It takes no memory.
    pub fn as_slice(&self) -> &[u8]
        ensures { result.now ≡ self.now }
    {
        self.bytes.as_slice()
    }

    /// Equal bytes.
    pub fn copy(&self, alloc: Global) -> Result<ShortBytes, NoMemory>
        ensures { IfOk result (λ copy. copy ≡ self.now) }
    {
        ShortBytes::from_slice(alloc, self.as_slice())
    }
}

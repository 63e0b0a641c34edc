// Numbers in keys and bodies.
ghost use Rattle.std.specs.Prelude.{IfOk};
ghost use Rattle.mtn_check.specs.Steps.{IsNumberBefore, IsNumberIn};

use mtn_base::NoMemory;
use mtn_records::{Field, RecordError};
use std::alloc::Global;

/// The number whose text bytes are, if they are one's.
pub fn number_in(alloc: Global, bytes: &[u8]) -> Result<Option<u64>, NoMemory>
    ensures { IfOk result (IsNumberIn bytes.now) }
{
    match u64::read(alloc, bytes) {
        Ok((number, rest)) => {
            if rest.is_empty() {
                Ok(Some(number))
            } else {
                Ok(None)
            }
        }
        Err(RecordError::Bad) => Ok(None),
        Err(RecordError::NoMemory) => Err(NoMemory),
    }
}

/// The number whose text bytes begin with, if they do with one's.
pub fn number_before(alloc: Global, bytes: &[u8]) -> Result<Option<u64>, NoMemory>
    ensures { IfOk result (IsNumberBefore bytes.now) }
{
    match u64::read(alloc, bytes) {
        Ok((number, _)) => Ok(Some(number)),
        Err(RecordError::Bad) => Ok(None),
        Err(RecordError::NoMemory) => Err(NoMemory),
    }
}

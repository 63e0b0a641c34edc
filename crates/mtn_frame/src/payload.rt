// Reading a source to its end.
ghost use Rattle.std.specs.Prelude.{◌≡◌, ◌≤◌, ◌<◌, true, length, IfOk, IsErrOf};
ghost use Rattle.mtn_base.specs.declared.limits.TheConstants.{MAX_INPUT};
ghost use Rattle.mtn_ports.specs.Causes.{Rose};
ghost use Rattle.std.specs.Io.KnownBytes.{Consumes, IsAtEnd};
ghost use Rattle.mtn_frame.specs.Limit.{Stops, TakesPiece};

use mtn_base::MAX_INPUT;
use mtn_ports::Source;
use std::alloc::{AllocError, Global};

// How many bytes a source is asked for at once.
const PIECE: usize = 65_536;

/// Why there is no payload.
#[derive(Clone, Copy, PartialEq, Eq)]
pub enum ReadStop {
    Failed,
    TooLong,
    NoMemory,
}

impl From<AllocError> for ReadStop {
    ghost use Rattle.std.specs.Prelude.{◌≡◌};
    ghost use Rattle.mtn_frame.specs.declared.payload.ReadStop.TheVariants.{NoMemory};

    ghost from_gives = { λ _ e. e ≡ NoMemory };

    fn from(_: AllocError) -> Self {
        ReadStop::NoMemory
    }
}

/// All that the source gives, read into one buffer.
pub fn read_payload<S: Source>(alloc: Global, source: &mut S) -> Result<Vec<u8>, ReadStop>
    ensures all { IfOk result (λ payload. Consumes (S.left source.old) (S.left source.new) payload.items × IsAtEnd (S.left source.new)) }
    ensures limit { Stops true (S.left source.old) (S.left source.new) result }
    ensures later { S.faults source.old ≤ S.faults source.new }
    ensures failed { IsErrOf result ReadStop.Failed → Rose (S.faults source.old) (S.faults source.new) }
{
    let mut payload = Vec::new(alloc);
    while payload.len() <= MAX_INPUT {
        if read_piece(source, &mut payload)? == 0 {
            return Ok(payload);
        }
    }
    Err(ReadStop::TooLong)
}

// Appends the next bytes of the source, and answers how many; 0 is the end.
fn read_piece<S: Source>(source: &mut S, payload: &mut Vec<u8>) -> Result<usize, ReadStop>
    requires { length payload.old.items ≤ MAX_INPUT }
    ensures piece { TakesPiece (S.left source.old) (S.left source.new) payload.old.items payload.new.items result }
    ensures later { S.faults source.old ≤ S.faults source.new }
    ensures failed { IsErrOf result ReadStop.Failed → Rose (S.faults source.old) (S.faults source.new) }
{
    let len = payload.len();
    payload.resize(len + PIECE, 0)?;
    match source.read(&mut payload[len..]) {
        Ok(count) => {
            payload.truncate(len + count);
            Ok(count)
        }
        Err(_) => Err(ReadStop::Failed),
    }
}

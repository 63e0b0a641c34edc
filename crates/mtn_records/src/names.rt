// Paths and names in a body.
ghost use Rattle.std.specs.Prelude.{◌≡◌, ◌≢◌};

use crate::error::RecordError;
use crate::field::Field;
use crate::lists::read_bytes;
use mtn_base::{Id, NoMemory, NodeName, Path, PathError};
use std::alloc::Global;

// Bad for a text that is no path.
fn of_path(error: PathError) -> RecordError
    ensures { result ≡ RecordError.Bad → error ≢ PathError.NoMemory }
{
    match error {
        PathError::NoMemory => RecordError::NoMemory,
        _ => RecordError::Bad,
    }
}

impl Field for Path {
    ghost use Rattle.mtn_records.specs.Entries.{path_field, IsPath};
    ghost use Rattle.mtn_records.specs.EntriesApart.{path_apart};

    ghost text = { path_field };

    ghost form = { IsPath };

    fn read(alloc: Global, bytes: &[u8]) -> Result<(Path, &[u8]), RecordError> {
        let Some((text, rest)) = read_bytes(bytes) else {
            return Err(RecordError::Bad);
        };
        match Path::read(alloc, text) {
            Ok(path) => Ok((path, rest)),
            Err(error) => Err(of_path(error)),
        }
    }

    fn write(&self, out: &mut Vec<u8>) -> Result<(), NoMemory> {
        let at = out.len();
        out.extend_from_slice(&[0; 4])?;
        self.write(out)?;
        let count = (out.len() - at - 4) as u32;
        out[at..at + 4].copy_from_slice(&count.to_be_bytes());
        Ok(())
    }

    ghost apart = { path_apart };
}

impl Field for NodeName {
    ghost use Rattle.mtn_records.specs.Entries.{name_text, IsName};
    ghost use Rattle.mtn_records.specs.EntriesApart.{name_apart};

    ghost text = { name_text };

    ghost form = { IsName };

    fn read(alloc: Global, bytes: &[u8]) -> Result<(NodeName, &[u8]), RecordError> {
        let ((birth, path), rest) = <(Id, Path)>::read(alloc, bytes)?;
        Ok((NodeName { birth, path }, rest))
    }

    fn write(&self, out: &mut Vec<u8>) -> Result<(), NoMemory> {
        self.birth.write(out)?;
        Field::write(&self.path, out)
    }

    ghost apart = { name_apart };
}

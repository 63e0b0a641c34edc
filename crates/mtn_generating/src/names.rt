// The names and texts of files.
ghost use Rattle.std.specs.Prelude.{◌≡◌, ◌∷◌, [], IfOk, decimal};
ghost use Rattle.mtn_base.specs.Comps.{IsComp};
ghost use Rattle.mtn_generated.specs.Numbered.{directory_at, file_text as text_in, path_at};

use mtn_base::{Bytes, Comp, NoMemory, Path, PathError};
use std::alloc::Global;

// A letter and a number, as a component.
fn component(alloc: Global, letter: u8, number: u64) -> Result<Comp, NoMemory>
    requires { IsComp (letter ∷ decimal number) }
    ensures { IfOk result (λ comp. comp ≡ letter ∷ decimal number) }
{
    let mut text = Vec::new(alloc);
    text.push(letter)?;
    text.extend_from_slice(number.to_string(alloc)?.as_bytes())?;
    match Comp::read(alloc, &text) {
        Ok(comp) => Ok(comp),
        Err(PathError::NoMemory) => Err(NoMemory),
        Err(_) => unreachable!(),
    }
}

/// The name of the directory in the tree of a revision.
fn directory(alloc: Global, revision: u64) -> Result<Comp, NoMemory>
    ensures { IfOk result (λ comp. comp ≡ directory_at revision) }
{
    let group = revision.saturating_sub(1) / 4;
    component(alloc, b'd', 4 * group + 1)
}

/// The path of the directory in the tree of a revision.
pub fn directory_path(alloc: Global, revision: u64) -> Result<Path, NoMemory>
    ensures { IfOk result (λ path. path ≡ directory_at revision ∷ []) }
{
    let mut path = Path::root(alloc);
    path.push(directory(alloc, revision)?)?;
    Ok(path)
}

/// The path of a file in that tree.
pub fn file_path(alloc: Global, revision: u64, file: u64) -> Result<Path, NoMemory>
    ensures { IfOk result (λ path. path ≡ path_at revision file) }
{
    let mut path = directory_path(alloc, revision)?;
    path.push(component(alloc, b'f', file)?)?;
    Ok(path)
}

/// What a revision makes of a file.
pub fn file_text(alloc: Global, file: u64, revision: u64) -> Result<Bytes, NoMemory>
    ensures { IfOk result (λ text. text ≡ text_in file revision) }
{
    let mut text = Vec::new(alloc);
    text.push(b'f')?;
    text.extend_from_slice(file.to_string(alloc)?.as_bytes())?;
    text.push(b' ')?;
    text.extend_from_slice(revision.to_string(alloc)?.as_bytes())?;
    text.push(b'\n')?;
    Ok(Bytes::from_vec(text))
}

// Components, paths, names.
ghost use Rattle.std.specs.Prelude.{◌≡◌, ◌∷◌, [], ◌++◌, IfOk, IfErr, OnOk, OnErr, length, take};
ghost use Rattle.mtn_base.specs.Comps.{AreComps, IsComp};
ghost use Rattle.mtn_base.specs.Names.{name_cmp, same_name};
ghost use Rattle.mtn_base.specs.Paths.{IsCompFault, IsPathFault, path_text};

use mtn_base::{Comp, NoMemory, NodeName, Path, PathError};
use std::alloc::Global;
use std::cmp::Ordering;

/// As `Comp::read`.
pub fn read_comp(alloc: Global, text: &[u8]) -> Result<Comp, PathError>
    ensures ok { IfOk result (λ comp. (comp ≡ text.now) × IsComp text.now) }
    ensures err { IfErr result (λ e. IsCompFault e text.now) }
{
    Comp::read(alloc, text)
}

/// As `Path::read`.
pub fn read_path(alloc: Global, text: &[u8]) -> Result<Path, PathError>
    ensures ok { IfOk result (λ path. path_text path ≡ text.now) }
    ensures lawful { IfOk result AreComps }
    ensures err { IfErr result (λ e. IsPathFault e text.now) }
{
    Path::read(alloc, text)
}

/// As `Path::write`.
pub fn write_path(path: &Path, out: &mut Vec<u8>) -> Result<(), NoMemory>
    ensures ok { OnOk result (out.new.items ≡ out.old.items ++ path_text path.now) }
    ensures lawful { OnOk result (AreComps path.now) }
    ensures err { OnErr result (take (length out.old.items) out.new.items ≡ out.old.items) }
{
    path.write(out)
}

/// As `Path::push`.
pub fn push(path: &mut Path, comp: Comp) -> Result<(), NoMemory>
    ensures ok { OnOk result (path.new ≡ path.old ++ comp ∷ []) }
    ensures err { OnErr result (path.new ≡ path.old) }
{
    path.push(comp)
}

/// As `Path::copy`.
pub fn copy_path(path: &Path, alloc: Global) -> Result<Path, NoMemory>
    ensures { IfOk result (λ copy. copy ≡ path.now) }
{
    path.copy(alloc)
}

/// As `NodeName::same`.
pub fn same(name: &NodeName, other: &NodeName) -> bool
    ensures { result ≡ same_name name.now other.now }
{
    name.same(other)
}

/// As `NodeName::compare`.
pub fn compare(name: &NodeName, other: &NodeName) -> Ordering
    ensures { result ≡ name_cmp name.now other.now }
{
    name.compare(other)
}

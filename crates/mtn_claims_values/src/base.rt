//! Ids, lists, paths, and the names of causes.
ghost use Rattle.std.specs.Prelude.{[], ◌++◌, ◌∷◌, ◌≡◌, IfOk, OnErr, OnOk, length};
ghost use Rattle.hex.specs.Hex.{IsBytes};
ghost use Rattle.mtn_base.specs.Comps.{IsComp};
ghost use Rattle.mtn_base.specs.Refusals.{cause_name, field_name, packet_why_name, why_name};

use mtn_base::{
    Bytes, Cause, Comp, Field, Id, List, NoMemory, NodeName, PacketWhy, Path, ShortBytes, Why,
};
use std::alloc::Global;

/// As `Id::as_slice`.
pub fn as_slice(id: &Id) -> &[u8]
    ensures value { result.now ≡ id.now.0 }
    ensures count { length id.now.0 ≡ 20 }
    ensures bytes { IsBytes id.now.0 }
{
    id.as_slice()
}

/// As `List::new`.
pub fn new_list<T>(alloc: Global) -> List<T>
    ensures { result ≡ [] }
{
    List::new(alloc)
}

/// As `List::from_vec`.
pub fn from_vec<T>(items: Vec<T>) -> List<T>
    ensures { result ≡ items.items }
{
    List::from_vec(items)
}

/// As `List::from_slice`.
pub fn from_slice(alloc: Global, bytes: &[u8]) -> Result<Bytes, NoMemory>
    ensures { IfOk result (λ l. l ≡ bytes.now) }
{
    List::from_slice(alloc, bytes)
}

/// As `List::as_slice`.
pub fn as_slice_of_list<T>(list: &List<T>) -> &[T]
    ensures { result.now ≡ list.now }
{
    list.as_slice()
}

/// As `List::push`.
pub fn push_list<T: Drop>(list: &mut List<T>, item: T) -> Result<(), NoMemory>
    ensures ok { OnOk result (list.new ≡ list.old ++ item ∷ []) }
    ensures err { OnErr result (list.new ≡ list.old) }
{
    list.push(item)
}

/// As `List::into_vec`.
pub fn into_vec<T>(list: List<T>) -> Vec<T>
    ensures { result.items ≡ list }
{
    list.into_vec()
}

/// As `List::copy`.
pub fn copy_list(list: &List<u8>, alloc: Global) -> Result<Bytes, NoMemory>
    ensures { IfOk result (λ l. l ≡ list.now) }
{
    list.copy(alloc)
}

/// As `ShortBytes::from_slice`.
pub fn short_from_slice(alloc: Global, bytes: &[u8]) -> Result<ShortBytes, NoMemory>
    ensures { IfOk result (λ copy. copy ≡ bytes.now) }
{
    ShortBytes::from_slice(alloc, bytes)
}

/// As `ShortBytes::as_slice`.
pub fn as_slice_of_short(short: &ShortBytes) -> &[u8]
    ensures { result.now ≡ short.now }
{
    short.as_slice()
}

/// As `ShortBytes::copy`.
pub fn copy_short(short: &ShortBytes, alloc: Global) -> Result<ShortBytes, NoMemory>
    ensures { IfOk result (λ copy. copy ≡ short.now) }
{
    short.copy(alloc)
}

/// As `NodeName::copy`.
pub fn copy_node_name(one: &NodeName, alloc: Global) -> Result<NodeName, NoMemory>
    ensures { IfOk result (λ name. name ≡ one.now) }
{
    one.copy(alloc)
}

/// As `Comp::bytes`.
pub fn bytes(comp: &Comp) -> &[u8]
    ensures value { result.now ≡ comp.now }
    ensures lawful { IsComp comp.now }
{
    comp.bytes()
}

/// As `Comp::copy`.
pub fn copy_comp(one: &Comp, alloc: Global) -> Result<Comp, NoMemory>
    ensures { IfOk result (λ comp. comp ≡ one.now) }
{
    one.copy(alloc)
}

/// As `Path::root`.
pub fn root(alloc: Global) -> Path
    ensures { result ≡ [] }
{
    Path::root(alloc)
}

/// As `Path::comps`.
pub fn comps(path: &Path) -> &[Comp]
    ensures { result.now ≡ path.now }
{
    path.comps()
}

/// As `Cause::copy`.
pub fn copy_cause(one: &Cause, alloc: Global) -> Result<Cause, NoMemory>
    ensures { IfOk result (λ cause. cause ≡ one.now) }
{
    one.copy(alloc)
}

/// As `Why::name`.
pub fn name_of_why(why: Why) -> &'static str
    ensures { result.now ≡ why_name why }
{
    why.name()
}

/// As `PacketWhy::name`.
pub fn name_of_packet_why(why: PacketWhy) -> &'static str
    ensures { result.now ≡ packet_why_name why }
{
    why.name()
}

/// As `Field::name`.
pub fn name_of_field(field: Field) -> &'static str
    ensures { result.now ≡ field_name field }
{
    field.name()
}

/// As `Cause::name`.
pub fn name_of_cause(cause: &Cause) -> &'static str
    ensures { result.now ≡ cause_name cause.now }
{
    cause.name()
}

// A node of the new tree while its edits are made.
ghost use Rattle.std.specs.Prelude.{◌≡◌, IsTrue, Some, None, IfOk, OnOk};
ghost use Rattle.mtn_roster.specs.declared.entry.Attr.{Attr};
ghost use Rattle.mtn_roster.specs.Tree.{with_attr};
ghost use Rattle.mtn_roster.specs.Attrs.{are_keyed};
ghost use Rattle.mtn_apply.specs.Edits.{attrs_in};

use mtn_base::{Bytes, List, NoMemory};
use mtn_roster::{Attr, Body};
use std::alloc::Global;
use std::collections::BTreeMap;

/// What edits change of an entry. Its attributes stand in a map by their keys, so that many of one node
/// cost no more than to sort them.
#[derive(Drop)]
pub struct Draft {
    pub body: Body,
    pub attrs: BTreeMap<Vec<u8>, Option<Bytes>>,
}

/// Puts an attribute in its place by key, over an earlier one of its key.
fn put_attr(
    map: &mut BTreeMap<Vec<u8>, Option<Bytes>>,
    key: Bytes,
    value: Option<Bytes>,
) -> Result<(), NoMemory>
    ensures { OnOk result (attrs_in map.new ≡ with_attr (record { key = key; value = value }) (attrs_in map.old)) }
{
    map.insert(key.into_vec(), value)?;
    Ok(())
}

/// Attributes by ascending keys as a map. The last goes in first, so that each goes in at the front.
pub fn by_keys(
    alloc: Global,
    mut attrs: Vec<Attr>,
) -> Result<BTreeMap<Vec<u8>, Option<Bytes>>, NoMemory>
    requires rising { IsTrue (are_keyed attrs.items) }
    ensures { IfOk result (λ map. attrs_in map ≡ attrs.items) }
{
    let mut map = BTreeMap::new(alloc);
    while let Some(attr) = attrs.pop() {
        put_attr(&mut map, attr.key, attr.value)?;
    }
    Ok(map)
}

/// The attributes of a map.
pub fn attrs_of(
    alloc: Global,
    map: BTreeMap<Vec<u8>, Option<Bytes>>,
) -> Result<List<Attr>, NoMemory>
    ensures { IfOk result (λ attrs. attrs ≡ attrs_in map) }
{
    let mut attrs = Vec::with_capacity(alloc, map.len())?;
    for (key, value) in map {
        attrs.push(Attr {
            key: List::from_vec(key),
            value,
        })?;
    }
    Ok(List::from_vec(attrs))
}

impl Draft {
    /// Puts an attribute in its place.
    pub fn put(&mut self, key: Bytes, value: Option<Bytes>) -> Result<(), NoMemory>
        ensures body { OnOk result (self.new.body ≡ self.old.body) }
        ensures attrs { OnOk result (attrs_in self.new.attrs ≡ with_attr (record { key = key; value = value }) (attrs_in self.old.attrs)) }
    {
        put_attr(&mut self.attrs, key, value)
    }
}

//! Attributes of one node, by ascending keys as they stand in a tree.
ghost use Rattle.std.specs.Prelude.{◌≡◌, ◌↔◌, ◌<◌, IsTrue, IfOk, IfSome, find, length, option_copied, option_and_then, slice_get};
ghost use Rattle.mtn_base.specs.Names.{same_bytes};
ghost use Rattle.mtn_roster.specs.Attrs.{are_keyed};
ghost use Rattle.mtn_roster.specs.Tree.{live_of};

use crate::Attr;
use mtn_base::{Bytes, NoMemory};
use std::alloc::Global;

/// Where the attribute of a key stands. It takes no memory.
pub fn place_of_key(attrs: &[Attr], key: &[u8]) -> Option<usize>
    requires { IsTrue (are_keyed attrs.now) }
    ensures within { IfSome result (λ at. at < length attrs.now) }
    ensures attr { option_and_then (slice_get attrs.now) result ≡ find (λ (a : Attr). same_bytes a.key key.now) attrs.now }
{
    match attrs.binary_search_by(|attr| attr.key.as_slice().cmp(key)) {
        Ok(at) => Some(at),
        Err(_) => None,
    }
}

/// The live value of a key. It takes no memory.
pub fn live_value<'a>(attrs: &'a [Attr], key: &[u8]) -> Option<&'a Bytes>
    requires { IsTrue (are_keyed attrs.now) }
    ensures { option_copied result ≡ live_of attrs.now key.now }
{
    match place_of_key(attrs, key) {
        None => None,
        Some(at) => attrs[at].value.as_ref(),
    }
}

/// Whether two values are equal; `None`, cleared, is a value. It takes no memory.
pub fn same_value(first: &Option<Bytes>, second: &Option<Bytes>) -> bool
    ensures { IsTrue result ↔ (first.now ≡ second.now) }
{
    match first {
        None => second.is_none(),
        Some(value) => match second {
            None => false,
            Some(other) => value.as_slice() == other.as_slice(),
        },
    }
}

/// An equal value.
pub fn copy_value(alloc: Global, value: &Option<Bytes>) -> Result<Option<Bytes>, NoMemory>
    ensures { IfOk result (λ v. v ≡ value.now) }
{
    match value {
        None => Ok(None),
        Some(bytes) => Ok(Some(bytes.copy(alloc)?)),
    }
}

/// Equal attributes.
pub fn copy_attrs(alloc: Global, attrs: &[Attr]) -> Result<Vec<Attr>, NoMemory>
    ensures { IfOk result (λ copies. copies.items ≡ attrs.now) }
{
    let mut copies = Vec::with_capacity(alloc, attrs.len())?;
    for attr in attrs {
        copies.push(attr.copy(alloc)?)?;
    }
    Ok(copies)
}

//! Nodes of `mtn_roster` by their places, and their attributes by keys.
ghost use Rattle.std.specs.Prelude.{◌≡◌, ◌<◌, find, length, option_and_then, option_copied, slice_get, IsTrue, IfOk, IfSome};
ghost use Rattle.mtn_base.specs.Names.{same_bytes};
ghost use Rattle.mtn_roster.specs.Attrs.{are_keyed};
ghost use Rattle.mtn_roster.specs.Tree.{child_of, entry_of, is_dir_body, is_root_slot, live_of, node_at, IsSane};

use mtn_base::{Bytes, Comp, NoMemory, NodeName, Path};
use mtn_roster::attrs::{copy_attrs, live_value, place_of_key};
use mtn_roster::{Attr, Body, Entry, Roster, Slot};
use std::alloc::Global;

/// `Roster::len`.
pub fn count(roster: &Roster) -> u64
    ensures count { result ≡ length roster.now }
    ensures sane { IsSane roster.now }
{
    roster.len()
}

/// `Roster::place_of`.
pub fn place_of(roster: &Roster, name: &NodeName) -> Option<usize>
    ensures { option_and_then (slice_get roster.now) result ≡ entry_of roster.now name.now }
{
    roster.place_of(name)
}

/// `Roster::place_at_path`.
pub fn place_at_path(roster: &Roster, path: &Path) -> Option<usize>
    ensures { option_and_then (slice_get roster.now) result ≡ node_at roster.now path.now }
{
    roster.place_at_path(path)
}

/// `Roster::child_place`.
pub fn child_place(roster: &Roster, above: usize, name: &Comp) -> Option<usize>
    ensures { option_and_then (slice_get roster.now) result ≡ option_and_then (child_of roster.now name.now) (slice_get roster.now above) }
{
    roster.child_place(above, name)
}

/// `Roster::at_place`.
pub fn at_place<'a>(roster: &'a Roster, place: usize) -> Option<&'a Entry>
    ensures { option_copied result ≡ slice_get roster.now place }
{
    roster.at_place(place)
}

/// `Body::is_dir`.
pub fn is_dir(body: &Body) -> bool
    ensures { result ≡ is_dir_body body.now }
{
    body.is_dir()
}

/// `Slot::is_root`.
pub fn is_root(slot: &Slot) -> bool
    ensures { result ≡ is_root_slot slot.now }
{
    slot.is_root()
}

/// `attrs::place_of_key`.
pub fn key_place(attrs: &[Attr], key: &[u8]) -> Option<usize>
    requires { IsTrue (are_keyed attrs.now) }
    ensures within { IfSome result (λ at. at < length attrs.now) }
    ensures attr { option_and_then (slice_get attrs.now) result ≡ find (λ (a : Attr). same_bytes a.key key.now) attrs.now }
{
    place_of_key(attrs, key)
}

/// `attrs::live_value`.
pub fn live<'a>(attrs: &'a [Attr], key: &[u8]) -> Option<&'a Bytes>
    requires { IsTrue (are_keyed attrs.now) }
    ensures { option_copied result ≡ live_of attrs.now key.now }
{
    live_value(attrs, key)
}

/// `attrs::copy_attrs`.
pub fn attrs_copied(alloc: Global, attrs: &[Attr]) -> Result<Vec<Attr>, NoMemory>
    ensures { IfOk result (λ copies. copies.items ≡ attrs.now) }
{
    copy_attrs(alloc, attrs)
}

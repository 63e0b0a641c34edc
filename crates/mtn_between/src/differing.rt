// What changes of one node.
ghost use Rattle.std.specs.Prelude.{◌≡◌, IfOk, IsTrue};
ghost use Rattle.mtn_roster.specs.Attrs.{are_keyed};
ghost use Rattle.mtn_base.specs.Names.{same_bytes};
ghost use Rattle.mtn_base.specs.Lists.{is_some_with};
ghost use Rattle.mtn_roster.specs.Tree.{live_of, path_of as path_in};
ghost use Rattle.mtn_between.specs.Walking.{IsMet, IsStanding, entry_in, entry_of_node};
ghost use Rattle.mtn_between.specs.Between.{deleting, renaming, adding_dir, adding_file, patching, clearing_key, setting_key};

use crate::side::{Met, Node, path_of};
use mtn_base::NoMemory;
use mtn_changes::Change;
use mtn_roster::attrs::live_value;
use mtn_roster::{Attr, Body, Roster};
use std::alloc::Global;

/// The delete of a node of the old tree, if the new one lacks it.
pub fn deleted(
    alloc: Global,
    old: &Roster,
    new: &Roster,
    met: &Met,
) -> Result<Option<Change>, NoMemory>
    requires { IsMet old.now new.now met.now }
    ensures { IfOk result (λ c. c ≡ deleting old.now new.now (entry_in met.now)) }
{
    match met.mate {
        Some(_) => Ok(None),
        None => Ok(Some(Change::Delete {
            path: path_of(alloc, old, &met.node)?,
        })),
    }
}

/// The rename of a node of the old tree, if it hangs elsewhere in the new one.
pub fn renamed(
    alloc: Global,
    old: &Roster,
    new: &Roster,
    met: &Met,
) -> Result<Option<Change>, NoMemory>
    requires { IsMet old.now new.now met.now }
    ensures { IfOk result (λ c. c ≡ renaming old.now new.now (entry_in met.now)) }
{
    match met.mate {
        None => Ok(None),
        Some(mate) => {
            if met.node.entry.slot.same(&mate.entry.slot) {
                return Ok(None);
            }
            Ok(Some(Change::Rename {
                path: path_of(alloc, old, &met.node)?,
                to: path_of(alloc, new, &mate)?,
            }))
        }
    }
}

/// The add of a directory of the new tree, if the old one lacks it.
pub fn added_dir(
    alloc: Global,
    old: &Roster,
    new: &Roster,
    met: &Met,
) -> Result<Option<Change>, NoMemory>
    requires { IsMet new.now old.now met.now }
    ensures { IfOk result (λ c. c ≡ adding_dir old.now new.now (entry_in met.now)) }
{
    match met.mate {
        Some(_) => Ok(None),
        None => {
            if !met.node.entry.body.is_dir() {
                return Ok(None);
            }
            Ok(Some(Change::AddDir {
                path: path_of(alloc, new, &met.node)?,
            }))
        }
    }
}

/// The add of a file of the new tree, if the old one lacks it.
pub fn added_file(
    alloc: Global,
    old: &Roster,
    new: &Roster,
    met: &Met,
) -> Result<Option<Change>, NoMemory>
    requires { IsMet new.now old.now met.now }
    ensures { IfOk result (λ c. c ≡ adding_file old.now new.now (entry_in met.now)) }
{
    match met.mate {
        Some(_) => Ok(None),
        None => match met.node.entry.body {
            Body::Dir => Ok(None),
            Body::File { content } => Ok(Some(Change::AddFile {
                path: path_of(alloc, new, &met.node)?,
                content,
            })),
        },
    }
}

/// The patch of a file of both trees, if its content differs.
pub fn patched(
    alloc: Global,
    old: &Roster,
    new: &Roster,
    met: &Met,
) -> Result<Option<Change>, NoMemory>
    requires { IsMet new.now old.now met.now }
    ensures { IfOk result (λ c. c ≡ patching old.now new.now (entry_in met.now)) }
{
    let Some(mate) = met.mate else {
        return Ok(None);
    };
    match mate.entry.body {
        Body::Dir => Ok(None),
        Body::File { content: from } => match met.node.entry.body {
            Body::Dir => Ok(None),
            Body::File { content: to } => {
                if from == to {
                    return Ok(None);
                }
                Ok(Some(Change::Patch {
                    path: path_of(alloc, new, &met.node)?,
                    from,
                    to,
                }))
            }
        },
    }
}

/// The clear of an attribute that a node had, if it was live and is no longer.
pub fn cleared(
    alloc: Global,
    new: &Roster,
    node: &Node,
    attr: &Attr,
) -> Result<Option<Change>, NoMemory>
    requires here { IsStanding new.now node.now }
    requires keyed { IsTrue (are_keyed (entry_of_node node.now).attrs) }
    ensures { IfOk result (λ c. c ≡ clearing_key (path_in new.now (entry_of_node node.now)) (entry_of_node node.now).attrs attr.now) }
{
    match &attr.value {
        None => Ok(None),
        Some(_) => match live_value(node.entry.attrs.as_slice(), attr.key.as_slice()) {
            Some(_) => Ok(None),
            None => Ok(Some(Change::Clear {
                path: path_of(alloc, new, node)?,
                key: attr.key.copy(alloc)?,
            })),
        },
    }
}

/// Whether the value of a key is live among attributes.
fn is_live(attrs: &[Attr], key: &[u8], value: &[u8]) -> bool
    requires { IsTrue (are_keyed attrs.now) }
    ensures { result ≡ is_some_with (same_bytes value.now) (live_of attrs.now key.now) }
{
    match live_value(attrs, key) {
        None => false,
        Some(live) => value == live.as_slice(),
    }
}

/// The set of an attribute, if it is live with a value that the node had not.
pub fn set(
    alloc: Global,
    new: &Roster,
    node: &Node,
    before: &[Attr],
    attr: &Attr,
) -> Result<Option<Change>, NoMemory>
    requires here { IsStanding new.now node.now }
    requires keyed { IsTrue (are_keyed before.now) }
    ensures { IfOk result (λ c. c ≡ setting_key (path_in new.now (entry_of_node node.now)) before.now attr.now) }
{
    match &attr.value {
        None => Ok(None),
        Some(value) => {
            if is_live(before, attr.key.as_slice(), value.as_slice()) {
                return Ok(None);
            }
            Ok(Some(Change::Set {
                path: path_of(alloc, new, node)?,
                key: attr.key.copy(alloc)?,
                value: value.copy(alloc)?,
            }))
        }
    }
}

// What the certificates of a case give.
ghost use Rattle.std.specs.Prelude.{Contains, IsTrue};
ghost use Rattle.mtn_base.specs.declared.id.Id.{Id as Named};
ghost use Rattle.mtn_branches.specs.Graphs.{IsHeldBy};

use crate::case::Case;
use mtn_ancestry::Graph;
use mtn_base::Id;
use mtn_branches::{branches, heads, members};
use mtn_certs::{Cert, list};
use std::alloc::Global;

fn put_ids(ids: &[Id], out: &mut Vec<u8>) -> Option<()> {
    for id in ids {
        out.push(b' ').ok()?;
        out.push(id.0[0]).ok()?;
    }
    out.push(b'\n').ok()
}

// Whether the graph has each of these.
fn are_held(graph: &Graph, ids: &[Id]) -> bool
    ensures { IsTrue result → (r : Named) → Contains ids.now r → IsHeldBy graph.now r }
{
    for id in ids {
        match graph.find(*id) {
            Some(_) => {}
            None => return false,
        }
    }
    true
}

/// `members BRANCH`.
pub fn put_members(alloc: Global, case: &Case, branch: &[u8], out: &mut Vec<u8>) -> Option<()> {
    let ids = members(alloc, &case.certs, branch).ok()?;
    out.extend_from_slice(b"members").ok()?;
    put_ids(&ids, out)
}

// The heads, where the graph has each member.
fn heads_of(alloc: Global, graph: &Graph, certs: &[Cert], branch: &[u8]) -> Option<Vec<Id>> {
    let Ok(ids) = members(alloc, certs, branch) else {
        return None;
    };
    if !are_held(graph, &ids) {
        return None;
    }
    heads(alloc, graph, certs, branch).ok()
}

/// `heads BRANCH`.
pub fn put_heads(alloc: Global, case: &Case, branch: &[u8], out: &mut Vec<u8>) -> Option<()> {
    let ids = heads_of(alloc, &case.graph, &case.certs, branch)?;
    out.extend_from_slice(b"heads").ok()?;
    put_ids(&ids, out)
}

/// `branches`.
pub fn put_branches(alloc: Global, case: &Case, out: &mut Vec<u8>) -> Option<()> {
    for value in &branches(alloc, &case.certs).ok()? {
        out.extend_from_slice(b"branch ").ok()?;
        out.extend_from_slice(value.as_slice()).ok()?;
        out.push(b'\n').ok()?;
    }
    Some(())
}

/// `list`.
pub fn put_list(case: &Case, out: &mut Vec<u8>) -> Option<()> {
    list(&case.certs, &case.keys, out).ok()
}

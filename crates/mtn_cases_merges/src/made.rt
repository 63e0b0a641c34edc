// Decisions made by hand, as resolutions leave them.
ghost use Rattle.std.specs.Prelude.{◌≡◌, IsTrue, map};
ghost use Rattle.std.specs.List.{list_all};
ghost use Rattle.mtn_base.specs.Names.{bytes_cmp, name_cmp};
ghost use Rattle.mtn_base.specs.Lists.{rises};
ghost use Rattle.mtn_decide.specs.declared.decision.AttrDecision.{AttrDecision};
ghost use Rattle.mtn_decide.specs.declared.decision.Decision.{Decision};
ghost use Rattle.mtn_decide.specs.Decisions.{has_keys_in_order, is_absent};

use mtn_base::List;
use mtn_case_trees::entry_of;
use mtn_decide::{AttrChoice, AttrDecision, ContentChoice, Decision, Decisions, SlotChoice};
use mtn_roster::{Attr, Body, Entry};
use std::alloc::Global;

fn settled(alloc: Global, attrs: Vec<Attr>) -> Option<Vec<AttrDecision>> {
    let mut decided = Vec::new(alloc);
    for attr in attrs {
        let choice = AttrChoice::Fixed(attr.value);
        let key = attr.key;
        decided.push(AttrDecision { key, choice }).ok()?;
    }
    Some(decided)
}

fn content_of(body: Body) -> ContentChoice {
    match body {
        Body::Dir => ContentChoice::Absent,
        Body::File { content } => ContentChoice::Fixed(content),
    }
}

/// The decision for all that an entry has.
fn decided(alloc: Global, entry: Entry, reborn: bool) -> Option<Decision> {
    let attrs = settled(alloc, entry.attrs.into_vec())?;
    Some(Decision {
        name: entry.name,
        is_dir: entry.body.is_dir(),
        slot: SlotChoice::Fixed(entry.slot),
        content: content_of(entry.body),
        attrs: List::from_vec(attrs),
        reborn,
    })
}

/// Appends the decision of a line, if it has one.
fn add_line(alloc: Global, nodes: &mut Vec<Decision>, line: &[u8]) -> Option<()> {
    let reborn = line.starts_with(b"reborn ");
    if reborn || line.starts_with(b"node ") {
        let entry = entry_of(alloc, line)?;
        nodes.push(decided(alloc, entry, reborn)?).ok()?;
    }
    Some(())
}

/// The decisions of the lines of a case.
fn nodes_of(alloc: Global, case: &[u8]) -> Option<Vec<Decision>> {
    let mut nodes = Vec::new(alloc);
    for line in case.split(|byte| *byte == b'\n') {
        add_line(alloc, &mut nodes, line)?;
    }
    Some(nodes)
}

/// Whether the names of decisions ascend.
fn names_ascend(nodes: &[Decision]) -> bool
    ensures { IsTrue result → IsTrue (rises name_cmp (map (λ (d : Decision). d.name) nodes.now)) }
{
    nodes.is_sorted_by(|first, second| first.name.compare(&second.name).is_lt())
}

/// Whether the keys of attributes ascend.
fn keys_ascend(attrs: &[AttrDecision]) -> bool
    ensures { IsTrue result → IsTrue (rises bytes_cmp (map (λ (a : AttrDecision). a.key) attrs.now)) }
{
    attrs.is_sorted_by(|first, second| { first.key.as_slice().cmp(second.key.as_slice()).is_lt() })
}

/// Whether there is no content.
fn has_no_content(content: ContentChoice) -> bool
    ensures { result ≡ is_absent content }
{
    match content {
        ContentChoice::Absent => true,
        ContentChoice::Fixed(_) => false,
        ContentChoice::Clash { .. } => false,
    }
}

/// Whether the keys of each decision ascend, and exactly directories have no content.
fn are_whole(nodes: &[Decision]) -> bool
    ensures keys { IsTrue result → IsTrue (list_all has_keys_in_order nodes.now) }
    ensures kinds { IsTrue result → map (λ (d : Decision). is_absent d.content) nodes.now ≡ map (λ (d : Decision). d.is_dir) nodes.now }
{
    for node in nodes {
        if !keys_ascend(node.attrs.as_slice()) {
            return false;
        }
        if has_no_content(node.content) != node.is_dir {
            return false;
        }
    }
    true
}

/// The decisions of the lines of a case; none where they are not in order.
pub fn made_by_hand(alloc: Global, case: &[u8]) -> Option<Decisions> {
    let nodes = nodes_of(alloc, case)?;
    if names_ascend(&nodes) && are_whole(&nodes) {
        Some(Decisions::new(nodes, Vec::new(alloc)))
    } else {
        None
    }
}

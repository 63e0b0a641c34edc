// Whether decided parents are directories.
ghost use Rattle.std.specs.Prelude.{◌≡◌, ◌↔◌, IsTrue, map, option_copied, slice_get};
ghost use Rattle.mtn_base.specs.Lists.{rises};
ghost use Rattle.mtn_base.specs.Names.{name_cmp};
ghost use Rattle.mtn_conflicts.specs.Result.{ParentsAreDirs};
ghost use Rattle.mtn_decide.specs.declared.decision.Decision.{Decision as Decided};
ghost use Rattle.mtn_decide.specs.Decisions.{decision_of};
ghost use Rattle.mtn_merge.specs.Parents.{HangsOnFile};

use mtn_base::NodeName;
use mtn_decide::{Decision, SlotChoice};
use mtn_roster::Slot;

/// The decision at a place.
fn node_at(nodes: &[Decision], place: usize) -> Option<&Decision>
    ensures { option_copied result ≡ slice_get nodes.now place }
{
    nodes.get(place)
}

/// What is decided of a node.
fn decision_at<'a>(nodes: &'a [Decision], name: &NodeName) -> Option<&'a Decision>
    requires { IsTrue (rises name_cmp (map (λ (d : Decided). d.name) nodes.now)) }
    ensures { option_copied result ≡ decision_of nodes.now name.now }
{
    match nodes.binary_search_by(|node| node.name.compare(name)) {
        Ok(place) => node_at(nodes, place),
        Err(_) => None,
    }
}

/// Whether a file has the root slot, or the decided parent is a file.
fn hangs_on_file(nodes: &[Decision], node: &Decision) -> bool
    requires { IsTrue (rises name_cmp (map (λ (d : Decided). d.name) nodes.now)) }
    ensures { IsTrue result ↔ HangsOnFile nodes.now node.now }
{
    match &node.slot {
        SlotChoice::Clash { .. } => false,
        SlotChoice::Fixed(slot) => match slot {
            Slot::Root => !node.is_dir,
            Slot::Below { parent, .. } => match decision_at(nodes, parent) {
                None => false,
                Some(above) => !above.is_dir,
            },
        },
    }
}

/// Whether what has the root slot or is a decided parent is a directory. It takes no memory.
pub fn parents_are_dirs(nodes: &[Decision]) -> bool
    requires { IsTrue (rises name_cmp (map (λ (d : Decided). d.name) nodes.now)) }
    ensures { IsTrue result ↔ ParentsAreDirs nodes.now }
{
    for node in nodes {
        if hangs_on_file(nodes, node) {
            return false;
        }
    }
    true
}

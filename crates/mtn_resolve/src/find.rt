// Where a node, a pending file and a key stand.
ghost use Rattle.std.specs.Prelude.{◌≡◌, ◌<◌, IsTrue, IfSome, find, length, map, slice_get, option_and_then};
ghost use Rattle.mtn_base.specs.Names.{bytes_cmp, name_cmp, same_bytes};
ghost use Rattle.mtn_decide.specs.declared.decision.AttrDecision.{AttrDecision};
ghost use Rattle.mtn_decide.specs.declared.decision.Decision.{Decision};
ghost use Rattle.mtn_decide.specs.declared.decision.Pending.{Pending};
ghost use Rattle.mtn_decide.specs.Decisions.{decision_of, pending_of};
ghost use Rattle.mtn_base.specs.Lists.{rises};

use mtn_base::NodeName;
use mtn_decide::{AttrDecision, Decision, Pending};

/// Where the decision of a name stands. It takes no memory.
pub fn place_of_node(nodes: &[Decision], name: &NodeName) -> Option<usize>
    requires { IsTrue (rises name_cmp (map (λ (d : Decision). d.name) nodes.now)) }
    ensures within { IfSome result (λ place. place < length nodes.now) }
    ensures node { option_and_then (slice_get nodes.now) result ≡ decision_of nodes.now name.now }
{
    match nodes.binary_search_by(|node| node.name.compare(name)) {
        Ok(place) => Some(place),
        Err(_) => None,
    }
}

/// Where the pending file of a name stands. It takes no memory.
pub fn place_of_file(files: &[Pending], name: &NodeName) -> Option<usize>
    requires { IsTrue (rises name_cmp (map (λ (p : Pending). p.entry.name) files.now)) }
    ensures within { IfSome result (λ place. place < length files.now) }
    ensures file { option_and_then (slice_get files.now) result ≡ pending_of files.now name.now }
{
    match files.binary_search_by(|file| file.entry.name.compare(name)) {
        Ok(place) => Some(place),
        Err(_) => None,
    }
}

/// Where the attribute of a key stands. It takes no memory.
pub fn place_of_key(attrs: &[AttrDecision], key: &[u8]) -> Option<usize>
    requires { IsTrue (rises bytes_cmp (map (λ (a : AttrDecision). a.key) attrs.now)) }
    ensures within { IfSome result (λ place. place < length attrs.now) }
    ensures attr { option_and_then (slice_get attrs.now) result ≡ find (λ a. same_bytes a.key key.now) attrs.now }
{
    match attrs.binary_search_by(|attr| attr.key.as_slice().cmp(key)) {
        Ok(place) => Some(place),
        Err(_) => None,
    }
}

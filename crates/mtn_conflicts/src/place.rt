// Where a live node stands among all.
ghost use Rattle.std.specs.Prelude.{◌≡◌, ◌<◌, IsTrue, IfSome, length, map, slice_get, option_and_then};
ghost use Rattle.mtn_base.specs.Names.{name_cmp};
ghost use Rattle.mtn_decide.specs.declared.decision.Decision.{Decision};
ghost use Rattle.mtn_decide.specs.Decisions.{decision_of};
ghost use Rattle.mtn_base.specs.Lists.{rises};

use mtn_base::NodeName;
use mtn_decide::Decision;

/// Where the decision of a name stands. It takes no memory.
pub fn place_of(nodes: &[Decision], name: &NodeName) -> Option<usize>
    requires { IsTrue (rises name_cmp (map (λ (d : Decision). d.name) nodes.now)) }
    ensures within { IfSome result (λ place. place < length nodes.now) }
    ensures node { option_and_then (slice_get nodes.now) result ≡ decision_of nodes.now name.now }
{
    match nodes.binary_search_by(|node| node.name.compare(name)) {
        Ok(place) => Some(place),
        Err(_) => None,
    }
}

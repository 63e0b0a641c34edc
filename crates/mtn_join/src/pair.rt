// Two nodes at one path, one of each side.
ghost use Rattle.std.specs.Prelude.{◌≡◌, IsTrue, Some, option_map};
ghost use Rattle.mtn_changeset_laws.specs.Joining.{is_old as is_old_in, same_body as have_same_body, disagree as nodes_disagree, is_revived as is_node_revived, join_why};
ghost use Rattle.mtn_roster.specs.Attrs.{are_keyed};
ghost use Rattle.mtn_join.specs.Join.{is_outside};
ghost use Rattle.mtn_join.specs.Pairing.{why_of};

use crate::attrs::same_live;
use mtn_base::Id;
use mtn_roster::{Body, Entry};
use std::collections::BTreeSet;

/// What is wrong with two nodes at one path.
#[derive(Clone, Copy)]
pub enum PairFault {
    Disagree,
    Revived,
}

/// What is known of births: the new revision, and those that are ancestors of one parent alone.
#[derive(Clone, Copy)]
pub struct Births<'a> {
    pub new: Id,
    pub only_left: &'a BTreeSet<Id>,
    pub only_right: &'a BTreeSet<Id>,
}

/// Whether a node is not born in the new revision.
pub fn is_old(entry: &Entry, new: Id) -> bool
    ensures { result ≡ is_old_in new entry.now }
{
    entry.name.birth != new
}

fn same_body(first: &Body, second: &Body) -> bool
    ensures { result ≡ have_same_body first.now second.now }
{
    match first {
        Body::Dir => match second {
            Body::Dir => true,
            Body::File { .. } => false,
        },
        Body::File { content } => match second {
            Body::Dir => false,
            Body::File { content: other } => *content == *other,
        },
    }
}

/// Whether two nodes are of unlike kinds, contents or live attributes, or two old ones.
fn disagree(x: &Entry, y: &Entry, new: Id) -> bool
    requires left { IsTrue (are_keyed x.now.attrs) }
    requires right { IsTrue (are_keyed y.now.attrs) }
    ensures { result ≡ nodes_disagree new x.now y.now }
{
    (is_old(x, new) && is_old(y, new) && !x.name.same(&y.name))
        || !same_body(&x.body, &y.body)
        || !same_live(x.attrs.as_slice(), y.attrs.as_slice())
}

/// Whether an old node of one side, which the other side adds, has a birth that the other side's parent knows.
fn is_revived(x: &Entry, y: &Entry, births: &Births) -> bool
    ensures { result ≡ is_node_revived births.now.new (is_outside births.now.only_right.now) (is_outside births.now.only_left.now) x.now y.now }
{
    let left = is_old(x, births.new);
    let right = is_old(y, births.new);
    (left && !right && !births.only_left.contains(&x.name.birth))
        || (right && !left && !births.only_right.contains(&y.name.birth))
}

/// What is wrong with two nodes at one path, Disagree first.
pub fn pair_fault(x: &Entry, y: &Entry, births: &Births) -> Option<PairFault>
    requires left { IsTrue (are_keyed x.now.attrs) }
    requires right { IsTrue (are_keyed y.now.attrs) }
    ensures { option_map why_of result ≡ join_why births.now.new (is_outside births.now.only_right.now) (is_outside births.now.only_left.now) (Some x.now) (Some y.now) }
{
    if disagree(x, y, births.new) {
        Some(PairFault::Disagree)
    } else if is_revived(x, y, births) {
        Some(PairFault::Revived)
    } else {
        None
    }
}

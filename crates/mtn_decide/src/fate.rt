// What comes of one node.
ghost use Rattle.std.specs.Prelude.{◌≡◌, ◌↔◌, IsTrue, IsFalse, IfOk, option_map};
ghost use Rattle.mtn_base.specs.declared.name.NodeName.{NodeName};
ghost use Rattle.mtn_decide.specs.Decisions.{is_absent};
ghost use Rattle.mtn_decide.specs.Parts.{seen, left_of, right_of, turn_name, content_side, IsChanged, IsOrderly, IsDecisionWith, IsFate};
ghost use Rattle.mtn_decide.specs.Sets.{LivesWith, IsPendingWith};

use crate::attrs::decide_attrs;
use crate::choose::{choose_content, choose_slot};
use crate::decision::{ContentChoice, Decision, Pending};
use crate::known::{
    Content, SideNode, Turn, attr_marks_in, attrs_in, content_in, left_known, right_known,
};
use crate::scalar::{all_known, lives};
use mtn_ancestry::PosSet;
use mtn_base::{List, NoMemory, NodeName};
use std::alloc::Global;

/// What a merge makes of a node of a side: it lives, it is pending, or it is gone.
#[derive(Drop)]
pub enum Fate {
    Live(Decision),
    Held(Pending),
    Gone,
}

/// Whether the node whose turn it is lives. It takes no memory.
fn lives_at(turn: Turn, only_left: &PosSet, only_right: &PosSet) -> bool
    ensures { IsTrue result ↔ LivesWith only_left.now only_right.now (left_of turn.entry) (right_of turn.entry) }
{
    match turn {
        Turn::Left(left) => lives(left.marking.birth, true, false, only_left, only_right),
        Turn::Right(right) => lives(right.marking.birth, false, true, only_left, only_right),
        Turn::Both(left, _) => lives(left.marking.birth, true, true, only_left, only_right),
    }
}

/// The name of the node whose turn it is.
fn name_of(alloc: Global, turn: Turn) -> Result<NodeName, NoMemory>
    ensures { IfOk result (λ n. n ≡ turn_name turn.entry) }
{
    match turn {
        Turn::Left(left) => left.node.name.copy(alloc),
        Turn::Right(right) => right.node.name.copy(alloc),
        Turn::Both(left, _) => left.node.name.copy(alloc),
    }
}

/// Whether there is no content.
fn has_no_content(content: ContentChoice) -> bool
    ensures { result ≡ is_absent content }
{
    match content {
        ContentChoice::Absent => true,
        ContentChoice::Fixed(_) => false,
        ContentChoice::Clash { .. } => false,
    }
}

/// What is decided of a node that lives.
fn decide_node(
    alloc: Global,
    turn: Turn,
    only_left: &PosSet,
    only_right: &PosSet,
) -> Result<Decision, NoMemory>
    requires left { IsOrderly (left_of turn) }
    requires right { IsOrderly (right_of turn) }
    ensures { IfOk result (IsDecisionWith only_left.now only_right.now (turn_name turn.entry) (left_of turn.entry) (right_of turn.entry)) }
{
    let left = left_known(turn);
    let right = right_known(turn);
    let name = name_of(alloc, turn)?;
    let slot = choose_slot(alloc, turn, only_left, only_right)?;
    let content = choose_content(content_in(left), content_in(right), only_left, only_right);
    let attrs = decide_attrs(
        alloc,
        attrs_in(left),
        attr_marks_in(left),
        attrs_in(right),
        attr_marks_in(right),
        only_left,
        only_right,
    )?;
    Ok(Decision {
        name,
        is_dir: has_no_content(content),
        slot,
        content,
        attrs: List::from_vec(attrs),
        reborn: false,
    })
}

/// Whether a node that one side has, and that does not live, has a content that the other does not win.
fn is_changed(content: Option<Content>, only: &PosSet) -> bool
    ensures yes { IsTrue result → IsChanged (option_map content_side content.entry) only.now }
    ensures no { IsFalse result → ¬ IsChanged (option_map content_side content.entry) only.now }
{
    match content {
        None => false,
        Some(found) => !all_known(found.marks, only),
    }
}

/// What comes of a node that does not live.
fn fate_of_dead(
    alloc: Global,
    turn: Turn,
    only_left: &PosSet,
    only_right: &PosSet,
) -> Result<Fate, NoMemory>
    requires { ¬ LivesWith only_left.now only_right.now (left_of turn) (right_of turn) }
    ensures { IfOk result (IsFate only_left.now only_right.now (turn_name turn.entry) (left_of turn.entry) (right_of turn.entry)) }
{
    match turn {
        Turn::Left(left) => {
            if is_changed(content_in(Some(left)), only_left) {
                Ok(Fate::Held(Pending {
                    entry: left.node.copy(alloc)?,
                    from_left: true,
                }))
            } else {
                Ok(Fate::Gone)
            }
        }
        Turn::Right(right) => {
            if is_changed(content_in(Some(right)), only_right) {
                Ok(Fate::Held(Pending {
                    entry: right.node.copy(alloc)?,
                    from_left: false,
                }))
            } else {
                Ok(Fate::Gone)
            }
        }
        Turn::Both(_, _) => Ok(Fate::Gone),
    }
}

/// What comes of the node whose turn it is.
pub fn fate_of(
    alloc: Global,
    turn: Turn,
    only_left: &PosSet,
    only_right: &PosSet,
) -> Result<Fate, NoMemory>
    requires left { IsOrderly (left_of turn) }
    requires right { IsOrderly (right_of turn) }
    ensures { IfOk result (IsFate only_left.now only_right.now (turn_name turn.entry) (left_of turn.entry) (right_of turn.entry)) }
{
    if lives_at(turn, only_left, only_right) {
        Ok(Fate::Live(decide_node(alloc, turn, only_left, only_right)?))
    } else {
        fate_of_dead(alloc, turn, only_left, only_right)
    }
}

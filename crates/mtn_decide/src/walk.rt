// What a merge decides.
ghost use Rattle.std.specs.Prelude.{◌≡◌, ◌++◌, [], ℕ, List, IfOk, OnOk};
ghost use Rattle.mtn_history_laws.specs.History.{Revision, IsGrown, parents_at};
ghost use Rattle.mtn_mark_laws.specs.Rule.{AreUncommon};
ghost use Rattle.mtn_marking.specs.Graph.{IsMarkedAt};
ghost use Rattle.mtn_decide.specs.Graph.{IsMergeOf};
ghost use Rattle.mtn_decide.specs.Sets.{IsMergeBySets};
ghost use Rattle.mtn_decide.specs.Parts.{live_part, held_part, turn_steps};

use crate::decision::{Decision, Pending};
use crate::decisions::Decisions;
use crate::fate::{Fate, fate_of};
use crate::known::Turn;
use crate::turn::turn_at;
use mtn_ancestry::PosSet;
use mtn_base::NoMemory;
use mtn_marking::MarkedRoster;
use std::alloc::Global;

/// The lists that a walk over both sides fills.
#[derive(Drop)]
struct Made {
    nodes: Vec<Decision>,
    pending: Vec<Pending>,
}

/// Both lists without anything.
fn nothing(alloc: Global) -> Made
    ensures nodes { result.nodes.items ≡ [] }
    ensures pending { result.pending.items ≡ [] }
{
    Made {
        nodes: Vec::new(alloc),
        pending: Vec::new(alloc),
    }
}

/// Adds what came of a node.
fn add(made: &mut Made, fate: Fate) -> Result<(), NoMemory>
    ensures nodes { OnOk result (made.new.nodes.items ≡ made.old.nodes.items ++ live_part fate) }
    ensures pending { OnOk result (made.new.pending.items ≡ made.old.pending.items ++ held_part fate) }
{
    match fate {
        Fate::Live(decision) => made.nodes.push(decision)?,
        Fate::Held(pending) => made.pending.push(pending)?,
        Fate::Gone => {}
    }
    Ok(())
}

/// How many nodes of left and of right are done with a turn.
fn steps_of(turn: Turn) -> (usize, usize)
    ensures { result ≡ turn_steps turn.entry }
{
    match turn {
        Turn::Left(_) => (1, 0),
        Turn::Right(_) => (0, 1),
        Turn::Both(_, _) => (1, 1),
    }
}

/// What a merge of two sides decides, by their marks and the ancestors that each has alone.
pub fn decide(
    alloc: Global,
    left: &MarkedRoster,
    right: &MarkedRoster,
    only_left: &PosSet,
    only_right: &PosSet,
) -> Result<Decisions, NoMemory>
    ensures sets { IfOk result (IsMergeBySets left.now right.now only_left.now only_right.now) }
    ensures graph { IfOk result (λ m. (log : List Revision) (a b : ℕ) → IsGrown log → IsMarkedAt log a left.now → IsMarkedAt log b right.now →
        AreUncommon (parents_at log) a b only_left.now → AreUncommon (parents_at log) b a only_right.now → IsMergeOf log a b m) }
{
    let _left_nodes = left.roster().len();
    let _right_nodes = right.roster().len();
    let mut made = nothing(alloc);
    let mut l = 0;
    let mut r = 0;
    while let Some(turn) = turn_at(left, l, right, r) {
        add(&mut made, fate_of(alloc, turn, only_left, only_right)?)?;
        let steps = steps_of(turn);
        l += steps.0;
        r += steps.1;
    }
    Ok(Decisions::new(made.nodes, made.pending))
}

// Ids that are no births.
ghost use Rattle.std.specs.Prelude.{◌≡◌, ◌↔◌, Contains, IfOk, IsTrue, map, OnOk, Some};
ghost use Rattle.std.specs.List.Sorted.{IsSorted};
ghost use Rattle.std.specs.Ordering.{nat_cmp};
ghost use Rattle.mtn_base.specs.Lists.{rises};
ghost use Rattle.mtn_base.specs.Names.{name_cmp, same_id};
ghost use Rattle.mtn_base.specs.declared.name.NodeName.{NodeName};
ghost use Rattle.mtn_changeset_laws.specs.Laws.{NoneBornIn};
ghost use Rattle.mtn_conflicts.specs.Result.{NoneBornIn as NoneDecidedIn};
ghost use Rattle.mtn_decide.specs.declared.decision.Decision.{Decision as Decided};
ghost use Rattle.mtn_decide.specs.Decisions.{decision_of};
ghost use Rattle.mtn_roster.specs.declared.entry.Entry.{Entry};
ghost use Rattle.mtn_roster.specs.Tree.{entry_of};
ghost use Rattle.mtn_merge.specs.Births.{number_in, IsMissing, Keeps};

use mtn_base::{Id, NoMemory};
use mtn_decide::Decision;
use mtn_roster::Roster;
use std::alloc::Global;

/// The number in the last eight bytes of an id.
fn number_of(id: Id) -> u64
    ensures { result ≡ number_in id }
{
    let bytes = id.0;
    u64::from_be_bytes([
        bytes[12], bytes[13], bytes[14], bytes[15], bytes[16], bytes[17], bytes[18], bytes[19],
    ])
}

/// An id with this number.
fn id_with(number: u64) -> Id
    ensures { number_in result ≡ number }
{
    let [a, b, c, d, e, f, g, h] = number.to_be_bytes();
    Id([0, 0, 0, 0, 0, 0, 0, 0, 0, 0, 0, 0, a, b, c, d, e, f, g, h])
}

/// Appends the number of a birth, if it is not the last.
fn push_birth(numbers: &mut Vec<u64>, birth: Id) -> Result<(), NoMemory>
    ensures has { OnOk result (Contains numbers.new.items (number_in birth)) }
    ensures keeps { OnOk result (Keeps numbers.old.items numbers.new.items) }
{
    let number = number_of(birth);
    if numbers.last().copied() != Some(number) {
        numbers.push(number)?;
    }
    Ok(())
}

/// Appends those of the nodes of a tree.
fn push_births(tree: &Roster, numbers: &mut Vec<u64>) -> Result<(), NoMemory>
    ensures has { OnOk result ((n : NodeName) (e : Entry) → entry_of tree.now n ≡ Some e → Contains numbers.new.items (number_in n.birth)) }
    ensures keeps { OnOk result (Keeps numbers.old.items numbers.new.items) }
{
    for place in 0..tree.len() as usize {
        if let Some(entry) = tree.at_place(place) {
            push_birth(numbers, entry.name.birth)?;
        }
    }
    Ok(())
}

/// Appends those of the nodes that are decided.
fn push_decided(nodes: &[Decision], numbers: &mut Vec<u64>) -> Result<(), NoMemory>
    ensures has { OnOk result ((n : NodeName) (d : Decided) → decision_of nodes.now n ≡ Some d → Contains numbers.new.items (number_in n.birth)) }
    ensures keeps { OnOk result (Keeps numbers.old.items numbers.new.items) }
{
    for node in nodes {
        push_birth(numbers, node.name.birth)?;
    }
    Ok(())
}

/// The least number that ascending ones do not have.
fn least_missing(numbers: &[u64]) -> u64
    requires { IsSorted nat_cmp numbers.now }
    ensures { IsMissing numbers.now result }
{
    let mut least = 0;
    for number in numbers {
        if *number > least {
            return least;
        }
        if *number == least {
            least += 1;
        }
    }
    least
}

/// An id that is no birth in either tree, nor of a node that is decided.
pub fn unborn(
    alloc: Global,
    left: &Roster,
    right: &Roster,
    nodes: &[Decision],
) -> Result<Id, NoMemory>
    ensures left { IfOk result (NoneBornIn left.now) }
    ensures right { IfOk result (NoneBornIn right.now) }
    ensures nodes { IfOk result (NoneDecidedIn nodes.now) }
{
    let mut numbers = Vec::new(alloc);
    push_births(left, &mut numbers)?;
    push_births(right, &mut numbers)?;
    push_decided(nodes, &mut numbers)?;
    numbers.sort_unstable();
    Ok(id_with(least_missing(&numbers)))
}

/// Whether a node has this birth.
fn is_born(node: &Decision, id: Id) -> bool
    ensures { result ≡ same_id node.now.name.birth id }
{
    node.name.birth == id
}

/// Whether an id is the birth of no node that is decided. It takes no memory.
pub fn none_is_born(nodes: &[Decision], id: Id) -> bool
    requires { IsTrue (rises name_cmp (map (λ (d : Decided). d.name) nodes.now)) }
    ensures { IsTrue result ↔ NoneDecidedIn nodes.now id }
{
    for node in nodes {
        if is_born(node, id) {
            return false;
        }
    }
    true
}

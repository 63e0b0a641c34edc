// The decisions after resolutions.
ghost use Rattle.std.specs.Prelude.{◌≡◌, ◌↔◌, [], ◌∷◌, ◌++◌, IsTrue, IfOk, IfErr, OnOk, map, filter_map, option_and_then, option_copied};
ghost use Rattle.std.specs.Option.{option_map_or};
ghost use Rattle.std.specs.List.{IsDistinct};
ghost use Rattle.mtn_base.specs.Names.{name_cmp, same_name};
ghost use Rattle.mtn_base.specs.Lists.{ordered};
ghost use Rattle.mtn_decide.specs.declared.decision.AttrChoice.TheVariants.{Fixed as FixedAttr};
ghost use Rattle.mtn_decide.specs.declared.decision.Decision.{Decision};
ghost use Rattle.mtn_conflicts.specs.Lists.{AreConflictsOf};
ghost use Rattle.mtn_resolve.specs.Faults.{AreFitting, IsOverrideFault};
ghost use Rattle.mtn_resolve.specs.Overriding.{is_dropped, is_kept, new_slot, new_content, new_attr, new_node, live_attr, content_in, with_content, reborn_of, value_in, still_pending, overridden};
ghost use Rattle.mtn_resolve.specs.Parts.{IsTable, undropped_after, kept_after};

use crate::checking::check;
use crate::error::OverrideError;
use crate::resolution::{Resolution, Resolutions};
use crate::subject::{Subject, attr, content, life, slot};
use crate::table::{resolution_of, table_of};
use mtn_base::{Bytes, Id, List, NoMemory, NodeName};
use mtn_conflicts::Conflicts;
use mtn_decide::{
    AttrChoice, AttrDecision, ContentChoice, Decision, Decisions, Pending, SlotChoice,
};
use mtn_roster::attrs::copy_value;
use mtn_roster::{Attr, Body};
use std::alloc::Global;
use std::collections::BTreeMap;

/// An equal decision on a slot.
fn copy_slot_choice(alloc: Global, choice: &SlotChoice) -> Result<SlotChoice, NoMemory>
    ensures { IfOk result (λ c. c ≡ choice.now) }
{
    match choice {
        SlotChoice::Fixed(slot) => Ok(SlotChoice::Fixed(slot.copy(alloc)?)),
        SlotChoice::Clash { left, right } => Ok(SlotChoice::Clash {
            left: left.copy(alloc)?,
            right: right.copy(alloc)?,
        }),
    }
}

/// An equal decision on a value.
fn copy_choice(alloc: Global, choice: &AttrChoice) -> Result<AttrChoice, NoMemory>
    ensures { IfOk result (λ c. c ≡ choice.now) }
{
    match choice {
        AttrChoice::Fixed(value) => Ok(AttrChoice::Fixed(copy_value(alloc, value)?)),
        AttrChoice::Clash { left, right } => Ok(AttrChoice::Clash {
            left: copy_value(alloc, left)?,
            right: copy_value(alloc, right)?,
        }),
    }
}

/// An equal pending file.
fn copy_pending(alloc: Global, pending: &Pending) -> Result<Pending, NoMemory>
    ensures { IfOk result (λ p. p ≡ pending.now) }
{
    Ok(Pending {
        entry: pending.entry.copy(alloc)?,
        from_left: pending.from_left,
    })
}

/// Whether a node is dropped.
fn drops(
    alloc: Global,
    resolutions: &[Resolution],
    table: &BTreeMap<Subject, usize>,
    node: &NodeName,
) -> Result<bool, NoMemory>
    requires { IsTable resolutions.now 0 table.now }
    ensures { IfOk result (λ b. b ≡ is_dropped resolutions.now node.now) }
{
    let subject = life(alloc, node)?;
    match resolution_of(resolutions, table, &subject) {
        Some(Resolution::Drop { node: _ }) => Ok(true),
        _ => Ok(false),
    }
}

/// Whether a node is kept.
fn keeps(
    alloc: Global,
    resolutions: &[Resolution],
    table: &BTreeMap<Subject, usize>,
    node: &NodeName,
) -> Result<bool, NoMemory>
    requires { IsTable resolutions.now 0 table.now }
    ensures { IfOk result (λ b. b ≡ is_kept resolutions.now node.now) }
{
    let subject = life(alloc, node)?;
    match resolution_of(resolutions, table, &subject) {
        Some(Resolution::Keep { node: _ }) => Ok(true),
        _ => Ok(false),
    }
}

/// What is decided of a slot.
fn slot_after(
    alloc: Global,
    resolutions: &[Resolution],
    table: &BTreeMap<Subject, usize>,
    node: &NodeName,
    old: &SlotChoice,
) -> Result<SlotChoice, NoMemory>
    requires { IsTable resolutions.now 0 table.now }
    ensures { IfOk result (λ c. c ≡ new_slot resolutions.now node.now old.now) }
{
    let subject = slot(alloc, node)?;
    match resolution_of(resolutions, table, &subject) {
        Some(Resolution::Place { node: _, slot }) => Ok(SlotChoice::Fixed(slot.copy(alloc)?)),
        _ => copy_slot_choice(alloc, old),
    }
}

/// A file's content is that of the id.
fn picked(pick: Id, old: ContentChoice) -> ContentChoice
    ensures { result ≡ with_content pick old }
{
    match old {
        ContentChoice::Absent => ContentChoice::Absent,
        ContentChoice::Fixed(_) => ContentChoice::Fixed(pick),
        ContentChoice::Clash { left: _, right: _ } => ContentChoice::Fixed(pick),
    }
}

/// What is decided of a content.
fn content_after(
    alloc: Global,
    resolutions: &[Resolution],
    table: &BTreeMap<Subject, usize>,
    node: &NodeName,
    old: ContentChoice,
) -> Result<ContentChoice, NoMemory>
    requires { IsTable resolutions.now 0 table.now }
    ensures { IfOk result (λ c. c ≡ new_content resolutions.now node.now old) }
{
    let subject = content(alloc, node)?;
    match resolution_of(resolutions, table, &subject) {
        Some(Resolution::Content { node: _, pick }) => Ok(picked(*pick, old)),
        _ => Ok(old),
    }
}

/// What is decided of a value, where this resolution speaks of it.
fn choice_after(
    alloc: Global,
    resolution: Option<&Resolution>,
    old: &AttrChoice,
) -> Result<AttrChoice, NoMemory>
    ensures { IfOk result (λ c. c ≡ option_map_or FixedAttr (option_and_then value_in (option_copied resolution.entry)) old.now) }
{
    match resolution {
        Some(
            Resolution::AttrSet {
                node: _,
                key: _,
                value,
            },
        ) => Ok(AttrChoice::Fixed(Some(value.copy(alloc)?))),
        Some(Resolution::AttrClear { node: _, key: _ }) => Ok(AttrChoice::Fixed(None)),
        _ => copy_choice(alloc, old),
    }
}

/// What is decided of an attribute.
fn attr_after(
    alloc: Global,
    resolutions: &[Resolution],
    table: &BTreeMap<Subject, usize>,
    node: &NodeName,
    old: &AttrDecision,
) -> Result<AttrDecision, NoMemory>
    requires { IsTable resolutions.now 0 table.now }
    ensures { IfOk result (λ a. a ≡ new_attr resolutions.now node.now old.now) }
{
    let key = old.key.copy(alloc)?;
    let subject = attr(alloc, node, &key)?;
    let choice = choice_after(
        alloc,
        resolution_of(resolutions, table, &subject),
        &old.choice,
    )?;
    Ok(AttrDecision { key, choice })
}

/// What is decided of all attributes of a node.
fn attrs_after(
    alloc: Global,
    resolutions: &[Resolution],
    table: &BTreeMap<Subject, usize>,
    node: &NodeName,
    old: &[AttrDecision],
) -> Result<Vec<AttrDecision>, NoMemory>
    requires { IsTable resolutions.now 0 table.now }
    ensures { IfOk result (λ as'. as'.items ≡ map (new_attr resolutions.now node.now) old.now) }
{
    let mut attrs = Vec::with_capacity(alloc, old.len())?;
    for attr in old {
        attrs.push(attr_after(alloc, resolutions, table, node, attr)?)?;
    }
    Ok(attrs)
}

/// What is decided of a node.
fn node_after(
    alloc: Global,
    resolutions: &[Resolution],
    table: &BTreeMap<Subject, usize>,
    old: &Decision,
) -> Result<Decision, NoMemory>
    requires { IsTable resolutions.now 0 table.now }
    ensures { IfOk result (λ d. d ≡ new_node resolutions.now old.now) }
{
    Ok(Decision {
        name: old.name.copy(alloc)?,
        is_dir: old.is_dir,
        slot: slot_after(alloc, resolutions, table, &old.name, &old.slot)?,
        content: content_after(alloc, resolutions, table, &old.name, old.content)?,
        attrs: List::from_vec(attrs_after(
            alloc,
            resolutions,
            table,
            &old.name,
            old.attrs.as_slice(),
        )?),
        reborn: old.reborn,
    })
}

/// Adds an attribute as it is, if it is live.
fn push_live(alloc: Global, attr: &Attr, live: &mut Vec<AttrDecision>) -> Result<(), NoMemory>
    ensures { OnOk result (live.new.items ≡ live.old.items ++ filter_map live_attr (attr.now ∷ [])) }
{
    match &attr.value {
        None => {}
        Some(value) => live.push(AttrDecision {
            key: attr.key.copy(alloc)?,
            choice: AttrChoice::Fixed(Some(value.copy(alloc)?)),
        })?,
    }
    Ok(())
}

/// The live attributes as they are.
fn live_attrs(alloc: Global, attrs: &[Attr]) -> Result<Vec<AttrDecision>, NoMemory>
    ensures { IfOk result (λ as'. as'.items ≡ filter_map live_attr attrs.now) }
{
    let mut live = Vec::new(alloc);
    for attr in attrs {
        push_live(alloc, attr, &mut live)?;
    }
    Ok(live)
}

fn content_of(body: Body) -> ContentChoice
    ensures { result ≡ content_in body }
{
    match body {
        Body::Dir => ContentChoice::Absent,
        Body::File { content } => ContentChoice::Fixed(content),
    }
}

/// A pending file as a node that lives again.
fn reborn(alloc: Global, pending: &Pending) -> Result<Decision, NoMemory>
    ensures { IfOk result (λ d. d ≡ reborn_of pending.now) }
{
    Ok(Decision {
        name: pending.entry.name.copy(alloc)?,
        is_dir: pending.entry.body.is_dir(),
        slot: SlotChoice::Fixed(pending.entry.slot.copy(alloc)?),
        content: content_of(pending.entry.body),
        attrs: List::from_vec(live_attrs(alloc, pending.entry.attrs.as_slice())?),
        reborn: true,
    })
}

/// Adds a live node as it is after the resolutions, unless it is dropped.
fn push_node(
    alloc: Global,
    resolutions: &[Resolution],
    table: &BTreeMap<Subject, usize>,
    node: &Decision,
    nodes: &mut Vec<Decision>,
) -> Result<(), NoMemory>
    requires { IsTable resolutions.now 0 table.now }
    ensures { OnOk result (nodes.new.items ≡ nodes.old.items ++ undropped_after resolutions.now (node.now ∷ [])) }
{
    if !drops(alloc, resolutions, table, &node.name)? {
        nodes.push(node_after(alloc, resolutions, table, node)?)?;
    }
    Ok(())
}

/// The live nodes that are not dropped, as they are after the resolutions.
fn nodes_after(
    alloc: Global,
    resolutions: &[Resolution],
    table: &BTreeMap<Subject, usize>,
    nodes: &[Decision],
) -> Result<Vec<Decision>, NoMemory>
    requires { IsTable resolutions.now 0 table.now }
    ensures { IfOk result (λ ds. ds.items ≡ undropped_after resolutions.now nodes.now) }
{
    let mut after = Vec::new(alloc);
    for node in nodes {
        push_node(alloc, resolutions, table, node, &mut after)?;
    }
    Ok(after)
}

/// Adds a pending file as it lives again, if it is kept.
fn push_kept(
    alloc: Global,
    resolutions: &[Resolution],
    table: &BTreeMap<Subject, usize>,
    file: &Pending,
    nodes: &mut Vec<Decision>,
) -> Result<(), NoMemory>
    requires { IsTable resolutions.now 0 table.now }
    ensures { OnOk result (nodes.new.items ≡ nodes.old.items ++ kept_after resolutions.now (file.now ∷ [])) }
{
    if keeps(alloc, resolutions, table, &file.entry.name)? {
        let node = reborn(alloc, file)?;
        nodes.push(node_after(alloc, resolutions, table, &node)?)?;
    }
    Ok(())
}

/// Adds the pending files that are kept.
fn add_kept(
    alloc: Global,
    resolutions: &[Resolution],
    table: &BTreeMap<Subject, usize>,
    pending: &[Pending],
    nodes: &mut Vec<Decision>,
) -> Result<(), NoMemory>
    requires { IsTable resolutions.now 0 table.now }
    ensures { OnOk result (nodes.new.items ≡ nodes.old.items ++ kept_after resolutions.now pending.now) }
{
    for file in pending {
        push_kept(alloc, resolutions, table, file, nodes)?;
    }
    Ok(())
}

/// Adds a file that stays pending.
fn push_pending(
    alloc: Global,
    resolutions: &[Resolution],
    table: &BTreeMap<Subject, usize>,
    file: &Pending,
    pending: &mut Vec<Pending>,
) -> Result<(), NoMemory>
    requires { IsTable resolutions.now 0 table.now }
    ensures { OnOk result (pending.new.items ≡ pending.old.items ++ still_pending resolutions.now (file.now ∷ [])) }
{
    let dropped = drops(alloc, resolutions, table, &file.entry.name)?;
    let kept = keeps(alloc, resolutions, table, &file.entry.name)?;
    if !(dropped || kept) {
        pending.push(copy_pending(alloc, file)?)?;
    }
    Ok(())
}

/// The files that stay pending.
fn pending_after(
    alloc: Global,
    resolutions: &[Resolution],
    table: &BTreeMap<Subject, usize>,
    pending: &[Pending],
) -> Result<Vec<Pending>, NoMemory>
    requires { IsTable resolutions.now 0 table.now }
    ensures { IfOk result (λ ps. ps.items ≡ still_pending resolutions.now pending.now) }
{
    let mut after = Vec::new(alloc);
    for file in pending {
        push_pending(alloc, resolutions, table, file, &mut after)?;
    }
    Ok(after)
}

/// Puts nodes in the order of their names, and says whether these are apart.
fn sort_nodes(nodes: &mut Vec<Decision>) -> bool
    ensures apart { IsTrue result ↔ IsDistinct (λ (d : Decision) (e : Decision). same_name d.name e.name) nodes.old.items }
    ensures order { IsTrue result → nodes.new.items ≡ ordered name_cmp (λ (d : Decision). d.name) nodes.old.items }
{
    nodes.sort_unstable_by(|first, second| first.name.compare(&second.name));
    nodes.is_sorted_by(|first, second| first.name.compare(&second.name).is_lt())
}

/// The decisions after resolutions that fit them.
fn made(
    alloc: Global,
    decisions: &Decisions,
    resolutions: &[Resolution],
) -> Result<Decisions, NoMemory>
    ensures { IfOk result (λ m. m ≡ overridden resolutions.now decisions.now) }
{
    let table = table_of(alloc, resolutions)?;
    let mut nodes = nodes_after(alloc, resolutions, &table, decisions.nodes())?;
    add_kept(alloc, resolutions, &table, decisions.pending(), &mut nodes)?;
    let _apart = sort_nodes(&mut nodes);
    let pending = pending_after(alloc, resolutions, &table, decisions.pending())?;
    Ok(Decisions::new(nodes, pending))
}

/// The decisions after resolutions. Where one does not fit the decisions before any, or their conflicts, it is
/// the first of them that is told, with its first fault.
pub fn override_with(
    alloc: Global,
    decisions: &Decisions,
    conflicts: &Conflicts,
    resolutions: &Resolutions,
) -> Result<Decisions, OverrideError>
    requires { AreConflictsOf decisions.now conflicts.now }
    ensures ok { IfOk result (λ m. m ≡ overridden resolutions.now decisions.now) }
    ensures fitting { OnOk result (AreFitting decisions.now conflicts.now resolutions.now) }
    ensures err { IfErr result (λ e. IsOverrideFault decisions.now conflicts.now resolutions.now e) }
{
    let items = resolutions.items();
    check(decisions, conflicts, items)?;
    Ok(made(alloc, decisions, items)?)
}

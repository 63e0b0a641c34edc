// Decisions as lines.
use mtn_base::NoMemory;
use mtn_case_trees::{put_attr, put_entry, put_id, put_name, put_slot};
use mtn_decide::{
    AttrChoice, AttrDecision, ContentChoice, Decision, Decisions, Pending, SlotChoice,
};

fn put_slot_choice(choice: &SlotChoice, out: &mut Vec<u8>) -> Result<(), NoMemory> {
    match choice {
        SlotChoice::Fixed(slot) => put_slot(slot, out),
        SlotChoice::Clash { left, right } => {
            put_slot(left, out)?;
            out.push(b'|')?;
            put_slot(right, out)
        }
    }
}

fn put_content_choice(choice: ContentChoice, out: &mut Vec<u8>) -> Result<(), NoMemory> {
    match choice {
        ContentChoice::Absent => {
            out.extend_from_slice(b"dir")?;
            Ok(())
        }
        ContentChoice::Fixed(content) => put_id(content, out),
        ContentChoice::Clash { left, right } => {
            put_id(left, out)?;
            out.push(b'|')?;
            put_id(right, out)
        }
    }
}

fn put_attr_choice(attr: &AttrDecision, out: &mut Vec<u8>) -> Result<(), NoMemory> {
    match &attr.choice {
        AttrChoice::Fixed(value) => put_attr(&attr.key, value, out),
        AttrChoice::Clash { left, right } => {
            put_attr(&attr.key, left, out)?;
            out.push(b'|')?;
            put_attr(&attr.key, right, out)
        }
    }
}

/// A line of a live node; a file that is called a directory, or a directory a file, has a `!` behind it.
fn put_decision(decision: &Decision, out: &mut Vec<u8>) -> Result<(), NoMemory> {
    if decision.reborn {
        out.extend_from_slice(b"reborn ")?;
    } else {
        out.extend_from_slice(b"node ")?;
    }
    put_name(&decision.name, out)?;
    out.push(b' ')?;
    put_slot_choice(&decision.slot, out)?;
    out.push(b' ')?;
    put_content_choice(decision.content, out)?;
    for attr in decision.attrs.as_slice() {
        out.push(b' ')?;
        put_attr_choice(attr, out)?;
    }
    out.push(b'\n')?;
    Ok(())
}

fn put_pending(pending: &Pending, out: &mut Vec<u8>) -> Result<(), NoMemory> {
    if pending.from_left {
        out.extend_from_slice(b"left ")?;
    } else {
        out.extend_from_slice(b"right ")?;
    }
    put_entry(&pending.entry, out)?;
    out.push(b'\n')?;
    Ok(())
}

/// Prints all decisions, and then the pending files.
pub fn put_decisions(decisions: &Decisions, out: &mut Vec<u8>) -> Option<()> {
    for decision in decisions.nodes() {
        put_decision(decision, out).ok()?;
    }
    for pending in decisions.pending() {
        put_pending(pending, out).ok()?;
    }
    Some(())
}

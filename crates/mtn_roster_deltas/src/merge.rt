// What a delta makes of the entries before it.
ghost use Rattle.std.specs.Prelude.{◌≡◌, ◌<◌, ◌+◌, ◌∷◌, [], MatchOption, IfSome, IfOk, IsTrue};
ghost use Rattle.std.specs.Ordering.{nat_cmp};
ghost use Rattle.std.specs.VecDeque.{deque_len};
ghost use Rattle.mtn_base.specs.Lists.{rises};
ghost use Rattle.mtn_roster_deltas.specs.Chain.{ascend, without, with_all};
ghost use Rattle.mtn_roster_deltas.specs.Parts.{GivesNext};

use crate::order::is_among;
use mtn_base::NoMemory;
use mtn_records::NumberedEntry;
use std::alloc::Global;
use std::cmp::Ordering;
use std::collections::VecDeque;

/// Takes the entries of some numbers away.
pub fn drop_gone(entries: &mut Vec<NumberedEntry>, gone: &[u64])
    requires { IsTrue (rises nat_cmp gone.now) }
    ensures { entries.new.items ≡ without gone.now entries.old.items }
{
    entries.retain(|entry| !is_among(gone, entry.number));
}

/// The entry of the least number; where both lists have one of it, the changed one.
fn take_least(
    entries: &mut VecDeque<NumberedEntry>,
    changed: &mut VecDeque<NumberedEntry>,
) -> Option<NumberedEntry>
    requires entries { IsTrue (ascend entries.old.items) }
    requires changed { IsTrue (ascend changed.old.items) }
    ensures gives { GivesNext entries.old.items changed.old.items result entries.new.items changed.new.items }
    ensures shrinks { IfSome result (λ e. deque_len entries.new + deque_len changed.new < deque_len entries.old + deque_len changed.old) }
{
    let Some(new) = changed.front() else {
        return entries.pop_front();
    };
    let Some(old) = entries.front() else {
        return changed.pop_front();
    };
    match old.number.cmp(&new.number) {
        Ordering::Less => entries.pop_front(),
        Ordering::Equal => {
            let _replaced = entries.pop_front();
            changed.pop_front()
        }
        Ordering::Greater => changed.pop_front(),
    }
}

/// The entries with the changed ones, each in its place or in place of the one of its number.
pub fn merged(
    alloc: Global,
    entries: Vec<NumberedEntry>,
    changed: Vec<NumberedEntry>,
) -> Result<Vec<NumberedEntry>, NoMemory>
    requires entries { IsTrue (ascend entries.items) }
    requires changed { IsTrue (ascend changed.items) }
    ensures { IfOk result (λ v. v.items ≡ with_all changed.items entries.items) }
{
    let mut all = Vec::with_capacity(alloc, entries.len())?;
    let mut entries = VecDeque::from_vec(entries);
    let mut changed = VecDeque::from_vec(changed);
    while let Some(entry) = take_least(&mut entries, &mut changed) {
        all.push(entry)?;
    }
    Ok(all)
}

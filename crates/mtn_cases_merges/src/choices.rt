// What is chosen of one scalar, and what lives, for all sets of two positions.
use mtn_ancestry::{Pos, PosSet};
use mtn_decide::{Choice, lives, merge_scalar};
use std::alloc::Global;

fn none(alloc: Global) -> Option<PosSet> {
    PosSet::new(alloc, Vec::new(alloc)).ok()
}

fn single(alloc: Global, at: u64) -> Option<PosSet> {
    let mut all = Vec::new(alloc);
    all.push(Pos(at)).ok()?;
    PosSet::new(alloc, all).ok()
}

fn both(alloc: Global) -> Option<PosSet> {
    let mut all = Vec::new(alloc);
    all.push(Pos(0)).ok()?;
    all.push(Pos(1)).ok()?;
    PosSet::new(alloc, all).ok()
}

fn add(sets: &mut Vec<PosSet>, set: Option<PosSet>) -> Option<()> {
    sets.push(set?).ok()
}

/// The sets of two positions: none, the first, the second, both.
fn sets(alloc: Global) -> Option<Vec<PosSet>> {
    let mut sets = Vec::new(alloc);
    add(&mut sets, none(alloc))?;
    add(&mut sets, single(alloc, 0))?;
    add(&mut sets, single(alloc, 1))?;
    add(&mut sets, both(alloc))?;
    Some(sets)
}

fn letter(choice: Choice) -> u8 {
    match choice {
        Choice::Both => b'B',
        Choice::Left => b'L',
        Choice::Right => b'R',
        Choice::Clash => b'C',
    }
}

/// Prints the answers over all sets of ancestors, with the marks of both sides given.
fn put_choices(
    sets: &[PosSet],
    equal: bool,
    left: &PosSet,
    right: &PosSet,
    out: &mut Vec<u8>,
) -> Option<()> {
    for only_left in sets {
        for only_right in sets {
            let choice = merge_scalar(equal, left, right, only_left, only_right);
            out.push(letter(choice)).ok()?;
        }
    }
    out.push(b'\n').ok()
}

fn put_marks(sets: &[PosSet], equal: bool, out: &mut Vec<u8>) -> Option<()> {
    for left in sets {
        for right in sets {
            put_choices(sets, equal, left, right, out)?;
        }
    }
    Some(())
}

/// Prints a line for each equality, left's marks and right's, and in it a letter for the ancestors that left has alone, and
/// then right: for Both, Left, Right and Clash.
pub fn choices(alloc: Global, out: &mut Vec<u8>) -> Option<()> {
    let sets = sets(alloc)?;
    put_marks(&sets, false, out)?;
    put_marks(&sets, true, out)
}

/// Prints the answers over all sets of ancestors, for a birth and the sides that have the node.
fn put_living(sets: &[PosSet], birth: u64, has: [bool; 2], out: &mut Vec<u8>) -> Option<()> {
    for only_left in sets {
        for only_right in sets {
            let living = lives(Pos(birth), has[0], has[1], only_left, only_right);
            out.push(if living { b'1' } else { b'0' }).ok()?;
        }
    }
    out.push(b'\n').ok()
}

fn put_birth(sets: &[PosSet], birth: u64, out: &mut Vec<u8>) -> Option<()> {
    for in_left in [false, true] {
        put_living(sets, birth, [in_left, false], out)?;
        put_living(sets, birth, [in_left, true], out)?;
    }
    Some(())
}

/// Prints a line for each of three births, whether left has the node, and right, and in it a digit for the ancestors that left
/// has alone, and then right: 1 where it lives.
pub fn living(alloc: Global, out: &mut Vec<u8>) -> Option<()> {
    let sets = sets(alloc)?;
    for birth in 0..3 {
        put_birth(&sets, birth, out)?;
    }
    Some(())
}

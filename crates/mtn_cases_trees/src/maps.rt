// A map of markings.
use crate::said::Said;
use crate::words::position_of;
use mtn_ancestry::{Pos, PosSet};
use mtn_base::List;
use mtn_case_trees::name_of;
use mtn_marking::{MarkMap, Marking};
use std::alloc::Global;

fn marking_of(alloc: Global, birth: Pos) -> Option<Marking> {
    Some(Marking {
        birth,
        slot: PosSet::new(alloc, Vec::new(alloc)).ok()?,
        content: None,
        attrs: List::new(alloc),
    })
}

fn put_marking(alloc: Global, map: &mut MarkMap, name: &[u8], birth: Pos) -> Option<()> {
    let name = name_of(alloc, name)?;
    map.put(name, marking_of(alloc, birth)?).ok()
}

fn put_line(alloc: Global, map: &mut MarkMap, line: &[u8]) -> Option<()> {
    let mut words = line.split(|byte| *byte == b' ');
    let name = words.next()?;
    put_marking(alloc, map, name, position_of(words.next()?)?)
}

fn map_of(alloc: Global, case: &[u8]) -> Option<MarkMap> {
    let mut map = MarkMap::new(alloc);
    for line in case.split(|byte| *byte == b'\n') {
        if let Some(rest) = line.strip_prefix(b"put ") {
            put_line(alloc, &mut map, rest)?;
        }
    }
    Some(map)
}

fn put_births(map: &MarkMap, said: &mut Said) {
    for place in 0..map.len() {
        if let Some(node) = map.at_place(place as usize) {
            said.put_name(&node.name);
            said.put(b" ");
            said.put_number(node.marking.birth.0);
            said.put(b"\n");
        }
    }
}

/// Prints the map that the lines of a case put together.
pub fn put_map(alloc: Global, case: &[u8], said: &mut Said) -> Option<()> {
    put_births(&map_of(alloc, case)?, said);
    Some(())
}

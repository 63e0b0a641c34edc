// Records of rosters and their chains (bench/records.sh).
use crate::sections::number_of;
use crate::watch::Watch;
use mtn_ancestry::Pos;
use mtn_records::{Field, Numbered, RosterRecord};
use mtn_roster_deltas::{delta, rebuild};
use std::alloc::Global;

const LINKS: u8 = 15;

/// A node by its line.
#[derive(Clone, Copy)]
struct Node<'a> {
    parent: u64,
    is_dir: bool,
    path: &'a [u8],
}

fn node_of(line: &[u8]) -> Option<Node> {
    let blank = line.iter().position(|byte| *byte == b' ')?;
    let parent = number_of(&line[..blank]);
    match &line[blank + 1..] {
        [path @ .., b'/'] => Some(Node {
            parent,
            is_dir: true,
            path,
        }),
        path => Some(Node {
            parent,
            is_dir: false,
            path,
        }),
    }
}

fn nodes_of<'a>(alloc: Global, text: &'a [u8]) -> Option<Vec<Node<'a>>> {
    let mut nodes = Vec::new(alloc);
    for line in text.split(|byte| *byte == b'\n') {
        if !line.is_empty() {
            nodes.push(node_of(line)?).ok()?;
        }
    }
    Some(nodes)
}

/// The bytes of records; where memory was refused once, or a field is too long, they are not whole.
#[derive(Drop)]
struct Text {
    bytes: Vec<u8>,
    is_whole: bool,
}

impl Text {
    fn put(&mut self, bytes: &[u8]) {
        self.is_whole &= self.bytes.extend_from_slice(bytes).is_ok();
    }

    fn put_number(&mut self, number: u64) {
        self.put(&number.to_be_bytes());
    }

    fn put_count(&mut self, count: u32) {
        self.put(&count.to_be_bytes());
    }

    fn put_field(&mut self, field: &[u8]) {
        match u32::try_from(field.len()) {
            Ok(count) => self.put_count(count),
            Err(_) => self.is_whole = false,
        }
        self.put(field);
    }

    fn put_mark(&mut self, at: u64) {
        self.put_count(1);
        self.put_number(at);
    }
}

/// The entry of a node, as a record has it.
fn put_entry(text: &mut Text, number: u64, node: &Node, mark: u64) {
    let last = node.path.rsplit(|byte| *byte == b'/').next();
    text.put_number(number);
    text.put_number(0);
    text.put(&[1; 20]);
    text.put_field(node.path);
    text.put(&[u8::from(!node.is_dir)]);
    text.put_number(node.parent);
    text.put_field(last.unwrap_or(node.path));
    text.put_mark(mark);
    if !node.is_dir {
        text.put(&[2; 20]);
        text.put_mark(0);
    }
    text.put_number(0);
}

fn put_entries(text: &mut Text, nodes: &[Node], links: u8) {
    let step = (nodes.len() / 10).max(16) as u64;
    let mut number: u64 = 0;
    text.put_number(nodes.len() as u64);
    for node in nodes {
        number = number.saturating_add(1);
        let link = number % step;
        let mark = if link <= u64::from(links) { link } else { 0 };
        put_entry(text, number, node, mark);
    }
}

/// The bytes of all entries after so many links, each of which marks ten of 100,000.
fn text_of(alloc: Global, nodes: &[Node], links: u8) -> Option<Vec<u8>> {
    let mut text = Text {
        bytes: Vec::new(alloc),
        is_whole: true,
    };
    put_entries(&mut text, nodes, links);
    if text.is_whole {
        Some(text.bytes)
    } else {
        None
    }
}

fn numbered(alloc: Global, nodes: &[Node], links: u8) -> Option<Numbered> {
    let text = text_of(alloc, nodes, links)?;
    let (numbered, _) = Numbered::read(alloc, &text).ok()?;
    Some(numbered)
}

/// Appends a link to a chain with this end, which it changes.
fn push_link(
    alloc: Global,
    nodes: &[Node],
    depth: u8,
    end: &mut Numbered,
    chain: &mut Vec<RosterRecord>,
) -> Option<()> {
    let new = numbered(alloc, nodes, depth)?;
    let at = Pos(u64::from(depth.saturating_sub(1)));
    chain.push(delta(alloc, end, at, depth, &new).ok()?).ok()?;
    *end = new;
    Some(())
}

fn whole_of(alloc: Global, record: Numbered) -> Option<Vec<RosterRecord>> {
    let mut chain = Vec::new(alloc);
    chain.push(RosterRecord::Whole(record)).ok()?;
    Some(chain)
}

fn chain_of(alloc: Global, nodes: &[Node]) -> Option<Vec<RosterRecord>> {
    let mut end = numbered(alloc, nodes, 0)?;
    let mut chain = whole_of(alloc, numbered(alloc, nodes, 0)?)?;
    for depth in 1..=LINKS {
        push_link(alloc, nodes, depth, &mut end, &mut chain)?;
    }
    Some(chain)
}

fn time_rebuilding(rt: &HostRuntime, watch: &mut Watch, record: Numbered) -> Option<()> {
    let whole = whole_of(rt.alloc(), record)?;
    watch.begin(rt);
    let _end = rebuild(rt.alloc(), whole).ok()?;
    watch.lap(rt);
    Some(())
}

/// Reads a whole record and rebuilds it.
fn time_reading(rt: &HostRuntime, watch: &mut Watch, record: &[u8]) -> Option<()> {
    watch.begin(rt);
    let (numbered, _) = Numbered::read(rt.alloc(), record).ok()?;
    watch.lap(rt);
    time_rebuilding(rt, watch, numbered)
}

/// Writes a whole record, reads it and rebuilds it.
fn time_whole(rt: &HostRuntime, watch: &mut Watch, record: &[u8]) -> Option<()> {
    let (numbered, _) = Numbered::read(rt.alloc(), record).ok()?;
    let mut out = Vec::new(rt.alloc());
    watch.begin(rt);
    numbered.write(&mut out).ok()?;
    watch.lap(rt);
    time_reading(rt, watch, &out)
}

fn time_first(rt: &HostRuntime, watch: &mut Watch, nodes: &[Node]) -> Option<()> {
    time_whole(rt, watch, &text_of(rt.alloc(), nodes, 0)?)
}

/// How many entries a link marked.
fn marked(end: &Numbered) -> u64 {
    let mut count: u64 = 0;
    for entry in end.entries.as_slice() {
        if !entry.slot_marks.has(Pos(0)) {
            count = count.saturating_add(1);
        }
    }
    count
}

/// How many nodes the end of a chain has, and how many of them a mark of a link.
fn chain_line(alloc: Global, end: &Numbered) -> Option<Vec<u8>> {
    let count = end.entries.as_slice().len();
    let line = format!(in alloc; "{count} {}\n", marked(end)).ok()?;
    Some(line.into_bytes())
}

/// Rebuilds a chain.
fn time_chain(rt: &HostRuntime, watch: &mut Watch, chain: Vec<RosterRecord>) -> Option<Vec<u8>> {
    watch.begin(rt);
    let (end, _tree) = rebuild(rt.alloc(), chain).ok()?;
    watch.lap(rt);
    chain_line(rt.alloc(), &end)
}

/// Makes the record of the nodes of a text, a line for each: the number of the line of its parent, a blank and its path,
/// where a directory ends with a slash. Then makes a chain of sixteen, in which each link gives some slots a new mark, and
/// rebuilds it; writes how many nodes its end has and how many of them a mark of a link.
/// Steps: writing the whole record, reading it, rebuilding it, rebuilding the chain.
pub fn records(rt: &HostRuntime, watch: &mut Watch, text: &[u8]) -> Option<Vec<u8>> {
    let nodes = nodes_of(rt.alloc(), text)?;
    let chain = chain_of(rt.alloc(), &nodes)?;
    time_first(rt, watch, &nodes)?;
    time_chain(rt, watch, chain)
}

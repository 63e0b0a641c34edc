// What is printed.
use mtn_ancestry::Pos;
use mtn_base::{Id, NoMemory, NodeName, Path};
use mtn_roster::{Entry, Roster};
use std::alloc::Global;

/// What is said so far; where memory was refused once, it is not whole.
#[derive(Drop)]
pub struct Said {
    pub text: Vec<u8>,
    pub is_whole: bool,
}

impl Said {
    /// Nothing is said yet.
    pub fn new(alloc: Global) -> Said {
        Said {
            text: Vec::new(alloc),
            is_whole: true,
        }
    }

    /// Keeps whether what another call had to say found memory.
    pub fn keep(&mut self, done: Result<(), NoMemory>) {
        self.is_whole &= done.is_ok();
    }

    /// Says bytes.
    pub fn put(&mut self, bytes: &[u8]) {
        self.is_whole &= self.text.extend_from_slice(bytes).is_ok();
    }

    /// Says the digit of a number.
    pub fn put_number(&mut self, number: u64) {
        self.put(&[b'0'.saturating_add(number.min(9) as u8)]);
    }

    /// Says positions, with a blank before each.
    pub fn put_positions(&mut self, all: &[Pos]) {
        for at in all {
            self.put(b" ");
            self.put_number(at.0);
        }
    }

    /// Says the digit of an id.
    pub fn put_id(&mut self, id: Id) {
        let done = mtn_case_trees::put_id(id, &mut self.text);
        self.keep(done);
    }

    /// Says a name.
    pub fn put_name(&mut self, name: &NodeName) {
        let done = mtn_case_trees::put_name(name, &mut self.text);
        self.keep(done);
    }

    /// Says a path.
    pub fn put_path(&mut self, path: &Path) {
        let done = path.write(&mut self.text);
        self.keep(done);
    }

    /// Says an entry in a line.
    pub fn put_entry(&mut self, entry: &Entry) {
        let done = mtn_case_trees::put_entry(entry, &mut self.text);
        self.keep(done);
        self.put(b"\n");
    }

    /// Says the entries of a tree, one a line.
    pub fn put_tree(&mut self, tree: &Roster) {
        for place in 0..tree.len() {
            if let Some(entry) = tree.at_place(place as usize) {
                self.put_entry(entry);
            }
        }
    }
}

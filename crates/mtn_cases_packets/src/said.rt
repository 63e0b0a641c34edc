// What a line prints.
use mtn_base::{Id, NoMemory};
use std::alloc::Global;

/// What is said so far; where memory was refused once, it is not whole.
#[derive(Drop)]
pub struct Said {
    pub text: Vec<u8>,
    pub is_whole: bool,
}

impl Said {
    /// Nothing is said yet.
    pub fn new(alloc: Global) -> Said {
        Said {
            text: Vec::new(alloc),
            is_whole: true,
        }
    }

    /// Says bytes.
    pub fn put(&mut self, bytes: &[u8]) {
        self.is_whole &= self.text.extend_from_slice(bytes).is_ok();
    }

    /// Says a blank and bytes.
    pub fn put_bytes(&mut self, bytes: &[u8]) {
        self.put(b" ");
        self.put(bytes);
    }

    /// Says a blank and an id.
    pub fn put_id(&mut self, id: &Id) {
        let mut digits = [0; 40];
        id.write_hex(&mut digits);
        self.put_bytes(&digits);
    }

    /// Says a number.
    pub fn put_number(&mut self, alloc: Global, number: u64) {
        match number.to_string(alloc) {
            Ok(digits) => self.put(digits.as_bytes()),
            Err(_) => self.is_whole = false,
        }
    }

    /// Keeps whether what another call had to say found memory.
    pub fn keep(&mut self, done: Result<(), NoMemory>) {
        self.is_whole &= done.is_ok();
    }
}

// Sessions of commands over a keeper in memory.
use crate::held::Held;
use crate::ids::{Ids, Kind};
use crate::running::{Given, answer};
use mtn_base::{Bytes, Id};
use mtn_case_records::text::{
    first_word, number_of, numbers_of, plain, put_escaped, put_hex, put_number, words_of,
};
use mtn_history::{Draft, Memory, Pending};
use mtn_ports::{Batch, Keeper, MemKeeper};
use std::alloc::Global;
use std::thread::Threads;

/// A keeper, which ids texts get, and what the next command is given.
#[derive(Drop)]
pub struct Session {
    held: Held,
    ids: Ids,
    given: Given,
}

/// Whether a word sets something and answers nothing.
pub fn sets(word: &str) -> bool {
    matches!(
        word,
        "store" | "meet" | "record" | "give" | "fill" | "source" | "sink"
    )
}

// So many `a`.
fn filled(alloc: Global, count: &[u8]) -> Option<Vec<u8>> {
    let mut payload = Vec::new(alloc);
    payload.resize(number_of(count)? as usize, b'a').ok()?;
    Some(payload)
}

// How many reads a draft takes that is asked so often for a roster.
fn reads_of(alloc: Global, keeper: &mut MemKeeper, id: Id, count: u64) -> Option<u64> {
    let before = keeper.reads();
    let memory = Memory::new(alloc);
    let pending = Pending::open(alloc, &memory, keeper).ok()?;
    let mut draft = Draft::new(keeper, pending, memory);
    let mut found = true;
    for _ in 0..count {
        found = draft.roster_of(id).is_ok() && found;
    }
    let (keeper, _, _) = draft.into_parts();
    if found {
        Some(keeper.reads().saturating_sub(before))
    } else {
        None
    }
}

impl Session {
    /// One over a store without records, with ids by SHA-1.
    pub fn new(alloc: Global) -> Option<Session> {
        Some(Session {
            held: Held::new(alloc, b"plain", Vec::new(alloc))?,
            ids: Ids::new(Kind::Sha1),
            given: Given::new(alloc),
        })
    }

    // Begins anew.
    fn begin(&mut self, alloc: Global, rest: &[u8]) -> Option<()> {
        let (kind, rest) = first_word(rest);
        let (ident, failing) = first_word(rest);
        self.held = Held::new(alloc, kind, numbers_of(alloc, failing)?)?;
        self.ids = Ids::new(if ident == b"toy".as_slice() {
            Kind::Toys
        } else {
            Kind::Sha1
        });
        self.given = Given::new(alloc);
        Some(())
    }

    // Puts a record.
    fn put(&mut self, alloc: Global, rest: &[u8]) -> Option<()> {
        let (table, rest) = first_word(rest);
        let (key, body) = first_word(rest);
        let table = u8::try_from(number_of(table)?).ok()?;
        let key = plain(alloc, key)?;
        if key.is_empty() {
            return None;
        }
        let mut batch = Batch::new(alloc);
        batch.put(table, &key, &plain(alloc, body)?).ok()?;
        self.held.apply(batch).ok()
    }

    // Which calls of the sink fail, and its room.
    fn set_sink(&mut self, alloc: Global, rest: &[u8]) -> Option<()> {
        let (room, failing) = first_word(rest);
        self.given.room = number_of(room)? as usize;
        self.given.sink = numbers_of(alloc, failing)?;
        Some(())
    }

    /// Sets what a word names.
    pub fn set(&mut self, alloc: Global, word: &str, rest: &[u8]) -> Option<()> {
        match word {
            "store" => self.begin(alloc, rest)?,
            "meet" => self.ids.meet(),
            "record" => self.put(alloc, rest)?,
            "give" => self.given.payload = plain(alloc, rest)?,
            "fill" => self.given.payload = filled(alloc, rest)?,
            "source" => self.given.source = numbers_of(alloc, rest)?,
            _ => self.set_sink(alloc, rest)?,
        }
        Some(())
    }

    /// Does a command, and appends its status and what it wrote.
    pub fn run<T: Threads + Sync>(
        &mut self,
        threads: &T,
        alloc: Global,
        rest: &[u8],
        out: &mut Vec<u8>,
    ) -> Option<()> {
        let words = words_of(alloc, rest)?;
        let given = std::mem::replace(&mut self.given, Given::new(alloc));
        let (status, printed) = answer(
            threads,
            alloc,
            &self.ids,
            words.as_slice(),
            given,
            &mut self.held,
        )?;
        put_number(alloc, u64::from(status), out)?;
        out.push(b' ').ok()?;
        put_escaped(&printed, out)
    }

    // The body under a key, or the next key.
    fn ask_keeper(
        &mut self,
        alloc: Global,
        word: &str,
        rest: &[u8],
        out: &mut Vec<u8>,
    ) -> Option<()> {
        let (table, key) = first_word(rest);
        let table = u8::try_from(number_of(table)?).ok()?;
        let key = plain(alloc, key)?;
        let mut bytes = Vec::new(alloc);
        let found = if word == "body" {
            self.held.get(table, &key, &mut bytes)
        } else {
            self.held.next(table, &key, &mut bytes)
        };
        if found.ok()? {
            put_hex(&bytes, out)
        } else {
            out.extend_from_slice(b"none").ok()
        }
    }

    /// Appends what the keeper holds, or how often it was read.
    pub fn ask(&mut self, alloc: Global, word: &str, rest: &[u8], out: &mut Vec<u8>) -> Option<()> {
        if word == "body" || word == "next" {
            return self.ask_keeper(alloc, word, rest, out);
        }
        let Held::Plain(keeper) = &mut self.held else {
            return None;
        };
        let reads = if word == "reads" {
            keeper.reads()
        } else {
            let (id, count) = first_word(rest);
            reads_of(alloc, keeper, Id::read_hex(id)?, number_of(count)?)?
        };
        put_number(alloc, reads, out)
    }

    /// Appends which pieces of work met, or how often its ids were asked for.
    pub fn ask_ids(&self, alloc: Global, word: &str, out: &mut Vec<u8>) -> Option<()> {
        if word == "met" {
            return put_number(alloc, self.ids.met()?, out);
        }
        let [single, calls, texts] = self.ids.hashed();
        put_number(alloc, single, out)?;
        out.push(b' ').ok()?;
        put_number(alloc, calls, out)?;
        out.push(b' ').ok()?;
        put_number(alloc, texts, out)
    }
}

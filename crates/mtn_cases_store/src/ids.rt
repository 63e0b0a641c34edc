// The ids of a session. They are one type, so that `run` is compiled once.
ghost use Rattle.mtn_cases_store.specs.Ids.{makes_ids_of, meaning_of};

use mtn_base::{Id, NoMemory, Text};
use mtn_case_records::meeting::Meeting;
use mtn_ports::{Ident, Sha1One, Toy};
use std::alloc::Global;
use std::sync::atomic::{AtomicU64, Ordering};
use std::thread::Threads;

/// By SHA-1, or by a toy.
#[derive(Clone, Copy)]
pub enum Kind {
    Sha1,
    Toys,
}

/// Ids of a kind. It counts how often one text and how often many are hashed, and how many these are. Pieces of work wait for one
/// another, if they are to meet.
#[derive(Drop)]
pub struct Ids {
    kind: Kind,
    meeting: Option<Meeting>,
    single: AtomicU64,
    calls: AtomicU64,
    texts: AtomicU64,
}

impl Ids {
    /// Those of a kind, of which none was asked for.
    pub fn new(kind: Kind) -> Ids {
        Ids {
            kind,
            meeting: None,
            single: AtomicU64::new(0),
            calls: AtomicU64::new(0),
            texts: AtomicU64::new(0),
        }
    }

    /// Lets the pieces of work meet that come from now on.
    pub fn meet(&mut self) {
        self.meeting = Some(Meeting::new());
    }

    /// The pieces that met, a bit each; None where they are not to.
    pub fn met(&self) -> Option<u64> {
        Some(self.meeting.as_ref()?.met())
    }

    /// How often one text was hashed, how often many were, and how many these are.
    pub fn hashed(&self) -> [u64; 3] {
        [
            self.single.load(Ordering::SeqCst),
            self.calls.load(Ordering::SeqCst),
            self.texts.load(Ordering::SeqCst),
        ]
    }
}

impl Ident for Ids {
    ghost meaning = { meaning_of };

    ghost makes_ids = { makes_ids_of };

    fn pass(&self, piece: usize) {
        if let Some(meeting) = &self.meeting {
            meeting.pass(piece);
        }
    }

    fn id(&self, text: &[u8]) -> Id {
        self.single.fetch_add(1, Ordering::SeqCst);
        match self.kind {
            Kind::Sha1 => Sha1One.id(text),
            Kind::Toys => Toy.id(text),
        }
    }

    fn ids<R: Threads + Sync>(
        &self,
        rt: &R,
        alloc: Global,
        texts: &[Text],
    ) -> Result<Vec<Id>, NoMemory> {
        self.calls.fetch_add(1, Ordering::SeqCst);
        self.texts.fetch_add(texts.len() as u64, Ordering::SeqCst);
        match self.kind {
            Kind::Sha1 => Sha1One.ids(rt, alloc, texts),
            Kind::Toys => Toy.ids(rt, alloc, texts),
        }
    }
}

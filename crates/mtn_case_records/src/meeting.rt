// Where pieces of work meet that run at the same time.
use std::sync::atomic::{AtomicU64, Ordering};

// How often a piece looks for another, so that pieces that cannot meet give up.
const TURNS: u64 = 100_000_000;

/// Where pieces of work wait for one another: a bit for each that has come, and one for each that has seen another.
#[derive(Drop)]
pub struct Meeting {
    come: AtomicU64,
    met: AtomicU64,
}

impl Meeting {
    /// To which none has come.
    pub fn new() -> Meeting {
        Meeting {
            come: AtomicU64::new(0),
            met: AtomicU64::new(0),
        }
    }

    /// A piece comes, and waits until another has come, or gives up.
    pub fn pass(&self, piece: usize) {
        let own = 1_u64 << (piece % 64);
        self.come.fetch_or(own, Ordering::SeqCst);
        for _ in 0..TURNS {
            if self.come.load(Ordering::SeqCst) != own {
                self.met.fetch_or(own, Ordering::SeqCst);
                return;
            }
        }
    }

    /// The pieces that have seen another, a bit each: 3 where 0 and 1 have.
    pub fn met(&self) -> u64 {
        self.met.load(Ordering::SeqCst)
    }
}

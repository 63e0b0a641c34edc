// A line of a thousand revisions with two children of its last, which is asked and may fail.
ghost use Rattle.std.specs.Prelude.{◌≡◌, ◌≤◌, ⊤};

use crate::said::Said;
use mtn_ancestry::{ParentList, Parents, Pos, PosSet, WalkError, uncommon};
use mtn_case_trees::number_of;
use std::alloc::Global;

#[derive(Drop)]
struct Line {
    asked: u64,
    fails_at: u64,
}

impl Parents for Line {
    type Error = u64;

    ghost tells = { λ _ _ _. ⊥ };

    ghost asked = { λ l. l.asked };

    ghost stays = { λ s t. s.asked ≤ t.asked };

    ghost caused = { λ _ t e. e ≡ t.asked };

    fn parents(&mut self, at: Pos) -> Result<ParentList, u64> {
        self.asked = self.asked.saturating_add(1);
        if self.asked == self.fails_at {
            return Err(self.asked);
        }
        Ok(match at.0 {
            0 => ParentList::Zero,
            1001 => ParentList::One(Pos(999)),
            n => ParentList::One(Pos(n - 1)),
        })
    }

    ghost use Rattle.std.proofs.Common.{rules};

    ghost earlier = { λ _ _ _ t. absurd t };

    ghost stays_itself = { λ _. Prim.search rules };

    ghost stays_on = { λ _ _ _ p q. Prim.search rules };

    ghost caused_before = { λ _ _ _ _ _ c. c };
}

fn put_counts(asked: u64, sets: &(PosSet, PosSet), said: &mut Said) {
    said.put(b"asked ");
    said.put_number(asked);
    said.put(b" alone ");
    said.put_number(sets.0.as_slice().len() as u64);
    said.put(b" ");
    said.put_number(sets.1.as_slice().len() as u64);
}

fn put_walked(asked: u64, walked: Result<(PosSet, PosSet), WalkError<u64>>, said: &mut Said) {
    match walked {
        Ok(sets) => put_counts(asked, &sets, said),
        Err(WalkError::Asked(number)) => {
            said.put(b"failed ");
            said.put_number(number);
        }
        Err(WalkError::NoMemory) => said.is_whole = false,
    }
}

/// Prints how often the line was asked for the parents of a revision, and how many revisions each child has alone; or the
/// question that failed.
pub fn answer(alloc: Global, at: &[u8], said: &mut Said) -> Option<()> {
    let mut line = Line {
        asked: 0,
        fails_at: u64::from(number_of(at)?),
    };
    let walked = uncommon(alloc, &mut line, Pos(1000), Pos(1001));
    put_walked(line.asked, walked, said);
    said.put(b"\n");
    Some(())
}

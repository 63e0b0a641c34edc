// How many records tables have, by their keys alone.
ghost use Rattle.std.specs.Prelude.{◌↔◌, ℕ, IfOk, IfSome, IsErrOf, IsTrue};
ghost use Rattle.mtn_model.specs.Table.{Contents};
ghost use Rattle.mtn_ports.specs.Causes.{Rose};
ghost use Rattle.mtn_ports.specs.Kept.{Stays};
ghost use Rattle.mtn_check.specs.Tables.{AreTallied, HasAtMost, IsTally};

use mtn_check_walk::Errand;
use mtn_history::{LOG, ROSTERS, StoreError, TEXTS};
use mtn_ports::{KeepError, Keeper};
use std::alloc::Global;
use std::mem::{replace, swap};

// How many keys of a table are counted in one step: as many as a stretch has positions.
const STEP: u64 = 256;

/// How many keys a table has up to one of them.
#[derive(Drop)]
pub struct Tally {
    pub found: u64,
    pub last: Vec<u8>,
}

impl Tally {
    /// Before the first key.
    fn new(alloc: Global) -> Tally
        ensures { (table most : ℕ) (c : Contents) → IsTally table most c result }
    {
        Tally {
            found: 0,
            last: Vec::new(alloc),
        }
    }

    // The same some keys further, but no further than `most`.
    fn further<K: Keeper>(
        self,
        alloc: Global,
        table: u8,
        most: u64,
        keeper: &mut K,
    ) -> Result<Tally, KeepError>
        requires tally { IfSome (K.contents keeper.old) (λ c. IsTally table most c self) }
        ensures stays { Stays K.contents K.leaves K.faults keeper.old keeper.new }
        ensures tally { IfSome (K.contents keeper.new) (λ c. IfOk result (IsTally table most c)) }
        ensures failed { IsErrOf result KeepError.Failed → Rose (K.faults keeper.old) (K.faults keeper.new) }
    {
        let Tally {
            mut found,
            mut last,
        } = self;
        let mut key = Vec::new(alloc);
        for _ in 0..STEP {
            if found >= most {
                return Ok(Tally { found, last });
            }
            if !keeper.next(table, &last, &mut key)? {
                return Ok(Tally { found, last });
            }
            swap(&mut last, &mut key);
            found += 1;
        }
        Ok(Tally { found, last })
    }

    /// Whether the table has no more records than so many. It asks for the keys that are not counted yet, and for one more, and for
    /// no body.
    pub fn has_at_most<K: Keeper>(
        self,
        alloc: Global,
        table: u8,
        most: u64,
        keeper: &mut K,
    ) -> Result<bool, KeepError>
        requires tally { IfSome (K.contents keeper.old) (λ c. IsTally table most c self) }
        ensures stays { Stays K.contents K.leaves K.faults keeper.old keeper.new }
        ensures few { IfSome (K.contents keeper.new) (λ c. IfOk result (λ few. IsTrue few ↔ HasAtMost table most c)) }
        ensures failed { IsErrOf result KeepError.Failed → Rose (K.faults keeper.old) (K.faults keeper.new) }
    {
        let Tally { found, mut last } = self;
        let mut key = Vec::new(alloc);
        for _found in found..most {
            if !keeper.next(table, &last, &mut key)? {
                return Ok(true);
            }
            swap(&mut last, &mut key);
        }
        let more = keeper.next(table, &last, &mut key)?;
        Ok(!more)
    }
}

/// How many keys the tables have that have one for each position.
#[derive(Drop)]
pub struct Tallies {
    pub texts: Tally,
    pub log: Tally,
    pub rosters: Tally,
}

impl Tallies {
    /// Before the first keys.
    pub fn new(alloc: Global) -> Tallies
        ensures { (count : ℕ) (c : Contents) → AreTallied count c result }
    {
        Tallies {
            texts: Tally::new(alloc),
            log: Tally::new(alloc),
            rosters: Tally::new(alloc),
        }
    }
}

// Counted beside the walk along the log, whose keys they are.
impl Errand for Tallies {
    ghost use Rattle.mtn_check.specs.Tables.{AreTallied};

    ghost holds = { λ tallies count c. AreTallied count c tallies };

    fn go<K: Keeper>(
        &mut self,
        alloc: Global,
        count: u64,
        keeper: &mut K,
    ) -> Result<(), StoreError> {
        let Tallies {
            texts,
            log,
            rosters,
        } = replace(self, Tallies::new(alloc));
        let texts = texts.further(alloc, TEXTS, count, keeper)?;
        let log = log.further(alloc, LOG, count, keeper)?;
        let rosters = rosters.further(alloc, ROSTERS, count, keeper)?;
        *self = Tallies {
            texts,
            log,
            rosters,
        };
        Ok(())
    }
}

// A keeper that shows of another only the records of its first revisions.
ghost use Rattle.std.specs.Prelude.{◌≡◌, ℕ, Option, None};
ghost use Rattle.mtn_model.specs.Table.{Contents};
ghost use Rattle.mtn_ports.specs.Kept.{Same};

use crate::shown::get_shown;
use mtn_ports::{Batch, KeepError, Keeper};
use std::alloc::Global;
use std::marker::{Brand, Model, PhantomData};

/// Of a [`Below`], the reference behind which its keeper is, how many revisions it shows, and what the keeper told when it was
/// lent. A proof picks them where one is made: so whoever asks a [`Below`] leaves it over the same keeper, which tells the same
/// or nothing.
pub trait Behind {
    ghost reference: { ℕ };

    ghost count: { ℕ };

    ghost told: { Option Contents };
}

impl Behind for Brand {
    ghost reference = { 0 };

    ghost count = { 0 };

    ghost told = { None };
}

/// A keeper that is lent, and of how many revisions it is to show the records.
pub struct Lent<'a, K: Keeper> {
    pub alloc: Global,
    pub keeper: &'a mut K,
    pub count: u64,
}

impl<'a, K: Keeper> Lent<'a, K> {
    /// Lends a keeper. It takes no memory.
    pub fn new(alloc: Global, keeper: &'a mut K, count: u64) -> Lent<'a, K>
        ensures reference { result.keeper.ghost_name ≡ keeper.entry.ghost_name }
        ensures keeper { result.keeper.now ≡ keeper.old }
        ensures count { result.count ≡ count }
    {
        Lent {
            alloc,
            keeper,
            count,
        }
    }
}

/// A keeper that shows the records of the first revisions of another, and its files, which contracts see as that other keeper.
/// It is only asked, by `get`, and files by `next`: other calls answer that memory ran out.
pub struct Below<'a, K: Keeper, N: Behind> {
    alloc: Global,
    keeper: &'a mut K,
    count: u64,
    of: PhantomData<N>,
}

impl<'a, K: Keeper, N: Behind> Model for Below<'a, K, N> {
    ghost Value = { K };

    ghost view = { λ b. b.keeper.now };

    ghost invariant = { λ b. (b.keeper.ghost_name ≡ N.reference) × (b.count ≡ N.count) × Same N.told (K.contents b.keeper.now) };
}

impl<'a, K: Keeper, N: Behind> Below<'a, K, N> {
    /// Shows what a keeper that is lent is to show. It takes no memory.
    pub fn new(lent: Lent<'a, K>) -> Below<'a, K, N>
        requires reference { lent.keeper.ghost_name ≡ N.reference }
        requires count { lent.count ≡ N.count }
        requires told { N.told ≡ K.contents lent.keeper.now }
        ensures { result ≡ lent.entry.keeper.now }
    {
        let Lent {
            alloc,
            keeper,
            count,
        } = lent;
        Below {
            alloc,
            keeper,
            count,
            of: PhantomData,
        }
    }

    /// The keeper that was lent, behind the same reference. It takes no memory.
    pub fn into_lent(self) -> Lent<'a, K>
        ensures same_reference { result.keeper.ghost_name ≡ N.reference }
        ensures keeper { result.keeper.now ≡ self.entry }
        ensures told { Same N.told (K.contents self.entry) }
    {
        let Below {
            alloc,
            keeper,
            count,
            of: _,
        } = self;
        Lent {
            alloc,
            keeper,
            count,
        }
    }
}

impl<'a, K: Keeper, N: Behind> Keeper for Below<'a, K, N> {
    ghost use Rattle.mtn_check_log.specs.Below.{told_below};

    ghost contents = { told_below K.contents N.count };

    ghost faults = { K.faults };

    // nobody asks how often
    ghost reads = { λ _. 0 };

    ghost leaves = { K.leaves };

    fn get(&mut self, table: u8, key: &[u8], out: &mut Vec<u8>) -> Result<bool, KeepError> {
        get_shown(self.alloc, self.keeper, self.count, table, key, out)
    }

    fn next(&mut self, table: u8, after: &[u8], key: &mut Vec<u8>) -> Result<bool, KeepError> {
        if table == 2 {
            return self.keeper.next(2, after, key);
        }
        Err(KeepError::NoMemory)
    }

    fn next_record(
        &mut self,
        _table: u8,
        _after: &[u8],
        _key: &mut Vec<u8>,
        _body: &mut Vec<u8>,
    ) -> Result<bool, KeepError> {
        Err(KeepError::NoMemory)
    }

    fn apply(&mut self, _batch: Batch) -> Result<(), KeepError> {
        Err(KeepError::NoMemory)
    }
}

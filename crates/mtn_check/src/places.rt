// The records of the log's positions, and that there are no others in their tables.
ghost use Rattle.std.specs.Prelude.{◌≡◌, ◌↔◌, Err, IfErr, IfOk, IfSome, IsTrue, OnOk};
ghost use Rattle.mtn_history.specs.Errors.{IfDamage};
ghost use Rattle.mtn_history.specs.Logs.{IsLogged};
ghost use Rattle.mtn_records.specs.declared.record.LogRecord.{LogRecord as Log};
ghost use Rattle.mtn_ports.specs.Causes.{Rose};
ghost use Rattle.mtn_ports.specs.Kept.{Stays};
ghost use Rattle.mtn_check.specs.Steps.{ArePlaced, IsUnplaced};
ghost use Rattle.mtn_check.specs.Tables.{AreTallied, IsBreakIn, IsFewOrKept, IsTally};

use crate::few::{Tallies, Tally};
use crate::number::{number_before, number_in};
use crate::scan::{Test, check_table};
use mtn_ancestry::Pos;
use mtn_check_laws::walk_stands;
use mtn_history::{LOG, ROSTERS, StoreError, TEXTS};
use mtn_ports::Keeper;
use mtn_records::read_log;
use std::alloc::Global;

// Whether the log has an id at a position.
fn is_logged<K: Keeper>(
    alloc: Global,
    keeper: &mut K,
    at: u64,
    id: &[u8],
) -> Result<bool, StoreError>
    ensures stays { Stays K.contents K.leaves K.faults keeper.old keeper.new }
    ensures logged { IfSome (K.contents keeper.new) (λ c. IfOk result (λ is. IsTrue is ↔ ((entry : Log) × IsLogged c at entry × (entry.id.0 ≡ id.now)))) }
    ensures sound { IfErr result (λ e. IfDamage e (λ _. ⊥)) }
    ensures failed { result ≡ Err StoreError.Failed → Rose (K.faults keeper.old) (K.faults keeper.new) }
{
    let mut body = Vec::new(alloc);
    if !keeper.get(LOG, &at.to_be_bytes(), &mut body)? {
        return Ok(false);
    }
    match read_log(Pos(at), &body) {
        Ok(entry) => Ok(entry.id.as_slice() == id),
        Err(_) => Ok(false),
    }
}

// That a text is that of a revision of the log.
#[derive(Clone, Copy)]
struct Texts {
    count: u64,
}

impl Test for Texts {
    ghost use Rattle.mtn_check.specs.Steps.{IsTextOf};

    ghost rule = { λ texts c key body. IsTextOf c texts.count key body };

    fn keeps<K: Keeper>(
        &self,
        alloc: Global,
        keeper: &mut K,
        key: &[u8],
        body: &[u8],
    ) -> Result<bool, StoreError> {
        let count = self.count;
        match number_before(alloc, body)? {
            Some(at) if at < count => is_logged(alloc, keeper, at, key),
            _ => Ok(false),
        }
    }
}

// That a key is a position of the log.
#[derive(Clone, Copy)]
struct Places {
    count: u64,
}

impl Test for Places {
    ghost use Rattle.mtn_check.specs.Steps.{PlaceRule};

    ghost rule = { λ places _ key body. PlaceRule places.count key body };

    fn keeps<K: Keeper>(
        &self,
        alloc: Global,
        _keeper: &mut K,
        key: &[u8],
        _body: &[u8],
    ) -> Result<bool, StoreError> {
        let count = self.count;
        match number_in(alloc, key)? {
            Some(at) => Ok(at < count),
            None => Ok(false),
        }
    }
}

// Whether a table has no more records than there are positions, or else each keeps the rule: the first that does not is damage.
// Where each position has a record there, a table with no more has no other, so that no body is read.
fn check_more<T: Test, K: Keeper>(
    alloc: Global,
    test: &T,
    table: u8,
    tally: Tally,
    count: u64,
    keeper: &mut K,
) -> Result<(), StoreError>
    requires tally { IfSome (K.contents keeper.old) (λ c. IsTally table count c tally) }
    ensures stays { Stays K.contents K.leaves K.faults keeper.old keeper.new }
    ensures kept { IfSome (K.contents keeper.new) (λ c. OnOk result (IsFewOrKept table count (T.rule test.now c) c)) }
    ensures damaged { IfSome (K.contents keeper.new) (λ c. IfErr result (λ e. IfDamage e (IsBreakIn table (T.rule test.now c) c))) }
    ensures failed { result ≡ Err StoreError.Failed → Rose (K.faults keeper.old) (K.faults keeper.new) }
{
    if tally.has_at_most(alloc, table, count, keeper)? {
        return Ok(());
    }
    check_table(alloc, test, table, keeper)
}

/// Whether each text, each record of the log and each roster is that of a position below the count. The walk along the log has
/// found those of all positions, so the keys of a table are counted, as far as they are not yet, and only where there are more are its
/// records looked at.
pub fn check_places<K: Keeper>(
    alloc: Global,
    tallies: Tallies,
    count: u64,
    keeper: &mut K,
) -> Result<(), StoreError>
    requires tallied { IfSome (K.contents keeper.old) (λ c. AreTallied count c tallies) }
    ensures stays { Stays K.contents K.leaves K.faults keeper.old keeper.new }
    ensures placed { IfSome (K.contents keeper.new) (λ c. OnOk result (ArePlaced count c)) }
    ensures damaged { IfSome (K.contents keeper.new) (λ c. IfErr result (λ e. IfDamage e (IsUnplaced count c))) }
    ensures failed { result ≡ Err StoreError.Failed → Rose (K.faults keeper.old) (K.faults keeper.new) }
{
    walk_stands();
    let Tallies {
        texts,
        log,
        rosters,
    } = tallies;
    check_more(alloc, &Texts { count }, TEXTS, texts, count, keeper)?;
    check_more(alloc, &Places { count }, LOG, log, count, keeper)?;
    check_more(alloc, &Places { count }, ROSTERS, rosters, count, keeper)
}

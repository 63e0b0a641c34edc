// Records of rosters that copies share, so that each is at hand once, whoever looks at it.
ghost use Rattle.std.specs.Prelude.{◌≡◌, IfOk};
ghost use Rattle.mtn_records.specs.declared.record.RosterRecord.TheVariants.{Whole};

use mtn_base::NoMemory;
use mtn_records::{Numbered, RosterRecord};
use std::alloc::Global;
use std::marker::Model;
use std::sync::Arc;

/// A roster's record, which contracts see. Copies share it.
#[derive(Drop)]
pub struct SharedRecord {
    shared: Arc<RosterRecord>,
}

impl Model for SharedRecord {
    ghost use Rattle.mtn_records.specs.declared.record.RosterRecord.{RosterRecord};

    ghost Value = { RosterRecord };

    ghost view = { λ r. r.shared.value };
}

impl SharedRecord {
    /// A record, for many.
    pub fn new(alloc: Global, roster: RosterRecord) -> Result<SharedRecord, NoMemory>
        ensures { IfOk result (λ r. r ≡ roster) }
    {
        Ok(SharedRecord {
            shared: Arc::new(alloc, roster)?,
        })
    }

    /// The record. It takes no memory.
    pub fn as_record(&self) -> &RosterRecord
        ensures { result.now ≡ self.now }
    {
        &self.shared
    }
}

/// The entries of a whole record, which contracts see. Copies share them, and the record that has them.
#[derive(Drop)]
pub struct SharedEntries {
    shared: Arc<RosterRecord>,
}

impl Model for SharedEntries {
    ghost use Rattle.std.specs.Prelude.{◌≡◌};
    ghost use Rattle.mtn_records.specs.declared.record.RosterRecord.TheVariants.{Whole};
    ghost use Rattle.mtn_roster_deltas.specs.Chain.{Entries};
    ghost use Rattle.mtn_check_pieces.specs.Shared.{entries_in};

    ghost Value = { Entries };

    ghost view = { λ e. entries_in e.shared.value };

    ghost invariant = { λ e. e.shared.value ≡ Whole (entries_in e.shared.value) };
}

impl SharedEntries {
    /// Entries, for many.
    pub fn new(alloc: Global, entries: Numbered) -> Result<SharedEntries, NoMemory>
        ensures { IfOk result (λ e. e ≡ entries) }
    {
        Ok(SharedEntries {
            shared: Arc::new(alloc, RosterRecord::Whole(entries))?,
        })
    }

    /// The same entries, which are shared.
    pub fn copy(&self) -> Result<SharedEntries, NoMemory>
        ensures { IfOk result (λ e. e ≡ self.now) }
    {
        Ok(SharedEntries {
            shared: Arc::try_clone(&self.shared)?,
        })
    }

    /// The whole record that has them, which is shared.
    pub fn whole(&self) -> Result<SharedRecord, NoMemory>
        ensures { IfOk result (λ r. r ≡ Whole self.now) }
    {
        Ok(SharedRecord {
            shared: Arc::try_clone(&self.shared)?,
        })
    }

    /// The entries. It takes no memory.
    pub fn as_numbered(&self) -> &Numbered
        ensures { result.now ≡ self.now }
    {
        match self.shared.as_ref() {
            RosterRecord::Whole(entries) => entries,
            RosterRecord::Delta { .. } => unreachable!(),
        }
    }
}

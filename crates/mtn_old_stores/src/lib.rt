//! Stores of the older form, and what becomes of them.
//!
//! An older store's version is the byte `1`; its certificates are made by keys of a *name*, and stand in table 6. Contents
//! *stand* for an older state (`StandsOld`) where tables 1 to 5 are those of its files and its log, and table 6 its certificates.
//! It is *migrated* by a key table: each certificate goes under the id that the table gives its key.
//!
//! The crates above, and readers, rely on this: contents stand for one older state at most, and then for no state of the
//! present form; what is migrated is lawful, and no two certificates become one; the records of `specs/Migrating.antt`, put
//! over an older store, stand for its migrated state. [`is_older`] tells the form of a store, and [`old_certs`] answers exactly
//! the certificates that an older one holds, each once, reading each record once. Damage is answered only where contents stand for
//! no older state.
//!
//! A *store* is of either form (`specs/Stores.antt`): contents stand for one at most, and what a payload makes of an older one is
//! exactly one thing. `mtn_migrating` has the call that makes it.
#![tactic(auto)]

mod cert;
mod damaged;
mod form;
mod walk;

ghost use Rattle.mtn_old_stores.specs.Laws.{HoldsMigrated, StandForOne, StandOneWay, MigratesLawfully, MigratesRecords, StayApart};
ghost use Rattle.mtn_old_stores.specs.Stores.{MigratesOnce, MigratesSomehow, StandForOneStore};

pub use cert::{OLD_CERTS, OldCert, read_old_cert};
pub use form::is_older;
pub use walk::old_certs;

/// Contents stand for one older state at most, and where they do, for no state of the present form.
pub fn one_state()
    ensures one { StandForOne }
    ensures one_way { StandOneWay }
{
    mtn_store_laws::one_state();
}

/// What is migrated is lawful, holds the certificates under the ids of their keys, and no others, and certificates that differ
/// stay apart.
pub fn lawful()
    ensures lawful { MigratesLawfully }
    ensures held { HoldsMigrated }
    ensures apart { StayApart }
{}

/// The records that are put stand for the migrated state, in whatever order the certificates are taken.
pub fn records()
    ensures { MigratesRecords }
{}

/// Contents stand for one store at most, be it of the older form or the present one.
pub fn one_store()
    ensures { StandForOneStore }
{
    mtn_store_laws::one_state();
    one_state();
}

/// Over an older state a payload comes to no more than one thing.
pub fn one_migration()
    ensures { MigratesOnce }
{}

/// And to something.
pub fn some_migration()
    ensures { MigratesSomehow }
{}

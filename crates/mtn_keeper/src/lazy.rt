// A keeper that opens its database, and so makes it, at its first batch.
ghost use Rattle.std.specs.Prelude.{◌≡◌, ◌≤◌, None, IfOk, IsErrOf, option_map};
ghost use Rattle.mtn_ports.specs.Causes.{Rose};
ghost use Rattle.mtn_keeper.specs.Missing.{told, leaves};

use crate::keeper::{SqliteKeeper, cause_of};
use mtn_ports::{Batch, KeepError, Keeper};
use sqlite::{Alter, Connection, Error};

/// What opens a database, and closes it.
pub trait Opener {
    type Store: Alter + Drop;

    /// A connection to the database, which is made where it is not there.
    fn open(&self) -> Result<Connection<Self::Store>, Error>;

    /// Closes what a connection was over. It takes no memory.
    fn close(store: Self::Store);
}

/// Records in a SQLite database that may not be there yet: it is made at the first batch. Until then there are no records, which
/// is told; from then on no contents are.
#[derive(Drop)]
pub struct LazyKeeper<O: Opener + Drop> {
    opener: O,
    opened: Option<SqliteKeeper<O::Store>>,
    faults: u64,
    reads: u64,
}

impl<O: Opener + Drop> LazyKeeper<O> {
    /// Over a database that is there, which is opened at once. It answers `Failed` where it cannot be opened, and where
    /// `SqliteKeeper::new` does.
    pub fn open(opener: O) -> Result<LazyKeeper<O>, KeepError>
        ensures told { IfOk result (λ k. told k.opened ≡ None) }
        ensures faults { IfOk result (λ k. k.faults ≡ 0) }
        ensures reads { IfOk result (λ k. k.reads ≡ 0) }
    {
        let keeper = opened(&opener)?;
        Ok(LazyKeeper {
            opener,
            opened: Some(keeper),
            faults: 0,
            reads: 0,
        })
    }

    /// Over a database that is not there. It is made at the first batch; where it has a record by then, which another
    /// program put, that batch is refused with `Failed`, since it was decided over none.
    pub fn missing(opener: O) -> LazyKeeper<O>
        ensures { result ≡ record { opener = opener; opened = None; faults = 0; reads = 0 } }
    {
        LazyKeeper {
            opener,
            opened: None,
            faults: 0,
            reads: 0,
        }
    }

    /// The connection, to be closed, where one was opened. It takes no memory.
    pub fn into_connection(self) -> Option<Connection<O::Store>>
        ensures { result ≡ option_map (λ k. k.connection) self.opened }
    {
        let opened = self.opened;
        match opened {
            Some(keeper) => Some(keeper.into_connection()),
            None => None,
        }
    }

    /// Closes the database, where one was opened. It takes no memory.
    pub fn close(self) {
        if let Some(connection) = self.into_connection() {
            O::close(connection.into_store());
        }
    }

    // Counts a failure, except want of memory.
    fn counted<T>(&mut self, ended: Result<T, KeepError>) -> Result<T, KeepError>
        ensures same { result ≡ ended }
        ensures failed { IsErrOf result KeepError.Failed → Rose self.old.faults self.new.faults }
        ensures later { self.old.faults ≤ self.new.faults }
        ensures reads { self.new.reads ≡ self.old.reads }
        ensures opened { self.new.opened ≡ self.old.opened }
    {
        if let Err(KeepError::Failed) = &ended {
            self.faults = self.faults.saturating_add(1);
        }
        ended
    }
}

// The database, opened.
fn opened<O: Opener>(opener: &O) -> Result<SqliteKeeper<O::Store>, KeepError> {
    match opener.open() {
        Ok(connection) => SqliteKeeper::new(connection),
        Err(error) => Err(cause_of(error)),
    }
}

// The database, opened and found without records.
fn made<O: Opener>(opener: &O) -> Result<SqliteKeeper<O::Store>, KeepError> {
    let mut keeper = opened(opener)?;
    if keeper.is_empty()? {
        Ok(keeper)
    } else {
        Err(KeepError::Failed)
    }
}

impl<O: Opener + Drop> Keeper for LazyKeeper<O> {
    ghost contents = { λ k. told k.opened };

    ghost faults = { λ k. k.faults };

    ghost reads = { λ k. k.reads };

    ghost leaves = { λ k. leaves k.opened };

    fn get(&mut self, table: u8, key: &[u8], out: &mut Vec<u8>) -> Result<bool, KeepError> {
        self.reads = self.reads.saturating_add(1);
        let Some(keeper) = &mut self.opened else {
            return Ok(false);
        };
        let ended = keeper.get(table, key, out);
        self.counted(ended)
    }

    fn next(&mut self, table: u8, after: &[u8], key: &mut Vec<u8>) -> Result<bool, KeepError> {
        self.reads = self.reads.saturating_add(1);
        let Some(keeper) = &mut self.opened else {
            return Ok(false);
        };
        let ended = keeper.next(table, after, key);
        self.counted(ended)
    }

    fn next_record(
        &mut self,
        table: u8,
        after: &[u8],
        key: &mut Vec<u8>,
        body: &mut Vec<u8>,
    ) -> Result<bool, KeepError> {
        self.reads = self.reads.saturating_add(1);
        let Some(keeper) = &mut self.opened else {
            return Ok(false);
        };
        let ended = keeper.next_record(table, after, key, body);
        self.counted(ended)
    }

    fn apply(&mut self, batch: Batch) -> Result<(), KeepError> {
        let ended = match &mut self.opened {
            Some(keeper) => keeper.apply(batch),
            None => match made(&self.opener) {
                Ok(mut keeper) => {
                    let ended = keeper.apply(batch);
                    self.opened = Some(keeper);
                    ended
                }
                Err(cause) => Err(cause),
            },
        };
        self.counted(ended)
    }
}

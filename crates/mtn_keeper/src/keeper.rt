// The keeper: each refusal of the database is counted as a fault, except want of memory.
ghost use Rattle.std.specs.Prelude.{◌≡◌, ◌≤◌, true, None, Err, ⊤, IfOk, IsErrOf};
ghost use Rattle.mtn_ports.specs.Causes.{Rose};

use crate::database::{has_record, make_table, put_all, read_bytes, read_record};
use crate::statements::{GET, NEXT};
use mtn_ports::{Batch, KeepError, Keeper};
use sqlite::{Alter, Connection, Error, ErrorCode};
use std::cmp::Ordering;

/// Records in a SQLite database. It tells no contents, and so no contents that a crash may leave.
#[derive(Drop)]
pub struct SqliteKeeper<S: Alter + Drop> {
    connection: Connection<S>,
    faults: u64,
    reads: u64,
}

impl<S: Alter + Drop> SqliteKeeper<S> {
    /// Makes the table where the database has nothing of its own. It answers `Failed` where a call was refused
    /// for another cause than memory, where a transaction is open, and where the database has any other table,
    /// view, index or trigger than our table; the database then is as it was.
    pub fn new(mut connection: Connection<S>) -> Result<SqliteKeeper<S>, KeepError>
        ensures open { connection.in_transaction ≡ true → result ≡ Err KeepError.Failed }
        ensures faults { IfOk result (λ k. k.faults ≡ 0) }
        ensures reads { IfOk result (λ k. k.reads ≡ 0) }
    {
        match make_table(&mut connection) {
            Ok(()) => Ok(SqliteKeeper {
                connection,
                faults: 0,
                reads: 0,
            }),
            Err(error) => Err(cause_of(error)),
        }
    }

    /// The connection, to be closed. It takes no memory.
    pub fn into_connection(self) -> Connection<S>
        ensures { result ≡ self.connection }
    {
        self.connection
    }

    // Whether there is no record. It is no read of one, and its failure is counted by the caller.
    pub(crate) fn is_empty(&mut self) -> Result<bool, KeepError> {
        match has_record(&mut self.connection) {
            Ok(found) => Ok(!found),
            Err(error) => Err(cause_of(error)),
        }
    }

    // Counts a refusal, except want of memory.
    fn refuse(&mut self, error: Error) -> KeepError
        ensures failed { result ≡ KeepError.Failed → Rose self.old.faults self.new.faults }
        ensures later { self.old.faults ≤ self.new.faults }
        ensures reads { self.new.reads ≡ self.old.reads }
    {
        let cause = cause_of(error);
        if cause == KeepError::Failed {
            self.faults = self.faults.saturating_add(1);
        }
        cause
    }
}

pub(crate) fn cause_of(error: Error) -> KeepError
    ensures open { error ≡ Error.SqliteFailure ErrorCode.TransactionState → result ≡ KeepError.Failed }
{
    match error {
        Error::SqliteFailure(ErrorCode::OutOfMemory) => KeepError::NoMemory,
        _ => KeepError::Failed,
    }
}

impl<S: Alter + Drop> Keeper for SqliteKeeper<S> {
    ghost contents = { λ _. None };

    ghost faults = { λ k. k.faults };

    ghost reads = { λ k. k.reads };

    ghost leaves = { λ _ _. ⊤ };

    fn get(&mut self, table: u8, key: &[u8], out: &mut Vec<u8>) -> Result<bool, KeepError> {
        self.reads = self.reads.saturating_add(1);
        match read_bytes(&mut self.connection, GET, table, key, out) {
            Ok(found) => Ok(found),
            Err(error) => Err(self.refuse(error)),
        }
    }

    fn next(&mut self, table: u8, after: &[u8], key: &mut Vec<u8>) -> Result<bool, KeepError> {
        self.reads = self.reads.saturating_add(1);
        match read_bytes(&mut self.connection, NEXT, table, after, key) {
            Ok(false) => Ok(false),
            Ok(true) => match after.cmp(key.as_slice()) {
                Ordering::Less => Ok(true),
                // The database gave a key that it was not asked for.
                _ => Err(self.refuse(Error::SqliteFailure(ErrorCode::DatabaseCorrupt))),
            },
            Err(error) => Err(self.refuse(error)),
        }
    }

    fn next_record(
        &mut self,
        table: u8,
        after: &[u8],
        key: &mut Vec<u8>,
        body: &mut Vec<u8>,
    ) -> Result<bool, KeepError> {
        self.reads = self.reads.saturating_add(1);
        match read_record(&mut self.connection, table, after, key, body) {
            Ok(false) => Ok(false),
            Ok(true) => match after.cmp(key.as_slice()) {
                Ordering::Less => Ok(true),
                _ => Err(self.refuse(Error::SqliteFailure(ErrorCode::DatabaseCorrupt))),
            },
            Err(error) => Err(self.refuse(error)),
        }
    }

    fn apply(&mut self, batch: Batch) -> Result<(), KeepError> {
        match put_all(&mut self.connection, &batch) {
            Ok(()) => Ok(()),
            Err(error) => Err(self.refuse(error)),
        }
    }
}

// What is asked of the connection, each in a function of its own. Nothing is claimed yet of what a database holds.
ghost use Rattle.std.specs.Prelude.{◌≡◌, true, Err};

use crate::statements::{ANY, MAKE, NEXT_RECORD, OTHERS, OURS, PUT};
use mtn_ports::{Batch, Put};
use sqlite::{Alter, Connection, Error, ErrorCode, Transaction, params};
use sqlite_value::value::ValueRef;

// Makes the table in a database that has nothing of its own, or finds it there alone.
pub(crate) fn make_table<S: Alter>(connection: &mut Connection<S>) -> Result<(), Error>
    ensures open { connection.old.in_transaction ≡ true → result ≡ Err (Error.SqliteFailure ErrorCode.TransactionState) }
{
    if !connection.is_autocommit() {
        return Err(Error::SqliteFailure(ErrorCode::TransactionState));
    }
    if count_objects(connection, OTHERS)? != 0 {
        return Err(Error::SqliteFailure(ErrorCode::NotADatabase));
    }
    if count_objects(connection, OURS)? == 0 {
        connection.execute(MAKE, &[])?;
    }
    Ok(())
}

// How many objects of the database a text finds that is given the text of our table.
fn count_objects<S: Alter>(connection: &mut Connection<S>, text: &str) -> Result<i64, Error> {
    connection.query_row(text, params![MAKE])?.get(0)
}

// Whether the table has a record.
pub(crate) fn has_record<S: Alter>(connection: &mut Connection<S>) -> Result<bool, Error> {
    match connection.query_row(ANY, &[]) {
        Ok(_) => Ok(true),
        Err(Error::QueryReturnedNoRows) => Ok(false),
        Err(error) => Err(error),
    }
}

// Replaces `out` by the bytes that a text finds for a kind and a name, and answers whether it found any.
pub(crate) fn read_bytes<S: Alter>(
    connection: &mut Connection<S>,
    text: &str,
    kind: u8,
    name: &[u8],
    out: &mut Vec<u8>,
) -> Result<bool, Error> {
    let row = match connection.query_row(text, params![u32::from(kind), name]) {
        Ok(row) => row,
        Err(Error::QueryReturnedNoRows) => return Ok(false),
        Err(error) => return Err(error),
    };
    let ValueRef::Blob(bytes) = row.get_ref(0)? else {
        return Err(Error::InvalidQuery);
    };
    out.clear();
    out.extend_from_slice(bytes)?;
    Ok(true)
}

// Replaces `name` and `body` by those of the record that follows one of a kind, and answers whether there is one.
pub(crate) fn read_record<S: Alter>(
    connection: &mut Connection<S>,
    kind: u8,
    after: &[u8],
    name: &mut Vec<u8>,
    body: &mut Vec<u8>,
) -> Result<bool, Error> {
    let row = match connection.query_row(NEXT_RECORD, params![u32::from(kind), after]) {
        Ok(row) => row,
        Err(Error::QueryReturnedNoRows) => return Ok(false),
        Err(error) => return Err(error),
    };
    let (ValueRef::Blob(found), ValueRef::Blob(held)) = (row.get_ref(0)?, row.get_ref(1)?) else {
        return Err(Error::InvalidQuery);
    };
    name.clear();
    name.extend_from_slice(found)?;
    body.clear();
    body.extend_from_slice(held)?;
    Ok(true)
}

// Puts all records of a batch, or none.
pub(crate) fn put_all<S: Alter>(
    connection: &mut Connection<S>,
    batch: &Batch,
) -> Result<(), Error> {
    if !connection.is_autocommit() {
        return Err(Error::SqliteFailure(ErrorCode::TransactionState));
    }
    let mut transaction = connection.transaction();
    put_each(&mut transaction, batch.as_slice())?;
    transaction.commit()
}

fn put_each<S: Alter>(transaction: &mut Transaction<'_, S>, puts: &[Put]) -> Result<(), Error> {
    for put in puts {
        transaction.execute(
            PUT,
            params![
                u32::from(put.table),
                put.key.as_slice(),
                put.body.as_slice()
            ],
        )?;
    }
    Ok(())
}

// The key table that a payload is.
ghost use Rattle.std.specs.Prelude.{◌≡◌, Ok, IfErr, IfOk};
ghost use Rattle.mtn_certs.specs.GivenTables.{IsTableOf, text_cause};
ghost use Rattle.mtn_certs.specs.KeyTables.{IsKeyTable};
ghost use Rattle.mtn_migrating.specs.Working.{IsRefusedFor, IsUntabled};

use mtn_base::{Cause, MAX_TEXT};
use mtn_certs::{KeyName, KeyTextError, read_keys};
use mtn_history::{HistoryError, StoreError};
use std::alloc::Global;

// What a text that spells no key table is refused for.
fn unread(error: KeyTextError) -> HistoryError
    ensures { IsRefusedFor (text_cause error) result }
{
    HistoryError::Refused(match error {
        KeyTextError::NotText { offset } => Cause::NotText { offset },
        KeyTextError::BadStanza { number } => Cause::BadStanza { number },
        KeyTextError::BadOrder { number } => Cause::BadOrder { number },
        KeyTextError::Repeated { number } => Cause::Repeated { number },
        KeyTextError::NoMemory => return HistoryError::Store(StoreError::NoMemory),
    })
}

/// The key table of a payload; TextTooLong, or the fault of a text that spells none.
pub fn read_table(alloc: Global, payload: &[u8]) -> Result<Vec<KeyName>, HistoryError>
    ensures read { IfOk result (λ table. IsTableOf payload.now (Ok table.items)) }
    ensures table { IfOk result (λ table. IsKeyTable table.items) }
    ensures refused { IfErr result (IsUntabled payload.now) }
{
    if payload.len() > MAX_TEXT {
        return Err(HistoryError::Refused(Cause::TextTooLong {
            length: payload.len() as u64,
        }));
    }
    match read_keys(alloc, payload) {
        Ok(table) => Ok(table),
        Err(error) => Err(unread(error)),
    }
}

// What an error of a command is told as.
ghost use Rattle.std.specs.Prelude.{◌≡◌, ◌++◌, IfOk, OnOk};
ghost use Rattle.hex.specs.Hex.{encode_lower};
ghost use Rattle.mtn_cli.specs.Store.{IsTold};
ghost use Rattle.mtn_commands.specs.Drafts.{whole_error};
ghost use Rattle.mtn_cli.specs.Texts.{damage_line as line_of, record_text};

use mtn_base::{Bytes, List, NoMemory, Refusal};
use mtn_commands::error::CommandError;
use mtn_frame::WorkError;
use mtn_history::{Damage, HistoryError, StoreError};
use std::alloc::Global;

/// The same error of a command, which refuses by its cause alone.
pub fn whole(error: HistoryError) -> CommandError
    ensures { result ≡ whole_error error }
{
    match error {
        HistoryError::Refused(cause) => CommandError::Refused(Refusal { packet: 0, cause }),
        HistoryError::Store(error) => CommandError::Store(error),
    }
}

/// The same error for the frame: a refusal whole, a damage by its line.
pub fn tell(alloc: Global, error: CommandError) -> WorkError
    ensures { IsTold error result }
{
    match error {
        CommandError::Refused(refusal) => WorkError::Refused { refusal },
        CommandError::Store(StoreError::Failed) => WorkError::Failed,
        CommandError::Store(StoreError::NoMemory) => WorkError::NoMemory,
        CommandError::Store(StoreError::Damaged(damage)) => match damage_line(alloc, &damage) {
            Ok(line) => WorkError::Damaged { line },
            Err(NoMemory) => WorkError::NoMemory,
        },
    }
}

// The line that shows a damage.
fn damage_line(alloc: Global, damage: &Damage) -> Result<Bytes, NoMemory>
    ensures { IfOk result (λ line. line ≡ line_of damage.now) }
{
    let mut text = Vec::new(alloc);
    match damage {
        Damage::Bad { table, key, body } => {
            text.extend_from_slice(b"damaged")?;
            push_record(alloc, &mut text, *table, key.as_slice())?;
            text.push(b' ')?;
            push_hex(alloc, &mut text, body.as_slice())?;
        }
        Damage::Missing { table, key } => {
            text.extend_from_slice(b"missing")?;
            push_record(alloc, &mut text, *table, key.as_slice())?;
        }
    }
    text.push(b'\n')?;
    Ok(List::from_vec(text))
}

fn push_record(alloc: Global, text: &mut Vec<u8>, table: u8, key: &[u8]) -> Result<(), NoMemory>
    ensures { OnOk result (text.new.items ≡ text.old.items ++ record_text table key.now) }
{
    let number = table.to_string(alloc)?;
    text.push(b' ')?;
    text.extend_from_slice(number.as_bytes())?;
    text.push(b' ')?;
    push_hex(alloc, text, key)
}

fn push_hex(alloc: Global, text: &mut Vec<u8>, bytes: &[u8]) -> Result<(), NoMemory>
    ensures { OnOk result (text.new.items ≡ text.old.items ++ encode_lower bytes.now) }
{
    let digits = hex::encode(alloc, bytes)?;
    text.extend_from_slice(digits.as_bytes())?;
    Ok(())
}

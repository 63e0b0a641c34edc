// Why a command has no reply.
ghost use Rattle.std.specs.Prelude.{◌≡◌};
ghost use Rattle.mtn_commands.specs.Drafts.{whole as whole_of};

use mtn_base::Refusal;
use mtn_frame::Reply;
use mtn_history::{HistoryError, StoreError};

/// Why a command has no reply: its refusal, with the number of a packet where one is refused, or what the store did.
#[derive(Drop)]
pub enum CommandError {
    Refused(Refusal),
    Store(StoreError),
}

/// The same for a command that refuses by its cause alone.
pub fn whole(worked: Result<Reply, HistoryError>) -> Result<Reply, CommandError>
    ensures { result ≡ whole_of worked }
{
    match worked {
        Ok(reply) => Ok(reply),
        Err(HistoryError::Refused(cause)) => {
            Err(CommandError::Refused(Refusal { packet: 0, cause }))
        }
        Err(HistoryError::Store(error)) => Err(CommandError::Store(error)),
    }
}

// The contents that changes bring.
ghost use Rattle.std.specs.Prelude.{◌≡◌};
ghost use Rattle.mtn_replay.specs.Making.{new_content as content_of};

use mtn_base::Id;
use mtn_changes::Change;

/// The content that a change brings, if it adds or patches a file.
pub fn new_content(change: &Change) -> Option<Id>
    ensures { result ≡ content_of change.now }
{
    match change {
        Change::AddFile { path: _, content } => Some(*content),
        Change::Patch {
            path: _,
            from: _,
            to,
        } => Some(*to),
        _ => None,
    }
}

// The text of a position.
ghost use Rattle.std.specs.Prelude.{◌↔◌, IsTrue};
ghost use Rattle.mtn_check_records.specs.Due.{IsUnderId};

use mtn_base::MAX_TEXT;
use mtn_check_pieces::CheckJob;
use mtn_ports::Ident;

/// Whether the text is within its limit, and under its id.
pub fn is_under_id<I: Ident>(ident: &I, job: &CheckJob) -> bool
    ensures { IsTrue result ↔ IsUnderId (I.meaning ident.now) job.now }
{
    let text = job.text.as_slice();
    if text.len() > MAX_TEXT {
        return false;
    }
    ident.id(text).0 == job.id.0
}

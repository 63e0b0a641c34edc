// Laws of records and of their texts, for callers that prove.
ghost use Rattle.std.specs.Prelude.{◌≡◌, IfErr, IfOk};
ghost use Rattle.mtn_records.specs.Bounds.{IsLogWithin, IsWithin};
ghost use Rattle.mtn_records.specs.Fields.{AreApart};
ghost use Rattle.mtn_records.specs.Records.{log_text, roster_text, IsLogRecord, IsRosterRecord};

use crate::error::RecordError;
use crate::logs::{read_log, write_log};
use crate::record::{LogRecord, RosterRecord};
use crate::rosters::{read_roster, write_roster};
use mtn_ancestry::Pos;
use std::alloc::Global;

/// A text is that of one record, and no record's text goes on in another's.
pub fn one_record()
    ensures rosters { AreApart roster_text IsRosterRecord }
    ensures logs { AreApart log_text IsLogRecord }
{}

/// What is written is read back under each key whose bounds it keeps, by way of its text.
pub fn roster_again(
    alloc: Global,
    at: Pos,
    roster: &RosterRecord,
) -> Result<RosterRecord, RecordError>
    requires form { IsRosterRecord roster.now }
    requires within { IsWithin at roster.now }
    ensures same { IfOk result (λ r. r ≡ roster.now) }
    ensures memory { IfErr result (λ e. e ≡ RecordError.NoMemory) }
{
    let mut body = Vec::new(alloc);
    write_roster(roster, &mut body)?;
    read_roster(alloc, at, body.as_slice())
}

/// What is written is read back under each key that is above its parents, by way of its text.
pub fn log_again(alloc: Global, at: Pos, log: &LogRecord) -> Result<LogRecord, RecordError>
    requires form { IsLogRecord log.now }
    requires within { IsLogWithin at log.now }
    ensures same { IfOk result (λ r. r ≡ log.now) }
    ensures memory { IfErr result (λ e. e ≡ RecordError.NoMemory) }
{
    let mut body = Vec::new(alloc);
    write_log(log, &mut body)?;
    read_log(at, body.as_slice())
}

// Records.
ghost use Rattle.mtn_records.specs.Bounds.{IsRosterAt, IsWithin, IsLogAt, IsLogWithin};
ghost use Rattle.mtn_records.specs.Records.{roster_text, IsRosterRecord, log_text, IsLogRecord};
ghost use Rattle.mtn_records.specs.declared.record.LogRecord.{LogRecord as Log};
ghost use Rattle.mtn_records.specs.declared.record.RosterRecord.{RosterRecord as Roster};
ghost use Rattle.std.specs.Prelude.{◌≡◌, ◌↔◌, ◌++◌, IfOk, OnOk, OnErr, IsErrOf, IsTrue, ◌<◌, IfErr};

use mtn_ancestry::Pos;
use mtn_base::NoMemory;
use mtn_records::{LogRecord, RecordError, RosterRecord};
use std::alloc::Global;

/// As `mtn_records::read_roster`.
pub fn read_roster(alloc: Global, at: Pos, body: &[u8]) -> Result<RosterRecord, RecordError>
    ensures ok { IfOk result (IsRosterAt at body.now) }
    ensures only { IfOk result (λ r. (other : Roster) → IsRosterAt at body.now other → other ≡ r) }
    ensures bad { IsErrOf result RecordError.Bad → (roster : Roster) → IsRosterAt at body.now roster → ⊥ }
{
    mtn_records::read_roster(alloc, at, body)
}

/// As `mtn_records::write_roster`.
pub fn write_roster(roster: &RosterRecord, out: &mut Vec<u8>) -> Result<(), NoMemory>
    requires { IsRosterRecord roster.now }
    ensures ok { OnOk result (out.new.items ≡ out.old.items ++ roster_text roster.now) }
    ensures err { OnErr result (out.new.items ≡ out.old.items) }
{
    mtn_records::write_roster(roster, out)
}

/// As `mtn_records::read_log`.
pub fn read_log(at: Pos, body: &[u8]) -> Result<LogRecord, RecordError>
    ensures ok { IfOk result (IsLogAt at body.now) }
    ensures only { IfOk result (λ r. (other : Log) → IsLogAt at body.now other → other ≡ r) }
    ensures bad { IfErr result (λ e. (e ≡ RecordError.Bad) × ((log : Log) → IsLogAt at body.now log → ⊥)) }
{
    mtn_records::read_log(at, body)
}

/// As `mtn_records::write_log`.
pub fn write_log(log: &LogRecord, out: &mut Vec<u8>) -> Result<(), NoMemory>
    requires { IsLogRecord log.now }
    ensures ok { OnOk result (out.new.items ≡ out.old.items ++ log_text log.now) }
    ensures err { OnErr result (out.new.items ≡ out.old.items) }
{
    mtn_records::write_log(log, out)
}

/// As `mtn_records::is_record_at`.
pub fn is_record_at(roster: &RosterRecord, at: Pos) -> bool
    ensures { IsTrue result ↔ (IsRosterRecord roster.now × IsWithin at roster.now) }
{
    mtn_records::is_record_at(roster, at)
}

/// As `mtn_records::roster_again`.
pub fn roster_again(
    alloc: Global,
    at: Pos,
    roster: &RosterRecord,
) -> Result<RosterRecord, RecordError>
    requires form { IsRosterRecord roster.now }
    requires within { IsWithin at roster.now }
    ensures same { IfOk result (λ r. r ≡ roster.now) }
    ensures memory { IfErr result (λ e. e ≡ RecordError.NoMemory) }
{
    mtn_records::roster_again(alloc, at, roster)
}

/// As `mtn_records::log_again`.
pub fn log_again(alloc: Global, at: Pos, log: &LogRecord) -> Result<LogRecord, RecordError>
    requires form { IsLogRecord log.now }
    requires within { IsLogWithin at log.now }
    ensures same { IfOk result (λ r. r ≡ log.now) }
    ensures memory { IfErr result (λ e. e ≡ RecordError.NoMemory) }
{
    mtn_records::log_again(alloc, at, log)
}

//! Records.
ghost use Rattle.std.specs.Prelude.{◌≡◌, IfOk};
ghost use Rattle.mtn_records.specs.Entries.{is_file};

use mtn_base::{Bytes, NoMemory};
use mtn_records::{Numbered, NumberedAttr, NumberedBody, NumberedEntry, RosterRecord};
use std::alloc::Global;

/// As `mtn_records::copy_value`.
pub fn copy_value(alloc: Global, value: &Option<Bytes>) -> Result<Option<Bytes>, NoMemory>
    ensures { IfOk result (λ v. v ≡ value.now) }
{
    mtn_records::copy_value(alloc, value)
}

/// As `NumberedAttr::copy`.
pub fn copy_numbered_attr(attr: &NumberedAttr, alloc: Global) -> Result<NumberedAttr, NoMemory>
    ensures { IfOk result (λ a. a ≡ attr.now) }
{
    attr.copy(alloc)
}

/// As `NumberedBody::copy`.
pub fn copy_numbered_body(body: &NumberedBody) -> Result<NumberedBody, NoMemory>
    ensures { IfOk result (λ b. b ≡ body.now) }
{
    body.copy()
}

/// As `NumberedEntry::copy`.
pub fn copy_numbered_entry(entry: &NumberedEntry, alloc: Global) -> Result<NumberedEntry, NoMemory>
    ensures { IfOk result (λ e. e ≡ entry.now) }
{
    entry.copy(alloc)
}

/// As `Numbered::copy`.
pub fn copy_numbered(numbered: &Numbered, alloc: Global) -> Result<Numbered, NoMemory>
    ensures { IfOk result (λ n. n ≡ numbered.now) }
{
    numbered.copy(alloc)
}

/// As `RosterRecord::copy`.
pub fn copy_roster_record(roster: &RosterRecord, alloc: Global) -> Result<RosterRecord, NoMemory>
    ensures { IfOk result (λ r. r ≡ roster.now) }
{
    roster.copy(alloc)
}

/// As `NumberedBody::is_file`.
pub fn is_a_file(body: &NumberedBody) -> bool
    ensures { result ≡ is_file body.now }
{
    body.is_file()
}

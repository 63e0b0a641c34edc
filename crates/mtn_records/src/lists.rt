// Lists, fields and sets in a body.
ghost use Rattle.std.specs.Prelude.{◌≡◌, ◌↔◌, ◌++◌, ◌<◌, ℕ, List, length, take, map, IfOk, IfSome, OnOk, OnErr, IsErrOf, IsTrue, MatchOption};
ghost use Rattle.std.specs.List.{flat_map, AllByRecursion};
ghost use Rattle.std.specs.List.Sorted.{IsStrictlyIncreasing};
ghost use Rattle.mtn_records.specs.Fields.{Begins, BeginsWithNone, BeginsWithAll, BeginsWithFewer, count_text, IsCount, field_text, IsField, list_text, IsList};

use crate::error::RecordError;
use crate::field::Field;
use mtn_ancestry::{Pos, PosSet};
use mtn_base::{Bytes, List, NoMemory, ShortBytes};
use std::alloc::Global;

/// So many values, one behind the other.
pub fn read_items<T: Field>(
    alloc: Global,
    count: u64,
    bytes: &[u8],
) -> Result<(Vec<T>, &[u8]), RecordError>
    ensures ok { IfOk result (λ r. BeginsWithAll T.text T.form count bytes.now r.0.items r.1.now) }
    ensures bad { IsErrOf result RecordError.Bad → BeginsWithFewer T.text T.form count bytes.now }
{
    let mut items = Vec::new(alloc);
    let mut rest = bytes;
    let mut left = count;
    while 0 < left {
        let (item, behind) = T::read(alloc, rest)?;
        items.push(item)?;
        rest = behind;
        left -= 1;
    }
    Ok((items, rest))
}

/// Appends the texts of values.
pub fn write_items<T: Field>(items: &[T], out: &mut Vec<u8>) -> Result<(), NoMemory>
    requires { AllByRecursion T.form items.now }
    ensures ok { OnOk result (out.new.items ≡ out.old.items ++ flat_map T.text items.now) }
    ensures err { OnErr result (take (length out.old.items) out.new.items ≡ out.old.items) }
{
    for item in items {
        item.write(out)?;
    }
    Ok(())
}

/// A list: how many in eight bytes, and each.
pub fn read_list<T: Field>(alloc: Global, bytes: &[u8]) -> Result<(List<T>, &[u8]), RecordError>
    ensures ok { IfOk result (λ r. Begins (list_text T.text) (IsList T.form) bytes.now r.0 r.1.now) }
    ensures bad { IsErrOf result RecordError.Bad → BeginsWithNone (list_text T.text) (IsList T.form) bytes.now }
{
    let (count, rest) = u64::read(alloc, bytes)?;
    let (items, rest) = read_items(alloc, count, rest)?;
    Ok((List::from_vec(items), rest))
}

/// Appends how many, and each.
pub fn write_list<T: Field>(items: &List<T>, out: &mut Vec<u8>) -> Result<(), NoMemory>
    requires { IsList T.form items.now }
    ensures ok { OnOk result (out.new.items ≡ out.old.items ++ list_text T.text items.now) }
    ensures err { OnErr result (take (length out.old.items) out.new.items ≡ out.old.items) }
{
    let items = items.as_slice();
    (items.len() as u64).write(out)?;
    write_items(items, out)
}

/// How many follow, in four bytes.
fn read_count(bytes: &[u8]) -> Option<(usize, &[u8])>
    ensures { MatchOption result (BeginsWithNone count_text IsCount bytes.now) (λ r. Begins count_text IsCount bytes.now r.0 r.1.now) }
{
    let (count, rest) = bytes.split_first_chunk::<4>()?;
    Some((u32::from_be_bytes(*count) as usize, rest))
}

fn write_count(count: usize, out: &mut Vec<u8>) -> Result<(), NoMemory>
    requires { IsCount count }
    ensures ok { OnOk result (out.new.items ≡ out.old.items ++ count_text count) }
    ensures err { OnErr result (take (length out.old.items) out.new.items ≡ out.old.items) }
{
    out.extend_from_slice(&(count as u32).to_be_bytes())?;
    Ok(())
}

/// The bytes of a field.
pub fn read_bytes(bytes: &[u8]) -> Option<(&[u8], &[u8])>
    ensures { MatchOption result (BeginsWithNone field_text IsField bytes.now) (λ r. Begins field_text IsField bytes.now r.0.now r.1.now) }
{
    let (count, rest) = read_count(bytes)?;
    rest.split_at_checked(count)
}

// Appends how many bytes, and the bytes.
fn write_bytes(bytes: &[u8], out: &mut Vec<u8>) -> Result<(), NoMemory>
    requires { IsField bytes.now }
    ensures ok { OnOk result (out.new.items ≡ out.old.items ++ field_text bytes.now) }
    ensures err { OnErr result (take (length out.old.items) out.new.items ≡ out.old.items) }
{
    write_count(bytes.len(), out)?;
    out.extend_from_slice(bytes)?;
    Ok(())
}

impl Field for Bytes {
    ghost use Rattle.mtn_records.specs.Fields.{field_text, IsField};
    ghost use Rattle.mtn_records.specs.Apart.{field_apart};

    ghost text = { field_text };

    ghost form = { IsField };

    fn read(alloc: Global, bytes: &[u8]) -> Result<(Bytes, &[u8]), RecordError> {
        match read_bytes(bytes) {
            Some((field, rest)) => Ok((Bytes::from_slice(alloc, field)?, rest)),
            None => Err(RecordError::Bad),
        }
    }

    fn write(&self, out: &mut Vec<u8>) -> Result<(), NoMemory> {
        write_bytes(self.as_slice(), out)
    }

    ghost apart = { field_apart };
}

impl Field for ShortBytes {
    ghost use Rattle.mtn_records.specs.Fields.{field_text, IsField};
    ghost use Rattle.mtn_records.specs.Apart.{field_apart};

    ghost text = { field_text };

    ghost form = { IsField };

    fn read(alloc: Global, bytes: &[u8]) -> Result<(ShortBytes, &[u8]), RecordError> {
        match read_bytes(bytes) {
            Some((field, rest)) => Ok((ShortBytes::from_slice(alloc, field)?, rest)),
            None => Err(RecordError::Bad),
        }
    }

    fn write(&self, out: &mut Vec<u8>) -> Result<(), NoMemory> {
        write_bytes(self.as_slice(), out)
    }

    ghost apart = { field_apart };
}

// Whether each is below the next.
fn ascend(positions: &[Pos]) -> bool
    ensures { IsTrue result ↔ IsStrictlyIncreasing positions.now }
{
    for k in 1..positions.len() {
        if positions[k - 1] >= positions[k] {
            return false;
        }
    }
    true
}

// Whether they make a set: some, each below the next.
fn make_set(positions: &[Pos]) -> bool
    ensures { IsTrue result ↔ ((0 < length positions.now) × IsStrictlyIncreasing positions.now) }
{
    !positions.is_empty() && ascend(positions)
}

impl Field for PosSet {
    ghost use Rattle.mtn_records.specs.Fields.{set_text, IsSet};
    ghost use Rattle.mtn_records.specs.Apart.{set_apart};

    ghost text = { set_text };

    ghost form = { IsSet };

    fn read(alloc: Global, bytes: &[u8]) -> Result<(PosSet, &[u8]), RecordError> {
        let Some((count, rest)) = read_count(bytes) else {
            return Err(RecordError::Bad);
        };
        let (positions, rest) = read_items(alloc, count as u64, rest)?;
        if !make_set(&positions) {
            return Err(RecordError::Bad);
        }
        Ok((PosSet::new(alloc, positions)?, rest))
    }

    fn write(&self, out: &mut Vec<u8>) -> Result<(), NoMemory> {
        let positions = self.as_slice();
        write_count(positions.len(), out)?;
        write_items(positions, out)
    }

    ghost apart = { set_apart };
}

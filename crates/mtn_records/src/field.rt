// What stands in a body, and how it is read and written.
ghost use Rattle.std.specs.Prelude.{◌≡◌, ◌++◌, ℕ, List, length, take, IfOk, OnOk, OnErr, IsErrOf, MatchOption};
ghost use Rattle.mtn_records.specs.Fields.{AreApart, Begins, BeginsWithNone, id_text, number_text, IsNumber, IsTwenty};
ghost use Rattle.mtn_records.specs.Records.{byte_text, IsByte};

use crate::error::RecordError;
use mtn_ancestry::Pos;
use mtn_base::{Id, NoMemory};
use std::alloc::Global;

/// A value that stands in a body as bytes of its own. Bytes begin with the text of one value at most.
pub trait Field: Sized + Drop {
    // its bytes
    ghost text: { Self → List ℕ };

    // what a value must be to stand in a body
    ghost form: { Self → Type 0 };

    /// The value whose text the bytes begin with, and what is behind it. Bad where there is none.
    fn read(alloc: Global, bytes: &[u8]) -> Result<(Self, &[u8]), RecordError>
        ensures ok { IfOk result (λ r. Begins text form bytes.now r.0 r.1.now) }
        ensures bad { IsErrOf result RecordError.Bad → BeginsWithNone text form bytes.now };

    /// Appends its text. After an error `out` may have gained some bytes.
    fn write(&self, out: &mut Vec<u8>) -> Result<(), NoMemory>
        requires { form self.now }
        ensures ok { OnOk result (out.new.items ≡ out.old.items ++ text self.now) }
        ensures err { OnErr result (take (length out.old.items) out.new.items ≡ out.old.items) };

    ghost apart: { AreApart text form };
}

/// A byte.
pub fn read_byte(bytes: &[u8]) -> Option<(u8, &[u8])>
    ensures { MatchOption result (BeginsWithNone byte_text IsByte bytes.now) (λ r. Begins byte_text IsByte bytes.now r.0 r.1.now) }
{
    let (byte, rest) = bytes.split_first()?;
    Some((*byte, rest))
}

/// A number, in eight bytes.
pub fn read_number(bytes: &[u8]) -> Option<(u64, &[u8])>
    ensures { MatchOption result (BeginsWithNone number_text IsNumber bytes.now) (λ r. Begins number_text IsNumber bytes.now r.0 r.1.now) }
{
    let (number, rest) = bytes.split_first_chunk::<8>()?;
    Some((u64::from_be_bytes(*number), rest))
}

/// An id, in twenty bytes.
pub fn read_id(bytes: &[u8]) -> Option<(Id, &[u8])>
    ensures { MatchOption result (BeginsWithNone id_text IsTwenty bytes.now) (λ r. Begins id_text IsTwenty bytes.now r.0 r.1.now) }
{
    let (id, rest) = bytes.split_first_chunk::<20>()?;
    Some((Id(*id), rest))
}

impl Field for u64 {
    ghost use Rattle.mtn_records.specs.Fields.{number_text, IsNumber};
    ghost use Rattle.mtn_records.specs.Apart.{number_apart};

    ghost text = { number_text };

    ghost form = { IsNumber };

    fn read(_: Global, bytes: &[u8]) -> Result<(u64, &[u8]), RecordError> {
        read_number(bytes).ok_or(RecordError::Bad)
    }

    fn write(&self, out: &mut Vec<u8>) -> Result<(), NoMemory> {
        out.extend_from_slice(&self.to_be_bytes())?;
        Ok(())
    }

    ghost apart = { number_apart };
}

impl Field for Pos {
    ghost use Rattle.mtn_records.specs.Fields.{number_text, IsNumber};
    ghost use Rattle.mtn_records.specs.Apart.{number_apart};

    ghost text = { number_text };

    ghost form = { IsNumber };

    fn read(alloc: Global, bytes: &[u8]) -> Result<(Pos, &[u8]), RecordError> {
        let (number, rest) = u64::read(alloc, bytes)?;
        Ok((Pos(number), rest))
    }

    fn write(&self, out: &mut Vec<u8>) -> Result<(), NoMemory> {
        self.0.write(out)
    }

    ghost apart = { number_apart };
}

impl Field for u8 {
    ghost use Rattle.mtn_records.specs.Records.{byte_text, IsByte};
    ghost use Rattle.mtn_records.specs.RecordsApart.{byte_apart};

    ghost text = { byte_text };

    ghost form = { IsByte };

    fn read(_: Global, bytes: &[u8]) -> Result<(u8, &[u8]), RecordError> {
        read_byte(bytes).ok_or(RecordError::Bad)
    }

    fn write(&self, out: &mut Vec<u8>) -> Result<(), NoMemory> {
        out.push(*self)?;
        Ok(())
    }

    ghost apart = { byte_apart };
}

impl Field for bool {
    ghost use Rattle.mtn_records.specs.Fields.{flag_text};
    ghost use Rattle.mtn_records.specs.Apart.{flag_apart};

    ghost text = { flag_text };

    ghost form = { λ _. Unit {0} };

    fn read(_: Global, bytes: &[u8]) -> Result<(bool, &[u8]), RecordError> {
        match bytes {
            [0, rest @ ..] => Ok((false, rest)),
            [1, rest @ ..] => Ok((true, rest)),
            _ => Err(RecordError::Bad),
        }
    }

    fn write(&self, out: &mut Vec<u8>) -> Result<(), NoMemory> {
        out.push(if *self { 1 } else { 0 })?;
        Ok(())
    }

    ghost apart = { flag_apart };
}

impl Field for Id {
    ghost use Rattle.mtn_records.specs.Fields.{id_text, IsTwenty};
    ghost use Rattle.mtn_records.specs.Apart.{id_apart};

    ghost text = { id_text };

    ghost form = { IsTwenty };

    fn read(_: Global, bytes: &[u8]) -> Result<(Id, &[u8]), RecordError> {
        read_id(bytes).ok_or(RecordError::Bad)
    }

    fn write(&self, out: &mut Vec<u8>) -> Result<(), NoMemory> {
        out.extend_from_slice(self.as_slice())?;
        Ok(())
    }

    ghost apart = { id_apart };
}

impl<A: Field, B: Field> Field for (A, B) {
    ghost use Rattle.mtn_records.specs.Fields.{pair_text, IsPair};
    ghost use Rattle.mtn_records.specs.Apart.{pair_apart};

    ghost text = { pair_text A.text B.text };

    ghost form = { IsPair A.form B.form };

    fn read(alloc: Global, bytes: &[u8]) -> Result<((A, B), &[u8]), RecordError> {
        let (a, rest) = A::read(alloc, bytes)?;
        let (b, rest) = B::read(alloc, rest)?;
        Ok(((a, b), rest))
    }

    fn write(&self, out: &mut Vec<u8>) -> Result<(), NoMemory> {
        self.0.write(out)?;
        self.1.write(out)
    }

    ghost apart = { pair_apart A.text A.form B.text B.form A.apart B.apart };
}

impl<A: Field> Field for Option<A> {
    ghost use Rattle.mtn_records.specs.Fields.{option_text, IsOption};
    ghost use Rattle.mtn_records.specs.Apart.{option_apart};

    ghost text = { option_text A.text };

    ghost form = { IsOption A.form };

    fn read(alloc: Global, bytes: &[u8]) -> Result<(Option<A>, &[u8]), RecordError> {
        let (is_there, rest) = bool::read(alloc, bytes)?;
        if !is_there {
            return Ok((None, rest));
        }
        let (value, rest) = A::read(alloc, rest)?;
        Ok((Some(value), rest))
    }

    fn write(&self, out: &mut Vec<u8>) -> Result<(), NoMemory> {
        match self {
            None => false.write(out),
            Some(value) => {
                true.write(out)?;
                value.write(out)
            }
        }
    }

    ghost apart = { option_apart A.text A.form A.apart };
}

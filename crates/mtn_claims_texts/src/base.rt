// Ids, limits, refusals.
ghost use Rattle.std.specs.Prelude.{◌≡◌, ◌<◌, ◌≤◌, ◌++◌, ◌↔◌, IsSome, IfSome, IfOk, IfErr, OnOk, OnErr};
ghost use Rattle.hex.specs.Hex.{encode_lower};
ghost use Rattle.mtn_base.specs.Hex.{IsIdText, read_id};
ghost use Rattle.mtn_base.specs.Ids.{in_id_order};
ghost use Rattle.mtn_base.specs.Refusals.{refusal_text};
ghost use Rattle.mtn_base.specs.declared.limits.TheConstants.{MAX_LOG};

use mtn_base::{Cause, Id, NoMemory, Refusal};
use std::alloc::Global;

/// As `mtn_base::room_in_log`.
pub fn room_in_log(count: u64) -> Result<(), Cause>
    ensures ok { OnOk result (count < MAX_LOG) }
    ensures full { IfErr result (λ cause. (cause ≡ Cause.LogFull count) × (MAX_LOG ≤ count)) }
{
    mtn_base::room_in_log(count)
}

/// As `Id::read_hex`.
pub fn read_hex(text: &[u8]) -> Option<Id>
    ensures value { IfSome result (λ id. encode_lower id.0 ≡ text.now) }
    ensures found { IsSome result ↔ IsIdText text.now }
    ensures read { result ≡ read_id text.now }
{
    Id::read_hex(text)
}

/// As `Id::write_hex`.
pub fn write_hex(id: &Id, out: &mut [u8; 40])
    ensures { out.new ≡ encode_lower id.now.0 }
{
    id.write_hex(out)
}

/// As `mtn_base::put_in_order`.
pub fn put_in_order(ids: &mut Vec<Id>)
    ensures { ids.new.items ≡ in_id_order ids.old.items }
{
    mtn_base::put_in_order(ids)
}

/// As `Refusal::print`.
pub fn print(refusal: &Refusal, out: &mut Vec<u8>) -> Result<(), NoMemory>
    ensures ok { OnOk result (out.new.items ≡ out.old.items ++ refusal_text refusal.now) }
    ensures err { OnErr result (out.new.items ≡ out.old.items) }
{
    refusal.print(out)
}

/// As `Refusal::copy`.
pub fn copy_refusal(refusal: &Refusal, alloc: Global) -> Result<Refusal, NoMemory>
    ensures { IfOk result (λ copy. copy ≡ refusal.now) }
{
    refusal.copy(alloc)
}

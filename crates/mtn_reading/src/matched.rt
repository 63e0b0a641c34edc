// The first payload whose id is another.
ghost use Rattle.std.specs.Prelude.{◌≡◌, ℕ, List as Seq, All, length};
ghost use Rattle.mtn_base.specs.Hex.{id_of};
ghost use Rattle.mtn_imports.specs.Imports.{first_mismatch, mismatch, other_id};
ghost use Rattle.mtn_reading.specs.Heads.{AreIds, IsWithin, packet_at, packets_at};

use crate::head::Head;
use mtn_base::{Cause, Id};

// That an id is another than a payload's.
fn another(number: u64, id: Id, computed: Id) -> Option<Cause>
    ensures { (f : Seq ℕ → Seq ℕ) (payload : Seq ℕ) → computed ≡ id_of (f payload) → result ≡ other_id f number id payload }
{
    if computed == id {
        None
    } else {
        Some(Cause::IdMismatch { number, computed })
    }
}

// The mismatch of a packet with this number.
fn mismatch_of(number: u64, head: &Head, ids: &[Id]) -> Option<Cause>
    requires { IsWithin (length ids.now) head.now }
    ensures { (f : Seq ℕ → Seq ℕ) (payloads : Seq (Seq ℕ)) → AreIds f payloads ids.now → result ≡ mismatch f number (packet_at payloads head.now) }
{
    match head {
        Head::File { id, place } => another(number, *id, ids[*place]),
        Head::Revision { id, place } => another(number, *id, ids[*place]),
        Head::Cert(_) | Head::Passed => None,
    }
}

/// The mismatch of the first packet whose id is another than its payload's, with its number from 1.
pub fn first_of(heads: &[Head], ids: &[Id]) -> Option<Cause>
    requires { All (IsWithin (length ids.now)) heads.now }
    ensures { (f : Seq ℕ → Seq ℕ) (payloads : Seq (Seq ℕ)) → AreIds f payloads ids.now → result ≡ first_mismatch f 1 (packets_at payloads heads.now) }
{
    let mut number = 0;
    for head in heads {
        number += 1;
        if let Some(cause) = mismatch_of(number, head, ids) {
            return Some(cause);
        }
    }
    None
}

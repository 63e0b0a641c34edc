// The attributes of two nodes, by ascending keys.
ghost use Rattle.std.specs.Prelude.{◌≡◌, IsTrue, IfOk, filter, is_none};
ghost use Rattle.mtn_roster.specs.declared.entry.Attr.{Attr};
ghost use Rattle.mtn_roster.specs.Tree.{attr_of};
ghost use Rattle.mtn_changeset_laws.specs.Joining.{has_live as has_all_live, same_live as have_same_live};
ghost use Rattle.mtn_roster.specs.Attrs.{are_keyed};
ghost use Rattle.mtn_join.specs.Pairing.{is_live_in, both_attrs};

use mtn_base::{List, NoMemory};
use mtn_roster::Attr;
use mtn_roster::attrs::{live_value, place_of_key};
use std::alloc::Global;

/// Whether an attribute, if it is live, is one of the others.
fn is_live_among(attrs: &[Attr], attr: &Attr) -> bool
    requires { IsTrue (are_keyed attrs.now) }
    ensures { result ≡ is_live_in attrs.now attr.now }
{
    match &attr.value {
        None => true,
        Some(value) => match live_value(attrs, attr.key.as_slice()) {
            None => false,
            Some(other) => value.as_slice() == other.as_slice(),
        },
    }
}

/// Whether each live attribute of the second is one of the first.
fn has_live(first: &[Attr], second: &[Attr]) -> bool
    requires { IsTrue (are_keyed first.now) }
    ensures { result ≡ has_all_live first.now second.now }
{
    second.iter().all(|attr| is_live_among(first, attr))
}

/// Whether two nodes have the same live attributes.
pub fn same_live(first: &[Attr], second: &[Attr]) -> bool
    requires first { IsTrue (are_keyed first.now) }
    requires second { IsTrue (are_keyed second.now) }
    ensures { result ≡ have_same_live first.now second.now }
{
    has_live(second, first) && has_live(first, second)
}

/// The attributes whose keys the first node lacks.
fn others_of(alloc: Global, first: &[Attr], second: &[Attr]) -> Result<Vec<Attr>, NoMemory>
    requires { IsTrue (are_keyed first.now) }
    ensures { IfOk result (λ others. others.items ≡ filter (λ (b : Attr). is_none (attr_of first.now b.key)) second.now) }
{
    let mut others = Vec::new(alloc);
    for attr in second {
        if place_of_key(first, attr.key.as_slice()).is_none() {
            others.push(attr.copy(alloc)?)?;
        }
    }
    Ok(others)
}

/// The attributes of the first node, and behind them those of the second whose keys the first lacks.
pub fn attrs_of_both(
    alloc: Global,
    first: List<Attr>,
    second: &[Attr],
) -> Result<List<Attr>, NoMemory>
    requires { IsTrue (are_keyed first) }
    ensures { IfOk result (λ attrs. attrs ≡ both_attrs first second.now) }
{
    let mut others = others_of(alloc, first.as_slice(), second)?;
    let mut attrs = first.into_vec();
    attrs.append(&mut others)?;
    Ok(List::from_vec(attrs))
}

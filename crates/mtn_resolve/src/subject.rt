// What a resolution speaks of.
ghost use Rattle.std.specs.Prelude.{◌≡◌, [], nat_eq, refl, IfOk};
ghost use Rattle.std.specs.Ordering.{nat_cmp, as_partial_cmp};
ghost use Rattle.std.specs.Cmp.{partial_equiv_from_equiv, partial_order_from_agreeing_total};
ghost use Rattle.std.specs.Cmp.Lexicographic.{pointwise, slice_cmp, nat_list_cmp_total, nat_list_eq_equiv, texts_ties};
ghost use Rattle.mtn_resolve.specs.Subjects.{subject_of as subject_for, life_of, slot_of, content_of, attr_of, subject_cmp};

use crate::resolution::Resolution;
use mtn_base::{Bytes, List, NoMemory, NodeName};
use std::alloc::Global;
use std::cmp::Ordering;
use std::marker::Model;

/// The key of an attribute, which contracts see as its bytes; empty where no attribute is spoken of.
#[derive(Drop)]
pub struct Key {
    bytes: Bytes,
}

impl Model for Key {
    ghost use Rattle.std.specs.Prelude.{List, ℕ};

    ghost Value = { List ℕ };

    ghost view = { λ k. k.bytes };
}

impl PartialEq for Key {
    ghost eq = { pointwise nat_eq };

    ghost laws = { partial_equiv_from_equiv nat_list_eq_equiv };

    fn eq(&self, other: &Key) -> bool {
        self.bytes.as_slice() == other.bytes.as_slice()
    }
}

impl Eq for Key {
    ghost laws = { nat_list_eq_equiv };
}

impl Ord for Key {
    ghost cmp = { slice_cmp nat_cmp };

    ghost total = { nat_list_cmp_total };

    ghost matches_partial_cmp = { λ x y. refl };

    ghost matches_eq = { texts_ties };

    fn cmp(&self, other: &Key) -> Ordering {
        self.bytes.as_slice().cmp(other.bytes.as_slice())
    }
}

impl PartialOrd for Key {
    ghost partial_cmp = { as_partial_cmp (slice_cmp nat_cmp) };

    ghost laws = { partial_order_from_agreeing_total (slice_cmp nat_cmp) nat_list_cmp_total (λ x y. refl) texts_ties };

    fn partial_cmp(&self, other: &Key) -> Option<Ordering> {
        Some(self.cmp(other))
    }
}

/// Whether a node lives, its slot, its content, or the value of one of its keys.
#[derive(Drop, PartialEq, Eq, PartialOrd, Ord)]
pub struct Subject {
    pub kind: u8,
    pub node: NodeName,
    pub key: Key,
}

impl Subject {
    pub fn compare(&self, other: &Subject) -> Ordering
        ensures { result ≡ subject_cmp self.now other.now }
    {
        self.cmp(other)
    }
}

fn subject_at(alloc: Global, kind: u8, node: &NodeName) -> Result<Subject, NoMemory>
    ensures { IfOk result (λ s. s ≡ record { kind = kind; node = node.now; key = [] }) }
{
    Ok(Subject {
        kind,
        node: node.copy(alloc)?,
        key: Key {
            bytes: List::new(alloc),
        },
    })
}

/// Whether the node lives.
pub fn life(alloc: Global, node: &NodeName) -> Result<Subject, NoMemory>
    ensures { IfOk result (λ s. s ≡ life_of node.now) }
{
    subject_at(alloc, 1, node)
}

/// The slot of the node.
pub fn slot(alloc: Global, node: &NodeName) -> Result<Subject, NoMemory>
    ensures { IfOk result (λ s. s ≡ slot_of node.now) }
{
    subject_at(alloc, 2, node)
}

/// Its content.
pub fn content(alloc: Global, node: &NodeName) -> Result<Subject, NoMemory>
    ensures { IfOk result (λ s. s ≡ content_of node.now) }
{
    subject_at(alloc, 3, node)
}

/// The value of one of its keys.
pub fn attr(alloc: Global, node: &NodeName, key: &Bytes) -> Result<Subject, NoMemory>
    ensures { IfOk result (λ s. s ≡ attr_of node.now key.now) }
{
    Ok(Subject {
        kind: 4,
        node: node.copy(alloc)?,
        key: Key {
            bytes: key.copy(alloc)?,
        },
    })
}

/// What a resolution speaks of.
pub fn subject_of(alloc: Global, resolution: &Resolution) -> Result<Subject, NoMemory>
    ensures { IfOk result (λ s. s ≡ subject_for resolution.now) }
{
    match resolution {
        Resolution::Drop { node } => life(alloc, node),
        Resolution::Place { node, slot: _ } => slot(alloc, node),
        Resolution::Content { node, pick: _ } => content(alloc, node),
        Resolution::AttrSet {
            node,
            key,
            value: _,
        } => attr(alloc, node, key),
        Resolution::AttrClear { node, key } => attr(alloc, node, key),
        Resolution::Keep { node } => life(alloc, node),
    }
}

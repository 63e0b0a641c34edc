// What resolves conflicts of a merge.
ghost use Rattle.std.specs.Prelude.{◌≡◌};
ghost use Rattle.mtn_resolve.specs.Subjects.{AreApart, node_of};

use mtn_base::{Bytes, Id, NodeName};
use mtn_roster::Slot;
use std::marker::Model;

/// One resolution. A key is 1 to 255 bytes of UTF-8, a value any bytes.
#[derive(Drop)]
pub enum Resolution {
    /// The node does not live, and is not pending.
    Drop {
        node: NodeName,
    },
    /// The live or kept node has this slot.
    Place {
        node: NodeName,
        slot: Slot,
    },
    /// The file has this content, where two clash.
    Content {
        node: NodeName,
        pick: Id,
    },
    /// The key has this value, where two clash.
    AttrSet {
        node: NodeName,
        key: Bytes,
        value: Bytes,
    },
    /// The key is cleared, where two values clash.
    AttrClear {
        node: NodeName,
        key: Bytes,
    },
    /// The pending file lives again, as a new node.
    Keep {
        node: NodeName,
    },
}

impl Resolution {
    /// The node that it resolves.
    pub fn node(&self) -> &NodeName
        ensures { result.now ≡ node_of self.now }
    {
        match self {
            Resolution::Drop { node } => node,
            Resolution::Place { node, slot: _ } => node,
            Resolution::Content { node, pick: _ } => node,
            Resolution::AttrSet {
                node,
                key: _,
                value: _,
            } => node,
            Resolution::AttrClear { node, key: _ } => node,
            Resolution::Keep { node } => node,
        }
    }
}

/// Resolutions in the order of their text. No two speak of the same.
#[derive(Drop)]
pub struct Resolutions {
    items: Vec<Resolution>,
}

impl Model for Resolutions {
    ghost use Rattle.std.specs.Prelude.{List as Seq};
    ghost use Rattle.mtn_resolve.specs.declared.resolution.Resolution.{Resolution};
    ghost use Rattle.mtn_resolve.specs.Subjects.{AreApart};

    ghost Value = { Seq Resolution };

    ghost view = { λ r. r.items.items };

    ghost invariant = { λ r. AreApart r.items.items };
}

impl Resolutions {
    /// Resolutions of which no two speak of the same. It takes no memory.
    pub fn new(items: Vec<Resolution>) -> Resolutions
        requires { AreApart items.items }
        ensures { result ≡ items.items }
    {
        Resolutions { items }
    }

    /// All in their order; the first is that of stanza 2. It takes no memory.
    pub fn items(&self) -> &[Resolution]
        ensures items { result.now ≡ self.now }
        ensures apart { AreApart self.now }
    {
        &self.items
    }
}

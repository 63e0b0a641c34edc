// What a change changes.
ghost use Rattle.std.specs.Prelude.{◌≡◌, nat_eq, refl, IfOk};
ghost use Rattle.std.specs.Ordering.{nat_cmp, as_partial_cmp};
ghost use Rattle.std.specs.Cmp.{partial_equiv_from_equiv, partial_order_from_agreeing_total};
ghost use Rattle.std.specs.Cmp.Lexicographic.{pointwise, slice_cmp, nat_list_cmp_total, nat_list_eq_equiv, texts_ties};
ghost use Rattle.mtn_changes.specs.Targets.{target_cmp, target_of as target_for};

use crate::change::Change;
use mtn_base::{Bytes, List, NoMemory, Path};
use std::alloc::Global;
use std::cmp::Ordering;
use std::marker::Model;

/// The key of an attribute, which contracts see as its bytes; empty where no attribute changes.
#[derive(Drop)]
pub struct Key {
    bytes: Bytes,
}

impl Model for Key {
    ghost use Rattle.std.specs.Prelude.{List, ℕ};

    ghost Value = { List ℕ };

    ghost view = { λ k. k.bytes };
}

impl PartialEq for Key {
    ghost eq = { pointwise nat_eq };

    ghost laws = { partial_equiv_from_equiv nat_list_eq_equiv };

    fn eq(&self, other: &Key) -> bool {
        self.bytes.as_slice() == other.bytes.as_slice()
    }
}

impl Eq for Key {
    ghost laws = { nat_list_eq_equiv };
}

impl Ord for Key {
    ghost cmp = { slice_cmp nat_cmp };

    ghost total = { nat_list_cmp_total };

    ghost matches_partial_cmp = { λ x y. refl };

    ghost matches_eq = { texts_ties };

    fn cmp(&self, other: &Key) -> Ordering {
        self.bytes.as_slice().cmp(other.bytes.as_slice())
    }
}

impl PartialOrd for Key {
    ghost partial_cmp = { as_partial_cmp (slice_cmp nat_cmp) };

    ghost laws = { partial_order_from_agreeing_total (slice_cmp nat_cmp) nat_list_cmp_total (λ x y. refl) texts_ties };

    fn partial_cmp(&self, other: &Key) -> Option<Ordering> {
        Some(self.cmp(other))
    }
}

/// What a change changes: a path in a way, or an attribute of a path. Clear and set change the same.
#[derive(Drop, PartialEq, Eq, PartialOrd, Ord)]
pub struct Target {
    pub kind: u8,
    pub path: Path,
    pub key: Key,
}

impl Target {
    pub fn compare(&self, other: &Target) -> Ordering
        ensures { result ≡ target_cmp self.now other.now }
    {
        self.cmp(other)
    }
}

fn target_at(alloc: Global, kind: u8, path: &Path, key: Bytes) -> Result<Target, NoMemory>
    ensures { IfOk result (λ s. s ≡ record { kind = kind; path = path.now; key = key }) }
{
    Ok(Target {
        kind,
        path: path.copy(alloc)?,
        key: Key { bytes: key },
    })
}

/// What a change changes.
pub fn target_of(alloc: Global, change: &Change) -> Result<Target, NoMemory>
    ensures { IfOk result (λ s. s ≡ target_for change.now) }
{
    match change {
        Change::Delete { path } => target_at(alloc, 1, path, List::new(alloc)),
        Change::Rename { path, to: _ } => target_at(alloc, 2, path, List::new(alloc)),
        Change::AddDir { path } => target_at(alloc, 3, path, List::new(alloc)),
        Change::AddFile { path, content: _ } => target_at(alloc, 4, path, List::new(alloc)),
        Change::Patch {
            path,
            from: _,
            to: _,
        } => target_at(alloc, 5, path, List::new(alloc)),
        Change::Clear { path, key } => target_at(alloc, 6, path, key.copy(alloc)?),
        Change::Set {
            path,
            key,
            value: _,
        } => target_at(alloc, 6, path, key.copy(alloc)?),
    }
}

// The conflicts of a merge.
ghost use Rattle.std.specs.Prelude.{◌≡◌, ◌↔◌, [], IsTrue};
ghost use Rattle.mtn_conflicts.specs.Lists.{IsNone};

use crate::item::Item;
use mtn_base::List;

/// The conflicts of a merge: nine lists, each by ascending names, and attributes then by keys.
#[derive(Drop)]
pub struct Conflicts {
    pub missing_root: bool,
    pub invalid_name: List<Item>,
    pub directory_loop: List<Item>,
    pub orphaned_node: List<Item>,
    pub multiple_name: List<Item>,
    pub duplicate_name: List<Item>,
    pub attribute: List<Item>,
    pub content: List<Item>,
    pub dropped_modified: List<Item>,
}

fn is_empty(items: &List<Item>) -> bool
    ensures { IsTrue result ↔ (items.now ≡ []) }
{
    items.as_slice().is_empty()
}

impl Conflicts {
    /// Whether there is none. It takes no memory.
    pub fn none(&self) -> bool
        ensures { IsTrue result ↔ IsNone self.now }
    {
        !self.missing_root
            && is_empty(&self.invalid_name)
            && is_empty(&self.directory_loop)
            && is_empty(&self.orphaned_node)
            && is_empty(&self.multiple_name)
            && is_empty(&self.duplicate_name)
            && is_empty(&self.attribute)
            && is_empty(&self.content)
            && is_empty(&self.dropped_modified)
    }
}

// The lists of conflicts that have nodes.
ghost use Rattle.std.specs.Prelude.{◌≡◌};
ghost use Rattle.mtn_conflicts.specs.ConflictText.{kind_name};

/// A list of conflicts that has nodes.
#[derive(Clone, Copy)]
pub enum Kind {
    InvalidName,
    DirectoryLoop,
    OrphanedNode,
    MultipleName,
    DuplicateName,
    Attribute,
    Content,
    DroppedModified,
}

impl Kind {
    /// The printed name of the list.
    pub fn name(self) -> &'static [u8]
        ensures { result.now ≡ kind_name self }
    {
        match self {
            Kind::InvalidName => b"invalid_name",
            Kind::DirectoryLoop => b"directory_loop",
            Kind::OrphanedNode => b"orphaned_node",
            Kind::MultipleName => b"multiple_name",
            Kind::DuplicateName => b"duplicate_name",
            Kind::Attribute => b"attribute",
            Kind::Content => b"content",
            Kind::DroppedModified => b"dropped_modified",
        }
    }
}

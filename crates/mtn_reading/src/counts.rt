// How much was not held before.
ghost use Rattle.std.specs.Prelude.{◌≡◌};
ghost use Rattle.mtn_reading.specs.Counting.{one_of};

/// How many files, revisions and certificates were not held before.
#[derive(Clone, Copy, PartialEq, Eq)]
pub struct Counts {
    pub files: u64,
    pub revisions: u64,
    pub certs: u64,
}

impl Counts {
    /// None of each.
    pub const NONE: Counts = Counts {
        files: 0,
        revisions: 0,
        certs: 0,
    };
}

/// One where something is new.
pub fn one_where(new: bool) -> u64
    ensures { result ≡ one_of new }
{
    if new { 1 } else { 0 }
}

// What a revision does, and the tips that it goes on from.
ghost use Rattle.std.specs.Prelude.{◌≡◌, None, Some};
ghost use Rattle.mtn_generated.specs.Numbered.{file_at as file_in, no_tips, parent_of as parent_in, tips_after as tips_behind, work_at as work_in};
ghost use Rattle.mtn_generating.specs.Numbered.{tips_of, work_of};

use mtn_base::Id;

/// What a revision does.
#[derive(Clone, Copy, Drop)]
pub enum Work {
    Begins,
    Patches,
    Sets,
    Joins,
    Renames,
}

/// The last revisions of both sides, and of all.
#[derive(Clone, Copy, Drop)]
pub struct Tips {
    pub left: Id,
    pub right: Id,
    pub last: Id,
}

/// Twenty zero bytes, where there is no id as yet.
pub const NO_ID: Id = Id([0; 20]);

/// There is no revision as yet.
pub fn no_tips() -> Tips
    ensures { tips_of result ≡ no_tips }
{
    Tips {
        left: NO_ID,
        right: NO_ID,
        last: NO_ID,
    }
}

/// What the revision of a number does.
pub fn work_at(revision: u64) -> Work
    ensures { work_of result ≡ work_in revision }
{
    if revision == 1 {
        return Work::Begins;
    }
    match revision % 4 {
        0 => Work::Joins,
        1 => Work::Renames,
        2 => Work::Patches,
        _ => Work::Sets,
    }
}

/// The file that the revision of a number speaks of.
pub fn file_at(revision: u64) -> u64
    ensures { result ≡ file_in revision }
{
    (revision / 4) % 10
}

/// The parent of a revision with one edge.
pub fn parent_of(work: Work, tips: &Tips) -> Option<Id>
    ensures { result ≡ parent_in (work_of work) (tips_of tips.now) }
{
    match work {
        Work::Begins => None,
        Work::Sets => Some(tips.right),
        _ => Some(tips.left),
    }
}

/// The tips behind a revision of an id.
pub fn tips_after(work: Work, id: Id, tips: &Tips) -> Tips
    ensures { tips_of result ≡ tips_behind (work_of work) id (tips_of tips.now) }
{
    match work {
        Work::Patches => Tips {
            left: id,
            right: tips.right,
            last: id,
        },
        Work::Sets => Tips {
            left: tips.left,
            right: id,
            last: id,
        },
        _ => Tips {
            left: id,
            right: id,
            last: id,
        },
    }
}

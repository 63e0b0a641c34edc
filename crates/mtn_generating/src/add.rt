// One revision more, and all of them.
ghost use Rattle.std.specs.Prelude.{◌≡◌};
ghost use Rattle.mtn_generated.specs.Growing.{Adds, Grows, grown};
ghost use Rattle.mtn_generating.specs.Generating.{Goes};
ghost use Rattle.mtn_generating.specs.Numbered.{tips_of, work_of};

use crate::GenerateError;
use crate::files::{files_of, put_files};
use crate::put::put_work;
use crate::work::{Tips, Work, no_tips, work_at};
use mtn_history::{Draft, HistoryError};
use mtn_ports::{Ident, Keeper};
use std::alloc::Global;

// Keeps the files of a revision, and puts it.
fn add<I: Ident, K: Keeper>(
    alloc: Global,
    ident: &I,
    draft: &mut Draft<'_, K>,
    revision: u64,
    work: Work,
    tips: &Tips,
) -> Result<Tips, GenerateError>
    ensures same_reference { draft.new.keeper.ghost_name ≡ draft.old.keeper.ghost_name }
    ensures goes { Goes (I.meaning ident.now) K.contents K.leaves K.faults draft.old.keeper.now draft.new.keeper.now draft.old.pending draft.new.pending
        (λ s. Adds (I.meaning ident.now) revision (work_of work) (grown s (tips_of tips.now))) result }
{
    let texts = files_of(alloc, revision, work)?;
    match put_files(ident, draft, texts) {
        Ok(()) => put_work(alloc, ident, draft, revision, work, tips),
        Err(error) => Err(GenerateError::Failed(error)),
    }
}

/// The revisions up to a number, one behind the other. An error leaves those before it pending.
pub fn grow<I: Ident, K: Keeper>(
    alloc: Global,
    ident: &I,
    draft: &mut Draft<'_, K>,
    count: u64,
) -> Result<Tips, GenerateError>
    ensures same_reference { draft.new.keeper.ghost_name ≡ draft.old.keeper.ghost_name }
    ensures goes { Goes (I.meaning ident.now) K.contents K.leaves K.faults draft.old.keeper.now draft.new.keeper.now draft.old.pending draft.new.pending
        (λ s. Grows (I.meaning ident.now) s count) result }
{
    let mut tips = no_tips();
    for before in 0..count {
        let revision = before + 1;
        match add(alloc, ident, draft, revision, work_at(revision), &tips) {
            Ok(after) => tips = after,
            Err(error) => return Err(error),
        }
    }
    Ok(tips)
}

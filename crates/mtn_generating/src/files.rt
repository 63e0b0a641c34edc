// The files of a revision, kept before it.
ghost use Rattle.std.specs.Prelude.{◌≡◌, ◌++◌, ◌∷◌, [], ℕ, List as Seq, Err, IfErr, IfOk, OnOk, Some, map};
ghost use Rattle.mtn_generated.specs.Numbered.{file_text as text_in, files_of as files_in};
ghost use Rattle.mtn_generating.specs.Generating.{PutsFiles};
ghost use Rattle.mtn_generating.specs.Numbered.{work_of};
ghost use Rattle.mtn_history.specs.Errors.{IfStoreDamage};
ghost use Rattle.mtn_history.specs.Stands.{IsDraft};
ghost use Rattle.mtn_model.specs.State.{State};
ghost use Rattle.mtn_model.specs.Table.{Contents};
ghost use Rattle.mtn_ports.specs.Causes.{Rose};
ghost use Rattle.mtn_ports.specs.Kept.{Stays};

use crate::names::file_text;
use crate::work::{Work, file_at};
use mtn_base::{Bytes, NoMemory};
use mtn_history::{Draft, HistoryError, StoreError};
use mtn_ports::{Ident, Keeper};
use std::alloc::Global;

/// The numbers of the files.
pub const TEN: [u64; 10] = [0, 1, 2, 3, 4, 5, 6, 7, 8, 9];

// The first texts of some files.
fn first_texts(alloc: Global, files: &[u64]) -> Result<Vec<Bytes>, NoMemory>
    ensures { IfOk result (λ texts. texts.items ≡ map (λ j. text_in j 0) files.now) }
{
    let mut texts = Vec::new(alloc);
    for file in files {
        texts.push(file_text(alloc, *file, 0)?)?;
    }
    Ok(texts)
}

/// The texts that are kept as files before a revision.
pub fn files_of(alloc: Global, revision: u64, work: Work) -> Result<Vec<Bytes>, NoMemory>
    ensures { IfOk result (λ texts. texts.items ≡ files_in revision (work_of work)) }
{
    match work {
        Work::Begins => first_texts(alloc, &TEN),
        Work::Patches => {
            let mut texts = Vec::new(alloc);
            texts.push(file_text(alloc, file_at(revision), revision)?)?;
            Ok(texts)
        }
        _ => Ok(Vec::new(alloc)),
    }
}

/// Keeps texts, which are handed over, as files, one after the other. An error leaves those before it pending.
pub fn put_files<I: Ident, K: Keeper>(
    ident: &I,
    draft: &mut Draft<'_, K>,
    texts: Vec<Bytes>,
) -> Result<(), HistoryError>
    ensures same_reference { draft.new.keeper.ghost_name ≡ draft.old.keeper.ghost_name }
    ensures stays { Stays K.contents K.leaves K.faults draft.old.keeper.now draft.new.keeper.now }
    ensures puts { (c : Contents) (s : State) → K.contents draft.new.keeper.now ≡ Some c → IsDraft (I.meaning ident.now) c draft.old.pending s
        → PutsFiles (I.meaning ident.now) c s texts.items result draft.new.pending }
    ensures sound { IfErr result (λ e. IfStoreDamage e (λ _. ⊥)) }
    ensures failed { result ≡ Err (HistoryError.Store StoreError.Failed) → Rose (K.faults draft.old.keeper.now) (K.faults draft.new.keeper.now) }
{
    let _count = texts.len();
    for text in texts {
        match draft.put_file(ident, text) {
            Ok(_) => {}
            Err(error) => return Err(error),
        }
    }
    Ok(())
}

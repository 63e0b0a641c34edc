// The ids of texts, each run on a thread of its own.
ghost use Rattle.std.specs.Prelude.{◌≡◌, ◌<◌, ◌+◌, ◌^◌, IfOk, map};
ghost use Rattle.mtn_base.specs.Hex.{id_of};
ghost use Rattle.sha1.specs.Sha1.{sha1};

use crate::Gate;
use mtn_base::{Id, NoMemory, Text};
use sha1::Sha1;
use std::alloc::Global;
use std::thread::{Threads, join};

// The id of each text, one after the other.
fn ids_of(alloc: Global, texts: &[Text]) -> Result<Vec<Id>, NoMemory>
    ensures { IfOk result (λ ids. ids.items ≡ map (λ text. id_of (sha1 text)) texts.now) }
{
    let mut ids = Vec::with_capacity(alloc, texts.len())?;
    for text in texts {
        ids.push(Id(Sha1::digest(text.as_slice())))?;
    }
    Ok(ids)
}

// The same of one run, which has this number.
fn ids_of_run<G: Gate>(
    alloc: Global,
    gate: &G,
    piece: usize,
    texts: &[Text],
) -> Result<Vec<Id>, NoMemory>
    ensures { IfOk result (λ ids. ids.items ≡ map (λ text. id_of (sha1 text)) texts.now) }
{
    gate.pass(piece);
    ids_of(alloc, texts)
}

// The id of each text, in order, in so many runs, which are numbered from `piece`. No run is empty where there are as many
// texts as runs. The first runs on another thread and the others from this one, so that no thread shares the handle.
pub fn ids_in_runs<R: Threads, G: Gate>(
    rt: &R,
    alloc: Global,
    gate: &G,
    piece: usize,
    runs: usize,
    texts: &[Text],
) -> Result<Vec<Id>, NoMemory>
    requires { piece + runs < 2 ^ 64 }
    ensures { IfOk result (λ ids. ids.items ≡ map (λ text. id_of (sha1 text)) texts.now) }
{
    if runs < 2 {
        return ids_of_run(alloc, gate, piece, texts);
    }
    let (first, others) = texts.split_at(texts.len() / runs);
    let (ids, rest) = join(
        rt,
        || -> Result<Vec<Id>, NoMemory>
            ensures { IfOk result (λ ids. ids.items ≡ map (λ text. id_of (sha1 text)) first.entry.now) }
        { ids_of_run(alloc, gate, piece, first) },
        || -> Result<Vec<Id>, NoMemory>
            requires { (1 < runs) × (piece + runs < 2 ^ 64) }
            ensures { IfOk result (λ ids. ids.items ≡ map (λ text. id_of (sha1 text)) others.entry.now) }
        { ids_in_runs(rt, alloc, gate, piece + 1, runs - 1, others) },
    );
    let mut ids = ids?;
    ids.append(&mut rest?)?;
    Ok(ids)
}

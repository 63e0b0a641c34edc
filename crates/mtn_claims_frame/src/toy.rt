//! A made-up set of three commands, which shows that the frame can be met: `put` keeps the payload as the one file, `get` prints
//! it, and `check` goes over the keeper itself, as no command over a file would: whether it holds anything behind the one key.
ghost use Rattle.std.specs.Prelude.{◌≡◌, ◌≤◌, ◌∷◌, [], ℕ, List as Seq, Bool, true, false, ⊤, IfOk, OnOk};
ghost use Rattle.mtn_claims_frame.specs.Toy.{ToyChanges, ToyDamages, ToyFirst, ToyLines, ToyRefuses, ToyStands, checked, good_line, is_word as one_word, toy_key, toy_line, toy_outcome, toy_spelled, toy_takes, toy_vouches};
ghost use Rattle.mtn_frame.specs.Works.{Works};
ghost use Rattle.mtn_model.specs.State.{State};

use mtn_base::{Bytes, Cause, List, NoMemory, Refusal};
use mtn_frame::{Commands, Reply, WorkError, Worked};
use mtn_ports::{Batch, KeepError, Keeper};
use std::alloc::Global;

/// The three commands.
pub struct Toy;

fn is_word(words: &[Bytes], name: &[u8]) -> bool
    ensures { result ≡ one_word name.now words.now }
{
    match words {
        [word] => word.as_slice() == name,
        _ => false,
    }
}

fn put(alloc: Global, payload: Bytes) -> Result<Worked, NoMemory>
    ensures { IfOk result (λ worked. (worked.reply ≡ record { conflicts = false; text = [] }) × (worked.batch ≡ record { table = 2; key = toy_key; body = payload } ∷ [])) }
{
    let mut batch = Batch::new(alloc);
    batch.put_owned(2, &[1], payload)?;
    Ok(Worked {
        reply: Reply {
            conflicts: false,
            text: List::new(alloc),
        },
        batch,
    })
}

fn good(alloc: Global) -> Result<Worked, NoMemory>
    ensures { IfOk result (λ worked. (worked.reply ≡ record { conflicts = false; text = good_line }) × (worked.batch ≡ [])) }
{
    Ok(Worked {
        reply: Reply {
            conflicts: false,
            text: Bytes::from_slice(alloc, b"good\n")?,
        },
        batch: Batch::new(alloc),
    })
}

// The line that shows a record behind the one key.
fn damage_line(alloc: Global, key: &[u8]) -> Result<Bytes, NoMemory>
    ensures { IfOk result (λ line. line ≡ toy_line key.now) }
{
    let mut text = Vec::new(alloc);
    text.extend_from_slice(b"damaged ")?;
    text.extend_from_slice(key)?;
    text.push(b'\n')?;
    Ok(List::from_vec(text))
}

// Looks at the keeper itself.
fn check<K: Keeper>(alloc: Global, keeper: &mut K) -> Result<Worked, WorkError>
    ensures { Works ToyStands ToyDamages ToyFirst ToyRefuses ToyLines {M = Unit {0}} (λ m c. ⊤) K.contents K.leaves K.faults K.reads keeper.old keeper.new tt
        true false true (λ s o. o ≡ checked s) (λ s n. n ≡ 1) (λ c d. ⊥) result }
{
    let mut key = Vec::new(alloc);
    match keeper.next(2, &[1], &mut key) {
        Ok(true) => Err(WorkError::Damaged {
            line: damage_line(alloc, &key)?,
        }),
        Ok(false) => Ok(good(alloc)?),
        Err(KeepError::Failed) => Err(WorkError::Failed),
        Err(KeepError::NoMemory) => Err(WorkError::NoMemory),
    }
}

impl Commands for Toy {
    type Memory = ();

    ghost State = { State };

    ghost stands = { λ _. ToyStands };

    ghost does = { λ _ words payload s o. o ≡ toy_outcome words payload s };

    ghost damages = { λ _. ToyDamages };

    ghost firsts = { λ _. ToyFirst };

    ghost refuses = { λ _. ToyRefuses };

    ghost lines = { ToyLines };

    ghost bounds = { λ _ words payload s n. n ≡ 1 };

    ghost changes = { λ _. ToyChanges };

    ghost knows = { λ _ m c. ⊤ };

    ghost spelled = { toy_spelled };

    ghost merging = { λ _. false };

    ghost vouching = { toy_vouches };

    ghost takes = { toy_takes };

    fn is_spelled(&self, _alloc: Global, words: &[Bytes]) -> Result<bool, NoMemory> {
        Ok(is_word(words, b"put") || is_word(words, b"check") || is_word(words, b"get"))
    }

    fn takes_payload(&self, words: &[Bytes]) -> bool {
        match words {
            [word, ..] => word.as_slice() == b"put".as_slice(),
            _ => false,
        }
    }

    fn begin(&self, _alloc: Global) -> () {}

    fn work<K: Keeper>(
        &self,
        alloc: Global,
        words: &[Bytes],
        payload: Bytes,
        _memory: &mut (),
        keeper: &mut K,
    ) -> Result<Worked, WorkError> {
        if is_word(words, b"put") {
            return Ok(put(alloc, payload)?);
        }
        if is_word(words, b"check") {
            return check(alloc, keeper);
        }
        if !is_word(words, b"get") {
            return Err(WorkError::Usage);
        }
        let mut text = Vec::new(alloc);
        match keeper.get(2, &[1], &mut text) {
            Ok(true) => Ok(Worked {
                reply: Reply {
                    conflicts: false,
                    text: List::from_vec(text),
                },
                batch: Batch::new(alloc),
            }),
            Ok(false) => Err(WorkError::Refused {
                refusal: Refusal {
                    packet: 0,
                    cause: Cause::NoBranch,
                },
            }),
            Err(KeepError::Failed) => Err(WorkError::Failed),
            Err(KeepError::NoMemory) => Err(WorkError::NoMemory),
        }
    }
}

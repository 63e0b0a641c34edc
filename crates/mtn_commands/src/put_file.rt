// The command `put_file`.
ghost use Rattle.std.specs.Prelude.{◌≡◌, IfOk};
ghost use Rattle.mtn_step.specs.Step.{Steps, id_line};
ghost use Rattle.mtn_commands.specs.Drafts.{Drafts};

use mtn_base::{Bytes, Id, List, NoMemory};
use mtn_history::{Draft, HistoryError};
use mtn_ports::{Ident, Keeper};
use mtn_step::Call;
use std::alloc::Global;

/// The id's digits and LF.
pub fn id_text(alloc: Global, id: Id) -> Result<Bytes, NoMemory>
    ensures { IfOk result (λ text. text ≡ id_line id.0) }
{
    let mut digits = [0u8; 40];
    id.write_hex(&mut digits);
    let mut text = Vec::new(alloc);
    text.extend_from_slice(&digits)?;
    text.push(b'\n')?;
    Ok(List::from_vec(text))
}

/// Keeps the payload, which is handed over, as a file, and answers its id.
pub fn put_file<I: Ident, K: Keeper>(
    alloc: Global,
    ident: &I,
    payload: Bytes,
    draft: &mut Draft<'_, K>,
) -> Result<Bytes, HistoryError>
    ensures same_reference { draft.new.keeper.ghost_name ≡ draft.old.keeper.ghost_name }
    ensures drafts { Drafts (I.meaning ident.now) K.contents K.leaves K.faults draft.old.keeper.now draft.new.keeper.now draft.old.pending draft.new.pending
        (Steps (I.meaning ident.now) Call.PutFile payload) result }
{
    let id = draft.put_file(ident, payload)?;
    Ok(id_text(alloc, id)?)
}

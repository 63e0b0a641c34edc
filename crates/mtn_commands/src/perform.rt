// Any command over a draft.
ghost use Rattle.std.specs.Prelude.{◌≡◌, ◌≢◌, ◌≤◌, ◌+◌, ℕ, [], Some};
ghost use Rattle.mtn_commands.specs.Drafts.{Performs, may_conflict, reads_packets};
ghost use Rattle.mtn_step.specs.Step.{Steps};
ghost use Rattle.mtn_commands.specs.Reads.{Asks};
ghost use Rattle.mtn_model.specs.State.{State};
ghost use Rattle.mtn_model.specs.Table.{Contents};
ghost use Rattle.mtn_history.specs.Stands.{IsDraft};

use crate::error::{CommandError, whole};
use crate::generate::generate;
use crate::merge::told;
use crate::on_draft::on_draft;
use crate::put_file::put_file;
use crate::put_revision::put_revision;
use crate::read::read;
use mtn_base::Bytes;
use mtn_frame::Reply;
use mtn_history::Draft;
use mtn_ports::{Ident, Keeper};
use mtn_step::Call;
use std::alloc::Global;
use std::thread::Threads;

/// What a command other than `check` and `migrate` does over a draft with nothing pending, and replies: its line of the step. `rt` is
/// for the ids of many packets. The payload is handed over: `put_file` keeps it without a copy, and every other command only looks
/// at it.
pub fn perform<R: Threads + Sync, I: Ident, K: Keeper>(
    rt: &R,
    alloc: Global,
    call: &Call,
    ident: &I,
    payload: Bytes,
    draft: &mut Draft<'_, K>,
) -> Result<Reply, CommandError>
    requires bare { draft.old.pending.batch ≡ [] }
    requires unchecked { call.now ≢ Call.Check }
    requires unmigrated { call.now ≢ Call.Migrate }
    ensures same_reference { draft.new.keeper.ghost_name ≡ draft.old.keeper.ghost_name }
    ensures performs { Performs (I.meaning ident.now) K.contents K.leaves K.faults draft.old.keeper.now draft.new.keeper.now draft.old.pending draft.new.pending
        (may_conflict (Some call.now)) (reads_packets (Some call.now)) (Steps (I.meaning ident.now) call.now payload) result }
    ensures few_reads { (c : Contents) (s : State) (n : ℕ) → K.contents draft.new.keeper.now ≡ Some c → IsDraft (I.meaning ident.now) c draft.old.pending s →
        Asks (I.meaning ident.now) call.now payload s n → K.reads draft.new.keeper.now ≤ K.reads draft.old.keeper.now + n }
{
    match call {
        Call::PutFile => whole(told(put_file(alloc, ident, payload, draft))),
        Call::PutRevision => whole(told(put_revision(alloc, ident, payload.as_slice(), draft))),
        Call::Read => read(rt, alloc, ident, payload.as_slice(), draft),
        Call::Generate { count } => generate(alloc, ident, *count, payload.as_slice(), draft),
        _ => whole(on_draft(alloc, call, ident, payload.as_slice(), draft)),
    }
}

//! Commands over a draft.
ghost use Rattle.std.specs.Prelude.{[], ◌+◌, ◌≡◌, ◌≢◌, ◌≤◌, IfOk, Some, false, option_copied, true, ℕ};
ghost use Rattle.mtn_commands.specs.Certifying.{Merging, cert_error};
ghost use Rattle.mtn_commands.specs.Drafts.{Drafts, Performs, Replies, may_conflict, reads_packets, reply_of, whole as whole_of};
ghost use Rattle.mtn_commands.specs.Reads.{Asks};
ghost use Rattle.mtn_conflicts.specs.ConflictText.{IsLesser};
ghost use Rattle.mtn_history.specs.Stands.{IsDraft};
ghost use Rattle.mtn_model.specs.State.{State};
ghost use Rattle.mtn_model.specs.Table.{Contents};
ghost use Rattle.mtn_put_revision.specs.Reads.{IsBoundOf};
ghost use Rattle.mtn_step.specs.Step.{Steps, conflict_text as text_of_conflicts, id_line};

use mtn_base::{Bytes, Id, List, NoMemory, Path};
use mtn_certs::CertError;
use mtn_commands::error::CommandError;
use mtn_conflicts::Conflicts;
use mtn_frame::Reply;
use mtn_history::{Draft, HistoryError};
use mtn_ports::{Ident, Keeper};
use mtn_step::{Call, Said};
use std::alloc::Global;
use std::thread::Threads;

/// As `mtn_commands::cert::broken`.
pub fn broken(error: CertError) -> HistoryError
    ensures { result ≡ cert_error error }
{
    mtn_commands::cert::broken(error)
}

/// As `mtn_commands::error::whole`.
pub fn whole(worked: Result<Reply, HistoryError>) -> Result<Reply, CommandError>
    ensures { result ≡ whole_of worked }
{
    mtn_commands::error::whole(worked)
}

/// As `mtn_commands::generate::generate`.
pub fn generate<I: Ident, K: Keeper>(
    alloc: Global,
    ident: &I,
    count: u64,
    payload: &[u8],
    draft: &mut Draft<'_, K>,
) -> Result<Reply, CommandError>
    requires bare { draft.old.pending.batch ≡ [] }
    ensures same_reference { draft.new.keeper.ghost_name ≡ draft.old.keeper.ghost_name }
    ensures performs { Performs (I.meaning ident.now) K.contents K.leaves K.faults draft.old.keeper.now draft.new.keeper.now draft.old.pending draft.new.pending
        false true (Steps (I.meaning ident.now) (Call.Generate count) payload.now) result }
{
    mtn_commands::generate::generate(alloc, ident, count, payload, draft)
}

/// As `mtn_commands::get_content_changed::get_content_changed`.
pub fn get_content_changed<I: Ident, K: Keeper>(
    ident: &I,
    id: Id,
    path: &Path,
    payload: &[u8],
    draft: &mut Draft<'_, K>,
) -> Result<Bytes, HistoryError>
    ensures same_reference { draft.new.keeper.ghost_name ≡ draft.old.keeper.ghost_name }
    ensures drafts { Drafts (I.meaning ident.now) K.contents K.leaves K.faults draft.old.keeper.now draft.new.keeper.now draft.old.pending draft.new.pending
        (Steps (I.meaning ident.now) (Call.GetContentChanged id path.now) payload.now) result }
{
    mtn_commands::get_content_changed::get_content_changed(ident, id, path, payload, draft)
}

/// As `mtn_commands::get_corresponding_path::get_corresponding_path`.
pub fn get_corresponding_path<I: Ident, K: Keeper>(
    ident: &I,
    id: Id,
    path: &Path,
    other: Id,
    payload: &[u8],
    draft: &mut Draft<'_, K>,
) -> Result<Bytes, HistoryError>
    ensures same_reference { draft.new.keeper.ghost_name ≡ draft.old.keeper.ghost_name }
    ensures drafts { Drafts (I.meaning ident.now) K.contents K.leaves K.faults draft.old.keeper.now draft.new.keeper.now draft.old.pending draft.new.pending
        (Steps (I.meaning ident.now) (Call.GetCorrespondingPath id path.now other) payload.now) result }
{
    let done = mtn_commands::get_corresponding_path::get_corresponding_path(
        ident, id, path, other, payload, draft,
    );
    done
}

/// As `mtn_commands::get_file::get_file`.
pub fn get_file<I: Ident, K: Keeper>(
    alloc: Global,
    ident: &I,
    id: Id,
    payload: &[u8],
    draft: &mut Draft<'_, K>,
) -> Result<Bytes, HistoryError>
    ensures same_reference { draft.new.keeper.ghost_name ≡ draft.old.keeper.ghost_name }
    ensures drafts { Drafts (I.meaning ident.now) K.contents K.leaves K.faults draft.old.keeper.now draft.new.keeper.now draft.old.pending draft.new.pending
        (Steps (I.meaning ident.now) (Call.GetFile id) payload.now) result }
{
    mtn_commands::get_file::get_file(alloc, ident, id, payload, draft)
}

/// As `mtn_commands::get_manifest_of::get_manifest_of`.
pub fn get_manifest_of<I: Ident, K: Keeper>(
    ident: &I,
    id: Id,
    payload: &[u8],
    draft: &mut Draft<'_, K>,
) -> Result<Bytes, HistoryError>
    ensures same_reference { draft.new.keeper.ghost_name ≡ draft.old.keeper.ghost_name }
    ensures drafts { Drafts (I.meaning ident.now) K.contents K.leaves K.faults draft.old.keeper.now draft.new.keeper.now draft.old.pending draft.new.pending
        (Steps (I.meaning ident.now) (Call.GetManifestOf id) payload.now) result }
{
    mtn_commands::get_manifest_of::get_manifest_of(ident, id, payload, draft)
}

/// As `mtn_commands::get_revision::get_revision`.
pub fn get_revision<I: Ident, K: Keeper>(
    alloc: Global,
    ident: &I,
    id: Id,
    payload: &[u8],
    draft: &mut Draft<'_, K>,
) -> Result<Bytes, HistoryError>
    ensures same_reference { draft.new.keeper.ghost_name ≡ draft.old.keeper.ghost_name }
    ensures drafts { Drafts (I.meaning ident.now) K.contents K.leaves K.faults draft.old.keeper.now draft.new.keeper.now draft.old.pending draft.new.pending
        (Steps (I.meaning ident.now) (Call.GetRevision id) payload.now) result }
{
    mtn_commands::get_revision::get_revision(alloc, ident, id, payload, draft)
}

/// As `mtn_commands::get_roster::get_roster`.
pub fn get_roster<I: Ident, K: Keeper>(
    ident: &I,
    id: Id,
    payload: &[u8],
    draft: &mut Draft<'_, K>,
) -> Result<Bytes, HistoryError>
    ensures same_reference { draft.new.keeper.ghost_name ≡ draft.old.keeper.ghost_name }
    ensures drafts { Drafts (I.meaning ident.now) K.contents K.leaves K.faults draft.old.keeper.now draft.new.keeper.now draft.old.pending draft.new.pending
        (Steps (I.meaning ident.now) (Call.GetRoster id) payload.now) result }
{
    mtn_commands::get_roster::get_roster(ident, id, payload, draft)
}

/// As `mtn_commands::merge::conflict_text`.
pub fn conflict_text(
    alloc: Global,
    left: Id,
    right: Id,
    conflicts: &Conflicts,
) -> Result<Bytes, NoMemory>
    requires { IsLesser left right }
    ensures { IfOk result (λ text. text ≡ text_of_conflicts left right conflicts.now) }
{
    mtn_commands::merge::conflict_text(alloc, left, right, conflicts)
}

/// As `mtn_commands::merge::told`.
pub fn told(worked: Result<Bytes, HistoryError>) -> Result<Reply, HistoryError>
    ensures { result ≡ reply_of worked }
{
    mtn_commands::merge::told(worked)
}

/// As `mtn_commands::merge::merge_two`.
pub fn merge_two<I: Ident, K: Keeper>(
    alloc: Global,
    ident: &I,
    a: Id,
    b: Id,
    resolves: bool,
    payload: &[u8],
    said: Option<&Said>,
    draft: &mut Draft<'_, K>,
) -> Result<Reply, HistoryError>
    ensures same_reference { draft.new.keeper.ghost_name ≡ draft.old.keeper.ghost_name }
    ensures replies { Replies (I.meaning ident.now) K.contents K.leaves K.faults draft.old.keeper.now draft.new.keeper.now draft.old.pending draft.new.pending
        true (Merging (I.meaning ident.now) a b resolves (option_copied said.entry) payload.now) result }
{
    mtn_commands::merge::merge_two(alloc, ident, a, b, resolves, payload, said, draft)
}

/// As `mtn_commands::merge::merge`.
pub fn merge<I: Ident, K: Keeper>(
    alloc: Global,
    ident: &I,
    a: Id,
    b: Id,
    resolves: bool,
    payload: &[u8],
    draft: &mut Draft<'_, K>,
) -> Result<Reply, HistoryError>
    ensures same_reference { draft.new.keeper.ghost_name ≡ draft.old.keeper.ghost_name }
    ensures replies { Replies (I.meaning ident.now) K.contents K.leaves K.faults draft.old.keeper.now draft.new.keeper.now draft.old.pending draft.new.pending
        true (Steps (I.meaning ident.now) (Call.Merge a b resolves) payload.now) result }
{
    mtn_commands::merge::merge(alloc, ident, a, b, resolves, payload, draft)
}

/// As `mtn_commands::packets::packets`.
pub fn packets<I: Ident, K: Keeper>(
    alloc: Global,
    ident: &I,
    id: Id,
    have: &List<Id>,
    payload: &[u8],
    draft: &mut Draft<'_, K>,
) -> Result<Bytes, HistoryError>
    ensures same_reference { draft.new.keeper.ghost_name ≡ draft.old.keeper.ghost_name }
    ensures drafts { Drafts (I.meaning ident.now) K.contents K.leaves K.faults draft.old.keeper.now draft.new.keeper.now draft.old.pending draft.new.pending
        (Steps (I.meaning ident.now) (Call.Packets id have.now) payload.now) result }
{
    mtn_commands::packets::packets(alloc, ident, id, have, payload, draft)
}

/// As `mtn_commands::perform::perform`.
pub fn perform<R: Threads + Sync, I: Ident, K: Keeper>(
    rt: &R,
    alloc: Global,
    call: &Call,
    ident: &I,
    payload: Bytes,
    draft: &mut Draft<'_, K>,
) -> Result<Reply, CommandError>
    requires bare { draft.old.pending.batch ≡ [] }
    requires unchecked { call.now ≢ Call.Check }
    requires unmigrated { call.now ≢ Call.Migrate }
    ensures same_reference { draft.new.keeper.ghost_name ≡ draft.old.keeper.ghost_name }
    ensures performs { Performs (I.meaning ident.now) K.contents K.leaves K.faults draft.old.keeper.now draft.new.keeper.now draft.old.pending draft.new.pending
        (may_conflict (Some call.now)) (reads_packets (Some call.now)) (Steps (I.meaning ident.now) call.now payload) result }
    ensures few_reads { (c : Contents) (s : State) (n : ℕ) → K.contents draft.new.keeper.now ≡ Some c → IsDraft (I.meaning ident.now) c draft.old.pending s →
        Asks (I.meaning ident.now) call.now payload s n → K.reads draft.new.keeper.now ≤ K.reads draft.old.keeper.now + n }
{
    mtn_commands::perform::perform(rt, alloc, call, ident, payload, draft)
}

/// As `mtn_commands::put_file::id_text`.
pub fn id_text(alloc: Global, id: Id) -> Result<Bytes, NoMemory>
    ensures { IfOk result (λ text. text ≡ id_line id.0) }
{
    mtn_commands::put_file::id_text(alloc, id)
}

/// As `mtn_commands::put_file::put_file`.
pub fn put_file<I: Ident, K: Keeper>(
    alloc: Global,
    ident: &I,
    payload: Bytes,
    draft: &mut Draft<'_, K>,
) -> Result<Bytes, HistoryError>
    ensures same_reference { draft.new.keeper.ghost_name ≡ draft.old.keeper.ghost_name }
    ensures drafts { Drafts (I.meaning ident.now) K.contents K.leaves K.faults draft.old.keeper.now draft.new.keeper.now draft.old.pending draft.new.pending
        (Steps (I.meaning ident.now) Call.PutFile payload) result }
{
    mtn_commands::put_file::put_file(alloc, ident, payload, draft)
}

/// As `mtn_commands::put_revision::put_revision`.
pub fn put_revision<I: Ident, K: Keeper>(
    alloc: Global,
    ident: &I,
    payload: &[u8],
    draft: &mut Draft<'_, K>,
) -> Result<Bytes, HistoryError>
    ensures same_reference { draft.new.keeper.ghost_name ≡ draft.old.keeper.ghost_name }
    ensures drafts { Drafts (I.meaning ident.now) K.contents K.leaves K.faults draft.old.keeper.now draft.new.keeper.now draft.old.pending draft.new.pending
        (Steps (I.meaning ident.now) Call.PutRevision payload.now) result }
    ensures reads { (c : Contents) (s : State) (n : ℕ) → K.contents draft.new.keeper.now ≡ Some c → IsDraft (I.meaning ident.now) c draft.old.pending s →
        IsBoundOf 38 (I.meaning ident.now) s payload.now n → K.reads draft.new.keeper.now ≤ K.reads draft.old.keeper.now + n }
{
    mtn_commands::put_revision::put_revision(alloc, ident, payload, draft)
}

/// As `mtn_commands::read::read`.
pub fn read<R: Threads + Sync, I: Ident, K: Keeper>(
    rt: &R,
    alloc: Global,
    ident: &I,
    payload: &[u8],
    draft: &mut Draft<'_, K>,
) -> Result<Reply, CommandError>
    requires bare { draft.old.pending.batch ≡ [] }
    ensures same_reference { draft.new.keeper.ghost_name ≡ draft.old.keeper.ghost_name }
    ensures performs { Performs (I.meaning ident.now) K.contents K.leaves K.faults draft.old.keeper.now draft.new.keeper.now draft.old.pending draft.new.pending
        false true (Steps (I.meaning ident.now) Call.Read payload.now) result }
{
    mtn_commands::read::read(rt, alloc, ident, payload, draft)
}

/// As `mtn_commands::show_conflicts::show_conflicts`.
pub fn show_conflicts<I: Ident, K: Keeper>(
    alloc: Global,
    ident: &I,
    a: Id,
    b: Id,
    payload: &[u8],
    draft: &mut Draft<'_, K>,
) -> Result<Bytes, HistoryError>
    ensures same_reference { draft.new.keeper.ghost_name ≡ draft.old.keeper.ghost_name }
    ensures drafts { Drafts (I.meaning ident.now) K.contents K.leaves K.faults draft.old.keeper.now draft.new.keeper.now draft.old.pending draft.new.pending
        (Steps (I.meaning ident.now) (Call.ShowConflicts a b) payload.now) result }
{
    mtn_commands::show_conflicts::show_conflicts(alloc, ident, a, b, payload, draft)
}

// A command over a draft that refuses by its cause alone.
ghost use Rattle.std.specs.Prelude.{◌≡◌, ◌≢◌, ℕ, Bool, List, Some};
ghost use Rattle.mtn_base.specs.declared.id.Id.{Id};
ghost use Rattle.mtn_commands.specs.Drafts.{Drafts, Replies, may_conflict};
ghost use Rattle.mtn_step.specs.Step.{Steps};

use crate::ask::{ask, graph};
use crate::cert::cert;
use crate::certs::certs;
use crate::get_content_changed::get_content_changed;
use crate::get_corresponding_path::get_corresponding_path;
use crate::get_file::get_file;
use crate::get_manifest_of::get_manifest_of;
use crate::get_revision::get_revision;
use crate::get_roster::get_roster;
use crate::heads::{branches, heads};
use crate::key::key;
use crate::merge::{merge, told};
use crate::merge_heads::merge_heads;
use crate::packets::packets;
use crate::put_revision::commit;
use crate::show_conflicts::show_conflicts;
use mtn_base::Bytes;
use mtn_frame::Reply;
use mtn_history::{Draft, HistoryError};
use mtn_ports::{Ident, Keeper};
use mtn_step::Call;
use std::alloc::Global;

// What such a command answers that finds no conflicts: its line of the step. One arm a command.
fn answered<I: Ident, K: Keeper>(
    alloc: Global,
    call: &Call,
    ident: &I,
    payload: &[u8],
    draft: &mut Draft<'_, K>,
) -> Result<Bytes, HistoryError>
    requires other { call.now ≢ Call.Read }
    requires unchecked { call.now ≢ Call.Check }
    requires unmigrated { call.now ≢ Call.Migrate }
    requires unput { call.now ≢ Call.PutRevision }
    requires unkept { call.now ≢ Call.PutFile }
    requires ungenerated { (count : ℕ) → call.now ≢ Call.Generate count }
    requires unmerged { (a b : Id) (resolves : Bool) → call.now ≢ Call.Merge a b resolves }
    requires unled { (branch author date : List ℕ) (key : Id) (resolves : Bool) → call.now ≢ Call.MergeHeads branch author date key resolves }
    ensures same_reference { draft.new.keeper.ghost_name ≡ draft.old.keeper.ghost_name }
    ensures drafts { Drafts (I.meaning ident.now) K.contents K.leaves K.faults draft.old.keeper.now draft.new.keeper.now draft.old.pending draft.new.pending
        (Steps (I.meaning ident.now) call.now payload.now) result }
{
    match call {
        Call::GetFile { id } => get_file(alloc, ident, *id, payload, draft),
        Call::GetRevision { id } => get_revision(alloc, ident, *id, payload, draft),
        Call::GetManifestOf { id } => get_manifest_of(ident, *id, payload, draft),
        Call::GetRoster { id } => get_roster(ident, *id, payload, draft),
        Call::GetContentChanged { id, path } => {
            get_content_changed(ident, *id, path, payload, draft)
        }
        Call::GetCorrespondingPath { id, path, other } => {
            get_corresponding_path(ident, *id, path, *other, payload, draft)
        }
        Call::Ask { query } => ask(alloc, ident, query, payload, draft),
        Call::Graph => graph(alloc, ident, payload, draft),
        Call::ShowConflicts { a, b } => show_conflicts(alloc, ident, *a, *b, payload, draft),
        Call::Cert {
            revision,
            name,
            key,
            value,
            signature,
        } => cert(
            alloc, ident, *revision, name, *key, value, signature, payload, draft,
        ),
        Call::Certs { id } => certs(alloc, ident, *id, payload, draft),
        Call::Key { id, name } => key(alloc, ident, *id, name, payload, draft),
        Call::Heads { branch } => heads(alloc, ident, branch, payload, draft),
        Call::Branches => branches(alloc, ident, payload, draft),
        Call::Commit { said } => commit(alloc, ident, said, payload, draft),
        Call::Packets { id, have } => packets(alloc, ident, *id, have, payload, draft),
        Call::Merge { .. } => unreachable!(),
        Call::MergeHeads { .. } => unreachable!(),
        Call::PutFile => unreachable!(),
        Call::PutRevision => unreachable!(),
        Call::Read => unreachable!(),
        Call::Generate { .. } => unreachable!(),
        Call::Check => unreachable!(),
        Call::Migrate => unreachable!(),
    }
}

/// What a command other than `put_file`, `put_revision`, `read`, `generate`, `check` and `migrate` does over a draft, and replies: its
/// line of the step.
pub fn on_draft<I: Ident, K: Keeper>(
    alloc: Global,
    call: &Call,
    ident: &I,
    payload: &[u8],
    draft: &mut Draft<'_, K>,
) -> Result<Reply, HistoryError>
    requires other { call.now ≢ Call.Read }
    requires unchecked { call.now ≢ Call.Check }
    requires unmigrated { call.now ≢ Call.Migrate }
    requires unput { call.now ≢ Call.PutRevision }
    requires unkept { call.now ≢ Call.PutFile }
    requires ungenerated { (count : ℕ) → call.now ≢ Call.Generate count }
    ensures same_reference { draft.new.keeper.ghost_name ≡ draft.old.keeper.ghost_name }
    ensures replies { Replies (I.meaning ident.now) K.contents K.leaves K.faults draft.old.keeper.now draft.new.keeper.now draft.old.pending draft.new.pending
        (may_conflict (Some call.now)) (Steps (I.meaning ident.now) call.now payload.now) result }
{
    match call {
        Call::Merge { a, b, resolves } => merge(alloc, ident, *a, *b, *resolves, payload, draft),
        Call::MergeHeads {
            branch,
            author,
            date,
            key,
            resolves,
        } => merge_heads(
            alloc, ident, branch, author, date, *key, *resolves, payload, draft,
        ),
        _ => told(answered(alloc, call, ident, payload, draft)),
    }
}

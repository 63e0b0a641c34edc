//! The queries of the graph, and ids as lines.
ghost use Rattle.std.specs.Prelude.{◌++◌, ◌≡◌, IfOk, OnOk};
ghost use Rattle.hex.specs.Hex.{encode_lower};
ghost use Rattle.mtn_commands.specs.Drafts.{Drafts};
ghost use Rattle.mtn_step.specs.Step.{Steps, id_lines as lines_of};

use mtn_base::{Bytes, Id, NoMemory};
use mtn_graph_queries::Query;
use mtn_history::{Draft, HistoryError};
use mtn_ports::{Ident, Keeper};
use mtn_step::Call;
use std::alloc::Global;

/// As `mtn_commands::ask::push_id`.
pub fn push_id(text: &mut Vec<u8>, id: Id) -> Result<(), NoMemory>
    ensures { OnOk result (text.new.items ≡ text.old.items ++ encode_lower id.0) }
{
    mtn_commands::ask::push_id(text, id)
}

/// As `mtn_commands::ask::id_lines`.
pub fn id_lines(alloc: Global, ids: &[Id]) -> Result<Bytes, NoMemory>
    ensures { IfOk result (λ text. text ≡ lines_of ids.now) }
{
    mtn_commands::ask::id_lines(alloc, ids)
}

/// As `mtn_commands::ask::ask`.
pub fn ask<I: Ident, K: Keeper>(
    alloc: Global,
    ident: &I,
    query: &Query,
    payload: &[u8],
    draft: &mut Draft<'_, K>,
) -> Result<Bytes, HistoryError>
    ensures same_reference { draft.new.keeper.ghost_name ≡ draft.old.keeper.ghost_name }
    ensures drafts { Drafts (I.meaning ident.now) K.contents K.leaves K.faults draft.old.keeper.now draft.new.keeper.now draft.old.pending draft.new.pending
        (Steps (I.meaning ident.now) (Call.Ask query.now) payload.now) result }
{
    mtn_commands::ask::ask(alloc, ident, query, payload, draft)
}

/// As `mtn_commands::ask::graph`.
pub fn graph<I: Ident, K: Keeper>(
    alloc: Global,
    ident: &I,
    payload: &[u8],
    draft: &mut Draft<'_, K>,
) -> Result<Bytes, HistoryError>
    ensures same_reference { draft.new.keeper.ghost_name ≡ draft.old.keeper.ghost_name }
    ensures drafts { Drafts (I.meaning ident.now) K.contents K.leaves K.faults draft.old.keeper.now draft.new.keeper.now draft.old.pending draft.new.pending
        (Steps (I.meaning ident.now) Call.Graph payload.now) result }
{
    mtn_commands::ask::graph(alloc, ident, payload, draft)
}

// The queries of the graph.
ghost use Rattle.std.specs.Prelude.{◌≡◌, ◌++◌, ◌∷◌, [], IfOk, OnOk};
ghost use Rattle.std.specs.List.{flat_map};
ghost use Rattle.hex.specs.Hex.{encode_lower};
ghost use Rattle.mtn_commands.specs.Drafts.{Drafts, query_refusal as refusal};
ghost use Rattle.mtn_step.specs.Step.{Steps, id_lines as lines_of, line_text};

use mtn_base::{Bytes, Cause, Id, List, NoMemory};
use mtn_graph_queries::{Line, Query, QueryError, answer, lines};
use mtn_history::{Draft, HistoryError, StoreError};
use mtn_near_queries::{difference_of, parents_of};
use mtn_ports::{Ident, Keeper};
use mtn_step::Call;
use std::alloc::Global;

/// Appends the digits of an id.
pub fn push_id(text: &mut Vec<u8>, id: Id) -> Result<(), NoMemory>
    ensures { OnOk result (text.new.items ≡ text.old.items ++ encode_lower id.0) }
{
    let mut digits = [0u8; 40];
    id.write_hex(&mut digits);
    text.extend_from_slice(&digits)?;
    Ok(())
}

/// The ids, one a line.
pub fn id_lines(alloc: Global, ids: &[Id]) -> Result<Bytes, NoMemory>
    ensures { IfOk result (λ text. text ≡ lines_of ids.now) }
{
    let mut text = Vec::new(alloc);
    for id in ids {
        push_id(&mut text, *id)?;
        text.push(b'\n')?;
    }
    Ok(List::from_vec(text))
}

// Appends a revision's id and its parents'.
fn push_line(text: &mut Vec<u8>, line: &Line) -> Result<(), NoMemory>
    ensures { OnOk result (text.new.items ≡ text.old.items ++ line_text line.now) }
{
    push_id(text, line.id)?;
    for parent in line.parents.as_slice() {
        text.push(b' ')?;
        push_id(text, *parent)?;
    }
    text.push(b'\n')?;
    Ok(())
}

fn graph_text(alloc: Global, lines: &[Line]) -> Result<Bytes, NoMemory>
    ensures { IfOk result (λ text. text ≡ flat_map line_text lines.now) }
{
    let mut text = Vec::new(alloc);
    for line in lines {
        push_line(&mut text, line)?;
    }
    Ok(List::from_vec(text))
}

// What a command answers for a query without an answer.
fn refusal_of(error: QueryError) -> HistoryError
    ensures { result ≡ refusal error }
{
    match error {
        QueryError::Unknown(id) => HistoryError::Refused(Cause::UnknownRevision { id }),
        QueryError::NoMemory => HistoryError::Store(StoreError::NoMemory),
    }
}

// Answers the parents of a revision.
fn ask_parents<I: Ident, K: Keeper>(
    alloc: Global,
    ident: &I,
    of: Id,
    payload: &[u8],
    draft: &mut Draft<'_, K>,
) -> Result<Bytes, HistoryError>
    ensures same_reference { draft.new.keeper.ghost_name ≡ draft.old.keeper.ghost_name }
    ensures drafts { Drafts (I.meaning ident.now) K.contents K.leaves K.faults draft.old.keeper.now draft.new.keeper.now draft.old.pending draft.new.pending
        (Steps (I.meaning ident.now) (Call.Ask (Query.Parents of)) payload.now) result }
{
    let ids = parents_of(alloc, draft, of)?;
    Ok(id_lines(alloc, ids.as_slice())?)
}

// Answers what a revision has at or above it that another has not.
fn ask_difference<I: Ident, K: Keeper>(
    alloc: Global,
    ident: &I,
    of: Id,
    without: Id,
    payload: &[u8],
    draft: &mut Draft<'_, K>,
) -> Result<Bytes, HistoryError>
    ensures same_reference { draft.new.keeper.ghost_name ≡ draft.old.keeper.ghost_name }
    ensures drafts { Drafts (I.meaning ident.now) K.contents K.leaves K.faults draft.old.keeper.now draft.new.keeper.now draft.old.pending draft.new.pending
        (Steps (I.meaning ident.now) (Call.Ask (Query.AncestryDifference of (without ∷ []))) payload.now) result }
{
    let ids = difference_of(alloc, draft, of, without)?;
    Ok(id_lines(alloc, ids.as_slice())?)
}

// Answers any query, by the whole graph.
fn ask_graph<I: Ident, K: Keeper>(
    alloc: Global,
    ident: &I,
    query: &Query,
    payload: &[u8],
    draft: &mut Draft<'_, K>,
) -> Result<Bytes, HistoryError>
    ensures same_reference { draft.new.keeper.ghost_name ≡ draft.old.keeper.ghost_name }
    ensures drafts { Drafts (I.meaning ident.now) K.contents K.leaves K.faults draft.old.keeper.now draft.new.keeper.now draft.old.pending draft.new.pending
        (Steps (I.meaning ident.now) (Call.Ask query.now) payload.now) result }
{
    let graph = draft.graph()?;
    match answer(alloc, &graph, query) {
        Ok(ids) => Ok(id_lines(alloc, ids.as_slice())?),
        Err(error) => Err(refusal_of(error)),
    }
}

// The same of any number of others: by the whole graph where they are not one.
fn ask_without<I: Ident, K: Keeper>(
    alloc: Global,
    ident: &I,
    of: Id,
    query: &Query,
    without: &[Id],
    payload: &[u8],
    draft: &mut Draft<'_, K>,
) -> Result<Bytes, HistoryError>
    requires asked { query.now ≡ Query.AncestryDifference of without.now }
    ensures same_reference { draft.new.keeper.ghost_name ≡ draft.old.keeper.ghost_name }
    ensures drafts { Drafts (I.meaning ident.now) K.contents K.leaves K.faults draft.old.keeper.now draft.new.keeper.now draft.old.pending draft.new.pending
        (Steps (I.meaning ident.now) (Call.Ask query.now) payload.now) result }
{
    match without {
        [other] => ask_difference(alloc, ident, of, *other, payload, draft),
        _ => ask_graph(alloc, ident, query, payload, draft),
    }
}

/// Answers the ids that a query of the graph asks for. The parents of one revision, and what it has that one other has not, are
/// found without the rest of the log.
pub fn ask<I: Ident, K: Keeper>(
    alloc: Global,
    ident: &I,
    query: &Query,
    payload: &[u8],
    draft: &mut Draft<'_, K>,
) -> Result<Bytes, HistoryError>
    ensures same_reference { draft.new.keeper.ghost_name ≡ draft.old.keeper.ghost_name }
    ensures drafts { Drafts (I.meaning ident.now) K.contents K.leaves K.faults draft.old.keeper.now draft.new.keeper.now draft.old.pending draft.new.pending
        (Steps (I.meaning ident.now) (Call.Ask query.now) payload.now) result }
{
    match query {
        Query::Parents { of } => ask_parents(alloc, ident, *of, payload, draft),
        Query::AncestryDifference { of, without } => {
            ask_without(alloc, ident, *of, query, without.as_slice(), payload, draft)
        }
        _ => ask_graph(alloc, ident, query, payload, draft),
    }
}

/// Answers each revision with its parents.
pub fn graph<I: Ident, K: Keeper>(
    alloc: Global,
    ident: &I,
    payload: &[u8],
    draft: &mut Draft<'_, K>,
) -> Result<Bytes, HistoryError>
    ensures same_reference { draft.new.keeper.ghost_name ≡ draft.old.keeper.ghost_name }
    ensures drafts { Drafts (I.meaning ident.now) K.contents K.leaves K.faults draft.old.keeper.now draft.new.keeper.now draft.old.pending draft.new.pending
        (Steps (I.meaning ident.now) Call.Graph payload.now) result }
{
    let graph = draft.graph()?;
    let lines = lines(alloc, &graph)?;
    Ok(graph_text(alloc, lines.as_slice())?)
}

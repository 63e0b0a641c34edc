// Where a node of one revision stands in another.
ghost use Rattle.std.specs.Prelude.{◌≡◌, ◌≢◌, ◌++◌, [], ◌∷◌, List, ℕ, Ok, Err, IfOk, IfErr, IfSome, OnOk};
ghost use Rattle.mtn_base.specs.declared.refusal.Cause.TheVariants.{NoSuchPath};
ghost use Rattle.mtn_basic_io.specs.Spelling.{spelling};
ghost use Rattle.mtn_history.specs.Damage.{IsDamage};
ghost use Rattle.mtn_history.specs.Errors.{IfStoreDamage};
ghost use Rattle.mtn_history.specs.Marked.{IsCounted};
ghost use Rattle.mtn_history.specs.Stands.{IsFounded};
ghost use Rattle.mtn_model.specs.State.{State};
ghost use Rattle.mtn_ports.specs.Causes.{Rose};
ghost use Rattle.mtn_ports.specs.Kept.{Stays, with_all};
ghost use Rattle.mtn_roster.specs.Tree.{node_at};
ghost use Rattle.mtn_answers.specs.Views.{over};
ghost use Rattle.mtn_roster_queries.specs.Answers.{Gives};
ghost use Rattle.mtn_answers.specs.Views.{corresponding_at, node_text as text_of_node, path_stanza};

use mtn_base::{Bytes, Cause, Id, NoMemory, NodeName, Path};
use mtn_basic_io::write_text_line;
use mtn_history::{Draft, HistoryError, StoreError};
use mtn_ports::Keeper;
use mtn_roster::{Body, Roster};
use std::alloc::Global;

fn write_stanza(body: &Body, path: &[u8], out: &mut Vec<u8>) -> Result<(), NoMemory>
    ensures { OnOk result (out.new.items ≡ out.old.items ++ spelling (path_stanza body.now path.now ∷ [])) }
{
    match body {
        Body::Dir => write_text_line(3, b"dir", path, out)?,
        Body::File { .. } => write_text_line(4, b"file", path, out)?,
    }
    Ok(())
}

// The stanza of a node; nothing where the tree does not have it.
fn node_text(alloc: Global, tree: &Roster, name: &NodeName) -> Result<Bytes, NoMemory>
    ensures { IfOk result (λ text. text ≡ text_of_node tree.now name.now) }
{
    let mut text = Vec::new(alloc);
    if let Some(entry) = tree.entry(name) {
        if let Some(path) = tree.path_of(alloc, name)? {
            let mut words = Vec::new(alloc);
            path.write(&mut words)?;
            write_stanza(&entry.body, &words, &mut text)?;
        }
    }
    Ok(Bytes::from_vec(text))
}

// The stanza in one tree of the node at a path of another.
pub fn corresponding(
    alloc: Global,
    tree: &Roster,
    path: &Path,
    other: &Roster,
) -> Result<Bytes, HistoryError>
    ensures found { Gives (λ answer. answer ≡ over (NoSuchPath path.now) (node_at tree.now path.now) (λ e. Ok (text_of_node other.now e.name))) result }
    ensures sound { IfErr result (λ e. IfStoreDamage e (λ _. ⊥)) }
    ensures failed { result ≢ Err (HistoryError.Store StoreError.Failed) }
{
    match tree.at_path(path) {
        Some(entry) => Ok(node_text(alloc, other, &entry.name)?),
        None => {
            let path = path.copy(alloc)?;
            Err(HistoryError::Refused(Cause::NoSuchPath { path }))
        }
    }
}

/// Where the node at a path of a revision stands in another, a stanza of its kind and path, or nothing where it is
/// not there; UnknownRevision or NoSuchPath.
pub fn get_corresponding_path<K: Keeper>(
    draft: &mut Draft<'_, K>,
    id: Id,
    path: &Path,
    other: Id,
) -> Result<Bytes, HistoryError>
    ensures same_reference { draft.new.keeper.ghost_name ≡ draft.old.keeper.ghost_name }
    ensures stays { Stays K.contents K.leaves K.faults draft.old.keeper.now draft.new.keeper.now }
    ensures pending { draft.new.pending ≡ draft.old.pending }
    ensures found { (f : List ℕ → List ℕ) (s : State) (d : IsFounded f (K.contents draft.new.keeper.now) draft.old.pending s) → Gives (λ answer. answer ≡ corresponding_at d.stands.history id path.now other) result }
    ensures damaged { IfSome (K.contents draft.new.keeper.now) (λ c. IsCounted draft.old.pending c → IfErr result (λ e. IfStoreDamage e (IsDamage (with_all c draft.old.pending.batch)))) }
    ensures failed { result ≡ Err (HistoryError.Store StoreError.Failed) → Rose (K.faults draft.old.keeper.now) (K.faults draft.new.keeper.now) }
{
    let both = draft.rosters_of(id, other)?;
    let alloc = draft.alloc();
    corresponding(
        alloc,
        both.ours.marked().roster(),
        path,
        both.theirs.marked().roster(),
    )
}

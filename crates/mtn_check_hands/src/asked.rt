// What a draft tells of revisions.
ghost use Rattle.std.specs.Prelude.{◌≡◌, ◌<◌, ℕ, List, Err, IfOk};
ghost use Rattle.mtn_model.specs.State.{State};
ghost use Rattle.mtn_ports.specs.Causes.{Rose};
ghost use Rattle.mtn_ports.specs.Kept.{Stays};
ghost use Rattle.mtn_history.specs.Stands.{IsFounded};
ghost use Rattle.mtn_check_records.specs.Reading.{IsHandOf};
ghost use Rattle.mtn_check_hands.specs.Reading.{IsAnswer, front_with};

use mtn_ancestry::Pos;
use mtn_check_pieces::SharedEntries;
use mtn_check_records::Hand;
use mtn_history::{Draft, StoreError};
use mtn_make_roster::Uncommon;
use mtn_ports::Keeper;
use mtn_put_revision::uncommon_of;
use std::alloc::Global;

/// What is asked of a draft: what is kept of the revision at a position, or what each of two has above it that the other lacks.
#[derive(Clone, Copy)]
pub enum Asked {
    Kept(u64),
    Between(u64, u64),
}

/// What it answers.
#[derive(Drop)]
pub enum Answer {
    Held(Hand),
    Apart(Uncommon, Uncommon),
}

// What is kept of a revision.
fn hand_of<K: Keeper>(alloc: Global, draft: &mut Draft<'_, K>, at: u64) -> Result<Hand, StoreError>
    requires below { at < draft.old.pending.count }
    ensures same_reference { draft.new.keeper.ghost_name ≡ draft.old.keeper.ghost_name }
    ensures stays { Stays K.contents K.leaves K.faults draft.old.keeper.now draft.new.keeper.now }
    ensures pending { draft.new.pending ≡ draft.old.pending }
    ensures found { (f : List ℕ → List ℕ) (s : State) (d : IsFounded f (K.contents draft.new.keeper.now) draft.old.pending s) →
        IfOk result (IsHandOf (front_with s.log d.stands.history d.stands.kept) at) }
    ensures failed { result ≡ Err StoreError.Failed → Rose (K.faults draft.old.keeper.now) (K.faults draft.new.keeper.now) }
{
    let log = draft.log_at(Pos(at))?;
    let rebuilt = draft.roster_at(Pos(at))?;
    let held = rebuilt.as_ref();
    let copied = held.entries(alloc)?;
    let entries = SharedEntries::new(alloc, copied)?;
    Ok(Hand {
        id: log.id,
        next: log.next_node,
        depth: held.depth(),
        entries,
    })
}

/// The answer to a question about revisions that the draft has.
pub fn ask_draft<K: Keeper>(
    alloc: Global,
    draft: &mut Draft<'_, K>,
    asked: Asked,
) -> Result<Answer, StoreError>
    ensures same_reference { draft.new.keeper.ghost_name ≡ draft.old.keeper.ghost_name }
    ensures stays { Stays K.contents K.leaves K.faults draft.old.keeper.now draft.new.keeper.now }
    ensures pending { draft.new.pending ≡ draft.old.pending }
    ensures found { (f : List ℕ → List ℕ) (s : State) (d : IsFounded f (K.contents draft.new.keeper.now) draft.old.pending s) →
        IfOk result (IsAnswer (front_with s.log d.stands.history d.stands.kept) asked) }
    ensures failed { result ≡ Err StoreError.Failed → Rose (K.faults draft.old.keeper.now) (K.faults draft.new.keeper.now) }
{
    match asked {
        Asked::Kept(at) => {
            if at >= draft.count() {
                return Err(StoreError::NoMemory);
            }
            Ok(Answer::Held(hand_of(alloc, draft, at)?))
        }
        Asked::Between(left, right) => {
            if left >= draft.count() || right >= draft.count() {
                return Err(StoreError::NoMemory);
            }
            let (only_left, only_right) = uncommon_of(alloc, draft, Pos(left), Pos(right))?;
            Ok(Answer::Apart(only_left, only_right))
        }
    }
}

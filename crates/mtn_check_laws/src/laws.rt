//! The laws of the first damage.

ghost use Rattle.std.specs.Prelude.{◌≡◌, ◌≢◌, ◌≤◌, ℕ, List, [], ◌∷◌, ◌++◌, Some, slice_get};
ghost use Rattle.mtn_history.specs.Damage.{IsShown};
ghost use Rattle.mtn_history.specs.Revisions.{Kept, IsRosterOf};
ghost use Rattle.mtn_history.specs.Stands.{Stands};
ghost use Rattle.mtn_history.specs.declared.errors.Damage.{Damage};
ghost use Rattle.mtn_history_laws.specs.History.{Revision, IsGrown};
ghost use Rattle.mtn_model.specs.State.{State};
ghost use Rattle.mtn_model.specs.Table.{Contents, body_at};
ghost use Rattle.mtn_ports.specs.Kept.{AreKeyed};
ghost use Rattle.mtn_records.specs.Records.{IsRosterRecord};
ghost use Rattle.mtn_records.specs.declared.record.RosterRecord.{RosterRecord};
ghost use Rattle.mtn_store_laws.specs.Spelled.{spelled};
ghost use Rattle.mtn_check_laws.specs.FirstDamage.{IsFirstDamage, IsClean};
ghost use Rattle.mtn_check_laws.specs.Fronts.{Front, IsFrontAt, IsKeptNext, StandsTo};
ghost use Rattle.mtn_check_laws.specs.Sets.{HaveSets};

use mtn_store_laws::one_state;

/// Contents in which no step of a check finds damage stand for the state that they spell, and contents that stand for a state
/// are such.
pub fn no_damage_stands()
    ensures stands { (f : List ℕ → List ℕ) (c : Contents) → IsClean f c → Stands f c (spelled c) }
    ensures clean { (f : List ℕ → List ℕ) (c : Contents) (s : State) → Stands f c s → IsClean f c }
{
    one_state();
}

/// Contents that stand for a state have no first damage, nor have those in which no step finds any; where there is one, it shows
/// a record that is held, or a key under which nothing is.
pub fn standing_has_no_damage()
    ensures never { (f : List ℕ → List ℕ) (c : Contents) (s : State) (d : Damage) → Stands f c s → IsFirstDamage f c d → ⊥ }
    ensures clean { (f : List ℕ → List ℕ) (c : Contents) (d : Damage) → IsClean f c → IsFirstDamage f c d → ⊥ }
    ensures shown { (f : List ℕ → List ℕ) (c : Contents) (d : Damage) → IsFirstDamage f c d → IsShown c d }
{}

/// Contents have one first damage at most.
pub fn one_damage()
    ensures { (f : List ℕ → List ℕ) (c : Contents) (d e : Damage) → IsFirstDamage f c d → IsFirstDamage f c e → d ≡ e }
{}

/// In contents that a keeper can hold, each record stands in a table up to 255, under a key that is not empty: so a walk of these
/// tables by `next` meets all records.
pub fn all_are_met()
    ensures { (c : Contents) (table : ℕ) (key body : List ℕ) → AreKeyed c → body_at c table key ≡ Some body → (table ≤ 255) × (key ≢ []) }
{}

/// The records that a walk went over stand for its front: the history that its texts spell, and what is kept of it.
pub fn walk_stands()
    ensures { (f : List ℕ → List ℕ) (c : Contents) (r : ℕ) (front : Front) → IsFrontAt f c r front → StandsTo f c r front }
{}

/// The records that stand for a front of the log are those that a walk goes over, so that no position of it has damage.
pub fn stands_walk()
    ensures { (f : List ℕ → List ℕ) (c : Contents) (r : ℕ) (front : Front) → StandsTo f c r front → IsFrontAt f c r front }
{}

/// The records below a position are those of one front.
pub fn one_front()
    ensures { (f : List ℕ → List ℕ) (c : Contents) (r : ℕ) (a b : Front) → IsFrontAt f c r a → IsFrontAt f c r b → a ≡ b }
{}

/// What is to be kept of one more revision is one, with its marks in order: a check that has worked it out and finds another
/// record in the store may say that no record that is due stands there.
pub fn one_kept()
    ensures { (h : List Revision) (ks : List Kept) (v : Revision) (a b : Kept) → IsGrown (h ++ v ∷ []) → IsKeptNext h ks v a → IsKeptNext h ks v b →
        HaveSets a.entries → HaveSets b.entries → a ≡ b }
{}

/// Of what is kept of a revision one record is due (`one`), what such a record gives has its marks in order (`sets`), and so has
/// what is kept of the revisions of a walk (`front`).
pub fn one_due()
    ensures one { (ks : List Kept) (parents : List ℕ) (k : Kept) (x y : RosterRecord) → IsRosterOf ks parents k x → IsRosterOf ks parents k y → x ≡ y }
    ensures sets { (ks : List Kept) (parents : List ℕ) (k : Kept) (x : RosterRecord) →
        ((q : ℕ) (below : Kept) → slice_get ks q ≡ Some below → HaveSets below.entries) → IsRosterOf ks parents k x → IsRosterRecord x → HaveSets k.entries }
    ensures front { (f : List ℕ → List ℕ) (c : Contents) (r : ℕ) (front : Front) → IsFrontAt f c r front →
        (q : ℕ) (k : Kept) → slice_get front.kept q ≡ Some k → HaveSets k.entries }
{}

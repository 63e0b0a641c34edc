//! Histories that are one but for the order of their revisions, and states that are one but for the order of their logs.
//!
//! Replicas that exchange texts accept them in different orders. A *renaming* takes the positions of one history to
//! those of another (`specs/Renaming.antt`): ids and trees stay, and parents go with it. Two lawful states are *the
//! same up to order* if they have the same files, revisions and certificates (`specs/Order.antt`).
//!
//! The crates above rely on this: the functions here are laws, empty bodies whose contracts hold over the definitions
//! alone. Logs with the same texts spell histories of which one is a renaming of the other, and a renaming keeps
//! ancestors, events, marks and who wins. So whatever is said of a history by ids is the same in both. Nothing here
//! runs.
#![tactic(auto)]

ghost use Rattle.std.specs.Prelude.{◌≡◌, ◌<◌, ◌↔◌, ℕ, List, None, length, map};
ghost use Rattle.mtn_ancestry.specs.Ancestors.{IsAncestor, IsUncommon};
ghost use Rattle.mtn_base.specs.declared.id.Id.{Id};
ghost use Rattle.mtn_history_laws.specs.History.{Revision, parents_at, tree_at, IsGrown, IsPlaceOf};
ghost use Rattle.mtn_history_laws.specs.Scalars.{Scalar, IsEvent, IsMark, WinsAt};
ghost use Rattle.mtn_changes.specs.declared.change.Edge.{Edge};
ghost use Rattle.mtn_changes.specs.declared.change.Revision.{Revision as Spelled};
ghost use Rattle.mtn_replay.specs.Lawful.{IsHistory, IsLawful};
ghost use Rattle.mtn_replay.specs.Making.{log_full, made_tree, refusal_of, unknown_parent};
ghost use Rattle.mtn_model.specs.State.{Logged, State};
ghost use Rattle.mtn_model.specs.Table.{Table};
ghost use Rattle.mtn_renaming.specs.ById.{known_of};
ghost use Rattle.mtn_renaming.specs.Order.{HaveSameTexts, HasTexts, IsSameUpToOrder};
ghost use Rattle.mtn_renaming.specs.Parents.{AreKnownAlike};
ghost use Rattle.mtn_renaming.specs.Renaming.{elsewhere, IsPart, IsRenaming};

/// A log whose texts are all in another spells a part of its history. Two logs with the same pairs of id and text spell one
/// history but for the order of its revisions: a text has the same first refusal over both, and by ids both say the same.
pub fn one_history_in_any_order()
    ensures part { (f : List ℕ → List ℕ) (files : Table) (a b : List Logged) (h g : List Revision) → HasTexts a b → IsHistory f files a h → IsHistory f files b g →
        IsPart h g (elsewhere h g) }
    ensures renaming { (f : List ℕ → List ℕ) (files : Table) (a b : List Logged) (h g : List Revision) → HaveSameTexts a b → IsHistory f files a h → IsHistory f files b g →
        IsRenaming h g (elsewhere h g) (elsewhere g h) }
    ensures refusal { (f : List ℕ → List ℕ) (files : Table) (a b : List Logged) (h g : List Revision) → HaveSameTexts a b → IsHistory f files a h → IsHistory f files b g →
        (new : Id) (r : Spelled) → refusal_of f files g new r ≡ refusal_of f files h new r }
    ensures by_ids { (f : List ℕ → List ℕ) (files : Table) (a b : List Logged) (h g : List Revision) → HaveSameTexts a b → IsHistory f files a h → IsHistory f files b g → known_of g ≡ known_of h }
{}

/// To be the same up to order goes both ways and on.
pub fn same_up_to_order()
    ensures itself { (f : List ℕ → List ℕ) (s : State) → IsLawful f s → IsSameUpToOrder f s s }
    ensures turned { (f : List ℕ → List ℕ) (s t : State) → IsSameUpToOrder f s t → IsSameUpToOrder f t s }
    ensures onward { (f : List ℕ → List ℕ) (s t u : State) → IsSameUpToOrder f s t → IsSameUpToOrder f t u → IsSameUpToOrder f s u }
{}

/// Whatever is said of a history by its positions is said of the other by the positions where they go.
pub fn kept_by_renaming()
    ensures turned { (h g : List Revision) (to back : ℕ → ℕ) → IsRenaming h g to back → IsRenaming g h back to }
    ensures places { (h g : List Revision) (to back : ℕ → ℕ) → IsRenaming h g to back → (id : Id) (r : ℕ) → IsPlaceOf h id r ↔ IsPlaceOf g id (to r) }
    ensures trees { (h g : List Revision) (to back : ℕ → ℕ) → IsRenaming h g to back → (r : ℕ) → tree_at g (to r) ≡ tree_at h r }
    ensures parents { (h g : List Revision) (to back : ℕ → ℕ) → IsRenaming h g to back → (r : ℕ) → parents_at g (to r) ≡ map to (parents_at h r) }
    ensures ancestors { (h g : List Revision) (to back : ℕ → ℕ) → IsRenaming h g to back → (x r : ℕ) → IsAncestor (parents_at h) x r ↔ IsAncestor (parents_at g) (to x) (to r) }
    ensures uncommon { (h g : List Revision) (to back : ℕ → ℕ) → IsRenaming h g to back → (a b x : ℕ) → IsUncommon (parents_at h) a b x ↔ IsUncommon (parents_at g) (to a) (to b) (to x) }
    ensures events { (h g : List Revision) (to back : ℕ → ℕ) → IsRenaming h g to back → (s : Scalar) (r : ℕ) → IsEvent h s r ↔ IsEvent g s (to r) }
    ensures marks { (h g : List Revision) (to back : ℕ → ℕ) → IsRenaming h g to back → (s : Scalar) (r x : ℕ) → IsMark h s r x ↔ IsMark g s (to r) (to x) }
    ensures wins { (h g : List Revision) (to back : ℕ → ℕ) → IsRenaming h g to back → (s : Scalar) (a b : ℕ) → WinsAt h s a b ↔ WinsAt g s (to a) (to b) }
{}

/// A part of a history says of its own revisions what the whole says: their ancestors and marks are those of the whole, which
/// has no others. So what is said of a revision does not depend on what else is held.
pub fn kept_by_part()
    ensures trees { (h g : List Revision) (to : ℕ → ℕ) → IsPart h g to → IsGrown h → (r : ℕ) → r < length h → tree_at g (to r) ≡ tree_at h r }
    ensures ancestors { (h g : List Revision) (to : ℕ → ℕ) → IsPart h g to → IsGrown h → (x r : ℕ) → r < length h → IsAncestor (parents_at h) x r → IsAncestor (parents_at g) (to x) (to r) }
    ensures no_other_ancestors { (h g : List Revision) (to : ℕ → ℕ) → IsPart h g to → IsGrown h → (y r : ℕ) → r < length h → IsAncestor (parents_at g) y (to r) → (x : ℕ) × IsAncestor (parents_at h) x r × (to x ≡ y) }
    ensures marks { (h g : List Revision) (to : ℕ → ℕ) → IsPart h g to → IsGrown h → (s : Scalar) (r x : ℕ) → r < length h → IsMark h s r x → IsMark g s (to r) (to x) }
    ensures no_other_marks { (h g : List Revision) (to : ℕ → ℕ) → IsPart h g to → IsGrown h → (s : Scalar) (r y : ℕ) → r < length h → IsMark g s (to r) y → (x : ℕ) × IsMark h s r x × (to x ≡ y) }
{}

/// A text is judged alike, and makes the same tree, over two histories that know its parents alike and have room alike
/// (`judged`, `tree`); a part of a history knows the parents that it holds as the whole does (`part`). So a text that one
/// store accepted is accepted by each that holds its parents and its files.
pub fn judged_by_parents()
    ensures judged { (f : List ℕ → List ℕ) (files : Table) (h g : List Revision) (new : Id) (r : Spelled) → AreKnownAlike h g r.edges → log_full g ≡ log_full h → refusal_of f files g new r ≡ refusal_of f files h new r }
    ensures tree { (h g : List Revision) (new : Id) (edges : List Edge) → AreKnownAlike h g edges → made_tree g new edges ≡ made_tree h new edges }
    ensures part { (h g : List Revision) (to : ℕ → ℕ) (edges : List Edge) → IsPart h g to → IsGrown h → IsGrown g → unknown_parent h edges ≡ None → AreKnownAlike h g edges }
{}

//! Worked cases of the definitions, each by computation: one for each reason and fault, and those that are easy to get wrong.
ghost use Rattle.std.specs.Prelude.{◌≡◌, false, [], ◌∷◌, map, Some, None, codes};
ghost use Rattle.mtn_base.specs.declared.refusal.Why.TheVariants.{NoPath, Taken, NoParent, NotDir, NotFile, NotEmpty, WrongContent, NoChange, NoAttr, NoRoot, Reserved};
ghost use Rattle.mtn_roster.specs.declared.entry.Body.TheVariants.{Dir, File};
ghost use Rattle.mtn_roster.specs.Tree.{mtn};
ghost use Rattle.mtn_changes.specs.declared.change.Change.TheVariants.{Delete, Rename, AddDir, AddFile, Patch, Clear, Set};
ghost use Rattle.mtn_changeset_laws.specs.Changes.{first_fault, tree_after};
ghost use Rattle.mtn_changeset_laws.specs.Joining.{join_fault, joined};
ghost use Rattle.mtn_changeset_laws.specs.Joining.JoinWhy.{Disagree, Revived};
ghost use Rattle.mtn_changeset_laws.specs.Worked.{id, root, one, two, d, e, f, g, n, key, value, first, home, shown, second_fails, failing, key_at, edge, without_g, knows_first};

/// Each reason, at a change that is not the first.
pub fn reasons_at_second_changes()
    ensures no_path { second_fails (AddDir (one n)) (Delete (two d g)) ≡ failing 2 NoPath }
    ensures no_path_deleted { second_fails (Delete (one g)) (Rename (one g) (one n)) ≡ failing 2 NoPath }
    ensures no_path_new { second_fails (Delete (one g)) (Set (one g) key []) ≡ failing 2 NoPath }
    ensures not_empty { second_fails (Delete (one e)) (Delete (one d)) ≡ failing 2 NotEmpty }
    ensures no_change_root { second_fails (Delete (one e)) (Rename root root) ≡ failing 2 NoChange }
    ensures no_change { second_fails (Delete (one e)) (Rename (two d f) (two d f)) ≡ failing 2 NoChange }
    ensures no_change_moved { second_fails (Rename (one d) (one n)) (Rename (two d f) (two n f)) ≡ failing 2 NoChange }
    ensures no_change_content { second_fails (AddDir (one n)) (Patch (one g) (id 8) (id 8)) ≡ failing 2 NoChange }
    ensures no_change_value { second_fails (AddDir (one n)) (Set (one g) key value) ≡ failing 2 NoChange }
    ensures reserved { second_fails (AddDir (one n)) (AddDir (one mtn)) ≡ failing 2 Reserved }
    ensures reserved_rename { second_fails (AddDir (one n)) (Rename (one g) (one mtn)) ≡ failing 2 Reserved }
    ensures taken { second_fails (AddDir (one n)) (AddFile (one g) (id 9)) ≡ failing 2 Taken }
    ensures taken_twice { second_fails (AddDir (one n)) (AddFile (one n) (id 9)) ≡ failing 2 Taken }
    ensures no_parent { second_fails (AddDir (one n)) (AddFile (two f f) (id 9)) ≡ failing 2 NoParent }
    ensures no_parent_inside { second_fails (AddDir (one n)) (Rename (one d) (two d n)) ≡ failing 2 NoParent }
    ensures not_dir { second_fails (AddDir (one n)) (AddFile (two g n) (id 9)) ≡ failing 2 NotDir }
    ensures not_file { second_fails (AddDir (one n)) (Patch (one d) (id 7) (id 9)) ≡ failing 2 NotFile }
    ensures wrong_content { second_fails (AddDir (one n)) (Patch (one g) (id 7) (id 9)) ≡ failing 2 WrongContent }
    ensures wrong_content_added { second_fails (AddFile (one n) (id 8)) (Patch (one n) (id 8) (id 9)) ≡ failing 2 WrongContent }
    ensures no_attr { second_fails (AddDir (one n)) (Clear (two d f) key) ≡ failing 2 NoAttr }
    ensures no_attr_added { second_fails (AddDir (one n)) (Clear (one n) key) ≡ failing 2 NoAttr }
{}

/// Reasons that come at the first change, and those behind the last.
pub fn other_reasons()
    ensures root_is_no_file { first_fault [] (AddFile root (id 9) ∷ []) ≡ failing 1 NotDir }
    ensures no_file_becomes_root { first_fault home (Rename (one g) root ∷ Rename root (one n) ∷ []) ≡ failing 1 NotDir }
    ensures no_root { first_fault [] [] ≡ failing 1 NoRoot }
    ensures no_root_left { first_fault home (Delete (two d f) ∷ Delete (one d) ∷ Delete (one e) ∷ Delete (one g) ∷ Delete root ∷ []) ≡ failing 6 NoRoot }
    ensures root_keeps_no_mtn { first_fault (tree_after home (AddDir (two d mtn) ∷ []) (id 2)) (Rename root (one n) ∷ Rename (one d) root ∷ []) ≡ failing 2 Reserved }
{}

/// Changesets that pass, and what they make.
pub fn lawful_changesets()
    ensures first_one { first_fault [] first ≡ None }
    ensures emptied { first_fault home (Delete (one d) ∷ Rename (two d f) (one f) ∷ []) ≡ None }
    ensures freed { first_fault home (Delete (one g) ∷ Rename (two d f) (one g) ∷ []) ≡ None }
    ensures freed_by_a_move { first_fault home (Rename (one g) (one n) ∷ AddFile (one g) (id 9) ∷ []) ≡ None }
    ensures new_parent { first_fault home (Rename (two d f) (two n f) ∷ AddDir (one n) ∷ []) ≡ None }
    ensures moved_out_of_a_moved { shown (tree_after home (Rename (one d) (two e d) ∷ []) (id 2)) ≡
        (root, Dir) ∷ (two e d, Dir) ∷ (e ∷ d ∷ f ∷ [], File (id 7)) ∷ (one e, Dir) ∷ (one g, File (id 8)) ∷ [] }
    ensures directories_swap { first_fault home (Rename (one d) (one e) ∷ Rename (one e) (one d) ∷ []) ≡ None }
    ensures swapped { shown (tree_after home (Rename (one d) (one e) ∷ Rename (one e) (one d) ∷ []) (id 2)) ≡
        (root, Dir) ∷ (one e, Dir) ∷ (two e f, File (id 7)) ∷ (one d, Dir) ∷ (one g, File (id 8)) ∷ [] }
    ensures root_moves { first_fault home (Rename root (one n) ∷ Rename (one d) root ∷ []) ≡ None }
    ensures root_moved { shown (tree_after home (Rename root (one n) ∷ Rename (one d) root ∷ []) (id 2)) ≡
        (one n, Dir) ∷ (root, Dir) ∷ (one f, File (id 7)) ∷ (two n e, Dir) ∷ (two n g, File (id 8)) ∷ [] }
    ensures cleared { key_at (tree_after home (Clear (one g) key ∷ []) (id 2)) (one g) ≡ Some (Some None) }
    ensures set_again { key_at (tree_after home (Set (one g) key [] ∷ []) (id 2)) (one g) ≡ Some (Some (Some [])) }
    ensures patched { shown (tree_after home (Patch (one g) (id 8) (id 9) ∷ []) (id 2)) ≡
        (root, Dir) ∷ (one d, Dir) ∷ (two d f, File (id 7)) ∷ (one e, Dir) ∷ (one g, File (id 9)) ∷ [] }
{}

/// What two edges of revision 4 are joined to, and where they can not be. Both parents descend from revision 1.
pub fn joinings()
    ensures same { join_fault (id 4) knows_first knows_first (edge home []) (edge home []) ≡ None }
    ensures wanting { join_fault (id 4) knows_first knows_first (edge home []) (edge without_g []) ≡ Some (one g, Disagree) }
    ensures surplus { join_fault (id 4) knows_first knows_first (edge without_g []) (edge home []) ≡ Some (one g, Disagree) }
    ensures unlike_content { join_fault (id 4) knows_first knows_first (edge home []) (edge home (Patch (one g) (id 8) (id 9) ∷ [])) ≡ Some (one g, Disagree) }
    ensures unlike_value { join_fault (id 4) knows_first knows_first (edge home []) (edge home (Set (one g) key [] ∷ [])) ≡ Some (one g, Disagree) }
    ensures unlike_old_nodes { join_fault (id 4) knows_first knows_first (edge home (Rename (one e) (one n) ∷ [])) (edge home (Delete (one e) ∷ AddDir (one n) ∷ [])) ≡ Some (one n, Revived) }
    ensures two_old_nodes { join_fault (id 4) knows_first knows_first (edge home (Delete (two d f) ∷ Delete (one e) ∷ Rename (one d) (one n) ∷ [])) (edge home (Delete (two d f) ∷ Delete (one d) ∷ Rename (one e) (one n) ∷ [])) ≡ Some (one n, Disagree) }
    ensures revived { join_fault (id 4) knows_first knows_first (edge home (Clear (one g) key ∷ [])) (edge without_g (AddFile (one g) (id 8) ∷ [])) ≡ Some (one g, Revived) }
    ensures disagree_first { join_fault (id 4) knows_first knows_first (edge home []) (edge without_g (AddFile (one g) (id 9) ∷ [])) ≡ Some (one g, Disagree) }
    ensures least_path { join_fault (id 4) knows_first knows_first (edge home (AddFile (one (codes "d-f")) (id 9) ∷ AddFile (two d n) (id 9) ∷ [])) (edge home []) ≡ Some (two d n, Disagree) }
    ensures stays_cleared { key_at (joined (edge home (Clear (one g) key ∷ [])) (edge home (Clear (one g) key ∷ [])) (id 4)) (one g) ≡ Some (Some None) }
    ensures old_one_stays { join_fault (id 4) (λ _. false) (λ _. false) (edge home (Clear (one g) key ∷ [])) (edge without_g (AddFile (one g) (id 8) ∷ [])) ≡ None }
    ensures its_name { map (λ x. x.name) (joined (edge home (Clear (one g) key ∷ [])) (edge without_g (AddFile (one g) (id 8) ∷ [])) (id 4)) ≡ map (λ x. x.name) home }
    ensures cleared_on_one { key_at (joined (edge without_g (AddFile (one g) (id 8) ∷ [])) (edge home (Clear (one g) key ∷ [])) (id 4)) (one g) ≡ Some (Some None) }
{}

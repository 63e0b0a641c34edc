//! Laws of sane trees, over the definitions alone.
ghost use Rattle.std.specs.Prelude.{◌≡◌, ◌++◌, ◌∷◌, ℕ, List, [], Some};
ghost use Rattle.mtn_base.specs.declared.name.NodeName.{NodeName};
ghost use Rattle.mtn_roster.specs.declared.entry.Entry.{Entry};
ghost use Rattle.mtn_roster.specs.declared.entry.Slot.TheVariants.{Below};
ghost use Rattle.mtn_roster.specs.Tree.{Tree, IsSane, entry_of, node_at, path_of};

/// Two nodes have different paths.
pub fn nodes_have_own_paths()
    ensures { (t : Tree) (n m : NodeName) (e f : Entry) → IsSane t → entry_of t n ≡ Some e → entry_of t m ≡ Some f → path_of t e ≡ path_of t f → n ≡ m }
{}

/// The path of a node is that of its parent with its component.
pub fn paths_extend_parents()
    ensures { (t : Tree) (n : NodeName) (d e : Entry) (name : List ℕ) → IsSane t → entry_of t n ≡ Some e → entry_of t d.name ≡ Some d → e.slot ≡ Below d.name name →
        path_of t e ≡ path_of t d ++ name ∷ [] }
{}

/// The path of a node leads to it, and what stands at a path has that path and is a node.
pub fn paths_lead_to_nodes()
    ensures leads { (t : Tree) (n : NodeName) (e : Entry) → IsSane t → entry_of t n ≡ Some e → node_at t (path_of t e) ≡ Some e }
    ensures back { (t : Tree) (p : List (List ℕ)) (e : Entry) → IsSane t → node_at t p ≡ Some e → path_of t e ≡ p }
    ensures there { (t : Tree) (p : List (List ℕ)) (e : Entry) → IsSane t → node_at t p ≡ Some e → entry_of t e.name ≡ Some e }
{}

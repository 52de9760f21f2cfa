// Laws of names.
ghost use Rattle.std.specs.Prelude.{◌≡◌, ℕ, List, Option};
ghost use Rattle.hy_tree.specs.Findings.{meanings};
ghost use Rattle.hy_tree.specs.Names.{full_name};
ghost use Rattle.hy_tree.specs.Preorder.{IsNumbered};
ghost use Rattle.hy_tree.specs.Tree.{Program};
ghost use Rattle.hy_scope.specs.FoundNames.{HasFoundNames};
ghost use Rattle.hy_scope.specs.FullNames.{AreLabels, IsNameText};

/// Two full names are the same text only where the base names are the same, and the labels are.
pub fn full_names_tell_apart()
    ensures { (base other : List ℕ) (labels others : List (Option (List ℕ))) → IsNameText base → IsNameText other → AreLabels labels → AreLabels others
        → full_name base labels ≡ full_name other others → (base ≡ other) × (labels ≡ others) }
{}

/// The table of names of a numbered tree has a place for each node: what a name stands for where one was found, and else nothing.
pub fn names_stand_at_their_nodes()
    ensures { (program : Program) → IsNumbered program → HasFoundNames program (meanings program) }
{}

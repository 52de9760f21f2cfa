// What holds of the numbers of the nodes.
ghost use Rattle.std.specs.Prelude.{◌≡◌, length};
ghost use Rattle.std.specs.List.{range_with_len};
ghost use Rattle.hy_tree.specs.Numbers.{nodes_program, count_program, number_program};
ghost use Rattle.hy_tree.specs.Preorder.{IsNumbered, HasEachOnce};
ghost use Rattle.hy_tree.specs.Tree.{Program};

/// A program that is numbered has, in preorder, the numbers 0, 1, 2 and so on.
pub fn numbers_are_in_preorder()
    ensures { (program : Program) → nodes_program (number_program program) ≡ range_with_len 0 (count_program program) }
{}

/// As many numbers stand in a program as it has nodes, also before they are given, and giving them changes none of this.
pub fn each_node_has_a_number()
    ensures has { (program : Program) → length (nodes_program program) ≡ count_program program }
    ensures keeps { (program : Program) → count_program (number_program program) ≡ count_program program }
{}

/// No two nodes have one number, each number is below the number of nodes, and each number below it is a node's.
pub fn each_number_is_one_node()
    ensures { (program : Program) → IsNumbered program → HasEachOnce program }
{}

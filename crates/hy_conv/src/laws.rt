// Laws of paths.
ghost use Rattle.hy_tree.specs.Tree.{Block};
ghost use Rattle.hy_conv.specs.Yielding.{IsOfPaths};

/// What is computed of the `yield`s of a body is so of the paths through it.
pub fn yields_are_on_paths()
    ensures { (body : Block) → IsOfPaths body }
{}

// Names that are declared.
ghost use Rattle.std.specs.Prelude.{◌≡◌, ◌||◌};
ghost use Rattle.hy_base.specs.declared.refusal.Rule.TheVariants.{N2};
ghost use Rattle.hy_tree.specs.FileNames as file_names;
ghost use Rattle.hy_tree.specs.Findings.{when, Broken};
ghost use Rattle.hy_scope.specs.Noted.{after};
ghost use Rattle.hy_scope.specs.Shown.{noted};

use crate::notes::Notes;
use hy_base::Rule;
use hy_tree::Name;

/// Whether it is the name of an integer type.
fn is_integer(name: &[u8]) -> bool
    ensures { result ≡ file_names.is_integer name.now }
{
    name == b"Int8".as_slice()
        || name == b"Int16".as_slice()
        || name == b"Int32".as_slice()
        || name == b"UInt8".as_slice()
        || name == b"UInt16".as_slice()
        || name == b"UInt32".as_slice()
        || name == b"UInt64".as_slice()
        || name == b"Int".as_slice()
}

/// Whether no declaration may have this name, since it is predeclared.
pub fn is_reserved(name: &[u8]) -> bool
    ensures { result ≡ file_names.is_reserved name.now }
{
    name == b"print".as_slice()
        || name == b"read".as_slice()
        || name == b"precondition".as_slice()
        || is_integer(name)
        || name == b"Bool".as_slice()
        || name == b"Copyable".as_slice()
        || name == b"Movable".as_slice()
        || name == b"Deinitializable".as_slice()
}

/// A name is declared that was there, or was not.
pub fn declare(notes: &mut Notes, was: bool, name: &Name)
    ensures { noted notes.new ≡ after (when (was || file_names.is_reserved name.now.text) (Broken N2 name.now.span)) (noted notes.old) }
{
    let twice = was || is_reserved(name.text.as_slice());
    notes.when(twice, Rule::N2, name.span);
}

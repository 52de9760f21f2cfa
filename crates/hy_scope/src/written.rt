// Names in written types.
ghost use Rattle.std.specs.Prelude.{◌≡◌, option_map};
ghost use Rattle.hy_tree.specs.Denotes.{type_of, types_of};
ghost use Rattle.hy_tree.specs.Findings.{find_type, find_types, find_written, find_trait, find_traits};
ghost use Rattle.hy_scope.specs.Noted.{after};
ghost use Rattle.hy_scope.specs.Shown.{around_of, file_of, noted};

use crate::around::Around;
use crate::file::File;
use crate::notes::Notes;
use hy_base::Rule;
use hy_tree::{NameUse, TypeExp, TypeKind};

/// The names in a written type.
#[cycle(written)]
#[tactic(auto, using(hy_tree::proofs::Equations::type_variants))]
pub fn walk_type(around: &Around, notes: &mut Notes, written: &TypeExp)
    ensures { noted notes.new ≡ after (find_type (around_of around.now) (type_of written.now)) (noted notes.old) }
{
    match &written.kind {
        TypeKind::Name(name) => {
            let meant = around.type_named(name.text.as_slice());
            notes.known(Rule::N3, name.span, written.node, meant);
        }
        TypeKind::SelfType(token) => notes.known(Rule::N3, *token, written.node, around.own),
        TypeKind::Array(element) => walk_type(around, notes, element.get()),
        TypeKind::Tuple(parts) => walk_types(around, notes, parts.as_slice()),
    }
}

#[cycle(written)]
fn walk_types(around: &Around, notes: &mut Notes, parts: &[TypeExp])
    ensures { noted notes.new ≡ after (find_types (around_of around.now) (types_of parts.now)) (noted notes.old) }
{
    for part in parts {
        walk_type(around, notes, part);
    }
}

/// The names in a type that may be left out.
pub fn walk_written(around: &Around, notes: &mut Notes, written: &Option<TypeExp>)
    ensures { noted notes.new ≡ after (find_written (around_of around.now) (option_map type_of written.now)) (noted notes.old) }
{
    if let Some(written) = written {
        walk_type(around, notes, written);
    }
}

/// The name of a trait in a list or a bound.
fn walk_trait(file: &File, notes: &mut Notes, name: &NameUse)
    ensures { noted notes.new ≡ after (find_trait (file_of file.now) name.now) (noted notes.old) }
{
    let meant = file.traits.find(name.text.as_slice());
    notes.known(Rule::N3, name.span, name.node, meant);
}

/// The names of traits in a list or in bounds.
pub fn walk_traits(file: &File, notes: &mut Notes, names: &[NameUse])
    ensures { noted notes.new ≡ after (find_traits (file_of file.now) names.now) (noted notes.old) }
{
    for name in names {
        walk_trait(file, notes, name);
    }
}

// What is around a phrase.
ghost use Rattle.std.specs.Prelude.{◌≡◌};
ghost use Rattle.hy_tree.specs.Findings.{type_named};
ghost use Rattle.hy_scope.specs.Shown.{around_of};

use crate::file::File;
use crate::table::Table;
use hy_tree::Meant;

/// What is around a phrase: the file, the fields of the type of `self`, the type parameters, and what `Self` stands for.
#[derive(Clone, Copy)]
pub struct Around<'a> {
    pub file: &'a File,
    pub fields: &'a Table,
    pub generics: &'a Table,
    pub own: Option<Meant>,
}

impl Around<'_> {
    /// What a name stands for as a written type.
    pub fn type_named(&self, name: &[u8]) -> Option<Meant>
        ensures { result ≡ type_named (around_of self.now) name.now }
    {
        match self.generics.find(name) {
            Some(meant) => Some(meant),
            None => self.file.types.find(name),
        }
    }
}

// The whole pass.
ghost use Rattle.std.specs.Prelude.{◌≡◌, OnOk};
ghost use Rattle.hy_base.specs.Answers.{Answers};
ghost use Rattle.hy_tree.specs.Denotes.{program_of};
ghost use Rattle.hy_tree.specs.Findings.{Breaks, findings, meanings};
ghost use Rattle.hy_scope.specs.Noted.{after};
ghost use Rattle.hy_scope.specs.Shown.{noted};

use crate::declaration::{has_main, walk_decls};
use crate::file::{File, declare_decls};
use crate::notes::Notes;
use hy_base::{Fault, NoMemory, Rule, Span};
use hy_tree::Program;
use hy_types::Resolved;
use std::alloc::Global;

/// Notes all that there is to find in a source.
fn walk_program(alloc: Global, notes: &mut Notes, tree: &Program) -> Result<(), NoMemory>
    ensures { OnOk result (noted notes.new ≡ after (findings (program_of tree.now)) (noted notes.old)) }
{
    let decls = tree.decls.as_slice();
    let mut file = File::new(alloc)?;
    declare_decls(alloc, &mut file, notes, decls)?;
    walk_decls(alloc, &file, notes, decls)?;
    let missing = !has_main(decls);
    notes.when(missing, Rule::N5, Span { from: 0, to: 0 });
    Ok(())
}

/// What each name of a source stands for, by the number of the node that uses it; or the first of the rules N1 to N5 that
/// are broken. `docs/NAMES.md` has the rules.
pub fn resolve(alloc: Global, tree: &Program) -> Result<Resolved, Fault>
    ensures { Answers (Breaks (program_of tree.now)) (λ resolved. resolved.meant.items ≡ meanings (program_of tree.now)) result }
{
    let mut notes = Notes::new(alloc, tree.count())?;
    walk_program(alloc, &mut notes, tree)?;
    match notes.first {
        Some(first) => Err(Fault::Refused(first.rule, first.span)),
        None => Ok(Resolved { meant: notes.meant }),
    }
}

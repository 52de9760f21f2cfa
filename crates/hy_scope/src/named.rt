// What a name in an expression stands for.
ghost use Rattle.std.specs.Prelude.{◌≡◌, IfOk, OnOk};
ghost use Rattle.hy_tree.specs.Denotes.{steps_of};
ghost use Rattle.hy_tree.specs.Findings as findings;
ghost use Rattle.hy_tree.specs.Findings.{use_before, find_name};
ghost use Rattle.hy_scope.specs.Noted.{after};
ghost use Rattle.hy_scope.specs.Shown.{around_of, blocks_of, file_of, noted};

use crate::around::Around;
use crate::blocks::Blocks;
use crate::file::File;
use crate::full_name::called_name;
use crate::notes::Notes;
use hy_base::{NoMemory, Rule};
use hy_tree::{Meant, Name, Step, StepKind};
use std::alloc::Global;

/// A call finds no subscript.
fn as_call(found: Option<Meant>) -> Option<Meant>
    ensures { result ≡ findings.as_call found }
{
    match found {
        Some(Meant::Sub(_)) => None,
        other => other,
    }
}

/// Brackets find subscripts alone.
fn as_index(found: Option<Meant>) -> Option<Meant>
    ensures { result ≡ findings.as_index found }
{
    match found {
        Some(Meant::Sub(node)) => Some(Meant::Sub(node)),
        _ => None,
    }
}

/// The function or subscript of the file that the first of these steps calls by this base name.
fn callable_named(
    alloc: Global,
    file: &File,
    name: &[u8],
    behind: &[Step],
) -> Result<Option<Meant>, NoMemory>
    ensures { IfOk result (λ meant. meant ≡ findings.callable_named (file_of file.now) name.now (use_before (steps_of behind.now))) }
{
    let Some(step) = behind.first() else {
        return Ok(None);
    };
    match &step.kind {
        StepKind::Call(args) => {
            let full = called_name(alloc, name, args.as_slice())?;
            Ok(as_call(file.callables.find(full.as_slice())))
        }
        StepKind::Index(args) => {
            let full = called_name(alloc, name, args.as_slice())?;
            Ok(as_index(file.callables.find(full.as_slice())))
        }
        StepKind::Member(_) => Ok(None),
        StepKind::Part(_) => Ok(None),
    }
}

/// What a name stands for that has these steps right after it.
fn stands_for(
    alloc: Global,
    around: &Around,
    blocks: &Blocks,
    name: &[u8],
    behind: &[Step],
) -> Result<Option<Meant>, NoMemory>
    ensures { IfOk result (λ meant. meant ≡ findings.stands_for (around_of around.now) (blocks_of blocks.now) name.now (use_before (steps_of behind.now))) }
{
    if let Some(local) = blocks.find(name) {
        return Ok(Some(local));
    }
    if let Some(field) = around.fields.find(name) {
        return Ok(Some(field));
    }
    if let Some(callable) = callable_named(alloc, around.file, name, behind)? {
        return Ok(Some(callable));
    }
    if let Some(named) = around.file.types.find(name) {
        return Ok(Some(named));
    }
    Ok(around.file.traits.find(name))
}

/// A name in an expression that has these steps right after it.
pub fn walk_name(
    alloc: Global,
    around: &Around,
    blocks: &Blocks,
    notes: &mut Notes,
    name: &Name,
    node: u32,
    behind: &[Step],
) -> Result<(), NoMemory>
    ensures { OnOk result (noted notes.new ≡ after (find_name (around_of around.now) (blocks_of blocks.now) name.now node
        (use_before (steps_of behind.now))) (noted notes.old)) }
{
    let found = stands_for(alloc, around, blocks, name.text.as_slice(), behind)?;
    match found {
        Some(meant) => notes.stands(node, meant),
        None => {
            let known = around.file.bases.find(name.text.as_slice()).is_some();
            notes.when(!known, Rule::N1, name.span);
        }
    }
    Ok(())
}

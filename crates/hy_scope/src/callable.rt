// Names in what is called.
ghost use Rattle.std.specs.Prelude.{◌≡◌, ◌∷◌, ◌++◌, [], IfOk, OnOk, map};
ghost use Rattle.std.specs.Option.{unwrap_or};
ghost use Rattle.hy_tree.specs.Denotes.{type_of, param_of, variant_of, callable_of};
ghost use Rattle.hy_tree.specs.Findings.{declares, find_traits, find_generics, find_type, find_params, find_body, find_variant, find_variants, find_inside};
ghost use Rattle.hy_tree.specs.Findings.{find_callable, with_generics, with_params, word_of};
ghost use Rattle.hy_tree.specs.Names.{no_names, with_name};
ghost use Rattle.hy_tree.specs.declared.meant.Meant.TheVariants as meaning;
ghost use Rattle.hy_scope.specs.Noted.{after};
ghost use Rattle.hy_scope.specs.Shown.{around_of, blocks_of, file_of, names_of, noted};

use crate::around::Around;
use crate::blocks::Blocks;
use crate::declared::declare;
use crate::file::File;
use crate::notes::Notes;
use crate::statement::walk_block;
use crate::table::Table;
use crate::written::{walk_traits, walk_type, walk_written};
use hy_base::{NoMemory, Rule};
use hy_tree::{Callable, Meant, Mode, Param, TypeParam, Variant};
use std::alloc::Global;

/// The word of a variant.
fn word(mode: Mode) -> &'static [u8]
    ensures { result.now ≡ word_of mode }
{
    match mode {
        Mode::Let => b"let".as_slice(),
        Mode::Inout => b"inout".as_slice(),
        Mode::Sink => b"sink".as_slice(),
        Mode::Set => b"set".as_slice(),
        Mode::Yielded => b"yielded".as_slice(),
    }
}

/// The `place`-th type parameter, after those before it.
fn walk_generic(
    alloc: Global,
    file: &File,
    notes: &mut Notes,
    before: &mut Table,
    place: usize,
    p: &TypeParam,
) -> Result<(), NoMemory>
    ensures notes { OnOk result (noted notes.new ≡ after (declares (names_of before.old) p.now.name ++ find_traits (file_of file.now) p.now.bounds)
        (noted notes.old)) }
    ensures names { OnOk result (names_of before.new ≡ with_name p.now.name.text (meaning.Param place) (names_of before.old)) }
{
    let Ok(place) = u32::try_from(place) else {
        return Err(NoMemory);
    };
    let was = before.put(alloc, p.name.text.as_slice(), Meant::Param(place))?;
    declare(notes, was, &p.name);
    walk_traits(file, notes, p.bounds.as_slice());
    Ok(())
}

/// The type parameters, which are handed out.
fn walk_generics(
    alloc: Global,
    file: &File,
    notes: &mut Notes,
    generics: &[TypeParam],
) -> Result<Table, NoMemory>
    ensures notes { OnOk result (noted notes.new ≡ after (find_generics (file_of file.now) no_names 0 generics.now) (noted notes.old)) }
    ensures names { IfOk result (λ names. names_of names ≡ with_generics no_names 0 generics.now) }
{
    let mut before = Table::new(alloc);
    for (k, p) in generics.iter().enumerate() {
        walk_generic(alloc, file, notes, &mut before, k, p)?;
    }
    Ok(before)
}

/// A parameter, after those before it.
fn walk_param(
    alloc: Global,
    around: &Around,
    notes: &mut Notes,
    before: &mut Table,
    p: &Param,
) -> Result<(), NoMemory>
    ensures notes { OnOk result (noted notes.new ≡ after (declares (names_of before.old) p.now.name ++ find_type (around_of around.now)
        (type_of p.now.written)) (noted notes.old)) }
    ensures names { OnOk result (names_of before.new ≡ with_name p.now.name.text (meaning.Local p.now.node) (names_of before.old)) }
{
    let was = before.put(alloc, p.name.text.as_slice(), Meant::Local(p.node))?;
    declare(notes, was, &p.name);
    walk_type(around, notes, &p.written);
    Ok(())
}

/// The parameters, which are handed out.
fn walk_params(
    alloc: Global,
    around: &Around,
    notes: &mut Notes,
    params: &[Param],
) -> Result<Table, NoMemory>
    ensures notes { OnOk result (noted notes.new ≡ after (find_params (around_of around.now) no_names (map param_of params.now)) (noted notes.old)) }
    ensures names { IfOk result (λ names. names_of names ≡ with_params no_names (map param_of params.now)) }
{
    let mut before = Table::new(alloc);
    for p in params {
        walk_param(alloc, around, notes, &mut before, p)?;
    }
    Ok(before)
}

/// The names in the body of a variant, which is inside the block of the parameters.
fn walk_body(
    alloc: Global,
    around: &Around,
    blocks: &mut Blocks,
    notes: &mut Notes,
    v: &Variant,
) -> Result<(), NoMemory>
    ensures notes { OnOk result (noted notes.new ≡ after (find_body (around_of around.now) (blocks_of blocks.old) (variant_of v.now) v.now.value)
        (noted notes.old)) }
    ensures blocks { OnOk result (blocks_of blocks.new ≡ blocks_of blocks.old) }
{
    let Some(value) = &v.value else {
        return walk_block(alloc, around, blocks, notes, &v.block);
    };
    declare(notes, blocks.is_here(value.text.as_slice()), value);
    blocks.enter(alloc)?;
    blocks.put(alloc, value, v.node)?;
    walk_block(alloc, around, blocks, notes, &v.block)?;
    blocks.leave();
    Ok(())
}

/// A variant, after those with these words.
fn walk_variant(
    alloc: Global,
    around: &Around,
    blocks: &mut Blocks,
    notes: &mut Notes,
    words: &mut Table,
    v: &Variant,
) -> Result<(), NoMemory>
    ensures notes { OnOk result (noted notes.new ≡ after (find_variant (around_of around.now) (blocks_of blocks.old) (names_of words.old)
        (variant_of v.now)) (noted notes.old)) }
    ensures words { OnOk result (names_of words.new ≡ with_name (word_of v.now.mode) meaning.Nothing (names_of words.old)) }
    ensures blocks { OnOk result (blocks_of blocks.new ≡ blocks_of blocks.old) }
{
    let was = words.put(alloc, word(v.mode), Meant::Nothing)?;
    let span = v.keyword.unwrap_or(v.span);
    notes.when(was, Rule::N2, span);
    walk_body(alloc, around, blocks, notes, v)
}

/// The variants, inside the block of the parameters.
fn walk_variants(
    alloc: Global,
    around: &Around,
    blocks: &mut Blocks,
    notes: &mut Notes,
    variants: &[Variant],
) -> Result<(), NoMemory>
    ensures { OnOk result (noted notes.new ≡ after (find_variants (around_of around.now) (blocks_of blocks.old) no_names (map variant_of variants.now))
        (noted notes.old)) }
{
    let mut words = Table::new(alloc);
    for v in variants {
        walk_variant(alloc, around, blocks, notes, &mut words, v)?;
    }
    Ok(())
}

/// The names of what is called, after its type parameters.
fn walk_inside(
    alloc: Global,
    around: &Around,
    notes: &mut Notes,
    c: &Callable,
) -> Result<(), NoMemory>
    ensures { OnOk result (noted notes.new ≡ after (find_inside (around_of around.now) (callable_of c.now)) (noted notes.old)) }
{
    let params = walk_params(alloc, around, notes, c.params.as_slice())?;
    walk_written(around, notes, &c.result);
    let mut blocks = Blocks::new(alloc, params);
    walk_variants(alloc, around, &mut blocks, notes, c.variants.as_slice())
}

/// The names of what is called. What is around it has no type parameters.
pub fn walk_callable(
    alloc: Global,
    around: &Around,
    notes: &mut Notes,
    c: &Callable,
) -> Result<(), NoMemory>
    ensures { OnOk result (noted notes.new ≡ after (find_callable (around_of around.now) (callable_of c.now)) (noted notes.old)) }
{
    let generics = walk_generics(alloc, around.file, notes, c.generics.as_slice())?;
    let inside = Around {
        file: around.file,
        fields: around.fields,
        generics: &generics,
        own: around.own,
    };
    walk_inside(alloc, &inside, notes, c)
}

// Numbers for the nodes of a tree, in preorder.
ghost use Rattle.std.specs.Prelude.{◌≡◌, ◌+◌, IfOk, OnOk};

use crate::name::Name;
use hy_base::{NoMemory, Text};
use std::alloc::Global;

/// Hands out the next number.
pub fn take(next: &mut u32) -> Result<u32, NoMemory>
    ensures number { IfOk result (λ n. n ≡ next.old) }
    ensures next { OnOk result (next.new ≡ next.old + 1) }
{
    let number = *next;
    match number.checked_add(1) {
        Some(after) => {
            *next = after;
            Ok(number)
        }
        None => Err(NoMemory),
    }
}

pub fn copy_text(alloc: Global, text: &Text) -> Result<Text, NoMemory>
    ensures { IfOk result (λ copy. copy ≡ text.now) }
{
    Ok(Text::from_vec(Vec::from_slice(alloc, text.as_slice())?))
}

pub fn copy_name(alloc: Global, name: &Name) -> Result<Name, NoMemory>
    ensures { IfOk result (λ copy. copy ≡ name.now) }
{
    Ok(Name {
        text: copy_text(alloc, &name.text)?,
        span: name.span,
    })
}

pub fn copy_label(alloc: Global, label: &Option<Text>) -> Result<Option<Text>, NoMemory>
    ensures { IfOk result (λ copy. copy ≡ label.now) }
{
    match label {
        Some(text) => Ok(Some(copy_text(alloc, text)?)),
        None => Ok(None),
    }
}

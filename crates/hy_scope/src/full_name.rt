// Full names of functions and subscripts, as `moved(by:_:)`.
ghost use Rattle.std.specs.Prelude.{◌≡◌, ◌++◌, IfOk, OnOk, map, codes};
ghost use Rattle.hy_tree.specs.Denotes.{args_of, param_of};
ghost use Rattle.hy_tree.specs.Names.{full_name, label_text, labels_of_args, labels_of_params};
ghost use Rattle.hy_tree.specs.Parts as parts;

use hy_base::NoMemory;
use hy_tree::{Arg, Param};
use std::alloc::Global;

/// The text of an argument's label, or `_` where it has none.
fn label_of_arg(arg: &Arg) -> &[u8]
    ensures { result.now ≡ label_text arg.now.label }
{
    match &arg.label {
        Some(label) => label.as_slice(),
        None => b"_".as_slice(),
    }
}

/// The text of a parameter's label, or `_` where it has none.
fn label_of(param: &Param) -> &[u8]
    ensures { result.now ≡ label_text (parts.label_of (param_of param.now)) }
{
    match param.label() {
        Some(label) => label.as_slice(),
        None => b"_".as_slice(),
    }
}

/// Puts a label with its colon after the text.
fn push_label(text: &mut Vec<u8>, label: &[u8]) -> Result<(), NoMemory>
    ensures { OnOk result (text.new.items ≡ text.old.items ++ (label.now ++ codes ":")) }
{
    text.extend_from_slice(label)?;
    text.push(b':')?;
    Ok(())
}

/// The text up to the labels.
fn begin(alloc: Global, base: &[u8]) -> Result<Vec<u8>, NoMemory>
    ensures { IfOk result (λ text. text.items ≡ base.now ++ codes "(") }
{
    let mut text = Vec::from_slice(alloc, base)?;
    text.push(b'(')?;
    Ok(text)
}

/// The full name that a call with these arguments asks for.
pub fn called_name(alloc: Global, base: &[u8], args: &[Arg]) -> Result<Vec<u8>, NoMemory>
    ensures { IfOk result (λ text. text.items ≡ full_name base.now (labels_of_args (args_of args.now))) }
{
    let mut text = begin(alloc, base)?;
    for arg in args {
        push_label(&mut text, label_of_arg(arg))?;
    }
    text.push(b')')?;
    Ok(text)
}

/// The full name of what has these parameters.
pub fn declared_name(alloc: Global, base: &[u8], params: &[Param]) -> Result<Vec<u8>, NoMemory>
    ensures { IfOk result (λ text. text.items ≡ full_name base.now (labels_of_params (map param_of params.now))) }
{
    let mut text = begin(alloc, base)?;
    for param in params {
        push_label(&mut text, label_of(param))?;
    }
    text.push(b')')?;
    Ok(text)
}

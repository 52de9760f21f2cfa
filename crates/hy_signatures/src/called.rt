// What arguments call: functions of the file, predeclared functions, conversions and initialisers by name; members by the type of
// their receiver; elements and subscripts without a name.
ghost use Rattle.std.specs.Prelude.{◌≡◌, List, IfOk, Option, Some, map};
ghost use Rattle.std.specs.Option.{option_copied, option_map};
ghost use Rattle.hy_tree.specs.Denotes.{args_of};
ghost use Rattle.hy_tree.specs.Names.{labels_of_args};
ghost use Rattle.hy_tree.specs.Tree as T;
ghost use Rattle.hy_tree.specs.declared.declaration.CallableKind.TheVariants as kind;
ghost use Rattle.hy_types.specs.Types.{Table, Extends, HasId, type_of};
ghost use Rattle.hy_signatures.specs.Declarations as declarations;
ghost use Rattle.hy_signatures.specs.Declarations.{Field, bounds_at, callable_named, members_of, names_of};
ghost use Rattle.hy_signatures.specs.MembersShown.{HasFields, IsFound};
ghost use Rattle.hy_signatures.specs.OwnersShown.{AreOwners};
ghost use Rattle.hy_signatures.specs.Shown.{source_shown};
ghost use Rattle.hy_signatures.specs.Signatures as signatures;
ghost use Rattle.hy_signatures.specs.Signatures.{member_of};
ghost use Rattle.hy_signatures.specs.SignaturesShown.{IsPerhaps};
ghost use Rattle.hy_signatures.specs.TablesShown.{AreTables};
ghost use Rattle.hy_signatures.specs.declared.members.FieldType.{FieldType};

use crate::array_members::{array_member, copy_signature, element_signature};
use crate::callables::CallableTypes;
use crate::functions::function_at;
use crate::lookups::{fields, function, requirement_of, subscript};
use crate::members::FieldType;
use crate::named::{Named, built_type};
use crate::owners::Owners;
use crate::predeclared::{
    conversion_signature, initialiser_signature, precondition_signature, print_signature,
    read_signature,
};
use crate::signatures::{Receiver, Signature, declared_signature, required_signature};
use crate::source::Source;
use crate::tables::Tables;
use crate::types::Types;
use hy_base::NoMemory;
use hy_scope::called_name;
use hy_tree::predeclared::{PRECONDITION, PRINT, READ};
use hy_tree::{Arg, Meant, NameUse, TypeParam};
use hy_types::{Ty, TyId};
use std::alloc::Global;

// LABELS

/// Whether these arguments are one, without a label.
fn is_one_unlabelled(args: &[Arg]) -> bool
    ensures { result ≡ signatures.one_unlabelled (labels_of_args (args_of args.now)) }
{
    args.len() == 1 && args[0].label.is_none()
}

/// Whether the label of an argument is the name of a field.
fn is_label_of(arg: &Arg, field: &FieldType) -> bool
    ensures { result ≡ signatures.same_label arg.now.label (Some field.now.name.now.text) }
{
    match &arg.label {
        Some(label) => label.as_slice() == field.name.text.as_slice(),
        None => false,
    }
}

/// Whether the labels of these arguments are the names of these fields, in order.
fn are_labels_of(args: &[Arg], fields: &[FieldType]) -> bool
    ensures { result ≡ signatures.same_labels (labels_of_args (args_of args.now)) (map (λ (f : FieldType). Some f.name.now.text) fields.now) }
{
    if args.len() != fields.len() {
        return false;
    }
    for k in 0..args.len() {
        if !is_label_of(&args[k], &fields[k]) {
            return false;
        }
    }
    true
}

// FUNCTIONS, INITIALISERS AND CONVERSIONS

/// The memberwise initialiser of the product at a node that has these fields, where the labels are theirs.
fn initialiser_of(
    alloc: Global,
    types: &mut Types,
    node: u32,
    fields: &[FieldType],
    args: &[Arg],
) -> Result<Option<Signature>, NoMemory>
    ensures signature { IfOk result (λ s. (list : List Field) → HasFields types.old list fields.now
        → IsPerhaps types.new (signatures.when (signatures.same_labels (labels_of_args (args_of args.now)) (names_of list))
        (signatures.initialiser node list)) s) }
    ensures stays { Extends types.old types.new }
{
    if !are_labels_of(args, fields) {
        return Ok(None);
    }
    let product = types.number_named(Named::Product(node))?;
    let s = initialiser_signature(alloc, node, fields, product)?;
    Ok(Some(s))
}

/// The memberwise initialiser of the product at a node, where the labels are those of its fields.
fn initialiser_named(
    alloc: Global,
    owners: &Owners,
    types: &mut Types,
    node: u32,
    args: &[Arg],
) -> Result<Option<Signature>, NoMemory>
    ensures signature { IfOk result (λ s. (source : declarations.Source) → AreOwners types.old source owners.now
        → IsPerhaps types.new (signatures.function_named source (Meant.Product node) (labels_of_args (args_of args.now))) s) }
    ensures stays { Extends types.old types.new }
{
    match fields(owners.members_named(Named::Product(node))) {
        Some(fields) => {
            let s = initialiser_of(alloc, types, node, fields, args)?;
            Ok(s)
        }
        None => {
            let s = initialiser_of(alloc, types, node, &[], args)?;
            Ok(s)
        }
    }
}

/// The conversion to the type that a predeclared name stands for, where that is an integer type.
fn conversion_named(
    alloc: Global,
    types: &mut Types,
    number: u32,
) -> Result<Option<Signature>, NoMemory>
    ensures signature { IfOk result (λ s. IsPerhaps types.new (signatures.conversion (declarations.built_type number)) s) }
    ensures stays { Extends types.old types.new }
{
    let Some(named) = built_type(number) else {
        return Ok(None);
    };
    let id = types.number_named(named)?;
    if !types.is_integer(id) {
        return Ok(None);
    }
    let s = conversion_signature(alloc, types, id)?;
    Ok(Some(s))
}

/// A predeclared function, whose labels are right, or a conversion.
fn predeclared_named(
    alloc: Global,
    types: &mut Types,
    number: u32,
    args: &[Arg],
) -> Result<Option<Signature>, NoMemory>
    ensures signature { IfOk result (λ s. IsPerhaps types.new (signatures.predeclared_function number (labels_of_args (args_of args.now))) s) }
    ensures stays { Extends types.old types.new }
{
    if number == PRINT {
        let s = print_signature(alloc, types)?;
        return Ok(Some(s));
    }
    if number == READ {
        let s = read_signature(alloc, types)?;
        return Ok(Some(s));
    }
    if number == PRECONDITION {
        let s = precondition_signature(alloc, types)?;
        return Ok(Some(s));
    }
    if !is_one_unlabelled(args) {
        return Ok(None);
    }
    conversion_named(alloc, types, number)
}

/// What a name in front of these arguments in parentheses calls.
pub fn function_named(
    alloc: Global,
    tables: &Tables,
    types: &mut Types,
    meant: Meant,
    args: &[Arg],
) -> Result<Option<Signature>, NoMemory>
    requires { (source : declarations.Source) × AreTables types.old source tables.now }
    ensures signature { IfOk result (λ s. (source : declarations.Source) → AreTables types.old source tables.now
        → IsPerhaps types.new (signatures.function_named source meant (labels_of_args (args_of args.now))) s) }
    ensures stays { Extends types.old types.new }
{
    match meant {
        Meant::Fun(node) => {
            let s = function_at(alloc, &tables.callables, node)?;
            Ok(s)
        }
        Meant::Product(node) => {
            let s = initialiser_named(alloc, &tables.owners, types, node, args)?;
            Ok(s)
        }
        Meant::Built(number) => {
            let s = predeclared_named(alloc, types, number, args)?;
            Ok(s)
        }
        Meant::Nothing => Ok(None),
        Meant::Local(_) => Ok(None),
        Meant::SelfField(_) => Ok(None),
        Meant::Sub(_) => Ok(None),
        Meant::Param(_) => Ok(None),
        Meant::Trait(_) => Ok(None),
    }
}

/// What a name in front of arguments in brackets calls.
pub fn subscript_named(
    alloc: Global,
    tables: &Tables,
    meant: Meant,
) -> Result<Option<Signature>, NoMemory>
    requires { (table : Table) × (source : declarations.Source) × AreTables table source tables.now }
    ensures { IfOk result (λ s. (table : Table) (source : declarations.Source) → AreTables table source tables.now
        → IsPerhaps table (signatures.subscript_named source meant) s) }
{
    match meant {
        Meant::Sub(node) => {
            let s = function_at(alloc, &tables.callables, node)?;
            Ok(s)
        }
        Meant::Nothing => Ok(None),
        Meant::Local(_) => Ok(None),
        Meant::SelfField(_) => Ok(None),
        Meant::Fun(_) => Ok(None),
        Meant::Product(_) => Ok(None),
        Meant::Param(_) => Ok(None),
        Meant::Trait(_) => Ok(None),
        Meant::Built(_) => Ok(None),
    }
}

// MEMBERS

/// The signature of a member of a type, where it was found.
fn found_signature(
    alloc: Global,
    found: Option<&CallableTypes>,
) -> Result<Option<Signature>, NoMemory>
    requires { (table : Table) × (source : declarations.Source) × (wanted : Option T.Callable) × IsFound table source wanted (option_copied found) }
    ensures { IfOk result (λ s. (table : Table) (source : declarations.Source) (wanted : Option T.Callable)
        → IsFound table source wanted (option_copied found.entry) → IsPerhaps table (option_map (member_of source) wanted) s) }
{
    match found {
        Some(row) => {
            let s = declared_signature(alloc, Receiver::Itself, row)?;
            Ok(Some(s))
        }
        None => Ok(None),
    }
}

/// The bounds of the type parameter at a place.
fn bounds_of(generics: &[TypeParam], place: u32) -> &[NameUse]
    ensures { result.now ≡ bounds_at place generics.now }
{
    match generics.get(place as usize) {
        Some(p) => p.bounds.as_slice(),
        None => &[],
    }
}

/// What the bounds of a type parameter require by a full name; `id` is the number of the parameter's type.
fn required_member(
    alloc: Global,
    source: &Source,
    tables: &Tables,
    types: &Types,
    generics: &[TypeParam],
    id: TyId,
    place: u32,
    name: &[u8],
) -> Result<Option<Signature>, NoMemory>
    requires known { HasId types.now id }
    requires tables { AreTables types.now (source_shown source.now) tables.now }
    ensures { IfOk result (λ s. IsPerhaps types.now (option_map (signatures.required (source_shown source.now) (type_of types.now id) place)
        (declarations.requirement_named (source_shown source.now) name.now (bounds_at place generics.now))) s) }
{
    match requirement_of(source, &tables.traits, name, bounds_of(generics, place)) {
        Some(row) => {
            let s = required_signature(alloc, id, place, row)?;
            Ok(Some(s))
        }
        None => Ok(None),
    }
}

/// A function among the members of a type that has a full name.
fn declared_member(
    alloc: Global,
    tables: &Tables,
    types: &Types,
    id: TyId,
    name: &[u8],
) -> Result<Option<Signature>, NoMemory>
    requires known { HasId types.now id }
    requires tables { (source : declarations.Source) × AreTables types.now source tables.now }
    ensures { IfOk result (λ s. (source : declarations.Source) → AreTables types.now source tables.now
        → IsPerhaps types.now (option_map (member_of source) (callable_named kind.Function name.now (members_of source (type_of types.now id)))) s) }
{
    let s = found_signature(alloc, function(tables.owners.members(types, id), name))?;
    Ok(s)
}

/// A member that a type has by itself and that is called by a full name.
fn own_member(
    alloc: Global,
    source: &Source,
    tables: &Tables,
    types: &Types,
    generics: &[TypeParam],
    id: TyId,
    name: &[u8],
) -> Result<Option<Signature>, NoMemory>
    requires known { HasId types.now id }
    requires tables { AreTables types.now (source_shown source.now) tables.now }
    ensures { IfOk result (λ s. IsPerhaps types.now (signatures.own_member (source_shown source.now) generics.now (type_of types.now id) name.now) s) }
{
    match types.get(id) {
        Ty::Array(element) => {
            let s = array_member(alloc, types, *element, name)?;
            Ok(s)
        }
        Ty::Param(place) => {
            let s = required_member(alloc, source, tables, types, generics, id, *place, name)?;
            Ok(s)
        }
        Ty::Int | Ty::Sized(_) | Ty::Bool | Ty::Tuple(_) | Ty::Product(_) => {
            let s = declared_member(alloc, tables, types, id, name)?;
            Ok(s)
        }
    }
}

/// What `.name(..)` with these arguments calls on a value of a type, in a function with these type parameters.
pub fn method_named(
    alloc: Global,
    source: &Source,
    tables: &Tables,
    types: &Types,
    generics: &[TypeParam],
    id: TyId,
    name: &[u8],
    args: &[Arg],
) -> Result<Option<Signature>, NoMemory>
    requires known { HasId types.now id }
    requires tables { AreTables types.now (source_shown source.now) tables.now }
    ensures { IfOk result (λ s. IsPerhaps types.now (signatures.method_named (source_shown source.now) generics.now (type_of types.now id) name.now
        (labels_of_args (args_of args.now))) s) }
{
    let name = called_name(alloc, name, args)?;
    if name.as_slice() == b"copy()".as_slice() {
        let s = copy_signature(alloc, types, id)?;
        return Ok(Some(s));
    }
    let s = own_member(alloc, source, tables, types, generics, id, name.as_slice())?;
    Ok(s)
}

/// What `.name[..]` with these arguments calls on a value of a type. Without a name, the brackets stand right after the value.
pub fn subscript_of(
    alloc: Global,
    tables: &Tables,
    types: &Types,
    id: TyId,
    name: &[u8],
    args: &[Arg],
) -> Result<Option<Signature>, NoMemory>
    requires known { HasId types.now id }
    requires tables { (source : declarations.Source) × AreTables types.now source tables.now }
    ensures { IfOk result (λ s. (source : declarations.Source) → AreTables types.now source tables.now
        → IsPerhaps types.now (signatures.subscript_of source (type_of types.now id) name.now (labels_of_args (args_of args.now))) s) }
{
    let name = called_name(alloc, name, args)?;
    let found = subscript(tables.owners.members(types, id), name.as_slice());
    let s = found_signature(alloc, found)?;
    Ok(s)
}

/// What `[..]` with these arguments is after a value of a type.
pub fn indexed(
    alloc: Global,
    tables: &Tables,
    types: &Types,
    id: TyId,
    args: &[Arg],
) -> Result<Option<Signature>, NoMemory>
    requires known { HasId types.now id }
    requires tables { (source : declarations.Source) × AreTables types.now source tables.now }
    ensures { IfOk result (λ s. (source : declarations.Source) → AreTables types.now source tables.now
        → IsPerhaps types.now (signatures.indexed source (type_of types.now id) (labels_of_args (args_of args.now))) s) }
{
    match types.get(id) {
        Ty::Array(element) => {
            if !is_one_unlabelled(args) {
                return Ok(None);
            }
            let s = element_signature(alloc, types, *element)?;
            Ok(Some(s))
        }
        Ty::Int | Ty::Sized(_) | Ty::Bool | Ty::Tuple(_) | Ty::Product(_) | Ty::Param(_) => {
            let s = subscript_of(alloc, tables, types, id, b"".as_slice(), args)?;
            Ok(s)
        }
    }
}

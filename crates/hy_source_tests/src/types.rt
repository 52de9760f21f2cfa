// Worked rows: each call of a table over types that are written out here.
ghost use Rattle.std.specs.Prelude.{◌≡◌};
ghost use Rattle.hy_types.specs.Types.{HasId};

use hy_base::Num;
use hy_types::{Found, Ty, TyId, TyList, TyTable};
use std::alloc::Global;
use std::process::Abort;
use std::test::Fail;

// Each table below has a row a line. A list of numbers has commas, and a `-` stands for an empty list, and for no number.

// The types of the other tables, each with the number that it has. A type that was there keeps its number. A tuple has its
// parts, an array its element, a product the number of its declaration, and a parameter its place.
const TYPES: &str = "
int = 0
bool = 1
int = 0
tuple - = 2
tuple 0,1 = 3
tuple 1,0 = 4
tuple 0,1 = 3
array 0 = 5
param 0 = 6
param 1 = 7
product 40 = 8
product 41 = 9
product 42 = 10
product 43 = 11
product 40 = 8
tuple 6,7 = 12
array 6 = 13
tuple 6,13 = 14
tuple 0,5 = 15
tuple 8,8,5 = 16
tuple 11 = 17
array 11 = 18
tuple 6,6 = 19
tuple 0,0 = 20
array 5 = 21
tuple 2,2,0 = 22
int8 = 23
uint64 = 24
int8 = 23
tuple 23,24 = 25
array 24 = 26
";

// The parts of the products. 40 has three fields, 41 two of 40 and none of its own, 42 none, and 43 itself.
const PRODUCTS: &str = "
41 = 8,8
43 = 0,11
40 = 0,1,5
42 = -
";

// The words of the types, by their numbers.
const WORDS: &str = "
0 = 1
1 = 1
2 = 0
3 = 2
4 = 2
5 = 2
6 = -
7 = -
8 = 4
9 = 8
10 = 0
11 = -
12 = -
13 = 2
14 = -
15 = 3
16 = 10
17 = -
18 = 2
19 = -
20 = 2
21 = 2
22 = 1
23 = 1
24 = 1
25 = 2
26 = 2
";

// Pairs of the type before, from `Int` on, and from `()` on: each with its words. The last is a pair of the largest and `Int`.
const DOUBLED: &str = "
int = 1
tuple 0,0 = 2
tuple 1,1 = 4
tuple 2,2 = 8
tuple 3,3 = 16
tuple 4,4 = 32
tuple 5,5 = 64
tuple 6,6 = 128
tuple 7,7 = 256
tuple 8,8 = 512
tuple 9,9 = 1024
tuple 10,10 = 2048
tuple 11,11 = 4096
tuple 12,12 = -
tuple 12,0 = -
array 13 = 2
tuple - = 0
tuple 16,16 = 0
tuple 17,17 = 0
tuple 12,18 = 4096
";

// A type, a part of it, and the words before that part.
const OFFSETS: &str = "
3 0 = 0
3 1 = 1
8 1 = 1
8 2 = 2
9 1 = 4
16 1 = 4
16 2 = 8
15 1 = 1
22 2 = 0
";

// Two matches, one after the other: a wanted type and a given one each, whether the second match, and what is found then for
// the two parameters.
const MATCHES: &str = "
0 0, 0 0 = yes, - -
0 0, 0 1 = no, - -
0 0, 6 0 = yes, 0 -
0 0, 7 13 = yes, - 13
0 0, 12 3 = yes, 0 1
0 0, 12 0 = no, - -
0 0, 12 16 = no, - -
0 0, 13 5 = yes, 0 -
0 0, 13 21 = yes, 5 -
0 0, 14 15 = yes, 0 -
0 0, 14 3 = no, - -
0 0, 19 20 = yes, 0 -
0 0, 19 3 = no, - -
0 0, 8 9 = no, - -
0 0, 23 23 = yes, - -
0 0, 23 24 = no, - -
0 0, 0 23 = no, - -
0 0, 12 25 = yes, 23 24
0 0, 25 3 = no, - -
6 0, 6 1 = no, 0 -
6 0, 12 4 = no, 0 -
6 0, 12 3 = yes, 0 1
12 3, 14 15 = yes, 0 1
";

// A type, the types for its two parameters, and the type with these in their places.
const REPLACED: &str = "
0, 0,1 = 0
8, 0,1 = 8
6, 5,1 = 5
7, 5,1 = 1
12, 0,1 = 3
13, 0,1 = 5
14, 0,1 = 15
13, 5,1 = 21
23, 0,1 = 23
12, 23,24 = 25
";

fn read_number(word: &str) -> Result<u32, Fail> {
    Ok(word.parse::<u32>().map_err(|_| "a number is wanted")?)
}

fn read_option(word: &str) -> Result<Option<u32>, Fail> {
    if word == "-" {
        return Ok(None);
    }
    Ok(Some(read_number(word)?))
}

fn read_pair(words: &str) -> Result<(u32, u32), Fail> {
    let (first, second) = words.split_once(" ").unwrap_or((words, ""));
    Ok((read_number(first)?, read_number(second)?))
}

fn read_list(alloc: Global, words: &str) -> Result<TyList, Fail> {
    let mut items = Vec::new(alloc);
    for word in words.split(',') {
        if word != "-" {
            let at = read_number(word)?;
            items.push(TyId { at })?;
        }
    }
    Ok(TyList::from_vec(items))
}

fn read(alloc: Global, words: &str) -> Result<Ty, Fail> {
    let (kind, of) = words.split_once(" ").unwrap_or((words, ""));
    match kind {
        "int" => Ok(Ty::Int),
        "int8" => Ok(Ty::Sized(Num::I8)),
        "uint64" => Ok(Ty::Sized(Num::U64)),
        "bool" => Ok(Ty::Bool),
        "tuple" => Ok(Ty::Tuple(read_list(alloc, of)?)),
        "product" => Ok(Ty::Product(read_number(of)?)),
        "array" => {
            let at = read_number(of)?;
            Ok(Ty::Array(TyId { at }))
        }
        "param" => Ok(Ty::Param(read_number(of)?)),
        _ => Err("no such type")?,
    }
}

fn number(rt: &impl Abort, table: &TyTable, at: u32) -> TyId
    ensures { HasId table.now result }
{
    let id = TyId { at };
    assert!(rt; table.has(id));
    id
}

fn words_of(rt: &impl Abort, table: &TyTable, at: u32) -> Option<u32> {
    let id = number(rt, table, at);
    assert!(rt; table.all_declared());
    table.words(id)
}

fn offset_of(rt: &impl Abort, table: &TyTable, at: u32, part: u32) -> u32 {
    let id = number(rt, table, at);
    assert!(rt; table.all_declared());
    assert!(rt; table.words(id).is_some());
    assert!(rt; (part as usize) < table.parts_of(id).len());
    table.offset(id, part)
}

// Two matches, one after the other: whether the second matches, and what is found then for the two parameters.
fn match_both(
    rt: &impl Abort,
    alloc: Global,
    table: &TyTable,
    before: (u32, u32),
    pair: (u32, u32),
) -> Result<(bool, Option<TyId>, Option<TyId>), Fail> {
    let mut places = Found::new(alloc, 2)?;
    let wanted = number(rt, table, before.0);
    let given = number(rt, table, before.1);
    assert!(rt; table.is_below(wanted, 2));
    let _ = table.matches(wanted, given, &mut places)?;
    let next = number(rt, table, pair.0);
    let other = number(rt, table, pair.1);
    assert!(rt; table.is_below(next, 2));
    let matched = table.matches(next, other, &mut places)?;
    Ok((matched, places.at(0), places.at(1)))
}

fn replace_in(rt: &impl Abort, table: &mut TyTable, at: u32, args: &TyList) -> Result<TyId, Fail> {
    let ty = number(rt, table, at);
    assert!(rt; table.has_all(args.as_slice()));
    assert_eq!(rt; args.as_slice().len(), 2);
    assert!(rt; table.is_below(ty, 2));
    let id = table.replace(ty, args)?;
    Ok(id)
}

fn intern_in(rt: &impl Abort, table: &mut TyTable, ty: Ty) -> Result<TyId, Fail> {
    assert!(rt; table.has_parts(&ty));
    let id = table.intern(ty)?;
    Ok(id)
}

fn declare_in(
    rt: &impl Abort,
    table: &mut TyTable,
    product: u32,
    parts: TyList,
) -> Result<(), Fail> {
    assert!(rt; !table.is_declared(product));
    assert!(rt; table.has_all(parts.as_slice()));
    table.declare(product, parts)?;
    assert!(rt; table.is_declared(product));
    assert!(rt; table.has_all(table.parts(product).as_slice()));
    Ok(())
}

fn put_type(rt: &impl Abort, alloc: Global, table: &mut TyTable, row: &str) -> Result<(), Fail> {
    let Some((words, at)) = row.split_once(" = ") else {
        return Ok(());
    };
    let at = read_number(at)?;
    let ty = read(alloc, words)?;
    let id = intern_in(rt, table, ty)?;
    assert_eq!(rt; id.at, at);
    Ok(())
}

fn put_product(rt: &impl Abort, alloc: Global, table: &mut TyTable, row: &str) -> Result<(), Fail> {
    let Some((product, parts)) = row.split_once(" = ") else {
        return Ok(());
    };
    let product = read_number(product)?;
    let parts = read_list(alloc, parts)?;
    declare_in(rt, table, product, parts)
}

fn add_sample(rt: &impl Abort, alloc: Global, table: &mut TyTable) -> Result<(), Fail> {
    for row in TYPES.lines() {
        put_type(rt, alloc, table, row)?;
    }
    for row in PRODUCTS.lines() {
        put_product(rt, alloc, table, row)?;
    }
    Ok(())
}

// A table of the types above with the products declared.
fn sample(rt: &impl Abort, alloc: Global) -> Result<TyTable, Fail> {
    let mut table = TyTable::new(alloc);
    add_sample(rt, alloc, &mut table)?;
    Ok(table)
}

fn check_type(rt: &impl Abort, alloc: Global, table: &TyTable, row: &str) -> Result<(), Fail> {
    let Some((words, at)) = row.split_once(" = ") else {
        return Ok(());
    };
    let id = number(rt, table, read_number(at)?);
    let ty = read(alloc, words)?;
    assert!(rt; *table.get(id) == ty);
    Ok(())
}

#[test]
fn types_stand_once(rt: HostRuntime) -> Result<(), Fail> {
    let table = sample(&rt, rt.alloc())?;
    for row in TYPES.lines() {
        check_type(&rt, rt.alloc(), &table, row)?;
    }
    Ok(())
}

fn check_words(rt: &impl Abort, table: &TyTable, row: &str) -> Result<(), Fail> {
    let Some((at, words)) = row.split_once(" = ") else {
        return Ok(());
    };
    let at = read_number(at)?;
    let words = read_option(words)?;
    assert!(rt; words_of(rt, table, at) == words);
    Ok(())
}

fn check_offset(rt: &impl Abort, table: &TyTable, row: &str) -> Result<(), Fail> {
    let Some((part, words)) = row.split_once(" = ") else {
        return Ok(());
    };
    let (at, part) = read_pair(part)?;
    let words = read_number(words)?;
    assert!(rt; offset_of(rt, table, at, part) == words);
    Ok(())
}

fn check_sums(rt: &impl Abort, table: &TyTable) -> Result<(), Fail> {
    for row in WORDS.lines() {
        check_words(rt, table, row)?;
    }
    for row in OFFSETS.lines() {
        check_offset(rt, table, row)?;
    }
    Ok(())
}

#[test]
fn words_are_sums(rt: HostRuntime) -> Result<(), Fail> {
    let table = sample(&rt, rt.alloc())?.copy()?;
    check_sums(&rt, &table)
}

fn check_doubled(
    rt: &impl Abort,
    alloc: Global,
    table: &mut TyTable,
    row: &str,
) -> Result<(), Fail> {
    let Some((ty, words)) = row.split_once(" = ") else {
        return Ok(());
    };
    let words = read_option(words)?;
    let ty = read(alloc, ty)?;
    let id = intern_in(rt, table, ty)?;
    assert!(rt; words_of(rt, table, id.at) == words);
    Ok(())
}

#[test]
fn words_have_a_limit(rt: HostRuntime) -> Result<(), Fail> {
    let mut table = TyTable::new(rt.alloc());
    for row in DOUBLED.lines() {
        check_doubled(&rt, rt.alloc(), &mut table, row)?;
    }
    Ok(())
}

// What is found for a parameter.
fn is_found(found: Option<TyId>, word: &str) -> Result<bool, Fail> {
    let wanted = read_option(word)?;
    match (found, wanted) {
        (Some(id), Some(at)) => Ok(id.at == at),
        (found, wanted) => Ok(found.is_none() && wanted.is_none()),
    }
}

fn match_row(
    rt: &impl Abort,
    alloc: Global,
    table: &TyTable,
    pairs: &str,
) -> Result<(bool, Option<TyId>, Option<TyId>), Fail> {
    let (before, pair) = pairs.split_once(", ").unwrap_or((pairs, ""));
    let before = read_pair(before)?;
    let pair = read_pair(pair)?;
    match_both(rt, alloc, table, before, pair)
}

fn is_answer(answer: (bool, Option<TyId>, Option<TyId>), wanted: &str) -> Result<bool, Fail> {
    let (matched, found) = wanted.split_once(", ").unwrap_or((wanted, ""));
    let (first, second) = found.split_once(" ").unwrap_or((found, ""));
    let first = is_found(answer.1, first)?;
    let second = is_found(answer.2, second)?;
    Ok(answer.0 == (matched == "yes") && first && second)
}

fn check_match(rt: &impl Abort, alloc: Global, table: &TyTable, row: &str) -> Result<(), Fail> {
    let Some((pairs, wanted)) = row.split_once(" = ") else {
        return Ok(());
    };
    let answer = match_row(rt, alloc, table, pairs)?;
    assert!(rt; is_answer(answer, wanted)?);
    Ok(())
}

#[test]
fn matching_finds_types(rt: HostRuntime) -> Result<(), Fail> {
    let table = sample(&rt, rt.alloc())?;
    for row in MATCHES.lines() {
        check_match(&rt, rt.alloc(), &table, row)?;
    }
    Ok(())
}

fn check_replaced(
    rt: &impl Abort,
    alloc: Global,
    table: &mut TyTable,
    row: &str,
) -> Result<(), Fail> {
    let Some((places, replaced)) = row.split_once(" = ") else {
        return Ok(());
    };
    let (ty, args) = places.split_once(", ").unwrap_or((places, ""));
    let ty = read_number(ty)?;
    let replaced = read_number(replaced)?;
    let args = read_list(alloc, args)?;
    let id = replace_in(rt, table, ty, &args)?;
    assert!(rt; id.at == replaced);
    Ok(())
}

#[test]
fn parameters_are_replaced(rt: HostRuntime) -> Result<(), Fail> {
    let mut table = sample(&rt, rt.alloc())?;
    for row in REPLACED.lines() {
        check_replaced(&rt, rt.alloc(), &mut table, row)?;
    }
    Ok(())
}

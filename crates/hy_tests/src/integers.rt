// Worked rows of the arithmetic of integers.
use hy_base::{IntegerType, Num, Operation, TrapKind, negated_int, word_of};
use std::test::Fail;

// A type, two integers with an operation between them, and what it gives in the type.
const RESULTS: &str = "
Int 9223372036854775806 + 1 = 9223372036854775807
Int 9223372036854775807 + 1 = overflow
Int -9223372036854775808 - 1 = overflow
Int 4294967296 * 4294967296 = overflow
Int -9223372036854775808 / -1 = overflow
Int -9223372036854775808 % -1 = overflow
Int -7 / 2 = -3
Int -7 % 2 = -1
Int 7 % -2 = 1
Int 1 / 0 = divide
Int 1 % 0 = divide
Int8 100 + 27 = 127
Int8 100 + 28 = overflow
Int8 -128 - 1 = overflow
Int8 -128 / -1 = overflow
Int8 -128 % -1 = overflow
Int8 -127 % -1 = 0
Int16 -32768 % -1 = overflow
Int32 65536 * 32768 = overflow
UInt8 250 + 5 = 255
UInt8 255 + 1 = overflow
UInt8 0 - 1 = overflow
UInt16 256 * 256 = overflow
UInt32 65536 * 65536 = overflow
UInt64 9223372036854775807 * 2 = 18446744073709551614
UInt64 18446744073709551615 + 1 = overflow
UInt64 18446744073709551615 * 18446744073709551615 = overflow
UInt64 18446744073709551615 / 2 = 9223372036854775807
UInt64 0 / 0 = divide
";

// A word, a type, and the integer that the word stands for in it.
const WORDS: &str = "
-1 Int = -1
-1 Int8 = -1
255 UInt8 = 255
-1 UInt64 = 18446744073709551615
-9223372036854775808 UInt64 = 9223372036854775808
9223372036854775807 UInt64 = 9223372036854775807
";

fn read_integer(word: &str) -> Result<i128, Fail> {
    Ok(word.parse::<i128>().map_err(|_| "an integer is wanted")?)
}

fn read_type(word: &str) -> Result<IntegerType, Fail> {
    match word {
        "Int" => Ok(IntegerType::Int),
        "Int8" => Ok(IntegerType::Sized(Num::I8)),
        "Int16" => Ok(IntegerType::Sized(Num::I16)),
        "Int32" => Ok(IntegerType::Sized(Num::I32)),
        "UInt8" => Ok(IntegerType::Sized(Num::U8)),
        "UInt16" => Ok(IntegerType::Sized(Num::U16)),
        "UInt32" => Ok(IntegerType::Sized(Num::U32)),
        "UInt64" => Ok(IntegerType::Sized(Num::U64)),
        _ => Err("no such type")?,
    }
}

fn read_operation(word: &str) -> Result<Operation, Fail> {
    match word {
        "+" => Ok(Operation::Add),
        "-" => Ok(Operation::Sub),
        "*" => Ok(Operation::Mul),
        "/" => Ok(Operation::Div),
        "%" => Ok(Operation::Rem),
        _ => Err("no such operation")?,
    }
}

fn read_result(word: &str) -> Result<Result<i128, TrapKind>, Fail> {
    match word {
        "overflow" => Ok(Err(TrapKind::Overflow)),
        "divide" => Ok(Err(TrapKind::Divide)),
        _ => Ok(Ok(read_integer(word)?)),
    }
}

// What a row of results says: its type, operation and operands.
fn read_computation(words: &str) -> Result<(IntegerType, Operation, i128, i128), Fail> {
    let (ty, words) = words.split_once(" ").unwrap_or((words, ""));
    let (x, words) = words.split_once(" ").unwrap_or((words, ""));
    let (operation, y) = words.split_once(" ").unwrap_or((words, ""));
    Ok((
        read_type(ty)?,
        read_operation(operation)?,
        read_integer(x)?,
        read_integer(y)?,
    ))
}

#[test]
fn operations_stay_in_their_type(rt: HostRuntime) -> Result<(), Fail> {
    for row in RESULTS.lines() {
        if let Some((words, want)) = row.split_once(" = ") {
            let (ty, operation, x, y) = read_computation(words)?;
            let want = read_result(want)?;
            assert!(rt; ty.calculate(operation, x, y) == want);
        }
    }
    Ok(())
}

#[test]
fn operations_of_ints_are_those_of_words(rt: HostRuntime) -> Result<(), Fail> {
    assert_eq!(rt; Operation::Mul.of_ints(-3, 5), Ok(-15));
    assert_eq!(rt;
        Operation::Rem.of_ints(i64::MIN, -1),
        Err(TrapKind::Overflow)
    );
    assert_eq!(rt; Operation::Div.of_ints(7, 0), Err(TrapKind::Divide));
    assert_eq!(rt; negated_int(i64::MIN), Err(TrapKind::Overflow));
    assert_eq!(rt; negated_int(i64::MAX), Ok(-i64::MAX));
    Ok(())
}

#[test]
fn integers_have_a_range(rt: HostRuntime) -> Result<(), Fail> {
    let ty = IntegerType::Sized(Num::I8);
    assert!(rt; ty.least() == -128);
    assert!(rt; ty.greatest() == 127);
    assert!(rt; ty.has(-128));
    assert!(rt; !ty.has(128));
    assert!(rt; ty.fitting(-129) == Err(TrapKind::Overflow));
    assert!(rt; ty.negated(-128) == Err(TrapKind::Overflow));
    assert!(rt; ty.negated(-127) == Ok(127));
    Ok(())
}

#[test]
fn words_stand_for_integers(rt: HostRuntime) -> Result<(), Fail> {
    for row in WORDS.lines() {
        if let Some((words, integer)) = row.split_once(" = ") {
            let (word, ty) = words.split_once(" ").unwrap_or((words, ""));
            let ty = read_type(ty)?;
            let integer = read_integer(integer)?;
            let word = word.parse::<i64>().map_err(|_| "a word is wanted")?;
            assert!(rt; ty.of_word(word) == integer);
        }
    }
    assert_eq!(rt; word_of(18_446_744_073_709_551_615), -1);
    assert_eq!(rt; word_of(-5), -5);
    Ok(())
}

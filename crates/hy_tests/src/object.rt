// Bytes, and what they decode to: an object, whose bytes are these again, or the place where they are bad. Bytes are written
// in base 16, a row a line.
ghost use Rattle.hy_object.specs.Grammar.{IsInGrammar};

use hy_base::NoMemory;
use hy_object::{Instr, Object, ObjectFault, decode, encode};
use std::alloc::Global;
use std::test::Fail;

// Whole files.
const FILES: &str = "
48 59 4C 50 01 00 01 00 00 00 00 00 01 12 00 = 0
48 59 4C = 0
 = 0
00 = 0
48 59 4C 4F  = 4
48 59 4C 4F 02 00 01 00 00 00 00 00 01 12 00 = 4
48 59 4C 4F 00 = 4
48 59 4C 4F 01 80 00 01 00 00 00 00 00 01 12 00 = 5
48 59 4C 4F 01 00 01 00 00 00 00 00 01 0E 01 = 13
48 59 4C 4F 01 00 01 00 00 00 00 00 01 12 = 13
48 59 4C 4F 01 00 01 00 00 00 00 00 01 12 00 = object
48 59 4C 4F 01 00 01 00 00 00 00 00 01 12 00 00 = 15
48 59 4C 4F 01 00 01 00 00 00 00 00 01 12 00 48 59 = 15
48 59 4C 4F 01 00 01 00 00 00 00 00 01 0E 00 = object
48 59 4C 4F 01 00 01 00 00 00 00 01 02 18 00 12 00 = object
48 59 4C 4F 01 00 01 00 00 00 02 00 02 19 00 00 12 00 = object
48 59 4C 4F 01 00 01 00 00 00 01 01 04 16 00 00 00 01 01 01 00 00 18 00 12 00 = object
";

// What is after the magic: the fields of headers, and code.
const HEADERS: &str = "
01 00 00 = 6
01 00 80 80 80 80 10 = 6
01 00 01 01 00 00 00 01 01 12 00 = 7
01 00 01 00 01 00 01 00 01 12 00 = 8
01 00 01 00 00 01 01 00 01 12 00 = 9
01 00 01 00 00 00 80 00 01 12 00 = 10
01 00 01 00 00 00 00 00 00 = 12
01 00 01 00 00 00 01 00 01 0D 00 00 = 13
01 00 01 00 00 00 01 00 02 12 00 0D 00 00 = 15
01 00 01 00 00 00 01 00 02 12 00 0E 01 = object
01 00 02 00 00 00 00 00 01 12 00 01 02 03 02 01 01 0E 00 = object
01 00 02 00 00 00 00 00 01 12 00 01 02 03 02 01 01 12 00 = 21
01 00 02 00 00 00 00 00 01 12 00 01 02 03 01 01 01 0E 00 = 18
01 00 02 00 00 00 00 00 01 12 00 02 02 03 02 01 01 0E 00 = 19
01 00 02 00 00 00 00 00 01 12 00 01 02 03 02 01 00 = 20
01 00 02 00 00 00 00 00 01 12 00 00 00 02 03 00 01 12 01 = object
01 00 02 00 00 00 00 00 01 12 00 00 00 02 03 00 01 12 02 = 21
01 00 02 00 00 00 00 00 01 12 00 FF FF FF FF 0F 00 00 00 FF FF FF FF 0F 01 0E 00 = object
01 00 02 00 00 00 00 00 01 12 00 = 15
01 00 02 00 00 00 00 00 02 11 01 00 00 12 00 00 00 00 00 00 01 12 00 = object
01 00 02 00 00 00 00 00 02 11 02 00 00 12 00 00 00 00 00 00 01 12 00 = 13
01 00 01 00 00 00 00 00 02 0E 01 0E 01 = object
01 00 01 00 00 00 00 00 02 0E 02 0E 01 = 13
01 00 01 00 00 00 00 00 02 0E 01 0E 02 = 15
01 00 01 00 00 00 00 00 02 0E 01 = 15
01 00 01 00 00 00 00 00 FF FF FF FF 0F 0E 00 = 19
";

// The one span of an object, which begins at place 6: both counts, and their sum.
const SPANS: &str = "
00 00 = object
7F 00 = object
80 01 00 = object
FF 7F 00 = object
80 80 01 00 = object
80 20 00 = object
80 A0 00 00 = 6
80 00 00 = 6
FF 00 00 = 6
80 80 00 00 = 6
00 80 00 = 6
FF FF FF FF 0F 00 = object
80 80 80 80 10 00 = 6
FF FF FF FF 1F 00 = 6
FF FF FF FF 8F 00 00 = 6
80 80 80 80 80 01 00 = 6
00 FF FF FF FF 0F = object
01 FF FF FF FF 0F = 6
FF FF FF FF 0F 01 = 6
80 80 80 80 08 FF FF FF FF 07 = object
80 80 80 80 08 80 80 80 80 08 = 6
";

// An instruction at place 15, with one span and two functions, in a function of 2 words, 1 slot and 2 instructions: each
// field at its bound, and past it.
const RULES: &str = "
01 01 00 = object
01 02 00 = 15
02 01 05 00 00 80 20 = object
03 00 00 01 FF FF FF FF 0F 00 = object
02 02 00 00 00 00 = 15
02 00 00 02 00 00 = 15
02 00 00 00 00 81 20 = 15
03 02 00 00 00 00 = 15
03 00 00 02 00 00 = 15
03 00 00 00 00 81 20 = 15
03 00 80 80 80 80 10 00 00 00 = 15
04 01 01 01 00 = object
05 01 01 01 00 = object
06 01 01 01 00 = object
07 01 01 01 00 = object
08 01 01 01 00 = object
04 02 00 00 00 = 15
04 00 02 00 00 = 15
04 00 00 02 00 = 15
04 00 00 00 01 = 15
05 00 00 00 01 = 15
06 00 00 02 00 = 15
07 00 02 00 00 = 15
08 02 00 00 00 = 15
09 01 01 00 = object
0A 01 01 01 = object
0B 01 01 01 = object
0C 01 01 01 = object
0D 01 01 = object
09 02 00 00 = 15
09 00 02 00 = 15
09 00 00 01 = 15
0A 02 00 00 = 15
0B 00 02 00 = 15
0C 00 00 02 = 15
0D 02 00 = 15
0D 00 02 = 15
00 = 15
23 = 15
FF = 15
0E 01 = object
0F 01 01 = object
10 01 01 = object
0E 02 = 15
0F 02 00 = 15
0F 00 02 = 15
10 02 00 = 15
10 00 02 = 15
11 01 01 02 = object
11 02 00 00 = 15
11 00 02 00 = 15
11 00 00 03 = 15
12 02 = object
12 03 = 15
13 01 01 02 00 = object
13 02 00 00 00 = 15
13 00 02 00 00 = 15
13 00 00 03 00 = 15
13 00 00 00 01 = 15
14 00 = object
15 00 = object
18 00 = object
14 01 = 15
15 01 = 15
18 01 = 15
16 00 01 07 80 20 01 = object
16 01 00 00 00 00 = 15
16 00 02 00 00 00 = 15
16 00 00 00 81 20 00 = 15
16 00 00 00 00 02 = 15
17 00 01 00 01 80 20 01 00 = object
17 01 00 00 00 00 00 00 = 15
17 00 02 00 00 00 00 00 = 15
17 00 00 00 02 00 00 00 = 15
17 00 00 00 00 81 20 00 00 = 15
17 00 00 00 00 00 02 00 = 15
17 00 00 00 00 00 00 01 = 15
19 01 00 = object
1A 01 00 80 20 = object
19 02 00 = 15
1A 02 00 00 = 15
1A 00 00 81 20 = 15
1B 01 00 00 02 = object
1B 00 00 02 00 = object
1B 00 00 01 02 = 15
1B 00 00 03 00 = 15
1B 02 00 00 00 = 15
1C 01 00 01 01 00 = object
1C 00 00 01 02 00 = 15
1C 00 00 00 00 01 = 15
1C 02 00 00 00 00 = 15
1D 01 00 01 01 80 20 00 00 = object
1D 02 00 00 00 00 00 00 = 15
1D 00 00 02 00 00 00 00 = 15
1D 00 00 00 02 00 00 00 = 15
1D 00 00 00 00 81 20 00 00 = 15
1D 00 00 00 00 00 01 00 = 15
1D 00 00 00 00 00 00 01 = 15
1E 01 01 00 = object
1F 01 00 = object
1E 02 00 00 = 15
1E 00 02 00 = 15
1F 02 00 = 15
20 01 00 = object
20 01 01 = object
21 01 00 = object
22 01 00 = object
20 02 00 = 15
20 00 02 = 15
21 02 00 = 15
21 00 01 = 15
22 02 00 = 15
22 00 01 = 15
";

// Each instruction, with its fields.
const INSTRUCTIONS: &str = "
01 05 C0 00 = Const { to: 5, value: 64 }
02 01 02 03 04 05 = Copy { to: Place { base: 1, offset: 2 }, from: Place { base: 3, offset: 4 }, words: 5 }
03 01 02 03 04 05 = Move { to: Place { base: 1, offset: 2 }, from: Place { base: 3, offset: 4 }, words: 5 }
04 01 02 03 00 = Add { to: 1, a: 2, b: 3, span: 0 }
05 01 02 03 00 = Sub { to: 1, a: 2, b: 3, span: 0 }
06 01 02 03 00 = Mul { to: 1, a: 2, b: 3, span: 0 }
07 01 02 03 00 = Div { to: 1, a: 2, b: 3, span: 0 }
08 01 02 03 00 = Rem { to: 1, a: 2, b: 3, span: 0 }
09 01 02 00 = Neg { to: 1, a: 2, span: 0 }
0A 01 02 03 = Eq { to: 1, a: 2, b: 3 }
0B 01 02 03 = Lt { to: 1, a: 2, b: 3 }
0C 01 02 03 = Le { to: 1, a: 2, b: 3 }
0D 01 02 = Not { to: 1, a: 2 }
0E 01 = Jump { target: 1 }
0F 05 01 = JumpIf { word: 5, target: 1 }
10 05 01 = JumpUnless { word: 5, target: 1 }
11 00 02 03 = Call { fun: 0, slot: 2, word: 3 }
12 05 = Return { word: 5 }
13 00 02 03 04 = Project { fun: 0, slot: 2, word: 3, into: 4 }
14 05 = Yield { slot: 5 }
15 05 = Slide { slot: 5 }
16 01 02 03 04 00 = Lend { slot: 1, place: Place { base: 2, offset: 3 }, words: 4, way: Read }
17 01 02 03 04 05 01 00 = Elem { slot: 1, array: Place { base: 2, offset: 3 }, index: 4, width: 5, way: Write, span: 0 }
18 05 = Close { slot: 5 }
19 01 02 = NewArray { array: Place { base: 1, offset: 2 } }
1A 01 02 03 = Grow { array: Place { base: 1, offset: 2 }, width: 3 }
1B 01 02 03 04 = Push { array: Place { base: 1, offset: 2 }, word: 3, width: 4 }
1C 01 02 03 04 00 = Pop { array: Place { base: 1, offset: 2 }, word: 3, width: 4, span: 0 }
1D 01 02 03 04 05 00 01 = Swap { array: Place { base: 1, offset: 2 }, i: 3, j: 4, width: 5, span_i: 0, span_j: 1 }
1E 01 02 03 = Count { to: 1, array: Place { base: 2, offset: 3 } }
1F 01 02 = FreeArray { array: Place { base: 1, offset: 2 } }
20 05 00 = Print { word: 5, shown: Int }
20 05 01 = Print { word: 5, shown: Bool }
21 05 00 = Read { to: 5, span: 0 }
22 05 01 = Check { word: 5, span: 1 }
";

// Numbers of an instruction at place 17: counts in a `Copy`, and values in a `Const`.
const NUMBERS: &str = "
02 01 02 03 04 80 20 = Copy { to: Place { base: 1, offset: 2 }, from: Place { base: 3, offset: 4 }, words: 4096 }
02 01 80 20 03 04 05 = Copy { to: Place { base: 1, offset: 4096 }, from: Place { base: 3, offset: 4 }, words: 5 }
02 01 FF FF FF FF 0F 03 7F 05 = Copy { to: Place { base: 1, offset: 4294967295 }, from: Place { base: 3, offset: 127 }, words: 5 }
02 01 02 03 04 80 A0 00 = 17
02 01 02 03 04 80 A0 80 00 = 17
02 01 80 A0 00 03 04 05 = 17
02 01 80 80 80 80 10 03 04 05 = 17
02 01 FF FF FF FF 8F 00 03 04 05 = 17
01 00 00 = Const { to: 0, value: 0 }
01 00 3F = Const { to: 0, value: 63 }
01 00 40 = Const { to: 0, value: -64 }
01 00 7F = Const { to: 0, value: -1 }
01 00 C0 00 = Const { to: 0, value: 64 }
01 00 BF 7F = Const { to: 0, value: -65 }
01 00 80 7F = Const { to: 0, value: -128 }
01 00 FF 00 = Const { to: 0, value: 127 }
01 00 80 01 = Const { to: 0, value: 128 }
01 00 FF FF FF FF FF FF FF FF FF 00 = Const { to: 0, value: 9223372036854775807 }
01 00 80 80 80 80 80 80 80 80 80 7F = Const { to: 0, value: -9223372036854775808 }
01 00 80 00 = 17
01 00 FF 7F = 17
01 00 BF 00 = 17
01 00 C0 7F = 17
01 00 80 80 00 = 17
01 00 FF FF 7F = 17
01 00 FF FF FF FF FF FF FF FF FF 01 = 17
01 00 80 80 80 80 80 80 80 80 80 7E = 17
01 00 80 80 80 80 80 80 80 80 80 80 7F = 17
01 00 80 80 80 80 80 80 80 80 80 80 00 = 17
";

// The object that is cut off: how many of its bytes are left, by the line, and the place where it is bad.
const CUT: &str = "
0
0
0
0
4
5
6
6
6
9
9
9
9
13
14
15
16
17
17
19
20
21
21
21
21
25
25
27
28
29
30
31
32
33
33
33
33
33
33
39
39
object
";

fn digit(c: u8) -> Option<u8> {
    match c {
        b'0'..=b'9' => Some(c - b'0'),
        b'A'..=b'F' => Some(c - b'A' + 10),
        _ => None,
    }
}

fn put_bytes(out: &mut Vec<u8>, text: &str) -> Result<(), NoMemory> {
    let mut half: Option<u8> = None;
    for c in text.bytes() {
        if let Some(low) = digit(c) {
            half = match half {
                None => Some(low),
                Some(high) => {
                    out.push(high.wrapping_mul(16).wrapping_add(low))?;
                    None
                }
            };
        }
    }
    Ok(())
}

fn bytes_of(alloc: Global, parts: [&str; 3]) -> Result<Vec<u8>, NoMemory> {
    let mut bytes = Vec::new(alloc);
    for part in parts {
        put_bytes(&mut bytes, part)?;
    }
    Ok(bytes)
}

fn first_instr(object: &Object) -> Option<Instr> {
    object.funs.get(0)?.code.get(0).copied()
}

// `object`, or its first instruction where that is wanted, or the place where the bytes are bad.
fn shown(alloc: Global, bytes: &[u8], instr: bool) -> Result<String, NoMemory> {
    match decode(alloc, bytes) {
        Ok(object) => shown_object(alloc, &object, bytes, instr),
        Err(ObjectFault::Bad(place)) => Ok(format!(in alloc; "{place}")?),
        Err(ObjectFault::NoMemory) => Err(NoMemory),
    }
}

fn shown_object(
    alloc: Global,
    object: &Object,
    bytes: &[u8],
    instr: bool,
) -> Result<String, NoMemory>
    requires { IsInGrammar object.now }
{
    if encode(alloc, object)?.as_slice() != bytes {
        return Ok(String::from_str(alloc, "other bytes")?);
    }
    match first_instr(object) {
        Some(first) if instr => Ok(format!(in alloc; "{first:?}")?),
        _ => Ok(String::from_str(alloc, "object")?),
    }
}

// Rows, with the bytes before and after each.
#[derive(Clone, Copy)]
struct Table {
    before: &'static str,
    rows: &'static str,
    behind: &'static str,
    // Whether the first instruction is shown.
    instr: bool,
}

// The first row that shows something else, with that, or nothing where none does.
fn first_wrong(alloc: Global, table: &Table) -> Result<String, NoMemory> {
    for row in table.rows.lines() {
        if let Some((text, wanted)) = row.split_once(" = ") {
            let bytes = bytes_of(alloc, [table.before, text, table.behind])?;
            let found = shown(alloc, bytes.as_slice(), table.instr)?;
            if found.as_str() != wanted {
                return Ok(format!(in alloc; "{text} = {found}")?);
            }
        }
    }
    Ok(String::new(alloc))
}

#[test]
fn rows(rt: HostRuntime) -> Result<(), Fail> {
    let tables = [
        Table {
            before: "",
            rows: FILES,
            behind: "",
            instr: false,
        },
        Table {
            before: "48 59 4C 4F",
            rows: HEADERS,
            behind: "",
            instr: false,
        },
        Table {
            before: "48 59 4C 4F 01 01",
            rows: SPANS,
            behind: "01 00 00 00 00 00 01 12 00",
            instr: false,
        },
        Table {
            before: "48 59 4C 4F 01 01 00 00 02 00 00 00 02 01 02",
            rows: RULES,
            behind: "12 00 00 00 00 01 01 01 12 00",
            instr: false,
        },
        Table {
            before: "48 59 4C 4F 01 02 00 00 01 01 01 00 00 00 08 08 02",
            rows: INSTRUCTIONS,
            behind: "12 00",
            instr: true,
        },
        Table {
            before: "48 59 4C 4F 01 02 00 00 01 01 01 00 00 00 08 08 02",
            rows: NUMBERS,
            behind: "12 00",
            instr: true,
        },
    ];
    for table in tables {
        let wrong = first_wrong(rt.alloc(), &table)?;
        assert_eq!(rt; wrong.as_str(), "");
    }
    Ok(())
}

#[test]
fn cut_off(rt: HostRuntime) -> Result<(), Fail> {
    let mut bytes = Vec::new(rt.alloc());
    put_bytes(
        &mut bytes,
        "48 59 4C 4F 01 02 80 01 07 FF 7F 80 01 02 00 00 00 80 01 05 02 01 7F 80 7F 12 00",
    )?;
    put_bytes(&mut bytes, "03 01 02 04 05 02 1B 01 FF 01 02 02 0E 01")?;
    for (left, wanted) in CUT.trim().lines().enumerate() {
        let front = bytes.as_slice().get(..left).unwrap_or(b"");
        let found = shown(rt.alloc(), front, false)?;
        assert_eq!(rt; found.as_str(), wanted, "at {left}");
    }
    Ok(())
}

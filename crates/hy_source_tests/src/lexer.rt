// The tokens of texts. Each row has a text, in which `~` stands for a line feed, and its tokens, each with its place, and a star
// where it is the first on its line.
use crate::rows::{push_if_wrong, source_of};
use hy_base::Fault;
use hy_lexer::{Token, TokenKind, lex};
use std::alloc::{AllocError, Global};
use std::test::Fail;

fn kind_text(alloc: Global, kind: &TokenKind) -> Result<String, AllocError> {
    match kind {
        TokenKind::Name(name) => match str::from_utf8(name.as_slice()) {
            Ok(text) => format!(in alloc; "'{text}'"),
            Err(_) => String::from_str(alloc, "?"),
        },
        TokenKind::Number(value) => format!(in alloc; "{value}"),
        _ => format!(in alloc; "{kind:?}"),
    }
}

fn push_token(text: &mut String, alloc: Global, token: &Token) -> Result<(), AllocError> {
    let kind = kind_text(alloc, &token.kind)?;
    let from = token.span.from;
    let to = token.span.to;
    let star = if token.first { "*" } else { "" };
    let one = format!(in alloc; "{kind} {from}-{to}{star}")?;
    text.push_str(one.as_str())
}

fn tokens_text(alloc: Global, tokens: &[Token]) -> Result<String, AllocError> {
    let mut text = String::new(alloc);
    for token in tokens {
        if !text.is_empty() {
            text.push_str("; ")?;
        }
        push_token(&mut text, alloc, token)?;
    }
    text.push_str(".")?;
    Ok(text)
}

fn tokens_of(alloc: Global, source: &[u8]) -> Result<Vec<Token>, Fault> {
    if source.len() > 1_048_576 {
        return Err(Fault::NoMemory);
    }
    lex(alloc, source)
}

fn shown(alloc: Global, source: &[u8]) -> Result<String, AllocError> {
    match tokens_of(alloc, source) {
        Ok(tokens) => tokens_text(alloc, tokens.as_slice()),
        Err(_) => String::from_str(alloc, "refused"),
    }
}

fn push_row(wrong: &mut String, alloc: Global, row: &str) -> Result<(), AllocError> {
    let Some((text, wanted)) = row.split_once(" => ") else {
        return Ok(());
    };
    let source = source_of(alloc, text)?;
    let found = shown(alloc, source.as_slice())?;
    push_if_wrong(wrong, row, found.as_str(), wanted)
}

const ROWS: &str = "
let var inout sink set yielded => Let 0-3*; Var 4-7; Inout 8-13; Sink 14-18; Set 19-22; Yielded 23-30.
fun subscript type trait conformance => Fun 0-3*; Subscript 4-13; Type 14-18; Trait 19-24; Conformance 25-36.
public memberwise init deinit => Public 0-6*; Memberwise 7-17; Init 18-22; Deinit 23-29.
if else while for in return => If 0-2*; Else 3-7; While 8-13; For 14-17; In 18-20; Return 21-27.
break continue yield true false => Break 0-5*; Continue 6-14; Yield 15-20; True 21-25; False 26-31.
self Self Array _ => SelfValue 0-4*; SelfType 5-9; Array 10-15; Underscore 16-17.
()[]{} => LeftParen 0-1*; RightParen 1-2; LeftBracket 2-3; RightBracket 3-4; LeftBrace 4-5; RightBrace 5-6.
< > <= >= == != => Less 0-1*; Greater 2-3; LessEqual 4-6; GreaterEqual 7-9; EqualEqual 10-12; NotEqual 13-15.
&& || + - * / % => AndAnd 0-2*; OrOr 3-5; Plus 6-7; Minus 8-9; Star 10-11; Slash 12-13; Percent 14-15.
! & = += -= *= /= %= => Not 0-1*; Ampersand 2-3; Equal 4-5; PlusEqual 6-8; MinusEqual 9-11; StarEqual 12-14; SlashEqual 15-17; PercentEqual 18-20.
. , : ; -> => Dot 0-1*; Comma 2-3; Colon 4-5; Semicolon 6-7; Arrow 8-10.
 => .
<=>= => LessEqual 0-2*; GreaterEqual 2-4.
=== => EqualEqual 0-2*; Equal 2-3.
->- => Arrow 0-2*; Minus 2-3.
&&& => AndAnd 0-2*; Ampersand 2-3.
letx => 'letx' 0-4*.
let_ _x __ => 'let_' 0-4*; '_x' 5-7; '__' 8-10.
x1y _1 => 'x1y' 0-3*; '_1' 4-6.
1x => 1 0-1*; 'x' 1-2.
1_000 7_ => 1000 0-5*; 7 6-8.
0 007 9223372036854775807 => 0 0-1*; 7 2-5; 9223372036854775807 6-25.
a/*b*/c => 'a' 0-1*; 'c' 6-7.
a//b => 'a' 0-1*.
// => .
/**/ => .
/*/**/*/x => 'x' 8-9*.
/*/ */x => 'x' 6-7*.
a/ *b => 'a' 0-1*; Slash 1-2; Star 3-4; 'b' 4-5.
größe => 'größe' 0-7*.
имя => 'имя' 0-6*.
变量 x => '变量' 0-6*; 'x' 7-8.
e\u{301}1 => 'e\u{301}1' 0-4*.
aé+é => 'aé' 0-3*; Plus 3-4; 'é' 4-6.
 \t\r~x => 'x' 4-5*.
a~b c => 'a' 0-1*; 'b' 2-3*; 'c' 4-5.
a\rb => 'a' 0-1*; 'b' 2-3.
a/* */b => 'a' 0-1*; 'b' 6-7.
a/*~*/b => 'a' 0-1*; 'b' 6-7*.
a/*~*/ b/**/c => 'a' 0-1*; 'b' 7-8*; 'c' 12-13.
a//~b => 'a' 0-1*; 'b' 4-5*.
/* */ x => 'x' 6-7*.
";

#[test]
fn tokens_of_texts(rt: HostRuntime) -> Result<(), Fail> {
    let mut wrong = String::new(rt.alloc());
    for row in ROWS.lines() {
        push_row(&mut wrong, rt.alloc(), row)?;
    }
    assert_eq!(rt; wrong.as_str(), "");
    Ok(())
}

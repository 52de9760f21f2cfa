// The forms of instructions, by how many counts they have.
ghost use Rattle.std.specs.Prelude.{◌≡◌, length};
ghost use Rattle.hy_object.specs.Reading.{Finds, read_const, read_form, read_instr, form_at, one_of, two_of, three_of, four_of, five_of, seven_of, way_at};
ghost use Rattle.hy_object.specs.Reading.{shown_at};

use crate::instr::{Instr, Place, Shown, Way};
use crate::number::{count, row, value};
use sqlite_items::at;

/// The instruction that some bytes begin with, and what follows it.
#[tactic(auto, unfolding(crate::specs::Reading::read_instr))]
pub fn instruction(bytes: &[u8]) -> Option<(Instr, &[u8])>
    ensures { Finds (λ x. (x.0, x.1.now)) result (read_instr bytes.now) }
{
    let Some((number, rest)) = bytes.split_first() else {
        return None;
    };
    let Some(form) = Form::at(*number) else {
        return None;
    };
    form.read(rest)
}

fn read_const(bytes: &[u8]) -> Option<(Instr, &[u8])>
    ensures { Finds (λ x. (x.0, x.1.now)) result (read_const bytes.now) }
{
    let (to, rest) = count(bytes)?;
    let (value, rest) = value(rest)?;
    Some((Instr::Const { to, value }, rest))
}

/// What comes after the number of an instruction.
#[derive(Clone, Copy)]
pub enum Form {
    /// A count and a value.
    Const,
    One(One),
    Two(Two),
    Three(Three),
    Four(Four),
    Five(Five),
    Seven(Seven),
}

#[derive(Clone, Copy)]
pub enum One {
    Jump,
    Return,
    Yield,
    Slide,
    Close,
}

#[derive(Clone, Copy)]
pub enum Two {
    Not,
    JumpIf,
    JumpUnless,
    NewArray,
    FreeArray,
    Print,
    Read,
    Check,
}

#[derive(Clone, Copy)]
pub enum Three {
    Neg,
    Eq,
    Lt,
    Le,
    Call,
    Grow,
    Count,
}

#[derive(Clone, Copy)]
pub enum Four {
    Add,
    Sub,
    Mul,
    Div,
    Rem,
    Project,
    Push,
}

#[derive(Clone, Copy)]
pub enum Five {
    Copy,
    Move,
    Lend,
    Pop,
}

#[derive(Clone, Copy)]
pub enum Seven {
    Elem,
    Swap,
}

/// The forms of the instructions 1 to 34.
const FORMS: [Form; 34] = [
    Form::Const,
    Form::Five(Five::Copy),
    Form::Five(Five::Move),
    Form::Four(Four::Add),
    Form::Four(Four::Sub),
    Form::Four(Four::Mul),
    Form::Four(Four::Div),
    Form::Four(Four::Rem),
    Form::Three(Three::Neg),
    Form::Three(Three::Eq),
    Form::Three(Three::Lt),
    Form::Three(Three::Le),
    Form::Two(Two::Not),
    Form::One(One::Jump),
    Form::Two(Two::JumpIf),
    Form::Two(Two::JumpUnless),
    Form::Three(Three::Call),
    Form::One(One::Return),
    Form::Four(Four::Project),
    Form::One(One::Yield),
    Form::One(One::Slide),
    Form::Five(Five::Lend),
    Form::Seven(Seven::Elem),
    Form::One(One::Close),
    Form::Two(Two::NewArray),
    Form::Three(Three::Grow),
    Form::Four(Four::Push),
    Form::Five(Five::Pop),
    Form::Seven(Seven::Swap),
    Form::Three(Three::Count),
    Form::Two(Two::FreeArray),
    Form::Two(Two::Print),
    Form::Two(Two::Read),
    Form::Two(Two::Check),
];

impl Form {
    /// The form of the instruction with that number.
    pub fn at(number: u8) -> Option<Form>
        ensures { result ≡ form_at number }
    {
        if number == 0 {
            return None;
        }
        at(&FORMS, number as usize - 1).copied()
    }

    /// The instruction of that form, whose fields come first, and what follows it.
    fn read(self, bytes: &[u8]) -> Option<(Instr, &[u8])>
        ensures { Finds (λ x. (x.0, x.1.now)) result (read_form (Some self) bytes.now) }
    {
        match self {
            Form::Const => read_const(bytes),
            Form::One(form) => {
                let (row, rest) = row(bytes)?;
                Some((form.instr(row), rest))
            }
            Form::Two(form) => {
                let (row, rest) = row(bytes)?;
                Some((form.instr(row)?, rest))
            }
            Form::Three(form) => {
                let (row, rest) = row(bytes)?;
                Some((form.instr(row), rest))
            }
            Form::Four(form) => {
                let (row, rest) = row(bytes)?;
                Some((form.instr(row), rest))
            }
            Form::Five(form) => {
                let (row, rest) = row(bytes)?;
                Some((form.instr(row)?, rest))
            }
            Form::Seven(form) => {
                let (row, rest) = row(bytes)?;
                Some((form.instr(row)?, rest))
            }
        }
    }
}

impl One {
    /// The instruction of these counts.
    pub fn instr(self, row: [u32; 1]) -> Instr
        ensures { result ≡ one_of self row }
    {
        let [n] = row;
        match self {
            One::Jump => Instr::Jump { target: n },
            One::Return => Instr::Return { word: n },
            One::Yield => Instr::Yield { slot: n },
            One::Slide => Instr::Slide { slot: n },
            One::Close => Instr::Close { slot: n },
        }
    }
}

impl Two {
    /// The instruction of these counts.
    pub fn instr(self, row: [u32; 2]) -> Option<Instr>
        ensures { result ≡ two_of self row }
    {
        let [a, b] = row;
        let array = Place { base: a, offset: b };
        Some(match self {
            Two::Not => Instr::Not { to: a, a: b },
            Two::JumpIf => Instr::JumpIf { word: a, target: b },
            Two::JumpUnless => Instr::JumpUnless { word: a, target: b },
            Two::NewArray => Instr::NewArray { array },
            Two::FreeArray => Instr::FreeArray { array },
            Two::Print => Instr::Print {
                word: a,
                shown: shown(b)?,
            },
            Two::Read => Instr::Read { to: a, span: b },
            Two::Check => Instr::Check { word: a, span: b },
        })
    }
}

impl Three {
    /// The instruction of these counts.
    pub fn instr(self, row: [u32; 3]) -> Instr
        ensures { result ≡ three_of self row }
    {
        let [a, b, c] = row;
        match self {
            Three::Neg => Instr::Neg {
                to: a,
                a: b,
                span: c,
            },
            Three::Eq => Instr::Eq { to: a, a: b, b: c },
            Three::Lt => Instr::Lt { to: a, a: b, b: c },
            Three::Le => Instr::Le { to: a, a: b, b: c },
            Three::Call => Instr::Call {
                fun: a,
                slot: b,
                word: c,
            },
            Three::Grow => Instr::Grow {
                array: Place { base: a, offset: b },
                width: c,
            },
            Three::Count => Instr::Count {
                to: a,
                array: Place { base: b, offset: c },
            },
        }
    }
}

impl Four {
    /// The instruction of these counts.
    pub fn instr(self, row: [u32; 4]) -> Instr
        ensures { result ≡ four_of self row }
    {
        let [first, second, third, fourth] = row;
        let (to, a, b, span) = (first, second, third, fourth);
        match self {
            Four::Add => Instr::Add { to, a, b, span },
            Four::Sub => Instr::Sub { to, a, b, span },
            Four::Mul => Instr::Mul { to, a, b, span },
            Four::Div => Instr::Div { to, a, b, span },
            Four::Rem => Instr::Rem { to, a, b, span },
            Four::Project => Instr::Project {
                fun: first,
                slot: second,
                word: third,
                into: fourth,
            },
            Four::Push => Instr::Push {
                array: Place {
                    base: first,
                    offset: second,
                },
                word: third,
                width: fourth,
            },
        }
    }
}

impl Five {
    /// The instruction of these counts.
    pub fn instr(self, row: [u32; 5]) -> Option<Instr>
        ensures { result ≡ five_of self row }
    {
        let [a, b, c, d, e] = row;
        let to = Place { base: a, offset: b };
        let from = Place { base: c, offset: d };
        Some(match self {
            Five::Copy => Instr::Copy { to, from, words: e },
            Five::Move => Instr::Move { to, from, words: e },
            Five::Lend => Instr::Lend {
                slot: a,
                place: Place { base: b, offset: c },
                words: d,
                way: way(e)?,
            },
            Five::Pop => Instr::Pop {
                array: to,
                word: c,
                width: d,
                span: e,
            },
        })
    }
}

impl Seven {
    /// The instruction of these counts.
    pub fn instr(self, row: [u32; 7]) -> Option<Instr>
        ensures { result ≡ seven_of self row }
    {
        let [a, b, c, d, e, f, g] = row;
        Some(match self {
            Seven::Elem => Instr::Elem {
                slot: a,
                array: Place { base: b, offset: c },
                index: d,
                width: e,
                way: way(f)?,
                span: g,
            },
            Seven::Swap => Instr::Swap {
                array: Place { base: a, offset: b },
                i: c,
                j: d,
                width: e,
                span_i: f,
                span_j: g,
            },
        })
    }
}

fn way(n: u32) -> Option<Way>
    ensures { result ≡ way_at n }
{
    match n {
        0 => Some(Way::Read),
        1 => Some(Way::Write),
        _ => None,
    }
}

fn shown(n: u32) -> Option<Shown>
    ensures { result ≡ shown_at n }
{
    match n {
        0 => Some(Shown::Int),
        1 => Some(Shown::Bool),
        _ => None,
    }
}

// Which instructions a function may have.
ghost use Rattle.std.specs.Prelude.{◌≡◌, ◌+◌, ◌&&◌, nat_le, nat_lt};
ghost use Rattle.hy_object.specs.Allowed.{allows, may_stand};

use crate::instr::{Instr, Place};

/// How many of each thing an instruction of a function may name.
#[derive(Clone, Copy)]
pub struct Bounds {
    pub spans: u32,
    pub funs: u32,
    /// How many words the function's result has.
    pub result: u32,
    pub words: u32,
    pub slots: u32,
    /// How many instructions the function's code has.
    pub places: u32,
}

/// The largest number of words that one instruction moves.
const MOST_WORDS: u32 = 4096;

impl Bounds {
    /// Whether each field of the instruction keeps its rule in `docs/OBJECT.md`.
    pub fn allows(&self, instr: Instr) -> bool
        ensures { result ≡ allows self.now instr }
    {
        match instr {
            Instr::Const { to, value: _ } => self.word(to),
            Instr::Copy { to, from, words } => self.place(to) && self.place(from) && is_size(words),
            Instr::Move { to, from, words } => self.place(to) && self.place(from) && is_size(words),
            Instr::Add { to, a, b, span } => self.words(to, a, b) && self.span(span),
            Instr::Sub { to, a, b, span } => self.words(to, a, b) && self.span(span),
            Instr::Mul { to, a, b, span } => self.words(to, a, b) && self.span(span),
            Instr::Div { to, a, b, span } => self.words(to, a, b) && self.span(span),
            Instr::Rem { to, a, b, span } => self.words(to, a, b) && self.span(span),
            Instr::Neg { to, a, span } => self.word(to) && self.word(a) && self.span(span),
            Instr::Eq { to, a, b } => self.words(to, a, b),
            Instr::Lt { to, a, b } => self.words(to, a, b),
            Instr::Le { to, a, b } => self.words(to, a, b),
            Instr::Not { to, a } => self.word(to) && self.word(a),
            Instr::Jump { target } => self.target(target),
            Instr::JumpIf { word, target } => self.word(word) && self.target(target),
            Instr::JumpUnless { word, target } => self.word(word) && self.target(target),
            Instr::Call { fun, slot, word } => self.call(fun, slot, word),
            Instr::Return { word } => self.own(word, self.result),
            Instr::Project {
                fun,
                slot,
                word,
                into,
            } => self.call(fun, slot, word) && self.slot(into),
            Instr::Yield { slot } => self.slot(slot),
            Instr::Slide { slot } => self.slot(slot),
            Instr::Lend {
                slot,
                place,
                words,
                way: _,
            } => self.slot(slot) && self.place(place) && is_size(words),
            Instr::Elem {
                slot,
                array,
                index,
                width,
                way: _,
                span,
            } => {
                self.slot(slot)
                    && self.place(array)
                    && self.word(index)
                    && is_size(width)
                    && self.span(span)
            }
            Instr::Close { slot } => self.slot(slot),
            Instr::NewArray { array } => self.place(array),
            Instr::Grow { array, width } => self.place(array) && is_size(width),
            Instr::Push { array, word, width } => self.place(array)
                && self.own(word, width)
                && is_size(width),
            Instr::Pop {
                array,
                word,
                width,
                span,
            } => self.place(array) && self.own(word, width) && is_size(width) && self.span(span),
            Instr::Swap {
                array,
                i,
                j,
                width,
                span_i,
                span_j,
            } => {
                self.place(array)
                    && self.word(i)
                    && self.word(j)
                    && is_size(width)
                    && self.span(span_i)
                    && self.span(span_j)
            }
            Instr::Count { to, array } => self.word(to) && self.place(array),
            Instr::FreeArray { array } => self.place(array),
            Instr::Print { word, shown: _ } => self.word(word),
            Instr::Read { to, span } => self.word(to) && self.span(span),
            Instr::Check { word, span } => self.word(word) && self.span(span),
        }
    }

    fn own(&self, word: u32, words: u32) -> bool
        ensures { result ≡ nat_le (word + words) self.now.words }
    {
        word as u64 + words as u64 <= self.words as u64
    }

    fn word(&self, word: u32) -> bool
        ensures { result ≡ nat_le (word + 1) self.now.words }
    {
        self.own(word, 1)
    }

    fn words(&self, to: u32, a: u32, b: u32) -> bool
        ensures { result ≡ nat_le (to + 1) self.now.words && nat_le (a + 1) self.now.words && nat_le (b + 1) self.now.words }
    {
        self.word(to) && self.word(a) && self.word(b)
    }

    fn place(&self, place: Place) -> bool
        ensures { result ≡ nat_le place.base self.now.slots }
    {
        place.base <= self.slots
    }

    fn slot(&self, slot: u32) -> bool
        ensures { result ≡ nat_lt slot self.now.slots }
    {
        slot < self.slots
    }

    fn span(&self, span: u32) -> bool
        ensures { result ≡ nat_lt span self.now.spans }
    {
        span < self.spans
    }

    fn target(&self, target: u32) -> bool
        ensures { result ≡ nat_lt target self.now.places }
    {
        target < self.places
    }

    fn call(&self, fun: u32, slot: u32, word: u32) -> bool
        ensures { result ≡ nat_lt fun self.now.funs && nat_le slot self.now.slots && nat_le word self.now.words }
    {
        fun < self.funs && slot <= self.slots && word <= self.words
    }
}

fn is_size(words: u32) -> bool
    ensures { result ≡ nat_le words 4096 }
{
    words <= MOST_WORDS
}

/// Whether the instruction may be the one with so many after it: the last one does not go on to a next.
pub fn may_stand(instr: Instr, behind: u32) -> bool
    ensures { result ≡ may_stand behind instr }
{
    behind > 0 || matches!(instr, Instr::Jump { .. } | Instr::Return { .. })
}

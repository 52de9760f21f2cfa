/// Where words are reached: in the own frame where the base is 0, and else through the access in slot `base - 1`.
#[derive(Clone, Copy, Debug, PartialEq, Eq)]
pub struct Place {
    /// 0, or one more than a slot.
    pub base: u32,
    /// The first word, counted from the start of the frame or of the access.
    pub offset: u32,
}

/// For what an access is opened.
#[derive(Clone, Copy, Debug, PartialEq, Eq)]
pub enum Way {
    Read,
    Write,
}

/// What a word is printed as.
#[derive(Clone, Copy, Debug, PartialEq, Eq)]
pub enum Shown {
    Int,
    /// `false` for 0, and else `true`.
    Bool,
}

/// An instruction. `docs/OBJECT.md` has its number, its bytes, what it does, and the rules that its fields keep.
///
/// `to`, `a`, `b`, `i`, `j`, `word` and `index` are words of the own frame, `slot` and `into` slots, `span` a place in the
/// object's spans, `fun` one in its functions, and `target` one in the code. `words` is how many words are meant, `width`
/// how many an element of the array has. An `array` is the place of its two cells: the name of its block, and its count.
#[derive(Clone, Copy, Debug)]
pub enum Instr {
    /// Stores the value.
    Const {
        to: u32,
        value: i64,
    },
    /// Copies plain words.
    Copy {
        to: Place,
        from: Place,
        words: u32,
    },
    /// Moves cells; where they were is unset.
    Move {
        to: Place,
        from: Place,
        words: u32,
    },
    /// Stores the sum; traps Overflow.
    Add {
        to: u32,
        a: u32,
        b: u32,
        span: u32,
    },
    /// Stores the difference; traps Overflow.
    Sub {
        to: u32,
        a: u32,
        b: u32,
        span: u32,
    },
    /// Stores the product; traps Overflow.
    Mul {
        to: u32,
        a: u32,
        b: u32,
        span: u32,
    },
    /// Stores the quotient; traps Divide and Overflow.
    Div {
        to: u32,
        a: u32,
        b: u32,
        span: u32,
    },
    /// Stores the remainder; traps Divide and Overflow.
    Rem {
        to: u32,
        a: u32,
        b: u32,
        span: u32,
    },
    /// Stores the negation; traps Overflow.
    Neg {
        to: u32,
        a: u32,
        span: u32,
    },
    /// Stores 1 where both words are equal, else 0.
    Eq {
        to: u32,
        a: u32,
        b: u32,
    },
    /// Stores 1 where the first word is less, else 0.
    Lt {
        to: u32,
        a: u32,
        b: u32,
    },
    /// Stores 1 where the first word is at most the second, else 0.
    Le {
        to: u32,
        a: u32,
        b: u32,
    },
    /// Stores 1 where the word is 0, else 0.
    Not {
        to: u32,
        a: u32,
    },
    /// Goes on at the target.
    Jump {
        target: u32,
    },
    /// Goes on at the target where the word is not 0.
    JumpIf {
        word: u32,
        target: u32,
    },
    /// Goes on at the target where the word is 0.
    JumpUnless {
        word: u32,
        target: u32,
    },
    /// Starts the function with the slots from `slot` on and the words from `word` on; its result comes there too.
    Call {
        fun: u32,
        slot: u32,
        word: u32,
    },
    /// Ends the activation, with its result from that word on.
    Return {
        word: u32,
    },
    /// Starts a subscript; what it yields comes into slot `into`.
    Project {
        fun: u32,
        slot: u32,
        word: u32,
        into: u32,
    },
    /// Suspends the subscript, and hands this slot's access to the caller.
    Yield {
        slot: u32,
    },
    /// Goes on with the subscript whose yield came into that slot; the slot is empty then.
    Slide {
        slot: u32,
    },
    /// Opens an access to those words.
    Lend {
        slot: u32,
        place: Place,
        words: u32,
        way: Way,
    },
    /// Opens an access to an element; traps Index.
    Elem {
        slot: u32,
        array: Place,
        index: u32,
        width: u32,
        way: Way,
        span: u32,
    },
    /// Closes the access.
    Close {
        slot: u32,
    },
    /// Makes an empty array, with a block of 0 words.
    NewArray {
        array: Place,
    },
    /// Makes room for one more element.
    Grow {
        array: Place,
        width: u32,
    },
    /// Moves an element in at the end.
    Push {
        array: Place,
        word: u32,
        width: u32,
    },
    /// Moves the last element out; traps Empty.
    Pop {
        array: Place,
        word: u32,
        width: u32,
        span: u32,
    },
    /// Swaps two elements; traps Index, at a span for each of the two.
    Swap {
        array: Place,
        i: u32,
        j: u32,
        width: u32,
        span_i: u32,
        span_j: u32,
    },
    /// Stores the array's count.
    Count {
        to: u32,
        array: Place,
    },
    /// Frees the array's block; its two cells are unset.
    FreeArray {
        array: Place,
    },
    /// Writes a line.
    Print {
        word: u32,
        shown: Shown,
    },
    /// Reads a line; traps Input.
    Read {
        to: u32,
        span: u32,
    },
    /// Traps Precondition where the word is 0.
    Check {
        word: u32,
        span: u32,
    },
}

//! Core programs: flat statements over numbered locals. `docs/CORE.md` says what each statement does.
use hy_base::{IntegerType, Span};
use hy_types::{TyId, TyList, TyTable};
use indexmap::IndexMap;
use sqlite_items::Items;

/// A core program. Its first function is `main`.
#[derive(Drop)]
pub struct Core {
    /// The types of its functions, with the parts of each product.
    pub types: TyTable,
    pub funs: Items<CoreFun>,
    /// The parts of the source at which a run may trap; a statement names them by their place here.
    pub spans: Items<Span>,
    /// By product, the place in `funs` of the body of its deinitialiser.
    pub deinits: IndexMap<u32, u32>,
}

/// A core in which a `Drop` only gives its place up: what it did besides is spelt out in statements.
#[derive(Drop)]
pub struct Checked {
    pub core: Core,
}

/// A function or method, or the ramp and slide of a subscript. Its locals are numbered from 0: those that it is lent, then
/// its owned parameters, then `locals`.
#[derive(Drop)]
pub struct CoreFun {
    /// The parameters that stand for a place of the caller.
    pub lent: Items<CoreParameter>,
    /// The types of the parameters that are moved in.
    pub owned: TyList,
    /// The type of what a `Leave` hands out, or in a ramp of what it yields.
    pub result: TyId,
    /// The types of the other locals.
    pub locals: TyList,
    /// Of the body of a subscript, which yields once and is resumed by a `Slide`, the way of what it yields. What is yielded is
    /// set, both when it is handed out and when it comes back. Of any other function, none.
    pub yields: Option<CoreWay>,
    pub body: Items<CoreStmt>,
}

/// The way in which a place is opened.
#[derive(Clone, Copy, Debug, PartialEq, Eq)]
pub enum CoreWay {
    /// For reading.
    Read,
    /// For change.
    Write,
}

/// How a place is lent to a parameter: in which way, and what is set in it when the body begins and when it ends.
#[derive(Clone, Copy, Debug, PartialEq, Eq)]
pub enum CoreConvention {
    /// For reading; set before and after.
    Let,
    /// For change; set before and after.
    Inout,
    /// For change; unset before, and set after.
    Set,
}

/// A parameter that is lent.
#[derive(Clone, Copy, Debug, PartialEq, Eq)]
pub struct CoreParameter {
    pub ty: TyId,
    pub convention: CoreConvention,
}

/// A place: a local, and the way from it into its value.
#[derive(Drop)]
pub struct CorePlace {
    pub local: u32,
    pub steps: Items<CoreStep>,
}

/// A step into a value.
#[derive(Clone, Copy, Debug, PartialEq, Eq)]
pub enum CoreStep {
    /// The field of a product or part of a tuple of this number, from 0.
    Part(u32),
    /// The element of an array whose index this local holds, with the span of the trap where there is none.
    Index(u32, u32),
}

/// A built-in operation. `docs/CORE.md` says which places and spans each takes.
#[derive(Clone, Copy, Debug, PartialEq, Eq)]
pub enum CoreOp {
    Add,
    Sub,
    Mul,
    Div,
    Rem,
    Neg,
    /// Gives an integer of any type as one of this type.
    Convert(IntegerType),
    Eq,
    Lt,
    Le,
    Not,
    NewArray,
    Push,
    Pop,
    Swap,
    Count,
    FreeArray,
    Print,
    Read,
    Check,
}

/// A statement. A number named `to`, `of`, `on` or in `lent` is a local, and one of `spans` a place in the spans of the core.
#[cycle(statement)]
#[derive(Drop)]
pub enum CoreStmt {
    /// Does a built-in operation on the places `from`, of which the first is an array that is changed, and stores what it
    /// gives.
    Built {
        op: CoreOp,
        to: Option<CorePlace>,
        from: Items<CorePlace>,
        spans: Items<u32>,
    },
    /// Stores a number; 1 or 0 for a truth value; 0 for the value of a type without parts.
    Set {
        to: CorePlace,
        value: i64,
    },
    /// Makes the local stand for the place, for change or for reading.
    Lend {
        to: u32,
        place: CorePlace,
        write: bool,
    },
    /// Ends what a `Lend` began.
    Close {
        of: u32,
    },
    /// Moves from one place to another.
    Move {
        to: CorePlace,
        from: CorePlace,
    },
    /// Copies from one place to another.
    Copy {
        to: CorePlace,
        from: CorePlace,
    },
    /// In a `Core`, deinitialises what is set of the place; in a `Checked`, gives it up.
    Drop {
        place: CorePlace,
    },
    /// Calls the function with locals that it is lent and places that are moved in, and stores what it gives.
    Call {
        fun: u32,
        lent: Items<u32>,
        owned: Items<CorePlace>,
        to: CorePlace,
    },
    /// Starts a ramp so; the local stands for what it yields.
    Project {
        fun: u32,
        lent: Items<u32>,
        owned: Items<CorePlace>,
        to: u32,
    },
    /// Runs what follows the `Yield` that the local came from.
    Slide {
        of: u32,
    },
    /// Hands the local over to the caller, who goes on.
    Yield {
        of: u32,
    },
    /// Does `yes` where the local is true, else `no`.
    If {
        on: u32,
        yes: Items<CoreStmt>,
        no: Items<CoreStmt>,
    },
    /// Does `head`, and while the local is then true, `body` and again `head`.
    While {
        head: Items<CoreStmt>,
        on: u32,
        body: Items<CoreStmt>,
    },
    /// Leaves the innermost loop.
    Break,
    /// Goes on to the next pass of the innermost loop.
    Continue,
    /// Ends the body, and hands out what is at the place.
    Leave {
        from: CorePlace,
    },
}

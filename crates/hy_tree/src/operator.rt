// Operators, and conventions.

/// How a value is handed over. Where none is written, it is `Let`.
#[derive(Clone, Copy, Debug, PartialEq, Eq, Hash)]
pub enum Mode {
    Let,
    Inout,
    Sink,
    Set,
    Yielded,
}

/// The word with which a statement binds a name.
#[derive(Clone, Copy, Debug, PartialEq, Eq)]
pub enum Introducer {
    Var,
    Let,
    Inout,
}

/// An operator between two operands, from the loosest level to the tightest.
#[derive(Clone, Copy, Debug, PartialEq, Eq)]
pub enum Operator {
    /// `||`
    Or,
    /// `&&`
    And,
    /// `==`
    Equal,
    /// `!=`
    NotEqual,
    /// `<`
    Less,
    /// `<=`
    LessEqual,
    /// `>`
    Greater,
    /// `>=`
    GreaterEqual,
    Arithmetic(Arithmetic),
}

/// An operator of arithmetic, in an expression or before the `=` of a compound assignment.
#[derive(Clone, Copy, Debug, PartialEq, Eq)]
pub enum Arithmetic {
    /// `+`
    Add,
    /// `-`
    Subtract,
    /// `*`
    Multiply,
    /// `/`
    Divide,
    /// `%`
    Remainder,
}

/// An operator before its operand.
#[derive(Clone, Copy, Debug, PartialEq, Eq)]
pub enum UnaryOperator {
    /// `-`
    Negate,
    /// `!`
    Not,
}

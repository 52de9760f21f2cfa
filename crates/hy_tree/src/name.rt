// Names in a source.
use hy_base::{Span, Text};

/// A name, with the span of its token.
#[derive(Drop)]
pub struct Name {
    pub text: Text,
    pub span: Span,
}

/// The name of a trait in a list or in a bound, or that of the type of a conformance: a node of its own.
#[derive(Drop)]
pub struct NameUse {
    pub text: Text,
    /// That of its token.
    pub span: Span,
    pub node: u32,
}

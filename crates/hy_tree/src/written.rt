// Written types.
use crate::name::Name;
use hy_base::Span;
use sqlite_items::{Boxed, Items};

/// A written type.
#[cycle(written)]
#[derive(Drop)]
pub struct TypeExp {
    pub kind: TypeKind,
    /// With the parentheses around it.
    pub span: Span,
    pub node: u32,
}

/// What a written type is.
#[cycle(written)]
#[derive(Drop)]
pub enum TypeKind {
    /// `NAME`
    Name(Name),
    /// `Self`, with the span of its token
    SelfType(Span),
    /// `Array<type>`
    Array(Boxed<TypeExp>),
    /// `()`, or two or more types in parentheses
    Tuple(Items<TypeExp>),
}

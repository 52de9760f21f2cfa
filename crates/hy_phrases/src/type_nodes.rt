// Written types, made of their parts.
ghost use Rattle.std.specs.Prelude.{◌≡◌, IfOk, map};
ghost use Rattle.hy_tree.specs.Denotes.{type_of};
ghost use Rattle.hy_grammar.specs.Nodes as node;

use hy_base::{Span, Text};
use hy_tree::{Name, TypeExp, TypeKind};
use sqlite_items::{Boxed, Items};
use std::alloc::{AllocError, Global};

/// The type of this name.
#[tactic(auto, using(hy_tree::proofs::Equations::type_variants), unfolding(hy_grammar::specs::Nodes::named_type))]
pub fn named_type(text: Text, token: Span) -> TypeExp
    ensures { type_of result ≡ node.named_type text token }
{
    TypeExp {
        kind: TypeKind::Name(Name { text, span: token }),
        span: token,
        node: 0,
    }
}

/// `Self`
#[tactic(auto, using(hy_tree::proofs::Equations::type_variants), unfolding(hy_grammar::specs::Nodes::self_type))]
pub fn self_type(token: Span) -> TypeExp
    ensures { type_of result ≡ node.self_type token }
{
    TypeExp {
        kind: TypeKind::SelfType(token),
        span: token,
        node: 0,
    }
}

/// `Array<element>`, from its word to its `>`.
#[tactic(auto, using(hy_tree::proofs::Equations::type_variants), unfolding(hy_grammar::specs::Nodes::array_type))]
pub fn array_type(
    alloc: Global,
    word: Span,
    element: TypeExp,
    close: Span,
) -> Result<TypeExp, AllocError>
    ensures { IfOk result (λ made. type_of made ≡ node.array_type word (type_of element) close) }
{
    Ok(TypeExp {
        kind: TypeKind::Array(Boxed::new(alloc, element)?),
        span: Span {
            from: word.from,
            to: close.to,
        },
        node: 0,
    })
}

/// Types in parentheses: a tuple, or the type that stands there alone.
#[tactic(auto, using(hy_tree::proofs::Equations::type_variants, crate::proofs::Widened::widened_type), unfolding(hy_grammar::specs::Nodes::types))]
pub fn types(bracket: Span, mut parts: Items<TypeExp>, close: Span) -> TypeExp
    ensures { type_of result ≡ node.types bracket (map type_of parts) close }
{
    let span = Span {
        from: bracket.from,
        to: close.to,
    };
    if parts.len() == 1 {
        let alone = parts.pop().unwrap();
        return TypeExp {
            kind: alone.kind,
            span,
            node: alone.node,
        };
    }
    TypeExp {
        kind: TypeKind::Tuple(parts),
        span,
        node: 0,
    }
}

// Operators among the kinds of tokens.
ghost use Rattle.std.specs.Prelude.{◌≡◌};
ghost use Rattle.hy_grammar.specs.Kinds as kinds;
ghost use Rattle.hy_phrases.specs.Infixes.{infix_at};

use hy_lexer::TokenKind;
use hy_tree::{Arithmetic, Operator, UnaryOperator};

/// The levels of operators, from the loosest to the tightest.
#[derive(Clone, Copy, Debug, PartialEq, Eq)]
pub enum Level {
    Disjunction,
    Conjunction,
    Comparison,
    Addition,
    Multiplication,
}

/// An operator between two operands.
#[derive(Clone, Copy, Debug, PartialEq, Eq)]
pub struct Infix {
    pub level: Level,
    pub operator: Operator,
}

fn of_level(level: Level, operator: Operator) -> Option<Infix>
    ensures { result ≡ Some (record { level = level; operator = operator }) }
{
    Some(Infix { level, operator })
}

/// The operator that a token of this kind is between two operands.
pub fn infix_of(kind: &TokenKind) -> Option<Infix>
    ensures { infix_at result ≡ kinds.infix_of kind.now }
{
    match kind {
        TokenKind::OrOr => of_level(Level::Disjunction, Operator::Or),
        TokenKind::AndAnd => of_level(Level::Conjunction, Operator::And),
        TokenKind::EqualEqual => of_level(Level::Comparison, Operator::Equal),
        TokenKind::NotEqual => of_level(Level::Comparison, Operator::NotEqual),
        TokenKind::Less => of_level(Level::Comparison, Operator::Less),
        TokenKind::LessEqual => of_level(Level::Comparison, Operator::LessEqual),
        TokenKind::Greater => of_level(Level::Comparison, Operator::Greater),
        TokenKind::GreaterEqual => of_level(Level::Comparison, Operator::GreaterEqual),
        TokenKind::Plus => of_level(Level::Addition, Operator::Arithmetic(Arithmetic::Add)),
        TokenKind::Minus => of_level(Level::Addition, Operator::Arithmetic(Arithmetic::Subtract)),
        TokenKind::Star => of_level(
            Level::Multiplication,
            Operator::Arithmetic(Arithmetic::Multiply),
        ),
        TokenKind::Slash => of_level(
            Level::Multiplication,
            Operator::Arithmetic(Arithmetic::Divide),
        ),
        TokenKind::Percent => {
            of_level(
                Level::Multiplication,
                Operator::Arithmetic(Arithmetic::Remainder),
            )
        }
        _ => None,
    }
}

/// The operator that a token of this kind is before its operand.
pub fn prefix_of(kind: &TokenKind) -> Option<UnaryOperator>
    ensures { result ≡ kinds.prefix_of kind.now }
{
    match kind {
        TokenKind::Minus => Some(UnaryOperator::Negate),
        TokenKind::Not => Some(UnaryOperator::Not),
        _ => None,
    }
}

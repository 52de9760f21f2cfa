//! The tree of a source: one variant or field for each rule and part of the grammar, with where it stands and its number.
//! `docs/TREE.md` has its shape.
#![tactic(auto)]

mod count;
mod declaration;
mod expression;
mod laws;
mod meant;
mod name;
mod number_declaration;
mod number_expression;
mod number_statement;
mod number_written;
mod numbering;
mod operator;
mod parts;
pub mod predeclared;
mod statement;
mod written;

pub use declaration::{
    Callable, CallableKind, Conform, Decl, DeclKind, Label, Member, MemberKind, Param, Product,
    Program, TraitDef, TypeParam, Variant,
};
pub use expression::{Arg, Choice, Expr, ExprKind, Link, Step, StepKind};
pub use laws::{each_node_has_a_number, each_number_is_one_node, numbers_are_in_preorder};
pub use meant::Meant;
pub use name::{Name, NameUse};
pub use number_declaration::number;
pub use operator::{Arithmetic, Introducer, Mode, Operator, UnaryOperator};
pub use statement::{Block, Branch, Stmt, StmtKind};
pub use written::{TypeExp, TypeKind};

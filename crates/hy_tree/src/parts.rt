// Parts of the tree that several passes ask for.
ghost use Rattle.std.specs.Prelude.{◌≡◌};
ghost use Rattle.std.specs.Option.{option_copied};
ghost use Rattle.hy_tree.specs.Denotes.{param_of, callable_of, variant_of, expr_of};
ghost use Rattle.hy_tree.specs.Parts.{label_of, is_bundle, name_span, head_of, unmarked};

use crate::declaration::{Callable, CallableKind, Label, Param, Variant};
use crate::expression::{Expr, ExprKind};
use hy_base::{Span, Text};

impl Param {
    /// The label that a call writes before its argument, where it has one.
    pub fn label(&self) -> Option<&Text>
        ensures { option_copied result ≡ label_of (param_of self.now) }
    {
        match &self.label {
            Label::Text(text) => Some(text),
            Label::Nothing => None,
            Label::Same => Some(&self.name.text),
        }
    }
}

impl Callable {
    /// Whether its bodies have keywords, as `let { .. } inout { .. }`.
    pub fn is_bundle(&self) -> bool
        ensures { result ≡ is_bundle (callable_of self.now) }
    {
        for variant in self.variants.as_slice() {
            if variant.keyword.is_some() {
                return true;
            }
        }
        false
    }

    /// Where a refusal names it: its name, or its keyword where it has none.
    pub fn name_span(&self) -> Span
        ensures { result ≡ name_span (callable_of self.now) }
    {
        match &self.name {
            Some(name) => name.span,
            None => self.keyword,
        }
    }

    /// Where a refusal names one of its bodies: the body's keyword; for a plain body the name of a function, and the
    /// word `subscript` or `deinit`. `docs/TREE.md` has the refusals that do.
    pub fn head(&self, variant: &Variant) -> Span
        ensures { result ≡ head_of (callable_of self.now) (variant_of variant.now) }
    {
        if let Some(keyword) = variant.keyword {
            return keyword;
        }
        match self.kind {
            CallableKind::Function => self.name_span(),
            CallableKind::Subscript => self.keyword,
            CallableKind::Deinit => self.keyword,
            CallableKind::Requirement => self.name_span(),
        }
    }
}

impl Expr {
    /// The expression without the `&` before it: where a place stands, its `&` left out.
    #[tactic(auto, using(crate::proofs::Equations::expr_variants))]
    pub fn unmarked(&self) -> &Expr
        ensures { expr_of result.now ≡ unmarked (expr_of self.now) }
    {
        match &self.kind {
            ExprKind::Chain(_first, _links) => self,
            ExprKind::Unary(_operator, _operand) => self,
            ExprKind::Marked(operand) => operand.get(),
            ExprKind::Postfix(_primary, _steps) => self,
            ExprKind::Number(_number) => self,
            ExprKind::Bool(_truth) => self,
            ExprKind::Name(_name) => self,
            ExprKind::SelfValue(_token) => self,
            ExprKind::EmptyArray(_element) => self,
            ExprKind::Tuple(_parts) => self,
            ExprKind::Array(_elements) => self,
            ExprKind::If(_choices, _otherwise) => self,
        }
    }
}

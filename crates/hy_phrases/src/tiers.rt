// Chains of operators whose next operand is to come, level by level.
ghost use Rattle.std.specs.Prelude.{◌≡◌, ◌≢◌, ◌↔◌, IsTrue, Some, None, IfOk, OnOk};
ghost use Rattle.hy_tree.specs.Denotes.{expr_of, link_of};
ghost use Rattle.hy_grammar.specs.ExprSteps as steps;
ghost use Rattle.hy_phrases.specs.Infixes.{level_of};
ghost use Rattle.hy_grammar.specs.Nodes as node;
ghost use Rattle.hy_phrases.specs.OpenChains.{tier_of, tiers_of};
ghost use Rattle.hy_grammar.specs.OperandSteps.{no_chains};
ghost use Rattle.hy_grammar.specs.Kinds as kinds;

use crate::expr_nodes::between;
use crate::operators::{Infix, Level};
use hy_base::Span;
use hy_tree::{Expr, ExprKind, Link, Operator};
use sqlite_items::{Boxed, Items};
use std::alloc::{AllocError, Global};

/// A chain of operators of one level whose next operand is to come.
#[derive(Drop)]
pub struct OpenChain {
    pub first: Expr,
    pub links: Items<Link>,
    pub operator: Operator,
    /// The span of the operator.
    pub token: Span,
}

/// The chains that the next operand may belong to, from the loosest level to the tightest.
#[derive(Drop)]
pub struct Tiers {
    pub disjunction: Option<OpenChain>,
    pub conjunction: Option<OpenChain>,
    pub comparison: Option<OpenChain>,
    pub addition: Option<OpenChain>,
    pub multiplication: Option<OpenChain>,
}

/// The operator with its right operand, in a chain that begins there.
#[tactic(auto, using(crate::proofs::Widened::expr_at))]
fn link(first: Span, operator: Operator, token: Span, operand: Expr) -> Link
    ensures { (e : _) → (node.from e ≡ first.from) → link_of result ≡ node.link e operator token (expr_of operand) }
{
    let span = between(first, operand.span);
    Link {
        operator,
        token,
        operand,
        span,
        node: 0,
    }
}

/// The chain that ends with this operand, or the operand alone.
fn join(alloc: Global, tier: Option<OpenChain>, operand: Expr) -> Result<Expr, AllocError>
    ensures { IfOk result (λ made. expr_of made ≡ steps.join (tier_of tier) (expr_of operand)) }
{
    let Some(mut chain) = tier else {
        return Ok(operand);
    };
    let span = between(chain.first.span, operand.span);
    let last = link(chain.first.span, chain.operator, chain.token, operand);
    chain.links.push(last)?;
    Ok(Expr {
        kind: ExprKind::Chain(Boxed::new(alloc, chain.first)?, chain.links),
        span,
        node: 0,
    })
}

/// The chain that goes on after this operand.
fn extend(
    alloc: Global,
    tier: Option<OpenChain>,
    operand: Expr,
    operator: Operator,
    token: Span,
) -> Result<Option<OpenChain>, AllocError>
    ensures { IfOk result (λ made. tier_of made ≡ steps.extend (tier_of tier) (expr_of operand) operator token) }
{
    let Some(mut chain) = tier else {
        return Ok(Some(OpenChain {
            first: operand,
            links: Items::new(alloc),
            operator,
            token,
        }));
    };
    let last = link(chain.first.span, chain.operator, chain.token, operand);
    chain.links.push(last)?;
    Ok(Some(OpenChain {
        first: chain.first,
        links: chain.links,
        operator,
        token,
    }))
}

/// Ends the chain of a level with this operand, where one is open.
fn close(alloc: Global, tier: &mut Option<OpenChain>, operand: Expr) -> Result<Expr, AllocError>
    ensures made { IfOk result (λ made. expr_of made ≡ steps.join (tier_of tier.old) (expr_of operand)) }
    ensures closed { tier.new ≡ None }
{
    join(alloc, tier.take(), operand)
}

/// Goes on with the chain of a level after this operand, or opens it.
fn go_on(
    alloc: Global,
    tier: &mut Option<OpenChain>,
    operand: Expr,
    operator: Operator,
    token: Span,
) -> Result<(), AllocError>
    ensures { OnOk result (tier_of tier.new ≡ steps.extend (tier_of tier.old) (expr_of operand) operator token) }
{
    *tier = extend(alloc, tier.take(), operand, operator, token)?;
    Ok(())
}

impl Tiers {
    /// No chain is open.
    pub fn new() -> Tiers
        ensures { tiers_of result ≡ no_chains }
    {
        Tiers {
            disjunction: None,
            conjunction: None,
            comparison: None,
            addition: None,
            multiplication: None,
        }
    }

    /// Whether a comparison waits for its right operand.
    pub fn compares(&self) -> bool
        ensures { IsTrue result ↔ (self.now.comparison ≢ None) }
    {
        self.comparison.is_some()
    }

    /// All chains end with this operand.
    pub fn joined(self, alloc: Global, operand: Expr) -> Result<Expr, AllocError>
        ensures { IfOk result (λ made. expr_of made ≡ steps.joined kinds.Disjunction (expr_of operand) (tiers_of self)) }
    {
        let mut tiers = self;
        let operand = close(alloc, &mut tiers.multiplication, operand)?;
        let operand = close(alloc, &mut tiers.addition, operand)?;
        let operand = close(alloc, &mut tiers.comparison, operand)?;
        let operand = close(alloc, &mut tiers.conjunction, operand)?;
        close(alloc, &mut tiers.disjunction, operand)
    }

    /// An operator after this operand. A comparison has one operator.
    pub fn operate(
        self,
        alloc: Global,
        operand: Expr,
        found: Infix,
        token: Span,
    ) -> Result<Tiers, AllocError>
        requires { found.level ≡ Level.Comparison → self.comparison ≡ None }
        ensures { IfOk result (λ made. steps.operate (level_of found.level) (expr_of operand) found.operator token (tiers_of self) ≡ Some (tiers_of made)) }
    {
        let mut tiers = self;
        let operator = found.operator;
        if found.level == Level::Multiplication {
            go_on(alloc, &mut tiers.multiplication, operand, operator, token)?;
            return Ok(tiers);
        }
        let operand = close(alloc, &mut tiers.multiplication, operand)?;
        if found.level == Level::Addition {
            go_on(alloc, &mut tiers.addition, operand, operator, token)?;
            return Ok(tiers);
        }
        let operand = close(alloc, &mut tiers.addition, operand)?;
        if found.level == Level::Comparison {
            go_on(alloc, &mut tiers.comparison, operand, operator, token)?;
            return Ok(tiers);
        }
        let operand = close(alloc, &mut tiers.comparison, operand)?;
        if found.level == Level::Conjunction {
            go_on(alloc, &mut tiers.conjunction, operand, operator, token)?;
            return Ok(tiers);
        }
        let operand = close(alloc, &mut tiers.conjunction, operand)?;
        go_on(alloc, &mut tiers.disjunction, operand, operator, token)?;
        Ok(tiers)
    }
}

// From a tree to an object that does what the tree means.
ghost use Rattle.std.specs.Prelude.{◌≡◌, ℕ, ◌∷◌, length, None, map, IfOk, IsTrue, All};
ghost use Rattle.hy_base.specs.First.{IsFirst};
ghost use Rattle.hy_tree.specs.Denotes.{program_of, decl_of, decl_kind_of, block_of, stmts_of, stmt_of, expr_of, links_of};
ghost use Rattle.hy_meaning.specs.Forms as forms;
ghost use Rattle.hy_tree.specs.Findings.{Breaks as BreaksNames};
ghost use Rattle.hy_tree.specs.Numbers.{number_program};
ghost use Rattle.hy_tree.specs.Tree.{Program as Tree};
ghost use Rattle.hy_front.specs.Unbuilt.{Breaks};
ghost use Rattle.hy_object.specs.Grammar.{IsCount, IsSpan};
ghost use Rattle.hy_machine.specs.Built.{IsBuilt};
ghost use Rattle.hy_driver.specs.Scopes.{with_name};
ghost use Rattle.hy_driver.specs.Compiled.{IsCompiled};
ghost use Rattle.hy_driver.specs.Lower.{Extends, variable, place_of, own, load, more_spans, sum_code, stmt_code, stmt_spans, block_code, block_spans};
ghost use Rattle.hy_driver.specs.Lower.{declared, declares, more_code, print_code, printed_links, store, IsSized};

use crate::scope::Scope;
use hy_base::{NoMemory, Span};
use hy_front::printed;
use hy_object::{Fun, Instr, Object, Place, Shown};
use hy_tree::{Block, Decl, DeclKind, Expr, ExprKind, Link, Program, Stmt, StmtKind};
use sqlite_items::Items;
use std::alloc::Global;

/// The word in which a sum is made.
const ACCUMULATOR: u32 = 0;

/// The word of the operand that is added next.
const NEXT: u32 = 1;

/// What is written so far.
#[derive(Drop)]
struct Draft {
    code: Items<Instr>,
    spans: Items<Span>,
}

/// The object of a numbered tree that breaks no rule on names and whose forms are all built. It does what the tree means, for every input and number of turns
/// (`docs/ARCHITECTURE.md`). `NoMemory` is also the answer to a tree that needs 2^32 words, instructions or spans, or more,
/// and to one in which an operator's operand ends before the sum starts: no source has such a tree.
pub fn lower(alloc: Global, tree: &Program) -> Result<Object, NoMemory>
    requires numbered { (plain : Tree) × (program_of tree.now ≡ number_program plain) }
    requires named { IsFirst (BreaksNames (program_of tree.now)) None }
    requires built { IsFirst (Breaks (program_of tree.now)) None }
    ensures { IfOk result (λ object. IsCompiled (program_of tree.now) object × IsBuilt object) }
{
    let mut scope = Scope::new(alloc);
    let mut draft = Draft {
        code: Items::new(alloc),
        spans: Items::new(alloc),
    };
    draft.block(alloc, &mut scope, main_stmts(tree.decls.as_slice()))?;
    put(&mut draft.code, Instr::Return { word: ACCUMULATOR })?;
    count(draft.code.len())?;
    count(draft.spans.len())?;
    read_sizes(draft.code.as_slice());
    if !are_ordered(draft.spans.as_slice()) {
        return Err(NoMemory);
    }
    let words = variable(scope.len())?;
    let mut funs = Items::new(alloc);
    funs.push(Fun {
        accesses: 0,
        owned: 0,
        result: 0,
        words,
        slots: 0,
        code: draft.code,
    })?;
    Ok(Object {
        spans: draft.spans,
        funs,
    })
}

/// The statements of a block.
fn block_stmts(block: &Block) -> &[Stmt]
    ensures { stmts_of result.now ≡ forms.stmts_in (block_of block.now) }
{
    block.stmts.as_slice()
}

/// The statements of a declaration's body.
fn body(decl: &DeclKind) -> &[Stmt]
    ensures { stmts_of result.now ≡ forms.stmts_of (decl_kind_of decl.now) }
{
    match decl {
        DeclKind::Callable(c) => match c.variants.as_slice().first() {
            Some(variant) => block_stmts(&variant.block),
            None => &[],
        },
        DeclKind::Product(_) => &[],
        DeclKind::Trait(_) => &[],
        DeclKind::Conformance(_) => &[],
    }
}

/// The statements of `main`, which is the one declaration.
fn main_stmts(decls: &[Decl]) -> &[Stmt]
    ensures { stmts_of result.now ≡ forms.main_of (map decl_of decls.now) }
{
    match decls.first() {
        Some(decl) => body(&decl.kind),
        None => &[],
    }
}

/// The first operand of a sum.
#[tactic(auto, using(hy_tree::proofs::Equations::expr_variants))]
fn first_of(value: &Expr) -> &Expr
    ensures { expr_of result.now ≡ forms.first_of (expr_of value.now) }
{
    match &value.kind {
        ExprKind::Chain(first, _links) => first.get(),
        ExprKind::Unary(_operator, _operand) => value,
        ExprKind::Marked(_operand) => value,
        ExprKind::Postfix(_primary, _steps) => value,
        ExprKind::Number(_number) => value,
        ExprKind::Bool(_truth) => value,
        ExprKind::Name(_name) => value,
        ExprKind::SelfValue(_token) => value,
        ExprKind::EmptyArray(_element) => value,
        ExprKind::Tuple(_parts) => value,
        ExprKind::Array(_elements) => value,
        ExprKind::If(_choices, _otherwise) => value,
    }
}

/// The operators of a sum.
#[tactic(auto, using(hy_tree::proofs::Equations::expr_variants))]
fn links_in(value: &Expr) -> &[Link]
    ensures { links_of result.now ≡ forms.links_of (expr_of value.now) }
{
    match &value.kind {
        ExprKind::Chain(_first, links) => links.as_slice(),
        ExprKind::Unary(_operator, _operand) => &[],
        ExprKind::Marked(_operand) => &[],
        ExprKind::Postfix(_primary, _steps) => &[],
        ExprKind::Number(_number) => &[],
        ExprKind::Bool(_truth) => &[],
        ExprKind::Name(_name) => &[],
        ExprKind::SelfValue(_token) => &[],
        ExprKind::EmptyArray(_element) => &[],
        ExprKind::Tuple(_parts) => &[],
        ExprKind::Array(_elements) => &[],
        ExprKind::If(_choices, _otherwise) => &[],
    }
}

impl Draft {
    /// Puts the code of a block, whose variables are declared as it goes.
    fn block(&mut self, alloc: Global, scope: &mut Scope, stmts: &[Stmt]) -> Result<(), NoMemory>
        ensures scope { IfOk result (λ _. scope.new ≡ declared scope.old (stmts_of stmts.now)) }
        ensures code { IfOk result (λ _. Extends self.old.code self.new.code (block_code scope.old (length self.old.spans) (stmts_of stmts.now))) }
        ensures spans { IfOk result (λ _. Extends self.old.spans self.new.spans (block_spans (stmts_of stmts.now))) }
    {
        for stmt in stmts {
            self.stmt(alloc, scope, stmt)?;
        }
        Ok(())
    }

    /// Puts the code of a statement. The forms that are not built have none.
    #[tactic(auto, using(hy_tree::proofs::Equations::stmt_variants))]
    fn stmt(&mut self, alloc: Global, scope: &mut Scope, stmt: &Stmt) -> Result<(), NoMemory>
        ensures scope { IfOk result (λ _. scope.new ≡ declares scope.old (stmt_of stmt.now)) }
        ensures code { IfOk result (λ _. Extends self.old.code self.new.code (stmt_code scope.old (length self.old.spans) (stmt_of stmt.now))) }
        ensures spans { IfOk result (λ _. Extends self.old.spans self.new.spans (stmt_spans (stmt_of stmt.now))) }
    {
        match &stmt.kind {
            StmtKind::Binding(_introducer, name, _written, value) => {
                self.binding(alloc, scope, name.text.as_slice(), value)
            }
            StmtKind::Assign(target, value) => self.assign(scope, target, value),
            StmtKind::Expr(e) => self.print(scope, e),
            StmtKind::Declare(_name, _written) => Ok(()),
            StmtKind::Compound(_target, _operator, _value) => Ok(()),
            StmtKind::If(_branches, _otherwise) => Ok(()),
            StmtKind::While(_token, _condition, _body) => Ok(()),
            StmtKind::Return(_token, _value) => Ok(()),
            StmtKind::Break => Ok(()),
            StmtKind::Continue => Ok(()),
            StmtKind::Yield(_token, _value) => Ok(()),
        }
    }

    /// Puts the code of `var NAME = value`.
    fn binding(
        &mut self,
        alloc: Global,
        scope: &mut Scope,
        name: &[u8],
        value: &Expr,
    ) -> Result<(), NoMemory>
        ensures scope { IfOk result (λ _. scope.new ≡ with_name scope.old name.now) }
        ensures code { IfOk result (λ _.
            Extends self.old.code self.new.code (λ rest. sum_code scope.old (length self.old.spans) (expr_of value.now) (store (length scope.old) ∷ rest))) }
        ensures spans { IfOk result (λ _. Extends self.old.spans self.new.spans (more_spans (forms.links_of (expr_of value.now)))) }
    {
        self.sum(scope, value)?;
        let word = variable(scope.len())?;
        put(&mut self.code, store(word))?;
        scope.declare(alloc, name)?;
        Ok(())
    }

    /// Puts the code of `NAME = value`.
    fn assign(&mut self, scope: &Scope, target: &Expr, value: &Expr) -> Result<(), NoMemory>
        ensures code { IfOk result (λ _.
            Extends self.old.code self.new.code (λ rest.
            sum_code scope.now (length self.old.spans) (expr_of value.now) (store (place_of scope.now (forms.target_of (expr_of target.now))) ∷ rest))) }
        ensures spans { IfOk result (λ _. Extends self.old.spans self.new.spans (more_spans (forms.links_of (expr_of value.now)))) }
    {
        self.sum(scope, value)?;
        let word = word_of(scope, target_name(target))?;
        put(&mut self.code, store(word))?;
        Ok(())
    }

    /// Puts the code of `print(value)`.
    fn print(&mut self, scope: &Scope, e: &Expr) -> Result<(), NoMemory>
        ensures code { IfOk result (λ _. Extends self.old.code self.new.code (print_code scope.now (length self.old.spans) (forms.printed (expr_of e.now)))) }
        ensures spans { IfOk result (λ _. Extends self.old.spans self.new.spans (more_spans (printed_links (forms.printed (expr_of e.now))))) }
    {
        match printed(e) {
            Some(value) => {
                self.sum(scope, value)?;
                let print = Instr::Print {
                    word: ACCUMULATOR,
                    shown: Shown::Int,
                };
                put(&mut self.code, print)?;
                Ok(())
            }
            None => Ok(()),
        }
    }

    /// Puts the code of a sum, which leaves it in the accumulator.
    fn sum(&mut self, scope: &Scope, value: &Expr) -> Result<(), NoMemory>
        ensures code { IfOk result (λ _. Extends self.old.code self.new.code (sum_code scope.now (length self.old.spans) (expr_of value.now))) }
        ensures spans { IfOk result (λ _. Extends self.old.spans self.new.spans (more_spans (forms.links_of (expr_of value.now)))) }
    {
        let first = load(scope, ACCUMULATOR, first_of(value))?;
        put(&mut self.code, first)?;
        self.add(scope, links_in(value))
    }

    /// Puts the code that adds the right operands of operators to the accumulator.
    fn add(&mut self, scope: &Scope, links: &[Link]) -> Result<(), NoMemory>
        ensures code { IfOk result (λ _. Extends self.old.code self.new.code (more_code scope.now (length self.old.spans) (links_of links.now))) }
        ensures spans { IfOk result (λ _. Extends self.old.spans self.new.spans (more_spans (links_of links.now))) }
    {
        for link in links {
            let next = load(scope, NEXT, &link.operand)?;
            put(&mut self.code, next)?;
            let add = Instr::Add {
                to: ACCUMULATOR,
                a: ACCUMULATOR,
                b: NEXT,
                span: count(self.spans.len())?,
            };
            put(&mut self.code, add)?;
            put(&mut self.spans, link.span)?;
        }
        Ok(())
    }
}

fn put<T: Drop>(list: &mut Items<T>, item: T) -> Result<(), NoMemory>
    ensures { IfOk result (λ _. Extends list.old list.new (λ rest. item ∷ rest)) }
{
    list.push(item)?;
    Ok(())
}

/// The instruction that brings an operand to a word. The forms that are not built bring 0.
#[tactic(auto, using(hy_tree::proofs::Equations::expr_variants))]
fn load(scope: &Scope, to: u32, operand: &Expr) -> Result<Instr, NoMemory>
    ensures { IfOk result (λ instr. instr ≡ load scope.now to (expr_of operand.now)) }
{
    match &operand.kind {
        ExprKind::Name(name) => {
            let word = word_of(scope, name.text.as_slice())?;
            Ok(Instr::Copy {
                to: own(to),
                from: own(word),
                words: 1,
            })
        }
        ExprKind::Number(n) => Ok(Instr::Const { to, value: *n }),
        ExprKind::Chain(_first, _links) => Ok(Instr::Const { to, value: 0 }),
        ExprKind::Unary(_operator, _operand) => Ok(Instr::Const { to, value: 0 }),
        ExprKind::Marked(_operand) => Ok(Instr::Const { to, value: 0 }),
        ExprKind::Postfix(_primary, _steps) => Ok(Instr::Const { to, value: 0 }),
        ExprKind::Bool(_truth) => Ok(Instr::Const { to, value: 0 }),
        ExprKind::SelfValue(_token) => Ok(Instr::Const { to, value: 0 }),
        ExprKind::EmptyArray(_element) => Ok(Instr::Const { to, value: 0 }),
        ExprKind::Tuple(_parts) => Ok(Instr::Const { to, value: 0 }),
        ExprKind::Array(_elements) => Ok(Instr::Const { to, value: 0 }),
        ExprKind::If(_choices, _otherwise) => Ok(Instr::Const { to, value: 0 }),
    }
}

/// The name that is assigned to; none has no bytes.
#[tactic(auto, using(hy_tree::proofs::Equations::expr_variants))]
fn target_name(target: &Expr) -> &[u8]
    ensures { result.now ≡ forms.target_of (expr_of target.now) }
{
    match &target.kind {
        ExprKind::Name(name) => name.text.as_slice(),
        ExprKind::Chain(_first, _links) => &[],
        ExprKind::Unary(_operator, _operand) => &[],
        ExprKind::Marked(_operand) => &[],
        ExprKind::Postfix(_primary, _steps) => &[],
        ExprKind::Number(_number) => &[],
        ExprKind::Bool(_truth) => &[],
        ExprKind::SelfValue(_token) => &[],
        ExprKind::EmptyArray(_element) => &[],
        ExprKind::Tuple(_parts) => &[],
        ExprKind::Array(_elements) => &[],
        ExprKind::If(_choices, _otherwise) => &[],
    }
}

/// The instruction that brings the sum to a word.
fn store(word: u32) -> Instr
    ensures { result ≡ Instr.Move (own word) (own 0) 1 }
{
    Instr::Move {
        to: own(word),
        from: own(ACCUMULATOR),
        words: 1,
    }
}

/// A word of the own frame.
fn own(word: u32) -> Place
    ensures { result ≡ own word }
{
    Place {
        base: 0,
        offset: word,
    }
}

/// The word of a variable. A name that is not declared, which an accepted tree does not use, would be the next one.
fn word_of(scope: &Scope, name: &[u8]) -> Result<u32, NoMemory>
    ensures { IfOk result (λ word. word ≡ variable (place_of scope.now name.now)) }
{
    match scope.position(name) {
        Some(place) => variable(place),
        None => variable(scope.len()),
    }
}

/// The word of the variable that was declared after so many others.
fn variable(place: usize) -> Result<u32, NoMemory>
    ensures { IfOk result (λ word. word ≡ variable place) }
{
    let others = count(place)?;
    match others.checked_add(2) {
        Some(word) => Ok(word),
        None => Err(NoMemory),
    }
}

/// A number of 32 bits.
fn count(n: usize) -> Result<u32, NoMemory>
    ensures same { IfOk result (λ m. m ≡ n) }
    ensures fits { IfOk result (λ _. IsCount n) }
{
    match u32::try_from(n) {
        Ok(m) => Ok(m),
        Err(_) => Err(NoMemory),
    }
}

/// Whether no span has its end before its start.
fn are_ordered(spans: &[Span]) -> bool
    ensures { IsTrue result → All IsSpan spans.now }
{
    spans.iter().all(|span| is_ordered(*span))
}

fn is_ordered(span: Span) -> bool
    ensures { IsTrue result → IsSpan span }
{
    span.from <= span.to
}

/// Reads each instruction: so it is known that their numbers are of 32 and 64 bits, which the format of objects wants.
fn read_sizes(code: &[Instr])
    ensures { All IsSized code.now }
{
    for instr in code {
        read_size(*instr);
    }
}

fn read_size(instr: Instr)
    ensures { IsSized instr }
{
    match instr {
        Instr::Const { value: _, .. } => (),
        Instr::Copy { to: _, from: _, .. } => (),
        Instr::Move { to: _, from: _, .. } => (),
        _ => (),
    }
}

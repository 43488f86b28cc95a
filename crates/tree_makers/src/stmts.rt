//! Statements, made of their parts.

ghost use Rattle.std.specs.Prelude.{◌≡◌, IfOk};
ghost use Rattle.js_tree.specs.Trees.{stmt_of, variable_of, case_of, catch_of, unbound};
ghost use Rattle.js_tree.specs.declared.StmtNode.TheVariants as node;
ghost use Rattle.js_tree.specs.declared.ForStart.TheVariants as start;
ghost use Rattle.js_tree.specs.declared.ForTarget.TheVariants as target;

use js_tree::{Case, Catch, Expr, ForStart, ForTarget, Named, Stmt, StmtNode, Variable};
use sqlite_items::{Boxed, Items};
use std::alloc::Global;
use turk_base::{NoMemory, Units};

/// Puts a statement into a box.
pub fn boxed(alloc: Global, stmt: Stmt) -> Result<Boxed<Stmt>, NoMemory>
    ensures { IfOk result (λ b. b ≡ stmt) }
{
    match Boxed::new(alloc, stmt) {
        Ok(b) => Ok(b),
        Err(_) => Err(NoMemory),
    }
}

/// Puts a statement that may be missing into a box.
pub fn boxed_option(alloc: Global, stmt: Option<Stmt>) -> Result<Option<Boxed<Stmt>>, NoMemory>
    ensures { IfOk result (λ b. b ≡ stmt) }
{
    match stmt {
        Some(stmt) => Ok(Some(boxed(alloc, stmt)?)),
        None => Ok(None),
    }
}

/// A block.
pub fn block(statements: Items<Stmt>) -> Stmt
    ensures { result ≡ stmt_of (node.Block statements) }
{
    Stmt {
        node: StmtNode::Block(statements),
    }
}

/// `var` with its names.
pub fn var(variables: Items<Variable>) -> Stmt
    ensures { result ≡ stmt_of (node.Var variables) }
{
    Stmt {
        node: StmtNode::Var(variables),
    }
}

/// The empty statement.
pub fn empty() -> Stmt
    ensures { result ≡ stmt_of (node.Empty) }
{
    Stmt {
        node: StmtNode::Empty,
    }
}

/// An expression as a statement.
pub fn expression(value: Expr) -> Stmt
    ensures { result ≡ stmt_of (node.Expression value) }
{
    Stmt {
        node: StmtNode::Expression(value),
    }
}

/// `if`, with the statement after `else` where there is one.
pub fn if_else(
    alloc: Global,
    test: Expr,
    first: Stmt,
    second: Option<Stmt>,
) -> Result<Stmt, NoMemory>
    ensures { IfOk result (λ r. r ≡ stmt_of (node.If test first second)) }
{
    let first = boxed(alloc, first)?;
    let second = boxed_option(alloc, second)?;
    Ok(Stmt {
        node: StmtNode::If(test, first, second),
    })
}

/// `do` .. `while`.
pub fn do_while(alloc: Global, body: Stmt, test: Expr) -> Result<Stmt, NoMemory>
    ensures { IfOk result (λ r. r ≡ stmt_of (node.DoWhile body test)) }
{
    let body = boxed(alloc, body)?;
    Ok(Stmt {
        node: StmtNode::DoWhile(body, test),
    })
}

/// `while`.
pub fn while_loop(alloc: Global, test: Expr, body: Stmt) -> Result<Stmt, NoMemory>
    ensures { IfOk result (λ r. r ≡ stmt_of (node.While test body)) }
{
    let body = boxed(alloc, body)?;
    Ok(Stmt {
        node: StmtNode::While(test, body),
    })
}

/// `for` with its three parts.
pub fn for_loop(
    alloc: Global,
    start: ForStart,
    test: Option<Expr>,
    step: Option<Expr>,
    body: Stmt,
) -> Result<Stmt, NoMemory>
    ensures { IfOk result (λ r. r ≡ stmt_of (node.For start test step body)) }
{
    let body = boxed(alloc, body)?;
    Ok(Stmt {
        node: StmtNode::For(start, test, step, body),
    })
}

/// `for` .. `in`.
pub fn for_in(alloc: Global, target: ForTarget, value: Expr, body: Stmt) -> Result<Stmt, NoMemory>
    ensures { IfOk result (λ r. r ≡ stmt_of (node.ForIn target value body)) }
{
    let body = boxed(alloc, body)?;
    Ok(Stmt {
        node: StmtNode::ForIn(target, value, body),
    })
}

/// `continue`.
pub fn continue_loop() -> Stmt
    ensures { result ≡ stmt_of (node.Continue) }
{
    Stmt {
        node: StmtNode::Continue,
    }
}

/// `break`.
pub fn break_out() -> Stmt
    ensures { result ≡ stmt_of (node.Break) }
{
    Stmt {
        node: StmtNode::Break,
    }
}

/// `return`, with its value where it has one.
pub fn return_value(value: Option<Expr>) -> Stmt
    ensures { result ≡ stmt_of (node.Return value) }
{
    Stmt {
        node: StmtNode::Return(value),
    }
}

/// `switch` with its clauses.
pub fn switch(value: Expr, cases: Items<Case>) -> Stmt
    ensures { result ≡ stmt_of (node.Switch value cases) }
{
    Stmt {
        node: StmtNode::Switch(value, cases),
    }
}

/// `throw`.
pub fn throw(value: Expr) -> Stmt
    ensures { result ≡ stmt_of (node.Throw value) }
{
    Stmt {
        node: StmtNode::Throw(value),
    }
}

/// `try`, with its catch and its finally where they stand; body and finally are blocks.
pub fn try_catch(
    alloc: Global,
    body: Stmt,
    caught: Option<Catch>,
    last: Option<Stmt>,
) -> Result<Stmt, NoMemory>
    ensures { IfOk result (λ r. r ≡ stmt_of (node.Try body caught last)) }
{
    let body = boxed(alloc, body)?;
    let last = boxed_option(alloc, last)?;
    Ok(Stmt {
        node: StmtNode::Try(body, caught, last),
    })
}

/// A name of a `var`, bound to nothing yet, with its value where it has one.
pub fn variable(name: Units, value: Option<Expr>) -> Variable
    ensures { result ≡ variable_of (unbound name) value }
{
    Variable {
        named: Named::make(name),
        value,
    }
}

/// A clause of a `switch`; the default has no test.
pub fn case(test: Option<Expr>, statements: Items<Stmt>) -> Case
    ensures { result ≡ case_of test statements }
{
    Case { test, statements }
}

/// The catch of a `try`; its body is a block.
pub fn catch(alloc: Global, name: Units, body: Stmt) -> Result<Catch, NoMemory>
    ensures { IfOk result (λ r. r ≡ catch_of name body) }
{
    let body = boxed(alloc, body)?;
    Ok(Catch { name, body })
}

/// Nothing first in the head of a `for`.
pub fn no_start() -> ForStart
    ensures { result ≡ start.NoStart }
{
    ForStart::NoStart
}

/// An expression first in the head of a `for`.
pub fn value_start(value: Expr) -> ForStart
    ensures { result ≡ start.ValueStart value }
{
    ForStart::ValueStart(value)
}

/// `var` first in the head of a `for`.
pub fn var_start(alloc: Global, variables: Items<Variable>) -> Result<ForStart, NoMemory>
    ensures { IfOk result (λ r. r ≡ start.VarStart (stmt_of (node.Var variables))) }
{
    let all = boxed(alloc, var(variables))?;
    Ok(ForStart::VarStart(all))
}

/// The target that a `for` .. `in` sets.
pub fn target_each(each: Expr) -> ForTarget
    ensures { result ≡ target.TargetEach each }
{
    ForTarget::TargetEach(each)
}

/// The name of a `var` that a `for` .. `in` sets.
pub fn var_each(name: Units) -> ForTarget
    ensures { result ≡ target.VarEach (unbound name) }
{
    ForTarget::VarEach(Named::make(name))
}

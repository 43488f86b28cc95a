//! Operands, made of their parts.

ghost use Rattle.std.specs.Prelude.{◌≡◌, IfOk};
ghost use Rattle.script_grammar.specs.Grammar as grammar;
ghost use Rattle.js_tree.specs.Trees.{expr_of, unbound};
ghost use Rattle.js_tree.specs.declared.ExprNode.TheVariants as node;

use js_lexer::CallWord;
use js_tree::Expr;
use script_grammar::classes::{Infix, Operand};
use std::alloc::Global;
use tree_makers::exprs;
use turk_base::{NoMemory, Units};

/// An expression that is no target as written.
pub fn plain(expr: Expr) -> Operand
    ensures { result ≡ grammar.plain expr }
{
    Operand {
        expr,
        target: false,
    }
}

/// An expression that is a target as written.
pub fn target(expr: Expr) -> Operand
    ensures { result ≡ grammar.a_target expr }
{
    Operand { expr, target: true }
}

/// A name.
pub fn named(units: Units) -> Operand
    ensures { result ≡ grammar.a_name_as units }
{
    Operand {
        expr: exprs::name(units),
        target: true,
    }
}

/// What an operator makes of its operands.
pub fn joined(alloc: Global, operator: Infix, left: Expr, right: Expr) -> Result<Expr, NoMemory>
    ensures { IfOk result (λ r. r ≡ grammar.joined operator left right) }
{
    match operator {
        Infix::Plain(operator) => exprs::binary(alloc, operator, left, right),
        Infix::And => exprs::and(alloc, left, right),
        Infix::Or => exprs::or(alloc, left, right),
    }
}

/// A script call with one argument.
pub fn called(alloc: Global, word: CallWord, argument: Expr) -> Result<Expr, NoMemory>
    ensures { IfOk result (λ r. r ≡ grammar.called word argument) }
{
    match word {
        CallWord::Post => exprs::post(alloc, argument),
        CallWord::Reply => exprs::reply(alloc, argument),
        CallWord::Prompt => exprs::prompt(alloc, argument),
        CallWord::Random => exprs::random(alloc, argument),
        CallWord::Once => exprs::once(alloc, argument),
        CallWord::Fork => exprs::fork(alloc, argument),
        _ => Ok(argument),
    }
}

/// A script call with no argument.
pub fn called_alone(word: CallWord) -> Expr
    ensures { result ≡ grammar.called_alone word }
{
    match word {
        CallWord::Join => exprs::join(),
        _ => exprs::crash(),
    }
}

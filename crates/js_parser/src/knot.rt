//! The rows of the grammar, tied by recursion: each reads what stands deeper by the others.

ghost use Rattle.std.specs.Prelude.{◌≤◌, ◌+◌, true, [], IfOk};
ghost use Rattle.script_grammar.specs.Meets.{Meets};
ghost use Rattle.script_grammar.specs.Rules.Symbol.{Assign, Elements, Expr, Statement};

use expression_rows::deeper::Grammar;
use js_lexer::Token;
use js_tree::{Script, Stmt};
use part_rows::below::Below;
use script_grammar::classes::{Around, Operand};
use script_grammar::stop::Stop;
use script_rows::{elements, statement as any_statement};
use std::alloc::Global;

/// An assignment or a conditional expression, so deep.
#[cycle(parser)]
pub fn assignment(
    alloc: Global,
    no_in: bool,
    base: u32,
    tokens: &[Token],
) -> Result<(Operand, u32, &[Token]), Stop>
    requires base { base ≤ 200 }
    ensures meets { Meets (Assign no_in) base tokens.now result }
    ensures small { IfOk result (λ r. base + r.1 ≤ 200) }
{
    let deeper = Grammar {
        alloc,
        depth: base + 1,
        assign: assignment,
        body,
        statement,
    };
    deeper.assignment(no_in, base, tokens)
}

/// An expression, in which commas may stand, so deep.
#[cycle(parser)]
pub fn expression(
    alloc: Global,
    no_in: bool,
    base: u32,
    tokens: &[Token],
) -> Result<(Operand, u32, &[Token]), Stop>
    requires base { base ≤ 200 }
    ensures meets { Meets (Expr no_in) base tokens.now result }
    ensures small { IfOk result (λ r. base + r.1 ≤ 200) }
{
    let deeper = Grammar {
        alloc,
        depth: base,
        assign: assignment,
        body,
        statement,
    };
    deeper.expression(no_in, base, tokens)
}

/// The body of a function, so deep.
#[cycle(parser)]
pub fn body(alloc: Global, base: u32, tokens: &[Token]) -> Result<(Script, u32, &[Token]), Stop>
    requires base { base ≤ 200 }
    ensures meets { Meets (Elements true [] []) base tokens.now result }
    ensures small { IfOk result (λ r. base + r.1 ≤ 200) }
{
    let below = Below {
        alloc,
        depth: base + 1,
        expr: expression,
        assign: assignment,
        body,
        statement,
    };
    elements(&below, true, base, tokens)
}

/// A statement, so deep.
#[cycle(parser)]
pub fn statement(
    alloc: Global,
    around: Around,
    base: u32,
    tokens: &[Token],
) -> Result<(Stmt, u32, &[Token]), Stop>
    requires base { base ≤ 200 }
    ensures meets { Meets (Statement around) base tokens.now result }
    ensures small { IfOk result (λ r. base + r.1 ≤ 200) }
{
    let below = Below {
        alloc,
        depth: base + 1,
        expr: expression,
        assign: assignment,
        body,
        statement,
    };
    any_statement(&below, around, base, tokens)
}

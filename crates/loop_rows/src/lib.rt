//! The rows of `for`.
#![tactic(auto)]

ghost use Rattle.std.specs.Prelude.{◌≤◌, ◌+◌, true, false, None, Some, IfOk};
ghost use Rattle.script_grammar.specs.Grammar as grammar;
ghost use Rattle.script_grammar.specs.Meets.{Assigns, Bodies, Ones, Follows};
ghost use Rattle.script_grammar.specs.Rules.Rule.{node};
ghost use Rattle.script_grammar.specs.Rules.Symbol.{Expr, Statement};
ghost use Rattle.script_grammar.specs.declared.classes.Start.TheVariants as start;
ghost use Rattle.part_rows.specs.Lines.{Begun, Exprs, for_value_rule, for_valued_rule, for_alone_rule, for_list_rule, for_assigned_rule, for_more_rule, for_declared_rule};

use js_lexer::{Mark, Reserved, Token};
use js_tree::{Expr, ForStart, ForTarget, Script, Stmt, Variable};
use part_rows::below::Below;
use part_rows::finish::{alone, sets, stand};
use part_rows::parts::{declarations, enclosed, optional};
use part_rows::round::looped;
use script_grammar::classes::{Around, Operand};
use script_grammar::classify::{is, is_word};
use script_grammar::steps::{Read, expect, first, name, refused};
use script_grammar::stop::Stop;
use sqlite_items::Items;
use std::alloc::Global;
use tree_drops::{expr, for_start, for_target, maybe_expr, variables};
use tree_makers::stmts;
use turk_base::Units;

/// `for`.
pub fn for_statement<
    'a,
    E: Fn(Global, bool, u32, &[Token]) -> Result<(Operand, u32, &[Token]), Stop>,
    F: Fn(Global, bool, u32, &[Token]) -> Result<(Operand, u32, &[Token]), Stop>,
    G: Fn(Global, u32, &[Token]) -> Result<(Script, u32, &[Token]), Stop>,
    H: Fn(Global, Around, u32, &[Token]) -> Result<(Stmt, u32, &[Token]), Stop>,
>(below: &Below<E, F, G, H>, around: Around, base: u32, tokens: &'a [Token]) -> Read<'a, Stmt>
    requires exprs { Exprs below.now.depth (E.pre below.now.expr) (E.post below.now.expr) }
    requires assigns { Assigns below.now.depth (F.pre below.now.assign) (F.post below.now.assign) }
    requires bodies { Bodies below.now.depth (G.pre below.now.body) (G.post below.now.body) }
    requires ones { Ones below.now.depth (H.pre below.now.statement) (H.post below.now.statement) }
    requires depth { below.now.depth ≤ base + 1 }
    requires base { base ≤ 200 }
    requires begun { Begun tokens.now }
    ensures meets { Follows (Statement around) base (grammar.statement_as around start.For) tokens.now result }
    ensures small { IfOk result (λ r. base + r.1 ≤ 200) }
{
    let stood = stand(base, 1, tokens)?;
    let open = expect(Mark::OpenParen, stood)?;
    let (made, height, done) = for_first(below, around, base, open)?;
    Ok((made, height.max(1), done))
}

/// What stands after the parenthesis of `for`.
pub fn for_first<
    'a,
    E: Fn(Global, bool, u32, &[Token]) -> Result<(Operand, u32, &[Token]), Stop>,
    F: Fn(Global, bool, u32, &[Token]) -> Result<(Operand, u32, &[Token]), Stop>,
    G: Fn(Global, u32, &[Token]) -> Result<(Script, u32, &[Token]), Stop>,
    H: Fn(Global, Around, u32, &[Token]) -> Result<(Stmt, u32, &[Token]), Stop>,
>(below: &Below<E, F, G, H>, around: Around, base: u32, tokens: &'a [Token]) -> Read<'a, Stmt>
    requires exprs { Exprs below.now.depth (E.pre below.now.expr) (E.post below.now.expr) }
    requires assigns { Assigns below.now.depth (F.pre below.now.assign) (F.post below.now.assign) }
    requires bodies { Bodies below.now.depth (G.pre below.now.body) (G.post below.now.body) }
    requires ones { Ones below.now.depth (H.pre below.now.statement) (H.post below.now.statement) }
    requires depth { below.now.depth ≤ base + 1 }
    requires base { base + 1 ≤ 200 }
    ensures meets { Follows (Statement around) base (grammar.for_first) tokens.now result }
    ensures small { IfOk result (λ r. base + r.1 ≤ 200) }
{
    let (token, after) = first(tokens)?;
    if is(Mark::Semicolon, token) {
        return for_test(below, around, stmts::no_start(), base, after);
    }
    if is_word(Reserved::Var, token) {
        let (units, rest) = name(below.alloc, after)?;
        return for_var(below, around, units, base, rest);
    }
    for_value(below, around, base, tokens)
}

/// An expression first in the head of `for`.
pub fn for_value<
    'a,
    E: Fn(Global, bool, u32, &[Token]) -> Result<(Operand, u32, &[Token]), Stop>,
    F: Fn(Global, bool, u32, &[Token]) -> Result<(Operand, u32, &[Token]), Stop>,
    G: Fn(Global, u32, &[Token]) -> Result<(Script, u32, &[Token]), Stop>,
    H: Fn(Global, Around, u32, &[Token]) -> Result<(Stmt, u32, &[Token]), Stop>,
>(below: &Below<E, F, G, H>, around: Around, base: u32, tokens: &'a [Token]) -> Read<'a, Stmt>
    requires exprs { Exprs below.now.depth (E.pre below.now.expr) (E.post below.now.expr) }
    requires assigns { Assigns below.now.depth (F.pre below.now.assign) (F.post below.now.assign) }
    requires bodies { Bodies below.now.depth (G.pre below.now.body) (G.post below.now.body) }
    requires ones { Ones below.now.depth (H.pre below.now.statement) (H.post below.now.statement) }
    requires depth { below.now.depth ≤ base + 1 }
    requires base { base + 1 ≤ 200 }
    ensures meets { Follows (Statement around) base (for_value_rule) tokens.now result }
    ensures small { IfOk result (λ r. base + r.1 ≤ 200) }
{
    let (value, height, rest) = below.expression(true, base + 1, tokens)?;
    let (made, above, done) = for_valued(below, around, value, base, rest)?;
    Ok((made, above.max(height + 1), done))
}

/// What stands after an expression that is first in the head of `for`.
pub fn for_valued<
    'a,
    E: Fn(Global, bool, u32, &[Token]) -> Result<(Operand, u32, &[Token]), Stop>,
    F: Fn(Global, bool, u32, &[Token]) -> Result<(Operand, u32, &[Token]), Stop>,
    G: Fn(Global, u32, &[Token]) -> Result<(Script, u32, &[Token]), Stop>,
    H: Fn(Global, Around, u32, &[Token]) -> Result<(Stmt, u32, &[Token]), Stop>,
>(
    below: &Below<E, F, G, H>,
    around: Around,
    value: Operand,
    base: u32,
    tokens: &'a [Token],
) -> Read<'a, Stmt>
    requires exprs { Exprs below.now.depth (E.pre below.now.expr) (E.post below.now.expr) }
    requires assigns { Assigns below.now.depth (F.pre below.now.assign) (F.post below.now.assign) }
    requires bodies { Bodies below.now.depth (G.pre below.now.body) (G.post below.now.body) }
    requires ones { Ones below.now.depth (H.pre below.now.statement) (H.post below.now.statement) }
    requires depth { below.now.depth ≤ base + 1 }
    requires base { base + 1 ≤ 200 }
    ensures meets { Follows (Statement around) base (for_valued_rule value) tokens.now result }
    ensures small { IfOk result (λ r. base + r.1 ≤ 200) }
{
    match first(tokens) {
        Ok((token, after)) => {
            if sets(&value, token) {
                return for_in(below, around, stmts::target_each(value.expr), base, after);
            }
            match expect(Mark::Semicolon, tokens) {
                Ok(next) => for_test(below, around, stmts::value_start(value.expr), base, next),
                Err(stop) => {
                    expr(value.expr);
                    Err(stop)
                }
            }
        }
        Err(stop) => {
            expr(value.expr);
            Err(stop)
        }
    }
}

/// What stands after the first name that `var` declares in the head of `for`.
pub fn for_var<
    'a,
    E: Fn(Global, bool, u32, &[Token]) -> Result<(Operand, u32, &[Token]), Stop>,
    F: Fn(Global, bool, u32, &[Token]) -> Result<(Operand, u32, &[Token]), Stop>,
    G: Fn(Global, u32, &[Token]) -> Result<(Script, u32, &[Token]), Stop>,
    H: Fn(Global, Around, u32, &[Token]) -> Result<(Stmt, u32, &[Token]), Stop>,
>(
    below: &Below<E, F, G, H>,
    around: Around,
    units: Units,
    base: u32,
    tokens: &'a [Token],
) -> Read<'a, Stmt>
    requires exprs { Exprs below.now.depth (E.pre below.now.expr) (E.post below.now.expr) }
    requires assigns { Assigns below.now.depth (F.pre below.now.assign) (F.post below.now.assign) }
    requires bodies { Bodies below.now.depth (G.pre below.now.body) (G.post below.now.body) }
    requires ones { Ones below.now.depth (H.pre below.now.statement) (H.post below.now.statement) }
    requires depth { below.now.depth ≤ base + 1 }
    requires base { base + 1 ≤ 200 }
    ensures meets { Follows (Statement around) base (grammar.for_var units) tokens.now result }
    ensures small { IfOk result (λ r. base + r.1 ≤ 200) }
{
    let (token, after) = first(tokens)?;
    if is_word(Reserved::In, token) {
        return for_in(below, around, stmts::var_each(units), base, after);
    }
    if is(Mark::Semicolon, token) {
        return for_var_alone(below, around, units, base, tokens);
    }
    if is(Mark::Comma, token) {
        return for_var_list(below, around, units, base, tokens);
    }
    if is(Mark::Assign, token) {
        return for_var_value(below, around, units, base, tokens);
    }
    Err(refused(None, token))
}

/// One name without a value in the head of `for`.
pub fn for_var_alone<
    'a,
    E: Fn(Global, bool, u32, &[Token]) -> Result<(Operand, u32, &[Token]), Stop>,
    F: Fn(Global, bool, u32, &[Token]) -> Result<(Operand, u32, &[Token]), Stop>,
    G: Fn(Global, u32, &[Token]) -> Result<(Script, u32, &[Token]), Stop>,
    H: Fn(Global, Around, u32, &[Token]) -> Result<(Stmt, u32, &[Token]), Stop>,
>(
    below: &Below<E, F, G, H>,
    around: Around,
    units: Units,
    base: u32,
    tokens: &'a [Token],
) -> Read<'a, Stmt>
    requires exprs { Exprs below.now.depth (E.pre below.now.expr) (E.post below.now.expr) }
    requires assigns { Assigns below.now.depth (F.pre below.now.assign) (F.post below.now.assign) }
    requires bodies { Bodies below.now.depth (G.pre below.now.body) (G.post below.now.body) }
    requires ones { Ones below.now.depth (H.pre below.now.statement) (H.post below.now.statement) }
    requires depth { below.now.depth ≤ base + 1 }
    requires base { base + 1 ≤ 200 }
    requires begun { Begun tokens.now }
    ensures meets { Follows (Statement around) base (node 2 (for_alone_rule units)) tokens.now result }
    ensures small { IfOk result (λ r. base + r.1 ≤ 200) }
{
    let stood = stand(base, 2, tokens)?;
    let all = alone(below.alloc, stmts::variable(units, None))?;
    let from = stmts::var_start(below.alloc, all)?;
    let (made, height, done) = for_test(below, around, from, base, stood)?;
    Ok((made, height.max(2), done))
}

/// Names of which the first has no value in the head of `for`.
pub fn for_var_list<
    'a,
    E: Fn(Global, bool, u32, &[Token]) -> Result<(Operand, u32, &[Token]), Stop>,
    F: Fn(Global, bool, u32, &[Token]) -> Result<(Operand, u32, &[Token]), Stop>,
    G: Fn(Global, u32, &[Token]) -> Result<(Script, u32, &[Token]), Stop>,
    H: Fn(Global, Around, u32, &[Token]) -> Result<(Stmt, u32, &[Token]), Stop>,
>(
    below: &Below<E, F, G, H>,
    around: Around,
    units: Units,
    base: u32,
    tokens: &'a [Token],
) -> Read<'a, Stmt>
    requires exprs { Exprs below.now.depth (E.pre below.now.expr) (E.post below.now.expr) }
    requires assigns { Assigns below.now.depth (F.pre below.now.assign) (F.post below.now.assign) }
    requires bodies { Bodies below.now.depth (G.pre below.now.body) (G.post below.now.body) }
    requires ones { Ones below.now.depth (H.pre below.now.statement) (H.post below.now.statement) }
    requires depth { below.now.depth ≤ base + 1 }
    requires base { base + 1 ≤ 200 }
    requires begun { Begun tokens.now }
    ensures meets { Follows (Statement around) base (node 2 (for_list_rule units)) tokens.now result }
    ensures small { IfOk result (λ r. base + r.1 ≤ 200) }
{
    let stood = stand(base, 2, tokens)?;
    let all = alone(below.alloc, stmts::variable(units, None))?;
    let (made, height, done) = for_declarations(below, around, all, base, stood)?;
    Ok((made, height.max(2), done))
}

/// Names of which the first has a value in the head of `for`.
pub fn for_var_value<
    'a,
    E: Fn(Global, bool, u32, &[Token]) -> Result<(Operand, u32, &[Token]), Stop>,
    F: Fn(Global, bool, u32, &[Token]) -> Result<(Operand, u32, &[Token]), Stop>,
    G: Fn(Global, u32, &[Token]) -> Result<(Script, u32, &[Token]), Stop>,
    H: Fn(Global, Around, u32, &[Token]) -> Result<(Stmt, u32, &[Token]), Stop>,
>(
    below: &Below<E, F, G, H>,
    around: Around,
    units: Units,
    base: u32,
    tokens: &'a [Token],
) -> Read<'a, Stmt>
    requires exprs { Exprs below.now.depth (E.pre below.now.expr) (E.post below.now.expr) }
    requires assigns { Assigns below.now.depth (F.pre below.now.assign) (F.post below.now.assign) }
    requires bodies { Bodies below.now.depth (G.pre below.now.body) (G.post below.now.body) }
    requires ones { Ones below.now.depth (H.pre below.now.statement) (H.post below.now.statement) }
    requires depth { below.now.depth ≤ base + 1 }
    requires base { base + 1 ≤ 200 }
    requires begun { Begun tokens.now }
    ensures meets { Follows (Statement around) base (node 2 (for_assigned_rule units)) tokens.now result }
    ensures small { IfOk result (λ r. base + r.1 ≤ 200) }
{
    let stood = stand(base, 2, tokens)?;
    let (value, one, rest) = below.assignment(true, base + 2, stood)?;
    let all = alone(below.alloc, stmts::variable(units, Some(value.expr)))?;
    let (made, height, done) = for_more(below, around, all, base, rest)?;
    Ok((made, height.max(one + 2), done))
}

/// What stands after the first name that `var` declares with a value in the head of `for`.
pub fn for_more<
    'a,
    E: Fn(Global, bool, u32, &[Token]) -> Result<(Operand, u32, &[Token]), Stop>,
    F: Fn(Global, bool, u32, &[Token]) -> Result<(Operand, u32, &[Token]), Stop>,
    G: Fn(Global, u32, &[Token]) -> Result<(Script, u32, &[Token]), Stop>,
    H: Fn(Global, Around, u32, &[Token]) -> Result<(Stmt, u32, &[Token]), Stop>,
>(
    below: &Below<E, F, G, H>,
    around: Around,
    all: Items<Variable>,
    base: u32,
    tokens: &'a [Token],
) -> Read<'a, Stmt>
    requires exprs { Exprs below.now.depth (E.pre below.now.expr) (E.post below.now.expr) }
    requires assigns { Assigns below.now.depth (F.pre below.now.assign) (F.post below.now.assign) }
    requires bodies { Bodies below.now.depth (G.pre below.now.body) (G.post below.now.body) }
    requires ones { Ones below.now.depth (H.pre below.now.statement) (H.post below.now.statement) }
    requires depth { below.now.depth ≤ base + 1 }
    requires base { base + 2 ≤ 200 }
    ensures meets { Follows (Statement around) base (for_more_rule all) tokens.now result }
    ensures small { IfOk result (λ r. base + r.1 ≤ 200) }
{
    match first(tokens) {
        Ok((token, after)) => {
            if is(Mark::Comma, token) {
                return for_declarations(below, around, all, base, after);
            }
            for_declared(below, around, all, base, tokens)
        }
        Err(stop) => {
            variables(all);
            Err(stop)
        }
    }
}

/// What stands after the declarations in the head of `for`.
pub fn for_declared<
    'a,
    E: Fn(Global, bool, u32, &[Token]) -> Result<(Operand, u32, &[Token]), Stop>,
    F: Fn(Global, bool, u32, &[Token]) -> Result<(Operand, u32, &[Token]), Stop>,
    G: Fn(Global, u32, &[Token]) -> Result<(Script, u32, &[Token]), Stop>,
    H: Fn(Global, Around, u32, &[Token]) -> Result<(Stmt, u32, &[Token]), Stop>,
>(
    below: &Below<E, F, G, H>,
    around: Around,
    all: Items<Variable>,
    base: u32,
    tokens: &'a [Token],
) -> Read<'a, Stmt>
    requires exprs { Exprs below.now.depth (E.pre below.now.expr) (E.post below.now.expr) }
    requires assigns { Assigns below.now.depth (F.pre below.now.assign) (F.post below.now.assign) }
    requires bodies { Bodies below.now.depth (G.pre below.now.body) (G.post below.now.body) }
    requires ones { Ones below.now.depth (H.pre below.now.statement) (H.post below.now.statement) }
    requires depth { below.now.depth ≤ base + 1 }
    requires base { base + 1 ≤ 200 }
    ensures meets { Follows (Statement around) base (for_declared_rule all) tokens.now result }
    ensures small { IfOk result (λ r. base + r.1 ≤ 200) }
{
    match expect(Mark::Semicolon, tokens) {
        Ok(next) => {
            let from = stmts::var_start(below.alloc, all)?;
            for_test(below, around, from, base, next)
        }
        Err(stop) => {
            variables(all);
            Err(stop)
        }
    }
}

/// The declarations in the head of `for`, after some.
pub fn for_declarations<
    'a,
    E: Fn(Global, bool, u32, &[Token]) -> Result<(Operand, u32, &[Token]), Stop>,
    F: Fn(Global, bool, u32, &[Token]) -> Result<(Operand, u32, &[Token]), Stop>,
    G: Fn(Global, u32, &[Token]) -> Result<(Script, u32, &[Token]), Stop>,
    H: Fn(Global, Around, u32, &[Token]) -> Result<(Stmt, u32, &[Token]), Stop>,
>(
    below: &Below<E, F, G, H>,
    around: Around,
    so_far: Items<Variable>,
    base: u32,
    tokens: &'a [Token],
) -> Read<'a, Stmt>
    requires exprs { Exprs below.now.depth (E.pre below.now.expr) (E.post below.now.expr) }
    requires assigns { Assigns below.now.depth (F.pre below.now.assign) (F.post below.now.assign) }
    requires bodies { Bodies below.now.depth (G.pre below.now.body) (G.post below.now.body) }
    requires ones { Ones below.now.depth (H.pre below.now.statement) (H.post below.now.statement) }
    requires depth { below.now.depth ≤ base + 1 }
    requires base { base + 2 ≤ 200 }
    ensures meets { Follows (Statement around) base (grammar.for_decls so_far) tokens.now result }
    ensures small { IfOk result (λ r. base + r.1 ≤ 200) }
{
    let (all, one, rest) = declarations(below, true, so_far, base + 2, tokens)?;
    let (made, height, done) = for_declared(below, around, all, base, rest)?;
    Ok((made, height.max(one + 2), done))
}

/// What stands after the first semicolon in the head of `for`.
pub fn for_test<
    'a,
    E: Fn(Global, bool, u32, &[Token]) -> Result<(Operand, u32, &[Token]), Stop>,
    F: Fn(Global, bool, u32, &[Token]) -> Result<(Operand, u32, &[Token]), Stop>,
    G: Fn(Global, u32, &[Token]) -> Result<(Script, u32, &[Token]), Stop>,
    H: Fn(Global, Around, u32, &[Token]) -> Result<(Stmt, u32, &[Token]), Stop>,
>(
    below: &Below<E, F, G, H>,
    around: Around,
    from: ForStart,
    base: u32,
    tokens: &'a [Token],
) -> Read<'a, Stmt>
    requires exprs { Exprs below.now.depth (E.pre below.now.expr) (E.post below.now.expr) }
    requires assigns { Assigns below.now.depth (F.pre below.now.assign) (F.post below.now.assign) }
    requires bodies { Bodies below.now.depth (G.pre below.now.body) (G.post below.now.body) }
    requires ones { Ones below.now.depth (H.pre below.now.statement) (H.post below.now.statement) }
    requires depth { below.now.depth ≤ base + 1 }
    requires base { base + 1 ≤ 200 }
    ensures meets { Follows (Statement around) base (grammar.for_test from) tokens.now result }
    ensures small { IfOk result (λ r. base + r.1 ≤ 200) }
{
    match optional(below, Mark::Semicolon, base, tokens) {
        Ok((test, one, next)) => {
            let (made, height, done) = for_step(below, around, from, test, base, next)?;
            Ok((made, height.max(one), done))
        }
        Err(stop) => {
            for_start(from);
            Err(stop)
        }
    }
}

/// What stands after the second semicolon in the head of `for`.
pub fn for_step<
    'a,
    E: Fn(Global, bool, u32, &[Token]) -> Result<(Operand, u32, &[Token]), Stop>,
    F: Fn(Global, bool, u32, &[Token]) -> Result<(Operand, u32, &[Token]), Stop>,
    G: Fn(Global, u32, &[Token]) -> Result<(Script, u32, &[Token]), Stop>,
    H: Fn(Global, Around, u32, &[Token]) -> Result<(Stmt, u32, &[Token]), Stop>,
>(
    below: &Below<E, F, G, H>,
    around: Around,
    from: ForStart,
    test: Option<Expr>,
    base: u32,
    tokens: &'a [Token],
) -> Read<'a, Stmt>
    requires exprs { Exprs below.now.depth (E.pre below.now.expr) (E.post below.now.expr) }
    requires assigns { Assigns below.now.depth (F.pre below.now.assign) (F.post below.now.assign) }
    requires bodies { Bodies below.now.depth (G.pre below.now.body) (G.post below.now.body) }
    requires ones { Ones below.now.depth (H.pre below.now.statement) (H.post below.now.statement) }
    requires depth { below.now.depth ≤ base + 1 }
    requires base { base + 1 ≤ 200 }
    ensures meets { Follows (Statement around) base (grammar.for_step from test) tokens.now result }
    ensures small { IfOk result (λ r. base + r.1 ≤ 200) }
{
    match optional(below, Mark::CloseParen, base, tokens) {
        Ok((step, one, next)) => {
            let (made, height, done) = for_body(below, around, from, test, step, base, next)?;
            Ok((made, height.max(one), done))
        }
        Err(stop) => {
            for_start(from);
            maybe_expr(test);
            Err(stop)
        }
    }
}

/// The statement of `for`.
pub fn for_body<
    'a,
    E: Fn(Global, bool, u32, &[Token]) -> Result<(Operand, u32, &[Token]), Stop>,
    F: Fn(Global, bool, u32, &[Token]) -> Result<(Operand, u32, &[Token]), Stop>,
    G: Fn(Global, u32, &[Token]) -> Result<(Script, u32, &[Token]), Stop>,
    H: Fn(Global, Around, u32, &[Token]) -> Result<(Stmt, u32, &[Token]), Stop>,
>(
    below: &Below<E, F, G, H>,
    around: Around,
    from: ForStart,
    test: Option<Expr>,
    step: Option<Expr>,
    base: u32,
    tokens: &'a [Token],
) -> Read<'a, Stmt>
    requires exprs { Exprs below.now.depth (E.pre below.now.expr) (E.post below.now.expr) }
    requires assigns { Assigns below.now.depth (F.pre below.now.assign) (F.post below.now.assign) }
    requires bodies { Bodies below.now.depth (G.pre below.now.body) (G.post below.now.body) }
    requires ones { Ones below.now.depth (H.pre below.now.statement) (H.post below.now.statement) }
    requires depth { below.now.depth ≤ base + 1 }
    requires base { base + 1 ≤ 200 }
    ensures meets { Follows (Statement around) base (grammar.for_body from test step) tokens.now result }
    ensures small { IfOk result (λ r. base + r.1 ≤ 200) }
{
    match below.one(looped(around), base + 1, tokens) {
        Ok((body, height, done)) => {
            let made = stmts::for_loop(below.alloc, from, test, step, body)?;
            Ok((made, height + 1, done))
        }
        Err(stop) => {
            for_start(from);
            maybe_expr(test);
            maybe_expr(step);
            Err(stop)
        }
    }
}

/// What stands after `in` in the head of `for`.
pub fn for_in<
    'a,
    E: Fn(Global, bool, u32, &[Token]) -> Result<(Operand, u32, &[Token]), Stop>,
    F: Fn(Global, bool, u32, &[Token]) -> Result<(Operand, u32, &[Token]), Stop>,
    G: Fn(Global, u32, &[Token]) -> Result<(Script, u32, &[Token]), Stop>,
    H: Fn(Global, Around, u32, &[Token]) -> Result<(Stmt, u32, &[Token]), Stop>,
>(
    below: &Below<E, F, G, H>,
    around: Around,
    target: ForTarget,
    base: u32,
    tokens: &'a [Token],
) -> Read<'a, Stmt>
    requires exprs { Exprs below.now.depth (E.pre below.now.expr) (E.post below.now.expr) }
    requires assigns { Assigns below.now.depth (F.pre below.now.assign) (F.post below.now.assign) }
    requires bodies { Bodies below.now.depth (G.pre below.now.body) (G.post below.now.body) }
    requires ones { Ones below.now.depth (H.pre below.now.statement) (H.post below.now.statement) }
    requires depth { below.now.depth ≤ base + 1 }
    requires base { base + 1 ≤ 200 }
    ensures meets { Follows (Statement around) base (grammar.for_in target) tokens.now result }
    ensures small { IfOk result (λ r. base + r.1 ≤ 200) }
{
    match enclosed(below, Mark::CloseParen, base, tokens) {
        Ok((value, one, next)) => match below.one(looped(around), base + 1, next) {
            Ok((body, two, done)) => {
                let made = stmts::for_in(below.alloc, target, value, body)?;
                Ok((made, one.max(two + 1), done))
            }
            Err(stop) => {
                for_target(target);
                expr(value);
                Err(stop)
            }
        },
        Err(stop) => {
            for_target(target);
            Err(stop)
        }
    }
}

//! Parts of statements that several rows have.

ghost use Rattle.std.specs.Prelude.{◌≢◌, ◌≤◌, ◌+◌, false, None, Some, [], MatchResult, IfOk};
ghost use Rattle.script_grammar.specs.Meets.{Assigns, Bodies, Ones, Meets, TookFunction, MissesFunction};
ghost use Rattle.script_grammar.specs.Rules.Symbol.{Expr, Statements, Block, Decls};
ghost use Rattle.script_grammar.specs.declared.stop.Stop.TheVariants.{Memory};
ghost use Rattle.part_rows.specs.Lines.{Exprs, TookClosed, MissesClosed, TookOptional, MissesOptional, TookParentheses, MissesParentheses, TookVariable, MissesVariable};

use crate::below::Below;
use js_lexer::{Mark, Token};
use js_tree::{Expr, Script, Stmt, Variable};
use script_grammar::classes::{Around, Operand};
use script_grammar::classify::{is, stops};
use script_grammar::steps::{LIMIT, Read, expect, first, name, parameters, refused};
use script_grammar::stop::Stop;
use sqlite_items::Items;
use std::alloc::Global;
use tree_drops::{expr, script, stmts, stmts_with, variables, variables_with};
use tree_makers::stmts as makers;
use turk_base::Units;

/// An expression, one deeper, and the token that closes it.
pub fn enclosed<
    'a,
    E: Fn(Global, bool, u32, &[Token]) -> Result<(Operand, u32, &[Token]), Stop>,
    F: Fn(Global, bool, u32, &[Token]) -> Result<(Operand, u32, &[Token]), Stop>,
    G: Fn(Global, u32, &[Token]) -> Result<(Script, u32, &[Token]), Stop>,
    H: Fn(Global, Around, u32, &[Token]) -> Result<(Stmt, u32, &[Token]), Stop>,
>(below: &Below<E, F, G, H>, close: Mark, base: u32, tokens: &'a [Token]) -> Read<'a, Expr>
    requires exprs { Exprs below.now.depth (E.pre below.now.expr) (E.post below.now.expr) }
    requires assigns { Assigns below.now.depth (F.pre below.now.assign) (F.post below.now.assign) }
    requires bodies { Bodies below.now.depth (G.pre below.now.body) (G.post below.now.body) }
    requires ones { Ones below.now.depth (H.pre below.now.statement) (H.post below.now.statement) }
    requires depth { below.now.depth ≤ base + 1 }
    requires base { base + 1 ≤ 200 }
    ensures takes { MatchResult result (λ p. TookClosed close base tokens.now p.0 p.1 p.2.now) (λ e. e ≢ Memory → MissesClosed close base tokens.now e) }
    ensures small { IfOk result (λ r. base + r.1 ≤ 200) }
{
    let (value, height, rest) = below.expression(false, base + 1, tokens)?;
    match expect(close, rest) {
        Ok(after) => Ok((value.expr, height + 1, after)),
        Err(stop) => {
            expr(value.expr);
            Err(stop)
        }
    }
}

/// An expression that may be left out, one deeper, and the token that closes it.
pub fn optional<
    'a,
    E: Fn(Global, bool, u32, &[Token]) -> Result<(Operand, u32, &[Token]), Stop>,
    F: Fn(Global, bool, u32, &[Token]) -> Result<(Operand, u32, &[Token]), Stop>,
    G: Fn(Global, u32, &[Token]) -> Result<(Script, u32, &[Token]), Stop>,
    H: Fn(Global, Around, u32, &[Token]) -> Result<(Stmt, u32, &[Token]), Stop>,
>(below: &Below<E, F, G, H>, close: Mark, base: u32, tokens: &'a [Token]) -> Read<'a, Option<Expr>>
    requires exprs { Exprs below.now.depth (E.pre below.now.expr) (E.post below.now.expr) }
    requires assigns { Assigns below.now.depth (F.pre below.now.assign) (F.post below.now.assign) }
    requires bodies { Bodies below.now.depth (G.pre below.now.body) (G.post below.now.body) }
    requires ones { Ones below.now.depth (H.pre below.now.statement) (H.post below.now.statement) }
    requires depth { below.now.depth ≤ base + 1 }
    requires base { base + 1 ≤ 200 }
    ensures takes { MatchResult result (λ p. TookOptional close base tokens.now p.0 p.1 p.2.now) (λ e. e ≢ Memory → MissesOptional close base tokens.now e) }
    ensures small { IfOk result (λ r. base + r.1 ≤ 200) }
{
    let (token, after) = first(tokens)?;
    if is(close, token) {
        return Ok((None, 0, after));
    }
    let (value, height, rest) = enclosed(below, close, base, tokens)?;
    Ok((Some(value), height, rest))
}

/// An expression in parentheses, one deeper.
pub fn in_parentheses<
    'a,
    E: Fn(Global, bool, u32, &[Token]) -> Result<(Operand, u32, &[Token]), Stop>,
    F: Fn(Global, bool, u32, &[Token]) -> Result<(Operand, u32, &[Token]), Stop>,
    G: Fn(Global, u32, &[Token]) -> Result<(Script, u32, &[Token]), Stop>,
    H: Fn(Global, Around, u32, &[Token]) -> Result<(Stmt, u32, &[Token]), Stop>,
>(below: &Below<E, F, G, H>, base: u32, tokens: &'a [Token]) -> Read<'a, Expr>
    requires exprs { Exprs below.now.depth (E.pre below.now.expr) (E.post below.now.expr) }
    requires assigns { Assigns below.now.depth (F.pre below.now.assign) (F.post below.now.assign) }
    requires bodies { Bodies below.now.depth (G.pre below.now.body) (G.post below.now.body) }
    requires ones { Ones below.now.depth (H.pre below.now.statement) (H.post below.now.statement) }
    requires depth { below.now.depth ≤ base + 1 }
    requires base { base + 1 ≤ 200 }
    ensures takes { MatchResult result (λ p. TookParentheses base tokens.now p.0 p.1 p.2.now) (λ e. e ≢ Memory → MissesParentheses base tokens.now e) }
    ensures small { IfOk result (λ r. base + r.1 ≤ 200) }
{
    let open = expect(Mark::OpenParen, tokens)?;
    enclosed(below, Mark::CloseParen, base, open)
}

/// Statements, up to what ends them.
pub fn statements<
    'a,
    E: Fn(Global, bool, u32, &[Token]) -> Result<(Operand, u32, &[Token]), Stop>,
    F: Fn(Global, bool, u32, &[Token]) -> Result<(Operand, u32, &[Token]), Stop>,
    G: Fn(Global, u32, &[Token]) -> Result<(Script, u32, &[Token]), Stop>,
    H: Fn(Global, Around, u32, &[Token]) -> Result<(Stmt, u32, &[Token]), Stop>,
>(
    below: &Below<E, F, G, H>,
    around: Around,
    base: u32,
    tokens: &'a [Token],
) -> Read<'a, Items<Stmt>>
    requires exprs { Exprs below.now.depth (E.pre below.now.expr) (E.post below.now.expr) }
    requires assigns { Assigns below.now.depth (F.pre below.now.assign) (F.post below.now.assign) }
    requires bodies { Bodies below.now.depth (G.pre below.now.body) (G.post below.now.body) }
    requires ones { Ones below.now.depth (H.pre below.now.statement) (H.post below.now.statement) }
    requires depth { below.now.depth ≤ base }
    requires base { base ≤ 200 }
    ensures meets { Meets (Statements around []) base tokens.now result }
    ensures small { IfOk result (λ r. base + r.1 ≤ 200) }
{
    let mut all = Items::new(below.alloc);
    let mut tall = 0;
    let mut left = tokens;
    loop {
        match first(left) {
            Ok((token, _)) => {
                if stops(token) {
                    return Ok((all, tall, left));
                }
                match below.one(around, base, left) {
                    Ok((one, height, rest)) => {
                        all = stmts_with(all, one)?;
                        tall = tall.max(height);
                        left = rest;
                    }
                    Err(stop) => {
                        stmts(all);
                        return Err(stop);
                    }
                }
            }
            Err(stop) => {
                stmts(all);
                return Err(stop);
            }
        }
    }
}

/// A block.
pub fn block<
    'a,
    E: Fn(Global, bool, u32, &[Token]) -> Result<(Operand, u32, &[Token]), Stop>,
    F: Fn(Global, bool, u32, &[Token]) -> Result<(Operand, u32, &[Token]), Stop>,
    G: Fn(Global, u32, &[Token]) -> Result<(Script, u32, &[Token]), Stop>,
    H: Fn(Global, Around, u32, &[Token]) -> Result<(Stmt, u32, &[Token]), Stop>,
>(below: &Below<E, F, G, H>, around: Around, base: u32, tokens: &'a [Token]) -> Read<'a, Stmt>
    requires exprs { Exprs below.now.depth (E.pre below.now.expr) (E.post below.now.expr) }
    requires assigns { Assigns below.now.depth (F.pre below.now.assign) (F.post below.now.assign) }
    requires bodies { Bodies below.now.depth (G.pre below.now.body) (G.post below.now.body) }
    requires ones { Ones below.now.depth (H.pre below.now.statement) (H.post below.now.statement) }
    requires depth { below.now.depth ≤ base + 1 }
    requires base { base ≤ 200 }
    ensures meets { Meets (Block around) base tokens.now result }
    ensures small { IfOk result (λ r. base + r.1 ≤ 200) }
{
    let (token, open) = first(tokens)?;
    if !is(Mark::OpenBrace, token) {
        return Err(refused(None, token));
    }
    if base == LIMIT {
        return Err(Stop::Nesting);
    }
    let (all, height, rest) = statements(below, around, base + 1, open)?;
    match expect(Mark::CloseBrace, rest) {
        Ok(closed) => Ok((makers::block(all), height + 1, closed)),
        Err(stop) => {
            stmts(all);
            Err(stop)
        }
    }
}

/// A name of a declaration, with its value where it has one.
pub fn variable<
    'a,
    E: Fn(Global, bool, u32, &[Token]) -> Result<(Operand, u32, &[Token]), Stop>,
    F: Fn(Global, bool, u32, &[Token]) -> Result<(Operand, u32, &[Token]), Stop>,
    G: Fn(Global, u32, &[Token]) -> Result<(Script, u32, &[Token]), Stop>,
    H: Fn(Global, Around, u32, &[Token]) -> Result<(Stmt, u32, &[Token]), Stop>,
>(below: &Below<E, F, G, H>, no_in: bool, base: u32, tokens: &'a [Token]) -> Read<'a, Variable>
    requires exprs { Exprs below.now.depth (E.pre below.now.expr) (E.post below.now.expr) }
    requires assigns { Assigns below.now.depth (F.pre below.now.assign) (F.post below.now.assign) }
    requires bodies { Bodies below.now.depth (G.pre below.now.body) (G.post below.now.body) }
    requires ones { Ones below.now.depth (H.pre below.now.statement) (H.post below.now.statement) }
    requires depth { below.now.depth ≤ base }
    requires base { base ≤ 200 }
    ensures takes { MatchResult result (λ p. TookVariable no_in base tokens.now p.0 p.1 p.2.now) (λ e. e ≢ Memory → MissesVariable no_in base tokens.now e) }
    ensures small { IfOk result (λ r. base + r.1 ≤ 200) }
{
    let (units, named) = name(below.alloc, tokens)?;
    let (token, after) = first(named)?;
    if !is(Mark::Assign, token) {
        return Ok((makers::variable(units, None), 0, named));
    }
    let (value, height, rest) = below.assignment(no_in, base, after)?;
    Ok((makers::variable(units, Some(value.expr)), height, rest))
}

/// The declarations of `var`, after some.
pub fn declarations<
    'a,
    E: Fn(Global, bool, u32, &[Token]) -> Result<(Operand, u32, &[Token]), Stop>,
    F: Fn(Global, bool, u32, &[Token]) -> Result<(Operand, u32, &[Token]), Stop>,
    G: Fn(Global, u32, &[Token]) -> Result<(Script, u32, &[Token]), Stop>,
    H: Fn(Global, Around, u32, &[Token]) -> Result<(Stmt, u32, &[Token]), Stop>,
>(
    below: &Below<E, F, G, H>,
    no_in: bool,
    so_far: Items<Variable>,
    base: u32,
    tokens: &'a [Token],
) -> Read<'a, Items<Variable>>
    requires exprs { Exprs below.now.depth (E.pre below.now.expr) (E.post below.now.expr) }
    requires assigns { Assigns below.now.depth (F.pre below.now.assign) (F.post below.now.assign) }
    requires bodies { Bodies below.now.depth (G.pre below.now.body) (G.post below.now.body) }
    requires ones { Ones below.now.depth (H.pre below.now.statement) (H.post below.now.statement) }
    requires depth { below.now.depth ≤ base }
    requires base { base ≤ 200 }
    ensures meets { Meets (Decls no_in so_far) base tokens.now result }
    ensures small { IfOk result (λ r. base + r.1 ≤ 200) }
{
    let mut all = so_far;
    let mut tall = 0;
    let mut left = tokens;
    loop {
        match variable(below, no_in, base, left) {
            Ok((one, height, rest)) => {
                all = variables_with(all, one)?;
                tall = tall.max(height);
                match first(rest) {
                    Ok((token, after)) => {
                        if !is(Mark::Comma, token) {
                            return Ok((all, tall, rest));
                        }
                        left = after;
                    }
                    Err(stop) => {
                        variables(all);
                        return Err(stop);
                    }
                }
            }
            Err(stop) => {
                variables(all);
                return Err(stop);
            }
        }
    }
}

/// The parameters and the body of a function.
pub fn function<
    'a,
    E: Fn(Global, bool, u32, &[Token]) -> Result<(Operand, u32, &[Token]), Stop>,
    F: Fn(Global, bool, u32, &[Token]) -> Result<(Operand, u32, &[Token]), Stop>,
    G: Fn(Global, u32, &[Token]) -> Result<(Script, u32, &[Token]), Stop>,
    H: Fn(Global, Around, u32, &[Token]) -> Result<(Stmt, u32, &[Token]), Stop>,
>(
    below: &Below<E, F, G, H>,
    base: u32,
    tokens: &'a [Token],
) -> Result<(Items<Units>, Script, u32, &'a [Token]), Stop>
    requires exprs { Exprs below.now.depth (E.pre below.now.expr) (E.post below.now.expr) }
    requires assigns { Assigns below.now.depth (F.pre below.now.assign) (F.post below.now.assign) }
    requires bodies { Bodies below.now.depth (G.pre below.now.body) (G.post below.now.body) }
    requires ones { Ones below.now.depth (H.pre below.now.statement) (H.post below.now.statement) }
    requires depth { below.now.depth ≤ base + 1 }
    requires base { base + 1 ≤ 200 }
    ensures takes { MatchResult result (λ p. TookFunction base tokens.now p.0 p.1 p.2 p.3.now) (λ e. e ≢ Memory → MissesFunction base tokens.now e) }
    ensures small { IfOk result (λ r. base + r.2 ≤ 200) }
{
    let (names, named) = parameters(below.alloc, tokens)?;
    let open = expect(Mark::OpenBrace, named)?;
    let (body, height, rest) = below.inner(base + 1, open)?;
    match expect(Mark::CloseBrace, rest) {
        Ok(closed) => Ok((names, body, height + 1, closed)),
        Err(stop) => {
            script(body);
            Err(stop)
        }
    }
}

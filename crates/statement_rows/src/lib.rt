//! The rows of statements that are no `for`, `switch` or `try`.
#![tactic(auto)]

ghost use Rattle.std.specs.Prelude.{◌≢◌, ◌≤◌, ◌+◌, None, Some, IfOk, MatchResult};
ghost use Rattle.script_grammar.specs.Grammar as grammar;
ghost use Rattle.script_grammar.specs.Meets.{Assigns, Bodies, Ones, Follows};
ghost use Rattle.script_grammar.specs.Rules.{Context};
ghost use Rattle.script_grammar.specs.Rules.Symbol.{Statement};
ghost use Rattle.script_grammar.specs.declared.classes.Start.TheVariants as start;
ghost use Rattle.script_grammar.specs.declared.stop.Stop.TheVariants.{Memory};
ghost use Rattle.part_rows.specs.Lines.{Begun, Opened, Exprs};
ghost use Rattle.statement_rows.specs.Rests.{do_rule, else_rule, second_rule, TookTest, MissesTest};

use js_lexer::{Reserved, Token};
use js_tree::{Expr, Script, Stmt};
use part_rows::below::Below;
use part_rows::finish::{breaks, ends, ends_identifier, halts, jump, quits, stand};
use part_rows::parts::{declarations, in_parentheses};
use part_rows::round::looped;
use script_grammar::classes::{Around, Operand};
use script_grammar::classify::is_word;
use script_grammar::steps::{LIMIT, Read, beyond, expect_word, first, refused};
use script_grammar::stop::Stop;
use sqlite_items::Items;
use std::alloc::Global;
use tree_drops as drops;
use tree_makers::stmts;

/// `var` and its names.
pub fn var_statement<
    'a,
    E: Fn(Global, bool, u32, &[Token]) -> Result<(Operand, u32, &[Token]), Stop>,
    F: Fn(Global, bool, u32, &[Token]) -> Result<(Operand, u32, &[Token]), Stop>,
    G: Fn(Global, u32, &[Token]) -> Result<(Script, u32, &[Token]), Stop>,
    H: Fn(Global, Around, u32, &[Token]) -> Result<(Stmt, u32, &[Token]), Stop>,
>(below: &Below<E, F, G, H>, around: Around, base: u32, tokens: &'a [Token]) -> Read<'a, Stmt>
    requires exprs { Exprs below.now.depth (E.pre below.now.expr) (E.post below.now.expr) }
    requires assigns { Assigns below.now.depth (F.pre below.now.assign) (F.post below.now.assign) }
    requires bodies { Bodies below.now.depth (G.pre below.now.body) (G.post below.now.body) }
    requires ones { Ones below.now.depth (H.pre below.now.statement) (H.post below.now.statement) }
    requires depth { below.now.depth ≤ base + 1 }
    requires base { base ≤ 200 }
    requires begun { Begun tokens.now }
    ensures meets { Follows (Statement around) base (grammar.statement_as around start.Var) tokens.now result }
    ensures small { IfOk result (λ r. base + r.1 ≤ 200) }
{
    let stood = stand(base, 1, tokens)?;
    let (all, height, rest) = declarations(below, false, Items::new(below.alloc), base + 1, stood)?;
    match ends(rest) {
        Ok(ended) => Ok((stmts::var(all), height + 1, ended)),
        Err(stop) => {
            drops::variables(all);
            Err(stop)
        }
    }
}

/// The empty statement.
pub fn empty_statement<'a>(base: u32, tokens: &'a [Token]) -> Read<'a, Stmt>
    requires base { base ≤ 200 }
    requires begun { Begun tokens.now }
    ensures meets { (c : Context) → Follows (Statement c) base (grammar.statement_as c start.Empty) tokens.now result }
    ensures small { IfOk result (λ r. base + r.1 ≤ 200) }
{
    let stood = stand(base, 1, tokens)?;
    Ok((stmts::empty(), 1, stood))
}

/// `if`.
pub fn if_statement<
    'a,
    E: Fn(Global, bool, u32, &[Token]) -> Result<(Operand, u32, &[Token]), Stop>,
    F: Fn(Global, bool, u32, &[Token]) -> Result<(Operand, u32, &[Token]), Stop>,
    G: Fn(Global, u32, &[Token]) -> Result<(Script, u32, &[Token]), Stop>,
    H: Fn(Global, Around, u32, &[Token]) -> Result<(Stmt, u32, &[Token]), Stop>,
>(below: &Below<E, F, G, H>, around: Around, base: u32, tokens: &'a [Token]) -> Read<'a, Stmt>
    requires exprs { Exprs below.now.depth (E.pre below.now.expr) (E.post below.now.expr) }
    requires assigns { Assigns below.now.depth (F.pre below.now.assign) (F.post below.now.assign) }
    requires bodies { Bodies below.now.depth (G.pre below.now.body) (G.post below.now.body) }
    requires ones { Ones below.now.depth (H.pre below.now.statement) (H.post below.now.statement) }
    requires depth { below.now.depth ≤ base + 1 }
    requires base { base ≤ 200 }
    requires begun { Begun tokens.now }
    ensures meets { Follows (Statement around) base (grammar.statement_as around start.If) tokens.now result }
    ensures small { IfOk result (λ r. base + r.1 ≤ 200) }
{
    let stood = stand(base, 1, tokens)?;
    let (test, one, rest) = in_parentheses(below, base, stood)?;
    let (made, two, done) = after_if(below, around, test, base, rest)?;
    Ok((made, one.max(two).max(1), done))
}

/// What stands after the test of an `if`.
pub fn after_if<
    'a,
    E: Fn(Global, bool, u32, &[Token]) -> Result<(Operand, u32, &[Token]), Stop>,
    F: Fn(Global, bool, u32, &[Token]) -> Result<(Operand, u32, &[Token]), Stop>,
    G: Fn(Global, u32, &[Token]) -> Result<(Script, u32, &[Token]), Stop>,
    H: Fn(Global, Around, u32, &[Token]) -> Result<(Stmt, u32, &[Token]), Stop>,
>(
    below: &Below<E, F, G, H>,
    around: Around,
    test: Expr,
    base: u32,
    tokens: &'a [Token],
) -> Read<'a, Stmt>
    requires exprs { Exprs below.now.depth (E.pre below.now.expr) (E.post below.now.expr) }
    requires assigns { Assigns below.now.depth (F.pre below.now.assign) (F.post below.now.assign) }
    requires bodies { Bodies below.now.depth (G.pre below.now.body) (G.post below.now.body) }
    requires ones { Ones below.now.depth (H.pre below.now.statement) (H.post below.now.statement) }
    requires depth { below.now.depth ≤ base + 1 }
    requires base { base + 1 ≤ 200 }
    ensures meets { Follows (Statement around) base (grammar.after_if test) tokens.now result }
    ensures small { IfOk result (λ r. base + r.1 ≤ 200) }
{
    match below.one(around, base + 1, tokens) {
        Ok((yes, one, rest)) => {
            let (made, two, done) = after_then(below, around, test, yes, base, rest)?;
            Ok((made, two.max(one + 1), done))
        }
        Err(stop) => {
            drops::expr(test);
            Err(stop)
        }
    }
}

/// What stands after the first statement of an `if`.
pub fn after_then<
    'a,
    E: Fn(Global, bool, u32, &[Token]) -> Result<(Operand, u32, &[Token]), Stop>,
    F: Fn(Global, bool, u32, &[Token]) -> Result<(Operand, u32, &[Token]), Stop>,
    G: Fn(Global, u32, &[Token]) -> Result<(Script, u32, &[Token]), Stop>,
    H: Fn(Global, Around, u32, &[Token]) -> Result<(Stmt, u32, &[Token]), Stop>,
>(
    below: &Below<E, F, G, H>,
    around: Around,
    test: Expr,
    yes: Stmt,
    base: u32,
    tokens: &'a [Token],
) -> Read<'a, Stmt>
    requires exprs { Exprs below.now.depth (E.pre below.now.expr) (E.post below.now.expr) }
    requires assigns { Assigns below.now.depth (F.pre below.now.assign) (F.post below.now.assign) }
    requires bodies { Bodies below.now.depth (G.pre below.now.body) (G.post below.now.body) }
    requires ones { Ones below.now.depth (H.pre below.now.statement) (H.post below.now.statement) }
    requires depth { below.now.depth ≤ base + 1 }
    requires base { base + 1 ≤ 200 }
    ensures meets { Follows (Statement around) base (else_rule test yes) tokens.now result }
    ensures small { IfOk result (λ r. base + r.1 ≤ 200) }
{
    match first(tokens) {
        Ok((token, after)) => {
            if is_word(Reserved::Else, token) {
                return after_else(below, around, test, yes, base, after);
            }
            let made = stmts::if_else(below.alloc, test, yes, None)?;
            Ok((made, 0, tokens))
        }
        Err(stop) => {
            drops::expr(test);
            drops::stmt(yes);
            Err(stop)
        }
    }
}

/// What stands after `else`.
pub fn after_else<
    'a,
    E: Fn(Global, bool, u32, &[Token]) -> Result<(Operand, u32, &[Token]), Stop>,
    F: Fn(Global, bool, u32, &[Token]) -> Result<(Operand, u32, &[Token]), Stop>,
    G: Fn(Global, u32, &[Token]) -> Result<(Script, u32, &[Token]), Stop>,
    H: Fn(Global, Around, u32, &[Token]) -> Result<(Stmt, u32, &[Token]), Stop>,
>(
    below: &Below<E, F, G, H>,
    around: Around,
    test: Expr,
    yes: Stmt,
    base: u32,
    tokens: &'a [Token],
) -> Read<'a, Stmt>
    requires exprs { Exprs below.now.depth (E.pre below.now.expr) (E.post below.now.expr) }
    requires assigns { Assigns below.now.depth (F.pre below.now.assign) (F.post below.now.assign) }
    requires bodies { Bodies below.now.depth (G.pre below.now.body) (G.post below.now.body) }
    requires ones { Ones below.now.depth (H.pre below.now.statement) (H.post below.now.statement) }
    requires depth { below.now.depth ≤ base + 1 }
    requires base { base + 1 ≤ 200 }
    ensures meets { Follows (Statement around) base (second_rule test yes) tokens.now result }
    ensures small { IfOk result (λ r. base + r.1 ≤ 200) }
{
    match below.one(around, base + 1, tokens) {
        Ok((no, height, done)) => {
            let made = stmts::if_else(below.alloc, test, yes, Some(no))?;
            Ok((made, height + 1, done))
        }
        Err(stop) => {
            drops::expr(test);
            drops::stmt(yes);
            Err(stop)
        }
    }
}

/// `do` .. `while`.
pub fn do_statement<
    'a,
    E: Fn(Global, bool, u32, &[Token]) -> Result<(Operand, u32, &[Token]), Stop>,
    F: Fn(Global, bool, u32, &[Token]) -> Result<(Operand, u32, &[Token]), Stop>,
    G: Fn(Global, u32, &[Token]) -> Result<(Script, u32, &[Token]), Stop>,
    H: Fn(Global, Around, u32, &[Token]) -> Result<(Stmt, u32, &[Token]), Stop>,
>(below: &Below<E, F, G, H>, around: Around, base: u32, tokens: &'a [Token]) -> Read<'a, Stmt>
    requires exprs { Exprs below.now.depth (E.pre below.now.expr) (E.post below.now.expr) }
    requires assigns { Assigns below.now.depth (F.pre below.now.assign) (F.post below.now.assign) }
    requires bodies { Bodies below.now.depth (G.pre below.now.body) (G.post below.now.body) }
    requires ones { Ones below.now.depth (H.pre below.now.statement) (H.post below.now.statement) }
    requires depth { below.now.depth ≤ base + 1 }
    requires base { base ≤ 200 }
    requires begun { Begun tokens.now }
    ensures meets { Follows (Statement around) base (grammar.statement_as around start.Do) tokens.now result }
    ensures small { IfOk result (λ r. base + r.1 ≤ 200) }
{
    let stood = stand(base, 1, tokens)?;
    let (body, one, rest) = below.one(looped(around), base + 1, stood)?;
    let (made, two, done) = after_do(below, around, body, base, rest)?;
    Ok((made, two.max(one + 1), done))
}

/// What stands after the body of a `do`.
pub fn after_do<
    'a,
    E: Fn(Global, bool, u32, &[Token]) -> Result<(Operand, u32, &[Token]), Stop>,
    F: Fn(Global, bool, u32, &[Token]) -> Result<(Operand, u32, &[Token]), Stop>,
    G: Fn(Global, u32, &[Token]) -> Result<(Script, u32, &[Token]), Stop>,
    H: Fn(Global, Around, u32, &[Token]) -> Result<(Stmt, u32, &[Token]), Stop>,
>(
    below: &Below<E, F, G, H>,
    around: Around,
    body: Stmt,
    base: u32,
    tokens: &'a [Token],
) -> Read<'a, Stmt>
    requires exprs { Exprs below.now.depth (E.pre below.now.expr) (E.post below.now.expr) }
    requires assigns { Assigns below.now.depth (F.pre below.now.assign) (F.post below.now.assign) }
    requires bodies { Bodies below.now.depth (G.pre below.now.body) (G.post below.now.body) }
    requires ones { Ones below.now.depth (H.pre below.now.statement) (H.post below.now.statement) }
    requires depth { below.now.depth ≤ base + 1 }
    requires base { base + 1 ≤ 200 }
    ensures meets { Follows (Statement around) base (do_rule body) tokens.now result }
    ensures small { IfOk result (λ r. base + r.1 ≤ 200) }
{
    match do_test(below, base, tokens) {
        Ok((test, height, done)) => {
            let made = stmts::do_while(below.alloc, body, test)?;
            Ok((made, height, done))
        }
        Err(stop) => {
            drops::stmt(body);
            Err(stop)
        }
    }
}

/// `while` and its test after a `do`, with the end of the statement.
pub fn do_test<
    'a,
    E: Fn(Global, bool, u32, &[Token]) -> Result<(Operand, u32, &[Token]), Stop>,
    F: Fn(Global, bool, u32, &[Token]) -> Result<(Operand, u32, &[Token]), Stop>,
    G: Fn(Global, u32, &[Token]) -> Result<(Script, u32, &[Token]), Stop>,
    H: Fn(Global, Around, u32, &[Token]) -> Result<(Stmt, u32, &[Token]), Stop>,
>(below: &Below<E, F, G, H>, base: u32, tokens: &'a [Token]) -> Read<'a, Expr>
    requires exprs { Exprs below.now.depth (E.pre below.now.expr) (E.post below.now.expr) }
    requires assigns { Assigns below.now.depth (F.pre below.now.assign) (F.post below.now.assign) }
    requires bodies { Bodies below.now.depth (G.pre below.now.body) (G.post below.now.body) }
    requires ones { Ones below.now.depth (H.pre below.now.statement) (H.post below.now.statement) }
    requires depth { below.now.depth ≤ base + 1 }
    requires base { base + 1 ≤ 200 }
    ensures takes { MatchResult result (λ p. TookTest base tokens.now p.0 p.1 p.2.now) (λ e. e ≢ Memory → MissesTest base tokens.now e) }
    ensures small { IfOk result (λ r. base + r.1 ≤ 200) }
{
    let then = expect_word(Reserved::While, tokens)?;
    let (test, height, rest) = in_parentheses(below, base, then)?;
    match ends(rest) {
        Ok(ended) => Ok((test, height, ended)),
        Err(stop) => {
            drops::expr(test);
            Err(stop)
        }
    }
}

/// `while`.
pub fn while_statement<
    'a,
    E: Fn(Global, bool, u32, &[Token]) -> Result<(Operand, u32, &[Token]), Stop>,
    F: Fn(Global, bool, u32, &[Token]) -> Result<(Operand, u32, &[Token]), Stop>,
    G: Fn(Global, u32, &[Token]) -> Result<(Script, u32, &[Token]), Stop>,
    H: Fn(Global, Around, u32, &[Token]) -> Result<(Stmt, u32, &[Token]), Stop>,
>(below: &Below<E, F, G, H>, around: Around, base: u32, tokens: &'a [Token]) -> Read<'a, Stmt>
    requires exprs { Exprs below.now.depth (E.pre below.now.expr) (E.post below.now.expr) }
    requires assigns { Assigns below.now.depth (F.pre below.now.assign) (F.post below.now.assign) }
    requires bodies { Bodies below.now.depth (G.pre below.now.body) (G.post below.now.body) }
    requires ones { Ones below.now.depth (H.pre below.now.statement) (H.post below.now.statement) }
    requires depth { below.now.depth ≤ base + 1 }
    requires base { base ≤ 200 }
    requires begun { Begun tokens.now }
    ensures meets { Follows (Statement around) base (grammar.statement_as around start.While) tokens.now result }
    ensures small { IfOk result (λ r. base + r.1 ≤ 200) }
{
    let stood = stand(base, 1, tokens)?;
    let (test, one, rest) = in_parentheses(below, base, stood)?;
    match below.one(looped(around), base + 1, rest) {
        Ok((body, two, done)) => {
            let made = stmts::while_loop(below.alloc, test, body)?;
            Ok((made, one.max(two + 1), done))
        }
        Err(stop) => {
            drops::expr(test);
            Err(stop)
        }
    }
}

/// `continue`.
pub fn continue_statement<'a>(around: Around, base: u32, tokens: &'a [Token]) -> Read<'a, Stmt>
    requires base { base ≤ 200 }
    requires begun { Begun tokens.now }
    ensures meets { Follows (Statement around) base (grammar.statement_as around start.Continue) tokens.now result }
    ensures small { IfOk result (λ r. base + r.1 ≤ 200) }
{
    if !around.in_loop {
        let (token, _) = first(tokens)?;
        return Err(refused(None, token));
    }
    let stood = stand(base, 1, tokens)?;
    let ended = jump(stood)?;
    Ok((stmts::continue_loop(), 1, ended))
}

/// `break`.
pub fn break_statement<'a>(around: Around, base: u32, tokens: &'a [Token]) -> Read<'a, Stmt>
    requires base { base ≤ 200 }
    requires begun { Begun tokens.now }
    ensures meets { Follows (Statement around) base (grammar.statement_as around start.Break) tokens.now result }
    ensures small { IfOk result (λ r. base + r.1 ≤ 200) }
{
    if !breaks(around) {
        let (token, _) = first(tokens)?;
        return Err(refused(None, token));
    }
    let stood = stand(base, 1, tokens)?;
    let ended = jump(stood)?;
    Ok((stmts::break_out(), 1, ended))
}

/// `return`.
pub fn return_statement<
    'a,
    E: Fn(Global, bool, u32, &[Token]) -> Result<(Operand, u32, &[Token]), Stop>,
    F: Fn(Global, bool, u32, &[Token]) -> Result<(Operand, u32, &[Token]), Stop>,
    G: Fn(Global, u32, &[Token]) -> Result<(Script, u32, &[Token]), Stop>,
    H: Fn(Global, Around, u32, &[Token]) -> Result<(Stmt, u32, &[Token]), Stop>,
>(below: &Below<E, F, G, H>, around: Around, base: u32, tokens: &'a [Token]) -> Read<'a, Stmt>
    requires exprs { Exprs below.now.depth (E.pre below.now.expr) (E.post below.now.expr) }
    requires assigns { Assigns below.now.depth (F.pre below.now.assign) (F.post below.now.assign) }
    requires bodies { Bodies below.now.depth (G.pre below.now.body) (G.post below.now.body) }
    requires ones { Ones below.now.depth (H.pre below.now.statement) (H.post below.now.statement) }
    requires depth { below.now.depth ≤ base + 1 }
    requires base { base ≤ 200 }
    requires begun { Begun tokens.now }
    ensures meets { Follows (Statement around) base (grammar.statement_as around start.Return) tokens.now result }
    ensures small { IfOk result (λ r. base + r.1 ≤ 200) }
{
    if !around.in_function {
        let (token, _) = first(tokens)?;
        return Err(refused(None, token));
    }
    let stood = stand(base, 1, tokens)?;
    let (made, height, done) = after_return(below, around, base, stood)?;
    Ok((made, height.max(1), done))
}

/// What stands after `return`.
pub fn after_return<
    'a,
    E: Fn(Global, bool, u32, &[Token]) -> Result<(Operand, u32, &[Token]), Stop>,
    F: Fn(Global, bool, u32, &[Token]) -> Result<(Operand, u32, &[Token]), Stop>,
    G: Fn(Global, u32, &[Token]) -> Result<(Script, u32, &[Token]), Stop>,
    H: Fn(Global, Around, u32, &[Token]) -> Result<(Stmt, u32, &[Token]), Stop>,
>(below: &Below<E, F, G, H>, around: Around, base: u32, tokens: &'a [Token]) -> Read<'a, Stmt>
    requires exprs { Exprs below.now.depth (E.pre below.now.expr) (E.post below.now.expr) }
    requires assigns { Assigns below.now.depth (F.pre below.now.assign) (F.post below.now.assign) }
    requires bodies { Bodies below.now.depth (G.pre below.now.body) (G.post below.now.body) }
    requires ones { Ones below.now.depth (H.pre below.now.statement) (H.post below.now.statement) }
    requires depth { below.now.depth ≤ base + 1 }
    requires base { base + 1 ≤ 200 }
    ensures meets { Follows (Statement around) base (grammar.after_return) tokens.now result }
    ensures small { IfOk result (λ r. base + r.1 ≤ 200) }
{
    let (token, _) = first(tokens)?;
    if quits(token) {
        let ended = halts(tokens)?;
        return Ok((stmts::return_value(None), 0, ended));
    }
    let (value, height, rest) = below.expression(false, base + 1, tokens)?;
    match ends(rest) {
        Ok(ended) => Ok((stmts::return_value(Some(value.expr)), height + 1, ended)),
        Err(stop) => {
            drops::expr(value.expr);
            Err(stop)
        }
    }
}

/// `throw`.
pub fn throw_statement<
    'a,
    E: Fn(Global, bool, u32, &[Token]) -> Result<(Operand, u32, &[Token]), Stop>,
    F: Fn(Global, bool, u32, &[Token]) -> Result<(Operand, u32, &[Token]), Stop>,
    G: Fn(Global, u32, &[Token]) -> Result<(Script, u32, &[Token]), Stop>,
    H: Fn(Global, Around, u32, &[Token]) -> Result<(Stmt, u32, &[Token]), Stop>,
>(below: &Below<E, F, G, H>, around: Around, base: u32, tokens: &'a [Token]) -> Read<'a, Stmt>
    requires exprs { Exprs below.now.depth (E.pre below.now.expr) (E.post below.now.expr) }
    requires assigns { Assigns below.now.depth (F.pre below.now.assign) (F.post below.now.assign) }
    requires bodies { Bodies below.now.depth (G.pre below.now.body) (G.post below.now.body) }
    requires ones { Ones below.now.depth (H.pre below.now.statement) (H.post below.now.statement) }
    requires depth { below.now.depth ≤ base + 1 }
    requires base { base ≤ 200 }
    requires begun { Begun tokens.now }
    ensures meets { Follows (Statement around) base (grammar.statement_as around start.Throw) tokens.now result }
    ensures small { IfOk result (λ r. base + r.1 ≤ 200) }
{
    let stood = stand(base, 1, tokens)?;
    let (token, _) = first(stood)?;
    if token.after_newline {
        return Err(refused(None, token));
    }
    let (value, height, rest) = below.expression(false, base + 1, stood)?;
    match ends(rest) {
        Ok(ended) => Ok((stmts::throw(value.expr), height + 1, ended)),
        Err(stop) => {
            drops::expr(value.expr);
            Err(stop)
        }
    }
}

/// An expression that begins with an identifier, as a statement.
pub fn identifier_statement<
    'a,
    E: Fn(Global, bool, u32, &[Token]) -> Result<(Operand, u32, &[Token]), Stop>,
    F: Fn(Global, bool, u32, &[Token]) -> Result<(Operand, u32, &[Token]), Stop>,
    G: Fn(Global, u32, &[Token]) -> Result<(Script, u32, &[Token]), Stop>,
    H: Fn(Global, Around, u32, &[Token]) -> Result<(Stmt, u32, &[Token]), Stop>,
>(below: &Below<E, F, G, H>, around: Around, base: u32, tokens: &'a [Token]) -> Read<'a, Stmt>
    requires exprs { Exprs below.now.depth (E.pre below.now.expr) (E.post below.now.expr) }
    requires assigns { Assigns below.now.depth (F.pre below.now.assign) (F.post below.now.assign) }
    requires bodies { Bodies below.now.depth (G.pre below.now.body) (G.post below.now.body) }
    requires ones { Ones below.now.depth (H.pre below.now.statement) (H.post below.now.statement) }
    requires depth { below.now.depth ≤ base + 1 }
    requires base { base ≤ 200 }
    ensures meets { Follows (Statement around) base (grammar.statement_as around start.Identifier) tokens.now result }
    ensures small { IfOk result (λ r. base + r.1 ≤ 200) }
{
    if base == LIMIT {
        return Err(beyond(below.alloc, tokens));
    }
    let (value, height, rest) = below.expression(false, base + 1, tokens)?;
    match ends_identifier(&value.expr, rest) {
        Ok(ended) => Ok((stmts::expression(value.expr), height + 1, ended)),
        Err(stop) => {
            drops::expr(value.expr);
            Err(stop)
        }
    }
}

/// An expression that begins with a parenthesis, as a statement.
pub fn parenthesis_statement<
    'a,
    E: Fn(Global, bool, u32, &[Token]) -> Result<(Operand, u32, &[Token]), Stop>,
    F: Fn(Global, bool, u32, &[Token]) -> Result<(Operand, u32, &[Token]), Stop>,
    G: Fn(Global, u32, &[Token]) -> Result<(Script, u32, &[Token]), Stop>,
    H: Fn(Global, Around, u32, &[Token]) -> Result<(Stmt, u32, &[Token]), Stop>,
>(below: &Below<E, F, G, H>, around: Around, base: u32, tokens: &'a [Token]) -> Read<'a, Stmt>
    requires exprs { Exprs below.now.depth (E.pre below.now.expr) (E.post below.now.expr) }
    requires assigns { Assigns below.now.depth (F.pre below.now.assign) (F.post below.now.assign) }
    requires bodies { Bodies below.now.depth (G.pre below.now.body) (G.post below.now.body) }
    requires ones { Ones below.now.depth (H.pre below.now.statement) (H.post below.now.statement) }
    requires depth { below.now.depth ≤ base + 1 }
    requires base { base ≤ 200 }
    requires open { Opened tokens.now }
    ensures meets { Follows (Statement around) base (grammar.statement_as around start.Parenthesis) tokens.now result }
    ensures small { IfOk result (λ r. base + r.1 ≤ 200) }
{
    let _ = first(tokens)?;
    if base == LIMIT {
        return Err(Stop::Nesting);
    }
    let (value, height, rest) = below.expression(false, base + 1, tokens)?;
    match ends(rest) {
        Ok(ended) => Ok((stmts::expression(value.expr), height + 1, ended)),
        Err(stop) => {
            drops::expr(value.expr);
            Err(stop)
        }
    }
}

/// Another expression, as a statement.
pub fn expression_statement<
    'a,
    E: Fn(Global, bool, u32, &[Token]) -> Result<(Operand, u32, &[Token]), Stop>,
    F: Fn(Global, bool, u32, &[Token]) -> Result<(Operand, u32, &[Token]), Stop>,
    G: Fn(Global, u32, &[Token]) -> Result<(Script, u32, &[Token]), Stop>,
    H: Fn(Global, Around, u32, &[Token]) -> Result<(Stmt, u32, &[Token]), Stop>,
>(below: &Below<E, F, G, H>, around: Around, base: u32, tokens: &'a [Token]) -> Read<'a, Stmt>
    requires exprs { Exprs below.now.depth (E.pre below.now.expr) (E.post below.now.expr) }
    requires assigns { Assigns below.now.depth (F.pre below.now.assign) (F.post below.now.assign) }
    requires bodies { Bodies below.now.depth (G.pre below.now.body) (G.post below.now.body) }
    requires ones { Ones below.now.depth (H.pre below.now.statement) (H.post below.now.statement) }
    requires depth { below.now.depth ≤ base + 1 }
    requires base { base ≤ 200 }
    ensures meets { Follows (Statement around) base (grammar.statement_as around start.Expression) tokens.now result }
    ensures small { IfOk result (λ r. base + r.1 ≤ 200) }
{
    if base == LIMIT {
        return Err(beyond(below.alloc, tokens));
    }
    let (value, height, rest) = below.expression(false, base + 1, tokens)?;
    match ends(rest) {
        Ok(ended) => Ok((stmts::expression(value.expr), height + 1, ended)),
        Err(stop) => {
            drops::expr(value.expr);
            Err(stop)
        }
    }
}

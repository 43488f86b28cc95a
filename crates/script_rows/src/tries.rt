//! The rows of `try`.

ghost use Rattle.std.specs.Prelude.{◌≢◌, ◌≤◌, ◌+◌, None, Some, MatchResult, IfOk};
ghost use Rattle.part_rows.specs.Lines.{Begun, Exprs, catch_rule};
ghost use Rattle.script_grammar.specs.Grammar as grammar;
ghost use Rattle.script_grammar.specs.Meets.{Assigns, Bodies, Ones, Follows};
ghost use Rattle.script_grammar.specs.Rules.Rule.{peek};
ghost use Rattle.script_grammar.specs.Rules.Symbol.{Statement};
ghost use Rattle.script_grammar.specs.declared.classes.Start.TheVariants as start;
ghost use Rattle.script_grammar.specs.declared.stop.Stop.TheVariants.{Memory};
ghost use Rattle.script_rows.specs.Parts.{handlers_rule, last_rule, TookCatch, MissesCatch};

use js_lexer::{Mark, Reserved, Token};
use js_tree::{Catch, Script, Stmt};
use part_rows::below::Below;
use part_rows::finish::stand;
use part_rows::parts::block;
use script_grammar::classes::{Around, Operand};
use script_grammar::classify::is_word;
use script_grammar::steps::{Read, expect, first, name, refused};
use script_grammar::stop::Stop;
use std::alloc::Global;
use tree_drops as drops;
use tree_makers::stmts;

/// `try`.
pub fn try_statement<
    'a,
    E: Fn(Global, bool, u32, &[Token]) -> Result<(Operand, u32, &[Token]), Stop>,
    F: Fn(Global, bool, u32, &[Token]) -> Result<(Operand, u32, &[Token]), Stop>,
    G: Fn(Global, u32, &[Token]) -> Result<(Script, u32, &[Token]), Stop>,
    H: Fn(Global, Around, u32, &[Token]) -> Result<(Stmt, u32, &[Token]), Stop>,
>(below: &Below<E, F, G, H>, around: Around, base: u32, tokens: &'a [Token]) -> Read<'a, Stmt>
    requires exprs { Exprs below.now.depth (E.pre below.now.expr) (E.post below.now.expr) }
    requires assigns { Assigns below.now.depth (F.pre below.now.assign) (F.post below.now.assign) }
    requires bodies { Bodies below.now.depth (G.pre below.now.body) (G.post below.now.body) }
    requires ones { Ones below.now.depth (H.pre below.now.statement) (H.post below.now.statement) }
    requires depth { below.now.depth ≤ base + 1 }
    requires base { base ≤ 200 }
    requires begun { Begun tokens.now }
    ensures meets { Follows (Statement around) base (grammar.statement_as around start.Try) tokens.now result }
    ensures small { IfOk result (λ r. base + r.1 ≤ 200) }
{
    let stood = stand(base, 1, tokens)?;
    let (body, one, rest) = block(below, around, base + 1, stood)?;
    let (made, two, done) = handlers(below, around, body, base, rest)?;
    Ok((made, two.max(one + 1), done))
}

/// What stands after the body of a `try`.
fn handlers<
    'a,
    E: Fn(Global, bool, u32, &[Token]) -> Result<(Operand, u32, &[Token]), Stop>,
    F: Fn(Global, bool, u32, &[Token]) -> Result<(Operand, u32, &[Token]), Stop>,
    G: Fn(Global, u32, &[Token]) -> Result<(Script, u32, &[Token]), Stop>,
    H: Fn(Global, Around, u32, &[Token]) -> Result<(Stmt, u32, &[Token]), Stop>,
>(
    below: &Below<E, F, G, H>,
    around: Around,
    body: Stmt,
    base: u32,
    tokens: &'a [Token],
) -> Read<'a, Stmt>
    requires exprs { Exprs below.now.depth (E.pre below.now.expr) (E.post below.now.expr) }
    requires assigns { Assigns below.now.depth (F.pre below.now.assign) (F.post below.now.assign) }
    requires bodies { Bodies below.now.depth (G.pre below.now.body) (G.post below.now.body) }
    requires ones { Ones below.now.depth (H.pre below.now.statement) (H.post below.now.statement) }
    requires depth { below.now.depth ≤ base + 1 }
    requires base { base + 1 ≤ 200 }
    ensures meets { Follows (Statement around) base (handlers_rule body) tokens.now result }
    ensures small { IfOk result (λ r. base + r.1 ≤ 200) }
{
    match first(tokens) {
        Ok((token, after)) => {
            if is_word(Reserved::Catch, token) {
                return catch(below, around, body, base, after);
            }
            after_try(below, around, body, None, false, base, tokens)
        }
        Err(stop) => {
            drops::stmt(body);
            Err(stop)
        }
    }
}

/// What stands after `catch`.
fn catch<
    'a,
    E: Fn(Global, bool, u32, &[Token]) -> Result<(Operand, u32, &[Token]), Stop>,
    F: Fn(Global, bool, u32, &[Token]) -> Result<(Operand, u32, &[Token]), Stop>,
    G: Fn(Global, u32, &[Token]) -> Result<(Script, u32, &[Token]), Stop>,
    H: Fn(Global, Around, u32, &[Token]) -> Result<(Stmt, u32, &[Token]), Stop>,
>(
    below: &Below<E, F, G, H>,
    around: Around,
    body: Stmt,
    base: u32,
    tokens: &'a [Token],
) -> Read<'a, Stmt>
    requires exprs { Exprs below.now.depth (E.pre below.now.expr) (E.post below.now.expr) }
    requires assigns { Assigns below.now.depth (F.pre below.now.assign) (F.post below.now.assign) }
    requires bodies { Bodies below.now.depth (G.pre below.now.body) (G.post below.now.body) }
    requires ones { Ones below.now.depth (H.pre below.now.statement) (H.post below.now.statement) }
    requires depth { below.now.depth ≤ base + 1 }
    requires base { base + 1 ≤ 200 }
    ensures meets { Follows (Statement around) base (catch_rule body) tokens.now result }
    ensures small { IfOk result (λ r. base + r.1 ≤ 200) }
{
    match caught_by(below, around, base, tokens) {
        Ok((caught, one, rest)) => {
            let (made, two, done) = after_try(below, around, body, Some(caught), true, base, rest)?;
            Ok((made, two.max(one), done))
        }
        Err(stop) => {
            drops::stmt(body);
            Err(stop)
        }
    }
}

/// The name and the block of a catch, after its word.
fn caught_by<
    'a,
    E: Fn(Global, bool, u32, &[Token]) -> Result<(Operand, u32, &[Token]), Stop>,
    F: Fn(Global, bool, u32, &[Token]) -> Result<(Operand, u32, &[Token]), Stop>,
    G: Fn(Global, u32, &[Token]) -> Result<(Script, u32, &[Token]), Stop>,
    H: Fn(Global, Around, u32, &[Token]) -> Result<(Stmt, u32, &[Token]), Stop>,
>(below: &Below<E, F, G, H>, around: Around, base: u32, tokens: &'a [Token]) -> Read<'a, Catch>
    requires exprs { Exprs below.now.depth (E.pre below.now.expr) (E.post below.now.expr) }
    requires assigns { Assigns below.now.depth (F.pre below.now.assign) (F.post below.now.assign) }
    requires bodies { Bodies below.now.depth (G.pre below.now.body) (G.post below.now.body) }
    requires ones { Ones below.now.depth (H.pre below.now.statement) (H.post below.now.statement) }
    requires depth { below.now.depth ≤ base + 1 }
    requires base { base + 1 ≤ 200 }
    ensures takes { MatchResult result (λ p. TookCatch around base tokens.now p.0 p.1 p.2.now) (λ e. e ≢ Memory → MissesCatch around base tokens.now e) }
    ensures small { IfOk result (λ r. base + r.1 ≤ 200) }
{
    let open = expect(Mark::OpenParen, tokens)?;
    let (units, named) = name(below.alloc, open)?;
    let closed = expect(Mark::CloseParen, named)?;
    let (inner, height, rest) = block(below, around, base + 1, closed)?;
    let made = stmts::catch(below.alloc, units, inner)?;
    Ok((made, height + 1, rest))
}

/// `finally`, or nothing after a `catch`.
fn after_try<
    'a,
    E: Fn(Global, bool, u32, &[Token]) -> Result<(Operand, u32, &[Token]), Stop>,
    F: Fn(Global, bool, u32, &[Token]) -> Result<(Operand, u32, &[Token]), Stop>,
    G: Fn(Global, u32, &[Token]) -> Result<(Script, u32, &[Token]), Stop>,
    H: Fn(Global, Around, u32, &[Token]) -> Result<(Stmt, u32, &[Token]), Stop>,
>(
    below: &Below<E, F, G, H>,
    around: Around,
    body: Stmt,
    caught: Option<Catch>,
    some: bool,
    base: u32,
    tokens: &'a [Token],
) -> Read<'a, Stmt>
    requires exprs { Exprs below.now.depth (E.pre below.now.expr) (E.post below.now.expr) }
    requires assigns { Assigns below.now.depth (F.pre below.now.assign) (F.post below.now.assign) }
    requires bodies { Bodies below.now.depth (G.pre below.now.body) (G.post below.now.body) }
    requires ones { Ones below.now.depth (H.pre below.now.statement) (H.post below.now.statement) }
    requires depth { below.now.depth ≤ base + 1 }
    requires base { base + 1 ≤ 200 }
    ensures meets { Follows (Statement around) base (peek (grammar.after_try body caught some)) tokens.now result }
    ensures small { IfOk result (λ r. base + r.1 ≤ 200) }
{
    match first(tokens) {
        Ok((token, after)) => {
            if is_word(Reserved::Finally, token) {
                return finally(below, around, body, caught, base, after);
            }
            if some {
                let made = stmts::try_catch(below.alloc, body, caught, None)?;
                return Ok((made, 0, tokens));
            }
            drops::stmt(body);
            drops::maybe_catch(caught);
            Err(refused(None, token))
        }
        Err(stop) => {
            drops::stmt(body);
            drops::maybe_catch(caught);
            Err(stop)
        }
    }
}

/// The block after `finally`.
fn finally<
    'a,
    E: Fn(Global, bool, u32, &[Token]) -> Result<(Operand, u32, &[Token]), Stop>,
    F: Fn(Global, bool, u32, &[Token]) -> Result<(Operand, u32, &[Token]), Stop>,
    G: Fn(Global, u32, &[Token]) -> Result<(Script, u32, &[Token]), Stop>,
    H: Fn(Global, Around, u32, &[Token]) -> Result<(Stmt, u32, &[Token]), Stop>,
>(
    below: &Below<E, F, G, H>,
    around: Around,
    body: Stmt,
    caught: Option<Catch>,
    base: u32,
    tokens: &'a [Token],
) -> Read<'a, Stmt>
    requires exprs { Exprs below.now.depth (E.pre below.now.expr) (E.post below.now.expr) }
    requires assigns { Assigns below.now.depth (F.pre below.now.assign) (F.post below.now.assign) }
    requires bodies { Bodies below.now.depth (G.pre below.now.body) (G.post below.now.body) }
    requires ones { Ones below.now.depth (H.pre below.now.statement) (H.post below.now.statement) }
    requires depth { below.now.depth ≤ base + 1 }
    requires base { base + 1 ≤ 200 }
    ensures meets { Follows (Statement around) base (last_rule body caught) tokens.now result }
    ensures small { IfOk result (λ r. base + r.1 ≤ 200) }
{
    match block(below, around, base + 1, tokens) {
        Ok((last, height, done)) => {
            let made = stmts::try_catch(below.alloc, body, caught, Some(last))?;
            Ok((made, height + 1, done))
        }
        Err(stop) => {
            drops::stmt(body);
            drops::maybe_catch(caught);
            Err(stop)
        }
    }
}

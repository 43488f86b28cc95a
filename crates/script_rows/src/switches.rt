//! The rows of `switch`.

ghost use Rattle.std.specs.Prelude.{◌≢◌, ◌≤◌, ◌+◌, true, false, None, Some, [], MatchResult, MatchOption, IfOk, IfSome};
ghost use Rattle.part_rows.specs.Lines.{Begun, Exprs, TookBody, MissesBody};
ghost use Rattle.script_grammar.specs.Grammar as grammar;
ghost use Rattle.script_grammar.specs.Meets.{Assigns, Bodies, Ones, Meets, Follows};
ghost use Rattle.script_grammar.specs.Rules.Symbol.{Statement, Clauses};
ghost use Rattle.script_grammar.specs.declared.classes.Start.TheVariants as start;
ghost use Rattle.script_grammar.specs.declared.stop.Stop.TheVariants.{Memory};
ghost use Rattle.script_rows.specs.Parts.{TookClauses, MissesClauses, TookClause, MissesClause, NoClause, TookCase, MissesCase};

use js_lexer::{Mark, Reserved, Token};
use js_tree::{Case, Script, Stmt};
use part_rows::below::Below;
use part_rows::finish::{defaults, stand};
use part_rows::parts::{in_parentheses, statements};
use part_rows::round::switched;
use script_grammar::classes::{Around, Operand};
use script_grammar::classify::{is, is_word};
use script_grammar::steps::{Read, expect, first, refused};
use script_grammar::stop::Stop;
use sqlite_items::Items;
use std::alloc::Global;
use tree_drops as drops;
use tree_makers::stmts;

/// `switch`.
pub fn switch_statement<
    'a,
    E: Fn(Global, bool, u32, &[Token]) -> Result<(Operand, u32, &[Token]), Stop>,
    F: Fn(Global, bool, u32, &[Token]) -> Result<(Operand, u32, &[Token]), Stop>,
    G: Fn(Global, u32, &[Token]) -> Result<(Script, u32, &[Token]), Stop>,
    H: Fn(Global, Around, u32, &[Token]) -> Result<(Stmt, u32, &[Token]), Stop>,
>(below: &Below<E, F, G, H>, around: Around, base: u32, tokens: &'a [Token]) -> Read<'a, Stmt>
    requires exprs { Exprs below.now.depth (E.pre below.now.expr) (E.post below.now.expr) }
    requires assigns { Assigns below.now.depth (F.pre below.now.assign) (F.post below.now.assign) }
    requires bodies { Bodies below.now.depth (G.pre below.now.body) (G.post below.now.body) }
    requires ones { Ones below.now.depth (H.pre below.now.statement) (H.post below.now.statement) }
    requires depth { below.now.depth ≤ base + 1 }
    requires base { base ≤ 200 }
    requires begun { Begun tokens.now }
    ensures meets { Follows (Statement around) base (grammar.statement_as around start.Switch) tokens.now result }
    ensures small { IfOk result (λ r. base + r.1 ≤ 200) }
{
    let stood = stand(base, 1, tokens)?;
    let (value, one, rest) = in_parentheses(below, base, stood)?;
    match in_braces(below, switched(around), base, rest) {
        Ok((all, two, done)) => Ok((stmts::switch(value, all), one.max(two).max(1), done)),
        Err(stop) => {
            drops::expr(value);
            Err(stop)
        }
    }
}

/// The clauses of a `switch` in their braces.
fn in_braces<
    'a,
    E: Fn(Global, bool, u32, &[Token]) -> Result<(Operand, u32, &[Token]), Stop>,
    F: Fn(Global, bool, u32, &[Token]) -> Result<(Operand, u32, &[Token]), Stop>,
    G: Fn(Global, u32, &[Token]) -> Result<(Script, u32, &[Token]), Stop>,
    H: Fn(Global, Around, u32, &[Token]) -> Result<(Stmt, u32, &[Token]), Stop>,
>(
    below: &Below<E, F, G, H>,
    around: Around,
    base: u32,
    tokens: &'a [Token],
) -> Read<'a, Items<Case>>
    requires exprs { Exprs below.now.depth (E.pre below.now.expr) (E.post below.now.expr) }
    requires assigns { Assigns below.now.depth (F.pre below.now.assign) (F.post below.now.assign) }
    requires bodies { Bodies below.now.depth (G.pre below.now.body) (G.post below.now.body) }
    requires ones { Ones below.now.depth (H.pre below.now.statement) (H.post below.now.statement) }
    requires depth { below.now.depth ≤ base + 1 }
    requires base { base + 1 ≤ 200 }
    ensures takes { MatchResult result (λ p. TookClauses around base tokens.now p.0 p.1 p.2.now) (λ e. e ≢ Memory → MissesClauses around base tokens.now e) }
    ensures small { IfOk result (λ r. base + r.1 ≤ 200) }
{
    let open = expect(Mark::OpenBrace, tokens)?;
    let (all, height, rest) = clauses(below, around, base + 1, open)?;
    match expect(Mark::CloseBrace, rest) {
        Ok(closed) => Ok((all, height + 1, closed)),
        Err(stop) => {
            drops::cases(all);
            Err(stop)
        }
    }
}

/// The clauses of a `switch`.
pub fn clauses<
    'a,
    E: Fn(Global, bool, u32, &[Token]) -> Result<(Operand, u32, &[Token]), Stop>,
    F: Fn(Global, bool, u32, &[Token]) -> Result<(Operand, u32, &[Token]), Stop>,
    G: Fn(Global, u32, &[Token]) -> Result<(Script, u32, &[Token]), Stop>,
    H: Fn(Global, Around, u32, &[Token]) -> Result<(Stmt, u32, &[Token]), Stop>,
>(
    below: &Below<E, F, G, H>,
    around: Around,
    base: u32,
    tokens: &'a [Token],
) -> Read<'a, Items<Case>>
    requires exprs { Exprs below.now.depth (E.pre below.now.expr) (E.post below.now.expr) }
    requires assigns { Assigns below.now.depth (F.pre below.now.assign) (F.post below.now.assign) }
    requires bodies { Bodies below.now.depth (G.pre below.now.body) (G.post below.now.body) }
    requires ones { Ones below.now.depth (H.pre below.now.statement) (H.post below.now.statement) }
    requires depth { below.now.depth ≤ base }
    requires base { base ≤ 200 }
    ensures meets { Meets (Clauses around false []) base tokens.now result }
    ensures small { IfOk result (λ r. base + r.1 ≤ 200) }
{
    let mut all = Items::new(below.alloc);
    let mut stood = false;
    let mut tall = 0;
    let mut left = tokens;
    loop {
        match clause(below, around, stood, base, left) {
            Ok(Some((case, stands, height, rest))) => {
                all = drops::cases_with(all, case)?;
                stood = stands;
                tall = tall.max(height);
                left = rest;
            }
            Ok(None) => return Ok((all, tall, left)),
            Err(stop) => {
                drops::cases(all);
                return Err(stop);
            }
        }
    }
}

/// One clause of a `switch`, and whether a default stood by then; none where they end.
pub fn clause<
    'a,
    E: Fn(Global, bool, u32, &[Token]) -> Result<(Operand, u32, &[Token]), Stop>,
    F: Fn(Global, bool, u32, &[Token]) -> Result<(Operand, u32, &[Token]), Stop>,
    G: Fn(Global, u32, &[Token]) -> Result<(Script, u32, &[Token]), Stop>,
    H: Fn(Global, Around, u32, &[Token]) -> Result<(Stmt, u32, &[Token]), Stop>,
>(
    below: &Below<E, F, G, H>,
    around: Around,
    stood: bool,
    base: u32,
    tokens: &'a [Token],
) -> Result<Option<(Case, bool, u32, &'a [Token])>, Stop>
    requires exprs { Exprs below.now.depth (E.pre below.now.expr) (E.post below.now.expr) }
    requires assigns { Assigns below.now.depth (F.pre below.now.assign) (F.post below.now.assign) }
    requires bodies { Bodies below.now.depth (G.pre below.now.body) (G.post below.now.body) }
    requires ones { Ones below.now.depth (H.pre below.now.statement) (H.post below.now.statement) }
    requires depth { below.now.depth ≤ base }
    requires base { base ≤ 200 }
    ensures takes { MatchResult result
        (λ o. MatchOption o (NoClause around stood base tokens.now) (λ p. TookClause around stood base tokens.now p.0 p.1 p.2 p.3.now))
        (λ e. e ≢ Memory → MissesClause around stood base tokens.now e) }
    ensures small { IfOk result (λ o. IfSome o (λ p. base + p.2 ≤ 200)) }
{
    let (token, after) = first(tokens)?;
    if is_word(Reserved::Case, token) {
        let (case, height, rest) = tested(below, around, base, after)?;
        return Ok(Some((case, stood, height, rest)));
    }
    if defaults(stood, token) {
        let (body, height, rest) = case_body(below, around, base, after)?;
        return Ok(Some((stmts::case(None, body), true, height, rest)));
    }
    if is(Mark::CloseBrace, token) {
        return Ok(None);
    }
    Err(refused(None, token))
}

/// A clause with a test, after `case`.
fn tested<
    'a,
    E: Fn(Global, bool, u32, &[Token]) -> Result<(Operand, u32, &[Token]), Stop>,
    F: Fn(Global, bool, u32, &[Token]) -> Result<(Operand, u32, &[Token]), Stop>,
    G: Fn(Global, u32, &[Token]) -> Result<(Script, u32, &[Token]), Stop>,
    H: Fn(Global, Around, u32, &[Token]) -> Result<(Stmt, u32, &[Token]), Stop>,
>(below: &Below<E, F, G, H>, around: Around, base: u32, tokens: &'a [Token]) -> Read<'a, Case>
    requires exprs { Exprs below.now.depth (E.pre below.now.expr) (E.post below.now.expr) }
    requires assigns { Assigns below.now.depth (F.pre below.now.assign) (F.post below.now.assign) }
    requires bodies { Bodies below.now.depth (G.pre below.now.body) (G.post below.now.body) }
    requires ones { Ones below.now.depth (H.pre below.now.statement) (H.post below.now.statement) }
    requires depth { below.now.depth ≤ base }
    requires base { base ≤ 200 }
    ensures takes { MatchResult result (λ p. TookCase around base tokens.now p.0 p.1 p.2.now) (λ e. e ≢ Memory → MissesCase around base tokens.now e) }
    ensures small { IfOk result (λ r. base + r.1 ≤ 200) }
{
    let (test, one, rest) = below.expression(false, base, tokens)?;
    match case_body(below, around, base, rest) {
        Ok((body, two, done)) => Ok((stmts::case(Some(test.expr), body), one.max(two), done)),
        Err(stop) => {
            drops::expr(test.expr);
            Err(stop)
        }
    }
}

/// The colon and the statements of a clause.
fn case_body<
    'a,
    E: Fn(Global, bool, u32, &[Token]) -> Result<(Operand, u32, &[Token]), Stop>,
    F: Fn(Global, bool, u32, &[Token]) -> Result<(Operand, u32, &[Token]), Stop>,
    G: Fn(Global, u32, &[Token]) -> Result<(Script, u32, &[Token]), Stop>,
    H: Fn(Global, Around, u32, &[Token]) -> Result<(Stmt, u32, &[Token]), Stop>,
>(
    below: &Below<E, F, G, H>,
    around: Around,
    base: u32,
    tokens: &'a [Token],
) -> Read<'a, Items<Stmt>>
    requires exprs { Exprs below.now.depth (E.pre below.now.expr) (E.post below.now.expr) }
    requires assigns { Assigns below.now.depth (F.pre below.now.assign) (F.post below.now.assign) }
    requires bodies { Bodies below.now.depth (G.pre below.now.body) (G.post below.now.body) }
    requires ones { Ones below.now.depth (H.pre below.now.statement) (H.post below.now.statement) }
    requires depth { below.now.depth ≤ base }
    requires base { base ≤ 200 }
    ensures takes { MatchResult result (λ p. TookBody around base tokens.now p.0 p.1 p.2.now) (λ e. e ≢ Memory → MissesBody around base tokens.now e) }
    ensures small { IfOk result (λ r. base + r.1 ≤ 200) }
{
    let then = expect(Mark::Colon, tokens)?;
    statements(below, around, base, then)
}

//! The declarations and statements of a script or of a function's body.

ghost use Rattle.std.specs.Prelude.{◌≢◌, ◌≤◌, ◌+◌, Bool, true, false, [], MatchResult, IfOk};
ghost use Rattle.part_rows.specs.Lines.{Exprs};
ghost use Rattle.script_grammar.specs.Meets.{Assigns, Bodies, Ones, Meets};
ghost use Rattle.script_grammar.specs.Rules.{Symbol as symbol};
ghost use Rattle.script_grammar.specs.Rules.Symbol.{Elements};
ghost use Rattle.script_grammar.specs.declared.stop.Stop.TheVariants.{Memory};
ghost use Rattle.script_rows.specs.Parts.{TookElement, MissesElement};

use crate::any::statement;
use js_lexer::{Reserved, Token};
use js_tree::{Declaration, Script, Stmt};
use part_rows::below::Below;
use part_rows::parts::function;
use part_rows::round::outer;
use script_grammar::classes::{Around, Operand};
use script_grammar::classify::{is_word, stops};
use script_grammar::steps::{LIMIT, Read, first, name, refused};
use script_grammar::stop::Stop;
use sqlite_items::Items;
use std::alloc::Global;
use tree_drops as drops;

/// The declarations and the statements so far, how many levels of nodes stand in what was read last, and the tokens
/// after it.
type Grown<'a> = Result<(Items<Declaration>, Items<Stmt>, u32, &'a [Token]), Stop>;

/// The declaration of a function.
fn declaration<
    'a,
    E: Fn(Global, bool, u32, &[Token]) -> Result<(Operand, u32, &[Token]), Stop>,
    F: Fn(Global, bool, u32, &[Token]) -> Result<(Operand, u32, &[Token]), Stop>,
    G: Fn(Global, u32, &[Token]) -> Result<(Script, u32, &[Token]), Stop>,
    H: Fn(Global, Around, u32, &[Token]) -> Result<(Stmt, u32, &[Token]), Stop>,
>(below: &Below<E, F, G, H>, base: u32, tokens: &'a [Token]) -> Read<'a, Declaration>
    requires exprs { Exprs below.now.depth (E.pre below.now.expr) (E.post below.now.expr) }
    requires assigns { Assigns below.now.depth (F.pre below.now.assign) (F.post below.now.assign) }
    requires bodies { Bodies below.now.depth (G.pre below.now.body) (G.post below.now.body) }
    requires ones { Ones below.now.depth (H.pre below.now.statement) (H.post below.now.statement) }
    requires depth { below.now.depth ≤ base + 1 }
    requires base { base ≤ 200 }
    ensures meets { Meets symbol.Declaration base tokens.now result }
    ensures small { IfOk result (λ r. base + r.1 ≤ 200) }
{
    let (token, after) = first(tokens)?;
    if !is_word(Reserved::Function, token) {
        return Err(refused(None, token));
    }
    if base == LIMIT {
        return Err(Stop::Nesting);
    }
    let (units, named) = name(below.alloc, after)?;
    let (names, body, height, rest) = function(below, base, named)?;
    Ok((Declaration::make(units, names, body), height.max(1), rest))
}

/// The declarations and statements of a script or of a function's body.
pub fn elements<
    'a,
    E: Fn(Global, bool, u32, &[Token]) -> Result<(Operand, u32, &[Token]), Stop>,
    F: Fn(Global, bool, u32, &[Token]) -> Result<(Operand, u32, &[Token]), Stop>,
    G: Fn(Global, u32, &[Token]) -> Result<(Script, u32, &[Token]), Stop>,
    H: Fn(Global, Around, u32, &[Token]) -> Result<(Stmt, u32, &[Token]), Stop>,
>(below: &Below<E, F, G, H>, in_function: bool, base: u32, tokens: &'a [Token]) -> Read<'a, Script>
    requires exprs { Exprs below.now.depth (E.pre below.now.expr) (E.post below.now.expr) }
    requires assigns { Assigns below.now.depth (F.pre below.now.assign) (F.post below.now.assign) }
    requires bodies { Bodies below.now.depth (G.pre below.now.body) (G.post below.now.body) }
    requires ones { Ones below.now.depth (H.pre below.now.statement) (H.post below.now.statement) }
    requires depth { below.now.depth ≤ base + 1 }
    requires base { base ≤ 200 }
    ensures meets { Meets (Elements in_function [] []) base tokens.now result }
    ensures small { IfOk result (λ r. base + r.1 ≤ 200) }
{
    let mut functions = Items::new(below.alloc);
    let mut statements = Items::new(below.alloc);
    let mut tall = 0;
    let mut left = tokens;
    loop {
        match first(left) {
            Ok((token, _)) => {
                if stops(token) {
                    return Ok((Script::make(functions, statements), tall, left));
                }
                let declares = is_word(Reserved::Function, token);
                let (more, longer, height, rest) = element(
                    below,
                    in_function,
                    declares,
                    functions,
                    statements,
                    base,
                    left,
                )?;
                functions = more;
                statements = longer;
                tall = tall.max(height);
                left = rest;
            }
            Err(stop) => {
                drops::declarations(functions);
                drops::stmts(statements);
                return Err(stop);
            }
        }
    }
}

/// One more declaration or statement.
fn element<
    'a,
    E: Fn(Global, bool, u32, &[Token]) -> Result<(Operand, u32, &[Token]), Stop>,
    F: Fn(Global, bool, u32, &[Token]) -> Result<(Operand, u32, &[Token]), Stop>,
    G: Fn(Global, u32, &[Token]) -> Result<(Script, u32, &[Token]), Stop>,
    H: Fn(Global, Around, u32, &[Token]) -> Result<(Stmt, u32, &[Token]), Stop>,
>(
    below: &Below<E, F, G, H>,
    in_function: bool,
    declares: bool,
    functions: Items<Declaration>,
    statements: Items<Stmt>,
    base: u32,
    tokens: &'a [Token],
) -> Grown<'a>
    requires exprs { Exprs below.now.depth (E.pre below.now.expr) (E.post below.now.expr) }
    requires assigns { Assigns below.now.depth (F.pre below.now.assign) (F.post below.now.assign) }
    requires bodies { Bodies below.now.depth (G.pre below.now.body) (G.post below.now.body) }
    requires ones { Ones below.now.depth (H.pre below.now.statement) (H.post below.now.statement) }
    requires depth { below.now.depth ≤ base + 1 }
    requires base { base ≤ 200 }
    ensures takes { MatchResult result (λ p. TookElement in_function declares functions statements base tokens.now p.0 p.1 p.2 p.3.now) (λ e. e ≢ Memory → MissesElement in_function declares functions statements base tokens.now e) }
    ensures small { IfOk result (λ r. base + r.2 ≤ 200) }
{
    if declares {
        with_declaration(below, functions, statements, base, tokens)
    } else {
        with_statement(below, in_function, functions, statements, base, tokens)
    }
}

/// One more declaration.
fn with_declaration<
    'a,
    E: Fn(Global, bool, u32, &[Token]) -> Result<(Operand, u32, &[Token]), Stop>,
    F: Fn(Global, bool, u32, &[Token]) -> Result<(Operand, u32, &[Token]), Stop>,
    G: Fn(Global, u32, &[Token]) -> Result<(Script, u32, &[Token]), Stop>,
    H: Fn(Global, Around, u32, &[Token]) -> Result<(Stmt, u32, &[Token]), Stop>,
>(
    below: &Below<E, F, G, H>,
    functions: Items<Declaration>,
    statements: Items<Stmt>,
    base: u32,
    tokens: &'a [Token],
) -> Grown<'a>
    requires exprs { Exprs below.now.depth (E.pre below.now.expr) (E.post below.now.expr) }
    requires assigns { Assigns below.now.depth (F.pre below.now.assign) (F.post below.now.assign) }
    requires bodies { Bodies below.now.depth (G.pre below.now.body) (G.post below.now.body) }
    requires ones { Ones below.now.depth (H.pre below.now.statement) (H.post below.now.statement) }
    requires depth { below.now.depth ≤ base + 1 }
    requires base { base ≤ 200 }
    ensures takes { (in_function : Bool) → MatchResult result (λ p. TookElement in_function true functions statements base tokens.now p.0 p.1 p.2 p.3.now) (λ e. e ≢ Memory → MissesElement in_function true functions statements base tokens.now e) }
    ensures small { IfOk result (λ r. base + r.2 ≤ 200) }
{
    match declaration(below, base, tokens) {
        Ok((one, height, rest)) => match drops::declarations_with(functions, one) {
            Ok(more) => Ok((more, statements, height, rest)),
            Err(_) => {
                drops::stmts(statements);
                Err(Stop::Memory)
            }
        },
        Err(stop) => {
            drops::declarations(functions);
            drops::stmts(statements);
            Err(stop)
        }
    }
}

/// One more statement.
fn with_statement<
    'a,
    E: Fn(Global, bool, u32, &[Token]) -> Result<(Operand, u32, &[Token]), Stop>,
    F: Fn(Global, bool, u32, &[Token]) -> Result<(Operand, u32, &[Token]), Stop>,
    G: Fn(Global, u32, &[Token]) -> Result<(Script, u32, &[Token]), Stop>,
    H: Fn(Global, Around, u32, &[Token]) -> Result<(Stmt, u32, &[Token]), Stop>,
>(
    below: &Below<E, F, G, H>,
    in_function: bool,
    functions: Items<Declaration>,
    statements: Items<Stmt>,
    base: u32,
    tokens: &'a [Token],
) -> Grown<'a>
    requires exprs { Exprs below.now.depth (E.pre below.now.expr) (E.post below.now.expr) }
    requires assigns { Assigns below.now.depth (F.pre below.now.assign) (F.post below.now.assign) }
    requires bodies { Bodies below.now.depth (G.pre below.now.body) (G.post below.now.body) }
    requires ones { Ones below.now.depth (H.pre below.now.statement) (H.post below.now.statement) }
    requires depth { below.now.depth ≤ base + 1 }
    requires base { base ≤ 200 }
    ensures takes { MatchResult result (λ p. TookElement in_function false functions statements base tokens.now p.0 p.1 p.2 p.3.now) (λ e. e ≢ Memory → MissesElement in_function false functions statements base tokens.now e) }
    ensures small { IfOk result (λ r. base + r.2 ≤ 200) }
{
    match statement(below, outer(in_function), base, tokens) {
        Ok((one, height, rest)) => match drops::stmts_with(statements, one) {
            Ok(more) => Ok((functions, more, height, rest)),
            Err(_) => {
                drops::declarations(functions);
                Err(Stop::Memory)
            }
        },
        Err(stop) => {
            drops::declarations(functions);
            drops::stmts(statements);
            Err(stop)
        }
    }
}

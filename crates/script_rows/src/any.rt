//! A statement of any kind.

ghost use Rattle.std.specs.Prelude.{◌≤◌, ◌+◌, IfOk};
ghost use Rattle.part_rows.specs.Lines.{Exprs};
ghost use Rattle.script_grammar.specs.Meets.{Assigns, Bodies, Ones, Meets};
ghost use Rattle.script_grammar.specs.Rules.Symbol.{Statement};

use crate::switches::switch_statement;
use crate::tries::try_statement;
use js_lexer::Token;
use js_tree::{Script, Stmt};
use loop_rows::for_statement;
use part_rows::below::Below;
use part_rows::parts::block;
use script_grammar::classes::{Around, Operand, Start};
use script_grammar::classify::start_of;
use script_grammar::steps::{Read, first, refused};
use script_grammar::stop::Stop;
use statement_rows::{
    break_statement, continue_statement, do_statement, empty_statement, expression_statement,
    identifier_statement, if_statement, parenthesis_statement, return_statement, throw_statement,
    var_statement, while_statement,
};
use std::alloc::Global;

/// A statement.
pub fn statement<
    'a,
    E: Fn(Global, bool, u32, &[Token]) -> Result<(Operand, u32, &[Token]), Stop>,
    F: Fn(Global, bool, u32, &[Token]) -> Result<(Operand, u32, &[Token]), Stop>,
    G: Fn(Global, u32, &[Token]) -> Result<(Script, u32, &[Token]), Stop>,
    H: Fn(Global, Around, u32, &[Token]) -> Result<(Stmt, u32, &[Token]), Stop>,
>(below: &Below<E, F, G, H>, around: Around, base: u32, tokens: &'a [Token]) -> Read<'a, Stmt>
    requires exprs { Exprs below.now.depth (E.pre below.now.expr) (E.post below.now.expr) }
    requires assigns { Assigns below.now.depth (F.pre below.now.assign) (F.post below.now.assign) }
    requires bodies { Bodies below.now.depth (G.pre below.now.body) (G.post below.now.body) }
    requires ones { Ones below.now.depth (H.pre below.now.statement) (H.post below.now.statement) }
    requires depth { below.now.depth ≤ base + 1 }
    requires base { base ≤ 200 }
    ensures meets { Meets (Statement around) base tokens.now result }
    ensures small { IfOk result (λ r. base + r.1 ≤ 200) }
{
    let (token, _) = first(tokens)?;
    match start_of(&token.kind) {
        Start::Block => block(below, around, base, tokens),
        Start::Var => var_statement(below, around, base, tokens),
        Start::Empty => empty_statement(base, tokens),
        Start::If => if_statement(below, around, base, tokens),
        Start::Do => do_statement(below, around, base, tokens),
        Start::While => while_statement(below, around, base, tokens),
        Start::For => for_statement(below, around, base, tokens),
        Start::Continue => continue_statement(around, base, tokens),
        Start::Break => break_statement(around, base, tokens),
        Start::Return => return_statement(below, around, base, tokens),
        Start::Throw => throw_statement(below, around, base, tokens),
        Start::Switch => switch_statement(below, around, base, tokens),
        Start::Try => try_statement(below, around, base, tokens),
        Start::Identifier => identifier_statement(below, around, base, tokens),
        Start::Parenthesis => parenthesis_statement(below, around, base, tokens),
        Start::Expression => expression_statement(below, around, base, tokens),
        Start::Neither => Err(refused(None, token)),
    }
}

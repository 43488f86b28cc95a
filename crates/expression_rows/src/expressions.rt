//! Expressions, in which commas may stand.

ghost use Rattle.std.specs.Prelude.{◌≤◌, ◌+◌, ◌≢◌, IfOk, MatchResult};
ghost use Rattle.script_grammar.specs.Meets.{Assigns, Meets, TookEnclosed, MissesEnclosed};
ghost use Rattle.script_grammar.specs.Rules.Symbol.{Commas, Expr};
ghost use Rattle.script_grammar.specs.declared.stop.Stop.TheVariants.{Memory};

use crate::deeper::Grammar;
use crate::makers::plain;
use js_lexer::{Mark, Token};
use js_tree::{Script, Stmt};
use script_grammar::classes::{Around, Operand};
use script_grammar::classify::is;
use script_grammar::steps::{LIMIT, Read, expect, first};
use script_grammar::stop::Stop;
use std::alloc::Global;
use tree_drops::expr;
use tree_makers::exprs;

impl<
    F: Fn(Global, bool, u32, &[Token]) -> Result<(Operand, u32, &[Token]), Stop>,
    G: Fn(Global, u32, &[Token]) -> Result<(Script, u32, &[Token]), Stop>,
    H: Fn(Global, Around, u32, &[Token]) -> Result<(Stmt, u32, &[Token]), Stop>,
> Grammar<F, G, H> {
    /// An expression.
    pub fn expression<'a>(&self, no_in: bool, base: u32, tokens: &'a [Token]) -> Read<'a, Operand>
        requires assigns { Assigns self.now.depth (F.pre self.now.assign) (F.post self.now.assign) }
        requires depth { self.now.depth ≤ base }
        requires base { base ≤ 200 }
        ensures meets { Meets (Expr no_in) base tokens.now result }
        ensures small { IfOk result (λ r. base + r.1 ≤ 200) }
    {
        let (left, height, rest) = self.deeper(no_in, base, tokens)?;
        let (all, above, rest) = self.commas(no_in, left, height, base, rest)?;
        Ok((all, height.max(above), rest))
    }

    /// An expression, one deeper, and what closes it.
    pub fn enclosed<'a>(&self, close: Mark, base: u32, tokens: &'a [Token]) -> Read<'a, Operand>
        requires assigns { Assigns self.now.depth (F.pre self.now.assign) (F.post self.now.assign) }
        requires depth { self.now.depth ≤ base + 1 }
        requires base { base + 1 ≤ 200 }
        ensures row { MatchResult result (λ r. TookEnclosed close base tokens.now r.0 r.1 r.2.now) (λ e. e ≢ Memory → MissesEnclosed close base tokens.now e) }
        ensures small { IfOk result (λ r. base + 1 + r.1 ≤ 200) }
    {
        let (inner, height, rest) = self.expression(false, base + 1, tokens)?;
        match expect(close, rest) {
            Ok(rest) => Ok((inner, height, rest)),
            Err(stop) => {
                expr(inner.expr);
                Err(stop)
            }
        }
    }

    /// The commas after an expression, with the expressions after them.
    pub fn commas<'a>(
        &self,
        no_in: bool,
        left: Operand,
        height: u32,
        base: u32,
        tokens: &'a [Token],
    ) -> Read<'a, Operand>
        requires assigns { Assigns self.now.depth (F.pre self.now.assign) (F.post self.now.assign) }
        requires depth { self.now.depth ≤ base }
        requires base { base + height ≤ 200 }
        ensures meets { Meets (Commas no_in left height) base tokens.now result }
        ensures small { IfOk result (λ r. base + r.1 ≤ 200) }
    {
        match first(tokens) {
            Ok((token, after)) => {
                if !is(Mark::Comma, token) {
                    return Ok((left, 0, tokens));
                }
                let deep = base + height;
                if deep == LIMIT {
                    expr(left.expr);
                    return Err(Stop::Nesting);
                }
                match self.deeper(no_in, base + 1, after) {
                    Ok((right, inner, rest)) => {
                        let made = plain(exprs::comma(self.alloc, left.expr, right.expr)?);
                        let tall = (height + 1).max(inner + 1);
                        let (all, above, rest) = self.commas(no_in, made, tall, base, rest)?;
                        Ok((all, tall.max(above), rest))
                    }
                    Err(stop) => {
                        expr(left.expr);
                        Err(stop)
                    }
                }
            }
            Err(stop) => {
                expr(left.expr);
                Err(stop)
            }
        }
    }
}

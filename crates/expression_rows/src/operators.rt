//! Binary operators, the conditional and assignment.

ghost use Rattle.std.specs.Prelude.{◌≤◌, ◌+◌, ◌<◌, ◌≢◌, Some, IfOk, MatchResult};
ghost use Rattle.script_grammar.specs.Grammar.{more_by};
ghost use Rattle.script_grammar.specs.Meets.{Assigns, Bodies, After, Meets};
ghost use Rattle.expression_rows.specs.Parts.{TookBranches, MissesBranches};
ghost use Rattle.script_grammar.specs.Rules.Symbol.{Assign, Binary, Conditional, More};
ghost use Rattle.script_grammar.specs.declared.stop.Stop.TheVariants.{Memory};

use crate::deeper::Grammar;
use crate::makers::{joined, plain};
use js_lexer::{Mark, Token};
use js_tree::{Script, Stmt};
use script_grammar::classes::{Around, Infix, Operand};
use script_grammar::classify::{assign_of, infix_at, is};
use script_grammar::steps::{LIMIT, Read, expect, first};
use script_grammar::stop::Stop;
use std::alloc::Global;
use tree_drops::expr;
use tree_makers::exprs;

impl<
    F: Fn(Global, bool, u32, &[Token]) -> Result<(Operand, u32, &[Token]), Stop>,
    G: Fn(Global, u32, &[Token]) -> Result<(Script, u32, &[Token]), Stop>,
    H: Fn(Global, Around, u32, &[Token]) -> Result<(Stmt, u32, &[Token]), Stop>,
> Grammar<F, G, H> {
    /// An assignment, or a conditional expression.
    pub fn assignment<'a>(&self, no_in: bool, base: u32, tokens: &'a [Token]) -> Read<'a, Operand>
        requires assigns { Assigns self.now.depth (F.pre self.now.assign) (F.post self.now.assign) }
        requires bodies { Bodies self.now.depth (G.pre self.now.body) (G.post self.now.body) }
        requires depth { self.now.depth ≤ base + 1 }
        requires base { base ≤ 200 }
        ensures meets { Meets (Assign no_in) base tokens.now result }
        ensures small { IfOk result (λ r. base + r.1 ≤ 200) }
    {
        let (left, height, rest) = self.conditional(no_in, base, tokens)?;
        match first(rest) {
            Ok((token, after)) => match assign_of(&token.kind) {
                Some(operator) => {
                    if !left.target {
                        return Ok((left, height, rest));
                    }
                    let deep = base + height;
                    if deep == LIMIT {
                        expr(left.expr);
                        return Err(Stop::Nesting);
                    }
                    match self.deeper(no_in, base + 1, after) {
                        Ok((value, inner, rest)) => {
                            let made = exprs::assign(self.alloc, operator, left.expr, value.expr)?;
                            Ok((plain(made), (height + 1).max(inner + 1), rest))
                        }
                        Err(stop) => {
                            expr(left.expr);
                            Err(stop)
                        }
                    }
                }
                None => Ok((left, height, rest)),
            },
            Err(stop) => {
                expr(left.expr);
                Err(stop)
            }
        }
    }

    /// The two parts of a conditional after `?`, one deeper.
    fn branches<'a>(
        &self,
        no_in: bool,
        base: u32,
        tokens: &'a [Token],
    ) -> Result<(Operand, Operand, u32, &'a [Token]), Stop>
        requires assigns { Assigns self.now.depth (F.pre self.now.assign) (F.post self.now.assign) }
        requires depth { self.now.depth ≤ base + 1 }
        requires base { base + 1 ≤ 200 }
        ensures row { MatchResult result (λ r. TookBranches no_in base tokens.now r.0 r.1 r.2 r.3.now) (λ e. e ≢ Memory → MissesBranches no_in base tokens.now e) }
        ensures small { IfOk result (λ r. base + r.2 ≤ 200) }
    {
        let (one, upper, rest) = self.deeper(no_in, base + 1, tokens)?;
        match expect(Mark::Colon, rest) {
            Ok(rest) => match self.deeper(no_in, base + 1, rest) {
                Ok((two, lower, rest)) => Ok((one, two, upper.max(lower) + 1, rest)),
                Err(stop) => {
                    expr(one.expr);
                    Err(stop)
                }
            },
            Err(stop) => {
                expr(one.expr);
                Err(stop)
            }
        }
    }

    /// A conditional expression, or one with binary operators alone.
    pub fn conditional<'a>(&self, no_in: bool, base: u32, tokens: &'a [Token]) -> Read<'a, Operand>
        requires assigns { Assigns self.now.depth (F.pre self.now.assign) (F.post self.now.assign) }
        requires bodies { Bodies self.now.depth (G.pre self.now.body) (G.post self.now.body) }
        requires depth { self.now.depth ≤ base + 1 }
        requires base { base ≤ 200 }
        ensures meets { Meets (Conditional no_in) base tokens.now result }
        ensures small { IfOk result (λ r. base + r.1 ≤ 200) }
    {
        let (test, height, rest) = self.binary(no_in, 10, base, tokens)?;
        match first(rest) {
            Ok((token, after)) => {
                if !is(Mark::Question, token) {
                    return Ok((test, height, rest));
                }
                let deep = base + height;
                if deep == LIMIT {
                    expr(test.expr);
                    return Err(Stop::Nesting);
                }
                match self.branches(no_in, base, after) {
                    Ok((one, two, inner, rest)) => {
                        let made = exprs::conditional(self.alloc, test.expr, one.expr, two.expr)?;
                        Ok((plain(made), (height + 1).max(inner), rest))
                    }
                    Err(stop) => {
                        expr(test.expr);
                        Err(stop)
                    }
                }
            }
            Err(stop) => {
                expr(test.expr);
                Err(stop)
            }
        }
    }

    /// Operands with the operators of this level and of the tighter ones between them.
    #[cycle(levels)]
    pub fn binary<'a>(
        &self,
        no_in: bool,
        level: u8,
        base: u32,
        tokens: &'a [Token],
    ) -> Read<'a, Operand>
        requires assigns { Assigns self.now.depth (F.pre self.now.assign) (F.post self.now.assign) }
        requires bodies { Bodies self.now.depth (G.pre self.now.body) (G.post self.now.body) }
        requires depth { self.now.depth ≤ base + 1 }
        requires base { base ≤ 200 }
        requires level { level ≤ 10 }
        ensures meets { Meets (Binary no_in level) base tokens.now result }
        ensures small { IfOk result (λ r. base + r.1 ≤ 200) }
    {
        if level == 0 {
            return self.unary(base, tokens);
        }
        let (left, height, rest) = self.binary(no_in, level - 1, base, tokens)?;
        let (all, above, rest) = self.more(no_in, level, left, height, base, rest)?;
        Ok((all, height.max(above), rest))
    }

    /// The operators of a level after an operand, with the operands after them.
    #[cycle(levels)]
    pub fn more<'a>(
        &self,
        no_in: bool,
        level: u8,
        left: Operand,
        height: u32,
        base: u32,
        tokens: &'a [Token],
    ) -> Read<'a, Operand>
        requires assigns { Assigns self.now.depth (F.pre self.now.assign) (F.post self.now.assign) }
        requires bodies { Bodies self.now.depth (G.pre self.now.body) (G.post self.now.body) }
        requires depth { self.now.depth ≤ base + 1 }
        requires base { base + height ≤ 200 }
        requires level { 0 < level }
        requires loosest { level ≤ 10 }
        ensures meets { Meets (More no_in level left height) base tokens.now result }
        ensures small { IfOk result (λ r. base + r.1 ≤ 200) }
    {
        match first(tokens) {
            Ok((token, after)) => match infix_at(no_in, level, token) {
                Some(operator) => self.operation(no_in, level, operator, left, height, base, after),
                None => Ok((left, 0, tokens)),
            },
            Err(stop) => {
                expr(left.expr);
                Err(stop)
            }
        }
    }

    /// An operand after an operator of a level, and the operators of the level after it.
    #[cycle(levels)]
    fn operation<'a>(
        &self,
        no_in: bool,
        level: u8,
        operator: Infix,
        left: Operand,
        height: u32,
        base: u32,
        after: &'a [Token],
    ) -> Read<'a, Operand>
        requires assigns { Assigns self.now.depth (F.pre self.now.assign) (F.post self.now.assign) }
        requires bodies { Bodies self.now.depth (G.pre self.now.body) (G.post self.now.body) }
        requires depth { self.now.depth ≤ base + 1 }
        requires base { base + height ≤ 200 }
        requires level { 0 < level }
        requires loosest { level ≤ 10 }
        ensures after { After (More no_in level left height) base (more_by no_in level left height (Some operator)) after.now result }
        ensures small { IfOk result (λ r. base + r.1 ≤ 200) }
    {
        let deep = base + height;
        if deep == LIMIT {
            expr(left.expr);
            return Err(Stop::Nesting);
        }
        match self.binary(no_in, level - 1, base + 1, after) {
            Ok((right, inner, rest)) => {
                let made = plain(joined(self.alloc, operator, left.expr, right.expr)?);
                let tall = (height + 1).max(inner + 1);
                let (all, above, rest) = self.more(no_in, level, made, tall, base, rest)?;
                Ok((all, tall.max(above), rest))
            }
            Err(stop) => {
                expr(left.expr);
                Err(stop)
            }
        }
    }
}

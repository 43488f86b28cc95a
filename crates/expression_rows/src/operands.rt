//! An operand with what stands after it: members, calls and `new`.

ghost use Rattle.std.specs.Prelude.{◌≤◌, ◌<◌, ◌+◌, ◌-◌, ◌≢◌, IfOk, MatchResult};
ghost use Rattle.script_grammar.specs.Meets.{Assigns, Bodies, Meets};
ghost use Rattle.expression_rows.specs.Parts.{Part, TookKey, MissesKey, TookOperand, MissesOperand, computed_part, fixed_part, call_part};
ghost use Rattle.script_grammar.specs.Rules.Symbol.{Left, New, Suffixes};
ghost use Rattle.script_grammar.specs.declared.stop.Stop.TheVariants.{Memory};

use crate::deeper::Grammar;
use crate::makers::{plain, target};
use js_lexer::{Mark, Reserved, Token};
use js_tree::{Script, Stmt};
use script_grammar::classes::{Around, Operand, Tail};
use script_grammar::classify::{is, is_word, key_of, tail_of};
use script_grammar::steps::{LIMIT, Read, first, refused};
use script_grammar::stop::Stop;
use sqlite_items::Items;
use std::alloc::Global;
use tree_drops::expr;
use tree_makers::exprs;
use turk_base::Units;

/// The key after a dot.
fn key(alloc: Global, tokens: &[Token]) -> Result<(Units, &[Token]), Stop>
    ensures { MatchResult result (λ p. TookKey tokens.now p.0 p.1.now) (λ e. e ≢ Memory → MissesKey tokens.now e) }
{
    let (token, rest) = first(tokens)?;
    match key_of(alloc, &token.kind)? {
        Some(units) => Ok((units, rest)),
        None => Err(refused(None, token)),
    }
}

impl<
    F: Fn(Global, bool, u32, &[Token]) -> Result<(Operand, u32, &[Token]), Stop>,
    G: Fn(Global, u32, &[Token]) -> Result<(Script, u32, &[Token]), Stop>,
    H: Fn(Global, Around, u32, &[Token]) -> Result<(Stmt, u32, &[Token]), Stop>,
> Grammar<F, G, H> {
    /// A member by a key in brackets, after the first of them.
    pub fn computed<'a>(
        &self,
        left: Operand,
        height: u32,
        base: u32,
        after: &'a [Token],
    ) -> Read<'a, Operand>
        requires assigns { Assigns self.now.depth (F.pre self.now.assign) (F.post self.now.assign) }
        requires depth { self.now.depth ≤ base + 1 }
        requires base { base + height ≤ 200 }
        ensures part { Part base (computed_part left height) 0 after.now result }
        ensures grown { IfOk result (λ r. height < r.1) }
        ensures small { IfOk result (λ r. base + r.1 ≤ 200) }
    {
        let deep = base + height;
        if deep == LIMIT {
            expr(left.expr);
            return Err(Stop::Nesting);
        }
        match self.enclosed(Mark::CloseBracket, base, after) {
            Ok((key, inner, rest)) => {
                let made = exprs::member_computed(self.alloc, left.expr, key.expr)?;
                Ok((target(made), (height + 1).max(inner + 1), rest))
            }
            Err(stop) => {
                expr(left.expr);
                Err(stop)
            }
        }
    }

    /// A member by a key after a dot.
    pub fn fixed<'a>(
        &self,
        left: Operand,
        height: u32,
        base: u32,
        after: &'a [Token],
    ) -> Read<'a, Operand>
        requires base { base + height ≤ 200 }
        ensures part { Part base (fixed_part left height) 0 after.now result }
        ensures grown { IfOk result (λ r. height < r.1) }
        ensures small { IfOk result (λ r. base + r.1 ≤ 200) }
    {
        let deep = base + height;
        if deep == LIMIT {
            expr(left.expr);
            return Err(Stop::Nesting);
        }
        match key(self.alloc, after) {
            Ok((units, rest)) => {
                let made = exprs::member_fixed(self.alloc, left.expr, units)?;
                Ok((target(made), height + 1, rest))
            }
            Err(stop) => {
                expr(left.expr);
                Err(stop)
            }
        }
    }

    /// A call, after its parenthesis; what stands in it is so many levels above the operand's node.
    pub fn call<'a>(
        &self,
        levels: u32,
        left: Operand,
        height: u32,
        base: u32,
        after: &'a [Token],
    ) -> Read<'a, Operand>
        requires assigns { Assigns self.now.depth (F.pre self.now.assign) (F.post self.now.assign) }
        requires depth { self.now.depth ≤ base + 1 }
        requires base { base + height ≤ 200 }
        requires levels { 1 ≤ levels }
        requires few { levels ≤ 2 }
        ensures part { Part base (call_part levels left height) (levels - 1) after.now result }
        ensures grown { IfOk result (λ r. height < r.1) }
        ensures small { IfOk result (λ r. base + r.1 + levels ≤ 201) }
    {
        if base + height + levels > LIMIT {
            expr(left.expr);
            return Err(Stop::Nesting);
        }
        match self.given(levels, base, after) {
            Ok((all, inner, rest)) => {
                let made = exprs::call(self.alloc, left.expr, all)?;
                Ok((plain(made), (height + 1).max(inner + 1), rest))
            }
            Err(stop) => {
                expr(left.expr);
                Err(stop)
            }
        }
    }

    /// What stands after an operand: members and calls, or members alone.
    pub fn suffixes<'a>(
        &self,
        calls: bool,
        left: Operand,
        height: u32,
        base: u32,
        tokens: &'a [Token],
    ) -> Read<'a, Operand>
        requires assigns { Assigns self.now.depth (F.pre self.now.assign) (F.post self.now.assign) }
        requires depth { self.now.depth ≤ base + 1 }
        requires base { base + height ≤ 200 }
        ensures meets { Meets (Suffixes calls left height) base tokens.now result }
        ensures small { IfOk result (λ r. base + r.1 ≤ 200) }
    {
        match first(tokens) {
            Ok((token, after)) => match tail_of(&token.kind) {
                Tail::Computed => {
                    let (made, tall, rest) = self.computed(left, height, base, after)?;
                    let (all, above, rest) = self.suffixes(calls, made, tall, base, rest)?;
                    Ok((all, tall.max(above), rest))
                }
                Tail::Fixed => {
                    let (made, tall, rest) = self.fixed(left, height, base, after)?;
                    let (all, above, rest) = self.suffixes(calls, made, tall, base, rest)?;
                    Ok((all, tall.max(above), rest))
                }
                Tail::Call => {
                    if !calls {
                        return Ok((left, 0, tokens));
                    }
                    let (made, tall, rest) = self.call(1, left, height, base, after)?;
                    let (all, above, rest) = self.suffixes(calls, made, tall, base, rest)?;
                    Ok((all, tall.max(above), rest))
                }
                Tail::Neither => Ok((left, 0, tokens)),
            },
            Err(stop) => {
                expr(left.expr);
                Err(stop)
            }
        }
    }

    /// An operand or a `new`, with what stands after it.
    #[cycle(operands)]
    pub fn operand<'a>(&self, calls: bool, base: u32, tokens: &'a [Token]) -> Read<'a, Operand>
        requires assigns { Assigns self.now.depth (F.pre self.now.assign) (F.post self.now.assign) }
        requires bodies { Bodies self.now.depth (G.pre self.now.body) (G.post self.now.body) }
        requires depth { self.now.depth ≤ base + 1 }
        requires base { base ≤ 200 }
        ensures row { MatchResult result (λ r. TookOperand calls base tokens.now r.0 r.1 r.2.now) (λ e. e ≢ Memory → MissesOperand calls base tokens.now e) }
        ensures small { IfOk result (λ r. base + r.1 ≤ 200) }
    {
        let (token, _) = first(tokens)?;
        if is_word(Reserved::New, token) {
            let (made, tall, rest) = self.new(base, tokens)?;
            let (whole, above, rest) = self.suffixes(calls, made, tall, base, rest)?;
            return Ok((whole, tall.max(above), rest));
        }
        let (left, height, rest) = self.primary(base, tokens)?;
        let (all, above, rest) = self.suffixes(calls, left, height, base, rest)?;
        Ok((all, height.max(above), rest))
    }

    /// `new`, a callee and its arguments.
    #[cycle(operands)]
    pub fn new<'a>(&self, base: u32, tokens: &'a [Token]) -> Read<'a, Operand>
        requires assigns { Assigns self.now.depth (F.pre self.now.assign) (F.post self.now.assign) }
        requires bodies { Bodies self.now.depth (G.pre self.now.body) (G.post self.now.body) }
        requires depth { self.now.depth ≤ base + 1 }
        requires base { base ≤ 200 }
        ensures meets { Meets New base tokens.now result }
        ensures small { IfOk result (λ r. base + r.1 ≤ 200) }
    {
        let (token, rest) = first(tokens)?;
        if !is_word(Reserved::New, token) {
            return Err(refused(None, token));
        }
        if base == LIMIT {
            return Err(Stop::Nesting);
        }
        let (callee, height, rest) = self.operand(false, base + 1, rest)?;
        match first(rest) {
            Ok((token, after)) => {
                if !is(Mark::OpenParen, token) {
                    let none = Items::new(self.alloc);
                    let bare = exprs::new(self.alloc, callee.expr, none)?;
                    return Ok((plain(bare), height + 1, rest));
                }
                match self.given(1, base, after) {
                    Ok((all, inner, rest)) => {
                        let made = exprs::new(self.alloc, callee.expr, all)?;
                        Ok((plain(made), (height + 1).max(inner + 1), rest))
                    }
                    Err(stop) => {
                        expr(callee.expr);
                        Err(stop)
                    }
                }
            }
            Err(stop) => {
                expr(callee.expr);
                Err(stop)
            }
        }
    }

    /// An operand with members and calls after it.
    pub fn left<'a>(&self, base: u32, tokens: &'a [Token]) -> Read<'a, Operand>
        requires assigns { Assigns self.now.depth (F.pre self.now.assign) (F.post self.now.assign) }
        requires bodies { Bodies self.now.depth (G.pre self.now.body) (G.post self.now.body) }
        requires depth { self.now.depth ≤ base + 1 }
        requires base { base ≤ 200 }
        ensures meets { Meets Left base tokens.now result }
        ensures small { IfOk result (λ r. base + r.1 ≤ 200) }
    {
        self.operand(true, base, tokens)
    }
}

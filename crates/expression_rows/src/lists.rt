//! Arguments, the elements of array literals and the fields of object literals.

ghost use Rattle.std.specs.Prelude.{◌≤◌, ◌+◌, ◌≢◌, [], IfOk, MatchResult};
ghost use Rattle.script_grammar.specs.Meets.{Assigns, Meets, TookArguments, MissesArguments, TookItem, MissesItem, after_argument, after_element, after_field, TookElementEnd, MissesElementEnd};
ghost use Rattle.script_grammar.specs.Rules.Symbol.{Arguments, Items as Elements, Fields};
ghost use Rattle.script_grammar.specs.declared.stop.Stop.TheVariants.{Memory};

use crate::deeper::Grammar;
use js_lexer::{Mark, Token};
use js_tree::{Expr, Field, Script, Stmt};
use script_grammar::Form;
use script_grammar::classes::{Around, Operand};
use script_grammar::classify::{is, literal_key_of};
use script_grammar::steps::{Read, expect, first, refused};
use script_grammar::stop::Stop;
use sqlite_items::Items;
use std::alloc::Global;
use tree_drops::{expr, exprs, exprs_with, fields, fields_with};
use tree_makers::exprs as makers;

/// An item of a list, how high it is, whether another one follows, and the tokens from there on.
pub type Item<'a, T> = Result<(T, u32, bool, &'a [Token]), Stop>;

impl<
    F: Fn(Global, bool, u32, &[Token]) -> Result<(Operand, u32, &[Token]), Stop>,
    G: Fn(Global, u32, &[Token]) -> Result<(Script, u32, &[Token]), Stop>,
    H: Fn(Global, Around, u32, &[Token]) -> Result<(Stmt, u32, &[Token]), Stop>,
> Grammar<F, G, H> {
    /// An argument, and the comma after it where one stands.
    fn argument<'a>(&self, base: u32, tokens: &'a [Token]) -> Item<'a, Expr>
        requires assigns { Assigns self.now.depth (F.pre self.now.assign) (F.post self.now.assign) }
        requires depth { self.now.depth ≤ base }
        requires base { base ≤ 200 }
        ensures item { MatchResult result (λ r. TookItem Arguments after_argument base tokens.now r.0 r.1 r.2 r.3.now) (λ e. e ≢ Memory → MissesItem Arguments base tokens.now e) }
        ensures small { IfOk result (λ r. base + r.1 ≤ 200) }
    {
        let (one, height, rest) = self.deeper(false, base, tokens)?;
        match first(rest) {
            Ok((token, after)) => {
                if is(Mark::Comma, token) {
                    Ok((one.expr, height, true, after))
                } else {
                    Ok((one.expr, height, false, rest))
                }
            }
            Err(stop) => {
                expr(one.expr);
                Err(stop)
            }
        }
    }

    /// One or more arguments.
    pub fn arguments<'a>(&self, base: u32, tokens: &'a [Token]) -> Read<'a, Items<Expr>>
        requires assigns { Assigns self.now.depth (F.pre self.now.assign) (F.post self.now.assign) }
        requires depth { self.now.depth ≤ base }
        requires base { base ≤ 200 }
        ensures meets { Meets (Arguments []) base tokens.now result }
        ensures small { IfOk result (λ r. base + r.1 ≤ 200) }
    {
        let mut all = Items::new(self.alloc);
        let mut tall = 0;
        let mut left = tokens;
        loop {
            match self.argument(base, left) {
                Ok((one, height, more, rest)) => {
                    all = exprs_with(all, one)?;
                    tall = tall.max(height);
                    if !more {
                        return Ok((all, tall, rest));
                    }
                    left = rest;
                }
                Err(stop) => {
                    exprs(all);
                    return Err(stop);
                }
            }
        }
    }

    /// The arguments after a parenthesis, so much deeper, and the parenthesis that closes them.
    pub fn given<'a>(&self, levels: u32, base: u32, tokens: &'a [Token]) -> Read<'a, Items<Expr>>
        requires assigns { Assigns self.now.depth (F.pre self.now.assign) (F.post self.now.assign) }
        requires depth { self.now.depth ≤ base + levels }
        requires base { base + levels ≤ 200 }
        ensures row { MatchResult result (λ r. TookArguments base levels tokens.now r.0 r.1 r.2.now) (λ e. e ≢ Memory → MissesArguments base levels tokens.now e) }
        ensures small { IfOk result (λ r. base + levels + r.1 ≤ 200) }
    {
        let (token, after) = first(tokens)?;
        if is(Mark::CloseParen, token) {
            return Ok((Items::new(self.alloc), 0, after));
        }
        let (all, height, rest) = self.arguments(base + levels, tokens)?;
        match expect(Mark::CloseParen, rest) {
            Ok(rest) => Ok((all, height, rest)),
            Err(stop) => {
                exprs(all);
                Err(stop)
            }
        }
    }

    /// An element of an array literal, and whether another one follows; a comma may stand after the last.
    fn element<'a>(&self, base: u32, tokens: &'a [Token]) -> Item<'a, Expr>
        requires assigns { Assigns self.now.depth (F.pre self.now.assign) (F.post self.now.assign) }
        requires depth { self.now.depth ≤ base }
        requires base { base ≤ 200 }
        ensures item { MatchResult result (λ r. TookItem Elements after_element base tokens.now r.0 r.1 r.2 r.3.now) (λ e. e ≢ Memory → MissesItem Elements base tokens.now e) }
        ensures small { IfOk result (λ r. base + r.1 ≤ 200) }
    {
        let (token, _) = first(tokens)?;
        if is(Mark::Comma, token) {
            return Err(refused(Some(Form::Elision), token));
        }
        let (one, height, rest) = self.deeper(false, base, tokens)?;
        match element_end(rest) {
            Ok((more, rest)) => Ok((one.expr, height, more, rest)),
            Err(stop) => {
                expr(one.expr);
                Err(stop)
            }
        }
    }

    /// One or more elements of an array literal.
    pub fn elements<'a>(&self, base: u32, tokens: &'a [Token]) -> Read<'a, Items<Expr>>
        requires assigns { Assigns self.now.depth (F.pre self.now.assign) (F.post self.now.assign) }
        requires depth { self.now.depth ≤ base }
        requires base { base ≤ 200 }
        ensures meets { Meets (Elements []) base tokens.now result }
        ensures small { IfOk result (λ r. base + r.1 ≤ 200) }
    {
        let mut all = Items::new(self.alloc);
        let mut tall = 0;
        let mut left = tokens;
        loop {
            match self.element(base, left) {
                Ok((one, height, more, rest)) => {
                    all = exprs_with(all, one)?;
                    tall = tall.max(height);
                    if !more {
                        return Ok((all, tall, rest));
                    }
                    left = rest;
                }
                Err(stop) => {
                    exprs(all);
                    return Err(stop);
                }
            }
        }
    }

    /// A key of an object literal with its value, and the comma after it where one stands.
    fn field<'a>(&self, base: u32, tokens: &'a [Token]) -> Item<'a, Field>
        requires assigns { Assigns self.now.depth (F.pre self.now.assign) (F.post self.now.assign) }
        requires depth { self.now.depth ≤ base }
        requires base { base ≤ 200 }
        ensures item { MatchResult result (λ r. TookItem Fields after_field base tokens.now r.0 r.1 r.2 r.3.now) (λ e. e ≢ Memory → MissesItem Fields base tokens.now e) }
        ensures small { IfOk result (λ r. base + r.1 ≤ 200) }
    {
        let (token, rest) = first(tokens)?;
        match literal_key_of(self.alloc, &token.kind)? {
            Some(key) => {
                let rest = expect(Mark::Colon, rest)?;
                let (one, height, rest) = self.deeper(false, base, rest)?;
                match first(rest) {
                    Ok((token, after)) => {
                        if is(Mark::Comma, token) {
                            Ok((makers::field(key, one.expr), height, true, after))
                        } else {
                            Ok((makers::field(key, one.expr), height, false, rest))
                        }
                    }
                    Err(stop) => {
                        expr(one.expr);
                        Err(stop)
                    }
                }
            }
            None => Err(refused(None, token)),
        }
    }

    /// One or more fields of an object literal.
    pub fn fields<'a>(&self, base: u32, tokens: &'a [Token]) -> Read<'a, Items<Field>>
        requires assigns { Assigns self.now.depth (F.pre self.now.assign) (F.post self.now.assign) }
        requires depth { self.now.depth ≤ base }
        requires base { base ≤ 200 }
        ensures meets { Meets (Fields []) base tokens.now result }
        ensures small { IfOk result (λ r. base + r.1 ≤ 200) }
    {
        let mut all = Items::new(self.alloc);
        let mut tall = 0;
        let mut left = tokens;
        loop {
            match self.field(base, left) {
                Ok((one, height, more, rest)) => {
                    all = fields_with(all, one)?;
                    tall = tall.max(height);
                    if !more {
                        return Ok((all, tall, rest));
                    }
                    left = rest;
                }
                Err(stop) => {
                    fields(all);
                    return Err(stop);
                }
            }
        }
    }
}

/// Whether another element of an array literal follows, and the tokens from there on or from the end.
fn element_end(tokens: &[Token]) -> Result<(bool, &[Token]), Stop>
    ensures { MatchResult result (λ r. TookElementEnd tokens.now r.0 r.1.now) (λ e. MissesElementEnd tokens.now e) }
{
    let (token, after) = first(tokens)?;
    if !is(Mark::Comma, token) {
        return Ok((false, tokens));
    }
    let (token, _) = first(after)?;
    if is(Mark::CloseBracket, token) {
        Ok((false, after))
    } else {
        Ok((true, after))
    }
}

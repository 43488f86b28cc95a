//! Operands: names, literals, what stands in parentheses, function expressions and script calls.

ghost use Rattle.std.specs.Prelude.{◌≤◌, ◌+◌, ◌≢◌, true, [], IfOk, MatchResult};
ghost use Rattle.script_grammar.specs.Grammar.{primary_by};
ghost use Rattle.script_grammar.specs.Grammar as grammar;
ghost use Rattle.script_grammar.specs.Meets.{Assigns, Bodies, After, Leaf, Meets, TookFunction, MissesFunction};
ghost use Rattle.script_grammar.specs.Rules.Symbol.{Primary};
ghost use Rattle.script_grammar.specs.declared.classes.Head.TheVariants as head;
ghost use Rattle.script_grammar.specs.declared.stop.Stop.TheVariants.{Memory};

use crate::deeper::Grammar;
use crate::makers::{called, called_alone, named, plain};
use js_lexer::{CallWord, Mark, Token};
use js_tree::{Script, Stmt};
use script_grammar::Form;
use script_grammar::classes::{Around, Head, Name, Operand};
use script_grammar::classify::{head_of, is};
use script_grammar::steps::{LIMIT, Read, beyond, expect, first, name, parameters, refused};
use script_grammar::stop::Stop;
use sqlite_items::Items;
use std::alloc::Global;
use tree_drops as drops;
use tree_makers::exprs;
use turk_base::Units;

/// A node with nothing in it, after its token.
pub fn leaf<'a>(base: u32, made: Operand, rest: &'a [Token]) -> Read<'a, Operand>
    requires base { base ≤ 200 }
    ensures leaf { After Primary base (Leaf made) rest.now result }
    ensures small { IfOk result (λ r. base + r.1 ≤ 200) }
{
    if base == LIMIT {
        drops::expr(made.expr);
        return Err(Stop::Nesting);
    }
    Ok((made, 1, rest))
}

/// A script call without arguments, after its word.
pub fn alone<'a>(word: CallWord, base: u32, rest: &'a [Token]) -> Read<'a, Operand>
    requires base { base ≤ 200 }
    ensures after { After Primary base (primary_by (head.Zero word)) rest.now result }
    ensures small { IfOk result (λ r. base + r.1 ≤ 200) }
{
    if base == LIMIT {
        return Err(Stop::Nesting);
    }
    let rest = expect(Mark::OpenParen, rest)?;
    let rest = expect(Mark::CloseParen, rest)?;
    Ok((plain(called_alone(word)), 1, rest))
}

impl<
    F: Fn(Global, bool, u32, &[Token]) -> Result<(Operand, u32, &[Token]), Stop>,
    G: Fn(Global, u32, &[Token]) -> Result<(Script, u32, &[Token]), Stop>,
    H: Fn(Global, Around, u32, &[Token]) -> Result<(Stmt, u32, &[Token]), Stop>,
> Grammar<F, G, H> {
    /// The parameters and the body of a function.
    pub fn function_parts<'a>(
        &self,
        base: u32,
        tokens: &'a [Token],
    ) -> Read<'a, (Items<Units>, Script)>
        requires bodies { Bodies self.now.depth (G.pre self.now.body) (G.post self.now.body) }
        requires depth { self.now.depth ≤ base + 1 }
        requires base { base + 1 ≤ 200 }
        ensures row { MatchResult result (λ r. TookFunction base tokens.now r.0.0 r.0.1 r.1 r.2.now) (λ e. e ≢ Memory → MissesFunction base tokens.now e) }
        ensures small { IfOk result (λ r. base + r.1 ≤ 200) }
        ensures high { IfOk result (λ r. 1 ≤ r.1) }
    {
        let (names, rest) = parameters(self.alloc, tokens)?;
        let rest = expect(Mark::OpenBrace, rest)?;
        let (body, height, rest) = self.inner(base + 1, rest)?;
        match expect(Mark::CloseBrace, rest) {
            Ok(rest) => Ok(((names, body), height + 1, rest)),
            Err(stop) => {
                drops::script(body);
                Err(stop)
            }
        }
    }

    /// What stands in parentheses, after the first of them; no node stands with it.
    pub fn parenthesis<'a>(&self, base: u32, rest: &'a [Token]) -> Read<'a, Operand>
        requires assigns { Assigns self.now.depth (F.pre self.now.assign) (F.post self.now.assign) }
        requires depth { self.now.depth ≤ base + 1 }
        requires base { base ≤ 200 }
        ensures after { After Primary base (primary_by head.Parenthesis) rest.now result }
        ensures small { IfOk result (λ r. base + r.1 ≤ 200) }
    {
        if base == LIMIT {
            return Err(beyond(self.alloc, rest));
        }
        let (inner, height, rest) = self.enclosed(Mark::CloseParen, base, rest)?;
        Ok((plain(inner.expr), height + 1, rest))
    }

    /// An array literal, after its first token.
    pub fn array<'a>(&self, base: u32, rest: &'a [Token]) -> Read<'a, Operand>
        requires assigns { Assigns self.now.depth (F.pre self.now.assign) (F.post self.now.assign) }
        requires depth { self.now.depth ≤ base + 1 }
        requires base { base ≤ 200 }
        ensures after { After Primary base (primary_by head.Array) rest.now result }
        ensures small { IfOk result (λ r. base + r.1 ≤ 200) }
    {
        if base == LIMIT {
            return Err(Stop::Nesting);
        }
        let (token, after) = first(rest)?;
        if is(Mark::CloseBracket, token) {
            return Ok((plain(exprs::array(Items::new(self.alloc))), 1, after));
        }
        let (all, height, rest) = self.elements(base + 1, rest)?;
        match expect(Mark::CloseBracket, rest) {
            Ok(rest) => Ok((plain(exprs::array(all)), height + 1, rest)),
            Err(stop) => {
                drops::exprs(all);
                Err(stop)
            }
        }
    }

    /// An object literal, after its first token.
    pub fn object<'a>(&self, base: u32, rest: &'a [Token]) -> Read<'a, Operand>
        requires assigns { Assigns self.now.depth (F.pre self.now.assign) (F.post self.now.assign) }
        requires depth { self.now.depth ≤ base + 1 }
        requires base { base ≤ 200 }
        ensures after { After Primary base (primary_by head.Object) rest.now result }
        ensures small { IfOk result (λ r. base + r.1 ≤ 200) }
    {
        if base == LIMIT {
            return Err(Stop::Nesting);
        }
        let (token, after) = first(rest)?;
        if is(Mark::CloseBrace, token) {
            return Ok((plain(exprs::object(Items::new(self.alloc))), 1, after));
        }
        let (all, height, rest) = self.fields(base + 1, rest)?;
        match expect(Mark::CloseBrace, rest) {
            Ok(rest) => Ok((plain(exprs::object(all)), height + 1, rest)),
            Err(stop) => {
                drops::fields(all);
                Err(stop)
            }
        }
    }

    /// A function expression, after the word.
    pub fn function<'a>(&self, base: u32, rest: &'a [Token]) -> Read<'a, Operand>
        requires bodies { Bodies self.now.depth (G.pre self.now.body) (G.post self.now.body) }
        requires depth { self.now.depth ≤ base + 1 }
        requires base { base ≤ 200 }
        ensures after { After Primary base (primary_by head.Function) rest.now result }
        ensures small { IfOk result (λ r. base + r.1 ≤ 200) }
    {
        if base == LIMIT {
            return Err(Stop::Nesting);
        }
        let (token, _) = first(rest)?;
        if is(Mark::OpenParen, token) {
            let ((names, body), height, rest) = self.function_parts(base, rest)?;
            return Ok((plain(exprs::function(None, names, body)), height, rest));
        }
        let (own, rest) = name(self.alloc, rest)?;
        let ((names, body), height, rest) = self.function_parts(base, rest)?;
        Ok((plain(exprs::function(Some(own), names, body)), height, rest))
    }

    /// `print` with its arguments, after the word.
    pub fn print<'a>(&self, base: u32, rest: &'a [Token]) -> Read<'a, Operand>
        requires assigns { Assigns self.now.depth (F.pre self.now.assign) (F.post self.now.assign) }
        requires depth { self.now.depth ≤ base + 1 }
        requires base { base ≤ 200 }
        ensures after { After Primary base (primary_by head.Many) rest.now result }
        ensures small { IfOk result (λ r. base + r.1 ≤ 200) }
    {
        if base == LIMIT {
            return Err(Stop::Nesting);
        }
        let rest = expect(Mark::OpenParen, rest)?;
        let (all, height, rest) = self.given(1, base, rest)?;
        Ok((plain(exprs::print(all)), height + 1, rest))
    }

    /// A script call with one argument, after its word.
    pub fn script_call<'a>(&self, word: CallWord, base: u32, rest: &'a [Token]) -> Read<'a, Operand>
        requires assigns { Assigns self.now.depth (F.pre self.now.assign) (F.post self.now.assign) }
        requires depth { self.now.depth ≤ base + 1 }
        requires base { base ≤ 200 }
        ensures after { After Primary base (primary_by (head.One word)) rest.now result }
        ensures small { IfOk result (λ r. base + r.1 ≤ 200) }
    {
        if base == LIMIT {
            return Err(Stop::Nesting);
        }
        let rest = expect(Mark::OpenParen, rest)?;
        let (argument, height, rest) = self.deeper(false, base + 1, rest)?;
        match expect(Mark::CloseParen, rest) {
            Ok(rest) => {
                let made = plain(called(self.alloc, word, argument.expr)?);
                Ok((made, height + 1, rest))
            }
            Err(stop) => {
                drops::expr(argument.expr);
                Err(stop)
            }
        }
    }

    /// An operand, with nothing after it.
    pub fn primary<'a>(&self, base: u32, tokens: &'a [Token]) -> Read<'a, Operand>
        requires assigns { Assigns self.now.depth (F.pre self.now.assign) (F.post self.now.assign) }
        requires bodies { Bodies self.now.depth (G.pre self.now.body) (G.post self.now.body) }
        requires depth { self.now.depth ≤ base + 1 }
        requires base { base ≤ 200 }
        ensures meets { Meets Primary base tokens.now result }
        ensures small { IfOk result (λ r. base + r.1 ≤ 200) }
    {
        let (token, rest) = first(tokens)?;
        match head_of(self.alloc, &token.kind)? {
            Head::This => leaf(base, plain(exprs::this()), rest),
            Head::Identifier(Name::Named(units)) => leaf(base, named(units), rest),
            Head::Identifier(Name::Out(form)) => Err(refused(Some(form), token)),
            Head::Identifier(Name::Other) => Err(refused(None, token)),
            Head::Constant(value) => leaf(base, plain(exprs::literal(value)), rest),
            Head::Array => self.array(base, rest),
            Head::Object => self.object(base, rest),
            Head::Parenthesis => self.parenthesis(base, rest),
            Head::Function => self.function(base, rest),
            Head::Many => self.print(base, rest),
            Head::One(word) => self.script_call(word, base, rest),
            Head::Zero(word) => alone(word, base, rest),
            Head::RegExp => Err(refused(Some(Form::RegExp), token)),
            Head::Neither => Err(refused(None, token)),
        }
    }
}

//! Operators before an operand, and `++` and `--` after one.

ghost use Rattle.std.specs.Prelude.{◌≤◌, ◌+◌, ◌≡◌, ◌≢◌, IfOk, MatchResult};
ghost use Rattle.expression_rows.specs.Parts.{TookBeneath, MissesBeneath, step_after};
ghost use Rattle.script_grammar.specs.Grammar.{unary_by};
ghost use Rattle.script_grammar.specs.Meets.{Assigns, After, Bodies, Meets};
ghost use Rattle.script_grammar.specs.Rules.Symbol.{Postfix, Unary};
ghost use Rattle.script_grammar.specs.declared.classes.Prefix.TheVariants as prefix;
ghost use Rattle.script_grammar.specs.declared.stop.Stop.TheVariants.{Memory};

use crate::deeper::Grammar;
use crate::makers::plain;
use js_lexer::Token;
use js_tree::{Fix, Script, Sign, Stmt};
use script_grammar::classes::{Around, Operand, Prefix};
use script_grammar::classify::{prefix_of, step_of};
use script_grammar::steps::{LIMIT, Read, first, refused};
use script_grammar::stop::Stop;
use std::alloc::Global;
use tree_drops::expr;
use tree_makers::exprs;

/// The operator `++` or `--` that stands after an operand, on its line; a target alone takes one.
pub fn step_after(target: bool, token: &Token) -> Option<Sign>
    ensures { result ≡ step_after target token.now }
{
    if target && !token.after_newline {
        step_of(&token.kind)
    } else {
        None
    }
}

impl<
    F: Fn(Global, bool, u32, &[Token]) -> Result<(Operand, u32, &[Token]), Stop>,
    G: Fn(Global, u32, &[Token]) -> Result<(Script, u32, &[Token]), Stop>,
    H: Fn(Global, Around, u32, &[Token]) -> Result<(Stmt, u32, &[Token]), Stop>,
> Grammar<F, G, H> {
    /// An expression with an operator before it, or with one after it, or with none.
    #[cycle(operators)]
    pub fn unary<'a>(&self, base: u32, tokens: &'a [Token]) -> Read<'a, Operand>
        requires assigns { Assigns self.now.depth (F.pre self.now.assign) (F.post self.now.assign) }
        requires bodies { Bodies self.now.depth (G.pre self.now.body) (G.post self.now.body) }
        requires depth { self.now.depth ≤ base + 1 }
        requires base { base ≤ 200 }
        ensures meets { Meets Unary base tokens.now result }
        ensures small { IfOk result (λ r. base + r.1 ≤ 200) }
    {
        let (token, rest) = first(tokens)?;
        match prefix_of(&token.kind) {
            Prefix::Delete => self.delete(base, rest),
            Prefix::Void => {
                let (operand, height, rest) = self.beneath(base, rest)?;
                Ok((
                    plain(exprs::void(self.alloc, operand.expr)?),
                    height + 1,
                    rest,
                ))
            }
            Prefix::Typeof => {
                let (operand, height, rest) = self.beneath(base, rest)?;
                Ok((
                    plain(exprs::type_of(self.alloc, operand.expr)?),
                    height + 1,
                    rest,
                ))
            }
            Prefix::Signed(operator) => {
                let (operand, height, rest) = self.beneath(base, rest)?;
                Ok((
                    plain(exprs::unary(self.alloc, operator, operand.expr)?),
                    height + 1,
                    rest,
                ))
            }
            Prefix::Update(step) => self.update(step, base, rest),
            Prefix::Neither => self.postfix(base, tokens),
        }
    }

    /// The operand of an operator before it, one deeper.
    #[cycle(operators)]
    fn beneath<'a>(&self, base: u32, rest: &'a [Token]) -> Read<'a, Operand>
        requires assigns { Assigns self.now.depth (F.pre self.now.assign) (F.post self.now.assign) }
        requires bodies { Bodies self.now.depth (G.pre self.now.body) (G.post self.now.body) }
        requires depth { self.now.depth ≤ base + 1 }
        requires base { base ≤ 200 }
        ensures row { MatchResult result (λ r. TookBeneath base rest.now r.0 r.1 r.2.now) (λ e. e ≢ Memory → MissesBeneath base rest.now e) }
        ensures small { IfOk result (λ r. base + 1 + r.1 ≤ 200) }
    {
        if base == LIMIT {
            return Err(Stop::Nesting);
        }
        self.unary(base + 1, rest)
    }

    /// `++` or `--` before its target, after the operator.
    fn update<'a>(&self, step: Sign, base: u32, rest: &'a [Token]) -> Read<'a, Operand>
        requires assigns { Assigns self.now.depth (F.pre self.now.assign) (F.post self.now.assign) }
        requires bodies { Bodies self.now.depth (G.pre self.now.body) (G.post self.now.body) }
        requires depth { self.now.depth ≤ base + 1 }
        requires base { base ≤ 200 }
        ensures after { After Unary base (unary_by (prefix.Update step)) rest.now result }
        ensures small { IfOk result (λ r. base + r.1 ≤ 200) }
    {
        if base == LIMIT {
            return Err(Stop::Nesting);
        }
        let (operand, height, rest) = self.left(base + 1, rest)?;
        if operand.target {
            let made = exprs::update(self.alloc, operand.expr, step, Fix::Prefix)?;
            return Ok((plain(made), height + 1, rest));
        }
        expr(operand.expr);
        let (token, _) = first(rest)?;
        Err(refused(None, token))
    }

    /// An operand with what stands after it, and `++` or `--` on the same line.
    pub fn postfix<'a>(&self, base: u32, tokens: &'a [Token]) -> Read<'a, Operand>
        requires assigns { Assigns self.now.depth (F.pre self.now.assign) (F.post self.now.assign) }
        requires bodies { Bodies self.now.depth (G.pre self.now.body) (G.post self.now.body) }
        requires depth { self.now.depth ≤ base + 1 }
        requires base { base ≤ 200 }
        ensures meets { Meets Postfix base tokens.now result }
        ensures small { IfOk result (λ r. base + r.1 ≤ 200) }
    {
        let (left, height, rest) = self.left(base, tokens)?;
        match first(rest) {
            Ok((token, after)) => match step_after(left.target, token) {
                Some(step) => {
                    let deep = base + height;
                    if deep == LIMIT {
                        expr(left.expr);
                        return Err(Stop::Nesting);
                    }
                    let made = exprs::update(self.alloc, left.expr, step, Fix::Postfix)?;
                    Ok((plain(made), height + 1, after))
                }
                None => Ok((left, height, rest)),
            },
            Err(stop) => {
                expr(left.expr);
                Err(stop)
            }
        }
    }
}

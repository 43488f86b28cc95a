//! The operand of `delete`: a member as written, which is one node with it.

ghost use Rattle.std.specs.Prelude.{ℕ, ◌≡◌, ◌≤◌, ◌+◌, ◌∷◌, IfOk};
ghost use Rattle.script_grammar.specs.Grammar as grammar;
ghost use Rattle.script_grammar.specs.Grammar.{unary_by};
ghost use Rattle.script_grammar.specs.Meets.{Assigns, After, Bodies, Follows, Meets};
ghost use Rattle.script_grammar.specs.Rules.Symbol.{Deleted, Unary};
ghost use Rattle.script_grammar.specs.declared.classes.Prefix.TheVariants as prefix;

use crate::deeper::Grammar;
use crate::makers::plain;
use crate::unary::step_after;
use js_lexer::{Reserved, Token};
use js_tree::{Script, Stmt};
use script_grammar::Form;
use script_grammar::classes::{Around, Operand, Tail};
use script_grammar::classify::{is_word, prefixed, tail_of};
use script_grammar::steps::{LIMIT, Read, first, refused};
use script_grammar::stop::Stop;
use std::alloc::Global;
use tree_drops::{deleted, expr};

/// The deletion of an operand with nothing after it: a member as written, and nothing else, is deleted.
fn deletion<'a>(
    left: Operand,
    token: &Token,
    after: &[Token],
    tokens: &'a [Token],
) -> Read<'a, Operand>
    requires whole { tokens.now ≡ token.now ∷ after.now }
    ensures end { (b h : ℕ) → Follows (Deleted left h) b (grammar.deleted left h) tokens.now result }
    ensures small { IfOk result (λ r. r.1 ≡ 0) }
{
    if !left.target {
        expr(left.expr);
        return Err(refused(Some(Form::Delete), token));
    }
    match deleted(left.expr) {
        Some(made) => Ok((plain(made), 0, tokens)),
        None => Err(refused(Some(Form::Delete), token)),
    }
}

/// The end of the operand of `delete`: `++` or `--` makes it one that is not deleted.
fn deleted_end<'a>(
    left: Operand,
    height: u32,
    base: u32,
    token: &Token,
    after: &'a [Token],
    tokens: &'a [Token],
) -> Read<'a, Operand>
    requires whole { tokens.now ≡ token.now ∷ after.now }
    requires base { base + height ≤ 200 }
    ensures end { Follows (Deleted left height) base (grammar.deleted_end left height token.now) tokens.now result }
    ensures small { IfOk result (λ r. base + r.1 ≤ 200) }
{
    match step_after(left.target, token) {
        Some(_) => {
            expr(left.expr);
            if base + height + 2 > LIMIT {
                return Err(Stop::Nesting);
            }
            let (next, _) = first(after)?;
            Err(refused(Some(Form::Delete), next))
        }
        None => deletion(left, token, after, tokens),
    }
}

impl<
    F: Fn(Global, bool, u32, &[Token]) -> Result<(Operand, u32, &[Token]), Stop>,
    G: Fn(Global, u32, &[Token]) -> Result<(Script, u32, &[Token]), Stop>,
    H: Fn(Global, Around, u32, &[Token]) -> Result<(Stmt, u32, &[Token]), Stop>,
> Grammar<F, G, H> {
    /// `delete` of a member, after the word.
    #[cycle(operators)]
    pub fn delete<'a>(&self, base: u32, rest: &'a [Token]) -> Read<'a, Operand>
        requires assigns { Assigns self.now.depth (F.pre self.now.assign) (F.post self.now.assign) }
        requires bodies { Bodies self.now.depth (G.pre self.now.body) (G.post self.now.body) }
        requires depth { self.now.depth ≤ base + 1 }
        requires base { base ≤ 200 }
        ensures after { After Unary base (unary_by prefix.Delete) rest.now result }
        ensures small { IfOk result (λ r. base + r.1 ≤ 200) }
    {
        if base == LIMIT {
            return Err(Stop::Nesting);
        }
        let (token, _) = first(rest)?;
        if prefixed(&token.kind) {
            let (operand, _, rest) = self.unary(base + 1, rest)?;
            expr(operand.expr);
            let (next, _) = first(rest)?;
            return Err(refused(Some(Form::Delete), next));
        }
        if is_word(Reserved::New, token) {
            let (made, tall, rest) = self.new(base + 1, rest)?;
            let (member, above, rest) = self.deleted(made, tall, base, rest)?;
            return Ok((member, (tall + 1).max(above), rest));
        }
        let (left, height, rest) = self.primary(base + 1, rest)?;
        let (all, above, rest) = self.deleted(left, height, base, rest)?;
        Ok((all, (height + 1).max(above), rest))
    }

    /// What stands after the operand of `delete`, up to the member that is deleted.
    pub fn deleted<'a>(
        &self,
        left: Operand,
        height: u32,
        base: u32,
        tokens: &'a [Token],
    ) -> Read<'a, Operand>
        requires assigns { Assigns self.now.depth (F.pre self.now.assign) (F.post self.now.assign) }
        requires depth { self.now.depth ≤ base + 1 }
        requires base { base + height ≤ 200 }
        ensures meets { Meets (Deleted left height) base tokens.now result }
        ensures small { IfOk result (λ r. base + r.1 ≤ 200) }
    {
        match first(tokens) {
            Ok((token, after)) => match tail_of(&token.kind) {
                Tail::Computed => {
                    let (made, tall, rest) = self.computed(left, height, base, after)?;
                    let (all, above, rest) = self.deleted(made, tall, base, rest)?;
                    Ok((all, tall.max(above), rest))
                }
                Tail::Fixed => {
                    let (made, tall, rest) = self.fixed(left, height, base, after)?;
                    let (all, above, rest) = self.deleted(made, tall, base, rest)?;
                    Ok((all, tall.max(above), rest))
                }
                Tail::Call => {
                    let (made, tall, rest) = self.call(2, left, height, base, after)?;
                    let (all, above, rest) = self.deleted(made, tall, base, rest)?;
                    Ok((all, (tall + 1).max(above), rest))
                }
                Tail::Neither => deleted_end(left, height, base, token, after, tokens),
            },
            Err(stop) => {
                expr(left.expr);
                Err(stop)
            }
        }
    }
}

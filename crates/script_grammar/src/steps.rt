//! The steps of which each row of the parser is made.

ghost use Rattle.std.specs.Prelude.{◌≡◌, ◌≢◌, ◌<◌, ℕ, List, Bool, false, None, Some, Ok, Err, [], ◌∷◌, MatchResult};
ghost use Rattle.js_lexer.specs.declared.Token.{Token};
ghost use Rattle.script_grammar.specs.Goes.{Goes};
ghost use Rattle.script_grammar.specs.Grammar.{grammar};
ghost use Rattle.script_grammar.specs.Meets.{Took, Misses, TookWord, MissesWord, TookName, MissesName, TookParameters, MissesParameters, Opens, Leads};
ghost use Rattle.script_grammar.specs.Rules.Symbol.{Expr, Names};
ghost use Rattle.script_grammar.specs.Words as spec;
ghost use Rattle.script_grammar.specs.declared.stop.Stop.TheVariants.{Ends, Memory};

use crate::Form;
use crate::classes::{Lead, Name};
use crate::classify::{head_of, is, is_word, lead_of, name_of, prefixed};
use crate::stop::Stop;
use js_lexer::{Mark, Reserved, Token};
use sqlite_items::Items;
use std::alloc::Global;
use turk_base::Units;

/// How deep a node may stand.
pub const LIMIT: u32 = 200;

/// What was read, how many levels of nodes stand in it, and the tokens after it.
pub type Read<'a, T> = Result<(T, u32, &'a [Token]), Stop>;

/// The next token, and those after it.
pub fn first(tokens: &[Token]) -> Result<(&Token, &[Token]), Stop>
    ensures { MatchResult result (λ p. tokens.now ≡ p.0.now ∷ p.1.now) (λ e. (tokens.now ≡ []) × (e ≡ Ends)) }
{
    match tokens.split_first() {
        Some((token, rest)) => Ok((token, rest)),
        None => Err(Stop::Ends),
    }
}

/// Why a token is refused: it fits nothing, or it is a form that is left out.
#[tactic(auto, unfolding(crate::specs::Words::form_at))]
pub fn refused(form: Option<Form>, token: &Token) -> Stop
    ensures { result ≡ spec.fault (spec.form_at form token.now) token.now.start }
{
    match form {
        Some(form) => Stop::LeftOut(token.start, form),
        None => {
            if is_word(Reserved::With, token) {
                Stop::LeftOut(token.start, Form::With)
            } else {
                Stop::Syntax(token.start)
            }
        }
    }
}

/// The tokens after one that has to come next.
pub fn expect(mark: Mark, tokens: &[Token]) -> Result<&[Token], Stop>
    ensures { MatchResult result (λ rest. Took mark tokens.now rest.now) (λ e. Misses mark tokens.now e) }
{
    let (token, rest) = first(tokens)?;
    if is(mark, token) {
        Ok(rest)
    } else {
        Err(refused(None, token))
    }
}

/// The tokens after a word that has to come next.
pub fn expect_word(word: Reserved, tokens: &[Token]) -> Result<&[Token], Stop>
    ensures { MatchResult result (λ rest. TookWord word tokens.now rest.now) (λ e. MissesWord word tokens.now e) }
{
    let (token, rest) = first(tokens)?;
    if is_word(word, token) {
        Ok(rest)
    } else {
        Err(refused(None, token))
    }
}

/// A name that has to come next, and the tokens after it.
pub fn name(alloc: Global, tokens: &[Token]) -> Result<(Units, &[Token]), Stop>
    ensures { MatchResult result (λ p. TookName tokens.now p.0 p.1.now) (λ e. e ≢ Memory → MissesName tokens.now e) }
{
    let (token, rest) = first(tokens)?;
    match name_of(alloc, &token.kind)? {
        Name::Named(units) => Ok((units, rest)),
        Name::Out(form) => Err(refused(Some(form), token)),
        Name::Other => Err(refused(None, token)),
    }
}

/// One or more names with commas between them.
pub fn names(alloc: Global, tokens: &[Token]) -> Result<(Items<Units>, &[Token]), Stop>
    ensures { MatchResult result (λ p. (b : ℕ) → Goes 200 (Names []) b (grammar (Names [])) tokens.now (Ok record { value = p.0; height = 0; rest = p.1.now }))
        (λ e. e ≢ Memory → (b : ℕ) → Goes 200 (Names []) b (grammar (Names [])) tokens.now (Err e)) }
{
    let mut all = Items::new(alloc);
    let mut left = tokens;
    loop {
        let (one, rest) = name(alloc, left)?;
        all.push(one)?;
        let (token, after) = first(rest)?;
        if !is(Mark::Comma, token) {
            return Ok((all, rest));
        }
        left = after;
    }
}

/// The parameters of a function, in parentheses.
pub fn parameters(alloc: Global, tokens: &[Token]) -> Result<(Items<Units>, &[Token]), Stop>
    ensures { MatchResult result (λ p. TookParameters tokens.now p.0 p.1.now) (λ e. e ≢ Memory → MissesParameters tokens.now e) }
{
    let rest = expect(Mark::OpenParen, tokens)?;
    let (token, after) = first(rest)?;
    if is(Mark::CloseParen, token) {
        return Ok((Items::new(alloc), after));
    }
    let (all, rest) = names(alloc, rest)?;
    let rest = expect(Mark::CloseParen, rest)?;
    Ok((all, rest))
}

/// Why no expression begins with the token where its node would stand too deep; none at a parenthesis, with which
/// no node stands.
fn opens(alloc: Global, token: &Token) -> Option<Stop>
    ensures { Opens token.now result }
{
    if prefixed(&token.kind) {
        return Some(Stop::Nesting);
    }
    if is_word(Reserved::New, token) {
        return Some(Stop::Nesting);
    }
    match head_of(alloc, &token.kind) {
        Ok(head) => leads(lead_of(head), token),
        Err(stop) => Some(stop),
    }
}

/// Why no operand that leads so is read where its node would stand too deep.
fn leads(lead: Lead, token: &Token) -> Option<Stop>
    ensures { Leads lead token.now result }
{
    match lead {
        Lead::Node => Some(Stop::Nesting),
        Lead::Open => None,
        Lead::Refused(form) => Some(refused(form, token)),
    }
}

/// Why no expression is read that would stand too deep.
pub fn beyond(alloc: Global, tokens: &[Token]) -> Stop
    ensures { result ≢ Memory → (b : ℕ) → 200 < b → Goes 200 (Expr false) b (grammar (Expr false)) tokens.now (Err result) }
{
    let mut left = tokens;
    loop {
        match first(left) {
            Ok((token, rest)) => match opens(alloc, token) {
                None => left = rest,
                Some(why) => return why,
            },
            Err(stop) => return stop,
        }
    }
}

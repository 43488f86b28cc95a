//! What statements begin and end with.

ghost use Rattle.std.specs.Prelude.{◌≡◌, ◌≢◌, ◌≤◌, ◌+◌, ℕ, [], ◌∷◌, not, ◌&&◌, ◌||◌, MatchResult, IfOk};
ghost use Rattle.js_lexer.specs.declared.Mark.TheVariants as m;
ghost use Rattle.js_lexer.specs.declared.Reserved.TheVariants as w;
ghost use Rattle.script_grammar.specs.Words as spec;
ghost use Rattle.script_grammar.specs.Grammar as grammar;
ghost use Rattle.part_rows.specs.Lines.{Begun, Stood, NotStood, Finished, Unfinished, FinishedName, UnfinishedName};
ghost use Rattle.script_grammar.specs.declared.stop.Stop.TheVariants.{Memory};

use js_lexer::{Mark, Reserved, Token};
use js_tree::{Expr, Variable};
use script_grammar::Form;
use script_grammar::classes::{Around, Operand};
use script_grammar::classify::{closes, is, is_name, is_word, labels};
use script_grammar::steps::{LIMIT, first, refused};
use script_grammar::stop::Stop;
use sqlite_items::Items;
use std::alloc::Global;
use tree_drops::variables_with;

/// Whether the token is a semicolon on the same line.
fn on_line(token: &Token) -> bool
    ensures { result ≡ (spec.is m.Semicolon token.now && not token.now.after_newline) }
{
    is(Mark::Semicolon, token) && !token.after_newline
}

/// Whether the token makes a label of the expression before it.
fn labelled(expr: &Expr, token: &Token) -> bool
    ensures { result ≡ (spec.is m.Colon token.now && grammar.is_name expr.now) }
{
    is(Mark::Colon, token) && is_name(expr)
}

/// Whether a statement ends with the token or before it.
pub fn quits(token: &Token) -> bool
    ensures { result ≡ (spec.is m.Semicolon token.now || spec.closes token.now) }
{
    is(Mark::Semicolon, token) || closes(token)
}

/// Whether `break` may stand.
pub fn breaks(around: Around) -> bool
    ensures { result ≡ (around.in_loop || around.in_switch) }
{
    around.in_loop || around.in_switch
}

/// Whether a `for` sets the expression before the token.
pub fn sets(value: &Operand, token: &Token) -> bool
    ensures { result ≡ (spec.is_word w.In token.now && grammar.target value.now) }
{
    is_word(Reserved::In, token) && value.target
}

/// Whether the token is the first `default`.
pub fn defaults(stood: bool, token: &Token) -> bool
    ensures { result ≡ (spec.is_word w.Default token.now && not stood) }
{
    is_word(Reserved::Default, token) && !stood
}

/// The tokens after one with which a node stands, so much deeper.
pub fn stand(base: u32, levels: u32, tokens: &[Token]) -> Result<&[Token], Stop>
    requires begun { Begun tokens.now }
    requires base { base ≤ 200 }
    requires levels { levels ≤ 2 }
    ensures stands { MatchResult result (λ rest. Stood base levels tokens.now rest.now) (λ e. NotStood base levels tokens.now e) }
    ensures fits { IfOk result (λ _. base + levels ≤ 200) }
{
    let (_, rest) = first(tokens)?;
    if base + levels > LIMIT {
        return Err(Stop::Nesting);
    }
    Ok(rest)
}

/// A semicolon, or nothing where it may be left out.
pub fn ends(tokens: &[Token]) -> Result<&[Token], Stop>
    ensures { MatchResult result (λ rest. Finished (λ c made. grammar.ends made) tokens.now rest.now) (λ e. Unfinished (λ c made. grammar.ends made) tokens.now e) }
{
    let (token, rest) = first(tokens)?;
    if is(Mark::Semicolon, token) {
        return Ok(rest);
    }
    if closes(token) {
        return Ok(tokens);
    }
    Err(refused(None, token))
}

/// A semicolon on the same line, or nothing where it may be left out.
pub fn halts(tokens: &[Token]) -> Result<&[Token], Stop>
    ensures { MatchResult result (λ rest. Finished (λ c made. grammar.halts made) tokens.now rest.now) (λ e. Unfinished (λ c made. grammar.halts made) tokens.now e) }
{
    let (token, rest) = first(tokens)?;
    if on_line(token) {
        return Ok(rest);
    }
    if closes(token) {
        return Ok(tokens);
    }
    Err(refused(None, token))
}

/// What `continue` and `break` end with.
pub fn jump(tokens: &[Token]) -> Result<&[Token], Stop>
    ensures { MatchResult result (λ rest. Finished (λ c made. grammar.jump made) tokens.now rest.now) (λ e. Unfinished (λ c made. grammar.jump made) tokens.now e) }
{
    let (token, _) = first(tokens)?;
    if labels(token) {
        return Err(refused(Some(Form::Label), token));
    }
    halts(tokens)
}

/// What an expression that begins with an identifier ends with as a statement.
pub fn ends_identifier<'a>(expr: &Expr, tokens: &'a [Token]) -> Result<&'a [Token], Stop>
    ensures { MatchResult result (λ rest. FinishedName expr.now tokens.now rest.now) (λ e. UnfinishedName expr.now tokens.now e) }
{
    let (token, _) = first(tokens)?;
    if labelled(expr, token) {
        return Err(refused(Some(Form::Label), token));
    }
    ends(tokens)
}

/// One variable alone.
pub fn alone(alloc: Global, one: Variable) -> Result<Items<Variable>, Stop>
    ensures { MatchResult result (λ all. all ≡ one ∷ []) (λ e. e ≡ Memory) }
{
    Ok(variables_with(Items::new(alloc), one)?)
}

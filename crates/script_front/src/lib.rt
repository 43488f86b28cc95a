//! A script's bytes, read to the tree that the grammar gives, with its names bound.
#![tactic(auto)]

ghost use Rattle.std.specs.Prelude.{◌≡◌, ◌≢◌, ◌≤◌, ℕ, List, Ok, Err, IfOk, length};
ghost use Rattle.js_lexer.specs.declared.Token.{Token};
ghost use Rattle.js_lexer.specs.Tokens.{Tokens};
ghost use Rattle.js_tree.specs.Lawful.{LawfulScript};
ghost use Rattle.js_tree.specs.declared.Script as tree;
ghost use Rattle.js_tree.specs.Binds.{IsBound};
ghost use Rattle.script_front.specs.Front.{IsRead, IsTree, stop_of_tokens, stop_of_tree};
ghost use Rattle.script_front.specs.declared.ScriptStop.TheVariants as why;
ghost use Rattle.script_grammar.specs.Goes.{Reads};

#[cfg(test)]
mod tests;

use js_lexer::{LexStop, tokens};
pub use js_parser::Form;
use js_parser::{ParseStop, parse};
use js_tree::{Resolved, Script};
use lawful_reads::script_is_lawful;
use scope_names::{ResolveStop, resolve};
use std::alloc::Global;

/// Why bytes are no script. A place is a byte's index.
#[derive(Clone, Copy, Debug, Drop, PartialEq, Eq)]
pub enum ScriptStop {
    /// There are more than 1,048,576 bytes.
    TooLarge,
    /// No whole character stands at this place.
    NotUtf8(u32),
    /// No token begins at this place.
    BadToken(u32),
    /// A number of another form than the language has begins at this place.
    NumberForm(u32),
    /// The token at this place is the first with which the tokens begin no script.
    Syntax(u32),
    /// A node would stand more than 200 deep.
    Nesting,
    /// As `Syntax`, and there stands a form of ECMA-262 that scripts do not have.
    LeftOut(u32, Form),
    /// More than 65,535 names are declared.
    TooManyNames,
    /// Memory ran out.
    Memory,
}

/// The refusal of the lexer, as one of a script.
fn of_tokens(stop: LexStop) -> ScriptStop
    ensures { result ≡ stop_of_tokens stop }
{
    match stop {
        LexStop::NotUtf8(place) => ScriptStop::NotUtf8(place),
        LexStop::BadToken(place) => ScriptStop::BadToken(place),
        LexStop::NumberForm(place) => ScriptStop::NumberForm(place),
        LexStop::TooLarge => ScriptStop::TooLarge,
        LexStop::Memory => ScriptStop::Memory,
    }
}

/// The refusal of the parser, as one of a script.
fn of_tree(stop: ParseStop) -> ScriptStop
    ensures { result ≡ stop_of_tree stop }
{
    match stop {
        ParseStop::Syntax(place) => ScriptStop::Syntax(place),
        ParseStop::LeftOut(place, form) => ScriptStop::LeftOut(place, form),
        ParseStop::Nesting => ScriptStop::Nesting,
        ParseStop::Memory => ScriptStop::Memory,
    }
}

/// Reads a script: its bytes are cut into tokens, and these read as the tree that the grammar gives.
///
/// The first fault is answered: first that there are too many bytes, then a fault of the tokens, then one of the tree.
/// Each answer is the only one that the bytes allow, but for `Memory`, which says nothing of them.
pub fn read_tree(alloc: Global, bytes: &[u8]) -> Result<Script, ScriptStop>
    ensures answer { IsTree bytes.now result }
    ensures only { (ts : List Token) (t : tree.Script) → length bytes.now ≤ 1048576 → Tokens bytes.now ts → Reads ts t 200 → result ≢ Err why.Memory → result ≡ Ok t }
    ensures lawful { IfOk result (λ t. LawfulScript t) }
{
    let found = match tokens(alloc, bytes) {
        Ok(found) => found,
        Err(stop) => return Err(of_tokens(stop)),
    };
    script_is_lawful();
    match parse(alloc, found.as_slice()) {
        Ok(tree) => Ok(tree),
        Err(stop) => Err(of_tree(stop)),
    }
}

/// Reads a script and binds its names: the tree is that of `read_tree`, in which each name has the place of its
/// declaration and each function its number, and nothing else is changed.
///
/// The faults come in this order: those of `read_tree`, and then `TooManyNames`, exactly where the parameters, variables,
/// functions, names of catches and own names of function expressions, each counted once for its frame, are more than
/// 65,535. `Memory` says nothing of the bytes.
pub fn read_script(alloc: Global, bytes: &[u8]) -> Result<Resolved, ScriptStop>
    ensures answer { IsRead bytes.now result }
    ensures bound { IfOk result (λ script. IsBound script) }
    ensures lawful { IfOk result (λ script. LawfulScript script) }
{
    match read_tree(alloc, bytes) {
        Ok(tree) => match resolve(alloc, tree) {
            Ok(script) => Ok(script),
            Err(ResolveStop::TooManyNames) => Err(ScriptStop::TooManyNames),
            Err(ResolveStop::Memory) => Err(ScriptStop::Memory),
        },
        Err(stop) => Err(stop),
    }
}

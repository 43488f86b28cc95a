//! The codes of a script's functions by their numbers.
ghost use Rattle.std.specs.Prelude.{◌≡◌};
ghost use Rattle.js_tree.specs.Trees.{statements_of};
ghost use Rattle.js_tree.specs.Calls.{variables as declared};

use js_tree::Script;
use turk_base::Units;

/// The parameters and the body of a function, and the names that the statements of its body declare, in order (ECMA-262 3rd
/// ed. 12.2).
#[derive(Drop)]
pub struct CodeRef<'a> {
    pub parameters: &'a [Units],
    pub body: &'a Script,
    pub variables: Vec<Units>,
    pub ghost hoisted: { variables.items ≡ declared (statements_of body.now) },
}

/// The codes of all functions of a script; the number of a function is its place here.
#[derive(Drop)]
pub struct Codes<'a> {
    pub all: Vec<CodeRef<'a>>,
}

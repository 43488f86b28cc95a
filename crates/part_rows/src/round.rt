//! What stands round the statements within a statement.

ghost use Rattle.std.specs.Prelude.{◌≡◌};
ghost use Rattle.script_grammar.specs.Grammar as grammar;

use script_grammar::classes::Around;

/// Within a loop.
pub fn looped(around: Around) -> Around
    ensures { result ≡ grammar.loop around }
{
    Around {
        in_function: around.in_function,
        in_loop: true,
        in_switch: around.in_switch,
    }
}

/// Within a `switch`.
pub fn switched(around: Around) -> Around
    ensures { result ≡ grammar.switch around }
{
    Around {
        in_function: around.in_function,
        in_loop: around.in_loop,
        in_switch: true,
    }
}

/// Outermost in a script or a function.
pub fn outer(in_function: bool) -> Around
    ensures { result ≡ grammar.outer in_function }
{
    Around {
        in_function,
        in_loop: false,
        in_switch: false,
    }
}

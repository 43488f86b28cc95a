//! What the grammar reads is a lawful script. No function here does anything: each names by its contract what is proved,
//! so there is no body that an edit could make wrong.
#![tactic(auto)]

ghost use Rattle.lawful_reads.specs.Laws.{ReadIsLawful, ScriptIsLawful, TokensAreShort};

/// What the grammar reads, at most 200 levels deep, of tokens whose words and texts are short is a lawful script:
/// `return`, `break` and `continue` stand in their places, targets are names or members, each `try` has a catch or a
/// finally, each `switch` at most one default, no text or name is longer than 1,048,576 units, and no node or declaration
/// is more than 200 deep.
pub fn read_is_lawful()
    ensures { ReadIsLawful }
{}

/// The tokens of at most 1,048,576 bytes are short.
pub fn tokens_are_short()
    ensures { TokensAreShort }
{}

/// What the grammar reads, at most 200 levels deep, of the tokens of at most 1,048,576 bytes is a lawful script.
pub fn script_is_lawful()
    ensures { ScriptIsLawful }
{}

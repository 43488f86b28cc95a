//! Reserved words and the words of script calls.
ghost use Rattle.std.specs.Prelude.{◌≡◌, ◌≤◌, ◌<◌, ◌+◌, ℕ, true, length, slice_index, IfOk};
ghost use Rattle.std.specs.Str.{bytes_eq};
ghost use Rattle.js_lexer.specs.Words as spec;
ghost use Rattle.js_lexer.specs.Chars as class;
ghost use Rattle.js_lexer.specs.Pieces.{IsWord};

use crate::chars::continues;
use crate::{CallWord, Reserved};
use std::alloc::Global;
use turk_base::{NoMemory, Units};

/// The place after the longest word that begins at a place.
pub fn word_end(text: &[char], place: usize) -> usize
    requires within { place < length text.now }
    requires first { class.starts (slice_index text.now place) ≡ true }
    ensures found { IsWord text.now place result }
    ensures longest { (m : ℕ) → IsWord text.now place m → m ≤ result }
{
    for i in place + 1..text.len() {
        if !continues(text[i]) {
            return i;
        }
    }
    text.len()
}

/// Whether a word's characters are those of an ASCII text.
fn is(word: &[char], text: &str) -> bool
    ensures { result ≡ bytes_eq word.now text.now }
{
    let bytes = text.as_bytes();
    if word.len() != bytes.len() {
        return false;
    }
    for i in 0..word.len() {
        if word[i] != char::from(bytes[i]) {
            return false;
        }
    }
    true
}

/// A keyword, of the first third.
#[tactic(auto, unfolding(crate::specs::Words::control_word))]
fn control_word(word: &[char]) -> Option<Reserved>
    ensures { result ≡ spec.control_word word.now }
{
    if is(word, "break") {
        Some(Reserved::Break)
    } else if is(word, "case") {
        Some(Reserved::Case)
    } else if is(word, "catch") {
        Some(Reserved::Catch)
    } else if is(word, "continue") {
        Some(Reserved::Continue)
    } else if is(word, "default") {
        Some(Reserved::Default)
    } else if is(word, "do") {
        Some(Reserved::Do)
    } else if is(word, "else") {
        Some(Reserved::Else)
    } else if is(word, "finally") {
        Some(Reserved::Finally)
    } else {
        None
    }
}

/// A keyword, of the second third.
#[tactic(auto, unfolding(crate::specs::Words::statement_word))]
fn statement_word(word: &[char]) -> Option<Reserved>
    ensures { result ≡ spec.statement_word word.now }
{
    if is(word, "for") {
        Some(Reserved::For)
    } else if is(word, "function") {
        Some(Reserved::Function)
    } else if is(word, "if") {
        Some(Reserved::If)
    } else if is(word, "return") {
        Some(Reserved::Return)
    } else if is(word, "switch") {
        Some(Reserved::Switch)
    } else if is(word, "throw") {
        Some(Reserved::Throw)
    } else if is(word, "try") {
        Some(Reserved::Try)
    } else if is(word, "var") {
        Some(Reserved::Var)
    } else if is(word, "while") {
        Some(Reserved::While)
    } else if is(word, "with") {
        Some(Reserved::With)
    } else {
        None
    }
}

/// A keyword of the last third, or a literal word.
#[tactic(auto, unfolding(crate::specs::Words::operator_word))]
fn operator_word(word: &[char]) -> Option<Reserved>
    ensures { result ≡ spec.operator_word word.now }
{
    if is(word, "delete") {
        Some(Reserved::Delete)
    } else if is(word, "in") {
        Some(Reserved::In)
    } else if is(word, "instanceof") {
        Some(Reserved::Instanceof)
    } else if is(word, "new") {
        Some(Reserved::New)
    } else if is(word, "this") {
        Some(Reserved::This)
    } else if is(word, "typeof") {
        Some(Reserved::Typeof)
    } else if is(word, "void") {
        Some(Reserved::Void)
    } else if is(word, "null") {
        Some(Reserved::Null)
    } else if is(word, "true") {
        Some(Reserved::True)
    } else if is(word, "false") {
        Some(Reserved::False)
    } else {
        None
    }
}

/// The script call with these characters.
#[tactic(auto, unfolding(crate::specs::Words::call_of))]
pub fn call_of(word: &[char]) -> Option<CallWord>
    ensures { result ≡ spec.call_of word.now }
{
    if is(word, "once") {
        Some(CallWord::Once)
    } else if is(word, "fork") {
        Some(CallWord::Fork)
    } else if is(word, "join") {
        Some(CallWord::Join)
    } else if is(word, "crash") {
        Some(CallWord::Crash)
    } else if is(word, "print") {
        Some(CallWord::Print)
    } else if is(word, "post") {
        Some(CallWord::Post)
    } else if is(word, "reply") {
        Some(CallWord::Reply)
    } else if is(word, "prompt") {
        Some(CallWord::Prompt)
    } else if is(word, "random") {
        Some(CallWord::Random)
    } else {
        None
    }
}

/// A word reserved for the future, of the first quarter.
#[tactic(auto, unfolding(crate::specs::Words::early_future))]
fn early_future(word: &[char]) -> Option<Reserved>
    ensures { result ≡ spec.early_future word.now }
{
    if is(word, "abstract") {
        Some(Reserved::Future)
    } else if is(word, "boolean") {
        Some(Reserved::Future)
    } else if is(word, "byte") {
        Some(Reserved::Future)
    } else if is(word, "char") {
        Some(Reserved::Future)
    } else if is(word, "class") {
        Some(Reserved::Future)
    } else if is(word, "const") {
        Some(Reserved::Future)
    } else if is(word, "debugger") {
        Some(Reserved::Future)
    } else if is(word, "double") {
        Some(Reserved::Future)
    } else {
        None
    }
}

/// One of the second quarter.
#[tactic(auto, unfolding(crate::specs::Words::next_future))]
fn next_future(word: &[char]) -> Option<Reserved>
    ensures { result ≡ spec.next_future word.now }
{
    if is(word, "enum") {
        Some(Reserved::Future)
    } else if is(word, "export") {
        Some(Reserved::Future)
    } else if is(word, "extends") {
        Some(Reserved::Future)
    } else if is(word, "final") {
        Some(Reserved::Future)
    } else if is(word, "float") {
        Some(Reserved::Future)
    } else if is(word, "goto") {
        Some(Reserved::Future)
    } else if is(word, "implements") {
        Some(Reserved::Future)
    } else if is(word, "import") {
        Some(Reserved::Future)
    } else {
        None
    }
}

/// One of the third quarter.
#[tactic(auto, unfolding(crate::specs::Words::late_future))]
fn late_future(word: &[char]) -> Option<Reserved>
    ensures { result ≡ spec.late_future word.now }
{
    if is(word, "int") {
        Some(Reserved::Future)
    } else if is(word, "interface") {
        Some(Reserved::Future)
    } else if is(word, "long") {
        Some(Reserved::Future)
    } else if is(word, "native") {
        Some(Reserved::Future)
    } else if is(word, "package") {
        Some(Reserved::Future)
    } else if is(word, "private") {
        Some(Reserved::Future)
    } else if is(word, "protected") {
        Some(Reserved::Future)
    } else if is(word, "public") {
        Some(Reserved::Future)
    } else {
        None
    }
}

/// One of the last quarter.
#[tactic(auto, unfolding(crate::specs::Words::last_future))]
fn last_future(word: &[char]) -> Option<Reserved>
    ensures { result ≡ spec.last_future word.now }
{
    if is(word, "short") {
        Some(Reserved::Future)
    } else if is(word, "static") {
        Some(Reserved::Future)
    } else if is(word, "super") {
        Some(Reserved::Future)
    } else if is(word, "synchronized") {
        Some(Reserved::Future)
    } else if is(word, "throws") {
        Some(Reserved::Future)
    } else if is(word, "transient") {
        Some(Reserved::Future)
    } else if is(word, "volatile") {
        Some(Reserved::Future)
    } else {
        None
    }
}

/// The reserved word with these characters.
#[tactic(auto, unfolding(crate::specs::Words::reserved_of))]
pub fn reserved_of(word: &[char]) -> Option<Reserved>
    ensures { result ≡ spec.reserved_of word.now }
{
    if let Some(found) = control_word(word) {
        return Some(found);
    }
    if let Some(found) = statement_word(word) {
        return Some(found);
    }
    if let Some(found) = operator_word(word) {
        return Some(found);
    }
    if let Some(found) = early_future(word) {
        return Some(found);
    }
    if let Some(found) = next_future(word) {
        return Some(found);
    }
    if let Some(found) = late_future(word) {
        return Some(found);
    }
    last_future(word)
}

/// The letters of a script call's word.
#[tactic(auto, unfolding(crate::specs::Words::call_units))]
fn call_text(word: CallWord) -> &'static str
    ensures { result.now ≡ spec.call_units word }
{
    match word {
        CallWord::Once => "once",
        CallWord::Fork => "fork",
        CallWord::Join => "join",
        CallWord::Crash => "crash",
        CallWord::Print => "print",
        CallWord::Post => "post",
        CallWord::Reply => "reply",
        CallWord::Prompt => "prompt",
        CallWord::Random => "random",
    }
}

/// The units of a script call's word.
pub fn call_units(alloc: Global, word: CallWord) -> Result<Units, NoMemory>
    ensures { IfOk result (λ units. units ≡ spec.call_units word) }
{
    let text = call_text(word).as_bytes();
    let mut units = Units::new(alloc);
    for byte in text {
        units.push(u16::from(*byte))?;
    }
    Ok(units)
}

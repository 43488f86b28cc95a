//! Punctuators.
ghost use Rattle.std.specs.Prelude.{◌≡◌, ◌≤◌, ◌<◌, ℕ, length, IfSome, IfNone};
ghost use Rattle.js_lexer.specs.declared.Mark.{Mark};
ghost use Rattle.js_lexer.specs.Marks as spec;
ghost use Rattle.js_lexer.specs.Pieces.{Spells};

use crate::Mark;
use crate::chars::at;

/// The punctuator of one character.
#[tactic(auto, unfolding(crate::specs::Marks::single))]
fn single(c: char) -> Option<Mark>
    ensures { result ≡ spec.single c }
{
    match c {
        '{' => Some(Mark::OpenBrace),
        '}' => Some(Mark::CloseBrace),
        '(' => Some(Mark::OpenParen),
        ')' => Some(Mark::CloseParen),
        '[' => Some(Mark::OpenBracket),
        ']' => Some(Mark::CloseBracket),
        '.' => Some(Mark::Dot),
        ';' => Some(Mark::Semicolon),
        ',' => Some(Mark::Comma),
        '<' => Some(Mark::Less),
        '>' => Some(Mark::Greater),
        '=' => Some(Mark::Assign),
        '!' => Some(Mark::Not),
        '+' => Some(Mark::Plus),
        '-' => Some(Mark::Minus),
        '*' => Some(Mark::Star),
        '%' => Some(Mark::Percent),
        '&' => Some(Mark::BitAnd),
        '|' => Some(Mark::BitOr),
        '^' => Some(Mark::BitXor),
        '~' => Some(Mark::BitNot),
        '?' => Some(Mark::Question),
        ':' => Some(Mark::Colon),
        '/' => Some(Mark::Slash),
        _ => None,
    }
}

fn either(a: char, x: Mark, b: char, y: Mark, c: char) -> Option<Mark>
    ensures { result ≡ spec.either a x b y c }
{
    if c == a {
        Some(x)
    } else if c == b {
        Some(y)
    } else {
        None
    }
}

fn only(a: char, x: Mark, c: char) -> Option<Mark>
    ensures { result ≡ spec.only a x c }
{
    if c == a { Some(x) } else { None }
}

/// The punctuator that a punctuator and one character more make.
#[tactic(auto, unfolding(crate::specs::Marks::extend))]
fn extend(mark: Mark, c: char) -> Option<Mark>
    ensures { result ≡ spec.extend mark c }
{
    match mark {
        Mark::Less => either('<', Mark::ShiftLeft, '=', Mark::LessEqual, c),
        Mark::Greater => either('>', Mark::ShiftRight, '=', Mark::GreaterEqual, c),
        Mark::ShiftLeft => only('=', Mark::AssignShiftLeft, c),
        Mark::ShiftRight => either('>', Mark::ShiftRightZero, '=', Mark::AssignShiftRight, c),
        Mark::ShiftRightZero => only('=', Mark::AssignShiftRightZero, c),
        Mark::Assign => only('=', Mark::Equal, c),
        Mark::Equal => only('=', Mark::Same, c),
        Mark::Not => only('=', Mark::NotEqual, c),
        Mark::NotEqual => only('=', Mark::NotSame, c),
        Mark::Plus => either('+', Mark::PlusPlus, '=', Mark::AssignPlus, c),
        Mark::Minus => either('-', Mark::MinusMinus, '=', Mark::AssignMinus, c),
        Mark::Star => only('=', Mark::AssignStar, c),
        Mark::Slash => only('=', Mark::AssignSlash, c),
        Mark::Percent => only('=', Mark::AssignPercent, c),
        Mark::BitAnd => either('&', Mark::And, '=', Mark::AssignAnd, c),
        Mark::BitOr => either('|', Mark::Or, '=', Mark::AssignOr, c),
        Mark::BitXor => only('=', Mark::AssignXor, c),
        _ => None,
    }
}

/// The longest punctuator that begins at a place, with the place after it.
pub fn mark(text: &[char], place: usize) -> Option<(Mark, usize)>
    requires { place < length text.now }
    ensures found { IfSome result (λ r. Spells text.now place r.0 r.1) }
    ensures within { IfSome result (λ r. r.1 ≤ length text.now) }
    ensures longest { IfSome result (λ r. (m : Mark) (j : ℕ) → Spells text.now place m j → j ≤ r.1) }
    ensures none { IfNone result ((m : Mark) (j : ℕ) → Spells text.now place m j → ⊥) }
{
    let first = at(text, place);
    let mut mark = single(first)?;
    let mut after = place + 1;
    while let Some(longer) = extend(mark, at(text, after)) {
        mark = longer;
        after += 1;
    }
    Some((mark, after))
}

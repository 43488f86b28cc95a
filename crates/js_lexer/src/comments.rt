//! Comments.
ghost use Rattle.std.specs.Prelude.{◌≡◌, ◌≤◌, ◌<◌, ◌+◌, ◌-◌, ℕ, Bool, length, slice_index, IfSome, IfNone};
ghost use Rattle.js_lexer.specs.Pieces.{IsLineComment, IsBlockComment};

use crate::chars::{at, is_line_end};

/// The place after the comment to the end of the line that begins at a place.
pub fn line_comment(text: &[char], place: usize) -> usize
    requires within { place + 2 ≤ length text.now }
    requires slash { slice_index text.now place ≡ 47 }
    requires slash_again { slice_index text.now (place + 1) ≡ 47 }
    ensures { IsLineComment text.now place result }
{
    for i in place + 2..text.len() {
        if is_line_end(text[i]) {
            return i;
        }
    }
    text.len()
}

/// The place after the block comment that begins at a place, and whether a line terminator stands in
/// it; None where it isn't closed.
pub fn block_comment(text: &[char], place: usize) -> Option<(bool, usize)>
    requires within { place + 2 ≤ length text.now }
    requires slash { slice_index text.now place ≡ 47 }
    requires star { slice_index text.now (place + 1) ≡ 42 }
    ensures found { IfSome result (λ r. IsBlockComment text.now r.0 place r.1) }
    ensures none { IfNone result ((line : Bool) (j : ℕ) → IsBlockComment text.now line place j → ⊥) }
{
    let mut line = false;
    for i in place + 2..text.len() {
        let c = at(text, i);
        let next = at(text, i + 1);
        if c == '*' && next == '/' {
            return Some((line, i + 2));
        }
        if is_line_end(c) {
            line = true;
        }
    }
    None
}

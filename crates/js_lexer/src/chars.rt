//! Classes of characters.
ghost use Rattle.std.specs.Prelude.{◌≡◌, ◌≤◌, slice_index};
ghost use Rattle.js_lexer.specs.Chars as spec;

/// The character at a place, or NUL past the end, which belongs to no class.
pub fn at(text: &[char], place: usize) -> char
    ensures { result ≡ slice_index text.now place }
{
    if place < text.len() {
        text[place]
    } else {
        '\0'
    }
}

pub fn is_white(c: char) -> bool
    ensures { result ≡ spec.is_white c }
{
    c == '\u{9}'
        || c == '\u{B}'
        || c == '\u{C}'
        || c == ' '
        || c == '\u{A0}'
        || c == '\u{1680}'
        || ('\u{2000}' <= c && c <= '\u{200A}')
        || c == '\u{202F}'
        || c == '\u{205F}'
        || c == '\u{3000}'
}

pub fn is_line_end(c: char) -> bool
    ensures { result ≡ spec.is_line_end c }
{
    c == '\n' || c == '\r' || c == '\u{2028}' || c == '\u{2029}'
}

/// Whether the character is a digit in base 10 or 16.
pub fn is_digit(base: u32, c: char) -> bool
    requires low { 2 ≤ base }
    requires high { base ≤ 36 }
    ensures { result ≡ spec.is_digit base c }
{
    c.to_digit(base).is_some()
}

pub fn is_quote(c: char) -> bool
    ensures { result ≡ spec.is_quote c }
{
    c == '"' || c == '\''
}

/// Whether an identifier may begin with the character.
pub fn starts(c: char) -> bool
    ensures { result ≡ spec.starts c }
{
    unicode_ident::is_xid_start(c) || c == '$' || c == '_'
}

/// Whether an identifier may go on with the character.
pub fn continues(c: char) -> bool
    ensures { result ≡ spec.continues c }
{
    unicode_ident::is_xid_continue(c) || c == '$'
}

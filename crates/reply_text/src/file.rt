//! A file of lines.
ghost use Rattle.std.specs.Prelude.{◌≡◌, true, false, ◌==◌, ◌||◌, ◌<◌, ◌≤◌, [], ◌∷◌, length, MatchOption, IfOk, IfErr};
ghost use Rattle.std.specs.List.{position};
ghost use Rattle.reply_text.specs.Lines.{is_blank, lines_of, Reads, HasCause, IsFault, OneMore};

use crate::LineStop;
use crate::line::reply_line;
use std::alloc::Global;
use turk_base::Replies;

/// The most bytes of UTF-8 that a reply's text has.
const ANSWER_LIMIT: usize = 65_536;

fn is_blank(line: &[u8]) -> bool
    ensures { result ≡ is_blank line.now }
{
    line.iter().all(|b| *b == 32 || *b == 9 || *b == 13)
}

/// The place of the first line feed.
fn line_feed(bytes: &[u8]) -> Option<usize>
    ensures { result ≡ position (λ b. b == 10) bytes.now }
{
    bytes.iter().position(|b| *b == 10)
}

/// The first line, and what follows its line feed.
fn first_line(bytes: &[u8]) -> (&[u8], Option<&[u8]>)
    ensures { MatchOption result.1 (lines_of bytes.now ≡ result.0.now ∷ [])
        (λ next. (lines_of bytes.now ≡ result.0.now ∷ lines_of next.now) × (length next.now < length bytes.now)) }
{
    match line_feed(bytes) {
        Some(end) => (&bytes[..end], Some(&bytes[end + 1..])),
        None => (bytes, None),
    }
}

/// Takes the line of that number.
fn take_line(alloc: Global, line: &[u8], number: u32, found: &mut Replies) -> Result<(), LineStop>
    ensures took { IfOk result (λ _. OneMore line.now found.old found.new) }
    ensures fault { IfErr result (λ stop. IsFault line.now number stop) }
{
    if is_blank(line) {
        return Ok(());
    }
    let reply = match reply_line(alloc, line) {
        Ok(Some(reply)) => reply,
        Ok(None) => return Err(LineStop::BadLine(number)),
        Err(_) => return Err(LineStop::Memory),
    };
    if reply.size > ANSWER_LIMIT {
        return Err(LineStop::TooLong(number));
    }
    match found.add(reply.token, reply.answer) {
        Ok(()) => Ok(()),
        Err(_) => Err(LineStop::Memory),
    }
}

/// The replies of a file, line by line, in order.
///
/// Lines end at a line feed or the end of the file. A line of spaces, tabs and carriage returns alone is skipped and counted. Each other line is a JSON array of two strings, the token and the text, of at most 1,048,576 units of 16 bits each; the text has at most 65,536 bytes of UTF-8. The first line that isn't so is refused with its number, counted from 1.
pub fn replies(alloc: Global, bytes: &[u8]) -> Result<Replies, LineStop>
    requires { length bytes.now ≤ 67108864 }
    ensures ok { IfOk result (λ pairs. Reads (lines_of bytes.now) pairs) }
    ensures stop { IfErr result (λ stop. HasCause (lines_of bytes.now) stop) }
{
    let mut found = Replies::new(alloc);
    let mut rest = bytes;
    let mut number: u32 = 0;
    'lines: loop {
        number += 1;
        let (line, next) = first_line(rest);
        take_line(alloc, line, number, &mut found)?;
        match next {
            Some(more) => rest = more,
            None => return Ok(found),
        }
    }
}

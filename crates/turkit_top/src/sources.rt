//! What is read before a run: the script and the replies.

ghost use Rattle.std.specs.Prelude.{◌≡◌, ◌≤◌, true, MatchResult, IfOk};
ghost use Rattle.ask_model.specs.Asker.{AreReplies};
ghost use Rattle.turkit_top.specs.Answers.{Gives, IsUnread, HasReplies, NoReplies, IsDue, line_answer, script_limit, large_script, replies_limit, large_replies};

use crate::answer::{Answer, noted, nothing};
use crate::fault_notes::line_note;
use crate::report::with_text;
use crate::status::Status;
use outside::{ReadStop, Source, read_all};
use reply_text::{LineStop, replies};
use std::alloc::Global;
use turk_base::{Bytes, Replies};

/// The most bytes of a script.
const SCRIPT_LIMIT: u64 = 1_048_576;

/// The most bytes of a file of replies.
const REPLIES_LIMIT: u64 = 67_108_864;

/// All bytes of a source, at most so many; `large` is the note where there are more.
fn bytes_of<S: Source>(
    alloc: Global,
    source: &mut S,
    limit: u64,
    large: &[u8],
) -> Result<Bytes, Answer>
    ensures count { S.faults source.old ≤ S.faults source.new }
    ensures read { MatchResult result
        (λ bytes. Gives limit (record { before = S.faults source.old; now = S.faults source.new; left = S.left source.old; rest = S.left source.new }) bytes)
        (λ a. IsUnread limit large.now (record { before = S.faults source.old; now = S.faults source.new; left = S.left source.old; rest = S.left source.new }) a) }
{
    match read_all(alloc, source, limit) {
        Ok(bytes) => Ok(Bytes::from_vec(bytes)),
        Err(ReadStop::Fault) => Err(nothing(alloc, Status::ReadFault)),
        Err(ReadStop::TooLarge) => Err(with_text(alloc, Status::TooLarge, large)),
        Err(ReadStop::Memory) => Err(nothing(alloc, Status::Memory)),
    }
}

/// The bytes of a script.
pub fn script_bytes<S: Source>(alloc: Global, script: &mut S) -> Result<Bytes, Answer>
    ensures count { S.faults script.old ≤ S.faults script.new }
    ensures read { MatchResult result
        (λ bytes. Gives script_limit (record { before = S.faults script.old; now = S.faults script.new; left = S.left script.old; rest = S.left script.new }) bytes)
        (λ a. IsUnread script_limit large_script (record { before = S.faults script.old; now = S.faults script.new; left = S.left script.old; rest = S.left script.new }) a) }
{
    bytes_of(alloc, script, SCRIPT_LIMIT, b"script too large\n")
}

/// What is answered where lines give no replies.
fn of_line(alloc: Global, stop: LineStop) -> Answer
    ensures { IsDue (line_answer stop) result }
{
    match stop {
        LineStop::Memory => nothing(alloc, Status::Memory),
        _ => match line_note(alloc, stop) {
            Ok(note) => noted(alloc, Status::BadLine, note),
            Err(_) => nothing(alloc, Status::Memory),
        },
    }
}

/// The replies of a file's lines.
fn replies_in<S: Source>(alloc: Global, events: &mut S) -> Result<Replies, Answer>
    ensures count { S.faults events.old ≤ S.faults events.new }
    ensures read { MatchResult result
        (λ pairs. HasReplies true (record { before = S.faults events.old; now = S.faults events.new; left = S.left events.old; rest = S.left events.new }) pairs)
        (λ a. NoReplies true (record { before = S.faults events.old; now = S.faults events.new; left = S.left events.old; rest = S.left events.new }) a) }
    ensures within { IfOk result AreReplies }
{
    let bytes = match bytes_of(alloc, events, REPLIES_LIMIT, b"replies too large\n") {
        Ok(bytes) => bytes,
        Err(answer) => return Err(answer),
    };
    match replies(alloc, bytes.as_slice()) {
        Ok(pairs) => Ok(pairs),
        Err(stop) => Err(of_line(alloc, stop)),
    }
}

/// The replies of a run: those of a file's lines, or none, where none are asked for.
pub fn replies_of<S: Source>(alloc: Global, asked: bool, events: &mut S) -> Result<Replies, Answer>
    ensures count { S.faults events.old ≤ S.faults events.new }
    ensures read { MatchResult result
        (λ pairs. HasReplies asked (record { before = S.faults events.old; now = S.faults events.new; left = S.left events.old; rest = S.left events.new }) pairs)
        (λ a. NoReplies asked (record { before = S.faults events.old; now = S.faults events.new; left = S.left events.old; rest = S.left events.new }) a) }
    ensures within { IfOk result AreReplies }
{
    if asked {
        replies_in(alloc, events)
    } else {
        Ok(Replies::new(alloc))
    }
}

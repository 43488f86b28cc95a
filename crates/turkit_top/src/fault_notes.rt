//! The notes on scripts and on lines that are none.

ghost use Rattle.std.specs.Prelude.{◌≡◌, ◌++◌, decimal, codes, IfOk};
ghost use Rattle.turkit_top.specs.Notes as spec;

use itoa::Buffer;
use reply_text::LineStop;
use script_front::{Form, ScriptStop};
use std::alloc::Global;
use turk_base::{Bytes, NoMemory};

/// The name of a form that is left out.
fn form_name(form: Form) -> &'static [u8]
    ensures { result.now ≡ spec.form_name form }
{
    match form {
        Form::With => b"With",
        Form::Eval => b"Eval",
        Form::Arguments => b"Arguments",
        Form::RegExp => b"RegExp",
        Form::Label => b"Label",
        Form::Elision => b"Elision",
        Form::Delete => b"Delete",
    }
}

/// A text and a number.
fn numbered(alloc: Global, text: &[u8], number: u32) -> Result<Bytes, NoMemory>
    ensures { IfOk result (λ note. note ≡ text.now ++ decimal number) }
{
    let mut note = Bytes::from_slice(alloc, text)?;
    let mut buffer = Buffer::new();
    note.push_slice(buffer.format(number).as_bytes())?;
    Ok(note)
}

/// A text, a place and a line feed.
fn at_byte(alloc: Global, text: &[u8], place: u32) -> Result<Bytes, NoMemory>
    ensures { IfOk result (λ note. note ≡ spec.at_byte text.now place) }
{
    let mut note = numbered(alloc, text, place)?;
    note.push_slice(b"\n")?;
    Ok(note)
}

/// The place of a form that is left out.
fn at_form(alloc: Global, place: u32, form: Form) -> Result<Bytes, NoMemory>
    ensures { IfOk result (λ note. note ≡ spec.at_form place form) }
{
    let mut note = numbered(alloc, b"left out at byte ", place)?;
    note.push_slice(b": ")?;
    note.push_slice(form_name(form))?;
    note.push_slice(b"\n")?;
    Ok(note)
}

/// The note on a script that is none.
pub fn fault_note(alloc: Global, stop: ScriptStop) -> Result<Bytes, NoMemory>
    ensures { IfOk result (λ note. note ≡ spec.fault_note stop) }
{
    match stop {
        ScriptStop::NotUtf8(place) => at_byte(alloc, b"not UTF-8 at byte ", place),
        ScriptStop::BadToken(place) => at_byte(alloc, b"bad token at byte ", place),
        ScriptStop::NumberForm(place) => at_byte(alloc, b"number form at byte ", place),
        ScriptStop::Syntax(place) => at_byte(alloc, b"syntax error at byte ", place),
        ScriptStop::Nesting => Bytes::from_slice(alloc, b"nesting over 200\n"),
        ScriptStop::LeftOut(place, form) => at_form(alloc, place, form),
        ScriptStop::TooManyNames => Bytes::from_slice(alloc, b"too many names\n"),
        ScriptStop::TooLarge | ScriptStop::Memory => Ok(Bytes::new(alloc)),
    }
}

/// A line's number, and what is wrong with it.
fn at_line(alloc: Global, number: u32, text: &[u8]) -> Result<Bytes, NoMemory>
    ensures { IfOk result (λ note. note ≡ codes "line " ++ decimal number ++ text.now) }
{
    let mut note = numbered(alloc, b"line ", number)?;
    note.push_slice(text)?;
    Ok(note)
}

/// The note on a line that is none.
pub fn line_note(alloc: Global, stop: LineStop) -> Result<Bytes, NoMemory>
    ensures { IfOk result (λ note. note ≡ spec.line_note stop) }
{
    match stop {
        LineStop::BadLine(number) => at_line(alloc, number, b" unreadable\n"),
        LineStop::TooLong(number) => at_line(alloc, number, b" too long\n"),
        LineStop::Memory => Ok(Bytes::new(alloc)),
    }
}

//! Errors that are thrown (ECMA-262 3rd ed. 15.11).
ghost use Rattle.std.specs.Prelude.{◌≡◌, ◌<◌, ◌≤◌, IfOk, IfErr, codes};
ghost use Rattle.turk_base.specs.Prog.{made};
ghost use Rattle.turk_base.specs.Errors.{error_cell, throw_error, type_error, reference_error, not_a_function};
ghost use Rattle.run_host.specs.Moment.{cells};
ghost use Rattle.run_host.specs.Told.{told_exit, exit_needs};
ghost use Rattle.run_host.specs.Did.{Runs};
ghost use Rattle.run_host.specs.Steps.{Takes};

use crate::texts::paid;
use run_host::{Exit, Host};
use std::alloc::Global;
use turk_base::{NoMemory, Units};
use value_cells::{CellKind, Value};

/// The key `message`.
fn message_key(alloc: Global) -> Result<Units, NoMemory>
    ensures { IfOk result (λ key. key ≡ codes "message") }
{
    Units::from_bytes(alloc, b"message")
}

/// A plain cell of a prototype, with a message that is paid first.
fn error_made<H: Host>(
    alloc: Global,
    host: &mut H,
    prototype: u32,
    message: Units,
) -> Result<u32, Exit>
    requires sound { H.is_sound host.old }
    requires prototype { prototype < cells (H.moment host.old) }
    ensures did { Takes (λ nu go. made message (λ t. error_cell (nu prototype) t go)) (λ nu. nu) result (H.moment host.old) (H.moment host.new) }
    ensures more { cells (H.moment host.old) ≤ cells (H.moment host.new) }
    ensures thrown { IfErr result (λ x. exit_needs x ≤ cells (H.moment host.new)) }
    ensures sound { H.is_sound host.new }
    ensures exists { IfOk result (λ c. c < cells (H.moment host.new)) }
{
    let key = message_key(alloc)?;
    let text = paid(host, message)?;
    let cell = host.make(CellKind::Plain(Some(prototype)))?;
    host.put(cell, &key, Value::Text(text))?;
    Ok(cell)
}

/// An error of a prototype, thrown.
fn thrown<H: Host>(alloc: Global, host: &mut H, prototype: u32, message: Units) -> Exit
    requires sound { H.is_sound host.old }
    requires prototype { prototype < cells (H.moment host.old) }
    ensures did { Runs (λ nu. throw_error (nu prototype) message) (λ nu. told_exit nu result) (H.moment host.old) (H.moment host.new) }
    ensures more { cells (H.moment host.old) ≤ cells (H.moment host.new) }
    ensures thrown { exit_needs result ≤ cells (H.moment host.new) }
    ensures sound { H.is_sound host.new }
{
    match error_made(alloc, host, prototype, message) {
        Ok(cell) => Exit::Throw(Value::Object(cell)),
        Err(exit) => exit,
    }
}

/// A TypeError, thrown.
pub fn thrown_type_error<H: Host>(alloc: Global, host: &mut H, message: Units) -> Exit
    requires sound { H.is_sound host.old }
    ensures did { Runs (λ nu. type_error message) (λ nu. told_exit nu result) (H.moment host.old) (H.moment host.new) }
    ensures more { cells (H.moment host.old) ≤ cells (H.moment host.new) }
    ensures thrown { exit_needs result ≤ cells (H.moment host.new) }
    ensures sound { H.is_sound host.new }
{
    thrown(alloc, host, 3, message)
}

/// A ReferenceError, thrown.
pub fn thrown_reference_error<H: Host>(alloc: Global, host: &mut H, message: Units) -> Exit
    requires sound { H.is_sound host.old }
    ensures did { Runs (λ nu. reference_error message) (λ nu. told_exit nu result) (H.moment host.old) (H.moment host.new) }
    ensures more { cells (H.moment host.old) ≤ cells (H.moment host.new) }
    ensures thrown { exit_needs result ≤ cells (H.moment host.new) }
    ensures sound { H.is_sound host.new }
{
    thrown(alloc, host, 5, message)
}

/// A TypeError with these words, thrown.
pub fn type_error_of<H: Host>(alloc: Global, host: &mut H, words: &[u8]) -> Exit
    requires sound { H.is_sound host.old }
    ensures did { Runs (λ nu. type_error words.now) (λ nu. told_exit nu result) (H.moment host.old) (H.moment host.new) }
    ensures more { cells (H.moment host.old) ≤ cells (H.moment host.new) }
    ensures thrown { exit_needs result ≤ cells (H.moment host.new) }
    ensures sound { H.is_sound host.new }
{
    match Units::from_bytes(alloc, words) {
        Ok(message) => thrown_type_error(alloc, host, message),
        Err(want) => Exit::from(want),
    }
}

/// The error of a call of what is no function, thrown.
pub fn no_function<H: Host>(alloc: Global, host: &mut H) -> Exit
    requires sound { H.is_sound host.old }
    ensures did { Runs (λ nu. not_a_function) (λ nu. told_exit nu result) (H.moment host.old) (H.moment host.new) }
    ensures more { cells (H.moment host.old) ≤ cells (H.moment host.new) }
    ensures thrown { exit_needs result ≤ cells (H.moment host.new) }
    ensures sound { H.is_sound host.new }
{
    type_error_of(alloc, host, b"not a function")
}

//! Names (ECMA-262 3rd ed. 10.1.4): their frames, reads and writes.
ghost use Rattle.std.specs.Prelude.{◌≡◌, ◌<◌, ◌≤◌, IfOk, IfErr, ◌++◌, codes, ℕ};
ghost use Rattle.js_tree.specs.Pieces as pieces;
ghost use Rattle.value_cells.specs.Needs.{needs, kind_needs};
ghost use Rattle.value_cells.specs.Seen.{Naming, val_in, kind_in};
ghost use Rattle.run_host.specs.Moment.{cells};
ghost use Rattle.run_host.specs.Told.{here_in, here_needs, exit_needs};
ghost use Rattle.run_host.specs.Steps.{Gives, Takes};
ghost use Rattle.run_host.specs.Did.{Runs};
ghost use Rattle.run_host.specs.Told.{told_exit};
ghost use Rattle.turk_base.specs.Errors.{type_error, reference_error};

use crate::errors::{thrown_reference_error, thrown_type_error};
use crate::values::is_word;
use js_tree::{Binding, Named};
use run_host::{Exit, Here, Host};
use std::alloc::Global;
use turk_base::{NoMemory, Units};
use value_cells::{CellKind, Value};

/// The frame around a frame, by its kind.
fn parent_of(kind: CellKind, frame: u32) -> u32
    ensures value { (nu : Naming) → pieces.parent_in (kind_in nu kind) (nu frame) ≡ nu result }
    ensures exists { (n : ℕ) → kind_needs kind ≤ n → frame < n → result < n }
{
    match kind {
        CellKind::Frame(Some(parent)) => parent,
        _ => frame,
    }
}

/// The frame so many frames out.
fn frame_out<H: Host>(host: &H, steps: u32, frame: u32) -> u32
    requires sound { H.is_sound host.now }
    requires frame { frame < cells (H.moment host.now) }
    ensures did { Gives (λ nu. pieces.frame_out steps (nu frame)) (λ nu. nu result) (H.moment host.now) (H.moment host.now) }
    ensures exists { result < cells (H.moment host.now) }
{
    let mut at = frame;
    for i in 0..steps {
        at = parent_of(host.kind(at), at);
    }
    at
}

/// A name with these words after it.
fn with_words(alloc: Global, name: &Units, words: &[u8]) -> Result<Units, NoMemory>
    ensures { IfOk result (λ t. t ≡ name.now ++ words.now) }
{
    let mut text = name.copy(alloc)?;
    text.push_bytes(words)?;
    Ok(text)
}

/// The error of a name that nothing declares, thrown.
fn undeclared<H: Host>(alloc: Global, host: &mut H, name: &Units) -> Exit
    requires sound { H.is_sound host.old }
    ensures did { Runs (λ nu. reference_error (name.now ++ codes " is not defined")) (λ nu. told_exit nu result) (H.moment host.old) (H.moment host.new) }
    ensures more { cells (H.moment host.old) ≤ cells (H.moment host.new) }
    ensures thrown { exit_needs result ≤ cells (H.moment host.new) }
    ensures sound { H.is_sound host.new }
{
    match with_words(alloc, name, b" is not defined") {
        Ok(message) => thrown_reference_error(alloc, host, message),
        Err(want) => Exit::from(want),
    }
}

/// The error of a write to a built-in name, thrown.
fn read_only<H: Host>(alloc: Global, host: &mut H, name: &Units) -> Exit
    requires sound { H.is_sound host.old }
    ensures did { Runs (λ nu. type_error (name.now ++ codes " is read only")) (λ nu. told_exit nu result) (H.moment host.old) (H.moment host.new) }
    ensures more { cells (H.moment host.old) ≤ cells (H.moment host.new) }
    ensures thrown { exit_needs result ≤ cells (H.moment host.new) }
    ensures sound { H.is_sound host.new }
{
    match with_words(alloc, name, b" is read only") {
        Ok(message) => thrown_type_error(alloc, host, message),
        Err(want) => Exit::from(want),
    }
}

/// The value of a built-in name.
fn built_in_value<H: Host>(host: &H, name: &Units) -> Value
    requires sound { H.is_sound host.now }
    ensures did { Gives (λ nu go. go (pieces.built_in_value name.now)) (λ nu. val_in nu result) (H.moment host.now) (H.moment host.now) }
    ensures exists { needs result ≤ cells (H.moment host.now) }
{
    if is_word(name, b"Error") {
        Value::Object(0)
    } else if is_word(name, b"TypeError") {
        Value::Object(2)
    } else if is_word(name, b"ReferenceError") {
        Value::Object(4)
    } else if is_word(name, b"String") {
        Value::Object(6)
    } else {
        Value::Undefined
    }
}

/// The value of a name.
pub fn get_variable<H: Host>(
    alloc: Global,
    host: &mut H,
    here: Here,
    x: &Named,
) -> Result<Value, Exit>
    requires sound { H.is_sound host.old }
    requires here { here_needs here ≤ cells (H.moment host.old) }
    ensures did { Takes (λ nu. pieces.get_variable (here_in nu here) x.now) val_in result (H.moment host.old) (H.moment host.new) }
    ensures more { cells (H.moment host.old) ≤ cells (H.moment host.new) }
    ensures thrown { IfErr result (λ x. exit_needs x ≤ cells (H.moment host.new)) }
    ensures sound { H.is_sound host.new }
    ensures exists { IfOk result (λ v. needs v ≤ cells (H.moment host.new)) }
{
    match x.binding {
        Binding::Out(steps) => {
            let frame = frame_out(host, steps, here.frame);
            host.read_name(frame, &x.name)
        }
        Binding::BuiltIn => Ok(built_in_value(host, &x.name)),
        Binding::Nothing => Err(undeclared(alloc, host, &x.name)),
    }
}

/// Sets a name; the own name of a function expression stays as it is.
pub fn set_variable<H: Host>(
    alloc: Global,
    host: &mut H,
    here: Here,
    x: &Named,
    value: &Value,
) -> Result<(), Exit>
    requires sound { H.is_sound host.old }
    requires here { here_needs here ≤ cells (H.moment host.old) }
    requires value { needs value.now ≤ cells (H.moment host.old) }
    ensures did { Takes (λ nu. pieces.set_variable (here_in nu here) x.now (val_in nu value.now)) (λ nu u. u) result (H.moment host.old) (H.moment host.new) }
    ensures more { cells (H.moment host.old) ≤ cells (H.moment host.new) }
    ensures thrown { IfErr result (λ x. exit_needs x ≤ cells (H.moment host.new)) }
    ensures sound { H.is_sound host.new }
{
    match x.binding {
        Binding::Out(steps) => {
            if x.own {
                return Ok(());
            }
            let frame = frame_out(host, steps, here.frame);
            host.write_name(frame, &x.name, value.copy(alloc)?)
        }
        Binding::BuiltIn => Err(read_only(alloc, host, &x.name)),
        Binding::Nothing => Err(undeclared(alloc, host, &x.name)),
    }
}

//! The rows of `this`, of names, and of literals (ECMA-262 3rd ed. 11.1), and of function expressions (13).
ghost use Rattle.std.specs.Prelude.{◌≡◌, ◌<◌, ◌≤◌, IfOk, IfErr, Some, codes};
ghost use Rattle.turk_base.specs.Values as model;
ghost use Rattle.turk_base.specs.Prog.{Make, Declare, ask};
ghost use Rattle.std.specs.Option.{option_copied};
ghost use Rattle.js_tree.specs.Trees.{number_of};
ghost use Rattle.js_tree.specs.Expressions.{this_row, name_row, literal_row, function_row};
ghost use Rattle.js_tree.specs.Pieces as pieces;
ghost use Rattle.value_cells.specs.Needs.{needs};
ghost use Rattle.value_cells.specs.Seen.{val_in};
ghost use Rattle.run_host.specs.Moment.{Moment, alone, cells};
ghost use Rattle.run_host.specs.Told.{told_value, here_in, here_needs, exit_needs};
ghost use Rattle.run_host.specs.Did.{Runs};
ghost use Rattle.run_host.specs.Steps.{Takes};

use crate::names::get_variable;
use js_tree::{Literal, Named, Script};
use run_host::{Exit, Here, Host};
use std::alloc::Global;
use turk_base::{NoMemory, Units};
use value_cells::{CellKind, Value};

/// `this` (11.1.1).
pub fn this(here: Here) -> Result<Value, Exit>
    ensures ran { (m : Moment alone) → Runs (λ nu. this_row (here_in nu here)) (λ nu. told_value nu result) m m }
    ensures exists { IfOk result (λ v. needs v ≤ here_needs here) }
    ensures thrown { IfErr result (λ x. exit_needs x ≡ 0) }
{
    match here.this {
        Some(cell) => Ok(Value::Object(cell)),
        None => Ok(Value::Undefined),
    }
}

/// A name (11.1.2).
pub fn name<H: Host>(alloc: Global, host: &mut H, here: Here, x: &Named) -> Result<Value, Exit>
    requires sound { H.is_sound host.old }
    requires here { here_needs here ≤ cells (H.moment host.old) }
    ensures ran { Runs (λ nu. name_row (here_in nu here) x.now) (λ nu. told_value nu result) (H.moment host.old) (H.moment host.new) }
    ensures more { cells (H.moment host.old) ≤ cells (H.moment host.new) }
    ensures thrown { IfErr result (λ x. exit_needs x ≤ cells (H.moment host.new)) }
    ensures sound { H.is_sound host.new }
    ensures exists { IfOk result (λ v. needs v ≤ cells (H.moment host.new)) }
{
    get_variable(alloc, host, here, x)
}

/// A literal (11.1.3).
pub fn literal(alloc: Global, literal: &Literal) -> Result<Value, Exit>
    ensures ran { (m : Moment alone) → Runs (λ nu. literal_row literal.now) (λ nu. told_value nu result) m m }
    ensures exists { IfOk result (λ v. needs v ≡ 0) }
    ensures thrown { IfErr result (λ x. exit_needs x ≡ 0) }
{
    match literal {
        Literal::Null => Ok(Value::Null),
        Literal::Truth(truth) => Ok(Value::Truth(*truth)),
        Literal::Number(number) => Ok(Value::Number(*number)),
        Literal::Text(text) => Ok(Value::Text(text.copy(alloc)?)),
    }
}

/// The key `prototype`.
pub fn prototype_key(alloc: Global) -> Result<Units, NoMemory>
    ensures { IfOk result (λ key. key ≡ codes "prototype") }
{
    Units::from_bytes(alloc, b"prototype")
}

/// A function with its prototype (13.2).
pub fn make_function<H: Host>(
    alloc: Global,
    host: &mut H,
    number: u32,
    frame: u32,
) -> Result<u32, Exit>
    requires sound { H.is_sound host.old }
    requires frame { frame < cells (H.moment host.old) }
    ensures did { Takes (λ nu. pieces.make_function number (nu frame)) (λ nu. nu) result (H.moment host.old) (H.moment host.new) }
    ensures more { cells (H.moment host.old) ≤ cells (H.moment host.new) }
    ensures thrown { IfErr result (λ x. exit_needs x ≤ cells (H.moment host.new)) }
    ensures sound { H.is_sound host.new }
    ensures exists { IfOk result (λ c. c < cells (H.moment host.new)) }
{
    let key = prototype_key(alloc)?;
    let function = host.make(CellKind::Function(number, frame))?;
    let prototype = host.make(CellKind::Plain(None))?;
    host.put(function, &key, Value::Object(prototype))?;
    Ok(function)
}

/// The function of a body, with its prototype.
pub fn function_of<H: Host>(
    alloc: Global,
    host: &mut H,
    body: &Script,
    frame: u32,
) -> Result<u32, Exit>
    requires sound { H.is_sound host.old }
    requires frame { frame < cells (H.moment host.old) }
    ensures did { Takes (λ nu. pieces.make_function (number_of body.now) (nu frame)) (λ nu. nu) result (H.moment host.old) (H.moment host.new) }
    ensures more { cells (H.moment host.old) ≤ cells (H.moment host.new) }
    ensures thrown { IfErr result (λ x. exit_needs x ≤ cells (H.moment host.new)) }
    ensures sound { H.is_sound host.new }
    ensures exists { IfOk result (λ c. c < cells (H.moment host.new)) }
{
    make_function(alloc, host, body.number(), frame)
}

/// A function expression with a name of its own, which stands in a frame of its own.
fn own_function<H: Host>(
    alloc: Global,
    host: &mut H,
    here: Here,
    own: &Units,
    body: &Script,
) -> Result<Value, Exit>
    requires sound { H.is_sound host.old }
    requires here { here_needs here ≤ cells (H.moment host.old) }
    ensures did { Takes (λ nu go. ask (Make (model.Frame (Some (nu here.frame)))) (λ g. pieces.make_function (number_of body.now) g (λ f. ask (Declare g own.now (model.Object f)) (λ _. go (model.Object f))))) val_in result (H.moment host.old) (H.moment host.new) }
    ensures more { cells (H.moment host.old) ≤ cells (H.moment host.new) }
    ensures thrown { IfErr result (λ x. exit_needs x ≤ cells (H.moment host.new)) }
    ensures sound { H.is_sound host.new }
    ensures exists { IfOk result (λ v. needs v ≤ cells (H.moment host.new)) }
{
    let frame = host.make(CellKind::Frame(Some(here.frame)))?;
    let function = function_of(alloc, host, body, frame)?;
    host.declare(frame, own, Value::Object(function))?;
    Ok(Value::Object(function))
}

/// A function expression.
pub fn function<H: Host>(
    alloc: Global,
    host: &mut H,
    here: Here,
    own: Option<&Units>,
    body: &Script,
) -> Result<Value, Exit>
    requires sound { H.is_sound host.old }
    requires here { here_needs here ≤ cells (H.moment host.old) }
    ensures ran { Runs (λ nu. function_row (here_in nu here) (option_copied own.entry) body.now) (λ nu. told_value nu result) (H.moment host.old) (H.moment host.new) }
    ensures more { cells (H.moment host.old) ≤ cells (H.moment host.new) }
    ensures thrown { IfErr result (λ x. exit_needs x ≤ cells (H.moment host.new)) }
    ensures sound { H.is_sound host.new }
    ensures exists { IfOk result (λ v. needs v ≤ cells (H.moment host.new)) }
{
    match own {
        Some(own) => own_function(alloc, host, here, own, body),
        None => {
            let function = function_of(alloc, host, body, here.frame)?;
            Ok(Value::Object(function))
        }
    }
}

//! `typeof` (ECMA-262 3rd ed. 11.4.3).
ghost use Rattle.std.specs.Prelude.{◌≡◌, ◌≤◌, IfOk, IfErr};
ghost use Rattle.turk_base.specs.Values.{Text};
ghost use Rattle.turk_base.specs.Prog.{value};
ghost use Rattle.js_tree.specs.Pieces as pieces;
ghost use Rattle.js_tree.specs.Operate as operate;
ghost use Rattle.value_cells.specs.Needs.{needs};
ghost use Rattle.value_cells.specs.Seen.{val_in};
ghost use Rattle.run_host.specs.Moment.{Moment, alone, cells};
ghost use Rattle.run_host.specs.Told.{told_value, here_in, here_needs, exit_needs};
ghost use Rattle.run_host.specs.Did.{Runs};
ghost use Rattle.host_steps.specs.Places.{place_in, place_needs};

use host_steps::names::get_variable;
use host_steps::places::{Place, get_place};
use js_tree::{Binding, Named};
use run_host::{Exit, Here, Host};
use std::alloc::Global;
use turk_base::Units;
use value_cells::{CellKind, Value};

/// A word as a value; it costs nothing.
fn word(alloc: Global, bytes: &[u8]) -> Result<Value, Exit>
    ensures ran { (m : Moment alone) → Runs (λ nu. value (Text bytes.now)) (λ nu. told_value nu result) m m }
    ensures exists { IfOk result (λ v. needs v ≡ 0) }
    ensures thrown { IfErr result (λ x. exit_needs x ≡ 0) }
{
    let text = Units::from_bytes(alloc, bytes)?;
    Ok(Value::Text(text))
}

/// What a value is called by its type.
fn type_of<H: Host>(alloc: Global, host: &H, value: &Value) -> Result<Value, Exit>
    requires sound { H.is_sound host.now }
    requires value { needs value.now ≤ cells (H.moment host.now) }
    ensures ran { Runs (λ nu. operate.type_of (val_in nu value.now)) (λ nu. told_value nu result) (H.moment host.now) (H.moment host.now) }
    ensures exists { IfOk result (λ v. needs v ≡ 0) }
    ensures thrown { IfErr result (λ x. exit_needs x ≡ 0) }
{
    match value {
        Value::Undefined => word(alloc, b"undefined"),
        Value::Null => word(alloc, b"object"),
        Value::Truth(_) => word(alloc, b"boolean"),
        Value::Number(_) => word(alloc, b"number"),
        Value::Text(_) => word(alloc, b"string"),
        Value::Object(cell) => match host.kind(*cell) {
            CellKind::Function(_, _) => word(alloc, b"function"),
            CellKind::BuiltIn(_) => word(alloc, b"function"),
            CellKind::Frame(_) => word(alloc, b"object"),
            CellKind::Plain(_) => word(alloc, b"object"),
            CellKind::Array => word(alloc, b"object"),
        },
    }
}

/// The type of what a place has.
fn type_at<H: Host>(alloc: Global, host: &mut H, here: Here, place: &Place) -> Result<Value, Exit>
    requires sound { H.is_sound host.old }
    requires here { here_needs here ≤ cells (H.moment host.old) }
    requires place { place_needs place.now ≤ cells (H.moment host.old) }
    ensures ran { Runs (λ nu. pieces.get_place (here_in nu here) (place_in nu place.now) operate.type_of) (λ nu. told_value nu result) (H.moment host.old) (H.moment host.new) }
    ensures more { cells (H.moment host.old) ≤ cells (H.moment host.new) }
    ensures thrown { IfErr result (λ x. exit_needs x ≤ cells (H.moment host.new)) }
    ensures sound { H.is_sound host.new }
    ensures exists { IfOk result (λ v. needs v ≤ cells (H.moment host.new)) }
{
    let value = get_place(alloc, host, here, place)?;
    type_of(alloc, host, &value)
}

/// Whether nothing declares a name.
fn is_undeclared(x: &Named) -> bool
    ensures { operate.undeclared x.now.binding ≡ result }
{
    matches!(x.binding, Binding::Nothing)
}

/// The type of a name's value; a name that nothing declares is undefined.
fn type_of_name<H: Host>(alloc: Global, host: &mut H, here: Here, x: &Named) -> Result<Value, Exit>
    requires sound { H.is_sound host.old }
    requires here { here_needs here ≤ cells (H.moment host.old) }
    ensures ran { Runs (λ nu. operate.typeof_place (here_in nu here) (pieces.Variable x.now)) (λ nu. told_value nu result) (H.moment host.old) (H.moment host.new) }
    ensures more { cells (H.moment host.old) ≤ cells (H.moment host.new) }
    ensures thrown { IfErr result (λ x. exit_needs x ≤ cells (H.moment host.new)) }
    ensures sound { H.is_sound host.new }
    ensures exists { IfOk result (λ v. needs v ≤ cells (H.moment host.new)) }
{
    if is_undeclared(x) {
        return word(alloc, b"undefined");
    }
    let value = get_variable(alloc, host, here, x)?;
    type_of(alloc, host, &value)
}

/// `typeof` of a place.
pub fn typeof_place<H: Host>(
    alloc: Global,
    host: &mut H,
    here: Here,
    place: &Place,
) -> Result<Value, Exit>
    requires sound { H.is_sound host.old }
    requires here { here_needs here ≤ cells (H.moment host.old) }
    requires place { place_needs place.now ≤ cells (H.moment host.old) }
    ensures ran { Runs (λ nu. operate.typeof_place (here_in nu here) (place_in nu place.now)) (λ nu. told_value nu result) (H.moment host.old) (H.moment host.new) }
    ensures more { cells (H.moment host.old) ≤ cells (H.moment host.new) }
    ensures thrown { IfErr result (λ x. exit_needs x ≤ cells (H.moment host.new)) }
    ensures sound { H.is_sound host.new }
    ensures exists { IfOk result (λ v. needs v ≤ cells (H.moment host.new)) }
{
    match place {
        Place::Variable(x) => type_of_name(alloc, host, here, x),
        Place::Property(_, _) => type_at(alloc, host, here, place),
        Place::Given(_) => type_at(alloc, host, here, place),
    }
}

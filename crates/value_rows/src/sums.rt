//! `+`, `in`, `instanceof`, and all binary operators over a host (ECMA-262 3rd ed. 11.5 to 11.10).
ghost use Rattle.std.specs.Prelude.{◌≡◌, ◌<◌, ◌≤◌, IfOk, ℕ, IfErr, Result, None, ◌||◌};
ghost use Rattle.std.specs.Option.{option_map, IfSome};
ghost use Rattle.turk_base.specs.Names.{Name};
ghost use Rattle.turk_base.specs.Conversions.{text_in};
ghost use Rattle.turk_base.specs.Values as model;
ghost use Rattle.turk_base.specs.Values.{Val};
ghost use Rattle.turk_base.specs.Operators.{numeric, total};
ghost use Rattle.turk_base.specs.Prog.{Prog, given, value};
ghost use Rattle.turk_base.specs.Errors.{choose, not_a_function};
ghost use Rattle.js_tree.specs.Operate as operate;
ghost use Rattle.js_tree.specs.Pieces.{as_function, if_function};
ghost use Rattle.value_cells.specs.Needs.{needs, option_needs, number_needs};
ghost use Rattle.value_cells.specs.Seen.{Naming, Fits, val_in, kind_in};
ghost use Rattle.run_host.specs.Moment.{Moment, alone, cells};
ghost use Rattle.run_host.specs.Told.{told_value, exit_needs};
ghost use Rattle.run_host.specs.Did.{Runs};
ghost use Rattle.run_host.specs.Steps.{Gives, Onward};
ghost use Rattle.host_steps.specs.Answered.{answer_of};
ghost use Rattle.value_rows.specs.Kinds.{cell_in};

use crate::operators::{number_or_not_whole, two_numbers};
use crate::{comparisons, operators};
use host_steps::errors::{no_function, type_error_of};
use host_steps::literals::prototype_key;
use host_steps::texts::{paid, text_of};
use host_steps::values::same;
use js_tree::BinaryOperator;
use run_host::{Exit, Host, Refusal};
use std::alloc::Global;
use value_cells::{CellKind, Value};

/// Two values as one text; the texts are paid from left to right, then the whole.
fn concatenate<H: Host>(alloc: Global, host: &mut H, x: &Value, y: &Value) -> Result<Value, Exit>
    requires sound { H.is_sound host.old }
    ensures ran { Runs (λ nu. operate.concatenate (val_in nu x.now) (val_in nu y.now)) (λ nu. told_value nu result) (H.moment host.old) (H.moment host.new) }
    ensures more { cells (H.moment host.old) ≤ cells (H.moment host.new) }
    ensures thrown { IfErr result (λ x. exit_needs x ≤ cells (H.moment host.new)) }
    ensures sound { H.is_sound host.new }
    ensures exists { IfOk result (λ v. needs v ≤ cells (H.moment host.new)) }
{
    let mut text = text_of(alloc, host, x)?;
    let end = text_of(alloc, host, y)?;
    text.append(&end)?;
    let whole = paid(host, text)?;
    Ok(Value::Text(whole))
}

/// A value that must be a primitive.
fn primitive(value: &Value) -> Result<(), Refusal>
    ensures { (nu : Naming) (go : Prog) → given (text_in (val_in nu value.now)) (λ _. go) ≡ given (answer_of (λ u. u) result) (λ _. go) }
{
    match value {
        Value::Object(_) => Err(Refusal::NoPrimitive),
        _ => Ok(()),
    }
}

/// Whether a value is a text.
fn is_text(value: &Value) -> bool
    ensures { (nu : Naming) → operate.is_text (val_in nu value.now) ≡ result }
{
    matches!(value, Value::Text(_))
}

/// Whether one of two values is a text.
fn has_text(x: &Value, y: &Value) -> bool
    ensures { (nu : Naming) → (operate.is_text (val_in nu x.now) || operate.is_text (val_in nu y.now)) ≡ result }
{
    is_text(x) || is_text(y)
}

/// The sum of two numbers.
fn sum(x: &Value, y: &Value) -> Result<Value, Refusal>
    ensures value { (nu : Naming) → numeric total (val_in nu x.now) (val_in nu y.now) ≡ answer_of (val_in nu) result }
    ensures needs { IfOk result (λ v. needs v ≡ 0) }
{
    let (m, n) = two_numbers(x, y)?;
    number_or_not_whole(whole_numbers::add(m, n))
}

/// What was computed of values alone, as the end of a row.
pub fn answered(answer: Result<Value, Refusal>) -> Result<Value, Exit>
    ensures ran { (m : Moment alone) (f : Naming → Result Val model.Refusal) → ((nu : Naming) → Fits nu m.heap.names → f nu ≡ answer_of (val_in nu) answer) → Runs (λ nu. given (f nu) (λ v. value v)) (λ nu. told_value nu result) m m }
    ensures exists { (n : ℕ) → IfOk answer (λ v. needs v ≡ 0) → IfOk result (λ v. needs v ≤ n) }
    ensures thrown { (n : ℕ) → IfErr result (λ x. exit_needs x ≤ n) }
{
    match answer {
        Ok(value) => Ok(value),
        Err(why) => Err(Exit::from(why)),
    }
}

/// `+` (11.6.1): an object is refused before anything is converted.
fn add<H: Host>(alloc: Global, host: &mut H, x: &Value, y: &Value) -> Result<Value, Exit>
    requires sound { H.is_sound host.old }
    ensures ran { Runs (λ nu. operate.add_values (val_in nu x.now) (val_in nu y.now)) (λ nu. told_value nu result) (H.moment host.old) (H.moment host.new) }
    ensures more { cells (H.moment host.old) ≤ cells (H.moment host.new) }
    ensures thrown { IfErr result (λ x. exit_needs x ≤ cells (H.moment host.new)) }
    ensures sound { H.is_sound host.new }
    ensures exists { IfOk result (λ v. needs v ≤ cells (H.moment host.new)) }
{
    primitive(x)?;
    primitive(y)?;
    if has_text(x, y) {
        concatenate(alloc, host, x, y)
    } else {
        answered(sum(x, y))
    }
}

/// `in` (11.8.7).
fn in_object<H: Host>(alloc: Global, host: &mut H, x: &Value, y: &Value) -> Result<Value, Exit>
    requires sound { H.is_sound host.old }
    requires y { needs y.now ≤ cells (H.moment host.old) }
    ensures ran { Runs (λ nu. operate.in_object (val_in nu x.now) (val_in nu y.now)) (λ nu. told_value nu result) (H.moment host.old) (H.moment host.new) }
    ensures more { cells (H.moment host.old) ≤ cells (H.moment host.new) }
    ensures thrown { IfErr result (λ x. exit_needs x ≤ cells (H.moment host.new)) }
    ensures sound { H.is_sound host.new }
    ensures exists { IfOk result (λ v. needs v ≤ cells (H.moment host.new)) }
{
    match y {
        Value::Object(cell) => {
            let key = text_of(alloc, host, x)?;
            let found = host.get(*cell, &key)?;
            Ok(Value::Truth(found.is_some()))
        }
        _ => Err(type_error_of(alloc, host, b"not an object")),
    }
}

/// The cell that was found, where an object was.
pub fn object_in(found: Option<Value>) -> Option<u32>
    ensures cell { result ≡ cell_in found }
    ensures needs { number_needs result ≤ option_needs found }
{
    match found {
        Some(value) => match value {
            Value::Object(cell) => Some(cell),
            _ => None,
        },
        None => None,
    }
}

/// Whether the prototype that was found stands on a cell's chain.
fn on_chain<H: Host>(
    alloc: Global,
    host: &mut H,
    cell: u32,
    found: Option<Value>,
) -> Result<Value, Exit>
    requires sound { H.is_sound host.old }
    requires cell { cell < cells (H.moment host.old) }
    requires found { option_needs found ≤ cells (H.moment host.old) }
    ensures ran { Runs (λ nu. operate.on_chain (nu cell) (option_map (val_in nu) found)) (λ nu. told_value nu result) (H.moment host.old) (H.moment host.new) }
    ensures more { cells (H.moment host.old) ≤ cells (H.moment host.new) }
    ensures thrown { IfErr result (λ x. exit_needs x ≤ cells (H.moment host.new)) }
    ensures sound { H.is_sound host.new }
    ensures exists { IfOk result (λ v. needs v ≤ cells (H.moment host.new)) }
{
    match object_in(found) {
        Some(from) => Ok(Value::Truth(host.inherits(cell, from))),
        None => Err(type_error_of(alloc, host, b"prototype is not an object")),
    }
}

/// `instanceof` of a function (11.8.6, 15.3.5.3).
fn instance_of<H: Host>(alloc: Global, host: &mut H, x: &Value, f: u32) -> Result<Value, Exit>
    requires sound { H.is_sound host.old }
    requires x { needs x.now ≤ cells (H.moment host.old) }
    requires f { f < cells (H.moment host.old) }
    ensures ran { Runs (λ nu. operate.instance_of (val_in nu x.now) (nu f)) (λ nu. told_value nu result) (H.moment host.old) (H.moment host.new) }
    ensures more { cells (H.moment host.old) ≤ cells (H.moment host.new) }
    ensures thrown { IfErr result (λ x. exit_needs x ≤ cells (H.moment host.new)) }
    ensures sound { H.is_sound host.new }
    ensures exists { IfOk result (λ v. needs v ≤ cells (H.moment host.new)) }
{
    match x {
        Value::Object(cell) => {
            let key = prototype_key(alloc)?;
            let found = host.get(f, &key)?;
            on_chain(alloc, host, *cell, found)
        }
        _ => Ok(Value::Truth(false)),
    }
}

/// Whether a kind is that of a function.
fn is_function(kind: CellKind) -> bool
    ensures { (nu : Naming) (a b : Prog) → if_function (kind_in nu kind) a b ≡ choose result a b }
{
    match kind {
        CellKind::Function(_, _) => true,
        CellKind::BuiltIn(_) => true,
        CellKind::Frame(_) => false,
        CellKind::Plain(_) => false,
        CellKind::Array => false,
    }
}

/// The function that a value is, or None.
pub fn function_in<H: Host>(host: &H, value: &Value) -> Option<u32>
    requires sound { H.is_sound host.now }
    requires value { needs value.now ≤ cells (H.moment host.now) }
    ensures some { IfSome result (λ f. (otherwise : Prog) → Gives (λ nu. as_function (val_in nu value.now) otherwise) (λ nu. nu f) (H.moment host.now) (H.moment host.now)) }
    ensures none { result ≡ None → (otherwise : Prog) (go : Naming → Name → Prog) → Onward (λ nu. as_function (val_in nu value.now) otherwise (go nu)) (λ nu. otherwise) (H.moment host.now) (H.moment host.now) }
    ensures exists { number_needs result ≤ cells (H.moment host.now) }
{
    match value {
        Value::Object(cell) => {
            if is_function(host.kind(*cell)) {
                Some(*cell)
            } else {
                None
            }
        }
        _ => None,
    }
}

/// `instanceof` (11.8.6).
fn instance<H: Host>(alloc: Global, host: &mut H, x: &Value, y: &Value) -> Result<Value, Exit>
    requires sound { H.is_sound host.old }
    requires x { needs x.now ≤ cells (H.moment host.old) }
    requires y { needs y.now ≤ cells (H.moment host.old) }
    ensures ran { Runs (λ nu. as_function (val_in nu y.now) not_a_function (operate.instance_of (val_in nu x.now))) (λ nu. told_value nu result) (H.moment host.old) (H.moment host.new) }
    ensures more { cells (H.moment host.old) ≤ cells (H.moment host.new) }
    ensures thrown { IfErr result (λ x. exit_needs x ≤ cells (H.moment host.new)) }
    ensures sound { H.is_sound host.new }
    ensures exists { IfOk result (λ v. needs v ≤ cells (H.moment host.new)) }
{
    match function_in(host, y) {
        Some(f) => instance_of(alloc, host, x, f),
        None => Err(no_function(alloc, host)),
    }
}

/// A binary operator on the values of its operands.
pub fn operate_values<H: Host>(
    alloc: Global,
    host: &mut H,
    operator: BinaryOperator,
    x: &Value,
    y: &Value,
) -> Result<Value, Exit>
    requires sound { H.is_sound host.old }
    requires x { needs x.now ≤ cells (H.moment host.old) }
    requires y { needs y.now ≤ cells (H.moment host.old) }
    ensures ran { Runs (λ nu. operate.operate_values operator (val_in nu x.now) (val_in nu y.now)) (λ nu. told_value nu result) (H.moment host.old) (H.moment host.new) }
    ensures more { cells (H.moment host.old) ≤ cells (H.moment host.new) }
    ensures thrown { IfErr result (λ x. exit_needs x ≤ cells (H.moment host.new)) }
    ensures sound { H.is_sound host.new }
    ensures exists { IfOk result (λ v. needs v ≤ cells (H.moment host.new)) }
{
    match operator {
        BinaryOperator::Add => add(alloc, host, x, y),
        BinaryOperator::In => in_object(alloc, host, x, y),
        BinaryOperator::InstanceOf => instance(alloc, host, x, y),
        BinaryOperator::Subtract => answered(operators::difference(x, y)),
        BinaryOperator::Multiply => answered(operators::product(x, y)),
        BinaryOperator::Divide => answered(operators::quotient(x, y)),
        BinaryOperator::Remainder => answered(operators::remainder(x, y)),
        BinaryOperator::ShiftLeft => answered(operators::shift_left(x, y)),
        BinaryOperator::ShiftRight => answered(operators::shift_right(x, y)),
        BinaryOperator::ShiftRightZero => answered(operators::shift_right_zero(x, y)),
        BinaryOperator::BitAnd => answered(operators::bit_and(x, y)),
        BinaryOperator::BitOr => answered(operators::bit_or(x, y)),
        BinaryOperator::BitXor => answered(operators::bit_xor(x, y)),
        BinaryOperator::Less => answered(comparisons::less(x, y)),
        BinaryOperator::Greater => answered(comparisons::greater(x, y)),
        BinaryOperator::LessOrEqual => answered(comparisons::less_or_equal(x, y)),
        BinaryOperator::GreaterOrEqual => answered(comparisons::greater_or_equal(x, y)),
        BinaryOperator::Equal => answered(comparisons::equals(host, x, y)),
        BinaryOperator::NotEqual => answered(comparisons::differs(host, x, y)),
        BinaryOperator::Same => answered(Ok(Value::Truth(same(host, x, y)))),
        BinaryOperator::NotSame => answered(Ok(Value::Truth(!same(host, x, y)))),
    }
}

//! Order and equality of values (ECMA-262 3rd ed. 11.8, 11.9).
ghost use Rattle.std.specs.Prelude.{◌≡◌, ◌≤◌, IfOk, Ok, not, int_lt, int_le};
ghost use Rattle.convert_rules.specs.Prims.{reading_of};
ghost use Rattle.turk_base.specs.Operators as spec;
ghost use Rattle.turk_base.specs.Operators.{and_then, units_less};
ghost use Rattle.turk_base.specs.Conversions as reads;
ghost use Rattle.turk_base.specs.Values.{Truth};
ghost use Rattle.value_cells.specs.Needs.{needs};
ghost use Rattle.value_cells.specs.Seen.{Naming, Fits, val_in};
ghost use Rattle.run_host.specs.Moment.{cells};
ghost use Rattle.host_steps.specs.Answered.{answer_of};
ghost use Rattle.value_rows.specs.Compare.{numbers_in};

use convert_rules::{Reading, is_before as before, readings_equal, same_texts};
use host_steps::values::{reading, same};
use run_host::{Host, Refusal};
use turk_base::{Units, Whole};
use value_cells::Value;

/// Whether the one text is before the other, by units.
fn is_before(s: &Units, t: &Units) -> bool
    ensures { units_less s.now t.now ≡ result }
{
    before(s.as_slice(), t.as_slice())
}

/// The numbers on both sides of a comparison.
#[derive(Clone, Copy, Drop)]
pub struct Sides {
    pub left: Whole,
    pub right: Whole,
}

/// The numbers of two readings, None where one of them is no number.
fn numbers_of(x: Reading, y: Reading) -> Result<Option<Sides>, Refusal>
    ensures { spec.numbers_of (reading_of x) (reading_of y) ≡ answer_of numbers_in result }
{
    match x {
        Reading::Outside => Err(Refusal::NotWhole),
        Reading::Nan => match y {
            Reading::Outside => Err(Refusal::NotWhole),
            _ => Ok(None),
        },
        Reading::Whole(m) => match y {
            Reading::Outside => Err(Refusal::NotWhole),
            Reading::Nan => Ok(None),
            Reading::Whole(n) => Ok(Some(Sides { left: m, right: n })),
        },
    }
}

/// The numbers of two values that are not both texts (11.8.5).
fn numbers(x: &Value, y: &Value) -> Result<Option<Sides>, Refusal>
    ensures { (nu : Naming) → and_then (reads.reading (val_in nu x.now)) (λ m. and_then (reads.reading (val_in nu y.now)) (λ n. spec.numbers_of m n)) ≡ answer_of numbers_in result }
{
    let m = reading(x)?;
    let n = reading(y)?;
    numbers_of(m, n)
}

/// Whether the one number is less.
fn is_lower(m: Whole, n: Whole) -> bool
    ensures { int_lt m n ≡ result }
{
    m.get() < n.get()
}

/// Whether the one number is less or the same.
fn is_at_most(m: Whole, n: Whole) -> bool
    ensures { int_le m n ≡ result }
{
    m.get() <= n.get()
}

/// `<` (11.8.1).
pub fn less(x: &Value, y: &Value) -> Result<Value, Refusal>
    ensures value { (nu : Naming) → spec.ordered spec.less (val_in nu x.now) (val_in nu y.now) ≡ answer_of (val_in nu) result }
    ensures needs { IfOk result (λ v. needs v ≡ 0) }
{
    match (x, y) {
        (Value::Text(s), Value::Text(t)) => Ok(Value::Truth(is_before(s, t))),
        _ => match numbers(x, y)? {
            Some(sides) => Ok(Value::Truth(is_lower(sides.left, sides.right))),
            None => Ok(Value::Truth(false)),
        },
    }
}

/// `>` (11.8.2).
pub fn greater(x: &Value, y: &Value) -> Result<Value, Refusal>
    ensures value { (nu : Naming) → spec.ordered spec.greater (val_in nu x.now) (val_in nu y.now) ≡ answer_of (val_in nu) result }
    ensures needs { IfOk result (λ v. needs v ≡ 0) }
{
    match (x, y) {
        (Value::Text(s), Value::Text(t)) => Ok(Value::Truth(is_before(t, s))),
        _ => match numbers(x, y)? {
            Some(sides) => Ok(Value::Truth(is_lower(sides.right, sides.left))),
            None => Ok(Value::Truth(false)),
        },
    }
}

/// `<=` (11.8.3).
pub fn less_or_equal(x: &Value, y: &Value) -> Result<Value, Refusal>
    ensures value { (nu : Naming) → spec.ordered spec.less_or_equal (val_in nu x.now) (val_in nu y.now) ≡ answer_of (val_in nu) result }
    ensures needs { IfOk result (λ v. needs v ≡ 0) }
{
    match (x, y) {
        (Value::Text(s), Value::Text(t)) => Ok(Value::Truth(!is_before(t, s))),
        _ => match numbers(x, y)? {
            Some(sides) => Ok(Value::Truth(is_at_most(sides.left, sides.right))),
            None => Ok(Value::Truth(false)),
        },
    }
}

/// `>=` (11.8.4).
pub fn greater_or_equal(x: &Value, y: &Value) -> Result<Value, Refusal>
    ensures value { (nu : Naming) → spec.ordered spec.greater_or_equal (val_in nu x.now) (val_in nu y.now) ≡ answer_of (val_in nu) result }
    ensures needs { IfOk result (λ v. needs v ≡ 0) }
{
    match (x, y) {
        (Value::Text(s), Value::Text(t)) => Ok(Value::Truth(!is_before(s, t))),
        _ => match numbers(x, y)? {
            Some(sides) => Ok(Value::Truth(is_at_most(sides.right, sides.left))),
            None => Ok(Value::Truth(false)),
        },
    }
}

/// `==` by the readings of both sides.
fn by_reading(x: &Value, y: &Value) -> Result<bool, Refusal>
    ensures { (nu : Naming) → spec.by_reading (val_in nu x.now) (val_in nu y.now) ≡ answer_of (λ b. b) result }
{
    let a = reading(x)?;
    let b = reading(y)?;
    match readings_equal(a, b) {
        Some(equal) => Ok(equal),
        None => Err(Refusal::NotWhole),
    }
}

/// Whether a value is undefined or null.
fn is_nothing(value: &Value) -> bool
    ensures { (nu : Naming) → spec.nothing_equals (val_in nu value.now) ≡ result }
{
    matches!(value, Value::Undefined | Value::Null)
}

/// `==` (11.9.3).
fn equal<H: Host>(host: &H, x: &Value, y: &Value) -> Result<bool, Refusal>
    requires sound { H.is_sound host.now }
    requires x { needs x.now ≤ cells (H.moment host.now) }
    requires y { needs y.now ≤ cells (H.moment host.now) }
    ensures { (nu : Naming) → Fits nu (H.moment host.now).heap.names → spec.equal (val_in nu x.now) (val_in nu y.now) ≡ answer_of (λ b. b) result }
{
    match (x, y) {
        (Value::Undefined, _) | (Value::Null, _) => Ok(is_nothing(y)),
        (_, Value::Undefined) | (_, Value::Null) => Ok(false),
        (Value::Text(s), Value::Text(t)) => Ok(same_texts(s, t)),
        (Value::Object(_), Value::Object(_)) => Ok(same(host, x, y)),
        _ => by_reading(x, y),
    }
}

/// `==` as a value.
pub fn equals<H: Host>(host: &H, x: &Value, y: &Value) -> Result<Value, Refusal>
    requires sound { H.is_sound host.now }
    requires x { needs x.now ≤ cells (H.moment host.now) }
    requires y { needs y.now ≤ cells (H.moment host.now) }
    ensures value { (nu : Naming) → Fits nu (H.moment host.now).heap.names → and_then (spec.equal (val_in nu x.now) (val_in nu y.now)) (λ b. Ok (Truth b)) ≡ answer_of (val_in nu) result }
    ensures needs { IfOk result (λ v. needs v ≡ 0) }
{
    let holds = equal(host, x, y)?;
    Ok(Value::Truth(holds))
}

/// `!=`.
pub fn differs<H: Host>(host: &H, x: &Value, y: &Value) -> Result<Value, Refusal>
    requires sound { H.is_sound host.now }
    requires x { needs x.now ≤ cells (H.moment host.now) }
    requires y { needs y.now ≤ cells (H.moment host.now) }
    ensures value { (nu : Naming) → Fits nu (H.moment host.now).heap.names → and_then (spec.equal (val_in nu x.now) (val_in nu y.now)) (λ b. Ok (Truth (not b))) ≡ answer_of (val_in nu) result }
    ensures needs { IfOk result (λ v. needs v ≡ 0) }
{
    let holds = equal(host, x, y)?;
    Ok(Value::Truth(!holds))
}

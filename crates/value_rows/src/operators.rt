//! Operators on values (ECMA-262 3rd ed. 11.4 to 11.10), without a look at any cell.
ghost use Rattle.std.specs.Prelude.{◌≡◌, ◌≤◌, ℤ, Option, Ok, IfOk};
ghost use Rattle.turk_base.specs.Operators as spec;
ghost use Rattle.turk_base.specs.Operators.{number_or_refused};
ghost use Rattle.turk_base.specs.Values.{Number};
ghost use Rattle.js_tree.specs.Operate.{stepped, answered, unary_result};
ghost use Rattle.value_cells.specs.Needs.{needs};
ghost use Rattle.value_cells.specs.Seen.{Naming, val_in};
ghost use Rattle.host_steps.specs.Answered.{answer_of};
ghost use Rattle.value_rows.specs.Pairs.{pair_then};

use host_steps::values::{integer, number, truth};
use js_tree::{Fix, Sign, UnaryOperator};
use run_host::Refusal;
use turk_base::Whole;
use value_cells::Value;

/// A number of the language; where there is none it is refused.
pub fn number_or_not_whole(number: Option<Whole>) -> Result<Value, Refusal>
    ensures needs { IfOk result (λ v. needs v ≡ 0) }
    ensures value { (nu : Naming) → number_or_refused number ≡ answer_of (val_in nu) result }
{
    match number {
        Some(number) => Ok(Value::Number(number)),
        None => Err(Refusal::NotWhole),
    }
}

/// One more or one less.
pub fn step(sign: Sign, number: Whole) -> Option<Whole>
    ensures { stepped sign number ≡ result }
{
    match sign {
        Sign::Plus => whole_numbers::add(number, Whole::from_u32(1)),
        Sign::Minus => whole_numbers::sub(number, Whole::from_u32(1)),
    }
}

/// Which of the two numbers an update answers.
pub fn answer(fix: Fix, old: Whole, new: Value) -> Value
    ensures value { (nu : Naming) → answered fix old (val_in nu new) ≡ val_in nu result }
    ensures needs { needs result ≤ needs new }
{
    match fix {
        Fix::Prefix => new,
        Fix::Postfix => Value::Number(old),
    }
}

/// `+`, `-`, `~` and `!` before a value (11.4.6 to 11.4.9).
pub fn unary(operator: UnaryOperator, value: &Value) -> Result<Value, Refusal>
    ensures needs { IfOk result (λ v. needs v ≡ 0) }
    ensures value { (nu : Naming) → unary_result operator (val_in nu value.now) ≡ answer_of (val_in nu) result }
{
    match operator {
        UnaryOperator::Plus => Ok(Value::Number(number(value)?)),
        UnaryOperator::Minus => Ok(Value::Number(whole_numbers::neg(number(value)?))),
        UnaryOperator::BitNot => Ok(Value::Number(whole_numbers::not(integer(value)?))),
        UnaryOperator::Not => Ok(Value::Truth(!truth(value))),
    }
}

/// The numbers of both operands, from left to right.
pub fn two_numbers(x: &Value, y: &Value) -> Result<(Whole, Whole), Refusal>
    ensures { (nu : Naming) (f : ℤ → ℤ → Option ℤ) → spec.numeric f (val_in nu x.now) (val_in nu y.now) ≡ pair_then result (λ m n. number_or_refused (f m n)) }
{
    let m = number(x)?;
    let n = number(y)?;
    Ok((m, n))
}

/// The numbers of both operands that bit operators take, from left to right.
fn two_integers(x: &Value, y: &Value) -> Result<(Whole, Whole), Refusal>
    ensures { (nu : Naming) (f : ℤ → ℤ → ℤ) → spec.bitwise f (val_in nu x.now) (val_in nu y.now) ≡ pair_then result (λ m n. Ok (Number (f m n))) }
{
    let m = integer(x)?;
    let n = integer(y)?;
    Ok((m, n))
}

/// `-` (11.6.2).
pub fn difference(x: &Value, y: &Value) -> Result<Value, Refusal>
    ensures value { (nu : Naming) → spec.numeric spec.difference (val_in nu x.now) (val_in nu y.now) ≡ answer_of (val_in nu) result }
    ensures needs { IfOk result (λ v. needs v ≡ 0) }
{
    let (m, n) = two_numbers(x, y)?;
    number_or_not_whole(whole_numbers::sub(m, n))
}

/// `*` (11.5.1).
pub fn product(x: &Value, y: &Value) -> Result<Value, Refusal>
    ensures value { (nu : Naming) → spec.numeric spec.product (val_in nu x.now) (val_in nu y.now) ≡ answer_of (val_in nu) result }
    ensures needs { IfOk result (λ v. needs v ≡ 0) }
{
    let (m, n) = two_numbers(x, y)?;
    number_or_not_whole(whole_numbers::mul(m, n))
}

/// `/` (11.5.2).
pub fn quotient(x: &Value, y: &Value) -> Result<Value, Refusal>
    ensures value { (nu : Naming) → spec.numeric spec.quotient (val_in nu x.now) (val_in nu y.now) ≡ answer_of (val_in nu) result }
    ensures needs { IfOk result (λ v. needs v ≡ 0) }
{
    let (m, n) = two_numbers(x, y)?;
    number_or_not_whole(whole_numbers::div(m, n))
}

/// `%` (11.5.3).
pub fn remainder(x: &Value, y: &Value) -> Result<Value, Refusal>
    ensures value { (nu : Naming) → spec.numeric spec.remainder (val_in nu x.now) (val_in nu y.now) ≡ answer_of (val_in nu) result }
    ensures needs { IfOk result (λ v. needs v ≡ 0) }
{
    let (m, n) = two_numbers(x, y)?;
    number_or_not_whole(whole_numbers::rem(m, n))
}

/// `<<` (11.7.1).
pub fn shift_left(x: &Value, y: &Value) -> Result<Value, Refusal>
    ensures value { (nu : Naming) → spec.bitwise spec.shift_left (val_in nu x.now) (val_in nu y.now) ≡ answer_of (val_in nu) result }
    ensures needs { IfOk result (λ v. needs v ≡ 0) }
{
    let (m, n) = two_integers(x, y)?;
    Ok(Value::Number(whole_numbers::shl(m, n)))
}

/// `>>` (11.7.2).
pub fn shift_right(x: &Value, y: &Value) -> Result<Value, Refusal>
    ensures value { (nu : Naming) → spec.bitwise spec.shift_right (val_in nu x.now) (val_in nu y.now) ≡ answer_of (val_in nu) result }
    ensures needs { IfOk result (λ v. needs v ≡ 0) }
{
    let (m, n) = two_integers(x, y)?;
    Ok(Value::Number(whole_numbers::shr(m, n)))
}

/// `>>>` (11.7.3).
pub fn shift_right_zero(x: &Value, y: &Value) -> Result<Value, Refusal>
    ensures value { (nu : Naming) → spec.bitwise spec.shift_right_unsigned (val_in nu x.now) (val_in nu y.now) ≡ answer_of (val_in nu) result }
    ensures needs { IfOk result (λ v. needs v ≡ 0) }
{
    let (m, n) = two_integers(x, y)?;
    Ok(Value::Number(whole_numbers::ushr(m, n)))
}

/// `&` (11.10).
pub fn bit_and(x: &Value, y: &Value) -> Result<Value, Refusal>
    ensures value { (nu : Naming) → spec.bitwise spec.bits_and (val_in nu x.now) (val_in nu y.now) ≡ answer_of (val_in nu) result }
    ensures needs { IfOk result (λ v. needs v ≡ 0) }
{
    let (m, n) = two_integers(x, y)?;
    Ok(Value::Number(whole_numbers::and(m, n)))
}

/// `|` (11.10).
pub fn bit_or(x: &Value, y: &Value) -> Result<Value, Refusal>
    ensures value { (nu : Naming) → spec.bitwise spec.bits_or (val_in nu x.now) (val_in nu y.now) ≡ answer_of (val_in nu) result }
    ensures needs { IfOk result (λ v. needs v ≡ 0) }
{
    let (m, n) = two_integers(x, y)?;
    Ok(Value::Number(whole_numbers::or(m, n)))
}

/// `^` (11.10).
pub fn bit_xor(x: &Value, y: &Value) -> Result<Value, Refusal>
    ensures value { (nu : Naming) → spec.bitwise spec.bits_xor (val_in nu x.now) (val_in nu y.now) ≡ answer_of (val_in nu) result }
    ensures needs { IfOk result (λ v. needs v ≡ 0) }
{
    let (m, n) = two_integers(x, y)?;
    Ok(Value::Number(whole_numbers::xor(m, n)))
}

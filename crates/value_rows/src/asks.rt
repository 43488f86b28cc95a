//! The asks over a host: a task and its token, a reply, a draw, a join and a crash.
ghost use Rattle.std.specs.Prelude.{◌≡◌, ◌≤◌, ◌≤ℤ◌, pos, int_lt, false, IfOk, IfErr};
ghost use Rattle.turk_base.specs.Prog.{Post, ask, made};
ghost use Rattle.js_tree.specs.ScriptCalls as calls;
ghost use Rattle.value_cells.specs.Needs.{needs};
ghost use Rattle.run_host.specs.Moment.{cells};
ghost use Rattle.run_host.specs.Told.{told_value, exit_needs};
ghost use Rattle.run_host.specs.Did.{Runs};
ghost use Rattle.run_host.specs.Steps.{Takes};

use host_steps::errors::type_error_of;
use host_steps::texts::paid;
use run_host::{Exit, Host};
use std::alloc::Global;
use turk_base::{Units, Whole};
use value_cells::Value;

/// A task with this text; its token pays its length.
pub fn posted<H: Host>(host: &mut H, text: &Units) -> Result<Units, Exit>
    requires sound { H.is_sound host.old }
    ensures did { Takes (λ nu go. ask (Post text.now) (λ token. made token go)) (λ nu t. t) result (H.moment host.old) (H.moment host.new) }
    ensures more { cells (H.moment host.old) ≤ cells (H.moment host.new) }
    ensures thrown { IfErr result (λ x. exit_needs x ≤ cells (H.moment host.new)) }
    ensures sound { H.is_sound host.new }
{
    let token = host.post(text)?;
    paid(host, token)
}

/// The reply to a task; it pays its length.
pub fn reply_to<H: Host>(host: &mut H, token: &Units) -> Result<Value, Exit>
    requires sound { H.is_sound host.old }
    ensures ran { Runs (λ nu. calls.reply_to token.now) (λ nu. told_value nu result) (H.moment host.old) (H.moment host.new) }
    ensures more { cells (H.moment host.old) ≤ cells (H.moment host.new) }
    ensures thrown { IfErr result (λ x. exit_needs x ≤ cells (H.moment host.new)) }
    ensures sound { H.is_sound host.new }
    ensures exists { IfOk result (λ v. needs v ≤ cells (H.moment host.new)) }
{
    let reply = host.reply(token)?;
    let text = paid(host, reply)?;
    Ok(Value::Text(text))
}

/// Whether a bound is below 1.
fn is_below_one(bound: Whole) -> bool
    ensures test { int_lt bound (pos 1) ≡ result }
    ensures bound { result ≡ false → pos 1 ≤ℤ bound }
{
    bound.get() < 1
}

/// A number from 0 to below the bound, which must be positive.
pub fn draw_below<H: Host>(alloc: Global, host: &mut H, bound: Whole) -> Result<Value, Exit>
    requires sound { H.is_sound host.old }
    ensures ran { Runs (λ nu. calls.draw_below bound) (λ nu. told_value nu result) (H.moment host.old) (H.moment host.new) }
    ensures more { cells (H.moment host.old) ≤ cells (H.moment host.new) }
    ensures thrown { IfErr result (λ x. exit_needs x ≤ cells (H.moment host.new)) }
    ensures sound { H.is_sound host.new }
    ensures exists { IfOk result (λ v. needs v ≤ cells (H.moment host.new)) }
{
    if is_below_one(bound) {
        return Err(type_error_of(alloc, host, b"random needs a positive number"));
    }
    let drawn = host.draw(bound)?;
    Ok(Value::Number(drawn))
}

/// `join`: the branches of the scope joined.
pub fn join<H: Host>(host: &mut H) -> Result<Value, Exit>
    requires sound { H.is_sound host.old }
    ensures ran { Runs (λ nu. calls.join_row) (λ nu. told_value nu result) (H.moment host.old) (H.moment host.new) }
    ensures more { cells (H.moment host.old) ≤ cells (H.moment host.new) }
    ensures thrown { IfErr result (λ x. exit_needs x ≤ cells (H.moment host.new)) }
    ensures sound { H.is_sound host.new }
    ensures exists { IfOk result (λ v. needs v ≤ cells (H.moment host.new)) }
{
    host.join()
}

/// `crash`: the run waits here.
pub fn crash<H: Host>(host: &mut H) -> Result<Value, Exit>
    requires sound { H.is_sound host.old }
    ensures ran { Runs (λ nu. calls.crash_row) (λ nu. told_value nu result) (H.moment host.old) (H.moment host.new) }
    ensures more { cells (H.moment host.old) ≤ cells (H.moment host.new) }
    ensures thrown { IfErr result (λ x. exit_needs x ≤ cells (H.moment host.new)) }
    ensures sound { H.is_sound host.new }
    ensures exists { IfOk result (λ v. needs v ≤ cells (H.moment host.new)) }
{
    Err(host.crash())
}

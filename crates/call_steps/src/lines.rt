//! The line that `print` writes (own rules).
ghost use Rattle.std.specs.Prelude.{◌≡◌, ◌<◌, ◌≤◌, length, drop, IfOk, IfErr, map, ◌++◌, ◌∷◌};
ghost use Rattle.js_tree.specs.ScriptCalls as calls;
ghost use Rattle.value_cells.specs.Seen.{val_in};
ghost use Rattle.run_host.specs.Moment.{cells};
ghost use Rattle.run_host.specs.Told.{exit_needs};
ghost use Rattle.run_host.specs.Steps.{Takes};
ghost use Rattle.call_steps.specs.Lines.{line_from};

use host_steps::texts::text_of;
use run_host::{Exit, Host};
use std::alloc::Global;
use turk_base::{NoMemory, Units};
use value_cells::Value;

/// Adds a text to a line, after a space.
fn add_text(line: &mut Units, text: &Units) -> Result<(), NoMemory>
    ensures { IfOk result (λ _. line.new ≡ line.old ++ 32 ∷ text.now) }
{
    line.push(32)?;
    line.append(text)
}

/// The line that begins with a text and goes on with the texts of values.
fn rest_of_line<H: Host>(
    alloc: Global,
    host: &mut H,
    first: Units,
    values: &[Value],
) -> Result<Units, Exit>
    requires sound { H.is_sound host.old }
    ensures did { Takes (λ nu. line_from first (map (val_in nu) values.now)) (λ nu t. t) result (H.moment host.old) (H.moment host.new) }
    ensures more { cells (H.moment host.old) ≤ cells (H.moment host.new) }
    ensures thrown { IfErr result (λ x. exit_needs x ≤ cells (H.moment host.new)) }
    ensures sound { H.is_sound host.new }
{
    let mut line = first;
    for value in values {
        let text = text_of(alloc, host, value)?;
        add_text(&mut line, &text)?;
    }
    Ok(line)
}

/// The values after the first.
fn after_first(values: &[Value]) -> &[Value]
    requires { 0 < length values.now }
    ensures { result.now ≡ drop 1 values.now }
{
    &values[1..]
}

/// The texts of values, joined by a space; each is paid where it is made.
pub fn line_of<H: Host>(alloc: Global, host: &mut H, values: &[Value]) -> Result<Units, Exit>
    requires sound { H.is_sound host.old }
    ensures did { Takes (λ nu. calls.line_of (map (val_in nu) values.now)) (λ nu t. t) result (H.moment host.old) (H.moment host.new) }
    ensures more { cells (H.moment host.old) ≤ cells (H.moment host.new) }
    ensures thrown { IfErr result (λ x. exit_needs x ≤ cells (H.moment host.new)) }
    ensures sound { H.is_sound host.new }
{
    if values.len() == 0 {
        return Ok(Units::new(alloc));
    }
    let text = text_of(alloc, host, &values[0])?;
    rest_of_line(alloc, host, text, after_first(values))
}

//! Texts with their charges.
ghost use Rattle.std.specs.Prelude.{◌≡◌, ◌≤◌, IfOk, IfErr};
ghost use Rattle.turk_base.specs.Prog.{made};
ghost use Rattle.turk_base.specs.Errors.{index_text, text_from};
ghost use Rattle.value_cells.specs.Seen.{val_in};
ghost use Rattle.run_host.specs.Moment.{cells};
ghost use Rattle.run_host.specs.Told.{exit_needs};
ghost use Rattle.run_host.specs.Steps.{Takes};

use crate::values::plain_text;
use itoa::Buffer;
use run_host::{Exit, Halt, Host, Refusal};
use std::alloc::Global;
use turk_base::{NoMemory, Units};
use value_cells::Value;

/// A text that is made pays its length, and has at most 1,048,576 units.
pub fn paid<H: Host>(host: &mut H, units: Units) -> Result<Units, Exit>
    requires sound { H.is_sound host.old }
    ensures did { Takes (λ nu. made units) (λ nu t. t) result (H.moment host.old) (H.moment host.new) }
    ensures more { cells (H.moment host.old) ≤ cells (H.moment host.new) }
    ensures thrown { IfErr result (λ x. exit_needs x ≤ cells (H.moment host.new)) }
    ensures sound { H.is_sound host.new }
{
    if units.len() > 1_048_576 {
        return Err(Exit::Halted(Halt::Refused(Refusal::TooLong)));
    }
    host.pay(units.len() as u64)?;
    Ok(units)
}

/// The text of a value; it pays its length where it isn't a text already.
pub fn text_of<H: Host>(alloc: Global, host: &mut H, value: &Value) -> Result<Units, Exit>
    requires sound { H.is_sound host.old }
    ensures did { Takes (λ nu. text_from (val_in nu value.now)) (λ nu t. t) result (H.moment host.old) (H.moment host.new) }
    ensures more { cells (H.moment host.old) ≤ cells (H.moment host.new) }
    ensures thrown { IfErr result (λ x. exit_needs x ≤ cells (H.moment host.new)) }
    ensures sound { H.is_sound host.new }
{
    if let Value::Text(units) = value {
        return Ok(units.copy(alloc)?);
    }
    match plain_text(alloc, value)? {
        Some(text) => paid(host, text),
        None => Err(Exit::Halted(Halt::Refused(Refusal::NoPrimitive))),
    }
}

/// The decimal text of an index.
pub fn index_key(alloc: Global, index: u64) -> Result<Units, NoMemory>
    ensures { IfOk result (λ key. key ≡ index_text index) }
{
    let mut buffer = Buffer::new();
    Units::from_bytes(alloc, buffer.format(index).as_bytes())
}

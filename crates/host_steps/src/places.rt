//! Places (ECMA-262 3rd ed. 8.7): what a target, a callee or the operand of typeof stands for.
ghost use Rattle.std.specs.Prelude.{◌≡◌, ◌≤◌, IfOk, IfErr};
ghost use Rattle.js_tree.specs.Pieces as pieces;
ghost use Rattle.js_tree.specs.Operate as operate;
ghost use Rattle.value_cells.specs.Needs.{needs};
ghost use Rattle.value_cells.specs.Seen.{val_in};
ghost use Rattle.run_host.specs.Moment.{cells};
ghost use Rattle.run_host.specs.Told.{told_value, here_in, here_needs, exit_needs};
ghost use Rattle.run_host.specs.Did.{Runs};
ghost use Rattle.run_host.specs.Steps.{Takes};
ghost use Rattle.host_steps.specs.Places.{place_in, place_needs};

use crate::names::{get_variable, set_variable};
use crate::properties::{get_property, set_property};
use js_tree::{Binding, Named};
use run_host::{Exit, Here, Host};
use std::alloc::Global;
use turk_base::{NoMemory, Units};
use value_cells::{CellKind, Value};

/// A name, a property that is not looked up yet, or a value.
#[derive(Drop)]
pub enum Place<'a> {
    Variable(&'a Named),
    Property(Value, Units),
    Given(Value),
}

/// The value of a place (8.7.1).
pub fn get_place<H: Host>(
    alloc: Global,
    host: &mut H,
    here: Here,
    place: &Place,
) -> Result<Value, Exit>
    requires sound { H.is_sound host.old }
    requires here { here_needs here ≤ cells (H.moment host.old) }
    requires place { place_needs place.now ≤ cells (H.moment host.old) }
    ensures did { Takes (λ nu. pieces.get_place (here_in nu here) (place_in nu place.now)) val_in result (H.moment host.old) (H.moment host.new) }
    ensures more { cells (H.moment host.old) ≤ cells (H.moment host.new) }
    ensures thrown { IfErr result (λ x. exit_needs x ≤ cells (H.moment host.new)) }
    ensures sound { H.is_sound host.new }
    ensures exists { IfOk result (λ v. needs v ≤ cells (H.moment host.new)) }
{
    match place {
        Place::Variable(x) => get_variable(alloc, host, here, x),
        Place::Property(base, key) => get_property(host, base, key),
        Place::Given(value) => Ok(value.copy(alloc)?),
    }
}

/// Sets the value of a place (8.7.2).
pub fn set_place<H: Host>(
    alloc: Global,
    host: &mut H,
    here: Here,
    place: &Place,
    value: &Value,
) -> Result<(), Exit>
    requires sound { H.is_sound host.old }
    requires here { here_needs here ≤ cells (H.moment host.old) }
    requires place { place_needs place.now ≤ cells (H.moment host.old) }
    requires value { needs value.now ≤ cells (H.moment host.old) }
    ensures did { Takes (λ nu. pieces.set_place (here_in nu here) (place_in nu place.now) (val_in nu value.now)) (λ nu u. u) result (H.moment host.old) (H.moment host.new) }
    ensures more { cells (H.moment host.old) ≤ cells (H.moment host.new) }
    ensures thrown { IfErr result (λ x. exit_needs x ≤ cells (H.moment host.new)) }
    ensures sound { H.is_sound host.new }
{
    match place {
        Place::Variable(x) => set_variable(alloc, host, here, x, value),
        Place::Property(base, key) => set_property(alloc, host, base, key, value),
        Place::Given(_) => Ok(()),
    }
}

//! The names of a frame (ECMA-262 3rd ed. 10.1.3): parameters, functions, variables.
ghost use Rattle.std.specs.Prelude.{◌≡◌, ◌<◌, ◌≤◌, ◌+◌, length, IfOk, IfErr, map, drop, ◌||◌, if◌then◌else◌};
ghost use Rattle.turk_base.specs.Prog.{Declare, Ask};
ghost use Rattle.turk_base.specs.Values.{Object, Undefined};
ghost use Rattle.js_tree.specs.Trees.{declared_name, declared_body, number_of, functions_of, statements_of};
ghost use Rattle.js_tree.specs.Calls as calls;
ghost use Rattle.js_tree.specs.Calls.{has, head_value, add_name};
ghost use Rattle.js_tree.specs.Pieces.{make_function};
ghost use Rattle.value_cells.specs.Needs.{needs, all_needs};
ghost use Rattle.value_cells.specs.Seen.{Naming, val_in};
ghost use Rattle.run_host.specs.Moment.{cells};
ghost use Rattle.run_host.specs.Told.{exit_needs};
ghost use Rattle.run_host.specs.Steps.{Takes};
ghost use Rattle.call_steps.specs.Frames.{after};

use convert_rules::same_texts;
use host_steps::literals::function_of;
use js_tree::{Declaration, Script};
use run_host::{Exit, Host};
use std::alloc::Global;
use turk_base::{NoMemory, Units};
use value_cells::Value;

/// Whether a name is among these.
fn is_among(names: &[Units], name: &Units) -> bool
    ensures { has names.now name.now ≡ result }
{
    let mut rest = names;
    loop {
        match rest {
            [] => return false,
            [one, others @ ..] => {
                if same_texts(one, name) {
                    return true;
                }
                rest = others;
            }
        }
    }
}

/// Whether one of these functions has the name.
fn is_declared(functions: &[Declaration], name: &Units) -> bool
    ensures { has (map declared_name functions.now) name.now ≡ result }
{
    let mut rest = functions;
    loop {
        match rest {
            [] => return false,
            [one, others @ ..] => {
                if same_texts(one.name(), name) {
                    return true;
                }
                rest = others;
            }
        }
    }
}

/// Whether a frame has a name after its parameters and these functions were declared.
fn is_known(parameters: &[Units], functions: &[Declaration], name: &Units) -> bool
    ensures { has (after parameters.now functions.now) name.now ≡ result }
{
    is_among(parameters, name) || is_declared(functions, name)
}

/// Whether a frame has a name after these variables were declared too.
fn is_there(
    parameters: &[Units],
    functions: &[Declaration],
    variables: &[Units],
    name: &Units,
) -> bool
    ensures { (has (after parameters.now functions.now) name.now || has variables.now name.now) ≡ result }
{
    is_known(parameters, functions, name) || is_among(variables, name)
}

/// The argument at a place, undefined where there is none.
fn argument_at(alloc: Global, arguments: &[Value], i: usize) -> Result<Value, NoMemory>
    ensures value { IfOk result (λ v. (nu : Naming) → head_value (map (val_in nu) (drop i arguments.now)) ≡ val_in nu v) }
    ensures needs { IfOk result (λ v. needs v ≤ all_needs arguments.now) }
{
    if i < arguments.len() {
        arguments[i].copy(alloc)
    } else {
        Ok(Value::Undefined)
    }
}

/// A parameter with its argument; of equal parameters the last one counts.
fn add_parameter<H: Host>(
    alloc: Global,
    host: &mut H,
    frame: u32,
    name: &Units,
    later: &[Units],
    arguments: &[Value],
    i: usize,
) -> Result<(), Exit>
    requires sound { H.is_sound host.old }
    requires frame { frame < cells (H.moment host.old) }
    requires arguments { all_needs arguments.now ≤ cells (H.moment host.old) }
    ensures did { Takes (λ nu go. if has later.now name.now then go tt else Ask (Declare (nu frame) name.now (head_value (map (val_in nu) (drop i arguments.now)))) (λ _. go tt)) (λ nu u. u) result (H.moment host.old) (H.moment host.new) }
    ensures more { cells (H.moment host.old) ≤ cells (H.moment host.new) }
    ensures thrown { IfErr result (λ x. exit_needs x ≤ cells (H.moment host.new)) }
    ensures sound { H.is_sound host.new }
{
    if is_among(later, name) {
        return Ok(());
    }
    let value = argument_at(alloc, arguments, i)?;
    host.declare(frame, name, value)
}

/// The names after a place.
fn names_after(names: &[Units], i: usize) -> &[Units]
    requires { i < length names.now }
    ensures { result.now ≡ drop (i + 1) names.now }
{
    &names[i + 1..]
}

/// The parameters of a frame with their arguments.
pub fn add_parameters<H: Host>(
    alloc: Global,
    host: &mut H,
    frame: u32,
    parameters: &[Units],
    arguments: &[Value],
) -> Result<(), Exit>
    requires sound { H.is_sound host.old }
    requires frame { frame < cells (H.moment host.old) }
    requires arguments { all_needs arguments.now ≤ cells (H.moment host.old) }
    ensures did { Takes (λ nu. calls.add_parameters (nu frame) parameters.now (map (val_in nu) arguments.now)) (λ nu u. u) result (H.moment host.old) (H.moment host.new) }
    ensures more { cells (H.moment host.old) ≤ cells (H.moment host.new) }
    ensures thrown { IfErr result (λ x. exit_needs x ≤ cells (H.moment host.new)) }
    ensures sound { H.is_sound host.new }
{
    for i in 0..parameters.len() {
        let later = names_after(parameters, i);
        add_parameter(alloc, host, frame, &parameters[i], later, arguments, i)?;
    }
    Ok(())
}

/// A function that is declared: it is made, and then its name is set, or added to the frame.
fn add_function<H: Host>(
    alloc: Global,
    host: &mut H,
    frame: u32,
    function: &Declaration,
    known: bool,
) -> Result<(), Exit>
    requires sound { H.is_sound host.old }
    requires frame { frame < cells (H.moment host.old) }
    ensures did { Takes (λ nu go. make_function (number_of (declared_body function.now)) (nu frame) (λ c. add_name known (nu frame) (declared_name function.now) (Object c) go)) (λ nu u. u) result (H.moment host.old) (H.moment host.new) }
    ensures more { cells (H.moment host.old) ≤ cells (H.moment host.new) }
    ensures thrown { IfErr result (λ x. exit_needs x ≤ cells (H.moment host.new)) }
    ensures sound { H.is_sound host.new }
{
    let cell = function_of(alloc, host, function.body(), frame)?;
    if known {
        host.write_name(frame, function.name(), Value::Object(cell))
    } else {
        host.declare(frame, function.name(), Value::Object(cell))
    }
}

/// The functions that a body declares, in order.
fn add_functions<H: Host>(
    alloc: Global,
    host: &mut H,
    frame: u32,
    parameters: &[Units],
    functions: &[Declaration],
) -> Result<(), Exit>
    requires sound { H.is_sound host.old }
    requires frame { frame < cells (H.moment host.old) }
    ensures did { Takes (λ nu. calls.add_functions (nu frame) parameters.now functions.now) (λ nu _. after parameters.now functions.now) result (H.moment host.old) (H.moment host.new) }
    ensures more { cells (H.moment host.old) ≤ cells (H.moment host.new) }
    ensures thrown { IfErr result (λ x. exit_needs x ≤ cells (H.moment host.new)) }
    ensures sound { H.is_sound host.new }
{
    for i in 0..functions.len() {
        let function = &functions[i];
        let known = is_known(parameters, &functions[..i], function.name());
        add_function(alloc, host, frame, function, known)?;
    }
    Ok(())
}

/// A variable; what the frame has already stays.
fn add_variable<H: Host>(host: &mut H, frame: u32, name: &Units, known: bool) -> Result<(), Exit>
    requires sound { H.is_sound host.old }
    requires frame { frame < cells (H.moment host.old) }
    ensures did { Takes (λ nu go. if known then go tt else Ask (Declare (nu frame) name.now Undefined) (λ _. go tt)) (λ nu u. u) result (H.moment host.old) (H.moment host.new) }
    ensures more { cells (H.moment host.old) ≤ cells (H.moment host.new) }
    ensures thrown { IfErr result (λ x. exit_needs x ≤ cells (H.moment host.new)) }
    ensures sound { H.is_sound host.new }
{
    if known {
        Ok(())
    } else {
        host.declare(frame, name, Value::Undefined)
    }
}

/// The variables that the statements of a body declare, in order.
fn add_variables<H: Host>(
    host: &mut H,
    frame: u32,
    parameters: &[Units],
    functions: &[Declaration],
    variables: &[Units],
) -> Result<(), Exit>
    requires sound { H.is_sound host.old }
    requires frame { frame < cells (H.moment host.old) }
    ensures did { Takes (λ nu. calls.add_variables (nu frame) (after parameters.now functions.now) variables.now) (λ nu u. u) result (H.moment host.old) (H.moment host.new) }
    ensures more { cells (H.moment host.old) ≤ cells (H.moment host.new) }
    ensures thrown { IfErr result (λ x. exit_needs x ≤ cells (H.moment host.new)) }
    ensures sound { H.is_sound host.new }
{
    for i in 0..variables.len() {
        let name = &variables[i];
        let known = is_there(parameters, functions, &variables[..i], name);
        add_variable(host, frame, name, known)?;
    }
    Ok(())
}

/// Functions and variables of a body in its frame, after the parameters.
pub fn enter<H: Host>(
    alloc: Global,
    host: &mut H,
    frame: u32,
    parameters: &[Units],
    body: &Script,
    variables: &[Units],
) -> Result<(), Exit>
    requires sound { H.is_sound host.old }
    requires frame { frame < cells (H.moment host.old) }
    requires hoisted { variables.now ≡ calls.variables (statements_of body.now) }
    ensures did { Takes (λ nu. calls.enter (nu frame) parameters.now body.now) (λ nu u. u) result (H.moment host.old) (H.moment host.new) }
    ensures more { cells (H.moment host.old) ≤ cells (H.moment host.new) }
    ensures thrown { IfErr result (λ x. exit_needs x ≤ cells (H.moment host.new)) }
    ensures sound { H.is_sound host.new }
{
    let functions = body.functions();
    add_functions(alloc, host, frame, parameters, functions)?;
    add_variables(host, frame, parameters, functions, variables)
}

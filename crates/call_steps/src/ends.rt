//! How calls end, and calls that need no tree: built-in methods and constructors (ECMA-262 3rd ed. 11.2.3, 13.2).
ghost use Rattle.std.specs.Prelude.{◌≡◌, ◌<◌, ◌≤◌, ℕ, IfOk, IfErr, List, map, codes as word, ◌==◌, if◌then◌else◌};
ghost use Rattle.turk_base.specs.Values.{Undefined};
ghost use Rattle.turk_base.specs.Prog.{Prog, value};
ghost use Rattle.turk_base.specs.Errors.{type_error};
ghost use Rattle.turk_base.specs.BuiltIns.{call_built_in};
ghost use Rattle.js_tree.specs.Calls as calls;
ghost use Rattle.js_tree.specs.Calls.{Code, called, constructed};
ghost use Rattle.js_tree.specs.Pieces.{Here as Spot};
ghost use Rattle.value_cells.specs.Needs.{needs, all_needs};
ghost use Rattle.value_cells.specs.Seen.{Naming, val_in};
ghost use Rattle.run_host.specs.Moment.{cells};
ghost use Rattle.run_host.specs.Told.{told_value, told_exit, flow_in, flow_needs, exit_needs};
ghost use Rattle.run_host.specs.Did.{Runs};

use host_steps::errors::{no_function, type_error_of};
use js_tree::Stmt;
use run_host::{Exit, Flow, Host};
use std::alloc::Global;
use value_cells::Value;

/// The value of a call by how its body ended.
pub fn returned(flow: Flow) -> Value
    ensures value { (nu : Naming) → called (flow_in nu flow) ≡ value (val_in nu result) }
    ensures needs { needs result ≤ flow_needs flow }
{
    match flow {
        Flow::Return(value) => value,
        Flow::Normal => Value::Undefined,
        Flow::Break => Value::Undefined,
        Flow::Continue => Value::Undefined,
    }
}

/// A call of a method by its number.
pub fn call_method<H: Host>(
    alloc: Global,
    host: &mut H,
    which: Option<u8>,
    this: &Value,
    arguments: &[Value],
) -> Result<Value, Exit>
    requires sound { H.is_sound host.old }
    requires this { needs this.now ≤ cells (H.moment host.old) }
    requires arguments { all_needs arguments.now ≤ cells (H.moment host.old) }
    ensures ran { (table : List Code) (stmt : Spot → Stmt → Prog) → Runs (λ nu. calls.call_method table stmt which (val_in nu this.now) (map (val_in nu) arguments.now)) (λ nu. told_value nu result) (H.moment host.old) (H.moment host.new) }
    ensures more { cells (H.moment host.old) ≤ cells (H.moment host.new) }
    ensures thrown { IfErr result (λ x. exit_needs x ≤ cells (H.moment host.new)) }
    ensures sound { H.is_sound host.new }
    ensures exists { IfOk result (λ v. needs v ≤ cells (H.moment host.new)) }
{
    match which {
        Some(which) => host.built_in(which, this, arguments),
        None => Err(no_function(alloc, host)),
    }
}

/// What `new` gives: the object that the body returned, else the one that was made.
pub fn kept(made: u32, value: Value) -> Value
    ensures value { (table : List Code) (stmt : Spot → Stmt → Prog) (nu : Naming) → constructed table stmt (nu made) (val_in nu value) ≡ val_in nu result }
    ensures needs { (n : ℕ) → made < n → needs value ≤ n → needs result ≤ n }
{
    match value {
        Value::Object(cell) => Value::Object(cell),
        _ => Value::Object(made),
    }
}

/// The error of `new` on what makes no objects, thrown.
pub fn no_constructor<H: Host>(alloc: Global, host: &mut H) -> Exit
    requires sound { H.is_sound host.old }
    ensures did { Runs (λ nu. type_error (word "not a constructor")) (λ nu. told_exit nu result) (H.moment host.old) (H.moment host.new) }
    ensures more { cells (H.moment host.old) ≤ cells (H.moment host.new) }
    ensures thrown { exit_needs result ≤ cells (H.moment host.new) }
    ensures sound { H.is_sound host.new }
{
    type_error_of(alloc, host, b"not a constructor")
}

/// A new object of a built-in function; String has none.
pub fn construct_built_in<H: Host>(
    alloc: Global,
    host: &mut H,
    which: u8,
    arguments: &[Value],
) -> Result<Value, Exit>
    requires sound { H.is_sound host.old }
    requires arguments { all_needs arguments.now ≤ cells (H.moment host.old) }
    ensures ran { Runs (λ nu. if which == 12 then type_error (word "not a constructor") else call_built_in which Undefined (map (val_in nu) arguments.now)) (λ nu. told_value nu result) (H.moment host.old) (H.moment host.new) }
    ensures more { cells (H.moment host.old) ≤ cells (H.moment host.new) }
    ensures thrown { IfErr result (λ x. exit_needs x ≤ cells (H.moment host.new)) }
    ensures sound { H.is_sound host.new }
    ensures exists { IfOk result (λ v. needs v ≤ cells (H.moment host.new)) }
{
    if which == 12 {
        return Err(no_constructor(alloc, host));
    }
    host.built_in(which, &Value::Undefined, arguments)
}

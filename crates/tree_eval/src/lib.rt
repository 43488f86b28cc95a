//! The evaluator: it runs the tree of a script over a host, node by node.
#![tactic(auto)]

ghost use Rattle.std.specs.Prelude.{◌≡◌, ◌<◌, ◌≤◌, IfOk, IfErr, OnOk};
ghost use Rattle.js_tree.specs.Rows.{expr_to, stmt_to, program};
ghost use Rattle.value_cells.specs.Needs.{needs};
ghost use Rattle.run_host.specs.Moment.{cells};
ghost use Rattle.run_host.specs.Told.{told_value, told_flow, here_in, here_needs, flow_needs, exit_needs};
ghost use Rattle.run_host.specs.Did.{Runs};
ghost use Rattle.tree_rows.specs.Codes.{table_in};

mod kinds;

use crate::kinds::expr_node;
use call_steps::names::enter;
use js_tree::{Expr, Stmt};
use run_host::{Exit, Flow, Halt, Here, Host, Refusal};
use std::alloc::Global;
use std::marker::PhantomData;
use tree_rows::{Below, CodeRef, Codes};
use value_cells::{CellKind, Value};

/// How many nodes may be open.
const NODES: u32 = 800;

/// An expression, with so many nodes open at most, itself among them. It pays 1; where none may be open it is then refused as
/// too deep. What ends it otherwise than with a value is the exit: a throw, a halt of the run or the branch, or a stop.
#[cycle(eval)]
pub fn expr<H: Host>(
    alloc: Global,
    codes: &Codes,
    left: u32,
    host: &mut H,
    here: Here,
    e: &Expr,
) -> Result<Value, Exit>
    requires sound { H.is_sound host.old }
    requires here { here_needs here ≤ cells (H.moment host.old) }
    ensures ran { Runs (λ nu. expr_to (table_in codes.now) left (here_in nu here) e.now) (λ nu. told_value nu result) (H.moment host.old) (H.moment host.new) }
    ensures exists { IfOk result (λ v. needs v ≤ cells (H.moment host.new)) }
    ensures paid { OnOk result ((H.moment host.new).heap.left < (H.moment host.old).heap.left) }
    ensures more { cells (H.moment host.old) ≤ cells (H.moment host.new) }
    ensures thrown { IfErr result (λ x. exit_needs x ≤ cells (H.moment host.new)) }
    ensures sound { H.is_sound host.new }
{
    host.pay(1)?;
    if left == 0 {
        return Err(Exit::Halted(Halt::Refused(Refusal::TooDeep)));
    }
    let below = Below {
        alloc,
        left: left - 1,
        expr: expr::<H>,
        stmt: stmt::<H>,
        host: PhantomData,
    };
    expr_node(&below, codes, host, here, e)
}

/// A statement, with so many nodes open at most, itself among them; it pays and is refused as an expression is.
#[cycle(eval)]
pub fn stmt<H: Host>(
    alloc: Global,
    codes: &Codes,
    left: u32,
    host: &mut H,
    here: Here,
    s: &Stmt,
) -> Result<Flow, Exit>
    requires sound { H.is_sound host.old }
    requires here { here_needs here ≤ cells (H.moment host.old) }
    ensures ran { Runs (λ nu. stmt_to (table_in codes.now) left (here_in nu here) s.now) (λ nu. told_flow nu result) (H.moment host.old) (H.moment host.new) }
    ensures exists { IfOk result (λ f. flow_needs f ≤ cells (H.moment host.new)) }
    ensures paid { OnOk result ((H.moment host.new).heap.left < (H.moment host.old).heap.left) }
    ensures more { cells (H.moment host.old) ≤ cells (H.moment host.new) }
    ensures thrown { IfErr result (λ x. exit_needs x ≤ cells (H.moment host.new)) }
    ensures sound { H.is_sound host.new }
{
    host.pay(1)?;
    if left == 0 {
        return Err(Exit::Halted(Halt::Refused(Refusal::TooDeep)));
    }
    let below = Below {
        alloc,
        left: left - 1,
        expr: expr::<H>,
        stmt: stmt::<H>,
        host: PhantomData,
    };
    below.stmt_node(codes, host, here, s)
}

/// A whole script (ECMA-262 3rd ed. 14), whose functions have these codes: the global frame with the names that the script
/// declares, then its statements, with 800 nodes open at most. The branches that it forked aren't joined here, and a throw
/// that nothing caught is an exit like any other. The parameters of the script's own code aren't looked at.
pub fn script<H: Host>(
    alloc: Global,
    codes: &Codes,
    host: &mut H,
    script: &CodeRef,
) -> Result<Flow, Exit>
    requires sound { H.is_sound host.old }
    ensures ran { Runs (λ nu. program (table_in codes.now) script.now.body.now) (λ nu. told_flow nu result) (H.moment host.old) (H.moment host.new) }
    ensures exists { IfOk result (λ f. flow_needs f ≤ cells (H.moment host.new)) }
    ensures more { cells (H.moment host.old) ≤ cells (H.moment host.new) }
    ensures thrown { IfErr result (λ x. exit_needs x ≤ cells (H.moment host.new)) }
    ensures sound { H.is_sound host.new }
{
    let frame = host.make(CellKind::Frame(None))?;
    enter(
        alloc,
        host,
        frame,
        &[],
        script.body,
        script.variables.as_slice(),
    )?;
    let below = Below {
        alloc,
        left: NODES,
        expr: expr::<H>,
        stmt: stmt::<H>,
        host: PhantomData,
    };
    below.list(
        codes,
        host,
        Here { frame, this: None },
        script.body.statements(),
    )
}

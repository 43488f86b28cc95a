//! The rows that read a target before they write it: compound assignments, `++` and `--` (ECMA-262 3rd ed. 11.3, 11.4.4, 11.4.5,
//! 11.13.2).
#![tactic(auto)]

ghost use Rattle.std.specs.Prelude.{◌≡◌, ◌<◌, ◌≤◌, IfOk, IfErr, Some};
ghost use Rattle.js_tree.specs.Rows.{expr_to, stmt_to};
ghost use Rattle.js_tree.specs.Expressions.{update_row, assign_row};
ghost use Rattle.value_cells.specs.Needs.{needs};
ghost use Rattle.run_host.specs.Moment.{cells};
ghost use Rattle.run_host.specs.Told.{told_value, here_in, here_needs, exit_needs};
ghost use Rattle.run_host.specs.Did.{Runs};
ghost use Rattle.tree_rows.specs.Codes.{table_in};
ghost use Rattle.tree_rows.specs.Nests.{Nests};

use host_steps::places::{get_place, set_place};
use host_steps::values::number;
use js_tree::{BinaryOperator, Expr, Fix, Sign, Stmt};
use run_host::{Exit, Flow, Here, Host};
use std::alloc::Global;
use tree_rows::{Below, Codes};
use value_cells::Value;
use value_rows::operators::{answer, number_or_not_whole, step};
use value_rows::sums::operate_values;

/// `++` and `--`: the number is read, stepped and written.
pub fn update<
    H: Host,
    E: Fn(Global, &Codes, u32, &mut H, Here, &Expr) -> Result<Value, Exit>,
    S: Fn(Global, &Codes, u32, &mut H, Here, &Stmt) -> Result<Flow, Exit>,
>(
    below: &Below<H, E, S>,
    codes: &Codes,
    host: &mut H,
    here: Here,
    e: &Expr,
    sign: Sign,
    fix: Fix,
) -> Result<Value, Exit>
    requires below { Nests H H.moment H.is_sound (table_in codes.now) below.now.left (E.pre below.now.expr) (E.post below.now.expr) (S.pre below.now.stmt) (S.post below.now.stmt) }
    requires sound { H.is_sound host.old }
    requires here { here_needs here ≤ cells (H.moment host.old) }
    ensures ran { Runs (λ nu. update_row (expr_to (table_in codes.now) below.now.left) (here_in nu here) e.now sign fix) (λ nu. told_value nu result) (H.moment host.old) (H.moment host.new) }
    ensures exists { IfOk result (λ v. needs v ≤ cells (H.moment host.new)) }
    ensures more { cells (H.moment host.old) ≤ cells (H.moment host.new) }
    ensures thrown { IfErr result (λ x. exit_needs x ≤ cells (H.moment host.new)) }
    ensures sound { H.is_sound host.new }
{
    let place = below.place(codes, host, here, e)?;
    let value = get_place(below.alloc, host, here, &place)?;
    let old = number(&value)?;
    let new = number_or_not_whole(step(sign, old))?;
    set_place(below.alloc, host, here, &place, &new)?;
    Ok(answer(fix, old, new))
}

/// An assignment with an operator: the old value is read before the right side is evaluated.
pub fn assign_with<
    H: Host,
    E: Fn(Global, &Codes, u32, &mut H, Here, &Expr) -> Result<Value, Exit>,
    S: Fn(Global, &Codes, u32, &mut H, Here, &Stmt) -> Result<Flow, Exit>,
>(
    below: &Below<H, E, S>,
    codes: &Codes,
    host: &mut H,
    here: Here,
    operator: BinaryOperator,
    t: &Expr,
    e: &Expr,
) -> Result<Value, Exit>
    requires below { Nests H H.moment H.is_sound (table_in codes.now) below.now.left (E.pre below.now.expr) (E.post below.now.expr) (S.pre below.now.stmt) (S.post below.now.stmt) }
    requires sound { H.is_sound host.old }
    requires here { here_needs here ≤ cells (H.moment host.old) }
    ensures ran { Runs (λ nu. assign_row (expr_to (table_in codes.now) below.now.left) (here_in nu here) (Some operator) t.now e.now) (λ nu. told_value nu result) (H.moment host.old) (H.moment host.new) }
    ensures exists { IfOk result (λ v. needs v ≤ cells (H.moment host.new)) }
    ensures more { cells (H.moment host.old) ≤ cells (H.moment host.new) }
    ensures thrown { IfErr result (λ x. exit_needs x ≤ cells (H.moment host.new)) }
    ensures sound { H.is_sound host.new }
{
    let place = below.place(codes, host, here, t)?;
    let old = get_place(below.alloc, host, here, &place)?;
    let other = below.expr(codes, host, here, e)?;
    let value = operate_values(below.alloc, host, operator, &old, &other)?;
    set_place(below.alloc, host, here, &place, &value)?;
    Ok(value)
}

/// An assignment, with an operator or without.
pub fn assignment<
    H: Host,
    E: Fn(Global, &Codes, u32, &mut H, Here, &Expr) -> Result<Value, Exit>,
    S: Fn(Global, &Codes, u32, &mut H, Here, &Stmt) -> Result<Flow, Exit>,
>(
    below: &Below<H, E, S>,
    codes: &Codes,
    host: &mut H,
    here: Here,
    operator: Option<BinaryOperator>,
    t: &Expr,
    e: &Expr,
) -> Result<Value, Exit>
    requires below { Nests H H.moment H.is_sound (table_in codes.now) below.now.left (E.pre below.now.expr) (E.post below.now.expr) (S.pre below.now.stmt) (S.post below.now.stmt) }
    requires sound { H.is_sound host.old }
    requires here { here_needs here ≤ cells (H.moment host.old) }
    ensures ran { Runs (λ nu. assign_row (expr_to (table_in codes.now) below.now.left) (here_in nu here) operator t.now e.now) (λ nu. told_value nu result) (H.moment host.old) (H.moment host.new) }
    ensures exists { IfOk result (λ v. needs v ≤ cells (H.moment host.new)) }
    ensures more { cells (H.moment host.old) ≤ cells (H.moment host.new) }
    ensures thrown { IfErr result (λ x. exit_needs x ≤ cells (H.moment host.new)) }
    ensures sound { H.is_sound host.new }
{
    match operator {
        Some(operator) => assign_with(below, codes, host, here, operator, t, e),
        None => below.assign(codes, host, here, t, e),
    }
}

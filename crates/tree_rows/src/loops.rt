//! The rows of loops (ECMA-262 3rd ed. 12.6).
ghost use Rattle.std.specs.Prelude.{◌≡◌, ◌<◌, ◌≤◌, IfOk, IfErr, OnOk, Some};
ghost use Rattle.turk_base.specs.Prog.{Then, nothing};
ghost use Rattle.js_tree.specs.Rows.{expr_to, stmt_to};
ghost use Rattle.js_tree.specs.Statements.{body_of, tested, while_row, do_while_row};
ghost use Rattle.value_cells.specs.Needs.{needs};
ghost use Rattle.run_host.specs.Moment.{cells};
ghost use Rattle.run_host.specs.Told.{told_value, told_flow, here_in, here_needs, flow_needs, exit_needs};
ghost use Rattle.run_host.specs.Did.{Runs};
ghost use Rattle.tree_rows.specs.Codes.{table_in};
ghost use Rattle.tree_rows.specs.Nests.{Nests};

use crate::below::Below;
use crate::codes::Codes;
use host_steps::values::truth;
use js_tree::{Expr, Stmt};
use run_host::{Exit, Flow, Here, Host};
use std::alloc::Global;
use value_cells::Value;

impl<
    H: Host,
    E: Fn(Global, &Codes, u32, &mut H, Here, &Expr) -> Result<Value, Exit>,
    S: Fn(Global, &Codes, u32, &mut H, Here, &Stmt) -> Result<Flow, Exit>,
> Below<H, E, S> {
    /// One turn of `while`.
    fn while_turn(
        &self,
        codes: &Codes,
        host: &mut H,
        here: Here,
        e: &Expr,
        s: &Stmt,
    ) -> Result<Flow, Exit>
        requires below { Nests H H.moment H.is_sound (table_in codes.now) self.now.left (E.pre self.now.expr) (E.post self.now.expr) (S.pre self.now.stmt) (S.post self.now.stmt) }
        requires sound { H.is_sound host.old }
        requires here { here_needs here ≤ cells (H.moment host.old) }
        ensures ran { Runs (λ nu. tested (table_in codes.now) (expr_to (table_in codes.now) self.now.left) (stmt_to (table_in codes.now) self.now.left) (here_in nu here) (Some e.now) (body_of (table_in codes.now) (expr_to (table_in codes.now) self.now.left) (stmt_to (table_in codes.now) self.now.left) (here_in nu here) s.now)) (λ nu. told_flow nu result) (H.moment host.old) (H.moment host.new) }
        ensures more { cells (H.moment host.old) ≤ cells (H.moment host.new) }
        ensures exists { IfOk result (λ f. flow_needs f ≤ cells (H.moment host.new)) }
        ensures thrown { IfErr result (λ x. exit_needs x ≤ cells (H.moment host.new)) }
        ensures paid { OnOk result ((H.moment host.new).heap.left < (H.moment host.old).heap.left) }
        ensures sound { H.is_sound host.new }
    {
        let value = self.expr(codes, host, here, e)?;
        if truth(&value) {
            self.body(codes, host, here, s)
        } else {
            Ok(Flow::Break)
        }
    }

    /// `while` (12.6.2).
    pub fn while_loop(
        &self,
        codes: &Codes,
        host: &mut H,
        here: Here,
        e: &Expr,
        s: &Stmt,
    ) -> Result<Flow, Exit>
        requires below { Nests H H.moment H.is_sound (table_in codes.now) self.now.left (E.pre self.now.expr) (E.post self.now.expr) (S.pre self.now.stmt) (S.post self.now.stmt) }
        requires sound { H.is_sound host.old }
        requires here { here_needs here ≤ cells (H.moment host.old) }
        ensures ran { Runs (λ nu. while_row (table_in codes.now) (expr_to (table_in codes.now) self.now.left) (stmt_to (table_in codes.now) self.now.left) (here_in nu here) e.now s.now) (λ nu. told_flow nu result) (H.moment host.old) (H.moment host.new) }
        ensures more { cells (H.moment host.old) ≤ cells (H.moment host.new) }
        ensures exists { IfOk result (λ f. flow_needs f ≤ cells (H.moment host.new)) }
        ensures thrown { IfErr result (λ x. exit_needs x ≤ cells (H.moment host.new)) }
        ensures sound { H.is_sound host.new }
    {
        loop {
            match self.while_turn(codes, host, here, e, s)? {
                Flow::Normal => {}
                Flow::Break => return Ok(Flow::Normal),
                other => return Ok(other),
            }
        }
    }
}

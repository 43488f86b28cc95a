//! The rows of statements (ECMA-262 3rd ed. 12; sections in numbers).
ghost use Rattle.std.specs.Prelude.{◌≡◌, ◌<◌, ◌≤◌, IfOk, IfErr, OnOk, Some, None};
ghost use Rattle.std.specs.Option.{option_copied};
ghost use Rattle.turk_base.specs.Prog.{Loop};
ghost use Rattle.js_tree.specs.Rows.{expr_to, stmt_to};
ghost use Rattle.js_tree.specs.Statements.{expression_row, if_row, optional, body_of, while_row, do_while_row, return_row, throw_row, tested};
ghost use Rattle.value_cells.specs.Needs.{needs};
ghost use Rattle.run_host.specs.Moment.{cells};
ghost use Rattle.run_host.specs.Told.{told_value, told_flow, here_in, here_needs, flow_needs, exit_needs};
ghost use Rattle.run_host.specs.Did.{Runs};
ghost use Rattle.tree_rows.specs.Codes.{table_in};
ghost use Rattle.tree_rows.specs.Nests.{Nests};

use crate::below::Below;
use crate::codes::Codes;
use host_steps::values::truth;
use js_tree::{Expr, Stmt};
use run_host::{Exit, Flow, Here, Host};
use std::alloc::Global;
use value_cells::Value;

impl<
    H: Host,
    E: Fn(Global, &Codes, u32, &mut H, Here, &Expr) -> Result<Value, Exit>,
    S: Fn(Global, &Codes, u32, &mut H, Here, &Stmt) -> Result<Flow, Exit>,
> Below<H, E, S> {
    /// An expression statement (12.4).
    pub fn expression(
        &self,
        codes: &Codes,
        host: &mut H,
        here: Here,
        e: &Expr,
    ) -> Result<Flow, Exit>
        requires below { Nests H H.moment H.is_sound (table_in codes.now) self.now.left (E.pre self.now.expr) (E.post self.now.expr) (S.pre self.now.stmt) (S.post self.now.stmt) }
        requires sound { H.is_sound host.old }
        requires here { here_needs here ≤ cells (H.moment host.old) }
        ensures ran { Runs (λ nu. expression_row (table_in codes.now) (expr_to (table_in codes.now) self.now.left) (stmt_to (table_in codes.now) self.now.left) (here_in nu here) e.now) (λ nu. told_flow nu result) (H.moment host.old) (H.moment host.new) }
        ensures more { cells (H.moment host.old) ≤ cells (H.moment host.new) }
        ensures exists { IfOk result (λ f. flow_needs f ≤ cells (H.moment host.new)) }
        ensures thrown { IfErr result (λ x. exit_needs x ≤ cells (H.moment host.new)) }
        ensures sound { H.is_sound host.new }
    {
        let _value = self.expr(codes, host, here, e)?;
        Ok(Flow::Normal)
    }

    /// A statement that may be missing.
    fn optional(
        &self,
        codes: &Codes,
        host: &mut H,
        here: Here,
        s: Option<&Stmt>,
    ) -> Result<Flow, Exit>
        requires below { Nests H H.moment H.is_sound (table_in codes.now) self.now.left (E.pre self.now.expr) (E.post self.now.expr) (S.pre self.now.stmt) (S.post self.now.stmt) }
        requires sound { H.is_sound host.old }
        requires here { here_needs here ≤ cells (H.moment host.old) }
        ensures ran { Runs (λ nu. optional (table_in codes.now) (expr_to (table_in codes.now) self.now.left) (stmt_to (table_in codes.now) self.now.left) (here_in nu here) (option_copied s.entry)) (λ nu. told_flow nu result) (H.moment host.old) (H.moment host.new) }
        ensures more { cells (H.moment host.old) ≤ cells (H.moment host.new) }
        ensures exists { IfOk result (λ f. flow_needs f ≤ cells (H.moment host.new)) }
        ensures thrown { IfErr result (λ x. exit_needs x ≤ cells (H.moment host.new)) }
        ensures sound { H.is_sound host.new }
    {
        match s {
            Some(s) => self.stmt(codes, host, here, s),
            None => Ok(Flow::Normal),
        }
    }

    /// `if` (12.5).
    pub fn choice(
        &self,
        codes: &Codes,
        host: &mut H,
        here: Here,
        e: &Expr,
        a: &Stmt,
        b: Option<&Stmt>,
    ) -> Result<Flow, Exit>
        requires below { Nests H H.moment H.is_sound (table_in codes.now) self.now.left (E.pre self.now.expr) (E.post self.now.expr) (S.pre self.now.stmt) (S.post self.now.stmt) }
        requires sound { H.is_sound host.old }
        requires here { here_needs here ≤ cells (H.moment host.old) }
        ensures ran { Runs (λ nu. if_row (table_in codes.now) (expr_to (table_in codes.now) self.now.left) (stmt_to (table_in codes.now) self.now.left) (here_in nu here) e.now a.now (option_copied b.entry)) (λ nu. told_flow nu result) (H.moment host.old) (H.moment host.new) }
        ensures more { cells (H.moment host.old) ≤ cells (H.moment host.new) }
        ensures exists { IfOk result (λ f. flow_needs f ≤ cells (H.moment host.new)) }
        ensures thrown { IfErr result (λ x. exit_needs x ≤ cells (H.moment host.new)) }
        ensures sound { H.is_sound host.new }
    {
        let value = self.expr(codes, host, here, e)?;
        if truth(&value) {
            self.stmt(codes, host, here, a)
        } else {
            self.optional(codes, host, here, b)
        }
    }

    /// The body of a loop: where it ends with `continue`, the loop goes on (12.7).
    pub fn body(&self, codes: &Codes, host: &mut H, here: Here, s: &Stmt) -> Result<Flow, Exit>
        requires below { Nests H H.moment H.is_sound (table_in codes.now) self.now.left (E.pre self.now.expr) (E.post self.now.expr) (S.pre self.now.stmt) (S.post self.now.stmt) }
        requires sound { H.is_sound host.old }
        requires here { here_needs here ≤ cells (H.moment host.old) }
        ensures ran { Runs (λ nu. body_of (table_in codes.now) (expr_to (table_in codes.now) self.now.left) (stmt_to (table_in codes.now) self.now.left) (here_in nu here) s.now) (λ nu. told_flow nu result) (H.moment host.old) (H.moment host.new) }
        ensures more { cells (H.moment host.old) ≤ cells (H.moment host.new) }
        ensures exists { IfOk result (λ f. flow_needs f ≤ cells (H.moment host.new)) }
        ensures thrown { IfErr result (λ x. exit_needs x ≤ cells (H.moment host.new)) }
        ensures paid { OnOk result ((H.moment host.new).heap.left < (H.moment host.old).heap.left) }
        ensures sound { H.is_sound host.new }
    {
        match self.stmt(codes, host, here, s)? {
            Flow::Continue => Ok(Flow::Normal),
            other => Ok(other),
        }
    }

    /// `return` (12.9).
    pub fn returning(
        &self,
        codes: &Codes,
        host: &mut H,
        here: Here,
        e: Option<&Expr>,
    ) -> Result<Flow, Exit>
        requires below { Nests H H.moment H.is_sound (table_in codes.now) self.now.left (E.pre self.now.expr) (E.post self.now.expr) (S.pre self.now.stmt) (S.post self.now.stmt) }
        requires sound { H.is_sound host.old }
        requires here { here_needs here ≤ cells (H.moment host.old) }
        ensures ran { Runs (λ nu. return_row (table_in codes.now) (expr_to (table_in codes.now) self.now.left) (stmt_to (table_in codes.now) self.now.left) (here_in nu here) (option_copied e.entry)) (λ nu. told_flow nu result) (H.moment host.old) (H.moment host.new) }
        ensures more { cells (H.moment host.old) ≤ cells (H.moment host.new) }
        ensures exists { IfOk result (λ f. flow_needs f ≤ cells (H.moment host.new)) }
        ensures thrown { IfErr result (λ x. exit_needs x ≤ cells (H.moment host.new)) }
        ensures sound { H.is_sound host.new }
    {
        let Some(e) = e else {
            return Ok(Flow::Return(Value::Undefined));
        };
        let value = self.expr(codes, host, here, e)?;
        Ok(Flow::Return(value))
    }

    /// `throw` (12.13).
    pub fn throwing(&self, codes: &Codes, host: &mut H, here: Here, e: &Expr) -> Result<Flow, Exit>
        requires below { Nests H H.moment H.is_sound (table_in codes.now) self.now.left (E.pre self.now.expr) (E.post self.now.expr) (S.pre self.now.stmt) (S.post self.now.stmt) }
        requires sound { H.is_sound host.old }
        requires here { here_needs here ≤ cells (H.moment host.old) }
        ensures ran { Runs (λ nu. throw_row (table_in codes.now) (expr_to (table_in codes.now) self.now.left) (stmt_to (table_in codes.now) self.now.left) (here_in nu here) e.now) (λ nu. told_flow nu result) (H.moment host.old) (H.moment host.new) }
        ensures more { cells (H.moment host.old) ≤ cells (H.moment host.new) }
        ensures exists { IfOk result (λ f. flow_needs f ≤ cells (H.moment host.new)) }
        ensures thrown { IfErr result (λ x. exit_needs x ≤ cells (H.moment host.new)) }
        ensures sound { H.is_sound host.new }
    {
        let value = self.expr(codes, host, here, e)?;
        Err(Exit::Throw(value))
    }
}

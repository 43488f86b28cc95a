//! The row of `for` (ECMA-262 3rd ed. 12.6.3), and of do-while (12.6.1).
ghost use Rattle.std.specs.Prelude.{◌≡◌, ◌<◌, ◌≤◌, IfOk, IfErr, OnOk, Some};
ghost use Rattle.std.specs.Option.{option_copied};
ghost use Rattle.turk_base.specs.Prog.{Then, nothing};
ghost use Rattle.js_tree.specs.Rows.{expr_to, stmt_to};
ghost use Rattle.js_tree.specs.Statements.{body_of, tested, looped, stepped_by, do_while_row, for_row};
ghost use Rattle.value_cells.specs.Needs.{needs};
ghost use Rattle.run_host.specs.Moment.{cells};
ghost use Rattle.run_host.specs.Told.{told_value, told_flow, here_in, here_needs, flow_needs, exit_needs};
ghost use Rattle.run_host.specs.Did.{Runs};
ghost use Rattle.tree_rows.specs.Codes.{table_in};
ghost use Rattle.tree_rows.specs.Nests.{Nests};

use crate::below::Below;
use crate::codes::Codes;
use host_steps::values::truth;
use js_tree::{Expr, ForStart, Stmt};
use run_host::{Exit, Flow, Here, Host};
use std::alloc::Global;
use value_cells::Value;

impl<
    H: Host,
    E: Fn(Global, &Codes, u32, &mut H, Here, &Expr) -> Result<Value, Exit>,
    S: Fn(Global, &Codes, u32, &mut H, Here, &Stmt) -> Result<Flow, Exit>,
> Below<H, E, S> {
    /// A loop's test at the end of a turn.
    fn again(&self, codes: &Codes, host: &mut H, here: Here, e: &Expr) -> Result<Flow, Exit>
        requires below { Nests H H.moment H.is_sound (table_in codes.now) self.now.left (E.pre self.now.expr) (E.post self.now.expr) (S.pre self.now.stmt) (S.post self.now.stmt) }
        requires sound { H.is_sound host.old }
        requires here { here_needs here ≤ cells (H.moment host.old) }
        ensures ran { Runs (λ nu. tested (table_in codes.now) (expr_to (table_in codes.now) self.now.left) (stmt_to (table_in codes.now) self.now.left) (here_in nu here) (Some e.now) nothing) (λ nu. told_flow nu result) (H.moment host.old) (H.moment host.new) }
        ensures exists { IfOk result (λ f. flow_needs f ≤ cells (H.moment host.new)) }
        ensures more { cells (H.moment host.old) ≤ cells (H.moment host.new) }
        ensures thrown { IfErr result (λ x. exit_needs x ≤ cells (H.moment host.new)) }
        ensures sound { H.is_sound host.new }
    {
        let value = self.expr(codes, host, here, e)?;
        if truth(&value) {
            Ok(Flow::Normal)
        } else {
            Ok(Flow::Break)
        }
    }

    /// One turn of do-while.
    fn do_while_turn(
        &self,
        codes: &Codes,
        host: &mut H,
        here: Here,
        s: &Stmt,
        e: &Expr,
    ) -> Result<Flow, Exit>
        requires below { Nests H H.moment H.is_sound (table_in codes.now) self.now.left (E.pre self.now.expr) (E.post self.now.expr) (S.pre self.now.stmt) (S.post self.now.stmt) }
        requires sound { H.is_sound host.old }
        requires here { here_needs here ≤ cells (H.moment host.old) }
        ensures ran { Runs (λ nu. Then (body_of (table_in codes.now) (expr_to (table_in codes.now) self.now.left) (stmt_to (table_in codes.now) self.now.left) (here_in nu here) s.now) (λ _. tested (table_in codes.now) (expr_to (table_in codes.now) self.now.left) (stmt_to (table_in codes.now) self.now.left) (here_in nu here) (Some e.now) nothing)) (λ nu. told_flow nu result) (H.moment host.old) (H.moment host.new) }
        ensures exists { IfOk result (λ f. flow_needs f ≤ cells (H.moment host.new)) }
        ensures paid { OnOk result ((H.moment host.new).heap.left < (H.moment host.old).heap.left) }
        ensures more { cells (H.moment host.old) ≤ cells (H.moment host.new) }
        ensures thrown { IfErr result (λ x. exit_needs x ≤ cells (H.moment host.new)) }
        ensures sound { H.is_sound host.new }
    {
        match self.body(codes, host, here, s)? {
            Flow::Normal => self.again(codes, host, here, e),
            other => Ok(other),
        }
    }

    /// do-while (12.6.1).
    pub fn do_while(
        &self,
        codes: &Codes,
        host: &mut H,
        here: Here,
        s: &Stmt,
        e: &Expr,
    ) -> Result<Flow, Exit>
        requires below { Nests H H.moment H.is_sound (table_in codes.now) self.now.left (E.pre self.now.expr) (E.post self.now.expr) (S.pre self.now.stmt) (S.post self.now.stmt) }
        requires sound { H.is_sound host.old }
        requires here { here_needs here ≤ cells (H.moment host.old) }
        ensures ran { Runs (λ nu. do_while_row (table_in codes.now) (expr_to (table_in codes.now) self.now.left) (stmt_to (table_in codes.now) self.now.left) (here_in nu here) s.now e.now) (λ nu. told_flow nu result) (H.moment host.old) (H.moment host.new) }
        ensures exists { IfOk result (λ f. flow_needs f ≤ cells (H.moment host.new)) }
        ensures more { cells (H.moment host.old) ≤ cells (H.moment host.new) }
        ensures thrown { IfErr result (λ x. exit_needs x ≤ cells (H.moment host.new)) }
        ensures sound { H.is_sound host.new }
    {
        loop {
            match self.do_while_turn(codes, host, here, s, e)? {
                Flow::Normal => {}
                Flow::Break => return Ok(Flow::Normal),
                other => return Ok(other),
            }
        }
    }

    /// The step after a turn of `for`, where there is one.
    fn stepped(
        &self,
        codes: &Codes,
        host: &mut H,
        here: Here,
        step: Option<&Expr>,
    ) -> Result<Flow, Exit>
        requires below { Nests H H.moment H.is_sound (table_in codes.now) self.now.left (E.pre self.now.expr) (E.post self.now.expr) (S.pre self.now.stmt) (S.post self.now.stmt) }
        requires sound { H.is_sound host.old }
        requires here { here_needs here ≤ cells (H.moment host.old) }
        ensures ran { Runs (λ nu. stepped_by (table_in codes.now) (expr_to (table_in codes.now) self.now.left) (stmt_to (table_in codes.now) self.now.left) (here_in nu here) (option_copied step.entry)) (λ nu. told_flow nu result) (H.moment host.old) (H.moment host.new) }
        ensures exists { IfOk result (λ f. flow_needs f ≤ cells (H.moment host.new)) }
        ensures more { cells (H.moment host.old) ≤ cells (H.moment host.new) }
        ensures thrown { IfErr result (λ x. exit_needs x ≤ cells (H.moment host.new)) }
        ensures sound { H.is_sound host.new }
    {
        match step {
            Some(e) => self.expression(codes, host, here, e),
            None => Ok(Flow::Normal),
        }
    }

    /// The body of a `for` and its step.
    fn for_body(
        &self,
        codes: &Codes,
        host: &mut H,
        here: Here,
        step: Option<&Expr>,
        s: &Stmt,
    ) -> Result<Flow, Exit>
        requires below { Nests H H.moment H.is_sound (table_in codes.now) self.now.left (E.pre self.now.expr) (E.post self.now.expr) (S.pre self.now.stmt) (S.post self.now.stmt) }
        requires sound { H.is_sound host.old }
        requires here { here_needs here ≤ cells (H.moment host.old) }
        ensures ran { Runs (λ nu. Then (body_of (table_in codes.now) (expr_to (table_in codes.now) self.now.left) (stmt_to (table_in codes.now) self.now.left) (here_in nu here) s.now) (λ _. stepped_by (table_in codes.now) (expr_to (table_in codes.now) self.now.left) (stmt_to (table_in codes.now) self.now.left) (here_in nu here) (option_copied step.entry))) (λ nu. told_flow nu result) (H.moment host.old) (H.moment host.new) }
        ensures exists { IfOk result (λ f. flow_needs f ≤ cells (H.moment host.new)) }
        ensures paid { OnOk result ((H.moment host.new).heap.left < (H.moment host.old).heap.left) }
        ensures more { cells (H.moment host.old) ≤ cells (H.moment host.new) }
        ensures thrown { IfErr result (λ x. exit_needs x ≤ cells (H.moment host.new)) }
        ensures sound { H.is_sound host.new }
    {
        match self.body(codes, host, here, s)? {
            Flow::Normal => self.stepped(codes, host, here, step),
            other => Ok(other),
        }
    }

    /// One turn of `for`.
    fn for_turn(
        &self,
        codes: &Codes,
        host: &mut H,
        here: Here,
        test: Option<&Expr>,
        step: Option<&Expr>,
        s: &Stmt,
    ) -> Result<Flow, Exit>
        requires below { Nests H H.moment H.is_sound (table_in codes.now) self.now.left (E.pre self.now.expr) (E.post self.now.expr) (S.pre self.now.stmt) (S.post self.now.stmt) }
        requires sound { H.is_sound host.old }
        requires here { here_needs here ≤ cells (H.moment host.old) }
        ensures ran { Runs (λ nu. tested (table_in codes.now) (expr_to (table_in codes.now) self.now.left) (stmt_to (table_in codes.now) self.now.left) (here_in nu here) (option_copied test.entry) (Then (body_of (table_in codes.now) (expr_to (table_in codes.now) self.now.left) (stmt_to (table_in codes.now) self.now.left) (here_in nu here) s.now) (λ _. stepped_by (table_in codes.now) (expr_to (table_in codes.now) self.now.left) (stmt_to (table_in codes.now) self.now.left) (here_in nu here) (option_copied step.entry)))) (λ nu. told_flow nu result) (H.moment host.old) (H.moment host.new) }
        ensures exists { IfOk result (λ f. flow_needs f ≤ cells (H.moment host.new)) }
        ensures paid { OnOk result ((H.moment host.new).heap.left < (H.moment host.old).heap.left) }
        ensures more { cells (H.moment host.old) ≤ cells (H.moment host.new) }
        ensures thrown { IfErr result (λ x. exit_needs x ≤ cells (H.moment host.new)) }
        ensures sound { H.is_sound host.new }
    {
        let Some(e) = test else {
            return self.for_body(codes, host, here, step, s);
        };
        let value = self.expr(codes, host, here, e)?;
        if truth(&value) {
            self.for_body(codes, host, here, step, s)
        } else {
            Ok(Flow::Break)
        }
    }

    /// The turns of `for`.
    fn for_turns(
        &self,
        codes: &Codes,
        host: &mut H,
        here: Here,
        test: Option<&Expr>,
        step: Option<&Expr>,
        s: &Stmt,
    ) -> Result<Flow, Exit>
        requires below { Nests H H.moment H.is_sound (table_in codes.now) self.now.left (E.pre self.now.expr) (E.post self.now.expr) (S.pre self.now.stmt) (S.post self.now.stmt) }
        requires sound { H.is_sound host.old }
        requires here { here_needs here ≤ cells (H.moment host.old) }
        ensures ran { Runs (λ nu. looped (table_in codes.now) (expr_to (table_in codes.now) self.now.left) (stmt_to (table_in codes.now) self.now.left) (tested (table_in codes.now) (expr_to (table_in codes.now) self.now.left) (stmt_to (table_in codes.now) self.now.left) (here_in nu here) (option_copied test.entry) (Then (body_of (table_in codes.now) (expr_to (table_in codes.now) self.now.left) (stmt_to (table_in codes.now) self.now.left) (here_in nu here) s.now) (λ _. stepped_by (table_in codes.now) (expr_to (table_in codes.now) self.now.left) (stmt_to (table_in codes.now) self.now.left) (here_in nu here) (option_copied step.entry))))) (λ nu. told_flow nu result) (H.moment host.old) (H.moment host.new) }
        ensures exists { IfOk result (λ f. flow_needs f ≤ cells (H.moment host.new)) }
        ensures more { cells (H.moment host.old) ≤ cells (H.moment host.new) }
        ensures thrown { IfErr result (λ x. exit_needs x ≤ cells (H.moment host.new)) }
        ensures sound { H.is_sound host.new }
    {
        loop {
            match self.for_turn(codes, host, here, test, step, s)? {
                Flow::Normal => {}
                Flow::Break => return Ok(Flow::Normal),
                other => return Ok(other),
            }
        }
    }

    /// `for` (12.6.3).
    pub fn for_loop(
        &self,
        codes: &Codes,
        host: &mut H,
        here: Here,
        start: &ForStart,
        test: Option<&Expr>,
        step: Option<&Expr>,
        s: &Stmt,
    ) -> Result<Flow, Exit>
        requires below { Nests H H.moment H.is_sound (table_in codes.now) self.now.left (E.pre self.now.expr) (E.post self.now.expr) (S.pre self.now.stmt) (S.post self.now.stmt) }
        requires sound { H.is_sound host.old }
        requires here { here_needs here ≤ cells (H.moment host.old) }
        ensures ran { Runs (λ nu. for_row (table_in codes.now) (expr_to (table_in codes.now) self.now.left) (stmt_to (table_in codes.now) self.now.left) (here_in nu here) start.now (option_copied test.entry) (option_copied step.entry) s.now) (λ nu. told_flow nu result) (H.moment host.old) (H.moment host.new) }
        ensures exists { IfOk result (λ f. flow_needs f ≤ cells (H.moment host.new)) }
        ensures more { cells (H.moment host.old) ≤ cells (H.moment host.new) }
        ensures thrown { IfErr result (λ x. exit_needs x ≤ cells (H.moment host.new)) }
        ensures sound { H.is_sound host.new }
    {
        match start {
            ForStart::NoStart => self.for_turns(codes, host, here, test, step, s),
            ForStart::ValueStart(e) => {
                self.expr(codes, host, here, e)?;
                self.for_turns(codes, host, here, test, step, s)
            }
            ForStart::VarStart(begin) => match self.stmt(codes, host, here, begin.get())? {
                Flow::Normal => self.for_turns(codes, host, here, test, step, s),
                other => Ok(other),
            },
        }
    }
}

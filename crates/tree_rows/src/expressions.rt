//! The rows of operators and members (ECMA-262 3rd ed. 11).
ghost use Rattle.std.specs.Prelude.{◌≡◌, ◌<◌, ◌≤◌, IfOk, IfErr, Some, None};
ghost use Rattle.std.specs.Option.{option_copied};
ghost use Rattle.js_tree.specs.Rows.{expr_to, stmt_to};
ghost use Rattle.js_tree.specs.Expressions.{and_row, or_row, conditional_row, member_row, delete_row, typeof_row, assign_row};
ghost use Rattle.value_cells.specs.Needs.{needs};
ghost use Rattle.value_cells.specs.Seen.{val_in};
ghost use Rattle.run_host.specs.Moment.{cells};
ghost use Rattle.run_host.specs.Told.{told_value, told_flow, here_in, here_needs, flow_needs, exit_needs};
ghost use Rattle.run_host.specs.Did.{Runs};
ghost use Rattle.run_host.specs.Steps.{Takes};
ghost use Rattle.tree_rows.specs.Codes.{table_in};
ghost use Rattle.tree_rows.specs.Nests.{Nests};

use crate::below::Below;
use crate::codes::Codes;
use host_steps::places::{get_place, set_place};
use host_steps::properties::{delete_property, get_property};
use host_steps::values::truth;
use js_tree::{Expr, Key, Stmt};
use run_host::{Exit, Flow, Here, Host};
use std::alloc::Global;
use value_cells::Value;

impl<
    H: Host,
    E: Fn(Global, &Codes, u32, &mut H, Here, &Expr) -> Result<Value, Exit>,
    S: Fn(Global, &Codes, u32, &mut H, Here, &Stmt) -> Result<Flow, Exit>,
> Below<H, E, S> {
    /// `&&` (11.11).
    pub fn and(
        &self,
        codes: &Codes,
        host: &mut H,
        here: Here,
        a: &Expr,
        b: &Expr,
    ) -> Result<Value, Exit>
        requires below { Nests H H.moment H.is_sound (table_in codes.now) self.now.left (E.pre self.now.expr) (E.post self.now.expr) (S.pre self.now.stmt) (S.post self.now.stmt) }
        requires sound { H.is_sound host.old }
        requires here { here_needs here ≤ cells (H.moment host.old) }
        ensures ran { Runs (λ nu. and_row (expr_to (table_in codes.now) self.now.left) (here_in nu here) a.now b.now) (λ nu. told_value nu result) (H.moment host.old) (H.moment host.new) }
        ensures exists { IfOk result (λ v. needs v ≤ cells (H.moment host.new)) }
        ensures more { cells (H.moment host.old) ≤ cells (H.moment host.new) }
        ensures thrown { IfErr result (λ x. exit_needs x ≤ cells (H.moment host.new)) }
        ensures sound { H.is_sound host.new }
    {
        let value = self.expr(codes, host, here, a)?;
        if truth(&value) {
            self.expr(codes, host, here, b)
        } else {
            Ok(value)
        }
    }

    /// `||` (11.11).
    pub fn or(
        &self,
        codes: &Codes,
        host: &mut H,
        here: Here,
        a: &Expr,
        b: &Expr,
    ) -> Result<Value, Exit>
        requires below { Nests H H.moment H.is_sound (table_in codes.now) self.now.left (E.pre self.now.expr) (E.post self.now.expr) (S.pre self.now.stmt) (S.post self.now.stmt) }
        requires sound { H.is_sound host.old }
        requires here { here_needs here ≤ cells (H.moment host.old) }
        ensures ran { Runs (λ nu. or_row (expr_to (table_in codes.now) self.now.left) (here_in nu here) a.now b.now) (λ nu. told_value nu result) (H.moment host.old) (H.moment host.new) }
        ensures exists { IfOk result (λ v. needs v ≤ cells (H.moment host.new)) }
        ensures more { cells (H.moment host.old) ≤ cells (H.moment host.new) }
        ensures thrown { IfErr result (λ x. exit_needs x ≤ cells (H.moment host.new)) }
        ensures sound { H.is_sound host.new }
    {
        let value = self.expr(codes, host, here, a)?;
        if truth(&value) {
            Ok(value)
        } else {
            self.expr(codes, host, here, b)
        }
    }

    /// `? :` (11.12).
    pub fn conditional(
        &self,
        codes: &Codes,
        host: &mut H,
        here: Here,
        t: &Expr,
        a: &Expr,
        b: &Expr,
    ) -> Result<Value, Exit>
        requires below { Nests H H.moment H.is_sound (table_in codes.now) self.now.left (E.pre self.now.expr) (E.post self.now.expr) (S.pre self.now.stmt) (S.post self.now.stmt) }
        requires sound { H.is_sound host.old }
        requires here { here_needs here ≤ cells (H.moment host.old) }
        ensures ran { Runs (λ nu. conditional_row (expr_to (table_in codes.now) self.now.left) (here_in nu here) t.now a.now b.now) (λ nu. told_value nu result) (H.moment host.old) (H.moment host.new) }
        ensures exists { IfOk result (λ v. needs v ≤ cells (H.moment host.new)) }
        ensures more { cells (H.moment host.old) ≤ cells (H.moment host.new) }
        ensures thrown { IfErr result (λ x. exit_needs x ≤ cells (H.moment host.new)) }
        ensures sound { H.is_sound host.new }
    {
        let value = self.expr(codes, host, here, t)?;
        if truth(&value) {
            self.expr(codes, host, here, a)
        } else {
            self.expr(codes, host, here, b)
        }
    }

    /// A member (11.2.1).
    pub fn property(
        &self,
        codes: &Codes,
        host: &mut H,
        here: Here,
        b: &Expr,
        k: &Key,
    ) -> Result<Value, Exit>
        requires below { Nests H H.moment H.is_sound (table_in codes.now) self.now.left (E.pre self.now.expr) (E.post self.now.expr) (S.pre self.now.stmt) (S.post self.now.stmt) }
        requires sound { H.is_sound host.old }
        requires here { here_needs here ≤ cells (H.moment host.old) }
        ensures ran { Runs (λ nu. member_row (expr_to (table_in codes.now) self.now.left) (here_in nu here) b.now k.now) (λ nu. told_value nu result) (H.moment host.old) (H.moment host.new) }
        ensures exists { IfOk result (λ v. needs v ≤ cells (H.moment host.new)) }
        ensures more { cells (H.moment host.old) ≤ cells (H.moment host.new) }
        ensures thrown { IfErr result (λ x. exit_needs x ≤ cells (H.moment host.new)) }
        ensures sound { H.is_sound host.new }
    {
        let (base, key) = self.member(codes, host, here, b, k)?;
        get_property(host, &base, &key)
    }

    /// `delete` (11.4.1).
    pub fn delete(
        &self,
        codes: &Codes,
        host: &mut H,
        here: Here,
        b: &Expr,
        k: &Key,
    ) -> Result<Value, Exit>
        requires below { Nests H H.moment H.is_sound (table_in codes.now) self.now.left (E.pre self.now.expr) (E.post self.now.expr) (S.pre self.now.stmt) (S.post self.now.stmt) }
        requires sound { H.is_sound host.old }
        requires here { here_needs here ≤ cells (H.moment host.old) }
        ensures ran { Runs (λ nu. delete_row (expr_to (table_in codes.now) self.now.left) (here_in nu here) b.now k.now) (λ nu. told_value nu result) (H.moment host.old) (H.moment host.new) }
        ensures exists { IfOk result (λ v. needs v ≤ cells (H.moment host.new)) }
        ensures more { cells (H.moment host.old) ≤ cells (H.moment host.new) }
        ensures thrown { IfErr result (λ x. exit_needs x ≤ cells (H.moment host.new)) }
        ensures sound { H.is_sound host.new }
    {
        let (base, key) = self.member(codes, host, here, b, k)?;
        delete_property(host, &base, &key)
    }

    /// `=` (11.13.1).
    pub fn assign(
        &self,
        codes: &Codes,
        host: &mut H,
        here: Here,
        t: &Expr,
        e: &Expr,
    ) -> Result<Value, Exit>
        requires below { Nests H H.moment H.is_sound (table_in codes.now) self.now.left (E.pre self.now.expr) (E.post self.now.expr) (S.pre self.now.stmt) (S.post self.now.stmt) }
        requires sound { H.is_sound host.old }
        requires here { here_needs here ≤ cells (H.moment host.old) }
        ensures ran { Runs (λ nu. assign_row (expr_to (table_in codes.now) self.now.left) (here_in nu here) None t.now e.now) (λ nu. told_value nu result) (H.moment host.old) (H.moment host.new) }
        ensures exists { IfOk result (λ v. needs v ≤ cells (H.moment host.new)) }
        ensures more { cells (H.moment host.old) ≤ cells (H.moment host.new) }
        ensures thrown { IfErr result (λ x. exit_needs x ≤ cells (H.moment host.new)) }
        ensures sound { H.is_sound host.new }
    {
        let place = self.place(codes, host, here, t)?;
        let value = self.expr(codes, host, here, e)?;
        set_place(self.alloc, host, here, &place, &value)?;
        Ok(value)
    }
}

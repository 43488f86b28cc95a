//! What runs the nodes below a node, and the simplest rows.
ghost use Rattle.std.specs.Prelude.{◌≡◌, ◌<◌, ◌≤◌, IfOk, IfErr, OnOk};
ghost use Rattle.js_tree.specs.Rows.{expr_to, stmt_to};
ghost use Rattle.js_tree.specs.Calls.{list};
ghost use Rattle.js_tree.specs.Expressions.{void_row, comma_row};
ghost use Rattle.value_cells.specs.Needs.{needs};
ghost use Rattle.run_host.specs.Moment.{cells};
ghost use Rattle.run_host.specs.Told.{told_value, told_flow, here_in, here_needs, flow_needs, exit_needs};
ghost use Rattle.run_host.specs.Did.{Runs};
ghost use Rattle.tree_rows.specs.Codes.{table_in};
ghost use Rattle.tree_rows.specs.Nests.{Nests};

use crate::codes::Codes;
use js_tree::{Expr, Stmt};
use run_host::{Exit, Flow, Here, Host};
use std::alloc::Global;
use std::marker::PhantomData;
use value_cells::Value;

/// What runs the nodes below a node, with so many more nodes open at most.
#[derive(Drop)]
pub struct Below<H, E, S> {
    pub alloc: Global,
    pub left: u32,
    pub expr: E,
    pub stmt: S,
    pub host: PhantomData<H>,
}

impl<
    H: Host,
    E: Fn(Global, &Codes, u32, &mut H, Here, &Expr) -> Result<Value, Exit>,
    S: Fn(Global, &Codes, u32, &mut H, Here, &Stmt) -> Result<Flow, Exit>,
> Below<H, E, S> {
    /// An expression below.
    pub fn expr(&self, codes: &Codes, host: &mut H, here: Here, e: &Expr) -> Result<Value, Exit>
        requires below { Nests H H.moment H.is_sound (table_in codes.now) self.now.left (E.pre self.now.expr) (E.post self.now.expr) (S.pre self.now.stmt) (S.post self.now.stmt) }
        requires sound { H.is_sound host.old }
        requires here { here_needs here ≤ cells (H.moment host.old) }
        ensures ran { Runs (λ nu. expr_to (table_in codes.now) self.now.left (here_in nu here) e.now) (λ nu. told_value nu result) (H.moment host.old) (H.moment host.new) }
        ensures more { cells (H.moment host.old) ≤ cells (H.moment host.new) }
        ensures exists { IfOk result (λ v. needs v ≤ cells (H.moment host.new)) }
        ensures thrown { IfErr result (λ x. exit_needs x ≤ cells (H.moment host.new)) }
        ensures paid { OnOk result ((H.moment host.new).heap.left < (H.moment host.old).heap.left) }
        ensures sound { H.is_sound host.new }
    {
        (self.expr)(self.alloc, codes, self.left, host, here, e)
    }

    /// A statement below.
    pub fn stmt(&self, codes: &Codes, host: &mut H, here: Here, s: &Stmt) -> Result<Flow, Exit>
        requires below { Nests H H.moment H.is_sound (table_in codes.now) self.now.left (E.pre self.now.expr) (E.post self.now.expr) (S.pre self.now.stmt) (S.post self.now.stmt) }
        requires sound { H.is_sound host.old }
        requires here { here_needs here ≤ cells (H.moment host.old) }
        ensures ran { Runs (λ nu. stmt_to (table_in codes.now) self.now.left (here_in nu here) s.now) (λ nu. told_flow nu result) (H.moment host.old) (H.moment host.new) }
        ensures more { cells (H.moment host.old) ≤ cells (H.moment host.new) }
        ensures exists { IfOk result (λ f. flow_needs f ≤ cells (H.moment host.new)) }
        ensures thrown { IfErr result (λ x. exit_needs x ≤ cells (H.moment host.new)) }
        ensures paid { OnOk result ((H.moment host.new).heap.left < (H.moment host.old).heap.left) }
        ensures sound { H.is_sound host.new }
    {
        (self.stmt)(self.alloc, codes, self.left, host, here, s)
    }

    /// `void e` (ECMA-262 3rd ed. 11.4.2).
    pub fn void(&self, codes: &Codes, host: &mut H, here: Here, e: &Expr) -> Result<Value, Exit>
        requires below { Nests H H.moment H.is_sound (table_in codes.now) self.now.left (E.pre self.now.expr) (E.post self.now.expr) (S.pre self.now.stmt) (S.post self.now.stmt) }
        requires sound { H.is_sound host.old }
        requires here { here_needs here ≤ cells (H.moment host.old) }
        ensures ran { Runs (λ nu. void_row (expr_to (table_in codes.now) self.now.left) (here_in nu here) e.now) (λ nu. told_value nu result) (H.moment host.old) (H.moment host.new) }
        ensures more { cells (H.moment host.old) ≤ cells (H.moment host.new) }
        ensures exists { IfOk result (λ v. needs v ≤ cells (H.moment host.new)) }
        ensures thrown { IfErr result (λ x. exit_needs x ≤ cells (H.moment host.new)) }
        ensures sound { H.is_sound host.new }
    {
        let _value = self.expr(codes, host, here, e)?;
        Ok(Value::Undefined)
    }

    /// The comma operator (11.14).
    pub fn comma(
        &self,
        codes: &Codes,
        host: &mut H,
        here: Here,
        a: &Expr,
        b: &Expr,
    ) -> Result<Value, Exit>
        requires below { Nests H H.moment H.is_sound (table_in codes.now) self.now.left (E.pre self.now.expr) (E.post self.now.expr) (S.pre self.now.stmt) (S.post self.now.stmt) }
        requires sound { H.is_sound host.old }
        requires here { here_needs here ≤ cells (H.moment host.old) }
        ensures ran { Runs (λ nu. comma_row (expr_to (table_in codes.now) self.now.left) (here_in nu here) a.now b.now) (λ nu. told_value nu result) (H.moment host.old) (H.moment host.new) }
        ensures more { cells (H.moment host.old) ≤ cells (H.moment host.new) }
        ensures exists { IfOk result (λ v. needs v ≤ cells (H.moment host.new)) }
        ensures thrown { IfErr result (λ x. exit_needs x ≤ cells (H.moment host.new)) }
        ensures sound { H.is_sound host.new }
    {
        self.expr(codes, host, here, a)?;
        self.expr(codes, host, here, b)
    }

    /// Statements in order, to the first that ends otherwise than normally (12.1).
    pub fn list(&self, codes: &Codes, host: &mut H, here: Here, all: &[Stmt]) -> Result<Flow, Exit>
        requires below { Nests H H.moment H.is_sound (table_in codes.now) self.now.left (E.pre self.now.expr) (E.post self.now.expr) (S.pre self.now.stmt) (S.post self.now.stmt) }
        requires sound { H.is_sound host.old }
        requires here { here_needs here ≤ cells (H.moment host.old) }
        ensures ran { Runs (λ nu. list (table_in codes.now) (stmt_to (table_in codes.now) self.now.left) (here_in nu here) all.now) (λ nu. told_flow nu result) (H.moment host.old) (H.moment host.new) }
        ensures more { cells (H.moment host.old) ≤ cells (H.moment host.new) }
        ensures exists { IfOk result (λ f. flow_needs f ≤ cells (H.moment host.new)) }
        ensures thrown { IfErr result (λ x. exit_needs x ≤ cells (H.moment host.new)) }
        ensures sound { H.is_sound host.new }
    {
        for one in all {
            match self.stmt(codes, host, here, one)? {
                Flow::Normal => {}
                other => return Ok(other),
            }
        }
        Ok(Flow::Normal)
    }
}

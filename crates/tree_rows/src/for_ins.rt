//! The row of `for` .. `in` (ECMA-262 3rd ed. 12.6.4).
ghost use Rattle.std.specs.Prelude.{◌≡◌, ◌<◌, ◌≤◌, IfOk, IfErr, is_some};
ghost use Rattle.turk_base.specs.Prog.{Get, Ask};
ghost use Rattle.js_tree.specs.declared.ForTarget.{out-ForTarget};
ghost use Rattle.js_tree.specs.Rows.{expr_to, stmt_to};
ghost use Rattle.js_tree.specs.Statements.{assigned, body_of, key_turn, key_turns, keys_of, for_in_row};
ghost use Rattle.value_cells.specs.Needs.{needs};
ghost use Rattle.value_cells.specs.Seen.{val_in};
ghost use Rattle.run_host.specs.Moment.{cells};
ghost use Rattle.run_host.specs.Told.{told_value, told_flow, here_in, here_needs, flow_needs, exit_needs};
ghost use Rattle.run_host.specs.Did.{Runs};
ghost use Rattle.run_host.specs.Steps.{Takes};
ghost use Rattle.tree_rows.specs.Codes.{table_in};
ghost use Rattle.tree_rows.specs.Nests.{Nests};

use crate::below::Below;
use crate::codes::Codes;
use host_steps::names::set_variable;
use host_steps::places::set_place;
use host_steps::properties::has_properties;
use js_tree::{Expr, ForTarget, Stmt};
use run_host::{Exit, Flow, Here, Host};
use std::alloc::Global;
use turk_base::Units;
use value_cells::Value;

/// Whether anything was found.
fn is_there(found: Option<Value>) -> bool
    ensures { result ≡ is_some found }
{
    found.is_some()
}

impl<
    H: Host,
    E: Fn(Global, &Codes, u32, &mut H, Here, &Expr) -> Result<Value, Exit>,
    S: Fn(Global, &Codes, u32, &mut H, Here, &Stmt) -> Result<Flow, Exit>,
> Below<H, E, S> {
    /// Sets the target of a turn to a key; the target is evaluated anew.
    fn assigned(
        &self,
        codes: &Codes,
        host: &mut H,
        here: Here,
        into: &ForTarget,
        key: &Units,
    ) -> Result<(), Exit>
        requires below { Nests H H.moment H.is_sound (table_in codes.now) self.now.left (E.pre self.now.expr) (E.post self.now.expr) (S.pre self.now.stmt) (S.post self.now.stmt) }
        requires sound { H.is_sound host.old }
        requires here { here_needs here ≤ cells (H.moment host.old) }
        ensures did { Takes (λ nu. assigned (table_in codes.now) (expr_to (table_in codes.now) self.now.left) (stmt_to (table_in codes.now) self.now.left) (here_in nu here) (out-ForTarget into.now) key.now) (λ nu u. u) result (H.moment host.old) (H.moment host.new) }
        ensures more { cells (H.moment host.old) ≤ cells (H.moment host.new) }
        ensures thrown { IfErr result (λ x. exit_needs x ≤ cells (H.moment host.new)) }
        ensures sound { H.is_sound host.new }
    {
        let text = Value::Text(key.copy(self.alloc)?);
        match into {
            ForTarget::TargetEach(e) => {
                let place = self.place(codes, host, here, e)?;
                set_place(self.alloc, host, here, &place, &text)
            }
            ForTarget::VarEach(x) => set_variable(self.alloc, host, here, x, &text),
        }
    }

    /// The turn of a key that the chain still has.
    fn found_turn(
        &self,
        codes: &Codes,
        host: &mut H,
        here: Here,
        into: &ForTarget,
        s: &Stmt,
        key: &Units,
    ) -> Result<Flow, Exit>
        requires below { Nests H H.moment H.is_sound (table_in codes.now) self.now.left (E.pre self.now.expr) (E.post self.now.expr) (S.pre self.now.stmt) (S.post self.now.stmt) }
        requires sound { H.is_sound host.old }
        requires here { here_needs here ≤ cells (H.moment host.old) }
        ensures ran { Runs (λ nu. assigned (table_in codes.now) (expr_to (table_in codes.now) self.now.left) (stmt_to (table_in codes.now) self.now.left) (here_in nu here) (out-ForTarget into.now) key.now (λ _. body_of (table_in codes.now) (expr_to (table_in codes.now) self.now.left) (stmt_to (table_in codes.now) self.now.left) (here_in nu here) s.now)) (λ nu. told_flow nu result) (H.moment host.old) (H.moment host.new) }
        ensures exists { IfOk result (λ f. flow_needs f ≤ cells (H.moment host.new)) }
        ensures more { cells (H.moment host.old) ≤ cells (H.moment host.new) }
        ensures thrown { IfErr result (λ x. exit_needs x ≤ cells (H.moment host.new)) }
        ensures sound { H.is_sound host.new }
    {
        self.assigned(codes, host, here, into, key)?;
        self.body(codes, host, here, s)
    }

    /// The turn of a key, which the chain must still have.
    fn key_turn(
        &self,
        codes: &Codes,
        host: &mut H,
        here: Here,
        into: &ForTarget,
        s: &Stmt,
        cell: u32,
        key: &Units,
    ) -> Result<Flow, Exit>
        requires below { Nests H H.moment H.is_sound (table_in codes.now) self.now.left (E.pre self.now.expr) (E.post self.now.expr) (S.pre self.now.stmt) (S.post self.now.stmt) }
        requires sound { H.is_sound host.old }
        requires here { here_needs here ≤ cells (H.moment host.old) }
        requires cell { cell < cells (H.moment host.old) }
        ensures ran { Runs (λ nu. Ask (Get (nu cell) key.now) (λ found. key_turn (table_in codes.now) (expr_to (table_in codes.now) self.now.left) (stmt_to (table_in codes.now) self.now.left) (here_in nu here) (out-ForTarget into.now) s.now key.now found)) (λ nu. told_flow nu result) (H.moment host.old) (H.moment host.new) }
        ensures exists { IfOk result (λ f. flow_needs f ≤ cells (H.moment host.new)) }
        ensures more { cells (H.moment host.old) ≤ cells (H.moment host.new) }
        ensures thrown { IfErr result (λ x. exit_needs x ≤ cells (H.moment host.new)) }
        ensures sound { H.is_sound host.new }
    {
        if is_there(host.get(cell, key)?) {
            self.found_turn(codes, host, here, into, s, key)
        } else {
            Ok(Flow::Normal)
        }
    }

    /// The turns of keys, in order.
    fn key_turns(
        &self,
        codes: &Codes,
        host: &mut H,
        here: Here,
        into: &ForTarget,
        s: &Stmt,
        cell: u32,
        keys: &[Units],
    ) -> Result<Flow, Exit>
        requires below { Nests H H.moment H.is_sound (table_in codes.now) self.now.left (E.pre self.now.expr) (E.post self.now.expr) (S.pre self.now.stmt) (S.post self.now.stmt) }
        requires sound { H.is_sound host.old }
        requires here { here_needs here ≤ cells (H.moment host.old) }
        requires cell { cell < cells (H.moment host.old) }
        ensures ran { Runs (λ nu. key_turns (table_in codes.now) (expr_to (table_in codes.now) self.now.left) (stmt_to (table_in codes.now) self.now.left) (here_in nu here) (out-ForTarget into.now) s.now (nu cell) keys.now) (λ nu. told_flow nu result) (H.moment host.old) (H.moment host.new) }
        ensures exists { IfOk result (λ f. flow_needs f ≤ cells (H.moment host.new)) }
        ensures more { cells (H.moment host.old) ≤ cells (H.moment host.new) }
        ensures thrown { IfErr result (λ x. exit_needs x ≤ cells (H.moment host.new)) }
        ensures sound { H.is_sound host.new }
    {
        for key in keys {
            match self.key_turn(codes, host, here, into, s, cell, key)? {
                Flow::Normal => {}
                other => return Ok(other),
            }
        }
        Ok(Flow::Normal)
    }

    /// The turns over an object's keys, none over a primitive.
    fn keys_of(
        &self,
        codes: &Codes,
        host: &mut H,
        here: Here,
        into: &ForTarget,
        s: &Stmt,
        value: &Value,
    ) -> Result<Flow, Exit>
        requires below { Nests H H.moment H.is_sound (table_in codes.now) self.now.left (E.pre self.now.expr) (E.post self.now.expr) (S.pre self.now.stmt) (S.post self.now.stmt) }
        requires sound { H.is_sound host.old }
        requires here { here_needs here ≤ cells (H.moment host.old) }
        requires value { needs value.now ≤ cells (H.moment host.old) }
        ensures ran { Runs (λ nu. keys_of (table_in codes.now) (expr_to (table_in codes.now) self.now.left) (stmt_to (table_in codes.now) self.now.left) (here_in nu here) (out-ForTarget into.now) s.now (val_in nu value.now)) (λ nu. told_flow nu result) (H.moment host.old) (H.moment host.new) }
        ensures exists { IfOk result (λ f. flow_needs f ≤ cells (H.moment host.new)) }
        ensures more { cells (H.moment host.old) ≤ cells (H.moment host.new) }
        ensures thrown { IfErr result (λ x. exit_needs x ≤ cells (H.moment host.new)) }
        ensures sound { H.is_sound host.new }
    {
        let Value::Object(cell) = value else {
            return Ok(Flow::Normal);
        };
        let keys = host.keys(*cell)?;
        match self.key_turns(codes, host, here, into, s, *cell, keys.as_slice())? {
            Flow::Break => Ok(Flow::Normal),
            other => Ok(other),
        }
    }

    /// `for` .. `in`.
    pub fn for_in(
        &self,
        codes: &Codes,
        host: &mut H,
        here: Here,
        into: &ForTarget,
        e: &Expr,
        s: &Stmt,
    ) -> Result<Flow, Exit>
        requires below { Nests H H.moment H.is_sound (table_in codes.now) self.now.left (E.pre self.now.expr) (E.post self.now.expr) (S.pre self.now.stmt) (S.post self.now.stmt) }
        requires sound { H.is_sound host.old }
        requires here { here_needs here ≤ cells (H.moment host.old) }
        ensures ran { Runs (λ nu. for_in_row (table_in codes.now) (expr_to (table_in codes.now) self.now.left) (stmt_to (table_in codes.now) self.now.left) (here_in nu here) into.now e.now s.now) (λ nu. told_flow nu result) (H.moment host.old) (H.moment host.new) }
        ensures exists { IfOk result (λ f. flow_needs f ≤ cells (H.moment host.new)) }
        ensures more { cells (H.moment host.old) ≤ cells (H.moment host.new) }
        ensures thrown { IfErr result (λ x. exit_needs x ≤ cells (H.moment host.new)) }
        ensures sound { H.is_sound host.new }
    {
        let value = self.expr(codes, host, here, e)?;
        has_properties(self.alloc, host, &value)?;
        self.keys_of(codes, host, here, into, s, &value)
    }
}

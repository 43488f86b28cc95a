//! Members and targets (ECMA-262 3rd ed. 11.2.1), and lists of arguments (11.2.4).
ghost use Rattle.std.specs.Prelude.{◌≡◌, ◌<◌, ◌≤◌, IfOk, IfErr, map};
ghost use Rattle.std.specs.Option.{option_copied};
ghost use Rattle.js_tree.specs.Rows.{expr_to, stmt_to};
ghost use Rattle.js_tree.specs.Expressions.{each, member, place};
ghost use Rattle.js_tree.specs.declared.ExprNode.TheOpen.{Key-F};
ghost use Rattle.js_tree.specs.declared.Key.{out-Key};
ghost use Rattle.value_cells.specs.Needs.{all_needs};
ghost use Rattle.host_steps.specs.Places.{place_in, place_needs};
ghost use Rattle.value_cells.specs.Needs.{needs};
ghost use Rattle.value_cells.specs.Seen.{val_in};
ghost use Rattle.run_host.specs.Moment.{cells};
ghost use Rattle.run_host.specs.Told.{told_value, told_flow, here_in, here_needs, flow_needs, exit_needs};
ghost use Rattle.run_host.specs.Did.{Runs};
ghost use Rattle.run_host.specs.Steps.{Takes};
ghost use Rattle.tree_rows.specs.Codes.{table_in};
ghost use Rattle.tree_rows.specs.Nests.{Nests};

use crate::below::Below;
use crate::codes::Codes;
use host_steps::places::Place;
use host_steps::properties::has_properties;
use host_steps::texts::text_of;
use host_steps::values::push;
use js_tree::{Expr, ExprNode, Key, Stmt};
use run_host::{Exit, Flow, Here, Host};
use std::alloc::Global;
use turk_base::Units;
use value_cells::Value;

impl<
    H: Host,
    E: Fn(Global, &Codes, u32, &mut H, Here, &Expr) -> Result<Value, Exit>,
    S: Fn(Global, &Codes, u32, &mut H, Here, &Stmt) -> Result<Flow, Exit>,
> Below<H, E, S> {
    /// Expressions in order from left to right.
    pub fn each(
        &self,
        codes: &Codes,
        host: &mut H,
        here: Here,
        es: &[Expr],
    ) -> Result<Vec<Value>, Exit>
        requires below { Nests H H.moment H.is_sound (table_in codes.now) self.now.left (E.pre self.now.expr) (E.post self.now.expr) (S.pre self.now.stmt) (S.post self.now.stmt) }
        requires sound { H.is_sound host.old }
        requires here { here_needs here ≤ cells (H.moment host.old) }
        ensures did { Takes (λ nu. each (expr_to (table_in codes.now) self.now.left) (here_in nu here) es.now) (λ nu vs. map (val_in nu) vs.items) result (H.moment host.old) (H.moment host.new) }
        ensures exists { IfOk result (λ vs. all_needs vs.items ≤ cells (H.moment host.new)) }
        ensures more { cells (H.moment host.old) ≤ cells (H.moment host.new) }
        ensures thrown { IfErr result (λ x. exit_needs x ≤ cells (H.moment host.new)) }
        ensures sound { H.is_sound host.new }
    {
        let mut values = Vec::new(self.alloc);
        for e in es {
            let value = self.expr(codes, host, here, e)?;
            push(&mut values, value)?;
        }
        Ok(values)
    }

    /// A base and a key that is computed.
    fn computed(
        &self,
        codes: &Codes,
        host: &mut H,
        here: Here,
        b: &Expr,
        k: &Expr,
    ) -> Result<(Value, Units), Exit>
        requires below { Nests H H.moment H.is_sound (table_in codes.now) self.now.left (E.pre self.now.expr) (E.post self.now.expr) (S.pre self.now.stmt) (S.post self.now.stmt) }
        requires sound { H.is_sound host.old }
        requires here { here_needs here ≤ cells (H.moment host.old) }
        ensures did { Takes (λ nu. member (expr_to (table_in codes.now) self.now.left) (here_in nu here) b.now (Key-F.Computed k.now)) (λ nu p. (val_in nu p.0, p.1)) result (H.moment host.old) (H.moment host.new) }
        ensures exists { IfOk result (λ p. needs p.0 ≤ cells (H.moment host.new)) }
        ensures more { cells (H.moment host.old) ≤ cells (H.moment host.new) }
        ensures thrown { IfErr result (λ x. exit_needs x ≤ cells (H.moment host.new)) }
        ensures sound { H.is_sound host.new }
    {
        let base = self.expr(codes, host, here, b)?;
        let value = self.expr(codes, host, here, k)?;
        has_properties(self.alloc, host, &base)?;
        let key = text_of(self.alloc, host, &value)?;
        Ok((base, key))
    }

    /// A base and a key; the property is not looked up yet.
    pub fn member(
        &self,
        codes: &Codes,
        host: &mut H,
        here: Here,
        b: &Expr,
        k: &Key,
    ) -> Result<(Value, Units), Exit>
        requires below { Nests H H.moment H.is_sound (table_in codes.now) self.now.left (E.pre self.now.expr) (E.post self.now.expr) (S.pre self.now.stmt) (S.post self.now.stmt) }
        requires sound { H.is_sound host.old }
        requires here { here_needs here ≤ cells (H.moment host.old) }
        ensures did { Takes (λ nu. member (expr_to (table_in codes.now) self.now.left) (here_in nu here) b.now (out-Key k.now)) (λ nu p. (val_in nu p.0, p.1)) result (H.moment host.old) (H.moment host.new) }
        ensures exists { IfOk result (λ p. needs p.0 ≤ cells (H.moment host.new)) }
        ensures more { cells (H.moment host.old) ≤ cells (H.moment host.new) }
        ensures thrown { IfErr result (λ x. exit_needs x ≤ cells (H.moment host.new)) }
        ensures sound { H.is_sound host.new }
    {
        match k {
            Key::Fixed(key) => {
                let base = self.expr(codes, host, here, b)?;
                has_properties(self.alloc, host, &base)?;
                Ok((base, key.copy(self.alloc)?))
            }
            Key::Computed(k) => self.computed(codes, host, here, b, k.get()),
        }
    }

    /// A target, a callee or the operand of typeof.
    pub fn place<'a>(
        &self,
        codes: &Codes,
        host: &mut H,
        here: Here,
        e: &'a Expr,
    ) -> Result<Place<'a>, Exit>
        requires below { Nests H H.moment H.is_sound (table_in codes.now) self.now.left (E.pre self.now.expr) (E.post self.now.expr) (S.pre self.now.stmt) (S.post self.now.stmt) }
        requires sound { H.is_sound host.old }
        requires here { here_needs here ≤ cells (H.moment host.old) }
        ensures did { Takes (λ nu. place (expr_to (table_in codes.now) self.now.left) (here_in nu here) e.now) place_in result (H.moment host.old) (H.moment host.new) }
        ensures exists { IfOk result (λ p. place_needs p ≤ cells (H.moment host.new)) }
        ensures more { cells (H.moment host.old) ≤ cells (H.moment host.new) }
        ensures thrown { IfErr result (λ x. exit_needs x ≤ cells (H.moment host.new)) }
        ensures sound { H.is_sound host.new }
    {
        match &e.node {
            ExprNode::Name(x) => Ok(Place::Variable(x)),
            ExprNode::Member(b, k) => {
                let (base, key) = self.member(codes, host, here, b.get(), k)?;
                Ok(Place::Property(base, key))
            }
            _ => {
                let value = self.expr(codes, host, here, e)?;
                Ok(Place::Given(value))
            }
        }
    }
}

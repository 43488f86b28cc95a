//! Array and object literals (ECMA-262 3rd ed. 11.1.4, 11.1.5).
ghost use Rattle.std.specs.Prelude.{◌≡◌, ◌<◌, ◌≤◌, IfOk, IfErr};
ghost use Rattle.turk_base.specs.Prog.{Put, Then, ask};
ghost use Rattle.turk_base.specs.Errors.{index_text};
ghost use Rattle.js_tree.specs.declared.Field.{out-Field};
ghost use Rattle.js_tree.specs.Rows.{expr_to, stmt_to};
ghost use Rattle.js_tree.specs.Expressions.{array_row, object_row};
ghost use Rattle.value_cells.specs.Needs.{needs};
ghost use Rattle.run_host.specs.Moment.{cells};
ghost use Rattle.run_host.specs.Told.{told_value, here_in, here_needs, exit_needs};
ghost use Rattle.run_host.specs.Did.{Runs};
ghost use Rattle.run_host.specs.Steps.{Takes};
ghost use Rattle.tree_rows.specs.Codes.{table_in};
ghost use Rattle.tree_rows.specs.Nests.{Nests};

use crate::below::Below;
use crate::codes::Codes;
use host_steps::texts::index_key;
use js_tree::{Expr, Field, Stmt};
use run_host::{Exit, Flow, Here, Host};
use std::alloc::Global;
use value_cells::{CellKind, Value};

impl<
    H: Host,
    E: Fn(Global, &Codes, u32, &mut H, Here, &Expr) -> Result<Value, Exit>,
    S: Fn(Global, &Codes, u32, &mut H, Here, &Stmt) -> Result<Flow, Exit>,
> Below<H, E, S> {
    /// One item of an array, put under its index.
    fn item(
        &self,
        codes: &Codes,
        host: &mut H,
        here: Here,
        array: u32,
        index: u64,
        e: &Expr,
    ) -> Result<(), Exit>
        requires below { Nests H H.moment H.is_sound (table_in codes.now) self.now.left (E.pre self.now.expr) (E.post self.now.expr) (S.pre self.now.stmt) (S.post self.now.stmt) }
        requires sound { H.is_sound host.old }
        requires here { here_needs here ≤ cells (H.moment host.old) }
        requires array { array < cells (H.moment host.old) }
        ensures did { Takes (λ nu go. Then (expr_to (table_in codes.now) self.now.left (here_in nu here) e.now) (λ v. ask (Put (nu array) (index_text index) v) go)) (λ nu u. u) result (H.moment host.old) (H.moment host.new) }
        ensures more { cells (H.moment host.old) ≤ cells (H.moment host.new) }
        ensures thrown { IfErr result (λ x. exit_needs x ≤ cells (H.moment host.new)) }
        ensures sound { H.is_sound host.new }
    {
        let value = self.expr(codes, host, here, e)?;
        let key = index_key(self.alloc, index)?;
        host.put(array, &key, value)
    }

    /// An array literal: the cell, then its items.
    pub fn array(&self, codes: &Codes, host: &mut H, here: Here, es: &[Expr]) -> Result<Value, Exit>
        requires below { Nests H H.moment H.is_sound (table_in codes.now) self.now.left (E.pre self.now.expr) (E.post self.now.expr) (S.pre self.now.stmt) (S.post self.now.stmt) }
        requires sound { H.is_sound host.old }
        requires here { here_needs here ≤ cells (H.moment host.old) }
        ensures ran { Runs (λ nu. array_row (expr_to (table_in codes.now) self.now.left) (here_in nu here) es.now) (λ nu. told_value nu result) (H.moment host.old) (H.moment host.new) }
        ensures more { cells (H.moment host.old) ≤ cells (H.moment host.new) }
        ensures thrown { IfErr result (λ x. exit_needs x ≤ cells (H.moment host.new)) }
        ensures sound { H.is_sound host.new }
        ensures exists { IfOk result (λ v. needs v ≤ cells (H.moment host.new)) }
    {
        let array = host.make(CellKind::Array)?;
        let mut index: u64 = 0;
        for e in es {
            self.item(codes, host, here, array, index, e)?;
            index += 1;
        }
        Ok(Value::Object(array))
    }

    /// One field of an object literal.
    fn field(
        &self,
        codes: &Codes,
        host: &mut H,
        here: Here,
        object: u32,
        field: &Field,
    ) -> Result<(), Exit>
        requires below { Nests H H.moment H.is_sound (table_in codes.now) self.now.left (E.pre self.now.expr) (E.post self.now.expr) (S.pre self.now.stmt) (S.post self.now.stmt) }
        requires sound { H.is_sound host.old }
        requires here { here_needs here ≤ cells (H.moment host.old) }
        requires object { object < cells (H.moment host.old) }
        ensures did { Takes (λ nu go. Then (expr_to (table_in codes.now) self.now.left (here_in nu here) (out-Field field.now).value) (λ v. ask (Put (nu object) (out-Field field.now).key v) go)) (λ nu u. u) result (H.moment host.old) (H.moment host.new) }
        ensures more { cells (H.moment host.old) ≤ cells (H.moment host.new) }
        ensures thrown { IfErr result (λ x. exit_needs x ≤ cells (H.moment host.new)) }
        ensures sound { H.is_sound host.new }
    {
        let value = self.expr(codes, host, here, &field.value)?;
        host.put(object, &field.key, value)
    }

    /// An object literal: the cell, then its fields; it has no prototype.
    pub fn object(
        &self,
        codes: &Codes,
        host: &mut H,
        here: Here,
        all: &[Field],
    ) -> Result<Value, Exit>
        requires below { Nests H H.moment H.is_sound (table_in codes.now) self.now.left (E.pre self.now.expr) (E.post self.now.expr) (S.pre self.now.stmt) (S.post self.now.stmt) }
        requires sound { H.is_sound host.old }
        requires here { here_needs here ≤ cells (H.moment host.old) }
        ensures ran { Runs (λ nu. object_row (expr_to (table_in codes.now) self.now.left) (here_in nu here) all.now) (λ nu. told_value nu result) (H.moment host.old) (H.moment host.new) }
        ensures more { cells (H.moment host.old) ≤ cells (H.moment host.new) }
        ensures thrown { IfErr result (λ x. exit_needs x ≤ cells (H.moment host.new)) }
        ensures sound { H.is_sound host.new }
        ensures exists { IfOk result (λ v. needs v ≤ cells (H.moment host.new)) }
    {
        let object = host.make(CellKind::Plain(None))?;
        for one in all {
            self.field(codes, host, here, object, one)?;
        }
        Ok(Value::Object(object))
    }
}

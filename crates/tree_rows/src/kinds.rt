//! Which row each kind of statement has (ECMA-262 3rd ed. 12).
ghost use Rattle.std.specs.Prelude.{◌≡◌, ◌<◌, ◌≤◌, IfOk, IfErr};
ghost use Rattle.std.specs.Option.{option_copied};
ghost use Rattle.js_tree.specs.Rows.{expr_to, stmt_to, stmt_row};
ghost use Rattle.js_tree.specs.Trees.{stmt_level};
ghost use Rattle.value_cells.specs.Needs.{needs};
ghost use Rattle.run_host.specs.Moment.{cells};
ghost use Rattle.run_host.specs.Told.{told_value, told_flow, here_in, here_needs, flow_needs, exit_needs};
ghost use Rattle.run_host.specs.Did.{Runs};
ghost use Rattle.tree_rows.specs.Codes.{table_in};
ghost use Rattle.tree_rows.specs.Nests.{Nests};

use crate::below::Below;
use crate::codes::Codes;
use js_tree::{Expr, Stmt, StmtNode};
use run_host::{Exit, Flow, Here, Host};
use sqlite_items::Boxed;
use std::alloc::Global;
use value_cells::Value;

/// The statement in a box, where there is one.
fn lent(boxed: &Option<Boxed<Stmt>>) -> Option<&Stmt>
    ensures { option_copied result ≡ boxed.now }
{
    match boxed {
        Some(stmt) => Some(stmt.get()),
        None => None,
    }
}

impl<
    H: Host,
    E: Fn(Global, &Codes, u32, &mut H, Here, &Expr) -> Result<Value, Exit>,
    S: Fn(Global, &Codes, u32, &mut H, Here, &Stmt) -> Result<Flow, Exit>,
> Below<H, E, S> {
    /// A statement, by its kind.
    pub fn stmt_node(&self, codes: &Codes, host: &mut H, here: Here, s: &Stmt) -> Result<Flow, Exit>
        requires below { Nests H H.moment H.is_sound (table_in codes.now) self.now.left (E.pre self.now.expr) (E.post self.now.expr) (S.pre self.now.stmt) (S.post self.now.stmt) }
        requires sound { H.is_sound host.old }
        requires here { here_needs here ≤ cells (H.moment host.old) }
        ensures ran { Runs (λ nu. stmt_row (table_in codes.now) (expr_to (table_in codes.now) self.now.left) (stmt_to (table_in codes.now) self.now.left) (here_in nu here) (stmt_level s.now)) (λ nu. told_flow nu result) (H.moment host.old) (H.moment host.new) }
        ensures exists { IfOk result (λ f. flow_needs f ≤ cells (H.moment host.new)) }
        ensures more { cells (H.moment host.old) ≤ cells (H.moment host.new) }
        ensures thrown { IfErr result (λ x. exit_needs x ≤ cells (H.moment host.new)) }
        ensures sound { H.is_sound host.new }
    {
        match &s.node {
            StmtNode::Block(all) => self.block(codes, host, here, all.as_slice()),
            StmtNode::Var(all) => self.variables(codes, host, here, all.as_slice()),
            StmtNode::Empty => Ok(Flow::Normal),
            StmtNode::Expression(e) => self.expression(codes, host, here, e),
            StmtNode::If(e, a, b) => self.choice(codes, host, here, e, a.get(), lent(b)),
            StmtNode::DoWhile(s, e) => self.do_while(codes, host, here, s.get(), e),
            StmtNode::While(e, s) => self.while_loop(codes, host, here, e, s.get()),
            StmtNode::For(start, test, step, s) => {
                self.for_loop(
                    codes,
                    host,
                    here,
                    start,
                    test.as_ref(),
                    step.as_ref(),
                    s.get(),
                )
            }
            StmtNode::ForIn(into, e, s) => self.for_in(codes, host, here, into, e, s.get()),
            StmtNode::Continue => Ok(Flow::Continue),
            StmtNode::Break => Ok(Flow::Break),
            StmtNode::Return(e) => self.returning(codes, host, here, e.as_ref()),
            StmtNode::Switch(e, cases) => self.switching(codes, host, here, e, cases.as_slice()),
            StmtNode::Throw(e) => self.throwing(codes, host, here, e),
            StmtNode::Try(s, c, f) => self.trying(codes, host, here, s.get(), c.as_ref(), lent(f)),
        }
    }
}

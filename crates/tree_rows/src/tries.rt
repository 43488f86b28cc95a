//! The row of `try` (ECMA-262 3rd ed. 12.14).
ghost use Rattle.std.specs.Prelude.{◌≡◌, ◌<◌, ◌≤◌, IfOk, IfErr, Some};
ghost use Rattle.std.specs.Option.{option_copied};
ghost use Rattle.turk_base.specs.Values.{Outcome, Throw};
ghost use Rattle.turk_base.specs.Prog.{Prog, Done, Then, Always};
ghost use Rattle.js_tree.specs.Rows.{expr_to, stmt_to};
ghost use Rattle.js_tree.specs.Statements.{caught, catching, try_row};
ghost use Rattle.value_cells.specs.Needs.{needs};
ghost use Rattle.value_cells.specs.Seen.{Naming, val_in};
ghost use Rattle.run_host.specs.Moment.{Moment, cells};
ghost use Rattle.run_host.specs.Told.{told_exit, told_value, told_flow, here_in, here_needs, flow_needs, exit_needs};
ghost use Rattle.run_host.specs.Did.{Runs};
ghost use Rattle.run_host.specs.Steps.{Takes};
ghost use Rattle.tree_rows.specs.Codes.{table_in};
ghost use Rattle.tree_rows.specs.Nests.{Nests};
ghost use Rattle.tree_rows.specs.Ended.{EndsAs};

use crate::below::Below;
use crate::codes::Codes;
use js_tree::{Catch, Expr, Stmt};
use run_host::{Exit, Flow, Here, Host};
use std::alloc::Global;
use value_cells::{CellKind, Value};

impl<
    H: Host,
    E: Fn(Global, &Codes, u32, &mut H, Here, &Expr) -> Result<Value, Exit>,
    S: Fn(Global, &Codes, u32, &mut H, Here, &Stmt) -> Result<Flow, Exit>,
> Below<H, E, S> {
    /// The body of a catch, in a frame that holds the value thrown.
    fn caught(
        &self,
        codes: &Codes,
        host: &mut H,
        here: Here,
        c: &Catch,
        value: Value,
    ) -> Result<Flow, Exit>
        requires below { Nests H H.moment H.is_sound (table_in codes.now) self.now.left (E.pre self.now.expr) (E.post self.now.expr) (S.pre self.now.stmt) (S.post self.now.stmt) }
        requires sound { H.is_sound host.old }
        requires here { here_needs here ≤ cells (H.moment host.old) }
        requires value { needs value ≤ cells (H.moment host.old) }
        ensures ran { Runs (λ nu. caught (table_in codes.now) (expr_to (table_in codes.now) self.now.left) (stmt_to (table_in codes.now) self.now.left) (here_in nu here) c.now (Throw (val_in nu value))) (λ nu. told_flow nu result) (H.moment host.old) (H.moment host.new) }
        ensures exists { IfOk result (λ f. flow_needs f ≤ cells (H.moment host.new)) }
        ensures more { cells (H.moment host.old) ≤ cells (H.moment host.new) }
        ensures thrown { IfErr result (λ x. exit_needs x ≤ cells (H.moment host.new)) }
        ensures sound { H.is_sound host.new }
    {
        let frame = host.make(CellKind::Frame(Some(here.frame)))?;
        host.declare(frame, &c.name, value)?;
        self.stmt(codes, host, here.within(frame), c.body.get())
    }

    /// What a catch makes of an exit: it takes a throw, and passes on what ends the branch or the run.
    fn catching(
        &self,
        codes: &Codes,
        host: &mut H,
        here: Here,
        c: &Catch,
        exit: Exit,
    ) -> Result<Flow, Exit>
        requires below { Nests H H.moment H.is_sound (table_in codes.now) self.now.left (E.pre self.now.expr) (E.post self.now.expr) (S.pre self.now.stmt) (S.post self.now.stmt) }
        requires sound { H.is_sound host.old }
        requires here { here_needs here ≤ cells (H.moment host.old) }
        requires thrown { exit_needs exit ≤ cells (H.moment host.old) }
        ensures ran { (g : Naming → Prog) (first : Moment H.chain) → Runs g (λ nu. told_exit nu exit) first (H.moment host.old) → Runs (λ nu. Always (g nu) (caught (table_in codes.now) (expr_to (table_in codes.now) self.now.left) (stmt_to (table_in codes.now) self.now.left) (here_in nu here) c.now)) (λ nu. told_flow nu result) first (H.moment host.new) }
        ensures exists { IfOk result (λ f. flow_needs f ≤ cells (H.moment host.new)) }
        ensures more { cells (H.moment host.old) ≤ cells (H.moment host.new) }
        ensures thrown { IfErr result (λ x. exit_needs x ≤ cells (H.moment host.new)) }
        ensures sound { H.is_sound host.new }
    {
        match exit {
            Exit::Throw(value) => self.caught(codes, host, here, c, value),
            Exit::Halted(halt) => Err(Exit::Halted(halt)),
            Exit::Stopped(why) => Err(Exit::Stopped(why)),
        }
    }

    /// The body of a `try`, and its catch where it threw.
    fn attempt(
        &self,
        codes: &Codes,
        host: &mut H,
        here: Here,
        s: &Stmt,
        c: Option<&Catch>,
    ) -> Result<Flow, Exit>
        requires below { Nests H H.moment H.is_sound (table_in codes.now) self.now.left (E.pre self.now.expr) (E.post self.now.expr) (S.pre self.now.stmt) (S.post self.now.stmt) }
        requires sound { H.is_sound host.old }
        requires here { here_needs here ≤ cells (H.moment host.old) }
        ensures ran { Runs (λ nu. catching (table_in codes.now) (expr_to (table_in codes.now) self.now.left) (stmt_to (table_in codes.now) self.now.left) (here_in nu here) (stmt_to (table_in codes.now) self.now.left (here_in nu here) s.now) (option_copied c.entry)) (λ nu. told_flow nu result) (H.moment host.old) (H.moment host.new) }
        ensures exists { IfOk result (λ f. flow_needs f ≤ cells (H.moment host.new)) }
        ensures more { cells (H.moment host.old) ≤ cells (H.moment host.new) }
        ensures thrown { IfErr result (λ x. exit_needs x ≤ cells (H.moment host.new)) }
        ensures sound { H.is_sound host.new }
    {
        let Some(c) = c else {
            return self.stmt(codes, host, here, s);
        };
        match self.stmt(codes, host, here, s) {
            Ok(flow) => Ok(flow),
            Err(exit) => self.catching(codes, host, here, c, exit),
        }
    }

    /// What a `finally` leaves of how the body ended: an abrupt end of its own comes in its place.
    fn finished(
        &self,
        codes: &Codes,
        host: &mut H,
        here: Here,
        f: &Stmt,
        ended: Result<Flow, Exit>,
    ) -> Result<Flow, Exit>
        requires below { Nests H H.moment H.is_sound (table_in codes.now) self.now.left (E.pre self.now.expr) (E.post self.now.expr) (S.pre self.now.stmt) (S.post self.now.stmt) }
        requires sound { H.is_sound host.old }
        requires here { here_needs here ≤ cells (H.moment host.old) }
        requires value { IfOk ended (λ f. flow_needs f ≤ cells (H.moment host.old)) }
        requires thrown { IfErr ended (λ x. exit_needs x ≤ cells (H.moment host.old)) }
        ensures ran { (o : Naming → Outcome) → EndsAs ended o → Runs (λ nu. Then (stmt_to (table_in codes.now) self.now.left (here_in nu here) f.now) (λ _. Done (o nu))) (λ nu. told_flow nu result) (H.moment host.old) (H.moment host.new) }
        ensures exists { IfOk result (λ f. flow_needs f ≤ cells (H.moment host.new)) }
        ensures more { cells (H.moment host.old) ≤ cells (H.moment host.new) }
        ensures thrown { IfErr result (λ x. exit_needs x ≤ cells (H.moment host.new)) }
        ensures sound { H.is_sound host.new }
    {
        match self.stmt(codes, host, here, f)? {
            Flow::Normal => ended,
            other => Ok(other),
        }
    }

    /// What a `finally` makes of an exit: it runs after a throw, and not after what ends the branch or the run.
    fn finishing(
        &self,
        codes: &Codes,
        host: &mut H,
        here: Here,
        f: &Stmt,
        exit: Exit,
    ) -> Result<Flow, Exit>
        requires below { Nests H H.moment H.is_sound (table_in codes.now) self.now.left (E.pre self.now.expr) (E.post self.now.expr) (S.pre self.now.stmt) (S.post self.now.stmt) }
        requires sound { H.is_sound host.old }
        requires here { here_needs here ≤ cells (H.moment host.old) }
        requires thrown { exit_needs exit ≤ cells (H.moment host.old) }
        ensures ran { (g : Naming → Prog) (first : Moment H.chain) → Runs g (λ nu. told_exit nu exit) first (H.moment host.old) → Runs (λ nu. Always (g nu) (λ o. Then (stmt_to (table_in codes.now) self.now.left (here_in nu here) f.now) (λ _. Done o))) (λ nu. told_flow nu result) first (H.moment host.new) }
        ensures exists { IfOk result (λ f. flow_needs f ≤ cells (H.moment host.new)) }
        ensures more { cells (H.moment host.old) ≤ cells (H.moment host.new) }
        ensures thrown { IfErr result (λ x. exit_needs x ≤ cells (H.moment host.new)) }
        ensures sound { H.is_sound host.new }
    {
        match exit {
            Exit::Throw(value) => self.finished(codes, host, here, f, Err(Exit::Throw(value))),
            Exit::Halted(halt) => Err(Exit::Halted(halt)),
            Exit::Stopped(why) => Err(Exit::Stopped(why)),
        }
    }

    /// `try`.
    pub fn trying(
        &self,
        codes: &Codes,
        host: &mut H,
        here: Here,
        s: &Stmt,
        c: Option<&Catch>,
        f: Option<&Stmt>,
    ) -> Result<Flow, Exit>
        requires below { Nests H H.moment H.is_sound (table_in codes.now) self.now.left (E.pre self.now.expr) (E.post self.now.expr) (S.pre self.now.stmt) (S.post self.now.stmt) }
        requires sound { H.is_sound host.old }
        requires here { here_needs here ≤ cells (H.moment host.old) }
        ensures ran { Runs (λ nu. try_row (table_in codes.now) (expr_to (table_in codes.now) self.now.left) (stmt_to (table_in codes.now) self.now.left) (here_in nu here) s.now (option_copied c.entry) (option_copied f.entry)) (λ nu. told_flow nu result) (H.moment host.old) (H.moment host.new) }
        ensures exists { IfOk result (λ f. flow_needs f ≤ cells (H.moment host.new)) }
        ensures more { cells (H.moment host.old) ≤ cells (H.moment host.new) }
        ensures thrown { IfErr result (λ x. exit_needs x ≤ cells (H.moment host.new)) }
        ensures sound { H.is_sound host.new }
    {
        let ended = self.attempt(codes, host, here, s, c);
        let Some(f) = f else {
            return ended;
        };
        match ended {
            Ok(flow) => self.finished(codes, host, here, f, Ok(flow)),
            Err(exit) => self.finishing(codes, host, here, f, exit),
        }
    }
}

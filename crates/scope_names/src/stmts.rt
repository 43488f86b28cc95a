//! What the walk does with each kind of statement.
ghost use Rattle.std.specs.Prelude.{◌≡◌, IfOk, suc};
ghost use Rattle.js_tree.specs.declared.StmtNode.TheVariants as s;
ghost use Rattle.js_tree.specs.Trees.{stmt_of};
ghost use Rattle.scope_names.specs.Walks.{Makes, Resolves, ResolvesTwo, ResolvesThree, option_kind};
ghost use Rattle.scope_names.specs.Kinds.{expr_kind, stmt_kind, declaration_kind};

use crate::parts::Below;
use crate::walk::Walk;
use crate::{NoRoom, drops};
use js_tree::{Case, Catch, Declaration, Expr, ForStart, ForTarget, Stmt, StmtNode, Variable};
use sqlite_items::Boxed;

impl<
    F: Fn(Walk, u32, &Expr) -> Result<(Expr, Walk), NoRoom>,
    G: Fn(Walk, u32, &Stmt) -> Result<(Stmt, Walk), NoRoom>,
    H: Fn(Walk, u32, &Declaration) -> Result<(Declaration, Walk), NoRoom>,
> Below<F, G, H> {
    pub fn block(&self, walk: Walk, list: &[Stmt]) -> Result<(Stmt, Walk), NoRoom>
        requires stmts { Makes stmt_kind self.now.left (G.pre self.now.stmt) (G.post self.now.stmt) }
        ensures { IfOk result (λ r. Resolves (stmt_kind (suc self.now.left)) walk (stmt_of (s.Block list.now)) r.0 r.1) }
    {
        let (list, walk) = self.stmts(walk, list)?;
        Ok((
            Stmt {
                node: StmtNode::Block(list),
            },
            walk,
        ))
    }

    pub fn var_statement(&self, walk: Walk, list: &[Variable]) -> Result<(Stmt, Walk), NoRoom>
        requires exprs { Makes expr_kind self.now.left (F.pre self.now.expr) (F.post self.now.expr) }
        ensures { IfOk result (λ r. Resolves (stmt_kind (suc self.now.left)) walk (stmt_of (s.Var list.now)) r.0 r.1) }
    {
        let (list, walk) = self.variables(walk, list)?;
        Ok((
            Stmt {
                node: StmtNode::Var(list),
            },
            walk,
        ))
    }

    pub fn expression(&self, walk: Walk, a: &Expr) -> Result<(Stmt, Walk), NoRoom>
        requires exprs { Makes expr_kind self.now.left (F.pre self.now.expr) (F.post self.now.expr) }
        ensures { IfOk result (λ r. Resolves (stmt_kind (suc self.now.left)) walk (stmt_of (s.Expression a.now)) r.0 r.1) }
    {
        let (a, walk) = self.expr(walk, a)?;
        Ok((
            Stmt {
                node: StmtNode::Expression(a),
            },
            walk,
        ))
    }

    pub fn throw(&self, walk: Walk, a: &Expr) -> Result<(Stmt, Walk), NoRoom>
        requires exprs { Makes expr_kind self.now.left (F.pre self.now.expr) (F.post self.now.expr) }
        ensures { IfOk result (λ r. Resolves (stmt_kind (suc self.now.left)) walk (stmt_of (s.Throw a.now)) r.0 r.1) }
    {
        let (a, walk) = self.expr(walk, a)?;
        Ok((
            Stmt {
                node: StmtNode::Throw(a),
            },
            walk,
        ))
    }

    pub fn give_back(&self, walk: Walk, a: &Option<Expr>) -> Result<(Stmt, Walk), NoRoom>
        requires exprs { Makes expr_kind self.now.left (F.pre self.now.expr) (F.post self.now.expr) }
        ensures { IfOk result (λ r. Resolves (stmt_kind (suc self.now.left)) walk (stmt_of (s.Return a.now)) r.0 r.1) }
    {
        let (a, walk) = self.option(walk, a)?;
        Ok((
            Stmt {
                node: StmtNode::Return(a),
            },
            walk,
        ))
    }

    pub fn if_statement(
        &self,
        walk: Walk,
        test: &Expr,
        then: &Stmt,
        otherwise: &Option<Boxed<Stmt>>,
    ) -> Result<(Stmt, Walk), NoRoom>
        requires exprs { Makes expr_kind self.now.left (F.pre self.now.expr) (F.post self.now.expr) }
        requires stmts { Makes stmt_kind self.now.left (G.pre self.now.stmt) (G.post self.now.stmt) }
        ensures { IfOk result (λ r. Resolves (stmt_kind (suc self.now.left)) walk (stmt_of (s.If test.now then.now otherwise.now)) r.0 r.1) }
    {
        let (test, walk) = self.expr(walk, test)?;
        match self.branches(walk, then, otherwise) {
            Ok((then, otherwise, walk)) => Ok((
                Stmt {
                    node: StmtNode::If(test, then, otherwise),
                },
                walk,
            )),
            Err(stop) => {
                drops::expr(test);
                Err(stop)
            }
        }
    }

    /// The two branches of an `if`.
    fn branches(
        &self,
        walk: Walk,
        then: &Stmt,
        otherwise: &Option<Boxed<Stmt>>,
    ) -> Result<(Boxed<Stmt>, Option<Boxed<Stmt>>, Walk), NoRoom>
        requires stmts { Makes stmt_kind self.now.left (G.pre self.now.stmt) (G.post self.now.stmt) }
        ensures { IfOk result (λ r. ResolvesTwo (stmt_kind self.now.left) (option_kind (stmt_kind self.now.left)) walk then.now otherwise.now r.0 r.1 r.2) }
    {
        let (then, walk) = self.boxed_stmt(walk, then)?;
        let (otherwise, walk) = self.option_stmt(walk, otherwise)?;
        Ok((then, otherwise, walk))
    }

    pub fn do_while(&self, walk: Walk, body: &Stmt, test: &Expr) -> Result<(Stmt, Walk), NoRoom>
        requires exprs { Makes expr_kind self.now.left (F.pre self.now.expr) (F.post self.now.expr) }
        requires stmts { Makes stmt_kind self.now.left (G.pre self.now.stmt) (G.post self.now.stmt) }
        ensures { IfOk result (λ r. Resolves (stmt_kind (suc self.now.left)) walk (stmt_of (s.DoWhile body.now test.now)) r.0 r.1) }
    {
        let (body, walk) = self.boxed_stmt(walk, body)?;
        let (test, walk) = self.expr(walk, test)?;
        Ok((
            Stmt {
                node: StmtNode::DoWhile(body, test),
            },
            walk,
        ))
    }

    pub fn while_loop(&self, walk: Walk, test: &Expr, body: &Stmt) -> Result<(Stmt, Walk), NoRoom>
        requires exprs { Makes expr_kind self.now.left (F.pre self.now.expr) (F.post self.now.expr) }
        requires stmts { Makes stmt_kind self.now.left (G.pre self.now.stmt) (G.post self.now.stmt) }
        ensures { IfOk result (λ r. Resolves (stmt_kind (suc self.now.left)) walk (stmt_of (s.While test.now body.now)) r.0 r.1) }
    {
        let (test, walk) = self.expr(walk, test)?;
        match self.boxed_stmt(walk, body) {
            Ok((body, walk)) => Ok((
                Stmt {
                    node: StmtNode::While(test, body),
                },
                walk,
            )),
            Err(stop) => {
                drops::expr(test);
                Err(stop)
            }
        }
    }

    pub fn for_loop(
        &self,
        walk: Walk,
        start: &ForStart,
        test: &Option<Expr>,
        step: &Option<Expr>,
        body: &Stmt,
    ) -> Result<(Stmt, Walk), NoRoom>
        requires exprs { Makes expr_kind self.now.left (F.pre self.now.expr) (F.post self.now.expr) }
        requires stmts { Makes stmt_kind self.now.left (G.pre self.now.stmt) (G.post self.now.stmt) }
        ensures { IfOk result (λ r. Resolves (stmt_kind (suc self.now.left)) walk (stmt_of (s.For start.now test.now step.now body.now)) r.0 r.1) }
    {
        let (start, walk) = self.start(walk, start)?;
        match self.rest_of_for(walk, test, step, body) {
            Ok((test, step, body, walk)) => Ok((
                Stmt {
                    node: StmtNode::For(start, test, step, body),
                },
                walk,
            )),
            Err(stop) => {
                drops::start(start);
                Err(stop)
            }
        }
    }

    /// What stands in a `for` after its first part.
    fn rest_of_for(
        &self,
        walk: Walk,
        test: &Option<Expr>,
        step: &Option<Expr>,
        body: &Stmt,
    ) -> Result<(Option<Expr>, Option<Expr>, Boxed<Stmt>, Walk), NoRoom>
        requires exprs { Makes expr_kind self.now.left (F.pre self.now.expr) (F.post self.now.expr) }
        requires stmts { Makes stmt_kind self.now.left (G.pre self.now.stmt) (G.post self.now.stmt) }
        ensures { IfOk result (λ r. ResolvesThree (option_kind (expr_kind self.now.left)) (option_kind (expr_kind self.now.left)) (stmt_kind self.now.left) walk test.now step.now body.now r.0 r.1 r.2 r.3) }
    {
        let (test, walk) = self.option(walk, test)?;
        match self.step_and_body(walk, step, body) {
            Ok((step, body, walk)) => Ok((test, step, body, walk)),
            Err(stop) => {
                drops::option(test);
                Err(stop)
            }
        }
    }

    /// The last part in the head of a `for`, and its body.
    fn step_and_body(
        &self,
        walk: Walk,
        step: &Option<Expr>,
        body: &Stmt,
    ) -> Result<(Option<Expr>, Boxed<Stmt>, Walk), NoRoom>
        requires exprs { Makes expr_kind self.now.left (F.pre self.now.expr) (F.post self.now.expr) }
        requires stmts { Makes stmt_kind self.now.left (G.pre self.now.stmt) (G.post self.now.stmt) }
        ensures { IfOk result (λ r. ResolvesTwo (option_kind (expr_kind self.now.left)) (stmt_kind self.now.left) walk step.now body.now r.0 r.1 r.2) }
    {
        let (step, walk) = self.option(walk, step)?;
        match self.boxed_stmt(walk, body) {
            Ok((body, walk)) => Ok((step, body, walk)),
            Err(stop) => {
                drops::option(step);
                Err(stop)
            }
        }
    }

    pub fn for_in(
        &self,
        walk: Walk,
        target: &ForTarget,
        object: &Expr,
        body: &Stmt,
    ) -> Result<(Stmt, Walk), NoRoom>
        requires exprs { Makes expr_kind self.now.left (F.pre self.now.expr) (F.post self.now.expr) }
        requires stmts { Makes stmt_kind self.now.left (G.pre self.now.stmt) (G.post self.now.stmt) }
        ensures { IfOk result (λ r. Resolves (stmt_kind (suc self.now.left)) walk (stmt_of (s.ForIn target.now object.now body.now)) r.0 r.1) }
    {
        let (target, walk) = self.target(walk, target)?;
        match self.object_and_body(walk, object, body) {
            Ok((object, body, walk)) => Ok((
                Stmt {
                    node: StmtNode::ForIn(target, object, body),
                },
                walk,
            )),
            Err(stop) => {
                drops::target(target);
                Err(stop)
            }
        }
    }

    /// The object that a `for` .. `in` goes over, and its body.
    fn object_and_body(
        &self,
        walk: Walk,
        object: &Expr,
        body: &Stmt,
    ) -> Result<(Expr, Boxed<Stmt>, Walk), NoRoom>
        requires exprs { Makes expr_kind self.now.left (F.pre self.now.expr) (F.post self.now.expr) }
        requires stmts { Makes stmt_kind self.now.left (G.pre self.now.stmt) (G.post self.now.stmt) }
        ensures { IfOk result (λ r. ResolvesTwo (expr_kind self.now.left) (stmt_kind self.now.left) walk object.now body.now r.0 r.1 r.2) }
    {
        let (object, walk) = self.expr(walk, object)?;
        match self.boxed_stmt(walk, body) {
            Ok((body, walk)) => Ok((object, body, walk)),
            Err(stop) => {
                drops::expr(object);
                Err(stop)
            }
        }
    }

    pub fn switch(&self, walk: Walk, value: &Expr, cases: &[Case]) -> Result<(Stmt, Walk), NoRoom>
        requires exprs { Makes expr_kind self.now.left (F.pre self.now.expr) (F.post self.now.expr) }
        requires stmts { Makes stmt_kind self.now.left (G.pre self.now.stmt) (G.post self.now.stmt) }
        ensures { IfOk result (λ r. Resolves (stmt_kind (suc self.now.left)) walk (stmt_of (s.Switch value.now cases.now)) r.0 r.1) }
    {
        let (value, walk) = self.expr(walk, value)?;
        match self.cases(walk, cases) {
            Ok((cases, walk)) => Ok((
                Stmt {
                    node: StmtNode::Switch(value, cases),
                },
                walk,
            )),
            Err(stop) => {
                drops::expr(value);
                Err(stop)
            }
        }
    }

    pub fn try_statement(
        &self,
        walk: Walk,
        body: &Stmt,
        caught: &Option<Catch>,
        last: &Option<Boxed<Stmt>>,
    ) -> Result<(Stmt, Walk), NoRoom>
        requires stmts { Makes stmt_kind self.now.left (G.pre self.now.stmt) (G.post self.now.stmt) }
        ensures { IfOk result (λ r. Resolves (stmt_kind (suc self.now.left)) walk (stmt_of (s.Try body.now caught.now last.now)) r.0 r.1) }
    {
        let (body, walk) = self.boxed_stmt(walk, body)?;
        let (caught, walk) = self.option_catch(walk, caught)?;
        let (last, walk) = self.option_stmt(walk, last)?;
        Ok((
            Stmt {
                node: StmtNode::Try(body, caught, last),
            },
            walk,
        ))
    }

    /// Any statement.
    pub fn stmt_node(&self, walk: Walk, given: &Stmt) -> Result<(Stmt, Walk), NoRoom>
        requires exprs { Makes expr_kind self.now.left (F.pre self.now.expr) (F.post self.now.expr) }
        requires stmts { Makes stmt_kind self.now.left (G.pre self.now.stmt) (G.post self.now.stmt) }
        ensures { IfOk result (λ r. Resolves (stmt_kind (suc self.now.left)) walk given.now r.0 r.1) }
    {
        match given.node() {
            StmtNode::Empty => Ok((
                Stmt {
                    node: StmtNode::Empty,
                },
                walk,
            )),
            StmtNode::Continue => Ok((
                Stmt {
                    node: StmtNode::Continue,
                },
                walk,
            )),
            StmtNode::Break => Ok((
                Stmt {
                    node: StmtNode::Break,
                },
                walk,
            )),
            StmtNode::Block(list) => self.block(walk, list.as_slice()),
            StmtNode::Var(list) => self.var_statement(walk, list.as_slice()),
            StmtNode::Expression(a) => self.expression(walk, a),
            StmtNode::Throw(a) => self.throw(walk, a),
            StmtNode::Return(a) => self.give_back(walk, a),
            StmtNode::If(test, then, otherwise) => self.if_statement(
                walk,
                test,
                then.get(),
                otherwise,
            ),
            StmtNode::DoWhile(body, test) => self.do_while(walk, body.get(), test),
            StmtNode::While(test, body) => self.while_loop(walk, test, body.get()),
            StmtNode::For(start, test, step, body) => self.for_loop(
                walk,
                start,
                test,
                step,
                body.get(),
            ),
            StmtNode::ForIn(target, object, body) => self.for_in(walk, target, object, body.get()),
            StmtNode::Switch(value, cases) => self.switch(walk, value, cases.as_slice()),
            StmtNode::Try(body, caught, last) => self.try_statement(walk, body.get(), caught, last),
        }
    }
}

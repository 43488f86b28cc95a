//! What the walk does with the parts of nodes. What stands deeper is walked by functions that are handed in.
ghost use Rattle.std.specs.Prelude.{◌≡◌, IfOk, suc};
ghost use Rattle.scope_names.specs.Walks.{Makes, Resolves, NameBound, list_kind, option_kind};
ghost use Rattle.scope_names.specs.Kinds.{expr_kind, stmt_kind, declaration_kind, body_kind, key_kind, field_kind, variable_kind, start_kind, target_kind, case_kind, catch_kind};

use crate::hoist::frame_names;
use crate::walk::Walk;
use crate::{NoRoom, drops};
use js_tree::{
    Case, Catch, Declaration, Expr, Field, ForStart, ForTarget, Key, Named, Script, Stmt, Variable,
};
use sqlite_items::{Boxed, Items};
use std::alloc::Global;
use turk_base::Units;

/// Functions that walk what stands deeper, and how many levels they may go.
#[derive(Clone, Copy)]
pub struct Below<F, G, H> {
    pub alloc: Global,
    pub left: u32,
    pub expr: F,
    pub stmt: G,
    pub declaration: H,
}

/// A name with the place of its declaration.
pub fn bind(alloc: Global, walk: &Walk, given: &Named) -> Result<Named, NoRoom>
    ensures { IfOk result (λ made. NameBound walk.now.scopes given.now made) }
{
    let name = given.name.copy(alloc)?;
    let (binding, own) = walk.scopes.find(&given.name);
    Ok(Named { name, binding, own })
}

/// Equal texts.
pub fn copy_all(alloc: Global, given: &[Units]) -> Result<Items<Units>, NoRoom>
    ensures { IfOk result (λ made. made ≡ given.now) }
{
    let mut made = Items::new(alloc);
    for item in given {
        made.push(item.copy(alloc)?)?;
    }
    Ok(made)
}

impl<
    F: Fn(Walk, u32, &Expr) -> Result<(Expr, Walk), NoRoom>,
    G: Fn(Walk, u32, &Stmt) -> Result<(Stmt, Walk), NoRoom>,
    H: Fn(Walk, u32, &Declaration) -> Result<(Declaration, Walk), NoRoom>,
> Below<F, G, H> {
    /// An expression.
    pub fn expr(&self, walk: Walk, given: &Expr) -> Result<(Expr, Walk), NoRoom>
        requires exprs { Makes expr_kind self.now.left (F.pre self.now.expr) (F.post self.now.expr) }
        ensures { IfOk result (λ r. Resolves (expr_kind self.now.left) walk given.now r.0 r.1) }
    {
        (self.expr)(walk, self.left, given)
    }

    /// A statement.
    pub fn stmt(&self, walk: Walk, given: &Stmt) -> Result<(Stmt, Walk), NoRoom>
        requires stmts { Makes stmt_kind self.now.left (G.pre self.now.stmt) (G.post self.now.stmt) }
        ensures { IfOk result (λ r. Resolves (stmt_kind self.now.left) walk given.now r.0 r.1) }
    {
        (self.stmt)(walk, self.left, given)
    }

    /// A function declaration.
    pub fn declaration(
        &self,
        walk: Walk,
        given: &Declaration,
    ) -> Result<(Declaration, Walk), NoRoom>
        requires declarations { Makes declaration_kind self.now.left (H.pre self.now.declaration) (H.post self.now.declaration) }
        ensures { IfOk result (λ r. Resolves (declaration_kind self.now.left) walk given.now r.0 r.1) }
    {
        (self.declaration)(walk, self.left, given)
    }

    /// An expression in a box.
    pub fn boxed(&self, walk: Walk, given: &Expr) -> Result<(Boxed<Expr>, Walk), NoRoom>
        requires exprs { Makes expr_kind self.now.left (F.pre self.now.expr) (F.post self.now.expr) }
        ensures { IfOk result (λ r. Resolves (expr_kind self.now.left) walk given.now r.0 r.1) }
    {
        let (made, walk) = self.expr(walk, given)?;
        Ok((Boxed::new(self.alloc, made)?, walk))
    }

    /// A statement in a box.
    pub fn boxed_stmt(&self, walk: Walk, given: &Stmt) -> Result<(Boxed<Stmt>, Walk), NoRoom>
        requires stmts { Makes stmt_kind self.now.left (G.pre self.now.stmt) (G.post self.now.stmt) }
        ensures { IfOk result (λ r. Resolves (stmt_kind self.now.left) walk given.now r.0 r.1) }
    {
        let (made, walk) = self.stmt(walk, given)?;
        Ok((Boxed::new(self.alloc, made)?, walk))
    }

    /// An expression, where it stands.
    pub fn option(&self, walk: Walk, given: &Option<Expr>) -> Result<(Option<Expr>, Walk), NoRoom>
        requires exprs { Makes expr_kind self.now.left (F.pre self.now.expr) (F.post self.now.expr) }
        ensures { IfOk result (λ r. Resolves (option_kind (expr_kind self.now.left)) walk given.now r.0 r.1) }
    {
        match given {
            Some(given) => {
                let (made, walk) = self.expr(walk, given)?;
                Ok((Some(made), walk))
            }
            None => Ok((None, walk)),
        }
    }

    /// A statement, where it stands.
    pub fn option_stmt(
        &self,
        walk: Walk,
        given: &Option<Boxed<Stmt>>,
    ) -> Result<(Option<Boxed<Stmt>>, Walk), NoRoom>
        requires stmts { Makes stmt_kind self.now.left (G.pre self.now.stmt) (G.post self.now.stmt) }
        ensures { IfOk result (λ r. Resolves (option_kind (stmt_kind self.now.left)) walk given.now r.0 r.1) }
    {
        match given {
            Some(given) => {
                let (made, walk) = self.boxed_stmt(walk, given.get())?;
                Ok((Some(made), walk))
            }
            None => Ok((None, walk)),
        }
    }

    /// A catch, where it stands.
    pub fn option_catch(
        &self,
        walk: Walk,
        given: &Option<Catch>,
    ) -> Result<(Option<Catch>, Walk), NoRoom>
        requires stmts { Makes stmt_kind self.now.left (G.pre self.now.stmt) (G.post self.now.stmt) }
        ensures { IfOk result (λ r. Resolves (option_kind (catch_kind self.now.left)) walk given.now r.0 r.1) }
    {
        match given {
            Some(given) => {
                let (made, walk) = self.caught(walk, given)?;
                Ok((Some(made), walk))
            }
            None => Ok((None, walk)),
        }
    }

    /// Expressions.
    pub fn exprs(&self, walk: Walk, given: &[Expr]) -> Result<(Items<Expr>, Walk), NoRoom>
        requires exprs { Makes expr_kind self.now.left (F.pre self.now.expr) (F.post self.now.expr) }
        ensures { IfOk result (λ r. Resolves (list_kind (expr_kind self.now.left)) walk given.now r.0 r.1) }
    {
        let mut made = Items::new(self.alloc);
        let mut walk = walk;
        for item in given {
            let (one, after) = self.expr(walk, item)?;
            made.push(one)?;
            walk = after;
        }
        Ok((made, walk))
    }

    /// Statements.
    pub fn stmts(&self, walk: Walk, given: &[Stmt]) -> Result<(Items<Stmt>, Walk), NoRoom>
        requires stmts { Makes stmt_kind self.now.left (G.pre self.now.stmt) (G.post self.now.stmt) }
        ensures { IfOk result (λ r. Resolves (list_kind (stmt_kind self.now.left)) walk given.now r.0 r.1) }
    {
        let mut made = Items::new(self.alloc);
        let mut walk = walk;
        for item in given {
            let (one, after) = self.stmt(walk, item)?;
            made.push(one)?;
            walk = after;
        }
        Ok((made, walk))
    }

    /// Function declarations.
    pub fn declarations(
        &self,
        walk: Walk,
        given: &[Declaration],
    ) -> Result<(Items<Declaration>, Walk), NoRoom>
        requires declarations { Makes declaration_kind self.now.left (H.pre self.now.declaration) (H.post self.now.declaration) }
        ensures { IfOk result (λ r. Resolves (list_kind (declaration_kind self.now.left)) walk given.now r.0 r.1) }
    {
        let mut made = Items::new(self.alloc);
        let mut walk = walk;
        for item in given {
            let (one, after) = self.declaration(walk, item)?;
            made.push(one)?;
            walk = after;
        }
        Ok((made, walk))
    }

    /// A key.
    pub fn key(&self, walk: Walk, given: &Key) -> Result<(Key, Walk), NoRoom>
        requires exprs { Makes expr_kind self.now.left (F.pre self.now.expr) (F.post self.now.expr) }
        ensures { IfOk result (λ r. Resolves (key_kind self.now.left) walk given.now r.0 r.1) }
    {
        match given {
            Key::Fixed(units) => Ok((Key::Fixed(units.copy(self.alloc)?), walk)),
            Key::Computed(given) => {
                let (made, walk) = self.boxed(walk, given.get())?;
                Ok((Key::Computed(made), walk))
            }
        }
    }

    /// A key with its value.
    pub fn field(&self, walk: Walk, given: &Field) -> Result<(Field, Walk), NoRoom>
        requires exprs { Makes expr_kind self.now.left (F.pre self.now.expr) (F.post self.now.expr) }
        ensures { IfOk result (λ r. Resolves (field_kind self.now.left) walk given.now r.0 r.1) }
    {
        let key = given.key.copy(self.alloc)?;
        let (value, walk) = self.expr(walk, &given.value)?;
        Ok((Field { key, value }, walk))
    }

    /// Keys with their values.
    pub fn fields(&self, walk: Walk, given: &[Field]) -> Result<(Items<Field>, Walk), NoRoom>
        requires exprs { Makes expr_kind self.now.left (F.pre self.now.expr) (F.post self.now.expr) }
        ensures { IfOk result (λ r. Resolves (list_kind (field_kind self.now.left)) walk given.now r.0 r.1) }
    {
        let mut made = Items::new(self.alloc);
        let mut walk = walk;
        for item in given {
            let (one, after) = self.field(walk, item)?;
            made.push(one)?;
            walk = after;
        }
        Ok((made, walk))
    }

    /// A name of a `var`, with its value.
    pub fn variable(&self, walk: Walk, given: &Variable) -> Result<(Variable, Walk), NoRoom>
        requires exprs { Makes expr_kind self.now.left (F.pre self.now.expr) (F.post self.now.expr) }
        ensures { IfOk result (λ r. Resolves (variable_kind self.now.left) walk given.now r.0 r.1) }
    {
        let named = bind(self.alloc, &walk, &given.named)?;
        let (value, walk) = self.option(walk, &given.value)?;
        Ok((Variable { named, value }, walk))
    }

    /// The names of a `var`, with their values.
    pub fn variables(
        &self,
        walk: Walk,
        given: &[Variable],
    ) -> Result<(Items<Variable>, Walk), NoRoom>
        requires exprs { Makes expr_kind self.now.left (F.pre self.now.expr) (F.post self.now.expr) }
        ensures { IfOk result (λ r. Resolves (list_kind (variable_kind self.now.left)) walk given.now r.0 r.1) }
    {
        let mut made = Items::new(self.alloc);
        let mut walk = walk;
        for item in given {
            let (one, after) = self.variable(walk, item)?;
            made.push(one)?;
            walk = after;
        }
        Ok((made, walk))
    }

    /// The first part in the head of a `for`.
    pub fn start(&self, walk: Walk, given: &ForStart) -> Result<(ForStart, Walk), NoRoom>
        requires exprs { Makes expr_kind self.now.left (F.pre self.now.expr) (F.post self.now.expr) }
        requires stmts { Makes stmt_kind self.now.left (G.pre self.now.stmt) (G.post self.now.stmt) }
        ensures { IfOk result (λ r. Resolves (start_kind self.now.left) walk given.now r.0 r.1) }
    {
        match given {
            ForStart::NoStart => Ok((ForStart::NoStart, walk)),
            ForStart::ValueStart(given) => {
                let (made, walk) = self.expr(walk, given)?;
                Ok((ForStart::ValueStart(made), walk))
            }
            ForStart::VarStart(given) => {
                let (made, walk) = self.boxed_stmt(walk, given.get())?;
                Ok((ForStart::VarStart(made), walk))
            }
        }
    }

    /// What a `for` .. `in` sets.
    pub fn target(&self, walk: Walk, given: &ForTarget) -> Result<(ForTarget, Walk), NoRoom>
        requires exprs { Makes expr_kind self.now.left (F.pre self.now.expr) (F.post self.now.expr) }
        ensures { IfOk result (λ r. Resolves (target_kind self.now.left) walk given.now r.0 r.1) }
    {
        match given {
            ForTarget::TargetEach(given) => {
                let (made, walk) = self.expr(walk, given)?;
                Ok((ForTarget::TargetEach(made), walk))
            }
            ForTarget::VarEach(given) => {
                let named = bind(self.alloc, &walk, given)?;
                Ok((ForTarget::VarEach(named), walk))
            }
        }
    }

    /// A clause of a switch.
    pub fn case(&self, walk: Walk, given: &Case) -> Result<(Case, Walk), NoRoom>
        requires exprs { Makes expr_kind self.now.left (F.pre self.now.expr) (F.post self.now.expr) }
        requires stmts { Makes stmt_kind self.now.left (G.pre self.now.stmt) (G.post self.now.stmt) }
        ensures { IfOk result (λ r. Resolves (case_kind self.now.left) walk given.now r.0 r.1) }
    {
        let (test, walk) = self.option(walk, &given.test)?;
        match self.stmts(walk, given.statements.as_slice()) {
            Ok((statements, walk)) => Ok((Case { test, statements }, walk)),
            Err(stop) => {
                drops::option(test);
                Err(stop)
            }
        }
    }

    /// The clauses of a switch.
    pub fn cases(&self, walk: Walk, given: &[Case]) -> Result<(Items<Case>, Walk), NoRoom>
        requires exprs { Makes expr_kind self.now.left (F.pre self.now.expr) (F.post self.now.expr) }
        requires stmts { Makes stmt_kind self.now.left (G.pre self.now.stmt) (G.post self.now.stmt) }
        ensures { IfOk result (λ r. Resolves (list_kind (case_kind self.now.left)) walk given.now r.0 r.1) }
    {
        let mut made = Items::new(self.alloc);
        let mut walk = walk;
        for item in given {
            let (one, after) = self.case(walk, item)?;
            made.push(one)?;
            walk = after;
        }
        Ok((made, walk))
    }

    /// A catch, in a frame with its name (12.14).
    pub fn caught(&self, walk: Walk, given: &Catch) -> Result<(Catch, Walk), NoRoom>
        requires stmts { Makes stmt_kind self.now.left (G.pre self.now.stmt) (G.post self.now.stmt) }
        ensures { IfOk result (λ r. Resolves (catch_kind self.now.left) walk given.now r.0 r.1) }
    {
        let name = given.name.copy(self.alloc)?;
        let walk = walk.enter_one(self.alloc, &given.name, false)?;
        let (body, walk) = self.boxed_stmt(walk, given.body.get())?;
        Ok((Catch { name, body }, walk.leave()))
    }

    /// The body of a function with these parameters, in its frame (10.1.3).
    pub fn body(
        &self,
        walk: Walk,
        parameters: &[Units],
        given: &Script,
    ) -> Result<(Script, Walk), NoRoom>
        requires stmts { Makes stmt_kind self.now.left (G.pre self.now.stmt) (G.post self.now.stmt) }
        requires declarations { Makes declaration_kind self.now.left (H.pre self.now.declaration) (H.post self.now.declaration) }
        ensures { IfOk result (λ r. Resolves (body_kind self.now.left parameters.now) walk given.now r.0 r.1) }
    {
        let names = frame_names(self.alloc, parameters, given)?;
        let (number, walk) = walk.number()?;
        let walk = walk.enter(names, false)?;
        let (functions, walk) = self.declarations(walk, given.functions())?;
        let (statements, walk) = self.stmts(walk, given.statements())?;
        Ok((
            Script {
                number,
                functions,
                statements,
            },
            walk.leave(),
        ))
    }

    /// A declaration with what stands in it.
    pub fn declaration_node(
        &self,
        walk: Walk,
        given: &Declaration,
    ) -> Result<(Declaration, Walk), NoRoom>
        requires stmts { Makes stmt_kind self.now.left (G.pre self.now.stmt) (G.post self.now.stmt) }
        requires declarations { Makes declaration_kind self.now.left (H.pre self.now.declaration) (H.post self.now.declaration) }
        ensures { IfOk result (λ r. Resolves (declaration_kind (suc self.now.left)) walk given.now r.0 r.1) }
    {
        let name = given.name.copy(self.alloc)?;
        let parameters = copy_all(self.alloc, given.parameters())?;
        let (body, walk) = self.body(walk, given.parameters(), given.body())?;
        Ok((
            Declaration {
                name,
                parameters,
                body,
            },
            walk,
        ))
    }
}

//! What the walk does with each kind of expression.
ghost use Rattle.std.specs.Prelude.{◌≡◌, IfOk, suc, Some, None};
ghost use Rattle.js_tree.specs.declared.ExprNode.TheVariants as e;
ghost use Rattle.js_tree.specs.Trees.{expr_of};
ghost use Rattle.scope_names.specs.Walks.{Makes, Resolves};
ghost use Rattle.scope_names.specs.Kinds.{expr_kind, stmt_kind, declaration_kind};

use crate::NoRoom;
use crate::parts::{Below, bind, copy_all};
use crate::walk::Walk;
use js_tree::{
    BinaryOperator, Declaration, Expr, ExprNode, Field, Fix, Key, Literal, Named, Script, Sign,
    Stmt, UnaryOperator,
};
use std::alloc::Global;
use turk_base::Units;

/// An equal literal.
fn copy_literal(alloc: Global, given: &Literal) -> Result<Literal, NoRoom>
    ensures { IfOk result (λ made. made ≡ given.now) }
{
    match given {
        Literal::Null => Ok(Literal::Null),
        Literal::Truth(truth) => Ok(Literal::Truth(*truth)),
        Literal::Number(number) => Ok(Literal::Number(*number)),
        Literal::Text(text) => Ok(Literal::Text(text.copy(alloc)?)),
    }
}

impl<
    F: Fn(Walk, u32, &Expr) -> Result<(Expr, Walk), NoRoom>,
    G: Fn(Walk, u32, &Stmt) -> Result<(Stmt, Walk), NoRoom>,
    H: Fn(Walk, u32, &Declaration) -> Result<(Declaration, Walk), NoRoom>,
> Below<F, G, H> {
    pub fn name(&self, walk: Walk, named: &Named) -> Result<(Expr, Walk), NoRoom>
        ensures { IfOk result (λ r. Resolves (expr_kind (suc self.now.left)) walk (expr_of (e.Name named.now)) r.0 r.1) }
    {
        let named = bind(self.alloc, &walk, named)?;
        Ok((
            Expr {
                node: ExprNode::Name(named),
            },
            walk,
        ))
    }

    pub fn literal(&self, walk: Walk, literal: &Literal) -> Result<(Expr, Walk), NoRoom>
        ensures { IfOk result (λ r. Resolves (expr_kind (suc self.now.left)) walk (expr_of (e.Literal literal.now)) r.0 r.1) }
    {
        let literal = copy_literal(self.alloc, literal)?;
        Ok((
            Expr {
                node: ExprNode::Literal(literal),
            },
            walk,
        ))
    }

    pub fn void(&self, walk: Walk, a: &Expr) -> Result<(Expr, Walk), NoRoom>
        requires exprs { Makes expr_kind self.now.left (F.pre self.now.expr) (F.post self.now.expr) }
        ensures { IfOk result (λ r. Resolves (expr_kind (suc self.now.left)) walk (expr_of (e.Void a.now)) r.0 r.1) }
    {
        let (a, walk) = self.boxed(walk, a)?;
        Ok((
            Expr {
                node: ExprNode::Void(a),
            },
            walk,
        ))
    }

    pub fn type_of(&self, walk: Walk, a: &Expr) -> Result<(Expr, Walk), NoRoom>
        requires exprs { Makes expr_kind self.now.left (F.pre self.now.expr) (F.post self.now.expr) }
        ensures { IfOk result (λ r. Resolves (expr_kind (suc self.now.left)) walk (expr_of (e.Typeof a.now)) r.0 r.1) }
    {
        let (a, walk) = self.boxed(walk, a)?;
        Ok((
            Expr {
                node: ExprNode::Typeof(a),
            },
            walk,
        ))
    }

    pub fn post(&self, walk: Walk, a: &Expr) -> Result<(Expr, Walk), NoRoom>
        requires exprs { Makes expr_kind self.now.left (F.pre self.now.expr) (F.post self.now.expr) }
        ensures { IfOk result (λ r. Resolves (expr_kind (suc self.now.left)) walk (expr_of (e.Post a.now)) r.0 r.1) }
    {
        let (a, walk) = self.boxed(walk, a)?;
        Ok((
            Expr {
                node: ExprNode::Post(a),
            },
            walk,
        ))
    }

    pub fn reply(&self, walk: Walk, a: &Expr) -> Result<(Expr, Walk), NoRoom>
        requires exprs { Makes expr_kind self.now.left (F.pre self.now.expr) (F.post self.now.expr) }
        ensures { IfOk result (λ r. Resolves (expr_kind (suc self.now.left)) walk (expr_of (e.Reply a.now)) r.0 r.1) }
    {
        let (a, walk) = self.boxed(walk, a)?;
        Ok((
            Expr {
                node: ExprNode::Reply(a),
            },
            walk,
        ))
    }

    pub fn prompt(&self, walk: Walk, a: &Expr) -> Result<(Expr, Walk), NoRoom>
        requires exprs { Makes expr_kind self.now.left (F.pre self.now.expr) (F.post self.now.expr) }
        ensures { IfOk result (λ r. Resolves (expr_kind (suc self.now.left)) walk (expr_of (e.Prompt a.now)) r.0 r.1) }
    {
        let (a, walk) = self.boxed(walk, a)?;
        Ok((
            Expr {
                node: ExprNode::Prompt(a),
            },
            walk,
        ))
    }

    pub fn random(&self, walk: Walk, a: &Expr) -> Result<(Expr, Walk), NoRoom>
        requires exprs { Makes expr_kind self.now.left (F.pre self.now.expr) (F.post self.now.expr) }
        ensures { IfOk result (λ r. Resolves (expr_kind (suc self.now.left)) walk (expr_of (e.Random a.now)) r.0 r.1) }
    {
        let (a, walk) = self.boxed(walk, a)?;
        Ok((
            Expr {
                node: ExprNode::Random(a),
            },
            walk,
        ))
    }

    pub fn once(&self, walk: Walk, a: &Expr) -> Result<(Expr, Walk), NoRoom>
        requires exprs { Makes expr_kind self.now.left (F.pre self.now.expr) (F.post self.now.expr) }
        ensures { IfOk result (λ r. Resolves (expr_kind (suc self.now.left)) walk (expr_of (e.Once a.now)) r.0 r.1) }
    {
        let (a, walk) = self.boxed(walk, a)?;
        Ok((
            Expr {
                node: ExprNode::Once(a),
            },
            walk,
        ))
    }

    pub fn fork(&self, walk: Walk, a: &Expr) -> Result<(Expr, Walk), NoRoom>
        requires exprs { Makes expr_kind self.now.left (F.pre self.now.expr) (F.post self.now.expr) }
        ensures { IfOk result (λ r. Resolves (expr_kind (suc self.now.left)) walk (expr_of (e.Fork a.now)) r.0 r.1) }
    {
        let (a, walk) = self.boxed(walk, a)?;
        Ok((
            Expr {
                node: ExprNode::Fork(a),
            },
            walk,
        ))
    }

    pub fn unary(
        &self,
        walk: Walk,
        operator: UnaryOperator,
        a: &Expr,
    ) -> Result<(Expr, Walk), NoRoom>
        requires exprs { Makes expr_kind self.now.left (F.pre self.now.expr) (F.post self.now.expr) }
        ensures { IfOk result (λ r. Resolves (expr_kind (suc self.now.left)) walk (expr_of (e.Unary operator a.now)) r.0 r.1) }
    {
        let (a, walk) = self.boxed(walk, a)?;
        Ok((
            Expr {
                node: ExprNode::Unary(operator, a),
            },
            walk,
        ))
    }

    pub fn update(&self, walk: Walk, a: &Expr, sign: Sign, fix: Fix) -> Result<(Expr, Walk), NoRoom>
        requires exprs { Makes expr_kind self.now.left (F.pre self.now.expr) (F.post self.now.expr) }
        ensures { IfOk result (λ r. Resolves (expr_kind (suc self.now.left)) walk (expr_of (e.Update a.now sign fix)) r.0 r.1) }
    {
        let (a, walk) = self.boxed(walk, a)?;
        Ok((
            Expr {
                node: ExprNode::Update(a, sign, fix),
            },
            walk,
        ))
    }

    pub fn and(&self, walk: Walk, a: &Expr, b: &Expr) -> Result<(Expr, Walk), NoRoom>
        requires exprs { Makes expr_kind self.now.left (F.pre self.now.expr) (F.post self.now.expr) }
        ensures { IfOk result (λ r. Resolves (expr_kind (suc self.now.left)) walk (expr_of (e.And a.now b.now)) r.0 r.1) }
    {
        let (a, walk) = self.boxed(walk, a)?;
        let (b, walk) = self.boxed(walk, b)?;
        Ok((
            Expr {
                node: ExprNode::And(a, b),
            },
            walk,
        ))
    }

    pub fn or(&self, walk: Walk, a: &Expr, b: &Expr) -> Result<(Expr, Walk), NoRoom>
        requires exprs { Makes expr_kind self.now.left (F.pre self.now.expr) (F.post self.now.expr) }
        ensures { IfOk result (λ r. Resolves (expr_kind (suc self.now.left)) walk (expr_of (e.Or a.now b.now)) r.0 r.1) }
    {
        let (a, walk) = self.boxed(walk, a)?;
        let (b, walk) = self.boxed(walk, b)?;
        Ok((
            Expr {
                node: ExprNode::Or(a, b),
            },
            walk,
        ))
    }

    pub fn comma(&self, walk: Walk, a: &Expr, b: &Expr) -> Result<(Expr, Walk), NoRoom>
        requires exprs { Makes expr_kind self.now.left (F.pre self.now.expr) (F.post self.now.expr) }
        ensures { IfOk result (λ r. Resolves (expr_kind (suc self.now.left)) walk (expr_of (e.Comma a.now b.now)) r.0 r.1) }
    {
        let (a, walk) = self.boxed(walk, a)?;
        let (b, walk) = self.boxed(walk, b)?;
        Ok((
            Expr {
                node: ExprNode::Comma(a, b),
            },
            walk,
        ))
    }

    pub fn binary(
        &self,
        walk: Walk,
        operator: BinaryOperator,
        a: &Expr,
        b: &Expr,
    ) -> Result<(Expr, Walk), NoRoom>
        requires exprs { Makes expr_kind self.now.left (F.pre self.now.expr) (F.post self.now.expr) }
        ensures { IfOk result (λ r. Resolves (expr_kind (suc self.now.left)) walk (expr_of (e.Binary operator a.now b.now)) r.0 r.1) }
    {
        let (a, walk) = self.boxed(walk, a)?;
        let (b, walk) = self.boxed(walk, b)?;
        Ok((
            Expr {
                node: ExprNode::Binary(operator, a, b),
            },
            walk,
        ))
    }

    pub fn assign(
        &self,
        walk: Walk,
        operator: Option<BinaryOperator>,
        a: &Expr,
        b: &Expr,
    ) -> Result<(Expr, Walk), NoRoom>
        requires exprs { Makes expr_kind self.now.left (F.pre self.now.expr) (F.post self.now.expr) }
        ensures { IfOk result (λ r. Resolves (expr_kind (suc self.now.left)) walk (expr_of (e.Assign operator a.now b.now)) r.0 r.1) }
    {
        let (a, walk) = self.boxed(walk, a)?;
        let (b, walk) = self.boxed(walk, b)?;
        Ok((
            Expr {
                node: ExprNode::Assign(operator, a, b),
            },
            walk,
        ))
    }

    pub fn conditional(
        &self,
        walk: Walk,
        a: &Expr,
        b: &Expr,
        c: &Expr,
    ) -> Result<(Expr, Walk), NoRoom>
        requires exprs { Makes expr_kind self.now.left (F.pre self.now.expr) (F.post self.now.expr) }
        ensures { IfOk result (λ r. Resolves (expr_kind (suc self.now.left)) walk (expr_of (e.Conditional a.now b.now c.now)) r.0 r.1) }
    {
        let (a, walk) = self.boxed(walk, a)?;
        let (b, walk) = self.boxed(walk, b)?;
        let (c, walk) = self.boxed(walk, c)?;
        Ok((
            Expr {
                node: ExprNode::Conditional(a, b, c),
            },
            walk,
        ))
    }

    pub fn array(&self, walk: Walk, list: &[Expr]) -> Result<(Expr, Walk), NoRoom>
        requires exprs { Makes expr_kind self.now.left (F.pre self.now.expr) (F.post self.now.expr) }
        ensures { IfOk result (λ r. Resolves (expr_kind (suc self.now.left)) walk (expr_of (e.Array list.now)) r.0 r.1) }
    {
        let (list, walk) = self.exprs(walk, list)?;
        Ok((
            Expr {
                node: ExprNode::Array(list),
            },
            walk,
        ))
    }

    pub fn print(&self, walk: Walk, list: &[Expr]) -> Result<(Expr, Walk), NoRoom>
        requires exprs { Makes expr_kind self.now.left (F.pre self.now.expr) (F.post self.now.expr) }
        ensures { IfOk result (λ r. Resolves (expr_kind (suc self.now.left)) walk (expr_of (e.Print list.now)) r.0 r.1) }
    {
        let (list, walk) = self.exprs(walk, list)?;
        Ok((
            Expr {
                node: ExprNode::Print(list),
            },
            walk,
        ))
    }

    pub fn object(&self, walk: Walk, fields: &[Field]) -> Result<(Expr, Walk), NoRoom>
        requires exprs { Makes expr_kind self.now.left (F.pre self.now.expr) (F.post self.now.expr) }
        ensures { IfOk result (λ r. Resolves (expr_kind (suc self.now.left)) walk (expr_of (e.Object fields.now)) r.0 r.1) }
    {
        let (fields, walk) = self.fields(walk, fields)?;
        Ok((
            Expr {
                node: ExprNode::Object(fields),
            },
            walk,
        ))
    }

    pub fn call(&self, walk: Walk, a: &Expr, list: &[Expr]) -> Result<(Expr, Walk), NoRoom>
        requires exprs { Makes expr_kind self.now.left (F.pre self.now.expr) (F.post self.now.expr) }
        ensures { IfOk result (λ r. Resolves (expr_kind (suc self.now.left)) walk (expr_of (e.Call a.now list.now)) r.0 r.1) }
    {
        let (a, walk) = self.boxed(walk, a)?;
        let (list, walk) = self.exprs(walk, list)?;
        Ok((
            Expr {
                node: ExprNode::Call(a, list),
            },
            walk,
        ))
    }

    pub fn construct(&self, walk: Walk, a: &Expr, list: &[Expr]) -> Result<(Expr, Walk), NoRoom>
        requires exprs { Makes expr_kind self.now.left (F.pre self.now.expr) (F.post self.now.expr) }
        ensures { IfOk result (λ r. Resolves (expr_kind (suc self.now.left)) walk (expr_of (e.New a.now list.now)) r.0 r.1) }
    {
        let (a, walk) = self.boxed(walk, a)?;
        let (list, walk) = self.exprs(walk, list)?;
        Ok((
            Expr {
                node: ExprNode::New(a, list),
            },
            walk,
        ))
    }

    pub fn member(&self, walk: Walk, a: &Expr, key: &Key) -> Result<(Expr, Walk), NoRoom>
        requires exprs { Makes expr_kind self.now.left (F.pre self.now.expr) (F.post self.now.expr) }
        ensures { IfOk result (λ r. Resolves (expr_kind (suc self.now.left)) walk (expr_of (e.Member a.now key.now)) r.0 r.1) }
    {
        let (a, walk) = self.boxed(walk, a)?;
        let (key, walk) = self.key(walk, key)?;
        Ok((
            Expr {
                node: ExprNode::Member(a, key),
            },
            walk,
        ))
    }

    pub fn delete(&self, walk: Walk, a: &Expr, key: &Key) -> Result<(Expr, Walk), NoRoom>
        requires exprs { Makes expr_kind self.now.left (F.pre self.now.expr) (F.post self.now.expr) }
        ensures { IfOk result (λ r. Resolves (expr_kind (suc self.now.left)) walk (expr_of (e.Delete a.now key.now)) r.0 r.1) }
    {
        let (a, walk) = self.boxed(walk, a)?;
        let (key, walk) = self.key(walk, key)?;
        Ok((
            Expr {
                node: ExprNode::Delete(a, key),
            },
            walk,
        ))
    }

    pub fn function(
        &self,
        walk: Walk,
        own: &Option<Units>,
        parameters: &[Units],
        body: &Script,
    ) -> Result<(Expr, Walk), NoRoom>
        requires stmts { Makes stmt_kind self.now.left (G.pre self.now.stmt) (G.post self.now.stmt) }
        requires declarations { Makes declaration_kind self.now.left (H.pre self.now.declaration) (H.post self.now.declaration) }
        ensures { IfOk result (λ r. Resolves (expr_kind (suc self.now.left)) walk (expr_of (e.Function own.now parameters.now body.now)) r.0 r.1) }
    {
        match own {
            Some(own) => self.named_function(walk, own, parameters, body),
            None => self.plain_function(walk, parameters, body),
        }
    }

    pub fn plain_function(
        &self,
        walk: Walk,
        parameters: &[Units],
        body: &Script,
    ) -> Result<(Expr, Walk), NoRoom>
        requires stmts { Makes stmt_kind self.now.left (G.pre self.now.stmt) (G.post self.now.stmt) }
        requires declarations { Makes declaration_kind self.now.left (H.pre self.now.declaration) (H.post self.now.declaration) }
        ensures { IfOk result (λ r. Resolves (expr_kind (suc self.now.left)) walk (expr_of (e.Function None parameters.now body.now)) r.0 r.1) }
    {
        let copies = copy_all(self.alloc, parameters)?;
        let (body, walk) = self.body(walk, parameters, body)?;
        Ok((
            Expr {
                node: ExprNode::Function(None, copies, body),
            },
            walk,
        ))
    }

    pub fn named_function(
        &self,
        walk: Walk,
        own: &Units,
        parameters: &[Units],
        body: &Script,
    ) -> Result<(Expr, Walk), NoRoom>
        requires stmts { Makes stmt_kind self.now.left (G.pre self.now.stmt) (G.post self.now.stmt) }
        requires declarations { Makes declaration_kind self.now.left (H.pre self.now.declaration) (H.post self.now.declaration) }
        ensures { IfOk result (λ r. Resolves (expr_kind (suc self.now.left)) walk (expr_of (e.Function (Some own.now) parameters.now body.now)) r.0 r.1) }
    {
        let name = own.copy(self.alloc)?;
        let copies = copy_all(self.alloc, parameters)?;
        let walk = walk.enter_one(self.alloc, own, true)?;
        let (body, walk) = self.body(walk, parameters, body)?;
        let walk = walk.leave();
        Ok((
            Expr {
                node: ExprNode::Function(Some(name), copies, body),
            },
            walk,
        ))
    }

    /// Any expression.
    pub fn expr_node(&self, walk: Walk, given: &Expr) -> Result<(Expr, Walk), NoRoom>
        requires exprs { Makes expr_kind self.now.left (F.pre self.now.expr) (F.post self.now.expr) }
        requires stmts { Makes stmt_kind self.now.left (G.pre self.now.stmt) (G.post self.now.stmt) }
        requires declarations { Makes declaration_kind self.now.left (H.pre self.now.declaration) (H.post self.now.declaration) }
        ensures { IfOk result (λ r. Resolves (expr_kind (suc self.now.left)) walk given.now r.0 r.1) }
    {
        match given.node() {
            ExprNode::This => Ok((
                Expr {
                    node: ExprNode::This,
                },
                walk,
            )),
            ExprNode::Join => Ok((
                Expr {
                    node: ExprNode::Join,
                },
                walk,
            )),
            ExprNode::Crash => Ok((
                Expr {
                    node: ExprNode::Crash,
                },
                walk,
            )),
            ExprNode::Name(named) => self.name(walk, named),
            ExprNode::Literal(literal) => self.literal(walk, literal),
            ExprNode::Void(a) => self.void(walk, a.get()),
            ExprNode::Typeof(a) => self.type_of(walk, a.get()),
            ExprNode::Post(a) => self.post(walk, a.get()),
            ExprNode::Reply(a) => self.reply(walk, a.get()),
            ExprNode::Prompt(a) => self.prompt(walk, a.get()),
            ExprNode::Random(a) => self.random(walk, a.get()),
            ExprNode::Once(a) => self.once(walk, a.get()),
            ExprNode::Fork(a) => self.fork(walk, a.get()),
            ExprNode::Unary(operator, a) => self.unary(walk, *operator, a.get()),
            ExprNode::Update(a, sign, fix) => self.update(walk, a.get(), *sign, *fix),
            ExprNode::And(a, b) => self.and(walk, a.get(), b.get()),
            ExprNode::Or(a, b) => self.or(walk, a.get(), b.get()),
            ExprNode::Comma(a, b) => self.comma(walk, a.get(), b.get()),
            ExprNode::Binary(operator, a, b) => self.binary(walk, *operator, a.get(), b.get()),
            ExprNode::Assign(operator, a, b) => self.assign(walk, *operator, a.get(), b.get()),
            ExprNode::Conditional(a, b, c) => self.conditional(walk, a.get(), b.get(), c.get()),
            ExprNode::Array(list) => self.array(walk, list.as_slice()),
            ExprNode::Print(list) => self.print(walk, list.as_slice()),
            ExprNode::Object(fields) => self.object(walk, fields.as_slice()),
            ExprNode::Call(a, list) => self.call(walk, a.get(), list.as_slice()),
            ExprNode::New(a, list) => self.construct(walk, a.get(), list.as_slice()),
            ExprNode::Member(a, key) => self.member(walk, a.get(), key),
            ExprNode::Delete(a, key) => self.delete(walk, a.get(), key),
            ExprNode::Function(own, parameters, body) => self.function(
                walk,
                own,
                parameters.as_slice(),
                body,
            ),
        }
    }
}

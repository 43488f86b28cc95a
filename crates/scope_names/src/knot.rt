//! The functions that walk a tree, tied to those that walk its nodes.
ghost use Rattle.std.specs.Prelude.{IfOk};
ghost use Rattle.scope_names.specs.Walks.{Resolves};
ghost use Rattle.scope_names.specs.Kinds.{expr_kind, stmt_kind, declaration_kind};

use crate::NoRoom;
use crate::parts::Below;
use crate::walk::Walk;
use js_tree::{Declaration, Expr, Stmt};

/// An expression, which is at most so many levels high. A higher one, which no lawful script has, would want more stack than is granted.
#[cycle(knot)]
pub fn expr(walk: Walk, left: u32, given: &Expr) -> Result<(Expr, Walk), NoRoom>
    ensures { IfOk result (λ r. Resolves (expr_kind left) walk given.now r.0 r.1) }
{
    if left == 0 {
        return Err(NoRoom);
    }
    Below {
        alloc: walk.alloc,
        left: left - 1,
        expr,
        stmt,
        declaration,
    }
    .expr_node(walk, given)
}

/// A statement, which is at most so many levels high.
#[cycle(knot)]
pub fn stmt(walk: Walk, left: u32, given: &Stmt) -> Result<(Stmt, Walk), NoRoom>
    ensures { IfOk result (λ r. Resolves (stmt_kind left) walk given.now r.0 r.1) }
{
    if left == 0 {
        return Err(NoRoom);
    }
    Below {
        alloc: walk.alloc,
        left: left - 1,
        expr,
        stmt,
        declaration,
    }
    .stmt_node(walk, given)
}

/// A function declaration, which is at most so many levels high.
#[cycle(knot)]
pub fn declaration(
    walk: Walk,
    left: u32,
    given: &Declaration,
) -> Result<(Declaration, Walk), NoRoom>
    ensures { IfOk result (λ r. Resolves (declaration_kind left) walk given.now r.0 r.1) }
{
    if left == 0 {
        return Err(NoRoom);
    }
    Below {
        alloc: walk.alloc,
        left: left - 1,
        expr,
        stmt,
        declaration,
    }
    .declaration_node(walk, given)
}

//! Lets go of parts of trees.
//!
//! A function that lets go of an expression by itself is checked over all types of a tree once more. The rows of the
//! parser hand what they do not need to these functions, so that this is done here alone.
#![tactic(auto)]

ghost use Rattle.std.specs.Prelude.{◌≡◌, [], ◌∷◌, ◌++◌, IfOk};
ghost use Rattle.js_tree.specs.Trees.{expr_level};
ghost use Rattle.tree_drops.specs.Deletes.{delete_of};

use js_tree::{
    Case, Catch, Declaration, Expr, ExprNode, Field, ForStart, ForTarget, Script, Stmt, Variable,
};
use sqlite_items::Items;
use turk_base::NoMemory;

/// Lets go of an expression.
pub fn expr(_it: Expr) {}

/// Lets go of expressions.
pub fn exprs(_them: Items<Expr>) {}

/// Lets go of fields.
pub fn fields(_them: Items<Field>) {}

/// Lets go of a script.
pub fn script(_it: Script) {}

/// Lets go of an expression that may be missing.
pub fn maybe_expr(_it: Option<Expr>) {}

/// Lets go of a statement.
pub fn stmt(_it: Stmt) {}

/// Lets go of statements.
pub fn stmts(_them: Items<Stmt>) {}

/// Lets go of a name of a declaration with its value.
pub fn variable(_it: Variable) {}

/// Lets go of names of a declaration with their values.
pub fn variables(_them: Items<Variable>) {}

/// Lets go of what stands first in the head of a `for`.
pub fn for_start(_it: ForStart) {}

/// Lets go of what a `for` .. `in` sets.
pub fn for_target(_it: ForTarget) {}

/// Lets go of clauses of a `switch`.
pub fn cases(_them: Items<Case>) {}

/// Lets go of the catch of a `try`, which may be missing.
pub fn maybe_catch(_it: Option<Catch>) {}

/// Lets go of declarations.
pub fn declarations(_them: Items<Declaration>) {}

/// The expressions with one more at their end.
pub fn exprs_with(exprs: Items<Expr>, one: Expr) -> Result<Items<Expr>, NoMemory>
    ensures { IfOk result (λ r. r ≡ exprs ++ one ∷ []) }
{
    let mut exprs = exprs;
    match exprs.push(one) {
        Ok(()) => Ok(exprs),
        Err(_) => Err(NoMemory),
    }
}

/// The fields with one more at their end.
pub fn fields_with(fields: Items<Field>, one: Field) -> Result<Items<Field>, NoMemory>
    ensures { IfOk result (λ r. r ≡ fields ++ one ∷ []) }
{
    let mut fields = fields;
    match fields.push(one) {
        Ok(()) => Ok(fields),
        Err(_) => Err(NoMemory),
    }
}

/// The statements with one more at their end.
pub fn stmts_with(stmts: Items<Stmt>, one: Stmt) -> Result<Items<Stmt>, NoMemory>
    ensures { IfOk result (λ r. r ≡ stmts ++ one ∷ []) }
{
    let mut stmts = stmts;
    match stmts.push(one) {
        Ok(()) => Ok(stmts),
        Err(_) => Err(NoMemory),
    }
}

/// The names of a declaration with one more at their end.
pub fn variables_with(
    variables: Items<Variable>,
    one: Variable,
) -> Result<Items<Variable>, NoMemory>
    ensures { IfOk result (λ r. r ≡ variables ++ one ∷ []) }
{
    let mut variables = variables;
    match variables.push(one) {
        Ok(()) => Ok(variables),
        Err(_) => Err(NoMemory),
    }
}

/// The clauses with one more at their end.
pub fn cases_with(cases: Items<Case>, one: Case) -> Result<Items<Case>, NoMemory>
    ensures { IfOk result (λ r. r ≡ cases ++ one ∷ []) }
{
    let mut cases = cases;
    match cases.push(one) {
        Ok(()) => Ok(cases),
        Err(_) => Err(NoMemory),
    }
}

/// The declarations with one more at their end.
pub fn declarations_with(
    declarations: Items<Declaration>,
    one: Declaration,
) -> Result<Items<Declaration>, NoMemory>
    ensures { IfOk result (λ r. r ≡ declarations ++ one ∷ []) }
{
    let mut declarations = declarations;
    match declarations.push(one) {
        Ok(()) => Ok(declarations),
        Err(_) => Err(NoMemory),
    }
}

/// The `delete` of a member, or nothing where the expression is no member; it is let go then.
pub fn deleted(it: Expr) -> Option<Expr>
    ensures { result ≡ delete_of (expr_level it) }
{
    match it.node {
        ExprNode::Member(base, key) => Some(Expr {
            node: ExprNode::Delete(base, key),
        }),
        _ => None,
    }
}

//! Which row each kind of expression has (ECMA-262 3rd ed. 11).
ghost use Rattle.std.specs.Prelude.{◌≡◌, ◌<◌, ◌≤◌, IfOk, IfErr};
ghost use Rattle.js_tree.specs.Rows.{expr_to, stmt_to, expr_row};
ghost use Rattle.js_tree.specs.Trees.{expr_level};
ghost use Rattle.value_cells.specs.Needs.{needs};
ghost use Rattle.run_host.specs.Moment.{cells};
ghost use Rattle.run_host.specs.Told.{told_value, told_flow, here_in, here_needs, exit_needs};
ghost use Rattle.run_host.specs.Did.{Runs};
ghost use Rattle.tree_rows.specs.Codes.{table_in};
ghost use Rattle.tree_rows.specs.Nests.{Nests};

use call_rows::calls::call;
use call_rows::news::new_object;
use call_rows::prints::print;
use call_rows::scopes::{fork, once};
use host_steps::literals::{function, literal, name, this};
use js_tree::{Expr, ExprNode, Stmt};
use operator_rows::asks::{post, prompt, random, reply};
use operator_rows::operations::{binary, type_name, unary};
use run_host::{Exit, Flow, Here, Host};
use std::alloc::Global;
use target_rows::{assignment, update};
use tree_rows::{Below, Codes};
use value_cells::Value;
use value_rows::asks::{crash, join};

/// An expression, by its kind.
pub fn expr_node<
    H: Host,
    E: Fn(Global, &Codes, u32, &mut H, Here, &Expr) -> Result<Value, Exit>,
    S: Fn(Global, &Codes, u32, &mut H, Here, &Stmt) -> Result<Flow, Exit>,
>(below: &Below<H, E, S>, codes: &Codes, host: &mut H, here: Here, e: &Expr) -> Result<Value, Exit>
    requires below { Nests H H.moment H.is_sound (table_in codes.now) below.now.left (E.pre below.now.expr) (E.post below.now.expr) (S.pre below.now.stmt) (S.post below.now.stmt) }
    requires sound { H.is_sound host.old }
    requires here { here_needs here ≤ cells (H.moment host.old) }
    ensures ran { Runs (λ nu. expr_row (table_in codes.now) (expr_to (table_in codes.now) below.now.left) (stmt_to (table_in codes.now) below.now.left) (here_in nu here) (expr_level e.now)) (λ nu. told_value nu result) (H.moment host.old) (H.moment host.new) }
    ensures exists { IfOk result (λ v. needs v ≤ cells (H.moment host.new)) }
    ensures more { cells (H.moment host.old) ≤ cells (H.moment host.new) }
    ensures thrown { IfErr result (λ x. exit_needs x ≤ cells (H.moment host.new)) }
    ensures sound { H.is_sound host.new }
{
    match &e.node {
        ExprNode::This => this(here),
        ExprNode::Name(x) => name(below.alloc, host, here, x),
        ExprNode::Literal(x) => literal(below.alloc, x),
        ExprNode::Array(es) => below.array(codes, host, here, es.as_slice()),
        ExprNode::Object(xs) => below.object(codes, host, here, xs.as_slice()),
        ExprNode::Function(own, _, body) => function(below.alloc, host, here, own.as_ref(), body),
        ExprNode::Member(b, k) => below.property(codes, host, here, b.get(), k),
        ExprNode::Call(e, es) => call(below, codes, host, here, e.get(), es.as_slice()),
        ExprNode::New(e, es) => new_object(below, codes, host, here, e.get(), es.as_slice()),
        ExprNode::Update(e, sign, fix) => update(below, codes, host, here, e.get(), *sign, *fix),
        ExprNode::Delete(b, k) => below.delete(codes, host, here, b.get(), k),
        ExprNode::Void(e) => below.void(codes, host, here, e.get()),
        ExprNode::Typeof(e) => type_name(below, codes, host, here, e.get()),
        ExprNode::Unary(operator, e) => unary(below, codes, host, here, *operator, e.get()),
        ExprNode::Binary(operator, a, b) => binary(
            below,
            codes,
            host,
            here,
            *operator,
            a.get(),
            b.get(),
        ),
        ExprNode::And(a, b) => below.and(codes, host, here, a.get(), b.get()),
        ExprNode::Or(a, b) => below.or(codes, host, here, a.get(), b.get()),
        ExprNode::Conditional(t, a, b) => below.conditional(
            codes,
            host,
            here,
            t.get(),
            a.get(),
            b.get(),
        ),
        ExprNode::Assign(operator, t, e) => assignment(
            below,
            codes,
            host,
            here,
            *operator,
            t.get(),
            e.get(),
        ),
        ExprNode::Comma(a, b) => below.comma(codes, host, here, a.get(), b.get()),
        ExprNode::Print(es) => print(below, codes, host, here, es.as_slice()),
        ExprNode::Post(e) => post(below, codes, host, here, e.get()),
        ExprNode::Reply(e) => reply(below, codes, host, here, e.get()),
        ExprNode::Prompt(e) => prompt(below, codes, host, here, e.get()),
        ExprNode::Random(e) => random(below, codes, host, here, e.get()),
        ExprNode::Once(e) => once(below, codes, host, here, e.get()),
        ExprNode::Fork(e) => fork(below, codes, host, here, e.get()),
        ExprNode::Join => join(host),
        ExprNode::Crash => crash(host),
    }
}

//! The codes of the functions of a script: each before those inside it, in the order of the text but declarations first.
ghost use Rattle.std.specs.Prelude.{◌≡◌, ◌++◌, ◌∷◌, [], IfOk};
ghost use Rattle.js_tree.specs.declared.ExprNode.{out-ExprNode};
ghost use Rattle.js_tree.specs.declared.StmtNode.{out-StmtNode};
ghost use Rattle.js_tree.specs.declared.Key.{out-Key};
ghost use Rattle.js_tree.specs.declared.Field.{out-Field};
ghost use Rattle.js_tree.specs.declared.ForStart.{out-ForStart};
ghost use Rattle.js_tree.specs.declared.ForTarget.{out-ForTarget};
ghost use Rattle.js_tree.specs.declared.Variable.{out-Variable};
ghost use Rattle.js_tree.specs.declared.Catch.{out-Catch};
ghost use Rattle.js_tree.specs.Trees.{declared_parameters, declared_body};
ghost use Rattle.js_tree.specs.Table.{all_in, if_there, expr_codes, stmt_codes, body_codes, in_key as key_codes, in_expr as expr_level_codes, in_start as start_codes, in_target as target_codes, in_case as case_codes, in_stmt as stmt_level_codes, in_script as script_codes, table_of};
ghost use Rattle.tree_rows.specs.Codes.{code_in, table_in};

use crate::hoist::variables;
use js_tree::{
    Case, Catch, Declaration, Expr, ExprNode, Field, ForStart, ForTarget, Key, Script, Stmt,
    StmtNode, Variable,
};
use sqlite_items::Boxed;
use std::alloc::Global;
use tree_rows::{CodeRef, Codes};
use turk_base::{NoMemory, Units};

/// How deep a script is searched for functions; a lawful one is at most half as deep.
const DEPTH: u32 = 400;

/// The codes of all functions of a script, each at its number. What stands deeper than 400 levels is not searched; no lawful
/// script is so deep. It is refused only for want of memory.
pub fn codes_of<'a>(alloc: Global, script: &'a Script) -> Result<Codes<'a>, NoMemory>
    ensures { IfOk result (λ codes. table_in codes ≡ table_of script.now) }
{
    let none = Codes {
        all: Vec::new(alloc),
    };
    in_script(alloc, none, DEPTH, script)
}

/// A script as a code without parameters. It is refused only for want of memory.
pub fn whole<'a>(alloc: Global, script: &'a Script) -> Result<CodeRef<'a>, NoMemory>
    ensures body { IfOk result (λ code. code.body.now ≡ script.now) }
    ensures parameters { IfOk result (λ code. code.parameters.now ≡ []) }
{
    code_of(alloc, &[], script)
}

/// The code of a function.
fn code_of<'a>(
    alloc: Global,
    parameters: &'a [Units],
    body: &'a Script,
) -> Result<CodeRef<'a>, NoMemory>
    ensures { IfOk result (λ code. code_in code ≡ record { parameters = parameters.now; body = body.now }) }
{
    let variables = variables(alloc, body.statements())?;
    Ok(CodeRef {
        parameters,
        body,
        variables,
    })
}

/// The codes with one more at their end.
fn add<'a>(codes: Codes<'a>, code: CodeRef<'a>) -> Result<Codes<'a>, NoMemory>
    ensures { IfOk result (λ made. table_in made ≡ table_in codes.entry ++ code_in code.entry ∷ []) }
{
    let mut codes = codes;
    match codes.all.push(code) {
        Ok(()) => Ok(codes),
        Err(_) => Err(NoMemory),
    }
}

/// Adds the codes in an expression, to so many levels.
#[cycle(codes)]
fn in_expr<'a>(
    alloc: Global,
    codes: Codes<'a>,
    left: u32,
    e: &'a Expr,
) -> Result<Codes<'a>, NoMemory>
    ensures { IfOk result (λ made. table_in made ≡ table_in codes.entry ++ expr_codes left e.now) }
{
    if left == 0 {
        return Ok(codes);
    }
    in_expr_node(alloc, codes, left - 1, e.node())
}

#[cycle(codes)]
fn in_expr_node<'a>(
    alloc: Global,
    codes: Codes<'a>,
    left: u32,
    node: &'a ExprNode,
) -> Result<Codes<'a>, NoMemory>
    ensures { IfOk result (λ made. table_in made ≡ table_in codes.entry ++ expr_level_codes (expr_codes left) (stmt_codes left) (body_codes left) (out-ExprNode node.now)) }
{
    match node {
        ExprNode::This => Ok(codes),
        ExprNode::Name(_) => Ok(codes),
        ExprNode::Literal(_) => Ok(codes),
        ExprNode::Join => Ok(codes),
        ExprNode::Crash => Ok(codes),
        ExprNode::Array(list) => in_exprs(alloc, codes, left, list.as_slice()),
        ExprNode::Object(fields) => in_fields(alloc, codes, left, fields.as_slice()),
        ExprNode::Function(_, parameters, body) => {
            in_body(alloc, codes, left, parameters.as_slice(), body)
        }
        ExprNode::Member(a, key) => in_member(alloc, codes, left, a.get(), key),
        ExprNode::Delete(a, key) => in_member(alloc, codes, left, a.get(), key),
        ExprNode::Call(a, list) => in_call(alloc, codes, left, a.get(), list.as_slice()),
        ExprNode::New(a, list) => in_call(alloc, codes, left, a.get(), list.as_slice()),
        ExprNode::Update(a, _, _) => in_expr(alloc, codes, left, a.get()),
        ExprNode::Void(a) => in_expr(alloc, codes, left, a.get()),
        ExprNode::Typeof(a) => in_expr(alloc, codes, left, a.get()),
        ExprNode::Unary(_, a) => in_expr(alloc, codes, left, a.get()),
        ExprNode::Binary(_, a, b) => in_two(alloc, codes, left, a.get(), b.get()),
        ExprNode::And(a, b) => in_two(alloc, codes, left, a.get(), b.get()),
        ExprNode::Or(a, b) => in_two(alloc, codes, left, a.get(), b.get()),
        ExprNode::Conditional(a, b, c) => {
            in_three(alloc, codes, left, a.get(), b.get(), c.get())
        }
        ExprNode::Assign(_, a, b) => in_two(alloc, codes, left, a.get(), b.get()),
        ExprNode::Comma(a, b) => in_two(alloc, codes, left, a.get(), b.get()),
        ExprNode::Print(list) => in_exprs(alloc, codes, left, list.as_slice()),
        ExprNode::Post(a) => in_expr(alloc, codes, left, a.get()),
        ExprNode::Reply(a) => in_expr(alloc, codes, left, a.get()),
        ExprNode::Prompt(a) => in_expr(alloc, codes, left, a.get()),
        ExprNode::Random(a) => in_expr(alloc, codes, left, a.get()),
        ExprNode::Once(a) => in_expr(alloc, codes, left, a.get()),
        ExprNode::Fork(a) => in_expr(alloc, codes, left, a.get()),
    }
}

#[cycle(codes)]
fn in_two<'a>(
    alloc: Global,
    codes: Codes<'a>,
    left: u32,
    a: &'a Expr,
    b: &'a Expr,
) -> Result<Codes<'a>, NoMemory>
    ensures { IfOk result (λ made. table_in made ≡ table_in codes.entry ++ (expr_codes left a.now ++ expr_codes left b.now)) }
{
    let codes = in_expr(alloc, codes, left, a)?;
    in_expr(alloc, codes, left, b)
}

#[cycle(codes)]
fn in_three<'a>(
    alloc: Global,
    codes: Codes<'a>,
    left: u32,
    a: &'a Expr,
    b: &'a Expr,
    c: &'a Expr,
) -> Result<Codes<'a>, NoMemory>
    ensures { IfOk result (λ made. table_in made ≡ table_in codes.entry ++ (expr_codes left a.now ++ expr_codes left b.now ++ expr_codes left c.now)) }
{
    let codes = in_two(alloc, codes, left, a, b)?;
    in_expr(alloc, codes, left, c)
}

#[cycle(codes)]
fn in_member<'a>(
    alloc: Global,
    codes: Codes<'a>,
    left: u32,
    a: &'a Expr,
    key: &'a Key,
) -> Result<Codes<'a>, NoMemory>
    ensures { IfOk result (λ made. table_in made ≡ table_in codes.entry ++ (expr_codes left a.now ++ key_codes (expr_codes left) (stmt_codes left) (body_codes left) (out-Key key.now))) }
{
    let codes = in_expr(alloc, codes, left, a)?;
    in_key(alloc, codes, left, key)
}

#[cycle(codes)]
fn in_call<'a>(
    alloc: Global,
    codes: Codes<'a>,
    left: u32,
    a: &'a Expr,
    list: &'a [Expr],
) -> Result<Codes<'a>, NoMemory>
    ensures { IfOk result (λ made. table_in made ≡ table_in codes.entry ++ (expr_codes left a.now ++ all_in (expr_codes left) list.now)) }
{
    let codes = in_expr(alloc, codes, left, a)?;
    in_exprs(alloc, codes, left, list)
}

#[cycle(codes)]
fn in_key<'a>(
    alloc: Global,
    codes: Codes<'a>,
    left: u32,
    key: &'a Key,
) -> Result<Codes<'a>, NoMemory>
    ensures { IfOk result (λ made. table_in made ≡ table_in codes.entry ++ key_codes (expr_codes left) (stmt_codes left) (body_codes left) (out-Key key.now)) }
{
    match key {
        Key::Fixed(_) => Ok(codes),
        Key::Computed(e) => in_expr(alloc, codes, left, e.get()),
    }
}

#[cycle(codes)]
fn in_option<'a>(
    alloc: Global,
    codes: Codes<'a>,
    left: u32,
    e: &'a Option<Expr>,
) -> Result<Codes<'a>, NoMemory>
    ensures { IfOk result (λ made. table_in made ≡ table_in codes.entry ++ if_there (expr_codes left) e.now) }
{
    match e {
        Some(e) => in_expr(alloc, codes, left, e),
        None => Ok(codes),
    }
}

#[cycle(codes)]
fn in_exprs<'a>(
    alloc: Global,
    codes: Codes<'a>,
    left: u32,
    list: &'a [Expr],
) -> Result<Codes<'a>, NoMemory>
    ensures { IfOk result (λ made. table_in made ≡ table_in codes.entry ++ all_in (expr_codes left) list.now) }
{
    let mut all = codes;
    for e in list {
        all = in_expr(alloc, all, left, e)?;
    }
    Ok(all)
}

#[cycle(codes)]
fn in_fields<'a>(
    alloc: Global,
    codes: Codes<'a>,
    left: u32,
    fields: &'a [Field],
) -> Result<Codes<'a>, NoMemory>
    ensures { IfOk result (λ made. table_in made ≡ table_in codes.entry ++ all_in (λ x. expr_codes left (out-Field x).value) fields.now) }
{
    let mut all = codes;
    for field in fields {
        all = in_expr(alloc, all, left, &field.value)?;
    }
    Ok(all)
}

/// Adds the codes in a statement, to so many levels.
#[cycle(codes)]
fn in_stmt<'a>(
    alloc: Global,
    codes: Codes<'a>,
    left: u32,
    s: &'a Stmt,
) -> Result<Codes<'a>, NoMemory>
    ensures { IfOk result (λ made. table_in made ≡ table_in codes.entry ++ stmt_codes left s.now) }
{
    if left == 0 {
        return Ok(codes);
    }
    in_stmt_node(alloc, codes, left - 1, s.node())
}

#[cycle(codes)]
fn in_stmt_node<'a>(
    alloc: Global,
    codes: Codes<'a>,
    left: u32,
    node: &'a StmtNode,
) -> Result<Codes<'a>, NoMemory>
    ensures { IfOk result (λ made. table_in made ≡ table_in codes.entry ++ stmt_level_codes (expr_codes left) (stmt_codes left) (body_codes left) (out-StmtNode node.now)) }
{
    match node {
        StmtNode::Empty => Ok(codes),
        StmtNode::Continue => Ok(codes),
        StmtNode::Break => Ok(codes),
        StmtNode::Block(stmts) => in_stmts(alloc, codes, left, stmts.as_slice()),
        StmtNode::Var(variables) => in_variables(alloc, codes, left, variables.as_slice()),
        StmtNode::Expression(e) => in_expr(alloc, codes, left, e),
        StmtNode::If(e, a, b) => in_if(alloc, codes, left, e, a.get(), b),
        StmtNode::DoWhile(s, e) => in_do_while(alloc, codes, left, s.get(), e),
        StmtNode::While(e, s) => in_while(alloc, codes, left, e, s.get()),
        StmtNode::For(start, test, step, s) => {
            let codes = in_for_head(alloc, codes, left, start, test, step)?;
            in_stmt(alloc, codes, left, s.get())
        }
        StmtNode::ForIn(target, e, s) => in_for_in(alloc, codes, left, target, e, s.get()),
        StmtNode::Return(e) => in_option(alloc, codes, left, e),
        StmtNode::Switch(e, cases) => in_switch(alloc, codes, left, e, cases.as_slice()),
        StmtNode::Throw(e) => in_expr(alloc, codes, left, e),
        StmtNode::Try(s, caught, last) => in_try(alloc, codes, left, s.get(), caught, last),
    }
}

#[cycle(codes)]
fn in_if<'a>(
    alloc: Global,
    codes: Codes<'a>,
    left: u32,
    e: &'a Expr,
    then: &'a Stmt,
    otherwise: &'a Option<Boxed<Stmt>>,
) -> Result<Codes<'a>, NoMemory>
    ensures { IfOk result (λ made. table_in made ≡ table_in codes.entry ++ (expr_codes left e.now ++ stmt_codes left then.now ++ if_there (stmt_codes left) otherwise.now)) }
{
    let codes = in_while(alloc, codes, left, e, then)?;
    in_option_stmt(alloc, codes, left, otherwise)
}

#[cycle(codes)]
fn in_do_while<'a>(
    alloc: Global,
    codes: Codes<'a>,
    left: u32,
    s: &'a Stmt,
    e: &'a Expr,
) -> Result<Codes<'a>, NoMemory>
    ensures { IfOk result (λ made. table_in made ≡ table_in codes.entry ++ (stmt_codes left s.now ++ expr_codes left e.now)) }
{
    let codes = in_stmt(alloc, codes, left, s)?;
    in_expr(alloc, codes, left, e)
}

#[cycle(codes)]
fn in_while<'a>(
    alloc: Global,
    codes: Codes<'a>,
    left: u32,
    e: &'a Expr,
    s: &'a Stmt,
) -> Result<Codes<'a>, NoMemory>
    ensures { IfOk result (λ made. table_in made ≡ table_in codes.entry ++ (expr_codes left e.now ++ stmt_codes left s.now)) }
{
    let codes = in_expr(alloc, codes, left, e)?;
    in_stmt(alloc, codes, left, s)
}

#[cycle(codes)]
fn in_for_head<'a>(
    alloc: Global,
    codes: Codes<'a>,
    left: u32,
    start: &'a ForStart,
    test: &'a Option<Expr>,
    step: &'a Option<Expr>,
) -> Result<Codes<'a>, NoMemory>
    ensures { IfOk result (λ made. table_in made ≡ table_in codes.entry ++ (start_codes (expr_codes left) (stmt_codes left) (body_codes left) (out-ForStart start.now) ++ if_there (expr_codes left) test.now ++ if_there (expr_codes left) step.now)) }
{
    let codes = in_start(alloc, codes, left, start)?;
    let codes = in_option(alloc, codes, left, test)?;
    in_option(alloc, codes, left, step)
}

#[cycle(codes)]
fn in_for_in<'a>(
    alloc: Global,
    codes: Codes<'a>,
    left: u32,
    target: &'a ForTarget,
    e: &'a Expr,
    s: &'a Stmt,
) -> Result<Codes<'a>, NoMemory>
    ensures { IfOk result (λ made. table_in made ≡ table_in codes.entry ++ (target_codes (expr_codes left) (stmt_codes left) (body_codes left) (out-ForTarget target.now) ++ expr_codes left e.now ++ stmt_codes left s.now)) }
{
    let codes = in_target(alloc, codes, left, target)?;
    let codes = in_expr(alloc, codes, left, e)?;
    in_stmt(alloc, codes, left, s)
}

#[cycle(codes)]
fn in_switch<'a>(
    alloc: Global,
    codes: Codes<'a>,
    left: u32,
    e: &'a Expr,
    cases: &'a [Case],
) -> Result<Codes<'a>, NoMemory>
    ensures { IfOk result (λ made. table_in made ≡ table_in codes.entry ++ (expr_codes left e.now ++ all_in (case_codes (expr_codes left) (stmt_codes left) (body_codes left)) cases.now)) }
{
    let codes = in_expr(alloc, codes, left, e)?;
    in_cases(alloc, codes, left, cases)
}

#[cycle(codes)]
fn in_try<'a>(
    alloc: Global,
    codes: Codes<'a>,
    left: u32,
    s: &'a Stmt,
    caught: &'a Option<Catch>,
    last: &'a Option<Boxed<Stmt>>,
) -> Result<Codes<'a>, NoMemory>
    ensures { IfOk result (λ made. table_in made ≡ table_in codes.entry ++ (stmt_codes left s.now ++ if_there (λ c. stmt_codes left (out-Catch c).body) caught.now ++ if_there (stmt_codes left) last.now)) }
{
    let codes = in_stmt(alloc, codes, left, s)?;
    let codes = in_catch(alloc, codes, left, caught)?;
    in_option_stmt(alloc, codes, left, last)
}

#[cycle(codes)]
fn in_option_stmt<'a>(
    alloc: Global,
    codes: Codes<'a>,
    left: u32,
    s: &'a Option<Boxed<Stmt>>,
) -> Result<Codes<'a>, NoMemory>
    ensures { IfOk result (λ made. table_in made ≡ table_in codes.entry ++ if_there (stmt_codes left) s.now) }
{
    match s {
        Some(s) => in_stmt(alloc, codes, left, s.get()),
        None => Ok(codes),
    }
}

#[cycle(codes)]
fn in_catch<'a>(
    alloc: Global,
    codes: Codes<'a>,
    left: u32,
    caught: &'a Option<Catch>,
) -> Result<Codes<'a>, NoMemory>
    ensures { IfOk result (λ made. table_in made ≡ table_in codes.entry ++ if_there (λ c. stmt_codes left (out-Catch c).body) caught.now) }
{
    match caught {
        Some(caught) => in_stmt(alloc, codes, left, caught.body.get()),
        None => Ok(codes),
    }
}

#[cycle(codes)]
fn in_start<'a>(
    alloc: Global,
    codes: Codes<'a>,
    left: u32,
    start: &'a ForStart,
) -> Result<Codes<'a>, NoMemory>
    ensures { IfOk result (λ made. table_in made ≡ table_in codes.entry ++ start_codes (expr_codes left) (stmt_codes left) (body_codes left) (out-ForStart start.now)) }
{
    match start {
        ForStart::NoStart => Ok(codes),
        ForStart::ValueStart(e) => in_expr(alloc, codes, left, e),
        ForStart::VarStart(s) => in_stmt(alloc, codes, left, s.get()),
    }
}

#[cycle(codes)]
fn in_target<'a>(
    alloc: Global,
    codes: Codes<'a>,
    left: u32,
    target: &'a ForTarget,
) -> Result<Codes<'a>, NoMemory>
    ensures { IfOk result (λ made. table_in made ≡ table_in codes.entry ++ target_codes (expr_codes left) (stmt_codes left) (body_codes left) (out-ForTarget target.now)) }
{
    match target {
        ForTarget::TargetEach(e) => in_expr(alloc, codes, left, e),
        ForTarget::VarEach(_) => Ok(codes),
    }
}

#[cycle(codes)]
fn in_case<'a>(
    alloc: Global,
    codes: Codes<'a>,
    left: u32,
    case: &'a Case,
) -> Result<Codes<'a>, NoMemory>
    ensures { IfOk result (λ made. table_in made ≡ table_in codes.entry ++ case_codes (expr_codes left) (stmt_codes left) (body_codes left) case.now) }
{
    let codes = in_option(alloc, codes, left, &case.test)?;
    in_stmts(alloc, codes, left, case.statements.as_slice())
}

#[cycle(codes)]
fn in_cases<'a>(
    alloc: Global,
    codes: Codes<'a>,
    left: u32,
    cases: &'a [Case],
) -> Result<Codes<'a>, NoMemory>
    ensures { IfOk result (λ made. table_in made ≡ table_in codes.entry ++ all_in (case_codes (expr_codes left) (stmt_codes left) (body_codes left)) cases.now) }
{
    let mut all = codes;
    for case in cases {
        all = in_case(alloc, all, left, case)?;
    }
    Ok(all)
}

#[cycle(codes)]
fn in_stmts<'a>(
    alloc: Global,
    codes: Codes<'a>,
    left: u32,
    stmts: &'a [Stmt],
) -> Result<Codes<'a>, NoMemory>
    ensures { IfOk result (λ made. table_in made ≡ table_in codes.entry ++ all_in (stmt_codes left) stmts.now) }
{
    let mut all = codes;
    for s in stmts {
        all = in_stmt(alloc, all, left, s)?;
    }
    Ok(all)
}

#[cycle(codes)]
fn in_variables<'a>(
    alloc: Global,
    codes: Codes<'a>,
    left: u32,
    variables: &'a [Variable],
) -> Result<Codes<'a>, NoMemory>
    ensures { IfOk result (λ made. table_in made ≡ table_in codes.entry ++ all_in (λ x. if_there (expr_codes left) (out-Variable x).value) variables.now) }
{
    let mut all = codes;
    for variable in variables {
        all = in_option(alloc, all, left, &variable.value)?;
    }
    Ok(all)
}

#[cycle(codes)]
fn in_declarations<'a>(
    alloc: Global,
    codes: Codes<'a>,
    left: u32,
    declarations: &'a [Declaration],
) -> Result<Codes<'a>, NoMemory>
    ensures { IfOk result (λ made. table_in made ≡ table_in codes.entry ++ all_in (λ d. body_codes left (declared_parameters d) (declared_body d)) declarations.now) }
{
    let mut all = codes;
    for declaration in declarations {
        all = in_body(
            alloc,
            all,
            left,
            declaration.parameters(),
            declaration.body(),
        )?;
    }
    Ok(all)
}

/// Adds the code of a function and the codes inside it, to so many levels.
#[cycle(codes)]
fn in_body<'a>(
    alloc: Global,
    codes: Codes<'a>,
    left: u32,
    parameters: &'a [Units],
    body: &'a Script,
) -> Result<Codes<'a>, NoMemory>
    ensures { IfOk result (λ made. table_in made ≡ table_in codes.entry ++ body_codes left parameters.now body.now) }
{
    if left == 0 {
        return Ok(codes);
    }
    let code = code_of(alloc, parameters, body)?;
    let codes = add(codes, code)?;
    in_script(alloc, codes, left - 1, body)
}

#[cycle(codes)]
fn in_script<'a>(
    alloc: Global,
    codes: Codes<'a>,
    left: u32,
    script: &'a Script,
) -> Result<Codes<'a>, NoMemory>
    ensures { IfOk result (λ made. table_in made ≡ table_in codes.entry ++ script_codes (expr_codes left) (stmt_codes left) (body_codes left) script.now) }
{
    let codes = in_declarations(alloc, codes, left, script.functions())?;
    in_stmts(alloc, codes, left, script.statements())
}

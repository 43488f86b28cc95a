//! The names that statements declare by `var` (ECMA-262, 3rd edition, 12.2), in their order, each as often as it is declared.
ghost use Rattle.std.specs.Prelude.{◌≡◌, ◌++◌, ◌∷◌, [], IfOk, map};
ghost use Rattle.js_tree.specs.declared.StmtNode.{out-StmtNode};
ghost use Rattle.js_tree.specs.declared.ForStart.{out-ForStart};
ghost use Rattle.js_tree.specs.declared.ForTarget.{out-ForTarget};
ghost use Rattle.js_tree.specs.declared.Variable.{out-Variable};
ghost use Rattle.js_tree.specs.declared.Case.{out-Case};
ghost use Rattle.js_tree.specs.declared.Catch.{out-Catch};
ghost use Rattle.js_tree.specs.Calls.{gather, gather_option, variables as declared, variables_to, variables_of, start_variables, target_variables};

use js_tree::{Case, Catch, ForStart, ForTarget, Stmt, StmtNode, Variable};
use sqlite_items::Boxed;
use std::alloc::Global;
use turk_base::{NoMemory, Units};

/// How deep statements are searched; those of a lawful script stand no deeper.
const DEPTH: u32 = 200;

/// The names that statements declare, down to 200 levels. It is refused only for want of memory.
pub fn variables(alloc: Global, statements: &[Stmt]) -> Result<Vec<Units>, NoMemory>
    ensures { IfOk result (λ names. names.items ≡ declared statements.now) }
{
    in_all(alloc, Vec::new(alloc), DEPTH, statements)
}

/// The names with one more at their end.
fn add(alloc: Global, names: Vec<Units>, name: &Units) -> Result<Vec<Units>, NoMemory>
    ensures { IfOk result (λ made. made.items ≡ names.items ++ name.now ∷ []) }
{
    let mut all = names;
    match all.push(name.copy(alloc)?) {
        Ok(()) => Ok(all),
        Err(_) => Err(NoMemory),
    }
}

fn named(alloc: Global, names: Vec<Units>, variables: &[Variable]) -> Result<Vec<Units>, NoMemory>
    ensures { IfOk result (λ made. made.items ≡ names.items ++ map (λ x. (out-Variable x).named.name) variables.now) }
{
    let mut all = names;
    for variable in variables {
        all = add(alloc, all, &variable.named.name)?;
    }
    Ok(all)
}

/// Adds what one statement declares, to so many levels.
#[cycle(hoist)]
fn in_stmt(alloc: Global, names: Vec<Units>, left: u32, stmt: &Stmt) -> Result<Vec<Units>, NoMemory>
    ensures { IfOk result (λ made. made.items ≡ names.items ++ variables_to left stmt.now) }
{
    if left == 0 {
        return Ok(names);
    }
    in_node(alloc, names, left - 1, stmt.node())
}

#[cycle(hoist)]
fn in_node(
    alloc: Global,
    names: Vec<Units>,
    left: u32,
    node: &StmtNode,
) -> Result<Vec<Units>, NoMemory>
    ensures { IfOk result (λ made. made.items ≡ names.items ++ variables_of (variables_to left) (out-StmtNode node.now)) }
{
    match node {
        StmtNode::Block(stmts) => in_all(alloc, names, left, stmts.as_slice()),
        StmtNode::Var(variables) => named(alloc, names, variables.as_slice()),
        StmtNode::If(_, then, otherwise) => in_if(alloc, names, left, then.get(), otherwise),
        StmtNode::DoWhile(body, _) => in_stmt(alloc, names, left, body.get()),
        StmtNode::While(_, body) => in_stmt(alloc, names, left, body.get()),
        StmtNode::For(start, _, _, body) => in_for(alloc, names, left, start, body.get()),
        StmtNode::ForIn(target, _, body) => in_for_in(alloc, names, left, target, body.get()),
        StmtNode::Switch(_, cases) => in_cases(alloc, names, left, cases.as_slice()),
        StmtNode::Try(body, caught, last) => in_try(alloc, names, left, body.get(), caught, last),
        StmtNode::Empty => Ok(names),
        StmtNode::Expression(_) => Ok(names),
        StmtNode::Continue => Ok(names),
        StmtNode::Break => Ok(names),
        StmtNode::Return(_) => Ok(names),
        StmtNode::Throw(_) => Ok(names),
    }
}

#[cycle(hoist)]
fn in_if(
    alloc: Global,
    names: Vec<Units>,
    left: u32,
    then: &Stmt,
    otherwise: &Option<Boxed<Stmt>>,
) -> Result<Vec<Units>, NoMemory>
    ensures { IfOk result (λ made. made.items ≡ names.items ++ (variables_to left then.now ++ gather_option (variables_to left) otherwise.now)) }
{
    let names = in_stmt(alloc, names, left, then)?;
    in_option(alloc, names, left, otherwise)
}

#[cycle(hoist)]
fn in_for(
    alloc: Global,
    names: Vec<Units>,
    left: u32,
    start: &ForStart,
    body: &Stmt,
) -> Result<Vec<Units>, NoMemory>
    ensures { IfOk result (λ made. made.items ≡ names.items ++ (start_variables (variables_to left) (out-ForStart start.now) ++ variables_to left body.now)) }
{
    let names = in_start(alloc, names, left, start)?;
    in_stmt(alloc, names, left, body)
}

#[cycle(hoist)]
fn in_for_in(
    alloc: Global,
    names: Vec<Units>,
    left: u32,
    target: &ForTarget,
    body: &Stmt,
) -> Result<Vec<Units>, NoMemory>
    ensures { IfOk result (λ made. made.items ≡ names.items ++ (target_variables (variables_to left) (out-ForTarget target.now) ++ variables_to left body.now)) }
{
    let names = in_target(alloc, names, target)?;
    in_stmt(alloc, names, left, body)
}

#[cycle(hoist)]
fn in_try(
    alloc: Global,
    names: Vec<Units>,
    left: u32,
    body: &Stmt,
    caught: &Option<Catch>,
    last: &Option<Boxed<Stmt>>,
) -> Result<Vec<Units>, NoMemory>
    ensures { IfOk result (λ made. made.items ≡ names.items ++ (variables_to left body.now ++ gather_option (λ c. variables_to left (out-Catch c).body) caught.now ++ gather_option (variables_to left) last.now)) }
{
    let names = in_stmt(alloc, names, left, body)?;
    let names = in_catch(alloc, names, left, caught)?;
    in_option(alloc, names, left, last)
}

#[cycle(hoist)]
fn in_all(
    alloc: Global,
    names: Vec<Units>,
    left: u32,
    stmts: &[Stmt],
) -> Result<Vec<Units>, NoMemory>
    ensures { IfOk result (λ made. made.items ≡ names.items ++ gather (variables_to left) stmts.now) }
{
    let mut all = names;
    for stmt in stmts {
        all = in_stmt(alloc, all, left, stmt)?;
    }
    Ok(all)
}

#[cycle(hoist)]
fn in_cases(
    alloc: Global,
    names: Vec<Units>,
    left: u32,
    cases: &[Case],
) -> Result<Vec<Units>, NoMemory>
    ensures { IfOk result (λ made. made.items ≡ names.items ++ gather (λ c. gather (variables_to left) (out-Case c).statements) cases.now) }
{
    let mut all = names;
    for case in cases {
        all = in_all(alloc, all, left, case.statements.as_slice())?;
    }
    Ok(all)
}

#[cycle(hoist)]
fn in_option(
    alloc: Global,
    names: Vec<Units>,
    left: u32,
    stmt: &Option<Boxed<Stmt>>,
) -> Result<Vec<Units>, NoMemory>
    ensures { IfOk result (λ made. made.items ≡ names.items ++ gather_option (variables_to left) stmt.now) }
{
    match stmt {
        Some(stmt) => in_stmt(alloc, names, left, stmt.get()),
        None => Ok(names),
    }
}

#[cycle(hoist)]
fn in_catch(
    alloc: Global,
    names: Vec<Units>,
    left: u32,
    caught: &Option<Catch>,
) -> Result<Vec<Units>, NoMemory>
    ensures { IfOk result (λ made. made.items ≡ names.items ++ gather_option (λ c. variables_to left (out-Catch c).body) caught.now) }
{
    match caught {
        Some(caught) => in_stmt(alloc, names, left, caught.body.get()),
        None => Ok(names),
    }
}

#[cycle(hoist)]
fn in_start(
    alloc: Global,
    names: Vec<Units>,
    left: u32,
    start: &ForStart,
) -> Result<Vec<Units>, NoMemory>
    ensures { IfOk result (λ made. made.items ≡ names.items ++ start_variables (variables_to left) (out-ForStart start.now)) }
{
    match start {
        ForStart::VarStart(stmt) => in_stmt(alloc, names, left, stmt.get()),
        ForStart::ValueStart(_) => Ok(names),
        ForStart::NoStart => Ok(names),
    }
}

fn in_target(alloc: Global, names: Vec<Units>, target: &ForTarget) -> Result<Vec<Units>, NoMemory>
    ensures { IfOk result (λ made. made.items ≡ names.items ++ target_variables (λ _. []) (out-ForTarget target.now)) }
{
    match target {
        ForTarget::VarEach(named) => add(alloc, names, &named.name),
        ForTarget::TargetEach(_) => Ok(names),
    }
}

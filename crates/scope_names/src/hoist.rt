//! The names that the frame of a function or of a script declares (ECMA-262, 3rd edition, 10.1.3).
ghost use Rattle.std.specs.Prelude.{◌≡◌, IfOk, [], map};
ghost use Rattle.js_tree.specs.declared.StmtNode.{out-StmtNode};
ghost use Rattle.js_tree.specs.declared.ForStart.{out-ForStart};
ghost use Rattle.js_tree.specs.declared.ForTarget.{out-ForTarget};
ghost use Rattle.js_tree.specs.declared.Variable.{out-Variable};
ghost use Rattle.js_tree.specs.declared.Case.{out-Case};
ghost use Rattle.js_tree.specs.declared.Catch.{out-Catch};
ghost use Rattle.js_tree.specs.Trees.{declared_name};
ghost use Rattle.js_tree.specs.Calls.{gather, gather_option, variables_to, variables_of, start_variables, target_variables};
ghost use Rattle.js_tree.specs.Binds.{frame_of};
ghost use Rattle.scope_names.specs.Gathered.{gathered};

use crate::NoRoom;
use crate::names::Names;
use js_tree::{Case, Catch, Declaration, ForStart, ForTarget, Script, Stmt, StmtNode, Variable};
use sqlite_items::Boxed;
use std::alloc::Global;
use turk_base::Units;

/// How deep statements of a script are at most.
pub const DEPTH: u32 = 200;

/// The names of a frame, each once: parameters, functions, variables.
pub fn frame_names(alloc: Global, parameters: &[Units], body: &Script) -> Result<Names, NoRoom>
    ensures { IfOk result (λ made. made ≡ gathered [] (frame_of parameters.now body.now).names) }
{
    let names = Names::new(alloc).add_all(alloc, parameters)?;
    let names = functions(alloc, names, body.functions())?;
    in_all(alloc, names, DEPTH, body.statements())
}

fn functions(alloc: Global, names: Names, declarations: &[Declaration]) -> Result<Names, NoRoom>
    ensures { IfOk result (λ made. made ≡ gathered names (map declared_name declarations.now)) }
{
    let mut all = names;
    for declaration in declarations {
        all = all.add(alloc, declaration.name())?;
    }
    Ok(all)
}

fn named(alloc: Global, names: Names, variables: &[Variable]) -> Result<Names, NoRoom>
    ensures { IfOk result (λ made. made ≡ gathered names (map (λ x. (out-Variable x).named.name) variables.now)) }
{
    let mut all = names;
    for variable in variables {
        all = all.add(alloc, &variable.named.name)?;
    }
    Ok(all)
}

/// Adds the variables that a statement declares (12.2), in their order, to so many levels.
#[cycle(hoist)]
fn variables(alloc: Global, names: Names, left: u32, stmt: &Stmt) -> Result<Names, NoRoom>
    ensures { IfOk result (λ made. made ≡ gathered names (variables_to left stmt.now)) }
{
    if left == 0 {
        return Ok(names);
    }
    in_node(alloc, names, left - 1, stmt.node())
}

#[cycle(hoist)]
fn in_node(alloc: Global, names: Names, left: u32, node: &StmtNode) -> Result<Names, NoRoom>
    ensures { IfOk result (λ made. made ≡ gathered names (variables_of (variables_to left) (out-StmtNode node.now))) }
{
    match node {
        StmtNode::Block(stmts) => in_all(alloc, names, left, stmts.as_slice()),
        StmtNode::Var(variables) => named(alloc, names, variables.as_slice()),
        StmtNode::If(_, then, otherwise) => {
            let names = variables(alloc, names, left, then.get())?;
            in_option(alloc, names, left, otherwise)
        }
        StmtNode::DoWhile(body, _) => variables(alloc, names, left, body.get()),
        StmtNode::While(_, body) => variables(alloc, names, left, body.get()),
        StmtNode::For(start, _, _, body) => {
            let names = in_start(alloc, names, left, start)?;
            variables(alloc, names, left, body.get())
        }
        StmtNode::ForIn(target, _, body) => {
            let names = in_target(alloc, names, target)?;
            variables(alloc, names, left, body.get())
        }
        StmtNode::Switch(_, cases) => in_cases(alloc, names, left, cases.as_slice()),
        StmtNode::Try(body, caught, last) => {
            let names = variables(alloc, names, left, body.get())?;
            let names = in_catch(alloc, names, left, caught)?;
            in_option(alloc, names, left, last)
        }
        StmtNode::Empty => Ok(names),
        StmtNode::Expression(_) => Ok(names),
        StmtNode::Continue => Ok(names),
        StmtNode::Break => Ok(names),
        StmtNode::Return(_) => Ok(names),
        StmtNode::Throw(_) => Ok(names),
    }
}

#[cycle(hoist)]
fn in_all(alloc: Global, names: Names, left: u32, stmts: &[Stmt]) -> Result<Names, NoRoom>
    ensures { IfOk result (λ made. made ≡ gathered names (gather (variables_to left) stmts.now)) }
{
    let mut all = names;
    for stmt in stmts {
        all = variables(alloc, all, left, stmt)?;
    }
    Ok(all)
}

#[cycle(hoist)]
fn in_cases(alloc: Global, names: Names, left: u32, cases: &[Case]) -> Result<Names, NoRoom>
    ensures { IfOk result (λ made. made ≡ gathered names (gather (λ c. gather (variables_to left) (out-Case c).statements) cases.now)) }
{
    let mut all = names;
    for case in cases {
        all = in_all(alloc, all, left, case.statements.as_slice())?;
    }
    Ok(all)
}

#[cycle(hoist)]
fn in_option(
    alloc: Global,
    names: Names,
    left: u32,
    stmt: &Option<Boxed<Stmt>>,
) -> Result<Names, NoRoom>
    ensures { IfOk result (λ made. made ≡ gathered names (gather_option (variables_to left) stmt.now)) }
{
    match stmt {
        Some(stmt) => variables(alloc, names, left, stmt.get()),
        None => Ok(names),
    }
}

#[cycle(hoist)]
fn in_catch(alloc: Global, names: Names, left: u32, caught: &Option<Catch>) -> Result<Names, NoRoom>
    ensures { IfOk result (λ made. made ≡ gathered names (gather_option (λ c. variables_to left (out-Catch c).body) caught.now)) }
{
    match caught {
        Some(caught) => variables(alloc, names, left, caught.body.get()),
        None => Ok(names),
    }
}

#[cycle(hoist)]
fn in_start(alloc: Global, names: Names, left: u32, start: &ForStart) -> Result<Names, NoRoom>
    ensures { IfOk result (λ made. made ≡ gathered names (start_variables (variables_to left) (out-ForStart start.now))) }
{
    match start {
        ForStart::VarStart(stmt) => variables(alloc, names, left, stmt.get()),
        ForStart::ValueStart(_) => Ok(names),
        ForStart::NoStart => Ok(names),
    }
}

fn in_target(alloc: Global, names: Names, target: &ForTarget) -> Result<Names, NoRoom>
    ensures { IfOk result (λ made. made ≡ gathered names (target_variables (λ _. []) (out-ForTarget target.now))) }
{
    match target {
        ForTarget::VarEach(named) => names.add(alloc, &named.name),
        ForTarget::TargetEach(_) => Ok(names),
    }
}

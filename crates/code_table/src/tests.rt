use super::*;
use js_tree::{
    Catch, Declaration, Expr, ExprNode, ForTarget, Named, Script, Stmt, StmtNode, Variable,
};
use sqlite_items::{Boxed, Items};
use std::alloc::Global;
use std::test::Fail;
use tree_rows::CodeRef;
use turk_base::Units;

fn units(alloc: Global, text: &[u8]) -> Result<Units, Fail> {
    Ok(Units::from_bytes(alloc, text)?)
}

fn var_of(alloc: Global, text: &[u8]) -> Result<Stmt, Fail> {
    let mut list = Items::new(alloc);
    list.push(Variable {
        named: Named::make(units(alloc, text)?),
        value: None,
    })?;
    Ok(Stmt::make(StmtNode::Var(list)))
}

/// The statements with one more at their end.
fn with(stmts: Items<Stmt>, stmt: Stmt) -> Result<Items<Stmt>, Fail> {
    let mut stmts = stmts;
    stmts.push(stmt)?;
    Ok(stmts)
}

/// `(function (PARAMETER) { .. });`
fn function_of(alloc: Global, parameter: &[u8], statements: Items<Stmt>) -> Result<Stmt, Fail> {
    let mut parameters = Items::new(alloc);
    parameters.push(units(alloc, parameter)?)?;
    let body = Script::make(Items::new(alloc), statements);
    Ok(Stmt::make(StmtNode::Expression(Expr::make(ExprNode::Function(None, parameters, body)))))
}

/// `for (var k in this) var m;`
fn for_in(alloc: Global) -> Result<Stmt, Fail> {
    let body = Boxed::new(alloc, var_of(alloc, b"m")?)?;
    let target = ForTarget::VarEach(Named::make(units(alloc, b"k")?));
    Ok(Stmt::make(StmtNode::ForIn(target, Expr::make(ExprNode::This), body)))
}

/// `try {} catch (e) { var n; }`
fn caught(alloc: Global) -> Result<Stmt, Fail> {
    let inner = with(Items::new(alloc), var_of(alloc, b"n")?)?;
    let caught = Catch {
        name: units(alloc, b"e")?,
        body: Boxed::new(alloc, Stmt::make(StmtNode::Block(inner)))?,
    };
    let body = Boxed::new(alloc, Stmt::make(StmtNode::Block(Items::new(alloc))))?;
    Ok(Stmt::make(StmtNode::Try(body, Some(caught), None)))
}

/// `(function (b) { for (var k in this) var m; try {} catch (e) { var n; } (function (c) {}); });` and then
/// `function f(a) { var x; }`.
fn script_of(alloc: Global) -> Result<Script, Fail> {
    let inner = function_of(alloc, b"c", Items::new(alloc))?;
    let stmts = with(Items::new(alloc), for_in(alloc)?)?;
    let stmts = with(stmts, caught(alloc)?)?;
    let outer = function_of(alloc, b"b", with(stmts, inner)?)?;
    let mut parameters = Items::new(alloc);
    parameters.push(units(alloc, b"a")?)?;
    let stmts = with(Items::new(alloc), var_of(alloc, b"x")?)?;
    let body = Script::make(Items::new(alloc), stmts);
    let mut functions = Items::new(alloc);
    functions.push(Declaration::make(units(alloc, b"f")?, parameters, body))?;
    Ok(Script::make(functions, with(Items::new(alloc), outer)?))
}

/// Whether texts are just these, of one letter each.
fn are(texts: &[Units], letters: &[u8]) -> bool {
    let same = texts.iter().zip(letters).all(|(text, letter)| text.as_slice()
        == [u16::from(*letter)].as_slice());
    same && texts.len() == letters.len()
}

/// Whether a code has these parameters and declares these variables.
fn is(code: &CodeRef, parameters: &[u8], declared: &[u8]) -> bool {
    are(code.parameters, parameters) && are(code.variables.as_slice(), declared)
}

/// A declared function comes before those that stand in statements, and each before those inside it.
#[test]
fn nested(rt: HostRuntime) -> Result<(), Fail> {
    let alloc = rt.alloc();
    let script = script_of(alloc)?;
    let codes = codes_of(alloc, &script).ok().ok_or("no memory")?;
    let rows: [(&[u8], &[u8]); 3] = [(b"a", b"x"), (b"b", b"kmn"), (b"c", b"")];
    assert_eq!(rt; codes.all.len(), rows.len());
    for (code, (parameters, declared)) in codes.all.iter().zip(rows) {
        assert!(rt; is(code, parameters, declared));
    }
    let top = whole(alloc, &script).ok().ok_or("no memory")?;
    assert!(rt; is(&top, b"", b""));
    assert_eq!(rt; top.body.statements().len(), 1);
    Ok(())
}

//! What no clause says: with ample memory a script is read. And how names are bound, and which of two faults is told.

use super::*;
use js_tree::{Binding, ExprNode, Stmt, StmtNode};
use std::alloc::Global;
use std::test::Fail;
use turk_base::{Bytes, NoMemory};

/// The binding of the name that a statement of a body is.
fn name_at(body: &Script, place: usize) -> Option<Binding> {
    match body.statements().get(place)?.node() {
        StmtNode::Expression(value) => match value.node() {
            ExprNode::Name(named) => Some(named.binding),
            _ => None,
        },
        _ => None,
    }
}

/// Whether the names in the first function have these bindings, and the second function has this number.
fn has(script: &Script, bindings: [Binding; 4], number: u32) -> bool {
    match script.functions() {
        [first, second] => {
            let body = first.body();
            name_at(body, 0) == Some(bindings[0])
                && name_at(body, 1) == Some(bindings[1])
                && name_at(body, 2) == Some(bindings[2])
                && name_at(body, 3) == Some(bindings[3])
                && second.body().number() == number
        }
        _ => false,
    }
}

#[test]
fn reads(rt: HostRuntime) -> Result<(), Fail> {
    let text = b"var a; function f(b) { a; b; c; String; } function g() {}";
    match read_tree(rt.alloc(), text) {
        Ok(tree) => assert!(rt; has(&tree, [Binding::Nothing; 4], 0)),
        Err(_) => panic!(rt; "no tree"),
    }
    let bound = [
        Binding::Out(1),
        Binding::Out(0),
        Binding::Nothing,
        Binding::BuiltIn,
    ];
    match read_script(rt.alloc(), text) {
        Ok(found) => assert!(rt; has(found.script(), bound, 1)),
        Err(_) => panic!(rt; "no script"),
    }
    Ok(())
}

/// How the name that the last statement is, is bound, and whether it is a function's own name.
fn last_name(stmts: &[Stmt]) -> Option<(Binding, bool)> {
    match stmts.last()?.node() {
        StmtNode::Expression(value) => match value.node() {
            ExprNode::Name(named) => Some((named.binding, named.own)),
            _ => None,
        },
        _ => None,
    }
}

/// The same of the last name within the first statement: in the body of its function, or of its catch.
fn inner_name(stmts: &[Stmt]) -> Option<(Binding, bool)> {
    match stmts.first()?.node() {
        StmtNode::Expression(value) => match value.node() {
            ExprNode::Function(_, _, body) => last_name(body.statements()),
            _ => None,
        },
        StmtNode::Try(_, Some(caught), _) => match caught.body.get().node() {
            StmtNode::Block(inner) => last_name(inner.as_slice()),
            _ => None,
        },
        _ => None,
    }
}

/// A script, how the last name within its first statement is bound, and how the name that is its last statement is.
const NAMES: [(&[u8], (Binding, bool), (Binding, bool)); 7] = [
    (
        b"(function g(a) { var b; b; }); b;",
        (Binding::Out(0), false),
        (Binding::Nothing, false),
    ),
    (
        b"(function g(a) { var a; a; }); a;",
        (Binding::Out(0), false),
        (Binding::Nothing, false),
    ),
    (
        b"(function g(a) { var b; g; }); g;",
        (Binding::Out(1), true),
        (Binding::Nothing, false),
    ),
    (
        b"(function g(g) { var b; g; }); Error;",
        (Binding::Out(0), false),
        (Binding::BuiltIn, false),
    ),
    (
        b"(function g(a) { var String; String; }); String;",
        (Binding::Out(0), false),
        (Binding::BuiltIn, false),
    ),
    (
        b"(function g(a) { var b; c; }); undefined;",
        (Binding::Nothing, false),
        (Binding::BuiltIn, false),
    ),
    (
        b"try {} catch (e) { var e; e; } e;",
        (Binding::Out(0), false),
        (Binding::Out(0), false),
    ),
];

#[test]
fn binds_names(rt: HostRuntime) -> Result<(), Fail> {
    for (text, inside, outside) in NAMES {
        match read_script(rt.alloc(), text) {
            Ok(found) => {
                assert_eq!(rt; inner_name(found.script().statements()), Some(inside));
                assert_eq!(rt; last_name(found.script().statements()), Some(outside));
            }
            Err(_) => panic!(rt; "no script"),
        }
    }
    Ok(())
}

/// A text that repeats a part, what follows it, and the fault that is told, if any. Of 198 signs the last stands 199
/// deep, since the statement is a node too.
struct Row {
    part: &'static [u8],
    times: usize,
    last: &'static [u8],
    stop: Option<ScriptStop>,
}

/// Eight names and its own: 8,191 of them declare 65,529 names.
const NINE: &[u8] = b"function f(a,b,c,d,e,g,h,i){}";

const TABLE: [Row; 13] = [
    Row {
        part: b"#",
        times: 1_048_577,
        last: b"",
        stop: Some(ScriptStop::TooLarge),
    },
    Row {
        part: b"var = 1; ",
        times: 1,
        last: b"\xFF #",
        stop: Some(ScriptStop::NotUtf8(9)),
    },
    Row {
        part: b"var = 1; ",
        times: 1,
        last: b"# \xFF",
        stop: Some(ScriptStop::BadToken(9)),
    },
    Row {
        part: b"with (a) ",
        times: 1,
        last: b"1.5 #",
        stop: Some(ScriptStop::NumberForm(9)),
    },
    Row {
        part: b"- ",
        times: 250,
        last: b"#",
        stop: Some(ScriptStop::BadToken(500)),
    },
    Row {
        part: b"var = 1; ",
        times: 1,
        last: b"with (a) {}",
        stop: Some(ScriptStop::Syntax(4)),
    },
    Row {
        part: b"with (a) ",
        times: 1,
        last: b"var = 1;",
        stop: Some(ScriptStop::LeftOut(0, Form::With)),
    },
    Row {
        part: b"- ",
        times: 250,
        last: b"with",
        stop: Some(ScriptStop::Nesting),
    },
    Row {
        part: NINE,
        times: 8192,
        last: b"var = 1;",
        stop: Some(ScriptStop::Syntax(237_572)),
    },
    Row {
        part: NINE,
        times: 8191,
        last: b"function f(a,b,c,d,e,g,h){}",
        stop: Some(ScriptStop::TooManyNames),
    },
    Row {
        part: NINE,
        times: 8191,
        last: b"function f(a,b,c,d,e,g){}",
        stop: None,
    },
    Row {
        part: b"- ",
        times: 198,
        last: b"x",
        stop: None,
    },
    Row {
        part: b"- ",
        times: 199,
        last: b"x",
        stop: Some(ScriptStop::Nesting),
    },
];

/// The text of a row.
fn text_of(alloc: Global, row: &Row) -> Result<Bytes, NoMemory> {
    let mut text = Bytes::new(alloc);
    for _ in 0..row.times {
        text.push_slice(row.part)?;
    }
    text.push_slice(row.last)?;
    Ok(text)
}

/// The fault that is told of a text, if any.
fn fault(alloc: Global, text: &[u8]) -> Option<ScriptStop> {
    match read_script(alloc, text) {
        Ok(_) => None,
        Err(stop) => Some(stop),
    }
}

#[test]
fn tells_the_first_fault(rt: HostRuntime) -> Result<(), Fail> {
    for row in &TABLE {
        let text = text_of(rt.alloc(), row)?;
        assert_eq!(rt; fault(rt.alloc(), text.as_slice()), row.stop);
    }
    Ok(())
}

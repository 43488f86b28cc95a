//! Nodes with more than one part, made with memory to spare: each part in its place.
use js_tree::{BinaryOperator, Expr, ExprNode, ForStart, Key, Stmt, StmtNode};
use std::test::Fail;
use tree_makers::{exprs, stmts};
use turk_base::{NoMemory, Units};

// A node with nothing in it, by name.
fn leaf(expr: &Expr) -> &'static str {
    match expr.node() {
        ExprNode::This => "this",
        ExprNode::Join => "join",
        ExprNode::Crash => "crash",
        _ => "another",
    }
}

// A node and the nodes in it, by name.
fn names(expr: &Expr) -> [&'static str; 4] {
    match expr.node() {
        ExprNode::Binary(BinaryOperator::Subtract, left, right) => {
            ["subtract", leaf(left.get()), leaf(right.get()), ""]
        }
        ExprNode::Comma(left, right) => ["comma", leaf(left.get()), leaf(right.get()), ""],
        ExprNode::Conditional(test, first, second) => {
            [
                "conditional",
                leaf(test.get()),
                leaf(first.get()),
                leaf(second.get()),
            ]
        }
        ExprNode::Member(base, Key::Fixed(_)) => ["dot", leaf(base.get()), "", ""],
        ExprNode::Member(base, Key::Computed(inner)) => {
            ["brackets", leaf(base.get()), leaf(inner.get()), ""]
        }
        ExprNode::Post(argument) => ["post", leaf(argument.get()), "", ""],
        _ => ["another", "", "", ""],
    }
}

// The same of a statement.
fn stated(stmt: &Stmt) -> [&'static str; 4] {
    match stmt.node() {
        StmtNode::While(test, _) => ["while", leaf(test), "", ""],
        StmtNode::For(ForStart::NoStart, Some(test), Some(step), _) => {
            ["for", leaf(test), leaf(step), ""]
        }
        _ => ["another", "", "", ""],
    }
}

fn makes(made: Result<Expr, NoMemory>, wanted: [&str; 4]) -> bool {
    match made {
        Ok(expr) => names(&expr) == wanted,
        Err(_) => false,
    }
}

fn states(made: Result<Stmt, NoMemory>, wanted: [&str; 4]) -> bool {
    match made {
        Ok(stmt) => stated(&stmt) == wanted,
        Err(_) => false,
    }
}

#[test]
fn parts_are_in_their_places(rt: HostRuntime) -> Result<(), Fail> {
    let alloc = rt.alloc();
    let key = Units::new(alloc);
    assert!(rt;
        makes(
            exprs::binary(
                alloc,
                BinaryOperator::Subtract,
                exprs::join(),
                exprs::crash()
            ),
            ["subtract", "join", "crash", ""]
        )
    );
    assert!(rt;
        makes(
            exprs::comma(alloc, exprs::join(), exprs::crash()),
            ["comma", "join", "crash", ""]
        )
    );
    assert!(rt;
        makes(
            exprs::conditional(alloc, exprs::this(), exprs::join(), exprs::crash()),
            ["conditional", "this", "join", "crash"]
        )
    );
    assert!(rt;
        makes(
            exprs::member_fixed(alloc, exprs::join(), key),
            ["dot", "join", "", ""]
        )
    );
    assert!(rt;
        makes(
            exprs::member_computed(alloc, exprs::join(), exprs::crash()),
            ["brackets", "join", "crash", ""]
        )
    );
    assert!(rt; makes(exprs::post(alloc, exprs::join()), ["post", "join", "", ""]));
    assert!(rt;
        states(
            stmts::while_loop(alloc, exprs::this(), stmts::empty()),
            ["while", "this", "", ""]
        )
    );
    assert!(rt;
        states(
            stmts::for_loop(
                alloc,
                stmts::no_start(),
                Some(exprs::join()),
                Some(exprs::crash()),
                stmts::empty()
            ),
            ["for", "join", "crash", ""]
        )
    );
    Ok(())
}

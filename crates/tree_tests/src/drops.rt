//! Lists of trees grow at their end, and a member is deleted.
use js_tree::{Expr, ExprNode, Key, Stmt, StmtNode};
use sqlite_items::{Boxed, Items};
use std::alloc::Global;
use std::test::Fail;
use tree_drops::{deleted, exprs_with, stmts_with};
use turk_base::{NoMemory, Units};

// A node with nothing in it.
fn join() -> Expr {
    Expr {
        node: ExprNode::Join,
    }
}

// Whether these are `join` and `crash` in this order.
fn two(made: Result<Items<Expr>, NoMemory>) -> bool {
    match made {
        Ok(all) => matches!(
            (all.len(), all.get(0), all.get(1)),
            (
                2,
                Some(Expr {
                    node: ExprNode::Join
                }),
                Some(Expr {
                    node: ExprNode::Crash
                }),
            )
        ),
        Err(_) => false,
    }
}

fn join_and_crash(alloc: Global) -> Result<Items<Expr>, NoMemory> {
    let one = exprs_with(Items::new(alloc), join())?;
    exprs_with(
        one,
        Expr {
            node: ExprNode::Crash,
        },
    )
}

// Whether this is one statement, the empty one.
fn only_empty(made: Result<Items<Stmt>, NoMemory>) -> bool {
    match made {
        Ok(all) => all.len() == 1
            && matches!(
                all.get(0),
                Some(Stmt {
                    node: StmtNode::Empty
                })
            ),
        Err(_) => false,
    }
}

// Whether the deletion of a member of `join` by a fixed key is that deletion.
fn deletes(alloc: Global) -> bool {
    match Boxed::new(alloc, join()) {
        Ok(base) => {
            let member = Expr {
                node: ExprNode::Member(base, Key::Fixed(Units::new(alloc))),
            };
            matches!(
                deleted(member),
                Some(Expr {
                    node: ExprNode::Delete(_, Key::Fixed(_))
                })
            )
        }
        Err(_) => false,
    }
}

#[test]
fn lists_grow_and_members_are_deleted(rt: HostRuntime) -> Result<(), Fail> {
    let alloc = rt.alloc();
    assert!(rt; two(join_and_crash(alloc)));
    let empty = Stmt {
        node: StmtNode::Empty,
    };
    assert!(rt; only_empty(stmts_with(Items::new(alloc), empty)));
    assert!(rt; deletes(alloc));
    assert!(rt; deleted(join()).is_none());
    Ok(())
}

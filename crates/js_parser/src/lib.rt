//! The parser of scripts: the tokens of a script are read as the tree that the grammar gives.
//!
//! The rows of the grammar stand in crates of their own. Here they are tied to each other, and what they answer is
//! told as the first token that fits nothing, or as a node that stands too deep.
#![tactic(auto)]

mod knot;
mod script;

pub use script::parse;
pub use script_grammar::Form;

/// Why tokens are no script.
#[derive(Clone, Copy, Debug, PartialEq, Eq)]
pub enum ParseStop {
    /// The token at this place is the first with which the tokens begin no script.
    Syntax(u32),
    /// A node of the script would stand more than 200 deep.
    Nesting,
    /// The token at this place is the first with which the tokens begin no script; there stands a form that scripts do
    /// not have.
    LeftOut(u32, Form),
    /// Memory ran out.
    Memory,
}

#[cfg(test)]
mod tests {
    use super::*;
    use js_lexer::tokens;
    use js_tree::{Expr, ExprNode, Fix, Script, Sign, StmtNode};
    use std::alloc::Global;
    use std::test::Fail;
    use tree_drops as drops;

    const REFUSED: [(&str, ParseStop); 11] = [
        ("for (a; b\n)", ParseStop::Syntax(10)),
        ("if (a)\nelse b", ParseStop::Syntax(7)),
        ("{ 1 2 } 3", ParseStop::Syntax(4)),
        ("throw\n1", ParseStop::Syntax(6)),
        ("return 1", ParseStop::Syntax(0)),
        ("a: b", ParseStop::LeftOut(1, Form::Label)),
        ("delete a;", ParseStop::LeftOut(8, Form::Delete)),
        ("[1,,2]", ParseStop::LeftOut(3, Form::Elision)),
        ("x = /a/", ParseStop::LeftOut(4, Form::RegExp)),
        ("var = 1;", ParseStop::Syntax(4)),
        ("with (a) {}", ParseStop::LeftOut(0, Form::With)),
    ];

    /// Signs `-`, each followed by a space, and then the last: so many signs, and the answer.
    const SIGNS: [(usize, &str, ParseStop); 3] = [
        (199, ";", ParseStop::Syntax(398)),
        (200, ";", ParseStop::Nesting),
        (201, "1", ParseStop::Nesting),
    ];

    /// The answer on a text that has tokens.
    fn answer(alloc: Global, text: &str) -> Option<Result<Script, ParseStop>> {
        match tokens(alloc, text.as_bytes()) {
            Ok(found) => Some(parse(alloc, &found)),
            Err(_) => None,
        }
    }

    /// Why a text that has tokens is no script.
    fn refusal(alloc: Global, text: &str) -> Option<ParseStop> {
        match answer(alloc, text) {
            Some(Ok(tree)) => {
                drops::script(tree);
                None
            }
            Some(Err(stop)) => Some(stop),
            None => None,
        }
    }

    /// Whether an expression is the name of one unit.
    fn names(expr: &Expr, unit: u16) -> bool {
        match expr.node() {
            ExprNode::Name(named) => named.name.as_slice() == [unit].as_slice(),
            _ => false,
        }
    }

    /// Whether an expression is `++` before the name of one unit.
    fn counts_up(expr: &Expr, unit: u16) -> bool {
        match expr.node() {
            ExprNode::Update(of, Sign::Plus, Fix::Prefix) => names(of.get(), unit),
            _ => false,
        }
    }

    /// Whether an expression sets a name to a call of another with a third.
    fn sets_to_call(expr: &Expr, set: u16, called: u16, with: u16) -> bool {
        match expr.node() {
            ExprNode::Assign(None, target, value) => match value.get().node() {
                ExprNode::Call(callee, all) => {
                    all.len() == 1
                        && names(&all.as_slice()[0], with)
                        && names(callee.get(), called)
                        && names(target.get(), set)
                }
                _ => false,
            },
            _ => false,
        }
    }

    /// The expression of a statement of a script.
    fn expression_at(tree: &Script, place: usize) -> Option<&Expr> {
        match tree.statements().get(place) {
            Some(stmt) => match stmt.node() {
                StmtNode::Expression(value) => Some(value),
                _ => None,
            },
            None => None,
        }
    }

    #[test]
    fn refused(rt: HostRuntime) -> Result<(), Fail> {
        for (text, stop) in REFUSED {
            match refusal(rt.alloc(), text) {
                Some(found) => assert_eq!(rt; found, stop, "{text}"),
                None => panic!(rt; "{text} reads"),
            }
        }
        Ok(())
    }

    #[test]
    fn signs(rt: HostRuntime) -> Result<(), Fail> {
        for (many, last, stop) in SIGNS {
            let mut text = String::new(rt.alloc());
            for _ in 0..many {
                text.push_str("- ")?;
            }
            text.push_str(last)?;
            match refusal(rt.alloc(), &text) {
                Some(found) => assert_eq!(rt; found, stop, "{many} signs"),
                None => panic!(rt; "{many} signs read"),
            }
        }
        Ok(())
    }

    #[test]
    fn lines(rt: HostRuntime) -> Result<(), Fail> {
        match answer(rt.alloc(), "a\n++\nb") {
            Some(Ok(tree)) => {
                let right = match (expression_at(&tree, 0), expression_at(&tree, 1)) {
                    (Some(one), Some(two)) => names(one, 97) && counts_up(two, 98),
                    _ => false,
                };
                let many = tree.statements().len();
                drops::script(tree);
                assert!(rt; right);
                assert_eq!(rt; many, 2);
            }
            _ => panic!(rt; "no script"),
        }
        match answer(rt.alloc(), "a = b\n(c)") {
            Some(Ok(tree)) => {
                let right = match expression_at(&tree, 0) {
                    Some(one) => sets_to_call(one, 97, 98, 99),
                    None => false,
                };
                let many = tree.statements().len();
                drops::script(tree);
                assert!(rt; right);
                assert_eq!(rt; many, 1);
            }
            _ => panic!(rt; "no script"),
        }
        Ok(())
    }
}

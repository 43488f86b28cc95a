//! Expressions, made of their parts.

ghost use Rattle.std.specs.Prelude.{◌≡◌, IfOk};
ghost use Rattle.js_tree.specs.Trees.{expr_of, field_of, unbound};
ghost use Rattle.js_tree.specs.declared.ExprNode.TheVariants as node;
ghost use Rattle.js_tree.specs.declared.Key.TheVariants as key;

use js_tree::{
    BinaryOperator, Expr, ExprNode, Field, Fix, Key, Literal, Named, Script, Sign, UnaryOperator,
};
use sqlite_items::{Boxed, Items};
use std::alloc::Global;
use turk_base::{NoMemory, Units};

/// Puts an expression into a box.
pub fn boxed(alloc: Global, expr: Expr) -> Result<Boxed<Expr>, NoMemory>
    ensures { IfOk result (λ b. b ≡ expr) }
{
    match Boxed::new(alloc, expr) {
        Ok(b) => Ok(b),
        Err(_) => Err(NoMemory),
    }
}

/// `this`.
pub fn this() -> Expr
    ensures { result ≡ expr_of (node.This) }
{
    Expr {
        node: ExprNode::This,
    }
}

/// A name that is bound to nothing yet.
pub fn name(name: Units) -> Expr
    ensures { result ≡ expr_of (node.Name (unbound name)) }
{
    Expr {
        node: ExprNode::Name(Named::make(name)),
    }
}

/// A literal.
pub fn literal(value: Literal) -> Expr
    ensures { result ≡ expr_of (node.Literal value) }
{
    Expr {
        node: ExprNode::Literal(value),
    }
}

/// An array literal.
pub fn array(elements: Items<Expr>) -> Expr
    ensures { result ≡ expr_of (node.Array elements) }
{
    Expr {
        node: ExprNode::Array(elements),
    }
}

/// An object literal.
pub fn object(fields: Items<Field>) -> Expr
    ensures { result ≡ expr_of (node.Object fields) }
{
    Expr {
        node: ExprNode::Object(fields),
    }
}

/// A function expression, with its own name where it has one.
pub fn function(own: Option<Units>, parameters: Items<Units>, body: Script) -> Expr
    ensures { result ≡ expr_of (node.Function own parameters body) }
{
    Expr {
        node: ExprNode::Function(own, parameters, body),
    }
}

/// The member of a base by a key that is written after a dot.
pub fn member_fixed(alloc: Global, base: Expr, name: Units) -> Result<Expr, NoMemory>
    ensures { IfOk result (λ r. r ≡ expr_of (node.Member base (key.Fixed name))) }
{
    let base = boxed(alloc, base)?;
    Ok(Expr {
        node: ExprNode::Member(base, Key::Fixed(name)),
    })
}

/// The member of a base by the value of an expression in brackets.
pub fn member_computed(alloc: Global, base: Expr, inner: Expr) -> Result<Expr, NoMemory>
    ensures { IfOk result (λ r. r ≡ expr_of (node.Member base (key.Computed inner))) }
{
    let base = boxed(alloc, base)?;
    let inner = boxed(alloc, inner)?;
    Ok(Expr {
        node: ExprNode::Member(base, Key::Computed(inner)),
    })
}

/// A call.
pub fn call(alloc: Global, callee: Expr, arguments: Items<Expr>) -> Result<Expr, NoMemory>
    ensures { IfOk result (λ r. r ≡ expr_of (node.Call callee arguments)) }
{
    let callee = boxed(alloc, callee)?;
    Ok(Expr {
        node: ExprNode::Call(callee, arguments),
    })
}

/// `new` with a callee and its arguments.
pub fn new(alloc: Global, callee: Expr, arguments: Items<Expr>) -> Result<Expr, NoMemory>
    ensures { IfOk result (λ r. r ≡ expr_of (node.New callee arguments)) }
{
    let callee = boxed(alloc, callee)?;
    Ok(Expr {
        node: ExprNode::New(callee, arguments),
    })
}

/// `++` or `--`, before its target or after it.
pub fn update(alloc: Global, target: Expr, sign: Sign, fix: Fix) -> Result<Expr, NoMemory>
    ensures { IfOk result (λ r. r ≡ expr_of (node.Update target sign fix)) }
{
    let target = boxed(alloc, target)?;
    Ok(Expr {
        node: ExprNode::Update(target, sign, fix),
    })
}

/// `void`.
pub fn void(alloc: Global, operand: Expr) -> Result<Expr, NoMemory>
    ensures { IfOk result (λ r. r ≡ expr_of (node.Void operand)) }
{
    let operand = boxed(alloc, operand)?;
    Ok(Expr {
        node: ExprNode::Void(operand),
    })
}

/// `typeof`.
pub fn type_of(alloc: Global, operand: Expr) -> Result<Expr, NoMemory>
    ensures { IfOk result (λ r. r ≡ expr_of (node.Typeof operand)) }
{
    let operand = boxed(alloc, operand)?;
    Ok(Expr {
        node: ExprNode::Typeof(operand),
    })
}

/// An operator before its operand.
pub fn unary(alloc: Global, operator: UnaryOperator, operand: Expr) -> Result<Expr, NoMemory>
    ensures { IfOk result (λ r. r ≡ expr_of (node.Unary operator operand)) }
{
    let operand = boxed(alloc, operand)?;
    Ok(Expr {
        node: ExprNode::Unary(operator, operand),
    })
}

/// An operator between two operands.
pub fn binary(
    alloc: Global,
    operator: BinaryOperator,
    left: Expr,
    right: Expr,
) -> Result<Expr, NoMemory>
    ensures { IfOk result (λ r. r ≡ expr_of (node.Binary operator left right)) }
{
    let left = boxed(alloc, left)?;
    let right = boxed(alloc, right)?;
    Ok(Expr {
        node: ExprNode::Binary(operator, left, right),
    })
}

/// `&&`.
pub fn and(alloc: Global, left: Expr, right: Expr) -> Result<Expr, NoMemory>
    ensures { IfOk result (λ r. r ≡ expr_of (node.And left right)) }
{
    let left = boxed(alloc, left)?;
    let right = boxed(alloc, right)?;
    Ok(Expr {
        node: ExprNode::And(left, right),
    })
}

/// `||`.
pub fn or(alloc: Global, left: Expr, right: Expr) -> Result<Expr, NoMemory>
    ensures { IfOk result (λ r. r ≡ expr_of (node.Or left right)) }
{
    let left = boxed(alloc, left)?;
    let right = boxed(alloc, right)?;
    Ok(Expr {
        node: ExprNode::Or(left, right),
    })
}

/// A test with two values.
pub fn conditional(alloc: Global, test: Expr, first: Expr, second: Expr) -> Result<Expr, NoMemory>
    ensures { IfOk result (λ r. r ≡ expr_of (node.Conditional test first second)) }
{
    let test = boxed(alloc, test)?;
    let first = boxed(alloc, first)?;
    let second = boxed(alloc, second)?;
    Ok(Expr {
        node: ExprNode::Conditional(test, first, second),
    })
}

/// An assignment, with the operator that it applies or none.
pub fn assign(
    alloc: Global,
    operator: Option<BinaryOperator>,
    target: Expr,
    value: Expr,
) -> Result<Expr, NoMemory>
    ensures { IfOk result (λ r. r ≡ expr_of (node.Assign operator target value)) }
{
    let target = boxed(alloc, target)?;
    let value = boxed(alloc, value)?;
    Ok(Expr {
        node: ExprNode::Assign(operator, target, value),
    })
}

/// Two expressions with a comma between them.
pub fn comma(alloc: Global, left: Expr, right: Expr) -> Result<Expr, NoMemory>
    ensures { IfOk result (λ r. r ≡ expr_of (node.Comma left right)) }
{
    let left = boxed(alloc, left)?;
    let right = boxed(alloc, right)?;
    Ok(Expr {
        node: ExprNode::Comma(left, right),
    })
}

/// `print` with its arguments.
pub fn print(arguments: Items<Expr>) -> Expr
    ensures { result ≡ expr_of (node.Print arguments) }
{
    Expr {
        node: ExprNode::Print(arguments),
    }
}

/// `post` with its argument.
pub fn post(alloc: Global, argument: Expr) -> Result<Expr, NoMemory>
    ensures { IfOk result (λ r. r ≡ expr_of (node.Post argument)) }
{
    let argument = boxed(alloc, argument)?;
    Ok(Expr {
        node: ExprNode::Post(argument),
    })
}

/// `reply` with its argument.
pub fn reply(alloc: Global, argument: Expr) -> Result<Expr, NoMemory>
    ensures { IfOk result (λ r. r ≡ expr_of (node.Reply argument)) }
{
    let argument = boxed(alloc, argument)?;
    Ok(Expr {
        node: ExprNode::Reply(argument),
    })
}

/// `prompt` with its argument.
pub fn prompt(alloc: Global, argument: Expr) -> Result<Expr, NoMemory>
    ensures { IfOk result (λ r. r ≡ expr_of (node.Prompt argument)) }
{
    let argument = boxed(alloc, argument)?;
    Ok(Expr {
        node: ExprNode::Prompt(argument),
    })
}

/// `random` with its argument.
pub fn random(alloc: Global, argument: Expr) -> Result<Expr, NoMemory>
    ensures { IfOk result (λ r. r ≡ expr_of (node.Random argument)) }
{
    let argument = boxed(alloc, argument)?;
    Ok(Expr {
        node: ExprNode::Random(argument),
    })
}

/// `once` with its argument.
pub fn once(alloc: Global, argument: Expr) -> Result<Expr, NoMemory>
    ensures { IfOk result (λ r. r ≡ expr_of (node.Once argument)) }
{
    let argument = boxed(alloc, argument)?;
    Ok(Expr {
        node: ExprNode::Once(argument),
    })
}

/// `fork` with its argument.
pub fn fork(alloc: Global, argument: Expr) -> Result<Expr, NoMemory>
    ensures { IfOk result (λ r. r ≡ expr_of (node.Fork argument)) }
{
    let argument = boxed(alloc, argument)?;
    Ok(Expr {
        node: ExprNode::Fork(argument),
    })
}

/// `join`.
pub fn join() -> Expr
    ensures { result ≡ expr_of (node.Join) }
{
    Expr {
        node: ExprNode::Join,
    }
}

/// `crash`.
pub fn crash() -> Expr
    ensures { result ≡ expr_of (node.Crash) }
{
    Expr {
        node: ExprNode::Crash,
    }
}

/// A key with its value in an object literal.
pub fn field(key: Units, value: Expr) -> Field
    ensures { result ≡ field_of key value }
{
    Field { key, value }
}

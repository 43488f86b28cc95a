//! The tree of a script: what the parser makes, the names are bound in, and the evaluator runs.
//!
//! Statements and expressions are a struct round one node each, and all types lead back to each other through
//! `Items` and `Boxed`, so that contracts see a tree as plain data and can say that two trees are equal.
#![tactic(auto)]

ghost use Rattle.std.specs.Prelude.{◌≡◌, false};
ghost use Rattle.js_tree.specs.Trees.{script_of, functions_of, statements_of, number_of, declaration_of, declared_name, declared_parameters, declared_body, unbound};

mod resolved;

pub use resolved::Resolved;
use sqlite_items::{Boxed, Items};
use turk_base::{Units, Whole};

/// Where the declaration of a name is: so many frames out from the frame where the name stands, among the built-in
/// names, or nowhere. It is `Nothing` in each name that the parser makes.
#[derive(Clone, Copy, Debug, PartialEq, Eq)]
pub enum Binding {
    Out(u32),
    BuiltIn,
    Nothing,
}

/// One more or one less, of `++` and `--`.
#[derive(Clone, Copy, Debug, PartialEq, Eq)]
pub enum Sign {
    Plus,
    Minus,
}

/// Where `++` or `--` stands: before its operand or after it.
#[derive(Clone, Copy, Debug, PartialEq, Eq)]
pub enum Fix {
    Prefix,
    Postfix,
}

/// The operators `+`, `-`, `~` and `!` before an operand.
#[derive(Clone, Copy, Debug, PartialEq, Eq)]
pub enum UnaryOperator {
    Plus,
    Minus,
    BitNot,
    Not,
}

/// The operators between two operands, but for `&&`, `||` and the comma.
#[derive(Clone, Copy, Debug, PartialEq, Eq)]
pub enum BinaryOperator {
    Add,
    Subtract,
    Multiply,
    Divide,
    Remainder,
    ShiftLeft,
    ShiftRight,
    ShiftRightZero,
    BitAnd,
    BitOr,
    BitXor,
    Less,
    Greater,
    LessOrEqual,
    GreaterOrEqual,
    Equal,
    NotEqual,
    Same,
    NotSame,
    In,
    InstanceOf,
}

/// `null`, `true`, `false`, a number or a text, as written in the script.
#[derive(Drop)]
pub enum Literal {
    Null,
    Truth(bool),
    Number(Whole),
    Text(Units),
}

/// A name as it stands in a script, with the place of its declaration.
#[derive(Drop)]
pub struct Named {
    pub name: Units,
    pub binding: Binding,
    /// It stands in a frame that holds the own name of a function expression: writing it does nothing.
    pub own: bool,
}

/// What follows the base of a member: a fixed key after `.`, or an expression in `[ ]`.
#[derive(Drop)]
#[cycle(tree)]
pub enum Key {
    Fixed(Units),
    Computed(Boxed<Expr>),
}

/// One key with its value in an object literal; a number as a key is its decimal text.
#[derive(Drop)]
#[cycle(tree)]
pub struct Field {
    pub key: Units,
    pub value: Expr,
}

/// An expression.
#[derive(Drop)]
#[cycle(tree)]
pub struct Expr {
    pub node: ExprNode,
}

/// The kinds of expression.
#[derive(Drop)]
#[cycle(tree)]
pub enum ExprNode {
    This,
    Name(Named),
    Literal(Literal),
    Array(Items<Expr>),
    Object(Items<Field>),
    Function(Option<Units>, Items<Units>, Script),
    Member(Boxed<Expr>, Key),
    Call(Boxed<Expr>, Items<Expr>),
    New(Boxed<Expr>, Items<Expr>),
    Update(Boxed<Expr>, Sign, Fix),
    Delete(Boxed<Expr>, Key),
    Void(Boxed<Expr>),
    Typeof(Boxed<Expr>),
    Unary(UnaryOperator, Boxed<Expr>),
    Binary(BinaryOperator, Boxed<Expr>, Boxed<Expr>),
    And(Boxed<Expr>, Boxed<Expr>),
    Or(Boxed<Expr>, Boxed<Expr>),
    Conditional(Boxed<Expr>, Boxed<Expr>, Boxed<Expr>),
    Assign(Option<BinaryOperator>, Boxed<Expr>, Boxed<Expr>),
    Comma(Boxed<Expr>, Boxed<Expr>),
    Print(Items<Expr>),
    Post(Boxed<Expr>),
    Reply(Boxed<Expr>),
    Prompt(Boxed<Expr>),
    Random(Boxed<Expr>),
    Once(Boxed<Expr>),
    Fork(Boxed<Expr>),
    Join,
    Crash,
}

/// One name of a `var`, with its value where it has one.
#[derive(Drop)]
#[cycle(tree)]
pub struct Variable {
    pub named: Named,
    pub value: Option<Expr>,
}

/// The first part in the head of a `for`: nothing, an expression, or a statement of the kind Var.
#[derive(Drop)]
#[cycle(tree)]
pub enum ForStart {
    NoStart,
    ValueStart(Expr),
    VarStart(Boxed<Stmt>),
}

/// What a `for` .. `in` sets: a target or the name of a `var`.
#[derive(Drop)]
#[cycle(tree)]
pub enum ForTarget {
    TargetEach(Expr),
    VarEach(Named),
}

/// One clause of a switch; the default has no test.
#[derive(Drop)]
#[cycle(tree)]
pub struct Case {
    pub test: Option<Expr>,
    pub statements: Items<Stmt>,
}

/// The catch of a `try`: its name, and its body, a statement of the kind Block.
#[derive(Drop)]
#[cycle(tree)]
pub struct Catch {
    pub name: Units,
    pub body: Boxed<Stmt>,
}

/// A statement.
#[derive(Drop)]
#[cycle(tree)]
pub struct Stmt {
    pub node: StmtNode,
}

/// The kinds of statement. The parts of Try are of the kind Block.
#[derive(Drop)]
#[cycle(tree)]
pub enum StmtNode {
    Block(Items<Stmt>),
    Var(Items<Variable>),
    Empty,
    Expression(Expr),
    If(Expr, Boxed<Stmt>, Option<Boxed<Stmt>>),
    DoWhile(Boxed<Stmt>, Expr),
    While(Expr, Boxed<Stmt>),
    For(ForStart, Option<Expr>, Option<Expr>, Boxed<Stmt>),
    ForIn(ForTarget, Expr, Boxed<Stmt>),
    Continue,
    Break,
    Return(Option<Expr>),
    Switch(Expr, Items<Case>),
    Throw(Expr),
    Try(Boxed<Stmt>, Option<Catch>, Option<Boxed<Stmt>>),
}

/// A function declaration.
#[derive(Drop)]
#[cycle(tree)]
pub struct Declaration {
    pub name: Units,
    pub parameters: Items<Units>,
    pub body: Script,
}

/// A script, or the body of a function: its function declarations in order, and its statements in order.
///
/// The number of a function's body is its place in the table of the script's functions; it is 0 until names are bound.
#[derive(Drop)]
#[cycle(tree)]
pub struct Script {
    pub number: u32,
    pub functions: Items<Declaration>,
    pub statements: Items<Stmt>,
}

impl Named {
    /// A name that is bound to nothing yet, as the parser makes it.
    pub fn make(name: Units) -> Named
        ensures { result ≡ unbound name }
    {
        Named {
            name,
            binding: Binding::Nothing,
            own: false,
        }
    }
}

impl Stmt {
    /// Puts a node into a statement.
    pub fn make(node: StmtNode) -> Stmt
        ensures { result.node ≡ node }
    {
        Stmt { node }
    }

    /// Lends the node.
    pub fn node(&self) -> &StmtNode
        ensures { result.now ≡ self.now.node }
    {
        &self.node
    }
}

impl Expr {
    /// Puts a node into an expression.
    pub fn make(node: ExprNode) -> Expr
        ensures { result.node ≡ node }
    {
        Expr { node }
    }

    /// Lends the node.
    pub fn node(&self) -> &ExprNode
        ensures { result.now ≡ self.now.node }
    {
        &self.node
    }
}

impl Declaration {
    /// Makes a function declaration.
    pub fn make(name: Units, parameters: Items<Units>, body: Script) -> Declaration
        ensures { result ≡ declaration_of name parameters body }
    {
        Declaration {
            name,
            parameters,
            body,
        }
    }

    /// Lends the declared name.
    pub fn name(&self) -> &Units
        ensures { result.now ≡ declared_name self.now }
    {
        &self.name
    }

    /// Lends the parameters, in order; a name may stand among them more than once.
    pub fn parameters(&self) -> &[Units]
        ensures { result.now ≡ declared_parameters self.now }
    {
        self.parameters.as_slice()
    }

    /// Lends the body.
    pub fn body(&self) -> &Script
        ensures { result.now ≡ declared_body self.now }
    {
        &self.body
    }
}

impl Script {
    /// Makes a script or a function's body, with the number 0.
    pub fn make(functions: Items<Declaration>, statements: Items<Stmt>) -> Script
        ensures { result ≡ script_of functions statements }
    {
        Script {
            number: 0,
            functions,
            statements,
        }
    }

    /// The place in the table of the script's functions.
    pub fn number(&self) -> u32
        ensures { result ≡ number_of self.now }
    {
        self.number
    }

    /// Lends the function declarations, in the order of the text.
    pub fn functions(&self) -> &[Declaration]
        ensures { result.now ≡ functions_of self.now }
    {
        self.functions.as_slice()
    }

    /// Lends the statements, in the order of the text.
    pub fn statements(&self) -> &[Stmt]
        ensures { result.now ≡ statements_of self.now }
    {
        self.statements.as_slice()
    }
}

//! What a token may begin or go on with.

use crate::Form;
use js_lexer::CallWord;
use js_tree::{BinaryOperator, Expr, Literal, Sign, UnaryOperator};
use turk_base::Units;

/// What stands round a statement, up to the innermost function.
#[derive(Clone, Copy, Drop)]
pub struct Around {
    pub in_function: bool,
    pub in_loop: bool,
    pub in_switch: bool,
}

/// What stands where a name is due.
#[derive(Drop)]
pub enum Name {
    /// A name.
    Named(Units),
    /// A name that is left out.
    Out(Form),
    /// No identifier.
    Other,
}

/// What a statement is, by its first token.
#[derive(Clone, Copy, Drop)]
pub enum Start {
    Block,
    Var,
    Empty,
    If,
    Do,
    While,
    For,
    Continue,
    Break,
    Return,
    Throw,
    Switch,
    Try,
    /// An expression that begins with an identifier.
    Identifier,
    /// An expression that begins with a parenthesis.
    Parenthesis,
    /// Another expression.
    Expression,
    Neither,
}

/// What an operand is, by its first token.
#[derive(Drop)]
pub enum Head {
    This,
    Identifier(Name),
    Constant(Literal),
    Array,
    Object,
    Parenthesis,
    Function,
    /// A script call with any arguments.
    Many,
    /// A script call with one argument.
    One(CallWord),
    /// A script call with none.
    Zero(CallWord),
    RegExp,
    Neither,
}

/// What stands with the first token of an operand: a node, a parenthesis with no node, or nothing, maybe as a form that
/// is left out.
#[derive(Clone, Copy, Drop)]
pub enum Lead {
    Node,
    Open,
    Refused(Option<Form>),
}

/// What a unary expression begins with.
#[derive(Clone, Copy, Drop)]
pub enum Prefix {
    Delete,
    Void,
    Typeof,
    Update(Sign),
    Signed(UnaryOperator),
    Neither,
}

/// What stands after an operand.
#[derive(Clone, Copy, Drop)]
pub enum Tail {
    Computed,
    Fixed,
    Call,
    Neither,
}

/// An operator between two operands.
#[derive(Clone, Copy, Drop)]
pub enum Infix {
    Plain(BinaryOperator),
    And,
    Or,
}

/// An expression, and whether it is a name or a member as written, with no parentheses round it.
#[derive(Drop)]
pub struct Operand {
    pub expr: Expr,
    pub target: bool,
}

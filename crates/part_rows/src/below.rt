//! What stands deeper is read by functions that are handed in, so that each row is proved by itself.

ghost use Rattle.std.specs.Prelude.{◌≤◌, ◌+◌, true, [], IfOk};
ghost use Rattle.script_grammar.specs.Meets.{Assigns, Bodies, Ones, Meets};
ghost use Rattle.script_grammar.specs.Rules.Symbol.{Assign, Elements, Expr, Statement};
ghost use Rattle.part_rows.specs.Lines.{Exprs};

use js_lexer::Token;
use js_tree::{Script, Stmt};
use script_grammar::classes::{Around, Operand};
use script_grammar::steps::Read;
use script_grammar::stop::Stop;
use std::alloc::Global;

/// The functions that read what stands at this depth or deeper.
#[derive(Clone, Copy)]
pub struct Below<E, F, G, H> {
    pub alloc: Global,
    /// How deep what is read by these stands at least.
    pub depth: u32,
    /// Reads an expression, with `in` or without.
    pub expr: E,
    /// Reads an assignment or a conditional expression, with `in` or without.
    pub assign: F,
    /// Reads the body of a function.
    pub body: G,
    /// Reads a statement.
    pub statement: H,
}

impl<
    E: Fn(Global, bool, u32, &[Token]) -> Result<(Operand, u32, &[Token]), Stop>,
    F: Fn(Global, bool, u32, &[Token]) -> Result<(Operand, u32, &[Token]), Stop>,
    G: Fn(Global, u32, &[Token]) -> Result<(Script, u32, &[Token]), Stop>,
    H: Fn(Global, Around, u32, &[Token]) -> Result<(Stmt, u32, &[Token]), Stop>,
> Below<E, F, G, H> {
    /// An expression, so deep.
    pub fn expression<'a>(&self, no_in: bool, base: u32, tokens: &'a [Token]) -> Read<'a, Operand>
        requires exprs { Exprs self.now.depth (E.pre self.now.expr) (E.post self.now.expr) }
        requires depth { self.now.depth ≤ base }
        requires base { base ≤ 200 }
        ensures meets { Meets (Expr no_in) base tokens.now result }
        ensures small { IfOk result (λ r. base + r.1 ≤ 200) }
    {
        (self.expr)(self.alloc, no_in, base, tokens)
    }

    /// An assignment or a conditional expression, so deep.
    pub fn assignment<'a>(&self, no_in: bool, base: u32, tokens: &'a [Token]) -> Read<'a, Operand>
        requires assigns { Assigns self.now.depth (F.pre self.now.assign) (F.post self.now.assign) }
        requires depth { self.now.depth ≤ base }
        requires base { base ≤ 200 }
        ensures meets { Meets (Assign no_in) base tokens.now result }
        ensures small { IfOk result (λ r. base + r.1 ≤ 200) }
    {
        (self.assign)(self.alloc, no_in, base, tokens)
    }

    /// The body of a function, so deep.
    pub fn inner<'a>(&self, base: u32, tokens: &'a [Token]) -> Read<'a, Script>
        requires bodies { Bodies self.now.depth (G.pre self.now.body) (G.post self.now.body) }
        requires depth { self.now.depth ≤ base }
        requires base { base ≤ 200 }
        ensures meets { Meets (Elements true [] []) base tokens.now result }
        ensures small { IfOk result (λ r. base + r.1 ≤ 200) }
    {
        (self.body)(self.alloc, base, tokens)
    }

    /// A statement, so deep.
    pub fn one<'a>(&self, around: Around, base: u32, tokens: &'a [Token]) -> Read<'a, Stmt>
        requires ones { Ones self.now.depth (H.pre self.now.statement) (H.post self.now.statement) }
        requires depth { self.now.depth ≤ base }
        requires base { base ≤ 200 }
        ensures meets { Meets (Statement around) base tokens.now result }
        ensures small { IfOk result (λ r. base + r.1 ≤ 200) }
    {
        (self.statement)(self.alloc, around, base, tokens)
    }
}

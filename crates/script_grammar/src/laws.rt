//! What the grammar's relation says, as contracts.

ghost use Rattle.std.specs.Prelude.{◌≡◌, ◌≢◌, ◌≤◌, ◌+◌, ℕ, Bool, true, List, [], Ok, Err};
ghost use Rattle.script_grammar.specs.declared.stop.Stop.{Stop};
ghost use Rattle.script_grammar.specs.declared.stop.Stop.TheVariants.{Ends};
ghost use Rattle.js_tree.specs.declared.Script as script;
ghost use Rattle.js_lexer.specs.declared.Token.{Token};
ghost use Rattle.script_grammar.specs.Paths.{Table};
ghost use Rattle.script_grammar.specs.Productions.{Part as part};
ghost use Rattle.script_grammar.specs.Productions.{Reads as Reads_by_productions};
ghost use Rattle.script_grammar.specs.States.{States};
ghost use Rattle.script_grammar.specs.States.{Part as state};
ghost use Rattle.script_grammar.specs.Rules.{Done, Outcome};
ghost use Rattle.script_grammar.specs.declared.classes.Operand.{Operand};
ghost use Rattle.script_grammar.specs.Rules.Symbol.{Elements, Expr, Script};
ghost use Rattle.script_grammar.specs.Grammar.{grammar};
ghost use Rattle.script_grammar.specs.Goes.{Goes, Reads};
ghost use Rattle.script_grammar.specs.Claims.{Answers, HasEnd};

/// What the row of a script does with the tokens is what the answer has to mean, and no other tree reads.
pub fn answers_mean()
    ensures ok { (ts : List Token) (d : Done Script) → Goes 200 Script 0 (grammar Script) ts (Ok d) → Answers ts (Ok d.value) }
    ensures err { (ts : List Token) (e : Stop) → Goes 200 Script 0 (grammar Script) ts (Err e) → Answers ts (Err e) }
    ensures only { (ts : List Token) (tree : script.Script) (depth : ℕ) (o : Outcome Script) → depth ≤ 200 → Reads ts tree depth
        → Goes 200 Script 0 (grammar Script) ts o → (d : Done Script) × (o ≡ Ok d) × (d.value ≡ tree) }
    ensures whole { (ts : List Token) (o : Outcome Script) → HasEnd ts → Goes 200 Script 0 (grammar Script) ts o → o ≢ Err Ends }
{}

/// The table reads an expression and a script exactly where the productions do, as deep as they say.
pub fn productions_agree()
    ensures by_productions { (limit base : ℕ) (no_in : Bool) (ts rest : List Token) (v : Operand) (h : ℕ)
        → Goes limit (Expr no_in) base (grammar (Expr no_in)) ts (Ok record { value = v; height = h; rest = rest })
        → Reads_by_productions (Table (Elements true [] [])) (part.Expr no_in) ts v h rest }
    ensures by_table { (limit base : ℕ) (no_in : Bool) (ts rest : List Token) (v : Operand) (h : ℕ)
        → Reads_by_productions (Table (Elements true [] [])) (part.Expr no_in) ts v h rest → base + h ≤ limit
        → Goes limit (Expr no_in) base (grammar (Expr no_in)) ts (Ok record { value = v; height = h; rest = rest }) }
    ensures script { (limit base : ℕ) (ts rest : List Token) (v : script.Script) (h : ℕ)
        → Goes limit Script base (grammar Script) ts (Ok record { value = v; height = h; rest = rest }) → States (Table (Elements true [] [])) state.Script ts v h rest }
    ensures script_back { (limit base : ℕ) (ts rest : List Token) (v : script.Script) (h : ℕ)
        → States (Table (Elements true [] [])) state.Script ts v h rest → base + h ≤ limit
        → Goes limit Script base (grammar Script) ts (Ok record { value = v; height = h; rest = rest }) }
{}

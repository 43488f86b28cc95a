//! A script whose names are bound.
ghost use Rattle.std.specs.Prelude.{◌≡◌};
ghost use Rattle.js_tree.specs.Lawful.{LawfulScript};
ghost use Rattle.js_tree.specs.Binds.{IsBound};

use crate::Script;
use std::marker::Model;

/// A script in which each name has the place of its declaration, and each function its number. Contracts see the script.
#[derive(Drop)]
pub struct Resolved {
    script: Script,
}

impl Model for Resolved {
    ghost use Rattle.js_tree.specs.declared.Script.{Script};
    ghost use Rattle.js_tree.specs.contracts.Script as tree;
    ghost use Rattle.std.specs.Coded.{codes};

    ghost Value = { Script };

    ghost coded = { Prim.hlevel (codes, tree.the_row.coded) };

    ghost view = { λ r. r.script };
}

impl Resolved {
    /// Takes a lawful script in which each name is bound to its declaration by the rules of ECMA-262, 3rd edition (10.1.3
    /// and 10.1.4), and each function has the number of its place in the table of functions.
    pub fn make(script: Script) -> Resolved
        requires lawful { LawfulScript script }
        requires bound { IsBound script }
        ensures { result ≡ script }
    {
        Resolved { script }
    }

    /// Lends the script.
    pub fn script(&self) -> &Script
        ensures { result.now ≡ self.now }
    {
        &self.script
    }
}

//! Binds the names of a script: each name gets the place of its declaration, each function its number.
#![tactic(auto)]

ghost use Rattle.std.specs.Prelude.{◌≡◌, ◌≤◌, ◌<◌, IfOk, OnOk};
ghost use Rattle.js_tree.specs.Lawful.{LawfulScript};
ghost use Rattle.js_tree.specs.Binds.{IsBound};
ghost use Rattle.js_tree.specs.Bare.{bare};
ghost use Rattle.js_tree.specs.NameCount.{declared_count, name_limit};
ghost use Rattle.scope_names.specs.Walks.{ScriptBound};

mod drops;
mod exprs;
mod hoist;
mod knot;
mod names;
mod parts;
mod scopes;
mod stmts;
mod walk;

use crate::hoist::{DEPTH, frame_names};
use crate::parts::Below;
use crate::scopes::{Scope, Scopes};
use crate::walk::Walk;
use js_tree::{Resolved, Script};
use std::alloc::{AllocError, AllocFailed, Global};
use turk_base::{NoMemory, Units};

/// Why a script is not bound: it declares more than 65,535 names, or memory is wanting.
#[derive(Clone, Copy, Debug, Drop, PartialEq, Eq)]
pub enum ResolveStop {
    TooManyNames,
    Memory,
}

/// How many names a script may declare.
const NAME_LIMIT: u32 = 65535;

/// Binds each name of a lawful script to its declaration by the rules of ECMA-262, 3rd edition (10.1.3 and 10.1.4), gives each
/// function the number of its place in the table of functions, and marks the names that are the own names of function
/// expressions. Nothing else of the script changes.
///
/// It answers TooManyNames exactly where the parameters, variables, functions, names of catches and own names of function
/// expressions, each counted once for its frame, are more than 65,535. After a refusal the script is gone.
pub fn resolve(alloc: Global, script: Script) -> Result<Resolved, ResolveStop>
    requires { LawfulScript script }
    ensures bound { IfOk result (λ resolved. IsBound resolved) }
    ensures same { IfOk result (λ resolved. bare resolved ≡ bare script) }
    ensures lawful { IfOk result (λ resolved. LawfulScript resolved) }
    ensures few { OnOk result (declared_count script ≤ name_limit) }
    ensures many { result ≡ Err ResolveStop.TooManyNames → name_limit < declared_count script }
{
    match bind_script(alloc, &script) {
        Ok((_, names)) if names > NAME_LIMIT => Err(ResolveStop::TooManyNames),
        Ok((bound, _)) => Ok(Resolved::make(bound)),
        Err(NoRoom) => Err(ResolveStop::Memory),
    }
}

/// The script with its names bound, and how many it declares, where 65,536 stands for more.
fn bind_script(alloc: Global, script: &Script) -> Result<(Script, u32), NoRoom>
    ensures { IfOk result (λ r. ScriptBound script.now r.0 r.1) }
{
    let names = frame_names(alloc, &[], script)?;
    let outside = Walk {
        alloc,
        scopes: Scopes::new(alloc),
        next: 0,
        names: 0,
    };
    let walk = outside.enter(names, false)?;
    let below = Below {
        alloc,
        left: DEPTH,
        expr: knot::expr,
        stmt: knot::stmt,
        declaration: knot::declaration,
    };
    let (functions, walk) = below.declarations(walk, script.functions())?;
    let (statements, walk) = below.stmts(walk, script.statements())?;
    let bound = Script {
        number: 0,
        functions,
        statements,
    };
    Ok((bound, walk.names))
}

/// Want of memory within this crate.
#[derive(Clone, Copy, Debug, Drop, PartialEq, Eq)]
struct NoRoom;

impl From<AllocError> for NoRoom {
    fn from(_: AllocError) -> NoRoom {
        NoRoom
    }
}

impl From<AllocFailed<Units>> for NoRoom {
    fn from(_: AllocFailed<Units>) -> NoRoom {
        NoRoom
    }
}

impl From<AllocFailed<Scope>> for NoRoom {
    fn from(_: AllocFailed<Scope>) -> NoRoom {
        NoRoom
    }
}

impl From<NoMemory> for NoRoom {
    fn from(_: NoMemory) -> NoRoom {
        NoRoom
    }
}

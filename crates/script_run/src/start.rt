//! What a run begins with.
ghost use Rattle.std.specs.Prelude.{◌≡◌, ◌≤◌, IfOk};
ghost use Rattle.js_tree.specs.Table.{table_of};
ghost use Rattle.eval_ops.specs.Run.{seen_of};
ghost use Rattle.eval_ops.specs.Calls.{IsBare};
ghost use Rattle.tree_rows.specs.Codes.{table_in};

use code_table::{codes_of, whole};
use eval_ops::Machine;
use js_tree::Resolved;
use std::alloc::Global;
use tree_rows::{CodeRef, Codes};
use turk_base::{Name, NoMemory};

/// What a run begins with: the codes of the script's functions, the script as a code, the state, and the name of the session.
pub struct Prepared<'a> {
    pub codes: Codes<'a>,
    pub whole: CodeRef<'a>,
    pub machine: Machine,
    pub session: Name,
}

/// Makes it, with so much fuel.
pub fn prepare<'a>(
    alloc: Global,
    script: &'a Resolved,
    name: &Name,
    fuel: u64,
) -> Result<Prepared<'a>, NoMemory>
    requires { fuel ≤ 20000000 }
    ensures codes { IfOk result (λ r. table_in r.codes ≡ table_of script.now) }
    ensures whole { IfOk result (λ r. r.whole.body.now ≡ script.now) }
    ensures machine { IfOk result (λ r. IsBare fuel (seen_of r.machine)) }
    ensures session { IfOk result (λ r. r.session ≡ name.now) }
{
    let codes = codes_of(alloc, script.script())?;
    let whole = whole(alloc, script.script())?;
    let machine = Machine::bare(alloc, fuel)?;
    let session = name.copy(alloc)?;
    Ok(Prepared {
        codes,
        whole,
        machine,
        session,
    })
}

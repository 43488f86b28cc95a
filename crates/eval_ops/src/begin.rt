//! The machine that a run begins with.
ghost use Rattle.std.specs.Prelude.{◌≡◌, ◌<◌, ◌≤◌, ◌⊎◌, [], None, IfOk, IfErr};
ghost use Rattle.turk_base.specs.Prog.{Make};
ghost use Rattle.turk_base.specs.Values.{Frame};
ghost use Rattle.value_cells.specs.Does.{Does, Says};
ghost use Rattle.eval_ops.specs.Run.{seen_of, count};
ghost use Rattle.eval_ops.specs.Calls.{at_start, IsBare};

use crate::Machine;
use run_heap::RunHeap;
use std::alloc::Global;
use turk_base::{NoMemory, Units};
use value_cells::{CellKind, OpStop};

impl Machine {
    /// The built-in cells 0 to 6, made without charge, and no other; the script's scope. NoMemory comes for want of memory
    /// alone.
    pub fn bare(alloc: Global, fuel: u64) -> Result<Machine, NoMemory>
        requires { fuel ≤ 20000000 }
        ensures bare { IfOk result (λ m. IsBare fuel (seen_of m)) }
        ensures noted { IfOk result (λ m. m.left_back ≡ None) }
    {
        let heap = RunHeap::new(alloc, fuel)?;
        Ok(Machine {
            alloc,
            heap,
            body: false,
            values: Vec::new(alloc),
            output: Units::new(alloc),
            gone: Vec::new(alloc),
            outer: Vec::new(alloc),
            left_back: None,
        })
    }

    /// The built-in cells 0 to 6, made without charge, and cell 7, the global frame, which is paid.
    /// Spent comes exactly without fuel.
    pub fn new(alloc: Global, fuel: u64) -> Result<Machine, OpStop>
        requires { fuel ≤ 20000000 }
        ensures did { IfOk result (λ m. Does (λ nu. Make (Frame None)) (λ nu. Says (nu 7)) (at_start fuel) (seen_of m)) }
        ensures outer { IfOk result (λ m. m.outer ≡ []) }
        ensures noted { IfOk result (λ m. m.left_back ≡ None) }
        ensures count { IfOk result (λ m. 7 < count m) }
        ensures err { IfErr result (λ e. (e ≡ OpStop.Memory) ⊎ ((e ≡ OpStop.Spent) × (fuel ≡ 0))) }
    {
        if fuel == 0 {
            return Err(OpStop::Spent);
        }
        let mut heap = RunHeap::new(alloc, fuel)?;
        let Ok(_) = heap.make(CellKind::Frame(None)) else {
            return Err(OpStop::Memory);
        };
        Ok(Machine {
            alloc,
            heap,
            body: false,
            values: Vec::new(alloc),
            output: Units::new(alloc),
            gone: Vec::new(alloc),
            outer: Vec::new(alloc),
            left_back: None,
        })
    }
}

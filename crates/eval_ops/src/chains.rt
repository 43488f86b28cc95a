//! The chains of prototypes.
ghost use Rattle.std.specs.Prelude.{◌≡◌, ◌<◌, map};
ghost use Rattle.turk_base.specs.Prog.{Inherits};
ghost use Rattle.turk_base.specs.Steps.{stands_in};
ghost use Rattle.value_cells.specs.Held.{kinds_of};
ghost use Rattle.value_cells.specs.Seen.{Naming};
ghost use Rattle.value_cells.specs.Does.{Does, Says};
ghost use Rattle.slot_watch.specs.Named.{TellsApart};
ghost use Rattle.run_heap.specs.Core as core;
ghost use Rattle.run_heap.specs.Placed.{chain_of};
ghost use Rattle.eval_ops.specs.Run.{seen_of, count};

use crate::Machine;
use run_heap::RunHeap;

// whether one cell stands among the prototypes of another
fn stands_above(heap: &RunHeap, cell: u32, from: u32) -> bool
    requires cell { cell < core.count heap.now }
    requires from { from < core.count heap.now }
    ensures { (nu : Naming) → TellsApart nu (core.count heap.now) → result ≡ stands_in (nu from) (map nu (chain_of (kinds_of heap.now.cells.now) cell)) }
{
    let mut at = cell;
    'chain: loop {
        match heap.above(at) {
            None => return false,
            Some(prototype) => {
                if prototype == from {
                    return true;
                }
                at = prototype;
            }
        }
    }
}

impl Machine {
    /// Whether `from` stands on the chain of prototypes of a cell. It touches and costs nothing.
    pub fn inherits(&self, cell: u32, from: u32) -> bool
        requires cell { cell < count self.now }
        requires from { from < count self.now }
        ensures did { Does (λ nu. Inherits (nu cell) (nu from)) (λ nu. Says result) (seen_of self.now) (seen_of self.now) }
    {
        self.heap.known();
        stands_above(&self.heap, cell, from)
    }
}

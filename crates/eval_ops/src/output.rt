//! What is printed.
ghost use Rattle.std.specs.Prelude.{◌≡◌, ◌≤◌, ◌∷◌, ◌++◌, [], OnOk, OnErr};
ghost use Rattle.turk_base.specs.Prog.{Print};
ghost use Rattle.value_cells.specs.Does.{Does, told};
ghost use Rattle.eval_ops.specs.Run.{seen_of, count};

use crate::Machine;
use std::alloc::Global;
use turk_base::{NoMemory, Units};
use value_cells::OpStop;

// a line and its line feed at the end of a text; after a refusal nothing changed
fn add_line(alloc: Global, text: &mut Units, line: &Units) -> Result<(), NoMemory>
    ensures ok { OnOk result (text.new ≡ text.old ++ (line.now ++ 10 ∷ [])) }
    ensures err { OnErr result (text.new ≡ text.old) }
{
    let mut whole = line.copy(alloc)?;
    whole.push(10)?;
    text.append(&whole)
}

impl Machine {
    /// Prints a line, which costs its length with its line feed.
    pub fn print(&mut self, line: &Units) -> Result<(), OpStop>
        ensures did { Does (λ nu. Print line.now) (λ nu. told (λ u. u) result) (seen_of self.old) (seen_of self.new) }
        ensures more { count self.old ≤ count self.new }
        ensures gone { self.new.gone ≡ self.old.gone }
        ensures noted { self.new.left_back ≡ self.old.left_back }
    {
        self.heap.pay(line.as_slice().len() as u64 + 1)?;
        add_line(self.alloc, &mut self.output, line)?;
        Ok(())
    }

    /// What was printed and not taken back.
    pub fn output(&self) -> &Units
        ensures { result.now ≡ self.now.text }
    {
        &self.output
    }
}

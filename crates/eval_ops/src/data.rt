//! Data put and taken, and the texts of values.
ghost use Rattle.std.specs.Prelude.{◌≡◌, ◌≤◌, IfOk};
ghost use Rattle.turk_base.specs.Data.{nesting};
ghost use Rattle.turk_base.specs.Errors.{text_from};
ghost use Rattle.turk_base.specs.Steps.{put_data as puts, taking};
ghost use Rattle.value_cells.specs.Needs.{needs};
ghost use Rattle.value_cells.specs.Seen.{val_in};
ghost use Rattle.value_cells.specs.Does.{told};
ghost use Rattle.run_heap.specs.Works.{Performs};
ghost use Rattle.run_data.specs.Short.{IsShort};
ghost use Rattle.run_data.specs.Taken.{told_taken};
ghost use Rattle.builtin_calls.specs.Gives.{Takes};
ghost use Rattle.eval_ops.specs.Run.{seen_of, count};

use crate::Machine;
use turk_base::{Data, Units};
use value_cells::{OpStop, Value};

impl Machine {
    /// The value of a data, with new cells of the scope that runs. It costs the data's size.
    pub fn put_data(&mut self, from: &Data) -> Result<Value, OpStop>
        requires short { IsShort from.now }
        requires deep { nesting from.now ≤ 64 }
        ensures did { Performs (λ nu. puts from.now) (λ nu. told (val_in nu) result) (seen_of self.old) (seen_of self.new) }
        ensures more { count self.old ≤ count self.new }
        ensures exists { IfOk result (λ v. needs v ≤ count self.new) }
        ensures gone { self.new.gone ≡ self.old.gone }
        ensures noted { self.new.left_back ≡ self.old.left_back }
    {
        run_data::put_data(self.alloc, &mut self.heap, from)
    }

    /// Takes the data of a value, which costs the data's size; the shapes and the values that are
    /// read are touched. None comes exactly where there is no data: for a function, for an array
    /// whose keys but for `length` are not just the indexes below its length, and for what is nested
    /// over 64 deep; what was read until then was paid and touched.
    pub fn take(&mut self, value: &Value) -> Result<Option<Data>, OpStop>
        requires { needs value.now ≤ count self.old }
        ensures did { Performs (λ nu. taking (val_in nu value.now)) (λ nu. told_taken (λ d. d) result) (seen_of self.old) (seen_of self.new) }
        ensures cells { self.new.heap.cells ≡ self.old.heap.cells }
        ensures gone { self.new.gone ≡ self.old.gone }
        ensures noted { self.new.left_back ≡ self.old.left_back }
    {
        run_data::take(self.alloc, &mut self.heap, value)
    }

    /// The text of a value, which pays its length where the value isn't a text already. NoPrimitive
    /// comes exactly for an object.
    pub fn text_of(&mut self, value: &Value) -> Result<Units, OpStop>
        ensures did { Takes (λ nu. text_from (val_in nu value.now)) (λ nu t. t) result (seen_of self.old) (seen_of self.new) }
        ensures more { count self.old ≤ count self.new }
    {
        let alloc = self.alloc;
        builtin_calls::text_of(alloc, self, value)
    }
}

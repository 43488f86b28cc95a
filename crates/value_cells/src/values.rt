//! Copies of values, names and properties, and want of memory as a stop.
ghost use Rattle.std.specs.Prelude.{◌≡◌, IfOk};

use crate::{CellName, OpStop, Value};
use object_props::Props;
use std::alloc::Global;
use turk_base::NoMemory;

impl Value {
    /// An equal value.
    pub fn copy(&self, alloc: Global) -> Result<Value, NoMemory>
        ensures { IfOk result (λ copy. copy ≡ self.now) }
    {
        match self {
            Value::Undefined => Ok(Value::Undefined),
            Value::Null => Ok(Value::Null),
            Value::Truth(truth) => Ok(Value::Truth(*truth)),
            Value::Number(number) => Ok(Value::Number(*number)),
            Value::Text(text) => Ok(Value::Text(text.copy(alloc)?)),
            Value::Object(cell) => Ok(Value::Object(*cell)),
        }
    }
}

impl CellName {
    /// An equal name.
    pub fn copy(&self, alloc: Global) -> Result<CellName, NoMemory>
        ensures { IfOk result (λ copy. copy ≡ self.now) }
    {
        Ok(CellName {
            scope: self.scope.copy(alloc)?,
            number: self.number,
        })
    }
}

/// Equal properties.
pub fn copy_props(alloc: Global, props: &Props<u32, Value>) -> Result<Props<u32, Value>, NoMemory>
    ensures { IfOk result (λ copy. copy ≡ props.now) }
{
    let mut copy = Props::new(alloc);
    for place in 0..props.len() {
        let Some((key, value)) = props.pair_at(place) else {
            unreachable!()
        };
        let value = value.copy(alloc)?;
        match copy.insert_at(place, *key, value) {
            Ok(()) => {}
            Err(_) => return Err(NoMemory),
        }
    }
    Ok(copy)
}

impl From<NoMemory> for OpStop {
    ghost use Rattle.std.specs.Prelude.{◌≡◌};
    ghost use Rattle.value_cells.specs.declared.OpStop.TheVariants as stop;

    ghost from_gives = { λ _ e. e ≡ stop.Memory };

    fn from(_want: NoMemory) -> OpStop {
        OpStop::Memory
    }
}

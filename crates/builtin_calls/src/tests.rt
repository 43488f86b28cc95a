//! The calls that make no cell, over a heap that has the built-in cells and fuel alone.
ghost use Rattle.std.specs.Prelude.{◌≡◌, ◌≤◌, None};
ghost use Rattle.value_cells.specs.declared.CellKind.TheVariants.{Plain};
ghost use Rattle.value_cells.specs.Needs.{needs, all_needs};
ghost use Rattle.builtin_calls.specs.Purse.{purse};

use crate::{CallStop, call};
use std::alloc::Global;
use std::test::Fail;
use turk_base::{Units, Whole};
use value_cells::{CellKind, Heap, OpStop, Value};

/// Fuel. It can make, read and change no cell, and answers want of memory where it should.
#[derive(Drop)]
struct Purse {
    kind: CellKind,
    left: u64,
    ghost plain: { kind ≡ Plain None },
}

impl Heap for Purse {
    ghost seen = { λ h. purse h.left };

    fn get(&mut self, _cell: u32, _key: &Units) -> Result<Option<Value>, OpStop> {
        Err(OpStop::Memory)
    }

    fn put(&mut self, _cell: u32, _key: &Units, _value: Value) -> Result<(), OpStop> {
        Err(OpStop::Memory)
    }

    fn remove(&mut self, _cell: u32, _key: &Units) -> Result<bool, OpStop> {
        Err(OpStop::Memory)
    }

    fn make(&mut self, _kind: CellKind) -> Result<u32, OpStop> {
        Err(OpStop::Memory)
    }

    fn pay(&mut self, units: u64) -> Result<(), OpStop> {
        if self.left < units {
            return Err(OpStop::Spent);
        }
        self.left -= units;
        Ok(())
    }

    fn kind(&self, _cell: u32) -> &CellKind {
        &self.kind
    }
}

/// A call over so much fuel.
fn called(
    alloc: Global,
    left: u64,
    which: u8,
    this: &Value,
    args: &[Value],
) -> Result<Value, CallStop>
    requires this { needs this.now ≤ 7 }
    requires args { all_needs args.now ≤ 7 }
{
    let mut heap = Purse {
        kind: CellKind::Plain(None),
        left,
    };
    call(alloc, &mut heap, which, this, args)
}

fn number(n: u32) -> Value
    ensures { needs result ≤ 0 }
{
    Value::Number(Whole::from_u32(n))
}

fn is_text(answer: &Result<Value, CallStop>, want: &[u16]) -> bool {
    match answer {
        Ok(Value::Text(units)) => units.as_slice() == want,
        _ => false,
    }
}

fn is_number(answer: &Result<Value, CallStop>, want: i64) -> bool {
    match answer {
        Ok(Value::Number(number)) => number.get() == want,
        _ => false,
    }
}

#[test]
fn answers_on_texts(rt: HostRuntime) -> Result<(), Fail> {
    let alloc = rt.alloc();
    let abab = Value::Text(Units::from_bytes(alloc, b"abab")?);
    let none = Value::Undefined;
    let code = called(alloc, 9, 7, &abab, &[number(1)]);
    assert!(rt; is_number(&code, 98));
    let code = called(alloc, 9, 7, &abab, &[number(4)]);
    assert!(rt; matches!(code, Err(CallStop::NotWhole)));
    let b = Value::Text(Units::from_bytes(alloc, b"b")?);
    let place = called(alloc, 9, 8, &abab, &[b, number(2)]);
    assert!(rt; is_number(&place, 3));
    let part = called(alloc, 9, 9, &abab, &[number(4), number(1)]);
    assert!(rt; is_text(&part, &[98, 97, 98]));
    let part = called(alloc, 2, 9, &abab, &[number(4), number(1)]);
    assert!(rt; matches!(part, Err(CallStop::Spent)));
    let unit = called(alloc, 9, 6, &abab, &[]);
    assert!(rt; is_text(&unit, &[97]));
    let units = called(alloc, 9, 11, &none, &[number(65_601), number(66)]);
    assert!(rt; is_text(&units, &[65, 66]));
    let text = called(alloc, 9, 12, &none, &[number(12)]);
    assert!(rt; is_text(&text, &[49, 50]));
    let text = called(alloc, 9, 12, &none, &[Value::Object(0)]);
    assert!(rt; matches!(text, Err(CallStop::NoPrimitive)));
    let thrown = called(alloc, 9, 6, &none, &[]);
    assert!(rt; matches!(thrown, Err(CallStop::Throw(0, _))));
    Ok(())
}

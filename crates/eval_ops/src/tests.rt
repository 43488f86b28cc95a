//! Scopes, marks and joins at work, and data put and taken, with answers worked by hand from the
//! rules.
ghost use Rattle.std.specs.Prelude.{◌≡◌, ◌<◌, ◌≤◌, ◌++◌, ◌∷◌, [], pos, IfOk, OnOk};
ghost use Rattle.turk_base.specs.Data.{DList, DNumber, DNull, items_of};
ghost use Rattle.turk_base.specs.Node.{data_of, HasDistinctKeys};
ghost use Rattle.value_cells.specs.Needs.{needs};
ghost use Rattle.eval_ops.specs.Run.{seen_of, count};

use crate::Machine;
use std::alloc::Global;
use std::test::Fail;
use turk_base::{Data, NoMemory, Node, SlotKey, Units, Verdict, Whole};
use value_cells::{Heap, OpStop, Value};

fn number(n: u32) -> Value
    ensures { needs result ≤ 0 }
{
    Value::Number(Whole::from_u32(n))
}

/// A branch of the scope that runs prints a line. Where it is kept its value is given, else it is
/// absent.
fn branch(alloc: Global, machine: &mut Machine, line: &Units, keep: bool) -> Result<(), OpStop>
    ensures { OnOk result ((seen_of machine.new).outer ≡ (seen_of machine.old).outer) }
{
    if machine.calls() >= 4_294_967_295 {
        return Err(OpStop::Memory);
    }
    let path = machine.next_call(alloc)?;
    let entered = machine.enter(&path, true)?;
    machine.print(line)?;
    if keep {
        machine.leave_keep(entered);
        return machine.give(number(7));
    }
    machine.leave_back(entered);
    machine.absent();
    Ok(())
}

/// A branch that has a branch of its own, and prints a line after it.
fn nested(
    alloc: Global,
    machine: &mut Machine,
    lines: (&Units, &Units),
    keeps: (bool, bool),
) -> Result<(), OpStop> {
    if machine.calls() >= 4_294_967_295 {
        return Err(OpStop::Memory);
    }
    let path = machine.next_call(alloc)?;
    let entered = machine.enter(&path, true)?;
    branch(alloc, machine, lines.0, keeps.0)?;
    machine.print(lines.1)?;
    if keeps.1 {
        machine.leave_keep(entered);
        return machine.give(number(7));
    }
    machine.leave_back(entered);
    machine.absent();
    Ok(())
}

/// Two branches, one in the other or one after the other, which print `a` and `b`: whether joining
/// answers, and what stays printed.
struct Case {
    inside: bool,
    keeps: (bool, bool),
    joins: bool,
    printed: &'static [u8],
}

const CASES: [Case; 8] = [
    Case {
        inside: false,
        keeps: (true, true),
        joins: true,
        printed: b"a\nb\n",
    },
    Case {
        inside: false,
        keeps: (true, false),
        joins: false,
        printed: b"a\n",
    },
    Case {
        inside: false,
        keeps: (false, true),
        joins: false,
        printed: b"b\n",
    },
    Case {
        inside: false,
        keeps: (false, false),
        joins: false,
        printed: b"",
    },
    Case {
        inside: true,
        keeps: (true, true),
        joins: true,
        printed: b"a\nb\n",
    },
    Case {
        inside: true,
        keeps: (true, false),
        joins: false,
        printed: b"",
    },
    Case {
        inside: true,
        keeps: (false, true),
        joins: false,
        printed: b"b\n",
    },
    Case {
        inside: true,
        keeps: (false, false),
        joins: false,
        printed: b"",
    },
];

/// Runs the branches of a case, which print two lines, and joins: whether joining answers as it
/// should.
fn joins(
    alloc: Global,
    machine: &mut Machine,
    case: &Case,
    lines: (&Units, &Units),
) -> Result<bool, OpStop> {
    if case.inside {
        nested(alloc, machine, lines, case.keeps)?;
    } else {
        branch(alloc, machine, lines.0, case.keeps.0)?;
        branch(alloc, machine, lines.1, case.keeps.1)?;
    }
    let joined = machine.join(true)?;
    Ok(matches!(joined, Some(Value::Object(8))) == case.joins)
}

fn joins_lines(alloc: Global, machine: &mut Machine, case: &Case) -> Result<bool, OpStop> {
    let a = Units::from_bytes(alloc, b"a")?;
    let b = Units::from_bytes(alloc, b"b")?;
    joins(alloc, machine, case, (&a, &b))
}

fn agrees(alloc: Global, case: &Case) -> Result<bool, OpStop> {
    let mut machine = Machine::new(alloc, 100)?;
    let joined = joins_lines(alloc, &mut machine, case)?;
    let want = Units::from_bytes(alloc, case.printed)?;
    Ok(joined && *machine.output() == want)
}

#[test]
fn scopes_join(rt: HostRuntime) -> Result<(), Fail> {
    let alloc = rt.alloc();
    for case in CASES.iter() {
        let agreed = agrees(alloc, case)?;
        assert!(rt; agreed);
    }
    Ok(())
}

fn add_node(items: &mut Vec<Data>, node: Node) -> Result<(), NoMemory>
    requires { HasDistinctKeys node }
    ensures { OnOk result (items.new.items ≡ items.old.items ++ data_of node ∷ []) }
{
    match items.push(Data::make(node)) {
        Ok(()) => Ok(()),
        Err(_) => Err(NoMemory),
    }
}

fn pair_items(alloc: Global) -> Result<Vec<Data>, NoMemory>
    ensures { IfOk result (λ ds. ds.items ≡ DNumber (pos 9) ∷ DNull ∷ []) }
{
    let mut items = Vec::new(alloc);
    add_node(&mut items, Node::Number(Whole::from_u32(9)))?;
    add_node(&mut items, Node::Null)?;
    Ok(items)
}

/// The data `[9, null]`, whose size is 3.
fn pair(alloc: Global) -> Result<Data, NoMemory>
    ensures { IfOk result (λ d. d ≡ DList (items_of (DNumber (pos 9) ∷ DNull ∷ []))) }
{
    let items = pair_items(alloc)?;
    Ok(Data::make(Node::List(items)))
}

fn is_pair(data: &Data) -> bool {
    match data.node() {
        Node::List(items) => {
            items.len() == 2
                && matches!(items[0].node(), Node::Number(_))
                && matches!(items[1].node(), Node::Null)
        }
        _ => false,
    }
}

fn put_pair(alloc: Global, machine: &mut Machine) -> Result<Value, OpStop>
    ensures { IfOk result (λ v. needs v ≤ count machine.new) }
{
    let data = pair(alloc)?;
    machine.put_data(&data)
}

fn takes_pair(machine: &mut Machine, value: &Value) -> Result<bool, OpStop>
    requires { needs value.now ≤ count machine.old }
    ensures { count machine.new ≡ count machine.old }
{
    match machine.take(value)? {
        Some(data) => Ok(is_pair(&data)),
        None => Ok(false),
    }
}

/// Whether a longer `length`, which leaves a hole at the end, leaves no data.
fn refuses_hole(alloc: Global, machine: &mut Machine, cell: u32) -> Result<bool, OpStop>
    requires { cell < count machine.old }
{
    let length = Units::from_bytes(alloc, b"length")?;
    machine.put(cell, &length, number(3))?;
    let holed = machine.take(&Value::Object(cell))?;
    Ok(holed.is_none())
}

/// Puts the pair and takes it again; then a hole at the end, and it has no data.
fn put_and_taken(alloc: Global, fuel: u64) -> Result<bool, OpStop>
    requires { fuel ≤ 20000000 }
{
    let mut machine = Machine::new(alloc, fuel)?;
    let value = put_pair(alloc, &mut machine)?;
    let again = takes_pair(&mut machine, &value)?;
    let Value::Object(cell) = value else {
        return Ok(false);
    };
    let refused = refuses_hole(alloc, &mut machine, cell)?;
    Ok(again && refused)
}

#[test]
fn data_is_put_and_taken(rt: HostRuntime) -> Result<(), Fail> {
    let alloc = rt.alloc();
    let done = put_and_taken(alloc, 8)?;
    assert!(rt; done);
    assert!(rt; matches!(put_and_taken(alloc, 7), Err(OpStop::Spent)));
    Ok(())
}

/// Sets a name of the global frame, cell 7, to null, or reads it.
fn access(machine: &mut Machine, name: &Units, write: bool) -> Result<bool, OpStop>
    requires { 7 < count machine.old }
    ensures outer { OnOk result ((seen_of machine.new).outer ≡ (seen_of machine.old).outer) }
    ensures more { count machine.old ≤ count machine.new }
{
    if !machine.has(7, name) {
        return Ok(false);
    }
    if write {
        machine.write_name(7, name, Value::Null)?;
        return Ok(true);
    }
    Ok(matches!(machine.read_name(7, name)?, Value::Null))
}

/// The same in a branch of the scope that runs, which is kept.
fn access_within(
    alloc: Global,
    machine: &mut Machine,
    name: &Units,
    write: bool,
) -> Result<bool, OpStop>
    requires { 7 < count machine.old }
    ensures { OnOk result (count machine.old ≤ count machine.new) }
{
    if machine.calls() >= 4_294_967_295 {
        return Err(OpStop::Memory);
    }
    let path = machine.next_call(alloc)?;
    let entered = machine.enter(&path, true)?;
    let done = access(machine, name, write)?;
    machine.leave_keep(entered);
    Ok(done)
}

fn is_key(part: &SlotKey, name: &Units) -> bool {
    match part {
        SlotKey::Key(key) => *key == *name,
        SlotKey::Shape => false,
    }
}

/// Whether the verdict is that a branch touched the name while another had it open.
fn is_touched(alloc: Global, machine: &Machine, name: &Units) -> Result<bool, NoMemory> {
    let verdict = machine.names(alloc)?;
    match &verdict {
        Verdict::TouchedOpen(slot) => Ok(slot.number == 7 && is_key(&slot.key, name)),
        _ => Ok(false),
    }
}

fn declared(machine: &mut Machine, name: &Units) -> Result<(), OpStop>
    requires { 7 < count machine.old }
    ensures { OnOk result (7 < count machine.new) }
{
    if machine.has(7, name) {
        return Ok(());
    }
    machine.declare(7, name, number(1))
}

/// A name that one branch sets and another reads before they join.
fn is_watched(alloc: Global, machine: &mut Machine, name: &Units) -> Result<bool, OpStop>
    requires { 7 < count machine.old }
{
    declared(machine, name)?;
    let set = access_within(alloc, machine, name, true)?;
    let before = is_touched(alloc, machine, name)?;
    let read = access_within(alloc, machine, name, false)?;
    let after = is_touched(alloc, machine, name)?;
    Ok(set && !before && read && after)
}

#[test]
fn names_are_watched(rt: HostRuntime) -> Result<(), Fail> {
    let alloc = rt.alloc();
    let name = Units::from_bytes(alloc, b"x")?;
    let mut machine = Machine::new(alloc, 100)?;
    let watched = is_watched(alloc, &mut machine, &name)?;
    assert!(rt; watched);
    Ok(())
}

fn lists_one(machine: &mut Machine, name: &Units) -> Result<bool, OpStop>
    requires { 7 < count machine.old }
{
    declared(machine, name)?;
    let keys = machine.listed(7)?;
    Ok(keys.len() == 1)
}

/// Whether the text of true is `true`.
fn tells_truth(alloc: Global, machine: &mut Machine) -> Result<bool, OpStop> {
    let text = machine.text_of(&Value::Truth(true))?;
    let want = Units::from_bytes(alloc, b"true")?;
    Ok(text == want)
}

fn refuses_object(machine: &mut Machine) -> bool {
    matches!(machine.text_of(&Value::Object(7)), Err(OpStop::NoPrimitive))
}

#[test]
fn keys_and_texts(rt: HostRuntime) -> Result<(), Fail> {
    let alloc = rt.alloc();
    let name = Units::from_bytes(alloc, b"x")?;
    let mut machine = Machine::new(alloc, 100)?;
    let listed = lists_one(&mut machine, &name)?;
    assert!(rt; listed);
    let told = tells_truth(alloc, &mut machine)?;
    assert!(rt; told);
    let refused = refuses_object(&mut machine);
    assert!(rt; refused);
    Ok(())
}

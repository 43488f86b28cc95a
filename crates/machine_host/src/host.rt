//! A run over a machine and an asker is a host.

use crate::AskedRun;
use ask_model::Asker;
use run_host::{Exit, Host};
use turk_base::{Units, Whole};
use value_cells::{CellKind, Value};

/// Each call is the run's own of the same name. Memory is answered also where the asker was closed, where there is no room for
/// an index or a scope more, for a text or a value past the limits of a record, and where a call asks for what is not there: a
/// name that its frame lacks, or the end of a scope when none is open.
impl<A: Asker> Host for AskedRun<A> {
    ghost use Rattle.machine_host.specs.Laws.{chain_of};
    ghost use Rattle.machine_host.specs.Runs.{moment_in, moment_of, IsSound};

    ghost chain = { chain_of A.seen A.fits A.keeps A.tells_tasks A.tells_traces A.moment A.left_since };

    ghost moment = { λ h. moment_in _ h (moment_of A.seen A.words h) };

    ghost is_sound = { λ h. IsSound A.is_sound A.refuses A.seen h };

    fn pay(&mut self, units: u64) -> Result<(), Exit> {
        self.pay(units)
    }

    fn kind(&self, cell: u32) -> CellKind {
        self.kind(cell)
    }

    fn make(&mut self, kind: CellKind) -> Result<u32, Exit> {
        self.make(kind)
    }

    fn inherits(&self, cell: u32, from: u32) -> bool {
        self.inherits(cell, from)
    }

    fn get(&mut self, cell: u32, key: &Units) -> Result<Option<Value>, Exit> {
        self.get(cell, key)
    }

    fn put(&mut self, cell: u32, key: &Units, value: Value) -> Result<(), Exit> {
        self.put(cell, key, value)
    }

    fn remove(&mut self, cell: u32, key: &Units) -> Result<bool, Exit> {
        self.remove(cell, key)
    }

    fn keys(&mut self, cell: u32) -> Result<Vec<Units>, Exit> {
        self.keys(cell)
    }

    fn read_name(&mut self, frame: u32, name: &Units) -> Result<Value, Exit> {
        self.read_name(frame, name)
    }

    fn write_name(&mut self, frame: u32, name: &Units, value: Value) -> Result<(), Exit> {
        self.write_name(frame, name, value)
    }

    fn declare(&mut self, frame: u32, name: &Units, value: Value) -> Result<(), Exit> {
        self.declare(frame, name, value)
    }

    fn print(&mut self, line: &Units) -> Result<(), Exit> {
        self.print(line)
    }

    fn post(&mut self, text: &Units) -> Result<Units, Exit> {
        self.post(text)
    }

    fn reply(&mut self, token: &Units) -> Result<Units, Exit> {
        self.reply(token)
    }

    fn draw(&mut self, bound: Whole) -> Result<Whole, Exit> {
        self.draw(bound)
    }

    fn join(&mut self) -> Result<Value, Exit> {
        self.join()
    }

    fn may_fork(&self) -> Result<(), Exit> {
        self.may_fork()
    }

    fn crash(&mut self) -> Exit {
        self.crash()
    }

    fn built_in(&mut self, which: u8, this: &Value, arguments: &[Value]) -> Result<Value, Exit> {
        self.built_in(which, this, arguments)
    }

    fn open_once(&mut self) -> Result<Option<Value>, Exit> {
        self.open_once()
    }

    fn end_once(&mut self, ended: Result<Value, Exit>) -> Result<Value, Exit> {
        self.end_once(ended)
    }

    fn open_fork(&mut self) -> Result<(), Exit> {
        self.open_fork()
    }

    fn end_fork(&mut self, ended: Result<Value, Exit>) -> Result<(), Exit> {
        self.end_fork(ended)
    }

    ghost built_ins = { λ h sound. record { named = sound.good.named } };

    ghost apart = { λ h sound. record { named = sound.good.told.apart } };
}

//! The requests that a machine answers alone.
ghost use Rattle.std.specs.Prelude.{◌≡◌, ◌≤◌, ◌<◌, ◌+◌, IfOk, IfErr, OnOk};
ghost use Rattle.std.specs.Option.{option_map};
ghost use Rattle.turk_base.specs.Prog.{Pay, KindOf, Make, Get, Put, Remove, Keys, ReadName, WriteName, Declare, Print, ask};
ghost use Rattle.value_cells.specs.Needs.{needs, option_needs, kind_needs};
ghost use Rattle.value_cells.specs.Seen.{val_in, kind_in};
ghost use Rattle.value_cells.specs.Does.{Does, told};
ghost use Rattle.eval_ops.specs.Run.{seen_of, count};
ghost use Rattle.run_host.specs.Moment.{cells};
ghost use Rattle.run_host.specs.Told.{exit_needs};
ghost use Rattle.run_host.specs.Steps.{Gives, Takes};
ghost use Rattle.machine_host.specs.Chain.{IsStill};
ghost use Rattle.machine_host.specs.Runs.{moment_of, IsSound};

use crate::AskedRun;
use crate::exits::answer_of;
use ask_model::{AskStop, Asker};
use eval_ops::Machine;
use run_host::Exit;
use turk_base::Units;
use value_cells::{CellKind, Heap, OpStop, Value};

impl<A: Asker> AskedRun<A> {
    /// Pays so many units of fuel.
    pub fn pay(&mut self, units: u64) -> Result<(), Exit>
        requires sound { IsSound A.is_sound A.refuses A.seen self.old }
        ensures did { Takes (λ nu. ask (Pay units)) (λ nu u. u) result (moment_of A.seen A.words self.old) (moment_of A.seen A.words self.new) }
        ensures spent { OnOk result ((moment_of A.seen A.words self.new).heap.left + units ≡ (moment_of A.seen A.words self.old).heap.left) }
        ensures more { cells (moment_of A.seen A.words self.old) ≤ cells (moment_of A.seen A.words self.new) }
        ensures thrown { IfErr result (λ x. exit_needs x ≡ 0) }
        ensures still { IsStill self.old self.new }
        ensures sound { IsSound A.is_sound A.refuses A.seen self.new }
    {
        let answer = self.guarded.machine.pay(units);
        self.guarded.machine.known();
        answer_of(answer)
    }

    /// Makes a cell of the scope that runs, which costs 1.
    pub fn make(&mut self, kind: CellKind) -> Result<u32, Exit>
        requires sound { IsSound A.is_sound A.refuses A.seen self.old }
        requires kind { kind_needs kind ≤ cells (moment_of A.seen A.words self.old) }
        ensures did { Takes (λ nu. ask (Make (kind_in nu kind))) (λ nu i. nu i) result (moment_of A.seen A.words self.old) (moment_of A.seen A.words self.new) }
        ensures more { cells (moment_of A.seen A.words self.old) ≤ cells (moment_of A.seen A.words self.new) }
        ensures exists { IfOk result (λ i. i < cells (moment_of A.seen A.words self.new)) }
        ensures thrown { IfErr result (λ x. exit_needs x ≡ 0) }
        ensures still { IsStill self.old self.new }
        ensures sound { IsSound A.is_sound A.refuses A.seen self.new }
    {
        let answer = self.guarded.machine.make(kind);
        self.guarded.machine.known();
        answer_of(answer)
    }

    /// The property that a cell has, else the first of its prototypes that has the key, or None.
    pub fn get(&mut self, cell: u32, key: &Units) -> Result<Option<Value>, Exit>
        requires sound { IsSound A.is_sound A.refuses A.seen self.old }
        requires cell { cell < cells (moment_of A.seen A.words self.old) }
        ensures did { Takes (λ nu. ask (Get (nu cell) key.now)) (λ nu v. option_map (val_in nu) v) result (moment_of A.seen A.words self.old) (moment_of A.seen A.words self.new) }
        ensures more { cells (moment_of A.seen A.words self.old) ≤ cells (moment_of A.seen A.words self.new) }
        ensures exists { IfOk result (λ v. option_needs v ≤ cells (moment_of A.seen A.words self.new)) }
        ensures thrown { IfErr result (λ x. exit_needs x ≡ 0) }
        ensures still { IsStill self.old self.new }
        ensures sound { IsSound A.is_sound A.refuses A.seen self.new }
    {
        let answer = self.guarded.machine.get(cell, key);
        self.guarded.machine.known();
        answer_of(answer)
    }

    /// Sets a cell's own property, or creates it last.
    pub fn put(&mut self, cell: u32, key: &Units, value: Value) -> Result<(), Exit>
        requires sound { IsSound A.is_sound A.refuses A.seen self.old }
        requires cell { cell < cells (moment_of A.seen A.words self.old) }
        requires value { needs value ≤ cells (moment_of A.seen A.words self.old) }
        ensures did { Takes (λ nu. ask (Put (nu cell) key.now (val_in nu value))) (λ nu u. u) result (moment_of A.seen A.words self.old) (moment_of A.seen A.words self.new) }
        ensures more { cells (moment_of A.seen A.words self.old) ≤ cells (moment_of A.seen A.words self.new) }
        ensures thrown { IfErr result (λ x. exit_needs x ≡ 0) }
        ensures still { IsStill self.old self.new }
        ensures sound { IsSound A.is_sound A.refuses A.seen self.new }
    {
        let answer = self.guarded.machine.put(cell, key, value);
        self.guarded.machine.known();
        answer_of(answer)
    }

    /// Deletes a cell's own property. False for what can't be deleted.
    pub fn remove(&mut self, cell: u32, key: &Units) -> Result<bool, Exit>
        requires sound { IsSound A.is_sound A.refuses A.seen self.old }
        requires cell { cell < cells (moment_of A.seen A.words self.old) }
        ensures did { Takes (λ nu. ask (Remove (nu cell) key.now)) (λ nu b. b) result (moment_of A.seen A.words self.old) (moment_of A.seen A.words self.new) }
        ensures more { cells (moment_of A.seen A.words self.old) ≤ cells (moment_of A.seen A.words self.new) }
        ensures thrown { IfErr result (λ x. exit_needs x ≡ 0) }
        ensures still { IsStill self.old self.new }
        ensures sound { IsSound A.is_sound A.refuses A.seen self.new }
    {
        let answer = self.guarded.machine.remove(cell, key);
        self.guarded.machine.known();
        answer_of(answer)
    }

    /// The keys that for-in lists for a cell, in order.
    pub fn keys(&mut self, cell: u32) -> Result<Vec<Units>, Exit>
        requires sound { IsSound A.is_sound A.refuses A.seen self.old }
        requires cell { cell < cells (moment_of A.seen A.words self.old) }
        ensures did { Takes (λ nu. ask (Keys (nu cell))) (λ nu ks. ks.items) result (moment_of A.seen A.words self.old) (moment_of A.seen A.words self.new) }
        ensures more { cells (moment_of A.seen A.words self.old) ≤ cells (moment_of A.seen A.words self.new) }
        ensures thrown { IfErr result (λ x. exit_needs x ≡ 0) }
        ensures still { IsStill self.old self.new }
        ensures sound { IsSound A.is_sound A.refuses A.seen self.new }
    {
        let answer = self.guarded.machine.listed(cell);
        self.guarded.machine.known();
        answer_of(answer)
    }

    /// Adds a line to the output.
    pub fn print(&mut self, line: &Units) -> Result<(), Exit>
        requires sound { IsSound A.is_sound A.refuses A.seen self.old }
        ensures did { Takes (λ nu. ask (Print line.now)) (λ nu u. u) result (moment_of A.seen A.words self.old) (moment_of A.seen A.words self.new) }
        ensures more { cells (moment_of A.seen A.words self.old) ≤ cells (moment_of A.seen A.words self.new) }
        ensures thrown { IfErr result (λ x. exit_needs x ≡ 0) }
        ensures still { IsStill self.old self.new }
        ensures sound { IsSound A.is_sound A.refuses A.seen self.new }
    {
        let answer = self.guarded.machine.print(line);
        self.guarded.machine.known();
        answer_of(answer)
    }

    /// The value of a name in the frame that declares it.
    pub fn read_name(&mut self, frame: u32, name: &Units) -> Result<Value, Exit>
        requires sound { IsSound A.is_sound A.refuses A.seen self.old }
        requires frame { frame < cells (moment_of A.seen A.words self.old) }
        ensures did { Takes (λ nu. ask (ReadName (nu frame) name.now)) val_in result (moment_of A.seen A.words self.old) (moment_of A.seen A.words self.new) }
        ensures more { cells (moment_of A.seen A.words self.old) ≤ cells (moment_of A.seen A.words self.new) }
        ensures exists { IfOk result (λ v. needs v ≤ cells (moment_of A.seen A.words self.new)) }
        ensures thrown { IfErr result (λ x. exit_needs x ≡ 0) }
        ensures still { IsStill self.old self.new }
        ensures sound { IsSound A.is_sound A.refuses A.seen self.new }
    {
        if !self.guarded.machine.has(frame, name) {
            return Err(Exit::Stopped(AskStop::Memory));
        }
        let answer = self.guarded.machine.read_name(frame, name);
        self.guarded.machine.known();
        answer_of(answer)
    }

    /// Sets a name in the frame that declares it.
    pub fn write_name(&mut self, frame: u32, name: &Units, value: Value) -> Result<(), Exit>
        requires sound { IsSound A.is_sound A.refuses A.seen self.old }
        requires frame { frame < cells (moment_of A.seen A.words self.old) }
        requires value { needs value ≤ cells (moment_of A.seen A.words self.old) }
        ensures did { Takes (λ nu. ask (WriteName (nu frame) name.now (val_in nu value))) (λ nu u. u) result (moment_of A.seen A.words self.old) (moment_of A.seen A.words self.new) }
        ensures more { cells (moment_of A.seen A.words self.old) ≤ cells (moment_of A.seen A.words self.new) }
        ensures thrown { IfErr result (λ x. exit_needs x ≡ 0) }
        ensures still { IsStill self.old self.new }
        ensures sound { IsSound A.is_sound A.refuses A.seen self.new }
    {
        let answer = set_name(&mut self.guarded.machine, frame, name, value);
        self.guarded.machine.known();
        answer_of(answer)
    }

    /// Declares a name in a frame.
    pub fn declare(&mut self, frame: u32, name: &Units, value: Value) -> Result<(), Exit>
        requires sound { IsSound A.is_sound A.refuses A.seen self.old }
        requires frame { frame < cells (moment_of A.seen A.words self.old) }
        requires value { needs value ≤ cells (moment_of A.seen A.words self.old) }
        ensures did { Takes (λ nu. ask (Declare (nu frame) name.now (val_in nu value))) (λ nu u. u) result (moment_of A.seen A.words self.old) (moment_of A.seen A.words self.new) }
        ensures more { cells (moment_of A.seen A.words self.old) ≤ cells (moment_of A.seen A.words self.new) }
        ensures thrown { IfErr result (λ x. exit_needs x ≡ 0) }
        ensures still { IsStill self.old self.new }
        ensures sound { IsSound A.is_sound A.refuses A.seen self.new }
    {
        let answer = set_name(&mut self.guarded.machine, frame, name, value);
        self.guarded.machine.known();
        answer_of(answer)
    }

    /// The kind of a cell; it touches and costs nothing.
    pub fn kind(&self, cell: u32) -> CellKind
        requires sound { IsSound A.is_sound A.refuses A.seen self.now }
        requires cell { cell < cells (moment_of A.seen A.words self.now) }
        ensures did { Gives (λ nu. ask (KindOf (nu cell))) (λ nu. kind_in nu result) (moment_of A.seen A.words self.now) (moment_of A.seen A.words self.now) }
        ensures exists { kind_needs result ≤ cells (moment_of A.seen A.words self.now) }
    {
        *self.guarded.machine.kind(cell)
    }
}

// A name of a frame is set where the frame has it, else it is declared: the meaning is the same.
fn set_name(machine: &mut Machine, frame: u32, name: &Units, value: Value) -> Result<(), OpStop>
    requires frame { frame < count machine.old }
    requires value { needs value ≤ count machine.old }
    ensures did { Does (λ nu. WriteName (nu frame) name.now (val_in nu value)) (λ nu. told (λ u. u) result) (seen_of machine.old) (seen_of machine.new) }
    ensures more { count machine.old ≤ count machine.new }
    ensures gone { machine.new.gone ≡ machine.old.gone }
{
    if machine.has(frame, name) {
        machine.write_name(frame, name, value)
    } else {
        machine.declare(frame, name, value)
    }
}

//! The ends of once bodies: a value is recorded, what the body did is taken back, and the value is put anew; what a body did
//! that threw stays.
ghost use Rattle.std.specs.Prelude.{◌≡◌, ◌≤◌, IfOk, IfErr};
ghost use Rattle.turk_base.specs.Names.{path_in};
ghost use Rattle.turk_base.specs.Values.{Normal};
ghost use Rattle.turk_base.specs.Prog.{Prog, Once};
ghost use Rattle.turk_base.specs.declared.Record.TheVariants.{Once as Kept};
ghost use Rattle.record_bytes.specs.Limits.{IsRecordWithin};
ghost use Rattle.value_cells.specs.Needs.{needs};
ghost use Rattle.value_cells.specs.Seen.{Naming, val_in};
ghost use Rattle.run_host.specs.Moment.{Moment, alone, cells};
ghost use Rattle.run_host.specs.Told.{Says, told_value, exit_needs};
ghost use Rattle.run_host.specs.Did.{Runs};
ghost use Rattle.run_host.specs.Scopes.{Local, OpensOnce};
ghost use Rattle.machine_host.specs.Bodies.{gift_at, goes_on, TakesData, LeavesBy, RefusesOnce, recorded, PutsAnew, KeepsData, EndsOnce};
ghost use Rattle.machine_host.specs.Chain.{IsStill, Later};
ghost use Rattle.machine_host.specs.Runs.{moment_of, IsSound};

use crate::exits::{answer_of, exit_of};
use crate::fitting::fits;
use crate::{AskedRun, Unmade};
use ask_model::{AskStop, Asker, Known};
use run_host::{Exit, Halt, Refusal};
use turk_base::{Data, Path};
use value_cells::{OpStop, Value};

/// The most indexes that a path has.
const MOST_INDEXES: usize = 800;

// What taking data answered, as an evaluator's answer.
fn gift_of(taken: Result<Option<Data>, OpStop>) -> Result<Data, Exit>
    ensures { result ≡ gift_at taken }
{
    match taken {
        Ok(Some(data)) => Ok(data),
        Ok(None) => Err(Exit::Halted(Halt::Refused(Refusal::NotData))),
        Err(stop) => Err(exit_of(stop)),
    }
}

// Whether the scope around goes on after this exit of a once body, or can.
fn goes_on(exit: &Exit) -> bool
    ensures { result ≡ goes_on exit.now }
{
    match exit {
        Exit::Throw(_) => true,
        Exit::Halted(Halt::Refused(_)) => true,
        Exit::Halted(Halt::Waits) => true,
        Exit::Halted(Halt::Spent) => false,
        Exit::Halted(Halt::Diverges(_)) => false,
        Exit::Stopped(_) => false,
    }
}

impl<A: Asker> AskedRun<A> {
    /// Takes the data of the value that a once body gave.
    fn body_data(&mut self, value: &Value) -> Result<Data, Exit>
        requires sound { IsSound A.is_sound A.refuses A.seen self.old }
        requires value { needs value.now ≤ cells (moment_of A.seen A.words self.old) }
        ensures did { TakesData value.now result (moment_of A.seen A.words self.old) (moment_of A.seen A.words self.new) }
        ensures thrown { IfErr result (λ x. exit_needs x ≡ 0) }
        ensures still { IsStill self.old self.new }
        ensures sound { IsSound A.is_sound A.refuses A.seen self.new }
    {
        let taken = self.guarded.machine.take(value);
        self.guarded.machine.known();
        gift_of(taken)
    }

    /// Passes on the exit of a once body. What the body did stays, and its scope is left, where the scope around goes on or can.
    fn body_left(&mut self, exit: Exit) -> Exit
        requires sound { IsSound A.is_sound A.refuses A.seen self.old }
        requires thrown { exit_needs exit ≤ cells (moment_of A.seen A.words self.old) }
        ensures left { LeavesBy exit result (moment_of A.seen A.words self.old) (moment_of A.seen A.words self.new) }
        ensures thrown { exit_needs result ≤ cells (moment_of A.seen A.words self.new) }
        ensures still { IsStill self.old self.new }
        ensures sound { IsSound A.is_sound A.refuses A.seen self.new }
    {
        if !goes_on(&exit) {
            return exit;
        }
        match self.keep_done() {
            Ok(()) => exit,
            Err(lost) => lost,
        }
    }

    /// Makes the record of a once call, and gives its data back. Memory is answered also where the asker was closed, where
    /// there is a record at the path, and past the limits of a record.
    fn record_once(&mut self, path: Path, gift: Data) -> Result<Data, Exit>
        requires sound { IsSound A.is_sound A.refuses A.seen self.old }
        ensures same { IfOk result (λ d. d ≡ gift) }
        ensures within { IfOk result (λ d. IsRecordWithin (Kept d)) }
        ensures made { IfOk result (λ d. moment_of A.seen A.words self.new ≡ recorded (path_in path) gift (moment_of A.seen A.words self.old)) }
        ensures refused { IfErr result (λ x. RefusesOnce (path_in path) gift x (moment_of A.seen A.words self.old) (moment_of A.seen A.words self.new)) }
        ensures thrown { IfErr result (λ x. exit_needs x ≡ 0) }
        ensures later { Later A.seen A.fits A.keeps A.tells_tasks A.tells_traces A.moment A.left_since self.old self.new }
        ensures sound { IsSound A.is_sound A.refuses A.seen self.new }
    {
        if self.closed || path.len() == 0 || path.len() > MOST_INDEXES {
            return Err(Exit::Stopped(AskStop::Memory));
        }
        if !fits(&gift) {
            return Err(Exit::Stopped(AskStop::Memory));
        }
        match self.asker.known(&path) {
            Known::Here => Err(Exit::Stopped(AskStop::Memory)),
            _ => match self.asker.once_done(&path, &gift) {
                Ok(()) => Ok(gift),
                Err(stop) => Err(self.refuse(stop, Unmade::Keeping(path, gift))),
            },
        }
    }

    /// Leaves the scope of a once body, takes back all that was done in it but for the fuel, and puts the data.
    fn put_anew(&mut self, gift: &Data) -> Result<Value, Exit>
        requires sound { IsSound A.is_sound A.refuses A.seen self.old }
        requires within { IsRecordWithin (Kept gift.now) }
        ensures did { PutsAnew gift.now result (moment_of A.seen A.words self.old) (moment_of A.seen A.words self.new) }
        ensures exists { IfOk result (λ v. needs v ≤ cells (moment_of A.seen A.words self.new)) }
        ensures thrown { IfErr result (λ x. exit_needs x ≡ 0) }
        ensures still { IsStill self.old self.new }
        ensures sound { IsSound A.is_sound A.refuses A.seen self.new }
    {
        self.take_back()?;
        let answer = self.guarded.machine.put_data(gift);
        self.guarded.machine.known();
        answer_of(answer)
    }

    /// Records the data that a once body gave, takes back what the body did, and puts the data anew.
    fn body_kept(&mut self, gift: Data) -> Result<Value, Exit>
        requires sound { IsSound A.is_sound A.refuses A.seen self.old }
        ensures did { KeepsData gift result (moment_of A.seen A.words self.old) (moment_of A.seen A.words self.new) }
        ensures exists { IfOk result (λ v. needs v ≤ cells (moment_of A.seen A.words self.new)) }
        ensures thrown { IfErr result (λ x. exit_needs x ≡ 0) }
        ensures later { Later A.seen A.fits A.keeps A.tells_tasks A.tells_traces A.moment A.left_since self.old self.new }
        ensures sound { IsSound A.is_sound A.refuses A.seen self.new }
    {
        let Ok(path) = self.guarded.machine.path().copy(self.alloc) else {
            return Err(Exit::Stopped(AskStop::Memory));
        };
        let kept = self.record_once(path, gift)?;
        self.put_anew(&kept)
    }

    /// Ends a once body that gave a value.
    fn body_gave(&mut self, value: Value) -> Result<Value, Exit>
        requires sound { IsSound A.is_sound A.refuses A.seen self.old }
        requires value { needs value ≤ cells (moment_of A.seen A.words self.old) }
        ensures did { EndsOnce (λ nu. Says (Normal (val_in nu value))) (moment_of A.seen A.words self.old) (λ nu. told_value nu result) (moment_of A.seen A.words self.new) }
        ensures exists { IfOk result (λ v. needs v ≤ cells (moment_of A.seen A.words self.new)) }
        ensures thrown { IfErr result (λ x. exit_needs x ≤ cells (moment_of A.seen A.words self.new)) }
        ensures later { Later A.seen A.fits A.keeps A.tells_tasks A.tells_traces A.moment A.left_since self.old self.new }
        ensures sound { IsSound A.is_sound A.refuses A.seen self.new }
    {
        match self.body_data(&value) {
            Ok(gift) => self.body_kept(gift),
            Err(exit) => Err(self.body_left(exit)),
        }
    }

    /// Ends the once body that was opened last, by how its call ended: a value is recorded, all else that the body did is
    /// taken back, and the value is put anew. What a body did that threw stays.
    pub fn end_once(&mut self, ended: Result<Value, Exit>) -> Result<Value, Exit>
        requires sound { IsSound A.is_sound A.refuses A.seen self.old }
        requires value { IfOk ended (λ v. needs v ≤ cells (moment_of A.seen A.words self.old)) }
        requires thrown { IfErr ended (λ x. exit_needs x ≤ cells (moment_of A.seen A.words self.old)) }
        ensures did { (g : Naming → Prog) (before opened : Moment alone) → Local (cells before) g → OpensOnce before opened → Runs g (λ nu. told_value nu ended) opened (moment_of A.seen A.words self.old)
            → Runs (λ nu. Once (g nu)) (λ nu. told_value nu result) before (moment_of A.seen A.words self.new) }
        ensures exists { IfOk result (λ v. needs v ≤ cells (moment_of A.seen A.words self.new)) }
        ensures thrown { IfErr result (λ x. exit_needs x ≤ cells (moment_of A.seen A.words self.new)) }
        ensures later { Later A.seen A.fits A.keeps A.tells_tasks A.tells_traces A.moment A.left_since self.old self.new }
        ensures sound { IsSound A.is_sound A.refuses A.seen self.new }
    {
        match ended {
            Ok(value) => self.body_gave(value),
            Err(exit) => Err(self.body_left(exit)),
        }
    }
}

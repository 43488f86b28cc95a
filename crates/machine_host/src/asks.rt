//! The asks of the outside: each takes an index, and is answered by its record or by the asker.
ghost use Rattle.std.specs.Prelude.{◌≡◌, ◌≤◌, ◌<◌, ◌≤ℤ◌, pos, false, None, length, IfOk, IfErr};
ghost use Rattle.turk_base.specs.Names.{path_in};
ghost use Rattle.turk_base.specs.Prog.{Post, Reply, Draw, ask};
ghost use Rattle.turk_base.specs.Asks.{posts, replies, draws};
ghost use Rattle.turk_base.specs.Trace.{at, below};
ghost use Rattle.ask_model.specs.Asker.{known_to, IsCallPath};
ghost use Rattle.run_heap.specs.Core.{names_in};
ghost use Rattle.run_heap.specs.Scopes.{IsReady};
ghost use Rattle.run_host.specs.Moment.{cells};
ghost use Rattle.run_host.specs.Told.{exit_needs};
ghost use Rattle.run_host.specs.Steps.{Takes};
ghost use Rattle.machine_host.specs.Asking.{Indexed, Loses, Refuses, AwaitsTask, Asks};
ghost use Rattle.machine_host.specs.Chain.{IsStill, Closes, Later};
ghost use Rattle.machine_host.specs.Moments.{unmade_in};
ghost use Rattle.machine_host.specs.Sound.{IsGood, AreOpen, IsNamed};
ghost use Rattle.machine_host.specs.Runs.{heap_of, moment_of, IsSound};

use crate::kept::{
    diverged_below, draw_kept, post_below, post_kept, reply_below, reply_kept, token_at,
};
use crate::scopes::note;
use crate::stops::copy_stop;
use crate::{AskedRun, Question, Unmade, Wait};
use ask_model::{AskStop, Asker, Called, Known};
use run_host::{Exit, Halt};
use turk_base::{Path, Units, Whole};

/// The most indexes that a path has.
const MOST_INDEXES: usize = 800;

/// The most units that a text has.
const MOST_UNITS: usize = 1_048_576;

impl<A: Asker> AskedRun<A> {
    /// Takes the index of a call, and gives its path. Memory is answered also where the asker was closed, or there is no room
    /// for an index more.
    pub fn take_index(&mut self) -> Result<Path, Exit>
        requires sound { IsSound A.is_sound A.refuses A.seen self.old }
        ensures taken { IfOk result (λ p. Indexed p (moment_of A.seen A.words self.old) (moment_of A.seen A.words self.new)) }
        ensures some { IfOk result (λ p. 0 < length p) }
        ensures short { IfOk result (λ p. length p ≤ 800) }
        ensures open { IfOk result (λ p. self.new.closed ≡ false) }
        ensures going { IfOk result (λ p. (A.seen self.new.asker).closed ≡ false) }
        ensures ready { IfOk result (λ p. IsReady p self.new.guarded.machine.heap.place.path self.new.guarded.machine.heap.place.calls (names_in self.new.guarded.machine.heap.cells.now)) }
        ensures lost { IfErr result (λ x. Loses x (moment_of A.seen A.words self.old) (moment_of A.seen A.words self.new)) }
        ensures more { cells (moment_of A.seen A.words self.old) ≤ cells (moment_of A.seen A.words self.new) }
        ensures asker { self.new.asker ≡ self.old.asker }
        ensures notes { self.new.notes ≡ self.old.notes }
        ensures still { IsStill self.old self.new }
        ensures sound { IsSound A.is_sound A.refuses A.seen self.new }
    {
        if self.closed || self.guarded.machine.calls() == u32::MAX {
            return Err(Exit::Stopped(AskStop::Memory));
        }
        if self.guarded.machine.path().len() >= MOST_INDEXES {
            return Err(Exit::Stopped(AskStop::Memory));
        }
        let answer = self.guarded.machine.next_call(self.alloc);
        self.guarded.machine.known();
        match answer {
            Ok(path) => Ok(path),
            Err(_) => Err(Exit::Stopped(AskStop::Memory)),
        }
    }

    /// Notes why the asker refused a record, and tells it. It is asked no more.
    pub(crate) fn refuse(&mut self, stop: AskStop, unmade: Unmade) -> Exit
        requires sound { A.is_sound self.old.asker }
        requires good { IsGood (heap_of self.old) }
        requires entered { AreOpen self.old.entered.items (heap_of self.old).outer }
        requires quiet { self.old.notes.stopped ≡ None }
        requires may { A.refuses stop }
        requires named { IsNamed (unmade_in unmade) }
        requires full { stop ≡ AskStop.TraceFull → 65536 ≤ length (known_to (A.seen self.old.asker)) }
        ensures told { Refuses (unmade_in unmade) stop result (moment_of A.seen A.words self.old) (moment_of A.seen A.words self.new) }
        ensures thrown { exit_needs result ≡ 0 }
        ensures more { cells (moment_of A.seen A.words self.old) ≤ cells (moment_of A.seen A.words self.new) }
        ensures closes { Closes stop unmade self.old self.new }
        ensures sound { IsSound A.is_sound A.refuses A.seen self.new }
    {
        self.closed = true;
        match copy_stop(self.alloc, &stop) {
            Ok(copy) => {
                self.notes.stopped = Some(copy);
                self.notes.unmade = unmade;
                Exit::Stopped(stop)
            }
            Err(_) => Exit::Stopped(AskStop::Memory),
        }
    }

    /// Posts a task whose path has no record.
    fn post_fresh(&mut self, path: Path, text: &Units) -> Result<Units, Exit>
        requires sound { IsSound A.is_sound A.refuses A.seen self.old }
        requires open { self.old.closed ≡ false }
        requires new { at (known_to (A.seen self.old.asker)) path ≡ None }
        requires none_below { below (known_to (A.seen self.old.asker)) path ≡ false }
        requires path { IsCallPath path }
        ensures did { Asks (posts text.now) (path_in path) (moment_of A.seen A.words self.old) (moment_of A.seen A.words self.new) result }
        ensures more { cells (moment_of A.seen A.words self.old) ≤ cells (moment_of A.seen A.words self.new) }
        ensures thrown { IfErr result (λ x. exit_needs x ≡ 0) }
        ensures later { Later A.seen A.fits A.keeps A.tells_tasks A.tells_traces A.moment A.left_since self.old self.new }
        ensures sound { IsSound A.is_sound A.refuses A.seen self.new }
    {
        if text.len() > MOST_UNITS {
            return Err(Exit::Stopped(AskStop::Memory));
        }
        let token = token_at(self.alloc, &self.notes.session, &path)?;
        if token.len() > MOST_UNITS {
            return Err(Exit::Stopped(AskStop::Memory));
        }
        let Ok(copy) = text.copy(self.alloc) else {
            return Err(Exit::Stopped(AskStop::Memory));
        };
        match self.asker.post(&path, &token, text) {
            Ok(()) => Ok(token),
            Err(stop) => { Err(self.refuse(stop, Unmade::Asking(path, Question::Post(copy)))) }
        }
    }

    /// The reply to a task, asked at a path that has no record.
    fn reply_fresh(&mut self, path: Path, task: &Units) -> Result<Units, Exit>
        requires sound { IsSound A.is_sound A.refuses A.seen self.old }
        requires open { self.old.closed ≡ false }
        requires new { at (known_to (A.seen self.old.asker)) path ≡ None }
        requires none_below { below (known_to (A.seen self.old.asker)) path ≡ false }
        requires path { IsCallPath path }
        ensures did { Asks (replies task.now) (path_in path) (moment_of A.seen A.words self.old) (moment_of A.seen A.words self.new) result }
        ensures more { cells (moment_of A.seen A.words self.old) ≤ cells (moment_of A.seen A.words self.new) }
        ensures thrown { IfErr result (λ x. exit_needs x ≡ 0) }
        ensures later { Later A.seen A.fits A.keeps A.tells_tasks A.tells_traces A.moment A.left_since self.old self.new }
        ensures sound { IsSound A.is_sound A.refuses A.seen self.new }
    {
        if task.len() > MOST_UNITS {
            return Err(Exit::Stopped(AskStop::Memory));
        }
        let Ok(copy) = task.copy(self.alloc) else {
            return Err(Exit::Stopped(AskStop::Memory));
        };
        match self.asker.reply(&path, task) {
            Ok(Some(text)) => Ok(text),
            Ok(None) => Err(self.wait_for(copy)),
            Err(stop) => Err(self.refuse(stop, Unmade::Asking(path, Question::Reply(copy)))),
        }
    }

    /// Waits for the reply to a task.
    fn wait_for(&mut self, task: Units) -> Exit
        requires sound { IsSound A.is_sound A.refuses A.seen self.old }
        ensures told { AwaitsTask task result (moment_of A.seen A.words self.old) (moment_of A.seen A.words self.new) }
        ensures thrown { exit_needs result ≡ 0 }
        ensures more { cells (moment_of A.seen A.words self.old) ≤ cells (moment_of A.seen A.words self.new) }
        ensures still { IsStill self.old self.new }
        ensures sound { IsSound A.is_sound A.refuses A.seen self.new }
    {
        match note(&mut self.notes.waits, Wait::Task(task)) {
            Ok(()) => Exit::Halted(Halt::Waits),
            Err(_) => Exit::Stopped(AskStop::Memory),
        }
    }

    /// A draw at a path that has no record.
    fn draw_fresh(&mut self, path: Path, bound: Whole) -> Result<Whole, Exit>
        requires sound { IsSound A.is_sound A.refuses A.seen self.old }
        requires open { self.old.closed ≡ false }
        requires new { at (known_to (A.seen self.old.asker)) path ≡ None }
        requires none_below { below (known_to (A.seen self.old.asker)) path ≡ false }
        requires path { IsCallPath path }
        requires bound { pos 1 ≤ℤ bound }
        ensures did { Asks (draws bound) (path_in path) (moment_of A.seen A.words self.old) (moment_of A.seen A.words self.new) result }
        ensures more { cells (moment_of A.seen A.words self.old) ≤ cells (moment_of A.seen A.words self.new) }
        ensures thrown { IfErr result (λ x. exit_needs x ≡ 0) }
        ensures later { Later A.seen A.fits A.keeps A.tells_tasks A.tells_traces A.moment A.left_since self.old self.new }
        ensures sound { IsSound A.is_sound A.refuses A.seen self.new }
    {
        match self.asker.draw(&path, bound) {
            Ok(value) => Ok(value),
            Err(stop) => Err(self.refuse(stop, Unmade::Asking(path, Question::Draw(bound)))),
        }
    }

    /// Posts a task with this text, unless its record is there; the answer is the task's token.
    pub fn post(&mut self, text: &Units) -> Result<Units, Exit>
        requires sound { IsSound A.is_sound A.refuses A.seen self.old }
        ensures did { Takes (λ nu. ask (Post text.now)) (λ nu t. t) result (moment_of A.seen A.words self.old) (moment_of A.seen A.words self.new) }
        ensures more { cells (moment_of A.seen A.words self.old) ≤ cells (moment_of A.seen A.words self.new) }
        ensures thrown { IfErr result (λ x. exit_needs x ≡ 0) }
        ensures later { Later A.seen A.fits A.keeps A.tells_tasks A.tells_traces A.moment A.left_since self.old self.new }
        ensures sound { IsSound A.is_sound A.refuses A.seen self.new }
    {
        let path = self.take_index()?;
        match self.asker.known(&path) {
            Known::Here => match self.asker.kept() {
                Some(record) => post_kept(self.alloc, &self.notes.session, record, path, text),
                None => Err(Exit::Stopped(AskStop::Memory)),
            },
            Known::Below => Err(post_below(self.alloc, path, text)),
            Known::Nothing => self.post_fresh(path, text),
        }
    }

    /// The reply to a task.
    pub fn reply(&mut self, task: &Units) -> Result<Units, Exit>
        requires sound { IsSound A.is_sound A.refuses A.seen self.old }
        ensures did { Takes (λ nu. ask (Reply task.now)) (λ nu t. t) result (moment_of A.seen A.words self.old) (moment_of A.seen A.words self.new) }
        ensures more { cells (moment_of A.seen A.words self.old) ≤ cells (moment_of A.seen A.words self.new) }
        ensures thrown { IfErr result (λ x. exit_needs x ≡ 0) }
        ensures later { Later A.seen A.fits A.keeps A.tells_tasks A.tells_traces A.moment A.left_since self.old self.new }
        ensures sound { IsSound A.is_sound A.refuses A.seen self.new }
    {
        let path = self.take_index()?;
        match self.asker.known(&path) {
            Known::Here => match self.asker.kept() {
                Some(record) => reply_kept(self.alloc, &self.notes.session, record, path, task),
                None => Err(Exit::Stopped(AskStop::Memory)),
            },
            Known::Below => Err(reply_below(self.alloc, path, task)),
            Known::Nothing => self.reply_fresh(path, task),
        }
    }

    /// A number from 0 to below the bound.
    pub fn draw(&mut self, bound: Whole) -> Result<Whole, Exit>
        requires sound { IsSound A.is_sound A.refuses A.seen self.old }
        requires bound { pos 1 ≤ℤ bound }
        ensures did { Takes (λ nu. ask (Draw bound)) (λ nu n. n) result (moment_of A.seen A.words self.old) (moment_of A.seen A.words self.new) }
        ensures more { cells (moment_of A.seen A.words self.old) ≤ cells (moment_of A.seen A.words self.new) }
        ensures thrown { IfErr result (λ x. exit_needs x ≡ 0) }
        ensures later { Later A.seen A.fits A.keeps A.tells_tasks A.tells_traces A.moment A.left_since self.old self.new }
        ensures sound { IsSound A.is_sound A.refuses A.seen self.new }
    {
        let path = self.take_index()?;
        match self.asker.known(&path) {
            Known::Here => match self.asker.kept() {
                Some(record) => draw_kept(self.alloc, &self.notes.session, record, path, bound),
                None => Err(Exit::Stopped(AskStop::Memory)),
            },
            Known::Below => Err(diverged_below(path, Called::Random(bound))),
            Known::Nothing => self.draw_fresh(path, bound),
        }
    }
}

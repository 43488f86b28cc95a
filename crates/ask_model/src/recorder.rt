//! An asker as one over a journal and a board is: its records go to a list that may fail, its tasks to a board.
ghost use Rattle.std.specs.Prelude.{◌≡◌, ◌≤◌, ◌<◌, ◌≤ℤ◌, ◌++◌, ◌∷◌, [], ℕ, List, Some, None, length, IfOk, OnOk, OnErr, pos, int_rem, vec_len, vec_capacity};
ghost use Rattle.turk_base.specs.declared.Entry.{Entry};
ghost use Rattle.turk_base.specs.declared.Record.TheVariants.{Post, Reply, Once};
ghost use Rattle.ask_model.specs.declared.Refused.TheVariants.{Never};
ghost use Rattle.ask_model.specs.Asker.{entry, stop_of, NoBoard, IsHeld, Posts};
ghost use Rattle.outside.specs.Faults.{Rose};
ghost use Rattle.ask_model.specs.declared.Kept.TheVariants as found;
ghost use Rattle.ask_model.specs.declared.Called.TheVariants as called;
ghost use Rattle.ask_model.specs.Recorder.{HadRoom, ComesLate, Shelved, Prepared, recorded, fits_on, IsInOrder, LeftBy, Placed, ShelvedDraw};

use crate::adds::{entry_of, reply_of, word_below};
use crate::asked::Asked;
use crate::scans::{known_in, record_in};
use crate::{AskStop, Asker, Called, Divergence, Kept, Known, Refused, Which};
use outside::Draws;
use std::alloc::Global;
use std::marker::Model;
use turk_base::{Data, Entry, NoMemory, Path, Record, Replies, Units, Whole};

/// A list that lasts. It takes so many entries, and fails once so many more were added.
#[derive(Drop)]
pub struct Shelf {
    entries: Vec<Entry>,
    torn: Option<Entry>,
    most: usize,
    good_for: u32,
    faults: u64,
}

impl Model for Shelf {
    ghost use Rattle.ask_model.specs.Recorder as kept;
    ghost use Rattle.std.specs.Coded.{code_by, coded×, coded_list, coded_option, coded_ℕ};
    ghost use Rattle.std.specs.Prelude.{refl, ◌≤◌, vec_capacity};
    ghost use Rattle.turk_base.specs.contracts.Entry as entry;

    ghost Value = { kept.Shelf };

    ghost coded = { code_by _ (coded× (coded_list entry.the_row.coded) (coded× (coded_option entry.the_row.coded) (coded× coded_ℕ coded_ℕ))) (λ s. (s.entries, (s.torn, (s.most, s.faults)))) (λ p. record { entries = p.0; torn = p.1.0; most = p.1.1.0; faults = p.1.1.1 }) (λ _. refl) };

    ghost view = { λ s. record { entries = s.entries.items; torn = s.torn; most = s.most; faults = s.faults } };

    ghost invariant = { λ s. s.most ≤ vec_capacity s.entries };
}

impl Shelf {
    /// These entries, on a list that has room for so many and takes no more, and fails once so many more were added.
    pub fn new(mut entries: Vec<Entry>, most: usize, good_for: u32) -> Result<Shelf, NoMemory>
        ensures { IfOk result (λ s. s ≡ record { entries = entries.items; torn = None; most = most; faults = 0 }) }
    {
        if entries.reserve(most).is_err() {
            return Err(NoMemory);
        }
        Ok(Shelf {
            entries,
            torn: None,
            most,
            good_for,
            faults: 0,
        })
    }

    fn count(&self) -> usize
        ensures { result ≡ length self.now.entries }
    {
        self.entries.len()
    }

    pub fn entries(&self) -> &[Entry]
        ensures { result.now ≡ self.now.entries }
    {
        self.entries.as_slice()
    }

    /// How often it failed.
    pub fn faults(&self) -> u64
        ensures { result ≡ self.now.faults }
    {
        self.faults
    }

    // Whether there is room for one entry more.
    fn prepare(&self) -> Result<(), AskStop>
        ensures { Prepared self.now (stop_of result) }
    {
        if self.entries.len() >= 65_536 {
            return Err(AskStop::TraceFull);
        }
        if self.entries.len() >= self.most {
            return Err(AskStop::LogFull);
        }
        Ok(())
    }

    // Adds an entry where there is room. It takes no memory.
    fn keep(&mut self, what: Entry) -> Result<(), AskStop>
        requires { HadRoom self.old }
        ensures shelved { Shelved what self.old self.new (stop_of result) }
        ensures late { ComesLate (stop_of result) }
        ensures no_board { NoBoard (stop_of result) }
    {
        if self.good_for == 0 {
            self.torn = Some(what);
            self.faults = self.faults.saturating_add(1);
            return Err(AskStop::Fault(Which::Disk));
        }
        self.good_for -= 1;
        self.entries.push_reserved(what);
        Ok(())
    }

    fn add(&mut self, what: Entry) -> Result<(), AskStop>
        ensures shelved { Shelved what self.old self.new (stop_of result) }
        ensures no_board { NoBoard (stop_of result) }
    {
        match self.prepare() {
            Ok(()) => self.keep(what),
            Err(stop) => Err(stop),
        }
    }
}

/// An honest board. It fails at each post while it is down.
#[derive(Drop)]
pub struct Desk {
    pub tasks: Replies,
    pub is_down: bool,
    pub faults: u64,
}

fn held(alloc: Global, path: &Path, kept: &Units, text: &Units) -> Result<Divergence, NoMemory>
    ensures { IfOk result (λ d. d ≡ record { path = path.now; kept = found.Held kept.now; called = called.Post text.now }) }
{
    let path = path.copy(alloc)?;
    let kept = kept.copy(alloc)?;
    let text = text.copy(alloc)?;
    Ok(Divergence {
        path,
        kept: Kept::Held(kept),
        called: Called::Post(text),
    })
}

fn place_new(
    alloc: Global,
    tasks: &mut Replies,
    token: &Units,
    text: &Units,
) -> Result<(), NoMemory>
    ensures ok { OnOk result (tasks.new ≡ tasks.old ++ (token.now, text.now) ∷ []) }
    ensures err { OnErr result (tasks.new ≡ tasks.old) }
{
    let token = token.copy(alloc)?;
    let text = text.copy(alloc)?;
    tasks.add(token, text)
}

fn place(
    alloc: Global,
    desk: &mut Desk,
    path: &Path,
    token: &Units,
    text: &Units,
) -> Result<(), AskStop>
    ensures placed { Placed token.now text.now desk.old.tasks desk.new.tasks desk.old.faults desk.new.faults (stop_of result) }
    ensures held { IsHeld path.now text.now (stop_of result) }
{
    if desk.is_down {
        desk.faults = desk.faults.saturating_add(1);
        return Err(AskStop::Fault(Which::Board));
    }
    match desk.tasks.find(token) {
        Some(kept) => {
            if kept == text {
                return Ok(());
            }
            match held(alloc, path, kept, text) {
                Ok(divergence) => Err(AskStop::Diverged(divergence)),
                Err(_) => Err(AskStop::Memory),
            }
        }
        None => match place_new(alloc, &mut desk.tasks, token, text) {
            Ok(()) => Ok(()),
            Err(_) => Err(AskStop::Memory),
        },
    }
}

// Tests that there is room, places the task, and then adds the record.
fn post_and_keep(
    alloc: Global,
    shelf: &mut Shelf,
    desk: &mut Desk,
    path: &Path,
    token: &Units,
    text: &Units,
) -> Result<(), AskStop>
    ensures shelved { Shelved (entry path.now (Post text.now)) shelf.old shelf.new (stop_of result) }
    ensures held { IsHeld path.now text.now (stop_of result) }
    ensures tasks { Posts token.now text.now desk.old.tasks desk.new.tasks (stop_of result) }
    ensures later { desk.old.faults ≤ desk.new.faults }
    ensures cause { stop_of result ≡ Some (AskStop.Fault Which.Board) → Rose desk.old.faults desk.new.faults }
{
    let Ok(copy) = text.copy(alloc) else {
        return Err(AskStop::Memory);
    };
    let Ok(what) = entry_of(alloc, path, Record::Post(copy)) else {
        return Err(AskStop::Memory);
    };
    match shelf.prepare() {
        Ok(()) => match place(alloc, desk, path, token, text) {
            Ok(()) => shelf.keep(what),
            Err(stop) => Err(stop),
        },
        Err(stop) => Err(stop),
    }
}

fn keep(alloc: Global, shelf: &mut Shelf, path: &Path, what: Record) -> Result<(), AskStop>
    ensures shelved { Shelved (entry path.now what) shelf.old shelf.new (stop_of result) }
    ensures no_board { NoBoard (stop_of result) }
{
    match entry_of(alloc, path, what) {
        Ok(what) => shelf.add(what),
        Err(_) => Err(AskStop::Memory),
    }
}

fn keep_once(alloc: Global, shelf: &mut Shelf, path: &Path, value: &Data) -> Result<(), AskStop>
    ensures shelved { Shelved (entry path.now (Once value.now)) shelf.old shelf.new (stop_of result) }
    ensures no_board { NoBoard (stop_of result) }
{
    match value.copy(alloc) {
        Ok(value) => keep(alloc, shelf, path, Record::Once(value)),
        Err(_) => Err(AskStop::Memory),
    }
}

fn keep_reply(
    alloc: Global,
    shelf: &mut Shelf,
    path: &Path,
    token: &Units,
    text: &Units,
) -> Result<Units, AskStop>
    ensures text { IfOk result (λ answer. answer ≡ text.now) }
    ensures shelved { Shelved (entry path.now (Reply token.now text.now)) shelf.old shelf.new (stop_of result) }
    ensures no_board { NoBoard (stop_of result) }
{
    let Ok(answer) = text.copy(alloc) else {
        return Err(AskStop::Memory);
    };
    let Ok(what) = reply_of(alloc, token, text) else {
        return Err(AskStop::Memory);
    };
    match keep(alloc, shelf, path, what) {
        Ok(()) => Ok(answer),
        Err(stop) => Err(stop),
    }
}

// A draw takes its word first.
fn keep_draw<W: Draws>(
    alloc: Global,
    shelf: &mut Shelf,
    draws: &mut W,
    path: &Path,
    bound: Whole,
) -> Result<Whole, AskStop>
    requires bound { pos 1 ≤ℤ bound }
    ensures drew { ShelvedDraw W.rest path.now bound draws.old draws.new shelf.old shelf.new result }
    ensures no_board { NoBoard (stop_of result) }
{
    let value = word_below(draws, bound);
    match keep(alloc, shelf, path, Record::Draw(bound, value)) {
        Ok(()) => Ok(value),
        Err(stop) => Err(stop),
    }
}

/// An asker over a list, a board, words and replies.
#[derive(Drop)]
pub struct Recorder<'a, W: Draws> {
    alloc: Global,
    shelf: &'a mut Shelf,
    desk: &'a mut Desk,
    draws: &'a mut W,
    replies: &'a Replies,
    start: usize,
    asked: Asked,
    refused: Refused,
}

impl<'a, W: Draws> Recorder<'a, W> {
    ghost use Rattle.ask_model.specs.Asker.{IsTrace, AreReplies};

    pub fn new(
        alloc: Global,
        shelf: &'a mut Shelf,
        desk: &'a mut Desk,
        draws: &'a mut W,
        replies: &'a Replies,
    ) -> Result<Recorder<'a, W>, NoMemory>
        requires trace { IsTrace shelf.old.entries }
        requires replies { AreReplies replies.now }
        ensures seen { IfOk result (λ r. recorded r.shelf.now r.start r.desk.now.tasks r.desk.now.faults r.replies.now r.asked r.refused ≡ recorded shelf.old (length shelf.old.entries) desk.old.tasks desk.old.faults replies.now None Never) }
        ensures sound { IfOk result (λ r. IsInOrder r.shelf.now r.start (recorded r.shelf.now r.start r.desk.now.tasks r.desk.now.faults r.replies.now r.asked r.refused)) }
    {
        match Asked::new(alloc) {
            Ok(asked) => {
                let start = shelf.count();
                Ok(Recorder {
                    alloc,
                    shelf,
                    desk,
                    draws,
                    replies,
                    start,
                    asked,
                    refused: Refused::Never,
                })
            }
            Err(stop) => Err(stop),
        }
    }
}

impl<'a, W: Draws> Asker for Recorder<'a, W> {
    ghost use Rattle.std.specs.Prelude.{⊤};
    ghost use Rattle.ask_model.specs.Recorder.{Holds};
    ghost use Rattle.ask_model.specs.RecorderLaws.{known_left, now_is, counts_now, holds_refl, holds_trans};

    ghost seen = { λ r. recorded r.shelf.now r.start r.desk.now.tasks r.desk.now.faults r.replies.now r.asked r.refused };

    ghost fits = { λ r e. fits_on r.shelf.now e };

    ghost words = { λ r. W.rest r.draws.now };

    ghost is_sound = { λ r. IsInOrder r.shelf.now r.start (recorded r.shelf.now r.start r.desk.now.tasks r.desk.now.faults r.replies.now r.asked r.refused) };

    ghost refuses = { λ _. ⊤ };

    ghost tells_tasks = { ⊤ };

    ghost tells_traces = { ⊤ };

    ghost moment = { λ r. length r.shelf.now.entries };

    ghost left_since = { λ r n t. LeftBy r.shelf.now n t };

    ghost keeps = { λ old new. Holds W.rest old.shelf new.shelf old.desk new.desk old.draws new.draws old.shelf.now.entries new.shelf.now.entries old.refused new.refused };

    ghost within = { λ s h. h.within };

    ghost known_left = { λ s told sound going. known_left s.shelf.now s.start };

    ghost now_is = { λ s t told sound going left. now_is s.shelf.now s.start t going left };

    ghost counts_now = { λ s n t told le left. counts_now s.shelf.now n t le left };

    ghost keeps_refl = { λ s. holds_refl W.rest s.shelf s.desk s.draws s.shelf.now.entries s.refused };

    ghost keeps_trans = { λ a b c h k. holds_trans W.rest a.shelf b.shelf c.shelf a.desk b.desk c.desk a.draws b.draws c.draws a.shelf.now.entries b.shelf.now.entries c.shelf.now.entries a.refused b.refused c.refused h k };

    fn known(&mut self, path: &Path) -> Known {
        self.asked.set(path);
        let shelf = &*self.shelf;
        known_in(shelf.entries(), &[], path)
    }

    fn kept(&self) -> Option<&Record> {
        let shelf = &*self.shelf;
        match self.asked.path() {
            Some(path) => record_in(shelf.entries(), &[], path),
            None => None,
        }
    }

    fn post(&mut self, path: &Path, token: &Units, text: &Units) -> Result<(), AskStop> {
        let result = post_and_keep(self.alloc, self.shelf, self.desk, path, token, text);
        self.refused = self.refused.after(result.is_err());
        result
    }

    fn reply(&mut self, path: &Path, token: &Units) -> Result<Option<Units>, AskStop> {
        let Some(text) = self.replies.find(token) else {
            self.refused = self.refused.after(false);
            return Ok(None);
        };
        let result = keep_reply(self.alloc, self.shelf, path, token, text);
        self.refused = self.refused.after(result.is_err());
        match result {
            Ok(text) => Ok(Some(text)),
            Err(stop) => Err(stop),
        }
    }

    fn draw(&mut self, path: &Path, bound: Whole) -> Result<Whole, AskStop> {
        let result = keep_draw(self.alloc, self.shelf, self.draws, path, bound);
        self.refused = self.refused.after(result.is_err());
        result
    }

    fn once_done(&mut self, path: &Path, value: &Data) -> Result<(), AskStop> {
        let result = keep_once(self.alloc, self.shelf, path, value);
        self.refused = self.refused.after(result.is_err());
        result
    }
}

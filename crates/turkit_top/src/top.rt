//! The top call.

ghost use Rattle.std.specs.Prelude.{◌≡◌, ◌≤◌, map};
ghost use Rattle.turkit_top.specs.Answers.{IsPlainAnswer, IsCommandAnswer, IsAnswer, IsGiven};
ghost use Rattle.command_words.specs.Words.{IsWithin};
ghost use Rattle.turkit_top.specs.declared.answer.Answer.{Answer};

use crate::answer::{Answer, note_of, nothing};
use crate::report::of_run;
use crate::sources::{replies_of, script_bytes};
use crate::status::Status;
use board_model::Board;
use command_words::{Command, WordStop, read_words};
use disk_model::Disk;
use outside::{Draws, Sink, Source, write_all};
use std::alloc::Global;
use turk_base::Settings;

/// What the command of a plain run comes to.
fn of_plain<S: Source, W: Draws>(
    alloc: Global,
    asked: bool,
    settings: &Settings,
    script: &mut S,
    events: &mut S,
    draws: &mut W,
) -> Answer
    requires { settings.now.fuel ≤ 20000000 }
    ensures script_count { S.faults script.old ≤ S.faults script.new }
    ensures events_count { S.faults events.old ≤ S.faults events.new }
    ensures answer { IsPlainAnswer W.words asked settings.now
        (record { before = S.faults script.old; now = S.faults script.new; left = S.left script.old; rest = S.left script.new })
        (record { before = S.faults events.old; now = S.faults events.new; left = S.left events.old; rest = S.left events.new }) result }
{
    let bytes = match script_bytes(alloc, script) {
        Ok(bytes) => bytes,
        Err(answer) => return answer,
    };
    match replies_of(alloc, asked, events) {
        Ok(replies) => of_run(alloc, bytes.as_slice(), &replies, settings, draws),
        Err(answer) => answer,
    }
}

/// What a command comes to.
fn of_command<S: Source, W: Draws>(
    alloc: Global,
    command: Command,
    script: &mut S,
    events: &mut S,
    draws: &mut W,
) -> Answer
    requires { IsWithin command }
    ensures script_count { S.faults script.old ≤ S.faults script.new }
    ensures events_count { S.faults events.old ≤ S.faults events.new }
    ensures answer { IsCommandAnswer W.words command
        (record { before = S.faults script.old; now = S.faults script.new; left = S.left script.old; rest = S.left script.new })
        (record { before = S.faults events.old; now = S.faults events.new; left = S.left events.old; rest = S.left events.new }) result }
{
    match command {
        Command::Plain(asked, settings) => {
            of_plain(alloc, asked, &settings, script, events, draws)
        }
        Command::Run(_) => nothing(alloc, Status::NotBuilt),
        Command::Play(_) => nothing(alloc, Status::NotBuilt),
        Command::Show => nothing(alloc, Status::NotBuilt),
        Command::Make(_) => nothing(alloc, Status::NotBuilt),
    }
}

/// What words come to.
fn of_words<S: Source, W: Draws>(
    alloc: Global,
    words: &[&str],
    script: &mut S,
    events: &mut S,
    draws: &mut W,
) -> Answer
    ensures script_count { S.faults script.old ≤ S.faults script.new }
    ensures events_count { S.faults events.old ≤ S.faults events.new }
    ensures answer { IsAnswer W.words (map (λ w. w.now) words.now)
        (record { before = S.faults script.old; now = S.faults script.new; left = S.left script.old; rest = S.left script.new })
        (record { before = S.faults events.old; now = S.faults events.new; left = S.left events.old; rest = S.left events.new }) result }
{
    match read_words(alloc, words) {
        Ok(command) => of_command(alloc, command, script, events, draws),
        Err(WordStop::Usage) => nothing(alloc, Status::Usage),
        Err(WordStop::Memory) => nothing(alloc, Status::Memory),
    }
}

/// Writes the output, and then the note.
fn give<O: Sink>(answer: &Answer, out: &mut O, notes: &mut O) -> Status
    ensures given { IsGiven answer.now
        (record { before = O.faults out.old; now = O.faults out.new; old = O.written out.old; new = O.written out.new })
        (record { before = O.faults notes.old; now = O.faults notes.new; old = O.written notes.old; new = O.written notes.new }) result }
    ensures out_count { O.faults out.old ≤ O.faults out.new }
    ensures notes_count { O.faults notes.old ≤ O.faults notes.new }
{
    match write_all(out, answer.output.as_slice()) {
        Ok(()) => match write_all(notes, note_of(answer)) {
            Ok(()) => answer.status,
            Err(_) => Status::WriteFault,
        },
        Err(_) => Status::WriteFault,
    }
}

/// Runs a command: the words after the program's name, the script, the replies or the events, the disk of the journal, the board,
/// the draws, and where the output and the notes go. The status says how it ended.
///
/// Usage comes exactly where the words are no command, and NotBuilt where they are another than `plain`; then no source is called.
/// Of `plain` the script's bytes are read (ReadFault, TooLarge past 1,048,576 bytes), then the replies, where there is a word for
/// them (ReadFault, TooLarge past 67,108,864 bytes, BadLine), and then the script runs over nothing that was kept: Syntax where it
/// is none, Full where it makes more than 65,536 records, else Finished, Ended, Waiting or Spent as its run ends. The output is
/// written once, where the run ended, and nothing otherwise; then the notes. WriteFault stands in the place of any other status:
/// a front of the output was written, and then of the notes. Memory may come in the place of any, and says nothing. The disk and
/// the board stay as they are.
pub fn turkit<S: Source, D: Disk, B: Board, W: Draws, O: Sink>(
    alloc: Global,
    words: &[&str],
    script: &mut S,
    events: &mut S,
    disk: &mut D,
    board: &mut B,
    draws: &mut W,
    out: &mut O,
    notes: &mut O,
) -> Status
    ensures answer { (a : Answer) × IsAnswer W.words (map (λ w. w.now) words.now)
        (record { before = S.faults script.old; now = S.faults script.new; left = S.left script.old; rest = S.left script.new })
        (record { before = S.faults events.old; now = S.faults events.new; left = S.left events.old; rest = S.left events.new }) a
        × IsGiven a
        (record { before = O.faults out.old; now = O.faults out.new; old = O.written out.old; new = O.written out.new })
        (record { before = O.faults notes.old; now = O.faults notes.new; old = O.written notes.old; new = O.written notes.new }) result }
    ensures script_count { S.faults script.old ≤ S.faults script.new }
    ensures events_count { S.faults events.old ≤ S.faults events.new }
    ensures out_count { O.faults out.old ≤ O.faults out.new }
    ensures notes_count { O.faults notes.old ≤ O.faults notes.new }
    ensures disk { disk.new ≡ disk.old }
    ensures board { board.new ≡ board.old }
{
    let answer = of_words(alloc, words, script, events, draws);
    give(&answer, out, notes)
}

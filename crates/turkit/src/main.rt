//! The program: real words, files and streams for the top call.
#![tactic(auto)]

use disk_model::FileDisk;
use ledger_board::LedgerBoard;
use outside::{FileSource, PcgDraws, StdSink};
use std::env;
use std::io::ErrorKind;
use std::process::ExitCode;
use turkit_top::{Status, turkit};

fn main(rt: HostRuntime) -> ExitCode {
    ExitCode::from(run(&rt).code())
}

/// Runs the command of the program's words. A word that isn't UTF-8 is answered as no words are.
fn run(rt: &HostRuntime) -> Status {
    let mut given = Vec::new(rt.alloc());
    match env::args(rt) {
        Ok(args) => {
            for word in args {
                if given.push(word).is_err() {
                    return Status::Memory;
                }
            }
        }
        Err(error) => {
            if error.kind() == ErrorKind::OutOfMemory {
                return Status::Memory;
            }
        }
    }
    let mut words = Vec::new(rt.alloc());
    for word in given.iter().skip(1) {
        if words.push(word.as_str()).is_err() {
            return Status::Memory;
        }
    }
    over_files(rt, words.as_slice())
}

/// The word at a place, or none where it is missing.
fn word_at<'a>(words: &[&'a str], place: usize) -> &'a str {
    words.get(place).copied().unwrap_or("")
}

/// Runs the command over the files that its words may name. A file that the command doesn't use is never opened.
fn over_files(rt: &HostRuntime, words: &[&str]) -> Status {
    let Ok(mut script) = FileSource::new(rt, rt.alloc(), word_at(words, 1)) else {
        return Status::Memory;
    };
    let Ok(mut events) = FileSource::new(rt, rt.alloc(), word_at(words, 2)) else {
        return Status::Memory;
    };
    let Ok(mut disk) = FileDisk::new(rt, rt.alloc(), word_at(words, 3)) else {
        return Status::Memory;
    };
    let Ok(tasks) = FileDisk::new(rt, rt.alloc(), word_at(words, 4)) else {
        return Status::Memory;
    };
    let mut board = LedgerBoard::new(rt.alloc(), tasks);
    let mut draws = PcgDraws::new();
    let mut out = StdSink::out(rt.stdout());
    let mut notes = StdSink::notes(rt.stderr());
    turkit(
        rt.alloc(),
        words,
        &mut script,
        &mut events,
        &mut disk,
        &mut board,
        &mut draws,
        &mut out,
        &mut notes,
    )
}

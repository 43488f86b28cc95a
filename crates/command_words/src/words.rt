//! Which words are which command.
ghost use Rattle.std.specs.Prelude.{◌≡◌, map, option_map, IfOk};
ghost use Rattle.std.specs.List.{list_all};
ghost use Rattle.command_words.specs.Options.{Answers};
ghost use Rattle.command_words.specs.Words.{is_file, after_files, plain_of, run_of, play_of, show_of, make_of, command_of, IsWithin};

use crate::numbers::number_in;
use crate::options::options_in;
use crate::{Command, WordStop};
use std::alloc::Global;

/// A word in a file's place.
fn is_file(word: &str) -> bool
    ensures { result ≡ is_file word.now }
{
    match word.as_bytes() {
        [] => false,
        [first, ..] => *first != b'-',
    }
}

fn are_files(words: &[&str]) -> bool
    ensures { result ≡ list_all (λ w. is_file w.now) words.now }
{
    words.iter().all(|word| is_file(word))
}

/// The words behind so many files.
fn after_files<'a, 'b>(count: usize, words: &'a [&'b str]) -> Option<&'a [&'b str]>
    ensures { option_map (λ r. map (λ w. w.now) r.now) result ≡ after_files count (map (λ w. w.now) words.now) }
{
    if words.len() < count {
        return None;
    }
    let (files, behind) = words.split_at(count);
    if are_files(files) { Some(behind) } else { None }
}

fn plain_of(alloc: Global, words: &[&str]) -> Result<Command, WordStop>
    ensures command { Answers (plain_of (map (λ w. w.now) words.now)) result }
    ensures within { IfOk result IsWithin }
{
    let Some(behind) = after_files(1, words) else {
        return Err(WordStop::Usage);
    };
    match after_files(1, behind) {
        Some(options) => Ok(Command::Plain(true, options_in(alloc, options)?)),
        None => Ok(Command::Plain(false, options_in(alloc, behind)?)),
    }
}

fn run_of(alloc: Global, words: &[&str]) -> Result<Command, WordStop>
    ensures command { Answers (run_of (map (λ w. w.now) words.now)) result }
    ensures within { IfOk result IsWithin }
{
    match after_files(4, words) {
        Some(options) => Ok(Command::Run(options_in(alloc, options)?)),
        None => Err(WordStop::Usage),
    }
}

fn play_of(alloc: Global, words: &[&str]) -> Result<Command, WordStop>
    ensures command { Answers (play_of (map (λ w. w.now) words.now)) result }
    ensures within { IfOk result IsWithin }
{
    match after_files(2, words) {
        Some(options) => Ok(Command::Play(options_in(alloc, options)?)),
        None => Err(WordStop::Usage),
    }
}

fn show_of(words: &[&str]) -> Result<Command, WordStop>
    ensures command { Answers (show_of (map (λ w. w.now) words.now)) result }
    ensures within { IfOk result IsWithin }
{
    match after_files(3, words) {
        Some([]) => Ok(Command::Show),
        _ => Err(WordStop::Usage),
    }
}

fn make_of(words: &[&str]) -> Result<Command, WordStop>
    ensures command { Answers (make_of (map (λ w. w.now) words.now)) result }
    ensures within { IfOk result IsWithin }
{
    if words.len() != 1 {
        return Err(WordStop::Usage);
    }
    match number_in(1, 100, words[0]) {
        Some(number) => Ok(Command::Make(number)),
        None => Err(WordStop::Usage),
    }
}

/// The command that the words are, behind the program's name. A word in a file's place isn't empty and doesn't begin with `-`.
/// The options of `plain`, `run` and `play` stand behind the files in any order, each at most once: `--fuel N` from 1 to
/// 20,000,000, `--name X` with a session name, `--dice N` below 2^64, each also as `--fuel=N`. A number is decimal digits
/// without sign and without a 0 before others. What isn't said is fuel 5,000,000, name `s`, dice 1.
///
/// Usage comes exactly where the words are no command.
pub fn read_words(alloc: Global, words: &[&str]) -> Result<Command, WordStop>
    ensures command { Answers (command_of (map (λ w. w.now) words.now)) result }
    ensures within { IfOk result IsWithin }
{
    let [word, rest @ ..] = words else {
        return Err(WordStop::Usage);
    };
    match *word {
        "plain" => plain_of(alloc, rest),
        "run" => run_of(alloc, rest),
        "play" => play_of(alloc, rest),
        "show" => show_of(rest),
        "make" => make_of(rest),
        _ => Err(WordStop::Usage),
    }
}

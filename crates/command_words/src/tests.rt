//! What no clause says: with ample memory each list of words comes to its answer, worked by hand.
use super::*;

/// The settings that words are to give.
#[derive(Clone, Copy, Drop)]
struct Told {
    name: &'static str,
    fuel: u64,
    dice: u64,
}

/// What words are to give.
#[derive(Clone, Copy, Drop)]
enum Wanted {
    Usage,
    Plain(bool, Told),
    Run(Told),
    Play(Told),
    Show,
    Make(u64),
}

#[derive(Drop)]
struct Row {
    words: &'static [&'static str],
    wanted: Wanted,
}

const PLAIN: Told = Told {
    name: "s",
    fuel: 5_000_000,
    dice: 1,
};

fn has(settings: &Settings, told: Told) -> bool {
    settings.name.as_slice() == told.name.as_bytes()
        && settings.fuel == told.fuel
        && settings.dice == told.dice
}

fn comes_to(answer: &Result<Command, WordStop>, wanted: Wanted) -> bool {
    match (answer, wanted) {
        (Err(WordStop::Usage), Wanted::Usage) => true,
        (Ok(Command::Plain(replies, settings)), Wanted::Plain(wants, told)) => {
            *replies == wants && has(settings, told)
        }
        (Ok(Command::Run(settings)), Wanted::Run(told)) => has(settings, told),
        (Ok(Command::Play(settings)), Wanted::Play(told)) => has(settings, told),
        (Ok(Command::Show), Wanted::Show) => true,
        (Ok(Command::Make(number)), Wanted::Make(wants)) => *number == wants,
        _ => false,
    }
}

const fn row_of(words: &'static [&'static str], wanted: Wanted) -> Row {
    Row { words, wanted }
}

const LONGEST: &str = "abcdefghijklmnopqrstuvwxyz-_0123";

#[test]
fn words_come_to_their_commands(rt: HostRuntime) {
    let table = [
        row_of(&["plain", "a"], Wanted::Plain(false, PLAIN)),
        row_of(&["plain", "a", "b"], Wanted::Plain(true, PLAIN)),
        row_of(
            &["plain", "a", "--fuel", "9"],
            Wanted::Plain(false, Told { fuel: 9, ..PLAIN }),
        ),
        row_of(
            &[
                "plain",
                "a",
                "b",
                "--dice",
                "0",
                "--name=x_1-Y",
                "--fuel=20000000",
            ],
            Wanted::Plain(
                true,
                Told {
                    name: "x_1-Y",
                    fuel: 20_000_000,
                    dice: 0,
                },
            ),
        ),
        row_of(
            &["plain", "a", "--dice=18446744073709551615"],
            Wanted::Plain(
                false,
                Told {
                    dice: u64::MAX,
                    ..PLAIN
                },
            ),
        ),
        row_of(
            &["plain", "a", "--name", "--fuel"],
            Wanted::Plain(
                false,
                Told {
                    name: "--fuel",
                    ..PLAIN
                },
            ),
        ),
        row_of(
            &["run", "a", "b", "c", "d", "--name", LONGEST],
            Wanted::Run(Told {
                name: LONGEST,
                ..PLAIN
            }),
        ),
        row_of(&["play", "a", "b"], Wanted::Play(PLAIN)),
        row_of(&["show", "a", "b", "c"], Wanted::Show),
        row_of(&["make", "1"], Wanted::Make(1)),
        row_of(&["make", "100"], Wanted::Make(100)),
    ];
    for row in &table {
        let answer = read_words(rt.alloc(), row.words);
        assert!(rt; comes_to(&answer, row.wanted));
    }
}

#[test]
fn other_words_are_no_command(rt: HostRuntime) {
    let table: [&[&str]; 34] = [
        &[],
        &[""],
        &["Plain", "a"],
        &["plain"],
        &["plain", ""],
        &["plain", "-a"],
        &["plain", "a", ""],
        &["plain", "a", "b", "c"],
        &["plain", "--fuel", "9", "a"],
        &["plain", "a", "--fuel"],
        &["plain", "a", "--fuel", "0"],
        &["plain", "a", "--fuel", "09"],
        &["plain", "a", "--fuel", "20000001"],
        &["plain", "a", "--fuel", "+9"],
        &["plain", "a", "--fuel=9", "--fuel", "9"],
        &["plain", "a", "--fuel==9"],
        &["plain", "a", "--fuels", "9"],
        &["plain", "a", "--fuel", "9", "b"],
        &["plain", "a", "--dice", "00"],
        &["plain", "a", "--dice", "-1"],
        &["plain", "a", "--dice="],
        &["plain", "a", "--dice", "18446744073709551616"],
        &["plain", "a", "--name="],
        &["plain", "a", "--name", "abcdefghijklmnopqrstuvwxyz-_01234"],
        &["run", "a", "b"],
        &["run", "a", "b", "c", "d", "--name", "a/b"],
        &["play", "a"],
        &["show", "a", "b"],
        &["show", "a", "b", "c", "--fuel", "9"],
        &["make"],
        &["make", "0"],
        &["make", "01"],
        &["make", "101"],
        &["make", "1", "2"],
    ];
    for words in &table {
        let answer = read_words(rt.alloc(), *words);
        assert!(rt; comes_to(&answer, Wanted::Usage));
    }
}

//! The options of a command.
ghost use Rattle.std.specs.Prelude.{◌≡◌, None, Some, map, codes, unwrap_or, IfOk};
ghost use Rattle.command_words.specs.Options.{key_of, chosen, begun, taken, options_from, options_in, nothing_chosen, Answers, IsFuel};

use crate::WordStop;
use crate::numbers::number_in;
use std::alloc::Global;
use turk_base::{Name, NameStop, Settings};

/// The fuel of a run that is told none.
const FUEL: u64 = 5_000_000;

/// The number that begins the draws of a run that is told none.
const DICE: u64 = 1;

/// What an option sets.
#[derive(Clone, Copy, Drop)]
pub enum Key {
    Fuel,
    Name,
    Dice,
}

/// What options have set so far.
#[derive(Drop)]
pub struct Choices {
    pub fuel: Option<u64>,
    pub name: Option<Name>,
    pub dice: Option<u64>,
}

/// The key that a word names.
fn key_of(word: &str) -> Option<Key>
    ensures { result ≡ key_of word.now }
{
    if word == "--fuel" {
        return Some(Key::Fuel);
    }
    if word == "--name" {
        return Some(Key::Name);
    }
    if word == "--dice" {
        return Some(Key::Dice);
    }
    None
}

/// Sets the fuel, where it wasn't set.
fn set_fuel(choices: Choices, value: &str) -> Result<Choices, WordStop>
    ensures { Answers (chosen Key.Fuel value.now choices) result }
{
    if choices.fuel.is_some() {
        return Err(WordStop::Usage);
    }
    match number_in(1, 20_000_000, value) {
        Some(number) => Ok(Choices {
            fuel: Some(number),
            name: choices.name,
            dice: choices.dice,
        }),
        None => Err(WordStop::Usage),
    }
}

/// Sets the session's name, where it wasn't set.
fn set_name(alloc: Global, choices: Choices, value: &str) -> Result<Choices, WordStop>
    ensures { Answers (chosen Key.Name value.now choices) result }
{
    if choices.name.is_some() {
        return Err(WordStop::Usage);
    }
    match Name::read(alloc, value) {
        Ok(name) => Ok(Choices {
            fuel: choices.fuel,
            name: Some(name),
            dice: choices.dice,
        }),
        Err(NameStop::Bad) => Err(WordStop::Usage),
        Err(NameStop::Memory) => Err(WordStop::Memory),
    }
}

/// Sets the number that begins the draws, where it wasn't set.
fn set_dice(choices: Choices, value: &str) -> Result<Choices, WordStop>
    ensures { Answers (chosen Key.Dice value.now choices) result }
{
    if choices.dice.is_some() {
        return Err(WordStop::Usage);
    }
    match number_in(0, u64::MAX, value) {
        Some(number) => Ok(Choices {
            fuel: choices.fuel,
            name: choices.name,
            dice: Some(number),
        }),
        None => Err(WordStop::Usage),
    }
}

/// Sets what the key names, where it wasn't set.
fn choose(alloc: Global, key: Key, value: &str, choices: Choices) -> Result<Choices, WordStop>
    ensures { Answers (chosen key value.now choices) result }
{
    match key {
        Key::Fuel => set_fuel(choices, value),
        Key::Name => set_name(alloc, choices, value),
        Key::Dice => set_dice(choices, value),
    }
}

/// What a word is that stands where a key does.
fn begin(alloc: Global, word: &str, choices: Choices) -> Result<(Option<Key>, Choices), WordStop>
    ensures { Answers (begun word.now choices) result }
{
    if let Some(key) = key_of(word) {
        return Ok((Some(key), choices));
    }
    let Some((before, value)) = word.split_once('=') else {
        return Err(WordStop::Usage);
    };
    let Some(key) = key_of(before) else {
        return Err(WordStop::Usage);
    };
    match choose(alloc, key, value, choices) {
        Ok(choices) => Ok((None, choices)),
        Err(stop) => Err(stop),
    }
}

/// Takes a word: the value of the key that waits for one, or a key.
fn take_word(
    alloc: Global,
    pending: Option<Key>,
    word: &str,
    choices: Choices,
) -> Result<(Option<Key>, Choices), WordStop>
    ensures { Answers (taken pending word.now choices) result }
{
    let Some(key) = pending else {
        return begin(alloc, word, choices);
    };
    match choose(alloc, key, word, choices) {
        Ok(choices) => Ok((None, choices)),
        Err(stop) => Err(stop),
    }
}

/// What words choose.
fn choices_in(alloc: Global, words: &[&str]) -> Result<Choices, WordStop>
    ensures { Answers (options_from (map (λ w. w.now) words.now) None nothing_chosen) result }
{
    let mut pending = None;
    let mut choices = Choices {
        fuel: None,
        name: None,
        dice: None,
    };
    for word in words {
        match take_word(alloc, pending, word, choices) {
            Ok((key, chosen)) => {
                pending = key;
                choices = chosen;
            }
            Err(stop) => return Err(stop),
        }
    }
    match pending {
        None => Ok(choices),
        Some(_) => Err(WordStop::Usage),
    }
}

/// The session's name: `s` where none is chosen.
fn name_or_s(alloc: Global, name: Option<Name>) -> Result<Name, WordStop>
    ensures { Answers (Some (unwrap_or name (codes "s"))) result }
{
    match name {
        Some(name) => Ok(name),
        None => match Name::read(alloc, "s") {
            Ok(name) => Ok(name),
            Err(_) => Err(WordStop::Memory),
        },
    }
}

/// The settings that words choose.
pub fn options_in(alloc: Global, words: &[&str]) -> Result<Settings, WordStop>
    ensures options { Answers (options_in (map (λ w. w.now) words.now)) result }
    ensures within { IfOk result (λ s. IsFuel s.fuel) }
{
    let Choices { fuel, name, dice } = choices_in(alloc, words)?;
    let name = name_or_s(alloc, name)?;
    Ok(Settings {
        name,
        fuel: fuel.unwrap_or(FUEL),
        dice: dice.unwrap_or(DICE),
    })
}

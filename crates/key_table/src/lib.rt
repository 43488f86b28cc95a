//! Texts by numbers: each text is kept once, as a key, and has a number.
#![tactic(auto)]

ghost use Rattle.std.specs.Prelude.{◌≡◌, ◌+◌, [], IfOk, OnErr, IfSome, IfNone};
ghost use Rattle.key_table.specs.Keys.{Numbers, HasNumber, HasNone, NamesNone, AreDistinct, Grows};

use object_props::Props;
use std::alloc::Global;
use std::marker::Model;
use turk_base::{NoMemory, Units};

#[cfg(test)]
mod tests;

/// Keys, each with its number: they are counted from 1 in the order in which they came.
///
/// Contracts see the keys in that order. No key stands twice.
#[derive(Drop)]
pub struct KeyTable {
    entries: Props<Units, u32>,
}

impl Model for KeyTable {
    ghost use Rattle.std.specs.Prelude.{List, ℕ};
    ghost use Rattle.std.specs.Map.{keys_of};

    ghost Value = { List (List ℕ) };

    ghost use Rattle.key_table.specs.Stored.{IsTable};

    ghost view = { λ t. keys_of t.entries };

    ghost invariant = { IsTable };
}

impl KeyTable {
    /// No keys.
    pub fn new(alloc: Global) -> KeyTable
        ensures { result ≡ [] }
    {
        KeyTable {
            entries: Props::new(alloc),
        }
    }

    /// Does nothing, and tells that no key stands twice.
    pub fn known(&self)
        ensures { AreDistinct self.now }
    {
        let _entries = &self.entries;
    }

    /// The number of a key, or None exactly where it has none.
    pub fn find(&self, key: &Units) -> Option<u32>
        ensures { Numbers self.now key.now result }
    {
        match self.entries.get(key) {
            Some(number) => Some(*number),
            None => None,
        }
    }

    /// The key of a number, or None exactly for 0 and past the last.
    pub fn key(&self, number: u32) -> Option<&Units>
        ensures key { IfSome result (λ k. HasNumber self.now k.now number) }
        ensures none { IfNone result (NamesNone self.now number) }
    {
        if number == 0 {
            return None;
        }
        self.entries.key_at(number as usize - 1)
    }

    /// The number of a key, which gets the next one where it has none. After a refusal nothing changed.
    pub fn number(&mut self, alloc: Global, key: &Units) -> Result<u32, NoMemory>
        ensures ok { IfOk result (λ number. HasNumber self.new key.now number) }
        ensures err { OnErr result (self.new ≡ self.old) }
        ensures grows { Grows self.old self.new }
    {
        match self.find(key) {
            Some(number) => Ok(number),
            None => self.add(alloc, key),
        }
    }

    // a key that has no number gets the next one
    fn add(&mut self, alloc: Global, key: &Units) -> Result<u32, NoMemory>
        requires { HasNone self.old key.now }
        ensures ok { IfOk result (λ number. HasNumber self.new key.now number) }
        ensures err { OnErr result (self.new ≡ self.old) }
        ensures grows { Grows self.old self.new }
    {
        let place = self.entries.len();
        let Some(number) = next(place) else {
            return Err(NoMemory);
        };
        let key = key.copy(alloc)?;
        match self.entries.insert_at(place, key, number) {
            Ok(()) => Ok(number),
            Err(_) => Err(NoMemory),
        }
    }
}

// the number of the key at a place, where it is one
fn next(place: usize) -> Option<u32>
    ensures { IfSome result (λ number. number ≡ place + 1) }
{
    if place < 4294967295 {
        Some(place as u32 + 1)
    } else {
        None
    }
}

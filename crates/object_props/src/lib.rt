//! Properties in the order in which they were added: pairs of a key and a value with distinct keys.
#![tactic(auto)]

ghost use Rattle.std.specs.Prelude.{◌≡◌, [], ◌≤◌, length, OnErr, OnOk, IfErr, None, position, slice_get, insert};
ghost use Rattle.std.specs.Option.{option_map, option_copied};
ghost use Rattle.std.specs.List.{IsDistinct};
ghost use Rattle.std.specs.Map.Iter.{deref_pair};
ghost use Rattle.std.specs.Map.{keys_of, lookup, lookup_key, remove_entry, set_value};

mod few;
mod many;

use indexmap::IndexMap;
use std::alloc::{AllocError, Global};
use std::hash::Hash;
use std::marker::Model;
use std::mem;

/// Up to so many pairs are a list; with one more they go into a map.
const FEW: usize = 32;

/// Where pairs are kept. Most objects have few, and a list of those takes less memory than a map.
#[derive(Drop)]
enum Store<K: Eq + Hash, V> {
    /// A list that grows by no more room than it needs, whose keys are distinct.
    Few(Vec<(K, V)>),
    /// A map, which stays one when pairs are taken out.
    Many(Box<IndexMap<K, V>>),
}

/// Pairs of a key and a value in order, no two keys of which are equal.
///
/// Contracts see it as the list of its pairs. Keys are compared by their `==`.
#[derive(Drop)]
pub struct Props<K: Eq + Hash, V> {
    store: Store<K, V>,
}

impl<K: Eq + Hash, V> Model for Props<K, V> {
    ghost use Rattle.std.specs.Prelude.{List};
    ghost use Rattle.std.specs.List.{IsDistinct};
    ghost use Rattle.std.specs.Map.{keys_of};

    ghost Value = { List (K × V) };

    ghost use Rattle.object_props.specs.Pairs.{pairs_of};

    ghost view = { λ p. pairs_of p.store };

    ghost invariant = { λ p. IsDistinct K.eq (keys_of (pairs_of p.store)) };
}

impl<K: Eq + Hash + Drop, V: Drop> Props<K, V> {
    /// No pairs. What is added later is kept in memory of `alloc`.
    pub fn new(alloc: Global) -> Props<K, V>
        ensures { result ≡ [] }
    {
        Props {
            store: Store::Few(Vec::new(alloc)),
        }
    }

    /// How many pairs there are. The call also tells that their keys are distinct.
    pub fn len(&self) -> usize
        ensures len { result ≡ length self.now }
        ensures distinct { IsDistinct K.eq (keys_of self.now) }
    {
        match &self.store {
            Store::Few(pairs) => pairs.len(),
            Store::Many(map) => map.len(),
        }
    }

    /// The value at a key, or None exactly where the key is missing.
    pub fn get(&self, key: &K) -> Option<&V>
        ensures { option_copied result ≡ lookup (K.eq key.now) self.now }
    {
        match &self.store {
            Store::Few(pairs) => few::get(pairs, key),
            Store::Many(map) => map.get(key),
        }
    }

    /// The key at a place, from 0, or None exactly at the length and past it.
    pub fn key_at(&self, place: usize) -> Option<&K>
        ensures { option_copied result ≡ slice_get (keys_of self.now) place }
    {
        match self.pair_at(place) {
            Some((key, _)) => Some(key),
            None => None,
        }
    }

    /// The pair at a place, from 0, or None exactly at the length and past it. The call also tells
    /// that the keys are distinct.
    pub fn pair_at(&self, place: usize) -> Option<(&K, &V)>
        ensures pair { option_map deref_pair result ≡ slice_get self.now place }
        ensures distinct { IsDistinct K.eq (keys_of self.now) }
    {
        match &self.store {
            Store::Few(pairs) => few::pair_at(pairs, place),
            Store::Many(map) => map.get_index(place),
        }
    }

    /// Sets the value at a key that is there, which keeps its place, and gives the old value.
    /// Answers None exactly where the key is missing; then nothing changes and `value` is dropped.
    pub fn set(&mut self, key: &K, value: V) -> Option<V>
        ensures old { result ≡ lookup (K.eq key.now) self.old }
        ensures new { self.new ≡ set_value (K.eq key.now) self.old value }
    {
        match &mut self.store {
            Store::Few(pairs) => few::set(pairs, key, value),
            Store::Many(map) => many::set(map, key, value),
        }
    }

    /// Takes a key out and closes up: each later pair moves one place down. Gives the place at
    /// which it stood, the kept key and its value, or None exactly where the key is missing; then
    /// nothing changes.
    pub fn delete(&mut self, key: &K) -> Option<(usize, K, V)>
        ensures place { option_map (λ p. p.0) result ≡ position (K.eq key.now) (keys_of self.old) }
        ensures key { option_map (λ p. p.1) result ≡ lookup_key (K.eq key.now) self.old }
        ensures value { option_map (λ p. p.2) result ≡ lookup (K.eq key.now) self.old }
        ensures new { self.new ≡ remove_entry (K.eq key.now) self.old }
    {
        match &mut self.store {
            Store::Few(pairs) => few::delete(pairs, key),
            Store::Many(map) => map.shift_remove_full(key),
        }
    }

    /// Puts a key that is missing at a place, with its value; each pair from that place on moves one
    /// place up. For want of memory it hands the pair back, and nothing changes.
    pub fn insert_at(&mut self, place: usize, key: K, value: V) -> Result<(), (K, V)>
        requires fresh { lookup (K.eq key) self.old ≡ None }
        requires within { place ≤ length self.old }
        ensures ok { OnOk result (self.new ≡ insert self.old place (key, value)) }
        ensures err { OnErr result (self.new ≡ self.old) }
        ensures back { IfErr result (λ pair. pair ≡ (key, value)) }
    {
        if self.outgrow_list().is_err() {
            return Err((key, value));
        }
        match &mut self.store {
            Store::Few(pairs) => few::insert_at(pairs, place, key, value),
            Store::Many(map) => many::insert_at(map, place, key, value),
        }
    }

    /// Moves the pairs into a map where they are as many as a list may hold. For want of memory
    /// they stay in the list.
    fn outgrow_list(&mut self) -> Result<(), AllocError>
        ensures { self.new ≡ self.old }
    {
        if let Store::Few(pairs) = &mut self.store {
            if pairs.len() >= FEW {
                let map = many::gather(pairs)?;
                self.store = Store::Many(map);
            }
        }
        Ok(())
    }
}

#[cfg(test)]
mod tests {
    use super::*;

    /// Adds a pair where the key is missing and the place is within.
    fn add(props: &mut Props<u32, u32>, place: usize, key: u32, value: u32) -> bool {
        props.get(&key).is_none()
            && place <= props.len()
            && props.insert_at(place, key, value).is_ok()
    }

    /// The value that the table's keys have.
    fn value_of(key: u32) -> u32 {
        u32::MAX - key
    }

    /// Puts a key at a place, or takes it out where there is none, and tells whether it could.
    fn step(props: &mut Props<u32, u32>, place: Option<usize>, key: u32) -> bool {
        match place {
            Some(place) => add(props, place, key, value_of(key)),
            None => props.delete(&key).is_some(),
        }
    }

    /// Whether the pairs are those of the keys, in their order.
    fn has(props: &Props<u32, u32>, keys: &[u32]) -> bool {
        props.len() == keys.len()
            && keys.iter().enumerate().all(|(place, key)| {
                props.pair_at(place) == Some((key, &value_of(*key)))
                    && props.get(key) == Some(&value_of(*key))
            })
    }

    /// Steps, each a place and a key to put there or None and a key to take out, and the keys in
    /// order after them. Thirty keys become a full list, then a map, and then a map of few.
    const TABLE: [(&[(Option<usize>, u32)], &[u32]); 3] = [
        (
            &[(Some(0), 40), (None, 3), (Some(7), 41), (Some(31), 42)],
            &[
                40, 0, 1, 2, 4, 5, 6, 41, 7, 8, 9, 10, 11, 12, 13, 14, 15, 16, 17, 18, 19, 20, 21,
                22, 23, 24, 25, 26, 27, 28, 29, 42,
            ],
        ),
        (
            &[(Some(16), 43)],
            &[
                40, 0, 1, 2, 4, 5, 6, 41, 7, 8, 9, 10, 11, 12, 13, 14, 43, 15, 16, 17, 18, 19, 20,
                21, 22, 23, 24, 25, 26, 27, 28, 29, 42,
            ],
        ),
        (
            &[(None, 43), (None, 0), (None, 29), (Some(2), 44)],
            &[
                40, 1, 44, 2, 4, 5, 6, 41, 7, 8, 9, 10, 11, 12, 13, 14, 15, 16, 17, 18, 19, 20, 21,
                22, 23, 24, 25, 26, 27, 28, 42,
            ],
        ),
    ];

    #[test]
    fn keeps_the_order(rt: HostRuntime) {
        let mut props: Props<u32, u32> = Props::new(rt.alloc());
        for (place, key) in [(0, 7), (1, 8), (0, 9), (1, 6)] {
            assert!(rt; add(&mut props, place, key, key * 10), "{key}");
        }
        assert!(rt; !add(&mut props, 0, 7, 1));
        assert!(rt; props.set(&8, 81) == Some(80));
        assert!(rt; props.set(&5, 50).is_none());
        assert!(rt; props.delete(&6) == Some((1, 6, 60)));
        assert!(rt; props.delete(&6).is_none());
        assert_eq!(rt; props.len(), 3);
        for (place, want) in [(0, Some(9)), (1, Some(7)), (2, Some(8)), (3, None)] {
            assert!(rt; props.key_at(place).copied() == want, "{place}");
        }
        assert!(rt; props.get(&8) == Some(&81));
        assert!(rt; props.pair_at(1) == Some((&7, &70)));

        let mut props: Props<u32, u32> = Props::new(rt.alloc());
        for key in 0..30 {
            let last = props.len();
            assert!(rt; step(&mut props, Some(last), key), "{key}");
        }
        for (steps, keys) in TABLE {
            for (place, key) in steps {
                assert!(rt; step(&mut props, *place, *key), "{key}");
            }
            assert!(rt; has(&props, keys));
        }
    }
}

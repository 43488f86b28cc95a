//! Many pairs of a key and a value, in a map that keeps their order.
ghost use Rattle.std.specs.Prelude.{◌≡◌, [], ◌++◌, ◌≤◌, length, None, OnErr, OnOk, IfErr, IfOk, insert};
ghost use Rattle.std.specs.List.{IsDistinct};
ghost use Rattle.std.specs.Map.{keys_of, lookup, set_value};
ghost use Rattle.indexmap.specs.IndexMap.{spare};

use indexmap::IndexMap;
use std::alloc::{AllocError, Global};
use std::hash::Hash;
use std::mem;

/// Takes the pairs of a list, whose keys are distinct, into a map with room for one more. For want
/// of memory they stay in the list.
pub fn gather<K: Eq + Hash + Drop, V: Drop>(
    pairs: &mut Vec<(K, V)>,
) -> Result<Box<IndexMap<K, V>>, AllocError>
    requires { IsDistinct K.eq (keys_of pairs.old.items) }
    ensures ok { IfOk result (λ map. map.value.entries ≡ pairs.old.items) }
    ensures err { OnErr result (pairs.new.items ≡ pairs.old.items) }
{
    let alloc = *pairs.allocator();
    let mut map = with_room(alloc, pairs.len() + 1)?;
    move_into(&mut map, mem::replace(pairs, Vec::new(alloc)));
    Ok(map)
}

/// A map with no pairs and room for some.
fn with_room<K: Eq + Hash + Drop, V: Drop>(
    alloc: Global,
    room: usize,
) -> Result<Box<IndexMap<K, V>>, AllocError>
    ensures empty { IfOk result (λ map. map.value.entries ≡ []) }
    ensures room { IfOk result (λ map. room ≤ spare map.value) }
{
    let map = IndexMap::with_capacity(alloc, room)?;
    match Box::new(alloc, map) {
        Ok(map) => Ok(map),
        Err(_) => Err(AllocError),
    }
}

/// Adds pairs at the end of a map that has the room, where no two keys of all are equal.
fn move_into<K: Eq + Hash + Drop, V: Drop>(map: &mut IndexMap<K, V>, pairs: Vec<(K, V)>)
    requires distinct { IsDistinct K.eq (keys_of (map.old.entries ++ pairs.items)) }
    requires room { length pairs.items ≤ spare map.old }
    ensures { map.new.entries ≡ map.old.entries ++ pairs.items }
{
    for (key, value) in pairs {
        map.insert(key, value).unwrap();
    }
}

/// Sets the value at a key that is there and gives the old one. Where the key is missing nothing
/// changes.
pub fn set<K: Eq + Hash, V: Drop>(map: &mut IndexMap<K, V>, key: &K, value: V) -> Option<V>
    ensures old { result ≡ lookup (K.eq key.now) map.old.entries }
    ensures new { map.new.entries ≡ set_value (K.eq key.now) map.old.entries value }
{
    match map.get_mut(key) {
        Some(place) => Some(mem::replace(place, value)),
        None => None,
    }
}

/// Puts a key that is missing at a place, with its value. For want of memory it hands the pair
/// back, and nothing changes.
pub fn insert_at<K: Eq + Hash + Drop, V: Drop>(
    map: &mut IndexMap<K, V>,
    place: usize,
    key: K,
    value: V,
) -> Result<(), (K, V)>
    requires fresh { lookup (K.eq key) map.old.entries ≡ None }
    requires within { place ≤ length map.old.entries }
    ensures ok { OnOk result (map.new.entries ≡ insert map.old.entries place (key, value)) }
    ensures err { OnErr result (map.new.entries ≡ map.old.entries) }
    ensures back { IfErr result (λ pair. pair ≡ (key, value)) }
{
    match map.shift_insert(place, key, value) {
        Ok(_) => Ok(()),
        Err(failed) => Err(failed.value),
    }
}

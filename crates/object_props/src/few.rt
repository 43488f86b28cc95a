//! A few pairs of a key and a value in a list, which is searched from its front.
ghost use Rattle.std.specs.Prelude.{◌≡◌, ◌≤◌, length, OnErr, OnOk, IfErr, position, slice_get, insert};
ghost use Rattle.std.specs.Option.{option_map, option_copied};
ghost use Rattle.std.specs.Map.Iter.{deref_pair};
ghost use Rattle.std.specs.Map.{keys_of, lookup, lookup_key, remove_entry, set_value};
ghost use Rattle.std.specs.Vec.{vec_len};

use std::mem;

/// The place of a key, from 0, or None exactly where it is missing.
pub fn place_of<K: Eq, V>(pairs: &[(K, V)], key: &K) -> Option<usize>
    ensures { result ≡ position (λ pair. K.eq key.now pair.0) pairs.now }
{
    pairs.iter().position(|pair| *key == pair.0)
}

/// The value at a key, or None exactly where it is missing.
pub fn get<'a, K: Eq, V>(pairs: &'a [(K, V)], key: &K) -> Option<&'a V>
    ensures { option_copied result ≡ lookup (K.eq key.now) pairs.now }
{
    let place = place_of(pairs, key)?;
    Some(&pairs[place].1)
}

/// The pair at a place, from 0, or None exactly at the length and past it.
pub fn pair_at<K, V>(pairs: &[(K, V)], place: usize) -> Option<(&K, &V)>
    ensures { option_map deref_pair result ≡ slice_get pairs.now place }
{
    match pairs.get(place) {
        Some((key, value)) => Some((key, value)),
        None => None,
    }
}

/// Sets the value at a key that is there and gives the old one. Where the key is missing nothing
/// changes.
pub fn set<K: Eq, V: Drop>(pairs: &mut [(K, V)], key: &K, value: V) -> Option<V>
    ensures old { result ≡ lookup (K.eq key.now) pairs.old }
    ensures new { pairs.new ≡ set_value (K.eq key.now) pairs.old value }
{
    let place = place_of(pairs, key)?;
    Some(mem::replace(&mut pairs[place].1, value))
}

/// Takes a key out and closes up. Gives its place, the kept key and its value; where the key is
/// missing nothing changes.
pub fn delete<K: Eq, V>(pairs: &mut Vec<(K, V)>, key: &K) -> Option<(usize, K, V)>
    ensures place { option_map (λ p. p.0) result ≡ position (K.eq key.now) (keys_of pairs.old.items) }
    ensures key { option_map (λ p. p.1) result ≡ lookup_key (K.eq key.now) pairs.old.items }
    ensures value { option_map (λ p. p.2) result ≡ lookup (K.eq key.now) pairs.old.items }
    ensures new { pairs.new.items ≡ remove_entry (K.eq key.now) pairs.old.items }
{
    let place = place_of(pairs, key)?;
    let (key, value) = pairs.remove(place);
    Some((place, key, value))
}

/// Puts a pair at a place, in no more room than it needs. For want of memory it hands the pair
/// back, and nothing changes.
pub fn insert_at<K, V>(
    pairs: &mut Vec<(K, V)>,
    place: usize,
    key: K,
    value: V,
) -> Result<(), (K, V)>
    requires { place ≤ vec_len pairs.old }
    ensures ok { OnOk result (pairs.new.items ≡ insert pairs.old.items place (key, value)) }
    ensures err { OnErr result (pairs.new.items ≡ pairs.old.items) }
    ensures back { IfErr result (λ pair. pair ≡ (key, value)) }
{
    if pairs.reserve_exact(1).is_err() {
        return Err((key, value));
    }
    match pairs.insert(place, (key, value)) {
        Ok(()) => Ok(()),
        Err(failed) => Err(failed.value),
    }
}

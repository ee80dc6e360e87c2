//! Where keys stand in a list, by a map from each key to its place.

ghost use Rattle.std.specs.Prelude.{◌≡◌, ◌<◌, ◌≤◌, ◌-◌, suc, nat_lt, if◌then◌else◌, IfOk, length, map, reverse, unwrap_or};
ghost use Rattle.std.specs.List.{position_or_len, position_from};
ghost use Rattle.std.specs.HashMap as hash;
ghost use Rattle.jsearch.specs.Finding.{from_end as counted_back};

use jdata::NoMemory;
use std::alloc::Global;
use std::collections::HashMap;
use std::hash::Hash;

/// For each of the wanted keys the first place of an equal one, or how many there are.
pub fn first_places<K: Eq + Hash + Copy + Drop>(
    alloc: Global,
    among: &[K],
    wanted: &[K],
) -> Result<Vec<usize>, NoMemory>
    ensures { IfOk result (λ v. v.items ≡ map (λ k. position_or_len (K.eq k) among.now) wanted.now) }
{
    let places = places_by_key(alloc, among)?;
    let mut found = Vec::with_capacity(alloc, wanted.len())?;
    for key in wanted {
        found.push(place_or(&places, key, among.len()))?;
    }
    Ok(found)
}

/// For each of the wanted keys the last place of an equal one, or how many there are.
pub fn last_places<K: Eq + Hash + Copy + Drop>(
    alloc: Global,
    among: &[K],
    wanted: &[K],
) -> Result<Vec<usize>, NoMemory>
    ensures { IfOk result (λ v. v.items ≡ map (λ k. counted_back (length among.now) (position_or_len (K.eq k) (reverse among.now))) wanted.now) }
{
    let mut turned = Vec::from_slice(alloc, among)?;
    turned.reverse();
    let places = places_by_key(alloc, turned.as_slice())?;
    let mut found = Vec::with_capacity(alloc, wanted.len())?;
    for key in wanted {
        let place = place_or(&places, key, among.len());
        found.push(from_end(among.len(), place))?;
    }
    Ok(found)
}

fn place_or<K: Eq + Hash>(places: &HashMap<K, usize>, key: &K, none: usize) -> usize
    ensures { result ≡ unwrap_or (hash.get K.eq places.now key.now) none }
{
    match places.get(key) {
        Some(place) => *place,
        None => none,
    }
}

fn from_end(count: usize, place: usize) -> usize
    ensures { result ≡ counted_back count place }
{
    if place < count {
        count - 1 - place
    } else {
        count
    }
}

/// The first place of each key. The list is gone through from its end, so that a place nearer to
/// the front takes the place of one behind it.
fn places_by_key<K: Eq + Hash + Copy + Drop>(
    alloc: Global,
    among: &[K],
) -> Result<HashMap<K, usize>, NoMemory>
    ensures { IfOk result (λ m. (q : K) → hash.get K.eq m q ≡ position_from (K.eq q) 0 among.now) }
{
    let mut places = HashMap::new(alloc);
    let mut left = among.len();
    while left > 0 {
        left -= 1;
        match places.insert(among[left], left) {
            Ok(_) => {}
            Err(_) => return Err(NoMemory),
        }
    }
    Ok(places)
}

//! Names and locatives.

ghost use Rattle.std.specs.Prelude.{◌≡◌, ◌≢◌, ◌≤◌, ◌↔◌, ◌==◌, ℕ, List, [], ◌∷◌, ◌++◌, IsTrue, IfSome, IfNone, MatchOption};
ghost use Rattle.std.specs.List.{list_any};
ghost use Rattle.jwords.specs.Alphabet.{underscore};
ghost use Rattle.jwords.specs.Places.{place_after, started};
ghost use Rattle.jwords.specs.Names.{IsPlain, IsJoined, IsDirect, IsName};

use crate::alphabet::{UNDERSCORE, is_alphanumeric, is_letter};

/// The ending of a locative in the locale `base`.
const BASE: &[u8] = b"__";
/// The ending of a direct locative.
const LAST: &[u8] = b"_";

/// What may come next in names that are joined by two underscores.
#[derive(Clone, Copy)]
enum Place {
    /// The first letter of a name.
    Start,
    /// More of a name, or its end.
    Inside,
    /// What stands behind one underscore.
    Underscore,
}

/// Whether letters, digits and underscores are a plain name, a direct or an indirect locative.
pub fn is_name(name: &[u8]) -> bool
    ensures { IsTrue result ↔ IsName name.now }
{
    joined_names(name).is_some() || is_direct(name)
}

pub fn is_plain(name: &[u8]) -> bool
    ensures { IsTrue result ↔ IsPlain name.now }
{
    match joined_names(name) {
        Some(count) => count == 1,
        None => false,
    }
}

/// Whether a name is a plain one with a locale between underscores behind it, or with two
/// underscores, which mean the locale `base`.
fn is_direct(name: &[u8]) -> bool
    ensures { IsTrue result ↔ IsDirect name.now }
{
    match before(name, BASE) {
        Some(plain) => is_plain(plain),
        None => is_in_named_locale(name),
    }
}

/// The same for a name that two underscores don't end.
fn is_in_named_locale(name: &[u8]) -> bool
    requires { (front : List ℕ) → name.now ≢ front ++ (underscore ∷ underscore ∷ []) }
    ensures { IsTrue result ↔ IsDirect name.now }
{
    match before(name, LAST) {
        Some(front) => is_plain_with_underscore(front),
        None => false,
    }
}

fn is_plain_with_underscore(front: &[u8]) -> bool
    ensures { IsTrue result ↔ (IsTrue (list_any (λ byte. byte == underscore) front.now) × IsPlain front.now) }
{
    front.contains(&UNDERSCORE) && is_plain(front)
}

/// What stands before an ending, if the name has it.
fn before<'a>(name: &'a [u8], ending: &[u8]) -> Option<&'a [u8]>
    ensures { MatchOption result ((front : List ℕ) → name.now ≢ front ++ ending.now) (λ front. name.now ≡ front.now ++ ending.now) }
{
    name.strip_suffix(ending)
}

/// How many plain names these are, joined by two underscores, if they are.
fn joined_names(names: &[u8]) -> Option<usize>
    ensures some { IfSome result (λ count. IsJoined count names.now) }
    ensures none { IfNone result ((count : ℕ) → ¬ IsJoined count names.now) }
{
    let mut count = 0;
    let mut place = Place::Start;
    for byte in names {
        let Some(next) = next_place(place, *byte) else {
            return None;
        };
        count += starts(place);
        place = next;
    }
    match place {
        Place::Inside => Some(count),
        _ => None,
    }
}

/// How many names start at a place.
fn starts(place: Place) -> usize
    ensures starts { result ≡ started place }
    ensures few { result ≤ 1 }
{
    match place {
        Place::Start => 1,
        Place::Inside | Place::Underscore => 0,
    }
}

fn next_place(place: Place, byte: u8) -> Option<Place>
    ensures { result ≡ place_after place byte }
{
    match place {
        Place::Start if is_letter(byte) => Some(Place::Inside),
        Place::Start => None,
        _ if is_alphanumeric(byte) => Some(Place::Inside),
        _ if byte != UNDERSCORE => None,
        Place::Inside => Some(Place::Underscore),
        Place::Underscore => Some(Place::Start),
    }
}

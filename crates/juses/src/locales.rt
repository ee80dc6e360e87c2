//! The names of each locale.
ghost use Rattle.std.specs.Prelude.{◌≡◌, [], ◌∷◌, OnOk, OnErr, IfOk};
ghost use Rattle.std.specs.BTreeMap.{insert_entry};
ghost use Rattle.std.specs.Cmp.Lexicographic.{slice_cmp};
ghost use Rattle.std.specs.Map.{lookup};
ghost use Rattle.std.specs.Option.{option_copied};
ghost use Rattle.std.specs.Ordering.{nat_cmp};
ghost use Rattle.juses.specs.Keys.{same};
ghost use Rattle.juses.specs.Keeping.{first_tables, sought, with_value};
ghost use Rattle.juses.specs.Standing.{value_in};

use jdata::{Name, NoMemory};
use jterm::Term;
use std::alloc::Global;
use std::collections::BTreeMap;
use std::marker::Model;

/// The names of a locale with their values, in order of bytes.
#[derive(Debug, Drop)]
struct Names {
    values: BTreeMap<Vec<u8>, Term>,
}

impl Model for Names {
    ghost use Rattle.juses.specs.Standing.{NameTable};

    ghost Value = { NameTable };

    ghost use Rattle.jterm.specs.contracts.term.Term as term;
    ghost use Rattle.std.specs.Coded.{codes};

    ghost coded = { Prim.hlevel (codes, term.the_row.coded) };

    ghost use Rattle.juses.specs.Tables.{by_items};

    ghost view = { λ a. by_items (λ k. k.items) a.values.entries };
}

impl Names {
    fn new(alloc: Global) -> Names
        ensures { result ≡ [] }
    {
        Names {
            values: BTreeMap::new(alloc),
        }
    }

    fn get(&self, name: &Name) -> Option<&Term>
        ensures { option_copied result ≡ lookup (same name.now) self.now }
    {
        self.values.get(name.items())
    }

    fn put(&mut self, name: Name, value: Term) -> Result<(), NoMemory>
        ensures ok { OnOk result (self.new ≡ insert_entry (slice_cmp nat_cmp) self.old name value) }
        ensures err { OnErr result (self.new ≡ self.old) }
    {
        self.values.insert(name.into_items(), value)?;
        Ok(())
    }
}

/// The names of each locale with their values, in order of bytes.
#[derive(Debug, Drop)]
pub struct Locales {
    alloc: Global,
    places: BTreeMap<Vec<u8>, Names>,
}

impl Model for Locales {
    ghost use Rattle.juses.specs.Standing.{LocaleTable};

    ghost Value = { LocaleTable };

    ghost use Rattle.jterm.specs.contracts.term.Term as term;
    ghost use Rattle.std.specs.Coded.{codes};

    ghost coded = { Prim.hlevel (codes, term.the_row.coded) };

    ghost use Rattle.juses.specs.Tables.{by_items};

    ghost view = { λ a. by_items (λ k. k.items) a.places.entries };
}

impl Locales {
    /// The locales `base` and `z`, without names.
    pub fn new(alloc: Global) -> Result<Locales, NoMemory>
        ensures { IfOk result (λ l. l ≡ first_tables) }
    {
        let mut places = BTreeMap::new(alloc);
        places.insert(Vec::from_slice(alloc, b"base")?, Names::new(alloc))?;
        places.insert(Vec::from_slice(alloc, b"z")?, Names::new(alloc))?;
        Ok(Locales { alloc, places })
    }

    /// The value of the name in the locale, or else in `z`.
    pub fn find(&self, from: &Name, name: &Name) -> Option<&Term>
        ensures { option_copied result ≡ sought self.now from.now name.now }
    {
        match self.value(from.items(), name) {
            Some(value) => Some(value),
            None => self.value(b"z", name),
        }
    }

    fn value(&self, place: &[u8], name: &Name) -> Option<&Term>
        ensures { option_copied result ≡ value_in self.now place.now name.now }
    {
        match self.names(place) {
            Some(names) => names.get(name),
            None => None,
        }
    }

    fn names(&self, place: &[u8]) -> Option<&Names>
        ensures { option_copied result ≡ lookup (same place.now) self.now }
    {
        self.places.get(place)
    }

    /// Gives the name this value in the locale, and makes the locale where there is none.
    pub fn put(&mut self, place: Name, name: Name, value: Term) -> Result<(), NoMemory>
        ensures ok { OnOk result (self.new ≡ with_value self.old place name value) }
        ensures err { OnErr result (self.new ≡ self.old) }
    {
        if let Some(names) = self.places.get_mut(place.items()) {
            return names.put(name, value);
        }
        let mut names = Names::new(self.alloc);
        names.put(name, value)?;
        self.places.insert(place.into_items(), names)?;
        Ok(())
    }
}

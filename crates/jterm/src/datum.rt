//! Arrays as sentences compute with them.

use jarray::Array;
use std::marker::Model;

/// An array, of which contracts see the noun alone: what a sentence gives doesn't depend on where its arrays lie.
#[derive(Debug, Drop)]
pub struct Datum {
    array: Array,
}

impl Model for Datum {
    ghost use Rattle.jdata.specs.declared.noun.Noun.{Noun};

    ghost Value = { Noun };

    ghost use Rattle.jdata.specs.contracts.noun.Noun as noun;
    ghost use Rattle.std.specs.Coded.{codes};

    ghost coded = { Prim.hlevel (codes, noun.the_row.coded) };

    ghost view = { λ d. d.array.noun };
}

impl Datum {
    ghost use Rattle.std.specs.Prelude.{◌≡◌};

    pub fn of(array: Array) -> Datum
        ensures { result ≡ array.noun }
    {
        Datum { array }
    }

    pub fn array(&self) -> &Array
        ensures { result.now.noun ≡ self.now }
    {
        &self.array
    }

    pub fn into_array(self) -> Array
        ensures { result.noun ≡ self }
    {
        let Datum { array } = self;
        array
    }
}

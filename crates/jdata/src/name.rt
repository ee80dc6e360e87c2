ghost use Rattle.std.specs.Prelude.{◌≡◌, List, ℕ};

use std::marker::Model;

/// A name as it is written: the bytes of one word.
#[derive(Debug, Drop)]
pub struct Name {
    bytes: Vec<u8>,
}

impl Model for Name {
    ghost Value = { List ℕ };

    ghost view = { λ a. a.bytes.items };
}

impl Name {
    /// The name of these bytes, in the same buffer.
    pub fn of(items: Vec<u8>) -> Self
        ensures { result ≡ items.items }
    {
        Name { bytes: items }
    }

    pub fn items(&self) -> &[u8]
        ensures { result.now ≡ self.now }
    {
        self.bytes.as_slice()
    }

    /// The bytes, in the same buffer.
    pub fn into_items(self) -> Vec<u8>
        ensures { result.items ≡ self }
    {
        let Name { bytes } = self;
        bytes
    }
}

//! A definition with several owners.

use crate::valence::Definition;
use jdata::NoMemory;
use std::alloc::Global;
use std::marker::Model;
use std::sync::Arc;

/// A definition that several terms may own, on several threads. Contracts see the definition itself, and not who owns
/// it.
#[derive(Debug, Drop)]
pub struct Body {
    definition: Arc<Definition>,
}

impl Model for Body {
    ghost use Rattle.jexplicit.specs.Meant.{Meaning};

    ghost Value = { Meaning };

    ghost view = { λ b. b.definition.value };
}

impl Body {
    ghost use Rattle.std.specs.Prelude.{◌≡◌, IfOk};

    /// The first owner of a definition.
    pub fn of(alloc: Global, definition: Definition) -> Result<Body, NoMemory>
        ensures { IfOk result (λ body. body ≡ definition) }
    {
        let definition = Arc::new(alloc, definition)?;
        Ok(Body { definition })
    }

    /// One more owner of the same definition. Nothing of it is copied.
    pub fn share(&self) -> Result<Body, NoMemory>
        ensures { IfOk result (λ body. body ≡ self.now) }
    {
        let definition = Arc::try_clone(&self.definition)?;
        Ok(Body { definition })
    }

    pub fn definition(&self) -> &Definition
        ensures { result.now ≡ self.now }
    {
        &self.definition
    }
}

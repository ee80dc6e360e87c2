ghost use Rattle.std.specs.Prelude.{◌≡◌};

use std::alloc::{AllocError, AllocFailed};

/// The allocator refused to give more memory.
#[derive(Drop, Debug, Clone, Copy, PartialEq, Eq)]
pub struct NoMemory;

impl From<AllocError> for NoMemory {
    ghost from_gives = { λ _ _. Unit {0} };

    fn from(_refused: AllocError) -> NoMemory {
        NoMemory
    }
}

impl<T: Drop> From<AllocFailed<T>> for NoMemory {
    ghost from_gives = { λ _ _. Unit {0} };

    fn from(_refused: AllocFailed<T>) -> NoMemory {
        NoMemory
    }
}

/// Why a sentence was refused, with the number by which the language knows it.
#[derive(Clone, Copy, Debug, PartialEq, Eq)]
pub enum Fault {
    Domain = 1,
    Length = 2,
    Rank = 3,
    Index = 4,
    Syntax = 5,
    Value = 6,
    Spelling = 7,
    Control = 8,
    Nonce = 9,
    Limit = 10,
    Stack = 11,
    TimeLimit = 12,
    Locale = 13,
    Concurrency = 14,
    Assertion = 15,
    OpenQuote = 16,
    IllFormed = 17,
}

impl Fault {
    ghost use Rattle.jdata.specs.Faults.{number_of, text_of};

    pub fn number(self) -> u8
        ensures { result ≡ number_of self }
    {
        self as u8
    }

    /// The words that are printed.
    pub fn text(self) -> &'static str
        ensures { result.now ≡ text_of self }
    {
        match self {
            Fault::Domain => "domain error",
            Fault::Length => "length error",
            Fault::Rank => "rank error",
            Fault::Index => "index error",
            Fault::Syntax => "syntax error",
            Fault::Value => "value error",
            Fault::Spelling => "spelling error",
            Fault::Control => "control error",
            Fault::Nonce => "nonce error",
            Fault::Limit => "limit error",
            Fault::Stack => "stack error",
            Fault::TimeLimit => "time limit",
            Fault::Locale => "locale error",
            Fault::Concurrency => "concurrency error",
            Fault::Assertion => "assertion failure",
            Fault::OpenQuote => "open quote",
            Fault::IllFormed => "ill-formed number",
        }
    }
}

/// What a call answers that can be refused by the language or for want of memory.
#[derive(Drop, Debug, Clone, Copy, PartialEq, Eq)]
pub enum Trouble {
    Fault(Fault),
    NoMemory,
}

impl From<Fault> for Trouble {
    ghost use Rattle.jdata.specs.declared.fault.Trouble.TheVariants as trouble;

    ghost from_gives = { λ f t. t ≡ trouble.Fault f };

    fn from(fault: Fault) -> Trouble {
        Trouble::Fault(fault)
    }
}

impl From<NoMemory> for Trouble {
    ghost use Rattle.jdata.specs.declared.fault.Trouble.TheVariants as trouble;

    ghost from_gives = { λ _ t. t ≡ trouble.NoMemory };

    fn from(_refused: NoMemory) -> Trouble {
        Trouble::NoMemory
    }
}

impl From<AllocError> for Trouble {
    ghost use Rattle.jdata.specs.declared.fault.Trouble.TheVariants as trouble;

    ghost from_gives = { λ _ t. t ≡ trouble.NoMemory };

    fn from(_refused: AllocError) -> Trouble {
        Trouble::NoMemory
    }
}

impl<T: Drop> From<AllocFailed<T>> for Trouble {
    ghost use Rattle.jdata.specs.declared.fault.Trouble.TheVariants as trouble;

    ghost from_gives = { λ _ t. t ≡ trouble.NoMemory };

    fn from(_refused: AllocFailed<T>) -> Trouble {
        Trouble::NoMemory
    }
}

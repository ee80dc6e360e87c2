use crate::kind::{Kind, Looping};
use jcontrol::{Act, Prepared};

/// An open group, by the part in which the next word stands. Numbers are those of words, places those of prepared
/// words.
#[derive(Clone, Copy)]
pub enum Group {
    /// No group: the body itself.
    Body,
    /// The test of an `if.` or `elseif.`.
    IfTest {
        word: u32,
    },
    Then,
    Otherwise,
    /// The test of a loop, which begins at the start.
    LoopTest {
        looping: Looping,
        word: u32,
        start: usize,
    },
    /// The block of a loop, from which control goes back to the start; so many `for.` loops are open round it.
    LoopBlock {
        looping: Looping,
        word: u32,
        start: usize,
        depth: usize,
    },
    SelectTest {
        word: u32,
    },
    /// The test of a case; it may be empty.
    CaseTest {
        select: u32,
        word: u32,
        falls: bool,
        always: bool,
    },
    CaseBlock {
        select: u32,
        falls: bool,
    },
    TryBlock,
    CatchBlock,
}

/// What stands round a word: the innermost group, the innermost test, and the innermost test round that group.
#[derive(Clone, Copy)]
pub struct Inside {
    pub group: Group,
    pub test: Option<u32>,
    pub outer: Option<u32>,
}

/// How far a body is read: the next word's number, the next prepared word's place, how many `for.` loops are open,
/// the `assert.` just before, and what stands round the next word.
#[derive(Clone, Copy)]
pub struct Reached {
    pub number: u32,
    pub place: usize,
    pub depth: usize,
    pub claim: Option<u32>,
    pub inside: Inside,
}

/// A word, where it stands, and whether a `do.` follows it.
#[derive(Clone, Copy)]
pub struct Spot {
    pub kind: Kind,
    pub before_do: bool,
    pub at: Reached,
}

/// What is known of the places behind a word: where its group ends, where control goes if the test before fails, the
/// block that is next, the word for a fault, the innermost loop's end with the word that goes round again, and the same
/// of the loop outside of that.
#[derive(Clone, Copy)]
pub struct Ahead {
    pub exit: usize,
    pub failed: usize,
    pub block: usize,
    pub catch: Option<usize>,
    pub again: Option<(usize, Prepared)>,
    pub outer: Option<(usize, Prepared)>,
}

/// The prepared words that are made of a word.
#[derive(Clone, Copy)]
pub enum Few {
    Nothing,
    One(Prepared),
    Two(Prepared, Prepared),
}

/// What a word makes of the groups, read forward.
#[derive(Clone, Copy)]
pub enum Entry {
    Stay,
    Open(Inside),
    Into(Inside),
    Close,
}

/// What a word makes of what is ahead, read backward.
#[derive(Clone, Copy)]
pub enum Turn {
    Stay,
    Open(Ahead),
    Into(Ahead),
    Close,
}

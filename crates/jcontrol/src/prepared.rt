ghost use Rattle.std.specs.Prelude.{◌≡◌, ◌<◌, ◌+◌, ◌^◌};
ghost use Rattle.jcontrol.specs.Machine.{after, chosen, refuses};

/// What a word of a prepared body does. Numbers of words and sentences are those of `Step`, places are places in the
/// prepared body.
#[derive(Clone, Copy, Debug, PartialEq, Eq)]
pub enum Act {
    /// A sentence is run; it stands in this test.
    Sentence {
        number: u32,
        test: Option<u32>,
    },
    /// A test starts; control goes on there.
    TestStart {
        word: u32,
        to: usize,
    },
    /// A test ends; where it doesn't hold, control goes on there.
    Test {
        word: u32,
        failed: usize,
    },
    /// An assertion ends.
    Assert(u32),
    /// A round of a `while.` starts.
    Round(u32),
    /// The first round of a `for.` that stands in so many others.
    First {
        word: u32,
        depth: usize,
        failed: usize,
    },
    /// The next round of it.
    Next {
        word: u32,
        depth: usize,
        held: usize,
        failed: usize,
    },
    /// The value that is selected is known.
    Select(u32),
    /// The value of a case is known.
    Case {
        word: u32,
        select: u32,
        failed: usize,
    },
    /// Control goes on there.
    Go(usize),
    /// The body ends.
    Return,
}

/// A word of a prepared body: what it does, and the word at which control goes on after a fault.
#[derive(Clone, Copy, Debug, PartialEq, Eq)]
pub struct Prepared {
    pub act: Act,
    pub catch: Option<usize>,
}

/// The place where control goes on after a word.
pub fn after(act: Act, place: usize, test: Option<bool>) -> usize
    requires { place + 1 < 2 ^ 64 }
    ensures { result ≡ after act place test }
{
    match act {
        Act::TestStart { to, .. } => to,
        Act::Test { failed, .. } => chosen(test, place + 1, failed),
        Act::First { failed, .. } => chosen(test, place + 1, failed),
        Act::Next { held, failed, .. } => chosen(test, held, failed),
        Act::Case { failed, .. } => chosen(test, place + 1, failed),
        Act::Go(to) => to,
        Act::Return => place,
        _ => place + 1,
    }
}

fn chosen(test: Option<bool>, held: usize, failed: usize) -> usize
    ensures { result ≡ chosen test held failed }
{
    match test {
        Some(true) => held,
        _ => failed,
    }
}

/// Whether this is an assertion that is told not to hold.
pub fn refuses(act: Act, test: Option<bool>) -> bool
    ensures { result ≡ refuses act test }
{
    match (act, test) {
        (Act::Assert(_), Some(false)) => true,
        _ => false,
    }
}

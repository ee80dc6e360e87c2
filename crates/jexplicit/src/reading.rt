ghost use Rattle.std.specs.Prelude.{ℕ, ◌≡◌, ◌↔◌, List, [], length, true, false, Some};
ghost use Rattle.jexplicit.specs.declared.kind.Kind.{Kind};
ghost use Rattle.jexplicit.specs.Blocks.{count};
ghost use Rattle.jexplicit.specs.Grammar.{Text, spell, IsPlaced};
ghost use Rattle.jcontrol.specs.Machine.{IsSound};
ghost use Rattle.jexplicit.specs.Preparing.{IsPrepared, prepares};
ghost use Rattle.jexplicit.specs.Reading.{reads};
ghost use Rattle.jexplicit.specs.Texts.{text_in};

/// The part of an open group in which the next word stands.
#[derive(Clone, Copy, Debug, PartialEq, Eq)]
pub enum Part {
    IfTest,
    Then,
    Otherwise,
    LoopTest,
    LoopBlock,
    SelectTest,
    CaseTest,
    CaseBlock,
    TryBlock,
    CatchBlock,
}

/// What a word makes of the open groups, of which the innermost is in front.
#[derive(Clone, Copy, Debug, PartialEq, Eq)]
pub enum Change {
    Stay,
    Open(Part),
    Into(Part),
    Close,
}

/// Words are read exactly where they are the words of a block, in which each `break.` and `continue.` has its loop.
#[tactic(auto, using(crate::proofs::Readings::exact))]
pub fn reading_is_exact()
    ensures { (words : List Kind) → reads words [] ≡ true ↔ (text : Text) × IsPlaced false text × (spell text [] ≡ words) }
{}

/// The words of a text are as many as are counted for its numbers.
#[tactic(auto, using(crate::proofs::Counts::counted))]
pub fn words_are_counted()
    ensures { (text : Text) → length (spell text []) ≡ count text }
{}

/// A text is had back of the words that spell it, so they spell no other.
#[tactic(auto, using(crate::proofs::Texts::had_back))]
pub fn each_text_is_had_back()
    ensures { (text : Text) → text_in (spell text []) ≡ Some text }
{}

/// What is prepared of words that are read is laid as the blocks of a text that they spell, and leads nowhere but to
/// its own words.
#[tactic(auto, using(crate::proofs::Preparation::prepared, crate::proofs::Preparation::prepared_soundly))]
pub fn preparing_agrees()
    ensures blocks { (first : ℕ) (kinds : List Kind) → reads kinds [] ≡ true → IsPrepared first kinds (prepares first kinds) }
    ensures sound { (first : ℕ) (kinds : List Kind) → reads kinds [] ≡ true → IsSound (prepares first kinds) }
{}

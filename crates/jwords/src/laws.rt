//! What holds of cutting altogether. Each function does nothing: its contract is the law.

ghost use Rattle.jwords.specs.Laws.{EachLineHasOneOutcome, EachTextHasOneOutcome, EachVerbIsAWord};

/// Each line has exactly one list of words or one fault, and `words_of` gives it.
pub fn each_line_has_one_outcome()
    ensures { EachLineHasOneOutcome }
{}

/// Each text has exactly one list of words by monadic `;:`, or one open quote, and `spans_of` gives it.
pub fn each_text_has_one_outcome()
    ensures { EachTextHasOneOutcome }
{}

/// The spelling of each primitive verb is one word.
pub fn each_verb_is_a_word()
    ensures { EachVerbIsAWord }
{}

//! Definitions, and what is asked of them.

ghost use Rattle.std.specs.Prelude.{◌≡◌, ◌+◌, ◌-◌, ◌<◌, List, length, take, drop, option_map};
ghost use Rattle.jcontrol.specs.Machine.{IsSound};

use crate::body::{CutLine, Split};
use crate::naming::{is_for, named_by};
use crate::stretch::Stretch;
use jcontrol::Prepared;
use jdata::Sequence;
use jwords::Word;
use std::marker::Model;

/// A valence of a definition: its control words and sentences, and the words that a frame runs.
#[derive(Debug, Drop)]
pub struct Valence {
    pub parts: Sequence<Stretch>,
    pub words: Sequence<Prepared>,
}

/// A definition as it was read from its text. The words that a frame runs are always those of its blocks.
#[derive(Debug, Drop)]
pub struct Definition {
    lines: Sequence<CutLine>,
    split: Split,
    monad: Valence,
    dyad: Valence,
}

impl Model for Definition {
    ghost use Rattle.std.specs.Prelude.{length};
    ghost use Rattle.jexplicit.specs.Meant.{Meaning, Agrees};

    ghost Value = { Meaning };

    ghost view = { λ d. record { lines = d.lines; split = d.split; monad = d.monad; dyad = d.dyad } };

    ghost invariant = { λ d. Agrees 0 d.monad × Agrees (length d.monad.parts) d.dyad };
}

// From the one place up to before the other, of what is there.
fn between(words: &[Word], start: usize, end: usize) -> &[Word]
    ensures { result.now ≡ take (end - start) (drop start words.now) }
{
    let start = start.min(words.len());
    let end = end.min(words.len()).max(start);
    &words[start..end]
}

impl Definition {
    ghost use Rattle.jexplicit.specs.Preparing.{IsPrepared};
    ghost use Rattle.jexplicit.specs.Meant.{Agrees};
    ghost use Rattle.jexplicit.specs.Meant as meant;

    pub(crate) fn of(lines: Sequence<CutLine>, split: Split, monad: Valence, dyad: Valence) -> Self
        requires monad { Agrees 0 monad }
        requires dyad { Agrees (length monad.parts) dyad }
        ensures { result ≡ record { lines = lines; split = split; monad = monad; dyad = dyad } }
    {
        Definition {
            lines,
            split,
            monad,
            dyad,
        }
    }

    /// Whether that valence has lines.
    pub fn has(&self, dyadic: bool) -> bool
        ensures { result ≡ meant.has dyadic self.now }
    {
        if dyadic {
            self.split.dyad_from < self.lines.items().len()
        } else {
            0 < self.split.monad_to
        }
    }

    /// The words of that valence for a frame.
    pub fn prepared(&self, dyadic: bool) -> &[Prepared]
        ensures words { result.now ≡ (meant.valence dyadic self.now).words }
        ensures blocks { IsPrepared (meant.first_of dyadic self.now) (meant.kinds (meant.valence dyadic self.now).parts) result.now }
        ensures sound { IsSound result.now }
        ensures some { 0 < length result.now }
    {
        if dyadic {
            self.dyad.words.items()
        } else {
            self.monad.words.items()
        }
    }

    // The control word or sentence with this number.
    fn part(&self, number: u32) -> Option<Stretch>
        ensures { result ≡ meant.part_of number self.now }
    {
        let monad = self.monad.parts.items();
        let number = number as usize;
        if number < monad.len() {
            return Some(monad[number]);
        }
        self.dyad.parts.items().get(number - monad.len()).copied()
    }

    fn line_at(&self, part: Option<Stretch>) -> Option<&CutLine>
        ensures { option_map (λ line. line.now) result ≡ meant.line_at part self.now.lines }
    {
        match part {
            Some(part) => self.lines.items().get(part.line),
            None => None,
        }
    }

    /// The line in which the sentence with this number stands.
    pub fn line(&self, number: u32) -> &[u8]
        ensures { result.now ≡ meant.line_of number self.now }
    {
        match self.line_at(self.part(number)) {
            Some(line) => line.text.items(),
            None => &[],
        }
    }

    /// The words of the sentence with this number, with their places in its line.
    pub fn words(&self, number: u32) -> &[Word]
        ensures { result.now ≡ meant.words_of number self.now }
    {
        let part = self.part(number);
        match (part, self.line_at(part)) {
            (Some(part), Some(line)) => between(line.words.items(), part.from, part.to),
            _ => &[],
        }
    }

    fn is_for(&self, number: u32) -> bool
        ensures { result ≡ meant.is_for (meant.part_of number self.now) }
    {
        match self.part(number) {
            Some(part) => is_for(part.kind),
            None => false,
        }
    }

    /// The name in the `for_name.` with this number; none for another word.
    pub fn item_name(&self, word: u32) -> Option<&[u8]>
        ensures { option_map (λ name. name.now) result ≡ meant.item_name_of word self.now }
    {
        if !self.is_for(word) {
            return None;
        }
        named_by(self.line(word), self.words(word))
    }
}

//! From a text to its definition.

ghost use Rattle.std.specs.Prelude.{◌≡◌, ◌+◌, ◌<◌, ◌≤◌, ◌^◌, IfOk, IfSome, length, map};
ghost use Rattle.jdata.specs.Answers.{Answers};
ghost use Rattle.jexplicit.specs.Body as body;
ghost use Rattle.jexplicit.specs.Meant as meant;

use crate::body::{CutLine, Form, Split, all_paired, cut_lines, is_refused, parts_of, split_of};
use crate::kind::Kind;
use crate::stretch::Stretch;
use crate::valence::{Definition, Valence};
use crate::walking::prepared;
use jdata::{Fault, NoMemory, Sequence, Trouble};
use std::alloc::Global;

fn kinds_of(alloc: Global, parts: &[Stretch]) -> Result<Vec<Kind>, NoMemory>
    ensures { IfOk result (λ kinds. kinds.items ≡ meant.kinds parts.now) }
{
    let mut kinds = Vec::with_capacity(alloc, parts.len())?;
    for part in parts {
        kinds.push(part.kind)?;
    }
    Ok(kinds)
}

// The valence of these parts, where they are those of a body.
fn valence_of(
    alloc: Global,
    first: u32,
    parts: Sequence<Stretch>,
) -> Result<Option<Valence>, NoMemory>
    requires { first + length parts < 2 ^ 32 }
    ensures valence { IfOk result (λ made. made ≡ meant.valence_of first parts) }
    ensures agrees { IfOk result (λ made. IfSome made (λ valence. meant.Agrees first valence)) }
{
    let kinds = kinds_of(alloc, parts.items())?;
    match prepared(alloc, first, &kinds)? {
        Some(words) => Ok(Some(Valence {
            parts,
            words: Sequence::of(words),
        })),
        None => Ok(None),
    }
}

fn monad_lines(split: Split, lines: &[CutLine]) -> &[CutLine]
    ensures { result.now ≡ body.monad_lines split lines.now }
{
    &lines[..split.monad_to.min(lines.len())]
}

fn dyad_lines(split: Split, lines: &[CutLine]) -> &[CutLine]
    ensures { result.now ≡ body.dyad_lines split lines.now }
{
    &lines[split.dyad_from.min(lines.len())..]
}

fn of_parts(
    alloc: Global,
    lines: Sequence<CutLine>,
    split: Split,
    monad: Sequence<Stretch>,
    dyad: Sequence<Stretch>,
) -> Result<Definition, Trouble>
    requires { length monad + length dyad < 2 ^ 32 }
    ensures { Answers (meant.of_parts lines split monad dyad) result }
{
    let first = monad.items().len() as u32;
    let monad = valence_of(alloc, 0, monad)?;
    let dyad = valence_of(alloc, first, dyad)?;
    match (monad, dyad) {
        (Some(monad), Some(dyad)) => Ok(Definition::of(lines, split, monad, dyad)),
        _ => Err(Trouble::Fault(Fault::Control)),
    }
}

fn of_split(alloc: Global, lines: Sequence<CutLine>, split: Split) -> Result<Definition, Trouble>
    requires order { split.monad_to ≤ split.dyad_from }
    requires within { split.dyad_from ≤ length lines + 1 }
    requires lines { length lines ≤ 2 ^ 27 + 1 }
    requires words { body.words_in lines ≤ 2 ^ 27 }
    ensures { Answers (meant.of_split lines split) result }
{
    if !all_paired(lines.items()) {
        return Err(Trouble::Fault(Fault::Control));
    }
    let monad = parts_of(alloc, 0, monad_lines(split, lines.items()))?;
    let dyad = parts_of(alloc, split.dyad_from, dyad_lines(split, lines.items()))?;
    of_parts(alloc, lines, split, monad, dyad)
}

/// The definition of a text of at most 2^27 bytes. Faults: first those of lines, in their order (Limit for a line above
/// 65,536 bytes, else its first word fault), then Nonce for what a direct definition may not have, then Control for
/// braces and control words that don't match.
pub fn definition(alloc: Global, form: Form, text: &[u8]) -> Result<Definition, Trouble>
    requires { length text.now ≤ 2 ^ 27 }
    ensures { Answers (meant.definition_of form text.now) result }
{
    let lines = cut_lines(alloc, text)?;
    if is_refused(form, text, lines.items()) {
        return Err(Trouble::Fault(Fault::Nonce));
    }
    let split = split_of(form, lines.items());
    of_split(alloc, lines, split)
}

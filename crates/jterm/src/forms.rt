//! Which operands each modifier and train takes, by their parts of speech.
ghost use Rattle.std.specs.Prelude.{◌≡◌};
ghost use Rattle.jterm.specs.Forms as forms;

use crate::speech::Speech;
use crate::words::{Adv, Con};
use jdata::Fault;

/// What a conjunction makes of operands of these parts of speech, or what is left to be seen of them.
#[derive(Clone, Copy, Debug, PartialEq, Eq)]
pub enum Form {
    Taken,
    /// The right operand must be ranks.
    Ranked,
    /// The right operand must have an obverse.
    Undone,
    /// A definition, of which none is built.
    Defined,
    /// A foreign.
    Foreign,
    /// The right operand must be a pool.
    Pooled,
    Refused(Fault),
}

fn amend_form(left: Speech) -> Option<Fault>
    ensures { result ≡ forms.amend_form left }
{
    match left {
        Speech::Noun => None,
        Speech::Verb | Speech::Ranks => Some(Fault::Nonce),
        Speech::Adverb | Speech::Conjunction => Some(Fault::Domain),
    }
}

fn of_verb(left: Speech) -> Option<Fault>
    ensures { result ≡ forms.of_verb left }
{
    match left {
        Speech::Verb => None,
        Speech::Ranks => Some(Fault::Nonce),
        Speech::Noun | Speech::Adverb | Speech::Conjunction => Some(Fault::Domain),
    }
}

pub(crate) fn adverb_form(word: Adv, left: Speech) -> Option<Fault>
    ensures { result ≡ forms.adverb_form word left }
{
    match word {
        Adv::RightBrace => amend_form(left),
        Adv::Slash | Adv::SlashDot | Adv::Backslash => of_verb(left),
        Adv::BackslashDot | Adv::Tilde => of_verb(left),
    }
}

fn quote_form(left: Speech, right: Speech) -> Form
    ensures { result ≡ forms.quote_form left right }
{
    match (left, right) {
        (Speech::Ranks, _) => Form::Refused(Fault::Nonce),
        (Speech::Verb | Speech::Noun, Speech::Noun | Speech::Ranks) => Form::Ranked,
        _ => Form::Refused(Fault::Domain),
    }
}

fn power_form(left: Speech, right: Speech) -> Form
    ensures { result ≡ forms.power_form left right }
{
    match (left, right) {
        (Speech::Ranks, _) => Form::Refused(Fault::Nonce),
        (Speech::Verb, Speech::Noun | Speech::Ranks | Speech::Verb) => Form::Taken,
        _ => Form::Refused(Fault::Domain),
    }
}

fn other_form(left: Speech, right: Speech) -> Form
    ensures { result ≡ forms.other_form left right }
{
    match (left, right) {
        (Speech::Ranks, _) => Form::Refused(Fault::Nonce),
        (_, Speech::Ranks) => Form::Refused(Fault::Nonce),
        _ => Form::Refused(Fault::Domain),
    }
}

fn verbs_form(left: Speech, right: Speech) -> Form
    ensures { result ≡ forms.verbs_form left right }
{
    match (left, right) {
        (Speech::Verb, Speech::Verb) => Form::Taken,
        _ => other_form(left, right),
    }
}

fn bond_form(left: Speech, right: Speech) -> Form
    ensures { result ≡ forms.bond_form left right }
{
    match (left, right) {
        (Speech::Verb, Speech::Verb) => Form::Taken,
        (Speech::Noun, Speech::Verb) => Form::Taken,
        (Speech::Verb, Speech::Noun) => Form::Taken,
        _ => other_form(left, right),
    }
}

fn under_form(left: Speech, right: Speech) -> Form
    ensures { result ≡ forms.under_form left right }
{
    match (left, right) {
        (Speech::Verb, Speech::Verb) => Form::Undone,
        _ => other_form(left, right),
    }
}

fn colon_form(left: Speech, right: Speech) -> Form
    ensures { result ≡ forms.colon_form left right }
{
    match (left, right) {
        (Speech::Verb, Speech::Verb) => Form::Taken,
        (Speech::Noun, Speech::Noun) => Form::Defined,
        _ => other_form(left, right),
    }
}

fn cut_form(left: Speech, right: Speech) -> Form
    ensures { result ≡ forms.cut_form left right }
{
    match (left, right) {
        (Speech::Verb, Speech::Noun) => Form::Taken,
        _ => other_form(left, right),
    }
}

fn foreign_form(left: Speech, right: Speech) -> Form
    ensures { result ≡ forms.foreign_form left right }
{
    match (left, right) {
        (Speech::Noun, Speech::Noun) => Form::Foreign,
        _ => other_form(left, right),
    }
}

fn task_form(left: Speech, right: Speech) -> Form
    ensures { result ≡ forms.task_form left right }
{
    match (left, right) {
        (Speech::Verb, Speech::Noun) => Form::Pooled,
        _ => other_form(left, right),
    }
}

pub(crate) fn conj_form(word: Con, left: Speech, right: Speech) -> Form
    ensures { result ≡ forms.conj_form word left right }
{
    match word {
        Con::Quote => quote_form(left, right),
        Con::PowerColon => power_form(left, right),
        Con::At | Con::AtColon | Con::AmpersandColon => verbs_form(left, right),
        Con::ColonColon => verbs_form(left, right),
        Con::Ampersand => bond_form(left, right),
        Con::AmpersandDot | Con::AmpersandDotColon => under_form(left, right),
        Con::Colon => colon_form(left, right),
        Con::SemicolonDot => cut_form(left, right),
        Con::BangColon => foreign_form(left, right),
        Con::TDot => task_form(left, right),
    }
}

pub(crate) fn fork_form(left: Speech, mid: Speech, right: Speech) -> Option<Fault>
    ensures { result ≡ forms.fork_form left mid right }
{
    match (left, mid, right) {
        (Speech::Verb | Speech::Noun, Speech::Verb, Speech::Verb) => None,
        (Speech::Ranks, _, _) => Some(Fault::Nonce),
        _ => Some(Fault::Domain),
    }
}

pub(crate) fn hook_form(left: Speech, right: Speech) -> Option<Fault>
    ensures { result ≡ forms.hook_form left right }
{
    match (left, right) {
        (Speech::Verb, Speech::Verb) => None,
        _ => Some(Fault::Syntax),
    }
}

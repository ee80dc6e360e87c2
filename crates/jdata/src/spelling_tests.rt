use crate::{Primitive, spellings_differ, words_tell_verbs};
use std::process::Abort;

fn spells(rt: &impl Abort, word: &str, verb: Primitive) {
    assert_eq!(rt; verb.spelling(), word);
    assert!(rt; Primitive::of(word.as_bytes()) == Some(verb));
}

#[test]
fn words_of_every_length(rt: HostRuntime) {
    spells(&rt, "=", Primitive::Equal);
    spells(&rt, "\\:", Primitive::BackslashColon);
    spells(&rt, "\":", Primitive::QuoteColon);
    spells(&rt, "{::", Primitive::LeftBraceColonColon);
    spells(&rt, "T.", Primitive::CapitalTDot);
    spellings_differ();
    words_tell_verbs();
}

#[test]
fn other_words_are_no_verbs(rt: HostRuntime) {
    assert!(rt; Primitive::of(b"").is_none());
    assert!(rt; Primitive::of(b"+..").is_none());
    assert!(rt; Primitive::of(b"=:").is_none());
    assert!(rt; Primitive::of(b"t.").is_none());
}

use crate::{SpanFault, Word, WordFault, WordKind, spans, words};
use std::alloc::Global;
use std::process::Abort;
use std::test::Fail;

/// A letter for each word's kind and the bytes that it takes, as `N0-3 G3-4`.
fn shown(alloc: Global, found: &[Word]) -> Result<String, Fail> {
    let mut out = String::new(alloc);
    for word in found {
        let kind = match word.kind {
            WordKind::Name => "n",
            WordKind::Inflected => "i",
            WordKind::Number => "d",
            WordKind::Text => "t",
            WordKind::Graphic => "g",
            WordKind::Comment => "c",
        };
        if !out.is_empty() {
            out.push_str(" ")?;
        }
        let start = word.start;
        let end = word.end;
        out.push_str(format!(in alloc; "{kind}{start}-{end}")?.as_str())?;
    }
    Ok(out)
}

fn cut_bytes(alloc: Global, line: &[u8]) -> Result<String, Fail> {
    if line.len() > 65_536 {
        return Ok(format!(in alloc; "too long")?);
    }
    match words(alloc, line) {
        Ok(found) => shown(alloc, &found),
        Err(WordFault::OpenQuote { at }) => Ok(format!(in alloc; "open quote {at}")?),
        Err(WordFault::Spelling { at }) => Ok(format!(in alloc; "spelling {at}")?),
        Err(WordFault::IllFormed { at }) => Ok(format!(in alloc; "ill-formed {at}")?),
        Err(WordFault::NoMemory) => Ok(format!(in alloc; "no memory")?),
    }
}

fn cut(alloc: Global, line: &str) -> Result<String, Fail> {
    cut_bytes(alloc, line.as_bytes())
}

fn cut_spans(alloc: Global, text: &str) -> Result<String, Fail> {
    if text.len() > 65_536 {
        return Ok(format!(in alloc; "too long")?);
    }
    match spans(alloc, text.as_bytes()) {
        Ok(found) => shown(alloc, &found),
        Err(SpanFault::OpenQuote { at }) => Ok(format!(in alloc; "open quote {at}")?),
        Err(SpanFault::NoMemory) => Ok(format!(in alloc; "no memory")?),
    }
}

const NUMBERS: [(&str, &str); 26] = [
    ("", ""),
    (" \t ", ""),
    ("3 + 4", "d0-1 g2-3 d4-5"),
    ("1 2 \t3 x", "d0-6 n7-8"),
    ("_ _1", "d0-4"),
    ("1 2 3: 4", "d0-3 i4-6 d7-8"),
    ("007", "d0-3"),
    ("_9223372036854775808 9223372036854775807", "d0-40"),
    ("9223372036854775807 9223372036854775808", "ill-formed 20"),
    ("_9223372036854775809", "ill-formed 0"),
    ("3abc", "ill-formed 0"),
    ("1 3abc", "ill-formed 2"),
    ("1 2 3x 'a", "ill-formed 4"),
    ("__", "ill-formed 0"),
    ("1_000", "ill-formed 0"),
    ("5_", "ill-formed 0"),
    ("_a", "ill-formed 0"),
    ("3.", "ill-formed 0"),
    ("3 . 4", "spelling 2"),
    ("9:", "i0-2"),
    ("_9: 0:", "i0-3 i4-6"),
    ("3::", "i0-2 g2-3"),
    ("_0:", "spelling 0"),
    ("_:", "spelling 0"),
    ("10:", "spelling 0"),
    ("3a:", "spelling 0"),
];

const TEXTS: [(&str, &str); 13] = [
    ("'it''s'", "t0-7"),
    ("''''", "t0-4"),
    ("''", "t0-2"),
    ("'NB. x' y", "t0-7 n8-9"),
    ("'a''b'c", "t0-6 n6-7"),
    ("'it''s", "open quote 0"),
    ("a '''", "open quote 2"),
    ("NB. a 'b", "c0-8"),
    ("1 NB.x", "d0-1 c2-6"),
    ("NB", "n0-2"),
    ("NB..", "spelling 0"),
    ("NB.: x", "spelling 0"),
    ("aNB.", "spelling 0"),
];

const NAMES: [(&str, &str); 16] = [
    ("a_ =: 1", "spelling 0"),
    ("g.x 'a", "spelling 0"),
    ("a_b_c a1_2", "n0-5 n6-10"),
    ("a_b_ a__ a_b__ a_1_", "n0-4 n5-8 n9-14 n15-19"),
    ("a__b a__b__c a_b__c", "n0-4 n5-12 n13-19"),
    ("a__1", "spelling 0"),
    ("a___b", "spelling 0"),
    ("a___", "spelling 0"),
    ("a__b_", "spelling 0"),
    ("a__b__", "spelling 0"),
    ("a__b_c_", "spelling 0"),
    ("for_i. if.x", "i0-6 i7-10 n10-11"),
    ("for_i_.", "spelling 0"),
    ("for_.", "spelling 0"),
    ("for_a__b.", "spelling 0"),
    ("if:", "spelling 0"),
];

const BRACES_AND_SYMBOLS: [(&str, &str); 10] = [
    ("mean=:+/%#", "n0-4 g4-6 g6-7 g7-8 g8-9 g9-10"),
    ("{{ y }}", "g0-2 n3-4 g5-7"),
    ("{{{", "g0-2 g2-3"),
    ("{{.", "g0-1 g1-3"),
    ("{{::", "g0-1 g1-4"),
    ("}}:", "g0-1 g1-3"),
    (":::", "spelling 0"),
    ("=::", "spelling 0"),
    ("{..", "spelling 0"),
    ("a\n", "spelling 1"),
];

/// Cuts each line and compares what comes of it.
fn check(rt: &(impl Abort + AllocGlobal), table: &[(&str, &str)]) -> Result<(), Fail> {
    for (line, expected) in table {
        let found = cut(rt.alloc(), line)?;
        assert_eq!(rt; found.as_str(), *expected, "at {line}");
    }
    Ok(())
}

#[test]
fn lines_are_cut(rt: HostRuntime) -> Result<(), Fail> {
    check(&rt, &NUMBERS)?;
    check(&rt, &TEXTS)?;
    check(&rt, &NAMES)?;
    check(&rt, &BRACES_AND_SYMBOLS)
}

#[test]
fn texts_are_cut(rt: HostRuntime) -> Result<(), Fail> {
    let table = [
        ("", ""),
        ("3abc g.x", "d0-4 i5-7 n7-8"),
        ("to be or not", "n0-2 n3-5 n6-8 n9-12"),
        ("1 2a 3. _ x 4", "d0-9 n10-11 d12-13"),
        ("3:: 4", "i0-3 d4-5"),
        ("1.5:.x", "i0-5 n5-6"),
        ("a_ a__1 a..:", "n0-2 n3-7 i8-12"),
        ("a_ 'b", "open quote 3"),
        ("'it''s'+::.", "t0-7 g7-11"),
        ("NB. x\ny", "c0-7"),
        ("NB..x", "i0-4 n4-5"),
        ("x\ny", "n0-1 g1-2 n2-3"),
        ("\u{1}.{{:}}", "g0-2 g2-3 g3-5 g5-7"),
    ];
    for (text, expected) in table.iter() {
        let found = cut_spans(rt.alloc(), text)?;
        assert_eq!(rt; found.as_str(), *expected, "at {text}");
    }
    Ok(())
}

const SYMBOLS: &str =
    "= < <. <: > >. >: + +. +: * *. *: - -. -: % %: ^ | |. |: ~. ~: , ,. ,: ; ;: # #. #: ! $ /: \\: [ ] [: { {. {: {:: }. }: \": / /. \\ \\. ~ } \" ^: @ @: & &: &. &.: : :: ;. !: =. =: ( ) {{ }}";

const INFLECTED: &str =
    "e. i. i: I. L. T. t. a. a: _9: _8: _7: _6: _5: _4: _3: _2: _1: 0: 1: 2: 3: 4: 5: 6: 7: 8: 9: assert. break. case. catch. continue. do. else. elseif. end. fcase. for. for_i. if. return. select. try. while. whilst.";

#[test]
fn each_listed_word_is_one(rt: HostRuntime) -> Result<(), Fail> {
    for (list, letter) in [(SYMBOLS, "g"), (INFLECTED, "i")] {
        for word in list.split(' ') {
            let size = word.len();
            let expected = format!(in rt.alloc(); "{letter}0-{size}")?;
            assert_eq!(rt;
                cut(rt.alloc(), word)?.as_str(),
                expected.as_str(),
                "at {word}"
            );
        }
    }
    Ok(())
}

/// What a byte is that no other bytes stand around, and what it is behind a letter.
fn around_a_letter(byte: u8) -> (&'static str, &'static str) {
    match byte {
        b' ' | b'\t' => ("", "n0-1"),
        b'\'' => ("open quote 0", "open quote 1"),
        b'a'..=b'z' | b'A'..=b'Z' => ("n0-1", "n0-2"),
        b'0'..=b'9' => ("d0-1", "n0-2"),
        b'_' => ("d0-1", "spelling 0"),
        b'.' => ("spelling 0", "i0-2"),
        b':' => ("g0-1", "i0-2"),
        b'!' | b'"' | b'#' | b'$' | b'%' | b'&' | b'(' | b')' | b'*' | b'+' | b',' | b'-' | b'/' =>
            ("g0-1", "n0-1 g1-2"),
        b';' | b'<' | b'=' | b'>' | b'@' | b'[' | b'\\' | b']' | b'^' | b'{' | b'|' | b'}' | b'~' =>
            ("g0-1", "n0-1 g1-2"),
        _ => ("spelling 0", "spelling 1"),
    }
}

#[test]
fn each_byte_is_cut(rt: HostRuntime) -> Result<(), Fail> {
    for byte in 0..=255u8 {
        let (alone, behind) = around_a_letter(byte);
        assert_eq!(rt;
            cut_bytes(rt.alloc(), &[byte])?.as_str(),
            alone,
            "at {byte}"
        );
        assert_eq!(rt;
            cut_bytes(rt.alloc(), &[b'a', byte])?.as_str(),
            behind,
            "at a {byte}"
        );
    }
    Ok(())
}

#[test]
fn long_lines_are_cut(rt: HostRuntime) -> Result<(), Fail> {
    for (byte, count) in [
        (b'0', 1usize),
        (b'+', 65_536),
        (b'\'', 1),
        (b'a', 1),
        (b' ', 0),
    ] {
        let line = vec![in rt.alloc(); byte; 65_536]?;
        assert!(rt; line.len() <= 65_536);
        let found = words(rt.alloc(), &line).ok().ok_or("a fault")?;
        assert_eq!(rt; found.len(), count, "at {byte}");
    }
    Ok(())
}

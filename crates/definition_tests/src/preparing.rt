use jcontrol::{Act, Prepared};
use jexplicit::{Kind, Looping, prepared};
use std::alloc::Global;
use std::process::Abort;
use std::test::Fail;

fn kind_of(word: &str) -> Kind {
    match word {
        "if" => Kind::If,
        "elseif" => Kind::Elseif,
        "else" => Kind::Else,
        "do" => Kind::Do,
        "end" => Kind::End,
        "while" => Kind::Loop(Looping::While),
        "whilst" => Kind::Loop(Looping::Whilst),
        "for" => Kind::Loop(Looping::For),
        "select" => Kind::Select,
        "case" => Kind::Case { falls: false },
        "fcase" => Kind::Case { falls: true },
        "try" => Kind::Try,
        "catch" => Kind::Catch,
        "assert" => Kind::Assert,
        "break" => Kind::Break,
        "continue" => Kind::Continue,
        "return" => Kind::Return,
        _ => Kind::Sentence,
    }
}

fn kinds_of(alloc: Global, text: &str) -> Result<Vec<Kind>, Fail> {
    let mut kinds = Vec::new(alloc);
    for word in text.split(' ') {
        kinds.push(kind_of(word))?;
    }
    Ok(kinds)
}

fn act_shown(alloc: Global, act: Act) -> Result<String, Fail> {
    let shown = match act {
        Act::Sentence { number, test: None } => format!(in alloc; "s{number}")?,
        Act::Sentence {
            number,
            test: Some(test),
        } => format!(in alloc; "s{number}/{test}")?,
        Act::TestStart { word, to } => format!(in alloc; "start{word}>{to}")?,
        Act::Test { word, failed } => format!(in alloc; "test{word}!{failed}")?,
        Act::Assert(word) => format!(in alloc; "assert{word}")?,
        Act::Round(word) => format!(in alloc; "round{word}")?,
        Act::First {
            word,
            depth,
            failed,
        } => format!(in alloc; "first{word}.{depth}!{failed}")?,
        Act::Next {
            word,
            depth,
            held,
            failed,
        } => format!(in alloc; "next{word}.{depth}>{held}!{failed}")?,
        Act::Select(word) => format!(in alloc; "select{word}")?,
        Act::Case {
            word,
            select,
            failed,
        } => format!(in alloc; "case{word}.{select}!{failed}")?,
        Act::Go(to) => format!(in alloc; "go{to}")?,
        Act::Return => format!(in alloc; "return")?,
    };
    Ok(shown)
}

// Each word, and behind `^` the place that a fault goes to.
fn shown(alloc: Global, words: &[Prepared]) -> Result<String, Fail> {
    let mut out = String::new(alloc);
    for word in words {
        if !out.is_empty() {
            out.push_str(" ")?;
        }
        out.push_str(act_shown(alloc, word.act)?.as_str())?;
        if let Some(place) = word.catch {
            out.push_str(format!(in alloc; "^{place}")?.as_str())?;
        }
    }
    Ok(out)
}

fn laid(alloc: Global, text: &str) -> Result<String, Fail> {
    let kinds = kinds_of(alloc, text)?;
    if kinds.len() > 1_000_000 {
        return Ok(format!(in alloc; "too long")?);
    }
    match prepared(alloc, 1, &kinds)? {
        Some(words) => shown(alloc, &words),
        None => Ok(format!(in alloc; "refused")?),
    }
}

// Words are numbered from 1 on, prepared words from 0 on.
const BODIES: [(&str, &str); 9] = [
    ("s", "go1 s1 return"),
    (
        "if s do s else s end s",
        "go1 start1>2 s2/1 test1!6 s4 go7 s6 s8 return",
    ),
    (
        "if s do s elseif s do s end",
        "go1 start1>2 s2/1 test1!6 s4 go11 start5>7 s6/5 test5!11 s8 go11 return",
    ),
    (
        "whilst s do break s end",
        "go1 go4 s2/1 test1!8 round1 go8 s5 start1>2 return",
    ),
    (
        "for s do for s do continue end end",
        "go1 start1>2 s2/1 first1.0!10 start4>5 s5/4 first4.1!9 next4.1>7!9 next4.1>7!9 next1.0>4!10 return",
    ),
    (
        "select s case s do s fcase do s case do s end",
        "go1 start1>2 s2/1 select1 start3>5 s4/3 case3.1!9 s6 go13 s9 go11 s12 go13 return",
    ),
    ("try s catch s end", "go1 s2^3 go5 go4 s4 return"),
    ("assert s", "go1 start1>2 s2/1 assert1 return"),
    ("return s", "go1 return s2 return"),
];

#[test]
fn each_group_is_laid(rt: HostRuntime) -> Result<(), Fail> {
    for (text, wanted) in BODIES {
        assert_eq!(rt; laid(rt.alloc(), text)?.as_str(), wanted);
    }
    Ok(())
}

const FAULTS: [&str; 20] = [
    "end",
    "do s",
    "else",
    "elseif s do s end",
    "case s do s end",
    "catch",
    "if s do s",
    "if s end",
    "if s do s else s else s end",
    "if s do s else s elseif s do s end",
    "while s end",
    "for s do s end end",
    "select s end",
    "select s case s end",
    "try s end",
    "try s catch s",
    "break",
    "while break do s end",
    "assert",
    "assert if s do s end",
];

#[test]
fn what_is_no_body_is_refused(rt: HostRuntime) -> Result<(), Fail> {
    for text in FAULTS {
        assert_eq!(rt; laid(rt.alloc(), text)?.as_str(), "refused");
    }
    Ok(())
}

fn nested(alloc: Global, depth: usize, closed: usize) -> Result<Vec<Kind>, Fail> {
    let mut kinds = Vec::new(alloc);
    for _ in 0..depth {
        kinds.push(Kind::If)?;
    }
    for _ in 0..closed {
        kinds.push(Kind::Do)?;
        kinds.push(Kind::End)?;
    }
    Ok(kinds)
}

// How many prepared words there are.
fn size_of(alloc: Global, kinds: &[Kind]) -> Result<Option<usize>, Fail> {
    if kinds.len() > 1_000_000 {
        return Ok(None);
    }
    match prepared(alloc, 1, kinds)? {
        Some(words) => Ok(Some(words.len())),
        None => Ok(None),
    }
}

#[test]
fn groups_stand_in_groups_without_a_stack(rt: HostRuntime) -> Result<(), Fail> {
    let kinds = nested(rt.alloc(), 10_000, 10_000)?;
    assert!(rt; size_of(rt.alloc(), &kinds)? == Some(30_002));
    let unclosed = nested(rt.alloc(), 10_000, 9_999)?;
    assert!(rt; size_of(rt.alloc(), &unclosed)?.is_none());
    Ok(())
}

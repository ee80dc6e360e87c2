//! Sentences and what they print, worked by hand from the parsing table and the order of refusals.
ghost use Rattle.jeval.specs.Eval.{IsVerb};

use jarray::{Array, Room};
use jdata::{Bytes, Fault, Name, Path, Primitive};
use jeval::{Eval, EvalEnd, Shown};
use jterm::{Locative, Term};
use juses::{Cause, Halt, Reply, Solo, Use};
use std::alloc::Global;
use std::process::Abort;
use std::test::Fail;

const MANY: u64 = 10_000_000;

fn bytes(alloc: Global, text: &str) -> Result<Bytes, Fail> {
    Ok(Bytes::of(Vec::from_slice(alloc, text.as_bytes())?))
}

fn name(alloc: Global, text: &str) -> Result<Name, Fail> {
    Ok(Name::of(Vec::from_slice(alloc, text.as_bytes())?))
}

fn over(alloc: Global, solo: Solo, turns: u64) -> Result<Eval<Solo>, Fail> {
    match Eval::new(alloc, solo, Path::main(), 0, turns) {
        Ok(eval) => Ok(eval),
        Err(_) => Err(Fail::from("no evaluator")),
    }
}

fn begin(alloc: Global, turns: u64) -> Result<Eval<Solo>, Fail> {
    over(alloc, Solo::new(alloc, 0)?, turns)
}

fn run(eval: &mut Eval<Solo>, alloc: Global, line: &str) -> Result<Result<Shown, Halt>, Fail> {
    let line = bytes(alloc, line)?;
    Ok(eval.sentence(&[line]))
}

fn run_lines(eval: &mut Eval<Solo>, alloc: Global, script: &str) -> Result<(), Fail> {
    for line in script.lines() {
        if run(eval, alloc, line)?.is_err() {
            return Err(Fail::from("halt"));
        }
    }
    Ok(())
}

// `+` with so many bytes like this behind it.
fn plus_with(alloc: Global, byte: u8, count: usize) -> Result<Bytes, Fail> {
    let mut line = vec![in alloc; b'+']?;
    line.extend_from_slice(&vec![in alloc; byte; count]?)?;
    let mut eval = begin(alloc, MANY)?;
    let ran = eval.sentence(&[Bytes::of(line)]);
    let prints = eval.take_prints();
    eval.finish();
    match ran {
        Ok(_) => Ok(prints),
        Err(_) => Err(Fail::from("halt")),
    }
}

#[test]
fn the_deepest_term(rt: HostRuntime) -> Result<(), Fail> {
    assert_eq!(rt;
        plus_with(rt.alloc(), b'~', 199)?.items(),
        b"verb\n".as_slice()
    );
    let refused = plus_with(rt.alloc(), b'~', 200)?;
    assert!(rt; refused.items().starts_with(b"|limit error\n|   +~~~"));
    Ok(())
}

// Each fork takes two verbs more: 399 are 200 levels of a term.
#[test]
fn the_longest_train(rt: HostRuntime) -> Result<(), Fail> {
    assert_eq!(rt;
        plus_with(rt.alloc(), b'+', 398)?.items(),
        b"verb\n".as_slice()
    );
    for more in [400, 999] {
        let refused = plus_with(rt.alloc(), b'+', more)?;
        assert!(rt; refused.items().starts_with(b"|limit error\n|   ++++"));
    }
    Ok(())
}

fn prints_of_line(alloc: Global, line: Vec<u8>) -> Result<Bytes, Fail> {
    let mut eval = begin(alloc, 1)?;
    let ran = eval.sentence(&[Bytes::of(line)]);
    let prints = eval.take_prints();
    eval.finish();
    match ran {
        Ok(_) => Ok(prints),
        Err(_) => Err(Fail::from("halt")),
    }
}

#[test]
fn the_longest_line(rt: HostRuntime) -> Result<(), Fail> {
    let line = vec![in rt.alloc(); b'0'; 65_536]?;
    assert_eq!(rt;
        prints_of_line(rt.alloc(), line)?.items(),
        b"0\n".as_slice()
    );
    let longer = vec![in rt.alloc(); b'0'; 65_537]?;
    let refused = prints_of_line(rt.alloc(), longer)?;
    assert!(rt; refused.items().starts_with(b"|limit error\n|   0000"));
    assert_eq!(rt; refused.items().len(), 13 + 4 + 65_537 + 1);
    Ok(())
}

#[test]
fn parentheses_in_parentheses(rt: HostRuntime) -> Result<(), Fail> {
    let mut line = vec![in rt.alloc(); b'('; 300]?;
    line.push(b'1')?;
    line.extend_from_slice(&vec![in rt.alloc(); b')'; 300]?)?;
    let mut eval = begin(rt.alloc(), 300)?;
    let ran = eval.sentence(&[Bytes::of(line)]);
    let prints = eval.take_prints();
    eval.finish();
    assert_eq!(rt; ran, Ok(Shown::Printed));
    assert_eq!(rt; prints.items(), b"1\n".as_slice());
    Ok(())
}

fn apply(eval: &mut Eval<Solo>, verb: &Term, x: Option<i64>, y: i64) -> Result<Option<i64>, EvalEnd>
    requires { IsVerb verb.now }
{
    let x = match x {
        Some(number) => Some(Array::atom(number)),
        None => None,
    };
    match eval.apply(verb, x, Array::atom(y)) {
        Ok(value) => Ok(value.integer(&Room::none())),
        Err(end) => Err(end),
    }
}

fn apply_name(
    eval: &mut Eval<Solo>,
    alloc: Global,
    of: &str,
    x: Option<i64>,
) -> Result<Result<Option<i64>, EvalEnd>, Fail> {
    let name = name(alloc, of)?;
    let verb = Term::Name(Locative { name, place: None });
    Ok(apply(eval, &verb, x, 3))
}

fn apply_all(rt: &impl Abort, alloc: Global, eval: &mut Eval<Solo>) -> Result<(), Fail> {
    run_lines(eval, alloc, "n =: 5\ns =: -")?;
    for (of, x, wanted) in [
        ("s", None, Ok(Some(-3))),
        ("s", Some(10), Ok(Some(7))),
        ("t", None, Err(EvalEnd::Fault(Fault::Value))),
        ("n", None, Err(EvalEnd::Fault(Fault::Domain))),
        ("s", None, Err(EvalEnd::Fault(Fault::TimeLimit))),
        ("t", None, Err(EvalEnd::Fault(Fault::TimeLimit))),
    ] {
        assert_eq!(rt; apply_name(eval, alloc, of, x)?, wanted);
    }
    let minus = Term::Verb(Primitive::Minus);
    assert_eq!(rt; apply(eval, &minus, Some(2), 9), Ok(Some(-7)));
    Ok(())
}

// They have the turns that the last sentence left.
#[test]
fn applications_of_names(rt: HostRuntime) -> Result<(), Fail> {
    let mut eval = begin(rt.alloc(), 5)?;
    let ran = apply_all(&rt, rt.alloc(), &mut eval);
    eval.finish();
    ran
}

fn value_of(reply: Result<Reply, Halt>) -> Option<i64> {
    match reply {
        Ok(Reply::Named(Term::Noun(noun))) => noun.integer(),
        _ => None,
    }
}

fn ask_for(eval: &mut Eval<Solo>, alloc: Global, of: &str) -> Result<Option<i64>, Fail> {
    let from = name(alloc, "base")?;
    let name = name(alloc, of)?;
    Ok(value_of(eval.ask(Use::Read { from, name })))
}

fn ask_and_close(rt: &impl Abort, alloc: Global, eval: &mut Eval<Solo>) -> Result<(), Fail> {
    for (line, wanted) in [
        ("a =: 7", Ok(Shown::Silent)),
        ("a", Ok(Shown::Printed)),
        ("b", Ok(Shown::Faulted(Fault::Value))),
    ] {
        assert_eq!(rt; run(eval, alloc, line)?, wanted, "{line}");
    }
    assert_eq!(rt; ask_for(eval, alloc, "a")?, Some(7));
    assert_eq!(rt; ask_for(eval, alloc, "b")?, None);
    eval.close(Cause::WriteFault);
    eval.close(Cause::NoMemory);
    assert_eq!(rt;
        run(eval, alloc, "a")?,
        Err(Halt::Closed(Cause::WriteFault))
    );
    assert_eq!(rt; ask_for(eval, alloc, "a")?, None);
    Ok(())
}

#[test]
fn uses_and_a_closing(rt: HostRuntime) -> Result<(), Fail> {
    let mut eval = begin(rt.alloc(), 5)?;
    let ran = ask_and_close(&rt, rt.alloc(), &mut eval);
    let first = eval.take_prints();
    let second = eval.take_prints();
    let solo = eval.finish();
    assert_eq!(rt; first.items(), b"7\n|value error\n|   b\n".as_slice());
    assert!(rt; second.items().is_empty());
    assert_eq!(rt; solo.desk().closed(), Some(Cause::WriteFault));
    ran
}

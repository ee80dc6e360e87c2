use crate::callers::{ask, prints};
use crate::{Pass, SharedDesk};
use jdata::{Name, Path, Primitive, PyxId, Tree};
use jterm::Term;
use jturn::Turn;
use juses::{Cause, Ended, Halt, Reply, Use, Uses, Why, Work};
use std::alloc::Global;
use std::sync::Wait;
use std::test::Fail;

fn work(alloc: Global) -> Option<Work> {
    Some(Work {
        verb: Term::Verb(Primitive::Minus),
        x: None,
        y: Tree::atom(alloc, 7).ok()?,
        place: Name::of(Vec::from_slice(alloc, b"base").ok()?),
    })
}

// Starts a task in pool 0.
fn start<R: Wait>(uses: &mut Pass<'_, R>, alloc: Global) -> Option<PyxId> {
    let work = work(alloc)?;
    match &ask(uses, Use::Start { pool: 0, work }) {
        Ok(Reply::Pyx(pyx)) => Some(*pyx),
        _ => None,
    }
}

// Makes a thread in pool 0, and starts a task there.
fn start_by_a_thread<R: Wait>(uses: &mut Pass<'_, R>, alloc: Global) -> Option<PyxId> {
    if ask(uses, Use::MakeThread { pool: 0 }).is_err() {
        return None;
    }
    start(uses, alloc)
}

// Ends the task with this number.
fn end<R: Wait>(uses: &mut Pass<'_, R>, alloc: Global, task: Path, number: i64) -> bool {
    match Tree::atom(alloc, number) {
        Ok(value) => {
            let outcome = Ended::Value(value);
            uses.call(task, Use::End { outcome }).is_ok()
        }
        Err(_) => false,
    }
}

// Asks for a task, and ends it with this number if it was given.
fn run_due<R: Wait>(uses: &mut Pass<'_, R>, alloc: Global, why: Why, number: i64) -> bool {
    match &uses.due(Path::main(), why) {
        Ok(Some(given)) => end(uses, alloc, given.0, number),
        _ => false,
    }
}

fn opened<R: Wait>(uses: &mut Pass<'_, R>, pyx: PyxId) -> Option<i64> {
    match &ask(uses, Use::Open { pyx }) {
        Ok(Reply::Value(value)) => value.integer(),
        _ => None,
    }
}

#[test]
fn a_started_task_is_run_where_there_is_no_thread(rt: HostRuntime) -> Result<(), Fail> {
    let alloc = rt.alloc();
    let Ok((turn, pass)) = Turn::new(alloc, SharedDesk::new(alloc, 1)?, 1) else {
        panic!(rt; "memory");
    };
    let mut uses = Pass::new(&rt, &turn, pass, 0);
    let Some(pyx) = start(&mut uses, alloc) else {
        panic!(rt; "start");
    };
    assert!(rt; run_due(&mut uses, alloc, Why::Started(pyx), 1));
    assert_eq!(rt; opened(&mut uses, pyx), Some(1));
    Ok(())
}

#[test]
fn a_task_is_run_before_it_is_opened(rt: HostRuntime) -> Result<(), Fail> {
    let alloc = rt.alloc();
    let Ok((turn, pass)) = Turn::new(alloc, SharedDesk::new(alloc, 1)?, 1) else {
        panic!(rt; "memory");
    };
    let mut uses = Pass::new(&rt, &turn, pass, 0);
    let Some(pyx) = start_by_a_thread(&mut uses, alloc) else {
        panic!(rt; "start");
    };
    assert!(rt; !run_due(&mut uses, alloc, Why::Started(pyx), 1));
    assert!(rt; run_due(&mut uses, alloc, Why::Opening(pyx), 2));
    assert!(rt; !run_due(&mut uses, alloc, Why::Opening(pyx), 3));
    assert_eq!(rt; opened(&mut uses, pyx), Some(2));
    Ok(())
}

#[test]
fn a_task_that_waits_is_run_at_the_end(rt: HostRuntime) -> Result<(), Fail> {
    let alloc = rt.alloc();
    let Ok((turn, pass)) = Turn::new(alloc, SharedDesk::new(alloc, 1)?, 1) else {
        panic!(rt; "memory");
    };
    let mut uses = Pass::new(&rt, &turn, pass, 0);
    let Some(pyx) = start_by_a_thread(&mut uses, alloc) else {
        panic!(rt; "start");
    };
    assert!(rt; run_due(&mut uses, alloc, Why::Ending, 4));
    assert!(rt; !run_due(&mut uses, alloc, Why::Ending, 5));
    assert_eq!(rt; opened(&mut uses, pyx), Some(4));
    Ok(())
}

// Helps a new task, if it may, and leaves it unfinished.
fn helps<R: Wait>(uses: &mut Pass<'_, R>, alloc: Global) -> Option<Path> {
    let pyx = start(uses, alloc)?;
    match &uses.due(Path::main(), Why::Opening(pyx)) {
        Ok(Some(given)) => Some(given.0),
        _ => None,
    }
}

#[test]
fn eight_are_helped_and_no_ninth(rt: HostRuntime) -> Result<(), Fail> {
    let alloc = rt.alloc();
    let Ok((turn, pass)) = Turn::new(alloc, SharedDesk::new(alloc, 1)?, 1) else {
        panic!(rt; "memory");
    };
    let mut uses = Pass::new(&rt, &turn, pass, 0);
    let Some(first) = helps(&mut uses, alloc) else {
        panic!(rt; "the first");
    };
    for _ in 0..7 {
        assert!(rt; helps(&mut uses, alloc).is_some());
    }
    assert!(rt; helps(&mut uses, alloc).is_none());
    assert!(rt; end(&mut uses, alloc, first, 0));
    assert!(rt; helps(&mut uses, alloc).is_some());
    assert!(rt; helps(&mut uses, alloc).is_none());
    Ok(())
}

#[test]
fn a_closed_session_refuses(rt: HostRuntime) -> Result<(), Fail> {
    let alloc = rt.alloc();
    let Ok((turn, pass)) = Turn::new(alloc, SharedDesk::new(alloc, 1)?, 1) else {
        panic!(rt; "memory");
    };
    let mut uses = Pass::new(&rt, &turn, pass, 0);
    assert!(rt; ask(&mut uses, Use::Threads).is_ok());
    uses.close(Cause::NoMemory);
    let halt = ask(&mut uses, Use::Threads).err();
    assert_eq!(rt; halt, Some(Halt::Closed(Cause::NoMemory)));
    Ok(())
}

#[test]
fn what_was_printed_is_handed_out_once(rt: HostRuntime) -> Result<(), Fail> {
    let alloc = rt.alloc();
    let Ok((turn, pass)) = Turn::new(alloc, SharedDesk::new(alloc, 1)?, 1) else {
        panic!(rt; "memory");
    };
    let mut uses = Pass::new(&rt, &turn, pass, 0);
    assert!(rt; prints(&mut uses, alloc, b"ab"));
    assert_eq!(rt; uses.take_prints().items(), b"ab".as_slice());
    assert_eq!(rt; uses.take_prints().items().len(), 0);
    Ok(())
}

#[test]
fn two_passes_make_one_history(rt: HostRuntime) -> Result<(), Fail> {
    let alloc = rt.alloc();
    let Ok((turn, pass)) = Turn::new(alloc, SharedDesk::new(alloc, 1)?, 2) else {
        panic!(rt; "memory");
    };
    let (one, two) = turn.split(pass);
    let mut one = Pass::new(&rt, &turn, one, 0);
    let mut two = Pass::new(&rt, &turn, two, 1);
    assert!(rt; prints(&mut one, alloc, b"a"));
    assert!(rt; prints(&mut two, alloc, b"b"));
    assert!(rt; prints(&mut one, alloc, b"c"));
    assert_eq!(rt; one.take_prints().items(), b"abc".as_slice());
    assert!(rt; prints(&mut two, alloc, b"d"));
    let pass = turn.join(one.back(), two.back());
    let (shared, _seen) = turn.close(pass);
    let mut desk = shared.desk;
    assert_eq!(rt; desk.take_prints().items(), b"d".as_slice());
    Ok(())
}

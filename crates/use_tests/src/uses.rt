use jdata::{Bytes, Fault, Name, Path, Primitive, PyxId, Tree};
use jterm::Term;
use juses::{Cause, Desk, Ended, Halt, MutexId, Reply, Solo, Use, Uses, Why, Work};
use std::alloc::Global;
use std::test::Fail;

fn name(alloc: Global, text: &str) -> Result<Name, Fail> {
    Ok(Name::of(Vec::from_slice(alloc, text.as_bytes())?))
}

fn writing(alloc: Global, place: &str, of: &str, value: Term) -> Result<Use, Fail> {
    Ok(Use::Write {
        place: name(alloc, place)?,
        name: name(alloc, of)?,
        value,
    })
}

fn reading(alloc: Global, from: &str, of: &str) -> Result<Use, Fail> {
    Ok(Use::Read {
        from: name(alloc, from)?,
        name: name(alloc, of)?,
    })
}

fn printing(alloc: Global, text: &str) -> Result<Use, Fail> {
    Ok(Use::Print {
        bytes: Bytes::of(Vec::from_slice(alloc, text.as_bytes())?),
    })
}

fn number(alloc: Global, value: i64) -> Result<Term, Fail> {
    Ok(Term::Noun(Tree::atom(alloc, value)?))
}

// what a name stands for: a number, a verb, or a name
#[derive(Clone, Copy, Debug, PartialEq, Eq)]
enum Meaning {
    Nothing,
    Number(i64),
    Verb,
    Reference,
    Other,
}

fn found(reply: Reply) -> Meaning {
    match reply {
        Reply::Nothing => Meaning::Nothing,
        Reply::Named(Term::Noun(noun)) => match noun.integer() {
            Some(value) => Meaning::Number(value),
            None => Meaning::Other,
        },
        Reply::Named(Term::Verb(_)) => Meaning::Verb,
        Reply::Named(Term::Name(_)) => Meaning::Reference,
        _ => Meaning::Other,
    }
}

fn is_done(reply: Reply) -> bool {
    matches!(&reply, Reply::Done)
}

fn halted(answer: Result<Reply, Halt>) -> Option<Halt> {
    match answer {
        Ok(_) => None,
        Err(halt) => Some(halt),
    }
}

fn halt(halt: Halt) -> Fail {
    match halt {
        Halt::Wait => Fail::from("wait"),
        Halt::NoMemory => Fail::from("no memory"),
        Halt::Closed(_) => Fail::from("closed"),
    }
}

fn write(desk: &mut Desk, alloc: Global, place: &str, of: &str, value: i64) -> Result<bool, Fail> {
    let asked = writing(alloc, place, of, number(alloc, value)?)?;
    match desk.answer(Path::main(), 0, asked) {
        Ok(reply) => Ok(is_done(reply)),
        Err(why) => Err(halt(why)),
    }
}

fn read(desk: &mut Desk, alloc: Global, from: &str, of: &str) -> Result<Meaning, Fail> {
    match desk.answer(Path::main(), 0, reading(alloc, from, of)?) {
        Ok(reply) => Ok(found(reply)),
        Err(why) => Err(halt(why)),
    }
}

#[test]
fn names_are_sought_in_their_locale_and_then_in_z(rt: HostRuntime) -> Result<(), Fail> {
    let mut desk = Desk::new(rt.alloc(), 0)?;
    for (place, of, value) in [
        ("base", "b", 1),
        ("z", "c", 30),
        ("base", "b", 2),
        ("z", "b", 6),
    ] {
        assert!(rt; write(&mut desk, rt.alloc(), place, of, value)?);
    }
    for (from, of, wanted) in [
        ("base", "a", Meaning::Nothing),
        ("base", "b", Meaning::Number(2)),
        ("z", "b", Meaning::Number(6)),
        ("base", "c", Meaning::Number(30)),
        ("nowhere", "b", Meaning::Number(6)),
        ("base", "bb", Meaning::Nothing),
    ] {
        assert_eq!(rt; read(&mut desk, rt.alloc(), from, of)?, wanted);
    }
    Ok(())
}

fn print(solo: &mut Solo, alloc: Global, text: &str) -> Result<bool, Fail> {
    match solo.call(Path::main(), printing(alloc, text)?) {
        Ok(reply) => Ok(is_done(reply)),
        Err(why) => Err(halt(why)),
    }
}

#[test]
fn prints_are_handed_out_once_and_in_order(rt: HostRuntime) -> Result<(), Fail> {
    let mut solo = Solo::new(rt.alloc(), 0)?;
    assert!(rt; print(&mut solo, rt.alloc(), "one ")?);
    assert!(rt; print(&mut solo, rt.alloc(), "two")?);
    assert_eq!(rt; solo.take_prints().items(), b"one two".as_slice());
    assert_eq!(rt; solo.take_prints().items(), b"".as_slice());
    Ok(())
}

#[test]
fn a_closed_desk_answers_its_first_cause(rt: HostRuntime) -> Result<(), Fail> {
    let mut solo = Solo::new(rt.alloc(), 0)?;
    solo.close(Cause::NoMemory);
    solo.close(Cause::WriteFault);
    assert_eq!(rt; solo.desk().closed(), Some(Cause::NoMemory));
    let answer = solo.call(Path::main(), reading(rt.alloc(), "base", "a")?);
    assert_eq!(rt; halted(answer), Some(Halt::Closed(Cause::NoMemory)));
    Ok(())
}

// an activity by the numbers of its path: 0 for main, 1 for its first task, 12 for the second task of that
fn activity(digits: u32) -> Path {
    let mut path = Path::main();
    for place in [1000, 100, 10, 1] {
        let number = digits / place % 10;
        if number > 0 {
            path = path.child(number).unwrap_or(path);
        }
    }
    path
}

fn pyx(maker: u32, number: u32) -> PyxId {
    PyxId {
        path: activity(maker),
        number,
    }
}

fn mutex(maker: u32, number: u32) -> MutexId {
    MutexId {
        path: activity(maker),
        number,
    }
}

// the numbers of a path as the digits of one
fn digits(path: &Path) -> u32 {
    let mut digits: u32 = 0;
    for &number in path.parts() {
        digits = digits.saturating_mul(10).saturating_add(number);
    }
    digits
}

// a use; pyxes and mutexes by their makers and numbers, and 0 for the pyx of the task
#[derive(Clone, Copy, Debug)]
enum Asked {
    Start(u8),
    Begin,
    End(i64),
    Fail,
    Open(u32, u32),
    MakePyx,
    Set(u32, u32, i64),
    MakeMutex,
    Lock(u32, u32),
    Unlock(u32, u32),
    MakeThread(u8),
    Threads,
    PoolState(u8),
    Current,
}

fn work(alloc: Global) -> Result<Work, Fail> {
    Ok(Work {
        verb: Term::Verb(Primitive::Minus),
        x: None,
        y: Tree::atom(alloc, 7)?,
        place: name(alloc, "base")?,
    })
}

fn asking(alloc: Global, asked: Asked) -> Result<Use, Fail> {
    Ok(match asked {
        Asked::Start(pool) => Use::Start {
            pool,
            work: work(alloc)?,
        },
        Asked::Begin => Use::Begin,
        Asked::End(value) => Use::End {
            outcome: Ended::Value(Tree::atom(alloc, value)?),
        },
        Asked::Fail => Use::End {
            outcome: Ended::Raised(Fault::Rank),
        },
        Asked::Open(maker, number) => Use::Open {
            pyx: pyx(maker, number),
        },
        Asked::MakePyx => Use::MakePyx,
        Asked::Set(maker, number, value) => Use::SetPyx {
            pyx: pyx(maker, number),
            outcome: Ended::Value(Tree::atom(alloc, value)?),
        },
        Asked::MakeMutex => Use::MakeMutex,
        Asked::Lock(maker, number) => Use::Lock {
            mutex: mutex(maker, number),
        },
        Asked::Unlock(maker, number) => Use::Unlock {
            mutex: mutex(maker, number),
        },
        Asked::MakeThread(pool) => Use::MakeThread { pool },
        Asked::Threads => Use::Threads,
        Asked::PoolState(pool) => Use::PoolState { pool },
        Asked::Current => Use::Current,
    })
}

#[derive(Clone, Copy, Debug, PartialEq, Eq)]
enum Said {
    Done,
    Waits,
    Value(i64),
    Pyx(u32, u32),
    Mutex(u32, u32),
    Number(i64),
    Pool(u32, u32, u32),
    Refused(Fault),
    Other,
}

fn heard(answer: Result<Reply, Halt>) -> Said {
    match answer {
        Ok(Reply::Done) => Said::Done,
        Ok(Reply::Value(value)) => match value.integer() {
            Some(number) => Said::Value(number),
            None => Said::Other,
        },
        Ok(Reply::Pyx(pyx)) => Said::Pyx(digits(&pyx.path), pyx.number),
        Ok(Reply::Mutex(mutex)) => Said::Mutex(digits(&mutex.path), mutex.number),
        Ok(Reply::Number(number)) => Said::Number(number),
        Ok(
            Reply::Pool {
                idle,
                unfinished,
                threads,
            },
        ) => Said::Pool(idle, unfinished, threads),
        Ok(Reply::Refused(fault)) => Said::Refused(fault),
        Ok(_) => Said::Other,
        Err(Halt::Wait) => Said::Waits,
        Err(_) => Said::Other,
    }
}

// who asks on which thread, and what is replied
type Row = (u32, u16, Asked, Said);

fn replied(
    alloc: Global,
    desk: &mut Desk,
    who: u32,
    thread: u16,
    asked: Asked,
) -> Result<Said, Fail> {
    let asked = asking(alloc, asked)?;
    let copy = desk.copy_use(&asked)?;
    Ok(heard(desk.answer(activity(who), thread, copy)))
}

fn is_replied(alloc: Global, desk: &mut Desk, row: &Row) -> Result<bool, Fail> {
    let said = replied(alloc, desk, row.0, row.1, row.2)?;
    Ok(said == row.3)
}

// the first row that is not replied so
fn first_wrong(alloc: Global, desk: &mut Desk, rows: &[Row]) -> Result<Option<usize>, Fail> {
    for (at, row) in rows.iter().enumerate() {
        if !is_replied(alloc, desk, row)? {
            return Ok(Some(at));
        }
    }
    Ok(None)
}

const THREADS_AND_POOLS: [Row; 12] = [
    (0, 0, Asked::Threads, Said::Number(0)),
    (0, 0, Asked::MakeThread(2), Said::Number(1)),
    (0, 0, Asked::MakeThread(2), Said::Refused(Fault::Limit)),
    (0, 0, Asked::Threads, Said::Number(1)),
    (0, 0, Asked::PoolState(2), Said::Pool(1, 0, 1)),
    (0, 0, Asked::PoolState(0), Said::Pool(0, 0, 0)),
    (0, 0, Asked::Current, Said::Number(0)),
    (1, 1, Asked::Begin, Said::Waits),
    (0, 0, Asked::Start(2), Said::Pyx(1, 0)),
    (0, 0, Asked::Start(2), Said::Pyx(2, 0)),
    (0, 0, Asked::PoolState(2), Said::Pool(1, 2, 1)),
    (1, 1, Asked::End(5), Said::Waits),
];

const TASKS: [Row; 14] = [
    (1, 1, Asked::Begin, Said::Done),
    (1, 1, Asked::Begin, Said::Waits),
    (0, 0, Asked::PoolState(2), Said::Pool(0, 2, 1)),
    (1, 1, Asked::Start(0), Said::Pyx(11, 0)),
    (1, 1, Asked::Current, Said::Number(1)),
    (0, 0, Asked::Open(1, 0), Said::Waits),
    (1, 1, Asked::End(5), Said::Done),
    (1, 1, Asked::End(6), Said::Waits),
    (0, 0, Asked::Open(1, 0), Said::Value(5)),
    (0, 0, Asked::PoolState(2), Said::Pool(1, 1, 1)),
    (2, 0, Asked::Begin, Said::Done),
    (2, 0, Asked::Fail, Said::Done),
    (0, 0, Asked::Open(2, 0), Said::Refused(Fault::Rank)),
    (1111, 0, Asked::Start(0), Said::Refused(Fault::Limit)),
];

const PYXES: [Row; 9] = [
    (0, 0, Asked::MakePyx, Said::Pyx(0, 1)),
    (11, 0, Asked::MakePyx, Said::Pyx(11, 1)),
    (0, 0, Asked::Open(0, 1), Said::Waits),
    (0, 0, Asked::Set(0, 2, 3), Said::Refused(Fault::Domain)),
    (0, 0, Asked::Set(1, 0, 3), Said::Refused(Fault::Domain)),
    (11, 0, Asked::Set(0, 1, 3), Said::Done),
    (0, 0, Asked::Set(0, 1, 4), Said::Refused(Fault::Concurrency)),
    (0, 0, Asked::Open(0, 1), Said::Value(3)),
    (0, 0, Asked::Open(11, 1), Said::Waits),
];

const MUTEXES: [Row; 12] = [
    (0, 0, Asked::MakeMutex, Said::Mutex(0, 1)),
    (0, 0, Asked::MakeMutex, Said::Mutex(0, 2)),
    (0, 0, Asked::Lock(0, 3), Said::Refused(Fault::Domain)),
    (0, 0, Asked::Unlock(0, 3), Said::Refused(Fault::Domain)),
    (0, 0, Asked::Unlock(0, 1), Said::Refused(Fault::Concurrency)),
    (0, 0, Asked::Lock(0, 1), Said::Done),
    (0, 0, Asked::Lock(0, 1), Said::Refused(Fault::Concurrency)),
    (11, 0, Asked::Lock(0, 1), Said::Waits),
    (
        11,
        0,
        Asked::Unlock(0, 1),
        Said::Refused(Fault::Concurrency),
    ),
    (11, 0, Asked::Lock(0, 2), Said::Done),
    (0, 0, Asked::Unlock(0, 1), Said::Done),
    (11, 0, Asked::Lock(0, 1), Said::Done),
];

// one desk with one worker, asked row by row
#[test]
fn each_row_of_the_desks_table_is_replied(rt: HostRuntime) -> Result<(), Fail> {
    let mut desk = Desk::new(rt.alloc(), 1)?;
    assert_eq!(rt;
        first_wrong(rt.alloc(), &mut desk, &THREADS_AND_POOLS)?,
        None
    );
    assert_eq!(rt; first_wrong(rt.alloc(), &mut desk, &TASKS)?, None);
    assert_eq!(rt; first_wrong(rt.alloc(), &mut desk, &PYXES)?, None);
    assert_eq!(rt; first_wrong(rt.alloc(), &mut desk, &MUTEXES)?, None);
    assert_eq!(rt; desk.tasks(), 3);
    Ok(())
}

#[test]
fn a_session_hands_out_a_task_once_and_is_closed_where_it_waits(
    rt: HostRuntime,
) -> Result<(), Fail> {
    let mut solo = Solo::new(rt.alloc(), 0)?;
    let started = solo.call(Path::main(), asking(rt.alloc(), Asked::Start(0))?);
    assert_eq!(rt; heard(started), Said::Pyx(1, 0));
    for (why, wanted) in [
        (Why::Ending, Some(Halt::Wait)),
        (Why::Started(pyx(1, 0)), None),
        (Why::Started(pyx(1, 0)), None),
        (Why::Opening(pyx(1, 0)), None),
        (Why::Working(0), None),
    ] {
        match solo.due(Path::main(), why) {
            Ok(_) => assert_eq!(rt; None, wanted),
            Err(halt) => assert_eq!(rt; Some(halt), wanted),
        }
    }
    let opened = solo.call(Path::main(), asking(rt.alloc(), Asked::Open(1, 0))?);
    assert_eq!(rt; heard(opened), Said::Waits);
    assert_eq!(rt; solo.desk().closed(), Some(Cause::Stuck));
    Ok(())
}

// a task that is asked for, by its starter and number
#[derive(Clone, Copy, Debug)]
enum Sought {
    Started(u32, u32),
    Opening(u32, u32),
    Working(u16),
    Ending,
}

fn why(sought: Sought) -> Why {
    match sought {
        Sought::Started(maker, number) => Why::Started(pyx(maker, number)),
        Sought::Opening(maker, number) => Why::Opening(pyx(maker, number)),
        Sought::Working(thread) => Why::Working(thread),
        Sought::Ending => Why::Ending,
    }
}

#[derive(Clone, Copy, Debug, PartialEq, Eq)]
enum Given {
    Task(u32),
    Nothing,
    Waits,
    Refused,
}

fn handed(answer: Result<Option<(Path, Work)>, Halt>) -> Given {
    match answer {
        Ok(Some((task, _))) => Given::Task(digits(&task)),
        Ok(None) => Given::Nothing,
        Err(Halt::Wait) => Given::Waits,
        Err(_) => Given::Refused,
    }
}

// on which thread, what is asked for, and what is given
type Handing = (u16, Sought, Given);

// the first that is not given so
fn first_not_given(desk: &mut Desk, rows: &[Handing]) -> Option<usize> {
    for (at, row) in rows.iter().enumerate() {
        if handed(desk.begin(row.0, why(row.1))) != row.2 {
            return Some(at);
        }
    }
    None
}

const STARTS: [Row; 5] = [
    (0, 0, Asked::MakeThread(2), Said::Number(1)),
    (0, 0, Asked::Start(2), Said::Pyx(1, 0)),
    (0, 0, Asked::Start(2), Said::Pyx(2, 0)),
    (0, 0, Asked::Start(0), Said::Pyx(3, 0)),
    (0, 0, Asked::Start(0), Said::Pyx(4, 0)),
];

const HANDINGS: [Handing; 12] = [
    (0, Sought::Started(1, 0), Given::Nothing),
    (0, Sought::Started(3, 1), Given::Nothing),
    (0, Sought::Started(3, 0), Given::Task(3)),
    (0, Sought::Started(3, 0), Given::Nothing),
    (0, Sought::Working(0), Given::Nothing),
    (0, Sought::Working(2), Given::Nothing),
    (1, Sought::Working(1), Given::Task(1)),
    (0, Sought::Opening(2, 0), Given::Task(2)),
    (0, Sought::Opening(2, 0), Given::Nothing),
    (1, Sought::Working(1), Given::Nothing),
    (0, Sought::Ending, Given::Task(4)),
    (0, Sought::Ending, Given::Waits),
];

const ENDS: [Row; 4] = [
    (1, 1, Asked::End(5), Said::Done),
    (2, 0, Asked::End(5), Said::Done),
    (3, 0, Asked::End(5), Said::Done),
    (4, 0, Asked::End(5), Said::Done),
];

// one thread in pool 2: tasks 1 and 2 are of that pool, 3 and 4 of one without threads
#[test]
fn a_waiting_task_is_handed_out_to_whom_it_is_due(rt: HostRuntime) -> Result<(), Fail> {
    let mut desk = Desk::new(rt.alloc(), 1)?;
    assert_eq!(rt; first_wrong(rt.alloc(), &mut desk, &STARTS)?, None);
    assert_eq!(rt; first_not_given(&mut desk, &HANDINGS), None);
    assert_eq!(rt; first_wrong(rt.alloc(), &mut desk, &ENDS)?, None);
    assert_eq!(rt; handed(desk.begin(0, Why::Ending)), Given::Nothing);
    desk.close(Cause::NoMemory);
    assert_eq!(rt; handed(desk.begin(0, Why::Ending)), Given::Refused);
    Ok(())
}

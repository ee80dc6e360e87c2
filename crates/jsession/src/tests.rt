//! Scripts over sources and sinks that fail, and what was written then.
ghost use Rattle.std.specs.Prelude.{◌≤◌};

use crate::{Status, run};
use jdata::Path;
use jeval::Eval;
use jio::{MemSink, MemSource};
use juses::Solo;
use std::alloc::Global;
use std::test::Fail;

#[derive(Drop)]
struct Ran {
    status: Status,
    written: Vec<u8>,
}

// Runs a script read `most` bytes a call; the calls of source and sink with the given number fail, 0 being none.
fn run_script(
    alloc: Global,
    script: &[u8],
    most: usize,
    bad_read: u64,
    bad_write: u64,
) -> Result<Ran, Fail>
    requires { 1 ≤ most }
{
    let bytes = Vec::from_slice(alloc, script)?;
    let mut source = MemSource::new(bytes, most, Vec::from_slice(alloc, &[bad_read])?);
    let mut sink = MemSink::new(alloc, Vec::from_slice(alloc, &[bad_write])?);
    let status = run_over(alloc, Solo::new(alloc, 0)?, &mut source, &mut sink);
    Ok(Ran {
        status,
        written: Vec::from_slice(alloc, sink.taken())?,
    })
}

fn run_over(alloc: Global, solo: Solo, source: &mut MemSource, sink: &mut MemSink) -> Status {
    match Eval::new(alloc, solo, Path::main(), 0, 1000) {
        Ok(eval) => {
            let mut eval = eval;
            let status = run(alloc, &mut eval, source, sink);
            let _solo = eval.finish();
            status
        }
        Err(_) => Status::NoMemory,
    }
}

#[test]
fn scripts_and_their_ends(rt: HostRuntime) -> Result<(), Fail> {
    // the script, the bytes of a read, the read and the write that fail, the status, and what was written
    let rows = [
        ("a =: 3\n\n \t \na\n", 64, 0, 0, Status::Done, "3\n"),
        ("1\n2\n3", 1, 0, 0, Status::Done, "1\n2\n3\n"),
        // a read fault within the second line, and behind its end
        ("1\n2\n3\n", 1, 4, 0, Status::ReadFault, "1\n"),
        ("1\n2\n3\n", 1, 5, 0, Status::ReadFault, "1\n2\n"),
        ("1\n2\n3\n", 1, 1, 0, Status::ReadFault, ""),
        // each write of three
        ("1\n2\n3\n", 64, 0, 1, Status::WriteFault, ""),
        ("1\n2\n3\n", 64, 0, 2, Status::WriteFault, "1\n"),
        ("1\n2\n3\n", 64, 0, 3, Status::WriteFault, "1\n2\n"),
        ("1\n2\n3\n", 64, 0, 4, Status::Done, "1\n2\n3\n"),
        // both
        ("1\n2\n3\n", 1, 5, 2, Status::WriteFault, "1\n"),
        // a fault doesn't end the session, and a silent sentence isn't written
        (
            "x\ny =: 1\n1\n",
            64,
            0,
            2,
            Status::WriteFault,
            "|value error\n|   x\n",
        ),
    ];
    for (script, most, bad_read, bad_write, status, written) in rows {
        let session = run_script(rt.alloc(), script.as_bytes(), most, bad_read, bad_write)?;
        assert_eq!(rt; session.status, status, "{script}");
        assert_eq!(rt; session.written.as_slice(), written.as_bytes(), "{script}");
    }
    Ok(())
}

#[test]
fn a_line_too_long_between_others(rt: HostRuntime) -> Result<(), Fail> {
    let long = vec![in rt.alloc(); b' '; 65_537]?;
    let mut script = Vec::from_slice(rt.alloc(), b"1\n")?;
    script.extend_from_slice(&long)?;
    script.extend_from_slice(b"\n2\n")?;
    let session = run_script(rt.alloc(), &script, 65_536, 0, 0)?;
    assert_eq!(rt; session.status, Status::Done);
    assert_eq!(rt;
        session.written.as_slice(),
        b"1\n|limit error\n|   \n2\n".as_slice()
    );
    Ok(())
}

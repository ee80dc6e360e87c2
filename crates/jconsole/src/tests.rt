//! Scripts and what they print, with statuses: what a J user and the session's rules expect.
ghost use Rattle.std.specs.Prelude.{◌≤◌};

use crate::{exit_code, message, run_solo};
use jio::{MemSink, MemSource};
use jsession::Status;
use std::alloc::Global;
use std::test::Fail;

#[derive(Drop)]
struct Session {
    status: Status,
    printed: Vec<u8>,
    left: usize,
}

// Runs a script read `most` bytes a call; the calls of source and sink with the given number fail, 0 being none.
fn run_script(
    alloc: Global,
    script: &[u8],
    most: usize,
    bad_read: u64,
    bad_write: u64,
) -> Result<Session, Fail>
    requires { 1 ≤ most }
{
    let bytes = Vec::from_slice(alloc, script)?;
    let mut source = MemSource::new(bytes, most, Vec::from_slice(alloc, &[bad_read])?);
    let mut sink = MemSink::new(alloc, Vec::from_slice(alloc, &[bad_write])?);
    let outcome = run_solo(alloc, &[], &mut source, &mut sink);
    Ok(Session {
        status: outcome.status,
        printed: Vec::from_slice(alloc, sink.taken())?,
        left: source.left().len(),
    })
}

#[test]
fn faults_of_the_outside(rt: HostRuntime) -> Result<(), Fail> {
    let cut = run_script(rt.alloc(), b"1\n2\n", 64, 0, 2)?;
    assert_eq!(rt; cut.status, Status::WriteFault);
    assert_eq!(rt; cut.printed.as_slice(), b"1\n".as_slice());
    let unwritten = run_script(rt.alloc(), b"1\n2\n", 64, 0, 1)?;
    assert_eq!(rt; unwritten.status, Status::WriteFault);
    assert!(rt; unwritten.printed.is_empty());
    let unread = run_script(rt.alloc(), b"1\n2\n", 64, 1, 0)?;
    assert_eq!(rt; unread.status, Status::ReadFault);
    assert!(rt; unread.printed.is_empty());
    assert_eq!(rt; unread.left, 4);
    let late = run_script(rt.alloc(), b"1\n2\n", 1, 4, 0)?;
    assert_eq!(rt; late.status, Status::ReadFault);
    assert_eq!(rt; late.printed.as_slice(), b"1\n".as_slice());
    let good = run_script(rt.alloc(), b"1\n2\n", 64, 3, 3)?;
    assert_eq!(rt; good.status, Status::Done);
    assert_eq!(rt; good.printed.as_slice(), b"1\n2\n".as_slice());
    Ok(())
}

#[test]
fn words_are_refused(rt: HostRuntime) -> Result<(), Fail> {
    let mut source = MemSource::new(
        Vec::from_slice(rt.alloc(), b"1\n")?,
        64,
        Vec::new(rt.alloc()),
    );
    let mut sink = MemSink::new(rt.alloc(), Vec::new(rt.alloc()));
    let words = [String::from_str(rt.alloc(), "--help")?];
    assert_eq!(rt;
        run_solo(rt.alloc(), &words, &mut source, &mut sink).status,
        Status::Usage
    );
    assert_eq!(rt; source.left().len(), 2);
    assert!(rt; sink.taken().is_empty());
    Ok(())
}

#[test]
fn the_greatest_script_and_line(rt: HostRuntime) -> Result<(), Fail> {
    let mut script = vec![in rt.alloc(); b'\n'; 16_777_216]?;
    let whole = run_script(rt.alloc(), &script, 1_000_000, 0, 0)?;
    assert_eq!(rt; whole.status, Status::Done);
    assert!(rt; whole.printed.is_empty());
    script.push(b'\n')?;
    let long = run_script(rt.alloc(), &script, 1_000_000, 0, 0)?;
    assert_eq!(rt; long.status, Status::TooLong);
    assert!(rt; long.printed.is_empty());
    let mut line = vec![in rt.alloc(); b'0'; 65_536]?;
    assert_eq!(rt;
        run_script(rt.alloc(), &line, 65_536, 0, 0)?
            .printed
            .as_slice(),
        b"0\n".as_slice()
    );
    line.push(b'0')?;
    let refused = run_script(rt.alloc(), &line, 65_536, 0, 0)?.printed;
    assert!(rt; refused.as_slice().starts_with(b"|limit error\n|   0000"));
    assert_eq!(rt; refused.len(), 13 + 4 + 65_537 + 1);
    Ok(())
}

// Why a byte is no sentence by itself.
fn why_refused(byte: u8) -> &'static str {
    match byte {
        b'A'..=b'Z' | b'a'..=b'z' => "value error",
        b'(' | b')' => "syntax error",
        b'\'' => "open quote",
        b'_' => "nonce error",
        _ => "spelling error",
    }
}

fn fault_of_byte(alloc: Global, byte: u8) -> Result<Vec<u8>, Fail> {
    let mut fault = Vec::from_slice(alloc, b"|")?;
    fault.extend_from_slice(why_refused(byte).as_bytes())?;
    fault.extend_from_slice(b"\n|   ")?;
    fault.extend_from_slice(&[byte, b'\n'])?;
    Ok(fault)
}

#[test]
fn every_byte_alone(rt: HostRuntime) -> Result<(), Fail> {
    for byte in 0..=255u8 {
        let run = run_script(rt.alloc(), &[byte, b'\n'], 64, 0, 0)?;
        assert_eq!(rt; run.status, Status::Done);
        let wanted = match byte {
            b' ' | b'\t' | b'\r' | b'\n' => Vec::new(rt.alloc()),
            b'0'..=b'9' => Vec::from_slice(rt.alloc(), &[byte, b'\n'])?,
            b'+'
            | b'-'
            | b'*'
            | b'%'
            | b'|'
            | b'^'
            | b'!'
            | b'<'
            | b'>'
            | b'='
            | b','
            | b';'
            | b'#'
            | b'$'
            | b'['
            | b']'
            | b'{' => Vec::from_slice(rt.alloc(), b"verb\n")?,
            b'}' | b'/' | b'\\' | b'~' => Vec::from_slice(rt.alloc(), b"adverb\n")?,
            b'"' | b'@' | b'&' | b':' => Vec::from_slice(rt.alloc(), b"conjunction\n")?,
            _ => fault_of_byte(rt.alloc(), byte)?,
        };
        assert_eq!(rt; run.printed.as_slice(), wanted.as_slice(), "byte {byte}");
    }
    Ok(())
}

#[test]
fn statuses(rt: HostRuntime) {
    let rows = [
        (Status::Done, 0, None),
        (Status::Usage, 1, Some("usage")),
        (Status::ReadFault, 2, Some("read fault")),
        (Status::WriteFault, 3, Some("write fault")),
        (Status::NoMemory, 4, Some("no memory")),
        (Status::TooLong, 7, Some("script too long")),
    ];
    for (status, code, text) in rows {
        assert_eq!(rt; exit_code(status), code);
        assert_eq!(rt; message(status), text);
    }
}

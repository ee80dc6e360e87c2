//! What no clause says: that calls succeed where memory is ample, and what std's readers and writers meet.
use crate::{Got, MemSink, MemSource, Sent, Sink, Source, StdSink, StdSource};
use std::io::{self, Read, Write};
use std::test::Fail;

// A reader that fails at its second call.
#[derive(Drop)]
struct Broken {
    calls: u8,
}

impl Read for Broken {
    fn read(&mut self, buf: &mut [u8]) -> io::Result<usize> {
        self.calls = self.calls.saturating_add(1);
        if self.calls == 2 || buf.is_empty() {
            return Err(io::ErrorKind::Other.into());
        }
        buf[0] = b'x';
        Ok(1)
    }
}

// A writer that takes two bytes a call, and nothing from its third call on.
#[derive(Drop)]
struct Short<'a> {
    taken: &'a mut Vec<u8>,
    calls: u8,
}

impl Write for Short<'_> {
    fn write(&mut self, buf: &[u8]) -> io::Result<usize> {
        self.calls = self.calls.saturating_add(1);
        if self.calls >= 3 {
            return Ok(0);
        }
        let count = buf.len().min(2);
        self.taken.extend_from_slice(&buf[..count])?;
        Ok(count)
    }

    fn flush(&mut self) -> io::Result<()> {
        Ok(())
    }
}

// A writer whose bytes are there once they are flushed.
#[derive(Drop)]
struct Late<'a> {
    held: Vec<u8>,
    there: &'a mut Vec<u8>,
}

impl Write for Late<'_> {
    fn write(&mut self, buf: &[u8]) -> io::Result<usize> {
        self.held.extend_from_slice(buf)?;
        Ok(buf.len())
    }

    fn flush(&mut self) -> io::Result<()> {
        self.there.extend_from_slice(&self.held)?;
        self.held.clear();
        Ok(())
    }
}

#[test]
fn a_script_in_memory(rt: HostRuntime) -> Result<(), Fail> {
    let bytes = vec![in rt.alloc(); b'a', b'b', b'c']?;
    let mut source = MemSource::new(bytes, 2, vec![in rt.alloc(); 2]?);
    let mut room = [0u8; 4];
    assert_eq!(rt; source.read(&mut room), Got::Bytes(2));
    assert_eq!(rt; &room[..2], b"ab".as_slice());
    assert_eq!(rt; source.read(&mut room), Got::Failed);
    assert_eq!(rt; source.left(), b"c".as_slice());
    assert_eq!(rt; source.read(&mut room), Got::Bytes(1));
    assert_eq!(rt; source.read(&mut room), Got::End);
    Ok(())
}

#[test]
fn prints_in_memory(rt: HostRuntime) -> Result<(), Fail> {
    let mut sink = MemSink::new(rt.alloc(), vec![in rt.alloc(); 2]?);
    assert_eq!(rt; sink.write(b"ab"), Sent::All);
    assert_eq!(rt; sink.write(b"cd"), Sent::Failed);
    assert_eq!(rt; sink.write(b"ef"), Sent::All);
    assert_eq!(rt; sink.taken(), b"abef".as_slice());
    Ok(())
}

#[test]
fn a_reader_of_std(rt: HostRuntime) {
    let mut source = StdSource::new(Broken { calls: 0 });
    let mut room = [0u8; 4];
    assert_eq!(rt; source.read(&mut room), Got::Bytes(1));
    assert_eq!(rt; room[0], b'x');
    assert_eq!(rt; source.read(&mut room), Got::Failed);
    assert_eq!(rt; StdSource::new(io::empty()).read(&mut room), Got::End);
}

#[test]
fn a_writer_of_std(rt: HostRuntime) {
    let mut taken = Vec::new(rt.alloc());
    let mut sink = StdSink::new(Short {
        taken: &mut taken,
        calls: 0,
    });
    assert_eq!(rt; sink.write(b"abc"), Sent::All);
    assert_eq!(rt; sink.write(b""), Sent::All);
    assert_eq!(rt; sink.write(b"d"), Sent::Failed);
    assert_eq!(rt; taken.as_slice(), b"abc".as_slice());
}

// No clause of std's writers says what a flush does.
#[test]
fn each_piece_is_flushed(rt: HostRuntime) {
    let mut there = Vec::new(rt.alloc());
    let mut sink = StdSink::new(Late {
        held: Vec::new(rt.alloc()),
        there: &mut there,
    });
    assert_eq!(rt; sink.write(b"abc"), Sent::All);
    drop(sink);
    assert_eq!(rt; there.as_slice(), b"abc".as_slice());
}

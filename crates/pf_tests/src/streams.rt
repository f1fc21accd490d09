use pf_io::{
    Failed, MemSink, MemSource, Printer, ReadEnd, Sink, Source, StdSink, StdSource, read_all,
};
use std::io::{self, Cursor, ErrorKind, Read, Write};
use std::test::Fail;

#[test]
fn all_bytes_within_a_limit(rt: HostRuntime) -> Result<(), Fail> {
    let alloc = rt.alloc();
    let mut eight = MemSource::new(alloc, b"12345678", 3, &[])?;
    let bytes = read_all(alloc, &mut eight, 8)?;
    assert_eq!(rt; bytes.as_slice(), b"12345678".as_slice());
    let mut nine = MemSource::new(alloc, b"123456789", 3, &[])?;
    assert!(rt; matches!(read_all(alloc, &mut nine, 8), Err(ReadEnd::TooLong)));
    Ok(())
}

// Eight bytes in pieces of three take four reads, of which the last gives nothing.
#[test]
fn each_read_fails_in_turn(rt: HostRuntime) -> Result<(), Fail> {
    let alloc = rt.alloc();
    for failing in 1..=4 {
        let mut source = MemSource::new(alloc, b"12345678", 3, &[failing])?;
        assert!(rt;
            matches!(read_all(alloc, &mut source, 8), Err(ReadEnd::Failed)),
            "at {failing}"
        );
    }
    let mut source = MemSource::new(alloc, b"12345678", 3, &[5])?;
    let bytes = read_all(alloc, &mut source, 8)?;
    assert_eq!(rt; bytes.as_slice(), b"12345678".as_slice());
    Ok(())
}

const WHOLE: &[u8] = b"s 1 -170141183460469231731687303715884105728";

fn print_smallest<K: Sink>(sink: &mut K) -> Result<(), Failed> {
    let mut printer = Printer::new(sink);
    printer.word(b"s 1 ")?;
    printer.num(-170141183460469231731687303715884105728)?;
    printer.finish()
}

// Forty-four bytes in pieces of ten take five writes and a flush.
#[test]
fn each_call_of_a_sink_fails_in_turn(rt: HostRuntime) -> Result<(), Fail> {
    let alloc = rt.alloc();
    for failing in 1..=6 {
        let mut sink = MemSink::new(alloc, 64, 10, &[failing])?;
        assert!(rt; print_smallest(&mut sink).is_err(), "at {failing}");
        let taken = (10 * (failing as usize - 1)).min(44);
        assert_eq!(rt; sink.taken(), &WHOLE[..taken]);
        assert_eq!(rt; sink.flushed(), 0);
    }
    let mut sink = MemSink::new(alloc, 64, 10, &[7])?;
    print_smallest(&mut sink)?;
    assert_eq!(rt; sink.taken(), WHOLE);
    assert_eq!(rt; sink.flushed(), 44);
    let mut small = MemSink::new(alloc, 43, 64, &[])?;
    assert!(rt; print_smallest(&mut small).is_err());
    assert_eq!(rt; small.taken(), &WHOLE[..43]);
    Ok(())
}

#[test]
fn few_writes_of_a_long_text(rt: HostRuntime) -> Result<(), Fail> {
    let alloc = rt.alloc();
    let text = [b'x'; 9000];
    let mut sink = MemSink::new(alloc, 10000, 10000, &[4])?;
    let mut printer = Printer::new(&mut sink);
    printer.word(&text[..1000])?;
    printer.word(&text)?;
    printer.finish()?;
    assert_eq!(rt; sink.flushed(), 10000);
    Ok(())
}

// A reader and a writer of which every call fails so.
#[derive(Drop)]
struct Broken {
    kind: ErrorKind,
}

impl Read for Broken {
    fn read(&mut self, _room: &mut [u8]) -> io::Result<usize> {
        Err(self.kind.into())
    }
}

impl Write for Broken {
    fn write(&mut self, _piece: &[u8]) -> io::Result<usize> {
        Err(self.kind.into())
    }

    fn flush(&mut self) -> io::Result<()> {
        Err(self.kind.into())
    }
}

// A reader that gives one byte at a time.
#[derive(Drop)]
struct OneByteReader {
    left: &'static [u8],
}

impl Read for OneByteReader {
    fn read(&mut self, room: &mut [u8]) -> io::Result<usize> {
        match (self.left, room) {
            ([first, rest @ ..], [slot, ..]) => {
                *slot = *first;
                self.left = rest;
                Ok(1)
            }
            _ => Ok(0),
        }
    }
}

// A writer that takes one byte at a time.
#[derive(Drop)]
struct OneByteWriter<W: Write> {
    inner: W,
}

impl<W: Write> Write for OneByteWriter<W> {
    fn write(&mut self, piece: &[u8]) -> io::Result<usize> {
        match piece {
            [first, ..] => self.inner.write(&[*first]),
            [] => Ok(0),
        }
    }

    fn flush(&mut self) -> io::Result<()> {
        self.inner.flush()
    }
}

#[test]
fn a_source_over_a_reader_of_std(rt: HostRuntime) -> Result<(), Fail> {
    let alloc = rt.alloc();
    let mut source = StdSource::new(Cursor::new(b"hello".as_slice()));
    let bytes = read_all(alloc, &mut source, 8)?;
    assert_eq!(rt; bytes.as_slice(), b"hello".as_slice());
    let mut slow = StdSource::new(OneByteReader { left: b"hello" });
    let bytes = read_all(alloc, &mut slow, 8)?;
    assert_eq!(rt; bytes.as_slice(), b"hello".as_slice());
    Ok(())
}

// An interrupted read is a fault as any other: it is not tried again.
#[test]
fn a_source_over_a_reader_that_fails(rt: HostRuntime) -> Result<(), Fail> {
    for kind in [ErrorKind::Other, ErrorKind::Interrupted] {
        let mut broken = StdSource::new(Broken { kind });
        assert!(rt; matches!(read_all(rt.alloc(), &mut broken, 8), Err(ReadEnd::Failed)));
    }
    Ok(())
}

#[test]
fn a_sink_over_a_writer_of_std(rt: HostRuntime) -> Result<(), Fail> {
    let mut room = [0u8; 3];
    let mut sink = StdSink::new(room.as_mut_slice());
    assert_eq!(rt; sink.write(b"hello")?, 3);
    sink.flush()?;
    assert!(rt; sink.write(b"lo").is_err());
    assert_eq!(rt; room, *b"hel");
    Ok(())
}

#[test]
fn a_text_goes_out_byte_by_byte(rt: HostRuntime) -> Result<(), Fail> {
    let mut room = [0u8; 5];
    let mut sink = StdSink::new(OneByteWriter {
        inner: room.as_mut_slice(),
    });
    let mut printer = Printer::new(&mut sink);
    printer.word(b"hello")?;
    printer.finish()?;
    assert_eq!(rt; room, *b"hello");
    Ok(())
}

// An empty piece is not handed to the writer, so that nothing fails.
#[test]
fn a_sink_over_a_writer_that_fails(rt: HostRuntime) -> Result<(), Fail> {
    let mut broken = StdSink::new(Broken {
        kind: ErrorKind::Other,
    });
    assert_eq!(rt; broken.write(b"")?, 0);
    assert!(rt; broken.write(b"hello").is_err());
    assert!(rt; broken.flush().is_err());
    Ok(())
}

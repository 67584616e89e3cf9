use std::alloc::{AllocError, Global};
use std::io;
use std::io::{Read, Write};
use std::test::Fail;
use tool_io::{
    Failed, MemSink, MemSource, PlainSink, PlainSource, ReadEnd, StdSink, StdSource, WriteFault,
    read_all, write_all,
};

/// A program of 150 bytes: ten pieces of at most 16, and then the end.
const TEXT: &[u8] = b"class Main {
  region A, B;
  int x in A;
  int y in B;
  int main(int n) {
    cobegin { this.x = 1; this.y = 2; }
    return this.x + this.y;
  }
}
";

/// A report of 9 bytes.
const REPORT: &[u8] = b"result 3\n";

fn source_of(
    alloc: Global,
    bytes: &[u8],
    piece: usize,
    fails: &[u64],
) -> Result<MemSource, AllocError> {
    let bytes = Vec::from_slice(alloc, bytes)?;
    let fails = Vec::from_slice(alloc, fails)?;
    Ok(MemSource::new(bytes, piece, fails))
}

/// Whether this fill fails, and the bytes behind the ones that were taken before it are read then.
fn reads_on(alloc: Global, fill: u64, taken: usize) -> Result<bool, Fail> {
    let mut source = source_of(alloc, TEXT, 16, &[fill])?;
    let first = read_all(alloc, &mut source, 1000);
    let rest = read_all(alloc, &mut source, 1000)?;
    let behind = TEXT.get(taken..).unwrap_or(b"");
    Ok(matches!(first, Err(ReadEnd::ReadFault)) && rest.as_slice() == behind)
}

#[test]
fn a_fill_that_fails(rt: HostRuntime) -> Result<(), Fail> {
    for before in 0..11u64 {
        let taken = (16 * before as usize).min(150);
        assert!(rt;
            reads_on(rt.alloc(), before + 1, taken)?,
            "{before} fills before it"
        );
    }
    Ok(())
}

#[test]
fn a_fill_behind_the_end_is_none(rt: HostRuntime) -> Result<(), Fail> {
    assert_eq!(rt; TEXT.len(), 150);
    let mut source = source_of(rt.alloc(), TEXT, 16, &[12])?;
    assert_eq!(rt; read_all(rt.alloc(), &mut source, 1000)?.as_slice(), TEXT);
    Ok(())
}

/// Whether a read of these bytes meets the fill that fails.
fn meets_fault(alloc: Global, bytes: &[u8], fill: u64) -> Result<bool, Fail> {
    let mut source = source_of(alloc, bytes, usize::MAX, &[fill])?;
    let read = read_all(alloc, &mut source, usize::MAX);
    Ok(matches!(read, Err(ReadEnd::ReadFault)))
}

/// How many bytes are read where this fill fails.
fn length_read(alloc: Global, bytes: &[u8], fill: u64) -> Result<usize, Fail> {
    let mut source = source_of(alloc, bytes, usize::MAX, &[fill])?;
    Ok(read_all(alloc, &mut source, bytes.len())?.len())
}

/// Whether so many bytes are read to their end by so many fills.
fn takes(alloc: Global, len: usize, fills: u64) -> Result<bool, Fail> {
    let mut bytes = Vec::new(alloc);
    bytes.resize(len, b' ')?;
    Ok(
        meets_fault(alloc, &bytes, fills)?
            && length_read(alloc, &bytes, fills.saturating_add(1))? == len,
    )
}

#[test]
fn offers_4096_bytes_at_once(rt: HostRuntime) -> Result<(), Fail> {
    for &(len, fills) in &[(0usize, 1u64), (1, 2), (4096, 2), (4097, 3), (8192, 3)] {
        assert!(rt; takes(rt.alloc(), len, fills)?, "{len} bytes");
    }
    Ok(())
}

/// How many bytes are left behind a read of at most so many that finds more; None, where it finds no more.
fn left_behind(alloc: Global, max: usize) -> Result<Option<usize>, Fail> {
    let mut source = PlainSource::new(Vec::from_slice(alloc, TEXT)?);
    match read_all(alloc, &mut source, max) {
        Err(ReadEnd::TooLong) => Ok(Some(read_all(alloc, &mut source, 150)?.len())),
        _ => Ok(None),
    }
}

#[test]
fn too_long_takes_one_byte_more(rt: HostRuntime) -> Result<(), Fail> {
    for &(max, left) in &[(0usize, 149usize), (100, 49), (148, 1), (149, 0)] {
        assert_eq!(rt; left_behind(rt.alloc(), max)?, Some(left), "at most {max}");
    }
    Ok(())
}

#[test]
fn a_text_of_the_greatest_length_is_read(rt: HostRuntime) -> Result<(), Fail> {
    for &max in &[150usize, 151, usize::MAX] {
        let mut source = PlainSource::new(Vec::from_slice(rt.alloc(), TEXT)?);
        assert_eq!(rt; read_all(rt.alloc(), &mut source, max)?.as_slice(), TEXT);
    }
    Ok(())
}

/// The room, the piece, the put that fails, and what is held then.
const PUTS: &[(usize, usize, u64, &[u8])] = &[
    (99, 3, 1, b""),
    (99, 3, 2, b"res"),
    (99, 3, 3, b"result"),
    (8, 3, 4, b"result 3"),
    (99, 0, 3, b"re"),
    (0, 3, 9, b""),
    (99, 3, 4, REPORT),
];

/// Whether a sink of this room, which takes such pieces and fails at this put, holds just this then.
fn puts(alloc: Global, room: usize, piece: usize, fails: u64, want: &[u8]) -> Result<bool, Fail> {
    let fails = Vec::from_slice(alloc, &[fails])?;
    let mut sink = MemSink::new(alloc, room, piece, fails)?;
    let written = write_all(&mut sink, REPORT).is_ok();
    Ok(written == (want.len() == 9) && sink.held() == want)
}

#[test]
fn a_put_that_fails(rt: HostRuntime) -> Result<(), Fail> {
    for &(room, piece, fails, want) in PUTS {
        assert!(rt;
            puts(rt.alloc(), room, piece, fails, want)?,
            "put {fails} of {piece}"
        );
    }
    Ok(())
}

/// A room, and what a plain sink of it holds of the report.
const ROOMS: &[(usize, &[u8])] = &[(0, b""), (8, b"result 3"), (9, REPORT), (10, REPORT)];

/// Whether a plain sink of this room holds just this of the report.
fn holds(alloc: Global, room: usize, want: &[u8]) -> Result<bool, Fail> {
    let mut sink = PlainSink::new(alloc, room)?;
    let written = write_all(&mut sink, REPORT).is_ok();
    Ok(written == (room >= 9) && sink.held() == want)
}

#[test]
fn a_plain_sink_takes_what_fits(rt: HostRuntime) -> Result<(), Fail> {
    for &(room, want) in ROOMS {
        assert!(rt; holds(rt.alloc(), room, want)?, "a room of {room}");
    }
    Ok(())
}

#[derive(Drop)]
struct Broken;

impl Read for Broken {
    fn read(&mut self, _buf: &mut [u8]) -> io::Result<usize> {
        Err(io::Error::from(io::ErrorKind::BrokenPipe))
    }
}

impl Write for Broken {
    fn write(&mut self, _buf: &[u8]) -> io::Result<usize> {
        Err(io::Error::from(io::ErrorKind::BrokenPipe))
    }

    fn flush(&mut self) -> io::Result<()> {
        Ok(())
    }
}

#[test]
fn reads_over_the_standard_library(rt: HostRuntime) -> Result<(), Fail> {
    let alloc = rt.alloc();
    let mut source = StdSource::new(TEXT);
    assert_eq!(rt; read_all(alloc, &mut source, 150)?.as_slice(), TEXT);
    let broken = read_all(alloc, &mut StdSource::new(Broken), 150);
    assert!(rt; matches!(broken, Err(ReadEnd::ReadFault)));
    Ok(())
}

#[test]
fn writes_over_the_standard_library(rt: HostRuntime) -> Result<(), Fail> {
    let mut written = Vec::new(rt.alloc());
    write_all(&mut StdSink::new(&mut written), REPORT)?;
    assert_eq!(rt; written.as_slice(), REPORT);
    let broken = write_all(&mut StdSink::new(Broken), REPORT);
    assert_eq!(rt; broken, Err(WriteFault));
    Ok(())
}

/// A writer that takes 5 bytes and then none.
#[test]
fn a_short_write_over_the_standard_library(rt: HostRuntime) -> Result<(), Fail> {
    let mut short = [0u8; 5];
    let written = write_all(&mut StdSink::new(short.as_mut_slice()), REPORT);
    assert_eq!(rt; written, Err(WriteFault));
    assert_eq!(rt; short.as_slice(), b"resul".as_slice());
    Ok(())
}

/// An end of a read, its number and its words.
const ENDS: &[(ReadEnd, u32, &str)] = &[
    (ReadEnd::TooLong, 1, "the input is too long"),
    (ReadEnd::ReadFault, 2, "reading failed"),
    (ReadEnd::NoMemory, 3, "out of memory"),
];

#[test]
fn each_end_says_what_failed(rt: HostRuntime) -> Result<(), Fail> {
    for &(end, number, text) in ENDS {
        assert_eq!(rt; end as u32, number);
        assert_eq!(rt; format!(in rt.alloc(); "{end}")?.as_str(), text);
    }
    Ok(())
}

#[test]
fn each_error_says_what_failed(rt: HostRuntime) -> Result<(), Fail> {
    let fault = format!(in rt.alloc(); "{}", WriteFault)?;
    assert_eq!(rt; fault.as_str(), "writing failed");
    let failed = format!(in rt.alloc(); "{}", Failed)?;
    assert_eq!(rt; failed.as_str(), "a read or a write failed");
    Ok(())
}

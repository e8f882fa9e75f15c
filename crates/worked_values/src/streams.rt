//! Sources and sinks in memory, and streams that fail.
use crate::failure::Failure;
use crate::reading::{budget, pair};
use cay_base::{
    MemSink, MemSource, ReadError, Sink, StdSink, StdSource, WholeSink, WholeSource, read_all,
};
use std::alloc::{AllocError, Global};
use std::io;
use std::io::{Read, Write};

/// How many bytes were read, or why none.
fn put_read(out: &mut String, read: Result<Vec<u8>, ReadError>) -> Result<(), Failure> {
    match read {
        Ok(bytes) => Ok(write!(out, " {} bytes", bytes.len())?),
        Err(ReadError::Memory) => Err(Failure::Memory),
        Err(error) => Ok(write!(out, " {error}")?),
    }
}

/// The number of the one call that fails, or nothing.
fn failing(alloc: Global, word: &str) -> Result<Vec<u32>, AllocError> {
    let mut fails = Vec::new(alloc);
    if let Ok(number) = word.parse::<u32>() {
        fails.push(number)?;
    }
    Ok(fails)
}

/// Reads text of which each call gives at most so many bytes, up to a limit, where one call may fail.
pub fn show_source(alloc: Global, out: &mut String, words: &str) -> Result<(), Failure> {
    let (most, rest) = pair(words, ' ')?;
    let (limit, rest) = pair(rest, ' ')?;
    let (fails, text) = pair(rest, ' ')?;
    let (most, limit) = (budget(most)?, budget(limit)?);
    if most == 0 {
        return Err(Failure::Line);
    }
    let fails = failing(alloc, fails)?;
    let bytes = Vec::from_slice(alloc, text.as_bytes())?;
    let mut source = MemSource::new(bytes, most as usize, fails);
    put_read(out, read_all(alloc, &mut source, limit))
}

/// Reads the text from a source that never fails.
pub fn show_whole_source(alloc: Global, out: &mut String, text: &str) -> Result<(), Failure> {
    let mut source = WholeSource::new(Vec::from_slice(alloc, text.as_bytes())?);
    put_read(out, read_all(alloc, &mut source, 9))
}

fn put_reader<R: Read + Drop>(alloc: Global, out: &mut String, reader: R) -> Result<(), Failure> {
    let mut source = StdSource::new(reader);
    put_read(out, read_all(alloc, &mut source, 9))
}

/// Reads the text from a reader, and where there is none from one that fails.
pub fn show_reader(alloc: Global, out: &mut String, text: &str) -> Result<(), Failure> {
    if text == "-" {
        return put_reader(alloc, out, Broken);
    }
    put_reader(alloc, out, text.as_bytes())
}

/// A stream on which nothing can be read or written.
#[derive(Drop)]
struct Broken;

impl Read for Broken {
    fn read(&mut self, _buf: &mut [u8]) -> io::Result<usize> {
        Err(io::Error::from(io::ErrorKind::Other))
    }
}

impl Write for Broken {
    fn write(&mut self, _buf: &[u8]) -> io::Result<usize> {
        Ok(0)
    }

    fn flush(&mut self) -> io::Result<()> {
        Ok(())
    }
}

/// Puts the pieces between commas, and writes of each whether it was put.
fn put_pieces<K: Sink>(out: &mut String, sink: &mut K, pieces: &str) -> Result<(), Failure> {
    for piece in pieces.split(',') {
        match sink.put(piece.as_bytes()) {
            Ok(()) => out.push_str(" put")?,
            Err(_) => out.push_str(" failed")?,
        }
    }
    Ok(())
}

fn put_held(out: &mut String, bytes: &[u8]) -> Result<(), Failure> {
    out.push_str(", holds ")?;
    for byte in bytes {
        out.push(*byte as char)?;
    }
    Ok(())
}

/// Puts pieces into a sink with room for five bytes, of which one call may fail.
pub fn show_sink(alloc: Global, out: &mut String, words: &str) -> Result<(), Failure> {
    let (fails, pieces) = pair(words, ' ')?;
    let fails = failing(alloc, fails)?;
    let mut sink = MemSink::with_room(alloc, 5, fails)?;
    put_pieces(out, &mut sink, pieces)?;
    put_held(out, sink.bytes())
}

/// Puts pieces into a sink with room for five bytes.
pub fn show_whole_sink(alloc: Global, out: &mut String, pieces: &str) -> Result<(), Failure> {
    let mut sink = WholeSink::with_room(alloc, 5)?;
    put_pieces(out, &mut sink, pieces)?;
    put_held(out, sink.bytes())
}

/// Puts pieces into a stream that takes nothing.
pub fn show_full_stream(out: &mut String, pieces: &str) -> Result<(), Failure> {
    put_pieces(out, &mut StdSink::new(Broken), pieces)
}

// Reads frames from standard input, writes or reads in each a class file around a pool (document 02, No. 7) and prints a line for it.
//
// A frame begins with a byte. Behind 0, to write: versions, access flags, this and super class, name slot and how many bootstrap methods there
// are (seven numbers of two bytes, minor version first), the pool's length (four bytes, at most 262,144) and bytes, the bootstrap methods'
// length (at most 131,072) and bytes. It prints `file HEX` or `refused CODE`; the room for a file is 196,608 bytes. Behind any other, to
// read: a file's length (at most 262,208) and bytes. It prints `parts MINOR MAJOR POOL_END ACCESS THIS SUPER NAME COUNT BOOTSTRAPS_AT` or
// `refused CODE`.
#![tactic(auto)]

use class_file::Parts;
use frames::{End, Line, ReadError};
use refusal::Refusal;
use std::io;
use std::io::{Read, Write};
use writer::BigEndian;

// The longest pool that is taken to write.
const LONGEST_POOL: usize = 262144;

fn put_written(line: &mut Line, written: Result<usize, Refusal>, file: &[u8]) {
    match written {
        Ok(n) => {
            line.put_word(b"file ");
            for &b in &file[..file.len().min(n)] {
                line.put_hex(b);
            }
        }
        Err(refusal) => line.put_refusal(u32::from(refusal)),
    }
}

// The parts that a frame's numbers, pool and bootstrap methods are.
fn parts_of<'a>(head: &[u8; 14], pool: &'a [u8], bootstraps: &'a [u8]) -> Parts<'a> {
    Parts {
        minor: u16::get(head, 0),
        major: u16::get(head, 2),
        pool,
        access_flags: u16::get(head, 4),
        this_class: u16::get(head, 6),
        super_class: u16::get(head, 8),
        name: u16::get(head, 10),
        count: u16::get(head, 12),
        bootstraps,
    }
}

// Writes the file of a frame's parts.
fn next_write(
    input: &mut impl Read,
    line: &mut Line,
    pool: &mut [u8; 262208],
    methods: &mut [u8; 131072],
    file: &mut [u8],
) -> Result<(), ReadError> {
    let mut head = [0u8; 14];
    frames::read_part(input, &mut head, 14)?;
    let n = frames::next_block(input, pool)?;
    if LONGEST_POOL < n {
        return Err(ReadError::Cut);
    }
    let size = frames::next_block(input, methods)?;
    let parts = parts_of(&head, &pool[..n], &methods[..size]);
    let written = class_file::write_class(&parts, file);
    put_written(line, written, file);
    Ok(())
}

// The parts of a file, its pool and its bootstrap methods as places in it.
fn put_parts(line: &mut Line, parts: &Parts, file: &[u8]) {
    line.put_word(b"parts");
    line.put_number(parts.minor as usize);
    line.put_number(parts.major as usize);
    line.put_number(parts.pool_end());
    line.put_number(parts.access_flags as usize);
    line.put_number(parts.this_class as usize);
    line.put_number(parts.super_class as usize);
    line.put_number(parts.name as usize);
    line.put_number(parts.count as usize);
    line.put_number(parts.bootstraps_at(file));
}

// Reads a frame's file.
fn next_read(
    input: &mut impl Read,
    line: &mut Line,
    file: &mut [u8; 262208],
) -> Result<(), ReadError> {
    let n = frames::next_block(input, file)?;
    let file = &file[..n];
    match class_file::read_class(file) {
        Ok(parts) => put_parts(line, &parts, file),
        Err(refusal) => line.put_refusal(u32::from(refusal)),
    }
    Ok(())
}

// One class, if there is one. A pool or a file that is read stands in `bytes`.
fn next_class(
    input: &mut impl Read,
    output: &mut impl Write,
    bytes: &mut [u8; 262208],
    methods: &mut [u8; 131072],
    file: &mut [u8],
    text: &mut [u8],
) -> Result<(), End> {
    let mut line = Line::new(text);
    let mut kind = [0u8; 1];
    frames::read_part(input, &mut kind, 1)?;
    let read = if kind[0] == 0 {
        next_write(input, &mut line, bytes, methods, file)
    } else {
        next_read(input, &mut line, bytes)
    };
    read.map_err(|e| e.inside())?;
    line.end(output)?;
    Ok(())
}

// Classes in turn; how the stream ends is told.
fn run_stream(
    input: &mut impl Read,
    output: &mut impl Write,
    errors: &mut impl Write,
    bytes: &mut [u8; 262208],
    methods: &mut [u8; 131072],
    file: &mut [u8; 196608],
    text: &mut [u8; 524288],
) -> io::Result<()> {
    frames::answer_all(errors, b"class_file_run", || {
        next_class(input, output, bytes, methods, file, text)
    })
}

fn main(rt: HostRuntime) -> io::Result<()> {
    let mut bytes = [0u8; 262208];
    let mut methods = [0u8; 131072];
    let mut file = [0u8; 196608];
    let mut text = [0u8; 524288];
    run_stream(
        &mut rt.stdin(),
        &mut rt.stdout(),
        &mut rt.stderr(),
        &mut bytes,
        &mut methods,
        &mut file,
        &mut text,
    )
}

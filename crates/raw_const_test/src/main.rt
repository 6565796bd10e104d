// Writes an entry of each tag and bootstrap rows, holds the bytes to what JVMS 4.4 and 4.7.23 lay down, and reads the entries back, whole
// and cut. A line for each says ok or WRONG.
#![tactic(auto)]

ghost use Rattle.std.specs.Prelude.{◌≡◌, true, ◌<◌, ◌↔◌, get_or, IsTrue, EachIndex};
ghost use Rattle.definition.specs.Basics.{lookup};
ghost use Rattle.definition.specs.Shapes.{shapes};
ghost use Rattle.raw_const.specs.Entries.{LiteralFits};

use raw_const::{Entry, Shape};
use std::io::Result;

fn say(rt: &impl Print, name: &str, ok: bool) -> Result<()> {
    let verdict = if ok { "ok" } else { "WRONG" };
    println!(rt; "{verdict} {name}")
}

// Can an entry of this tag have a literal of so many bytes?
fn fits(tag: u8, size: usize) -> bool
    ensures { result ≡ true → LiteralFits (lookup tag shapes) size }
{
    match raw_const::shape_of(tag) {
        Some(Shape::Text) => size < 65536,
        Some(Shape::Bits(bytes)) => size == bytes as usize,
        _ => true,
    }
}

// Writes an entry whose literal is `text` without its first byte, with a kind byte and references that show whether they are written. Where
// there is no room, or such an entry can't be, there is no place behind it.
fn put(out: &mut [u8], at: usize, tag: u8, text: &[u8]) -> Option<usize> {
    let literal = text.get(1..)?;
    if out.len() < at || !fits(tag, literal.len()) {
        return None;
    }
    if out.len() - at < raw_const::entry_length(tag, literal.len()) {
        return None;
    }
    let entry = Entry {
        tag,
        literal,
        kind: 6,
        first: 0x1234,
        second: 0xabcd,
    };
    Some(raw_const::write_entry(out, at, &entry))
}

// Is no shorter part of the bytes an entry at the place?
fn cuts_are_bad(bytes: &[u8], at: usize) -> bool {
    (0..bytes.len()).all(|end| raw_const::read_entry(&bytes[..end], at).is_none())
}

// Are the bytes between two places the entry that is expected, and is it read back, whole and not cut?
fn is_right(out: &[u8], at: usize, next: usize, expected: &[u8]) -> bool {
    let written = out.get(at..next) == Some(expected);
    let read = raw_const::read_entry(out, at).is_some_and(|found| found.next == next);
    written && read && cuts_are_bad(&out[..next], at)
}

// Writes the entry whose tag the expected bytes begin with; returns the place behind it if it is right.
fn entry(out: &mut [u8], at: usize, text: &[u8], expected: &[u8]) -> Option<usize> {
    let tag = *expected.first()?;
    let next = put(out, at, tag, text)?;
    if is_right(out, at, next, expected) {
        Some(next)
    } else {
        None
    }
}

// From each place the reader finds an entry of the next tag, up to the end.
fn walk(pool: &[u8], tags: &[u8], end: usize) -> bool {
    let mut at = 0;
    for tag in tags {
        match raw_const::read_entry(pool, at) {
            Some(found) if found.tag == *tag => at = found.next,
            _ => return false,
        }
    }
    at == end
}

fn numbers() -> Option<bool> {
    let mut pool = [0u8; 40];
    let at = entry(&mut pool, 0, b".Code", &[1, 0, 4, 67, 111, 100, 101])?; // Utf8
    let at = entry(&mut pool, at, &[0, 1, 2, 3, 4], &[3, 1, 2, 3, 4])?; // Integer
    let at = entry(&mut pool, at, &[0, 63, 128, 0, 0], &[4, 63, 128, 0, 0])?; // Float
    let long = [0, 255, 254, 253, 252, 4, 3, 2, 1];
    let at = entry(&mut pool, at, &long, &[5, 255, 254, 253, 252, 4, 3, 2, 1])?; // Long
    let pi = [0, 64, 9, 33, 251, 84, 68, 45, 24];
    let at = entry(&mut pool, at, &pi, &[6, 64, 9, 33, 251, 84, 68, 45, 24])?; // Double
    Some(at == 35 && walk(&pool, &[1, 3, 4, 5, 6], at))
}

fn references() -> Option<bool> {
    let mut pool = [0u8; 40];
    let at = entry(&mut pool, 0, b".", &[7, 0x12, 0x34])?; // Class
    let at = entry(&mut pool, at, b".", &[8, 0x12, 0x34])?; // String
    let at = entry(&mut pool, at, b".", &[9, 0x12, 0x34, 0xab, 0xcd])?; // Fieldref
    let at = entry(&mut pool, at, b".", &[10, 0x12, 0x34, 0xab, 0xcd])?; // Methodref
    let at = entry(&mut pool, at, b".", &[11, 0x12, 0x34, 0xab, 0xcd])?; // InterfaceMethodref
    let at = entry(&mut pool, at, b".", &[12, 0x12, 0x34, 0xab, 0xcd])?; // NameAndType
    Some(at == 26 && walk(&pool, &[7, 8, 9, 10, 11, 12], at))
}

fn later_tags() -> Option<bool> {
    let mut pool = [0u8; 40];
    let at = entry(&mut pool, 0, b".", &[15, 6, 0x12, 0x34])?; // MethodHandle
    let at = entry(&mut pool, at, b".", &[16, 0x12, 0x34])?; // MethodType
    let at = entry(&mut pool, at, b".", &[17, 0x12, 0x34, 0xab, 0xcd])?; // Dynamic
    let at = entry(&mut pool, at, b".", &[18, 0x12, 0x34, 0xab, 0xcd])?; // InvokeDynamic
    let at = entry(&mut pool, at, b".", &[19, 0x12, 0x34])?; // Module
    let at = entry(&mut pool, at, b".", &[20, 0x12, 0x34])?; // Package
    Some(at == 23 && walk(&pool, &[15, 16, 17, 18, 19, 20], at))
}

// A tag that isn't there: nothing is written, nothing is read.
fn unknown(tag: u8) -> bool {
    let mut out = [tag; 20];
    let next = put(&mut out, 3, tag, b".text");
    next == Some(3) && out == [tag; 20] && raw_const::read_entry(&out, 3).is_none()
}

// A text of 300 bytes shows both bytes of its length, 0x012c.
fn long_text() -> bool {
    let text = [b'x'; 301];
    let mut out = [0u8; 310];
    let next = put(&mut out, 4, 1, &text);
    let head = out[3..8] == [0, 1, 1, 0x2c, b'x'];
    next == Some(307) && head && out[305..310] == [b'x', b'x', 0, 0, 0]
}

// Are these numbers of two bytes?
fn are_short(words: &[u32]) -> bool
    ensures { IsTrue result ↔ EachIndex words.now (λ k. get_or words.now k 0 < 65536) }
{
    words.iter().all(|word| *word < 65536)
}

// Is a row of the words behind the first one written as expected, and nothing else?
fn row(words: &[u32], expected: &[u8], end: usize) -> bool {
    let mut out = [0xeeu8; 10];
    let row = match words {
        [_, row @ ..] if 0 < row.len() && row.len() <= 3 && are_short(row) => row,
        _ => return false,
    };
    raw_const::write_row(&mut out, 1, row) == end && &out[..] == expected
}

fn rows() -> bool {
    let three = [0xee, 0x12, 0x34, 0, 2, 0xab, 0xcd, 0, 7, 0xee];
    let one = [0xee, 0x12, 0x34, 0, 0, 0xee, 0xee, 0xee, 0xee, 0xee];
    let written = row(&[9, 0x1234, 0xabcd, 7], &three, 9) && row(&[9, 0x1234], &one, 5);
    written && raw_const::row_length(3) == 8 && raw_const::row_length(1) == 4
}

fn main(rt: HostRuntime) -> Result<()> {
    say(&rt, "numbers", numbers() == Some(true))?;
    say(&rt, "references", references() == Some(true))?;
    say(&rt, "later tags", later_tags() == Some(true))?;
    say(&rt, "unknown 0", unknown(0))?;
    say(&rt, "unknown 2", unknown(2))?;
    say(&rt, "unknown 13", unknown(13))?;
    say(&rt, "unknown 14", unknown(14))?;
    say(&rt, "unknown 21", unknown(21))?;
    say(&rt, "unknown 255", unknown(255))?;
    say(&rt, "long text", long_text())?;
    say(&rt, "Long is wide", raw_const::is_long(5))?;
    say(&rt, "Double is wide", raw_const::is_long(6))?;
    say(&rt, "Float is narrow", !raw_const::is_long(4))?;
    say(&rt, "Class is narrow", !raw_const::is_long(7))?;
    say(&rt, "rows", rows())
}

// A packed job: how many parts it has (one byte); how much it is lent of work, gaps, answers, pool, bootstraps and class name (four
// bytes each); then the parts. A part is a pattern and how often it stands in the job: times (four bytes), the pattern's length, two
// places in it and a step (two bytes each), the pattern. Each time, the two-byte numbers at both places grow by the step; there is no
// place 65535.
use frames::{ReadError, read_part};
use std::io;
use std::io::Read;
use writer::BigEndian;

// The number that stands in a part for no place.
const NO_PLACE: u16 = 65535;

// How much of the memory a run is lent, at most.
#[derive(Clone, Copy)]
pub(crate) struct Lent {
    pub(crate) words: usize,
    pub(crate) gaps: usize,
    pub(crate) answers: usize,
    pub(crate) pool: usize,
    pub(crate) bootstraps: usize,
    pub(crate) class_name: usize,
}

#[derive(Clone, Copy)]
struct Part {
    times: u32,
    size: u16,
    first: u16,
    second: u16,
    step: u16,
}

fn part_of(head: &[u8; 12]) -> Part {
    Part {
        times: u32::get(head, 0),
        size: u16::get(head, 4),
        first: u16::get(head, 6),
        second: u16::get(head, 8),
        step: u16::get(head, 10),
    }
}

fn grow(pattern: &mut [u8; 65536], place: u16, step: u16) {
    if place != NO_PLACE {
        let n = u16::get(pattern, place as usize);
        n.wrapping_add(step).put(pattern, place as usize);
    }
}

// Puts a pattern into the job once; where it ends, if it fits.
fn put_once(job: &mut [u8], at: usize, pattern: &[u8]) -> Option<usize> {
    let n = pattern.len();
    if job.len() < at || job.len() - at < n {
        return None;
    }
    writer::copy(pattern, 0, job, at, n);
    Some(at + n)
}

fn repeat(job: &mut [u8], start: usize, pattern: &mut [u8; 65536], part: Part) -> Option<usize> {
    let mut at = start;
    for _ in 0..part.times {
        at = put_once(job, at, &pattern[..part.size as usize])?;
        grow(pattern, part.first, part.step);
        grow(pattern, part.second, part.step);
    }
    Some(at)
}

// Reads the first n bytes; whether all of them came.
fn has_come(input: &mut impl Read, s: &mut [u8], n: usize) -> io::Result<bool> {
    match read_part(input, s, n) {
        Ok(()) => Ok(true),
        Err(ReadError::Failed(error)) => Err(error),
        Err(_) => Ok(false),
    }
}

fn next_part(input: &mut impl Read, pattern: &mut [u8; 65536]) -> io::Result<Option<Part>> {
    let mut head = [0u8; 12];
    if !has_come(input, &mut head, 12)? {
        return Ok(None);
    }
    let part = part_of(&head);
    if !has_come(input, pattern, part.size as usize)? {
        return Ok(None);
    }
    Ok(Some(part))
}

// Unpacks a job of so many parts; its length. All of them are read, also behind one that isn't there or doesn't fit.
fn unpack(input: &mut impl Read, job: &mut [u8], parts: u8) -> io::Result<Option<usize>> {
    let mut pattern = [0u8; 65536];
    let mut size = Some(0);
    for _ in 0..parts {
        let part = next_part(input, &mut pattern)?;
        size = match (part, size) {
            (Some(part), Some(at)) => repeat(job, at, &mut pattern, part),
            _ => None,
        };
    }
    Ok(size)
}

fn lent_of(head: &[u8; 25]) -> Lent {
    Lent {
        words: u32::get(head, 1) as usize,
        gaps: u32::get(head, 5) as usize,
        answers: u32::get(head, 9) as usize,
        pool: u32::get(head, 13) as usize,
        bootstraps: u32::get(head, 17) as usize,
        class_name: u32::get(head, 21) as usize,
    }
}

// Reads the next job, if there is one that can be unpacked: its length, and how much it is lent.
pub(crate) fn next_packed(
    input: &mut impl Read,
    job: &mut [u8],
) -> io::Result<Option<(usize, Lent)>> {
    let mut head = [0u8; 25];
    if !has_come(input, &mut head, 25)? {
        return Ok(None);
    }
    let size = unpack(input, job, head[0])?;
    Ok(size.map(|size| (size, lent_of(&head))))
}

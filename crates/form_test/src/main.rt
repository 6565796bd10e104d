// Runs the form pass over stored jobs and writes a dot for each that it answers as document 01 says, and F for each other.
// What is expected was worked out from the document: a refusal's number and record, or eight counts (definitions,
// constants, bootstraps, references in entries, names, raw constants, raw bootstraps, requests).
#![tactic(auto)]

ghost use Rattle.std.specs.Prelude.{◌<◌, ◌≤◌, length};

use job::form;
use std::io::{BufWriter, Result, Write};

fn tell(output: &mut impl Write, right: bool) -> Result<()> {
    let dot: &[u8] = if right { b"." } else { b"F" };
    output.write_all(dot)
}

fn end_line(output: &mut impl Write) -> Result<()> {
    output.write_all(b"\n")
}

fn is_refused(job: &[u8], code: u32, place: usize) -> bool {
    match form(job) {
        Ok(_) => false,
        Err(refused) => (u32::from(refused.refusal) == code) & (refused.place == place),
    }
}

fn is_counted(job: &[u8], expected: [usize; 8]) -> bool {
    match form(job) {
        Ok(c) => {
            let counted = [
                c.definitions,
                c.constants,
                c.bootstraps,
                c.references,
                c.names,
                c.raw_constants,
                c.raw_bootstraps,
                c.requests,
            ];
            counted == expected
        }
        Err(_) => false,
    }
}

fn refused(output: &mut impl Write, job: &[u8], code: u32, place: usize) -> Result<()> {
    tell(output, is_refused(job, code, place))
}

fn counted(output: &mut impl Write, job: &[u8], expected: [usize; 8]) -> Result<()> {
    tell(output, is_counted(job, expected))
}

fn is_set(job: &[u8], highest: usize, version: usize) -> bool {
    match form(job) {
        Ok(c) => (c.highest == highest) & (c.version == version),
        Err(_) => false,
    }
}

fn set(output: &mut impl Write, job: &[u8], highest: usize, version: usize) -> Result<()> {
    tell(output, is_set(job, highest, version))
}

// Decided points 1 and 2: which record, and which number within a record.
fn first_faults(output: &mut impl Write) -> Result<()> {
    refused(output, b"\x07\x01\x00\x00\xff", 4, 0)?;
    refused(output, b"\x09\x01\x00\x07\x03", 3, 0)?;
    refused(output, b"\x50\x60\x02\x01\x00\x00\x00", 4, 1)?;
    refused(output, b"", 3, 0)?;
    refused(output, b"\x50", 3, 1)?;
    refused(output, b"\x50\x60\x02", 3, 1)?;
    refused(output, b"\x50\x60\x02\x00\x00\x00\x00", 3, 2)?;
    end_line(output)
}

// Decided point 3: tags are decimal, so 20 is the byte 14 and 15 is no tag. Point 4: an empty name is a name.
fn tags_and_names(output: &mut impl Write) -> Result<()> {
    counted(
        output,
        b"\x14\x00\x00\x01\x50\x60\x02\x00\x00\x00",
        [1, 1, 0, 1, 0, 0, 0, 0],
    )?;
    refused(output, b"\x15\x00\x00\x01\x50\x60\x02\x00\x00\x00", 3, 0)?;
    counted(
        output,
        b"\x41\x00\x00\x00\x03\x50\x60\x02\x00\x00\x00",
        [1, 0, 0, 0, 1, 0, 0, 0],
    )?;
    counted(
        output,
        b"\x42\x00\x02\x00\x50\x60\x02\x00\x00\x00",
        [1, 0, 0, 0, 1, 0, 0, 0],
    )?;
    end_line(output)
}

// Decided point 4: 41, 43, 51, 52 and the second reference of tag 17 number constants, of which there are none here; 42,
// 44 and the first reference of tag 17 number bootstraps, of which there is one.
fn two_tables(output: &mut impl Write) -> Result<()> {
    refused(
        output,
        b"\x40\x00\x00\x09\x00\x00\x41\x01a\x01\x00\x00\x50\x60\x02\x00\x00\x00",
        4,
        1,
    )?;
    counted(
        output,
        b"\x40\x00\x00\x09\x00\x00\x42\x01a\x01\x00\x00\x50\x60\x02\x00\x00\x00",
        [2, 0, 1, 1, 1, 0, 0, 0],
    )?;
    refused(
        output,
        b"\x40\x00\x00\x09\x00\x00\x43\x00\x01\x00\x00\x50\x60\x02\x00\x00\x00",
        4,
        1,
    )?;
    counted(
        output,
        b"\x40\x00\x00\x09\x00\x00\x44\x00\x01\x00\x00\x50\x60\x02\x00\x00\x00",
        [2, 0, 1, 1, 0, 0, 1, 0],
    )?;
    refused(
        output,
        b"\x40\x00\x00\x09\x00\x00\x50\x51\x01\x00\x00\x60\x02\x00\x00\x00",
        4,
        2,
    )?;
    refused(
        output,
        b"\x40\x00\x00\x09\x00\x00\x50\x52\x01\x00\x00\x60\x02\x00\x00\x00",
        4,
        2,
    )?;
    counted(
        output,
        b"\x40\x00\x00\x09\x00\x00\x11\x01\x00\x00\x00\x00\x01\x50\x60\x02\x00\x00\x00",
        [2, 1, 1, 3, 0, 0, 0, 0],
    )?;
    refused(
        output,
        b"\x40\x00\x00\x09\x00\x00\x11\x01\x00\x00\x01\x00\x00\x50\x60\x02\x00\x00\x00",
        4,
        1,
    )?;
    end_line(output)
}

// The known jobs a to e of document 01, every one of them well formed.
fn known_jobs_to_e(output: &mut impl Write) -> Result<()> {
    counted(
        output,
        b"\x50\x60\x02\x00\x00\x00",
        [0, 0, 0, 0, 0, 0, 0, 0],
    )?;
    counted(
        output,
        b"\x50\x60\x00\x00\x00\x00",
        [0, 0, 0, 0, 0, 0, 0, 0],
    )?;
    counted(
        output,
        b"\x01\x00\x01A\x07\x01\x00\x00\x50\x51\x01\x00\x01\x60\x02\x01\x00\x00",
        [2, 2, 0, 1, 0, 0, 0, 1],
    )?;
    counted(
        output,
        b"\x01\x00\x03foo\x01\x00\x03foo\x07\x01\x00\x01\x43\x00\x05\x00\x00\x50\x51\x01\x00\x02\x60\x02\x00\x00\x00",
        [4, 3, 0, 1, 0, 1, 0, 1],
    )?;
    counted(
        output,
        b"\x03\x00\x00\x00\x01\x05\x00\x00\x00\x00\x00\x00\x00\x02\x03\x00\x00\x00\x03\x43\x00\x02\x00\x00\x50\x51\x01\x00\x01\x51\x01\x00\x02\x60\x02\x00\x00\x00",
        [4, 3, 0, 0, 0, 1, 0, 2],
    )?;
    counted(
        output,
        b"\x05\x00\x00\x00\x00\x00\x00\x00\x02\x43\x00\x07\x00\x00\x43\x00\x07\x00\x00\x50\x60\x02\x00\x00\x00",
        [3, 1, 0, 0, 0, 2, 0, 0],
    )?;
    counted(
        output,
        b"\x03\x00\x00\x00\x01\x05\x00\x00\x00\x00\x00\x00\x00\x02\x43\x00\x07\x00\x00\x43\x00\x07\x00\x01\x50\x60\x02\x00\x00\x00",
        [4, 2, 0, 0, 0, 2, 0, 0],
    )?;
    counted(
        output,
        b"\x03\x00\x00\x00\x01\x05\x00\x00\x00\x00\x00\x00\x00\x02\x43\x00\x07\x00\x01\x43\x00\x08\x00\x00\x50\x60\x02\x00\x00\x00",
        [4, 2, 0, 0, 0, 2, 0, 0],
    )?;
    end_line(output)
}

// The known jobs f to i.
fn known_jobs_from_f(output: &mut impl Write) -> Result<()> {
    counted(
        output,
        b"\x41\x01a\x02\x01b\x41\x01b\x02\x01a\x50\x60\x02\x00\x00\x00",
        [2, 0, 0, 0, 2, 0, 0, 0],
    )?;
    counted(
        output,
        b"\x41\x01a\x02\x01b\x41\x01b\x02\x01a\x50\x51\x02\x01a\x60\x02\x00\x00\x00",
        [2, 0, 0, 0, 2, 0, 0, 1],
    )?;
    counted(
        output,
        b"\x50\x51\x02\x01x\x60\x02\x00\x00\x00",
        [0, 0, 0, 0, 0, 0, 0, 1],
    )?;
    counted(
        output,
        b"\x40\x00\x00\x09\x00\x00\x44\x00\x02\x00\x00\x50\x60\x02\x00\x00\x00",
        [2, 0, 1, 1, 0, 0, 1, 0],
    )?;
    counted(
        output,
        b"\x07\x00\x00\x00\x50\x51\x01\x00\x00\x60\x02\x01\x00\x00",
        [1, 1, 0, 1, 0, 0, 0, 1],
    )?;
    counted(
        output,
        b"\x07\x00\x00\x09\x50\x51\x01\x00\x00\x60\x02\x01\x00\x00",
        [1, 1, 0, 1, 0, 0, 0, 1],
    )?;
    counted(
        output,
        b"\x50\x52\x00\x00\xff\x60\x02\x00\x00\x00",
        [0, 0, 0, 0, 0, 0, 0, 1],
    )?;
    counted(
        output,
        b"\x50\x52\x00\x01\x00\x60\x02\x00\x00\x00",
        [0, 0, 0, 0, 0, 0, 0, 1],
    )?;
    end_line(output)
}

// Document 02, No. 10: record 49 is the first, gives a slot, and is not cut.
fn highest_slots(output: &mut impl Write) -> Result<()> {
    set(output, b"\x50\x60\x02\x00\x00\x00", 65534, 55)?;
    set(output, b"\x49\x00\x01\x50\x60\x02\x00\x00\x00", 1, 55)?;
    set(output, b"\x49\xff\xfe\x50\x60\x02\x00\x00\x00", 65534, 55)?;
    refused(output, b"\x49\x00\x00\x50\x60\x02\x00\x00\x00", 26, 0)?;
    refused(output, b"\x49\xff\xff\x50\x60\x02\x00\x00\x00", 26, 0)?;
    refused(output, b"\x49\x00", 3, 0)?;
    refused(output, b"\x49\x00\x01\x49\x00\x01", 3, 1)?;
    refused(output, b"\x48\x49\x00\x00", 3, 1)?;
    refused(output, b"\x01\x00\x00\x49\x00\x01", 3, 1)?;
    refused(output, b"\x50\x49\x00\x01", 3, 1)?;
    end_line(output)
}

// No. 5: record 47 comes once, before 50, with any number.
fn versions(output: &mut impl Write) -> Result<()> {
    set(output, b"\x47\x00\x32\x50\x60\x02\x00\x00\x00", 65534, 50)?;
    set(output, b"\x47\x00\x00\x50\x60\x02\x00\x00\x00", 65534, 0)?;
    set(
        output,
        b"\x49\x00\x09\x01\x00\x00\x47\xff\xff\x50\x60\x02\x00\x00\x00",
        9,
        65535,
    )?;
    refused(output, b"\x47\x00\x32\x47\x00\x32", 3, 1)?;
    refused(output, b"\x47\x00", 3, 0)?;
    refused(output, b"\x50\x47\x00\x32", 3, 1)?;
    end_line(output)
}

// No. 8: which text is told, and where record 48 counts.
fn held_texts(output: &mut impl Write) -> Result<()> {
    refused(output, b"\x01\x00\x01\x00\x48", 25, 0)?;
    refused(
        output,
        b"\x48\x01\x00\x01\x00\x50\x60\x02\x00\x00\x00",
        25,
        1,
    )?;
    refused(output, b"\x01\x00\x01\x00\x01\x00\x01\x00\x48", 25, 0)?;
    refused(output, b"\x01\x00\x01\x00\x07\x01\x00\x01\x48", 4, 1)?;
    refused(output, b"\x01\x00\x01\x00\x48\x48", 25, 0)?;
    refused(output, b"\x48\x48", 3, 1)?;
    refused(output, b"\x01\x00\x01\x00\x50\x48", 3, 2)?;
    refused(output, b"\x48\x01\x00\x02\x00", 3, 1)?;
    counted(
        output,
        b"\x01\x00\x01\x00\x50\x60\x02\x00\x00\x00",
        [1, 1, 0, 0, 0, 0, 0, 0],
    )?;
    counted(
        output,
        b"\x48\x41\x01\x00\x00\x00\x00\x50\x60\x02\x00\x00\x00",
        [2, 0, 0, 0, 1, 0, 0, 0],
    )?;
    end_line(output)
}

// A text of three bytes under record 48, accepted or not.
fn is_held(a: u8, b: u8, c: u8) -> bool {
    let job = [
        0x48, 0x01, 0x00, 0x03, a, b, c, 0x50, 0x60, 0x02, 0x00, 0x00, 0x00,
    ];
    !is_refused(&job, 25, 1)
}

// The forms of JVMS 4.4.7: one, two and three bytes, overlong and surrogate ones too; then bytes that no form has in their place.
fn forms_of_texts(output: &mut impl Write) -> Result<()> {
    tell(output, is_held(0x01, 0x41, 0x7f))?;
    tell(output, is_held(0xc0, 0x80, 0x41))?;
    tell(output, is_held(0x41, 0xdf, 0xbf))?;
    tell(output, is_held(0xe0, 0x80, 0x80))?;
    tell(output, is_held(0xed, 0xa0, 0x80))?;
    tell(output, is_held(0xef, 0xbf, 0xbf))?;
    tell(output, !is_held(0x41, 0x00, 0x41))?;
    tell(output, !is_held(0x80, 0x41, 0x41))?;
    tell(output, !is_held(0xbf, 0x41, 0x41))?;
    tell(output, !is_held(0x41, 0x41, 0xc0))?;
    tell(output, !is_held(0xc0, 0x41, 0x41))?;
    tell(output, !is_held(0xc0, 0xc0, 0x80))?;
    tell(output, !is_held(0x41, 0xe0, 0x80))?;
    tell(output, !is_held(0xe0, 0x80, 0x41))?;
    tell(output, !is_held(0xe0, 0x7f, 0x80))?;
    tell(output, !is_held(0xf0, 0x80, 0x80))?;
    tell(output, !is_held(0x41, 0x41, 0xff))?;
    end_line(output)
}

// No. 3: an expression is whole, or ends in a byte that is neither leaf tag nor sign; then its kinds and its depth are judged, then its
// divisors.
fn expressions(output: &mut impl Write) -> Result<()> {
    refused(
        output,
        b"\x46\x2b\x2b\x2b\x2b\x2b\x2b\x2b\x2b\x2b\x2b\x2b\x2b\x2b\x2b\x2b\x2b\x2b\x2b\x2b\x2b\x2b\x2b\x2b\x2b\x2b\x2b\x2b\x2b\x2b\x2b\x2b\x2b",
        3,
        0,
    )?;
    refused(output, b"\x46\x2b\x03\x00\x00\x00\x00\x04", 3, 0)?;
    refused(output, b"\x46\x00", 22, 0)?;
    refused(
        output,
        b"\x46\x2b\x2f\x03\x00\x00\x00\x00\x03\x00\x00\x00\x00\x04\x00\x00\x00\x00",
        22,
        0,
    )?;
    refused(
        output,
        b"\x46\x2a\x03\x00\x00\x00\x00\x2f\x03\x00\x00\x00\x00\x03\x00\x00\x00\x00\x50\x51\x01\x00\x00\x60\x02\x00\x00\x00",
        23,
        0,
    )?;
    refused(output, b"\x50\x46\x00", 3, 1)?;
    refused(
        output,
        b"\x46\x2b\x2b\x2b\x2b\x2b\x2b\x2b\x2b\x2b\x2b\x2b\x2b\x2b\x2b\x2b\x2b\x2b\x2b\x2b\x2b\x2b\x2b\x2b\x2b\x2b\x2b\x2b\x2b\x2b\x2b\x2b\x2b\x03\x00\x00\x00\x00\x03\x00\x00\x00\x00\x03\x00\x00\x00\x00\x03\x00\x00\x00\x00\x03\x00\x00\x00\x00\x03\x00\x00\x00\x00\x03\x00\x00\x00\x00\x03\x00\x00\x00\x00\x03\x00\x00\x00\x00\x03\x00\x00\x00\x00\x03\x00\x00\x00\x00\x03\x00\x00\x00\x00\x03\x00\x00\x00\x00\x03\x00\x00\x00\x00\x03\x00\x00\x00\x00\x03\x00\x00\x00\x00\x03\x00\x00\x00\x00\x03\x00\x00\x00\x00\x03\x00\x00\x00\x00\x03\x00\x00\x00\x00\x03\x00\x00\x00\x00\x03\x00\x00\x00\x00\x03\x00\x00\x00\x00\x03\x00\x00\x00\x00\x03\x00\x00\x00\x00\x03\x00\x00\x00\x00\x03\x00\x00\x00\x00\x03\x00\x00\x00\x00\x03\x00\x00\x00\x00\x03\x00\x00\x00\x00\x03\x00\x00\x00\x00\x03\x00\x00\x00\x00\x03\x00\x00\x00\x00\x50\x60\x02\x00\x00\x00",
        22,
        0,
    )?;
    counted(
        output,
        b"\x46\x2b\x2b\x2b\x2b\x2b\x2b\x2b\x2b\x2b\x2b\x2b\x2b\x2b\x2b\x2b\x2b\x2b\x2b\x2b\x2b\x2b\x2b\x2b\x2b\x2b\x2b\x2b\x2b\x2b\x2b\x2b\x03\x00\x00\x00\x00\x03\x00\x00\x00\x00\x03\x00\x00\x00\x00\x03\x00\x00\x00\x00\x03\x00\x00\x00\x00\x03\x00\x00\x00\x00\x03\x00\x00\x00\x00\x03\x00\x00\x00\x00\x03\x00\x00\x00\x00\x03\x00\x00\x00\x00\x03\x00\x00\x00\x00\x03\x00\x00\x00\x00\x03\x00\x00\x00\x00\x03\x00\x00\x00\x00\x03\x00\x00\x00\x00\x03\x00\x00\x00\x00\x03\x00\x00\x00\x00\x03\x00\x00\x00\x00\x03\x00\x00\x00\x00\x03\x00\x00\x00\x00\x03\x00\x00\x00\x00\x03\x00\x00\x00\x00\x03\x00\x00\x00\x00\x03\x00\x00\x00\x00\x03\x00\x00\x00\x00\x03\x00\x00\x00\x00\x03\x00\x00\x00\x00\x03\x00\x00\x00\x00\x03\x00\x00\x00\x00\x03\x00\x00\x00\x00\x03\x00\x00\x00\x00\x03\x00\x00\x00\x00\x50\x60\x02\x00\x00\x00",
        [1, 1, 0, 0, 0, 0, 0, 0],
    )?;
    counted(
        output,
        b"\x46\x03\x00\x00\x00\x00\x03\x00\x00\x00\x00\x50\x51\x01\x00\x00\x51\x01\x00\x01\x60\x02\x00\x00\x00",
        [2, 2, 0, 0, 0, 0, 0, 2],
    )?;
    counted(
        output,
        b"\x46\x03\x00\x00\x00\x00\x03\x00\x00\x00\x01\x50\x51\x01\x00\x00\x60\x02\x00\x00\x00",
        [2, 2, 0, 0, 0, 0, 0, 1],
    )?;
    counted(
        output,
        b"\x46\x2b\x04\x7f\xc0\x00\x01\x04\x00\x00\x00\x00\x50\x51\x01\x00\x00\x60\x02\x00\x00\x00",
        [1, 1, 0, 0, 0, 0, 0, 1],
    )?;
    counted(
        output,
        b"\x46\x04\x7f\x80\x00\x01\x50\x51\x01\x00\x00\x60\x02\x00\x00\x00",
        [1, 1, 0, 0, 0, 0, 0, 1],
    )?;
    refused(output, b"\x46", 3, 0)?;
    refused(output, b"\x46\x03\x00\x00", 3, 0)?;
    refused(
        output,
        b"\x46\x2f\x05\x00\x00\x00\x00\x00\x00\x00\x01\x05\x00\x00\x00\x00\x00\x00\x00\x00",
        23,
        0,
    )?;
    end_line(output)
}

// Puts a record's bytes at a place of a job, if they fit there.
fn put(job: &mut [u8], at: usize, record: &[u8]) {
    let n = record.len();
    if n <= job.len() && at <= job.len() - n {
        job[at..at + n].copy_from_slice(record);
    }
}

// A job of 29 records, one of every kind and more, in five parts: a comment has the record's number, a call its place.
fn put_literals(job: &mut [u8]) {
    put(job, 0, b"\x01\x00\x02hi"); // 0: text, constant 0
    put(job, 5, b"\x03\x00\x00\x00\x07"); // 1: Int, constant 1
    put(job, 10, b"\x04\x3f\x80\x00\x00"); // 2: Float, constant 2
    put(job, 15, b"\x05\x00\x00\x00\x00\x00\x00\x00\x09"); // 3: Long, constant 3
    put(job, 24, b"\x06\x40\x00\x00\x00\x00\x00\x00\x00"); // 4: Double, constant 4
}

fn put_references(job: &mut [u8]) {
    put(job, 33, b"\x07\x01\x00\x00"); // 5: Class, constant 5
    put(job, 37, b"\x08\x00\x00\x05"); // 6: String, constant 6
    put(job, 41, b"\x09\x01\x00\x05\x02\x01n"); // 7: Fieldref, constant 7
    put(job, 48, b"\x0a\x00\x00\x01\x00\x00\x02"); // 8: Methodref, constant 8
    put(job, 55, b"\x0b\x01\x00\x05\x01\x00\x07"); // 9: InterfaceMethodref, constant 9
    put(job, 62, b"\x0c\x01\x00\x00\x02\x00"); // 10: NameAndType, constant 10
    put(job, 68, b"\x0f\x06\x01\x00\x08"); // 11: MethodHandle, constant 11
}

fn put_bootstraps(job: &mut [u8]) {
    put(job, 73, b"\x10\x01\x00\x00"); // 12: MethodType, constant 12
    put(job, 77, b"\x40\x01\x00\x0b\x00\x02\x01\x00\x01\x02\x01x"); // 13: bootstrap 0 of two arguments
    put(job, 89, b"\x40\x00\x00\x09\x00\x00"); // 14: bootstrap 1
    put(job, 95, b"\x11\x01\x00\x01\x01\x00\x0a"); // 15: Dynamic, constant 13
    put(job, 102, b"\x12\x02\x01b\x01\x00\x0a"); // 16: InvokeDynamic, constant 14
    put(job, 109, b"\x13\x01\x00\x00"); // 17: Module, constant 15
    put(job, 113, b"\x14\x02\x01n"); // 18: Package, constant 16
}

fn put_names_and_raw(job: &mut [u8]) {
    put(job, 117, b"\x41\x01n\x01\x00\x0a"); // 19: names constant 10
    put(job, 123, b"\x42\x01b\x01\x00\x00"); // 20: names bootstrap 0
    put(job, 129, b"\x41\x00\x00\x00\x03"); // 21: the empty name
    put(job, 134, b"\x43\x00\x64\x00\x03"); // 22: raw constant 3
    put(job, 139, b"\x44\x00\x02\x00\x01"); // 23: raw bootstrap 1
}

fn put_requests(job: &mut [u8]) {
    put(job, 144, b"\x50"); // 24
    put(job, 145, b"\x51\x01\x00\x10"); // 25: request 0
    put(job, 149, b"\x52\x00\x00\xff"); // 26: request 1
    put(job, 153, b"\x51\x02\x01n"); // 27: request 2
    put(job, 157, b"\x60\x01\x01\x00\x02"); // 28
}

// Where the records of that job end.
const ENDS: [usize; 29] = [
    5, 10, 15, 24, 33, 37, 41, 48, 55, 62, 68, 73, 77, 89, 95, 102, 109, 113, 117, 123, 129, 134,
    139, 144, 145, 149, 153, 157, 162,
];

// How many records end within so many bytes: the number of the record that holds the next byte.
fn record_at(n: usize) -> usize {
    ENDS.iter().position(|end| n < *end).unwrap_or(ENDS.len())
}

// The job cut after every byte but its last is 3 at the record that is cut or missing.
fn cut_everywhere(output: &mut impl Write, job: &[u8]) -> Result<()> {
    for n in 0..job.len() {
        refused(output, &job[0..n], 3, record_at(n))?;
    }
    end_line(output)
}

// The job with another byte at a place is refused with this number, at the record that has the byte; with none it is still well formed, and
// counts the same.
fn told_with(
    output: &mut impl Write,
    job: [u8; 162],
    at: usize,
    byte: u8,
    refusal: Option<u32>,
) -> Result<()> {
    let mut other = job;
    if at < 162 {
        other[at] = byte;
    }
    match refusal {
        Some(code) => refused(output, &other, code, record_at(at)),
        None => counted(output, &other, [24, 17, 2, 22, 3, 1, 1, 3]),
    }
}

fn told_at_each(
    output: &mut impl Write,
    job: [u8; 162],
    places: &[usize],
    byte: u8,
    refusal: Option<u32>,
) -> Result<()> {
    for at in places {
        told_with(output, job, *at, byte, refusal)?;
    }
    end_line(output)
}

// Where records begin: 15 is no kind of any.
const STARTS: [usize; 29] = [
    0, 5, 10, 15, 24, 33, 37, 41, 48, 55, 62, 68, 73, 77, 89, 95, 102, 109, 113, 117, 123, 129,
    134, 139, 144, 145, 149, 153, 157,
];

// Where a reference's form byte stands, or the name byte of 60, or its class slot's form byte: 3 is none of their forms.
const FORMS: [usize; 30] = [
    34, 38, 42, 45, 49, 52, 56, 59, 63, 66, 70, 74, 78, 83, 86, 90, 96, 99, 103, 106, 110, 114,
    120, 126, 131, 146, 150, 154, 158, 159,
];

// Where a length or a count begins: 255 and more bytes or references don't follow.
const LENGTHS: [usize; 11] = [1, 46, 67, 81, 87, 104, 115, 118, 124, 130, 155];

// Bytes of literals, names and raw slots, and the kind byte of a handle: any will do.
const FREE: [usize; 14] = [3, 6, 11, 16, 25, 39, 47, 50, 53, 69, 91, 119, 135, 151];

// Where a number of an entry or of a request ends, and the first number that isn't there.
const NUMBERS: [(usize, u8); 19] = [
    (36, 5),
    (44, 7),
    (58, 9),
    (61, 9),
    (65, 10),
    (72, 11),
    (76, 12),
    (80, 13),
    (85, 13),
    (98, 2),
    (101, 13),
    (108, 14),
    (112, 15),
    (122, 17),
    (128, 2),
    (138, 17),
    (143, 2),
    (148, 17),
    (161, 3),
];

// A record may cite the last entry before it, and none from itself on.
fn wrong_numbers(output: &mut impl Write, job: [u8; 162]) -> Result<()> {
    for (at, missing) in NUMBERS {
        if 0 < missing {
            told_with(output, job, at, missing, Some(4))?;
            told_with(output, job, at, missing - 1, None)?;
        }
    }
    end_line(output)
}

// Requests and 60 before 50, 50 and definitions after it.
fn out_of_place(output: &mut impl Write, job: [u8; 162]) -> Result<()> {
    told_with(output, job, 33, 0x51, Some(3))?;
    told_with(output, job, 33, 0x60, Some(3))?;
    told_with(output, job, 144, 0x52, Some(3))?;
    told_with(output, job, 145, 0x50, Some(3))?;
    told_with(output, job, 149, 0x07, Some(3))?;
    told_with(output, job, 153, 0x41, Some(3))?;
    told_with(output, job, 158, 0, None)?;
    told_with(output, job, 158, 2, None)?;
    end_line(output)
}

// Entries of so many bytes, a kind and zeros, up to a place.
fn fill(job: &mut [u8], kind: u8, size: usize, end: usize)
    requires { (0 < size) × (size < 8) × (end ≤ length job.old) }
{
    for at in (0..end).step_by(size) {
        job[at] = kind;
    }
}

// What stands behind 65,536 entries is refused at its record, 65,536.
// Beside counted_behind: what the two expect is of two types, and one function of both is no plainer.
fn refused_behind(
    output: &mut impl Write,
    job: &mut [u8],
    at: usize,
    record: &[u8],
    code: u32,
) -> Result<()> {
    let n = record.len();
    if n <= job.len() && at <= job.len() - n {
        put(job, at, record);
        refused(output, &job[..at + n], code, 65536)?;
    }
    Ok(())
}

fn counted_behind(
    output: &mut impl Write,
    job: &mut [u8],
    at: usize,
    record: &[u8],
    expected: [usize; 8],
) -> Result<()> {
    let n = record.len();
    if n <= job.len() && at <= job.len() - n {
        put(job, at, record);
        counted(output, &job[..at + n], expected)?;
    }
    Ok(())
}

// 65,536 texts of no bytes: one constant more is 5, which comes after 3 and before 4, and the last text can be cited.
fn full_constants(output: &mut impl Write, job: &mut [u8]) -> Result<()>
    requires { 196608 ≤ length job.old }
{
    fill(job, 1, 3, 196608);
    counted_behind(
        output,
        job,
        196608,
        b"\x50\x60\x02\x00\x00\x00",
        [65536, 65536, 0, 0, 0, 0, 0, 0],
    )?;
    refused_behind(
        output,
        job,
        196608,
        b"\x01\x00\x00\x50\x60\x02\x00\x00\x00",
        5,
    )?;
    refused_behind(
        output,
        job,
        196608,
        b"\x11\x01\x00\x00\x01\x00\x00\x50\x60\x02\x00\x00\x00",
        5,
    )?;
    refused_behind(output, job, 196608, b"\x01\x00", 3)?;
    refused_behind(output, job, 196608, b"\x07\x03\x00\x00\x50", 3)
}

fn full_constants_cited(output: &mut impl Write, job: &mut [u8]) -> Result<()>
    requires { 196608 ≤ length job.old }
{
    fill(job, 1, 3, 196608);
    counted_behind(
        output,
        job,
        196608,
        b"\x43\x00\x01\xff\xff\x50\x60\x02\x00\x00\x00",
        [65537, 65536, 0, 0, 0, 1, 0, 0],
    )?;
    counted_behind(
        output,
        job,
        196608,
        b"\x40\x01\xff\xff\x00\x00\x50\x60\x02\x00\x00\x00",
        [65537, 65536, 1, 1, 0, 0, 0, 0],
    )
}

// An expression more is 5 before 22 and 23, and 3 if it is cut.
fn full_constants_worked(output: &mut impl Write, job: &mut [u8]) -> Result<()>
    requires { 196608 ≤ length job.old }
{
    fill(job, 1, 3, 196608);
    refused_behind(output, job, 196608, b"\x46\x00", 5)?;
    refused_behind(
        output,
        job,
        196608,
        b"\x46\x2f\x03\x00\x00\x00\x00\x03\x00\x00\x00\x00",
        5,
    )?;
    refused_behind(output, job, 196608, b"\x46\x2b", 3)
}

// 65,536 bootstraps of no arguments: the same for a bootstrap more, and there is still room for a constant.
fn full_bootstraps(output: &mut impl Write, job: &mut [u8]) -> Result<()>
    requires { 393216 ≤ length job.old }
{
    fill(job, 0x40, 6, 393216);
    counted_behind(
        output,
        job,
        393216,
        b"\x50\x60\x02\x00\x00\x00",
        [65536, 0, 65536, 65536, 0, 0, 0, 0],
    )?;
    refused_behind(
        output,
        job,
        393216,
        b"\x40\x01\x00\x00\x00\x00\x50\x60\x02\x00\x00\x00",
        5,
    )?;
    refused_behind(output, job, 393216, b"\x40\x01\x00\x00\x00", 3)?;
    counted_behind(
        output,
        job,
        393216,
        b"\x01\x00\x00\x50\x60\x02\x00\x00\x00",
        [65537, 1, 65536, 65536, 0, 0, 0, 0],
    )?;
    counted_behind(
        output,
        job,
        393216,
        b"\x12\x01\xff\xff\x00\x00\x01\x50\x60\x02\x00\x00\x00",
        [65537, 1, 65536, 65538, 0, 0, 0, 0],
    )
}

fn full_tables(output: &mut impl Write) -> Result<()> {
    let mut texts = [0u8; 196700];
    full_constants(output, &mut texts)?;
    full_constants_cited(output, &mut texts)?;
    full_constants_worked(output, &mut texts)?;
    end_line(output)?;
    let mut bootstraps = [0u8; 393300];
    full_bootstraps(output, &mut bootstraps)?;
    end_line(output)
}

fn main(rt: HostRuntime) -> Result<()> {
    let mut stream = BufWriter::new(rt.alloc(), rt.stdout())?;
    let output = &mut stream;
    first_faults(output)?;
    tags_and_names(output)?;
    two_tables(output)?;
    known_jobs_to_e(output)?;
    known_jobs_from_f(output)?;
    highest_slots(output)?;
    versions(output)?;
    held_texts(output)?;
    forms_of_texts(output)?;
    expressions(output)?;
    let mut job = [0u8; 162];
    put_literals(&mut job);
    put_references(&mut job);
    put_bootstraps(&mut job);
    put_names_and_raw(&mut job);
    put_requests(&mut job);
    counted(output, &job, [24, 17, 2, 22, 3, 1, 1, 3])?;
    end_line(output)?;
    cut_everywhere(output, &job)?;
    told_at_each(output, job, &STARTS, 0x15, Some(3))?;
    told_at_each(output, job, &FORMS, 3, Some(3))?;
    told_at_each(output, job, &LENGTHS, 0xff, Some(3))?;
    told_at_each(output, job, &FREE, 0xff, None)?;
    wrong_numbers(output, job)?;
    out_of_place(output, job)?;
    full_tables(output)?;
    output.flush()
}

// A job's line, as the driver of oracle/ prints it: `refused CODE PLACE`, or `built answers N A MARK.. pool LENGTH HEX bootstraps COUNT LENGTH
// HEX name SLOT class LENGTH HEX visits V`. Text waits in the writer that is lent, and is written at the line's end at the latest.
use super::Memory;
use cpool::Built;
use refusal::Refused;
use std::io;
use std::io::Write;

fn digit(n: u8) -> u8 {
    if n < 10 { n + b'0' } else { n % 16 + 87 }
}

// A byte in hex, by hand: a pool has very many, and `write!` sets its formatting up anew for each.
fn put_byte(text: &mut impl Write, b: u8) -> io::Result<()> {
    text.write_all(&[digit(b / 16), digit(b % 16)])
}

// The first n bytes in hex behind their number; no bytes are a dash.
fn put_bytes(text: &mut impl Write, s: &[u8], n: usize) -> io::Result<()> {
    write!(text, " {n} ")?;
    if n == 0 {
        return text.write_all(b"-");
    }
    for b in s.iter().take(n) {
        put_byte(text, *b)?;
    }
    Ok(())
}

// How an answer was come by.
fn mark_word(mark: u8) -> &'static str {
    match mark {
        0 => "raw",
        1 => "new",
        _ => "old",
    }
}

// The first n answers and their marks, behind their number.
fn put_answers(text: &mut impl Write, answers: &[u16], marks: &[u8], n: usize) -> io::Result<()> {
    write!(text, "built answers {n}")?;
    for (answer, mark) in answers.iter().zip(marks).take(n) {
        let word = mark_word(*mark);
        write!(text, " {answer} {word}")?;
    }
    Ok(())
}

fn put_built(text: &mut impl Write, built: Built, memory: &Memory) -> io::Result<()> {
    put_answers(text, memory.answers, memory.marks, built.answers)?;
    text.write_all(b" pool")?;
    put_bytes(text, memory.pool, built.pool)?;
    let count = built.bootstrap_count;
    write!(text, " bootstraps {count}")?;
    put_bytes(text, memory.bootstraps, built.bootstraps)?;
    let name = built.name;
    write!(text, " name {name} class")?;
    match built.class_name {
        None => text.write_all(b" none")?,
        Some(n) => put_bytes(text, memory.class_name, n)?,
    }
    let visits = built.visits;
    write!(text, " visits {visits}")
}

fn put_refused(text: &mut impl Write, refused: Refused) -> io::Result<()> {
    let code = u32::from(refused.refusal);
    let place = refused.place;
    write!(text, "refused {code} {place}")
}

// A line of what a run gives, and of the memory that it ran over.
pub(crate) fn print_outcome(
    text: &mut impl Write,
    outcome: Result<Built, Refused>,
    memory: &Memory,
) -> io::Result<()> {
    match outcome {
        Ok(built) => put_built(text, built, memory)?,
        Err(refused) => put_refused(text, refused)?,
    }
    text.write_all(b"\n")?;
    text.flush()
}

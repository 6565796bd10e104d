// Reads frames from standard input, runs in each a loader's trace over a pool (document 02, No. 12) and prints a line for it: `good G failed
// F rested R flags` or `refused CODE flags`, then every flag that isn't 0 in the end, as ` SLOT=VALUE`.
//
// A frame: the pool's length (four bytes, at most 262,144) and bytes; the trace's length (at most 4,194,304) and bytes; how long the table of
// flags is (four bytes, at most 65,600); how many flags are given (two bytes); each flag's slot (two bytes) and value. Others are 0.
#![tactic(auto)]

ghost use Rattle.std.specs.Prelude.{◌≤◌, length};

use frames::{End, Line, ReadError};
use refusal::Refusal;
use std::io::{self, Read, Write};
use trace::Counts;
use writer::BigEndian;

// A flag that is given: its slot in two bytes, and its value.
const FLAG: usize = 3;

// The longest table of flags.
const MOST_FLAGS: usize = 65600;

// Sets the flags that are given.
fn set_flags(flags: &mut [u8], given: &[u8])
    requires { 65536 ≤ length flags.old }
{
    for i in 0..given.len() / FLAG {
        let slot = u16::get(given, FLAG * i) as usize;
        flags[slot] = given[FLAG * i + 2];
    }
}

fn put_flags(line: &mut Line, flags: &[u8]) {
    line.put_word(b" flags");
    for (slot, value) in flags.iter().enumerate() {
        if *value != 0 {
            line.put_number(slot);
            line.put_word(b"=");
            line.put_decimal(*value as usize);
        }
    }
}

fn put_counts(line: &mut Line, counts: Counts) {
    line.put_word(b"good");
    line.put_number(counts.good);
    line.put_word(b" failed");
    line.put_number(counts.failed);
    line.put_word(b" rested");
    line.put_number(counts.rested);
}

fn put_traced(line: &mut Line, traced: Result<Counts, Refusal>) {
    match traced {
        Ok(counts) => put_counts(line, counts),
        Err(refusal) => line.put_refusal(refusal.into()),
    }
}

// Runs a trace over a pool and flags, and writes its line.
fn run_part(
    output: &mut impl Write,
    pool: &[u8],
    trace: &[u8],
    flags: &mut [u8],
    text: &mut [u8],
) -> Result<(), End> {
    let mut line = Line::new(text);
    put_traced(&mut line, trace::run_trace(pool, trace, flags));
    put_flags(&mut line, flags);
    line.end(output)?;
    Ok(())
}

// Reads a trace and runs it, or says how the stream ends.
fn next_trace(
    input: &mut impl Read,
    output: &mut impl Write,
    pool: &mut [u8; 262144],
    trace: &mut [u8; 4194304],
    given: &mut [u8; 196608],
    text: &mut [u8; 1048576],
) -> Result<(), End> {
    let n = frames::next_block(input, pool)?;
    let size = frames::next_block(input, trace).map_err(ReadError::inside)?;
    let mut head = [0u8; 6];
    frames::read_part(input, &mut head, 6).map_err(ReadError::inside)?;
    let slots = u32::get(&head, 0) as usize;
    let number = u16::get(&head, 4) as usize;
    if MOST_FLAGS < slots {
        return Err(End::Cut);
    }
    frames::read_part(input, given, FLAG * number).map_err(ReadError::inside)?;
    let mut flags = [0u8; MOST_FLAGS];
    set_flags(&mut flags, &given[..FLAG * number]);
    run_part(
        output,
        &pool[..n],
        &trace[..size],
        &mut flags[..slots],
        text,
    )
}

// Traces in turn; how the stream ends is told.
fn run_stream(
    input: &mut impl Read,
    output: &mut impl Write,
    errors: &mut impl Write,
    pool: &mut [u8; 262144],
    trace: &mut [u8; 4194304],
    given: &mut [u8; 196608],
    text: &mut [u8; 1048576],
) -> io::Result<()> {
    frames::answer_all(errors, b"trace_run", || {
        next_trace(input, output, pool, trace, given, text)
    })
}

fn main(rt: HostRuntime) -> io::Result<()> {
    let mut pool = [0u8; 262144];
    let mut trace = [0u8; 4194304];
    let mut given = [0u8; 196608];
    let mut text = [0u8; 1048576];
    run_stream(
        &mut rt.stdin(),
        &mut rt.stdout(),
        &mut rt.stderr(),
        &mut pool,
        &mut trace,
        &mut given,
        &mut text,
    )
}

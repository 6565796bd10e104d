// Runs stored jobs, packed as packed.rt says, and prints a line for each. `stdout` has the Rust's lines for them, so that the builder is
// held to the Rust where there is no Rust; `make` beside src/ makes both files anew.
//
// Memory is the stack's, 6.6 MB, but for the text that waits to be written: enough for jobs of 200,000 bytes and outputs of 65,536. Of
// longer jobs only those are stored that are too long for any memory; the others are run from Rust, over the heap (docs/DECISIONS.md).
#![tactic(auto)]

mod line;
mod packed;

use cpool::Built;
use packed::{Lent, next_packed};
use refusal::Refused;
use slots::Gap;
use std::io;
use std::io::{BufWriter, Read, Write};

// How much text waits before it is written.
const WAITING: usize = 16384;

// The memory of which runs are lent.
#[derive(Drop)]
struct Memory<'a> {
    work: &'a mut [u32],
    gaps: &'a mut [Gap],
    answers: &'a mut [u16],
    marks: &'a mut [u8],
    pool: &'a mut [u8],
    bootstraps: &'a mut [u8],
    class_name: &'a mut [u8],
}

// Runs a job over no more of the memory than it is lent.
fn run_lent(job: &[u8], lent: Lent, memory: &mut Memory) -> Result<Built, Refused> {
    let words = lent.words.min(memory.work.len());
    let gaps = lent.gaps.min(memory.gaps.len());
    let answers = lent.answers.min(memory.answers.len());
    let marks = lent.answers.min(memory.marks.len());
    let pool = lent.pool.min(memory.pool.len());
    let bootstraps = lent.bootstraps.min(memory.bootstraps.len());
    let class_name = lent.class_name.min(memory.class_name.len());
    cpool::run(
        job,
        &mut memory.work[..words],
        &mut memory.gaps[..gaps],
        &mut memory.answers[..answers],
        &mut memory.marks[..marks],
        &mut memory.pool[..pool],
        &mut memory.bootstraps[..bootstraps],
        &mut memory.class_name[..class_name],
    )
}

// Runs all jobs, up to the stream's end or one that can't be unpacked.
fn run_all(
    input: &mut impl Read,
    text: &mut impl Write,
    job: &mut [u8],
    memory: &mut Memory,
) -> io::Result<()> {
    for _ in 0..u64::MAX {
        let Some((size, lent)) = next_packed(input, job)? else {
            break;
        };
        let outcome = run_lent(&job[..size.min(job.len())], lent, memory);
        line::print_outcome(text, outcome, memory)?;
    }
    Ok(())
}

fn run_over(
    input: &mut impl Read,
    text: &mut impl Write,
    job: &mut [u8; 1114112],
    work: &mut [u32; 1201024],
    gaps: &mut [Gap; 40002],
    answers: &mut [u16; 65536],
    marks: &mut [u8; 65536],
    pool: &mut [u8; 65536],
    bootstraps: &mut [u8; 65536],
    class_name: &mut [u8; 65536],
) -> io::Result<()> {
    let mut memory = Memory {
        work,
        gaps,
        answers,
        marks,
        pool,
        bootstraps,
        class_name,
    };
    run_all(input, text, job, &mut memory)
}

fn main(rt: HostRuntime) -> io::Result<()> {
    let mut job = [0u8; 1114112];
    let mut work = [0u32; 1201024];
    let mut gaps = [slots::no_gap(); 40002];
    let mut answers = [0u16; 65536];
    let mut marks = [0u8; 65536];
    let mut pool = [0u8; 65536];
    let mut bootstraps = [0u8; 65536];
    let mut class_name = [0u8; 65536];
    let mut text = BufWriter::with_capacity(rt.alloc(), WAITING, rt.stdout())?;
    run_over(
        &mut rt.stdin(),
        &mut text,
        &mut job,
        &mut work,
        &mut gaps,
        &mut answers,
        &mut marks,
        &mut pool,
        &mut bootstraps,
        &mut class_name,
    )
}

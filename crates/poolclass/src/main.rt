// Reads a job (document 01) of at most 65,536 bytes from standard input and writes a class file around its pool (document 02, No. 7) to
// standard output: version 52.0, access flags 0x0021 (public, and super), the answer to the job's first request as this class, that to the
// second as super class (0 where there is none), and the BootstrapMethods attribute if the job's build has the name. Nothing else is looked
// at: whether those slots hold classes is the job's affair.
//
// A refusal is told on standard error as `refused CODE PLACE`; the file's own (27: bootstrap methods and no name) has place 0. A read or a
// write that fails ends the program with its error; an output that can't be written is told on standard error besides.
#![tactic(auto)]

use class_file::Parts;
use cpool::Built;
use frames::WriteError;
use refusal::Refused;
use std::io;
use std::io::{Read, Write};

const LONGEST_JOB: usize = 65536;

// What a run writes, but for marks and class name, which aren't used.
#[derive(Drop)]
struct Outputs<'a> {
    answers: &'a mut [u16],
    pool: &'a mut [u8],
    bootstraps: &'a mut [u8],
}

// Runs a job over gaps of the stack.
fn run_job(job: &[u8], work: &mut [u32], outputs: &mut Outputs) -> Result<Built, Refused> {
    let mut gaps = [slots::no_gap(); 13109];
    let mut marks = [0u8; 21846];
    let mut class_name = [0u8; 65536];
    cpool::run(
        job,
        work,
        &mut gaps,
        outputs.answers,
        &mut marks,
        outputs.pool,
        outputs.bootstraps,
        &mut class_name,
    )
}

// A slot or a count, of which none is longer.
fn short(n: usize) -> u16 {
    u16::try_from(n).unwrap_or(0)
}

// The answer to a request, 0 where there is none.
fn answer(answers: &[u16], i: usize) -> u16 {
    answers.get(i).copied().unwrap_or(0)
}

// The file around what a run gave.
fn parts_of<'a>(built: Built, outputs: &'a Outputs) -> Parts<'a> {
    let answers = &outputs.answers[..built.answers.min(outputs.answers.len())];
    Parts {
        minor: 0,
        major: 52,
        pool: &outputs.pool[..built.pool.min(outputs.pool.len())],
        access_flags: 0x0021,
        this_class: answer(answers, 0),
        super_class: answer(answers, 1),
        name: short(built.name),
        count: short(built.bootstrap_count),
        bootstraps: &outputs.bootstraps[..built.bootstraps.min(outputs.bootstraps.len())],
    }
}

// Writes the file of a job; its length, or why the job or the file is refused.
fn write_file(
    job: &[u8],
    work: &mut [u32],
    outputs: &mut Outputs,
    file: &mut [u8],
) -> Result<usize, Refused> {
    let built = run_job(job, work, outputs)?;
    let parts = parts_of(built, outputs);
    class_file::write_class(&parts, file).map_err(|refusal| Refused { refusal, place: 0 })
}

fn put_file(
    output: &mut impl Write,
    errors: &mut impl Write,
    written: Result<usize, Refused>,
    file: &[u8],
) -> io::Result<()> {
    match written {
        Ok(n) => {
            let put = frames::write_part(output, file, n);
            if put.is_err() {
                errors.write_all(b"poolclass: the output can't be written\n")?;
            }
            match put {
                Err(WriteError::Failed(error)) => Err(error),
                _ => Ok(()),
            }
        }
        Err(refused) => {
            let code = u32::from(refused.refusal);
            let place = refused.place;
            writeln!(errors, "refused {code} {place}")
        }
    }
}

fn make_file(
    output: &mut impl Write,
    errors: &mut impl Write,
    job: &[u8],
    work: &mut [u32; 394240],
    answers: &mut [u16; 21846],
    pool: &mut [u8; 524288],
    bootstraps: &mut [u8; 262144],
    file: &mut [u8; 786496],
) -> io::Result<()> {
    let mut outputs = Outputs {
        answers,
        pool,
        bootstraps,
    };
    let written = write_file(job, work, &mut outputs, file);
    put_file(output, errors, written, file)
}

fn main(rt: HostRuntime) -> io::Result<()> {
    // One byte more than a job may have, so that a longer one is seen.
    let mut job = Vec::new(rt.alloc());
    let mut input = rt.stdin().take(65537);
    input.read_to_end(&mut job)?;
    if LONGEST_JOB < job.len() {
        return rt
            .stderr()
            .write_all(b"poolclass: the job has more than 65,536 bytes\n");
    }
    let mut work = [0u32; 394240];
    let mut answers = [0u16; 21846];
    let mut pool = [0u8; 524288];
    let mut bootstraps = [0u8; 262144];
    let mut file = [0u8; 786496];
    make_file(
        &mut rt.stdout(),
        &mut rt.stderr(),
        &job,
        &mut work,
        &mut answers,
        &mut pool,
        &mut bootstraps,
        &mut file,
    )
}

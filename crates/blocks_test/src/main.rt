// Runs the two block functions on jobs and files that are worked out from document 01 by plain arithmetic. Each line: the
// case, the number, the place and the length returned, and whether the output holds what it should and nothing behind it.
#![tactic(auto)]

ghost use Rattle.std.specs.Prelude.{◌<◌, ◌≤◌};

use std::io::Result;

// What bytes are: a job of the tests or its file, or the job of case b or its file.
#[derive(Clone, Copy)]
enum Form {
    Job,
    File,
    JobB,
    FileB,
}

// What an output holds before a call.
const BEFORE: u8 = 7;

const CASE_B: [u8; 18] = [
    1, 0, 1, 0x41, 7, 1, 0, 0, 0x50, 0x51, 1, 0, 1, 0x60, 2, 1, 0, 0,
];

fn job_b_byte(at: usize) -> u8 {
    if at < 18 { CASE_B[at] } else { 0 }
}

// One block: number 0, use 18, the job, zeros, and the check 0000123d.
fn file_b_byte(at: usize) -> u8 {
    match at {
        0 | 1 | 2 | 508 | 509 => 0,
        3 => 18,
        510 => 0x12,
        511 => 0x3d,
        _ => job_b_byte(at - 4),
    }
}

// A job of the tests: its bytes in block k are k % 251 + 1.
fn job_byte(at: usize) -> u8 {
    (at / 504 % 251 + 1) as u8
}

// How many of a job's bytes are in block k.
fn used_of(size: usize, k: usize) -> usize
    requires { k < 65536 }
    ensures { result ≤ 504 }
{
    if size < 504 * k {
        return 0;
    }
    if size - 504 * k < 504 {
        size - 504 * k
    } else {
        504
    }
}

// The check of block k: number and use weigh 1 to 4, and the used bytes, all k % 251 + 1, weigh 5, 6, .. used + 4.
fn check_of(k: usize, used: usize) -> usize
    requires k_bound { k < 65536 }
    requires used_bound { used ≤ 504 }
{
    let weights = (used + 4) * (used + 5) / 2 - 10;
    k / 256 + 2 * (k % 256) + 3 * (used / 256) + 4 * (used % 256) + (k % 251 + 1) * weights
}

// What stands in a job's file.
fn file_byte(size: usize, at: usize) -> u8 {
    let k = at / 512 % 65536;
    let used = used_of(size, k);
    let check = check_of(k, used);
    match at % 512 {
        0 => (k / 256) as u8,
        1 => (k % 256) as u8,
        2 => (used / 256) as u8,
        3 => (used % 256) as u8,
        508 => (check / 16777216 % 256) as u8,
        509 => (check / 65536 % 256) as u8,
        510 => (check / 256 % 256) as u8,
        511 => (check % 256) as u8,
        q => { if q < 4 + used { job_byte(504 * k) } else { 0 } }
    }
}

// What stands at a place of bytes of which so many are written; size is the job's, for the file of a job of the tests.
fn wanted(form: Form, size: usize, written: usize, at: usize) -> u8 {
    if written <= at {
        return BEFORE;
    }
    match form {
        Form::Job => job_byte(at),
        Form::File => file_byte(size, at),
        Form::JobB => job_b_byte(at),
        Form::FileB => file_b_byte(at),
    }
}

fn fill(s: &mut [u8], form: Form, size: usize, written: usize) {
    for (i, b) in s.iter_mut().enumerate() {
        *b = wanted(form, size, written, i);
    }
}

fn holds(s: &[u8], form: Form, size: usize, written: usize) -> bool {
    s.iter()
        .enumerate()
        .all(|(i, &b)| b == wanted(form, size, written, i))
}

fn verdict(right: bool) -> &'static str {
    if right { "ok" } else { "WRONG" }
}

// A case's numbers, the three numbers returned, and whether the output holds what it should.
fn line(
    rt: &impl Print,
    what: &str,
    n: usize,
    room: usize,
    code: u32,
    place: usize,
    size: usize,
    right: bool,
) -> Result<()> {
    let word = verdict(right);
    println!(rt; "{what}{n} into {room}: {code} {place} {size} {word}")
}

// Writes a job, whose file is of this form.
fn write_job(rt: &impl Print, job: &[u8], out: &mut [u8], form: Form) -> Result<()> {
    fill(out, Form::Job, 0, 0);
    let mut place = 9;
    let mut size = 9;
    let code = blocks::blocks_write(job, out, &mut place, &mut size);
    line(
        rt,
        "write ",
        job.len(),
        out.len(),
        code,
        place,
        size,
        holds(out, form, job.len(), size),
    )
}

// Reads a file, whose job is of this form.
fn read_file(rt: &impl Print, file: &[u8], out: &mut [u8], form: Form) -> Result<()> {
    fill(out, Form::Job, 0, 0);
    let mut place = 9;
    let mut size = 9;
    let code = blocks::blocks_read(file, out, &mut place, &mut size);
    line(
        rt,
        "read ",
        file.len(),
        out.len(),
        code,
        place,
        size,
        holds(out, form, 0, size),
    )
}

// Writes the first n bytes of a job.
fn write(
    rt: &impl Print,
    job: &mut [u8],
    form: Form,
    n: usize,
    out: &mut [u8],
    file_form: Form,
    room: usize,
) -> Result<()> {
    fill(job, form, 0, n);
    if n <= job.len() {
        if room <= out.len() {
            write_job(rt, &job[..n], &mut out[..room], file_form)?;
        }
    }
    Ok(())
}

// Reads the first n bytes of a file.
fn read(
    rt: &impl Print,
    file: &[u8],
    n: usize,
    out: &mut [u8],
    form: Form,
    room: usize,
) -> Result<()> {
    if n <= file.len() {
        if room <= out.len() {
            read_file(rt, &file[..n], &mut out[..room], form)?;
        }
    }
    Ok(())
}

fn put(file: &mut [u8], at: usize, byte: u8) {
    if at < file.len() {
        file[at] = byte;
    }
}

// Jobs of so many bytes into so much room.
const WRITES: [[usize; 2]; 11] = [
    [0, 600],
    [1, 512],
    [503, 600],
    [504, 600],
    [505, 1024],
    [1048576, 1065473],
    // 18
    [0, 511],
    [505, 1023],
    [1048576, 1065471],
    // 1, and before 18
    [1048577, 1065985],
    [1048577, 0],
];

fn writes(rt: &impl Print, job: &mut [u8], file: &mut [u8]) -> Result<()> {
    for [n, room] in WRITES {
        write(rt, job, Form::Job, n, file, Form::File, room)?;
    }
    Ok(())
}

// The first bytes, so many, of the file of a job of so many bytes, into so much room.
const READS: [[usize; 3]; 15] = [
    [512, 0, 0],
    [512, 1, 20],
    [512, 503, 503],
    [512, 504, 600],
    [1024, 505, 505],
    [1065472, 1048576, 1048577],
    // 20, and before 1
    [0, 0, 0],
    [511, 1, 600],
    [513, 504, 600],
    [1065985, 1048825, 0],
    // 1 for 2,082 blocks, right ones or, before 19, with a wrong use in the last; and for a job that is too long, before 18
    [1065984, 1048825, 1048577],
    [1065984, 1048824, 0],
    [1065472, 1048577, 0],
    // 18
    [512, 1, 0],
    [1024, 505, 504],
];

fn reads(rt: &impl Print, job: &mut [u8], file: &mut [u8]) -> Result<()> {
    for [n, size, room] in READS {
        fill(file, Form::File, size, n);
        read(rt, file, n, job, Form::Job, room)?;
    }
    Ok(())
}

// The file of a job, in three blocks, with two bytes changed: the job's size, then each byte's place and its value. The
// checks are 0001fcdf, 0003f5dd and, for 1,010 bytes, 0000002d, for 1,512 bytes 0005eedb.
const DAMAGES: [[usize; 5]; 10] = [
    // the check of block 1
    [1010, 1023, 0xde, 1023, 0xde],
    // a byte of block 1
    [1010, 516, 3, 516, 3],
    // a byte of block 2 that isn't used; then its check too, which is right again: only the padding is wrong
    [1010, 1124, 1, 1124, 1],
    [1010, 1124, 1, 1535, 0x92],
    // block 1 with number 2, and its check
    [1010, 513, 2, 1023, 0xdf],
    // block 1 with use 503, and its check
    [1010, 515, 0xf7, 1023, 0xd9],
    // block 2 with use 0, 514 and 505, and its check
    [1010, 1027, 0, 1535, 0x25],
    [1010, 1026, 2, 1535, 0x33],
    [1512, 1027, 0xf9, 1535, 0xdf],
    // the checks of blocks 2 and 0
    [1512, 1535, 0, 511, 0],
];

fn damages(rt: &impl Print, job: &mut [u8], file: &mut [u8]) -> Result<()> {
    for [size, first, byte, second, other] in DAMAGES {
        fill(file, Form::File, size, 1536);
        put(file, first, (byte % 256) as u8);
        put(file, second, (other % 256) as u8);
        read(rt, file, 1536, job, Form::Job, 1600)?;
    }
    Ok(())
}

// Reads a file that ends with block k: 1 if it is refused with 19 at that block, else 0.
fn refused_at(file: &[u8], out: &mut [u8], k: usize) -> usize
    ensures { result ≤ 1 }
{
    let mut place = 9;
    let mut size = 9;
    let code = blocks::blocks_read(file, out, &mut place, &mut size);
    if code != 19 {
        return 0;
    }
    if place != k {
        return 0;
    }
    if size != 0 {
        return 0;
    }
    1
}

fn put_check(file: &mut [u8], at: usize, check: usize)
    requires { at < 65536 }
{
    put(file, at, (check / 16777216 % 256) as u8);
    put(file, at + 1, (check / 65536 % 256) as u8);
    put(file, at + 2, (check / 256 % 256) as u8);
    put(file, at + 3, (check % 256) as u8);
}

// How many of the values 1 to 255 at a place of block k, with the check that goes with them, are refused.
fn refused_values(file: &mut [u8], out: &mut [u8], k: usize, place: usize, check: usize) -> usize
    requires k_bound { k < 100 }
    requires place_bound { place < 508 }
    ensures { result ≤ 255 }
{
    let mut refused = 0;
    let mut sum = check % 4294967296;
    for value in 1..256usize {
        sum += place + 1;
        put(file, 512 * k + place, value as u8);
        put_check(file, 512 * k + 508, sum);
        refused += refused_at(file, out, k);
    }
    put(file, 512 * k + place, 0);
    refused
}

// Old memory in the last block of a job's file: each value at each place behind the used bytes is refused, and nothing is written.
fn old_memory(rt: &impl Print, file: &mut [u8], out: &mut [u8], size: usize) -> Result<()> {
    let k = size / 504 % 100;
    let used = used_of(size, k);
    let check = check_of(k, used);
    fill(file, Form::File, size, 512 * (k + 1));
    fill(out, Form::Job, 0, 0);
    let mut refused = 0;
    for place in 4 + used..508 {
        refused += refused_values(file, out, k, place, check);
    }
    count_line(
        rt,
        size,
        refused,
        255 * (504 - used),
        k,
        holds(out, Form::Job, 0, 0),
    )
}

// How many of the files were refused at block k, and whether the output is as it was.
fn count_line(
    rt: &impl Print,
    size: usize,
    refused: usize,
    files: usize,
    k: usize,
    right: bool,
) -> Result<()> {
    let word = verdict(right);
    println!(rt; "old memory behind {size} bytes: {refused} of {files} refused at block {k} {word}")
}

// Old memory in a file of n bytes.
fn remember(
    rt: &impl Print,
    file: &mut [u8],
    n: usize,
    out: &mut [u8],
    room: usize,
    size: usize,
) -> Result<()> {
    if n <= file.len() {
        if room <= out.len() {
            old_memory(rt, &mut file[..n], &mut out[..room], size)?;
        }
    }
    Ok(())
}

// An empty job, and jobs of three blocks with much padding and with one byte of it.
fn old_memories(rt: &impl Print, job: &mut [u8], file: &mut [u8]) -> Result<()> {
    remember(rt, file, 512, job, 20, 0)?;
    remember(rt, file, 1536, job, 1600, 1010)?;
    remember(rt, file, 1536, job, 1600, 1511)
}

fn case_b(rt: &impl Print, job: &mut [u8], file: &mut [u8]) -> Result<()> {
    write(rt, job, Form::JobB, 18, file, Form::FileB, 513)?;
    fill(file, Form::FileB, 0, 512);
    read(rt, file, 512, job, Form::JobB, 19)
}

fn run(rt: &impl Print, job: &mut [u8], file: &mut [u8]) -> Result<()> {
    case_b(rt, job, file)?;
    writes(rt, job, file)?;
    reads(rt, job, file)?;
    damages(rt, job, file)?;
    old_memories(rt, job, file)
}

fn main(rt: HostRuntime) -> Result<()> {
    let mut job = [0u8; 1048577];
    let mut file = [0u8; 1065985];
    run(&rt, &mut job, &mut file)
}

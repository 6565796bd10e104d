// The block file of document 01, both ways.
#![tactic(auto)]

ghost use Rattle.std.specs.Prelude.{◌≡◌, ℕ, suc, ◌+◌, ◌*◌, ◌<◌, ◌≤◌, min, eqb, length, replicate, MatchOption};
ghost use Rattle.std.proofs.Math.Seq.{paste};
ghost use Rattle.definition.specs.Basics.{concat, from};
ghost use Rattle.definition.specs.Run.{overwrite};
ghost use Rattle.definition.specs.Blocks.{weighted, blocks_for, written_block, write_blocks};
ghost use Rattle.definition.specs.Blocks.{right_use, padding, all_zero, right_block, block_at, used_in, read_blocks, blocks_after};
ghost use Rattle.refusal.specs.Numbers.{told_of};
ghost use Rattle.blocks.specs.Answers.{length_of, numbers_of, Told};
ghost use Rattle.blocks.specs.File.{data_of, RightBelow, FirstWrong};

use refusal::{Refusal, Refused};
use writer::BigEndian;

// A block: number and use, two bytes each, 504 bytes of a job, and a check over the 508 bytes before it.
const BLOCK: usize = 512;

const HEAD: usize = 4;

const CONTENT: usize = 504;

const CHECKED: usize = 508;

const MOST_BLOCKS: usize = 2081;

const LONGEST_JOB: usize = 1048576;

// A refusal that isn't a block's has place 0.
fn refused(refusal: Refusal) -> Refused
    ensures { result ≡ record { refusal = refusal; place = 0 } }
{
    Refused { refusal, place: 0 }
}

// The sum over the bytes of (position + 1) x byte.
fn weighted_sum(s: &[u8]) -> u32
    requires { length s.now ≤ 508 }
    ensures { result ≡ weighted 0 s.now }
{
    let mut sum: u32 = 0;
    for (i, &b) in s.iter().enumerate() {
        sum += (i + 1) as u32 * b as u32;
    }
    sum
}

// Writes n zeros.
fn pad(d: &mut [u8], at: usize, n: usize)
    requires { at + n ≤ length d.old }
    ensures { d.new ≡ paste d.old at (replicate n 0) n }
{
    d[at..at + n].fill(0);
}

// How many of the bytes that are left go into a block.
fn in_block(left: usize) -> usize
    ensures { result ≡ min 504 left }
{
    left.min(CONTENT)
}

// Writes block k of a job, which begins in it.
fn put_block(job: &[u8], out: &mut [u8], k: usize)
    requires { (k < 2081) × (504 * k ≤ length job.now) × (512 * k + 512 ≤ length out.old) }
    ensures { out.new ≡ paste out.old (512 * k) (written_block job.now k) 512 }
{
    let base = BLOCK * k;
    let from = CONTENT * k;
    let used = in_block(job.len() - from);
    (k as u16).put(out, base);
    (used as u16).put(out, base + 2);
    writer::copy(job, from, out, base + HEAD, used);
    pad(out, base + HEAD + used, CONTENT - used);
    let end = base + CHECKED;
    let check = weighted_sum(&out[base..end]);
    check.put(out, end);
}

fn put_blocks(job: &[u8], out: &mut [u8], n: usize)
    requires { (n ≤ 2081) × (504 * n ≤ length job.now + 504) × (512 * n ≤ length out.old) }
    ensures { out.new ≡ overwrite (concat (from (written_block job.now) 0 n)) out.old }
{
    for k in 0..n {
        put_block(job, out, k);
    }
}

fn blocks_for(size: usize) -> usize
    ensures { result ≡ blocks_for size }
{
    if size == 0 {
        1
    } else {
        (size - 1) / CONTENT + 1
    }
}

pub fn write_blocks(job: &[u8], out: &mut [u8]) -> Result<usize, Refused>
    ensures result_value { told_of result ≡ length_of (write_blocks (length out.old) job.now) }
    ensures out_after { out.new ≡ blocks_after (write_blocks (length out.old) job.now) out.old }
{
    let n = blocks_for(job.len());
    let file_size = BLOCK * n;
    if LONGEST_JOB < job.len() {
        return Err(refused(Refusal::JobTooLong));
    }
    if out.len() < file_size {
        return Err(refused(Refusal::OutputTooShort));
    }
    put_blocks(job, out, n);
    Ok(file_size)
}

// Whether block k of n may use this many bytes: all but the last use 504, and only an empty job's one block uses none.
fn right_use(last: usize, k: usize, used: usize) -> bool
    requires { k ≤ last }
    ensures { result ≡ right_use (eqb (suc last) 1) (eqb (suc k) (suc last)) used }
{
    if k < last {
        return used == CONTENT;
    }
    if CONTENT < used {
        return false;
    }
    if last == 0 {
        return true;
    }
    0 < used
}

fn used_in(file: &[u8], k: usize) -> usize
    requires { 512 * k + 512 ≤ length file.now }
    ensures { result ≡ used_in (block_at file.now k) }
{
    u16::get(file, BLOCK * k + 2) as usize
}

fn all_zero(bytes: &[u8]) -> bool
    ensures { result ≡ all_zero bytes.now }
{
    bytes.iter().all(|&b| b == 0)
}

// Whether the bytes of block k behind the used ones are zero. Its use was tested before: no block has more than 504.
fn zero_padding(file: &[u8], k: usize) -> bool
    requires { (512 * k + 512 ≤ length file.now) × (used_in (block_at file.now k) ≤ 504) }
    ensures { result ≡ all_zero (padding (block_at file.now k)) }
{
    let content = BLOCK * k + HEAD;
    let used = used_in(file, k);
    all_zero(&file[content + used..content + CONTENT])
}

// Whether block k is right: its check, its number, its use, and then its padding.
fn right_block(file: &[u8], last: usize, k: usize) -> bool
    requires { (k ≤ last) × (last < 2081) × (512 * last + 512 ≤ length file.now) }
    ensures { result ≡ right_block (suc last) file.now k }
{
    let base = BLOCK * k;
    let end = base + CHECKED;
    if u32::get(file, end) != weighted_sum(&file[base..end]) {
        return false;
    }
    if u16::get(file, base) as usize != k {
        return false;
    }
    let used = used_in(file, k);
    if !right_use(last, k, used) {
        return false;
    }
    zero_padding(file, k)
}

fn first_wrong(file: &[u8], n: usize) -> Option<usize>
    requires { (0 < n) × (n ≤ 2081) × (512 * n ≤ length file.now) }
    ensures { MatchOption result (RightBelow n file.now n) (FirstWrong n file.now) }
{
    (0..n).find(|&k| !right_block(file, n - 1, k))
}

// The length of the job in n right blocks: all but the last are full.
fn job_size(file: &[u8], n: usize) -> usize
    requires { (0 < n) × (n ≤ 2081) × (512 * n ≤ length file.now) × RightBelow n file.now n }
    ensures { result ≡ length (concat (from (data_of file.now) 0 n)) }
{
    CONTENT * (n - 1) + used_in(file, n - 1)
}

// Copies the used bytes of n right blocks one behind the other.
fn take_blocks(file: &[u8], out: &mut [u8], n: usize)
    requires { (512 * n ≤ length file.now) × RightBelow n file.now n
        × (length (concat (from (data_of file.now) 0 n)) ≤ length out.old) }
    ensures { out.new ≡ overwrite (concat (from (data_of file.now) 0 n)) out.old }
{
    for k in 0..n {
        let used = used_in(file, k);
        writer::copy(file, BLOCK * k + HEAD, out, CONTENT * k, used);
    }
}

pub fn read_blocks(file: &[u8], out: &mut [u8]) -> Result<usize, Refused>
    ensures result_value { told_of result ≡ length_of (read_blocks (length out.old) file.now) }
    ensures out_after { out.new ≡ blocks_after (read_blocks (length out.old) file.now) out.old }
{
    if file.len() == 0 || file.len() % BLOCK != 0 {
        return Err(refused(Refusal::NotBlocks));
    }
    let n = file.len() / BLOCK;
    if MOST_BLOCKS < n {
        return Err(refused(Refusal::JobTooLong));
    }
    if let Some(wrong) = first_wrong(file, n) {
        return Err(Refused {
            refusal: Refusal::BadBlock,
            place: wrong,
        });
    }
    let size = job_size(file, n);
    if LONGEST_JOB < size {
        return Err(refused(Refusal::JobTooLong));
    }
    if out.len() < size {
        return Err(refused(Refusal::OutputTooShort));
    }
    take_blocks(file, out, n);
    Ok(size)
}

// An answer as document 01 numbers it: its number, its place and the length, with 0 for whatever isn't there.
#[derive(Clone, Copy, Debug, PartialEq, Eq)]
struct Numbers {
    code: u32,
    place: usize,
    size: usize,
}

impl From<Result<usize, Refused>> for Numbers {
    ghost from_gives = { λ answer n. n ≡ numbers_of (told_of answer) };

    fn from(answer: Result<usize, Refused>) -> Numbers {
        match answer {
            Ok(n) => Numbers {
                code: 0,
                place: 0,
                size: n,
            },
            Err(refused) => Numbers {
                code: refused.refusal.into(),
                place: refused.place,
                size: 0,
            },
        }
    }
}

// read_blocks for Rust and C: returns the number, as the C interface has it, and writes the place and the job's length.
#[unsafe(no_mangle)]
pub extern "C" fn blocks_read(
    file: &[u8],
    out: &mut [u8],
    place: &mut usize,
    size: &mut usize,
) -> u32
    ensures { Told (read_blocks (length out.old) file.now)
        result place.new size.new out.old out.new }
{
    let n = Numbers::from(read_blocks(file, out));
    *place = n.place;
    *size = n.size;
    n.code
}

// write_blocks for Rust and C, in the same way.
#[unsafe(no_mangle)]
pub extern "C" fn blocks_write(
    job: &[u8],
    out: &mut [u8],
    place: &mut usize,
    size: &mut usize,
) -> u32
    ensures { Told (write_blocks (length out.old) job.now)
        result place.new size.new out.old out.new }
{
    let n = Numbers::from(write_blocks(job, out));
    *place = n.place;
    *size = n.size;
    n.code
}

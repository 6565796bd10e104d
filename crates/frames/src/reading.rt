// Parts and blocks that are read, or why they aren't there.
ghost use Rattle.std.specs.Prelude.{◌≡◌, ◌≢◌, ℕ, ◌≤◌, ◌<◌, length, is_ok, Ok, Err, IfOk, Some};
ghost use Rattle.frames.specs.Stream.{no_more, too_long_lem, inside_frame, size_of, skipped_of, PartRead, BlockRead};

use std::io;
use std::io::Read;
use writer::BigEndian;

// Why bytes that were to be read aren't there.
#[derive(Clone, Copy, Debug)]
pub enum ReadError {
    // The stream ends before the first of them.
    Ended,
    // It ends behind some of them, or there is no room for all.
    Cut,
    Failed(io::Error),
}

impl From<io::Error> for ReadError {
    ghost use Rattle.frames.specs.declared.reading.ReadError.TheVariants.{Failed};

    ghost from_gives = { λ error read. read ≡ Failed error };

    fn from(error: io::Error) -> ReadError {
        ReadError::Failed(error)
    }
}

impl ReadError {
    // The same inside a frame, where a stream that ends is cut.
    pub fn inside(self) -> ReadError
        ensures { result ≡ inside_frame self }
    {
        match self {
            ReadError::Ended => ReadError::Cut,
            other => other,
        }
    }
}

// Reads until the bytes are full or the input ends; how many came.
fn read_full(input: &mut impl Read, s: &mut [u8]) -> io::Result<usize>
    ensures within { IfOk result (λ got. got ≤ length s.new) }
    ensures none { length s.old ≡ 0 → result ≡ Ok 0 }
{
    // Not std's read_exact, which doesn't say whether any came.
    let mut done = 0;
    while done < s.len() {
        let n = input.read(&mut s[done..])?;
        if n == 0 {
            break;
        }
        done += n;
    }
    Ok(done)
}

// Reads the first n bytes. No error comes where none is read. It takes n and not &mut s[..n] since `fewer` speaks of too short an s.
pub fn read_part(input: &mut impl Read, s: &mut [u8], n: usize) -> Result<(), ReadError>
    ensures part { PartRead s.old n s.new (is_ok result) }
    ensures fewer { length s.old < n → result ≡ Err ReadError.Cut }
{
    if s.len() < n {
        return Err(ReadError::Cut);
    }
    let got = read_full(input, &mut s[..n])?;
    if got == n {
        Ok(())
    } else if got == 0 {
        Err(ReadError::Ended)
    } else {
        Err(ReadError::Cut)
    }
}

// Reads the length of a block.
fn next_length(input: &mut impl Read) -> Result<usize, ReadError>
    ensures { IfOk result (λ n. n < no_more) }
{
    let mut head = [0u8; 4];
    read_part(input, &mut head, 4)?;
    Ok(u32::get(&head, 0) as usize)
}

// Reads the n bytes of a block.
fn read_block(input: &mut impl Read, s: &mut [u8], n: usize) -> Result<usize, ReadError>
    requires { n < no_more }
    ensures block { BlockRead s.old s.new (size_of result) }
    ensures size { IfOk result (λ size. size ≡ n) }
{
    read_part(input, s, n).map_err(|e| e.inside())?;
    Ok(n)
}

// Reads n bytes in parts through s and keeps none of them.
fn skip(input: &mut impl Read, s: &mut [u8], n: usize) -> Result<(), ReadError>
    requires { 0 < length s.old }
    ensures { result ≢ Err ReadError.Ended }
{
    let room = s.len();
    let mut left = n;
    while room < left {
        read_part(input, s, room).map_err(|e| e.inside())?;
        left -= room;
    }
    read_part(input, s, left).map_err(|e| e.inside())
}

// Reads a length of four bytes, and so many bytes into the beginning of s; the length.
pub fn next_block(input: &mut impl Read, s: &mut [u8]) -> Result<usize, ReadError>
    ensures block { BlockRead s.old s.new (size_of result) }
    ensures size { IfOk result (λ n. n < no_more) }
    ensures len { length s.new ≡ length s.old }
{
    let n = next_length(input)?;
    read_block(input, s, n)
}

// As next_block, but a block that is longer than s is skipped, so that the stream goes on behind it.
pub fn next_or_skipped(input: &mut impl Read, s: &mut [u8]) -> Result<Option<usize>, ReadError>
    requires { 0 < length s.old }
    ensures block { skipped_of result < too_long_lem → BlockRead s.old s.new (skipped_of result) }
    ensures size { skipped_of result ≤ too_long_lem }
    ensures value { (n : ℕ) → result ≡ Ok (Some n) → n < no_more }
    ensures len { length s.new ≡ length s.old }
{
    let n = next_length(input)?;
    if s.len() < n {
        skip(input, s, n)?;
        return Ok(None);
    }
    Ok(Some(read_block(input, s, n)?))
}

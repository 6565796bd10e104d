// Reads frames from standard input and prints for each the listing of a pool and its bootstrap methods (document 02, No. 1), or `refused 21`
// or `refused 18`, and behind it an empty line. A frame: the pool's length (four bytes) and bytes, how many bootstrap methods there are (two
// bytes), their length (four bytes) and bytes. The room for a pool is 1,048,576 bytes, for its bootstrap methods 131,072, for its listing
// 4,194,304, which all together fit a stack of 8 MB; what doesn't fit is 18, and the stream goes on.
#![tactic(auto)]

use frames::{End, Line, ReadError, WriteError};
use refusal::Refusal;
use std::io::{self, Stderr, Stdin, Stdout, Write};
use writer::BigEndian;

// Writes a listing's text, or why there is none, and behind it an empty line.
fn print_listed(
    output: &mut Stdout,
    listed: Result<usize, Refusal>,
    text: &mut [u8],
) -> Result<(), WriteError> {
    match listed {
        Ok(n) => frames::write_part(output, text, n)?,
        Err(refusal) => {
            let mut line = Line::new(text);
            line.put_refusal(refusal.into());
            line.end(output)?;
        }
    }
    output.write_all(b"\n")?;
    Ok(())
}

// The first n bytes; what was longer than its room was skipped, and there is no n.
fn part(bytes: &[u8], n: Option<usize>) -> Result<&[u8], Refusal> {
    let Some(n) = n else {
        return Err(Refusal::OutputTooShort);
    };
    bytes.get(..n).ok_or(Refusal::OutputTooShort)
}

// Lists a pool and its methods, which stand at the beginning of what is lent.
fn list_read(
    pool: &[u8],
    n: Option<usize>,
    count: u16,
    methods: &[u8],
    size: Option<usize>,
    text: &mut [u8],
) -> Result<usize, Refusal> {
    listing::list(part(pool, n)?, count, part(methods, size)?, text)
}

fn inside(error: ReadError) -> End {
    End::from(error.inside())
}

// One pool, if there is one.
fn next_pool(
    input: &mut Stdin,
    output: &mut Stdout,
    pool: &mut [u8; 1048576],
    methods: &mut [u8; 131072],
    text: &mut [u8; 4194304],
) -> Result<(), End> {
    let n = frames::next_or_skipped(input, pool)?;
    let mut head = [0u8; 2];
    frames::read_part(input, &mut head, 2).map_err(inside)?;
    let size = frames::next_or_skipped(input, methods).map_err(inside)?;
    let count = u16::get(&head, 0);
    let listed = list_read(pool, n, count, methods, size, text);
    print_listed(output, listed, text)?;
    Ok(())
}

// Pools in turn; how the stream ends is told.
fn run_stream(
    input: &mut Stdin,
    output: &mut Stdout,
    errors: &mut Stderr,
    pool: &mut [u8; 1048576],
    methods: &mut [u8; 131072],
    text: &mut [u8; 4194304],
) -> io::Result<()> {
    frames::answer_all(errors, b"poollist", || {
        next_pool(input, output, pool, methods, text)
    })
}

fn main(rt: HostRuntime) -> io::Result<()> {
    let mut pool = [0u8; 1048576];
    let mut methods = [0u8; 131072];
    let mut text = [0u8; 4194304];
    run_stream(
        &mut rt.stdin(),
        &mut rt.stdout(),
        &mut rt.stderr(),
        &mut pool,
        &mut methods,
        &mut text,
    )
}

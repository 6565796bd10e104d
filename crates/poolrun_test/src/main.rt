// Runs poolrun's function over the framed files (four-byte length, bytes) of standard input and prints each text. The files are made
// from `cases` by examples/frames; `stdout` is document 01's texts and the Rust driver's answers.
#![tactic(auto)]

ghost use Rattle.std.specs.Prelude.{◌≤◌, IfOk};

use std::io::{Error, ErrorKind, Read, Result, Write};
use writer::BigEndian;

// Reads a file; its length. A stream that ends, or a file that is too long, is an unexpected end.
fn next_file(input: &mut impl Read, file: &mut [u8; 4096]) -> Result<usize>
    ensures { IfOk result (λ n. n ≤ 4096) }
{
    let mut head = [0u8; 4];
    input.read_exact(&mut head)?;
    let n = u32::get(&head, 0) as usize;
    if file.len() < n {
        return Err(Error::from(ErrorKind::UnexpectedEof));
    }
    input.read_exact(&mut file[..n])?;
    Ok(n)
}

fn main(rt: HostRuntime) -> Result<()> {
    let mut file = [0u8; 4096];
    let mut out = [0u8; 1245184];
    for _ in 0..u64::MAX {
        let n = match next_file(&mut rt.stdin(), &mut file) {
            Err(error) if error.kind() == ErrorKind::UnexpectedEof => break,
            read => read?,
        };
        let k = poolrun_text::text(&file[..n], &mut out);
        rt.stdout().write_all(&out[..k])?;
    }
    Ok(())
}

// The program of document 01: a block file of at most 2,560 bytes on standard input, what its job comes to on standard output. All
// that is printed is made by `poolrun_text::text`, which is proved; reading and writing have no contract to be held to. A read or a
// write that fails ends the program with its error; an output that can't be written is told on standard error besides.
#![tactic(auto)]

use std::io::{Read, Result, Write};

fn main(rt: HostRuntime) -> Result<()> {
    // One byte more than a file may have, so that a longer one is seen.
    let mut file = Vec::new(rt.alloc());
    let mut input = rt.stdin().take(2561);
    input.read_to_end(&mut file)?;
    let mut out = [0u8; 1245184];
    let k = poolrun_text::text(&file, &mut out);
    let written = rt.stdout().write_all(&out[..k]);
    if written.is_err() {
        eprintln!(rt; "poolrun: the output can't be written")?;
    }
    written
}

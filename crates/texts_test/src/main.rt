// Reads texts and writes units, by the forms for Rust and C. Each line: the number and the length returned, and the whole output as it
// is left: seven stood at every place before.
#![tactic(auto)]

use std::io::{BufWriter, Result, Write};

fn told(output: &mut impl Write, what: &str, code: u32, size: usize) -> Result<()> {
    write!(output, "{what}: {code} {size},")
}

fn read_into(output: &mut impl Write, what: &str, text: &[u8], units: &mut [u16]) -> Result<()> {
    let mut size = 0;
    let code = texts::texts_read(text, units, &mut size);
    told(output, what, code, size)?;
    for unit in units.iter() {
        write!(output, " {unit}")?;
    }
    writeln!(output, "")
}

fn read(output: &mut impl Write, what: &str, text: &[u8]) -> Result<()> {
    let mut units = [7u16; 4];
    read_into(output, what, text, &mut units)
}

fn read_short(output: &mut impl Write, what: &str, text: &[u8]) -> Result<()> {
    let mut units = [7u16; 3];
    read_into(output, what, text, &mut units)
}

fn write_into(output: &mut impl Write, what: &str, units: &[u16], text: &mut [u8]) -> Result<()> {
    let mut size = 0;
    let code = texts::texts_write(units, text, &mut size);
    told(output, what, code, size)?;
    for byte in text.iter() {
        write!(output, " {byte}")?;
    }
    writeln!(output, "")
}

fn write(output: &mut impl Write, what: &str, units: &[u16]) -> Result<()> {
    let mut text = [7u8; 9];
    write_into(output, what, units, &mut text)
}

fn write_short(output: &mut impl Write, what: &str, units: &[u16]) -> Result<()> {
    let mut text = [7u8; 8];
    write_into(output, what, units, &mut text)
}

fn forms(output: &mut impl Write) -> Result<()> {
    read(output, "nothing", b"")?;
    read(output, "one byte each", b"Az\x7f")?;
    read(output, "two bytes", b"\xc2\x80\xdf\xbf")?;
    read(output, "three bytes", b"\xe0\xa0\x80\xef\xbf\xbf")?;
    read(output, "zero in two bytes", b"\xc0\x80")?;
    read(output, "overlong in two bytes", b"\xc1\x81")?;
    read(
        output,
        "overlong in three bytes",
        b"\xe0\x80\x80\xe0\x81\x81",
    )?;
    read(output, "a pair of halves", b"\xed\xa0\xbd\xed\xb8\x80")
}

fn refusals(output: &mut impl Write) -> Result<()> {
    read(output, "a zero byte", b"A\x00")?;
    read(output, "a follower first", b"\x80")?;
    read(output, "four bytes", b"\xf0\x9f\x98\x80")?;
    read(output, "FF", b"\xff")?;
    read(output, "cut in two", b"A\xc3")?;
    read(output, "cut in three", b"\xe2\x82")?;
    read(output, "no follower", b"\xc3(")?;
    read(output, "no second follower", b"\xe2\x82(")?;
    read(output, "room enough", b"abcd")?;
    read_short(output, "no room", b"abcd")?;
    read_short(output, "no text and no room", b"abcd\x00")
}

fn writing(output: &mut impl Write) -> Result<()> {
    write(output, "no unit", &[])?;
    write(output, "zero", &[0])?;
    write(output, "one byte each", &[1, 127])?;
    write(output, "two bytes", &[128, 2047])?;
    write(output, "three bytes", &[2048, 65535])?;
    write(output, "a pair of halves", &[0xd83d, 0xde00])?;
    write(output, "all sizes", &[0, 1, 0x80, 0x800, 0x41])?;
    write_short(output, "a byte too few", &[0, 1, 0x80, 0x800, 0x41])
}

fn main(rt: HostRuntime) -> Result<()> {
    let mut output = BufWriter::new(rt.alloc(), rt.stdout())?;
    forms(&mut output)?;
    refusals(&mut output)?;
    writing(&mut output)?;
    output.flush()
}

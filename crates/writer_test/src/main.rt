// Reads, writes, copies and clears on vectors worked out by hand. A line for each says ok or WRONG.
#![tactic(auto)]

ghost use Rattle.std.specs.Prelude.{◌≤◌};

use std::io;
use writer::BigEndian;

fn say(rt: &impl Print, name: &str, ok: bool) -> io::Result<()> {
    let verdict = if ok { "ok" } else { "WRONG" };
    println!(rt; "{verdict} {name}")
}

fn reads(s: &[u8]) -> bool {
    if s.len() < 9 {
        return false;
    }
    (u8::get(s, 1) == 0x81)
        & (u16::get(s, 1) == 0x8182)
        & (u32::get(s, 1) == 0x81828384)
        & (u64::get(s, 1) == 0x8182838485868788)
}

fn puts<T: BigEndian>(x: T, expected: &[u8]) -> bool
    requires { T.width ≤ 8 }
{
    let mut d = [0xeeu8; 10];
    x.put(&mut d, 1);
    check::same(&d, expected)
}

fn copies(expected: &[u8]) -> bool {
    let mut d = [0xeeu8; 10];
    writer::copy(&[1, 2, 3, 4, 5], 1, &mut d, 6, 3);
    check::same(&d, expected)
}

fn clears_words() -> bool {
    let mut w = [0xffffffffu32; 3];
    writer::clear_words(&mut w);
    (w[0] == 0) & (w[1] == 0) & (w[2] == 0)
}

fn main(rt: HostRuntime) -> io::Result<()> {
    say(
        &rt,
        "reads",
        reads(b"\x80\x81\x82\x83\x84\x85\x86\x87\x88\x89"),
    )?;
    say(
        &rt,
        "put 1",
        puts(0x81u8, b"\xee\x81\xee\xee\xee\xee\xee\xee\xee\xee"),
    )?;
    say(
        &rt,
        "put 2",
        puts(0x8182u16, b"\xee\x81\x82\xee\xee\xee\xee\xee\xee\xee"),
    )?;
    say(
        &rt,
        "put 4",
        puts(0x81828384u32, b"\xee\x81\x82\x83\x84\xee\xee\xee\xee\xee"),
    )?;
    say(
        &rt,
        "put 8",
        puts(
            0x8182838485868788u64,
            b"\xee\x81\x82\x83\x84\x85\x86\x87\x88\xee",
        ),
    )?;
    say(
        &rt,
        "copies",
        copies(b"\xee\xee\xee\xee\xee\xee\x02\x03\x04\xee"),
    )?;
    say(&rt, "clears words", clears_words())
}

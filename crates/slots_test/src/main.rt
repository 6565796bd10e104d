// Asks for slots over stored gap tables, and compares the answers with those that Krakatau's `ConstSlotAllocator` gave.
#![tactic(auto)]

ghost use Rattle.std.specs.Prelude.{◌≤◌, ◌+◌, ◌*◌, length};

use slots::{Gap, Positions};
use std::io::Result;

// The digit at a place, or 0 where there is none.
fn digit(text: &[u8], at: usize) -> u32
    ensures { result ≤ 9 }
{
    if at >= text.len() {
        return 0;
    }
    let b = text[at];
    match b {
        b'0'..=b'9' => (b - b'0') as u32,
        _ => 0,
    }
}

// The slot that is written at a place in five digits.
fn slot_at(text: &[u8], at: usize) -> u16
    requires { at ≤ length text.now }
{
    let high = digit(text, at) * 10000 + digit(text, at + 1) * 1000;
    let n = high + digit(text, at + 2) * 100 + digit(text, at + 3) * 10 + digit(text, at + 4);
    if n < 65536 { n as u16 } else { 0 }
}

// The gap whose first and last slot are written at a place.
fn gap_at(text: &[u8], at: usize) -> Gap
    requires { at + 6 ≤ length text.now }
{
    Gap {
        first: slot_at(text, at),
        last: slot_at(text, at + 6),
    }
}

// Gaps are written in 12 bytes each.
fn load(gaps: &mut [Gap], text: &[u8])
    requires { 12 * length gaps.old ≤ length text.now + 1 }
{
    for (i, gap) in gaps.iter_mut().enumerate() {
        *gap = gap_at(text, 12 * i);
    }
}

// Requests are written as a letter and the answer, 7 bytes each: n for a narrow slot, l for one that ldc can name, w for two; 0 for
// no slot. How many answers differ? A request that finds nothing moves nothing.
fn wrong_answers(gaps: &mut [Gap], text: &[u8], n: usize) -> usize
    requires { 7 * n ≤ length text.now + 1 }
    ensures { result ≤ n }
{
    let mut p = Positions {
        odd: 0,
        wide: 0,
        plain: 0,
    };
    let mut wrong = 0;
    for i in 0..n {
        let asked = text[7 * i];
        let found = slots::request_slot(gaps, p, asked == b'w', asked == b'l');
        let (slot, after) = found.unwrap_or((0, p));
        if slot != slot_at(text, 7 * i + 1) {
            wrong += 1;
        }
        p = after;
    }
    wrong
}

// How many answers differ over the table that is written: all, if it has more than eight gaps.
fn wrong_over(table: &[u8], text: &[u8], n: usize) -> usize
    requires { 7 * n ≤ length text.now + 1 }
{
    let gap = slots::no_gap();
    let mut rows = [gap; 8];
    let gaps = (table.len() + 1) / 12;
    if 8 < gaps {
        return n;
    }
    let lent = &mut rows[..gaps];
    load(lent, table);
    wrong_answers(lent, text, n)
}

fn try_table(rt: &impl Print, gap_text: &[u8], request_text: &[u8]) -> Result<()> {
    let requests = (request_text.len() + 1) / 7;
    let wrong = wrong_over(gap_text, request_text, requests);
    println!(rt; "{requests} requests, {wrong} wrong")
}

// Small tables: none, one gap, odd gaps, even gaps, single slots, pairs.
fn small_tables(rt: &impl Print) -> Result<()> {
    try_table(rt, b"", b"n00000 l00000 w00000 n00000")?;
    try_table(
        rt,
        b"00001-65534",
        b"n00001 l00002 w00003 l00005 w00006 l00008 l00009 l00010 w00011 n00013 l00014 n00015 n00016 w00017 l00019 l00020 l00021 n00022 l00023 n00024 n00025 n00026 w00027 l00029 w00030 w00032 n00034 w00035 l00037 l00038 l00039 n00040 l00041 w00042 w00044 n00046 w00047 n00049 w00050 l00052",
    )?;
    try_table(
        rt,
        b"00001-00001 00003-00005 00007-00013 00015-00015 00017-00019",
        b"n00001 n00003 n00007 n00015 n00017 n00004 n00005 w00008 l00010 l00011 n00012 w00018 l00013 l00000 l00000 l00000 l00000 l00000 w00000 l00000 w00000 w00000 n00000 l00000 n00000 w00000 w00000 l00000",
    )?;
    try_table(
        rt,
        b"00001-00002 00004-00007 00009-00014 00016-00017 00019-00022",
        b"w00001 w00004 n00006 w00009 l00007 l00011 n00012 l00013 n00014 l00016 n00017 n00019 l00020 l00021 n00022 n00000 n00000 n00000 n00000 l00000 n00000 l00000 l00000 l00000 w00000 n00000 n00000 n00000",
    )?;
    try_table(
        rt,
        b"00001-00001 00003-00003 00005-00005 00007-00007 00009-00009 00011-00011",
        b"l00001 l00003 w00000 n00005 w00000 w00000 n00007 l00009 n00011 w00000 l00000 n00000 n00000 w00000",
    )?;
    try_table(
        rt,
        b"00001-00002 00004-00005 00007-00008 00010-00011 00013-00014",
        b"n00001 n00002 n00004 l00005 w00007 w00010 w00013 l00000 l00000 l00000 w00000 n00000 w00000 w00000 w00000 l00000 n00000 n00000 w00000 n00000",
    )
}

// Gaps around 255, the highest slot that ldc can name, and gaps used up.
fn around_255(rt: &impl Print) -> Result<()> {
    try_table(
        rt,
        b"00250-00250 00252-00256 00258-00260 00300-00303",
        b"w00252 l00250 l00254 l00255 l00000 n00258 l00000 l00000 l00000 l00000 w00259 l00000 l00000 l00000 n00256 n00300 w00301 w00000 l00000 w00000 l00000 l00000 l00000 l00000",
    )?;
    try_table(
        rt,
        b"00255-00255 00257-00257 00300-00300",
        b"l00255 l00000 l00000 n00257 w00000 n00300 w00000 n00000",
    )?;
    try_table(
        rt,
        b"00256-00258 00300-00301",
        b"l00000 n00256 l00000 w00257 l00000 l00000 l00000 n00300 w00000 n00301",
    )?;
    try_table(
        rt,
        b"00002-00003 00256-00256 00258-00258",
        b"l00002 n00256 n00258 n00003 w00000 l00000 l00000 n00000 l00000 l00000",
    )?;
    try_table(
        rt,
        b"00005-00004 00007-00006 00009-00008",
        b"n00000 l00000 w00000 w00000 l00000 n00000",
    )?;
    try_table(
        rt,
        b"00003-00002 00004-00005 00008-00007 00009-00009 00011-00014 00017-00016",
        b"n00009 n00004 n00005 l00011 n00012 n00013 l00014 w00000 l00000 l00000 l00000 l00000 n00000 w00000",
    )
}

// The highest slots, and gaps of all kinds together.
fn mixed_tables(rt: &impl Print) -> Result<()> {
    try_table(
        rt,
        b"65530-65534",
        b"l00000 l00000 l00000 l00000 w65530 n65532 l00000 l00000 w65533",
    )?;
    try_table(rt, b"65533-65534", b"w65533 l00000 w00000 l00000 w00000")?;
    try_table(rt, b"65534-65534", b"w00000 l00000 n65534 l00000")?;
    try_table(
        rt,
        b"00001-00004 00006-00006 00008-00009 00011-00020 00253-00259 00300-00304 65529-65532 65534-65534",
        b"n00006 n00253 l00001 n00300 w00002 l00004 w00008 w00011 n65534 w00013 n00015 l00016 l00017 l00018 l00019 n00020 l00254 l00255 l00000 n00256 w00257 w00301 n00259 w00303 n65529 l00000 l00000 n65530 l00000 n65531 l00000 w00000 w00000 w00000 n65532 n00000 w00000 w00000 n00000 n00000 l00000 l00000 l00000 w00000 w00000 w00000 n00000 l00000",
    )?;
    try_table(
        rt,
        b"00001-00006 00008-00012 00014-00017 00019-00025 00254-00255 00257-00261",
        b"n00008 n00019 n00257 n00001 n00002 n00003 w00004 n00006 w00009 l00011 l00012 l00014 n00015 w00016 l00020 l00021 n00022 l00023 w00024 w00254 w00258 w00260 w00000 l00000 n00000 n00000 l00000 l00000 w00000 l00000 n00000 l00000 w00000 w00000 n00000 n00000 w00000 l00000 n00000 n00000",
    )?;
    try_table(
        rt,
        b"00001-00254 00256-65534",
        b"l00001 n00256 n00002 w00003 w00005 l00007 w00008 n00010 n00011 n00012 w00013 l00015 w00016 l00018 l00019 l00020 l00021 n00022 w00023 n00025 l00026 l00027 n00028 l00029 n00030 n00031 w00032 n00034 l00035 l00036 l00037 n00038 w00039 l00041 n00042 n00043 l00044 l00045 l00046 l00047 w00048 n00050 l00051 l00052 n00053 n00054 n00055 l00056 l00057 n00058 l00059 l00060 n00061 l00062 n00063 l00064 w00065 n00067 l00068 l00069",
    )?;
    try_table(
        rt,
        b"00001-00003 00250-00255 00257-00262 00264-00264 00266-00267",
        b"l00001 n00264 l00002 l00003 l00250 l00251 l00252 l00253 l00254 w00257 l00255 l00000 l00000 l00000 n00259 w00260 l00000 w00266 l00000 l00000 w00000 l00000 l00000 l00000 l00000 l00000 l00000 l00000 w00000 w00000",
    )?;
    try_table(
        rt,
        b"00002-00009 00011-00018 00020-00027 00029-00036",
        b"n00002 n00003 n00004 n00005 l00006 l00007 l00008 n00009 n00011 n00012 n00013 n00014 n00015 n00016 n00017 l00018 n00020 l00021 n00022 w00023 n00025 l00026 n00027 n00029 n00030 n00031 n00032 n00033 n00034 n00035 l00036 n00000 w00000 n00000 n00000 w00000 l00000 l00000 w00000 n00000 n00000 w00000 n00000 l00000",
    )?;
    try_table(
        rt,
        b"00002-00008 00010-00016 00018-00024 00026-00032",
        b"w00002 w00004 w00006 w00010 n00008 l00012 n00018 l00026 l00013 w00014 w00019 w00021 w00023 w00027 l00016 w00029 w00031 w00000 w00000 w00000 n00000 w00000 w00000 w00000 n00000 l00000 w00000 w00000 n00000 w00000 l00000 w00000 w00000 w00000 n00000 w00000 w00000 w00000 w00000 n00000",
    )
}

fn main(rt: HostRuntime) -> Result<()> {
    small_tables(&rt)?;
    around_255(&rt)?;
    mixed_tables(&rt)
}

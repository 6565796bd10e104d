// A class file around a finished pool, both ways (document 02, No. 7; JVMS 4.1, 4.7.23).
#![tactic(auto)]

ghost use Rattle.std.specs.Prelude.{◌≡◌, ◌↔◌, List, ◌+◌, ◌-◌, ◌<◌, ◌≤◌, leb, length, take, drop, IsTrue, IfOk};
ghost use Rattle.std.proofs.Math.Option.{some};
ghost use Rattle.definition.specs.Basics.{same};
ghost use Rattle.refusal.specs.Numbers.{answer_of};
ghost use Rattle.jvms.specs.Pool.{Slot};
ghost use Rattle.jvms.specs.Written.{bytes2, bytes4};
ghost use Rattle.writer.specs.Numbers.{number2};
ghost use Rattle.places.specs.Standing.{slot_of, Noted};
ghost use Rattle.raw_const.specs.Entries.{Wrote};
ghost use Rattle.class_file.specs.ClassFile.{named, class_bytes, name_constant, is_name_lem, write_class, read_class};
ghost use Rattle.class_file.specs.Answers.{parts_of, head_bytes, members_bytes, attributes_of, frame_size, Head, NoMembers, OneAttribute, Right, length_of, out_after, parts_at, parts_found, parts_read, Framed};

use refusal::Refusal;
use writer::BigEndian;

const MAGIC: u32 = 0xCAFEBABE;

// With two bytes of their number they have the greatest length that four bytes hold.
const MOST_BOOTSTRAPS: usize = 4294967293;

// What a class file is made of; of one that is read, the pool and the bootstrap methods are parts of the file.
#[derive(Clone, Copy, Debug)]
pub struct Parts<'a> {
    pub minor: u16,
    pub major: u16,
    // The bytes of constant_pool_count and constant_pool.
    pub pool: &'a [u8],
    pub access_flags: u16,
    pub this_class: u16,
    pub super_class: u16,
    // attribute_name_index, or 0 if there is no attribute.
    pub name: u16,
    // num_bootstrap_methods, and the bytes of bootstrap_methods.
    pub count: u16,
    pub bootstraps: &'a [u8],
}

// Parts that were read, as places in their file.
impl<'a> Parts<'a> {
    // Where the pool ends: it stands behind the magic number and the versions.
    pub fn pool_end(&self) -> usize
        ensures { result ≡ 8 + length self.now.pool.now }
    {
        8 + self.pool.len()
    }

    // Where the bootstrap methods begin: nothing stands behind them.
    pub fn bootstraps_at(&self, file: &[u8]) -> usize
        ensures { result ≡ length file.now - length self.now.bootstraps.now }
    {
        file.len().saturating_sub(self.bootstraps.len())
    }
}

// CONSTANT_Utf8 of "BootstrapMethods": its tag, its length and its bytes.
const NAME: [u8; 19] = [
    1, 0, 16, b'B', b'o', b'o', b't', b's', b't', b'r', b'a', b'p', b'M', b'e', b't', b'h', b'o',
    b'd', b's',
];

// The pieces of a file: each returns the place behind what it wrote. Not a generic one over BigEndian, which has no law that a
// number has as many bytes as its width: each call would have to show it.
fn write_short(out: &mut [u8], at: usize, x: u16) -> usize
    requires { at + 2 ≤ length out.old }
    ensures { Wrote out.old at (bytes2 x) out.new result }
{
    x.put(out, at);
    at + 2
}

fn write_word(out: &mut [u8], at: usize, x: u32) -> usize
    requires { at + 4 ≤ length out.old }
    ensures { Wrote out.old at (bytes4 x) out.new result }
{
    x.put(out, at);
    at + 4
}

fn write_bytes(out: &mut [u8], at: usize, bytes: &[u8]) -> usize
    requires { at + length bytes.now ≤ length out.old }
    ensures { Wrote out.old at bytes.now out.new result }
{
    writer::copy(bytes, 0, out, at, bytes.len());
    at + bytes.len()
}

// The magic number and the versions.
fn write_head(out: &mut [u8], parts: &Parts) -> usize
    requires { 8 ≤ length out.old }
    ensures { Wrote out.old 0 (head_bytes parts.now.minor parts.now.major) out.new result }
{
    let next = write_word(out, 0, MAGIC);
    let next = write_short(out, next, parts.minor);
    write_short(out, next, parts.major)
}

// What stands between the pool and the attributes: there are no interfaces, fields or methods.
fn write_members(out: &mut [u8], at: usize, parts: &Parts) -> usize
    requires { at + 12 ≤ length out.old }
    ensures { Wrote out.old at (members_bytes parts.now.access_flags parts.now.this_class parts.now.super_class) out.new result }
{
    let next = write_short(out, at, parts.access_flags);
    let next = write_short(out, next, parts.this_class);
    let next = write_short(out, next, parts.super_class);
    let next = write_short(out, next, 0);
    let next = write_short(out, next, 0);
    write_short(out, next, 0)
}

fn write_attributes(out: &mut [u8], at: usize, parts: &Parts) -> usize
    requires bootstraps_len_bound { length parts.now.bootstraps.now ≤ 4294967293 }
    requires bootstraps_in_bounds { at + length (attributes_of parts.now.name parts.now.count parts.now.bootstraps.now) ≤ length out.old }
    ensures { Wrote out.old at (attributes_of parts.now.name parts.now.count parts.now.bootstraps.now) out.new result }
{
    if parts.name == 0 {
        return write_short(out, at, 0);
    }
    let next = write_short(out, at, 1);
    let next = write_short(out, next, parts.name);
    let next = write_word(out, next, (2 + parts.bootstraps.len()) as u32);
    let next = write_short(out, next, parts.count);
    write_bytes(out, next, parts.bootstraps)
}

// How many bytes a file has besides its pool and its bootstrap methods.
fn frame_size(name: u16) -> usize
    ensures { result ≡ frame_size name }
{
    if name == 0 { 22 } else { 30 }
}

// Whether a file fits, by what is left each time: the sum of the sizes may be too large a number.
fn has_room(parts: &Parts, room: usize) -> bool
    ensures { result ≡ leb (frame_size parts.now.name + length parts.now.pool.now + length parts.now.bootstraps.now) room }
{
    let frame = frame_size(parts.name);
    let pool = parts.pool.len();
    frame <= room && pool <= room - frame && parts.bootstraps.len() <= room - frame - pool
}

fn write_file(parts: &Parts, out: &mut [u8]) -> usize
    requires bootstraps_len_bound { length parts.now.bootstraps.now ≤ 4294967293 }
    requires bootstraps_in_bounds { length (class_bytes (parts_of parts.now)) ≤ length out.old }
    ensures { Wrote out.old 0 (class_bytes (parts_of parts.now)) out.new result }
{
    let next = write_head(out, parts);
    let next = write_bytes(out, next, parts.pool);
    let next = write_members(out, next, parts);
    write_attributes(out, next, parts)
}

// Whether the constant that is the attribute's name stands at a place.
fn spells_name(bytes: &[u8], at: usize) -> bool
    requires { at + 19 ≤ length bytes.now }
    ensures { result ≡ same (take 19 (drop at bytes.now)) name_constant }
{
    bytes[at..at + 19] == NAME[..]
}

// Whether a slot holds it, by the places of a pool's constants.
fn holds_name(bytes: &[u8], name: u16, places: &[usize; 65536]) -> bool
    ensures { (slots : List Slot) → Noted bytes.now slots places.now → result ≡ is_name_lem (slot_of slots name) }
{
    let at = places[name as usize];
    if at == 0 || bytes.len() < 19 || bytes.len() - 19 < at {
        return false;
    }
    spells_name(bytes, at)
}

// Whether a name slot is right: where none is given there are no bootstrap methods.
fn is_named(parts: &Parts, table: &[usize; 65536]) -> bool
    ensures { (slots : List Slot) → Noted parts.now.pool.now slots table.now → result ≡ named (some slots) parts.now.name parts.now.count }
{
    if parts.name == 0 {
        parts.count == 0
    } else {
        holds_name(parts.pool, parts.name, table)
    }
}

// Whether parts make a file.
fn is_proper(parts: &Parts) -> bool
    ensures { IsTrue result ↔ Right parts.now.pool.now parts.now.name parts.now.count parts.now.bootstraps.now }
{
    let mut table = [0usize; 65536];
    if places::note_pool(parts.pool, 0, &mut table) != Some(parts.pool.len())
        || MOST_BOOTSTRAPS < parts.bootstraps.len()
    {
        return false;
    }
    is_named(parts, &table) && places::note_methods(parts.bootstraps, parts.count, &mut table)
}

// Writes the class file of parts and returns its length: not a class file if they make none, then too short an output if it doesn't fit.
pub fn write_class(parts: &Parts, out: &mut [u8]) -> Result<usize, Refusal>
    ensures value { answer_of result ≡ length_of (write_class (length out.old) (parts_of parts.now)) }
    ensures out_after { out.new ≡ out_after (write_class (length out.old) (parts_of parts.now)) out.old }
{
    if !is_proper(parts) {
        return Err(Refusal::NotClassFile);
    }
    if !has_room(parts, out.len()) {
        return Err(Refusal::OutputTooShort);
    }
    Ok(write_file(parts, out))
}

// Whether a file begins with the magic number and has room for the versions.
fn has_head(file: &[u8]) -> bool
    ensures { IsTrue result ↔ Head file.now }
{
    8 <= file.len() && u32::get(file, 0) == MAGIC
}

// Whether behind a pool stand flags, classes, no interfaces, fields or methods, and the number of attributes.
fn no_members(file: &[u8], at: usize) -> bool
    requires { at ≤ length file.now }
    ensures { IsTrue result ↔ NoMembers file.now at }
{
    14 <= file.len() - at
        && u16::get(file, at + 6) == 0
        && u16::get(file, at + 8) == 0
        && u16::get(file, at + 10) == 0
}

// Whether an attribute of the right length stands at a place.
fn has_attribute(file: &[u8], at: usize) -> bool
    requires { at ≤ length file.now }
    ensures { IsTrue result ↔ OneAttribute file.now at }
{
    8 <= file.len() - at && u32::get(file, at + 2) as usize == file.len() - at - 6
}

// The parts of a file whose pool ends at a place and whose bootstrap methods begin at another, by what its attribute holds.
fn parts_at(file: &[u8], end: usize, name: u16, count: u16, from: usize) -> Parts
    requires { (8 ≤ end) × (end + 14 ≤ length file.now) × (from ≤ length file.now) }
    ensures { parts_of result ≡ parts_at file.now end name count from }
{
    Parts {
        minor: u16::get(file, 4),
        major: u16::get(file, 6),
        pool: &file[8..end],
        access_flags: u16::get(file, end),
        this_class: u16::get(file, end + 2),
        super_class: u16::get(file, end + 4),
        name,
        count,
        bootstraps: &file[from..],
    }
}

// The parts of a file with one attribute, whose pool ends at a place.
fn read_attribute<'a>(file: &'a [u8], end: usize, table: &mut [usize; 65536]) -> Option<Parts<'a>>
    requires { Framed file.now end table.old × (number2 file.now (end + 12) ≡ 1) }
    ensures { parts_found result ≡ read_class file.now }
{
    let at = end + 14;
    if !has_attribute(file, at) {
        return None;
    }
    let name = u16::get(file, at);
    if !holds_name(file, name, table) {
        return None;
    }
    let count = u16::get(file, at + 6);
    let from = at + 8;
    if !places::note_methods(&file[from..], count, table) {
        return None;
    }
    Some(parts_at(file, end, name, count, from))
}

// The parts of a file whose pool ends at a place, by the number of its attributes.
fn read_attributes<'a>(file: &'a [u8], end: usize, table: &mut [usize; 65536]) -> Option<Parts<'a>>
    requires { Framed file.now end table.old }
    ensures { parts_found result ≡ read_class file.now }
{
    match u16::get(file, end + 12) {
        0 if file.len() == end + 14 => Some(parts_at(file, end, 0, 0, end + 14)),
        1 => read_attribute(file, end, table),
        _ => None,
    }
}

// The parts of a class file, if it is one of this frame.
fn read_parts(file: &[u8]) -> Option<Parts>
    ensures { parts_found result ≡ read_class file.now }
{
    if !has_head(file) {
        return None;
    }
    let mut table = [0usize; 65536];
    let end = places::note_pool(file, 8, &mut table)?;
    if !no_members(file, end) {
        return None;
    }
    read_attributes(file, end, &mut table)
}

// The parts of a class file: not a class file if it isn't one of this frame.
pub fn read_class(file: &[u8]) -> Result<Parts, Refusal>
    ensures value { parts_read result ≡ read_class file.now }
    ensures inside { IfOk result (λ p. 8 + length p.pool.now + length p.bootstraps.now ≤ length file.now) }
{
    read_parts(file).ok_or(Refusal::NotClassFile)
}

// Entries of a constant pool and rows of a bootstrap table as bytes: Krakatau's raw_const.rs (document 01, "Building"; JVMS 4.4, 4.7.23).
// That JVMS's reader finds again what is written here is `cp_info-entry_bytes` of the crate laws.
#![tactic(auto)]

ghost use Rattle.std.specs.Prelude.{◌≡◌, ◌||◌, [], ◌∷◌, ◌++◌, map, ℕ, ◌+◌, ◌*◌, ◌≤◌, ◌<◌, eqb, length, take, drop, get_or};
ghost use Rattle.definition.specs.Basics.{lookup, concat};
ghost use Rattle.definition.specs.Bytes.{two, be2};
ghost use Rattle.definition.specs.Shapes.{is_wide, shapes};
ghost use Rattle.definition.specs.Run.{entry_bytes, row_bytes};
ghost use Rattle.raw_const.specs.Entries.{row_of, field_bytes, second_index, fields_of, entry_of, LiteralFits, Wrote, EntryTakes, RowTakes, length_of, short_read, ReadAt};

use Field::{Bits, Bootstrap, Index, Kind, Text};
use writer::BigEndian;

// THE TABLE OF JVMS 4.4: a row for each tag, with its fields in the page's order. Everything here that goes by a tag goes by its row.
fn row_of(tag: u8) -> Option<(Field, Option<Field>)>
    ensures { result ≡ row_of (lookup tag shapes) }
{
    let row = match tag {
        1 => (Text, None), // 4.4.7 CONSTANT_Utf8: length, bytes
        3 => (Bits(4), None), // 4.4.4 CONSTANT_Integer: bytes
        4 => (Bits(4), None), // 4.4.4 CONSTANT_Float: bytes
        5 => (Bits(8), None), // 4.4.5 CONSTANT_Long: high_bytes, low_bytes
        6 => (Bits(8), None), // 4.4.5 CONSTANT_Double: high_bytes, low_bytes
        7 => (Index, None), // 4.4.1 CONSTANT_Class: name_index
        8 => (Index, None), // 4.4.3 CONSTANT_String: string_index
        9 => (Index, Some(Index)), // 4.4.2 CONSTANT_Fieldref: class_index, name_and_type_index
        10 => (Index, Some(Index)), // 4.4.2 CONSTANT_Methodref: class_index, name_and_type_index
        11 => (Index, Some(Index)), // 4.4.2 CONSTANT_InterfaceMethodref: class_index, name_and_type_index
        12 => (Index, Some(Index)), // 4.4.6 CONSTANT_NameAndType: name_index, descriptor_index
        15 => (Kind, Some(Index)), // 4.4.8 CONSTANT_MethodHandle: reference_kind, reference_index
        16 => (Index, None), // 4.4.9 CONSTANT_MethodType: descriptor_index
        17 => (Bootstrap, Some(Index)), // 4.4.10 CONSTANT_Dynamic: bootstrap_method_attr_index, name_and_type_index
        18 => (Bootstrap, Some(Index)), // 4.4.10 CONSTANT_InvokeDynamic: bootstrap_method_attr_index, name_and_type_index
        19 => (Index, None), // 4.4.11 CONSTANT_Module: name_index
        20 => (Index, None), // 4.4.12 CONSTANT_Package: name_index
        _ => return None, // there is no entry with this tag
    };
    Some(row)
}

// A field of an entry.
#[derive(Clone, Copy, Debug, PartialEq, Eq)]
enum Field {
    // Two bytes of length, then so many bytes of a text.
    Text,
    // A number's bits, so many bytes.
    Bits(u8),
    // One byte, a method handle's kind.
    Kind,
    // Two bytes, the index of a constant.
    Index,
    // Two bytes, the index of a bootstrap method.
    Bootstrap,
}

// What follows an entry's tag.
#[derive(Clone, Copy, Debug, PartialEq, Eq)]
pub enum Shape {
    // Two bytes of length, then a text's bytes.
    Text,
    // A number's bits, so many bytes.
    Bits(u8),
    // The index of a constant.
    One,
    // The indexes of two constants.
    Two,
    // The index of a bootstrap, then of a constant.
    Dynamic,
    // A kind byte, then the index of a constant.
    KindOne,
}

// An entry to write: a literal, a kind byte and references, as far as its tag has them.
#[derive(Clone, Copy, Debug)]
pub struct Entry<'a> {
    pub tag: u8,
    pub literal: &'a [u8],
    pub kind: u8,
    pub first: u16,
    pub second: u16,
}

// An entry that stands at a place of a pool: its tag, and the place behind it.
#[derive(Clone, Copy, Debug, PartialEq, Eq)]
pub struct Extent {
    pub tag: u8,
    pub next: usize,
}

// Long and Double, the numbers of eight bytes, take two slots (JVMS 4.4.5).
pub fn is_long(tag: u8) -> bool
    ensures { result ≡ is_wide tag }
{
    shape_of(tag) == Some(Shape::Bits(8))
}

// A text: the only entry whose length goes by what it holds.
pub fn is_text(tag: u8) -> bool
    ensures { result ≡ eqb tag 1 }
{
    shape_of(tag) == Some(Shape::Text)
}

// A method handle: its reference stands behind a kind byte.
pub fn is_handle(tag: u8) -> bool
    ensures { result ≡ eqb tag 15 }
{
    shape_of(tag) == Some(Shape::KindOne)
}

// Dynamic or InvokeDynamic: its first reference is to a bootstrap.
pub fn is_dynamic(tag: u8) -> bool
    ensures { result ≡ eqb tag 17 || eqb tag 18 }
{
    shape_of(tag) == Some(Shape::Dynamic)
}

// The fields of a tag's row as one of the shapes that they make; none for a tag that isn't there.
pub fn shape_of(tag: u8) -> Option<Shape>
    ensures { fields_of result ≡ lookup tag shapes }
{
    let shape = match row_of(tag)? {
        (Text, _) => Shape::Text,
        (Bits(size), _) => Shape::Bits(size),
        (Kind, _) => Shape::KindOne,
        (Index, None) => Shape::One,
        (Index, Some(_)) => Shape::Two,
        (Bootstrap, _) => Shape::Dynamic,
    };
    Some(shape)
}

// How many bytes an entry of a shape takes: only a text goes by the length of its literal.
fn shape_length(shape: Shape, literal: usize) -> usize
    requires { shape ≡ Shape.Text → literal < 65536 }
    ensures { result ≡ length_of shape literal }
{
    match shape {
        Shape::Text => 3 + literal,
        Shape::Bits(size) => 1 + size as usize,
        Shape::One => 3,
        Shape::Two => 5,
        Shape::Dynamic => 5,
        Shape::KindOne => 4,
    }
}

// How many bytes an entry takes whose literal has so many; 0 for a tag that isn't there.
pub fn entry_length(tag: u8, literal: usize) -> usize
    requires { LiteralFits (lookup tag shapes) literal }
    ensures { EntryTakes tag literal result }
{
    match shape_of(tag) {
        Some(shape) => shape_length(shape, literal),
        None => 0,
    }
}

// The pieces of an entry: each returns the place behind what it wrote. Not a generic one over BigEndian, which has no law that a
// number has as many bytes as its width: each call would have to show it.
fn write_byte(out: &mut [u8], at: usize, x: u8) -> usize
    requires { at < length out.old }
    ensures { Wrote out.old at (x ∷ []) out.new result }
{
    out[at] = x;
    at + 1
}

fn write_short(out: &mut [u8], at: usize, x: u16) -> usize
    requires { at + 2 ≤ length out.old }
    ensures { Wrote out.old at (be2 x) out.new result }
{
    x.put(out, at);
    at + 2
}

fn write_bytes(out: &mut [u8], at: usize, bytes: &[u8]) -> usize
    requires { at + length bytes.now ≤ length out.old }
    ensures { Wrote out.old at bytes.now out.new result }
{
    let size = bytes.len();
    writer::copy(bytes, 0, out, at, size);
    at + size
}

fn write_text(out: &mut [u8], at: usize, text: &[u8]) -> usize
    requires size_bound { length text.now < 65536 }
    requires text_in_bounds { at + 2 + length text.now ≤ length out.old }
    ensures { Wrote out.old at (be2 (length text.now) ++ text.now) out.new result }
{
    let next = write_short(out, at, text.len() as u16);
    write_bytes(out, next, text)
}

// Writes one field of an entry, a reference of this index.
fn write_field(out: &mut [u8], at: usize, field: Field, entry: &Entry, index: u16) -> usize
    requires size_bound { field ≡ Field.Text → length entry.now.literal.now < 65536 }
    requires field_in_bounds { at + length (field_bytes field entry.now.kind entry.now.literal.now index) ≤ length out.old }
    ensures { Wrote out.old at (field_bytes field entry.now.kind entry.now.literal.now index) out.new result }
{
    match field {
        Text => write_text(out, at, entry.literal),
        Bits(_) => write_bytes(out, at, entry.literal),
        Kind => write_byte(out, at, entry.kind),
        Index => write_short(out, at, index),
        Bootstrap => write_short(out, at, index),
    }
}

// The reference behind a row's first field: behind a kind byte it is the first one.
fn second_index(field: Field, first: u16, second: u16) -> u16
    ensures { result ≡ second_index field first second }
{
    if field == Kind { first } else { second }
}

// Writes an entry along its tag's row. A tag that isn't there writes nothing.
pub fn write_entry(out: &mut [u8], at: usize, entry: &Entry) -> usize
    requires literal_fits { LiteralFits (lookup entry.now.tag shapes) (length entry.now.literal.now) }
    requires entry_in_bounds { at + length (entry_bytes (entry_of entry.now.tag entry.now.kind entry.now.literal.now entry.now.first entry.now.second)) ≤ length out.old }
    ensures { Wrote out.old at (entry_bytes (entry_of entry.now.tag entry.now.kind entry.now.literal.now entry.now.first entry.now.second)) out.new result }
{
    let Some((first, second)) = row_of(entry.tag) else {
        return at;
    };
    let next = write_byte(out, at, entry.tag);
    let next = write_field(out, next, first, entry, entry.first);
    match second {
        Some(field) => {
            let index = second_index(first, entry.first, entry.second);
            write_field(out, next, field, entry, index)
        }
        None => next,
    }
}

// How many bytes a bootstrap row of so many numbers takes, a handle and its arguments.
pub fn row_length(count: usize) -> usize
    requires { (0 < count) × (count ≤ 65536) }
    ensures { RowTakes count result }
{
    4 + 2 * (count - 1)
}

fn write_shorts(out: &mut [u8], at: usize, words: &[u32]) -> usize
    requires by_index { (k : ℕ) → k < length words.now → get_or words.now k 0 < 65536 }
    requires words_in_bounds { at + 2 * length words.now ≤ length out.old }
    ensures { Wrote out.old at (concat (map be2 words.now)) out.new result }
{
    let mut next = at;
    for word in words {
        next = write_short(out, next, *word as u16);
    }
    next
}

// Writes a bootstrap row, a method handle and its arguments: bootstrap_method_ref, num_bootstrap_arguments, bootstrap_arguments
// (JVMS 4.7.23).
pub fn write_row(out: &mut [u8], at: usize, row: &[u32]) -> usize
    requires count_nonzero { (0 < length row.now) × (length row.now ≤ 65536) }
    requires by_index { (k : ℕ) → k < length row.now → get_or row.now k 0 < 65536 }
    requires row_in_bounds { at + length (row_bytes row.now) ≤ length out.old }
    ensures { Wrote out.old at (row_bytes row.now) out.new result }
{
    let next = write_short(out, at, row[0] as u16);
    let next = write_short(out, next, (row.len() - 1) as u16);
    write_shorts(out, next, &row[1..])
}

// The number in the two bytes at a place; none where they are cut off.
fn short_at(pool: &[u8], at: usize) -> Option<u16>
    requires { at ≤ length pool.now }
    ensures { result ≡ short_read (two (drop at pool.now)) }
{
    if pool.len() - at < 2 {
        return None;
    }
    Some(u16::get(pool, at))
}

// Finds the entry at a place as JVMS 4.4 reads it. Where it is a text, its length stands behind the tag; no other entry's size goes by
// those two bytes.
pub fn read_entry(pool: &[u8], at: usize) -> Option<Extent>
    ensures { ReadAt pool.now at result }
{
    let tag = *pool.get(at)?;
    let shape = shape_of(tag)?;
    let literal = short_at(pool, at + 1).unwrap_or(0);
    let size = shape_length(shape, literal as usize);
    if pool.len() - at < size {
        return None;
    }
    Some(Extent {
        tag,
        next: at + size,
    })
}

// Texts as JVMS 4.4.7 has them (document 02, No. 8): the sixteen-bit units of a text, and the text of a row of units.
#![tactic(auto)]

ghost use Rattle.std.specs.Prelude.{◌≡◌, ℕ, true, false, ◌+◌, ◌-◌, ◌<◌, ◌≤◌, length, get_or, MatchOption};
ghost use Rattle.std.proofs.Math.Option.{none, some};
ghost use Rattle.std.proofs.Math.Seq.{paste};
ghost use Rattle.definition.specs.Run.{overwrite};
ghost use Rattle.definition.specs.Texts.{unit, units_of, is_text, unit_bytes, text_of, read_text, write_text};
ghost use Rattle.refusal.specs.Numbers.{code_of};
ghost use Rattle.texts.specs.Answers.{answer, size_of, length_of, out_after, Told};
ghost use Rattle.texts.specs.Forms.{Begins, has_six, count_of, held, in_two, in_three};

use refusal::Refusal;

// The form that a text begins with: its unit, and how many bytes it takes.
#[derive(Clone, Copy, Debug, PartialEq, Eq)]
struct Form {
    unit: u16,
    size: usize,
}

// The six bits of a byte that follows in a form, 80 to BF, if one stands at a place.
fn six_bits(bytes: &[u8], at: usize) -> Option<u16>
    ensures { MatchOption result (has_six bytes.now at ≡ false)
        (λ bits. (has_six bytes.now at ≡ true) × (bits ≡ get_or bytes.now at 0 - 0x80)) }
{
    let &b = bytes.get(at)?;
    if 0x80 <= b && b < 0xc0 {
        Some(b as u16 - 0x80)
    } else {
        None
    }
}

// Forms of two bytes and of three have a function each: a loop over the bytes that follow would be no plainer than their sums.
fn two_bytes(bytes: &[u8]) -> Option<Form>
    requires { (0 < length bytes.now) × (0xc0 ≤ get_or bytes.now 0 0) × (get_or bytes.now 0 0 < 0xe0) }
    ensures { MatchOption result (unit bytes.now ≡ none) (λ form. Begins bytes.now form.unit form.size) }
{
    let second = six_bits(bytes, 1)?;
    let unit = 64 * (bytes[0] as u16 - 0xc0) + second;
    Some(Form { unit, size: 2 })
}

fn three_bytes(bytes: &[u8]) -> Option<Form>
    requires { (0 < length bytes.now) × (0xe0 ≤ get_or bytes.now 0 0) × (get_or bytes.now 0 0 < 0xf0) }
    ensures { MatchOption result (unit bytes.now ≡ none) (λ form. Begins bytes.now form.unit form.size) }
{
    let second = six_bits(bytes, 1)?;
    let third = six_bits(bytes, 2)?;
    let unit = 64 * (64 * (bytes[0] as u16 - 0xe0) + second) + third;
    Some(Form { unit, size: 3 })
}

// The form that bytes begin with. The first byte tells how long it is; overlong forms and halves of pairs are forms like any other.
fn first_form(bytes: &[u8]) -> Option<Form>
    ensures { MatchOption result (unit bytes.now ≡ none) (λ form. Begins bytes.now form.unit form.size) }
{
    let &first = bytes.first()?;
    if first == 0 {
        return None;
    }
    if first < 0x80 {
        return Some(Form {
            unit: first as u16,
            size: 1,
        });
    }
    if first < 0xc0 {
        return None;
    }
    if first < 0xe0 {
        return two_bytes(bytes);
    }
    if first < 0xf0 {
        return three_bytes(bytes);
    }
    None
}

// How many units bytes have, if they are a text.
fn count_units(text: &[u8]) -> Option<usize>
    ensures { MatchOption result (none ≡ count_of (units_of text.now)) (λ n. some n ≡ count_of (units_of text.now)) }
{
    let mut at = 0;
    let mut n = 0;
    while let Some(form) = first_form(&text[at..]) {
        at += form.size;
        n += 1;
    }
    if at == text.len() { Some(n) } else { None }
}

// Writes the units of a text.
fn put_units(text: &[u8], units: &mut [u16])
    requires { (is_text text.now ≡ true) × (length (held text.now) ≤ length units.old) }
    ensures { units.new ≡ overwrite (held text.now) units.old }
{
    let mut at = 0;
    let mut n = 0;
    while let Some(form) = first_form(&text[at..]) {
        units[n] = form.unit;
        at += form.size;
        n += 1;
    }
}

// Whether bytes pass JVMS 4.4.7.
pub fn is_text(bytes: &[u8]) -> bool
    ensures { result ≡ is_text bytes.now }
{
    count_units(bytes).is_some()
}

// The units of a text, which are counted before the first is written.
pub fn read_text(text: &[u8], units: &mut [u16]) -> Result<usize, Refusal>
    ensures result_value { answer result ≡ length_of (read_text (length units.old) text.now) }
    ensures units_after { units.new ≡ out_after (read_text (length units.old) text.now) units.old }
{
    let Some(count) = count_units(text) else {
        return Err(Refusal::NotText);
    };
    if units.len() < count {
        return Err(Refusal::OutputTooShort);
    }
    put_units(text, units);
    Ok(count)
}

// How many bytes a unit's form takes: 0001 to 007F one, 0000 and 0080 to 07FF two, the others three.
fn form_size(unit: u16) -> usize
    ensures { result ≡ length (unit_bytes unit) }
{
    if unit == 0 {
        return 2;
    }
    if unit < 0x80 {
        return 1;
    }
    if unit < 0x800 { 2 } else { 3 }
}

// For the same reason a form of two bytes and one of three are written by a function each.
fn put_two(text: &mut [u8], at: usize, unit: u16)
    requires { (unit < 0x800) × (at + 2 ≤ length text.old) }
    ensures { text.new ≡ paste text.old at (in_two unit) 2 }
{
    let form = [(0xc0 + unit / 64) as u8, (0x80 + unit % 64) as u8];
    writer::copy(&form, 0, text, at, 2);
}

fn put_three(text: &mut [u8], at: usize, unit: u16)
    requires { at + 3 ≤ length text.old }
    ensures { text.new ≡ paste text.old at (in_three unit) 3 }
{
    let form = [
        (0xe0 + unit / 4096) as u8,
        (0x80 + unit / 64 % 64) as u8,
        (0x80 + unit % 64) as u8,
    ];
    writer::copy(&form, 0, text, at, 3);
}

// Writes a unit's form, and returns the place behind it.
fn put_form(text: &mut [u8], at: usize, unit: u16) -> usize
    requires { at + length (unit_bytes unit) ≤ length text.old }
    ensures value { result ≡ at + length (unit_bytes unit) }
    ensures text_after { text.new ≡ paste text.old at (unit_bytes unit) (length (unit_bytes unit)) }
{
    let size = form_size(unit);
    if size == 1 {
        writer::copy(&[unit as u8], 0, text, at, 1);
        return at + 1;
    }
    if size == 2 {
        put_two(text, at, unit);
        return at + 2;
    }
    put_three(text, at, unit);
    at + 3
}

// What writing units into so much room comes to. What is counted never passes the room, so that no sum is too large for a usize.
fn measure(units: &[u16], room: usize) -> Result<usize, Refusal>
    ensures { answer result ≡ length_of (write_text room units.now) }
{
    let mut size = 0;
    for &unit in units {
        let more = form_size(unit);
        if room - size < more {
            return Err(Refusal::OutputTooShort);
        }
        size += more;
    }
    Ok(size)
}

fn put_text(units: &[u16], text: &mut [u8])
    requires { length (text_of units.now) ≤ length text.old }
    ensures { text.new ≡ overwrite (text_of units.now) text.old }
{
    let mut at = 0;
    for &unit in units {
        at = put_form(text, at, unit);
    }
}

// Any row of units as a text, which is measured before its first byte is written.
pub fn write_text(units: &[u16], text: &mut [u8]) -> Result<usize, Refusal>
    ensures result_value { answer result ≡ length_of (write_text (length text.old) units.now) }
    ensures text_after { text.new ≡ out_after (write_text (length text.old) units.now) text.old }
{
    let size = measure(units, text.len())?;
    put_text(units, text);
    Ok(size)
}

// An answer as document 02 numbers it, with its length left in its place, 0 if there is none. The place of a refusal is 0 always.
fn tell(answer: Result<usize, Refusal>, size: &mut usize) -> u32
    ensures code { result ≡ code_of answer }
    ensures size { size.new ≡ size_of answer }
{
    match answer {
        Ok(n) => {
            *size = n;
            0
        }
        Err(refusal) => {
            *size = 0;
            refusal.into()
        }
    }
}

// read_text for Rust and C: returns the number, as the C interface has it, and writes how many units there are.
#[unsafe(no_mangle)]
pub extern "C" fn texts_read(text: &[u8], units: &mut [u16], size: &mut usize) -> u32
    ensures { Told (read_text (length units.old) text.now)
        result size.new units.old units.new }
{
    tell(read_text(text, units), size)
}

// write_text for Rust and C, in the same way: the size is the text's length.
#[unsafe(no_mangle)]
pub extern "C" fn texts_write(units: &[u16], text: &mut [u8], size: &mut usize) -> u32
    ensures { Told (write_text (length text.old) units.now)
        result size.new text.old text.new }
{
    tell(write_text(units, text), size)
}

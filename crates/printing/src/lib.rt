// Texts and numbers as the listing of a pool shows them.
#![tactic(auto)]

ghost use Rattle.std.specs.Prelude.{◌≡◌, [], ◌∷◌, ◌++◌, ◌+◌, ◌*◌, ◌/◌, ◌%◌, ◌<◌, ◌≤◌, ◌↔◌, IsTrue, length};
ghost use Rattle.definition.specs.Ascii.{decimal, hex_digit};
ghost use Rattle.printing.specs.Printed.{CanPut, Printed};
ghost use Rattle.printing.specs.Numbers.{escaped, quoted, signed, hex_of, unit_of, fraction, power, scaled, magnitude, to_hex_string, float, double};

// By hand, since put_hex's clause says the definition's digits; std's `{:x}` would have to be shown to be the same, which is no plainer.
fn digit(n: usize) -> u8
    requires { n < 16 }
    ensures { result ≡ hex_digit n }
{
    b"0123456789abcdef"[n]
}

// The unit of the first of so many hex digits.
fn first_unit(count: usize) -> usize
    requires { (0 < count) × (count ≤ 16) }
    ensures { result ≡ unit_of count }
{
    let mut unit = 1;
    for _digit in 1..count {
        unit *= 16;
    }
    unit
}

// These put text as a Printer does, at a place of `out`, and return where it ends: a loop keeps a place by value in a register, and would load
// and store a printer's for each byte.
fn byte_at(out: &mut [u8], room: usize, at: usize, b: u8) -> usize
    requires { CanPut out.old room at }
    ensures { Printed out.old room at (b ∷ []) out.new result }
{
    if at < out.len() {
        out[at] = b;
    }
    if at < room { at + 1 } else { room + 1 }
}

fn word_at(out: &mut [u8], room: usize, start: usize, word: &[u8]) -> usize
    requires { CanPut out.old room start }
    ensures { Printed out.old room start word.now out.new result }
{
    let mut at = start;
    for &b in word {
        at = byte_at(out, room, at, b);
    }
    at
}

fn hex_at(out: &mut [u8], room: usize, start: usize, n: usize, count: usize) -> usize
    requires { CanPut out.old room start × (0 < count) × (count ≤ 16) }
    ensures { Printed out.old room start (hex_of count n) out.new result }
{
    let mut at = start;
    let mut unit = first_unit(count);
    while 0 < unit {
        at = byte_at(out, room, at, digit(n / unit % 16));
        unit /= 16;
    }
    at
}

// A byte as it stands in quotes.
fn escaped_at(out: &mut [u8], room: usize, at: usize, b: u8) -> usize
    requires { CanPut out.old room at }
    ensures { Printed out.old room at (escaped b) out.new result }
{
    match b {
        0x22 => word_at(out, room, at, b"\\\""),
        0x5c => word_at(out, room, at, b"\\\\"),
        0x20..=0x7e => byte_at(out, room, at, b),
        _ => {
            let digits = word_at(out, room, at, b"\\x");
            hex_at(out, room, digits, b as usize, 2)
        }
    }
}

fn quoted_at(out: &mut [u8], room: usize, start: usize, text: &[u8]) -> usize
    requires { CanPut out.old room start }
    ensures { Printed out.old room start (quoted text.now) out.new result }
{
    let mut at = byte_at(out, room, start, b'"');
    for &b in text {
        if room < at {
            break;
        }
        at = escaped_at(out, room, at, b);
    }
    byte_at(out, room, at, b'"')
}

// Counts a text or writes it: it puts bytes at a place into `out`, as far as that reaches, and its place is then where they end, or one more
// than the room where that is past it. While text is counted, `out` is empty.
#[derive(Drop)]
pub struct Printer<'a> {
    out: &'a mut [u8],
    room: usize,
    at: usize,
}

impl<'a> Printer<'a> {
    ghost use Rattle.printing.specs.Printed.{Ready, Prints};

    // Begins at a place, which is behind what `out` holds already.
    pub fn new(out: &'a mut [u8], room: usize, at: usize) -> Printer<'a>
        requires { CanPut out.old room at }
        ensures same_buffer { result.out.ghost_name ≡ out.entry.ghost_name }
        ensures begins { (result.out.now ≡ out.old) × (result.room ≡ room) × (result.at ≡ at) }
    {
        Printer { out, room, at }
    }

    // Where the text ends, one more than the room where it is too long for that.
    pub fn at(&self) -> usize
        ensures { result ≡ self.now.at }
    {
        let end = self.at;
        end
    }

    // Nothing that is put now would stand in the room.
    pub fn is_past(&self) -> bool
        ensures { IsTrue result ↔ (self.now.room < self.now.at) }
    {
        self.room < self.at
    }

    pub fn put(&mut self, b: u8)
        requires { Ready self.old }
        ensures same_buffer { self.new.out.ghost_name ≡ self.old.out.ghost_name }
        ensures text { Prints self.old self.new (b ∷ []) }
    {
        self.at = byte_at(self.out, self.room, self.at, b);
    }

    pub fn put_word(&mut self, word: &[u8])
        requires { Ready self.old }
        ensures same_buffer { self.new.out.ghost_name ≡ self.old.out.ghost_name }
        ensures text { Prints self.old self.new word.now }
    {
        self.at = word_at(self.out, self.room, self.at, word);
    }

    pub fn put_decimal(&mut self, n: usize)
        requires { Ready self.old }
        ensures same_buffer { self.new.out.ghost_name ≡ self.old.out.ghost_name }
        ensures text { Prints self.old self.new (decimal n) }
    {
        let mut digits = [0u8; 20];
        let k = io::decimal(n as u64, &mut digits);
        self.put_word(&digits[..k]);
    }

    // The last so many hex digits of a number.
    pub fn put_hex(&mut self, n: usize, count: usize)
        requires { Ready self.old × (0 < count) × (count ≤ 16) }
        ensures same_buffer { self.new.out.ghost_name ≡ self.old.out.ghost_name }
        ensures text { Prints self.old self.new (hex_of count n) }
    {
        self.at = hex_at(self.out, self.room, self.at, n, count);
    }

    // A number of two's complement, of which half are below `half`.
    fn put_signed(&mut self, n: u64, half: u64)
        requires { Ready self.old × (n < 2 * half) × (half ≤ 9223372036854775808) }
        ensures same_buffer { self.new.out.ghost_name ≡ self.old.out.ghost_name }
        ensures text { Prints self.old self.new (signed half n) }
    {
        if n < half {
            self.put_decimal(n as usize);
        } else {
            self.put(b'-');
            self.put_decimal((half - (n - half)) as usize);
        }
    }

    pub fn put_int(&mut self, n: u32)
        requires { Ready self.old }
        ensures same_buffer { self.new.out.ghost_name ≡ self.old.out.ghost_name }
        ensures text { Prints self.old self.new (signed 2147483648 n) }
    {
        self.put_signed(n as u64, 1 << 31);
    }

    pub fn put_long(&mut self, n: u64)
        requires { Ready self.old }
        ensures same_buffer { self.new.out.ghost_name ≡ self.old.out.ghost_name }
        ensures text { Prints self.old self.new (signed 9223372036854775808 n) }
    {
        self.put_signed(n, 1 << 63);
    }

    // Hex digits without the zeros behind the last that isn't one, but for one digit.
    fn put_fraction(&mut self, digits: usize, value: usize)
        requires { Ready self.old × (0 < digits) × (digits ≤ 16) }
        ensures same_buffer { self.new.out.ghost_name ≡ self.old.out.ghost_name }
        ensures text { Prints self.old self.new (fraction digits value) }
    {
        let mut m = value;
        let mut count = digits;
        while 1 < count && m % 16 == 0 {
            m /= 16;
            count -= 1;
        }
        self.put_hex(m, count);
    }

    fn put_power(&mut self, bias: usize, e: usize)
        requires { Ready self.old }
        ensures same_buffer { self.new.out.ghost_name ≡ self.old.out.ghost_name }
        ensures text { Prints self.old self.new (power bias e) }
    {
        if bias <= e {
            self.put_decimal(e - bias);
        } else {
            self.put(b'-');
            self.put_decimal(bias - e);
        }
    }

    fn put_scaled(&mut self, bias: usize, digits: usize, e: usize, m: usize)
        requires { Ready self.old × (0 < digits) × (digits ≤ 16) }
        ensures same_buffer { self.new.out.ghost_name ≡ self.old.out.ghost_name }
        ensures text { Prints self.old self.new (scaled bias digits e m) }
    {
        self.put_fraction(digits, m);
        self.put(b'p');
        self.put_power(bias, e);
    }

    fn put_magnitude(&mut self, bias: usize, digits: usize, e: usize, m: usize)
        requires { Ready self.old × (0 < digits) × (digits ≤ 16) × (bias < 65536) }
        ensures same_buffer { self.new.out.ghost_name ≡ self.old.out.ghost_name }
        ensures text { Prints self.old self.new (magnitude bias digits e m) }
    {
        if e == 2 * bias + 1 {
            return self.put_word(b"Infinity");
        }
        if 0 < e {
            self.put_word(b"0x1.");
            return self.put_scaled(bias, digits, e, m);
        }
        if m == 0 {
            return self.put_word(b"0x0.0p0");
        }
        self.put_word(b"0x0.");
        self.put_scaled(bias, digits, 1, m);
    }

    // As Java's to_hex_string writes a float or a double: its sign, its exponent and its fraction of so many hex digits.
    fn put_hex_string(&mut self, bias: usize, digits: usize, sign: usize, e: usize, m: usize)
        requires { Ready self.old × (0 < digits) × (digits ≤ 16) × (bias < 65536) }
        ensures same_buffer { self.new.out.ghost_name ≡ self.old.out.ghost_name }
        ensures text { Prints self.old self.new (to_hex_string bias digits sign e m) }
    {
        if e == 2 * bias + 1 {
            if 0 < m {
                return self.put_word(b"NaN");
            }
        }
        if sign == 0 {
            return self.put_magnitude(bias, digits, e, m);
        }
        self.put(b'-');
        self.put_magnitude(bias, digits, e, m);
    }

    // A Float's bits in hex, and its value. One function for this and `put_double` would take seven constants: no plainer.
    pub fn put_float(&mut self, bits: u32)
        requires { Ready self.old }
        ensures same_buffer { self.new.out.ghost_name ≡ self.old.out.ghost_name }
        ensures text { Prints self.old self.new (hex_of 8 bits ++ 0x20 ∷ float bits) }
    {
        let n = bits as usize;
        self.put_hex(n, 8);
        self.put(b' ');
        self.put_hex_string(127, 6, n / 2147483648, n / 8388608 % 256, 2 * (n % 8388608));
    }

    pub fn put_double(&mut self, bits: u64)
        requires { Ready self.old }
        ensures same_buffer { self.new.out.ghost_name ≡ self.old.out.ghost_name }
        ensures text { Prints self.old self.new (hex_of 16 bits ++ 0x20 ∷ double bits) }
    {
        let n = bits as usize;
        self.put_hex(n, 16);
        self.put(b' ');
        self.put_hex_string(
            1023,
            13,
            n / 9223372036854775808,
            n / 4503599627370496 % 2048,
            n % 4503599627370496,
        );
    }

    // A text in quotes.
    pub fn put_quoted(&mut self, text: &[u8])
        requires { Ready self.old }
        ensures same_buffer { self.new.out.ghost_name ≡ self.old.out.ghost_name }
        ensures text { Prints self.old self.new (quoted text.now) }
    {
        self.at = quoted_at(self.out, self.room, self.at, text);
    }
}

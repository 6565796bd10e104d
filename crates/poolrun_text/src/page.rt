// Text that is put into a lent buffer, each piece behind the last.
ghost use Rattle.std.specs.Prelude.{◌≡◌, [], ◌∷◌, ◌++◌, ◌+◌, ◌*◌, ◌<◌, ◌≤◌, length};
ghost use Rattle.definition.specs.Ascii.{decimal, hex, hex_digit};
ghost use Rattle.definition.specs.Blocks.{line};
ghost use Rattle.poolrun_text.specs.Page.{HasRoom, Prints, two_digits_lem};

// The first `at` bytes of the buffer are what is put so far.
#[derive(Drop)]
pub(crate) struct Page<'a> {
    out: &'a mut [u8],
    at: usize,
}

// By hand, since put_hex's clause says the definition's digits; std's `{:x}` would have to be shown to be the same, which is no plainer.
fn digit(n: u8) -> u8
    requires { n < 16 }
    ensures { result ≡ hex_digit n }
{
    if n < 10 { 48 + n } else { 87 + n }
}

impl<'a> Page<'a> {
    pub(crate) fn new(out: &'a mut [u8]) -> Page<'a>
        ensures same_buffer { result.out.ghost_name ≡ out.entry.ghost_name }
        ensures bytes { result.out.now ≡ out.old }
        ensures empty { result.at ≡ 0 }
    {
        Page { out, at: 0 }
    }

    // How long the text is.
    pub(crate) fn len(&self) -> usize
        ensures { result ≡ self.now.at }
    {
        self.at
    }

    pub(crate) fn put(&mut self, b: u8)
        requires { HasRoom self.old 1 }
        ensures { Prints self.old self.new (b ∷ []) }
    {
        self.out[self.at] = b;
        self.at += 1;
    }

    pub(crate) fn put_word(&mut self, word: &[u8])
        requires { HasRoom self.old (length word.now) }
        ensures { Prints self.old self.new word.now }
    {
        writer::copy(word, 0, self.out, self.at, word.len());
        self.at += word.len();
    }

    // A number's decimal digits, at most 20.
    pub(crate) fn put_decimal(&mut self, n: usize)
        requires { HasRoom self.old 20 }
        ensures upper_bound { self.new.at ≤ self.old.at + 20 }
        ensures digits { Prints self.old self.new (decimal n) }
    {
        let mut digits = [0u8; 20];
        let k = io::decimal(n as u64, &mut digits);
        self.put_word(&digits[..k]);
    }

    // A line of a number.
    pub(crate) fn put_line(&mut self, n: usize)
        requires { HasRoom self.old 21 }
        ensures upper_bound { self.new.at ≤ self.old.at + 21 }
        ensures line { Prints self.old self.new (line (decimal n)) }
    {
        self.put_decimal(n);
        self.put(b'\n');
    }

    // A line of a word and a number.
    pub(crate) fn put_one(&mut self, word: &[u8], n: usize)
        requires { HasRoom self.old (length word.now + 21) }
        ensures upper_bound { self.new.at ≤ self.old.at + length word.now + 21 }
        ensures line { Prints self.old self.new (line (word.now ++ decimal n)) }
    {
        self.put_word(word);
        self.put_line(n);
    }

    // A line of a word and two numbers with a space between them.
    pub(crate) fn put_two(&mut self, word: &[u8], n: usize, m: usize)
        requires { HasRoom self.old (length word.now + 42) }
        ensures upper_bound { self.new.at ≤ self.old.at + length word.now + 42 }
        ensures line { Prints self.old self.new (line (word.now ++ decimal n ++ 32 ∷ decimal m)) }
    {
        self.put_word(word);
        self.put_decimal(n);
        self.put(b' ');
        self.put_line(m);
    }

    fn put_byte(&mut self, b: u8)
        requires { HasRoom self.old 2 }
        ensures { Prints self.old self.new (two_digits_lem b) }
    {
        self.put(digit(b / 16));
        self.put(digit(b % 16));
    }

    fn put_hex(&mut self, s: &[u8])
        requires { HasRoom self.old (2 * length s.now) }
        ensures value { self.new.at ≡ self.old.at + 2 * length s.now }
        ensures digits { Prints self.old self.new (hex s.now) }
    {
        for b in s {
            self.put_byte(*b);
        }
    }

    // A line of bytes in hex.
    pub(crate) fn put_bytes(&mut self, s: &[u8])
        requires { HasRoom self.old (2 * length s.now + 1) }
        ensures upper_bound { self.new.at ≤ self.old.at + 2 * length s.now + 1 }
        ensures line { Prints self.old self.new (line (hex s.now)) }
    {
        self.put_hex(s);
        self.put(b'\n');
    }
}

// A line that is put together in a lent buffer, and is written when it ends.
ghost use Rattle.std.specs.Prelude.{[], ◌∷◌, ◌≡◌, ◌≤◌, ◌<◌, length, Err};
ghost use Rattle.definition.specs.Ascii.{ascii, decimal, hex};
ghost use Rattle.frames.specs.Line.{standing, put, put_number};

use printing::Printer;
use std::io::{Error, Write};

// Why a text isn't written.
#[derive(Clone, Copy, Debug)]
pub enum WriteError {
    // There is less of it than is to be written: it didn't fit its buffer.
    TooShort,
    Failed(Error),
}

impl From<Error> for WriteError {
    ghost use Rattle.frames.specs.declared.writing.WriteError.TheVariants.{Failed};

    ghost from_gives = { λ error write. write ≡ Failed error };

    fn from(error: Error) -> WriteError {
        WriteError::Failed(error)
    }
}

// Writes the first n bytes of a text. It takes n and not &text[..n] since its clause speaks of too short a text.
pub fn write_part(output: &mut impl Write, text: &[u8], n: usize) -> Result<(), WriteError>
    ensures { length text.now < n → result ≡ Err WriteError.TooShort }
{
    if text.len() < n {
        return Err(WriteError::TooShort);
    }
    output.write_all(&text[..n])?;
    Ok(())
}

fn two_digits(b: u8) -> [u8; 2]
    ensures { result ≡ hex (b ∷ []) }
{
    let mut digits = [0u8; 2];
    let mut printer = Printer::new(&mut digits, 2, 0);
    printer.put_hex(b as usize, 2);
    digits
}

// The words stand in the buffer one behind the other, each whole or not at all.
#[derive(Drop)]
pub struct Line<'a> {
    text: &'a mut [u8],
    // Where the next word begins: past the buffer's end when one didn't fit.
    at: usize,
}

impl<'a> Line<'a> {
    pub fn new(text: &'a mut [u8]) -> Line<'a>
        ensures same_buffer { result.text.ghost_name ≡ text.entry.ghost_name }
        ensures empty { standing result ≡ (text.old, 0) }
    {
        Line::behind(text, 0)
    }

    // A line whose next word begins at any place.
    pub fn behind(text: &'a mut [u8], at: usize) -> Line<'a>
        ensures same_buffer { result.text.ghost_name ≡ text.entry.ghost_name }
        ensures place { standing result ≡ (text.old, at) }
    {
        Line { text, at }
    }

    // Where the next word begins.
    pub fn at(&self) -> usize
        ensures { result ≡ self.now.at }
    {
        let end = self.at;
        end
    }

    // Puts a word, whole or not at all.
    pub fn put_word(&mut self, word: &[u8])
        ensures same_buffer { self.new.text.ghost_name ≡ self.old.text.ghost_name }
        ensures word { standing self.new ≡ put (standing self.old) word.now }
    {
        let room = self.text.len();
        if word.len() <= room && self.at <= room - word.len() {
            writer::copy(word, 0, self.text, self.at, word.len());
            self.at += word.len();
        } else {
            self.at = room + 1;
        }
    }

    pub fn put_decimal(&mut self, n: usize)
        ensures same_buffer { self.new.text.ghost_name ≡ self.old.text.ghost_name }
        ensures digits { standing self.new ≡ put (standing self.old) (decimal n) }
    {
        let mut digits = [0u8; 20];
        let k = io::decimal(n as u64, &mut digits);
        self.put_word(&digits[..k]);
    }

    // A byte as two hex digits.
    pub fn put_hex(&mut self, b: u8)
        ensures same_buffer { self.new.text.ghost_name ≡ self.old.text.ghost_name }
        ensures digits { standing self.new ≡ put (standing self.old) (hex (b ∷ [])) }
    {
        self.put_word(&two_digits(b));
    }

    // A number's decimal digits, behind a space.
    pub fn put_number(&mut self, n: usize)
        ensures same_buffer { self.new.text.ghost_name ≡ self.old.text.ghost_name }
        ensures number { standing self.new ≡ put_number (standing self.old) n }
    {
        self.put_word(b" ");
        self.put_decimal(n);
    }

    pub fn put_refusal(&mut self, code: u32)
        ensures same_buffer { self.new.text.ghost_name ≡ self.old.text.ghost_name }
        ensures code { standing self.new ≡ put_number (put (standing self.old) (ascii "refused")) code }
    {
        self.put_word(b"refused");
        self.put_number(code as usize);
    }

    fn write(&self, output: &mut impl Write) -> Result<(), WriteError>
        ensures { length self.now.text.now < self.now.at → result ≡ Err WriteError.TooShort }
    {
        write_part(output, self.text, self.at)
    }

    // Ends the line and writes it; the next line begins.
    pub fn end(&mut self, output: &mut impl Write) -> Result<(), WriteError>
        ensures same_buffer { self.new.text.ghost_name ≡ self.old.text.ghost_name }
        ensures line { standing self.new ≡ ((put (standing self.old) (ascii "\n")).0, 0) }
        ensures unfit { length self.old.text.now ≤ self.old.at → result ≡ Err WriteError.TooShort }
    {
        self.put_word(b"\n");
        let written = self.write(output);
        self.at = 0;
        written
    }
}

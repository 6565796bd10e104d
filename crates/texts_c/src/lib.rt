// The forms of crate texts that C calls: a static library's functions, each of which calls the one of its name.
#![tactic(auto)]

ghost use Rattle.std.specs.Prelude.{length};
ghost use Rattle.definition.specs.Texts.{read_text, write_text};
ghost use Rattle.texts.specs.Answers.{Told};

// read_text for C: returns the refusal's number, 0 if the text is read, and writes how many units it has.
#[unsafe(no_mangle)]
pub extern "C" fn texts_read(text: &[u8], units: &mut [u16], size: &mut usize) -> u32
    ensures { Told (read_text (length units.old) text.now)
        result size.new units.old units.new }
{
    texts::texts_read(text, units, size)
}

// write_text for C, in the same way: the size is the text's length.
#[unsafe(no_mangle)]
pub extern "C" fn texts_write(units: &[u16], text: &mut [u8], size: &mut usize) -> u32
    ensures { Told (write_text (length text.old) units.now)
        result size.new text.old text.new }
{
    texts::texts_write(units, text, size)
}

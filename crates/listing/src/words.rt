// The words of a listing, and the numbers in brackets.
ghost use Rattle.std.specs.Prelude.{◌≡◌};
ghost use Rattle.definition.specs.Basics.{lookup};
ghost use Rattle.definition.specs.Ascii.{ascii};
ghost use Rattle.printing.specs.Printed.{Ready, Prints};
ghost use Rattle.listing.specs.Listing.{or_decimal, reference_kind, kinds, bracketed};
ghost use Rattle.listing.specs.Views.{between};

use printing::Printer;

// The name of a tag.
pub(crate) fn put_kind(printer: &mut Printer, tag: u8)
    requires { Ready printer.old }
    ensures same_buffer { printer.new.out.ghost_name ≡ printer.old.out.ghost_name }
    ensures text { Prints printer.old printer.new (or_decimal tag (lookup tag kinds)) }
{
    match tag {
        1 => printer.put_word(b"Utf8"),
        3 => printer.put_word(b"Integer"),
        4 => printer.put_word(b"Float"),
        5 => printer.put_word(b"Long"),
        6 => printer.put_word(b"Double"),
        7 => printer.put_word(b"Class"),
        8 => printer.put_word(b"String"),
        9 => printer.put_word(b"Fieldref"),
        10 => printer.put_word(b"Methodref"),
        11 => printer.put_word(b"InterfaceMethodref"),
        12 => printer.put_word(b"NameAndType"),
        15 => printer.put_word(b"MethodHandle"),
        16 => printer.put_word(b"MethodType"),
        17 => printer.put_word(b"Dynamic"),
        18 => printer.put_word(b"InvokeDynamic"),
        19 => printer.put_word(b"Module"),
        20 => printer.put_word(b"Package"),
        _ => printer.put_decimal(tag as usize),
    }
}

pub(crate) fn put_reference_kind(printer: &mut Printer, n: u8)
    requires { Ready printer.old }
    ensures same_buffer { printer.new.out.ghost_name ≡ printer.old.out.ghost_name }
    ensures text { Prints printer.old printer.new (reference_kind n) }
{
    match n {
        1 => printer.put_word(b"REF_getField"),
        2 => printer.put_word(b"REF_getStatic"),
        3 => printer.put_word(b"REF_putField"),
        4 => printer.put_word(b"REF_putStatic"),
        5 => printer.put_word(b"REF_invokeVirtual"),
        6 => printer.put_word(b"REF_invokeStatic"),
        7 => printer.put_word(b"REF_invokeSpecial"),
        8 => printer.put_word(b"REF_newInvokeSpecial"),
        9 => printer.put_word(b"REF_invokeInterface"),
        _ => printer.put_decimal(n as usize),
    }
}

// What stands between the two that a constant of this tag refers to.
pub(crate) fn put_between(printer: &mut Printer, tag: u8)
    requires { Ready printer.old }
    ensures same_buffer { printer.new.out.ghost_name ≡ printer.old.out.ghost_name }
    ensures text { Prints printer.old printer.new (between tag) }
{
    match tag {
        9 => printer.put_word(b" . "),
        10 => printer.put_word(b" . "),
        11 => printer.put_word(b" . "),
        12 => printer.put_word(b" : "),
        17 => printer.put_word(b" by "),
        18 => printer.put_word(b" by "),
        _ => (),
    }
}

pub(crate) fn put_bracketed(printer: &mut Printer, n: u16)
    requires { Ready printer.old }
    ensures same_buffer { printer.new.out.ghost_name ≡ printer.old.out.ghost_name }
    ensures text { Prints printer.old printer.new (bracketed n) }
{
    printer.put(b'[');
    printer.put_decimal(n as usize);
    printer.put(b']');
}

pub(crate) fn put_comma(printer: &mut Printer)
    requires { Ready printer.old }
    ensures same_buffer { printer.new.out.ghost_name ≡ printer.old.out.ghost_name }
    ensures text { Prints printer.old printer.new (ascii ", ") }
{
    printer.put_word(b", ");
}

// What constants refer to, opened out: a constant by its slot, a bootstrap method by its index.
//
// Opened out, a pool of a few hundred bytes can have more than 2^64 bytes of text. So nothing is opened at a place that is past the room
// already, and time goes by the room.
//
// (pool, places, count, methods, table) are no struct: it was tried, and the check of the cycle of seven functions had no answer in five
// minutes, where it takes 25 seconds as it stands.
ghost use Rattle.std.specs.Prelude.{◌≡◌, ◌+◌, ◌*◌, ◌<◌, ◌≤◌, length, get_or};
ghost use Rattle.writer.specs.Numbers.{number2};
ghost use Rattle.places.specs.Standing.{slot_of};
ghost use Rattle.printing.specs.Printed.{Ready, Prints};
ghost use Rattle.listing.specs.Listing.{slot, method, opened};
ghost use Rattle.listing.specs.Views.{Views, finished};
ghost use Rattle.listing.specs.Opening.{held_at, Sized, number_at, two_at_lem, dynamic_at, handle_at, arguments_at, comma};

use super::words::{put_between, put_bracketed, put_comma, put_kind, put_reference_kind};
use printing::Printer;
use raw_const::Shape;
use writer::BigEndian;

// A constant by its slot, with so many levels left.
#[cycle(put_arguments_put_dynamic_put_handle_put_held_put_method_put_slot_put_two)]
fn put_slot(
    pool: &[u8],
    places: &[usize; 65536],
    count: u16,
    methods: &[u8],
    table: &[usize; 65536],
    printer: &mut Printer,
    levels: usize,
    n: u16,
)
    requires views { Views pool.now places.now count methods.now table.now }
    requires ready { Ready printer.old }
    ensures same_buffer { printer.new.out.ghost_name ≡ printer.old.out.ghost_name }
    ensures text { Prints printer.old printer.new (opened (finished pool.now count methods.now) levels (slot n)) }
{
    if printer.is_past() {
        return;
    }
    if levels == 0 {
        return put_bracketed(printer, n);
    }
    let place = places[n as usize];
    if place == 0 {
        return printer.put_decimal(n as usize);
    }
    let left = levels - 1;
    let tag = pool[place];
    if tag == 1 {
        return put_held(pool, places, count, methods, table, printer, left, n);
    }
    put_kind(printer, tag);
    printer.put(b' ');
    put_held(pool, places, count, methods, table, printer, left, n);
}

// What the constant that begins at a slot holds, with so many levels left for what it refers to.
#[cycle(put_arguments_put_dynamic_put_handle_put_held_put_method_put_slot_put_two)]
pub(crate) fn put_held(
    pool: &[u8],
    places: &[usize; 65536],
    count: u16,
    methods: &[u8],
    table: &[usize; 65536],
    printer: &mut Printer,
    left: usize,
    n: u16,
)
    requires views { Views pool.now places.now count methods.now table.now }
    requires ready { Ready printer.old }
    requires nonzero { 0 < get_or places.now n 0 }
    ensures same_buffer { printer.new.out.ghost_name ≡ printer.old.out.ghost_name }
    ensures text { Prints printer.old printer.new (held_at (opened (finished pool.now count methods.now) left) (slot_of (finished pool.now count methods.now).slots n)) }
{
    let p = places[n as usize];
    match raw_const::shape_of(pool[p]) {
        Some(Shape::Text) => {
            let end = p + 3 + u16::get(pool, p + 1) as usize;
            printer.put_quoted(&pool[p + 3..end])
        }
        Some(Shape::Bits(_)) => put_number(pool, printer, p),
        Some(Shape::One) => {
            let i = u16::get(pool, p + 1);
            put_slot(pool, places, count, methods, table, printer, left, i)
        }
        Some(Shape::Two) => put_two(pool, places, count, methods, table, printer, left, p),
        Some(Shape::Dynamic) => put_dynamic(pool, places, count, methods, table, printer, left, p),
        Some(Shape::KindOne) => put_handle(pool, places, count, methods, table, printer, left, p),
        None => (),
    }
}

// An Integer, a Float, a Long or a Double at a place.
fn put_number(pool: &[u8], printer: &mut Printer, place: usize)
    requires ready { Ready printer.old }
    requires sized { Sized pool.now place }
    ensures same_buffer { printer.new.out.ghost_name ≡ printer.old.out.ghost_name }
    ensures text { Prints printer.old printer.new (number_at pool.now place) }
{
    match pool[place] {
        3 => printer.put_int(u32::get(pool, place + 1)),
        4 => printer.put_float(u32::get(pool, place + 1)),
        5 => printer.put_long(u64::get(pool, place + 1)),
        _ => printer.put_double(u64::get(pool, place + 1)),
    }
}

// The two references of the constant at a place.
#[cycle(put_arguments_put_dynamic_put_handle_put_held_put_method_put_slot_put_two)]
fn put_two(
    pool: &[u8],
    places: &[usize; 65536],
    count: u16,
    methods: &[u8],
    table: &[usize; 65536],
    printer: &mut Printer,
    left: usize,
    p: usize,
)
    requires views { Views pool.now places.now count methods.now table.now }
    requires ready { Ready printer.old }
    requires p_in_bounds { p + 5 ≤ length pool.now }
    ensures same_buffer { printer.new.out.ghost_name ≡ printer.old.out.ghost_name }
    ensures text { Prints printer.old printer.new (two_at_lem (opened (finished pool.now count methods.now) left) pool.now p) }
{
    let i = u16::get(pool, p + 1);
    put_slot(pool, places, count, methods, table, printer, left, i);
    put_between(printer, pool[p]);
    let j = u16::get(pool, p + 3);
    put_slot(pool, places, count, methods, table, printer, left, j);
}

// A dynamic constant at a place: its name and type, and its bootstrap method.
#[cycle(put_arguments_put_dynamic_put_handle_put_held_put_method_put_slot_put_two)]
fn put_dynamic(
    pool: &[u8],
    places: &[usize; 65536],
    count: u16,
    methods: &[u8],
    table: &[usize; 65536],
    printer: &mut Printer,
    left: usize,
    p: usize,
)
    requires views { Views pool.now places.now count methods.now table.now }
    requires ready { Ready printer.old }
    requires p_in_bounds { p + 5 ≤ length pool.now }
    ensures same_buffer { printer.new.out.ghost_name ≡ printer.old.out.ghost_name }
    ensures text { Prints printer.old printer.new (dynamic_at (opened (finished pool.now count methods.now) left) pool.now p) }
{
    let i = u16::get(pool, p + 3);
    put_slot(pool, places, count, methods, table, printer, left, i);
    put_between(printer, pool[p]);
    let j = u16::get(pool, p + 1);
    put_method(pool, places, count, methods, table, printer, left, j);
}

// A method handle at a place: its kind and its reference.
#[cycle(put_arguments_put_dynamic_put_handle_put_held_put_method_put_slot_put_two)]
fn put_handle(
    pool: &[u8],
    places: &[usize; 65536],
    count: u16,
    methods: &[u8],
    table: &[usize; 65536],
    printer: &mut Printer,
    left: usize,
    p: usize,
)
    requires views { Views pool.now places.now count methods.now table.now }
    requires ready { Ready printer.old }
    requires p_in_bounds { p + 4 ≤ length pool.now }
    ensures same_buffer { printer.new.out.ghost_name ≡ printer.old.out.ghost_name }
    ensures text { Prints printer.old printer.new (handle_at (opened (finished pool.now count methods.now) left) pool.now p) }
{
    put_reference_kind(printer, pool[p + 1]);
    printer.put(b' ');
    let i = u16::get(pool, p + 2);
    put_slot(pool, places, count, methods, table, printer, left, i)
}

// A bootstrap method by its index, with so many levels left; its arguments stand in brackets.
#[cycle(put_arguments_put_dynamic_put_handle_put_held_put_method_put_slot_put_two)]
fn put_method(
    pool: &[u8],
    places: &[usize; 65536],
    count: u16,
    methods: &[u8],
    table: &[usize; 65536],
    printer: &mut Printer,
    levels: usize,
    n: u16,
)
    requires views { Views pool.now places.now count methods.now table.now }
    requires ready { Ready printer.old }
    ensures same_buffer { printer.new.out.ghost_name ≡ printer.old.out.ghost_name }
    ensures text { Prints printer.old printer.new (opened (finished pool.now count methods.now) levels (method n)) }
{
    if printer.is_past() {
        return;
    }
    if levels == 0 {
        return put_bracketed(printer, n);
    }
    if count <= n {
        return printer.put_decimal(n as usize);
    }
    let left = levels - 1;
    let p = table[n as usize];
    let i = u16::get(methods, p);
    put_slot(pool, places, count, methods, table, printer, left, i);
    printer.put_word(b" (");
    put_arguments(pool, places, count, methods, table, printer, left, p);
    printer.put(b')');
}

// The arguments of the bootstrap method at a place.
#[cycle(put_arguments_put_dynamic_put_handle_put_held_put_method_put_slot_put_two)]
fn put_arguments(
    pool: &[u8],
    places: &[usize; 65536],
    count: u16,
    methods: &[u8],
    table: &[usize; 65536],
    printer: &mut Printer,
    left: usize,
    p: usize,
)
    requires views { Views pool.now places.now count methods.now table.now }
    requires ready { Ready printer.old }
    requires p_in_bounds { p + 4 + 2 * number2 methods.now (p + 2) ≤ length methods.now }
    ensures same_buffer { printer.new.out.ghost_name ≡ printer.old.out.ghost_name }
    ensures text { Prints printer.old printer.new (arguments_at (opened (finished pool.now count methods.now) left) methods.now p) }
{
    let size = u16::get(methods, p + 2) as usize;
    for k in 0..size {
        if printer.is_past() {
            return;
        }
        put_comma_before(printer, k);
        let i = u16::get(methods, p + 4 + 2 * k);
        put_slot(pool, places, count, methods, table, printer, left, i);
    }
}

// What stands before the argument with an index.
fn put_comma_before(printer: &mut Printer, k: usize)
    requires { Ready printer.old }
    ensures same_buffer { printer.new.out.ghost_name ≡ printer.old.out.ghost_name }
    ensures text { Prints printer.old printer.new (comma k) }
{
    if 0 < k {
        put_comma(printer);
    }
}

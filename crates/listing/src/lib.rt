// The listing of a finished pool (document 02, No. 1): a line for each constant, with what it refers to opened out.
#![tactic(auto)]

mod opening;
mod words;

ghost use Rattle.places.specs.Standing.{slot_of};
ghost use Rattle.std.specs.Prelude.{◌≡◌, ◌<◌, ◌≤◌, length};
ghost use Rattle.printing.specs.Printed.{Printed, Ready, Prints};
ghost use Rattle.listing.specs.Listing.{lines};
ghost use Rattle.listing.specs.Views.{Views, finished};
ghost use Rattle.listing.specs.Lists.{line_of, Lists};

use opening::put_held;
use printing::Printer;
use refusal::Refusal;
use words::put_kind;
use writer::BigEndian;

// The line of a slot; there is none where no constant begins. A constant stands eight levels above the numbers that aren't opened.
// (pool, places, count, methods, table) are no struct, here as in `opening`: it was tried, and the check of the cycle of seven functions
// there had no answer in five minutes, where it takes 25 seconds as it stands.
fn put_line(
    pool: &[u8],
    places: &[usize; 65536],
    count: u16,
    methods: &[u8],
    table: &[usize; 65536],
    printer: &mut Printer,
    slot: u16,
)
    requires views { Views pool.now places.now count methods.now table.now }
    requires ready { Ready printer.old }
    ensures same_buffer { printer.new.out.ghost_name ≡ printer.old.out.ghost_name }
    ensures text { Prints printer.old printer.new (line_of (finished pool.now count methods.now) slot (slot_of (finished pool.now count methods.now).slots slot)) }
{
    let place = places[slot as usize];
    if place == 0 {
        return;
    }
    printer.put_decimal(slot as usize);
    printer.put(b' ');
    put_kind(printer, pool[place]);
    printer.put(b' ');
    put_held(pool, places, count, methods, table, printer, 7, slot);
    printer.put(b'\n');
}

fn put_lines(
    pool: &[u8],
    places: &[usize; 65536],
    count: u16,
    methods: &[u8],
    table: &[usize; 65536],
    out: &mut [u8],
    room: usize,
) -> usize
    requires views { Views pool.now places.now count methods.now table.now }
    requires room { (length out.old ≤ room) × (room < 18446744073709551615) }
    ensures { Printed out.old room 0 (lines (finished pool.now count methods.now)) out.new result }
{
    let mut printer = Printer::new(out, room, 0);
    for slot in 1..u16::get(pool, 0) {
        put_line(pool, places, count, methods, table, &mut printer, slot);
    }
    printer.at()
}

// The text is counted, with no byte of `out` lent, before it is written.
fn list_read(
    pool: &[u8],
    places: &[usize; 65536],
    count: u16,
    methods: &[u8],
    table: &[usize; 65536],
    out: &mut [u8],
) -> Result<usize, Refusal>
    requires { Views pool.now places.now count methods.now table.now }
    ensures { Lists pool.now count methods.now out.old out.new result }
{
    let room = out.len();
    let end = put_lines(pool, places, count, methods, table, &mut out[..0], room);
    if room < end {
        return Err(Refusal::OutputTooShort);
    }
    put_lines(pool, places, count, methods, table, out, room);
    Ok(end)
}

// Lists a pool with so many bootstrap methods: how many bytes of text.
pub fn list(pool: &[u8], count: u16, methods: &[u8], out: &mut [u8]) -> Result<usize, Refusal>
    ensures { Lists pool.now count methods.now out.old out.new result }
{
    let mut places = [0usize; 65536];
    let mut table = [0usize; 65536];
    let Some(next) = places::note_pool(pool, 0, &mut places) else {
        return Err(Refusal::NotPool);
    };
    if next < pool.len() {
        return Err(Refusal::NotPool);
    }
    if places::note_methods(methods, count, &mut table) {
        list_read(pool, &places, count, methods, &table, out)
    } else {
        Err(Refusal::NotPool)
    }
}

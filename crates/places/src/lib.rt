// Where each constant of a pool and each bootstrap method stands in its bytes, found in one pass (JVMS 4.4, 4.7.23).
#![tactic(auto)]

ghost use Rattle.std.specs.Prelude.{◌≡◌, ◌-◌, ◌<◌, ◌≤◌, length};
ghost use Rattle.definition.specs.Shapes.{is_wide};
ghost use Rattle.places.specs.Noting.{width, SlotsNoted, PoolNoted, tag_at, MethodPassed, MethodsPut};

use writer::BigEndian;

// How many slots a constant of a tag takes.
fn slots_of(tag: u8) -> usize
    ensures { result ≡ width (is_wide tag) }
{
    if raw_const::is_long(tag) { 2 } else { 1 }
}

// Notes the places of constants that fill the slots from 1 to below the count, and returns the place behind them. Those of the first may be
// noted though a later one is bad.
fn note_slots(
    bytes: &[u8],
    start: usize,
    count: usize,
    places: &mut [usize; 65536],
) -> Option<usize>
    requires count_nonzero { (0 < count) × (count < 65536) }
    requires start_in_bounds { start ≤ length bytes.now }
    ensures { SlotsNoted bytes.now start (count - 1) places.old places.new result }
{
    let mut at = start;
    let mut slot = 1;
    // Not a range: a constant takes one slot or two, as its entry tells.
    while slot < count {
        let entry = raw_const::read_entry(bytes, at)?;
        places[slot] = at;
        at = entry.next;
        slot += slots_of(entry.tag);
    }
    if slot == count { Some(at) } else { None }
}

// Reads a pool that begins at a place, its count and then its constants, and notes the place of each at its index; returns the place behind it.
// What isn't a pool may have left places in the table.
pub fn note_pool(bytes: &[u8], at: usize, places: &mut [usize; 65536]) -> Option<usize>
    ensures { PoolNoted bytes.now at places.old places.new result }
{
    if bytes.len() < 2 || bytes.len() - 2 < at {
        return None;
    }
    let count = u16::get(bytes, at) as usize;
    if count == 0 {
        return None;
    }
    note_slots(bytes, at + 2, count, places)
}

// The tag of the constant at an index, 0 where none begins.
pub fn tag_at(bytes: &[u8], places: &[usize; 65536], slot: u16) -> u8
    ensures { result ≡ tag_at bytes.now places.now slot }
{
    match places[slot as usize] {
        0 => 0,
        place => bytes.get(place).copied().unwrap_or(0),
    }
}

// Finds the place behind the bootstrap method at a place: a handle, the number of its arguments, and these.
fn past_method(bytes: &[u8], at: usize) -> Option<usize>
    requires { at ≤ length bytes.now }
    ensures { MethodPassed bytes.now at result }
{
    if bytes.len() - at < 4 {
        return None;
    }
    let size = 2 * u16::get(bytes, at + 2) as usize;
    if bytes.len() - at - 4 < size {
        return None;
    }
    Some(at + 4 + size)
}

// Reads so many bootstrap methods, which are to take all bytes, and notes the place of each from index 0 on.
pub fn note_methods(bytes: &[u8], count: u16, places: &mut [usize; 65536]) -> bool
    ensures { MethodsPut bytes.now count places.old places.new result }
{
    let mut at = 0;
    for i in 0..count as usize {
        let Some(next) = past_method(bytes, at) else {
            return false;
        };
        places[i] = at;
        at = next;
    }
    at == bytes.len()
}

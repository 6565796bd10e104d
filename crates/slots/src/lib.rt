// Slots: Krakatau's `ConstSlotAllocator`, over gaps in lent memory. A request has the gaps that are in use.
#![tactic(auto)]

ghost use Rattle.std.specs.Prelude.{ℕ, Bool, ◌++◌, [], ◌≡◌, ◌+◌, ◌≤◌, ◌<◌, ◌&&◌, true, IfNone, leb, length, replicate};
ghost use Rattle.definition.specs.Basics.{every};
ghost use Rattle.definition.specs.Slots as definition;
ghost use Rattle.definition.specs.Slots.{highest_slot, size, scan, is_odd, too_high, plain_ends, gap_before, plain_slot, narrow_slot, wide_slot, slot_for, count_from};
ghost use Rattle.facts.specs.Lists.{Rising};
ghost use Rattle.slots.specs.Gaps.{gap_of, no_gap, gaps_of, gaps_at, ends, AtMost, slots_of, less, Decides, Answered, behind, Written, end_fits, requested};

// A run of free slots, shortened in place: empty once its first slot is past its last.
#[repr(C)]
#[derive(Clone, Copy, Debug, PartialEq, Eq)]
pub struct Gap {
    pub first: u16,
    pub last: u16,
}

// Places in the table: where the next search for an odd gap, for a wide gap and for any gap begins.
#[derive(Clone, Copy, Debug, PartialEq, Eq)]
pub struct Positions {
    pub odd: usize,
    pub wide: usize,
    pub plain: usize,
}

impl Gap {
    // How many slots it has.
    fn len(self) -> u32
        ensures { result ≡ size (gap_of self) }
    {
        (self.last as u32 + 1).saturating_sub(self.first as u32)
    }

    // ldc can't name its first slot.
    fn is_too_high(self, ldc: bool) -> bool
        ensures { result ≡ too_high ldc (gap_of self) }
    {
        ldc && self.first > 255
    }

    // The search for an odd gap ends here.
    fn is_odd(self) -> bool
        ensures { result ≡ is_odd (gap_of self) }
    {
        self.len() % 2 == 1
    }

    // The search for any gap ends here: at a slot, or where ldc can go no further.
    fn ends_plain(self, ldc: bool) -> bool
        ensures { result ≡ plain_ends ldc (gap_of self) }
    {
        self.is_too_high(ldc) || self.len() >= 1
    }

    // The search for a wide gap ends here.
    fn has_two(self) -> bool
        ensures { result ≡ leb 2 (size (gap_of self)) }
    {
        self.len() >= 2
    }

    // None of its slots is past the highest slot.
    fn end_fits(self) -> bool
        ensures { result ≡ end_fits (gap_of self) }
    {
        self.last <= 65534
    }

    // Takes `n` slots from its front, and gives the first of them.
    fn take_front(&mut self, n: u16) -> u16
        requires { self.old.first + n < 65536 }
        ensures slot { result ≡ self.old.first }
        ensures rest { self.new ≡ less n self.old }
    {
        let slot = self.first;
        self.first += n;
        slot
    }
}

// A gap that nothing was written to.
pub fn no_gap() -> Gap
    ensures { result ≡ no_gap }
{
    Gap { first: 0, last: 0 }
}

// The first place from `from` on whose gap will do, or a place past the gaps.
fn search<F: Fn(Gap) -> bool>(gaps: &[Gap], from: usize, will_do: F) -> usize
    requires { F.IsAlwaysCallable will_do }
    ensures { (p : definition.Gap → Bool) → Decides p (F.post will_do) → result ≡ scan p from (gaps_of gaps.now) }
{
    for at in from..gaps.len() {
        if will_do(gaps[at]) {
            return at;
        }
    }
    from.max(gaps.len())
}

// A narrow slot from the first gap not empty, and the positions behind it.
fn take_plain(gaps: &mut [Gap], p: Positions, ldc: bool) -> Option<(u16, Positions)>
    requires { AtMost highest_slot (ends (gaps_of gaps.old)) }
    ensures { Answered (plain_slot ldc (slots_of gaps.old p)) gaps.old gaps.new result }
{
    let plain = search(gaps, p.plain, |gap| gap.ends_plain(ldc));
    if plain < gaps.len() && !gaps[plain].is_too_high(ldc) {
        return Some((gaps[plain].take_front(1), Positions { plain, ..p }));
    }
    None
}

// A narrow slot: from an odd gap first, so that the even ones stay whole for wide constants.
fn take_narrow(gaps: &mut [Gap], p: Positions, ldc: bool) -> Option<(u16, Positions)>
    requires { AtMost highest_slot (ends (gaps_of gaps.old)) }
    ensures { Answered (narrow_slot ldc (slots_of gaps.old p)) gaps.old gaps.new result }
{
    let odd = search(gaps, p.odd, |gap| gap.is_odd());
    if odd < gaps.len() && !gaps[odd].is_too_high(ldc) {
        return Some((gaps[odd].take_front(1), Positions { odd: odd + 1, ..p }));
    }
    take_plain(gaps, Positions { odd, ..p }, ldc)
}

// Two slots in a row from the first gap that has two.
fn take_wide(gaps: &mut [Gap], p: Positions) -> Option<(u16, Positions)>
    requires { AtMost highest_slot (ends (gaps_of gaps.old)) }
    ensures { Answered (wide_slot (slots_of gaps.old p)) gaps.old gaps.new result }
{
    let wide = search(gaps, p.wide, |gap| gap.has_two());
    if wide < gaps.len() {
        return Some((gaps[wide].take_front(2), Positions { wide, ..p }));
    }
    None
}

// One request: two slots for a wide constant, else one.
fn slot_for(gaps: &mut [Gap], p: Positions, wide: bool, ldc: bool) -> Option<(u16, Positions)>
    requires { AtMost highest_slot (ends (gaps_of gaps.old)) }
    ensures { Answered (slot_for wide ldc (slots_of gaps.old p)) gaps.old gaps.new result }
{
    if wide {
        take_wide(gaps, p)
    } else {
        take_narrow(gaps, p, ldc)
    }
}

// One request. The positions stay as they were, if there is no slot.
pub fn take_slot(gaps: &mut [Gap], p: &mut Positions, wide: bool, ldc: bool) -> Option<u16>
    requires { AtMost highest_slot (ends (gaps_of gaps.old)) }
    ensures answered { Answered (slot_for wide ldc (slots_of gaps.old p.old)) gaps.old gaps.new (behind p.new result) }
    ensures unmoved { IfNone result (p.new ≡ p.old) }
{
    let (slot, after) = slot_for(gaps, *p, wide, ldc)?;
    *p = after;
    Some(slot)
}

// No gap ends past the highest slot.
fn ends_fit(gaps: &[Gap]) -> bool
    ensures { result ≡ every end_fits (gaps_of gaps.now) }
{
    gaps.iter().all(|gap| gap.end_fits())
}

// One request over gaps of any contents, with the positions behind it. It is public only for crates/slots_test, which holds it to the
// Rust's answers. Where a gap ends past the highest slot, there is no answer.
pub fn request_slot(
    gaps: &mut [Gap],
    p: Positions,
    wide: bool,
    ldc: bool,
) -> Option<(u16, Positions)>
    ensures { Answered (requested wide ldc (slots_of gaps.old p)) gaps.old gaps.new result }
{
    if ends_fit(gaps) {
        slot_for(gaps, p, wide, ldc)
    } else {
        None
    }
}

// Puts the gap from `first` to just before `next`, if it has a slot, behind those in use. `count` stays a number: the lent words keep
// it from one request to the next.
pub fn push_gap(gaps: &mut [Gap], count: usize, first: u32, next: u32) -> usize
    requires { (count ≤ length gaps.old) × (first < next → count < length gaps.old) × (next ≤ 65536) }
    ensures { Written (gaps_at gaps.old count ++ gap_before first next []) gaps.old gaps.new result }
{
    if first >= next {
        return count;
    }
    gaps[count] = Gap {
        first: first as u16,
        last: (next - 1) as u16,
    };
    count + 1
}

// The pool's count, which the last gap tells: its first free slot if it ends at the highest slot, else the number past that slot.
pub fn pool_count(gaps: &[Gap], top: u32) -> u32
    requires { Rising 0 top (ends (gaps_of gaps.now)) × (top ≤ 65535) }
    ensures { result ≡ count_from top (gaps_of gaps.now) }
{
    match gaps.last() {
        Some(gap) if gap.last as u32 == top => gap.first as u32,
        _ => top + 1,
    }
}

// Every gap as in a table that nothing was written to.
pub fn clear_gaps(gaps: &mut [Gap])
    ensures { gaps.new ≡ replicate (length gaps.old) no_gap }
{
    gaps.fill(no_gap());
}

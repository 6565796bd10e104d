// A loader's trace over a finished pool (document 02, No. 12).
#![tactic(auto)]

ghost use Rattle.std.specs.Prelude.{false, ◌≡◌, ◌↔◌, ℕ, ◌≤◌, ◌<◌, length, get_or, set, IsTrue};
ghost use Rattle.trace.specs.Trace.{action, steps, unknown_action, report, run-over, run, flags_after};
ghost use Rattle.refusal.specs.Numbers.{answer_of};
ghost use Rattle.trace.specs.Step.{flag_behind, passes_by};
ghost use Rattle.trace.specs.Answers.{counted, answer, held, OneStep};

use refusal::Refusal;
use writer::BigEndian;

// How many look-ups were good, how many failed, and how many of the good ones rested only on a flag from the start.
#[derive(Clone, Copy, Debug, PartialEq, Eq)]
pub struct Counts {
    pub good: usize,
    pub failed: usize,
    pub rested: usize,
}

// A step: an action, the tag expected, and a slot in two bytes.
const STEP: usize = 4;

// The actions: bytes of a trace, not an enum, since the definitions `flag_behind` and `passes_by` of a step take them as numbers.
const LOOK_UP: u8 = 0;

const CLEAR: u8 = 1;

const SLOTS: usize = 65536;

// Whether the action of each step is known.
fn known_actions(trace: &[u8]) -> bool
    ensures { IsTrue result ↔ ((i : ℕ) → i < steps trace.now → action trace.now i ≤ 1) }
{
    for i in 0..trace.len() / STEP {
        if CLEAR < trace[STEP * i] {
            return false;
        }
    }
    true
}

// A pool, and the place in it of each slot's constant.
#[derive(Clone, Copy, Debug)]
struct Pool<'a> {
    bytes: &'a [u8],
    places: &'a [usize; 65536],
}

impl<'a> Pool<'a> {
    // Whether a constant of a tag begins at a slot: none has the tag 0, which is told of a slot where none begins.
    fn holds(&self, slot: u16, tag: u8) -> bool
        ensures { result ≡ held self.now.bytes.now self.now.places.now slot tag }
    {
        tag != 0 && places::tag_at(self.bytes, self.places, slot) == tag
    }
}

// Runs a step over a table of flags. Whether it is a look-up that succeeds.
fn run_step(flags: &mut [u8], action: u8, slot: usize, right: bool) -> bool
    requires { (action ≤ 1) × (slot < length flags.old) }
    ensures value { result ≡ passes_by action right (get_or flags.old slot 0) }
    ensures flags_after { flags.new ≡ set flags.old slot (flag_behind action right (get_or flags.old slot 0)) }
{
    if action == CLEAR {
        flags[slot] = 0;
        return false;
    }
    if flags[slot] != 0 {
        return true;
    }
    if right {
        flags[slot] = 1;
        true
    } else {
        false
    }
}

// Runs step i over the flags, and over a table that was clear at the start. What it adds to each count: a look-up rests on a flag from the
// start if it is good and wouldn't be had all flags been clear there.
fn run_both(pool: &Pool, trace: &[u8], i: usize, flags: &mut [u8], clear: &mut [u8]) -> Counts
    requires i_bound { (i < steps trace.now) × (action trace.now i ≤ 1) }
    requires flags_len { (length flags.old ≡ 65536) × (length clear.old ≡ 65536) }
    ensures { OneStep (held pool.now.bytes.now pool.now.places.now) trace.now i
        flags.old clear.old flags.new clear.new result }
{
    let at = STEP * i;
    let action = trace[at];
    let looks_up = action == LOOK_UP;
    let number = u16::get(trace, at + 2);
    let right = pool.holds(number, trace[at + 1]);
    let slot = number as usize;
    let good = run_step(flags, action, slot, right);
    let bare = run_step(clear, action, slot, right);
    Counts {
        good: usize::from(good),
        failed: usize::from(looks_up && !good),
        rested: usize::from(good && !bare),
    }
}

// Runs a trace of known actions over the flags, and over a table that is clear at the start.
fn run_steps(pool: &Pool, trace: &[u8], flags: &mut [u8], clear: &mut [u8]) -> Counts
    requires trace_value { unknown_action trace.now (steps trace.now) ≡ false }
    requires flags_len { (length flags.old ≡ 65536) × (length clear.old ≡ 65536) × ((s : ℕ) → get_or clear.old s 0 ≡ 0) }
    ensures value { result ≡ counted (report (held pool.now.bytes.now pool.now.places.now) trace.now flags.old) }
    ensures flags_after { flags.new ≡ (report (held pool.now.bytes.now pool.now.places.now) trace.now flags.old).flags }
{
    let mut counts = Counts {
        good: 0,
        failed: 0,
        rested: 0,
    };
    for i in 0..trace.len() / STEP {
        let step = run_both(pool, trace, i, flags, clear);
        counts.good += step.good;
        counts.failed += step.failed;
        counts.rested += step.rested;
    }
    counts
}

// Judges the trace and the flags before anything is written.
fn run_over(pool: &Pool, trace: &[u8], flags: &mut [u8]) -> Result<Counts, Refusal>
    ensures value { answer_of result ≡ answer (run-over (held pool.now.bytes.now pool.now.places.now) trace.now flags.old) }
    ensures flags_after { flags.new
        ≡ flags_after (run-over (held pool.now.bytes.now pool.now.places.now) trace.now flags.old) flags.old }
{
    if trace.len() % STEP != 0 || flags.len() != SLOTS {
        return Err(Refusal::BadTrace);
    }
    if !known_actions(trace) {
        return Err(Refusal::BadTrace);
    }
    let mut clear = [0u8; 65536];
    Ok(run_steps(pool, trace, flags, &mut clear))
}

// Runs a trace over a pool, from a flag for each slot that the caller lends, and leaves the flags as the trace ends.
pub fn run_trace(pool: &[u8], trace: &[u8], flags: &mut [u8]) -> Result<Counts, Refusal>
    ensures value { answer_of result ≡ answer (run pool.now trace.now flags.old) }
    ensures flags_after { flags.new ≡ flags_after (run pool.now trace.now flags.old) flags.old }
{
    let mut places = [0usize; 65536];
    if places::note_pool(pool, 0, &mut places) != Some(pool.len()) {
        return Err(Refusal::NotPool);
    }
    let pool = Pool {
        bytes: pool,
        places: &places,
    };
    run_over(&pool, trace, flags)
}

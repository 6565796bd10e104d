// The building pool: slots of nodes, from the gaps that the raw slots leave, and the stack of nodes that have a slot and aren't built yet.
#![tactic(auto)]

ghost use Rattle.std.specs.Prelude.{true, false, ◌≡◌, ℕ, ◌+◌, ◌-◌, ◌<◌, ◌≤◌, IfOk, length, get_or};
ghost use Rattle.definition.specs.Basics.{good, bad};
ghost use Rattle.definition.specs.Shapes.{is_wide};
ghost use Rattle.definition.specs.Definitions.{tag_at};
ghost use Rattle.definition.specs.Slots.{gaps_from};
ghost use Rattle.definition.specs.Building.{no_slot};
ghost use Rattle.refusal.specs.Numbers.{number, code_of};
ghost use Rattle.job.specs.Stored.{Stands, WhatStands, any_request};
ghost use Rattle.slots.specs.Gaps.{AtMost, Written};
ghost use Rattle.store.specs.Store.{size, store, put, On, IsWord};
ghost use Rattle.store.specs.Regions.{COUNTS, GIVEN, NAME-HEADS, NAME-GOALS, RAW-KEYS, RAW-ENTRIES, ORDER, PENDING, ANSWERS, ORIGINS, NODES, RECORDS, PLACE, AT, PLAIN, PENDING-COUNT, Work};
ghost use Rattle.store.specs.JobIn.{job_in};
ghost use Rattle.store.specs.Words.{ENTRY, child_slot};
ghost use Rattle.interner.specs.Nodes.{node_count, nodes_in, record_in};
ghost use Rattle.pool.specs.Pooled.{place_count, positions_in, GapsLive, NodesThere, with_positions, pending_count, with_pending, LiveIn, KidsThere, Took, mark_in, Marked, Slotted, SlottedAll, Popped};
ghost use Rattle.raws.specs.Raws.{held_count};
ghost use Rattle.pool.specs.Starting.{order_keys, raw_at_lem, CanPush, RawPushed, CanPushAll, RawsPushed, SomeStart, PoolStarted};
ghost use Rattle.sym_refs.specs.Names.{Goals};
ghost use Rattle.sym_refs.specs.Leading.{AllNames};
ghost use Rattle.resolver.specs.Resolved.{visits_owed};
ghost use Rattle.pool.specs.Replying.{RequestAt, WhatRequest, goal_for, LeadsTo, low, KeptAnswer, Asking, Replied, RequestsAt, RepliedAll};

use interner::{child_count, first_child, node_at};
use raws::{raw_entry, raw_key};
use refusal::Refusal;
use resolver::node_of;
use rows::child_slot;
use slots::{Gap, Positions};
use store::{
    ANSWERS, AT, CHILDREN, COUNTS, ENTRY, GAP_COUNT, GIVEN, HALF, HELD_COUNT, NODES, ODD, ORIGINS,
    PENDING, PENDING_COUNT, PLACE, PLAIN, RECORDS, WIDE, load, next_count, save, size_of,
};

// How a child comes by its slot: it is a raw number, or it gets the slot now, or it was given earlier.
#[derive(Clone, Copy, Debug, PartialEq, Eq)]
pub enum Origin {
    Raw,
    New,
    Old,
}

impl Origin {
    // The number that marks an answer: `mark_of`.
    fn mark(self) -> usize
        ensures { (result ≡ mark_in self) × IsWord result }
    {
        match self {
            Origin::Raw => 0,
            Origin::New => 1,
            Origin::Old => 2,
        }
    }
}

// The tag of a node.
pub fn node_tag(job: &[u8], w: &[u32], p: &[usize], k: usize) -> u8
    requires { On p.now (length w.now) × NodesThere job.now p.now (store p.now w.now) × (k < node_count (store p.now w.now)) }
    ensures { result ≡ tag_at (nodes_in job.now (store p.now w.now)) k }
{
    job::tag_at(job, node_at(w, p, k))
}

// It is that of a wide constant.
pub fn node_is_wide(job: &[u8], w: &[u32], p: &[usize], k: usize) -> bool
    requires { On p.now (length w.now) × NodesThere job.now p.now (store p.now w.now) × (k < node_count (store p.now w.now)) }
    ensures { result ≡ is_wide (tag_at (nodes_in job.now (store p.now w.now)) k) }
{
    raw_const::is_long(node_tag(job, w, p, k))
}

// The positions as the counters have them.
fn load_positions(w: &[u32], p: &[usize]) -> Positions
    requires { On p.now (length w.now) × (PLAIN < size p.now COUNTS) }
    ensures { result ≡ positions_in (store p.now w.now COUNTS) }
{
    Positions {
        odd: load(w, p, COUNTS, ODD),
        wide: load(w, p, COUNTS, WIDE),
        plain: load(w, p, COUNTS, PLAIN),
    }
}

// The counters have these positions.
fn save_positions(w: &mut [u32], p: &[usize], q: Positions)
    requires { On p.now (length w.old) × (PLAIN < size p.now COUNTS) × IsWord q.odd × IsWord q.wide × IsWord q.plain }
    ensures { store p.now w.new ≡ with_positions q (store p.now w.old) }
{
    save(w, p, COUNTS, ODD, q.odd);
    save(w, p, COUNTS, WIDE, q.wide);
    save(w, p, COUNTS, PLAIN, q.plain);
}

// One slot request.
pub fn take_slot(w: &mut [u32], p: &[usize], gaps: &mut [Gap], wide: bool, ldc: bool) -> Option<u16>
    requires { On p.now (length w.old) × (PLAIN < size p.now COUNTS) × GapsLive (store p.now w.old COUNTS) gaps.old }
    ensures { Took wide ldc (store p.now w.old) (store p.now w.new) gaps.old gaps.new result }
{
    let mut q = load_positions(w, p);
    let count = load(w, p, COUNTS, GAP_COUNT);
    let found = slots::take_slot(&mut gaps[..count], &mut q, wide, ldc);
    save_positions(w, p, q);
    found
}

// No slot: of an ordinary request, or of an ldc request.
fn no_slot(ldc: bool) -> Refusal
    ensures { number result ≡ no_slot ldc }
{
    if ldc {
        Refusal::NoSlotForLdc
    } else {
        Refusal::NoSlot
    }
}

// Node k goes onto the building stack.
fn push_pending(w: &mut [u32], p: &[usize], k: usize)
    requires { On p.now (length w.old) × (PENDING-COUNT < size p.now COUNTS) × (pending_count (store p.now w.old) < size p.now PENDING) × IsWord (size p.now PENDING) × IsWord k }
    ensures { store p.now w.new ≡ with_pending k (store p.now w.old) }
{
    let i = next_count(w, p, PENDING_COUNT);
    save(w, p, PENDING, i, k);
}

// The slot found for node k is its own, and the node goes onto the stack.
fn give(w: &mut [u32], p: &[usize], k: usize, slot: u16)
    requires { On p.now (length w.old) × (PENDING-COUNT < size p.now COUNTS) × (k < size p.now GIVEN) × (pending_count (store p.now w.old) < size p.now PENDING) × IsWord (size p.now PENDING) × IsWord k }
    ensures { store p.now w.new ≡ with_pending k (put (store p.now w.old) GIVEN k slot) }
{
    save(w, p, GIVEN, k, slot as usize);
    push_pending(w, p, k);
}

// A child has a slot from then on, and how it came by it; refused, if there is none.
pub fn slot_of(
    job: &[u8],
    w: &mut [u32],
    p: &[usize],
    gaps: &mut [Gap],
    child: usize,
    ldc: bool,
) -> Result<Origin, Refusal>
    requires { On p.now (length w.old) × NodesThere job.now p.now (store p.now w.old) × LiveIn (store p.now w.old) gaps.old × (child < ENTRY + node_count (store p.now w.old)) }
    ensures slotted { Slotted job.now ldc child (store p.now w.old) (store p.now w.new) gaps.old gaps.new (code_of result) }
    ensures marked { IfOk result (Marked child (store p.now w.old) gaps.old) }
{
    if child < ENTRY {
        return Ok(Origin::Raw);
    }
    let k = child - ENTRY;
    if load(w, p, GIVEN, k) != 0 {
        return Ok(Origin::Old);
    }
    let wide = node_is_wide(job, w, p, k);
    let slot = take_slot(w, p, gaps, wide, ldc).ok_or(no_slot(ldc))?;
    give(w, p, k, slot);
    Ok(Origin::New)
}

// A refusal met while building is told at node k's record, not at the build record: PLACE has it from then on.
pub fn refuse_at<T>(w: &mut [u32], p: &[usize], k: usize, refusal: T) -> T
    requires { On p.now (length w.old) × (PLACE < size p.now COUNTS) × (k < size p.now NODES) × (get_or (store p.now w.old NODES) k 0 < size p.now RECORDS) }
    ensures { (result ≡ refusal) × (place_count (store p.now w.new) ≡ record_in (store p.now w.old) k) }
{
    let place = load(w, p, RECORDS, load(w, p, NODES, k));
    save(w, p, COUNTS, PLACE, place);
    refusal
}

// Node k's children have slots from then on, left to right; refused, told at the child that gets none.
pub fn slots_of(
    job: &[u8],
    w: &mut [u32],
    p: &[usize],
    gaps: &mut [Gap],
    k: usize,
) -> Result<(), Refusal>
    requires { On p.now (length w.old) × NodesThere job.now p.now (store p.now w.old) × LiveIn (store p.now w.old) gaps.old × (k < node_count (store p.now w.old)) × KidsThere job.now (store p.now w.old) k }
    ensures { SlottedAll job.now k (store p.now w.old) (store p.now w.new) gaps.old gaps.new (code_of result) }
{
    let first = first_child(w, p, k);
    for i in 0..child_count(w, p, k) {
        let child = load(w, p, CHILDREN, first + i);
        if let Err(refusal) = slot_of(job, w, p, gaps, child, false) {
            return Err(refuse_at(w, p, child - ENTRY, refusal));
        }
    }
    Ok(())
}

// The node on top of the building stack, which leaves it.
pub fn pop_pending(w: &mut [u32], p: &[usize]) -> usize
    requires { On p.now (length w.old) × (PENDING-COUNT < size p.now COUNTS) × (0 < pending_count (store p.now w.old)) × (pending_count (store p.now w.old) ≤ size p.now PENDING) }
    ensures { Popped (store p.now w.old) (store p.now w.new) result }
{
    let i = load(w, p, COUNTS, PENDING_COUNT) - 1;
    save(w, p, COUNTS, PENDING_COUNT, i);
    load(w, p, PENDING, i)
}

// The longest free runs between the slots of the first n places of the order, which rise. How many there are.
fn gaps_between(gaps: &mut [Gap], w: &[u32], p: &[usize], n: usize, top: usize) -> usize
    requires on { On p.now (length w.now) × (n ≤ size p.now ORDER) × ((i : ℕ) → i < n → get_or (store p.now w.now ORDER) i 0 < size p.now RAW-KEYS) × AtMost 65535 (order_keys (store p.now w.now RAW-KEYS) (store p.now w.now ORDER) n) × (top ≤ 65535) }
    requires room { length (gaps_from top 1 (order_keys (store p.now w.now RAW-KEYS) (store p.now w.now ORDER) n)) ≤ length gaps.old }
    ensures { Written (gaps_from top 1 (order_keys (store p.now w.now RAW-KEYS) (store p.now w.now ORDER) n)) gaps.old gaps.new result }
{
    let mut count = 0;
    let mut first = 1;
    for i in 0..n {
        let next = raw_key(w, p, i) as u32;
        count = slots::push_gap(gaps, count, first, next);
        first = next + 1;
    }
    slots::push_gap(gaps, count, first, top as u32 + 1)
}

// Place i of the order goes onto the building stack, unless it is a second half.
fn push_raw(w: &mut [u32], p: &[usize], i: usize)
    requires { On p.now (length w.old) × (PENDING-COUNT < size p.now COUNTS) × IsWord (size p.now PENDING) × (i < size p.now ORDER) × (get_or (store p.now w.old ORDER) i 0 < size p.now RAW-ENTRIES) × CanPush p.now (store p.now w.old) (raw_at_lem (store p.now w.old RAW-ENTRIES) (store p.now w.old ORDER) i) }
    ensures { RawPushed (store p.now w.old) (store p.now w.new) (raw_at_lem (store p.now w.old RAW-ENTRIES) (store p.now w.old ORDER) i) }
{
    let e = raw_entry(w, p, i);
    if e == HALF {
        return;
    }
    let k = node_of(w, p, e);
    push_pending(w, p, k);
}

// The raw constants go onto the building stack by rising slot.
fn push_raws(w: &mut [u32], p: &[usize])
    requires { On p.now (length w.old) × CanPushAll p.now (store p.now w.old) }
    ensures { RawsPushed (store p.now w.old) (store p.now w.new) (held_count (store p.now w.old)) }
{
    for i in 0..load(w, p, COUNTS, HELD_COUNT) {
        push_raw(w, p, i);
    }
}

// Gaps, positions and stack before the first request.
pub fn start_pool(w: &mut [u32], p: &[usize], gaps: &mut [Gap], top: usize)
    requires { On p.now (length w.old) × SomeStart p.now top (store p.now w.old) gaps.old }
    ensures { PoolStarted p.now top (store p.now w.old) (store p.now w.new) gaps.old gaps.new }
{
    let n = load(w, p, COUNTS, HELD_COUNT);
    let count = gaps_between(gaps, w, p, n, top);
    save(w, p, COUNTS, GAP_COUNT, count);
    push_raws(w, p);
}

// Where the reference of the request at a place leads.
fn request_goal(job: &[u8], w: &[u32], p: &[usize], at: usize) -> usize
    requires { On p.now (length w.now) × Work job.now p.now × AllNames (size p.now NAME-HEADS) job.now (store p.now w.now) × Goals job.now (store p.now w.now NAME-GOALS) × RequestAt job.now at }
    ensures { WhatRequest job.now at (λ q. LeadsTo job.now (goal_for job.now q) result) }
{
    let reference = sym_refs::reference_word(job, p, at + 1, false);
    sym_refs::goal_of(job, w, p, reference)
}

// The request at a place is an ldc request.
fn asks_ldc(job: &[u8], at: usize) -> bool
    requires { Stands any_request job.now at }
    ensures { WhatStands any_request job.now at (λ q next. result ≡ q.ldc) }
{
    job[at] == 0x52
}

// ldc can't name the slot.
fn too_high(ldc: bool, slot: usize) -> bool
    ensures { (result ≡ true → low ldc slot ≡ bad 16) × (result ≡ false → low ldc slot ≡ good tt) }
{
    ldc && 255 < slot
}

// The slot of a child is answer i, marked with how it was come by; refused, if it is an ldc answer above 255.
fn keep_answer(
    w: &mut [u32],
    p: &[usize],
    i: usize,
    child: usize,
    ldc: bool,
    origin: Origin,
) -> Result<(), Refusal>
    requires { On p.now (length w.old) × (i < size p.now ANSWERS) × (i < size p.now ORIGINS) × (child < ENTRY + size p.now GIVEN) }
    ensures { KeptAnswer ldc (child_slot (store p.now w.old GIVEN) child) (mark_in origin) i (store p.now w.old) (store p.now w.new) (code_of result) }
{
    let slot = child_slot(w, p, child);
    if too_high(ldc, slot) {
        return Err(Refusal::OutOfReachOfLdc);
    }
    save(w, p, ANSWERS, i, slot);
    save(w, p, ORIGINS, i, origin.mark());
    Ok(())
}

// The request at a place becomes answer i.
fn answer(
    job: &[u8],
    w: &mut [u32],
    p: &[usize],
    gaps: &mut [Gap],
    at: usize,
    i: usize,
) -> Result<(), Refusal>
    requires { On p.now (length w.old) × Work job.now p.now × Asking job.now p.now (store p.now w.old) gaps.old × RequestAt job.now at × (i < size p.now ANSWERS) × IsWord (visits_owed job.now (store p.now w.old) + 1) }
    ensures { WhatRequest job.now at (λ q. Replied job.now p.now q i (store p.now w.old) (store p.now w.new) gaps.old gaps.new (code_of result)) }
{
    let goal = request_goal(job, w, p, at);
    resolver::resolve(job, w, p, goal)?;
    let child = resolver::child_of(w, p, goal);
    let ldc = asks_ldc(job, at);
    let origin = slot_of(job, w, p, gaps, child, ldc)?;
    keep_answer(w, p, i, child, ldc, origin)
}

// The requests in turn. Then record 60 is in turn.
pub fn answer_all(job: &[u8], w: &mut [u32], p: &[usize], gaps: &mut [Gap]) -> Result<(), Refusal>
    requires { On p.now (length w.old) × Work job.now p.now × Asking job.now p.now (store p.now w.old) gaps.old × RequestsAt job.now (get_or (store p.now w.old COUNTS) AT 0) × IsWord (visits_owed job.now (store p.now w.old) + length (job_in job.now).requests + 1) × IsWord (place_count (store p.now w.old) + length (job_in job.now).requests + 1) }
    ensures { RepliedAll job.now p.now (store p.now w.old) (store p.now w.new) gaps.old gaps.new (code_of result) }
{
    let mut at = load(w, p, COUNTS, AT);
    for i in 0..size_of(p, ANSWERS) {
        next_count(w, p, PLACE);
        answer(job, w, p, gaps, at, i)?;
        at = job::after_reference(job, at + 1);
    }
    next_count(w, p, PLACE);
    save(w, p, COUNTS, AT, at);
    Ok(())
}

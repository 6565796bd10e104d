// The definitions in turn, then record 50: Krakatau's mod.rs, `Pool`.
#![tactic(auto)]

ghost use Rattle.std.specs.Prelude.{Ok, true, List, ◌≡◌, ℕ, ◌+◌, ◌*◌, ◌<◌, ◌≤◌, length, get_or};
ghost use Rattle.definition.specs.Shapes.{Kind, Entry};
ghost use Rattle.definition.specs.Job.{Reference, define, named};
ghost use Rattle.definition.specs.Definitions.{Defined};
ghost use Rattle.refusal.specs.Numbers.{code_of};
ghost use Rattle.job.specs.Stored.{Found, ReferenceStands, WhatReference, EntryStands, any_definition, is_worked, first_place};
ghost use Rattle.store.specs.Store.{size, store, put, On, IsWord};
ghost use Rattle.store.specs.JobIn.{WellFormed, definitions_in, counts_in};
ghost use Rattle.store.specs.Regions.{Work, COUNTS, RECORDS, OFFSETS, FIRSTS, SIZES, GOALS, REFERENCE-COUNT, NODE-HEADS, ORDER, RAW-ENTRIES};
ghost use Rattle.sym_refs.specs.Names.{kind_byte};
ghost use Rattle.raws.specs.Raws.{raw_count};
ghost use Rattle.resolver.specs.Resolved.{Table, AtRest, visits_owed};
ghost use Rattle.definitions.specs.Begun.{Begun};
ghost use Rattle.definitions.specs.Kids.{entry_put, Valued, gap_after, HasKids, ReadsAll, CanEnter, Enters, counted};
ghost use Rattle.definitions.specs.Defining.{SomePlace, Stepped, DefinedAll, Defines, Zeros};
ghost use Rattle.definitions.specs.Ending.{raw_goal, raw_at_lem, raw_goals, ResolvesAll, IsRaw, CanResolve, Fresh, Ended};

use job::JobCounts;
use raws::{place_bootstrap, place_constant, raw_entry, sort_raws};
use refusal::Refusal;
use resolver::resolve;
use store::{
    AT, BOOTSTRAP_COUNT, CONSTANT_COUNT, COUNTS, ENTRY, FIRSTS, GOALS, HALF, OFFSETS, PLACE,
    RAW_COUNT, RECORDS, REFERENCE_COUNT, SIZES, VALUES, constants, load, next_count, save, start,
};
use sym_refs::{add_name, link_references, reference_word, resolve_names};
use writer::BigEndian;

// Entry e is that of the record in turn, at a place, with n references.
fn put_entry(w: &mut [u32], p: &[usize], e: usize, at: usize, n: usize)
    requires { On p.now (length w.old) × (e < size p.now RECORDS) × (e < size p.now OFFSETS) × (e < size p.now FIRSTS) × (e < size p.now SIZES) × (size p.now COUNTS ≡ 20) × IsWord at × IsWord n }
    ensures { store p.now w.new ≡ entry_put (store p.now w.old) e at n }
{
    let place = load(w, p, COUNTS, PLACE);
    let first = load(w, p, COUNTS, REFERENCE_COUNT);
    save(w, p, RECORDS, e, place);
    save(w, p, OFFSETS, e, at);
    save(w, p, FIRSTS, e, first);
    save(w, p, SIZES, e, n);
}

// Where the words of n references more begin.
fn take_references(w: &mut [u32], p: &[usize], n: usize) -> usize
    requires { On p.now (length w.old) × (size p.now COUNTS ≡ 20) × IsWord (get_or (store p.now w.old COUNTS) REFERENCE-COUNT 0 + n) }
    ensures { (result ≡ get_or (store p.now w.old COUNTS) REFERENCE-COUNT 0) × (store p.now w.new ≡ put (store p.now w.old) COUNTS REFERENCE-COUNT (result + n)) }
{
    let first = load(w, p, COUNTS, REFERENCE_COUNT);
    save(w, p, COUNTS, REFERENCE_COUNT, first + n);
    first
}

// Where the first reference of an entry stands: behind its tag, or behind a method handle's kind.
fn first_place(tag: u8, at: usize) -> usize
    requires { at ≤ 1048576 }
    ensures { result ≡ first_place tag at }
{
    if raw_const::is_handle(tag) {
        at + 2
    } else {
        at + 1
    }
}

// The place behind a reference, or behind the count that follows a bootstrap's first.
fn place_behind(job: &[u8], at: usize, counted: bool) -> usize
    requires { ReferenceStands job.now at × (length job.now ≤ 1048576) }
    ensures { WhatReference job.now at (λ kind a next. result ≡ next + gap_after counted) }
{
    let behind = job::after_reference(job, at);
    if counted { behind + 2 } else { behind }
}

// The value of the constant at a place, which was worked out, is kept as words.
fn put_value(job: &[u8], w: &mut [u32], p: &[usize], at: usize)
    requires { On p.now (length w.old) × Work job.now p.now × EntryStands job.now at × (is_worked job.now at ≡ true) }
    ensures { Valued job.now (store p.now w.old) (store p.now w.new) at }
{
    let value = job::worked_at(job, at);
    let high = value.high;
    let low = value.low;
    let first = if raw_const::is_long(job::tag_at(job, at)) {
        high
    } else {
        low
    };
    save(w, p, VALUES, at / 3, first as usize);
    save(w, p, VALUES, at / 3 + 1, low as usize);
}

// The place behind an entry that has no references.
fn after_literal(job: &[u8], at: usize) -> usize
    requires { ((x : Entry (List ℕ) Reference) × (next : ℕ) × Found any_definition job.now at (define x) next × (length x.kids ≡ 0)) × (length job.now ≤ 1048576) }
    ensures { (x : Entry (List ℕ) Reference) (next : ℕ) → Found any_definition job.now at (define x) next → length x.kids ≡ 0 → result ≡ next }
{
    if job::is_worked(job, at) {
        return job::after_worked(job, at);
    }
    let tag = job::tag_at(job, at);
    if raw_const::is_text(tag) {
        return at + 3 + u16::get(job, at + 1) as usize;
    }
    if raw_const::is_long(tag) {
        at + 9
    } else {
        at + 5
    }
}

// Reads the n references of the entry at a place, as words from `first` on; the place behind the entry.
fn read_references(
    job: &[u8],
    w: &mut [u32],
    p: &[usize],
    at: usize,
    n: usize,
    first: usize,
) -> usize
    requires { On p.now (length w.old) × Work job.now p.now × ((x : Entry (List ℕ) Reference) × (next : ℕ) × HasKids job.now at n x next) × (0 < n) × (first + n ≤ size p.now GOALS) }
    ensures { ReadsAll job.now (store p.now w.old) (store p.now w.new) at n first result }
{
    let tag = job::tag_at(job, at);
    let dynamic = raw_const::is_dynamic(tag);
    let bootstrap = tag == 0x40;
    let mut from = first_place(tag, at);
    for i in 0..n {
        let word = reference_word(job, p, from, dynamic & (i == 0));
        save(w, p, GOALS, first + i, word);
        from = place_behind(job, from, bootstrap & (i == 0));
    }
    from
}

// The entry at a place becomes entry e of the one table; the place behind it.
fn add_entry(job: &[u8], w: &mut [u32], p: &[usize], at: usize, e: usize) -> usize
    requires { On p.now (length w.old) × Work job.now p.now × ((x : Entry (List ℕ) Reference) × (next : ℕ) × CanEnter job.now (store p.now w.old) at e x next) }
    ensures { (x : Entry (List ℕ) Reference) (next : ℕ) → CanEnter job.now (store p.now w.old) at e x next → Enters job.now (store p.now w.old) (store p.now w.new) at e result x next }
{
    let n = job::reference_count(job, at);
    put_entry(w, p, e, at, n);
    let first = take_references(w, p, n);
    if n == 0 {
        return after_literal(job, at);
    }
    read_references(job, w, p, at, n, first)
}

// One entry more of the table whose counter is c, its numbers from `base` on: `define`.
fn add_counted(job: &[u8], w: &mut [u32], p: &[usize], at: usize, c: usize, base: usize) -> usize
    requires { On p.now (length w.old) × Work job.now p.now × (1 < c) × (c < 4) × ((x : Entry (List ℕ) Reference) × (next : ℕ) × CanEnter job.now (store p.now w.old) at (base + get_or (store p.now w.old COUNTS) c 0) x next) }
    ensures { (x : Entry (List ℕ) Reference) (next : ℕ) → CanEnter job.now (store p.now w.old) at (base + get_or (store p.now w.old COUNTS) c 0) x next → Enters job.now (counted (store p.now w.old) c) (store p.now w.new) at (base + get_or (store p.now w.old COUNTS) c 0) result x next }
{
    let i = next_count(w, p, c);
    add_entry(job, w, p, at, base + i)
}

// The place behind a name's record.
fn after_naming(job: &[u8], at: usize) -> usize
    requires { (kind : Kind) × (l : List ℕ) × (r : Reference) × (next : ℕ) × Found any_definition job.now at (named kind l r) next }
    ensures { (kind : Kind) (l : List ℕ) (a : Reference) (next : ℕ) → Found any_definition job.now at (named kind l a) next → result ≡ next }
{
    job::after_reference(job, job::name_at(job, at + 1).end)
}

// A name: `named`. The place behind it. It and the next two stay three: each reads other fields and calls another function that may
// refuse, so that one for all of them would match on the first byte a second time.
fn add_sym_def(job: &[u8], w: &mut [u32], p: &[usize], at: usize) -> Result<usize, Refusal>
    requires { On p.now (length w.old) × Work job.now p.now × ((top : ℕ) × SomePlace p.now top job.now (store p.now w.old) at) × ((kind : Kind) × (get_or job.now at 0 ≡ kind_byte kind)) }
    ensures { (top : ℕ) → SomePlace p.now top job.now (store p.now w.old) at → Stepped p.now top job.now (store p.now w.old) (store p.now w.new) result }
{
    add_name(job, w, p, at)?;
    Ok(after_naming(job, at))
}

// A raw constant: `placed constant`.
fn add_raw_def(
    job: &[u8],
    w: &mut [u32],
    p: &[usize],
    at: usize,
    top: usize,
) -> Result<usize, Refusal>
    requires { On p.now (length w.old) × Work job.now p.now × SomePlace p.now top job.now (store p.now w.old) at × (get_or job.now at 0 ≡ 0x43) }
    ensures { Stepped p.now top job.now (store p.now w.old) (store p.now w.new) result }
{
    let n = u16::get(job, at + 1) as usize;
    let e = u16::get(job, at + 3) as usize;
    let tag = job::tag_at(job, load(w, p, OFFSETS, e));
    place_constant(w, p, top, raw_const::is_long(tag), n, e)?;
    Ok(at + 5)
}

// A raw bootstrap: `placed bootstrap`.
fn add_bs_raw_def(job: &[u8], w: &mut [u32], p: &[usize], at: usize) -> Result<usize, Refusal>
    requires { On p.now (length w.old) × Work job.now p.now × ((top : ℕ) × SomePlace p.now top job.now (store p.now w.old) at) × (get_or job.now at 0 ≡ 0x44) }
    ensures { (top : ℕ) → SomePlace p.now top job.now (store p.now w.old) at → Stepped p.now top job.now (store p.now w.old) (store p.now w.new) result }
{
    let index = u16::get(job, at + 1) as usize;
    let e = u16::get(job, at + 3) as usize;
    place_bootstrap(w, p, index, constants(p) + e)?;
    Ok(at + 5)
}

// A constant worked out, its value first: `define`.
fn add_worked(job: &[u8], w: &mut [u32], p: &[usize], at: usize) -> usize
    requires { On p.now (length w.old) × Work job.now p.now × ((top : ℕ) × SomePlace p.now top job.now (store p.now w.old) at) × (get_or job.now at 0 ≡ 0x46) }
    ensures { (top : ℕ) → SomePlace p.now top job.now (store p.now w.old) at → Stepped p.now top job.now (store p.now w.old) (store p.now w.new) (Ok result) }
{
    put_value(job, w, p, at);
    add_counted(job, w, p, at, CONSTANT_COUNT, 0)
}

// The definition at a place; the place behind it: `define_one`. The form pass has read what settings say. The first bytes stay numbers, as
// the document writes them: an enum of them would be made and matched here alone.
fn define_one(
    job: &[u8],
    w: &mut [u32],
    p: &[usize],
    at: usize,
    top: usize,
) -> Result<usize, Refusal>
    requires { On p.now (length w.old) × Work job.now p.now × SomePlace p.now top job.now (store p.now w.old) at }
    ensures { Stepped p.now top job.now (store p.now w.old) (store p.now w.new) result }
{
    match job[at] {
        0x40 => Ok(add_counted(job, w, p, at, BOOTSTRAP_COUNT, constants(p))),
        0x41 | 0x42 => add_sym_def(job, w, p, at),
        0x43 => add_raw_def(job, w, p, at, top),
        0x44 => add_bs_raw_def(job, w, p, at),
        0x46 => Ok(add_worked(job, w, p, at)),
        0x47 | 0x49 => Ok(at + 3),
        0x48 => Ok(at + 1),
        _ => Ok(add_counted(job, w, p, at, CONSTANT_COUNT, 0)),
    }
}

// The n definitions in turn: `define_all`. Then record 50 is in turn, and AT is behind it.
fn define_all(job: &[u8], w: &mut [u32], p: &[usize], n: usize, top: usize) -> Result<(), Refusal>
    requires { On p.now (length w.old) × Work job.now p.now × Zeros p.now (store p.now w.old) × (n ≡ length (definitions_in job.now)) × (top < 65535) }
    ensures { Defines p.now top job.now (store p.now w.old) (store p.now w.new) (code_of result) }
{
    let mut at = 0;
    for place in 0..n {
        save(w, p, COUNTS, PLACE, place);
        at = define_one(job, w, p, at, top)?;
    }
    save(w, p, COUNTS, PLACE, n);
    save(w, p, COUNTS, AT, at + 1);
    Ok(())
}

// Resolves place i of the order of raw definitions, unless it is a second half.
fn resolve_raw(job: &[u8], w: &mut [u32], p: &[usize], i: usize) -> Result<(), Refusal>
    requires { On p.now (length w.old) × Work job.now p.now × Table job.now (store p.now w.old) × AtRest (size p.now NODE-HEADS) job.now (store p.now w.old) × (i < size p.now ORDER) × (get_or (store p.now w.old ORDER) i 0 < size p.now RAW-ENTRIES) × IsRaw job.now (raw_at_lem (store p.now w.old RAW-ENTRIES) (store p.now w.old ORDER) i) × IsWord (visits_owed job.now (store p.now w.old) + 1) }
    ensures { ResolvesAll (size p.now NODE-HEADS) job.now (raw_goal (raw_at_lem (store p.now w.old RAW-ENTRIES) (store p.now w.old ORDER) i)) 1 (store p.now w.old) (store p.now w.new) (code_of result) }
{
    let e = raw_entry(w, p, i);
    if e == HALF {
        return Ok(());
    }
    resolve(job, w, p, ENTRY + e)
}

// Resolves all raw definitions in their order: `resolve_all`.
fn resolve_raws(job: &[u8], w: &mut [u32], p: &[usize]) -> Result<(), Refusal>
    requires { On p.now (length w.old) × Work job.now p.now × Table job.now (store p.now w.old) × AtRest (size p.now NODE-HEADS) job.now (store p.now w.old) × CanResolve p.now job.now (store p.now w.old) (raw_count (store p.now w.old)) }
    ensures { ResolvesAll (size p.now NODE-HEADS) job.now (raw_goals (store p.now w.old RAW-ENTRIES) (store p.now w.old ORDER) 0 (raw_count (store p.now w.old))) (raw_count (store p.now w.old)) (store p.now w.old) (store p.now w.new) (code_of result) }
{
    let n = load(w, p, COUNTS, RAW_COUNT);
    for i in 0..n {
        resolve_raw(job, w, p, i)?;
    }
    Ok(())
}

// Record 50: names and references are linked, raw constants resolved by rising slot, then raw bootstraps by rising index:
// `end_definitions`, but for gaps and stack.
fn end_definitions(job: &[u8], w: &mut [u32], p: &[usize]) -> Result<(), Refusal>
    requires { On p.now (length w.old) × Work job.now p.now × ((top : ℕ) × (d : Defined) × DefinedAll p.now top job.now (store p.now w.old) d) × Fresh p.now (store p.now w.old) }
    ensures { (top : ℕ) (d : Defined) → DefinedAll p.now top job.now (store p.now w.old) d → Ended p.now top job.now (store p.now w.old) (store p.now w.new) d (code_of result) }
{
    resolve_names(job, w, p);
    link_references(job, w, p);
    sort_raws(w, p);
    resolve_raws(job, w, p)
}

// A job up to record 50, in words that may hold anything: regions laid out, definitions in turn, record 50. A refusal is met at the
// record that PLACE tells.
pub fn begin(
    job: &[u8],
    w: &mut [u32],
    p: &mut [usize],
    c: JobCounts,
    top: usize,
) -> Result<(), Refusal>
    requires { WellFormed job.now × (c ≡ counts_in job.now) × (length p.old ≡ 33) × (6 * length job.now + 1024 ≤ length w.old) × (top < 65535) }
    ensures { Begun p.new (length w.new) top job.now (store p.new w.new) (code_of result) }
{
    let n = c.definitions;
    start(w, p, c, job.len());
    define_all(job, w, p, n, top)?;
    end_definitions(job, w, p)
}

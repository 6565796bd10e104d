// What a run gives out: the answers, the pool slot by slot, the bootstrap rows and the class name. Everything is measured before anything
// is written.
#![tactic(auto)]

ghost use Rattle.std.specs.Prelude.{List, [], ◌∷◌, map, ◌⊎◌, ◌≡◌, ℕ, ◌+◌, ◌-◌, ◌*◌, ◌<◌, ◌≤◌, length, get_or, true, unwrap_or};
ghost use Rattle.std.proofs.Math.Option.{Option, some};
ghost use Rattle.definition.specs.Basics.{concat};
ghost use Rattle.definition.specs.Bytes.{be2};
ghost use Rattle.definition.specs.Shapes.{Entry, is_wide};
ghost use Rattle.definition.specs.Job.{Reference, define};
ghost use Rattle.definition.specs.Numbering.{attribute_name};
ghost use Rattle.definition.specs.Run.{entry_bytes, slot_bytes, row_bytes, class_out, overwrite};
ghost use Rattle.raw_const.specs.Entries.{Wrote};
ghost use Rattle.job.specs.Stored.{Found, WhatEntry, any_definition, is_worked};
ghost use Rattle.store.specs.Store.{size, store, On, IsWord, Read};
ghost use Rattle.store.specs.Regions.{COUNTS, MARKS, GIVEN, INDEXES, OWNER-HEADS, OWNER-LINKS, OFFSETS, FIRSTS, SIZES, CHILDREN, NODES, ANSWERS, ORIGINS, VALUES, NODE-COUNT, Work};
ghost use Rattle.store.specs.Chains.{Heads};
ghost use Rattle.store.specs.Words.{ENTRY, HALF, cut, child_slot};
ghost use Rattle.store.specs.Entries.{WordsAt};
ghost use Rattle.interner.specs.Nodes.{node_count};
ghost use Rattle.output.specs.Contents.{child_number, ChildThere, child_count, finished_in, Made, KidsNumbered, ShortChild, text_entry, shown_in, wide_in, IsContent, raw_word_lem, link_word, link_of, NoneAbove, owner_in, name_slot, pool_count, wide_at, content_in, Searched, Owned, held_in_lem, HeldOrder, Sweep, OwnersMade, pool_in, Finished};
ghost use Rattle.output.specs.Names.{IsClass, text_of, class_slot_in, class_in, NameIs, ClassAt};
ghost use Rattle.output.specs.Rows.{slots_from, row_in, Slotted, RowReady, raw_rows, raw_index_in, inline_index_in, raw_node_in, row_count_in, row_node_in, rows_in, constants_for, RowsReady};

use interner::{child_count, first_child, node_at};
use raw_const::Entry as RawEntry;
use rows::child_slot;
use store::{
    ANSWERS, AT, CHILDREN, COUNTS, ENTRY, GIVEN, HALF, HELD_COUNT, INDEXES, INLINE, INLINE_COUNT,
    NAME_SLOT, NODE_COUNT, NODES, ORIGINS, OWNER_HEADS, POOL_COUNT, RAW_ENTRIES, RAW_HEADS,
    RAW_KEYS, ROW_COUNT, VALUES, WRITTEN_COUNT, constants, find_number, load, push_link, size_of,
};
use writer::BigEndian;

// What a slot holds: a node, nothing, the empty text, or the text "BootstrapMethods". It is `pub` since proofs of builder name it.
#[derive(Clone, Copy, Debug, PartialEq, Eq)]
pub enum Content {
    Node(usize),
    Nothing,
    Empty,
    Attribute,
}

// A class name: the bytes of the job that it is, or the text "BootstrapMethods".
#[derive(Clone, Copy, Debug, PartialEq, Eq)]
pub enum ClassName {
    Bytes { start: usize, size: usize },
    Attribute,
}

// A walk over the slots from 1 on: the name's slot, a slot above which none is the name's or a node's, how many raw slots are behind, the
// next of them, and whether the slot before holds a wide constant.
#[derive(Clone, Copy)]
struct SlotWalk {
    name: usize,
    last: usize,
    raws: usize,
    held: Option<usize>,
    wide: bool,
}

// A walk over the rows of the bootstrap table: how many inline rows and how many raw ones are behind.
#[derive(Clone, Copy)]
struct RowWalk {
    inline: usize,
    raws: usize,
}

// The index of the bootstrap that is node k, made from entry e.
fn index_of(w: &[u32], p: &[usize], e: usize, first: usize) -> usize
    requires { On p.now (length w.now) × (first ≤ e) × (e - first < size p.now INDEXES) × (0 < get_or (store p.now w.now INDEXES) (e - first) 0) }
    ensures { result ≡ get_or (store p.now w.now INDEXES) (e - first) 0 - 1 }
{
    load(w, p, INDEXES, e - first) - 1
}

// The number of a child that has one: `child_number`.
fn child_number(w: &[u32], p: &[usize], child: usize) -> usize
    requires { On p.now (length w.now) × ChildThere p.now (store p.now w.now NODES) (store p.now w.now INDEXES) child }
    ensures { result ≡ child_number (size p.now MARKS - size p.now INDEXES) (store p.now w.now GIVEN) (store p.now w.now INDEXES) (store p.now w.now NODES) child }
{
    if child < ENTRY {
        return child;
    }
    let e = load(w, p, NODES, child - ENTRY);
    let first = constants(p);
    if e < first {
        return load(w, p, GIVEN, child - ENTRY);
    }
    index_of(w, p, e, first)
}

// The tag of a node is that of a wide constant.
fn node_is_wide(job: &[u8], w: &[u32], p: &[usize], k: usize) -> bool
    requires { On p.now (length w.now) × Work job.now p.now × Made job.now (store p.now w.now) × (k < node_count (store p.now w.now)) }
    ensures { result ≡ is_wide (finished_in job.now (store p.now w.now) k).tag }
{
    raw_const::is_long(job::tag_at(job, node_at(w, p, k)))
}

// How many bytes a node's entry takes: `length (entry_bytes ..)`.
fn node_length(job: &[u8], w: &[u32], p: &[usize], k: usize) -> usize
    requires { On p.now (length w.now) × Work job.now p.now × Made job.now (store p.now w.now) × (k < node_count (store p.now w.now)) }
    ensures { result ≡ length (entry_bytes (finished_in job.now (store p.now w.now) k)) }
{
    let at = node_at(w, p, k);
    let tag = job::tag_at(job, at);
    if 0 < child_count(w, p, k) {
        return raw_const::entry_length(tag, 0);
    }
    raw_const::entry_length(tag, interner::literal_size(job, at))
}

// How many bytes a content takes: `length (slot_bytes ..)`.
fn content_length(job: &[u8], w: &[u32], p: &[usize], content: Content) -> usize
    requires { On p.now (length w.now) × Work job.now p.now × Made job.now (store p.now w.now) × IsContent job.now (store p.now w.now) content }
    ensures { result ≡ length (slot_bytes (shown_in job.now (store p.now w.now) content)) }
{
    match content {
        Content::Node(k) => node_length(job, w, p, k),
        Content::Nothing => 0,
        Content::Empty => 3,
        Content::Attribute => 19,
    }
}

// The number of child i of n that stand from `first` on; 0 where there is none, as an entry's field without one is written.
fn number_at(w: &[u32], p: &[usize], first: usize, n: usize, i: usize) -> u16
    requires { On p.now (length w.now) × (first + n ≤ size p.now CHILDREN) × (i < n → ShortChild p.now (store p.now w.now) (get_or (store p.now w.now CHILDREN) (first + i) 0)) }
    ensures { result ≡ get_or (map (child_number (size p.now MARKS - size p.now INDEXES) (store p.now w.now GIVEN) (store p.now w.now INDEXES) (store p.now w.now NODES)) (cut (store p.now w.now CHILDREN) first n)) i 0 }
{
    if i < n {
        return child_number(w, p, load(w, p, CHILDREN, first + i)) as u16;
    }
    0
}

// Writes the entry of node k, which has n children; the place behind it: `entry_bytes`.
fn write_references(
    pool: &mut [u8],
    at: usize,
    job: &[u8],
    w: &[u32],
    p: &[usize],
    k: usize,
    n: usize,
) -> usize
    requires { On p.now (length w.now) × Work job.now p.now × Made job.now (store p.now w.now) × (k < node_count (store p.now w.now)) × KidsNumbered job.now (store p.now w.now) k × (n ≡ child_count (store p.now w.now SIZES) (store p.now w.now NODES) k) × (0 < n) × (at + length (entry_bytes (finished_in job.now (store p.now w.now) k)) ≤ length pool.old) }
    ensures { Wrote pool.old at (entry_bytes (finished_in job.now (store p.now w.now) k)) pool.new result }
{
    let from = node_at(w, p, k);
    let tag = job::tag_at(job, from);
    let kind = job::kind_byte(job, from);
    let children = first_child(w, p, k);
    let first = number_at(w, p, children, n, 0);
    let second = number_at(w, p, children, n, 1);
    let entry = RawEntry {
        tag,
        literal: &[],
        kind,
        first,
        second,
    };
    raw_const::write_entry(pool, at, &entry)
}

// Writes the constant at a place of the job, which was worked out; the place behind it.
fn write_worked(
    pool: &mut [u8],
    at: usize,
    job: &[u8],
    w: &[u32],
    p: &[usize],
    from: usize,
) -> usize
    requires { On p.now (length w.now) × Work job.now p.now × WordsAt job.now (store p.now w.now VALUES) from × (is_worked job.now from ≡ true) × ((x : Entry (List ℕ) Reference) × (next : ℕ) × Found any_definition job.now from (define x) next × (at + 1 + length x.literal ≤ length pool.old)) }
    ensures { WhatEntry job.now from (λ x. Wrote pool.old at (x.tag ∷ x.literal) pool.new result) }
{
    let tag = job::tag_at(job, from);
    pool[at] = tag;
    (load(w, p, VALUES, from / 3) as u32).put(pool, at + 1);
    if raw_const::is_long(tag) {
        (load(w, p, VALUES, from / 3 + 1) as u32).put(pool, at + 5);
        return at + 9;
    }
    at + 5
}

// Writes a node's entry; the place behind it: `entry_bytes`.
fn write_node(pool: &mut [u8], at: usize, job: &[u8], w: &[u32], p: &[usize], k: usize) -> usize
    requires { On p.now (length w.now) × Work job.now p.now × Made job.now (store p.now w.now) × (k < node_count (store p.now w.now)) × KidsNumbered job.now (store p.now w.now) k × (at + length (entry_bytes (finished_in job.now (store p.now w.now) k)) ≤ length pool.old) }
    ensures { Wrote pool.old at (entry_bytes (finished_in job.now (store p.now w.now) k)) pool.new result }
{
    let n = child_count(w, p, k);
    if 0 < n {
        return write_references(pool, at, job, w, p, k, n);
    }
    let from = node_at(w, p, k);
    if job::is_worked(job, from) {
        return write_worked(pool, at, job, w, p, from);
    }
    let tag = job::tag_at(job, from);
    let s = job::literal_at(job, from);
    let entry = RawEntry {
        tag,
        literal: &job[s.start..s.end],
        kind: 0,
        first: 0,
        second: 0,
    };
    raw_const::write_entry(pool, at, &entry)
}

// Writes the empty text; the place behind it: `entry_bytes`. It fills most slots of a sparse pool, so it doesn't go by the table of fields.
fn write_empty(pool: &mut [u8], at: usize) -> usize
    requires { at + 3 ≤ length pool.old }
    ensures { Wrote pool.old at (entry_bytes (text_entry [])) pool.new result }
{
    pool[at] = 1;
    0u16.put(pool, at + 1);
    at + 3
}

// Writes the text "BootstrapMethods"; the place behind it: `entry_bytes`.
fn write_attribute(pool: &mut [u8], at: usize) -> usize
    requires { at + 19 ≤ length pool.old }
    ensures { Wrote pool.old at (entry_bytes (text_entry attribute_name)) pool.new result }
{
    let name = interner::attribute_name();
    let entry = RawEntry {
        tag: 1,
        literal: &name,
        kind: 0,
        first: 0,
        second: 0,
    };
    raw_const::write_entry(pool, at, &entry)
}

// Writes a content; the place behind it: `slot_bytes`.
fn write_content(
    pool: &mut [u8],
    at: usize,
    job: &[u8],
    w: &[u32],
    p: &[usize],
    content: Content,
) -> usize
    requires { On p.now (length w.now) × Work job.now p.now × Made job.now (store p.now w.now) × IsContent job.now (store p.now w.now) content × (at + length (slot_bytes (shown_in job.now (store p.now w.now) content)) ≤ length pool.old) }
    ensures { Wrote pool.old at (slot_bytes (shown_in job.now (store p.now w.now) content)) pool.new result }
{
    match content {
        Content::Node(k) => write_node(pool, at, job, w, p, k),
        Content::Nothing => at,
        Content::Empty => write_empty(pool, at),
        Content::Attribute => write_attribute(pool, at),
    }
}

// Each node joins the chain of its slot, one without a slot that of 0.
pub fn own_slots(w: &mut [u32], p: &[usize])
    requires { On p.now (length w.old) × Heads p.now OWNER-HEADS × (NODE-COUNT < size p.now COUNTS) × (node_count (store p.now w.old) ≤ size p.now GIVEN) × (node_count (store p.now w.old) ≤ size p.now OWNER-LINKS) × ((i : ℕ) → get_or (store p.now w.old OWNER-HEADS) i 0 ≡ 0) }
    ensures { OwnersMade p.now (store p.now w.old) (store p.now w.new) }
{
    for k in 0..load(w, p, COUNTS, NODE_COUNT) {
        let slot = load(w, p, GIVEN, k);
        push_link(w, p, OWNER_HEADS, slot, k);
    }
}

// What a raw slot holds, by its entry: `starts`, `half`.
fn raw_content(w: &[u32], p: &[usize], e: usize) -> Content
    requires { On p.now (length w.now) × ((e ≡ HALF) ⊎ ((e < size p.now MARKS) × (1 < get_or (store p.now w.now MARKS) e 0))) }
    ensures { result ≡ raw_word_lem (store p.now w.now MARKS) e }
{
    if e == HALF {
        return Content::Nothing;
    }
    Content::Node(resolver::node_of(w, p, e))
}

// What a slot that nobody owns holds: nothing behind a wide constant, else the empty text: `behind`.
fn unowned(wide: bool) -> Content
    ensures { result ≡ link_word wide 0 }
{
    if wide {
        Content::Nothing
    } else {
        Content::Empty
    }
}

// What a slot that is neither raw nor the name's holds: a node that has it, else it is unowned: `lookup`, `behind`.
fn given_content(w: &[u32], p: &[usize], slot: usize, wide: bool) -> Content
    requires { On p.now (length w.now) × Searched p.now (store p.now w.now) × (0 < slot) × IsWord slot }
    ensures { result ≡ link_word wide (link_of (store p.now w.now GIVEN) (node_count (store p.now w.now)) slot) }
{
    match find_number(w, p, OWNER_HEADS, GIVEN, slot) {
        Some(k) => Content::Node(k),
        None => unowned(wide),
    }
}

// What a slot above 0 holds, `wide` telling whether the slot before holds a wide constant: `lookup slot owned`, `behind`.
fn owner_of(w: &[u32], p: &[usize], slot: usize, wide: bool) -> Content
    requires { On p.now (length w.now) × Searched p.now (store p.now w.now) × (0 < slot) × IsWord slot }
    ensures { result ≡ owner_in (store p.now w.now) slot wide }
{
    if slot == load(w, p, COUNTS, NAME_SLOT) {
        return Content::Attribute;
    }
    match find_number(w, p, RAW_HEADS, RAW_KEYS, slot) {
        Some(i) => raw_content(w, p, load(w, p, RAW_ENTRIES, i)),
        None => given_content(w, p, slot, wide),
    }
}

// A content is a node, and wide.
fn is_wide(job: &[u8], w: &[u32], p: &[usize], content: Content) -> bool
    requires { On p.now (length w.now) × Work job.now p.now × Made job.now (store p.now w.now) × IsContent job.now (store p.now w.now) content }
    ensures { result ≡ wide_in job.now (store p.now w.now) content }
{
    match content {
        Content::Node(k) => node_is_wide(job, w, p, k),
        _ => false,
    }
}

// The slot before one above 0 holds a wide constant.
fn wide_before(job: &[u8], w: &[u32], p: &[usize], slot: usize) -> bool
    requires { On p.now (length w.now) × Work job.now p.now × Searched p.now (store p.now w.now) × Owned job.now (store p.now w.now) × (0 < slot) × IsWord slot }
    ensures { result ≡ wide_at (owner_in (store p.now w.now)) (wide_in job.now (store p.now w.now)) (slot - 1) }
{
    if slot < 2 {
        return false;
    }
    is_wide(job, w, p, owner_of(w, p, slot - 1, false))
}

// What a slot holds: `content_of`.
fn content_of(job: &[u8], w: &[u32], p: &[usize], slot: usize) -> Content
    requires { On p.now (length w.now) × Work job.now p.now × Searched p.now (store p.now w.now) × Owned job.now (store p.now w.now) × IsWord slot }
    ensures { result ≡ content_in job.now (store p.now w.now) slot }
{
    if slot == 0 {
        return Content::Nothing;
    }
    owner_of(w, p, slot, wide_before(job, w, p, slot))
}

// The raw slot i by rising slot, if there is one. The clause says 65536 for none, past every slot, as `inline_index` does.
fn held_slot(w: &[u32], p: &[usize], i: usize) -> Option<usize>
    requires { On p.now (length w.now) × HeldOrder p.now (store p.now w.now) }
    ensures { unwrap_or result 65536 ≡ held_in_lem (store p.now w.now) i }
{
    if i < load(w, p, COUNTS, HELD_COUNT) {
        return Some(raws::raw_key(w, p, i));
    }
    None
}

// The highest slot that a node has been given; 0 where there is none. A pool can end far above it, at a raw slot, and no slot between
// needs a search.
fn last_given(w: &[u32], p: &[usize]) -> usize
    requires { On p.now (length w.now) × Searched p.now (store p.now w.now) }
    ensures { NoneAbove (store p.now w.now GIVEN) (node_count (store p.now w.now)) result }
{
    let mut last = 0;
    for k in 0..load(w, p, COUNTS, NODE_COUNT) {
        last = last.max(load(w, p, GIVEN, k));
    }
    last
}

impl SlotWalk {
    ghost use Rattle.output.specs.Contents.{Walks};

    fn begin(w: &[u32], p: &[usize]) -> SlotWalk
        requires { On p.now (length w.now) × ((s : List ℕ) × Finished s p.now (store p.now w.now)) }
        ensures { ((s : List ℕ) → Finished s p.now (store p.now w.now) → Walks s (store p.now w.now) 1 result) × (result.name ≤ result.last) }
    {
        let name = load(w, p, COUNTS, NAME_SLOT);
        SlotWalk {
            name,
            last: last_given(w, p).max(name),
            raws: 0,
            held: held_slot(w, p, 0),
            wide: false,
        }
    }

    // What the slot in turn holds: `content_of`. A raw slot is passed at once: a test for one after the content would stand between that and
    // its use. The caller sets `wide`.
    fn content(&mut self, w: &[u32], p: &[usize], slot: usize) -> Content
        requires { On p.now (length w.now) × Searched p.now (store p.now w.now) × HeldOrder p.now (store p.now w.now) × Sweep (store p.now w.now) slot self.old.raws (unwrap_or self.old.held 65536) × (self.old.name ≡ name_slot (store p.now w.now)) × (0 < slot) × (slot < 65536) × NoneAbove (store p.now w.now GIVEN) (node_count (store p.now w.now)) self.old.last × (self.old.name ≤ self.old.last) }
        ensures { (result ≡ owner_in (store p.now w.now) slot self.old.wide) × Sweep (store p.now w.now) (slot + 1) self.new.raws (unwrap_or self.new.held 65536) × (self.new.name ≡ self.old.name) × (self.new.last ≡ self.old.last) }
    {
        if self.held == Some(slot) {
            let e = raws::raw_entry(w, p, self.raws);
            self.raws += 1;
            self.held = held_slot(w, p, self.raws);
            if slot == self.name {
                return Content::Attribute;
            }
            return raw_content(w, p, e);
        }
        if self.last < slot {
            return unowned(self.wide);
        }
        if slot == self.name {
            return Content::Attribute;
        }
        given_content(w, p, slot, self.wide)
    }
}

// How many bytes the pool takes: `length pool`.
pub fn pool_length(job: &[u8], w: &[u32], p: &[usize]) -> usize
    requires { On p.now (length w.now) × Work job.now p.now × Finished job.now p.now (store p.now w.now) }
    ensures { result ≡ length (pool_in job.now (store p.now w.now)) }
{
    let mut walk = SlotWalk::begin(w, p);
    let mut size = 2;
    for slot in 1..load(w, p, COUNTS, POOL_COUNT) {
        let holds = walk.content(w, p, slot);
        size += content_length(job, w, p, holds);
        walk.wide = is_wide(job, w, p, holds);
    }
    size
}

// Writes the pool, its count, then the entries below it: `pool` of `render`.
pub fn write_pool(pool: &mut [u8], job: &[u8], w: &[u32], p: &[usize])
    requires { On p.now (length w.now) × Work job.now p.now × Finished job.now p.now (store p.now w.now) × (length (pool_in job.now (store p.now w.now)) ≤ length pool.old) }
    ensures { pool.new ≡ overwrite (pool_in job.now (store p.now w.now)) pool.old }
{
    let end = load(w, p, COUNTS, POOL_COUNT);
    (end as u16).put(pool, 0);
    let mut walk = SlotWalk::begin(w, p);
    let mut at = 2;
    for slot in 1..end {
        let holds = walk.content(w, p, slot);
        at = write_content(pool, at, job, w, p, holds);
        walk.wide = is_wide(job, w, p, holds);
    }
}

// Writes the answers: `answers`.
pub fn write_answers(answers: &mut [u16], w: &[u32], p: &[usize])
    requires { On p.now (length w.now) × (size p.now ANSWERS ≤ length answers.old) × ((i : ℕ) → i < size p.now ANSWERS → get_or (store p.now w.now ANSWERS) i 0 < 65536) }
    ensures { answers.new ≡ overwrite (store p.now w.now ANSWERS) answers.old }
{
    for i in 0..size_of(p, ANSWERS) {
        answers[i] = load(w, p, ANSWERS, i) as u16;
    }
}

// Writes how each answer was come by: `marks`. One function for both would take the cast as a closure with its law, and be longer.
pub fn write_marks(marks: &mut [u8], w: &[u32], p: &[usize])
    requires { On p.now (length w.now) × (size p.now ORIGINS ≤ length marks.old) × ((i : ℕ) → i < size p.now ORIGINS → get_or (store p.now w.now ORIGINS) i 0 < 256) }
    ensures { marks.new ≡ overwrite (store p.now w.now ORIGINS) marks.old }
{
    for i in 0..size_of(p, ORIGINS) {
        marks[i] = load(w, p, ORIGINS, i) as u8;
    }
}

// Writes n slots of children from a place of CHILDREN on; the place behind them: `be2` of each.
fn write_slots(
    out: &mut [u8],
    start: usize,
    w: &[u32],
    p: &[usize],
    first: usize,
    n: usize,
) -> usize
    requires { On p.now (length w.now) × (first + n ≤ size p.now CHILDREN) × ((i : ℕ) → i < n → Slotted p.now (store p.now w.now GIVEN) (get_or (store p.now w.now CHILDREN) (first + i) 0)) × (start + 2 * n ≤ length out.old) }
    ensures { Wrote out.old start (concat (map be2 (slots_from (store p.now w.now GIVEN) (store p.now w.now CHILDREN) first n))) out.new result }
{
    for i in 0..n {
        let slot = child_slot(w, p, load(w, p, CHILDREN, first + i));
        (slot as u16).put(out, start + 2 * i);
    }
    start + 2 * n
}

// Writes the row of bootstrap node k; the place behind it: `row_bytes`.
fn write_row(out: &mut [u8], at: usize, w: &[u32], p: &[usize], k: usize) -> usize
    requires { On p.now (length w.now) × RowReady p.now (store p.now w.now) k × (at + length (row_bytes (row_in (store p.now w.now) k)) ≤ length out.old) }
    ensures { Wrote out.old at (row_bytes (row_in (store p.now w.now) k)) out.new result }
{
    let first = first_child(w, p, k);
    let n = child_count(w, p, k) - 1;
    let behind = write_slots(out, at, w, p, first, 1);
    (n as u16).put(out, behind);
    write_slots(out, behind + 2, w, p, first + 1, n)
}

// The text of node k, if it is one.
fn node_text(job: &[u8], w: &[u32], p: &[usize], k: usize) -> Option<ClassName>
    requires { On p.now (length w.now) × Work job.now p.now × Made job.now (store p.now w.now) × (k < node_count (store p.now w.now)) }
    ensures { NameIs job.now result (text_of (some (finished_in job.now (store p.now w.now) k))) }
{
    let at = node_at(w, p, k);
    if job::tag_at(job, at) != 1 {
        return None;
    }
    let s = job::literal_at(job, at);
    Some(ClassName::Bytes {
        start: s.start,
        size: s.end - s.start,
    })
}

// The text that a content is, if it is one: `text_in`.
fn text_in(job: &[u8], w: &[u32], p: &[usize], content: Content) -> Option<ClassName>
    requires { On p.now (length w.now) × Work job.now p.now × Made job.now (store p.now w.now) × IsContent job.now (store p.now w.now) content }
    ensures { NameIs job.now result (text_of (shown_in job.now (store p.now w.now) content)) }
{
    match content {
        Content::Node(k) => node_text(job, w, p, k),
        Content::Nothing => None,
        Content::Empty => Some(ClassName::Bytes { start: 0, size: 0 }),
        Content::Attribute => Some(ClassName::Attribute),
    }
}

// The class slot of record 60: `class_slot_of`.
fn class_slot(job: &[u8], w: &[u32], p: &[usize]) -> usize
    requires { On p.now (length w.now) × ClassAt job.now p.now (store p.now w.now) }
    ensures { (result ≡ class_slot_in job.now (store p.now w.now)) × IsWord result }
{
    let at = load(w, p, COUNTS, AT);
    let n = u16::get(job, at + 3) as usize;
    if job[at + 2] == 0 {
        return n;
    }
    load(w, p, ANSWERS, n)
}

// The node that a content is, if that is a Class.
fn class_node(job: &[u8], w: &[u32], p: &[usize], content: Content) -> Option<usize>
    requires { On p.now (length w.now) × Work job.now p.now × Made job.now (store p.now w.now) × IsContent job.now (store p.now w.now) content }
    ensures { IsClass (finished_in job.now (store p.now w.now)) content result }
{
    match content {
        Content::Node(k) if job::tag_at(job, node_at(w, p, k)) == 7 => Some(k),
        _ => None,
    }
}

// The class name, if the class slot holds a Class whose slot holds a text: `class_name`.
pub fn class_name(job: &[u8], w: &[u32], p: &[usize]) -> Option<ClassName>
    requires { On p.now (length w.now) × Work job.now p.now × Searched p.now (store p.now w.now) × Owned job.now (store p.now w.now) × ClassAt job.now p.now (store p.now w.now) }
    ensures { NameIs job.now result (class_in job.now (store p.now w.now)) }
{
    let class = class_node(job, w, p, content_of(job, w, p, class_slot(job, w, p)))?;
    let n = child_count(w, p, class);
    let text = number_at(w, p, first_child(w, p, class), n, 0);
    text_in(job, w, p, content_of(job, w, p, text as usize))
}

// How many bytes a class name takes: `length (class_out ..)`.
pub fn class_length(c: Option<ClassName>) -> usize
    ensures { (s : List ℕ) (o : Option (List ℕ)) → NameIs s c o → result ≡ length (class_out o) }
{
    match c {
        None => 0,
        Some(ClassName::Bytes { start: _, size }) => size,
        Some(ClassName::Attribute) => 16,
    }
}

// Writes a class name: `class_bytes`.
pub fn write_class(out: &mut [u8], job: &[u8], c: Option<ClassName>)
    requires { (o : Option (List ℕ)) × NameIs job.now c o × (length (class_out o) ≤ length out.old) }
    ensures { (o : Option (List ℕ)) → NameIs job.now c o → out.new ≡ overwrite (class_out o) out.old }
{
    match c {
        None => {}
        Some(ClassName::Bytes { start, size }) => {
            writer::copy(job, start, out, 0, size);
        }
        Some(ClassName::Attribute) => {
            let text = interner::attribute_name();
            writer::copy(&text, 0, out, 0, 16);
        }
    }
}

// The node of raw bootstrap i by rising index: `index_nodes`.
fn raw_row(w: &[u32], p: &[usize], i: usize) -> usize
    requires { On p.now (length w.now) × RowsReady p.now (store p.now w.now) × (i < raw_rows (store p.now w.now)) }
    ensures { result ≡ raw_node_in (store p.now w.now) i }
{
    resolver::node_of(
        w,
        p,
        raws::raw_entry(w, p, load(w, p, COUNTS, HELD_COUNT) + i),
    )
}

// The index of inline row i, if there is one. The clause says 65536 for none, past every index, since `passed` compares indexes as
// numbers.
fn inline_index(w: &[u32], p: &[usize], i: usize) -> Option<usize>
    requires { On p.now (length w.now) × RowsReady p.now (store p.now w.now) }
    ensures { unwrap_or result 65536 ≡ inline_index_in (constants_for p.now) (store p.now w.now) i }
{
    if load(w, p, COUNTS, INLINE_COUNT) <= i {
        return None;
    }
    let e = load(w, p, NODES, load(w, p, INLINE, i));
    Some(index_of(w, p, e, constants(p)))
}

// How many rows the table has, once its holes are filled: `length (fill_holes written waiting)`.
pub fn row_count(w: &[u32], p: &[usize]) -> usize
    requires { On p.now (length w.now) × RowsReady p.now (store p.now w.now) }
    ensures { result ≡ row_count_in (store p.now w.now) }
{
    let n = raws::raw_rows(w, p);
    if load(w, p, COUNTS, WRITTEN_COUNT) < n {
        return raws::raw_index(w, p, n - 1).unwrap() + 1;
    }
    load(w, p, COUNTS, ROW_COUNT)
}

impl RowWalk {
    ghost use Rattle.output.specs.Rows.{Filled};

    // The node whose row stands at the index in turn: `fill_holes`.
    fn node(self, w: &[u32], p: &[usize], index: usize) -> usize
        requires { On p.now (length w.now) × RowsReady p.now (store p.now w.now) × (index < row_count_in (store p.now w.now)) × Filled p.now (store p.now w.now) self.inline self.raws index }
        ensures { result ≡ row_node_in (constants_for p.now) (store p.now w.now) index }
    {
        if inline_index(w, p, self.inline) == Some(index) {
            return load(w, p, INLINE, self.inline);
        }
        raw_row(w, p, self.raws)
    }

    // The same, and the walk goes on behind the row.
    fn next(&mut self, w: &[u32], p: &[usize], index: usize) -> usize
        requires { On p.now (length w.now) × RowsReady p.now (store p.now w.now) × (index < row_count_in (store p.now w.now)) × Filled p.now (store p.now w.now) self.old.inline self.old.raws index }
        ensures { (result ≡ row_node_in (constants_for p.now) (store p.now w.now) index) × Filled p.now (store p.now w.now) self.new.inline self.new.raws (index + 1) }
    {
        let k = self.node(w, p, index);
        self.inline += usize::from(inline_index(w, p, self.inline) == Some(index));
        self.raws += usize::from(raws::raw_index(w, p, self.raws) == Some(index));
        k
    }
}

// How many bytes the bootstrap rows take: `length bootstraps`.
pub fn rows_length(w: &[u32], p: &[usize]) -> usize
    requires { On p.now (length w.now) × RowsReady p.now (store p.now w.now) }
    ensures { result ≡ length (rows_in (constants_for p.now) (store p.now w.now)) }
{
    let mut walk = RowWalk { inline: 0, raws: 0 };
    let mut size = 0;
    for index in 0..row_count(w, p) {
        let k = walk.next(w, p, index);
        size += raw_const::row_length(child_count(w, p, k));
    }
    size
}

// Writes the bootstrap rows: `bootstraps` of `render`.
pub fn write_rows(bootstraps: &mut [u8], w: &[u32], p: &[usize])
    requires { On p.now (length w.now) × RowsReady p.now (store p.now w.now) × (length (rows_in (constants_for p.now) (store p.now w.now)) ≤ length bootstraps.old) }
    ensures { bootstraps.new ≡ overwrite (rows_in (constants_for p.now) (store p.now w.now)) bootstraps.old }
{
    let mut walk = RowWalk { inline: 0, raws: 0 };
    let mut at = 0;
    for index in 0..row_count(w, p) {
        let k = walk.next(w, p, index);
        at = write_row(bootstraps, at, w, p, k);
    }
}

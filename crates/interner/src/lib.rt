// Krakatau's interner.rs: equal entries become one node. A node is kept as the lowest entry that it was made from, whose children stand in
// CHILDREN.
#![tactic(auto)]

ghost use Rattle.std.specs.Prelude.{true, ◌≡◌, ◌+◌, ◌*◌, ◌<◌, ◌≤◌, length, get_or, take, drop};
ghost use Rattle.definition.specs.Basics.{same, position};
ghost use Rattle.definition.specs.Bytes.{be4};
ghost use Rattle.definition.specs.Numbering.{attribute_name, same_literal};
ghost use Rattle.definition.specs.Resolving.{same_node};
ghost use Rattle.definition.specs.Building.{attribute_text};
ghost use Rattle.job.specs.Stored.{EntryStands, WhatEntry, is_worked};
ghost use Rattle.store.specs.Store.{size, store, On, IsWord, Read};
ghost use Rattle.store.specs.Chains.{link_of, Sought};
ghost use Rattle.store.specs.JobIn.{entries_in};
ghost use Rattle.store.specs.Entries.{WordsAt};
ghost use Rattle.store.specs.Regions.{NODE-HEADS, OFFSETS, FIRSTS, SIZES, CHILDREN, NODES, VALUES, Work};
ghost use Rattle.store.specs.Words.{cut};
ghost use Rattle.interner.specs.Nodes.{hash_bytes, hash_words, hash_in, node_in_lem, node_count, nodes_in, EnteredIn, NodesIn, Lowers, Interned};

use store::{
    CHILDREN, COUNTS, FIRSTS, NODE_COUNT, NODE_HEADS, NODE_LINKS, NODES, OFFSETS, SIZES, VALUES,
    first_link, load, mix, next_count, push_link, save,
};
use writer::BigEndian;

// A hash of bytes behind a seed, four at a time, then one at a time.
pub fn hash_bytes(bytes: &[u8], seed: usize) -> usize
    requires { IsWord seed × IsWord (length bytes.now) }
    ensures { (result ≡ hash_bytes seed bytes.now) × IsWord result }
{
    let mut hash = mix(seed, bytes.len());
    let mut rest = bytes;
    while let [a, b, c, d, after @ ..] = rest {
        hash = mix(hash, u32::from_be_bytes([*a, *b, *c, *d]) as usize);
        rest = after;
    }
    for byte in rest {
        hash = mix(hash, *byte as usize);
    }
    hash
}

// A hash of the n children from a place on, behind a seed.
fn hash_children(w: &[u32], p: &[usize], first: usize, n: usize, seed: usize) -> usize
    requires { On p.now (length w.now) × (first + n ≤ size p.now CHILDREN) × IsWord seed }
    ensures { (result ≡ hash_words seed (cut (store p.now w.now CHILDREN) first n)) × IsWord result }
{
    let mut hash = seed;
    for i in 0..n {
        hash = mix(hash, load(w, p, CHILDREN, first + i));
    }
    hash
}

// The n children from two places on are the same.
fn same_children(w: &[u32], p: &[usize], a: usize, b: usize, n: usize) -> bool
    requires { On p.now (length w.now) × (a + n ≤ size p.now CHILDREN) × (b + n ≤ size p.now CHILDREN) }
    ensures { result ≡ same (cut (store p.now w.now CHILDREN) a n) (cut (store p.now w.now CHILDREN) b n) }
{
    for i in 0..n {
        if load(w, p, CHILDREN, a + i) != load(w, p, CHILDREN, b + i) {
            return false;
        }
    }
    true
}

// How many bytes the literal of the entry at a place has.
pub fn literal_size(job: &[u8], at: usize) -> usize
    requires { EntryStands job.now at }
    ensures { WhatEntry job.now at (λ x. result ≡ length x.literal) }
{
    if job::is_worked(job, at) {
        return if raw_const::is_long(job::tag_at(job, at)) {
            8
        } else {
            4
        };
    }
    let s = job::literal_at(job, at);
    s.end - s.start
}

// Four bytes of the literal of the entry at a place, behind i times four, as a word: it is kept as words if it was worked out.
fn literal_word(job: &[u8], w: &[u32], p: &[usize], at: usize, i: usize) -> usize
    requires { On p.now (length w.now) × Work job.now p.now × EntryStands job.now at × WordsAt job.now (store p.now w.now VALUES) at × (i < 2) × WhatEntry job.now at (λ x. 4 * i + 4 ≤ length x.literal) }
    ensures { WhatEntry job.now at (λ x. take 4 (drop (4 * i) x.literal) ≡ be4 result) × IsWord result }
{
    if job::is_worked(job, at) {
        return load(w, p, VALUES, at / 3 + i);
    }
    let s = job::literal_at(job, at);
    u32::get(job, s.start + 4 * i) as usize
}

// The hash of the literal of the entry at a place, which was worked out, its tag included: as `hash_bytes` has it.
fn hash_worked(job: &[u8], w: &[u32], p: &[usize], at: usize) -> usize
    requires { On p.now (length w.now) × Work job.now p.now × EntryStands job.now at × WordsAt job.now (store p.now w.now VALUES) at × (is_worked job.now at ≡ true) }
    ensures { WhatEntry job.now at (λ x. result ≡ hash_bytes x.tag x.literal) × IsWord result }
{
    let tag = job::tag_at(job, at);
    let first = load(w, p, VALUES, at / 3);
    if raw_const::is_long(tag) {
        let hash = mix(mix(tag as usize, 8), first);
        return mix(hash, load(w, p, VALUES, at / 3 + 1));
    }
    mix(mix(tag as usize, 4), first)
}

// The hash of the literal of the entry at a place, its tag included.
fn hash_literal(job: &[u8], w: &[u32], p: &[usize], at: usize) -> usize
    requires { On p.now (length w.now) × Work job.now p.now × EntryStands job.now at × WordsAt job.now (store p.now w.now VALUES) at }
    ensures { WhatEntry job.now at (λ x. result ≡ hash_bytes x.tag x.literal) × IsWord result }
{
    if job::is_worked(job, at) {
        return hash_worked(job, w, p, at);
    }
    let s = job::literal_at(job, at);
    hash_bytes(&job[s.start..s.end], job::tag_at(job, at) as usize)
}

// The literal of the entry at a place, which was worked out, is the same bytes as that of another.
fn same_worked(job: &[u8], w: &[u32], p: &[usize], at: usize, other: usize) -> bool
    requires { On p.now (length w.now) × Work job.now p.now × EntryStands job.now at × EntryStands job.now other × WordsAt job.now (store p.now w.now VALUES) at × WordsAt job.now (store p.now w.now VALUES) other × (is_worked job.now at ≡ true) }
    ensures { WhatEntry job.now at (λ x. WhatEntry job.now other (λ y. result ≡ same x.literal y.literal)) }
{
    let n = literal_size(job, at);
    if literal_size(job, other) != n {
        return false;
    }
    if literal_word(job, w, p, at, 0) != literal_word(job, w, p, other, 0) {
        return false;
    }
    n == 4 || literal_word(job, w, p, at, 1) == literal_word(job, w, p, other, 1)
}

// The literals of the entries at two places are the same bytes.
fn same_literal(job: &[u8], w: &[u32], p: &[usize], at: usize, other: usize) -> bool
    requires { On p.now (length w.now) × Work job.now p.now × EntryStands job.now at × EntryStands job.now other × WordsAt job.now (store p.now w.now VALUES) at × WordsAt job.now (store p.now w.now VALUES) other }
    ensures { WhatEntry job.now at (λ x. WhatEntry job.now other (λ y. result ≡ same x.literal y.literal)) }
{
    if job::is_worked(job, at) {
        return same_worked(job, w, p, at, other);
    }
    if job::is_worked(job, other) {
        return same_worked(job, w, p, other, at);
    }
    let a = job::literal_at(job, at);
    let b = job::literal_at(job, other);
    job[a.start..a.end] == job[b.start..b.end]
}

// The hash of an entry whose children are known: a function of what `same_entry` compares.
fn hash_entry(job: &[u8], w: &[u32], p: &[usize], e: usize) -> usize
    requires { On p.now (length w.now) × Work job.now p.now × EnteredIn job.now (store p.now w.now) × (e < entries_in job.now) }
    ensures { (result ≡ hash_in job.now (store p.now w.now) e) × IsWord result }
{
    let at = load(w, p, OFFSETS, e);
    let n = load(w, p, SIZES, e);
    if n == 0 {
        return hash_literal(job, w, p, at);
    }
    let seed = job::tag_at(job, at) as usize * 256 + job::kind_byte(job, at) as usize;
    hash_children(w, p, load(w, p, FIRSTS, e), n, seed)
}

// Two entries whose children are known would be one node.
fn same_entry(job: &[u8], w: &[u32], p: &[usize], a: usize, b: usize) -> bool
    requires { On p.now (length w.now) × Work job.now p.now × EnteredIn job.now (store p.now w.now) × (a < entries_in job.now) × (b < entries_in job.now) }
    ensures { result ≡ same_node (node_in_lem job.now (store p.now w.now) a) (node_in_lem job.now (store p.now w.now) b) }
{
    let at = load(w, p, OFFSETS, a);
    let other = load(w, p, OFFSETS, b);
    if job::tag_at(job, at) != job::tag_at(job, other) {
        return false;
    }
    let n = load(w, p, SIZES, a);
    if load(w, p, SIZES, b) != n {
        return false;
    }
    if n == 0 {
        return same_literal(job, w, p, at, other);
    }
    if job::kind_byte(job, at) != job::kind_byte(job, other) {
        return false;
    }
    same_children(w, p, load(w, p, FIRSTS, a), load(w, p, FIRSTS, b), n)
}

// The node that an entry with this hash would be. Each walk along a chain stands where its test is: one that took the test as a
// closure would be no plainer, since each call would say again which nodes it may be asked of, and what it answers.
fn find_node(job: &[u8], w: &[u32], p: &[usize], e: usize, hash: usize) -> Option<usize>
    requires { On p.now (length w.now) × Work job.now p.now × EnteredIn job.now (store p.now w.now) × NodesIn (size p.now NODE-HEADS) job.now (store p.now w.now) × (e < entries_in job.now) × (hash ≡ hash_in job.now (store p.now w.now) e) × IsWord hash }
    ensures { Sought (λ i. same_node (node_in_lem job.now (store p.now w.now) e) (node_in_lem job.now (store p.now w.now) (get_or (store p.now w.now NODES) i 0)) ≡ true) (node_count (store p.now w.now)) (link_of result) }
{
    let mut link = first_link(w, p, NODE_HEADS, hash);
    while let Some(k) = link.checked_sub(1) {
        if same_entry(job, w, p, e, load(w, p, NODES, k)) {
            return Some(k);
        }
        link = load(w, p, NODE_LINKS, k);
    }
    None
}

// Keeps node k as the lower one of its entry and e, whose record is then the lower one too.
fn keep_lower(w: &mut [u32], p: &[usize], k: usize, e: usize)
    requires { On p.now (length w.old) × (k < size p.now NODES) × IsWord e }
    ensures { Lowers (store p.now w.old) (store p.now w.new) k e }
{
    if load(w, p, NODES, k) <= e {
        return;
    }
    save(w, p, NODES, k, e);
}

// The node of an entry whose children are known, a new one behind the others if there is no equal one.
pub fn intern(job: &[u8], w: &mut [u32], p: &[usize], e: usize) -> usize
    requires { On p.now (length w.old) × Work job.now p.now × EnteredIn job.now (store p.now w.old) × NodesIn (size p.now NODE-HEADS) job.now (store p.now w.old) × (e < entries_in job.now) × (node_count (store p.now w.old) < entries_in job.now) }
    ensures { Interned (size p.now NODE-HEADS) job.now (store p.now w.old) (store p.now w.new) e result }
{
    let hash = hash_entry(job, w, p, e);
    if let Some(k) = find_node(job, w, p, e, hash) {
        keep_lower(w, p, k, e);
        return k;
    }
    let k = next_count(w, p, NODE_COUNT);
    save(w, p, NODES, k, e);
    push_link(w, p, NODE_HEADS, hash, k);
    k
}

// The word of a region that belongs to the entry that node k is kept as.
fn node_word(w: &[u32], p: &[usize], region: usize, k: usize) -> usize
    requires { On p.now (length w.now) × (k < size p.now NODES) × (get_or (store p.now w.now NODES) k 0 < size p.now region) }
    ensures { Read (store p.now w.now) region (get_or (store p.now w.now NODES) k 0) result }
{
    load(w, p, region, load(w, p, NODES, k))
}

// Where the record of a node's entry stands.
pub fn node_at(w: &[u32], p: &[usize], k: usize) -> usize
    requires { On p.now (length w.now) × (k < size p.now NODES) × (get_or (store p.now w.now NODES) k 0 < size p.now OFFSETS) }
    ensures { Read (store p.now w.now) OFFSETS (get_or (store p.now w.now NODES) k 0) result }
{
    node_word(w, p, OFFSETS, k)
}

// How many children a node has.
pub fn child_count(w: &[u32], p: &[usize], k: usize) -> usize
    requires { On p.now (length w.now) × (k < size p.now NODES) × (get_or (store p.now w.now NODES) k 0 < size p.now SIZES) }
    ensures { Read (store p.now w.now) SIZES (get_or (store p.now w.now NODES) k 0) result }
{
    node_word(w, p, SIZES, k)
}

// Where in CHILDREN they begin.
pub fn first_child(w: &[u32], p: &[usize], k: usize) -> usize
    requires { On p.now (length w.now) × (k < size p.now NODES) × (get_or (store p.now w.now NODES) k 0 < size p.now FIRSTS) }
    ensures { Read (store p.now w.now) FIRSTS (get_or (store p.now w.now NODES) k 0) result }
{
    node_word(w, p, FIRSTS, k)
}

// The text that the bootstrap attribute's name needs.
pub fn attribute_name() -> [u8; 16]
    ensures { result ≡ attribute_name }
{
    *b"BootstrapMethods"
}

// The entry at a place is the text "BootstrapMethods".
fn is_attribute(job: &[u8], at: usize) -> bool
    requires { EntryStands job.now at }
    ensures { WhatEntry job.now at (λ x. result ≡ same_literal (x.tag, x.literal) (1, attribute_name)) }
{
    if job::tag_at(job, at) != 1 {
        return false;
    }
    let s = job::literal_at(job, at);
    job[s.start..s.end] == attribute_name()[..]
}

// The node of the text "BootstrapMethods", the number of nodes if there is none: `position` of the definition. No `Option`: ending's
// contract looks this number up among the slots given, and asks of no caller that there is none at the number of nodes.
pub fn find_attribute(job: &[u8], w: &[u32], p: &[usize]) -> usize
    requires { On p.now (length w.now) × Work job.now p.now × EnteredIn job.now (store p.now w.now) × NodesIn (size p.now NODE-HEADS) job.now (store p.now w.now) }
    ensures { result ≡ position (same_node attribute_text) (nodes_in job.now (store p.now w.now)) }
{
    let hash = hash_bytes(&attribute_name(), 1);
    let mut link = first_link(w, p, NODE_HEADS, hash);
    while let Some(k) = link.checked_sub(1) {
        let e = load(w, p, NODES, k);
        if is_attribute(job, load(w, p, OFFSETS, e)) {
            return k;
        }
        link = load(w, p, NODE_LINKS, k);
    }
    load(w, p, COUNTS, NODE_COUNT)
}

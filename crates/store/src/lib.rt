// The lent words as regions: region k is the words from place k up to place k + 1, and only `load`, `save`, `size_of`, `lay` and
// `start` touch words or places. Regions, counters and what words mean go by number: the caller lends plain words (no heap, fixed
// memory), and each word of them is a `u32`.
#![tactic(auto)]

ghost use Rattle.std.specs.Prelude.{◌≡◌, ℕ, ◌+◌, ◌-◌, ◌<◌, ◌≤◌, length, get_or};
ghost use Rattle.store.specs.Regions.{places_of, sizes_for, Few, Started};
ghost use Rattle.store.specs.Store.{size, store, put, Laid, On, IsWord, Read};
ghost use Rattle.store.specs.Chains.{mixed, head_of, link_of, Sought, Heads, linked, NumbersIn};

use job::JobCounts;

// Regions that start as zeros.
// The counters, one word each, as named below.
pub const COUNTS: usize = 0;

// By entry: 0 is fresh, 1 underway, 2 + k done, as node k.
pub const MARKS: usize = 1;

// By node: its slot, 0 while it has none.
pub const GIVEN: usize = 2;

// By bootstrap entry: 1 + the index of the node made from it, 0 while it has none.
pub const INDEXES: usize = 3;

// The heads of the chains: of names, nodes, raw definitions, inline rows, and slots given out.
pub const NAME_HEADS: usize = 4;

pub const NODE_HEADS: usize = 5;

pub const RAW_HEADS: usize = 6;

pub const ROW_HEADS: usize = 7;

pub const OWNER_HEADS: usize = 8;

// Their links, LINKS regions behind their heads.
pub const NAME_LINKS: usize = 9;

pub const NODE_LINKS: usize = 10;

pub const ROW_LINKS: usize = 12;

// Behind the regions that start as zeros.
const ZEROS: usize = 9;

const LINKS: usize = 5;

// By entry: the number of its record, its record's place in the job, its first reference's place in GOALS and CHILDREN, how many it has.
pub const RECORDS: usize = 14;

pub const OFFSETS: usize = 15;

pub const FIRSTS: usize = 16;

pub const SIZES: usize = 17;

// By reference: where it leads, and the child that it became.
pub const GOALS: usize = 18;

pub const CHILDREN: usize = 19;

// By name: its record's place in the job, and where it leads.
pub const NAME_PLACES: usize = 20;

pub const NAME_GOALS: usize = 21;

// By raw definition, a wide constant being two: its slot, or ENTRY + its index; its entry, or HALF.
pub const RAW_KEYS: usize = 22;

pub const RAW_ENTRIES: usize = 23;

// The raw definitions by rising key: slots, then indexes.
pub const ORDER: usize = 24;

// By node: the lowest entry that became it.
pub const NODES: usize = 25;

// The items of `resolve`.
pub const STACK: usize = 26;

// The building stack, as nodes.
pub const PENDING: usize = 27;

// The bootstrap nodes that took an index, by rising index.
pub const INLINE: usize = 28;

pub const ANSWERS: usize = 29;

// How each answer was come by: 0 raw, 1 new, 2 old.
pub const ORIGINS: usize = 30;

// By the place of a record 46 in the job, over 3: the bits of its value, in two words if its kind has 8 bytes. It has 6 bytes or more.
pub const VALUES: usize = 31;

// Counters.
// The number of the record in turn, and where the next record stands.
pub const PLACE: usize = 0;

pub const AT: usize = 1;

// How many were read: constants, bootstraps, references in them, names, raw definitions, and raw slots among those.
pub const CONSTANT_COUNT: usize = 2;

pub const BOOTSTRAP_COUNT: usize = 3;

pub const REFERENCE_COUNT: usize = 4;

pub const NAME_COUNT: usize = 5;

pub const RAW_COUNT: usize = 6;

pub const HELD_COUNT: usize = 7;

// Resolving: nodes, and items taken.
pub const NODE_COUNT: usize = 8;

pub const VISITS: usize = 9;

// Slots: gaps in use, and the three positions.
pub const GAP_COUNT: usize = 10;

pub const ODD: usize = 11;

pub const WIDE: usize = 12;

pub const PLAIN: usize = 13;

// Building: nodes on the stack, rows that have an index, raw ones among them, and inline ones.
pub const PENDING_COUNT: usize = 14;

pub const ROW_COUNT: usize = 15;

pub const WRITTEN_COUNT: usize = 16;

pub const INLINE_COUNT: usize = 17;

// The slot of the text "BootstrapMethods", 0 if there is none; the pool's count.
pub const NAME_SLOT: usize = 18;

pub const POOL_COUNT: usize = 19;

const COUNTERS: usize = 20;

// A reference, a goal or an item of the stack as one word. Below ENTRY: a raw number.
// An entry of the one table: constant n is n, bootstrap n is the number of constants + n (at most 131,072 entries).
// A child is a raw number, or ENTRY + its node.
pub const ENTRY: usize = 65536;

// On the stack only: the entry is left.
pub const LEAVE: usize = 262144;

// Until references are linked: the name whose length byte stands at a place of the job, of a constant or of a bootstrap.
pub const SYM: usize = 1048576;

pub const BOOTSTRAP_SYM: usize = 2097152;

// REFUSED + a refusal's number, past every place and every number of items.
pub const REFUSED: usize = 16777216;

// While names are followed: name i of the table of names, past every word that is settled.
pub const NAME: usize = 33554432;

// The entry of a raw slot that is the second half of a wide constant: past every entry.
pub const HALF: usize = 131072;

pub const UNDERWAY: usize = 1;

pub const DONE: usize = 2;

// Word i of region k.
pub fn load(w: &[u32], p: &[usize], k: usize, i: usize) -> usize
    requires { On p.now (length w.now) × (i < size p.now k) }
    ensures { Read (store p.now w.now) k i result }
{
    let b = p[k];
    w[b + i] as usize
}

// Makes it x.
pub fn save(w: &mut [u32], p: &[usize], k: usize, i: usize, x: usize)
    requires { On p.now (length w.old) × (i < size p.now k) × IsWord x }
    ensures { store p.now w.new ≡ put (store p.now w.old) k i x }
{
    let b = p[k];
    w[b + i] = x as u32;
}

// How many words region k has.
pub fn size_of(p: &[usize], k: usize) -> usize
    requires { Laid p.now × (k < 32) }
    ensures { result ≡ size p.now k }
{
    p[k + 1] - p[k]
}

// How many constants the job has: entries before the first bootstrap.
pub fn constants(p: &[usize]) -> usize
    requires { Laid p.now × (size p.now 3 ≤ size p.now 1) }
    ensures { result ≡ size p.now 1 - size p.now 3 }
{
    size_of(p, MARKS) - size_of(p, INDEXES)
}

// The sizes of the regions of a job of n bytes with these counts.
fn sizes_for(c: JobCounts, n: usize) -> [usize; 32]
    requires { Few c }
    ensures { result ≡ sizes_for c n }
{
    let entries = c.constants + c.bootstraps;
    let raws = 2 * c.raw_constants + c.raw_bootstraps;
    [
        COUNTERS,
        entries,
        entries,
        c.bootstraps,
        c.names + 2,
        2 * entries + 2,
        raws + 2,
        c.bootstraps + 2,
        entries + 2,
        c.names,
        entries,
        raws,
        c.bootstraps,
        entries,
        entries,
        entries,
        entries,
        entries,
        c.references,
        c.references,
        c.names,
        c.names,
        raws,
        raws,
        raws,
        entries,
        entries + c.references + 1,
        entries + c.raw_constants,
        c.bootstraps,
        c.requests,
        c.requests,
        n / 3,
    ]
}

// The places of regions of these sizes.
fn lay(p: &mut [usize], sizes: &[usize])
    requires { (length p.old ≡ 33) × (length sizes.now ≡ 32) × (get_or (places_of 0 sizes.now) 32 0 < 1000000000000) }
    ensures { p.new ≡ places_of 0 sizes.now }
{
    p[0] = 0;
    for (k, size) in sizes.iter().enumerate() {
        p[k + 1] = p[k] + *size;
    }
}

// The places of a job of n bytes with these counts; the regions that start as zeros are zeros.
pub fn start(w: &mut [u32], p: &mut [usize], c: JobCounts, n: usize)
    requires { Few c × (length p.old ≡ 33) × (get_or (places_of 0 (sizes_for c n)) 32 0 ≤ length w.old) × (n ≤ 1048576) }
    ensures { Started c n p.new w.old w.new }
{
    let sizes = sizes_for(c, n);
    lay(p, &sizes);
    let end = p[ZEROS];
    writer::clear_words(&mut w[..end]);
}

// Counter c as it was, and one more from then on.
pub fn next_count(w: &mut [u32], p: &[usize], c: usize) -> usize
    requires { On p.now (length w.old) × (c < size p.now 0) × IsWord (get_or (store p.now w.old 0) c 0 + 1) }
    ensures { (result ≡ get_or (store p.now w.old 0) c 0) × (store p.now w.new ≡ put (store p.now w.old) 0 c (result + 1)) }
{
    let n = load(w, p, COUNTS, c);
    save(w, p, COUNTS, c, n + 1);
    n
}

// One more number in a hash.
pub fn mix(hash: usize, x: usize) -> usize
    requires { IsWord hash × IsWord x }
    ensures { (result ≡ mixed hash x) × IsWord result }
{
    let product = (hash + x) * 0x5bd1e995;
    (product / 4294967296 + product % 4294967296) % 4294967296
}

// The head of a key's chain: the key itself while it is small, so that numbers in a row have heads in a row.
fn head_of(heads: usize, key: usize) -> usize
    requires { (1 < heads) × IsWord heads × IsWord key }
    ensures { (result ≡ head_of heads key) × (result < heads) }
{
    if key < heads {
        key
    } else {
        key * 0x9e3779b1 % 4294967296 * (heads - 1) / 4294967296 + 1
    }
}

// The first link of the chain of a key: 0 for none or 1 + an item, as lent words keep it. Links fall along the chain.
pub fn first_link(w: &[u32], p: &[usize], heads: usize, key: usize) -> usize
    requires { On p.now (length w.now) × Heads p.now heads × IsWord key }
    ensures { result ≡ get_or (store p.now w.now heads) (head_of (size p.now heads) key) 0 }
{
    load(w, p, heads, head_of(size_of(p, heads), key))
}

// Item i, past every item of the chains, joins the chain of its key.
pub fn push_link(w: &mut [u32], p: &[usize], heads: usize, key: usize, i: usize)
    requires { On p.now (length w.old) × Heads p.now heads × IsWord key × (i < size p.now (heads + 5)) × IsWord (i + 1) }
    ensures { store p.now w.new ≡ linked (store p.now w.old) p.now heads key i }
{
    let head = head_of(size_of(p, heads), key);
    let old = load(w, p, heads, head);
    save(w, p, heads + LINKS, i, old);
    save(w, p, heads, head, i + 1);
}

// An item of the chains whose number, in region `keys`, is n.
pub fn find_number(w: &[u32], p: &[usize], heads: usize, keys: usize, n: usize) -> Option<usize>
    requires { On p.now (length w.now) × Heads p.now heads × IsWord n × ((count : ℕ) × NumbersIn p.now (store p.now w.now) heads keys count) }
    ensures { (count : ℕ) → NumbersIn p.now (store p.now w.now) heads keys count → Sought (λ i. get_or (store p.now w.now keys) i 0 ≡ n) count (link_of result) }
{
    let mut link = first_link(w, p, heads, n);
    while let Some(i) = link.checked_sub(1) {
        if load(w, p, keys, i) == n {
            return Some(i);
        }
        link = load(w, p, heads + LINKS, i);
    }
    None
}

// The rows of the bootstrap table: indexes for inline bootstraps, and which bootstrap node has the row at an index.
#![tactic(auto)]

ghost use Rattle.std.specs.Prelude.{◌≡◌, ◌+◌, ◌-◌, ◌<◌, ◌≤◌, length, get_or};
ghost use Rattle.definition.specs.Basics.{same};
ghost use Rattle.definition.specs.Building.{Rows, write_raw, take_index, row_index};
ghost use Rattle.interner.specs.Nodes.{node_count};
ghost use Rattle.store.specs.Store.{size, store, put, On, IsWord, Read};
ghost use Rattle.refusal.specs.Numbers.{code_of};
ghost use Rattle.store.specs.Chains.{Sought, link_of};
ghost use Rattle.store.specs.Regions.{GIVEN, INDEXES, FIRSTS, SIZES, NODES, INLINE};
ghost use Rattle.store.specs.Words.{ENTRY, child_slot};
ghost use Rattle.rows.specs.Rowed.{hash_row, constants_of, raw_rows, raw_index, raw_node, row_in, RowRoom, KidsIn, RawsReadyIn, RowWordsIn, RowedIn, IsBootstrapIn, index_word_lem, inline_count, Nth, Reached, WroteRaws, with_inline, with_index, NewRow, Indexed, inline_index, InTable, RowNode, table_of, is_bootstrap, number_of, HasNumber};

use interner::{child_count, first_child};
use raws::raw_entry;
use refusal::Refusal;
use resolver::node_of;
use store::{
    CHILDREN, COUNTS, ENTRY, GIVEN, HELD_COUNT, INDEXES, INLINE, INLINE_COUNT, NODES, ROW_COUNT,
    ROW_HEADS, ROW_LINKS, WRITTEN_COUNT, constants, first_link, load, mix, next_count, push_link,
    save,
};

// The slot of a child that has one: a raw number is itself. A child is a word of lent memory: a raw number, or ENTRY + a node.
pub fn child_slot(w: &[u32], p: &[usize], child: usize) -> usize
    requires { On p.now (length w.now) × (child < ENTRY + size p.now GIVEN) }
    ensures { (result ≡ child_slot (store p.now w.now GIVEN) child) × IsWord result }
{
    if child < ENTRY {
        child
    } else {
        load(w, p, GIVEN, child - ENTRY)
    }
}

// How many raw bootstraps there are.
pub fn raw_rows(w: &[u32], p: &[usize]) -> usize
    requires { On p.now (length w.now) × RowRoom p.now × RawsReadyIn p.now (store p.now w.now) }
    ensures { result ≡ raw_rows (store p.now w.now) }
{
    raws::raw_rows(w, p)
}

// The index of raw bootstrap i by rising index, if there are so many.
pub fn raw_index(w: &[u32], p: &[usize], i: usize) -> Option<usize>
    requires { On p.now (length w.now) × RowRoom p.now × RawsReadyIn p.now (store p.now w.now) }
    ensures { Nth (raw_index (store p.now w.now)) (raw_rows (store p.now w.now)) i result }
{
    raws::raw_index(w, p, i)
}

// The word of bootstrap node k in INDEXES: 1 + its index, 0 while it has none.
fn index_word(w: &[u32], p: &[usize], k: usize) -> usize
    requires { On p.now (length w.now) × RowRoom p.now × KidsIn p.now (store p.now w.now) × IsBootstrapIn p.now (store p.now w.now) k }
    ensures { (result ≡ index_word_lem p.now (store p.now w.now) k) × IsWord result }
{
    load(w, p, INDEXES, load(w, p, NODES, k) - constants(p))
}

// The index of bootstrap node k, once it has one.
pub fn index_of(w: &[u32], p: &[usize], k: usize) -> Option<usize>
    requires { On p.now (length w.now) × RowRoom p.now × KidsIn p.now (store p.now w.now) × IsBootstrapIn p.now (store p.now w.now) k }
    ensures { (link_of result ≡ index_word_lem p.now (store p.now w.now) k) × IsWord (link_of result) }
{
    index_word(w, p, k).checked_sub(1)
}

// Makes the word x.
fn set_index(w: &mut [u32], p: &[usize], k: usize, x: usize)
    requires { On p.now (length w.old) × RowRoom p.now × KidsIn p.now (store p.now w.old) × IsBootstrapIn p.now (store p.now w.old) k × IsWord x }
    ensures { store p.now w.new ≡ put (store p.now w.old) INDEXES (get_or (store p.now w.old NODES) k 0 - constants_of p.now) x }
{
    let e = load(w, p, NODES, k);
    save(w, p, INDEXES, e - constants(p), x);
}

// The hash of the row of bootstrap node k: a function of its slots. It is interner's walk over a node's children, but each child goes
// through its slot.
fn hash_row(w: &[u32], p: &[usize], k: usize) -> usize
    requires { On p.now (length w.now) × RowRoom p.now × KidsIn p.now (store p.now w.now) × (k < node_count (store p.now w.now)) }
    ensures { (result ≡ hash_row (row_in (store p.now w.now) k)) × IsWord result }
{
    let n = child_count(w, p, k);
    let first = first_child(w, p, k);
    let mut hash = n;
    for i in 0..n {
        hash = mix(hash, child_slot(w, p, load(w, p, CHILDREN, first + i)));
    }
    hash
}

// The rows of two bootstrap nodes are the same: each child goes through its slot, as in `hash_row`.
fn same_row(w: &[u32], p: &[usize], k: usize, l: usize) -> bool
    requires { On p.now (length w.now) × RowRoom p.now × KidsIn p.now (store p.now w.now) × (k < node_count (store p.now w.now)) × (l < node_count (store p.now w.now)) }
    ensures { result ≡ same (row_in (store p.now w.now) k) (row_in (store p.now w.now) l) }
{
    let n = child_count(w, p, k);
    if child_count(w, p, l) != n {
        return false;
    }
    let a = first_child(w, p, k);
    let b = first_child(w, p, l);
    for i in 0..n {
        let slot = child_slot(w, p, load(w, p, CHILDREN, a + i));
        if child_slot(w, p, load(w, p, CHILDREN, b + i)) != slot {
            return false;
        }
    }
    true
}

// The place in INLINE of a row that is the same as node k's, of this hash. Its walk stands here for the reason beside interner's `find_node`.
fn find_row(w: &[u32], p: &[usize], k: usize, hash: usize) -> Option<usize>
    requires { On p.now (length w.now) × RowRoom p.now × KidsIn p.now (store p.now w.now) × RowWordsIn p.now (store p.now w.now) × (k < node_count (store p.now w.now)) × (hash ≡ hash_row (row_in (store p.now w.now) k)) × IsWord hash }
    ensures { Sought (λ i. row_in (store p.now w.now) (get_or (store p.now w.now INLINE) i 0) ≡ row_in (store p.now w.now) k) (inline_count (store p.now w.now)) (link_of result) }
{
    let mut link = first_link(w, p, ROW_HEADS, hash);
    while let Some(i) = link.checked_sub(1) {
        if same_row(w, p, k, load(w, p, INLINE, i)) {
            return Some(i);
        }
        link = load(w, p, ROW_LINKS, i);
    }
    None
}

// Raw rows whose index is next are written. A `while`: the first raw row whose index isn't next ends it, and both counts are kept.
fn write_raw(w: &mut [u32], p: &[usize])
    requires { On p.now (length w.old) × RowRoom p.now × RawsReadyIn p.now (store p.now w.old) × RowWordsIn p.now (store p.now w.old) }
    ensures { WroteRaws p.now (store p.now w.old) (store p.now w.new) }
{
    let mut rows = load(w, p, COUNTS, ROW_COUNT);
    let mut written = load(w, p, COUNTS, WRITTEN_COUNT);
    while raw_index(w, p, written) == Some(rows) {
        rows += 1;
        written += 1;
    }
    save(w, p, COUNTS, ROW_COUNT, rows);
    save(w, p, COUNTS, WRITTEN_COUNT, written);
}

// Node k is the next inline one.
fn add_inline(w: &mut [u32], p: &[usize], k: usize, hash: usize)
    requires { On p.now (length w.old) × RowRoom p.now × (inline_count (store p.now w.old) < size p.now INDEXES) × IsWord k × IsWord hash }
    ensures { store p.now w.new ≡ with_inline p.now k hash (store p.now w.old) }
{
    let i = next_count(w, p, INLINE_COUNT);
    save(w, p, INLINE, i, k);
    push_link(w, p, ROW_HEADS, hash, i);
}

// Node k takes index `rows`, the next one.
fn take_next(w: &mut [u32], p: &[usize], k: usize, hash: usize, rows: usize)
    requires { On p.now (length w.old) × RowRoom p.now × KidsIn p.now (store p.now w.old) × IsBootstrapIn p.now (store p.now w.old) k × (inline_count (store p.now w.old) < size p.now INDEXES) × IsWord k × IsWord hash × (rows < 65535) }
    ensures { store p.now w.new ≡ with_index p.now k hash rows (store p.now w.old) }
{
    set_index(w, p, k, rows + 1);
    add_inline(w, p, k, hash);
    save(w, p, COUNTS, ROW_COUNT, rows + 1);
}

// The row of node k, which no inline one has, takes the next index, if one is left.
fn take_index(w: &mut [u32], p: &[usize], k: usize, hash: usize) -> Result<(), Refusal>
    requires { On p.now (length w.old) × RowRoom p.now × KidsIn p.now (store p.now w.old) × RawsReadyIn p.now (store p.now w.old) × RowWordsIn p.now (store p.now w.old) × IsBootstrapIn p.now (store p.now w.old) k × NewRow (store p.now w.old) k × (hash ≡ hash_row (row_in (store p.now w.old) k)) × IsWord hash }
    ensures { Indexed (λ rows. take_index (row_in (store p.now w.old) k) rows.inline (write_raw rows.written rows.waiting)) p.now k (store p.now w.old) (store p.now w.new) (code_of result) }
{
    write_raw(w, p);
    let rows = load(w, p, COUNTS, ROW_COUNT);
    if 65535 <= rows {
        return Err(Refusal::NoBootstrapIndex);
    }
    take_next(w, p, k, hash, rows);
    Ok(())
}

// Bootstrap node k, whose children have slots, has an index from then on, if one is left: `row_index`.
pub fn row_index(w: &mut [u32], p: &[usize], k: usize) -> Result<(), Refusal>
    requires { On p.now (length w.old) × RowRoom p.now × KidsIn p.now (store p.now w.old) × RawsReadyIn p.now (store p.now w.old) × RowWordsIn p.now (store p.now w.old) × IsBootstrapIn p.now (store p.now w.old) k }
    ensures { Indexed (row_index (row_in (store p.now w.old) k)) p.now k (store p.now w.old) (store p.now w.new) (code_of result) }
{
    let hash = hash_row(w, p, k);
    match find_row(w, p, k, hash) {
        Some(i) => {
            let shared = index_word(w, p, load(w, p, INLINE, i));
            set_index(w, p, k, shared);
            Ok(())
        }
        None => take_index(w, p, k, hash),
    }
}

// The node of raw bootstrap i by rising index.
pub fn raw_row(w: &[u32], p: &[usize], i: usize) -> usize
    requires { On p.now (length w.now) × RowRoom p.now × RawsReadyIn p.now (store p.now w.now) × (i < raw_rows (store p.now w.now)) }
    ensures { (result ≡ raw_node (store p.now w.now) i) × (result < node_count (store p.now w.now)) }
{
    node_of(w, p, raw_entry(w, p, load(w, p, COUNTS, HELD_COUNT) + i))
}

// A child is a bootstrap node.
pub fn is_bootstrap(w: &[u32], p: &[usize], child: usize) -> bool
    requires { On p.now (length w.now) × RowRoom p.now × KidsIn p.now (store p.now w.now) × (child < ENTRY + node_count (store p.now w.now)) }
    ensures { result ≡ is_bootstrap p.now (store p.now w.now) child }
{
    if child < ENTRY {
        return false;
    }
    constants(p) <= load(w, p, NODES, child - ENTRY)
}

// The number of a child that has one: a bootstrap's index, or a slot.
pub fn child_number(w: &[u32], p: &[usize], child: usize) -> usize
    requires { On p.now (length w.now) × RowRoom p.now × KidsIn p.now (store p.now w.now) × (child < ENTRY + node_count (store p.now w.now)) × HasNumber p.now (store p.now w.now) child }
    ensures { result ≡ number_of p.now (store p.now w.now) child }
{
    if is_bootstrap(w, p, child) {
        return index_word(w, p, child - ENTRY) - 1;
    }
    child_slot(w, p, child)
}

// How many rows the table has, once its holes are filled.
pub fn row_count(w: &[u32], p: &[usize]) -> usize
    requires { On p.now (length w.now) × RowRoom p.now × RawsReadyIn p.now (store p.now w.now) }
    ensures { (rows : Rows) → RowedIn p.now rows (store p.now w.now) → result ≡ length (table_of rows) }
{
    let n = raw_rows(w, p);
    if load(w, p, COUNTS, WRITTEN_COUNT) < n {
        return raw_index(w, p, n - 1).unwrap() + 1;
    }
    load(w, p, COUNTS, ROW_COUNT)
}

// The index of inline row i, if there are so many.
pub fn inline_index(w: &[u32], p: &[usize], i: usize) -> Option<usize>
    requires { On p.now (length w.now) × RowRoom p.now × KidsIn p.now (store p.now w.now) × RowWordsIn p.now (store p.now w.now) }
    ensures { Nth (inline_index p.now (store p.now w.now)) (inline_count (store p.now w.now)) i result }
{
    if load(w, p, COUNTS, INLINE_COUNT) <= i {
        return None;
    }
    index_of(w, p, load(w, p, INLINE, i))
}

// The node whose row stands at an index, `inline` inline and `raws` raw indexes being below it.
pub fn row_node(w: &[u32], p: &[usize], index: usize, inline: usize, raws: usize) -> usize
    requires { On p.now (length w.now) × RowRoom p.now × KidsIn p.now (store p.now w.now) × RawsReadyIn p.now (store p.now w.now) × RowWordsIn p.now (store p.now w.now) × InTable p.now (store p.now w.now) index × Reached (inline_index p.now (store p.now w.now)) (inline_count (store p.now w.now)) index inline × Reached (raw_index (store p.now w.now)) (raw_rows (store p.now w.now)) index raws }
    ensures { RowNode p.now (store p.now w.now) index result × (result < node_count (store p.now w.now)) }
{
    if inline_index(w, p, inline) == Some(index) {
        return load(w, p, INLINE, inline);
    }
    raw_row(w, p, raws)
}

// References and names: Krakatau's sym_ref_resolver.rs. References become words, and names are followed to where they lead.
#![tactic(auto)]

ghost use Rattle.std.proofs.Math.Option.{some};
ghost use Rattle.std.specs.Prelude.{◌≡◌, ℕ, ◌+◌, ◌<◌, ◌≤◌, length, get_or};
ghost use Rattle.std.proofs.Math.ListN.{get_elem?};
ghost use Rattle.definition.specs.Job.{short_name, reference};
ghost use Rattle.definition.specs.Definitions.{Naming};
ghost use Rattle.refusal.specs.Numbers.{code_of};
ghost use Rattle.job.specs.Stored.{Stands, WhatStands, ReferenceStands};
ghost use Rattle.store.specs.Store.{size, store, On, IsWord};
ghost use Rattle.store.specs.Chains.{Sought, link_of};
ghost use Rattle.store.specs.JobIn.{counts_in, entries_in, constants_in, namings_in};
ghost use Rattle.store.specs.Regions.{NAME-HEADS, NAME-GOALS, GOALS, Work};
ghost use Rattle.store.specs.Words.{label_at, reference_word, IsReference};
ghost use Rattle.interner.specs.Nodes.{hash_bytes};
ghost use Rattle.sym_refs.specs.Names.{kind_byte, CitedIn, NamingAt, name_count, NamesIn, Tried, Goals, Goes};
ghost use Rattle.sym_refs.specs.Leading.{flagged, WordFor, Named, NamedBy, AllNames, Decides, hopped, on_name, end_of, Inner, Jumped, Finished, First, Started, NamesFollowed, ReferencesLinked};

use job::RefType;
use refusal::Refusal;
use store::{
    BOOTSTRAP_SYM, ENTRY, GOALS, NAME, NAME_COUNT, NAME_GOALS, NAME_HEADS, NAME_LINKS, NAME_PLACES,
    REFUSED, SYM, constants, first_link, load, next_count, push_link, save, size_of,
};

// The reference at a place as a word: a raw number, an entry of the one table, or where its name stands.
pub fn reference_word(job: &[u8], p: &[usize], at: usize, bootstrap: bool) -> usize
    requires { Work job.now p.now × ReferenceStands job.now at }
    ensures { WhatStands (reference (flagged bootstrap)) job.now at (λ a next. CitedIn job.now a → WordFor job.now a result) }
{
    match job::reference_at(job, at) {
        RefType::Raw(n) => n as usize,
        RefType::Index(n) => {
            if bootstrap {
                ENTRY + constants(p) + n as usize
            } else {
                ENTRY + n as usize
            }
        }
        RefType::Sym(_) => {
            if bootstrap {
                BOOTSTRAP_SYM + at + 1
            } else {
                SYM + at + 1
            }
        }
    }
}

// The hash of the name whose length byte stands at a place, of the kind that records of this first byte (41, 42) define. The byte stays
// as the job has it: it is compared with bytes of the job and hashed, and an enum would only be written back as it.
fn hash_name(job: &[u8], at: usize, first: u8) -> usize
    requires { Stands short_name job.now at }
    ensures { (result ≡ hash_bytes first (label_at job.now at)) × IsWord result }
{
    let n = job[at] as usize;
    interner::hash_bytes(&job[at + 1..at + 1 + n], first as usize)
}

// The naming record at a place has this first byte and defines the name whose length byte stands at `at`.
fn names_same(job: &[u8], naming: usize, at: usize, first: u8) -> bool
    requires { ((x : Naming) × NamingAt job.now naming x) × Stands short_name job.now at }
    ensures { (x : Naming) → NamingAt job.now naming x → Decides result ((kind_byte x.kind ≡ first) × (x.label ≡ label_at job.now at)) }
{
    let n = job[at];
    if job[naming] != first {
        return false;
    }
    if job[naming + 1] != n {
        return false;
    }
    let n = n as usize;
    job[naming + 2..naming + 2 + n] == job[at + 1..at + 1 + n]
}

// The name of this hash and first byte whose length byte stands at a place. A `while`: it follows links, and counts no index. Why the walk
// stands here a second time: interner's find_node.
fn find_name(job: &[u8], w: &[u32], p: &[usize], hash: usize, at: usize, first: u8) -> Option<usize>
    requires { On p.now (length w.now) × Work job.now p.now × NamesIn (size p.now NAME-HEADS) job.now (store p.now w.now) × Stands short_name job.now at × (hash ≡ hash_bytes first (label_at job.now at)) × IsWord hash }
    ensures { Sought (Named job.now first (label_at job.now at)) (name_count (store p.now w.now)) (link_of result) }
{
    let mut link = first_link(w, p, NAME_HEADS, hash);
    while let Some(i) = link.checked_sub(1) {
        if names_same(job, load(w, p, NAME_PLACES, i), at, first) {
            return Some(i);
        }
        link = load(w, p, NAME_LINKS, i);
    }
    None
}

// The naming record at a place becomes one name more, unless the name is defined for its kind.
pub fn add_name(job: &[u8], w: &mut [u32], p: &[usize], at: usize) -> Result<(), Refusal>
    requires { On p.now (length w.old) × Work job.now p.now × NamesIn (size p.now NAME-HEADS) job.now (store p.now w.old) × ((x : Naming) × (get_elem? (namings_in job.now) (name_count (store p.now w.old)) ≡ some x) × NamingAt job.now at x) }
    ensures { (x : Naming) → get_elem? (namings_in job.now) (name_count (store p.now w.old)) ≡ some x → Tried (size p.now NAME-HEADS) job.now (store p.now w.old) (store p.now w.new) x (code_of result) }
{
    let first = job[at];
    let hash = hash_name(job, at + 1, first);
    if find_name(job, w, p, hash, at + 1, first).is_some() {
        return Err(Refusal::NameTwice);
    }
    let i = next_count(w, p, NAME_COUNT);
    save(w, p, NAME_PLACES, i, at);
    push_link(w, p, NAME_HEADS, hash, i);
    Ok(())
}

// The name that a symbol's word stands for, if it is defined.
fn find_symbol(job: &[u8], w: &[u32], p: &[usize], symbol: usize) -> Option<usize>
    requires { On p.now (length w.now) × Work job.now p.now × NamesIn (size p.now NAME-HEADS) job.now (store p.now w.now) × IsReference job.now (entries_in job.now) symbol × (1048576 ≤ symbol) }
    ensures { Sought (NamedBy job.now (reference_word job.now (constants_in job.now) symbol)) (name_count (store p.now w.now)) (link_of result) }
{
    if symbol < BOOTSTRAP_SYM {
        let at = symbol - SYM;
        find_name(job, w, p, hash_name(job, at, 0x41), at, 0x41)
    } else {
        let at = symbol - BOOTSTRAP_SYM;
        find_name(job, w, p, hash_name(job, at, 0x42), at, 0x42)
    }
}

// Where name i leads in a step.
fn first_goal(job: &[u8], w: &[u32], p: &[usize], i: usize) -> usize
    requires { On p.now (length w.now) × Work job.now p.now × AllNames (size p.now NAME-HEADS) job.now (store p.now w.now) × (i < size p.now NAME-GOALS) }
    ensures { First job.now (size p.now NAME-GOALS) i result }
{
    let at = load(w, p, NAME_PLACES, i);
    let bootstrap = job[at] == 0x42;
    let target = reference_word(job, p, job::name_at(job, at + 1).end, bootstrap);
    if target < SYM {
        return target;
    }
    match find_symbol(job, w, p, target) {
        Some(next) => NAME + next,
        None => REFUSED + Refusal::NameUndefined as usize,
    }
}

// Each name leads where it leads in a step.
fn start_names(job: &[u8], w: &mut [u32], p: &[usize])
    requires { On p.now (length w.old) × Work job.now p.now × AllNames (size p.now NAME-HEADS) job.now (store p.now w.old) }
    ensures { Started job.now (store p.now w.old) (store p.now w.new) (size p.now NAME-GOALS) }
{
    let n = size_of(p, NAME_GOALS);
    for i in 0..n {
        let goal = first_goal(job, w, p, i);
        save(w, p, NAME_GOALS, i, goal);
    }
}

// Where a word leads in another jump.
fn hop(w: &[u32], p: &[usize], goal: usize) -> usize
    requires { On p.now (length w.now) × (goal < 33554432 + size p.now NAME-GOALS) }
    ensures { result ≡ hopped (store p.now w.now NAME-GOALS) goal }
{
    if goal < NAME {
        goal
    } else {
        load(w, p, NAME_GOALS, goal - NAME)
    }
}

// 1 if a word leads to a name, else 0.
fn on_name(goal: usize) -> usize
    ensures { (result ≡ on_name goal) × (result ≤ 1) }
{
    usize::from(NAME <= goal)
}

// Each name leads where the name that it leads to does, so that spans double. How many still lead to a name.
fn jump_names(w: &mut [u32], p: &[usize]) -> usize
    requires { On p.now (length w.old) × (size p.now NAME-GOALS < 1000000000) × Inner (size p.now NAME-GOALS) (store p.now w.old NAME-GOALS) }
    ensures { Jumped (store p.now w.old) (store p.now w.new) (size p.now NAME-GOALS) result }
{
    let n = size_of(p, NAME_GOALS);
    let mut left = 0;
    for i in 0..n {
        let goal = hop(w, p, load(w, p, NAME_GOALS, i));
        save(w, p, NAME_GOALS, i, goal);
        left += on_name(goal);
    }
    left
}

// A word that still leads to a name is circular. Refusals stand in lent memory as words, REFUSED + a number.
fn ended(goal: usize) -> usize
    requires { IsWord goal }
    ensures { (result ≡ end_of goal) × IsWord result }
{
    if goal < NAME {
        goal
    } else {
        REFUSED + Refusal::Circular as usize
    }
}

// Every name that still leads to a name has the goal 13.
fn end_names(w: &mut [u32], p: &[usize])
    requires { On p.now (length w.old) }
    ensures { Finished (store p.now w.old) (store p.now w.new) (size p.now NAME-GOALS) }
{
    let n = size_of(p, NAME_GOALS);
    for i in 0..n {
        let goal = ended(load(w, p, NAME_GOALS, i));
        save(w, p, NAME_GOALS, i, goal);
    }
}

// Every name's goal. A `while`: the span doubles each round, so that no range goes over it.
pub fn resolve_names(job: &[u8], w: &mut [u32], p: &[usize])
    requires { On p.now (length w.old) × Work job.now p.now × AllNames (size p.now NAME-HEADS) job.now (store p.now w.old) }
    ensures { NamesFollowed job.now (store p.now w.old) (store p.now w.new) }
{
    start_names(job, w, p);
    let n = size_of(p, NAME_GOALS);
    let mut span = 1;
    while span <= n {
        if jump_names(w, p) == 0 {
            break;
        }
        span += span;
    }
    end_names(w, p);
}

// Where a reference's word leads, once the names have goals.
pub fn goal_of(job: &[u8], w: &[u32], p: &[usize], reference: usize) -> usize
    requires { On p.now (length w.now) × Work job.now p.now × AllNames (size p.now NAME-HEADS) job.now (store p.now w.now) × Goals job.now (store p.now w.now NAME-GOALS) × IsReference job.now (entries_in job.now) reference }
    ensures { Goes job.now reference result × IsWord result }
{
    if reference < SYM {
        return reference;
    }
    match find_symbol(job, w, p, reference) {
        Some(i) => load(w, p, NAME_GOALS, i),
        None => REFUSED + Refusal::NameUndefined as usize,
    }
}

// The references of all entries become goals.
pub fn link_references(job: &[u8], w: &mut [u32], p: &[usize])
    requires { On p.now (length w.old) × Work job.now p.now × AllNames (size p.now NAME-HEADS) job.now (store p.now w.old) × Goals job.now (store p.now w.old NAME-GOALS) × ((i : ℕ) → i < (counts_in job.now).references → IsReference job.now (entries_in job.now) (get_or (store p.now w.old GOALS) i 0)) }
    ensures { ReferencesLinked job.now (store p.now w.old) (store p.now w.new) }
{
    let n = size_of(p, GOALS);
    for i in 0..n {
        let goal = goal_of(job, w, p, load(w, p, GOALS, i));
        save(w, p, GOALS, i, goal);
    }
}

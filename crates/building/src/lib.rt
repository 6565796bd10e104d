// Building: children get their numbers, in field order, until the building stack is empty.
#![tactic(auto)]

ghost use Rattle.std.specs.Prelude.{◌≡◌, ◌+◌, ◌<◌, ltb, length};
ghost use Rattle.definition.specs.Settings.{known};
ghost use Rattle.definition.specs.Definitions.{tag_at};
ghost use Rattle.refusal.specs.Numbers.{code_of};
ghost use Rattle.store.specs.Store.{store, On};
ghost use Rattle.store.specs.Regions.{Work};
ghost use Rattle.store.specs.Words.{ENTRY};
ghost use Rattle.interner.specs.Nodes.{node_count, nodes_in};
ghost use Rattle.rows.specs.Rowed.{RowRoom, KidsIn, index_word_lem, IsBootstrapIn};
ghost use Rattle.pool.specs.Pooled.{LiveIn, NodesThere};
ghost use Rattle.building.specs.Built.{CanBuild, BuiltAll};
ghost use Rattle.building.specs.Working.{Standing, Working, Owners, RawsSlotted, RowNumbered, Numbered, Finished, Judged, Drained};

use interner::{child_count, first_child};
use pool::{node_tag, pop_pending, refuse_at, slot_of, slots_of};
use refusal::Refusal;
use rows::{index_of, is_bootstrap, raw_row, raw_rows, row_index};
use slots::Gap;
use store::{CHILDREN, COUNTS, ENTRY, PENDING_COUNT, load};

// The raw bootstraps' children have slots from then on, by falling index: `raw_rows`.
fn slot_raw_rows(job: &[u8], w: &mut [u32], p: &[usize], gaps: &mut [Gap]) -> Result<(), Refusal>
    requires { On p.now (length w.old) × Work job.now p.now × Standing job.now p.now (store p.now w.old) × LiveIn (store p.now w.old) gaps.old }
    ensures { RawsSlotted job.now (store p.now w.old) (store p.now w.new) gaps.old gaps.new (code_of result) }
{
    for i in (0..raw_rows(w, p)).rev() {
        let k = raw_row(w, p, i);
        slots_of(job, w, p, gaps, k)?;
    }
    Ok(())
}

// Bootstrap node k has an index.
fn has_index(w: &[u32], p: &[usize], k: usize) -> bool
    requires { On p.now (length w.now) × RowRoom p.now × KidsIn p.now (store p.now w.now) × IsBootstrapIn p.now (store p.now w.now) k }
    ensures { result ≡ ltb 0 (index_word_lem p.now (store p.now w.now) k) }
{
    index_of(w, p, k).is_some()
}

// Bootstrap node k has an index from then on, its children having slots: `node_number`.
fn number_bootstrap(
    job: &[u8],
    w: &mut [u32],
    p: &[usize],
    gaps: &mut [Gap],
    k: usize,
) -> Result<(), Refusal>
    requires { On p.now (length w.old) × Work job.now p.now × Working job.now p.now (store p.now w.old) gaps.old × IsBootstrapIn p.now (store p.now w.old) k }
    ensures { RowNumbered job.now p.now k (store p.now w.old) (store p.now w.new) gaps.old gaps.new (code_of result) }
{
    if has_index(w, p, k) {
        return Ok(());
    }
    slots_of(job, w, p, gaps, k)?;
    if let Err(refusal) = row_index(w, p, k) {
        return Err(refuse_at(w, p, k, refusal));
    }
    Ok(())
}

// A child has its number from then on: `child_number`.
fn number_child(
    job: &[u8],
    w: &mut [u32],
    p: &[usize],
    gaps: &mut [Gap],
    child: usize,
) -> Result<(), Refusal>
    requires { On p.now (length w.old) × Work job.now p.now × Working job.now p.now (store p.now w.old) gaps.old × (child < ENTRY + node_count (store p.now w.old)) }
    ensures { Numbered job.now p.now child (store p.now w.old) (store p.now w.new) gaps.old gaps.new (code_of result) }
{
    if is_bootstrap(w, p, child) {
        return number_bootstrap(job, w, p, gaps, child - ENTRY);
    }
    if let Err(refusal) = slot_of(job, w, p, gaps, child, false) {
        return Err(refuse_at(w, p, child - ENTRY, refusal));
    }
    Ok(())
}

// Node k's children have their numbers from then on, in field order: `child_numbers`.
fn finish(job: &[u8], w: &mut [u32], p: &[usize], gaps: &mut [Gap], k: usize) -> Result<(), Refusal>
    requires { On p.now (length w.old) × Work job.now p.now × Working job.now p.now (store p.now w.old) gaps.old × (k < node_count (store p.now w.old)) }
    ensures { Finished job.now p.now k (store p.now w.old) (store p.now w.new) gaps.old gaps.new (code_of result) }
{
    let first = first_child(w, p, k);
    for i in 0..child_count(w, p, k) {
        let child = load(w, p, CHILDREN, first + i);
        number_child(job, w, p, gaps, child)?;
    }
    Ok(())
}

// A class version has this kind of constant (JVMS table 4.4-B): `known`.
fn is_known(version: usize, tag: u8) -> bool
    ensures { result ≡ known version tag }
{
    match tag {
        15 => 51 <= version, // CONSTANT_MethodHandle
        16 => 51 <= version, // CONSTANT_MethodType
        17 => 55 <= version, // CONSTANT_Dynamic
        18 => 51 <= version, // CONSTANT_InvokeDynamic
        19 => 53 <= version, // CONSTANT_Module
        20 => 53 <= version, // CONSTANT_Package
        _ => true,
    }
}

// A version that has every kind of constant.
const NEWEST: usize = 55;

// The version has the kind of node k. Under the newest, which has every kind, no tag is looked at.
fn has_kind(job: &[u8], w: &[u32], p: &[usize], version: usize, k: usize) -> bool
    requires { On p.now (length w.now) × NodesThere job.now p.now (store p.now w.now) × (k < node_count (store p.now w.now)) }
    ensures { result ≡ known version (tag_at (nodes_in job.now (store p.now w.now)) k) }
{
    if NEWEST <= version {
        return true;
    }
    is_known(version, node_tag(job, w, p, k))
}

// Node k, which came off the stack: refused unless the version has its kind, then `finish`.
fn judge(
    job: &[u8],
    w: &mut [u32],
    p: &[usize],
    gaps: &mut [Gap],
    version: usize,
    k: usize,
) -> Result<(), Refusal>
    requires { On p.now (length w.old) × Work job.now p.now × Working job.now p.now (store p.now w.old) gaps.old × (k < node_count (store p.now w.old)) }
    ensures { Judged job.now p.now version k (store p.now w.old) (store p.now w.new) gaps.old gaps.new (code_of result) }
{
    if has_kind(job, w, p, version, k) {
        return finish(job, w, p, gaps, k);
    }
    Err(refuse_at(w, p, k, Refusal::KindTooNew))
}

// Takes from the building stack until it is empty: `drain`.
fn drain(
    job: &[u8],
    w: &mut [u32],
    p: &[usize],
    gaps: &mut [Gap],
    version: usize,
) -> Result<(), Refusal>
    requires { On p.now (length w.old) × Work job.now p.now × Working job.now p.now (store p.now w.old) gaps.old × Owners job.now p.now (store p.now w.old) }
    ensures { Drained job.now p.now version (store p.now w.old) (store p.now w.new) gaps.old gaps.new (code_of result) }
{
    while 0 < load(w, p, COUNTS, PENDING_COUNT) {
        let k = pop_pending(w, p);
        judge(job, w, p, gaps, version, k)?;
    }
    Ok(())
}

// Raw bootstraps, then the stack, constants held to the version: `build_all`.
pub fn build_all(
    job: &[u8],
    w: &mut [u32],
    p: &[usize],
    gaps: &mut [Gap],
    version: usize,
) -> Result<(), Refusal>
    requires { On p.now (length w.old) × Work job.now p.now × CanBuild job.now p.now (store p.now w.old) gaps.old }
    ensures { BuiltAll job.now p.now version (store p.now w.old) (store p.now w.new) gaps.old gaps.new (code_of result) }
{
    slot_raw_rows(job, w, p, gaps)?;
    drain(job, w, p, gaps, version)
}

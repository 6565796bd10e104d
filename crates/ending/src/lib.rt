// The end of a pool: the slot of the name "BootstrapMethods", and the pool's count.
#![tactic(auto)]

ghost use Rattle.std.specs.Prelude.{◌≡◌, ◌<◌, IfSome, length, get_or};
ghost use Rattle.definition.specs.Basics.{position};
ghost use Rattle.definition.specs.Resolving.{same_node};
ghost use Rattle.definition.specs.Building.{attribute_text};
ghost use Rattle.refusal.specs.Numbers.{code_of};
ghost use Rattle.store.specs.Store.{size, store, On, IsWord};
ghost use Rattle.store.specs.Regions.{COUNTS, GIVEN, NAME-SLOT, Work};
ghost use Rattle.interner.specs.Nodes.{nodes_in};
ghost use Rattle.rows.specs.Rowed.{RawsReadyIn};
ghost use Rattle.pool.specs.Pooled.{NodesThere};
ghost use Rattle.ending.specs.Ended.{CanEnd, PoolEnded};
ghost use Rattle.ending.specs.Naming.{BuildAt, Wants, slot_or_0, KeptName, CanName, PoolNamed};

use refusal::Refusal;
use slots::Gap;
use store::{AT, COUNTS, GAP_COUNT, GIVEN, NAME_SLOT, POOL_COUNT, load, save, size_of};

// The name byte of record 60 wants the name.
fn name_wanted(job: &[u8], w: &[u32], p: &[usize]) -> bool
    requires { On p.now (length w.now) × Work job.now p.now × RawsReadyIn p.now (store p.now w.now) × BuildAt job.now (store p.now w.now) }
    ensures { Wants job.now p.now (store p.now w.now) result }
{
    let byte = job[load(w, p, COUNTS, AT) + 1];
    if byte != 1 {
        return byte == 0;
    }
    0 < rows::row_count(w, p)
}

// The slot of the node of the text "BootstrapMethods", if there is such a node and it has one.
fn attribute_slot(job: &[u8], w: &[u32], p: &[usize]) -> Option<usize>
    requires { On p.now (length w.now) × NodesThere job.now p.now (store p.now w.now) }
    ensures { (slot_or_0 result ≡ get_or (store p.now w.now GIVEN) (position (same_node attribute_text) (nodes_in job.now (store p.now w.now))) 0) × IsWord (slot_or_0 result) × IfSome result (λ slot. 0 < slot) }
{
    let k = interner::find_attribute(job, w, p);
    if size_of(p, GIVEN) <= k {
        return None;
    }
    let slot = load(w, p, GIVEN, k);
    if slot == 0 { None } else { Some(slot) }
}

// The name has this slot; refused, if it is none.
fn keep_name(w: &mut [u32], p: &[usize], slot: Option<usize>) -> Result<(), Refusal>
    requires { On p.now (length w.old) × (NAME-SLOT < size p.now COUNTS) × IsWord (slot_or_0 slot) × IfSome slot (λ n. 0 < n) }
    ensures { KeptName (slot_or_0 slot) (store p.now w.old) (store p.now w.new) (code_of result) }
{
    save(w, p, COUNTS, NAME_SLOT, slot.unwrap_or(0));
    match slot {
        Some(_) => Ok(()),
        None => Err(Refusal::NoSlot),
    }
}

// The name, if wanted, has a slot from then on, its own or one that it takes.
fn name_slot(job: &[u8], w: &mut [u32], p: &[usize], gaps: &mut [Gap]) -> Result<(), Refusal>
    requires { On p.now (length w.old) × CanName job.now p.now (store p.now w.old) gaps.old }
    ensures { PoolNamed job.now p.now (store p.now w.old) (store p.now w.new) gaps.old gaps.new (code_of result) }
{
    if !name_wanted(job, w, p) {
        return Ok(());
    }
    let own = attribute_slot(job, w, p);
    if own.is_some() {
        return keep_name(w, p, own);
    }
    let new = pool::take_slot(w, p, gaps, false, false).map(usize::from);
    keep_name(w, p, new)
}

// The name, if wanted, has a slot from then on, and the pool its count: `name_slot`, `count_from` of `layout_of`.
pub fn end_pool(
    job: &[u8],
    w: &mut [u32],
    p: &[usize],
    gaps: &mut [Gap],
    top: usize,
) -> Result<(), Refusal>
    requires { On p.now (length w.old) × CanEnd job.now p.now top (store p.now w.old) gaps.old }
    ensures { PoolEnded job.now p.now top (store p.now w.old) (store p.now w.new) gaps.old gaps.new (code_of result) }
{
    let named = name_slot(job, w, p, gaps);
    let count = load(w, p, COUNTS, GAP_COUNT);
    let n = slots::pool_count(&gaps[..count], top as u32);
    save(w, p, COUNTS, POOL_COUNT, n as usize);
    named
}

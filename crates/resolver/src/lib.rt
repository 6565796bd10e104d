// A stack of items turns the entries reached into nodes: `resolve` of Krakatau's sym_ref_resolver.rs.
#![tactic(auto)]

ghost use Rattle.std.specs.Prelude.{map, ◌≡◌, ◌⊎◌, suc, ◌+◌, ◌<◌, length, get_or};
ghost use Rattle.definition.specs.Resolving.{child_of};
ghost use Rattle.store.specs.Store.{size, store, On, IsWord};
ghost use Rattle.store.specs.JobIn.{entries_in};
ghost use Rattle.store.specs.Regions.{MARKS, NODE-HEADS, SIZES, STACK, Work};
ghost use Rattle.store.specs.Words.{LEAVE, REFUSED, mark_word, goal_word, IsGoal};
ghost use Rattle.refusal.specs.Numbers.{number, code_of};
ghost use Rattle.resolver.specs.Resolved.{Table, AtRest, Became, visits_owed, Resolves};
ghost use Rattle.resolver.specs.Moves.{Places, ToLeave, Written, Pushed, Enters, NodesHold, Running, Leaves, Steps};

use refusal::Refusal;
use store::{
    CHILDREN, COUNTS, DONE, ENTRY, FIRSTS, GOALS, LEAVE, MARKS, REFUSED, SIZES, STACK, UNDERWAY,
    VISITS, load, save,
};

// The node that an entry became.
pub fn node_of(w: &[u32], p: &[usize], e: usize) -> usize
    requires { On p.now (length w.now) × (e < size p.now MARKS) × (1 < get_or (store p.now w.now MARKS) e 0) }
    ensures { result + 2 ≡ get_or (store p.now w.now MARKS) e 0 }
{
    load(w, p, MARKS, e) - DONE
}

// The child that a goal became.
pub fn child_of(w: &[u32], p: &[usize], goal: usize) -> usize
    requires { On p.now (length w.now) × Became (store p.now w.now MARKS) goal }
    ensures { result ≡ child_of (map mark_word (store p.now w.now MARKS)) (goal_word goal) }
{
    if goal < ENTRY {
        goal
    } else {
        ENTRY + node_of(w, p, goal - ENTRY)
    }
}

// An entry's children, once all of its goals are done.
fn write_children(w: &mut [u32], p: &[usize], e: usize)
    requires { On p.now (length w.old) × Places p.now (store p.now w.old) e × ToLeave (store p.now w.old) e }
    ensures { Written (store p.now w.old) (store p.now w.new) e }
{
    let first = load(w, p, FIRSTS, e);
    let end = first + load(w, p, SIZES, e);
    for i in first..end {
        let child = child_of(w, p, load(w, p, GOALS, i));
        save(w, p, CHILDREN, i, child);
    }
}

// Puts an entry's leaving and its goals onto a stack of n items, the first goal on top; how many items it has then.
fn push_children(w: &mut [u32], p: &[usize], e: usize, n: usize) -> usize
    requires { On p.now (length w.old) × Places p.now (store p.now w.old) e × (n + get_or (store p.now w.old SIZES) e 0 < size p.now STACK) × IsWord (LEAVE + e) }
    ensures { Pushed (store p.now w.old) (store p.now w.new) e n result }
{
    let first = load(w, p, FIRSTS, e);
    let count = load(w, p, SIZES, e);
    for i in 0..count {
        let goal = load(w, p, GOALS, first + i);
        save(w, p, STACK, n + count - i, goal);
    }
    save(w, p, STACK, n, LEAVE + e);
    n + count + 1
}

// Enters an entry over n items; how many there are then, or 13.
fn enter(w: &mut [u32], p: &[usize], e: usize, n: usize) -> Result<usize, Refusal>
    requires { On p.now (length w.old) × Places p.now (store p.now w.old) e × (get_or (store p.now w.old MARKS) e 0 ≡ 0 → n + get_or (store p.now w.old SIZES) e 0 < size p.now STACK) × IsWord (LEAVE + e) }
    ensures { Enters (store p.now w.old) (store p.now w.new) e n result }
{
    let mark = load(w, p, MARKS, e);
    if UNDERWAY < mark {
        return Ok(n);
    }
    if mark == UNDERWAY {
        return Err(Refusal::Circular);
    }
    save(w, p, MARKS, e, UNDERWAY);
    Ok(push_children(w, p, e, n))
}

// Leaves an entry, which becomes a node.
fn leave(job: &[u8], w: &mut [u32], p: &[usize], e: usize)
    requires { On p.now (length w.old) × Work job.now p.now × Table job.now (store p.now w.old) × NodesHold (size p.now NODE-HEADS) job.now (store p.now w.old) × ToLeave (store p.now w.old) e × (e < entries_in job.now) }
    ensures { Leaves (size p.now NODE-HEADS) job.now (store p.now w.old) (store p.now w.new) e }
{
    write_children(w, p, e);
    let k = interner::intern(job, w, p, e);
    save(w, p, MARKS, e, DONE + k);
}

// The refusal that a goal's word tells of.
fn refusal_of(goal: usize) -> Refusal
    requires { (goal ≡ REFUSED + 12) ⊎ (goal ≡ REFUSED + 13) }
    ensures { goal ≡ REFUSED + number result }
{
    if goal == REFUSED + Refusal::NameUndefined as usize {
        Refusal::NameUndefined
    } else {
        Refusal::Circular
    }
}

// Takes item n, which is on top; how many there are then.
fn step(job: &[u8], w: &mut [u32], p: &[usize], n: usize) -> Result<usize, Refusal>
    requires { On p.now (length w.old) × Work job.now p.now × Table job.now (store p.now w.old) × Running (size p.now NODE-HEADS) job.now (store p.now w.old) (suc n) }
    ensures { Steps (size p.now NODE-HEADS) job.now (store p.now w.old) (store p.now w.new) n result }
{
    let item = load(w, p, STACK, n);
    if item < ENTRY {
        return Ok(n);
    }
    if item < LEAVE {
        return enter(w, p, item - ENTRY, n);
    }
    if REFUSED <= item {
        return Err(refusal_of(item));
    }
    leave(job, w, p, item - LEAVE);
    Ok(n)
}

// Takes items until none is left, or one is refused.
pub fn resolve(job: &[u8], w: &mut [u32], p: &[usize], goal: usize) -> Result<(), Refusal>
    requires { On p.now (length w.old) × Work job.now p.now × Table job.now (store p.now w.old) × AtRest (size p.now NODE-HEADS) job.now (store p.now w.old) × IsGoal (entries_in job.now) goal × IsWord (visits_owed job.now (store p.now w.old) + 1) }
    ensures { Resolves (size p.now NODE-HEADS) job.now (store p.now w.old) (store p.now w.new) goal (code_of result) }
{
    let mut visits = load(w, p, COUNTS, VISITS);
    let mut n = 1;
    save(w, p, STACK, 0, goal);
    while 0 < n {
        n = step(job, w, p, n - 1)?;
        visits += 1;
    }
    save(w, p, COUNTS, VISITS, visits);
    Ok(())
}

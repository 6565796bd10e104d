// The pool builder of document 01.
#![tactic(auto)]

ghost use Rattle.std.specs.Prelude.{Ok, Err, ◌&&◌, List, ◌≡◌, ℕ, ◌+◌, ◌*◌, ◌/◌, ◌≤◌, ◌<◌, leb, length};
ghost use Rattle.std.proofs.Math.Option.{Option};
ghost use Rattle.definition.specs.Basics.{good, bad};
ghost use Rattle.refusal.specs.Numbers.{number};
ghost use Rattle.definition.specs.Run.{Built as BuiltJob, longest_job};
ghost use Rattle.store.specs.Store.{store, size, On};
ghost use Rattle.store.specs.JobIn.{WellFormed, counts_in};
ghost use Rattle.store.specs.Regions.{COUNTS, PLACE, Work};
ghost use Rattle.definitions.specs.Defining.{place_count};
ghost use Rattle.output.specs.Rows.{RowsReady};
ghost use Rattle.output.specs.Names.{NameIs};
ghost use Rattle.builder.specs.Rendered.{Rendered};
ghost use Rattle.cpool.specs.Ran.{told, Ran, slices, listed, Told};
ghost use Rattle.cpool.specs.Stages.{lent, SameBuffers, room_of, fitted, onward, ClassTold, Tells, Gave};

use job::JobCounts;
use output::ClassName;
use refusal::{Refusal, Refused};
use slots::Gap;
use store::{ANSWERS, COUNTS, NAME_SLOT, PLACE, VISITS, load, size_of};

const LONGEST_JOB: usize = 1048576;

// How much of each output a run wrote, a mark for each answer, and its other numbers.
#[derive(Clone, Copy, Debug, PartialEq, Eq)]
pub struct Built {
    pub answers: usize,
    pub pool: usize,
    pub bootstrap_count: usize,
    pub bootstraps: usize,
    pub name: usize,
    pub class_name: Option<usize>,
    pub visits: usize,
}

// What is told of a class name: its length.
fn class_told(c: Option<ClassName>) -> Option<usize>
    ensures { (s : List ℕ) (o : Option (List ℕ)) → NameIs s c o → ClassTold o result }
{
    let name = c?;
    Some(output::class_length(Some(name)))
}

// A refusal met at the record in turn: `at_record`.
fn refused(w: &[u32], p: &[usize], refusal: Refusal) -> Refused
    requires { On p.now (length w.now) × (PLACE < size p.now COUNTS) }
    ensures { Tells (bad (record { code = number refusal; place = place_count (store p.now w.now) })) (Err result) }
{
    Refused {
        refusal,
        place: load(w, p, COUNTS, PLACE),
    }
}

// All that is told of a job whose outputs take so much: `render`.
fn built_of(w: &[u32], p: &[usize], pool: usize, rows: usize, class: Option<ClassName>) -> Built
    requires { On p.now (length w.now) × RowsReady p.now (store p.now w.now) }
    ensures { (s : List ℕ) (b : BuiltJob) → Rendered s p.now (store p.now w.now) b → pool ≡ length b.pool → rows ≡ length b.bootstraps → NameIs s class b.class → Tells (good b) (Ok result) }
{
    Built {
        answers: size_of(p, ANSWERS),
        pool,
        bootstrap_count: output::row_count(w, p),
        bootstraps: rows,
        name: load(w, p, COUNTS, NAME_SLOT),
        class_name: class_told(class),
        visits: load(w, p, COUNTS, VISITS),
    }
}

// The outputs that a run is lent.
#[derive(Drop)]
struct Outputs<'a> {
    answers: &'a mut [u16],
    marks: &'a mut [u8],
    pool: &'a mut [u8],
    bootstraps: &'a mut [u8],
    class_name: &'a mut [u8],
}

impl<'a> Outputs<'a> {
    // Every output has room for so much: `fits`.
    fn fits(&self, asked: usize, pool_size: usize, rows_size: usize, class_size: usize) -> bool
        ensures { result ≡ (leb asked (length self.now.answers.now) && (leb asked (length self.now.marks.now) && (leb pool_size (length self.now.pool.now) && (leb rows_size (length self.now.bootstraps.now) && leb class_size (length self.now.class_name.now))))) }
    {
        asked <= self.answers.len()
            && asked <= self.marks.len()
            && pool_size <= self.pool.len()
            && rows_size <= self.bootstraps.len()
            && class_size <= self.class_name.len()
    }
}

// Measures the outputs, 18, then writes them: `fits`, `render`.
fn give_out(job: &[u8], w: &[u32], p: &[usize], outputs: &mut Outputs) -> Result<Built, Refused>
    requires { On p.now (length w.now) × Work job.now p.now × ((b : BuiltJob) × Rendered job.now p.now (store p.now w.now) b) }
    ensures same_buffers { SameBuffers outputs.old outputs.new }
    ensures given { (b : BuiltJob) → Rendered job.now p.now (store p.now w.now) b → Gave (fitted (room_of (lent outputs.old)) (place_count (store p.now w.now)) b) (lent outputs.old) (lent outputs.new) result }
{
    let asked = size_of(p, ANSWERS);
    let pool_size = output::pool_length(job, w, p);
    let rows_size = output::rows_length(w, p);
    let class = output::class_name(job, w, p);
    let class_size = output::class_length(class);
    if !outputs.fits(asked, pool_size, rows_size, class_size) {
        return Err(refused(w, p, Refusal::OutputTooShort));
    }
    output::write_answers(outputs.answers, w, p);
    output::write_marks(outputs.marks, w, p);
    output::write_pool(outputs.pool, job, w, p);
    output::write_rows(outputs.bootstraps, w, p);
    output::write_class(outputs.class_name, job, class);
    Ok(built_of(w, p, pool_size, rows_size, class))
}

// A job that is well formed, with memory enough: the records in turn, then 18: `build`, `fits`.
fn build(
    job: &[u8],
    w: &mut [u32],
    gaps: &mut [Gap],
    c: JobCounts,
    outputs: &mut Outputs,
) -> Result<Built, Refused>
    requires { WellFormed job.now × (c ≡ counts_in job.now) × (6 * length job.now + 1024 ≤ length w.old) × (length job.now / 5 + 2 ≤ length gaps.old) }
    ensures same_buffers { SameBuffers outputs.old outputs.new }
    ensures given { Gave (onward (room_of (lent outputs.old)) job.now) (lent outputs.old) (lent outputs.new) result }
{
    let mut p = [0usize; 33];
    match builder::lay_out(job, w, &mut p, gaps, c) {
        Ok(()) => give_out(job, w, &p, outputs),
        Err(refusal) => Err(refused(w, &p, refusal)),
    }
}

// Form over the whole job, then the records in turn.
fn run_formed(
    job: &[u8],
    w: &mut [u32],
    gaps: &mut [Gap],
    outputs: &mut Outputs,
) -> Result<Built, Refused>
    requires { (length job.now ≤ longest_job) × (6 * length job.now + 1024 ≤ length w.old) × (length job.now / 5 + 2 ≤ length gaps.old) }
    ensures same_buffers { SameBuffers outputs.old outputs.new }
    ensures given { Gave (onward (room_of (lent outputs.old)) job.now) (lent outputs.old) (lent outputs.new) result }
{
    let c = job::form(job)?;
    build(job, w, gaps, c, outputs)
}

// The whole run: 1, 2, form, the records in turn, 18; then work and gaps are cleared: `run`, `memory_after`.
// What is lent are parameters one by one, as the clause `Ran` and the theorem `single` name them.
pub fn run(
    job: &[u8],
    work: &mut [u32],
    gaps: &mut [Gap],
    answers: &mut [u16],
    marks: &mut [u8],
    pool: &mut [u8],
    bootstraps: &mut [u8],
    class_name: &mut [u8],
) -> Result<Built, Refused>
    ensures { Ran job.now
        (slices work.old gaps.old answers.old marks.old pool.old bootstraps.old class_name.old)
        (slices work.new gaps.new answers.new marks.new pool.new bootstraps.new class_name.new) result }
{
    if LONGEST_JOB < job.len() {
        return Err(Refused {
            refusal: Refusal::JobTooLong,
            place: 0,
        });
    }
    if work.len() < 6 * job.len() + 1024 {
        return Err(Refused {
            refusal: Refusal::LentTooShort,
            place: 0,
        });
    }
    if gaps.len() < job.len() / 5 + 2 {
        return Err(Refused {
            refusal: Refusal::LentTooShort,
            place: 0,
        });
    }
    let mut outputs = Outputs {
        answers,
        marks,
        pool,
        bootstraps,
        class_name,
    };
    let outcome = run_formed(job, work, gaps, &mut outputs);
    writer::clear_words(work);
    slots::clear_gaps(gaps);
    outcome
}

// Writes an outcome's numbers, and returns the refusal's, 0 if there is none.
fn tell(outcome: Result<Built, Refused>, numbers: &mut [usize; 9]) -> u32
    ensures { (result ≡ (told outcome).code) × (numbers.new ≡ listed (told outcome)) }
{
    match outcome {
        Ok(b) => {
            let given = usize::from(b.class_name.is_some());
            let bytes = b.class_name.unwrap_or(0);
            *numbers = [
                0,
                b.answers,
                b.pool,
                b.bootstrap_count,
                b.bootstraps,
                b.name,
                given,
                bytes,
                b.visits,
            ];
            0
        }
        Err(r) => {
            *numbers = [r.place, 0, 0, 0, 0, 0, 0, 0, 0];
            u32::from(r.refusal)
        }
    }
}

// run for Rust and C: returns the refusal's number, 0 if the job is built, and writes the other numbers: the refusal's record, how many
// answers, each with its mark, and bytes of the pool, the number of bootstraps and how many bytes they take, the name's slot, whether there is a class name
// (1 or 0), its length, the visits.
#[unsafe(no_mangle)]
pub extern "C" fn cpool_run(
    job: &[u8],
    work: &mut [u32],
    gaps: &mut [Gap],
    answers: &mut [u16],
    marks: &mut [u8],
    pool: &mut [u8],
    bootstraps: &mut [u8],
    class_name: &mut [u8],
    numbers: &mut [usize; 9],
) -> u32
    ensures { Told job.now
        (slices work.old gaps.old answers.old marks.old pool.old bootstraps.old class_name.old)
        (slices work.new gaps.new answers.new marks.new pool.new bootstraps.new class_name.new) result numbers.new }
{
    let outcome = run(
        job, work, gaps, answers, marks, pool, bootstraps, class_name,
    );
    tell(outcome, numbers)
}

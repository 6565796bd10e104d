// The form of crate cpool that C calls: a static library's function, which calls the one of its name.
#![tactic(auto)]

ghost use Rattle.cpool.specs.Ran.{slices, Told};

use slots::Gap;

// run for C: returns the refusal's number, 0 if the job is built, and writes the other numbers: the refusal's record, how many
// answers, each with its mark, and bytes of the pool, the number of bootstraps and how many bytes they take, the name's slot, whether there is a class name
// (1 or 0), its length, the visits.
#[unsafe(no_mangle)]
pub extern "C" fn cpool_run(
    job: &[u8],
    work: &mut [u32],
    gaps: &mut [Gap],
    answers: &mut [u16],
    marks: &mut [u8],
    pool: &mut [u8],
    bootstraps: &mut [u8],
    class_name: &mut [u8],
    numbers: &mut [usize; 9],
) -> u32
    ensures { Told job.now
        (slices work.old gaps.old answers.old marks.old pool.old bootstraps.old class_name.old)
        (slices work.new gaps.new answers.new marks.new pool.new bootstraps.new class_name.new) result numbers.new }
{
    cpool::cpool_run(
        job, work, gaps, answers, marks, pool, bootstraps, class_name, numbers,
    )
}

// The builder: the records of a job in turn, to words that the outputs are read from.
#![tactic(auto)]

ghost use Rattle.std.specs.Prelude.{◌≡◌, ◌+◌, ◌*◌, ◌/◌, ◌≤◌, length};
ghost use Rattle.refusal.specs.Numbers.{code_of};
ghost use Rattle.store.specs.Store.{store};
ghost use Rattle.store.specs.JobIn.{WellFormed, counts_in};
ghost use Rattle.builder.specs.Rendered.{LaidOut};

use job::JobCounts;
use refusal::Refusal;
use slots::Gap;

// The records in turn, or a refusal, met at the record that the counter PLACE tells: `layout`.
pub fn lay_out(
    job: &[u8],
    w: &mut [u32],
    p: &mut [usize],
    gaps: &mut [Gap],
    c: JobCounts,
) -> Result<(), Refusal>
    requires { WellFormed job.now × (c ≡ counts_in job.now) × (length p.old ≡ 33) × (6 * length job.now + 1024 ≤ length w.old) × (length job.now / 5 + 2 ≤ length gaps.old) }
    ensures { LaidOut p.new (length w.new) job.now (store p.new w.new) (code_of result) }
{
    requests::ask(job, w, p, gaps, c, c.highest)?;
    building::build_all(job, w, p, gaps, c.version)?;
    ending::end_pool(job, w, p, gaps, c.highest)?;
    output::own_slots(w, p);
    Ok(())
}

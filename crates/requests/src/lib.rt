// A job up to its last request: the definitions, record 50, the pool's start, the requests.
#![tactic(auto)]

ghost use Rattle.std.specs.Prelude.{◌≡◌, ◌+◌, ◌*◌, ◌/◌, ◌≤◌, ◌<◌, length};
ghost use Rattle.refusal.specs.Numbers.{code_of};
ghost use Rattle.store.specs.Store.{store};
ghost use Rattle.store.specs.JobIn.{WellFormed, counts_in};
ghost use Rattle.requests.specs.Asked.{AskedAll};

use job::JobCounts;
use refusal::Refusal;
use slots::Gap;

// The records in turn up to the last request. A refusal is met at the record that the counter PLACE tells.
pub fn ask(
    job: &[u8],
    w: &mut [u32],
    p: &mut [usize],
    gaps: &mut [Gap],
    c: JobCounts,
    top: usize,
) -> Result<(), Refusal>
    requires { WellFormed job.now × (c ≡ counts_in job.now) × (length p.old ≡ 33) × (6 * length job.now + 1024 ≤ length w.old) × (length job.now / 5 + 2 ≤ length gaps.old) × (top < 65535) }
    ensures { AskedAll p.new (length w.new) top job.now (store p.new w.new) gaps.new (code_of result) }
{
    definitions::begin(job, w, p, c, top)?;
    pool::start_pool(w, p, gaps, top);
    pool::answer_all(job, w, p, gaps)
}

// What the program `poolrun` prints for a block file, written into a caller's buffer.
#![tactic(auto)]

mod page;

ghost use Rattle.std.specs.Prelude.{◌≡◌, ◌∷◌, ◌++◌, ◌+◌, ◌*◌, ◌≤◌, length, take, drop, Result};
ghost use Rattle.std.proofs.Math.Option.{none, some};
ghost use Rattle.io.specs.Counts.{IsPrefixLen};
ghost use Rattle.definition.specs.Ascii.{decimal};
ghost use Rattle.definition.specs.Blocks.{line, class_text, mark_text, answer_lines, printed, poolrun_lent, poolrun};
ghost use Rattle.definition.specs.Run.{run};
ghost use Rattle.refusal.specs.Numbers.{number};
ghost use Rattle.cpool.specs.Ran.{bytes_of};
ghost use Rattle.poolrun_text.specs.Page.{Behind, HasRoom, Prints};
ghost use Rattle.poolrun_text.specs.Text.{asked_text, pool_text, bootstraps_text, name_of, last_text};
ghost use Rattle.poolrun_text.specs.Text.{refused_text, built_text, Room, Fits, text_of, Lengths, ReadInto, read_text};

use cpool::Built;
use page::Page;
use refusal::{Refusal, Refused};
use slots::Gap;

// The longest file that is read.
const LONGEST_FILE: usize = 2560;

// Puts how an answer was come by.
fn put_mark(page: &mut Page, mark: u8)
    requires { HasRoom page.old 4 }
    ensures value { page.new.at ≡ page.old.at + 4 }
    ensures mark { Prints page.old page.new (mark_text mark) }
{
    match mark {
        0 => page.put_word(b" raw"),
        1 => page.put_word(b" new"),
        _ => page.put_word(b" old"),
    }
}

// Puts a line of an answer and its mark.
fn put_answer(page: &mut Page, answer: u16, mark: u8)
    requires { HasRoom page.old 25 }
    ensures upper_bound { page.new.at ≤ page.old.at + 25 }
    ensures line { Prints page.old page.new (line (decimal answer ++ mark_text mark)) }
{
    page.put_decimal(answer as usize);
    put_mark(page, mark);
    page.put(b'\n');
}

// Puts a line for each answer.
fn put_answers(page: &mut Page, answers: &[u16], marks: &[u8])
    requires { HasRoom page.old (25 * length answers.now) × (length marks.now ≡ length answers.now) }
    ensures upper_bound { page.new.at ≤ page.old.at + 25 * length answers.now }
    ensures lines { Prints page.old page.new (answer_lines answers.now marks.now) }
{
    for (answer, mark) in answers.iter().zip(marks) {
        put_answer(page, *answer, *mark);
    }
}

fn put_asked(page: &mut Page, answers: &[u16], marks: &[u8])
    requires { HasRoom page.old (25 * length answers.now + 29) × (length marks.now ≡ length answers.now) }
    ensures upper_bound { page.new.at ≤ page.old.at + 25 * length answers.now + 29 }
    ensures text { Prints page.old page.new (asked_text answers.now marks.now) }
{
    page.put_one(b"answers ", answers.len());
    put_answers(page, answers, marks);
}

fn put_pool(page: &mut Page, pool: &[u8])
    requires { HasRoom page.old (2 * length pool.now + 27) }
    ensures upper_bound { page.new.at ≤ page.old.at + 2 * length pool.now + 27 }
    ensures text { Prints page.old page.new (pool_text pool.now) }
{
    page.put_one(b"pool ", pool.len());
    page.put_bytes(pool);
}

fn put_bootstraps(page: &mut Page, count: usize, bootstraps: &[u8])
    requires { HasRoom page.old (2 * length bootstraps.now + 54) }
    ensures upper_bound { page.new.at ≤ page.old.at + 2 * length bootstraps.now + 54 }
    ensures text { Prints page.old page.new (bootstraps_text count bootstraps.now) }
{
    page.put_two(b"bootstraps ", count, bootstraps.len());
    page.put_bytes(bootstraps);
}

fn put_named(page: &mut Page, name: &[u8])
    requires { HasRoom page.old (2 * length name.now + 28) }
    ensures upper_bound { page.new.at ≤ page.old.at + 2 * length name.now + 28 }
    ensures text { Prints page.old page.new (class_text (some name.now)) }
{
    page.put_one(b"class ", name.len());
    page.put_bytes(name);
}

fn put_unnamed(page: &mut Page)
    requires { HasRoom page.old 11 }
    ensures value { page.new.at ≡ page.old.at + 11 }
    ensures text { Prints page.old page.new (class_text none) }
{
    page.put_word(b"class none\n");
}

// Puts the class name, which stands at the front of its output.
fn put_class(page: &mut Page, size: Option<usize>, name: &[u8])
    requires { (bytes_of size ≤ length name.now) × HasRoom page.old (2 * bytes_of size + 28) }
    ensures upper_bound { page.new.at ≤ page.old.at + 2 * bytes_of size + 28 }
    ensures text { Prints page.old page.new (class_text (name_of size name.now)) }
{
    match size {
        None => put_unnamed(page),
        Some(n) => put_named(page, &name[..n]),
    }
}

// Puts what follows the bootstraps.
fn put_last(page: &mut Page, built: Built, class_name: &[u8])
    requires { (bytes_of built.class_name ≤ length class_name.now) × HasRoom page.old (2 * bytes_of built.class_name + 82) }
    ensures upper_bound { page.new.at ≤ page.old.at + 2 * bytes_of built.class_name + 82 }
    ensures text { Prints page.old page.new (last_text built.name (name_of built.class_name class_name.now) built.visits) }
{
    page.put_one(b"name ", built.name);
    put_class(page, built.class_name, class_name);
    page.put_one(b"visits ", built.visits);
}

fn put_refusal(page: &mut Page, refused: Refused)
    requires { HasRoom page.old 50 }
    ensures { Prints page.old page.new (refused_text (number refused.refusal) refused.place) }
{
    let code = u32::from(refused.refusal) as usize;
    page.put_two(b"refused ", code, refused.place);
}

// Puts all that is built: of each output the first bytes.
fn put_built(
    page: &mut Page,
    built: Built,
    answers: &[u16],
    marks: &[u8],
    pool: &[u8],
    bootstraps: &[u8],
    class_name: &[u8],
)
    requires empty { page.old.at ≡ 0 }
    requires room { Room (length page.old.out.now) (length answers.now) (length marks.now) (length pool.now) (length bootstraps.now) (bytes_of built.class_name) (length class_name.now) }
    ensures { Prints page.old page.new (built_text answers.now marks.now pool.now built.bootstrap_count bootstraps.now built.name (name_of built.class_name class_name.now) built.visits) }
{
    put_asked(page, answers, marks);
    put_pool(page, pool);
    put_bootstraps(page, built.bootstrap_count, bootstraps);
    put_last(page, built, class_name);
}

// Puts how a run ended, with the outputs it wrote.
fn put_outcome(
    page: &mut Page,
    outcome: Result<Built, Refused>,
    answers: &[u16],
    marks: &[u8],
    pool: &[u8],
    bootstraps: &[u8],
    class_name: &[u8],
)
    requires empty { page.old.at ≡ 0 }
    requires room { Fits outcome (length page.old.out.now) (length answers.now) (length marks.now) (length pool.now) (length bootstraps.now) (length class_name.now) }
    ensures { Prints page.old page.new (text_of outcome answers.now marks.now pool.now bootstraps.now class_name.now) }
{
    match outcome {
        Ok(built) => put_built(
            page,
            built,
            &answers[..built.answers],
            &marks[..built.answers],
            &pool[..built.pool],
            &bootstraps[..built.bootstraps],
            class_name,
        ),
        Err(refused) => put_refusal(page, refused),
    }
}

// Runs a job over memory as `poolrun_lent` says: seven parameters as in cpool::run, whose clause `Ran` names each.
fn run_over(
    page: &mut Page,
    job: &[u8],
    work: &mut [u32],
    gaps: &mut [Gap],
    answers: &mut [u16],
    marks: &mut [u8],
    pool: &mut [u8],
    bootstraps: &mut [u8],
    class_name: &mut [u8],
)
    requires empty { page.old.at ≡ 0 }
    requires room { HasRoom page.old 1245184 }
    requires lengths { Lengths (length work.old) (length gaps.old) (length answers.old) (length marks.old) (length pool.old) (length bootstraps.old) (length class_name.old) }
    ensures { Prints page.old page.new (printed (run poolrun_lent job.now)) }
{
    let outcome = cpool::run(
        job, work, gaps, answers, marks, pool, bootstraps, class_name,
    );
    put_outcome(page, outcome, answers, marks, pool, bootstraps, class_name);
}

// Runs a job over memory of its own.
fn run_text(page: &mut Page, job: &[u8])
    requires empty { page.old.at ≡ 0 }
    requires room { HasRoom page.old 1245184 }
    ensures { Prints page.old page.new (printed (run poolrun_lent job.now)) }
{
    let mut work = [0u32; 16384];
    let mut gaps = [slots::no_gap(); 514];
    let mut answers = [0u16; 32768];
    let mut marks = [0u8; 65536];
    let mut pool = [0u8; 65536];
    let mut bootstraps = [0u8; 65536];
    let mut class_name = [0u8; 65536];
    run_over(
        page,
        job,
        &mut work,
        &mut gaps,
        &mut answers,
        &mut marks,
        &mut pool,
        &mut bootstraps,
        &mut class_name,
    )
}

// Runs the job that stands in the first bytes of `job`, or puts why a file wasn't read.
fn read_text(page: &mut Page, read: Result<usize, Refused>, job: &[u8])
    requires empty { page.old.at ≡ 0 }
    requires room { HasRoom page.old 1245184 }
    requires read_into { ReadInto read (length job.now) }
    ensures { Prints page.old page.new (read_text read job.now) }
{
    match read {
        Ok(n) => run_text(page, &job[..n]),
        Err(refused) => put_refusal(page, refused),
    }
}

// Reads a file that isn't too long, and runs its job.
fn file_text(page: &mut Page, file: &[u8])
    requires empty { page.old.at ≡ 0 }
    requires room { HasRoom page.old 1245184 }
    requires short { length file.now ≤ 2560 }
    ensures { Prints page.old page.new (poolrun file.now) }
{
    let mut job = [0u8; 2560];
    let read = blocks::read_blocks(file, &mut job);
    read_text(page, read, &job);
}

fn put_file(page: &mut Page, file: &[u8])
    requires empty { page.old.at ≡ 0 }
    requires room { HasRoom page.old 1245184 }
    ensures { Prints page.old page.new (poolrun file.now) }
{
    if LONGEST_FILE < file.len() {
        put_refusal(
            page,
            Refused {
                refusal: Refusal::JobTooLong,
                place: 0,
            },
        )
    } else {
        file_text(page, file)
    }
}

fn print(file: &[u8], out: &mut [u8]) -> usize
    requires { 1245184 ≤ length out.old }
    ensures { Behind out.old out.new 0 result (poolrun file.now) }
{
    let mut page = Page::new(out);
    put_file(&mut page, file);
    page.len()
}

// What `poolrun` prints for a file: the first bytes of out, as many as are returned. The bytes behind them stay as they were.
pub fn text(file: &[u8], out: &mut [u8; 1245184]) -> usize
    ensures prefix_len { IsPrefixLen result out.new }
    ensures value { result ≡ length (poolrun file.now) }
    ensures out_after { take result out.new ≡ poolrun file.now }
    ensures out_unchanged { drop result out.new ≡ drop result out.old }
{
    print(file, out)
}

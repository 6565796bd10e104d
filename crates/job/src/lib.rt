// The form pass (document 01, "A job"): goes over a job's records once, twice if there is a record 48, keeps nothing of them, and
// counts them. Behind it, readers of entries, references and names at stored places.
#![tactic(auto)]

ghost use Rattle.std.specs.Prelude.{◌≡◌, true, false, List, [], ◌∷◌, ℕ, ◌+◌, ◌-◌, ◌^◌, ◌<◌, ◌≤◌, ltb, length, get_or, take, drop};
ghost use Rattle.std.proofs.Math.Option.{some};
ghost use Rattle.definition.specs.Basics.{every, lookup};
ghost use Rattle.definition.specs.Bytes.{one, two, many};
ghost use Rattle.definition.specs.Expression.{read_expression};
ghost use Rattle.definition.specs.Shapes.{Kind, Entry, constant, text, byte, to, bootstrap_shape};
ghost use Rattle.definition.specs.Job.{Reference, define, short_name, reference_form, reference, bodies, of_name, of_raw, asks, read_request, read_build};
ghost use Rattle.definition.specs.Form.{Counts, nothing_yet, count_of, cites, kind_of, cites_request, form_definition, form_definitions, form_request, form_build, form_requests, form};
ghost use Rattle.raw_const.specs.Entries.{fields_of};
ghost use Rattle.refusal.specs.Numbers.{code_of, told_of};
ghost use Rattle.job.specs.Forms.{Skips, SkipsReference, SkipsEntry, SkipsDefinition, SkipsAfter, entry_body, body_of, table_of, is_plain, is_setting, Opens, room_for, NumberRoom, number_opened, once_fault, highest_fault, setting_fault, broken_at, broken_with, texts_hold, Bounded, NumberAt, bare, Next, Room, counted_as, counts_of, tables_in, Steps, tallied, defined_as, Within, place_of, formed_build, formed_requests, formed_of};
ghost use Rattle.job.specs.declared.Opening.TheVariants.{Expression};
ghost use Rattle.job.specs.Stored.{Found, Stands, WhatStands, ReferenceStands, WhatReference, EntryStands, WhatEntry, Spans, Tells, any_definition, is_worked, words_bytes, KidAt};

use folding::ExpressionError;
use raw_const::Shape;
use refusal::{Refusal, Refused};
use writer::BigEndian;

// How many entries each table takes.
const TABLE_SIZE: usize = 65536;

// What a job without record 49 has for its highest slot.
const HIGHEST_SLOT: usize = 65534;

// What a job without record 47 is held to: a version that has every kind of constant.
const NEWEST: usize = 55;

// What the form pass counts.
#[derive(Clone, Copy, Debug, PartialEq, Eq)]
pub struct JobCounts {
    // The records before 50.
    pub definitions: usize,
    pub constants: usize,
    pub bootstraps: usize,
    // The references in constants and bootstraps.
    pub references: usize,
    // Names of either kind.
    pub names: usize,
    pub raw_constants: usize,
    pub raw_bootstraps: usize,
    pub requests: usize,
    // The records 47, and the version that constants are held to: the newest without one.
    pub versions: usize,
    pub version: usize,
    // The records 48.
    pub texts: usize,
    // The highest slot: what a record 49 says, else the last that there is.
    pub highest: usize,
}

// What a definition's first byte opens.
#[derive(Clone, Copy)]
enum Opening {
    // A constant, or nothing that is known if the byte is no tag.
    Constant(Option<Shape>),
    Bootstrap,
    NamedConstant,
    NamedBootstrap,
    RawConstant,
    RawBootstrap,
    Version,
    Texts,
    Highest,
    // A constant worked out.
    Expression,
}

// A part of a record that was skipped: the place behind it, whether what it cites by number stands earlier, and how many references it adds
// to an entry.
// `cited` refuses nothing yet: a full table, 5, is told ahead of what isn't there, 4.
#[derive(Clone, Copy)]
struct Skipped {
    next: usize,
    cited: bool,
    references: usize,
}

// What the records so far lead to: the place behind them and the counts with them.
#[derive(Clone, Copy)]
struct Step {
    next: usize,
    counts: JobCounts,
}

#[tactic(auto, unfolding(crate::specs::Forms::body_of, crate::specs::Forms::table_of, definition::specs::Basics::lookup, definition::specs::Job::bodies, definition::specs::Shapes::shapes, definition::specs::Form::kind_of))]
fn opening_of(first: u8) -> Opening
    ensures { (body_of result ≡ lookup first bodies) × (table_of result ≡ kind_of first) }
{
    match first {
        0x40 => Opening::Bootstrap,
        0x41 => Opening::NamedConstant,
        0x42 => Opening::NamedBootstrap,
        0x43 => Opening::RawConstant,
        0x44 => Opening::RawBootstrap,
        0x47 => Opening::Version,
        0x48 => Opening::Texts,
        0x49 => Opening::Highest,
        0x46 => Opening::Expression,
        _ => Opening::Constant(raw_const::shape_of(first)),
    }
}

// What cites nothing ends here.
fn bare(next: usize) -> Skipped
    ensures { result ≡ bare next }
{
    Skipped {
        next,
        cited: true,
        references: 0,
    }
}

// A skip below finds None where the part is cut or has a byte that is none of its forms.

fn skip_bytes(job: &[u8], at: usize, n: usize) -> Option<Skipped>
    requires { at ≤ length job.now }
    ensures { Skips (many n one) (λ _. true) (λ _. 0) job.now at result }
{
    if n <= job.len() - at {
        Some(bare(at + n))
    } else {
        None
    }
}

// A name: one byte of length, then its bytes.
fn skip_name(job: &[u8], at: usize) -> Option<Skipped>
    requires { at ≤ length job.now }
    ensures { Skips short_name (λ _. true) (λ _. 0) job.now at result }
{
    if job.len() == at {
        return None;
    }
    skip_bytes(job, at + 1, job[at] as usize)
}

// The number in two bytes.
fn number_at(job: &[u8], at: usize) -> Option<usize>
    requires { at ≤ length job.now }
    ensures { NumberAt job.now at result }
{
    if job.len() - at < 2 {
        return None;
    }
    Some(u16::get(job, at) as usize)
}

fn skip_raw_slot(job: &[u8], at: usize) -> Option<Skipped>
    requires { at ≤ length job.now }
    ensures { Skips two (λ _. true) (λ _. 0) job.now at result }
{
    number_at(job, at)?;
    Some(bare(at + 2))
}

// A number of an entry or a request, of which there are so many yet.
fn skip_number(job: &[u8], at: usize, entries: usize) -> Option<Skipped>
    requires { at ≤ length job.now }
    ensures { Skips two (λ number. ltb number entries) (λ _. 0) job.now at result }
{
    let number = number_at(job, at)?;
    Some(Skipped {
        next: at + 2,
        cited: number < entries,
        references: 0,
    })
}

// What stands behind a reference's form byte; `entries` is how many entries its table has yet.
fn skip_form(job: &[u8], at: usize, form: u8, entries: usize) -> Option<Skipped>
    requires { at ≤ length job.now }
    ensures { (kind : Kind) (n : Counts) → count_of kind n ≡ entries → Skips (reference_form kind form) (cites n) (λ _. 0) job.now at result }
{
    match form {
        0 => skip_raw_slot(job, at),
        1 => skip_number(job, at, entries),
        2 => skip_name(job, at),
        _ => None,
    }
}

fn skip_reference(job: &[u8], at: usize, entries: usize) -> Option<Skipped>
    requires { at ≤ length job.now }
    ensures { SkipsReference entries job.now at result }
{
    if job.len() == at {
        return None;
    }
    let reference = skip_form(job, at + 1, job[at], entries)?;
    Some(Skipped {
        references: 1,
        ..reference
    })
}

// A text: two bytes of length, then its bytes.
fn skip_text(job: &[u8], at: usize) -> Option<Skipped>
    requires { at ≤ length job.now }
    ensures { (n : Counts) → SkipsEntry n (text ∷ []) job.now at result }
{
    let n = number_at(job, at)?;
    skip_bytes(job, at + 2, n)
}

// A method handle: its kind byte, then a reference.
fn skip_handle(job: &[u8], at: usize, entries: usize) -> Option<Skipped>
    requires { at ≤ length job.now }
    ensures { (n : Counts) → n.constants ≡ entries → SkipsEntry n (byte ∷ to constant ∷ []) job.now at result }
{
    if job.len() == at {
        return None;
    }
    skip_reference(job, at + 1, entries)
}

// Two references, each into a table that has so many entries yet.
fn skip_pair(job: &[u8], at: usize, entries: usize, second_entries: usize) -> Option<Skipped>
    requires { at ≤ length job.now }
    ensures { (k l : Kind) (n : Counts) → count_of k n ≡ entries → count_of l n ≡ second_entries → SkipsEntry n (to k ∷ to l ∷ []) job.now at result }
{
    let first = skip_reference(job, at, entries)?;
    let second = skip_reference(job, first.next, second_entries)?;
    Some(Skipped {
        next: second.next,
        cited: first.cited & second.cited,
        references: 2,
    })
}

// So many references to constants.
fn skip_references(job: &[u8], at: usize, n: usize, entries: usize) -> Option<Skipped>
    requires { at ≤ length job.now }
    ensures { (c : Counts) → c.constants ≡ entries → Skips (many n (reference constant)) (every (cites c)) length job.now at result }
{
    let mut next = at;
    let mut cited = true;
    for _ in 0..n {
        let reference = skip_reference(job, next, entries)?;
        next = reference.next;
        cited = cited & reference.cited;
    }
    Some(Skipped {
        next,
        cited,
        references: n,
    })
}

// A bootstrap: a handle's reference, two bytes of count, then as many references.
fn skip_bootstrap(job: &[u8], at: usize, entries: usize) -> Option<Skipped>
    requires { at ≤ length job.now }
    ensures { (n : Counts) → n.constants ≡ entries → SkipsEntry n bootstrap_shape job.now at result }
{
    let handle = skip_reference(job, at, entries)?;
    let n = number_at(job, handle.next)?;
    let arguments = skip_references(job, handle.next + 2, n, entries)?;
    Some(Skipped {
        next: arguments.next,
        cited: handle.cited & arguments.cited,
        references: arguments.references + 1,
    })
}

fn skip_constant(job: &[u8], at: usize, shape: Option<Shape>, counts: JobCounts) -> Option<Skipped>
    requires { at ≤ length job.now }
    ensures { SkipsAfter counts.constants counts.bootstraps (entry_body (fields_of shape)) job.now at result }
{
    match shape? {
        Shape::Text => skip_text(job, at),
        Shape::Bits(n) => skip_bytes(job, at, n as usize),
        Shape::One => skip_reference(job, at, counts.constants),
        Shape::Two => skip_pair(job, at, counts.constants, counts.constants),
        Shape::KindOne => skip_handle(job, at, counts.constants),
        Shape::Dynamic => skip_pair(job, at, counts.bootstraps, counts.constants),
    }
}

// A name, and the reference that it stands for.
fn skip_naming(job: &[u8], at: usize, entries: usize) -> Option<Skipped>
    requires { at ≤ length job.now }
    ensures { (kind : Kind) (n : Counts) → count_of kind n ≡ entries → SkipsDefinition n (some (of_name kind)) job.now at result }
{
    let name = skip_name(job, at)?;
    let reference = skip_reference(job, name.next, entries)?;
    Some(Skipped {
        references: 0,
        ..reference
    })
}

// A slot or an index, and the number of the entry that goes there.
fn skip_placing(job: &[u8], at: usize, entries: usize) -> Option<Skipped>
    requires { at ≤ length job.now }
    ensures { (kind : Kind) (n : Counts) → count_of kind n ≡ entries → SkipsDefinition n (some (of_raw kind)) job.now at result }
{
    number_at(job, at)?;
    skip_number(job, at + 2, entries)
}

// An expression; a byte that is neither leaf tag nor sign ends it and doesn't cut it.
fn skip_expression(job: &[u8], at: usize) -> Option<Skipped>
    requires { at ≤ length job.now }
    ensures { Skips read_expression (λ _. true) (λ _. 0) job.now at result }
{
    match folding::end_of(job, at) {
        Ok(next) => Some(bare(next)),
        Err(ExpressionError::BadByte(next)) => Some(bare(next)),
        Err(ExpressionError::Cut) => None,
    }
}

// A definition behind its first byte.
fn skip_definition(job: &[u8], at: usize, opening: Opening, counts: JobCounts) -> Option<Skipped>
    requires { at ≤ length job.now }
    ensures { SkipsAfter counts.constants counts.bootstraps (body_of opening) job.now at result }
{
    match opening {
        Opening::Constant(shape) => skip_constant(job, at, shape, counts),
        Opening::Bootstrap => skip_bootstrap(job, at, counts.constants),
        Opening::NamedConstant => skip_naming(job, at, counts.constants),
        Opening::NamedBootstrap => skip_naming(job, at, counts.bootstraps),
        Opening::RawConstant => skip_placing(job, at, counts.constants),
        Opening::RawBootstrap => skip_placing(job, at, counts.bootstraps),
        Opening::Version => skip_raw_slot(job, at),
        Opening::Texts => Some(bare(at)),
        Opening::Highest => skip_raw_slot(job, at),
        Opening::Expression => skip_expression(job, at),
    }
}

// The number of a setting that has one, behind its first byte; 0 for any other definition.
#[tactic(auto, unfolding(crate::specs::Forms::number_opened))]
fn setting_number(job: &[u8], at: usize, opening: Opening) -> usize
    requires { NumberRoom opening job.now at }
    ensures { result ≡ number_opened opening job.now at }
{
    match opening {
        Opening::Version => u16::get(job, at) as usize,
        Opening::Highest => u16::get(job, at) as usize,
        _ => 0,
    }
}

// A setting so opened, with this number, may stand behind these records: 3 if it mayn't (47 and 48 come once each, 49 is the first
// record), 26 if a highest slot is none.
#[tactic(auto, unfolding(crate::specs::Forms::setting_fault, refusal::specs::Numbers::code_of))]
fn may_stand(opening: Opening, number: usize, counts: JobCounts) -> Result<(), Refusal>
    ensures { code_of result ≡ setting_fault opening number counts }
{
    match opening {
        Opening::Version => once(counts.versions),
        Opening::Texts => once(counts.texts),
        Opening::Highest => first_alone(counts.definitions, number),
        _ => Ok(()),
    }
}

// 3 where there was one.
#[tactic(auto, unfolding(crate::specs::Forms::once_fault, refusal::specs::Numbers::code_of, refusal::specs::Numbers::number))]
fn once(earlier: usize) -> Result<(), Refusal>
    ensures { code_of result ≡ once_fault earlier }
{
    if earlier == 0 {
        Ok(())
    } else {
        Err(Refusal::Malformed)
    }
}

// 49 behind so many records, with this number: 3, then 26.
fn first_alone(records: usize, number: usize) -> Result<(), Refusal>
    ensures { code_of result ≡ highest_fault records number }
{
    if records != 0 {
        return Err(Refusal::Malformed);
    }
    if (1 <= number) & (number <= HIGHEST_SLOT) {
        Ok(())
    } else {
        Err(Refusal::BadHighestSlot)
    }
}

// The table that a definition so opened goes into isn't full.
#[tactic(auto, unfolding(crate::specs::Forms::room_for))]
fn has_room(opening: Opening, counts: JobCounts) -> bool
    ensures { result ≡ room_for opening counts.constants counts.bootstraps }
{
    match opening {
        Opening::Constant(_) => counts.constants < TABLE_SIZE,
        Opening::Bootstrap => counts.bootstraps < TABLE_SIZE,
        Opening::Expression => counts.constants < TABLE_SIZE,
        _ => true,
    }
}

// The definition from one place to another is a text that isn't one.
#[tactic(auto, unfolding(crate::specs::Forms::broken_at))]
fn is_broken(job: &[u8], at: usize, next: usize) -> bool
    requires { (at < length job.now) × (next ≤ length job.now) × (get_or job.now at 0 ≡ 1 → at + 3 ≤ next) }
    ensures { result ≡ broken_at job.now at next }
{
    if job[at] == 1 {
        !texts::is_text(&job[at + 3..next])
    } else {
        false
    }
}

// The record of the first text that isn't one, with this record, which is one or not; `earlier` without it.
#[tactic(auto, unfolding(crate::specs::Forms::broken_with))]
fn first_broken(earlier: Option<usize>, place: usize, broken: bool) -> Option<usize>
    ensures { result ≡ broken_with place broken earlier }
{
    match earlier {
        None if broken => Some(place),
        _ => earlier,
    }
}

// The counts with a definition so opened, which has so many references, and this number if it is a setting.
#[tactic(auto, unfolding(crate::specs::Forms::counted_as))]
fn counted(counts: JobCounts, opening: Opening, references: usize, number: usize) -> JobCounts
    requires { Room counts references }
    ensures { result ≡ counted_as opening references number counts }
{
    let mut c = counts;
    c.definitions += 1;
    c.references += references;
    match opening {
        Opening::Constant(_) | Opening::Expression => c.constants += 1,
        Opening::Bootstrap => c.bootstraps += 1,
        Opening::NamedConstant | Opening::NamedBootstrap => c.names += 1,
        Opening::RawConstant => c.raw_constants += 1,
        Opening::RawBootstrap => c.raw_bootstraps += 1,
        Opening::Version => {
            c.versions += 1;
            c.version = number;
        }
        Opening::Texts => c.texts += 1,
        Opening::Highest => c.highest = number,
    }
    c
}

// 25 at a text that isn't one, where a record 48 stands.
#[tactic(auto, unfolding(crate::specs::Forms::texts_hold, refusal::specs::Numbers::told_of, refusal::specs::Numbers::number, definition::specs::Basics::at_record, definition::specs::Basics::unless))]
fn texts_hold(texts: usize, broken: Option<usize>) -> Result<(), Refused>
    ensures { told_of result ≡ texts_hold texts broken }
{
    match broken {
        Some(place) if texts != 0 => Err(Refused {
            refusal: Refusal::NotText,
            place,
        }),
        _ => Ok(()),
    }
}

// Neither a setting nor an expression is opened.
#[tactic(auto, unfolding(crate::specs::Forms::is_plain))]
fn is_plain(opening: Opening) -> bool
    ensures { result ≡ is_plain opening }
{
    match opening {
        Opening::Version => false,
        Opening::Texts => false,
        Opening::Highest => false,
        Opening::Expression => false,
        _ => true,
    }
}

// A definition so opened that is neither setting nor expression: 3 if it is cut or unknown, then 5 if its table is full, then 4 if it cites what isn't there.
fn form_entry(job: &[u8], at: usize, opening: Opening, counts: JobCounts) -> Result<Step, Refusal>
    requires { (at < length job.now) × Bounded at counts × Opens job.now at opening × (is_plain opening ≡ true) }
    ensures { Steps (form_definition (tables_in counts)) (λ d. d ∷ []) 0 job.now at counts result }
{
    let entry = skip_definition(job, at + 1, opening, counts).ok_or(Refusal::Malformed)?;
    if !has_room(opening, counts) {
        return Err(Refusal::TableFull);
    }
    if !entry.cited {
        return Err(Refusal::NotThere);
    }
    Ok(Step {
        next: entry.next,
        counts: counted(counts, opening, entry.references, 0),
    })
}

// A setting so opened: 3 if it is cut, then 3 or 26 if it mayn't stand there.
fn form_setting(job: &[u8], at: usize, opening: Opening, counts: JobCounts) -> Result<Step, Refusal>
    requires { (at < length job.now) × Bounded at counts × Opens job.now at opening × (is_setting opening ≡ true) }
    ensures { Steps (form_definition (tables_in counts)) (λ d. d ∷ []) 0 job.now at counts result }
{
    let setting = skip_definition(job, at + 1, opening, counts).ok_or(Refusal::Malformed)?;
    let number = setting_number(job, at + 1, opening);
    may_stand(opening, number, counts)?;
    Ok(Step {
        next: setting.next,
        counts: counted(counts, opening, setting.references, number),
    })
}

// A 46: 3 if it is cut, then 5 if the constants are full, then 22 or 23 if it comes to none. It cites nothing.
fn form_worked(job: &[u8], at: usize, counts: JobCounts) -> Result<Step, Refusal>
    requires { (at < length job.now) × Bounded at counts × Opens job.now at Expression }
    ensures { Steps (form_definition (tables_in counts)) (λ d. d ∷ []) 0 job.now at counts result }
{
    let expression = skip_definition(job, at + 1, Opening::Expression, counts).ok_or(
        Refusal::Malformed,
    )?;
    if !has_room(Opening::Expression, counts) {
        return Err(Refusal::TableFull);
    }
    folding::constant_at(job, at + 1)?;
    Ok(Step {
        next: expression.next,
        counts: counted(counts, Opening::Expression, expression.references, 0),
    })
}

// One definition: most jobs have neither setting nor expression, so that what only those need stands apart.
fn form_definition(job: &[u8], at: usize, counts: JobCounts) -> Result<Step, Refusal>
    requires { (at < length job.now) × Bounded at counts }
    ensures { Steps (form_definition (tables_in counts)) (λ d. d ∷ []) 0 job.now at counts result }
{
    let opening = opening_of(job[at]);
    if is_plain(opening) {
        return form_entry(job, at, opening, counts);
    }
    match opening {
        Opening::Expression => form_worked(job, at, counts),
        _ => form_setting(job, at, opening, counts),
    }
}

#[tactic(auto, unfolding(crate::specs::Forms::counts_of, crate::specs::Forms::references_in, crate::specs::Forms::version_from, definition::specs::Numbering::constants_of, definition::specs::Numbering::bootstraps_of, definition::specs::Numbering::entries, definition::specs::Numbering::settings, definition::specs::Basics::only, definition::specs::Settings::highest_of))]
fn nothing_yet() -> JobCounts
    ensures { result ≡ counts_of [] 0 }
{
    JobCounts {
        definitions: 0,
        constants: 0,
        bootstraps: 0,
        references: 0,
        names: 0,
        raw_constants: 0,
        raw_bootstraps: 0,
        requests: 0,
        versions: 0,
        version: NEWEST,
        texts: 0,
        highest: HIGHEST_SLOT,
    }
}

// The definition behind what was read so far, or None where 50 stands there.
fn next_definition(job: &[u8], so_far: Step) -> Result<Option<Step>, Refused>
    requires { (so_far.next ≤ length job.now) × Bounded so_far.next so_far.counts }
    ensures { Next job.now so_far.next so_far.counts result }
{
    let place = so_far.counts.definitions;
    if job.len() == so_far.next {
        return Err(Refused {
            refusal: Refusal::Malformed,
            place,
        });
    }
    if job[so_far.next] == 0x50 {
        return Ok(None);
    }
    let step = form_definition(job, so_far.next, so_far.counts).map_err(|refusal| Refused {
        refusal,
        place,
    })?;
    Ok(Some(step))
}

// The definitions and 50 of a job with a record 48; 25 as soon as it and a text that isn't one stand, at that text.
fn form_held(job: &[u8]) -> Result<Step, Refused>
    ensures job_value { tallied (counts_of [] 0) (form_definitions (length job.now) nothing_yet 0 job.now) ≡ defined_as job.now result }
    ensures within { Within job.now result }
{
    let mut so_far = Step {
        next: 0,
        counts: nothing_yet(),
    };
    let mut broken = None;
    while let Some(step) = next_definition(job, so_far)? {
        let here = is_broken(job, so_far.next, step.next);
        broken = first_broken(broken, so_far.counts.definitions, here);
        texts_hold(step.counts.texts, broken)?;
        so_far = step;
    }
    Ok(Step {
        next: so_far.next + 1,
        counts: so_far.counts,
    })
}

// The definitions and 50. No text is tested before a record 48 stands: then the job is read from its start again.
fn form_definitions(job: &[u8]) -> Result<Step, Refused>
    ensures job_value { tallied (counts_of [] 0) (form_definitions (length job.now) nothing_yet 0 job.now) ≡ defined_as job.now result }
    ensures within { Within job.now result }
{
    let mut so_far = Step {
        next: 0,
        counts: nothing_yet(),
    };
    while let Some(step) = next_definition(job, so_far)? {
        if step.counts.texts != 0 {
            return form_held(job);
        }
        so_far = step;
    }
    Ok(Step {
        next: so_far.next + 1,
        counts: so_far.counts,
    })
}

// A request behind its first byte.
fn skip_request(job: &[u8], at: usize, first: u8, constants: usize) -> Option<Skipped>
    requires { at ≤ length job.now }
    ensures { (n : Counts) → n.constants ≡ constants → Skips (read_request (lookup first asks)) (λ q. cites n q.what) (λ _. 1) job.now at result }
{
    match first {
        0x51 | 0x52 => skip_reference(job, at, constants),
        _ => None,
    }
}

// One request: 3 if it is cut or unknown, then 4 if it cites what isn't there.
fn form_request(job: &[u8], at: usize, counts: JobCounts) -> Result<Step, Refusal>
    requires { (at < length job.now) × Bounded at counts }
    ensures { Steps (form_request (tables_in counts)) (λ _. []) 1 job.now at counts result }
{
    let request = skip_request(job, at + 1, job[at], counts.constants).ok_or(Refusal::Malformed)?;
    if !request.cited {
        return Err(Refusal::NotThere);
    }
    let mut c = counts;
    c.requests += 1;
    Ok(Step {
        next: request.next,
        counts: c,
    })
}

// 60 behind its first byte, after so many requests.
fn skip_build(job: &[u8], at: usize, requests: usize) -> Option<Skipped>
    requires { at ≤ length job.now }
    ensures { Skips read_build (λ b. cites_request requests b.class) (λ _. 0) job.now at result }
{
    if job.len() - at < 2 {
        return None;
    }
    if 2 < job[at] {
        return None;
    }
    match job[at + 1] {
        0 => skip_raw_slot(job, at + 2),
        1 => skip_number(job, at + 2, requests),
        _ => None,
    }
}

// The number of the record in turn, after the definitions, 50 and the requests so far.
fn place_of(counts: JobCounts) -> usize
    requires { counts.definitions + counts.requests + 1 < 2 ^ 64 }
    ensures { result ≡ place_of counts }
{
    counts.definitions + counts.requests + 1
}

// 60, and nothing behind it: 3 or 4 at its own record, then 3 at the next.
fn form_build(job: &[u8], at: usize, counts: JobCounts) -> Result<JobCounts, Refused>
    requires { (at ≤ length job.now) × Bounded at counts }
    ensures { told_of result ≡ formed_build counts (form_build counts.requests (place_of counts) (drop at job.now)) }
{
    let place = place_of(counts);
    let build = skip_build(job, at, counts.requests).ok_or(Refused {
        refusal: Refusal::Malformed,
        place,
    })?;
    if !build.cited {
        return Err(Refused {
            refusal: Refusal::NotThere,
            place,
        });
    }
    if build.next < job.len() {
        return Err(Refused {
            refusal: Refusal::Malformed,
            place: place + 1,
        });
    }
    Ok(counts)
}

// The requests and 60, from a place on.
fn form_requests(job: &[u8], start: usize, defined: JobCounts) -> Result<JobCounts, Refused>
    requires { (start ≤ length job.now) × Bounded start defined }
    ensures { told_of result ≡ formed_requests defined (form_requests (length job.now - defined.requests) (tables_in defined) defined.requests (place_of defined) (drop start job.now)) }
{
    let mut at = start;
    let mut counts = defined;
    while at < job.len() {
        if job[at] == 0x60 {
            return form_build(job, at + 1, counts);
        }
        let place = place_of(counts);
        let step = form_request(job, at, counts).map_err(|refusal| Refused { refusal, place })?;
        at = step.next;
        counts = step.counts;
    }
    Err(Refused {
        refusal: Refusal::Malformed,
        place: place_of(counts),
    })
}

// The form pass over a whole job: refusal 3, 26, 5, 25, 4, 22 or 23 at a record, or what the job counts.
pub fn form(job: &[u8]) -> Result<JobCounts, Refused>
    ensures { told_of result ≡ formed_of (form job.now) }
{
    let defined = form_definitions(job)?;
    form_requests(job, defined.next, defined.counts)
}

// From one place of the job to another.
#[derive(Clone, Copy, Debug, PartialEq, Eq)]
pub struct Stretch {
    pub start: usize,
    pub end: usize,
}

// Krakatau's `RefType`: a raw number, the number of an entry of its table, or where a name stands.
#[derive(Clone, Copy, Debug, PartialEq, Eq)]
pub enum RefType {
    Raw(u16),
    Index(u16),
    Sym(Stretch),
}

// What follows reads at stored places, where the form pass has found a record or a part of one: it tests nothing again. The tag of an
// entry that stands has a shape.

// The name at a place.
pub fn name_at(job: &[u8], at: usize) -> Stretch
    requires { Stands short_name job.now at }
    ensures { WhatStands short_name job.now at (λ l next. Spans job.now result l × (result.end ≡ next)) }
{
    let start = at + 1;
    Stretch {
        start,
        end: start + job[at] as usize,
    }
}

// The reference at a place.
pub fn reference_at(job: &[u8], at: usize) -> RefType
    requires { ReferenceStands job.now at }
    ensures { WhatReference job.now at (λ kind a next. Tells job.now kind a result) }
{
    match job[at] {
        0 => RefType::Raw(u16::get(job, at + 1)),
        1 => RefType::Index(u16::get(job, at + 1)),
        _ => RefType::Sym(name_at(job, at + 1)),
    }
}

// The place behind the reference at a place.
pub fn after_reference(job: &[u8], at: usize) -> usize
    requires { ReferenceStands job.now at }
    ensures { WhatReference job.now at (λ kind a next. result ≡ next) }
{
    match job[at] {
        2 => name_at(job, at + 1).end,
        _ => at + 3,
    }
}

// The tag of the entry at a place, 40 hex for a bootstrap.
pub fn tag_at(job: &[u8], at: usize) -> u8
    requires { EntryStands job.now at }
    ensures { WhatEntry job.now at (λ e. result ≡ e.tag) }
{
    let first = job[at];
    if first == 0x46 {
        folding::tag_at(job, at + 1)
    } else {
        first
    }
}

// The entry at a place is a constant worked out: its literal doesn't stand in the job.
pub fn is_worked(job: &[u8], at: usize) -> bool
    requires { at < length job.now }
    ensures { result ≡ is_worked job.now at }
{
    job[at] == 0x46
}

// The bits of a constant worked out: in `low`, or the upper half in `high` if it is wide.
#[derive(Clone, Copy, Debug, PartialEq, Eq)]
pub struct Worked {
    pub high: u32,
    pub low: u32,
}

// What the entry at a place was worked out to. It came out in the form pass.
pub fn worked_at(job: &[u8], at: usize) -> Worked
    requires { EntryStands job.now at × (is_worked job.now at ≡ true) }
    ensures { WhatEntry job.now at (λ e. words_bytes e.tag result.high result.low ≡ e.literal) }
{
    match folding::constant_at(job, at + 1) {
        Ok(constant) => Worked {
            high: (constant.bits / 0x1_0000_0000) as u32,
            low: (constant.bits % 0x1_0000_0000) as u32,
        },
        Err(_) => Worked { high: 0, low: 0 },
    }
}

// The place behind the entry at a place, which was worked out.
pub fn after_worked(job: &[u8], at: usize) -> usize
    requires { EntryStands job.now at × (is_worked job.now at ≡ true) }
    ensures { WhatStands any_definition job.now at (λ d next. result ≡ next) }
{
    match folding::end_of(job, at + 1) {
        Ok(next) => next,
        Err(ExpressionError::BadByte(next)) => next,
        Err(ExpressionError::Cut) => at,
    }
}

// The literal of the entry at a place, which was not worked out: no bytes if it has none.
pub fn literal_at(job: &[u8], at: usize) -> Stretch
    requires { EntryStands job.now at × (is_worked job.now at ≡ false) }
    ensures { WhatEntry job.now at (λ e. Spans job.now result e.literal) }
{
    let Opening::Constant(shape) = opening_of(tag_at(job, at)) else {
        return Stretch { start: at, end: at };
    };
    match shape.unwrap() {
        Shape::Text => {
            let start = at + 3;
            let n = u16::get(job, at + 1) as usize;
            Stretch {
                start,
                end: start + n,
            }
        }
        Shape::Bits(n) => Stretch {
            start: at + 1,
            end: at + 1 + n as usize,
        },
        _ => Stretch { start: at, end: at },
    }
}

// The kind byte of the entry at a place, 0 if it has none.
pub fn kind_byte(job: &[u8], at: usize) -> u8
    requires { EntryStands job.now at }
    ensures { WhatEntry job.now at (λ e. result ≡ e.byte) }
{
    let Opening::Constant(shape) = opening_of(tag_at(job, at)) else {
        return 0;
    };
    match shape.unwrap() {
        Shape::KindOne => job[at + 1],
        _ => 0,
    }
}

// How many references the entry at a place has.
pub fn reference_count(job: &[u8], at: usize) -> usize
    requires { EntryStands job.now at }
    ensures { WhatEntry job.now at (λ e. result ≡ length e.kids) }
{
    let Opening::Constant(shape) = opening_of(tag_at(job, at)) else {
        let behind = after_reference(job, at + 1);
        return u16::get(job, behind) as usize + 1;
    };
    match shape.unwrap() {
        Shape::Text => 0,
        Shape::Bits(_) => 0,
        Shape::One => 1,
        Shape::Two => 2,
        Shape::KindOne => 1,
        Shape::Dynamic => 2,
    }
}

// Where reference 0 of the entry at a place stands, if it has one.
pub fn first_reference(job: &[u8], at: usize) -> usize
    requires { EntryStands job.now at }
    ensures { WhatEntry job.now at (λ e. 0 < length e.kids → KidAt job.now e 0 result) }
{
    let Opening::Constant(shape) = opening_of(tag_at(job, at)) else {
        return at + 1;
    };
    match shape.unwrap() {
        Shape::KindOne => at + 2,
        _ => at + 1,
    }
}

// Where reference i + 1 of the entry at a place stands, if reference i stands at `from`; a bootstrap's count stands behind its first.
pub fn next_reference(job: &[u8], at: usize, i: usize, from: usize) -> usize
    requires { (e : Entry (List ℕ) Reference) × (next : ℕ) × Found any_definition job.now at (define e) next × KidAt job.now e i from × (i + 1 < length e.kids) }
    ensures { WhatEntry job.now at (λ e. KidAt job.now e i from → i + 1 < length e.kids → KidAt job.now e (i + 1) result) }
{
    let behind = after_reference(job, from);
    if (tag_at(job, at) == 0x40) & (i == 0) {
        behind + 2
    } else {
        behind
    }
}

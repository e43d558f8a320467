// Reading a sheet for its plans: the job that it describes without the steps that are skipped. Neither engine ever sees a skipped step.
#![tactic(auto)]

ghost use Rattle.std.specs.Prelude.{map, ◌≡◌, ◌≤◌, eqb, length, get_or};
ghost use Rattle.sheet.specs.Answer.{table};
ghost use Rattle.remaining.specs.Arrays.{Keeps, OfSteps};
ghost use Rattle.remaining.specs.Kept.{kept_below, gather};
ghost use Rattle.remaining.specs.Remaining.{job_over, remaining_of};

use bits::sizes::{MOST_CHAIN, MOST_STEPS};
use card::refusal::Refusal;
use sheet::{SheetJob, read_sheet};

// The steps that remain, along the whole chain. An array with its count beside it, since nothing is allocated; it is handed on as a slice.
#[derive(Drop)]
struct Kept {
    step: [u8; MOST_STEPS],
    count: usize,
}

// The mark of a step that is skipped.
const SKIPPED: u8 = 1;

// Those of the first `steps` steps that are not skipped.
fn kept_steps(skipped: &[u8; MOST_CHAIN], steps: usize) -> Kept
    requires { (length skipped.now ≡ 64) × (steps ≤ 12) }
    ensures { Keeps (kept_below (λ t. eqb (get_or skipped.now t 0) 1) steps) result.step result.count }
{
    let mut step = [0u8; MOST_STEPS];
    let mut count = 0;
    for s in 0..steps {
        if skipped[s] != SKIPPED {
            step[count] = s as u8;
            count += 1;
        }
    }
    Kept { step, count }
}

// The tags of the steps that remain.
fn tags_left(tags: &[u32; MOST_STEPS], kept: &[u8]) -> [u32; MOST_STEPS]
    requires { (length tags.now ≡ 12) × OfSteps kept.now }
    ensures { result ≡ table 12 (λ t. get_or tags.now t 0) kept.now }
{
    let mut left = [0u32; MOST_STEPS];
    for (k, &s) in kept.iter().enumerate() {
        left[k] = tags[s as usize];
    }
    left
}

// The bits of a set of steps at those that remain, one after the other.
fn gathered(set: u16, kept: &[u8]) -> u16
    requires { OfSteps kept.now }
    ensures { result ≡ gather kept.now set }
{
    if set == 0 {
        return 0;
    }
    let mut left: u16 = 0;
    for &s in kept.iter().rev() {
        left = left * 2 + (set >> s as usize) % 2;
    }
    left
}

// Those of each of several sets.
fn sets_left(sets: &[u16; MOST_CHAIN], kept: &[u8]) -> [u16; MOST_CHAIN]
    requires { (length sets.now ≡ 64) × OfSteps kept.now }
    ensures { result ≡ map (gather kept.now) sets.now }
{
    let mut left = [0u16; MOST_CHAIN];
    for (i, &set) in sets.iter().enumerate() {
        left[i] = gathered(set, kept);
    }
    left
}

// The job over the steps that remain.
fn job_over(job: SheetJob, kept: &[u8]) -> SheetJob
    requires { (length job.step_tag ≡ 12) × (length job.permitted ≡ 64) × (length job.rule_scope ≡ 64) × OfSteps kept.now }
    ensures { result ≡ job_over kept.now job }
{
    SheetJob {
        people: job.people,
        steps: kept.len(),
        rules: job.rules,
        levels: job.levels,
        person_tag: job.person_tag,
        step_tag: tags_left(&job.step_tag, kept),
        skipped: [0; MOST_CHAIN],
        class: job.class,
        permitted: sets_left(&job.permitted, kept),
        rule_scope: sets_left(&job.rule_scope, kept),
        rule_kind: job.rule_kind,
        rule_level: job.rule_level,
        rule_limit: job.rule_limit,
    }
}

// Reads a sheet: any bytes at all. The steps counted and the arrays are those of the steps that remain.
pub fn read_job(sheet: &[u8]) -> Result<SheetJob, Refusal>
    ensures { result ≡ remaining_of sheet.now }
{
    let job = read_sheet(sheet)?;
    let kept = kept_steps(&job.skipped, job.steps);
    let count = kept.count;
    // Mostly no step is skipped.
    if count == job.steps {
        return Ok(job);
    }
    Ok(job_over(job, &kept.step[..count]))
}

// The engine that tries every plan: the first plan, is it valid, the next plan. Its working can be followed on paper; its time grows as
// the number of people to the power of the number of steps.
#![tactic(auto)]

ghost use Rattle.std.specs.Prelude.{◌≡◌, ◌+◌};
ghost use Rattle.sheet.specs.Readable.{ReadableJob};
ghost use Rattle.instance.specs.Instance.{instance_of, may_of};
ghost use Rattle.answer.specs.Crew.{crew_answer, StaffedIn};
ghost use Rattle.answer.specs.Number.{number_of};
ghost use Rattle.exhaustive.specs.Trial.{TriedEvery, word_count};

use answer::crew::answer_crew;
use bits::sizes::{MOST_STEPS, Plan};
use card::refusal::{Fault, Refusal};
use plans::next_plan;
use remaining::read_job;
use sheet::SheetJob;
use valid::is_valid;

pub mod plans;
pub mod valid;

// The greatest number of plans that is counted. No run gets there.
const MOST_COUNTED: u64 = 0xffff_ffff_ffff_ffff;

// What trying every plan has led to: the first valid plan, a person for each step, where there is one; and how many plans were tried.
#[derive(Drop)]
pub struct Trial {
    pub plan: Option<Plan>,
    pub tried: u64,
}

// One more plan tried.
fn one_more(tried: u64) -> u64
    ensures { result ≡ word_count (tried + 1) }
{
    if tried == MOST_COUNTED {
        return tried;
    }
    tried + 1
}

// Tries every plan in plan order, up to the first valid one.
pub fn try_every(job: &SheetJob) -> Trial
    requires { ReadableJob job.now.people job.now.steps job.now.rules job.now }
    ensures { TriedEvery (instance_of job.now.people job.now.steps job.now.rules job.now) (may_of job.now) result.plan result.tried
        × StaffedIn job.now.steps result.plan }
{
    // The first plan gives every step to the first person.
    let mut plan = [0u8; MOST_STEPS];
    let mut tried = 1;
    // Up to 64^12 plans, more than a word counts, each made from the one before: there is no range to go over.
    while !is_valid(job, &plan) {
        if !next_plan(&mut plan, job.steps, job.people) {
            return Trial { plan: None, tried };
        }
        tried = one_more(tried);
    }
    Trial {
        plan: Some(plan),
        tried,
    }
}

// The crew call, by trying every plan. Every byte of the buffer and the number of the answer are what `crew_answer` gives.
pub fn crew_by_trial(sheet: &[u8], buffer: &mut [u8]) -> Result<(), Refusal>
    ensures { (number_of result ≡ (crew_answer sheet.now buffer.old).number) × (buffer.new ≡ (crew_answer sheet.now buffer.old).bytes) }
{
    let job = read_job(sheet)?;
    if buffer.len() < 8 * job.steps {
        return Err(Fault::Short.on(0));
    }
    let trial = try_every(&job);
    answer_crew(&job, trial.plan, buffer)
}

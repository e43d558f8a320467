// The C interface: three calls over the sheet and the buffer that the caller lends, and three over a job in the caller's memory.
// specs/Promise.antt states all that is promised.
#![tactic(auto)]

ghost use Rattle.fulmarinvar.specs.Promise.{CrewPromise, SparePromise, OpenPromise, SignPromise, RefusalsPromise};

use answer::number;
use crew::crew;
use exhaustive::crew_by_trial;
use resiliency::call::spare;
use signing::JobState;
use signing::open::open;
use signing::sign::sign;

// Writes the first valid crew.
#[unsafe(no_mangle)]
pub extern "C" fn fulmarinvar_crew(sheet: &[u8], answer: &mut [u8]) -> u32
    ensures { CrewPromise sheet.now answer.old result answer.new }
{
    number(crew(sheet, answer))
}

// Writes the first valid crew, found by trying every plan.
#[unsafe(no_mangle)]
pub extern "C" fn fulmarinvar_crew_by_trial(sheet: &[u8], answer: &mut [u8]) -> u32
    ensures { CrewPromise sheet.now answer.old result answer.new }
{
    number(crew_by_trial(sheet, answer))
}

// Writes the spare count.
#[unsafe(no_mangle)]
pub extern "C" fn fulmarinvar_spare(sheet: &[u8], answer: &mut [u8], cap: u32) -> u32
    ensures { SparePromise cap sheet.now answer.old result answer.new }
{
    number(spare(sheet, answer, cap))
}

// Opens a job with a sheet.
#[unsafe(no_mangle)]
pub extern "C" fn fulmarinvar_open(job: &mut JobState, sheet: &[u8]) -> u32
    ensures { OpenPromise job.old sheet.now result job.new }
{
    number(open(job, sheet))
}

// Signs a step by a person, both by tag.
#[unsafe(no_mangle)]
pub extern "C" fn fulmarinvar_sign(job: &mut JobState, step: u32, person: u32) -> u32
    ensures { SignPromise job.old step person result job.new }
{
    number(sign(job, step, person))
}

// Tells the count of refused signings of a job.
#[unsafe(no_mangle)]
pub extern "C" fn fulmarinvar_refusals(job: &JobState) -> u32
    ensures { RefusalsPromise job.now result }
{
    job.refusals
}

// Opening a job with a sheet.
ghost use Rattle.std.specs.Prelude.{◌≡◌};
ghost use Rattle.answer.specs.Number.{number_of};
ghost use Rattle.signing.specs.Open.{open_answer};

use super::JobState;
use super::hold::stored;
use super::question::can_finish;
use bits::sizes::MOST_STEPS;
use card::refusal::{Fault, Refusal};
use remaining::read_job;

// A readable sheet with a valid plan makes the job anew; any other leaves it as it was.
pub fn open(job: &mut JobState, sheet: &[u8]) -> Result<(), Refusal>
    ensures { (number_of result ≡ (open_answer job.old sheet.now).number) × (job.new ≡ (open_answer job.old sheet.now).job) }
{
    let posed = read_job(sheet)?;
    let unsigned = [0u8; MOST_STEPS];
    if !can_finish(&posed, &unsigned) {
        return Err(Fault::Plan.on(0));
    }
    *job = JobState {
        refusals: 0,
        sheet_len: sheet.len() as u32,
        sheet: stored(sheet),
        signer: unsigned,
    };
    Ok(())
}

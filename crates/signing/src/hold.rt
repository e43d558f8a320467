// The sheet that a job holds.
ghost use Rattle.std.specs.Prelude.{◌++◌, ◌≡◌, ◌-◌, ◌≤◌, length};
ghost use Rattle.sheet.specs.Answer.{zeros};
ghost use Rattle.remaining.specs.Remaining.{remaining_of};
ghost use Rattle.signing.specs.State.{held_length, held};

use super::JobState;
use bits::sizes::MOST_BYTES;
use card::refusal::Refusal;
use remaining::read_job;
use sheet::SheetJob;

// The length of the sheet held. One that the job has no room for is none.
fn held_length(len: u32) -> usize
    ensures { result ≡ held_length len }
{
    if len as usize > MOST_BYTES {
        return 0;
    }
    len as usize
}

// Reads it.
pub fn read_held(job: &JobState) -> Result<SheetJob, Refusal>
    ensures { result ≡ remaining_of (held job.now) }
{
    let len = held_length(job.sheet_len);
    read_job(&job.sheet[..len])
}

// A sheet, and zeros after it.
pub fn stored(sheet: &[u8]) -> [u8; MOST_BYTES]
    requires { length sheet.now ≤ 2256 }
    ensures { result ≡ sheet.now ++ zeros (2256 - length sheet.now) }
{
    let mut bytes = [0u8; MOST_BYTES];
    bytes[..sheet.len()].copy_from_slice(sheet);
    bytes
}

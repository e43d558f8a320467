// The signing of a step by a person.
ghost use Rattle.std.specs.Prelude.{◌≡◌, suc, ◌<◌, length, set};
ghost use Rattle.answer.specs.Number.{number_of};
ghost use Rattle.signing.specs.Judged.{concluded};
ghost use Rattle.signing.specs.Sign.{counted, sign_answer};

use super::JobState;
use super::hold::read_held;
use super::place::place_of;
use super::question::can_finish;
use bits::sizes::MOST_STEPS;
use card::refusal::{Fault, Refusal};

// The refusals that a job counts at most.
const MOST_REFUSALS: u32 = 1_000_000;

// The count after a refused signing.
fn counted(refusals: u32) -> u32
    ensures { result ≡ counted refusals }
{
    if refusals < MOST_REFUSALS {
        return refusals + 1;
    }
    refusals
}

// The signers with step `t` signed by person `p`.
fn with_signer(signer: [u8; MOST_STEPS], t: usize, p: usize) -> [u8; MOST_STEPS]
    requires { (t < 12) × (p < 64) }
    ensures { result ≡ set signer t (suc p) }
{
    let mut more = signer;
    more[t] = (p + 1) as u8;
    more
}

// Decides on the signing of a step by a person, both by tag: who has signed each step then, or why it is refused.
// The hint lets a further return for an unknown person be proved without an answer of its own.
#[tactic(auto, using(crate::proofs::Deciding::no_person))]
fn judge(job: &JobState, step: u32, person: u32) -> Result<[u8; MOST_STEPS], Fault>
    ensures { concluded job.now result ≡ sign_answer job.now step person }
{
    let Ok(posed) = read_held(job) else {
        return Err(Fault::Unknown);
    };
    let step_place = place_of(&posed.step_tag, posed.steps, step);
    let Some(t) = step_place else {
        return Err(Fault::Unknown);
    };
    let person_place = place_of(&posed.person_tag, posed.people, person);
    let Some(p) = person_place else {
        return Err(Fault::Unknown);
    };
    if job.signer[t] != 0 {
        return Err(Fault::Signed);
    }
    let asked = with_signer(job.signer, t, p);
    if can_finish(&posed, &asked) {
        return Ok(asked);
    }
    Err(Fault::Ungranted)
}

// The signing of a step by a person, both by tag.
pub fn sign(job: &mut JobState, step: u32, person: u32) -> Result<(), Refusal>
    ensures { (number_of result ≡ (sign_answer job.old step person).number) × (job.new ≡ (sign_answer job.old step person).job) }
{
    match judge(job, step, person) {
        Ok(signer) => {
            job.signer = signer;
            Ok(())
        }
        Err(fault) => {
            job.refusals = counted(job.refusals);
            Err(fault.on(0))
        }
    }
}

// The planning program: one sheet from standard input; its crew, its spare count with cap 2, and the figure of each rule for that
// crew to standard output.
#![tactic(auto)]

ghost use Rattle.std.specs.Prelude.{◌≡◌, ◌+◌, ◌<◌, ◌≤◌, length};
ghost use Rattle.bits.specs.Word.{long_at};

use answer::refusal_number;
use bits::byte_at;
use bits::sizes::MOST_BYTES;
use card::refusal::Fault;
use crew::plan_job;
use instance::figures::rule_figures;
use listing::input::read_full;
use listing::{figure, text, write_plan, write_refusal, write_rules};
use remaining::read_job;
use resiliency::call::spare;
use std::io;

const CAP: u32 = 2;

// The bytes of a spare count.
const SPARE: usize = 16;

// Four bytes, the low one first.
fn long_at(bytes: &[u8], at: usize) -> usize
    requires { at + 3 < length bytes.now }
    ensures { result ≡ long_at bytes.now at }
{
    byte_at(bytes, at)
        + 256 * byte_at(bytes, at + 1)
        + 65536 * byte_at(bytes, at + 2)
        + 16777216 * byte_at(bytes, at + 3)
}

// The group whose absence breaks the job.
fn write_away(rt: &impl Print, bytes: &[u8; SPARE], members: usize) -> io::Result<()>
    requires { (length bytes.now ≡ 16) × (members ≤ 3) }
{
    text(rt, b"AWAY")?;
    for k in 0..members {
        figure(rt, long_at(bytes, 4 * k + 4))?;
    }
    text(rt, b"\n")
}

// The count and the cap, and the group where the count is below the cap.
fn write_spare(rt: &impl Print, bytes: &[u8; SPARE]) -> io::Result<()>
    requires { length bytes.now ≡ 16 }
{
    let count = byte_at(bytes, 0);
    text(rt, b"SPARE")?;
    figure(rt, count)?;
    text(rt, b" OF")?;
    figure(rt, CAP as usize)?;
    text(rt, b"\n")?;
    if count < CAP as usize {
        write_away(rt, bytes, count + 1)?;
    }
    Ok(())
}

// The answer to a sheet: a refusal, or the plan, the spare count and the figure of each rule for the plan.
fn write_answer(rt: &impl Print, sheet: &[u8]) -> io::Result<()> {
    let job = match read_job(sheet) {
        Ok(job) => job,
        Err(refusal) => return write_refusal(rt, refusal_number(refusal)),
    };
    let Some(plan) = plan_job(&job) else {
        return write_refusal(rt, refusal_number(Fault::Plan.on(0)));
    };
    let mut away = [0u8; SPARE];
    if let Err(refusal) = spare(sheet, &mut away, CAP) {
        return write_refusal(rt, refusal_number(refusal));
    }
    write_plan(rt, &job, &plan)?;
    write_spare(rt, &away)?;
    let figures = rule_figures(&job, &plan);
    write_rules(rt, &job, &figures)
}

fn main(rt: HostRuntime) -> io::Result<()> {
    // One byte more than the longest sheet, so that a longer input has a length that is refused.
    let mut input = [0u8; MOST_BYTES + 1];
    let n = read_full(&mut rt.reader(), &mut input)?;
    write_answer(&rt, &input[..n])
}

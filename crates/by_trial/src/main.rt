// The program of the engine that tries every plan: one sheet from standard input; how many plans were tried and, of a sheet with few
// plans, each of them; then the crew and the figure of each rule for that crew, to standard output.
#![tactic(auto)]

ghost use Rattle.sheet.specs.Readable.{ReadableJob};
ghost use Rattle.exhaustive.specs.Trial.{PlanFor};

use answer::refusal_number;
use bits::sizes::{MOST_BYTES, MOST_STEPS, Plan};
use card::refusal::Fault;
use exhaustive::plans::{few_plans, next_plan};
use exhaustive::try_every;
use exhaustive::valid::{first_broken, first_denied};
use instance::figures::rule_figures;
use listing::input::read_full;
use listing::{figure, text, write_plan, write_refusal, write_rules};
use remaining::read_job;
use sheet::SheetJob;
use std::io;

// What is wrong with a plan: the tag of the first step that its person is not permitted, or the first rule that it breaks, counted
// from 1 along the chain.
fn write_verdict(rt: &impl Print, job: &SheetJob, plan: &Plan) -> io::Result<()>
    requires { PlanFor job.now.steps job.now.rules job.now plan.now }
{
    if let Some(s) = first_denied(&job.permitted, job.steps, plan) {
        text(rt, b" DENIED")?;
        return figure(rt, job.step_tag[s] as usize);
    }
    if let Some(i) = first_broken(job, plan) {
        text(rt, b" BREAKS")?;
        return figure(rt, i + 1);
    }
    text(rt, b" VALID")
}

// A line for a plan that was tried: the tags of its people, step by step, and what is wrong with it.
fn write_trial(rt: &impl Print, job: &SheetJob, plan: &Plan) -> io::Result<()>
    requires { PlanFor job.now.steps job.now.rules job.now plan.now }
{
    text(rt, b"TRY")?;
    for s in 0..job.steps {
        figure(rt, job.person_tag[plan[s] as usize] as usize)?;
    }
    write_verdict(rt, job, plan)?;
    text(rt, b"\n")
}

// A line for each plan that was tried, in plan order.
fn write_trials(rt: &impl Print, job: &SheetJob, tried: usize) -> io::Result<()>
    requires { ReadableJob job.now.people job.now.steps job.now.rules job.now }
{
    let mut plan = [0u8; MOST_STEPS];
    for _ in 0..tried {
        write_trial(rt, job, &plan)?;
        if !next_plan(&mut plan, job.steps, job.people) {
            return Ok(());
        }
    }
    Ok(())
}

// The answer to a sheet: a refusal of the reader; or how many plans were tried, those plans where the sheet has few, and then the
// first valid plan and the figure of each rule for it, or that there is none.
fn write_answer(rt: &impl Print, sheet: &[u8]) -> io::Result<()> {
    let job = match read_job(sheet) {
        Ok(job) => job,
        Err(refusal) => return write_refusal(rt, refusal_number(refusal)),
    };
    let trial = try_every(&job);
    text(rt, b"TRIED")?;
    figure(rt, trial.tried as usize)?;
    text(rt, b"\n")?;
    if few_plans(job.people, job.steps) {
        write_trials(rt, &job, trial.tried as usize)?;
    }
    let Some(plan) = trial.plan else {
        return write_refusal(rt, refusal_number(Fault::Plan.on(0)));
    };
    write_plan(rt, &job, &plan)?;
    let figures = rule_figures(&job, &plan);
    write_rules(rt, &job, &figures)
}

fn main(rt: HostRuntime) -> io::Result<()> {
    // One byte more than the longest sheet, so that a longer input has a length that is refused.
    let mut input = [0u8; MOST_BYTES + 1];
    let n = read_full(&mut rt.reader(), &mut input)?;
    write_answer(&rt, &input[..n])
}

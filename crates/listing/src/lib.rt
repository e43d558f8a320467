// Lines of the programs' listings, to standard output.
#![tactic(auto)]

ghost use Rattle.std.specs.Prelude.{◌≡◌, ◌≤◌, length};
ghost use Rattle.instance.specs.Figures.{Staffed};

use bits::sizes::{Plan, RuleBytes};
use sheet::SheetJob;
use std::io;

pub mod input;

// Words as they are.
pub fn text(rt: &impl Print, words: &[u8]) -> io::Result<()> {
    rt.write_all(words)
}

// A space and a number in decimal.
pub fn figure(rt: &impl Print, number: usize) -> io::Result<()> {
    text(rt, b" ")?;
    rt.print(number)
}

// The line of a refusal, of the number that a call returns.
pub fn write_refusal(rt: &impl Print, number: u32) -> io::Result<()> {
    text(rt, b"REFUSED")?;
    figure(rt, (number / 256) as usize)?;
    text(rt, b" CARD")?;
    figure(rt, (number % 256) as usize)?;
    text(rt, b"\n")
}

// A line for a step: its tag and its person's.
fn write_step(rt: &impl Print, step_tag: u32, person_tag: u32) -> io::Result<()> {
    rt.print(step_tag)?;
    figure(rt, person_tag as usize)?;
    text(rt, b"\n")
}

// The number of steps, and a line for each.
pub fn write_plan(rt: &impl Print, job: &SheetJob, plan: &Plan) -> io::Result<()>
    requires { (job.now.steps ≤ 12) × (length plan.now ≡ 12) × Staffed job.now.steps plan.now }
{
    text(rt, b"PLAN")?;
    figure(rt, job.steps)?;
    text(rt, b"\n")?;
    for s in 0..job.steps {
        write_step(rt, job.step_tag[s], job.person_tag[plan[s] as usize])?;
    }
    Ok(())
}

// A line for a rule: "`RULE`, its kind, level, limit and count"; for kind 5 "the largest number held by one class".
fn write_rule(rt: &impl Print, kind: u8, level: u8, limit: u8, last: u8) -> io::Result<()> {
    text(rt, b"RULE")?;
    figure(rt, kind as usize)?;
    figure(rt, level as usize)?;
    figure(rt, limit as usize)?;
    figure(rt, last as usize)?;
    text(rt, b"\n")
}

// A line for each rule: kind, level and limit as its card has them, and its figure for the plan.
pub fn write_rules(rt: &impl Print, job: &SheetJob, figures: &RuleBytes) -> io::Result<()>
    requires { (job.now.rules ≤ 64) × (length figures.now ≡ 64) }
{
    for i in 0..job.rules {
        write_rule(
            rt,
            job.rule_kind[i],
            job.rule_level[i],
            job.rule_limit[i],
            figures[i],
        )?;
    }
    Ok(())
}

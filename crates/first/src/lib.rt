// The first plan: a plan is taken, and for each step in turn the first person is looked for who does it in
// a plan, with the steps before fixed.
#![tactic(auto)]

ghost use Rattle.std.specs.Prelude.{◌≡◌, ◌+◌, ◌<◌, length};
ghost use Rattle.workflow.specs.First.{first_plan, found_in};
ghost use Rattle.pattern.specs.Tables.{may_in, plan_in};
ghost use Rattle.levels.specs.Tabled.{tabled_job, Ready};
ghost use Rattle.first.specs.Settle.{Standing, Settled};

use backtrack::{Tired, attempt};
use bits::set::members;
use bits::sizes::{Domains, Plan, Weights};
use levels::Tables;
use search::exists::exists;
use search::weights::weights;

// How many rules the search over people may look at.
const EFFORT: u32 = 500;

// Finds the first person of step `s` in a plan, fixes the step and gives the plan: the people before the one in hand are
// tried in turn. That asks for more searches than all of them at once, each of them narrower.
fn settle(tables: &Tables, s: usize, may: &mut Domains, weight: &mut Weights, plan: Plan) -> Plan
    requires { Ready tables.now × (length may.old ≡ 12) × (length weight.old ≡ 12) × (length plan ≡ 12) × (s < tables.now.size.steps)
        × Standing (tabled_job tables.now) (may_in may.old) s (plan_in plan) }
    ensures { Settled (tabled_job tables.now) (s + 1) may.old may.new result × (length weight.new ≡ 12) }
{
    let p = plan[s];
    for q in members(may[s] % (1 << p)) {
        may[s] = 1 << q;
        if let Some(earlier) = exists(tables, may, weight) {
            return earlier;
        }
    }
    may[s] = 1 << p;
    plan
}

// The first plan, from any plan on.
fn from_any(tables: &Tables, may: &Domains) -> Option<Plan>
    requires { Ready tables.now × (length may.now ≡ 12) }
    ensures { first_plan (tabled_job tables.now) (may_in may.now) ≡ found_in tables.now.size.steps result }
{
    let mut weight = weights(&tables.of);
    let mut plan = exists(tables, may, &mut weight)?;
    let mut left = *may;
    let steps = tables.size.steps;
    for s in 0..steps {
        // By a name of its own: a call's result is not laid in an array that the call reads.
        let settled = settle(tables, s, &mut left, &mut weight, plan);
        plan = settled;
    }
    Some(plan)
}

// The first plan, a person for each step, where there is a valid plan. Most jobs have it by the search over people.
pub fn first_plan(tables: &Tables, may: &Domains) -> Option<Plan>
    requires { Ready tables.now × (length may.now ≡ 12) }
    ensures { first_plan (tabled_job tables.now) (may_in may.now) ≡ found_in tables.now.size.steps result }
{
    match attempt(tables, may, true, EFFORT) {
        Ok(found) => found,
        Err(Tired) => from_any(tables, may),
    }
}

// The end of a search: domains of one person each are a plan, and the rules are tested.
ghost use Rattle.std.specs.Prelude.{true, ◌≡◌, ◌<◌, ◌≤◌, length, IfSome};
ghost use Rattle.bits.specs.Says.{Says};
ghost use Rattle.workflow.specs.Problem.{OfPeople, Met};
ghost use Rattle.pattern.specs.Rule.{level_in, scope_in, unpacked};
ghost use Rattle.pattern.specs.Tables.{plan_in};
ghost use Rattle.pattern.specs.Given.{Given};
ghost use Rattle.levels.specs.Tabled.{tabled_job};
ghost use Rattle.eligible.specs.Classes.{OneLevel, ForJobs};
ghost use Rattle.backtrack.specs.Trial.{MeetsAll, Alone, TakesFirst, Trial};

use super::{Outcome, Tired};
use bits::set::Set;
use bits::sizes::{Crowds, Domains, MOST_STEPS, Plan};
use eligible::plan::{plan_count, plan_light};
use levels::Tables;
use pattern::rule;

// Gives each step the first of its domain, where that is one of the people.
fn take_first(steps: usize, people: usize, dom: &Domains) -> Option<Plan>
    requires { (steps ≤ 12) × (length dom.now ≡ 12) }
    ensures { IfSome result (λ plan. TakesFirst people steps dom.now plan) }
{
    let mut plan = [0u8; MOST_STEPS];
    for s in 0..steps {
        let domain = dom[s];
        if domain == 0 {
            return None;
        }
        let p = domain.lowest();
        if p >= people {
            return None;
        }
        plan[s] = p as u8;
    }
    Some(plan)
}

// Whether a plan meets a rule: its count and its largest load are compared.
fn meets(crowd: &Crowds, r: u32, plan: &Plan) -> bool
    requires { OneLevel crowd.now (level_in r) × (scope_in r < 4096) × (length plan.now ≡ 12) }
    ensures { ForJobs crowd.now r
        (λ j. OfPeople j (plan_in plan.now) → Says result (Met j (unpacked r) (plan_in plan.now))) }
{
    if !rule::can_be_met(r, plan_count(crowd, r, plan), 0) {
        return false;
    }
    plan_light(crowd, r, plan)
}

// Whether a plan meets all rules.
fn meets_all(tables: &Tables, plan: &Plan) -> bool
    requires { Given tables.now.size tables.now.crowd tables.now.rule × (length plan.now ≡ 12) }
    ensures { MeetsAll (tabled_job tables.now) tables.now.size.rules (plan_in plan.now) result }
{
    let rules = tables.size.rules;
    for i in 0..rules {
        if !meets(&tables.crowd, tables.rule[i], plan) {
            return false;
        }
    }
    true
}

// The plan of the domains, which have one person for each step.
pub fn finish(tables: &Tables, dom: &Domains) -> Outcome
    requires { Given tables.now.size tables.now.crowd tables.now.rule × (length dom.now ≡ 12) × Alone tables.now.size.steps 0 dom.now }
    ensures { Trial true (tabled_job tables.now) dom.now result }
{
    let Some(plan) = take_first(tables.size.steps, tables.size.people, dom) else {
        return Err(Tired);
    };
    if !meets_all(tables, &plan) {
        return Ok(None);
    }
    Ok(Some(plan))
}

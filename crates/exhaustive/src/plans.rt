// All plans in plan order: "Plans are compared step by step along the step chain; the earlier person in crew order comes first."
ghost use Rattle.std.specs.Prelude.{◌≡◌, ◌^◌, ◌<◌, ◌≤◌, leb, length};
ghost use Rattle.workflow.specs.First.{plan_of};
ghost use Rattle.exhaustive.specs.Order.{Gives, NextPlan};

use bits::sizes::Plan;

// How many plans a sheet may have for every plan tried to be shown.
const SHOWN: usize = 1000;

// The plan after this one: the last step that has somebody after its person goes to the next person, and the steps
// after it go to the first. Says whether there is one.
pub fn next_plan(plan: &mut Plan, steps: usize, people: usize) -> bool
    requires { (length plan.old ≡ 12) × (steps ≤ 12) × (people ≤ 64) × Gives people steps (plan_of plan.old) }
    ensures { (length plan.new ≡ 12) × NextPlan result people steps (plan_of plan.old) (plan_of plan.new) }
{
    for s in (0..steps).rev() {
        if (plan[s] as usize) + 1 < people {
            plan[s] += 1;
            return true;
        }
        plan[s] = 0;
    }
    false
}

// Whether a sheet of so many people and steps has few enough plans to show them.
pub fn few_plans(people: usize, steps: usize) -> bool
    requires { (people ≤ 64) × (steps ≤ 12) }
    ensures { result ≡ leb (people ^ steps) 1000 }
{
    let mut plans = 1;
    for _ in 0..steps {
        plans = plans * people;
        if plans > SHOWN {
            return false;
        }
    }
    true
}

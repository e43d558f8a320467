// The figures of a rule for a plan, by the classes of the people.
ghost use Rattle.std.specs.Prelude.{◌≡◌, ◌<◌, ◌≤◌, length};
ghost use Rattle.bits.specs.Says.{Says};
ghost use Rattle.workflow.specs.Problem.{OfPeople, class_count, class_load};
ghost use Rattle.pattern.specs.Rule.{level_in, load_in, scope_in, unpacked};
ghost use Rattle.pattern.specs.Tables.{plan_in};
ghost use Rattle.pattern.specs.Number.{first_use};
ghost use Rattle.eligible.specs.Classes.{OneLevel, ForClasses, ForJobs};

use super::classes::mates;
use super::figures::{label_set, light};
use bits::set::Set;
use bits::sizes::{Crowds, Plan};
use pattern::rule;
use workflow::count::class_count;

// The label of the class of a step's person: the first of its people.
fn label_of(crowd: &Crowds, level: usize, plan: &Plan, s: usize) -> usize
    requires { OneLevel crowd.now level × (length plan.now ≡ 12) × (s < 12) }
    ensures { ForClasses crowd.now level
        (λ people c. plan_in plan.now s < people → result ≡ first_use people c (plan_in plan.now s)) × (result < 64) }
{
    // The class of one of the people is not empty; what is given for anyone else says nothing.
    let class = mates(crowd, level, (plan[s] % 64) as usize);
    if class == 0 {
        return 0;
    }
    class.lowest()
}

// The count of a rule for a plan: how many different classes of its level the people of its steps have.
pub fn plan_count(crowd: &Crowds, r: u32, plan: &Plan) -> usize
    requires { OneLevel crowd.now (level_in r) × (scope_in r < 4096) × (length plan.now ≡ 12) }
    ensures { (result ≤ 64) × ForJobs crowd.now r
        (λ j. OfPeople j (plan_in plan.now) → result ≡ class_count j (unpacked r) (plan_in plan.now)) }
{
    let level = rule::level(r);
    let scope = rule::scope(r);
    let labels = label_set(scope, |s| label_of(crowd, level, plan, s));
    class_count(labels)
}

// Whether no class holds more steps of a rule's scope in a plan than it may.
pub fn plan_light(crowd: &Crowds, r: u32, plan: &Plan) -> bool
    requires { OneLevel crowd.now (level_in r) × (scope_in r < 4096) × (length plan.now ≡ 12) }
    ensures { ForJobs crowd.now r
        (λ j. OfPeople j (plan_in plan.now) → Says result (class_load j (unpacked r) (plan_in plan.now) ≤ load_in r)) }
{
    let level = rule::level(r);
    light(r, rule::scope(r), |s| label_of(crowd, level, plan, s))
}

// Whether a plan is valid: "each person is permitted the step and all rules are met".
ghost use Rattle.std.specs.Prelude.{◌≡◌, ℕ, ◌≤◌, length, get_or};
ghost use Rattle.bits.specs.Says.{Says};
ghost use Rattle.bits.specs.Word.{has_bit};
ghost use Rattle.sheet.specs.Cards.{place_below};
ghost use Rattle.sheet.specs.Readable.{ReadableJob};
ghost use Rattle.workflow.specs.Problem.{OfPeople, Valid};
ghost use Rattle.workflow.specs.Skipped.{AsksLeft};
ghost use Rattle.workflow.specs.First.{plan_of};
ghost use Rattle.workflow.specs.Kinds.{kind_of};
ghost use Rattle.instance.specs.Instance.{instance_of, may_of};
ghost use Rattle.instance.specs.Figures.{Staffed, RulesStaffed, ForInstances};
ghost use Rattle.exhaustive.specs.Trial.{PlanFor, denied_in, broken_in};

use bits::set::Set;
use bits::sizes::{PersonWords, Plan};
use instance::figure::rule_figure;
use sheet::SheetJob;
use workflow::kind::RuleKind;

// The first step that its person is not permitted.
pub fn first_denied(permitted: &PersonWords, steps: usize, plan: &Plan) -> Option<usize>
    requires { (length permitted.now ≡ 64) × (length plan.now ≡ 12) × (steps ≤ 12) × Staffed steps plan.now }
    ensures { result ≡ place_below steps (denied_in steps (λ s p. has_bit (get_or permitted.now p 0) s) (plan_of plan.now)) }
{
    for s in 0..steps {
        if !permitted[plan[s] as usize].has(s) {
            return Some(s);
        }
    }
    None
}

// Whether a rule of a kind and a limit is met by its figure over so many steps left in its scope.
fn is_met(kind: RuleKind, limit: u8, left: usize, figure: usize) -> bool
    ensures { Says result (AsksLeft (kind_of kind) limit left figure) }
{
    match kind {
        RuleKind::Same => (left < 2) | (figure == 1),
        RuleKind::Different => (left < 2) | (figure == 2),
        RuleKind::AtMost => figure <= limit as usize,
        // The smaller of two limits is reached where one of them is.
        RuleKind::AtLeast => (figure >= limit as usize) | (figure >= left),
        // No class holds more than the limit.
        RuleKind::MaxLoad => figure <= limit as usize,
    }
}

// The first rule that the plan breaks.
pub fn first_broken(job: &SheetJob, plan: &Plan) -> Option<usize>
    requires { RulesStaffed job.now.rules job.now plan.now }
    ensures { ForInstances job.now.rules job.now (λ j. result ≡ place_below job.now.rules (broken_in j (plan_of plan.now))) }
{
    for i in 0..job.rules {
        let kind = RuleKind::from(job.rule_kind[i]);
        let scope = job.rule_scope[i];
        let figure = rule_figure(&job.class, job.levels, kind, job.rule_level[i], scope, plan);
        let left = scope.size();
        if !is_met(kind, job.rule_limit[i], left, figure) {
            return Some(i);
        }
    }
    None
}

// Whether the plan is valid.
pub fn is_valid(job: &SheetJob, plan: &Plan) -> bool
    requires { PlanFor job.now.steps job.now.rules job.now plan.now }
    ensures { (people : ℕ) → ReadableJob people job.now.steps job.now.rules job.now → OfPeople (instance_of people job.now.steps job.now.rules job.now) (plan_of plan.now)
        → Says result (Valid (instance_of people job.now.steps job.now.rules job.now) (may_of job.now) (plan_of plan.now)) }
{
    if first_denied(&job.permitted, job.steps, plan).is_some() {
        return false;
    }
    first_broken(job, plan).is_none()
}

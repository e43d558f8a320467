// The figure of a rule for a plan, by the classes of the sheet.
ghost use Rattle.std.specs.Prelude.{true, ◌≡◌, ℕ, suc, ◌^◌, ◌<◌, ◌≤◌, eqb, length, get_or};
ghost use Rattle.bits.specs.Below.{first};
ghost use Rattle.bits.specs.Sizes.{most_levels, class_words};
ghost use Rattle.bits.specs.Word.{has_bit};
ghost use Rattle.workflow.specs.Problem.{distinct, largest_load, figure_of};
ghost use Rattle.workflow.specs.Kinds.{kind_of};
ghost use Rattle.workflow.specs.First.{plan_of};
ghost use Rattle.instance.specs.Instance.{class_at};
ghost use Rattle.instance.specs.Figures.{Columns, Staffed};

use bits::set::{Set, members};
use bits::sizes::{ClassWords, MOST_PEOPLE, MOST_STEPS, Plan};
use workflow::count::class_count;
use workflow::kind::RuleKind;
use workflow::load::largest_load;

// The class of a person at a level: the person is the last of the levels.
fn class_of(class: &ClassWords, levels: usize, level: u8, p: usize) -> u16
    requires { (length class.now ≡ class_words) × (levels ≤ most_levels) × (p < 64) }
    ensures { result ≡ class_at levels class.now level p }
{
    let q = level as usize;
    if (1 <= q) & (q < levels) {
        return class[(q - 1) * MOST_PEOPLE + p];
    }
    p as u16
}

// The first step whose person is of the class of step `s`'s: the label of that class.
fn first_alike(class: &ClassWords, levels: usize, level: u8, plan: &Plan, s: usize) -> usize
    requires { Columns levels class.now plan.now × (s < 12) × Staffed (suc s) plan.now }
    ensures { result ≡ first s (λ t. eqb (class_at levels class.now level (plan_of plan.now t))
        (class_at levels class.now level (plan_of plan.now s))) }
{
    let own = class_of(class, levels, level, plan[s] as usize);
    for t in 0..s {
        if class_of(class, levels, level, plan[t] as usize) == own {
            return t;
        }
    }
    s
}

// The count of a rule of a level and a scope: how many different classes the people of its steps have.
fn rule_count(class: &ClassWords, levels: usize, level: u8, scope: u16, plan: &Plan) -> usize
    requires { Columns levels class.now plan.now × (scope < 4096) × ((s : ℕ) → has_bit scope s ≡ true → Staffed (suc s) plan.now) }
    ensures { (result ≤ 64) × ((n : ℕ) → scope < 2 ^ n
        → result ≡ distinct n (has_bit scope) (λ s. class_at levels class.now level (plan_of plan.now s))) }
{
    let mut labels: u64 = 0;
    for s in members(scope) {
        labels = labels.with(first_alike(class, levels, level, plan, s));
    }
    class_count(labels)
}

// The labels of the classes of the people of a scope's steps, each at its step.
fn labels_of(
    class: &ClassWords,
    levels: usize,
    level: u8,
    scope: u16,
    plan: &Plan,
) -> [u8; MOST_STEPS]
    requires { Columns levels class.now plan.now × (scope < 4096) × ((s : ℕ) → has_bit scope s ≡ true → Staffed (suc s) plan.now) }
    ensures { (length result ≡ 12) × ((s : ℕ) → has_bit scope s ≡ true
        → get_or result s 0 ≡ first s (λ t. eqb (class_at levels class.now level (plan_of plan.now t))
        (class_at levels class.now level (plan_of plan.now s)))) }
{
    let mut labels = [0u8; MOST_STEPS];
    for s in members(scope) {
        labels[s] = first_alike(class, levels, level, plan, s) as u8;
    }
    labels
}

// The largest load of a rule of a level and a scope: how many of its steps one class holds at most.
fn rule_load(class: &ClassWords, levels: usize, level: u8, scope: u16, plan: &Plan) -> usize
    requires { Columns levels class.now plan.now × (scope < 4096) × ((s : ℕ) → has_bit scope s ≡ true → Staffed (suc s) plan.now) }
    ensures { (n : ℕ) → scope < 2 ^ n
        → result ≡ largest_load n (has_bit scope) (λ s. class_at levels class.now level (plan_of plan.now s)) }
{
    let labels = labels_of(class, levels, level, scope, plan);
    largest_load(scope, &labels)
}

// The figure of a rule: the largest load for a rule of that name, and for the others the count.
pub fn rule_figure(
    class: &ClassWords,
    levels: usize,
    kind: RuleKind,
    level: u8,
    scope: u16,
    plan: &Plan,
) -> usize
    requires { Columns levels class.now plan.now × (scope < 4096) × ((s : ℕ) → has_bit scope s ≡ true → Staffed (suc s) plan.now) }
    ensures { (result ≤ 64) × ((n : ℕ) → scope < 2 ^ n
        → result ≡ figure_of (kind_of kind) n (has_bit scope) (λ s. class_at levels class.now level (plan_of plan.now s))) }
{
    match kind {
        RuleKind::MaxLoad => rule_load(class, levels, level, scope, plan),
        _ => rule_count(class, levels, level, scope, plan),
    }
}

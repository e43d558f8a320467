// The figure of each rule for a plan, by which a crew is checked against the rules.
ghost use Rattle.workflow.specs.First.{plan_of};
ghost use Rattle.instance.specs.Figures.{FiguresOf, kind_at, RulesStaffed, ForInstances};

use super::figure::rule_figure;
use bits::sizes::{MOST_RULES, Plan, RuleBytes};
use sheet::SheetJob;
use workflow::kind::RuleKind;

// The figure of each rule, in chain order, for a plan of a job.
pub fn rule_figures(job: &SheetJob, plan: &Plan) -> RuleBytes
    requires { RulesStaffed job.now.rules job.now plan.now }
    ensures { ForInstances job.now.rules job.now (λ j. FiguresOf (kind_at job.now) j (plan_of plan.now) job.now.rules result) }
{
    let mut figures = [0u8; MOST_RULES];
    for i in 0..job.rules {
        let kind = RuleKind::from(job.rule_kind[i]);
        let scope = job.rule_scope[i];
        let figure = rule_figure(&job.class, job.levels, kind, job.rule_level[i], scope, plan);
        figures[i] = figure as u8;
    }
    figures
}

// The job of a readable sheet as an instance of the workflow satisfiability problem, stated in specs/; and the figures of its rules
// for a plan.
#![tactic(auto)]

pub mod figure;
pub mod figures;

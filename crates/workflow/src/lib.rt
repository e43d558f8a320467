// The workflow satisfiability problem, stated in specs/; and the count of different classes and the largest load of one.
#![tactic(auto)]

pub mod count;
pub mod kind;
pub mod load;

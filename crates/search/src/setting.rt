// What the search through patterns is given.
use bits::sizes::{Domains, Naming, Nest, Reach, Rules};
use pattern::Size;

// The counts of a job, what lies inside each class, the rules and those of them that name each step, the people who may do each step, and
// the classes with somebody for each step.
#[derive(Clone, Copy)]
pub struct Setting<'a> {
    pub size: Size,
    pub nest: &'a Nest,
    pub rule: &'a Rules,
    pub of: &'a Naming,
    pub may: &'a Domains,
    pub reach: &'a Reach,
}

// Patterns, eligibility and realizability, which are stated in specs/, and a job as the search's arrays hold it.
#![tactic(auto)]

pub mod rule;
pub mod table;

// How many steps, people, levels and rules a job has.
#[derive(Clone, Copy)]
pub struct Size {
    pub steps: usize,
    pub people: usize,
    pub levels: usize,
    pub rules: usize,
}

// Whether a job has a valid plan. `exists` has the order of the attempts; `refute` looks at each level by
// itself, and `patterns` searches through the groupings of all levels.
#![tactic(auto)]

mod choose;
pub mod exists;
mod find;
mod grow;
mod limits;
mod loads;
mod meet;
mod opposed;
mod pairs;
mod patterns;
mod place;
mod refute;
mod rules;
mod setting;
mod ways;
pub mod weights;

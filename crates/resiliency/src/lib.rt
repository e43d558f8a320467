// The spare count of a job: how many absences it stands, whoever is away.
#![tactic(auto)]

pub mod call;
mod count;
pub mod group;
mod job;
mod known;
mod varied;
mod walk;

use group::Group;

// No valid plan with everyone present; as many absences as the cap; or the group, in crew order, whose
// absence leaves no valid plan: the count is one less.
#[derive(Drop)]
pub enum Spared {
    Unsatisfiable,
    Capped,
    Broken(Group),
}

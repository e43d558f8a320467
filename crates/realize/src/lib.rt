// Whether a pattern is realizable, as section 3.3 of document 004 has it, and a plan that realizes it.
// The tables are those of the search: `may` has a mask of people for each step, `label` has 12 entries a
// level, `nest` has what lies inside each class and `reach` the classes with somebody for each step.
#![tactic(auto)]

mod decision;
pub mod parts;
mod plan;
pub mod tables;

ghost use Rattle.std.specs.Prelude.{◌≡◌, ◌≤◌, length};
ghost use Rattle.realize.specs.Parts.{SizedFor, WholeTask};
ghost use Rattle.realize.specs.Decision.{RealizableIn};
ghost use Rattle.realize.specs.Filling.{RealizingIn};

use crate::decision::decide;
use crate::parts::{Layout, Task};
use crate::plan::fill;
use bits::set::Set;
use bits::sizes::Plan;
use pattern::Size;

// What is asked at first: the placed steps are to go to anybody. There are no more classes than people.
fn whole(size: Size, placed: u16) -> Task
    requires { size.people ≤ 64 }
    ensures { WholeTask size.people size.levels placed result }
{
    Task {
        levels: size.levels,
        q: 0,
        steps: placed,
        inside: u64::below(size.people),
    }
}

// Whether the pattern of the placed steps can be realized.
pub fn realizable(size: Size, layout: &Layout, placed: u16) -> bool
    requires { SizedFor size.levels layout.now placed × (size.people ≤ 64) }
    ensures { RealizableIn size.people size.levels layout.now placed result }
{
    decide(layout, whole(size, placed))
}

// Writes a plan of the placed steps that realizes the pattern. The other steps keep their people; where
// the pattern cannot be realized, nothing is said of the placed ones.
pub fn realize(size: Size, layout: &Layout, placed: u16, plan: &mut Plan)
    requires { SizedFor size.levels layout.now placed × (size.people ≤ 64) × (length plan.old ≡ 12) }
    ensures { RealizingIn size.people size.levels layout.now placed plan.old plan.new }
{
    fill(layout, whole(size, placed), plan);
}

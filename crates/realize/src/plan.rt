// A plan for a set of steps that can go to a set of people, written along the matchings.
ghost use Rattle.std.specs.Prelude.{◌≡◌, ◌<◌, length};
ghost use Rattle.bits.specs.Word.{has_bit};
ghost use Rattle.pattern.specs.Tables.{may_in};
ghost use Rattle.realize.specs.Parts.{Sized};
ghost use Rattle.realize.specs.Filling.{StaffedBy, FilledIn};

use crate::decision::cover;
use crate::parts::{Layout, Task, groups_of, members};
use bits::set::{self, Set};
use bits::sizes::{Domains, MOST_PEOPLE, Plan};

// Gives each step of `steps` the first of `people` who may do it.
fn staff(may: &Domains, steps: u16, people: u64, plan: &mut Plan)
    requires { (length may.now ≡ 12) × (steps < 4096) × (length plan.old ≡ 12) }
    ensures { StaffedBy (may_in may.now) (has_bit people) steps 0 plan.old plan.new }
{
    for s in set::members(steps) {
        let able = may[s] & people;
        if able == 0 {
            continue;
        }
        plan[s] = able.lowest() as u8;
    }
}

// Gives the steps people, where they can go to them: each group of the next level gets people of the
// class that a matching has for it.
pub fn fill(layout: &Layout, task: Task, plan: &mut Plan)
    requires { Sized layout.now task × (length plan.old ≡ 12) }
    ensures { FilledIn layout.now task plan.old plan.new }
{
    if task.levels <= task.q {
        staff(layout.may, task.steps, task.inside, plan);
        return;
    }
    let Some(at) = cover(layout, task) else {
        return;
    };
    let heads = groups_of(layout.label, task.q, task.steps);
    for g in set::members(heads) {
        let v = at[g] as usize;
        let group = members(layout.label, task.q, g as u8, task.steps);
        let q = task.q + 1;
        let inside = layout.nest[task.q * MOST_PEOPLE + v];
        let part = Task {
            q: q,
            steps: group,
            inside: inside,
            ..task
        };
        fill(layout, part, plan);
    }
}

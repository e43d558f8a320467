// Whether a set of steps can go to a set of people: groups of the next level are matched with
// classes of that level, a pair fitting when the same is so for them. Levels left fall.
ghost use Rattle.std.specs.Prelude.{◌≡◌, ◌<◌, length};
ghost use Rattle.bits.specs.Word.{has_bit};
ghost use Rattle.pattern.specs.Tables.{may_in};
ghost use Rattle.bits.specs.Says.{Says};
ghost use Rattle.bits.specs.Sizes.{most_levels, label_entries};
ghost use Rattle.realize.specs.Parts.{Sized};
ghost use Rattle.realize.specs.Decision.{Staffing, Candidates, DecidedIn, HostedIn, CoveringIn};

use crate::parts::{Layout, Task, groups_of, members};
use bits::set::{self, Set};
use bits::sizes::{Domains, MOST_PEOPLE, MOST_STEPS, Reach};
use matching::{Places, assign};

// Whether each step of `steps` has somebody in `people`.
fn staffed(may: &Domains, steps: u16, people: u64) -> bool
    requires { (length may.now ≡ 12) × (steps < 4096) }
    ensures { Says result (Staffing (may_in may.now) (has_bit people) steps 0) }
{
    for s in set::members(steps) {
        if may[s] & people == 0 {
            return false;
        }
    }
    true
}

// Those classes of `inside`, of level `q` + 1, that have somebody for each step of a group.
fn candidates(reach: &Reach, q: usize, group: u16, inside: u64) -> u64
    requires { (length reach.now ≡ label_entries) × (q < most_levels) × (group < 4096) }
    ensures { Candidates reach.now q group inside 0 result }
{
    let mut found = inside;
    for s in set::members(group) {
        found = found & reach[q * MOST_STEPS + s];
    }
    found
}

// The classes of level `q` + 1 inside that can host the steps, which are group `g`. Where
// each step has somebody, one step asks no more, nor does the last level.
#[cycle(cover_decide_hosts)]
fn hosts(layout: &Layout, task: Task, g: usize) -> u64
    requires { Sized layout.now task × (task.q < task.levels) × (g < 16) }
    ensures { HostedIn layout.now task result }
{
    let row = candidates(layout.reach, task.q, task.steps, task.inside);
    if task.levels <= task.q + 1 {
        return row;
    }
    if task.steps.without(g) == 0 {
        return row;
    }
    let mut found: u64 = 0;
    for v in set::members(row) {
        let q = task.q + 1;
        let inside = layout.nest[task.q * MOST_PEOPLE + v];
        let part = Task {
            q: q,
            inside: inside,
            ..task
        };
        if !decide(layout, part) {
            continue;
        }
        found = found.with(v);
    }
    found
}

// A class for each group of level `q` + 1 inside the steps, among those that can host it and none
// twice, where there are enough. A group without a host ends the search.
#[cycle(cover_decide_hosts)]
pub fn cover(layout: &Layout, task: Task) -> Option<Places>
    requires { Sized layout.now task × (task.q < task.levels) }
    ensures { CoveringIn layout.now task result }
{
    let heads = groups_of(layout.label, task.q, task.steps);
    let mut edges = [0u64; MOST_STEPS];
    for g in set::members(heads) {
        let group = members(layout.label, task.q, g as u8, task.steps);
        let part = Task {
            steps: group,
            ..task
        };
        let row = hosts(layout, part, g);
        if row == 0 {
            return None;
        }
        edges[g] = row;
    }
    assign(&edges, heads)
}

// Whether the steps can go to the people.
#[cycle(cover_decide_hosts)]
pub fn decide(layout: &Layout, task: Task) -> bool
    requires { Sized layout.now task }
    ensures { DecidedIn layout.now task result }
{
    if task.levels <= task.q {
        return staffed(layout.may, task.steps, task.inside);
    }
    cover(layout, task).is_some()
}

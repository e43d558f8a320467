// A node of the search: a step placed in one of its ways, and the tests on the pattern.
ghost use Rattle.search.specs.State.{Prepared, job_of, Patterned, PassingIn, Touched, OthersPossible, Growable, GrewIn};

use super::meet::meets;
use super::place::{joins, place};
use super::setting::Setting;
use bits::sizes::{Labels, MOST_STEPS};
use eligible::eligible;
use realize::parts::Layout;
use realize::realizable;

// The greatest number of a step.
const LAST_STEP: usize = MOST_STEPS - 1;

// A step, a way to place it, and the steps placed before and with it.
#[derive(Clone, Copy)]
pub struct Placing {
    pub placed: u16,
    pub next: u16,
    pub step: usize,
    pub way: usize,
}

// Whether each rule can still be met, which is so for those outside `among`, and the placed steps
// have people.
fn passes(setting: &Setting, among: u64, placed: u16, label: &Labels) -> bool
    requires { Prepared setting.now × Patterned (job_of setting.now) placed label.now × OthersPossible (job_of setting.now) among placed label.now }
    ensures { PassingIn setting.now placed label.now result }
{
    if !eligible(among, setting.rule, placed, label) {
        return false;
    }
    let layout = Layout {
        may: setting.may,
        label: label,
        nest: setting.nest,
        reach: setting.reach,
    };
    realizable(setting.size, &layout, placed)
}

// Places a step in a way, where there is such a group, and tests the pattern. `among` has the rules that
// name the step: the others stay as they were.
pub fn grow(setting: &Setting, among: u64, placing: Placing, label: &mut Labels) -> bool
    requires { Prepared setting.now
        × Growable (job_of setting.now) placing.placed placing.next placing.step placing.way label.old
        × Touched (job_of setting.now) among placing.step }
    ensures { GrewIn setting.now placing.placed placing.next placing.step placing.way label.old label.new result }
{
    let s = placing.step;
    let t = placing.way % MOST_STEPS;
    let d = (placing.way + LAST_STEP) / MOST_STEPS;
    if !joins(placing.placed, label, t, d) {
        return false;
    }
    if !meets(setting.reach, d, s, t) {
        return false;
    }
    place(setting.size.levels, label, s, t, d);
    passes(setting, among, placing.next, label)
}

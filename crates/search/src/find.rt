// The search: each way to place an open step, and the search from there.
ghost use Rattle.std.specs.Prelude.{◌≡◌, length};
ghost use Rattle.search.specs.State.{Prepared, ReachedIn, FoundIn};

use super::choose::next_step;
use super::grow::{Placing, grow};
use super::setting::Setting;
use super::weights::blame;
use bits::set::Set;
use bits::sizes::{Labels, MOST_STEPS, Weights};

// The steps placed, and those that a rule names and that are still to be placed.
#[derive(Clone, Copy)]
pub struct Front {
    pub placed: u16,
    pub rest: u16,
}

// Places the steps that are left and says whether that can be done. If not, no valid plan has the pattern of
// the placed steps, whose labels are as they were.
pub fn find(setting: &Setting, front: Front, label: &mut Labels, weight: &mut Weights) -> bool
    requires { Prepared setting.now × (length weight.old ≡ 12) × ReachedIn setting.now front.placed front.rest label.old }
    ensures { FoundIn setting.now front.placed front.rest label.old label.new result × (length weight.new ≡ 12) }
{
    if front.rest == 0 {
        return true;
    }
    let s = next_step(setting, front, label, weight);
    let next = Front {
        placed: front.placed.with(s),
        rest: front.rest.without(s),
    };
    let among = setting.of[s];
    let ways = setting.size.levels * MOST_STEPS + 1;
    for w in 0..ways {
        let placing = Placing {
            placed: front.placed,
            next: next.placed,
            step: s,
            way: w,
        };
        if !grow(setting, among, placing, label) {
            continue;
        }
        if find(setting, next, label, weight) {
            return true;
        }
    }
    blame(weight, s);
    false
}

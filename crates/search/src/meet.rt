// Whether two steps can share a class: a test that spares many others.
ghost use Rattle.std.specs.Prelude.{◌≡◌, ◌≤◌, ◌<◌, length};
ghost use Rattle.bits.specs.Sizes.{most_levels, label_entries};
ghost use Rattle.search.specs.Meet.{Meets};

use bits::sizes::{MOST_STEPS, Reach};

// Whether some class of level `d` has somebody for step `s` and somebody for step `t`; with `d` 0
// nothing is asked.
pub fn meets(reach: &Reach, d: usize, s: usize, t: usize) -> bool
    requires { (d ≤ most_levels) × (s < 12) × (t < 12) × (length reach.now ≡ label_entries) }
    ensures { Meets reach.now d s t result }
{
    if d == 0 {
        return true;
    }
    let top = (d - 1) * MOST_STEPS;
    reach[top + s] & reach[top + t] != 0
}

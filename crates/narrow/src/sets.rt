// The union of the sets of some steps.
ghost use Rattle.std.specs.Prelude.{◌≡◌, ◌<◌, length};
ghost use Rattle.narrow.specs.Spreading.{AllOf};

use bits::set::members;
use bits::sizes::MOST_STEPS;

// All that the sets of these steps have.
pub fn all_of(steps: u16, sets: &[u64; MOST_STEPS]) -> u64
    requires { (steps < 4096) × (length sets.now ≡ 12) }
    ensures { AllOf steps sets.now 0 result }
{
    let mut found: u64 = 0;
    for s in members(steps) {
        found = found | sets[s];
    }
    found
}

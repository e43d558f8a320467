// The numbers of classes, as a table has them.
ghost use Rattle.std.specs.Prelude.{◌≡◌, ℕ, suc, ◌≤◌, ◌<◌, length};
ghost use Rattle.bits.specs.Says.{Says};
ghost use Rattle.bits.specs.Sizes.{most_levels, class_entries};
ghost use Rattle.pattern.specs.Given.{ClassTable, OwnClasses};

use bits::sizes::{Classes, MOST_PEOPLE};

// Whether each person is a class of level `q` + 1. The number of a class is then that of its person. Numbers go by first use, so
// that of the last person tells.
pub fn alone(people: usize, class: &Classes, q: usize) -> bool
    requires { (people ≤ 64) × (length class.now ≡ class_entries) × (q < most_levels) }
    ensures { (levels : ℕ) → ClassTable people levels class.now → q < levels → Says result (OwnClasses people class.now (suc q)) }
{
    if people == 0 {
        return true;
    }
    let last = people - 1;
    (class[q * MOST_PEOPLE + last] % 64) as usize == last
}

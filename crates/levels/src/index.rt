// The tables that are made once for a job: the people of each person's class, and the rules that name each step.
ghost use Rattle.std.specs.Prelude.{◌≡◌, ◌≤◌, length};
ghost use Rattle.bits.specs.Sizes.{most_levels, class_entries};
ghost use Rattle.pattern.specs.Given.{Ruled, ClassTable};
ghost use Rattle.levels.specs.Tabled.{Gathered, Naming};

use crate::nest::by_number;
use bits::set::{Set, members};
use bits::sizes::{CLASS_ENTRIES, Classes, Crowds, MOST_PEOPLE, MOST_STEPS, Rules};
use pattern::table::alone;
use pattern::{Size, rule};

// The people of each person's class, gathered by the numbers of the classes.
fn gather(people: usize, levels: usize, class: &Classes) -> Crowds
    requires { (people ≤ 64) × (levels ≤ most_levels) × (length class.now ≡ class_entries) }
    ensures { Gathered people levels class.now result }
{
    let mut numbered = [0u64; CLASS_ENTRIES];
    by_number(people, levels, class, &mut numbered);
    let mut crowd = [0u64; CLASS_ENTRIES];
    for x in 0..levels * MOST_PEOPLE {
        crowd[x] = numbered[x - x % MOST_PEOPLE + (class[x] % 64) as usize];
    }
    crowd
}

// The people of each person's class. At the last level that is mostly the person alone.
pub fn crowds(people: usize, levels: usize, class: &Classes) -> Crowds
    requires { (levels ≤ most_levels) × ClassTable people levels class.now }
    ensures { Gathered people levels class.now result }
{
    if levels == 0 {
        return gather(people, levels, class);
    }
    let last = levels - 1;
    if !alone(people, class, last) {
        return gather(people, levels, class);
    }
    let mut crowd = gather(people, last, class);
    for p in 0..people {
        crowd[last * MOST_PEOPLE + p] = 0u64.with(p);
    }
    crowd
}

// The rules that name each step, as masks.
pub fn naming(size: Size, rule: &Rules) -> [u64; MOST_STEPS]
    requires { Ruled size rule.now }
    ensures { Naming size.rules rule.now result }
{
    let mut of = [0u64; MOST_STEPS];
    let rules = size.rules;
    for i in 0..rules {
        for s in members(rule::scope(rule[i])) {
            of[s] = of[s].with(i);
        }
    }
    of
}

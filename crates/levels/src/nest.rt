// What lies inside each class, by the number of the class: people, or classes of the next level by their numbers.
ghost use Rattle.std.specs.Prelude.{◌≡◌, ◌*◌, ◌≤◌, length, replicate};
ghost use Rattle.bits.specs.Sizes.{most_levels, class_entries};
ghost use Rattle.pattern.specs.Nesting.{ByNumber, Nesting};
ghost use Rattle.levels.specs.Tabled.{Gathered};

use bits::set::Set;
use bits::sizes::{CLASS_ENTRIES, Classes, Crowds, MOST_PEOPLE, Nest};

// Puts the people of each class at its number into an array of zeros; a number is below 64.
pub fn by_number(people: usize, levels: usize, class: &Classes, inside: &mut Nest)
    requires { (people ≤ 64) × (levels ≤ most_levels) × (length class.now ≡ class_entries) × (inside.old ≡ replicate class_entries 0) }
    ensures { ByNumber people levels class.now (λ b p. p) (levels * 64) inside.new }
{
    for x in 0..levels * MOST_PEOPLE {
        let p = x % MOST_PEOPLE;
        if p >= people {
            continue;
        }
        let v = x - p + (class[x] % 64) as usize;
        inside[v] = inside[v].with(p);
    }
}

// What lies inside each class: the classes of the next level or, at the last level, the people.
pub fn nests(people: usize, levels: usize, class: &Classes, crowd: &Crowds) -> Nest
    requires { (people ≤ 64) × (levels ≤ most_levels) × (length class.now ≡ class_entries) × Gathered people levels class.now crowd.now }
    ensures { Nesting people levels class.now result }
{
    let mut inside = [0u64; CLASS_ENTRIES];
    for x in 0..levels * MOST_PEOPLE {
        let p = x % MOST_PEOPLE;
        if p >= people {
            continue;
        }
        let v = x - p + (class[x] % 64) as usize;
        if levels * MOST_PEOPLE <= x + MOST_PEOPLE {
            inside[v] = crowd[x];
            continue;
        }
        let w = (class[x + MOST_PEOPLE] % 64) as usize;
        inside[v] = inside[v].with(w);
    }
    inside
}

// The classes with somebody for each step, made once for a search from what lies inside each class.
ghost use Rattle.std.specs.Prelude.{◌≡◌, ◌+◌, ◌*◌, ◌≤◌, ◌<◌, length};
ghost use Rattle.bits.specs.Sizes.{most_levels, class_entries};
ghost use Rattle.pattern.specs.Given.{ClassTable};
ghost use Rattle.pattern.specs.Nesting.{Nesting};
ghost use Rattle.realize.specs.Parts.{Holding, ReachedFrom, Reachable};

use bits::set::Set;
use bits::sizes::{Classes, Domains, LABEL_ENTRIES, MOST_PEOPLE, MOST_STEPS, Nest, Reach};
use pattern::table::alone;

// Those classes of level `q` + 1 that have one of `these` inside: classes of the next level or, at the last level, people.
fn holding(nest: &Nest, q: usize, these: u64) -> u64
    requires { (length nest.now ≡ class_entries) × (q < most_levels) }
    ensures { Holding nest.now q these result }
{
    let mut found: u64 = 0;
    for v in 0..MOST_PEOPLE {
        let inside = nest[q * MOST_PEOPLE + v];
        let common = inside & these;
        // Numbers are given without a gap: the first that no class has is past the last class.
        if inside == 0 {
            return found;
        }
        if common == 0 {
            continue;
        }
        found = found.with(v);
    }
    found
}

// Makes the masks of level `q` + 1, those of the levels below being made. Where each person is a class, they are those permitted.
fn level_reach(
    people: usize,
    levels: usize,
    class: &Classes,
    nest: &Nest,
    may: &Domains,
    q: usize,
    reach: &mut Reach,
)
    requires { (levels ≤ most_levels) × ClassTable people levels class.now × Nesting people levels class.now nest.now × (length may.now ≡ 12) × (q < levels)
        × ReachedFrom people class.now may.now ((q + 1) * 12) (levels * 12) reach.old }
    ensures { ReachedFrom people class.now may.now (q * 12) (levels * 12) reach.new }
{
    let all = u64::below(people);
    let own = alone(people, class, q);
    for s in 0..MOST_STEPS {
        let x = q * MOST_STEPS + s;
        let able = may[s] & all;
        if own {
            reach[x] = able;
            continue;
        }
        if levels <= q + 1 {
            reach[x] = holding(nest, q, able);
            continue;
        }
        reach[x] = holding(nest, q, reach[x + MOST_STEPS]);
    }
}

// The classes that have somebody permitted each step: 12 masks a level, from the last level up.
pub fn reaches(people: usize, levels: usize, class: &Classes, nest: &Nest, may: &Domains) -> Reach
    requires { (levels ≤ most_levels) × ClassTable people levels class.now × Nesting people levels class.now nest.now × (length may.now ≡ 12) }
    ensures { Reachable people class.now may.now (levels * 12) result }
{
    let mut reach = [0u64; LABEL_ENTRIES];
    for k in 0..levels {
        level_reach(people, levels, class, nest, may, levels - 1 - k, &mut reach);
    }
    reach
}

// A test of the lower limits, once for a search: where a rule asks for so many classes over the steps of
// its scope, so many of these steps can be given different classes that have somebody for them. What a limit on the load asks for
// beyond its least count is tested in `loads`.
ghost use Rattle.std.specs.Prelude.{◌≡◌, ◌^◌, ◌≤◌, ◌<◌, length};
ghost use Rattle.bits.specs.Word.{bits_set};
ghost use Rattle.bits.specs.Sizes.{most_levels, label_entries};
ghost use Rattle.pattern.specs.Given.{Ruled};
ghost use Rattle.pattern.specs.Rule.{level_in, least_in, scope_in};
ghost use Rattle.search.specs.Limits.{Gathering, Extras, Edges, ReachesLeast, Limits};

use super::rules::every;
use bits::set::{ALL, Set, members};
use bits::sizes::{MOST_STEPS, Reach, Rules};
use matching::assign;
use pattern::{Size, rule};

// The classes of level `q` + 1 with somebody for a step of the scope.
pub fn classes_of(steps: usize, reach: &Reach, q: usize, scope: u16) -> u64
    requires { (steps ≤ 12) × (length reach.now ≡ label_entries) × (q < most_levels) }
    ensures { Gathering steps reach.now q scope result }
{
    let mut all: u64 = 0;
    for s in 0..steps {
        if !scope.has(s) {
            continue;
        }
        all = all | reach[q * MOST_STEPS + s];
    }
    all
}

// As many classes as asked for that are not in `all`, where there are so many.
fn extra_classes(all: u64, spare: usize) -> Option<u64>
    ensures { Extras all spare result }
{
    let mut free = members((all | ALL) ^ all);
    let mut mask: u64 = 0;
    for i in 0..spare {
        let c = free.next()?;
        mask = mask.with(c);
    }
    Some(mask)
}

// The classes of level `q` + 1 with somebody for each step, and the extra ones.
fn edges_of(steps: usize, reach: &Reach, q: usize, extra: u64) -> [u64; MOST_STEPS]
    requires { (steps ≤ 12) × (length reach.now ≡ label_entries) × (q < most_levels) }
    ensures { Edges steps reach.now q extra result }
{
    let mut edges = [0u64; MOST_STEPS];
    for s in 0..steps {
        edges[s] = reach[q * MOST_STEPS + s] | extra;
    }
    edges
}

// Whether as many steps of a rule's scope as its least count can be given different classes: the others have
// extra classes then. Where there are not so many classes to spare, nothing is said.
fn reaches_least(steps: usize, reach: &Reach, r: u32) -> bool
    requires { (steps ≤ 12) × (length reach.now ≡ label_entries) × (1 ≤ level_in r) × (level_in r ≤ most_levels) × (scope_in r < 2 ^ steps) × (least_in r ≤ bits_set steps (scope_in r)) }
    ensures { ReachesLeast steps reach.now r result }
{
    let scope = rule::scope(r);
    let q = rule::level(r) - 1;
    let all = classes_of(steps, reach, q, scope);
    let extra = extra_classes(all, scope.size() - rule::least(r));
    let Some(mask) = extra else {
        return true;
    };
    let edges = edges_of(steps, reach, q, mask);
    assign(&edges, scope).is_some()
}

// Whether each lower limit can be reached. Those of one class and of two are left to the search.
pub fn limits_reached(size: Size, rule: &Rules, reach: &Reach) -> bool
    requires { Ruled size rule.now × (length reach.now ≡ label_entries) }
    ensures { Limits size.steps size.rules rule.now reach.now result }
{
    every(size, rule, |r| {
        rule::least(r) < 3 || reaches_least(size.steps, reach, r)
    })
}

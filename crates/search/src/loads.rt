// A test of the greatest loads, once for a search: where a rule limits the load, each step of its scope can be
// given a place of its own in a class that has somebody for it, a class having as many as steps it may hold.
ghost use Rattle.std.specs.Prelude.{◌≡◌, ◌*◌, ◌^◌, ◌≤◌, ◌<◌, length};
ghost use Rattle.bits.specs.Sizes.{most_levels, label_entries};
ghost use Rattle.pattern.specs.Given.{Ruled};
ghost use Rattle.pattern.specs.Rule.{level_in, scope_in};
ghost use Rattle.search.specs.Loads.{Repeated, Places, KeepsLoadOf, Loads};

use super::limits::classes_of;
use super::rules::every;
use bits::set::Set;
use bits::sizes::{MOST_STEPS, Reach, Rules};
use matching::assign;
use pattern::{Size, rule};

// A matching has places with numbers below this.
pub const PLACES: usize = 64;

// The places of the classes of `m`: place k of a class has its number and `k` times the width.
fn repeated(m: u64, width: usize, times: usize) -> u64
    requires { (1 ≤ width) × (times * width ≤ 64) }
    ensures { Repeated m width times result }
{
    let mut all: u64 = 0;
    for k in 0..times {
        all = all | (m << (k * width));
    }
    all
}

// The places that suit each step: those of the classes of level `q` + 1 with somebody for it.
pub fn places_of(
    steps: usize,
    reach: &Reach,
    q: usize,
    width: usize,
    load: usize,
) -> [u64; MOST_STEPS]
    requires { (steps ≤ 12) × (length reach.now ≡ label_entries) × (q < most_levels) × (1 ≤ width) × (load * width ≤ 64) }
    ensures { Places steps reach.now q width load result }
{
    let mut edges = [0u64; MOST_STEPS];
    for s in 0..steps {
        edges[s] = repeated(reach[q * MOST_STEPS + s], width, load);
    }
    edges
}

// Whether the steps of a rule's scope can be given places. Where each step is to have another class, the lower
// limit says the same; where the number of a class is too great for its places, nothing is said.
fn keeps_load(steps: usize, reach: &Reach, r: u32) -> bool
    requires { (steps ≤ 12) × (length reach.now ≡ label_entries) × (1 ≤ level_in r) × (level_in r ≤ most_levels) × (scope_in r < 2 ^ steps) }
    ensures { KeepsLoadOf steps reach.now r result }
{
    let load = rule::load(r);
    if load < 2 {
        return true;
    }
    let width = PLACES / load;
    let scope = rule::scope(r);
    let q = rule::level(r) - 1;
    let all = classes_of(steps, reach, q, scope);
    let low = u64::below(width);
    if all | low != low {
        return true;
    }
    let edges = places_of(steps, reach, q, width, load);
    assign(&edges, scope).is_some()
}

// Whether each greatest load can be kept to.
pub fn loads_fit(size: Size, rule: &Rules, reach: &Reach) -> bool
    requires { Ruled size rule.now × (length reach.now ≡ label_entries) }
    ensures { Loads size.steps size.rules rule.now reach.now result }
{
    every(size, rule, |r| {
        !rule::limits_load(r) || keeps_load(size.steps, reach, r)
    })
}

// A test of two greatest loads at nested levels together, once for a search: a class of the coarser level has as many places
// as steps it may hold, and no more than the classes of the finer level inside it, with somebody for a step, may hold.
ghost use Rattle.std.specs.Prelude.{◌≡◌, ◌^◌, ◌≤◌, ◌<◌, length};
ghost use Rattle.bits.specs.Sizes.{most_levels, class_entries, label_entries};
ghost use Rattle.pattern.specs.Given.{Ruled};
ghost use Rattle.pattern.specs.Rule.{level_in, scope_in};
ghost use Rattle.search.specs.PairedLoads.{Inside, Room, Kept, KeepsBothOf, Partners, Pairs};

use super::limits::classes_of;
use super::loads::{PLACES, places_of};
use super::rules::every;
use bits::set::Set;
use bits::sizes::{Classes, MOST_PEOPLE, MOST_STEPS, Reach, Rules};
use matching::{Edges, assign};
use pattern::{Size, rule};

// The classes of level `fine` + 1 inside each class of level `coarse` + 1.
fn inside(people: usize, class: &Classes, coarse: usize, fine: usize) -> [u64; MOST_PEOPLE]
    requires { (people ≤ 64) × (length class.now ≡ class_entries) × (coarse < most_levels) × (fine < most_levels) }
    ensures { Inside people class.now coarse fine result }
{
    let mut within = [0u64; MOST_PEOPLE];
    for p in 0..people {
        let v = (class[coarse * MOST_PEOPLE + p] % 64) as usize;
        let w = (class[fine * MOST_PEOPLE + p] % 64) as usize;
        within[v] = within[v].with(w);
    }
    within
}

// The places that the classes have: so many as the classes of `all` inside them may hold together.
fn room_of(within: &[u64; MOST_PEOPLE], all: u64, load: usize, width: usize) -> u64
    requires { (length within.now ≡ 64) × (load < 16) × (1 ≤ width) }
    ensures { Room 64 within.now all load width result }
{
    let mut room: u64 = 0;
    for x in 0..PLACES {
        if (within[x % width] & all).size() * load <= x / width {
            continue;
        }
        room = room.with(x);
    }
    room
}

// The places of each step that are in the room.
fn kept_to(edges: &Edges, room: u64) -> Edges
    requires { length edges.now ≡ 12 }
    ensures { Kept 12 edges.now room result }
{
    edges.map(|places| places & room)
}

// Whether the steps that two rules name can be given places in the classes of the first one's level. Where the number of a
// class is too great for its places, nothing is said.
fn keeps_both(size: Size, class: &Classes, reach: &Reach, r: u32, t: u32) -> bool
    requires { (size.steps ≤ 12) × (size.people ≤ 64) × (length class.now ≡ class_entries) × (length reach.now ≡ label_entries)
        × (1 ≤ level_in r) × (level_in r ≤ most_levels) × (1 ≤ level_in t) × (level_in t ≤ most_levels) × (scope_in r < 2 ^ size.steps) }
    ensures { KeepsBothOf size.steps size.people class.now reach.now r t result }
{
    let load = rule::load(r);
    if load < 2 {
        return true;
    }
    let width = PLACES / load;
    let scope = rule::scope(r) & rule::scope(t);
    let q = rule::level(r) - 1;
    let all = classes_of(size.steps, reach, q, scope);
    let low = u64::below(width);
    if all | low != low {
        return true;
    }
    let fine = rule::level(t) - 1;
    let within = inside(size.people, class, q, fine);
    let finer = classes_of(size.steps, reach, fine, scope);
    let room = room_of(&within, finer, rule::load(t), width);
    let edges = places_of(size.steps, reach, q, width, load);
    let kept = kept_to(&edges, room);
    assign(&kept, scope).is_some()
}

// Whether each of two rules limits the load over the steps that both name: else the test of the other one mostly says as much.
// No promise rests on it.
fn both_limit(r: u32, t: u32) -> bool {
    let both = (rule::scope(r) & rule::scope(t)).size();
    (rule::load(r) < both) & (rule::load(t) < both)
}

// Whether the greatest load of a rule can be kept to with each of those at finer levels.
fn partners_fit(size: Size, class: &Classes, rule: &Rules, reach: &Reach, r: u32) -> bool
    requires { Ruled size rule.now × (size.people ≤ 64) × (length class.now ≡ class_entries) × (length reach.now ≡ label_entries)
        × (1 ≤ level_in r) × (level_in r ≤ most_levels) × (scope_in r < 2 ^ size.steps) }
    ensures { Partners size.steps size.people size.rules class.now rule.now reach.now r result }
{
    every(size, rule, |t| {
        rule::level(t) <= rule::level(r)
            || !both_limit(r, t)
            || keeps_both(size, class, reach, r, t)
    })
}

// Whether any two greatest loads can be kept to together.
pub fn pairs_fit(size: Size, class: &Classes, rule: &Rules, reach: &Reach) -> bool
    requires { Ruled size rule.now × (size.people ≤ 64) × (length class.now ≡ class_entries) × (length reach.now ≡ label_entries) }
    ensures { Pairs size.steps size.people size.rules class.now rule.now reach.now result }
{
    every(size, rule, |r| {
        !rule::limits_load(r) || partners_fit(size, class, rule, reach, r)
    })
}

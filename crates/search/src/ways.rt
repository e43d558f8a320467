// The key of each open step: how many ways it has left, by the rules alone, and how much weighs on it. A step
// with few ways is placed next, so that a search which fails does so early. No promise rests on it: a group that is full by a limit on
// the load is counted as a way all the same.
ghost use Rattle.std.specs.Prelude.{◌≡◌, ◌+◌, ◌<◌, ◌≤◌, length};
ghost use Rattle.bits.specs.Sizes.{most_levels, label_entries};
ghost use Rattle.pattern.specs.Given.{Ruled};
ghost use Rattle.pattern.specs.Rule.{level_in, scope_in};
ghost use Rattle.search.specs.Ways.{Tabular};

use bits::set::{Set, members};
use bits::sizes::{LABEL_ENTRIES, Labels, MOST_LEVELS, MOST_STEPS, Reach, Rules, Weights};
use eligible::groups::labels_of;
use pattern::{Size, rule};
use realize::parts::groups_of;
use workflow::count::class_count;

// Any label.
const ANY: u16 = 0xffff;

// What the ways of a step depend on: the classes with somebody for each step, the labels that the rules leave to it, and the labels of
// the placed steps.
#[derive(Clone, Copy)]
pub struct Leeway<'a> {
    pub reach: &'a Reach,
    pub free: &'a [u16; LABEL_ENTRIES],
    pub label: &'a Labels,
}

// The steps of a scope that are in a set.
fn within(scope: u16, steps: u16) -> u16
    requires { scope < 4096 }
    ensures { result < 4096 }
{
    scope & steps
}

// Leaves some steps only such labels.
fn leave(steps: u16, top: usize, labels: u16, free: &mut [u16; LABEL_ENTRIES])
    requires { (steps < 4096) × (top + 12 ≤ label_entries) × (length free.old ≡ label_entries) }
    ensures { length free.new ≡ label_entries }
{
    for s in members(steps) {
        free[top + s] = free[top + s] & labels;
    }
}

// The labels that a rule leaves to its open steps: at its upper end those that its placed steps have, at
// its lower end the others.
fn by_rule(r: u32, placed: u16, label: &Labels, free: &mut [u16; LABEL_ENTRIES])
    requires { (1 ≤ level_in r) × (level_in r ≤ most_levels) × (length label.now ≡ label_entries) × (length free.old ≡ label_entries) × (scope_in r < 4096) }
    ensures { length free.new ≡ label_entries }
{
    let scope = rule::scope(r);
    let left = within(scope, placed ^ ANY);
    if left == 0 {
        return;
    }
    let top = (rule::level(r) - 1) * MOST_STEPS;
    let had = labels_of(within(scope, placed), rule::level(r), label);
    let groups = class_count(had);
    // Labels are steps: a short word holds them.
    let labels = (had % 65536) as u16;
    if groups >= rule::most(r) {
        leave(left, top, labels, free);
        return;
    }
    if groups + left.size() > rule::least(r) {
        return;
    }
    leave(left, top, labels ^ ANY, free);
}

// The labels that all rules leave to the open steps.
fn by_rules(size: Size, rule: &Rules, placed: u16, label: &Labels, free: &mut [u16; LABEL_ENTRIES])
    requires { Ruled size rule.now × (length label.now ≡ label_entries) × (length free.old ≡ label_entries) }
    ensures { length free.new ≡ label_entries }
{
    let rules = size.rules;
    for i in 0..rules {
        by_rule(rule[i], placed, label, free);
    }
}

// Whether step `s` can join the group of level `q` + 1 that is named by `t`: they reach a class in common,
// and the labels are free.
fn joinable(leeway: &Leeway, q: usize, s: usize, t: usize) -> bool
    requires { (q < most_levels) × (s < 12) × (t < 12) × Tabular leeway.now }
{
    let top = q * MOST_STEPS;
    if leeway.reach[top + s] & leeway.reach[top + t] == 0 {
        return false;
    }
    for x in 0..q + 1 {
        let own = leeway.label[x * MOST_STEPS + t] % 16;
        if !leeway.free[x * MOST_STEPS + s].has(own as usize) {
            return false;
        }
    }
    true
}

// Those of some groups of level `q` + 1 that step `s` can join.
fn joined(leeway: &Leeway, q: usize, s: usize, groups: u16) -> u16
    requires { (q < most_levels) × (s < 12) × (groups < 4096) × Tabular leeway.now }
{
    let mut found: u16 = 0;
    for t in members(groups) {
        if !joinable(leeway, q, s, t) {
            continue;
        }
        found = found.with(t);
    }
    found
}

// How many ways step `s` has: to join a group and be new below its level, or new at all levels.
fn ways_of(levels: usize, leeway: &Leeway, heads: &[u16; MOST_LEVELS], s: usize) -> u32
    requires { (levels ≤ most_levels) × (s < 12) × Tabular leeway.now × (length heads.now ≡ most_levels) }
{
    let mut ways: u32 = 0;
    for k in 0..levels {
        let q = levels - 1 - k;
        ways += joined(leeway, q, s, heads[q] % 4096).size() as u32;
        if !leeway.free[q * MOST_STEPS + s].has(s) {
            return ways;
        }
    }
    ways + 1
}

// The groups of each level, by their names.
fn heads_of(levels: usize, placed: u16, label: &Labels) -> [u16; MOST_LEVELS]
    requires { (levels ≤ most_levels) × (placed < 4096) × (length label.now ≡ label_entries) }
    ensures { length result ≡ most_levels }
{
    let mut heads = [0u16; MOST_LEVELS];
    for q in 0..levels {
        heads[q] = groups_of(label, q, placed);
    }
    heads
}

// The key of a step: the lowest comes first.
fn key(ways: u32, weight: u32) -> u64 {
    ways as u64 * 1000000000 / (1 + weight as u64)
}

// The keys of the steps of `rest`.
fn keyed(
    levels: usize,
    leeway: &Leeway,
    heads: &[u16; MOST_LEVELS],
    weight: &Weights,
    rest: u16,
) -> [u64; MOST_STEPS]
    requires { (levels ≤ most_levels) × (rest < 4096) × Tabular leeway.now × (length heads.now ≡ most_levels) × (length weight.now ≡ 12) }
    ensures { length result ≡ 12 }
{
    let mut keys = [0u64; MOST_STEPS];
    for s in members(rest) {
        keys[s] = key(ways_of(levels, leeway, heads, s), weight[s]);
    }
    keys
}

// The keys of the open steps.
pub fn keys(
    size: Size,
    rule: &Rules,
    reach: &Reach,
    placed: u16,
    rest: u16,
    label: &Labels,
    weight: &Weights,
) -> [u64; MOST_STEPS]
    requires { Ruled size rule.now × (placed < 4096) × (rest < 4096) × (length reach.now ≡ label_entries) × (length label.now ≡ label_entries) × (length weight.now ≡ 12) }
    ensures { length result ≡ 12 }
{
    let mut free = [ANY; LABEL_ENTRIES];
    by_rules(size, rule, placed, label, &mut free);
    let heads = heads_of(size.levels, placed, label);
    let leeway = Leeway {
        reach: reach,
        free: &free,
        label: label,
    };
    keyed(size.levels, &leeway, &heads, weight, rest)
}

// Whether a job has a valid plan, by a search through the groupings of its steps at each level.
ghost use Rattle.std.specs.Prelude.{◌≡◌, ◌≤◌, length};
ghost use Rattle.bits.specs.Says.{Says};
ghost use Rattle.levels.specs.Tabled.{tabled_job, Ready};
ghost use Rattle.pattern.specs.Tables.{may_in};
ghost use Rattle.search.specs.Existence.{Named, Foremost, AllStaffed, GivesFirst, Existence};

use super::find::{Front, find};
use super::limits::limits_reached;
use super::loads::loads_fit;
use super::opposed::opposed;
use super::pairs::pairs_fit;
use super::setting::Setting;
use bits::set::{Set, members};
use bits::sizes::{Domains, LABEL_ENTRIES, MOST_STEPS, Naming, Plan, Weights};
use eligible::eligible;
use levels::Tables;
use levels::nest::nests;
use realize::parts::Layout;
use realize::realize;
use realize::tables::reaches;

// The steps that rules name.
fn named(steps: usize, of: &Naming) -> u16
    requires { (steps ≤ 12) × (length of.now ≡ 12) }
    ensures { Named steps of.now result }
{
    let mut all: u16 = 0;
    for s in 0..steps {
        if of[s] == 0 {
            continue;
        }
        all = all.with(s);
    }
    all
}

// The first person of a mask, where there is one.
fn foremost(mask: u64) -> Option<usize>
    ensures { Foremost mask result }
{
    members(mask).next()
}

// Whether each step has somebody permitted.
fn staffed(steps: usize, people: usize, may: &Domains) -> bool
    requires { (steps ≤ 12) × (people ≤ 64) × (length may.now ≡ 12) }
    ensures { Says result (AllStaffed steps people may.now) }
{
    let all = u64::below(people);
    for s in 0..steps {
        if may[s] & all == 0 {
            return false;
        }
    }
    true
}

// A plan that gives each step the first person permitted.
fn give_first(steps: usize, may: &Domains) -> Plan
    requires { (steps ≤ 12) × (length may.now ≡ 12) }
    ensures { GivesFirst steps may.now result }
{
    let mut plan = [0u8; MOST_STEPS];
    for s in 0..steps {
        let Some(p) = foremost(may[s]) else {
            continue;
        };
        plan[s] = p as u8;
    }
    plan
}

// A valid plan, where there is one. Rules that exclude each other, lower limits out of reach and loads that cannot be kept to, alone or
// two at nested levels, need no search.
pub fn by_patterns(tables: &Tables, may: &Domains, weight: &mut Weights) -> Option<Plan>
    requires { Ready tables.now × (length may.now ≡ 12) × (length weight.old ≡ 12) }
    ensures { Existence (tabled_job tables.now) (may_in may.now) result × (length weight.new ≡ 12) }
{
    let size = tables.size;
    let rule = &tables.rule;
    if opposed(size.rules, rule) {
        return None;
    }
    if !staffed(size.steps, size.people, may) {
        return None;
    }
    let mut label = [0u8; LABEL_ENTRIES];
    if !eligible(u64::below(size.rules), rule, 0, &label) {
        return None;
    }
    let class = &tables.class;
    let nest = nests(size.people, size.levels, class, &tables.crowd);
    let reach = reaches(size.people, size.levels, class, &nest, may);
    if !limits_reached(size, rule, &reach) {
        return None;
    }
    if !loads_fit(size, rule, &reach) {
        return None;
    }
    if !pairs_fit(size, class, rule, &reach) {
        return None;
    }
    let rest = named(size.steps, &tables.of);
    let front = Front {
        placed: 0,
        rest: rest,
    };
    let setting = Setting {
        size: size,
        nest: &nest,
        rule: rule,
        of: &tables.of,
        may: may,
        reach: &reach,
    };
    if !find(&setting, front, &mut label, weight) {
        return None;
    }
    let mut plan = give_first(size.steps, may);
    let layout = Layout {
        may: may,
        label: &label,
        nest: &nest,
        reach: &reach,
    };
    realize(size, &layout, rest, &mut plan);
    Some(plan)
}

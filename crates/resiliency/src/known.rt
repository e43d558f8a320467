// Searches for a plan without some people, and the plans that they find. The last 64 are kept, the newest
// first: each has its people as a mask, and each person's word says which of them do without that person.
ghost use Rattle.std.specs.Prelude.{◌≡◌, ℕ, ◌≤◌, ◌<◌, length, get_or};
ghost use Rattle.bits.specs.Word.{has_bit};
ghost use Rattle.levels.specs.Tabled.{Ready};
ghost use Rattle.resiliency.specs.Known.{Remaining, Uses, Noted, Moved, Needed, KeptPlan, Keeping, Asked};

use super::varied::varied;
use bits::set::{Set, members};
use bits::sizes::{Domains, MOST_PEOPLE, MOST_STEPS, Plan, Weights};
use levels::Tables;

// All plans but the one kept longest.
const ALL_BUT_LAST: u64 = 0x7fff_ffff_ffff_ffff;

// The last plans found, and the weights of the search.
#[derive(Drop)]
pub struct Kept {
    pub known: [u64; MOST_PEOPLE],
    pub plans: [u64; MOST_PEOPLE],
    pub weight: Weights,
}

// The people permitted who are not away, for each step.
fn remaining(may: &Domains, away: u64) -> [u64; MOST_STEPS]
    requires { length may.now ≡ 12 }
    ensures { Remaining may.now away 12 result }
{
    may.map(|people| (people | away) ^ away)
}

// The people of a plan.
fn people_of(steps: usize, plan: &Plan) -> u64
    requires { (steps ≤ 12) × (length plan.now ≡ 12) × ((s : ℕ) → s < steps → get_or plan.now s 0 < 64) }
    ensures { Uses steps plan.now result }
{
    let mut mask: u64 = 0;
    for s in 0..steps {
        mask = mask.with(plan[s] as usize);
    }
    mask
}

// Puts a plan of these people in front of the kept ones, in each person's word: bit 0 says whether it does
// without that person. The last plan goes.
fn note(mask: u64, known: &mut [u64; MOST_PEOPLE])
    requires { length known.old ≡ 64 }
    ensures { Noted mask 64 known.old known.new }
{
    for p in 0..MOST_PEOPLE {
        let moved = (known[p] & ALL_BUT_LAST) * 2;
        if mask.has(p) {
            known[p] = moved;
            continue;
        }
        known[p] = moved + 1;
    }
}

// The same for the people of the plans.
fn put_first(mask: u64, plans: &mut [u64; MOST_PEOPLE])
    requires { length plans.old ≡ 64 }
    ensures { Moved mask 64 plans.old plans.new }
{
    let mut next = mask;
    for i in 0..MOST_PEOPLE {
        let here = plans[i];
        plans[i] = next;
        next = here;
    }
}

// Keeps a plan, in front of the others, and gives its people.
pub fn keep_plan(
    steps: usize,
    plan: &Plan,
    known: &mut [u64; MOST_PEOPLE],
    plans: &mut [u64; MOST_PEOPLE],
) -> u64
    requires { (steps ≤ 12) × (length plan.now ≡ 12) × ((s : ℕ) → s < steps → get_or plan.now s 0 < 64)
        × (length known.old ≡ 64) × (length plans.old ≡ 64) }
    ensures { KeptPlan steps plan.now result known.old plans.old known.new plans.new }
{
    let mask = people_of(steps, plan);
    note(mask, known);
    put_first(mask, plans);
    mask
}

// Those of some people whom each kept plan of a word needs.
pub fn needed(word: u64, plans: &[u64; MOST_PEOPLE], among: u64) -> u64
    requires { length plans.now ≡ 64 }
    ensures { Needed word plans.now among result }
{
    let mut rest = among;
    for i in members(word) {
        if rest == 0 {
            return rest;
        }
        rest = rest & plans[i];
    }
    rest
}

// Searches for a plan without the people away, and keeps it. Gives the people whom it needs: anyone else may be away as well.
pub fn searched(tables: &Tables, may: &Domains, away: u64, kept: &mut Kept) -> Option<u64>
    requires { Ready tables.now × (length may.now ≡ 12) × Keeping tables.now may.now kept.old }
    ensures { Asked tables.now may.now (has_bit away) kept.new result }
{
    let rest = remaining(may, away);
    let plan = varied(tables, &rest, &kept.plans, &mut kept.weight)?;
    let needs = keep_plan(tables.size.steps, &plan, &mut kept.known, &mut kept.plans);
    Some(needs)
}

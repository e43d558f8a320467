// The away sets of a size, in crew order, up to the first whose absence leaves no valid plan. Of those that differ in their last member
// alone, the ones that a plan found answers for are passed over.
ghost use Rattle.std.specs.Prelude.{true, ◌≡◌, ◌+◌, ◌≤◌, ◌<◌, length};
ghost use Rattle.levels.specs.Tabled.{tabled_job, Ready};
ghost use Rattle.pattern.specs.Tables.{may_in};
ghost use Rattle.resiliency.specs.Group.{members_in, Sized};
ghost use Rattle.resiliency.specs.Known.{Keeping, EachSpared};
ghost use Rattle.resiliency.specs.Onward.{FirstFrom};

use crate::group::Group;
use crate::known::{Kept, needed, searched};
use bits::set::{Set, members};
use bits::sizes::{Domains, MOST_PEOPLE};
use levels::Tables;

// The group with the first person, from one on, whose absence besides leaves no valid plan.
fn last_member(
    tables: &Tables,
    may: &Domains,
    away: Group,
    from: usize,
    kept: &mut Kept,
) -> Option<Group>
    requires { Ready tables.now × (length may.now ≡ 12) × Keeping tables.now may.now kept.old × Sized away × (away.size < 3) × (from ≤ tables.now.size.people) }
    ensures { Keeping tables.now may.now kept.new × FirstFrom (tabled_job tables.now) (may_in may.now) (members_in away) from 1 result }
{
    let people = away.set();
    let among = u64::below(tables.size.people) ^ u64::below(from);
    let mut rest = members(needed(away.spared_by(&kept.known), &kept.plans, among));
    // No `for`: each turn leaves only those whom the plan found needs.
    while let Some(p) = rest.next() {
        let stands = searched(tables, may, people.with(p), kept);
        let Some(needs) = stands else {
            return Some(away.and(p));
        };
        rest.left = rest.left & needs;
    }
    None
}

// Whether of the people from one on each is spared by one of the kept plans of a word. No promise rests on a no.
fn all_spared(people: usize, from: usize, word: u64, plans: &[u64; MOST_PEOPLE]) -> bool
    requires { (people ≤ 64) × (from ≤ people) × (length plans.now ≡ 64) }
    ensures { result ≡ true → EachSpared people from word plans.now }
{
    let among = u64::below(people) ^ u64::below(from);
    needed(word, plans, among) == 0
}

// The first group of these people and so many more, from one on, whose absence leaves no valid plan.
pub fn first_group(
    tables: &Tables,
    may: &Domains,
    away: Group,
    from: usize,
    more: usize,
    kept: &mut Kept,
) -> Option<Group>
    requires { Ready tables.now × (length may.now ≡ 12) × Keeping tables.now may.now kept.old × Sized away × (1 ≤ more) × (away.size + more ≤ 3) × (from ≤ tables.now.size.people) }
    ensures { Keeping tables.now may.now kept.new × FirstFrom (tabled_job tables.now) (may_in may.now) (members_in away) from more result }
{
    if more == 1 {
        return last_member(tables, may, away, from, kept);
    }
    let people = tables.size.people;
    let mut spared = away.spared_by(&kept.known);
    for p in from..people {
        // Mostly the kept plans answer for each last member: then no group is made, and nothing is asked.
        if more == 2 && all_spared(people, p + 1, spared & kept.known[p], &kept.plans) {
            continue;
        }
        let found = first_group(tables, may, away.and(p), p + 1, more - 1, kept);
        if let Some(group) = found {
            return Some(group);
        }
        // What is kept may have changed.
        spared = away.spared_by(&kept.known);
    }
    None
}

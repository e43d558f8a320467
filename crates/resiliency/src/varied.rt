// A search that looks first for a plan of other people than the plans kept last. Plans that share nobody
// do without anyone between them, so that few searches are asked for in all.
ghost use Rattle.std.specs.Prelude.{◌≡◌, ◌≤◌, ◌<◌, length};
ghost use Rattle.levels.specs.Tabled.{tabled_job, Ready};
ghost use Rattle.pattern.specs.Tables.{may_in};
ghost use Rattle.search.specs.Existence.{Existence};
ghost use Rattle.resiliency.specs.Varied.{Fresh};

use backtrack::attempt;
use bits::set::ALL;
use bits::sizes::{Domains, MOST_PEOPLE, MOST_STEPS, Plan, Weights};
use levels::Tables;
use search::exists::exists;

// How many rules the search for other people may look at.
const EFFORT: u32 = 100;

// The people of a kept plan, or nobody where there is none yet.
fn people_at(i: usize, plans: &[u64; MOST_PEOPLE]) -> u64
    requires { (i < 64) × (length plans.now ≡ 64) }
{
    let mask = plans[i];
    if mask == ALL {
        return 0;
    }
    mask
}

// The people permitted who are not of `used`, for each step; all of them where nobody else is.
fn fresh(may: &Domains, used: u64) -> [u64; MOST_STEPS]
    requires { length may.now ≡ 12 }
    ensures { Fresh 12 may.now result }
{
    may.map(|people| {
        let new = (people | used) ^ used;
        if new == 0 { people } else { new }
    })
}

// A valid plan, where there is one: of nobody of the three newest plans where that is found at once.
pub fn varied(
    tables: &Tables,
    may: &Domains,
    plans: &[u64; MOST_PEOPLE],
    weight: &mut Weights,
) -> Option<Plan>
    requires { Ready tables.now × (length may.now ≡ 12) × (length plans.now ≡ 64) × (length weight.old ≡ 12) }
    ensures { Existence (tabled_job tables.now) (may_in may.now) result × (length weight.new ≡ 12) }
{
    let used = people_at(0, plans) | people_at(1, plans) | people_at(2, plans);
    if used == 0 {
        return exists(tables, may, weight);
    }
    let others = fresh(may, used);
    let tried = attempt(tables, &others, false, EFFORT);
    if let Ok(Some(plan)) = tried {
        return Some(plan);
    }
    exists(tables, may, weight)
}

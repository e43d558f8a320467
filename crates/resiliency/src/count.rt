// The spare count: sizes of away sets go up from 1 to the cap, and the first breaking group ends the walk.
ghost use Rattle.std.specs.Prelude.{◌≡◌, ◌≤◌, length};
ghost use Rattle.levels.specs.Tabled.{tabled_job, Ready};
ghost use Rattle.pattern.specs.Tables.{may_in};
ghost use Rattle.resiliency.specs.Count.{count_from, spare};
ghost use Rattle.resiliency.specs.Known.{Keeping, told};
ghost use Rattle.resiliency.specs.Left.{Groups};

use crate::Spared;
use crate::group::Group;
use crate::known::{Kept, keep_plan};
use crate::walk::first_group;
use bits::set::ALL;
use bits::sizes::{Domains, MOST_PEOPLE};
use levels::Tables;
use search::exists::exists;
use search::weights::weights;

// The walk over the sizes, where a plan with everyone present exists.
fn sizes(tables: &Tables, may: &Domains, cap: usize, kept: &mut Kept) -> Spared
    requires { Ready tables.now × (length may.now ≡ 12) × (cap ≤ 3) × Keeping tables.now may.now kept.old }
    ensures { (told result ≡ count_from (tabled_job tables.now) (may_in may.now) cap 0) × Groups result }
{
    for size in 0..cap {
        let found = first_group(tables, may, Group::none(), 0, size + 1, kept);
        if let Some(group) = found {
            return Spared::Broken(group);
        }
    }
    Spared::Capped
}

// The spare count of a job with a cap of at most 3.
pub fn spare_count(tables: &Tables, may: &Domains, cap: usize) -> Spared
    requires { Ready tables.now × (length may.now ≡ 12) × (cap ≤ 3) }
    ensures { (told result ≡ spare (tabled_job tables.now) (may_in may.now) cap) × Groups result }
{
    let mut weight = weights(&tables.of);
    let Some(plan) = exists(tables, may, &mut weight) else {
        return Spared::Unsatisfiable;
    };
    let mut kept = Kept {
        known: [0; MOST_PEOPLE],
        plans: [ALL; MOST_PEOPLE],
        weight,
    };
    keep_plan(tables.size.steps, &plan, &mut kept.known, &mut kept.plans);
    sizes(tables, may, cap, &mut kept)
}

// A job relaxed to one of its levels, with what the rules of other levels say of it: where that has no valid
// plan, neither has the job.
ghost use Rattle.std.specs.Prelude.{◌≡◌, ◌≤◌, length};
ghost use Rattle.levels.specs.Tabled.{tabled_job, Ready};
ghost use Rattle.pattern.specs.Tables.{may_in};
ghost use Rattle.search.specs.Existence.{Refuting};

use super::patterns::by_patterns;
use bits::sizes::{Domains, Weights};
use levels::{Tables, keep};
use relax::carry;

// Whether the job relaxed to level `q` has no valid plan.
fn refuted(tables: &Tables, may: &Domains, q: usize, weight: &mut Weights) -> bool
    requires { Ready tables.now × (length may.now ≡ 12) × (length weight.old ≡ 12) × (1 ≤ q) × (q ≤ tables.now.size.levels) }
    ensures { Refuting (tabled_job tables.now) (may_in may.now) result × (length weight.new ≡ 12) }
{
    let carried = carry(tables.size, &tables.class, &tables.rule, q);
    let relaxed = keep(tables.size, &tables.class, &carried);
    by_patterns(&relaxed, may, weight).is_none()
}

// Whether the job relaxed to one of its levels has no valid plan.
pub fn refuted_by_levels(tables: &Tables, may: &Domains, weight: &mut Weights) -> bool
    requires { Ready tables.now × (length may.now ≡ 12) × (length weight.old ≡ 12) }
    ensures { Refuting (tabled_job tables.now) (may_in may.now) result × (length weight.new ≡ 12) }
{
    let levels = tables.size.levels;
    // One level is no relaxation.
    if levels < 2 {
        return false;
    }
    for q in 0..levels {
        if refuted(tables, may, q + 1, weight) {
            return true;
        }
    }
    false
}

// Whether a job has a valid plan, and one where it has: by the search over people first, which answers most
// questions, then by each level alone, then by patterns.
ghost use Rattle.std.specs.Prelude.{◌≡◌, length};
ghost use Rattle.levels.specs.Tabled.{tabled_job, Ready};
ghost use Rattle.pattern.specs.Tables.{may_in};
ghost use Rattle.search.specs.Existence.{Existence};

use super::patterns::by_patterns;
use super::refute::refuted_by_levels;
use backtrack::{Tired, attempt};
use bits::sizes::{Domains, Plan, Weights};
use levels::Tables;
use narrow::propagate::narrow_all;

// How many rules the search over people may look at: some tens of microseconds' worth.
const EFFORT: u32 = 500;

// A valid plan, where there is one, among those whom the rules leave.
fn thorough(tables: &Tables, may: &Domains, weight: &mut Weights) -> Option<Plan>
    requires { Ready tables.now × (length may.now ≡ 12) × (length weight.old ≡ 12) }
    ensures { Existence (tabled_job tables.now) (may_in may.now) result × (length weight.new ≡ 12) }
{
    let mut dom = *may;
    if !narrow_all(tables, &mut dom) {
        return None;
    }
    if refuted_by_levels(tables, &dom, weight) {
        return None;
    }
    by_patterns(tables, &dom, weight)
}

// A valid plan, where there is one.
pub fn exists(tables: &Tables, may: &Domains, weight: &mut Weights) -> Option<Plan>
    requires { Ready tables.now × (length may.now ≡ 12) × (length weight.old ≡ 12) }
    ensures { Existence (tabled_job tables.now) (may_in may.now) result × (length weight.new ≡ 12) }
{
    match attempt(tables, may, false, EFFORT) {
        Ok(found) => found,
        Err(Tired) => thorough(tables, may, weight),
    }
}

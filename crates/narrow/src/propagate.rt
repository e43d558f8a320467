// Domains narrowed by rule after rule, as far as the effort goes.
ghost use Rattle.std.specs.Prelude.{◌≡◌, length};
ghost use Rattle.levels.specs.Tabled.{Tabled, tabled_job};
ghost use Rattle.narrow.specs.Domains.{Narrowed};

use super::revise::revise;
use super::sets::all_of;
use bits::set::{Set, members};
use bits::sizes::Domains;
use levels::Tables;

// How many rules a narrowing without a search may look at: more than it needs.
const ENOUGH: u32 = 100000;

// Narrows the domains by the pending rules and by those that name a step whose domain gets smaller. Says
// whether every step has somebody left.
pub fn propagate(tables: &Tables, pending: u64, dom: &mut Domains, effort: &mut u32) -> bool
    requires { Tabled tables.now.size tables.now.crowd tables.now.rule tables.now.of × (length dom.old ≡ 12) }
    ensures { Narrowed (tabled_job tables.now) dom.old dom.new result }
{
    let mut waiting = members(pending);
    // No `for`: each turn may add rules that wait.
    while let Some(i) = waiting.next() {
        if *effort == 0 {
            return true;
        }
        *effort -= 1;
        if i >= tables.size.rules {
            continue;
        }
        let Ok(changed) = revise(&tables.crowd, tables.rule[i], dom) else {
            return false;
        };
        waiting.left = (waiting.left | all_of(changed, &tables.of)).without(i);
    }
    true
}

// Narrows the domains by all rules of a job. Says whether every step has somebody left.
pub fn narrow_all(tables: &Tables, dom: &mut Domains) -> bool
    requires { Tabled tables.now.size tables.now.crowd tables.now.rule tables.now.of × (length dom.old ≡ 12) }
    ensures { Narrowed (tabled_job tables.now) dom.old dom.new result }
{
    let mut effort = ENOUGH;
    let all = u64::below(tables.size.rules);
    propagate(tables, all, dom, &mut effort)
}

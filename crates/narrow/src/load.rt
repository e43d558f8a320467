// Domains narrowed by the greatest load of a rule: a class that holds as many steps of the scope as it may is
// closed to the others.
ghost use Rattle.std.specs.Prelude.{◌≡◌, ◌<◌, length};
ghost use Rattle.std.specs.Result.{IfOk, is_err};
ghost use Rattle.workflow.specs.Problem.{Job};
ghost use Rattle.pattern.specs.Rule.{level_in, scope_in, unpacked};
ghost use Rattle.eligible.specs.Classes.{OneLevel, ForJobs};
ghost use Rattle.narrow.specs.Domains.{Revised};
ghost use Rattle.narrow.specs.Loading.{Within, OneClass};

use super::fixed::shared;
use super::restrict::{Unmet, restrict};
use bits::set::{ALL, Set, members};
use bits::sizes::{Crowds, Domains};
use pattern::rule;

// The steps of a scope that only people of the mask may do.
fn within(mask: u64, scope: u16, dom: &Domains) -> u16
    requires { (scope < 4096) × (length dom.now ≡ 12) }
    ensures { Within mask scope dom.now result }
{
    let mut held: u16 = 0;
    for s in members(scope) {
        let domain = dom[s];
        if domain & mask != domain {
            continue;
        }
        held = held.with(s);
    }
    held
}

// Narrows the domains by how many steps one class holds, with the people of that class as the mask.
fn close(mask: u64, r: u32, dom: &mut Domains) -> Result<u16, Unmet>
    requires { (scope_in r < 4096) × (length dom.old ≡ 12) }
    ensures { ((j : Job) → OneClass j r mask dom.old → Revised j (unpacked r) dom.old dom.new (is_err result))
        × IfOk result (λ changed. changed < 4096) }
{
    let scope = rule::scope(r);
    let held = within(mask, scope, dom);
    let load = held.size();
    let highest = rule::load(r);
    if load > highest {
        return Err(Unmet);
    }
    if load < highest {
        return Ok(0);
    }
    restrict(scope ^ held, mask ^ ALL, dom)
}

// Narrows the domains by the load of each class that some step of the scope has in every plan.
pub fn by_load(crowd: &Crowds, r: u32, dom: &mut Domains) -> Result<u16, Unmet>
    requires { OneLevel crowd.now (level_in r) × (scope_in r < 4096) × (length dom.old ≡ 12) }
    ensures { ForJobs crowd.now r (λ j. Revised j (unpacked r) dom.old dom.new (is_err result))
        × IfOk result (λ changed. changed < 4096) }
{
    let level = rule::level(r);
    let mut changed: u16 = 0;
    for s in members(rule::scope(r)) {
        let mask = shared(crowd, level, dom[s]);
        if mask == 0 {
            continue;
        }
        let closed = close(mask, r, dom)?;
        changed = changed | closed;
    }
    Ok(changed)
}

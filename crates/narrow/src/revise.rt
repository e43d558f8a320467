// Domains narrowed by one rule, by its count and then by its load. Where the count is at the upper end, or steps that are
// apart bring it there, the open steps join the classes that there are; at the lower end, they avoid them.
ghost use Rattle.std.specs.Prelude.{true, ◌≡◌, ◌<◌, ◌≤◌, length};
ghost use Rattle.std.specs.Int.Count.{ones};
ghost use Rattle.std.specs.Result.{IfOk, is_err};
ghost use Rattle.pattern.specs.Rule.{level_in, most_in, scope_in, unpacked};
ghost use Rattle.eligible.specs.Classes.{OneLevel, ForClasses, ForJobs};
ghost use Rattle.narrow.specs.Domains.{Revised};
ghost use Rattle.narrow.specs.Narrowing.{Common, AskedOnly, Hopeless, Allowed};
ghost use Rattle.narrow.specs.Parting.{Limited};

use super::apart::{apart, reach};
use super::fixed::{Forced, fixed};
use super::load::by_load;
use super::restrict::{Unmet, restrict};
use super::spread::spread;
use bits::set::{ALL, Set, members};
use bits::sizes::{Crowds, Domains};
use pattern::rule;

// Everybody who shares a class with somebody of the domain of each of these steps.
fn common(crowd: &Crowds, level: usize, steps: u16, dom: &Domains) -> u64
    requires { OneLevel crowd.now level × (steps < 4096) × (length dom.now ≡ 12) }
    ensures { ForClasses crowd.now level (λ people c. Common people c steps dom.now 0 result) }
{
    let mut found = ALL;
    for s in members(steps) {
        found = found & reach(crowd, level, dom[s]);
    }
    found
}

// The people among whom a rule leaves its open steps: `groups` classes are had, and `wide` steps are open.
fn left_to(used: u64, groups: usize, wide: usize, lowest: usize, highest: usize) -> u64
    requires { (groups ≤ 64) × (wide ≤ 16) }
    ensures { AskedOnly used groups wide lowest highest result }
{
    if groups == highest {
        return used;
    }
    if groups + wide == lowest {
        return used ^ ALL;
    }
    ALL
}

// The people among whom the upper limit of a rule leaves the open steps: those that are apart have a class
// each, so that too many of them leave nobody, and just enough leave the classes that these have.
fn upper(crowd: &Crowds, r: u32, forced: Forced, dom: &Domains) -> u64
    requires { OneLevel crowd.now (level_in r) × (forced.wide < 4096) × (forced.count ≤ 64) × (length dom.now ≡ 12) }
    ensures { ForClasses crowd.now (level_in r)
        (λ people c. Limited people c forced.wide forced.used dom.now forced.count (most_in r) result) }
{
    let parts = apart(crowd, rule::level(r), forced.wide, forced.used, dom);
    let total = forced.count + parts.heads.size();
    let highest = rule::most(r);
    if total > highest {
        return 0;
    }
    if total < highest {
        return ALL;
    }
    parts.used
}

// Whether no plan of the domains can meet a rule. How many classes the open steps can add is not asked where
// there are two at most: it takes its time.
fn hopeless(crowd: &Crowds, r: u32, forced: Forced, dom: &Domains) -> bool
    requires { OneLevel crowd.now (level_in r) × (forced.wide < 4096) × (forced.count ≤ 64) × (length dom.now ≡ 12) }
    ensures { result ≡ true → ForClasses crowd.now (level_in r)
        (λ people c. Hopeless people c r forced.wide forced.used dom.now forced.count (ones forced.wide)) }
{
    let groups = forced.count;
    let open = forced.wide.size();
    if !rule::can_be_met(r, groups, open) {
        return true;
    }
    if groups >= rule::least(r) {
        return false;
    }
    if groups + open <= 2 {
        return false;
    }
    let fresh = spread(crowd, rule::level(r), forced.wide, forced.used, dom);
    !rule::can_be_met(r, groups, fresh)
}

// The people among whom a rule leaves its open steps.
fn allowed(crowd: &Crowds, r: u32, forced: Forced, dom: &Domains) -> u64
    requires { OneLevel crowd.now (level_in r) × (forced.wide < 4096) × (forced.count ≤ 64) × (length dom.now ≡ 12) }
    ensures { ForClasses crowd.now (level_in r)
        (λ people c. Allowed people c r forced.wide forced.used dom.now forced.count (ones forced.wide) result) }
{
    let groups = forced.count;
    let open = forced.wide.size();
    let highest = rule::most(r);
    if groups == 0 {
        if highest == 1 {
            return common(crowd, rule::level(r), forced.wide, dom);
        }
    }
    if groups < highest {
        if highest < groups + open {
            return upper(crowd, r, forced, dom);
        }
    }
    left_to(forced.used, groups, open, rule::least(r), highest)
}

// Narrows the domains by how many classes a rule asks for.
fn by_count(crowd: &Crowds, r: u32, dom: &mut Domains) -> Result<u16, Unmet>
    requires { OneLevel crowd.now (level_in r) × (scope_in r < 4096) × (length dom.old ≡ 12) }
    ensures { ForJobs crowd.now r (λ j. Revised j (unpacked r) dom.old dom.new (is_err result))
        × IfOk result (λ changed. changed < 4096) }
{
    let forced = fixed(crowd, rule::level(r), rule::scope(r), dom);
    if hopeless(crowd, r, forced, dom) {
        return Err(Unmet);
    }
    let people = allowed(crowd, r, forced, dom);
    restrict(forced.wide, people, dom)
}

// Narrows the domains by one rule. Where no class can hold too many steps, its load asks for nothing.
pub fn revise(crowd: &Crowds, r: u32, dom: &mut Domains) -> Result<u16, Unmet>
    requires { OneLevel crowd.now (level_in r) × (scope_in r < 4096) × (length dom.old ≡ 12) }
    ensures { ForJobs crowd.now r (λ j. Revised j (unpacked r) dom.old dom.new (is_err result))
        × IfOk result (λ changed. changed < 4096) }
{
    let first = by_count(crowd, r, dom)?;
    if !rule::limits_load(r) {
        return Ok(first);
    }
    let second = by_load(crowd, r, dom)?;
    Ok(first | second)
}

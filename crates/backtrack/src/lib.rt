// A search for a plan over people, step after step, with domains narrowed by the rules: in order for the
// first plan, or else with the steps of few people first for any. It gives up when its effort is spent: most
// sheets it answers at once, and for the others there is the pattern search.
#![tactic(auto)]

mod ends;
mod order;

ghost use Rattle.std.specs.Prelude.{◌≡◌, ◌<◌, length};
ghost use Rattle.levels.specs.Tabled.{Tabled, tabled_job};
ghost use Rattle.backtrack.specs.Trial.{pinned, Alone, Others, Trial};

use bits::set::{Set, members};
use bits::sizes::{Domains, Plan};
use ends::finish;
use levels::Tables;
use narrow::propagate::propagate;
use order::{next_step, several};

// A search that gave up, its effort being spent: nothing is known.
#[derive(Clone, Copy, Debug, PartialEq, Eq)]
pub struct Tired;

// What came of a search: a plan, in order the first, or that there is none.
pub type Outcome = Result<Option<Plan>, Tired>;

// A step, the person it is given to, and the steps that are left then.
#[derive(Clone, Copy)]
struct Choice {
    step: usize,
    person: usize,
    rest: u16,
}

// A plan of the domains with the choice made; the other steps have one person at most, but for those left.
#[cycle(branch_extend)]
fn branch(
    tables: &Tables,
    ordered: bool,
    choice: Choice,
    dom: &Domains,
    effort: &mut u32,
) -> Outcome
    requires { Tabled tables.now.size tables.now.crowd tables.now.rule tables.now.of × (length dom.now ≡ 12)
        × Others tables.now.size.steps choice.rest choice.step dom.now × (choice.step < tables.now.size.steps) × (choice.person < 64) }
    ensures { Trial ordered (tabled_job tables.now) (pinned dom.now choice.step choice.person) result }
{
    let s = choice.step;
    let mut next = *dom;
    next[s] = 1 << choice.person;
    if !propagate(tables, tables.of[s], &mut next, effort) {
        return Ok(None);
    }
    extend(tables, ordered, choice.rest, &next, effort)
}

// A plan of the domains, where the steps but those of `rest` have one person at most.
#[cycle(branch_extend)]
fn extend(tables: &Tables, ordered: bool, rest: u16, dom: &Domains, effort: &mut u32) -> Outcome
    requires { Tabled tables.now.size tables.now.crowd tables.now.rule tables.now.of × (length dom.now ≡ 12)
        × Alone tables.now.size.steps rest dom.now }
    ensures { Trial ordered (tabled_job tables.now) dom.now result }
{
    let wide = several(rest, dom);
    if wide == 0 {
        return finish(tables, dom);
    }
    let s = next_step(ordered, &tables.of, dom, wide);
    let others = wide.without(s);
    for person in members(dom[s]) {
        if *effort == 0 {
            return Err(Tired);
        }
        *effort -= 1;
        let choice = Choice {
            step: s,
            person,
            rest: others,
        };
        if let Some(plan) = branch(tables, ordered, choice, dom, effort)? {
            return Ok(Some(plan));
        }
    }
    Ok(None)
}

// A plan of a job, the first one if `ordered`, where it is found with this effort.
pub fn attempt(tables: &Tables, may: &Domains, ordered: bool, effort: u32) -> Outcome
    requires { Tabled tables.now.size tables.now.crowd tables.now.rule tables.now.of × (length may.now ≡ 12) }
    ensures { Trial ordered (tabled_job tables.now) may.now result }
{
    let all = u64::below(tables.size.rules);
    let mut dom = *may;
    let mut rest = effort;
    if !propagate(tables, all, &mut dom, &mut rest) {
        return Ok(None);
    }
    let steps = u16::below(tables.size.steps);
    extend(tables, ordered, steps, &dom, &mut rest)
}

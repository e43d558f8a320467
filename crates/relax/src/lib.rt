// A job relaxed to one level: what each rule says of the classes of that level. A level's classes over a
// scope are at most as many as those of a finer level, so an upper limit holds at a coarser level and a
// lower limit at a finer one. In the other direction a limit is changed to what so many classes of the
// one level have at the other. A limit on the load holds at every finer level: a class there lies in one of
// the rule's own level, and holds no more steps. At a coarser level nothing is said of the load.
#![tactic(auto)]

ghost use Rattle.std.specs.Prelude.{◌≤◌, ◌<◌};
ghost use Rattle.pattern.specs.Given.{Classed};
ghost use Rattle.pattern.specs.Rule.{level_in, least_in, most_in, scope_in, Packed};
ghost use Rattle.relax.specs.Relaxed.{Carriable, Follows, Carries};

use bits::set::Set;
use bits::sizes::{Classes, MOST_RULES, Rules};
use bound::{fewest, most, ranks};
use pattern::{Size, rule};

mod bound;

// What a rule says of a finer level `q`. Where it limits nothing above, no more is said there.
fn to_finer(size: Size, class: &Classes, r: u32, q: usize) -> u32
    requires { Carriable size class.now r q × (level_in r ≤ q) }
    ensures { Follows size class.now q r result }
{
    let highest = rule::most(r);
    if rule::scope(r).size() <= highest {
        return rule::moved(r, q);
    }
    let found = ranks(size.people, class, rule::level(r), q);
    let b = most(&found.counts, found.classes, highest as u8);
    if size.steps <= b {
        return rule::pack(q, rule::least(r), size.steps, rule::load(r), rule::scope(r));
    }
    rule::pack(q, rule::least(r), b, rule::load(r), rule::scope(r))
}

// The rule without a limit on the load: no class holds more than all steps.
fn without_load(size: Size, r: u32) -> u32
    requires { size.steps ≤ 12 }
    ensures { Packed (level_in r) (least_in r) (most_in r) size.steps (scope_in r) result }
{
    rule::pack(
        rule::level(r),
        rule::least(r),
        rule::most(r),
        size.steps,
        rule::scope(r),
    )
}

// What a rule says of a coarser level `q`. One class is what every plan has, and it may hold the steps of several finer ones.
fn to_coarser(size: Size, class: &Classes, r: u32, q: usize) -> u32
    requires { Carriable size class.now r q × (q ≤ level_in r) }
    ensures { Follows size class.now q r result }
{
    let loose = without_load(size, r);
    let lowest = rule::least(r);
    if lowest < 2 {
        return rule::moved(loose, q);
    }
    let found = ranks(size.people, class, q, rule::level(r));
    let m = fewest(&found.counts, found.classes, lowest as u8);
    rule::pack(
        q,
        m as usize,
        rule::most(r),
        rule::load(loose),
        rule::scope(r),
    )
}

// What a rule says of level `q`.
fn say(size: Size, class: &Classes, r: u32, q: usize) -> u32
    requires { Carriable size class.now r q }
    ensures { Follows size class.now q r result }
{
    if rule::level(r) <= q {
        return to_finer(size, class, r, q);
    }
    to_coarser(size, class, r, q)
}

// The rules of a job, carried to level `q`.
pub fn carry(size: Size, class: &Classes, rule: &Rules, q: usize) -> Rules
    requires { Classed size class.now rule.now × (1 ≤ q) × (q ≤ size.levels) }
    ensures { Carries size size.rules class.now rule.now q result }
{
    let mut carried = [0u32; MOST_RULES];
    let rules = size.rules;
    for i in 0..rules {
        carried[i] = say(size, class, rule[i], q);
    }
    carried
}

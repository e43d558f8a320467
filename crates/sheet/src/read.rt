// Reading a sheet chain by chain. Each function reads on from what is known, and answers for the whole sheet.
ghost use Rattle.std.specs.Prelude.{◌≡◌, ◌*◌, ◌<◌, ◌≤◌, length};
ghost use Rattle.bits.specs.Member.{member};
ghost use Rattle.bits.specs.Sizes.{most_class_levels};
ghost use Rattle.card.specs.Fields.{class_levels};
ghost use Rattle.sheet.specs.Answer.{answer, job_of};
ghost use Rattle.sheet.specs.Cards.{Listing, Marking};
ghost use Rattle.sheet.specs.Read.{on_two, on_three, checked, read_people, people_read, steps_read};

use crate::SheetJob;
use crate::given::{class_in_two, first_given, on_no_chain, tag_on_two};
use crate::late::first_late;
use crate::tables::{bytes, classes, tags, words};
use bits::sizes::{CardMarks, MOST_CARDS, MOST_CHAIN, MOST_PEOPLE, MOST_RULES, MOST_STEPS};
use card::fields::{Kind, class_levels};
use card::refusal::{Fault, Refusal};
use card::{place, word};
use chain::walk_chain;

// The counts, the levels and the arrays of the job.
fn fill_job(s: &[u8], people: &[u8], steps: &[u8], rules: &[u8]) -> SheetJob
    requires { Listing s.now people.now × Listing s.now steps.now × (length steps.now ≤ 12) × Listing s.now rules.now × (16 ≤ length s.now) × (class_levels s.now ≤ most_class_levels) }
    ensures { result ≡ job_of s.now people.now steps.now rules.now }
{
    let above = class_levels(s);
    let levels = above + 1;
    let person_tag = tags::<MOST_PEOPLE>(s, people);
    let step_tag = tags::<MOST_STEPS>(s, steps);
    let class = classes(s, people, above);
    let permitted = words(s, people, place::PERMITTED);
    let rule_scope = words(s, rules, place::SCOPE);
    let rule_kind = bytes(s, rules, place::RULE);
    let rule_level = bytes(s, rules, place::LEVEL);
    let rule_limit = bytes(s, rules, place::LIMIT);
    let skipped = bytes(s, steps, place::SKIPPED);
    SheetJob {
        people: people.len(),
        steps: steps.len(),
        rules: rules.len(),
        levels,
        person_tag,
        step_tag,
        skipped,
        class,
        permitted,
        rule_scope,
        rule_kind,
        rule_level,
        rule_limit,
    }
}

// The tags, the classes and the loose cards: reads on when every chain is listed.
fn after_rules(
    s: &[u8],
    cards: usize,
    marks: &CardMarks,
    people: &[u8],
    steps: &[u8],
    rules: &[u8],
) -> Result<SheetJob, Refusal>
    requires { Listing s.now people.now × Listing s.now steps.now × (length steps.now ≤ 12) × Listing s.now rules.now × Marking s.now cards marks.now (on_three people.now steps.now rules.now) }
    ensures { result ≡ answer s.now (checked s.now cards people.now steps.now rules.now) }
{
    let job = fill_job(s, people, steps, rules);
    let given = first_given(
        tag_on_two(&job.person_tag, people),
        tag_on_two(&job.step_tag, steps),
        class_in_two(&job.class, job.levels, people),
        on_no_chain(marks, cards),
    );
    match given {
        Some(refusal) => Err(refusal),
        None => Ok(job),
    }
}

// The late permitted bits and the rules chain: reads on when the steps are listed.
fn after_steps(
    s: &[u8],
    cards: usize,
    marks: &mut CardMarks,
    people: &[u8],
    steps: &[u8],
) -> Result<SheetJob, Refusal>
    requires { Listing s.now people.now × Listing s.now steps.now × (length steps.now ≤ 12) × Marking s.now cards marks.old (on_two people.now steps.now) }
    ensures { result ≡ answer s.now (steps_read s.now cards people.now steps.now) }
{
    if steps.is_empty() {
        return Err(Fault::Count.on(0));
    }
    let n = steps.len();
    if let Some(late) = first_late(s, people, n) {
        return Err(Fault::Field.on(people[late] as usize));
    }
    let mut rules = [0u8; MOST_CHAIN];
    let first = word(s, 0, place::FIRST_RULE);
    let r = walk_chain(
        s,
        cards,
        Kind::Rule,
        n,
        MOST_RULES,
        first,
        marks,
        &mut rules,
    )?;
    after_rules(s, cards, marks, people, steps, &rules[..r])
}

// The steps chain: reads on when the people are listed.
fn after_people(
    s: &[u8],
    cards: usize,
    marks: &mut CardMarks,
    people: &[u8],
) -> Result<SheetJob, Refusal>
    requires { Listing s.now people.now × Marking s.now cards marks.old (member people.now) }
    ensures { result ≡ answer s.now (people_read s.now cards people.now) }
{
    if people.is_empty() {
        return Err(Fault::Count.on(0));
    }
    let mut steps = [0u8; MOST_CHAIN];
    let first = word(s, 0, place::FIRST_STEP);
    let n = walk_chain(
        s,
        cards,
        Kind::Step,
        0,
        MOST_STEPS,
        first,
        marks,
        &mut steps,
    )?;
    after_steps(s, cards, marks, people, &steps[..n])
}

// The people chain, and all that follows it.
pub fn read_people(s: &[u8], cards: usize) -> Result<SheetJob, Refusal>
    requires { (16 * cards ≤ length s.now) × (0 < cards) × (cards ≤ 141) × (class_levels s.now ≤ most_class_levels) }
    ensures { result ≡ answer s.now (read_people s.now cards) }
{
    let mut marks = [false; MOST_CARDS];
    let mut people = [0u8; MOST_CHAIN];
    let first = word(s, 0, place::FIRST_PERSON);
    let p = walk_chain(
        s,
        cards,
        Kind::Person,
        0,
        MOST_PEOPLE,
        first,
        &mut marks,
        &mut people,
    )?;
    after_people(s, cards, &mut marks, &people[..p])
}

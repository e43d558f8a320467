// A job as the search takes it: masks of people for each step, classes numbered by first use, and rules as
// numbers.
#![tactic(auto)]

ghost use Rattle.std.specs.Prelude.{not, ◌≡◌, ℕ, ◌+◌, ◌^◌, ◌<◌, ◌≤◌, min, eqb, length, get_or};
ghost use Rattle.bits.specs.Sizes.{most_levels, class_words, class_entries};
ghost use Rattle.bits.specs.Slots.{FirstOfSlot};
ghost use Rattle.workflow.specs.Problem.{least_of, most_of, heaviest_of, fewest};
ghost use Rattle.workflow.specs.Kinds.{kind_of};
ghost use Rattle.workflow.specs.Numbered.{kind_in};
ghost use Rattle.pattern.specs.Number.{first_use, classes_before};
ghost use Rattle.sheet.specs.Readable.{ReadableJob};
ghost use Rattle.tables.specs.Posing.{Packable, Packs, PackedRules, Poses, unbroken};
ghost use Rattle.tables.specs.Arrays.{MasksOf, word_of, NumbersAt, Entered, LevelNumbered, ClassesOf};
ghost use Rattle.tables.specs.Rows.{Pushed};

use bits::columns::column;
use bits::set::Set;
use bits::sizes::{
    CLASS_ENTRIES, ClassWords, Classes, Domains, MOST_PEOPLE, MOST_RULES, MOST_STEPS, PersonWords,
    Rules, SLOTS, SlotPeople,
};
use bits::slots::first_there;
use levels::{Tables, keep};
use pattern::{Size, rule};
use sheet::SheetJob;
use workflow::kind::RuleKind;

// Puts the bits of a person's word below those of the people after, one for each step.
fn push(word: u16, may: &mut Domains)
    requires { (length may.old ≡ 12) × ((s : ℕ) → s < 12 → get_or may.old s 0 < 2 ^ 63) }
    ensures { Pushed word may.old 12 may.new }
{
    for s in 0..MOST_STEPS {
        may[s] = may[s] * 2 + ((word >> s) % 2) as u64;
    }
}

// The people permitted, for each step.
pub fn may_masks(permitted: &PersonWords, people: usize) -> Domains
    requires { (length permitted.now ≡ 64) × (people ≤ 64) }
    ensures { MasksOf permitted.now people 12 result }
{
    let mut may = [0u64; MOST_STEPS];
    for k in 0..people {
        push(permitted[people - 1 - k], &mut may);
    }
    may
}

// The first of the people with the word of person `p`.
fn first_with(words: &PersonWords, people: usize, p: usize) -> usize
    requires { (length words.now ≡ 64) × (p < people) × (people ≤ 64) }
    ensures { result ≡ first_use people (word_of words.now) p }
{
    for q in 0..people {
        if words[q] == words[p] {
            return q;
        }
    }
    people
}

// The same, with the first person of each slot.
fn first_use(words: &PersonWords, people: usize, p: usize, firsts: &mut SlotPeople) -> usize
    requires { (length words.now ≡ 64) × (p < people) × (people ≤ 64) × FirstOfSlot words.now p firsts.old }
    ensures { (result ≡ first_use people (word_of words.now) p) × FirstOfSlot words.now (p + 1) firsts.new }
{
    let q = first_there(words, p, firsts);
    if words[q] == words[p] {
        return q;
    }
    first_with(words, people, p)
}

// Enters the number of the class of person `p`: the next one where the class is new, and else that of its first use. Says whether it
// is new. The entries of the level begin at `top`, and `met` of its classes stand before `p`.
fn enter_class(
    words: &PersonWords,
    people: usize,
    p: usize,
    top: usize,
    met: usize,
    firsts: &mut SlotPeople,
    class: &mut Classes,
) -> bool
    requires words_len { (length words.now ≡ 64) × (p < people) × (people ≤ 64) × FirstOfSlot words.now p firsts.old }
    requires top_bound { (top + 64 ≤ class_entries) × (met ≡ classes_before (word_of words.now) p) × NumbersAt words.now people top p class.old }
    ensures { (result ≡ eqb (first_use people (word_of words.now) p) p)
        × Entered words.now people top p class.old class.new
        × FirstOfSlot words.now (p + 1) firsts.new }
{
    let q = first_use(words, people, p, firsts);
    if q == p {
        class[top + p] = met as u8;
        return true;
    }
    class[top + p] = class[top + q];
    false
}

// Enters the numbers of the classes of a level, from 0 by first use in crew order. The entries of the level begin at `top`.
fn number_level(words: &PersonWords, people: usize, top: usize, class: &mut Classes)
    requires { (length words.now ≡ 64) × (people ≤ 64) × (top + 64 ≤ class_entries) × (length class.old ≡ class_entries) }
    ensures { LevelNumbered words.now people top people class.old class.new }
{
    let mut slots = [0u8; SLOTS];
    let mut met = 0;
    for p in 0..people {
        if enter_class(words, people, p, top, met, &mut slots, class) {
            met += 1;
        }
    }
}

// The classes of each level, by their numbers. At the last level each person is a class.
fn classes(words: &ClassWords, levels: usize, people: usize) -> Classes
    requires { (length words.now ≡ class_words) × (1 ≤ levels) × (levels ≤ most_levels) × (people ≤ 64) }
    ensures { ClassesOf levels words.now people result }
{
    let mut class = [0u8; CLASS_ENTRIES];
    let last = levels - 1;
    for q in 0..last {
        let level = column(words, q + 1);
        number_level(&level, people, q * MOST_PEOPLE, &mut class);
    }
    for p in 0..people {
        class[last * MOST_PEOPLE + p] = p as u8;
    }
    class
}

// How many classes it takes to hold so many steps, each at most `load` of them: the quotient, rounded up.
fn fewest_classes(size: usize, load: usize) -> usize
    requires { (size ≤ 16) × (load ≤ 255) }
    ensures { result ≡ fewest size load }
{
    if load == 0 {
        return 0;
    }
    (size + (load - 1)) / load
}

// The least count of a rule of a kind with so many steps in its scope.
fn least(kind: RuleKind, limit: usize, size: usize) -> usize
    requires { (size ≤ 16) × (limit ≤ 255) }
    ensures { result ≡ least_of (kind_of kind) limit size }
{
    match kind {
        RuleKind::Same => 1,
        RuleKind::Different => 2,
        RuleKind::AtMost => 0,
        RuleKind::AtLeast => limit,
        RuleKind::MaxLoad => fewest_classes(size, limit),
    }
}

// The greatest count of a rule of a kind.
fn most(kind: RuleKind, limit: usize, steps: usize) -> usize
    ensures { result ≡ most_of (kind_of kind) limit steps }
{
    match kind {
        RuleKind::Same => 1,
        RuleKind::Different => 2,
        RuleKind::AtMost => limit,
        RuleKind::AtLeast | RuleKind::MaxLoad => steps,
    }
}

// The greatest load of a rule of a kind: one kind alone limits it.
fn heaviest(kind: RuleKind, limit: usize, steps: usize) -> usize
    ensures { result ≡ heaviest_of (kind_of kind) limit steps }
{
    match kind {
        RuleKind::MaxLoad => limit,
        _ => steps,
    }
}

// A rule as a number. Where skipped steps are left out, its bounds are at most the steps left in its scope, and those of the job.
fn packed_rule(kind: RuleKind, level: u8, limit: u8, scope: u16, steps: usize) -> u32
    requires { (level ≤ most_levels) × (limit ≤ 12) × (steps ≤ 12) × (scope < 2 ^ steps) }
    ensures { (n : ℕ) → kind_of kind ≡ kind_in n → Packs steps n level limit scope result }
{
    let least = least(kind, limit as usize, scope.size());
    let low = least.min(scope.size());
    let high = most(kind, limit as usize, steps).min(steps);
    let load = heaviest(kind, limit as usize, steps).min(steps);
    rule::pack(level as usize, low, high, load, scope)
}

// Whether a plan can break a rule: not one that is left with one step or none.
fn can_break(kind: RuleKind, limit: u8, scope: u16, steps: usize) -> bool
    requires { (steps ≤ 12) × (scope < 2 ^ steps) }
    ensures { (n : ℕ) → kind_of kind ≡ kind_in n → result ≡ not (unbroken steps n limit scope) }
{
    let left = scope.size();
    if left > 1 {
        return true;
    }
    let high = most(kind, limit as usize, steps).min(steps);
    if left > high {
        return true;
    }
    let load = heaviest(kind, limit as usize, steps).min(steps);
    left > load
}

// The rules of a job that a plan can break, as numbers.
#[derive(Drop)]
struct Breakable {
    rule: Rules,
    count: usize,
}

// Without the others the search has no more to look at than on a sheet without the skipped steps.
fn packed(job: &SheetJob) -> Breakable
    requires { Packable job.now.steps job.now.rules job.now.rule_level job.now.rule_limit job.now.rule_scope × (length job.now.rule_kind ≡ 64) }
    ensures { PackedRules job.now.steps job.now.rules job.now.rule_kind job.now.rule_level job.now.rule_limit job.now.rule_scope result.rule result.count }
{
    let mut rule = [0u32; MOST_RULES];
    let mut count = 0;
    for i in 0..job.rules {
        let kind = RuleKind::from(job.rule_kind[i]);
        let limit = job.rule_limit[i];
        let scope = job.rule_scope[i];
        if can_break(kind, limit, scope, job.steps) {
            rule[count] = packed_rule(kind, job.rule_level[i], limit, scope, job.steps);
            count += 1;
        }
    }
    Breakable { rule, count }
}

// Poses a readable job to the search, without the rules that no plan breaks and the levels that no other names.
pub fn pose(job: &SheetJob) -> Tables
    requires { ReadableJob job.now.people job.now.steps job.now.rules job.now }
    ensures { Poses job.now.people job.now.steps job.now.rules job.now result }
{
    let class = classes(&job.class, job.levels, job.people);
    let asked = packed(job);
    let size = Size {
        steps: job.steps,
        people: job.people,
        levels: job.levels,
        rules: asked.count,
    };
    keep(size, &class, &asked.rule)
}

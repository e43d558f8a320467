// A job's arrays without the levels that no rule names.
#![tactic(auto)]

ghost use Rattle.std.specs.Prelude.{◌≡◌, ◌≤◌, length};
ghost use Rattle.bits.specs.Sizes.{most_levels, level_entries, class_entries};
ghost use Rattle.pattern.specs.Given.{Ruled, Classed};
ghost use Rattle.levels.specs.Trims.{Marks, KeptLevels, OldLevels, Rows, Renumbered, Trims};

use bits::set::Set;
use bits::sizes::{
    CLASS_ENTRIES, Classes, Crowds, LEVEL_ENTRIES, MOST_PEOPLE, MOST_RULES, Naming, Rules,
};
use index::{crowds, naming};
use pattern::{Size, rule};

mod index;
pub mod nest;

// The levels kept: how many, the old number of each, and the new number of each old one.
#[derive(Drop)]
pub struct Numbers {
    pub count: usize,
    pub old: [u8; LEVEL_ENTRIES],
    pub new: [u8; LEVEL_ENTRIES],
}

// The arrays of a job: its counts, the number and the people of each person's class at each level, the rules
// and those of them that name each step.
#[derive(Clone, Copy)]
pub struct Tables {
    pub size: Size,
    pub class: Classes,
    pub crowd: Crowds,
    pub rule: Rules,
    pub of: Naming,
}

// The levels that rules name.
fn marks(rules: usize, rule: &Rules) -> u16
    requires { (rules ≤ 64) × (length rule.now ≡ 64) }
    ensures { Marks rules rule.now result }
{
    let mut all: u16 = 0;
    for i in 0..rules {
        all = all.with(rule::level(rule[i]));
    }
    all
}

// Numbers the marked levels.
fn number(levels: usize, marked: u16) -> Numbers
    requires { levels ≤ most_levels }
    ensures { KeptLevels levels marked result.count result.old result.new }
{
    let mut old = [0u8; LEVEL_ENTRIES];
    let mut new = [0u8; LEVEL_ENTRIES];
    let mut count: usize = 0;
    for q in 0..levels {
        if !marked.has(q + 1) {
            continue;
        }
        count += 1;
        old[count] = (q + 1) as u8;
        new[q + 1] = count as u8;
    }
    Numbers {
        count: count,
        old: old,
        new: new,
    }
}

// The classes of the levels kept.
fn rows(levels: usize, count: usize, old: &[u8; LEVEL_ENTRIES], class: &Classes) -> Classes
    requires { (levels ≤ most_levels) × OldLevels levels count old.now × (length class.now ≡ class_entries) }
    ensures { Rows count old.now class.now result }
{
    // All of them.
    if count == levels {
        return *class;
    }
    let mut kept = [0u8; CLASS_ENTRIES];
    for x in 0..count * MOST_PEOPLE {
        let k = x / MOST_PEOPLE + 1;
        let q = old[k] as usize;
        kept[x] = class[(q - 1) * MOST_PEOPLE + x % MOST_PEOPLE];
    }
    kept
}

// The rules with their levels in the new numbers.
fn renumber(size: Size, rule: &Rules, new: &[u8; LEVEL_ENTRIES]) -> Rules
    requires { Ruled size rule.now × (length new.now ≡ level_entries) }
    ensures { Renumbered size.rules rule.now new.now result }
{
    let mut kept = [0u32; MOST_RULES];
    let rules = size.rules;
    for i in 0..rules {
        let q = rule::level(rule[i]);
        kept[i] = rule::moved(rule[i], (new[q] % 16) as usize);
    }
    kept
}

// The job's arrays without the levels that no rule names.
pub fn keep(size: Size, class: &Classes, rule: &Rules) -> Tables
    requires { Classed size class.now rule.now }
    ensures { Trims size class.now rule.now result }
{
    let marked = marks(size.rules, rule);
    let numbers = number(size.levels, marked);
    let old = numbers.old;
    let new = numbers.new;
    let kept = rows(size.levels, numbers.count, &old, class);
    let renumbered = renumber(size, rule, &new);
    let named = Size {
        steps: size.steps,
        people: size.people,
        levels: numbers.count,
        rules: size.rules,
    };
    let crowd = crowds(size.people, numbers.count, &kept);
    let of = naming(named, &renumbered);
    Tables {
        size: named,
        class: kept,
        crowd: crowd,
        rule: renumbered,
        of: of,
    }
}

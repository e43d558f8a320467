// The figures of a rule, for a pattern and for a plan; and the eligibility of a pattern: whether each rule can
// still be met, by its count and its largest load over the placed steps and the steps left open.
#![tactic(auto)]

pub mod classes;
mod figures;
pub mod groups;
pub mod plan;

ghost use Rattle.std.specs.Prelude.{◌≡◌, not, ◌&&◌, ℕ, ◌^◌, ◌≤◌, ◌<◌};
ghost use Rattle.bits.specs.Below.{count};
ghost use Rattle.bits.specs.Says.{Says};
ghost use Rattle.bits.specs.Word.{has_bit};
ghost use Rattle.pattern.specs.Eligible.{Possible};
ghost use Rattle.pattern.specs.Rule.{unpacked, level_in, scope_in};
ghost use Rattle.pattern.specs.Tables.{label_in};
ghost use Rattle.eligible.specs.Labels.{LabelsReady};
ghost use Rattle.eligible.specs.Rules.{RulesReady, ForSteps, Among};

use bits::set::{Set, members};
use bits::sizes::{Labels, Rules};
use groups::{group_count, is_light};
use pattern::rule;

// The number of steps of a scope that are not placed.
pub fn open_count(scope: u16, placed: u16) -> usize
    ensures { (result ≤ 16) × ((steps : ℕ) → scope < 2 ^ steps → result ≡ count steps (λ s. has_bit scope s && not (has_bit placed s))) }
{
    (scope ^ (scope & placed)).size()
}

// Whether a rule can still be met.
fn possible(rule: u32, placed: u16, label: &Labels) -> bool
    requires { LabelsReady placed (level_in rule) label.now }
    ensures { (steps : ℕ) → scope_in rule < 2 ^ steps → Says result (Possible steps (has_bit placed) (label_in label.now) (unpacked rule)) }
{
    let scope = rule::scope(rule);
    let groups = group_count(rule, placed, label);
    if !rule::can_be_met(rule, groups, open_count(scope, placed)) {
        return false;
    }
    is_light(rule, placed, label)
}

// Whether every rule of a mask can still be met.
pub fn eligible(among: u64, rule: &Rules, placed: u16, label: &Labels) -> bool
    requires { RulesReady among rule.now placed label.now }
    ensures { ForSteps among rule.now (λ steps. Says result (Among steps among rule.now placed label.now)) }
{
    for i in members(among) {
        if !possible(rule[i], placed, label) {
            return false;
        }
    }
    true
}

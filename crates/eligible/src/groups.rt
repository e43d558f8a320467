// The figures of a rule for a pattern: how many groups the placed steps of its scope have, and how many of these steps the largest of
// them holds.
ghost use Rattle.std.specs.Prelude.{◌≡◌, ℕ, ◌%◌, ◌^◌, ◌≤◌, ◌<◌, length};
ghost use Rattle.bits.specs.Sizes.{most_levels, label_entries};
ghost use Rattle.bits.specs.Word.{has_bit};
ghost use Rattle.bits.specs.Says.{Says};
ghost use Rattle.pattern.specs.Eligible.{group_count, group_load};
ghost use Rattle.pattern.specs.Rule.{unpacked, level_in, load_in, scope_in};
ghost use Rattle.pattern.specs.Tables.{label_in};
ghost use Rattle.workflow.specs.Labels.{LabelsOf};
ghost use Rattle.eligible.specs.Labels.{LabelRow, SmallLabels, LabelsReady};

use super::figures::{label_set, light};
use bits::sizes::{Labels, MOST_STEPS};
use pattern::rule;
use workflow::count::class_count;

// The label of a step at a level.
fn label_at(label: &Labels, level: usize, s: usize) -> usize
    requires { (length label.now ≡ label_entries) × (1 ≤ level) × (level ≤ most_levels) × (s < 12) }
    ensures { result ≡ label_in label.now level s % 64 }
{
    (label[(level - 1) * MOST_STEPS + s] % 64) as usize
}

// The labels of some steps at a level.
pub fn labels_of(steps: u16, level: usize, label: &Labels) -> u64
    requires { LabelRow steps level label.now }
    ensures { SmallLabels steps level label.now → (n : ℕ) → steps < 2 ^ n
        → LabelsOf n (has_bit steps) (label_in label.now level) result }
{
    label_set(steps, |s| label_at(label, level, s))
}

// The count of a rule for a pattern.
pub fn group_count(rule: u32, placed: u16, label: &Labels) -> usize
    requires { LabelsReady placed (level_in rule) label.now }
    ensures { ((steps : ℕ) → scope_in rule < 2 ^ steps → result ≡ group_count steps (has_bit placed) (label_in label.now) (unpacked rule))
        × (result ≤ 64) }
{
    let labels = labels_of(rule::scope(rule) & placed, rule::level(rule), label);
    class_count(labels)
}

// Whether no group holds more steps of a rule's scope than it may.
pub fn is_light(rule: u32, placed: u16, label: &Labels) -> bool
    requires { LabelsReady placed (level_in rule) label.now }
    ensures { (steps : ℕ) → scope_in rule < 2 ^ steps
        → Says result (group_load steps (has_bit placed) (label_in label.now) (unpacked rule) ≤ load_in rule) }
{
    let level = rule::level(rule);
    light(
        rule,
        rule::scope(rule) & placed,
        |s| label_at(label, level, s),
    )
}

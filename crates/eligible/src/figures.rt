// The figures of some steps, each of which has a label: the set of their labels, and whether a label has too many of them. A pattern gives
// the labels of groups, a plan those of classes.
ghost use Rattle.std.specs.Prelude.{true, ◌≡◌, ℕ, ◌^◌, ◌≤◌, ◌<◌, length, get_or};
ghost use Rattle.bits.specs.Says.{Says};
ghost use Rattle.bits.specs.Word.{has_bit};
ghost use Rattle.pattern.specs.Rule.{load_in, scope_in};
ghost use Rattle.workflow.specs.Labels.{LabelsOf};
ghost use Rattle.workflow.specs.Problem.{largest_load};
ghost use Rattle.eligible.specs.Labels.{Labelling, LabelsBy};

use bits::set::{Set, members};
use bits::sizes::MOST_STEPS;
use pattern::rule;
use workflow::load::largest_load;

// The set of the labels of some steps.
pub fn label_set<F: Fn(usize) -> usize>(steps: u16, label: F) -> u64
    requires { Labelling steps (F.pre label) (F.post label) }
    ensures { (n : ℕ) (c : ℕ → ℕ) → steps < 2 ^ n → LabelsBy steps (F.post label) c → LabelsOf n (has_bit steps) c result }
{
    let mut labels: u64 = 0;
    for s in members(steps) {
        labels = labels.with(label(s));
    }
    labels
}

// The labels of some steps, each at its step.
fn label_row<F: Fn(usize) -> usize>(steps: u16, label: F) -> [u8; MOST_STEPS]
    requires { (steps < 4096) × Labelling steps (F.pre label) (F.post label) }
    ensures { (length result ≡ 12) × ((c : ℕ → ℕ) → LabelsBy steps (F.post label) c
        → (s : ℕ) → has_bit steps s ≡ true → get_or result s 0 ≡ c s) }
{
    let mut row = [0u8; MOST_STEPS];
    for s in members(steps) {
        row[s] = label(s) as u8;
    }
    row
}

// Whether no label has more of some steps of a rule's scope than it may. Most rules limit no load.
pub fn light<F: Fn(usize) -> usize>(rule: u32, steps: u16, label: F) -> bool
    requires { (steps < 4096) × ((s : ℕ) → has_bit steps s ≡ true → has_bit (scope_in rule) s ≡ true)
        × Labelling steps (F.pre label) (F.post label) }
    ensures { (n : ℕ) (c : ℕ → ℕ) → scope_in rule < 2 ^ n → LabelsBy steps (F.post label) c
        → ((s : ℕ) → has_bit steps s ≡ true → c s < 64) → Says result (largest_load n (has_bit steps) c ≤ load_in rule) }
{
    if !rule::limits_load(rule) {
        return true;
    }
    let row = label_row(steps, label);
    largest_load(steps, &row) <= rule::load(rule)
}

// The count of a rule: how many different classes the steps of its scope have. Whatever knows the classes of
// steps gives each class a label and gathers the labels in a word; they are counted here.
ghost use Rattle.std.specs.Prelude.{Bool, ◌≡◌, ℕ, ◌≤◌};
ghost use Rattle.workflow.specs.Problem.{distinct};
ghost use Rattle.workflow.specs.Labels.{LabelsOf};

use bits::set::Set;

// The number of different classes of some steps, given the set of their labels.
pub fn class_count(labels: u64) -> usize
    ensures { (result ≤ 64) × ((n : ℕ) (S : ℕ → Bool) (c : ℕ → ℕ) → LabelsOf n S c labels → result ≡ distinct n S c) }
{
    labels.size()
}

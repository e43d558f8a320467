// What the recursion over the levels is asked, and the groups of a set of steps.
ghost use Rattle.std.specs.Prelude.{ℕ, Bool, ◌&&◌, ◌≡◌, suc, ◌<◌, length};
ghost use Rattle.bits.specs.Word.{has_bit};
ghost use Rattle.pattern.specs.Tables.{label_in};
ghost use Rattle.pattern.specs.Realize.{fibre, groups};
ghost use Rattle.bits.specs.Set.{Mask};
ghost use Rattle.bits.specs.Sizes.{most_levels, label_entries};

use bits::set::{self, Set};
use bits::sizes::{Domains, Labels, MOST_STEPS, Nest, Reach};

// The steps are to go to the classes of level `q` + 1 that are inside, or after the last level to the people, with
// the labels of the levels below `q`.
#[derive(Clone, Copy)]
pub struct Task {
    pub levels: usize,
    pub q: usize,
    pub steps: u16,
    pub inside: u64,
}

// What a pattern is tested by: the people who may do each step, the labels of the steps' groups, what lies inside each class, and the
// classes with somebody for each step.
#[derive(Clone, Copy)]
pub struct Layout<'a> {
    pub may: &'a Domains,
    pub label: &'a Labels,
    pub nest: &'a Nest,
    pub reach: &'a Reach,
}

// Those of `steps` whose label at level `q` + 1 is picked.
fn labelled<F: Fn(usize, u8) -> bool>(label: &Labels, q: usize, steps: u16, picks: F) -> u16
    requires sized { (length label.now ≡ label_entries) × (q < most_levels) × (steps < 4096) }
    requires callable { F.IsAlwaysCallable picks }
    ensures { (test : ℕ → ℕ → Bool) → ((s g : ℕ) (b : Bool) → F.post picks s g b → b ≡ test s g)
        → Mask (λ s. has_bit steps s && test s (label_in label.now (suc q) s)) result }
{
    let mut found: u16 = 0;
    for s in set::members(steps) {
        if picks(s, label[q * MOST_STEPS + s]) {
            found = found.with(s);
        }
    }
    found
}

// Those of `steps` that have the label `g` at level `q` + 1.
pub fn members(label: &Labels, q: usize, g: u8, steps: u16) -> u16
    requires { (length label.now ≡ label_entries) × (q < most_levels) × (steps < 4096) }
    ensures { Mask (fibre (has_bit steps) (label_in label.now (suc q)) g) result }
{
    labelled(label, q, steps, |_, group| group == g)
}

// The groups of level `q` + 1 inside `steps`: each is named by its label, which is one of its steps.
pub fn groups_of(label: &Labels, q: usize, steps: u16) -> u16
    requires { (length label.now ≡ label_entries) × (q < most_levels) × (steps < 4096) }
    ensures { Mask (groups (has_bit steps) (label_in label.now (suc q))) result }
{
    labelled(label, q, steps, |s, group| group as usize == s)
}

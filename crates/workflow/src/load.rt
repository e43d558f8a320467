// The largest load: how many of some steps one class holds at most. Whatever knows the classes of steps gives each class a label
// and each of the steps its label; they are tallied here.
ghost use Rattle.std.specs.Prelude.{◌≡◌, ℕ, ◌%◌, ◌^◌, ◌≤◌, ◌<◌, max, length, get_or};
ghost use Rattle.bits.specs.Word.{has_bit};
ghost use Rattle.workflow.specs.Problem.{largest_load};

use bits::set::members;
use bits::sizes::{MOST_PEOPLE, MOST_STEPS};

// The largest number of these steps that have one label; a label is below 64.
pub fn largest_load(steps: u16, label: &[u8; MOST_STEPS]) -> usize
    requires { (steps < 4096) × (length label.now ≡ 12) }
    ensures { (n : ℕ) → steps < 2 ^ n → result ≡ largest_load n (has_bit steps) (λ s. get_or label.now s 0 % 64) }
{
    let mut held = [0u8; MOST_PEOPLE];
    let mut most: u8 = 0;
    for s in members(steps) {
        let v = (label[s] % 64) as usize;
        let now = held[v] + 1;
        held[v] = now;
        most = most.max(now);
    }
    most as usize
}

// The weights that bring a step to the front of the search. No promise rests on them.
ghost use Rattle.std.specs.Prelude.{◌≡◌, ◌<◌, ◌≤◌, length};

use bits::sizes::{Naming, Weights};

// What a failed search adds to the weight of its step, and how far weights grow.
const BLAME: u32 = 4;

const HEAVIEST: u32 = 1000000;

// The weights to begin with: how many rules name each step.
pub fn weights(of: &Naming) -> Weights
    requires { length of.now ≡ 12 }
    ensures { length result ≡ 12 }
{
    of.map(|rules| u64::count_ones(rules))
}

// A search that placed step `s` next has failed.
pub fn blame(weight: &mut Weights, s: usize)
    requires { (s < 12) × (length weight.old ≡ 12) }
    ensures { length weight.new ≡ 12 }
{
    let w = weight[s];
    if w > HEAVIEST {
        return;
    }
    weight[s] = w + BLAME;
}

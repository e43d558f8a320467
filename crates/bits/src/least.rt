// The element of a set that has the least key.
ghost use Rattle.std.specs.Prelude.{◌≡◌, ◌<◌, length};
ghost use Rattle.bits.specs.Set.{LeastKey};

use crate::set::{Set, members};
use crate::sizes::MOST_STEPS;

// The first of those of a set of steps, which is not empty, that have the least key.
pub fn least_key(key: &[u64; MOST_STEPS], m: u16) -> usize
    requires { (length key.now ≡ 12) × (m < 4096) × (m ≡ 0 → ⊥) }
    ensures { LeastKey key.now m 0 result }
{
    let mut best = m.lowest();
    for i in members(m) {
        if key[i] < key[best] {
            best = i;
        }
    }
    best
}

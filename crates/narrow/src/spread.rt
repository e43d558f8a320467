// How many classes the open steps of a rule can add.
ghost use Rattle.std.specs.Prelude.{◌≡◌, ◌<◌, ◌≤◌, length};
ghost use Rattle.eligible.specs.Classes.{OneLevel, ForClasses};
ghost use Rattle.narrow.specs.Spreading.{Firsts, Spread};

use super::sets::all_of;
use bits::set::{ALL, Set, members};
use bits::sizes::{Crowds, Domains};
use eligible::classes::mates;

// One person for each class of a domain.
fn firsts(crowd: &Crowds, level: usize, domain: u64) -> u64
    requires { OneLevel crowd.now level }
    ensures { ForClasses crowd.now level (λ people c. Firsts people c domain 0 result) }
{
    let mut found: u64 = 0;
    let mut left = members(domain);
    // No `for`: each turn takes out all who are of one class.
    while let Some(p) = left.next() {
        found = found.with(p);
        left.left = left.left & (mates(crowd, level, p) ^ ALL);
    }
    found
}

// The number of classes that somebody of these steps' domains has, but for those of `used`.
pub fn spread(crowd: &Crowds, level: usize, steps: u16, used: u64, dom: &Domains) -> usize
    requires { OneLevel crowd.now level × (steps < 4096) × (length dom.now ≡ 12) }
    ensures { (result ≤ 64) × ForClasses crowd.now level (λ people c. Spread people c steps used dom.now result) }
{
    let others = all_of(steps, dom) & (used ^ ALL);
    firsts(crowd, level, others).size()
}

// Open steps of a rule that cannot share a class.
ghost use Rattle.std.specs.Prelude.{◌≡◌, ◌<◌, length};
ghost use Rattle.eligible.specs.Classes.{OneLevel, ForClasses};
ghost use Rattle.narrow.specs.Fixing.{Reaching};
ghost use Rattle.narrow.specs.Parting.{Apart};

use bits::set::{ALL, Set, members};
use bits::sizes::{Crowds, Domains};
use eligible::classes::mates;

// Steps whose domains reach no class in common, nor one of those used: each has a class of its own in
// every plan. And the people of the classes used and of those that they reach.
#[derive(Drop)]
pub struct Parts {
    pub used: u64,
    pub heads: u16,
}

// Everybody who shares a class with somebody of a domain.
pub fn reach(crowd: &Crowds, level: usize, domain: u64) -> u64
    requires { OneLevel crowd.now level }
    ensures { ForClasses crowd.now level (λ people c. Reaching people c domain 0 result) }
{
    let mut found: u64 = 0;
    let mut left = members(domain);
    // No `for`: each turn takes out all who are of one class.
    while let Some(p) = left.next() {
        let mask = mates(crowd, level, p);
        found = found | mask;
        left.left = left.left & (mask ^ ALL);
    }
    found
}

// Such steps of these, each taken where it is apart from those before it.
pub fn apart(crowd: &Crowds, level: usize, steps: u16, used: u64, dom: &Domains) -> Parts
    requires { OneLevel crowd.now level × (steps < 4096) × (length dom.now ≡ 12) }
    ensures { ForClasses crowd.now level (λ people c. Apart people c steps used dom.now result.used result.heads) }
{
    let mut all = used;
    let mut heads: u16 = 0;
    for s in members(steps) {
        let reached = reach(crowd, level, dom[s]);
        let shared = reached & all;
        if shared != 0 {
            continue;
        }
        all = all | reached;
        heads = heads.with(s);
    }
    Parts { used: all, heads }
}

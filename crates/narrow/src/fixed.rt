// What the domains of a rule's steps settle of its count.
ghost use Rattle.std.specs.Prelude.{◌≡◌, ℕ, ◌^◌, ◌≤◌, ◌<◌, length};
ghost use Rattle.eligible.specs.Classes.{OneLevel, ForClasses};
ghost use Rattle.narrow.specs.Fixing.{Shared, Fixing};

use bits::set::{Set, members};
use bits::sizes::{Crowds, Domains};
use eligible::classes::mates;
use workflow::count::class_count;

// The classes that some steps of a scope have in every plan of the domains: their people, and how many
// classes they are; and the steps that can still have several.
#[derive(Clone, Copy)]
pub struct Forced {
    pub used: u64,
    pub count: usize,
    pub wide: u16,
}

// The people of the class that all of a domain share, or nobody where they share none.
pub fn shared(crowd: &Crowds, level: usize, domain: u64) -> u64
    requires { OneLevel crowd.now level }
    ensures { ForClasses crowd.now level (λ people c. Shared people c domain result) }
{
    if domain == 0 {
        return 0;
    }
    let mask = mates(crowd, level, domain.lowest());
    if domain & mask != domain {
        return 0;
    }
    mask
}

// What the domains settle of a scope at a level. The label of a class is its first person.
pub fn fixed(crowd: &Crowds, level: usize, scope: u16, dom: &Domains) -> Forced
    requires { OneLevel crowd.now level × (scope < 4096) × (length dom.now ≡ 12) }
    ensures { (result.wide < 4096) × (result.count ≤ 64) × ((steps : ℕ) → scope < 2 ^ steps
        → ForClasses crowd.now level (λ people c. Fixing steps people c scope dom.now result.used result.count result.wide)) }
{
    let mut used: u64 = 0;
    let mut labels: u64 = 0;
    let mut wide: u16 = 0;
    for s in members(scope) {
        let mask = shared(crowd, level, dom[s]);
        if mask == 0 {
            wide = wide.with(s);
            continue;
        }
        // A class that is had has its label.
        if used & mask != 0 {
            continue;
        }
        used = used | mask;
        labels = labels.with(mask.lowest());
    }
    Forced {
        used,
        count: class_count(labels),
        wide,
    }
}

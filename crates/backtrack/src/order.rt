// Which step comes next in a search over people.
ghost use Rattle.std.specs.Prelude.{true, ◌≡◌, ◌<◌, length};
ghost use Rattle.bits.specs.Word.{has_bit};
ghost use Rattle.bits.specs.Set.{Lowest};
ghost use Rattle.backtrack.specs.Order.{Single, Several};

use bits::least::least_key;
use bits::set::{Set, members};
use bits::sizes::{Domains, MOST_STEPS, Naming};

// Whether a domain has one person at most.
fn single(domain: u64) -> bool
    ensures { result ≡ true → Single domain }
{
    if domain.is_empty() {
        return true;
    }
    domain.without(domain.lowest()).is_empty()
}

// Those of some steps that have several people.
pub fn several(steps: u16, dom: &Domains) -> u16
    requires { (steps < 4096) × (length dom.now ≡ 12) }
    ensures { Several steps dom.now result }
{
    let mut found = steps;
    for s in members(steps) {
        if !single(dom[s]) {
            continue;
        }
        found = found.without(s);
    }
    found
}

// The key of a step by its people and the rules that name it: the lowest comes first.
fn key(domain: u64, rules: u64) -> u64 {
    domain.size() as u64 * 1000 / (1 + rules.size() as u64)
}

// The keys of some steps.
fn keys(of: &Naming, dom: &Domains, steps: u16) -> [u64; MOST_STEPS]
    requires { (length dom.now ≡ 12) × (length of.now ≡ 12) × (steps < 4096) }
    ensures { length result ≡ 12 }
{
    let mut all = [0u64; MOST_STEPS];
    for s in members(steps) {
        all[s] = key(dom[s], of[s]);
    }
    all
}

// The step that comes next: in order the first, and else one with few people. No promise rests on the
// second.
pub fn next_step(ordered: bool, of: &Naming, dom: &Domains, wide: u16) -> usize
    requires { (wide < 4096) × (wide ≡ 0 → ⊥) × (length of.now ≡ 12) × (length dom.now ≡ 12) }
    ensures { (result < 12) × (has_bit wide result ≡ true) × (ordered ≡ true → Lowest wide result) }
{
    if ordered {
        return wide.lowest();
    }
    let order = keys(of, dom, wide);
    least_key(&order, wide)
}

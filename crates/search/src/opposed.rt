// Rules that exclude each other: a scope has at most the classes of another, and one more for each step
// outside that one. So an upper limit on the one can be too low for a lower limit on the other. A limit on the load is here by the
// least count that it asks for.
ghost use Rattle.std.specs.Prelude.{true, ◌≡◌, ℕ, ◌≤◌, ◌<◌, length};
ghost use Rattle.search.specs.Opposed.{OpposedFor};

use bits::sizes::Rules;
use eligible::open_count;
use pattern::rule;

// Whether rule `i` leaves rule `k` too few classes.
fn excludes(rule: &Rules, i: usize, k: usize) -> bool
    requires { (length rule.now ≡ 64) × (i < 64) × (k < 64) }
    ensures { result ≡ true → (rules : ℕ) → i < rules → k < rules → OpposedFor rules rule.now }
{
    let upper = rule[i];
    let lower = rule[k];
    if rule::level(upper) != rule::level(lower) {
        return false;
    }
    let outside = open_count(rule::scope(lower), rule::scope(upper));
    rule::most(upper) + outside < rule::least(lower)
}

// Whether rule `i` leaves some rule too few classes.
fn excludes_some(rules: usize, rule: &Rules, i: usize) -> bool
    requires { (rules ≤ 64) × (length rule.now ≡ 64) × (i < rules) }
    ensures { result ≡ true → OpposedFor rules rule.now }
{
    (0..rules).any(|k| excludes(rule, i, k))
}

// Whether two rules exclude each other.
pub fn opposed(rules: usize, rule: &Rules) -> bool
    requires { (rules ≤ 64) × (length rule.now ≡ 64) }
    ensures { result ≡ true → OpposedFor rules rule.now }
{
    (0..rules).any(|i| excludes_some(rules, rule, i))
}

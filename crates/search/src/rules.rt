// A test of the rules of a job, one after the other.
ghost use Rattle.std.specs.Prelude.{true, false, ◌≡◌, ℕ, ◌<◌, get_or};
ghost use Rattle.pattern.specs.Given.{Ruled};

use bits::sizes::Rules;
use pattern::Size;

// Whether each rule passes a test.
pub fn every<F: Fn(u32) -> bool>(size: Size, rule: &Rules, test: F) -> bool
    requires ruled { Ruled size rule.now }
    requires callable { (i : ℕ) → i < size.rules → F.pre test (get_or rule.now i 0) }
    ensures passed { result ≡ true → (i : ℕ) → i < size.rules → F.post test (get_or rule.now i 0) true }
    ensures failed { result ≡ false → (i : ℕ) × (i < size.rules) × F.post test (get_or rule.now i 0) false }
{
    for i in 0..size.rules {
        if !test(rule[i]) {
            return false;
        }
    }
    true
}

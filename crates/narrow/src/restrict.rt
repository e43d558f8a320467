// Steps left only some people: what every narrowing by a rule comes to.
ghost use Rattle.std.specs.Prelude.{◌≡◌, ◌<◌, length};
ghost use Rattle.std.specs.Result.{is_err, result_unwrap_or};
ghost use Rattle.narrow.specs.Narrowing.{Restricted};

use bits::set::{Set, members};
use bits::sizes::Domains;

// A rule that can no longer be met.
#[derive(Clone, Copy, Debug, PartialEq, Eq)]
pub struct Unmet;

// Leaves these steps only such people, and gives those whose domains are smaller now; fails where a step has nobody left.
pub fn restrict(steps: u16, people: u64, dom: &mut Domains) -> Result<u16, Unmet>
    requires { (steps < 4096) × (length dom.old ≡ 12) }
    ensures { Restricted steps people dom.old dom.new (is_err result) (result_unwrap_or result 0) }
{
    let mut changed: u16 = 0;
    for s in members(steps) {
        let domain = dom[s];
        let rest = domain & people;
        if rest == domain {
            continue;
        }
        if rest == 0 {
            return Err(Unmet);
        }
        dom[s] = rest;
        changed = changed.with(s);
    }
    Ok(changed)
}

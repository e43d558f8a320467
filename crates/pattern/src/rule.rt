// A rule as one number: the mask of its scope in 16 bits, then its level, the least and the greatest count and
// the greatest load, four bits each. And the comparison of a count with them.
ghost use Rattle.std.specs.Prelude.{◌≡◌, ◌<◌, ◌≤◌, ltb};
ghost use Rattle.std.specs.Int.Count.{ones};
ghost use Rattle.bits.specs.Says.{Says};
ghost use Rattle.pattern.specs.Rule.{scope_in, level_in, least_in, most_in, load_in, unpacked, Packed};
ghost use Rattle.pattern.specs.Eligible.{CanBeMet};

use bits::set::Set;

// The mask of the steps of its scope.
pub fn scope(rule: u32) -> u16
    ensures { result ≡ scope_in rule }
{
    (rule % 65536) as u16
}

// Its level, from 1.
pub fn level(rule: u32) -> usize
    ensures { (result ≡ level_in rule) × (result < 16) }
{
    (rule / 65536 % 16) as usize
}

// Its least count.
pub fn least(rule: u32) -> usize
    ensures { (result ≡ least_in rule) × (result < 16) }
{
    (rule / 1048576 % 16) as usize
}

// Its greatest count.
pub fn most(rule: u32) -> usize
    ensures { (result ≡ most_in rule) × (result < 16) }
{
    (rule / 16777216 % 16) as usize
}

// Its greatest load: how many steps of its scope one class may hold.
pub fn load(rule: u32) -> usize
    ensures { (result ≡ load_in rule) × (result < 16) }
{
    (rule / 268435456 % 16) as usize
}

// Whether a class can hold more steps of a rule's scope than it may: where the greatest load is that of all of them, no class does.
pub fn limits_load(rule: u32) -> bool
    ensures { result ≡ ltb (load_in rule) (ones (scope_in rule)) }
{
    load(rule) < scope(rule).size()
}

// Whether a rule can be met with this count, which may still grow by `more`.
pub fn can_be_met(rule: u32, count: usize, more: usize) -> bool
    requires { (count ≤ 64) × (more ≤ 64) }
    ensures { Says result (CanBeMet (unpacked rule) count more) }
{
    if count > most(rule) {
        return false;
    }
    least(rule) <= count + more
}

// The number of a rule.
pub fn pack(level: usize, least: usize, most: usize, load: usize, scope: u16) -> u32
    requires { (level < 16) × (least < 16) × (most < 16) × (load < 16) }
    ensures { Packed level least most load scope result }
{
    scope as u32
        + 65536 * level as u32
        + 1048576 * least as u32
        + 16777216 * most as u32
        + 268435456 * load as u32
}

// The rule at another level.
pub fn moved(rule: u32, level: usize) -> u32
    requires { level < 16 }
    ensures { Packed level (least_in rule) (most_in rule) (load_in rule) (scope_in rule) result }
{
    pack(level, least(rule), most(rule), load(rule), scope(rule))
}

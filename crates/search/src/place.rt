// Placing a step: which groups it can join, and the labels that it gets.
ghost use Rattle.std.specs.Prelude.{◌≡◌, cond, ◌+◌, ◌*◌, ◌≤◌, ◌<◌, ltb, length, get_or};
ghost use Rattle.bits.specs.Says.{Says};
ghost use Rattle.bits.specs.Sizes.{most_levels, label_entries};
ghost use Rattle.search.specs.Growth.{Placeable, Grows, Joins};

use bits::set::Set;
use bits::sizes::{Labels, MOST_STEPS};

// Whether step `t` is the label of a group of level `d`; with `d` 0 there is none to join.
pub fn joins(placed: u16, label: &Labels, t: usize, d: usize) -> bool
    requires { (t < 12) × (d ≤ most_levels) × (length label.now ≡ label_entries) }
    ensures { Says result (Joins placed label.now t d) }
{
    if d == 0 {
        return true;
    }
    if !placed.has(t) {
        return false;
    }
    label[(d - 1) * MOST_STEPS + t] == t as u8
}

// The label of step `s` at level `q` + 1: that of step `t` down to level `d`, and its own below.
fn group(label: &Labels, q: usize, s: usize, t: usize, d: usize) -> u8
    requires { (q < most_levels) × (s < 12) × (t < 12) × (length label.now ≡ label_entries) }
    ensures { result ≡ cond (ltb q d) (get_or label.now (q * 12 + t) 0) s }
{
    if q < d {
        return label[q * MOST_STEPS + t];
    }
    s as u8
}

// Gives step `s` its labels.
pub fn place(levels: usize, label: &mut Labels, s: usize, t: usize, d: usize)
    requires { Placeable levels s t label.old }
    ensures { Grows levels s t d label.old label.new }
{
    for q in 0..levels {
        let g = group(label, q, s, t, d);
        label[q * MOST_STEPS + s] = g;
    }
}

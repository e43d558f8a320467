// The first of several that clashes with an earlier one: a tag that stood before, a class that stood before with another above.
// Mostly the slot that a number falls into tells it; otherwise the earlier ones are gone through.
ghost use Rattle.std.specs.Prelude.{◌≡◌, ◌+◌, ◌-◌, ◌<◌, ◌≤◌, length};
ghost use Rattle.bits.specs.Below.{any};
ghost use Rattle.bits.specs.Sizes.{most_levels, class_words};
ghost use Rattle.bits.specs.Slots.{FirstOfSlot};
ghost use Rattle.sheet.specs.Cards.{equal_at, moved_at, moved_in, place_below};
ghost use Rattle.sheet.specs.Read.{first_clash};
ghost use Rattle.sheet.specs.Slots.{SlotsMarked, Unmoved};

use bits::columns::column;
use bits::sizes::{ClassWords, PersonWords, SLOTS, SlotPeople};
use bits::slots::first_there;

// Whether the tag at `k` stands at an earlier place too.
fn tag_stood(tags: &[u32], k: usize) -> bool
    requires { k < length tags.now }
    ensures { result ≡ any k (λ j. equal_at tags.now j k) }
{
    tags[..k].contains(&tags[k])
}

// The same where the slots of the tags before `k` are marked; marks the slot of `k` too.
fn tag_again(tags: &[u32], k: usize, marks: &mut [bool; SLOTS]) -> bool
    requires { (k < length tags.now) × SlotsMarked tags.now k marks.old }
    ensures { (result ≡ any k (λ j. equal_at tags.now j k)) × SlotsMarked tags.now (k + 1) marks.new }
{
    let slot = (tags[k] % SLOTS as u32) as usize;
    if marks[slot] {
        return tag_stood(tags, k);
    }
    marks[slot] = true;
    false
}

// The first of `count` tags that stood earlier.
pub fn tag_clash(tags: &[u32], count: usize) -> Option<usize>
    requires { count ≤ length tags.now }
    ensures { result ≡ place_below count (first_clash count (equal_at tags.now)) }
{
    let mut marks = [false; SLOTS];
    for k in 0..count {
        if tag_again(tags, k, &mut marks) {
            return Some(k);
        }
    }
    None
}

// Whether the class at `k` stands at an earlier place with another above.
fn class_stood(below: &PersonWords, above: &PersonWords, k: usize) -> bool
    requires { (k < 64) × (length below.now ≡ 64) × (length above.now ≡ 64) }
    ensures { result ≡ any k (λ j. moved_at below.now above.now j k) }
{
    let class = below[k];
    let whole = above[k];
    let mut found = false;
    // No return from within: so the machine compares many people at a time, and mostly all are gone through.
    for j in 0..k {
        found = found | ((below[j] == class) & (above[j] != whole));
    }
    found
}

// The same where no class before `k` did so, with the first person of each slot.
fn class_again(below: &PersonWords, above: &PersonWords, k: usize, firsts: &mut SlotPeople) -> bool
    requires { (k < 64) × (length below.now ≡ 64) × (length above.now ≡ 64) × Unmoved below.now above.now k × FirstOfSlot below.now k firsts.old }
    ensures { (result ≡ any k (λ j. moved_at below.now above.now j k)) × FirstOfSlot below.now (k + 1) firsts.new }
{
    let j = first_there(below, k, firsts);
    if (below[j] == below[k]) & (above[j] == above[k]) {
        return false;
    }
    class_stood(below, above, k)
}

// The first of `count` people whose class stood earlier with another above.
// It stays apart from `tag_clash`: what each keeps of its slots, and what it knows by them, differs, so a trait over both would be longer than they are.
fn level_clash(below: &PersonWords, above: &PersonWords, count: usize) -> Option<usize>
    requires { (count ≤ 64) × (length below.now ≡ 64) × (length above.now ≡ 64) }
    ensures { result ≡ place_below count (first_clash count (moved_at below.now above.now)) }
{
    let mut firsts = [0u8; SLOTS];
    for k in 0..count {
        if class_again(below, above, k, &mut firsts) {
            return Some(k);
        }
    }
    None
}

// The same over all class levels together, the person being the last of the levels: each level is gone through up to the first person found so far.
pub fn class_clash(class: &ClassWords, levels: usize, count: usize) -> Option<usize>
    requires { (length class.now ≡ class_words) × (levels ≤ most_levels) × (count ≤ 64) }
    ensures { result ≡ place_below count (first_clash count (moved_in class.now (levels - 2))) }
{
    let mut found = None;
    for q in 2..levels {
        let above = column(class, q - 1);
        let below = column(class, q);
        let first = found.unwrap_or(count);
        found = level_clash(&below, &above, first).or(found);
    }
    found
}

// The tests that follow the chains, each with the refusal that it gives.
ghost use Rattle.std.specs.Prelude.{ltb, ◌≡◌, ◌<◌, ◌≤◌, ◌-◌, length};
ghost use Rattle.bits.specs.Sizes.{most_levels, class_words};
ghost use Rattle.card.specs.Refusals.{tag_fault, class_fault, loose_fault};
ghost use Rattle.chain.specs.Answer.{marked};
ghost use Rattle.sheet.specs.Answer.{otherwise};
ghost use Rattle.sheet.specs.Cards.{equal_at, moved_in};
ghost use Rattle.sheet.specs.Read.{Read, unless, unless_at, first_clash, first_loose};

use crate::clash::{class_clash, tag_clash};
use crate::loose::first_loose;
use bits::sizes::{CardMarks, ClassWords};
use card::refusal::{Fault, Refusal};

// A tag on two of the listed cards.
pub fn tag_on_two(tags: &[u32], list: &[u8]) -> Option<Refusal>
    requires { length list.now ≤ length tags.now }
    ensures { (next : Read) → otherwise result next ≡ unless_at list.now (first_clash (length list.now) (equal_at tags.now)) tag_fault next }
{
    let k = tag_clash(tags, list.len())?;
    Some(Fault::Tag.on(list[k] as usize))
}

// A class in two classes of the level above.
pub fn class_in_two(class: &ClassWords, levels: usize, people: &[u8]) -> Option<Refusal>
    requires { (length class.now ≡ class_words) × (levels ≤ most_levels) × (length people.now ≤ 64) }
    ensures { (next : Read) → otherwise result next ≡ unless_at people.now (first_clash (length people.now) (moved_in class.now (levels - 2))) class_fault next }
{
    let k = class_clash(class, levels, people.len())?;
    Some(Fault::Class.on(people[k] as usize))
}

// A card on no chain.
pub fn on_no_chain(marks: &CardMarks, cards: usize) -> Option<Refusal>
    requires { (0 < cards) × (cards ≤ 141) × (length marks.now ≡ 141) }
    ensures { (next : Read) → otherwise result next ≡ unless (ltb (first_loose cards (marked marks.now)) cards) loose_fault (first_loose cards (marked marks.now)) next }
{
    let c = first_loose(marks, cards)?;
    Some(Fault::Loose.on(c))
}

// The refusal that is given of those found: of the people's tags, of the steps' tags, of the classes and of a card on no chain.
pub fn first_given(
    people: Option<Refusal>,
    steps: Option<Refusal>,
    classes: Option<Refusal>,
    loose: Option<Refusal>,
) -> Option<Refusal>
    ensures { (next : Read) → otherwise result next ≡ otherwise people (otherwise steps (otherwise classes (otherwise loose next))) }
{
    people.or(steps).or(classes).or(loose)
}

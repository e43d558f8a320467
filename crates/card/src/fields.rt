// What the fields of each kind of card may be. A test that fails anywhere on a card is one and the same refusal.
ghost use Rattle.std.specs.Prelude.{◌≡◌, ◌+◌, ◌*◌, ◌<◌, ◌≤◌, length};
ghost use Rattle.card.specs.Kinds.{kind_number};
ghost use Rattle.card.specs.Fields.{form_ok, header_ok, class_levels, class_place, class_field_ok, person_ok, step_ok, rule_ok, limit_ok, scope_size, fields_ok};

use crate::{byte, long, place, word};
use bits::sizes::{MOST_CLASS_LEVELS, MOST_STEPS};

// The kind of card 0, which no chain has.
pub const HEADER_KIND: usize = 1;

// The kinds of the cards of a chain, with the numbers that byte 0 of a card has for them.
#[derive(Clone, Copy, Debug, PartialEq, Eq)]
pub enum Kind {
    Person = 2,
    Step = 3,
    Rule = 4,
}

impl Kind {
    pub fn number(self) -> usize
        ensures { result ≡ kind_number self }
    {
        self as usize
    }
}

// The version of a sheet whose header gives the number of class levels.
const SECOND_VERSION: usize = 2;

// Whether a header's byte 12 is one that its version may have.
#[tactic(auto, unfolding(crate::specs::Fields::form_ok))]
fn form_ok(version: usize, levels: usize) -> bool
    ensures { result ≡ form_ok version levels }
{
    ((version == 1) & (levels == 0))
        | ((version == SECOND_VERSION) & ((1 <= levels) & (levels <= MOST_CLASS_LEVELS)))
}

// The header of a file of `cards` cards.
pub fn header_ok(s: &[u8], cards: usize) -> bool
    requires { 16 ≤ length s.now }
    ensures { result ≡ header_ok s.now cards }
{
    (byte(s, 0, place::KIND) == HEADER_KIND)
        & form_ok(byte(s, 0, place::VERSION), byte(s, 0, place::LEVELS))
        & (word(s, 0, place::NEXT) == 0)
        & (word(s, 0, place::CARD_COUNT) == cards)
        & (byte(s, 0, 13) == 0)
        & (word(s, 0, 14) == 0)
}

// How many class levels there are above the person.
pub fn class_levels(s: &[u8]) -> usize
    requires { 16 ≤ length s.now }
    ensures { (result ≡ class_levels s.now) × (result < 256) }
{
    if byte(s, 0, place::VERSION) == SECOND_VERSION {
        return byte(s, 0, place::LEVELS);
    }
    2
}

// Where the class of a level lies on a person card.
pub fn class_place(level: usize) -> usize
    ensures { (result ≡ class_place level) × (result < 15) }
{
    match level {
        0..=1 => place::FIRST_CLASS,
        2 => place::SECOND_CLASS,
        _ => place::THIRD_CLASS,
    }
}

// Whether a class field is one that a person may have at a level, with so many class levels.
#[tactic(auto, unfolding(crate::specs::Fields::class_field_ok))]
fn class_field_ok(levels: usize, level: usize, class: usize) -> bool
    ensures { result ≡ class_field_ok levels level class }
{
    ((level <= levels) & (class != 0)) | ((levels < level) & (class == 0))
}

fn person_ok(s: &[u8], card: usize) -> bool
    requires { 16 * card + 16 ≤ length s.now }
    ensures { result ≡ person_ok s.now card }
{
    let levels = class_levels(s);
    (byte(s, card, 1) == 0)
        & (long(s, card, place::TAG) != 0)
        & (word(s, card, place::PERMITTED) >> MOST_STEPS == 0)
        & class_field_ok(levels, 1, word(s, card, place::FIRST_CLASS))
        & class_field_ok(levels, 2, word(s, card, place::SECOND_CLASS))
        & class_field_ok(levels, 3, word(s, card, place::THIRD_CLASS))
}

fn step_ok(s: &[u8], card: usize) -> bool
    requires { 16 * card + 16 ≤ length s.now }
    ensures { result ≡ step_ok s.now card }
{
    (byte(s, card, place::SKIPPED) <= 1)
        & (long(s, card, place::TAG) != 0)
        & (long(s, card, 8) == 0)
        & (long(s, card, 12) == 0)
}

// Whether a limit is one that its kind of rule may have, with `size` steps in scope.
// The kind stays the sheet's byte here, since a kind that is refused has no name; where a rule is looked at, it gets one.
#[tactic(auto, unfolding(crate::specs::Fields::limit_ok))]
fn limit_ok(kind: usize, limit: usize, size: usize) -> bool
    ensures { result ≡ limit_ok kind limit size }
{
    ((1 <= kind) & (kind <= 2) & (size == 2) & (limit == 0))
        | ((3 <= kind) & (kind <= 5) & (2 <= size) & ((1 <= limit) & (limit <= size)))
}

// How many steps are in a scope.
fn scope_size(scope: usize) -> usize
    requires { scope < 65536 }
    ensures { result ≡ scope_size scope }
{
    u64::count_ones(scope as u64) as usize
}

fn rule_ok(s: &[u8], steps: usize, card: usize) -> bool
    requires { (16 * card + 16 ≤ length s.now) × (steps < 16) }
    ensures { result ≡ rule_ok s.now steps card }
{
    let levels = class_levels(s) + 1;
    let level = byte(s, card, place::LEVEL);
    let scope = word(s, card, place::SCOPE);
    limit_ok(
        byte(s, card, place::RULE),
        byte(s, card, place::LIMIT),
        scope_size(scope),
    ) & ((1 <= level) & (level <= levels))
        & (scope >> steps == 0)
        & (long(s, card, 8) == 0)
        & (long(s, card, 12) == 0)
}

// Whether the fields of a card are in order for the chain of `kind`; `steps` matters for rules alone.
#[tactic(auto, unfolding(crate::specs::Fields::fields_ok, crate::specs::Kinds::kind_number))]
pub fn fields_ok(s: &[u8], steps: usize, kind: Kind, card: usize) -> bool
    requires { (16 * card + 16 ≤ length s.now) × (steps < 16) }
    ensures { result ≡ fields_ok s.now steps (kind_number kind) card }
{
    match kind {
        Kind::Person => person_ok(s, card),
        Kind::Step => step_ok(s, card),
        Kind::Rule => rule_ok(s, steps, card),
    }
}

// How large a job and its sheet may be: "1 to 64 people, 1 to 12 steps, 0 to 64 rules, so at most 141 cards or 2,256 bytes."
// The arrays that are of these sizes in several places have a name here.
pub const MOST_PEOPLE: usize = 64;

pub const MOST_STEPS: usize = 12;

pub const MOST_RULES: usize = 64;

// The class levels above the person: "1 to 3".
pub const MOST_CLASS_LEVELS: usize = 3;

// With the person, who is the last level.
pub const MOST_LEVELS: usize = MOST_CLASS_LEVELS + 1;

// A header, and a card for each person, step and rule.
pub const MOST_CARDS: usize = 1 + MOST_PEOPLE + MOST_STEPS + MOST_RULES;

// The bytes of a card, and of the longest sheet.
pub const CARD: usize = 16;

pub const MOST_BYTES: usize = MOST_CARDS * CARD;

// The cards of the longest chain.
pub const MOST_CHAIN: usize = 64;

// A mark for each card of a sheet.
pub type CardMarks = [bool; MOST_CARDS];

// The cards of a chain, in order.
pub type CardList = [u8; MOST_CHAIN];

// A word for each person, as the class of a level.
pub type PersonWords = [u16; MOST_PEOPLE];

// A class for each person at each class level, at `(level - 1) * MOST_PEOPLE + person`.
pub const CLASS_WORDS: usize = MOST_CLASS_LEVELS * MOST_PEOPLE;

// The class on the card of each person, at each class level; zero where the level is not used.
pub type ClassWords = [u16; CLASS_WORDS];

// A byte for each rule, as the kind, the limit or the count.
pub type RuleBytes = [u8; MOST_RULES];

// The slots that words fall into by their remainders.
pub const SLOTS: usize = 1024;

// A person for each slot, counted from 1.
pub type SlotPeople = [u8; SLOTS];

// An entry for each level, at the level; entry 0 is not used.
pub const LEVEL_ENTRIES: usize = MOST_LEVELS + 1;

// An entry for each person at each level, at `(level - 1) * MOST_PEOPLE + person`.
pub const CLASS_ENTRIES: usize = MOST_LEVELS * MOST_PEOPLE;

// An entry for each step at each level, at `(level - 1) * MOST_STEPS + step`.
pub const LABEL_ENTRIES: usize = MOST_LEVELS * MOST_STEPS;

// The number of each person's class: from 0 by first use in crew order.
pub type Classes = [u8; CLASS_ENTRIES];

// The people of each person's class.
pub type Crowds = [u64; CLASS_ENTRIES];

// What lies inside each class, at `(level - 1) * MOST_PEOPLE + number`.
pub type Nest = [u64; CLASS_ENTRIES];

// Each rule as one number.
pub type Rules = [u32; MOST_RULES];

// The people who may do each step.
pub type Domains = [u64; MOST_STEPS];

// The rules that name each step.
pub type Naming = [u64; MOST_STEPS];

// The label of each step's group.
pub type Labels = [u8; LABEL_ENTRIES];

// The classes with somebody for each step, by number.
pub type Reach = [u64; LABEL_ENTRIES];

// The weight of each step.
pub type Weights = [u32; MOST_STEPS];

// The person of each step.
pub type Plan = [u8; MOST_STEPS];

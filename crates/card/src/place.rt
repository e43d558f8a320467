// Where the fields of a card lie: the first byte of each, counted from the card's own.
pub const KIND: usize = 0;

pub const NEXT: usize = 2;

// On a header.
pub const VERSION: usize = 1;

pub const FIRST_PERSON: usize = 4;

pub const FIRST_STEP: usize = 6;

pub const FIRST_RULE: usize = 8;

pub const CARD_COUNT: usize = 10;

pub const LEVELS: usize = 12;

// On a person or a step.
pub const TAG: usize = 4;

// On a person: the classes of the levels above, then the steps permitted.
pub const FIRST_CLASS: usize = 8;

pub const SECOND_CLASS: usize = 10;

pub const THIRD_CLASS: usize = 14;

pub const PERMITTED: usize = 12;

// On a step.
pub const SKIPPED: usize = 1;

// On a rule.
pub const RULE: usize = 1;

pub const LEVEL: usize = 4;

pub const LIMIT: usize = 5;

pub const SCOPE: usize = 6;

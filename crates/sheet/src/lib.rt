// The card reader: any bytes at all become a job or one numbered refusal with the card concerned.
#![tactic(auto)]

ghost use Rattle.std.specs.Prelude.{◌≡◌};
ghost use Rattle.sheet.specs.Answer.{sheet_of};
ghost use Rattle.sheet.specs.Read.{length_ok};

use bits::sizes::{
    CARD, ClassWords, MOST_BYTES, MOST_CHAIN, MOST_PEOPLE, MOST_RULES, MOST_STEPS, PersonWords,
    RuleBytes,
};
use card::fields::header_ok;
use card::refusal::{Fault, Refusal};
use read::read_people;

mod clash;
mod given;
mod late;
mod loose;
mod read;
mod tables;

// The job that a sheet describes: people, steps and rules along their chains, zeros after the last.
#[derive(Clone, Copy)]
pub struct SheetJob {
    pub people: usize,
    pub steps: usize,
    pub rules: usize,
    // The class levels, and the person as the last level.
    pub levels: usize,
    pub person_tag: [u32; MOST_PEOPLE],
    pub step_tag: [u32; MOST_STEPS],
    // 1 for a step that is skipped.
    pub skipped: [u8; MOST_CHAIN],
    pub class: ClassWords,
    pub permitted: PersonWords,
    pub rule_scope: [u16; MOST_RULES],
    pub rule_kind: RuleBytes,
    pub rule_level: RuleBytes,
    pub rule_limit: RuleBytes,
}

// Whether a length is one that a sheet may have.
fn length_ok(n: usize) -> bool
    ensures { result ≡ length_ok n }
{
    (n != 0) & (n % CARD == 0) & (n <= MOST_BYTES)
}

// Reads a sheet: any bytes at all, however long or garbled.
pub fn read_sheet(sheet: &[u8]) -> Result<SheetJob, Refusal>
    ensures { result ≡ sheet_of sheet.now }
{
    let n = sheet.len();
    if !length_ok(n) {
        return Err(Fault::Length.on(0));
    }
    let cards = n / CARD;
    if !header_ok(sheet, cards) {
        return Err(Fault::Header.on(0));
    }
    read_people(sheet, cards)
}

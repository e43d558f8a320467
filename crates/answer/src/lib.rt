// What the calls return and write: the number, the bytes of numbers, and a crew.
#![tactic(auto)]

ghost use Rattle.std.specs.Prelude.{◌≡◌, ◌<◌};
ghost use Rattle.card.specs.Refusals.{fault_number};
ghost use Rattle.answer.specs.Number.{refusal_number, number_of};

use card::refusal::Refusal;

pub mod bytes;
pub mod crew;

// The number that a call returns for a refusal with its card, both by their numbers.
pub fn returned(refusal: u32, card: usize) -> u32
    requires { (refusal < 256) × (card < 256) }
    ensures { result ≡ refusal_number refusal card }
{
    refusal * 256 + card as u32
}

// The same for a refusal by its name.
pub fn refusal_number(refusal: Refusal) -> u32
    ensures { result ≡ refusal_number (fault_number refusal.fault) refusal.card }
{
    returned(u32::from(refusal.fault), refusal.card as usize)
}

// The number that a call returns: 0, or that of its refusal.
pub fn number(answer: Result<(), Refusal>) -> u32
    ensures { result ≡ number_of answer }
{
    match answer {
        Ok(()) => 0,
        Err(refusal) => refusal_number(refusal),
    }
}

// The refusals, as the paper lists them, and the numbers that they have there. Each goes with the card concerned, card 0 where none is named.
ghost use Rattle.std.specs.Prelude.{◌≡◌, ◌<◌};
ghost use Rattle.card.specs.Refusals.{fault_number};

#[derive(Clone, Copy, Debug, PartialEq, Eq)]
pub enum Fault {
    // The calling program: the answer buffer is too short (8 × steps for a crew, 16 for spare).
    Short = 1,
    // The cap is above 3.
    Cap = 2,
    // Whoever wrote the sheet: the length is zero, no multiple of 16, or above 2,256.
    Length = 3,
    // The header is not as it has to be, or its card number is not the length / 16.
    Header = 4,
    // An index is not below the number of cards. The card that holds it.
    Index = 5,
    // A chain comes to a card already reached. That card.
    Reached = 6,
    // A card is of another kind than its chain. That card.
    Kind = 7,
    // A field is outside its values, or an unnamed byte of a person, step or rule card is not zero. That card.
    Field = 8,
    // No people or no steps (card 0), or more than 64 people, 12 steps or 64 rules (the first card too many).
    Count = 9,
    // A tag is on two people or on two steps. The first card along the chain whose tag stood earlier on it.
    Tag = 10,
    // A class lies in two classes of the level above. The first person in crew order whose class stood earlier with another above.
    Class = 11,
    // A card is on no chain. The lowest.
    Loose = 12,
    // The job itself: no valid plan with everyone present.
    Plan = 13,
    // Whoever signs: the step or the person is not on the sheet. From 14 on the card is 0.
    Unknown = 14,
    // The step is signed.
    Signed = 15,
    // No valid plan agrees with this signing and with all granted before.
    Ungranted = 16,
}

impl Fault {
    // The refusal of a card that has the fault.
    pub fn on(self, card: usize) -> Refusal
        requires { card < 256 }
        ensures { result ≡ record { fault = self; card = card } }
    {
        Refusal {
            fault: self,
            card: card as u8,
        }
    }
}

impl From<Fault> for u32 {
    fn from(fault: Fault) -> u32
        ensures { result ≡ fault_number fault }
    {
        fault as u32
    }
}

// Why something is refused, and the card concerned.
#[derive(Clone, Copy, Debug, PartialEq, Eq)]
pub struct Refusal {
    pub fault: Fault,
    pub card: u8,
}

// Permitted bits from the number of steps on, which can be tested only when the steps are known.
ghost use Rattle.std.specs.Prelude.{◌≡◌, ◌<◌, length};
ghost use Rattle.sheet.specs.Cards.{Listing, place_below};
ghost use Rattle.sheet.specs.Read.{first_late};

use card::place::PERMITTED;
use card::word;

// The first of the people who is permitted a step that does not exist.
pub fn first_late(s: &[u8], people: &[u8], steps: usize) -> Option<usize>
    requires { Listing s.now people.now × (steps < 16) }
    ensures { result ≡ place_below (length people.now) (first_late s.now steps people.now) }
{
    for (k, &card) in people.iter().enumerate() {
        if word(s, card as usize, PERMITTED) >> steps != 0 {
            return Some(k);
        }
    }
    None
}

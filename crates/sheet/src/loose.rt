// Cards that no chain has reached.
ghost use Rattle.std.specs.Prelude.{◌≡◌, ◌<◌, ◌≤◌, length};
ghost use Rattle.chain.specs.Answer.{marked};
ghost use Rattle.sheet.specs.Cards.{place_below};
ghost use Rattle.sheet.specs.Read.{first_loose};

use bits::sizes::CardMarks;

// The lowest of `cards` cards that is not marked, the header apart.
pub fn first_loose(marks: &CardMarks, cards: usize) -> Option<usize>
    requires { (0 < cards) × (cards ≤ 141) × (length marks.now ≡ 141) }
    ensures { result ≡ place_below cards (first_loose cards (marked marks.now)) }
{
    for c in 1..cards {
        if !marks[c] {
            return Some(c);
        }
    }
    None
}

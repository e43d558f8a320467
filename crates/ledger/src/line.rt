// A line of the minutes book as it is printed.
ghost use mathlib.Core.List.{List};
ghost use mathlib.Core.Path.{◌≡◌};
ghost use Prim.Native.Nat.{ℕ, ◌<◌};
ghost use lib.IntN.{pos};
ghost use lib.ListN.{length};
ghost use Rattle.ledger.specs.Entry.{Entry};
ghost use Rattle.ledger.specs.Lines.{LinesOf, Small, Room};
ghost use Rattle.ledger.specs.Printed.{line_of, person_line, all_line};
ghost use Rattle.ledger.specs.Sums.{people_in};

use crate::Ledger;
use times::{Time, difference, time_of};

// The tag of a person, or 0, the sums of quoted and taken minutes, and the taken less the quoted.
#[derive(Drop)]
pub struct Line {
    pub tag: u32,
    pub quoted: Time,
    pub taken: Time,
    pub difference: Time,
}

fn printed(tag: u32, quoted: i32, taken: i32) -> Line
    requires { Small quoted × Small taken }
    ensures { (q t : ℕ) → quoted ≡ pos q → taken ≡ pos t → result ≡ line_of tag q t }
{
    Line {
        tag,
        quoted: time_of(quoted),
        taken: time_of(taken),
        difference: time_of(difference(taken, quoted)),
    }
}

// The line of a person.
pub fn person_line(ledger: Ledger, k: usize) -> Line
    requires { Room ledger × (k < 64) }
    ensures { (es : List Entry) → LinesOf es ledger → k < length (people_in es) → result ≡ person_line es k }
{
    let tag = ledger.tag;
    let quoted = ledger.quoted;
    let taken = ledger.taken;
    printed(tag[k], quoted[k], taken[k])
}

// The sums of all.
pub fn all_line(ledger: Ledger) -> Line
    requires { Room ledger }
    ensures { (es : List Entry) → LinesOf es ledger → result ≡ all_line es }
{
    printed(0, ledger.all_quoted, ledger.all_taken)
}

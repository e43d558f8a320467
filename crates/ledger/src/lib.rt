// The people of the minutes book and the sums of their minutes.
#![tactic(auto)]

ghost use mathlib.Core.List.{List, [], ◌∷◌, ◌++◌};
ghost use mathlib.Core.Path.{◌≡◌};
ghost use Prim.Native.Nat.{◌+◌, ◌<◌, ◌≤◌};
ghost use lib.Dec.{eqb};
ghost use lib.IntN.{pos, ◌+ℤ◌};
ghost use lib.ListN.{length, get_or, set};
ghost use Rattle.bits.specs.Below.{first};
ghost use Rattle.ledger.specs.Entry.{Entry, entry};
ghost use Rattle.ledger.specs.Lines.{LinesOf, Small, Room};

use bits::sizes::MOST_PEOPLE;

pub mod line;

// A line for each person, in order of first appearance: the tag, and the sums of quoted and taken minutes. Then the sums of all.
#[derive(Drop)]
pub struct Ledger {
    pub people: usize,
    pub tag: [u32; MOST_PEOPLE],
    pub quoted: [i32; MOST_PEOPLE],
    pub taken: [i32; MOST_PEOPLE],
    pub all_quoted: i32,
    pub all_taken: i32,
}

// No line at all.
pub fn empty() -> Ledger
    ensures { LinesOf [] result }
{
    Ledger {
        people: 0,
        tag: [0; MOST_PEOPLE],
        quoted: [0; MOST_PEOPLE],
        taken: [0; MOST_PEOPLE],
        all_quoted: 0,
        all_taken: 0,
    }
}

// The line of a person, by tag; the number of lines where there is none.
pub fn line_of(ledger: Ledger, who: u32) -> usize
    requires { ledger.people ≤ 64 }
    ensures { result ≡ first ledger.people (λ k. eqb (get_or ledger.tag k 0) who) }
{
    let tag = ledger.tag;
    let people = ledger.people;
    for k in 0..people {
        if tag[k] == who {
            return k;
        }
    }
    people
}

// A sum and the minutes of one step more.
fn sum(before: i32, minutes: u16) -> i32
    requires { Small before × (minutes ≤ 5999) }
    ensures { result ≡ before +ℤ pos minutes }
{
    before + minutes as i32
}

// The sums with the minutes of one step more in a line.
fn sums_with(sums: &[i32; MOST_PEOPLE], line: usize, minutes: u16) -> [i32; MOST_PEOPLE]
    requires { (length sums.now ≡ 64) × (line < 64) × Small (get_or sums.now line (pos 0)) × (minutes ≤ 5999) }
    ensures { result ≡ set sums.now line (get_or sums.now line (pos 0) +ℤ pos minutes) }
{
    let mut more = *sums;
    more[line] = sum(sums[line], minutes);
    more
}

// How many lines there are when one of them, or the one after the last, is written.
fn lines_with(people: usize, line: usize) -> usize
    requires { people ≤ 64 }
    ensures { (line < people → result ≡ people) × (line ≡ people → result ≡ people + 1) }
{
    if line == people {
        return people + 1;
    }
    people
}

// Takes the minutes of one step in, whose person has this line.
pub fn with_entry(ledger: Ledger, line: usize, who: u32, quoted: u16, taken: u16) -> Ledger
    requires { Room ledger × (line < 64) × (quoted ≤ 5999) × (taken ≤ 5999) }
    ensures { (es : List Entry) → LinesOf es ledger → line ≡ first ledger.people (λ k. eqb (get_or ledger.tag k 0) who)
        → LinesOf (es ++ entry who quoted taken ∷ []) result }
{
    let mut tag = ledger.tag;
    tag[line] = who;
    Ledger {
        people: lines_with(ledger.people, line),
        tag,
        quoted: sums_with(&ledger.quoted, line, quoted),
        taken: sums_with(&ledger.taken, line, taken),
        all_quoted: sum(ledger.all_quoted, quoted),
        all_taken: sum(ledger.all_taken, taken),
    }
}

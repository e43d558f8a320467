// The walk along a chain of cards: each card marked and listed, or one refusal with the card concerned.
#![tactic(auto)]

ghost use Rattle.std.specs.Prelude.{not, [], ◌≡◌, ◌+◌, ◌*◌, ◌<◌, ◌≤◌, eqb, length};
ghost use Rattle.card.specs.Layout.{kind_of};
ghost use Rattle.card.specs.Fields.{fields_ok};
ghost use Rattle.chain.specs.Walk.{first_fault, walk};
ghost use Rattle.card.specs.Kinds.{kind_number};
ghost use Rattle.chain.specs.Answer.{Walks, chain_of, fault_found, marked};

use bits::sizes::{CardList, CardMarks};
use card::fields::{Kind, fields_ok};
use card::refusal::{Fault, Refusal};
use card::{byte, place, word};

// The first fault of a card, in the order in which they are tested.
#[tactic(auto, unfolding(crate::specs::Walk::first_fault, card::specs::Refusals::fault_number))]
fn first_fault(reached: bool, full: bool, other: bool, bad: bool) -> Option<Fault>
    ensures { fault_found result ≡ first_fault reached full other bad }
{
    if reached {
        return Some(Fault::Reached);
    }
    if full {
        return Some(Fault::Count);
    }
    if other {
        return Some(Fault::Kind);
    }
    if bad {
        return Some(Fault::Field);
    }
    None
}

fn fault_at(
    s: &[u8],
    kind: Kind,
    steps: usize,
    card: usize,
    reached: bool,
    full: bool,
) -> Option<Fault>
    requires { (16 * card + 16 ≤ length s.now) × (steps < 16) }
    ensures { fault_found result ≡ first_fault reached full (not (eqb (kind_of s.now card) (kind_number kind))) (not (fields_ok s.now steps (kind_number kind) card)) }
{
    first_fault(
        reached,
        full,
        byte(s, card, place::KIND) != kind.number(),
        !fields_ok(s, steps, kind, card),
    )
}

// Walks the chain of `kind` that starts at index `first`, in a sheet of `cards` cards, for at most `most` cards: how many cards are listed.
// The list is an array of the caller's with that count beside it, since nothing is allocated.
pub fn walk_chain(
    s: &[u8],
    cards: usize,
    kind: Kind,
    steps: usize,
    most: usize,
    first: usize,
    marks: &mut CardMarks,
    list: &mut CardList,
) -> Result<usize, Refusal>
    requires { (16 * cards ≤ length s.now) × (cards ≤ 141) × (steps < 16) × (most ≤ 64) × (length marks.old ≡ 141) × (length list.old ≡ 64) }
    ensures { Walks most (walk (chain_of s.now cards (kind_number kind) steps (marked marks.old)) most [] 0 first) result (marked marks.old) marks.new list.new }
{
    let mut taken: usize = 0;
    let mut holder: usize = 0;
    let mut at = first;
    // Each card names the next one: there is no range to go over.
    while at != 0 {
        if cards <= at {
            return Err(Fault::Index.on(holder));
        }
        let reached = marks[at];
        if let Some(fault) = fault_at(s, kind, steps, at, reached, taken == most) {
            return Err(fault.on(at));
        }
        marks[at] = true;
        list[taken] = at as u8;
        taken += 1;
        holder = at;
        at = word(s, at, place::NEXT);
    }
    Ok(taken)
}

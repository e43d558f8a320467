// Words in slots, by their remainders: an earlier word that is equal to one is in the same slot.
ghost use Rattle.std.specs.Prelude.{◌≡◌, ◌+◌, ◌<◌, length};
ghost use Rattle.bits.specs.Slots.{FirstOfSlot, NoneBefore};

use crate::sizes::{PersonWords, SLOTS, SlotPeople};

// The first person whose word fell into the slot of that of `p`, and `p` where there was none; `p` is entered then. `firsts`
// has the first person of each slot, counted from 1, and 0 where there is none.
pub fn first_there(words: &PersonWords, p: usize, firsts: &mut SlotPeople) -> usize
    requires { (p < 64) × (length words.now ≡ 64) × FirstOfSlot words.now p firsts.old }
    ensures { NoneBefore words.now p result × FirstOfSlot words.now (p + 1) firsts.new }
{
    let slot = (words[p] % SLOTS as u16) as usize;
    let i = firsts[slot] as usize;
    if i == 0 {
        firsts[slot] = (p + 1) as u8;
        return p;
    }
    i - 1
}

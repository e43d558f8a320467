// The job's arrays, filled from the cards of a chain. Bytes, words and tags stay apart: of one function over what reads the field each would have
// to say card by card what one equation says.
ghost use Rattle.std.specs.Prelude.{◌≡◌, ◌+◌, ◌<◌, ◌≤◌, length};
ghost use Rattle.card.specs.Layout.{card_byte, card_word, card_long};
ghost use Rattle.bits.specs.Sizes.{most_class_levels};
ghost use Rattle.card.specs.Fields.{class_levels};
ghost use Rattle.sheet.specs.Answer.{table, class_table};
ghost use Rattle.sheet.specs.Cards.{Listing};

use bits::sizes::{CLASS_WORDS, ClassWords, MOST_CHAIN, MOST_PEOPLE};
use card::fields::class_place;
use card::place::TAG;
use card::{byte, long, word};

// The bytes at `at` of the cards of a list.
pub fn bytes(s: &[u8], list: &[u8], at: usize) -> [u8; MOST_CHAIN]
    requires { Listing s.now list.now × (at < 16) }
    ensures { result ≡ table 64 (λ c. card_byte s.now c at) list.now }
{
    let mut out = [0u8; MOST_CHAIN];
    for (k, &card) in list.iter().enumerate() {
        out[k] = byte(s, card as usize, at) as u8;
    }
    out
}

// The words at `at` of the cards of a list.
pub fn words(s: &[u8], list: &[u8], at: usize) -> [u16; MOST_CHAIN]
    requires { Listing s.now list.now × (at < 15) }
    ensures { result ≡ table 64 (λ c. card_word s.now c at) list.now }
{
    let mut out = [0u16; MOST_CHAIN];
    for (k, &card) in list.iter().enumerate() {
        out[k] = word(s, card as usize, at) as u16;
    }
    out
}

// The classes on the cards of a list, level by level.
pub fn classes(s: &[u8], list: &[u8], levels: usize) -> ClassWords
    requires { Listing s.now list.now × (levels ≡ class_levels s.now) × (levels ≤ most_class_levels) }
    ensures { result ≡ class_table s.now list.now }
{
    let mut out = [0u16; CLASS_WORDS];
    for q in 0..levels {
        let at = class_place(q + 1);
        for (k, &card) in list.iter().enumerate() {
            out[q * MOST_PEOPLE + k] = word(s, card as usize, at) as u16;
        }
    }
    out
}

// The tags of the cards of a list.
pub fn tags<const N: usize>(s: &[u8], list: &[u8]) -> [u32; N]
    requires { Listing s.now list.now × (length list.now ≤ N) }
    ensures { result ≡ table N (λ c. card_long s.now c 4) list.now }
{
    let mut out = [0u32; N];
    for (k, &card) in list.iter().enumerate() {
        out[k] = long(s, card as usize, TAG) as u32;
    }
    out
}

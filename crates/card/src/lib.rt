// One card of a sheet: its bytes and what its fields may be.
#![tactic(auto)]

ghost use Rattle.std.specs.Prelude.{◌≡◌, ◌+◌, ◌*◌, ◌<◌, length};
ghost use Rattle.card.specs.Layout.{card_byte, card_word, card_long};

use bits::byte_at;
use bits::sizes::CARD;

pub mod fields;
pub mod place;
pub mod refusal;

// Byte `k` of a card.
pub fn byte(s: &[u8], card: usize, k: usize) -> usize
    requires { 16 * card + k < length s.now }
    ensures { (result ≡ card_byte s.now card k) × (result < 256) }
{
    byte_at(s, CARD * card + k)
}

// Bytes `k` and `k + 1` of a card.
pub fn word(s: &[u8], card: usize, k: usize) -> usize
    requires { 16 * card + k + 1 < length s.now }
    ensures { (result ≡ card_word s.now card k) × (result < 65536) }
{
    byte(s, card, k) + 256 * byte(s, card, k + 1)
}

// Bytes `k` to `k + 3` of a card.
pub fn long(s: &[u8], card: usize, k: usize) -> usize
    requires { 16 * card + k + 3 < length s.now }
    ensures { (result ≡ card_long s.now card k) × (result < 4294967296) }
{
    word(s, card, k) + 65536 * word(s, card, k + 2)
}

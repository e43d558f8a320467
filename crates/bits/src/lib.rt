// Words of a byte slice, low byte first, and words as sets.
#![tactic(auto)]

pub mod columns;
pub mod least;
pub mod set;
pub mod sizes;
pub mod slots;

ghost use Rattle.std.specs.Prelude.{◌≡◌, ◌+◌, ◌<◌, length};
ghost use Rattle.bits.specs.Word.{byte_at, word_at, long_at};

// The byte at `i`.
pub fn byte_at(s: &[u8], i: usize) -> usize
    requires { i < length s.now }
    ensures { (result ≡ byte_at s.now i) × (result < 256) }
{
    s[i] as usize
}

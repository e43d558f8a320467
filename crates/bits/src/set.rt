// Sets of numbers as words: bit i of a word says whether i is in the set. Sets of people are long words, sets of steps short ones.
ghost use Rattle.std.specs.Prelude.{ℕ, ◌≡◌, ◌<◌, ◌≤◌, eqb, ltb};
ghost use Rattle.std.specs.Int.Count.{ones};
ghost use Rattle.std.specs.Iterator.{at_most};
ghost use Rattle.bits.specs.Word.{has_bit};
ghost use Rattle.bits.specs.Set.{Added, Removed, Lowest, Mask, Gives};

// All numbers below 64.
pub const ALL: u64 = 0xffff_ffff_ffff_ffff;

// A word as a set.
pub trait Set: Copy {
    // The elements are below this.
    ghost width: { ℕ };

    ghost word: { Self → ℕ };

    fn is_empty(self) -> bool
        ensures { result ≡ eqb (word self) 0 };

    fn has(self, i: usize) -> bool
        requires { i < width }
        ensures { result ≡ has_bit (word self) i };

    // The set with `i`.
    fn with(self, i: usize) -> Self
        requires { i < width }
        ensures { Added (word self) i (word result) };

    // The set without `i`.
    fn without(self, i: usize) -> Self
        requires { i < width }
        ensures { Removed (word self) i (word result) };

    // The lowest element of a set that is not empty.
    fn lowest(self) -> usize
        requires { word self ≡ 0 → ⊥ }
        ensures { (result < width) × Lowest (word self) result };

    // All numbers below `n`.
    fn below(n: usize) -> Self
        requires { n ≤ width }
        ensures { Mask (λ i. ltb i n) (word result) };

    // How many elements the set has.
    fn size(self) -> usize
        ensures { (result ≡ ones (word self)) × (result ≤ width) };
}

impl Set for u64 {
    ghost width = { 64 };

    ghost word = { λ m. m };

    fn is_empty(self) -> bool {
        self == 0
    }

    fn has(self, i: usize) -> bool {
        (self >> i) % 2 == 1
    }

    fn with(self, i: usize) -> u64 {
        self | (1 << i)
    }

    fn without(self, i: usize) -> u64 {
        let one: u64 = 1 << i;
        (self | one) ^ one
    }

    fn lowest(self) -> usize {
        (u64::trailing_zeros(self) % 64) as usize
    }

    fn below(n: usize) -> u64 {
        if n == 64 {
            return ALL;
        }
        (1 << n) - 1
    }

    fn size(self) -> usize {
        u64::count_ones(self) as usize
    }
}

impl Set for u16 {
    ghost width = { 16 };

    ghost word = { λ m. m };

    fn is_empty(self) -> bool {
        self == 0
    }

    fn has(self, i: usize) -> bool {
        (self >> i) % 2 == 1
    }

    fn with(self, i: usize) -> u16 {
        self | (1 << i)
    }

    fn without(self, i: usize) -> u16 {
        let one: u16 = 1 << i;
        (self | one) ^ one
    }

    fn lowest(self) -> usize {
        (u16::trailing_zeros(self) % 16) as usize
    }

    fn below(n: usize) -> u16 {
        if n == 16 {
            return 0xffff;
        }
        (1 << n) - 1
    }

    fn size(self) -> usize {
        u16::count_ones(self) as usize
    }
}

// The elements of a set, the lowest first.
#[derive(Clone, Copy)]
pub struct Elements<S> {
    pub left: S,
}

impl<S: Set> Iterator for Elements<S> {
    type Item = usize;

    ghost next_gives = { λ s r t. Gives S.width (S.word s.left) r (S.word t.left) };

    ghost remaining = { λ s. at_most (S.word s.left) };

    fn next(&mut self) -> Option<usize> {
        if self.left.is_empty() {
            return None;
        }
        let first = self.left.lowest();
        self.left = self.left.without(first);
        Some(first)
    }
}

// The elements of a set, the lowest first.
pub fn members<S: Set>(set: S) -> Elements<S>
    ensures { result.left ≡ set }
{
    Elements { left: set }
}

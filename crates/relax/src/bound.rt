// How many classes of a fine level some classes of a coarse one have together. The fine classes of each
// coarse class are ranked from 0 by first use: `m` coarse classes have at most `m` fine ones of each rank.
ghost use Rattle.std.specs.Prelude.{◌≡◌, ◌-◌, ◌≤◌, length};
ghost use Rattle.bits.specs.Sizes.{most_levels, class_entries};
ghost use Rattle.pattern.specs.Tables.{class_in};
ghost use Rattle.relax.specs.Bound.{Nests, Counted, together, Needs};

use bits::sizes::{Classes, MOST_PEOPLE};

// An entry for each rank that a fine class may have.
pub type Counts = [u8; MOST_PEOPLE];

// How many fine classes there are, and how many of them have each rank.
#[derive(Drop)]
pub struct Ranked {
    pub classes: usize,
    pub counts: Counts,
}

// The fine classes, counted by rank.
pub fn ranks(people: usize, class: &Classes, coarse: usize, fine: usize) -> Ranked
    requires { (people ≤ 64) × (length class.now ≡ class_entries) × (1 ≤ coarse) × (coarse ≤ most_levels) × (1 ≤ fine) × (fine ≤ most_levels)
        × Nests people (class_in class.now coarse) (class_in class.now fine) }
    ensures { Counted people (class_in class.now coarse) (class_in class.now fine) result.classes result.counts }
{
    let mut sizes = [0u8; MOST_PEOPLE];
    let mut counts = [0u8; MOST_PEOPLE];
    let mut met: usize = 0;
    for p in 0..people {
        // A class is new where its number is that of the classes met so far.
        if class[(fine - 1) * MOST_PEOPLE + p] as usize != met {
            continue;
        }
        met += 1;
        let v = class[(coarse - 1) * MOST_PEOPLE + p] as usize;
        let r = sizes[v] as usize;
        sizes[v] += 1;
        counts[r] += 1;
    }
    Ranked {
        classes: met,
        counts: counts,
    }
}

// How many fine classes `m` coarse ones have at most. No rank is as great as the number of classes.
pub fn most(counts: &Counts, classes: usize, m: u8) -> usize
    requires { (length counts.now ≡ 64) × (classes ≤ 64) × (m ≤ 12) }
    ensures { result ≡ together counts.now m (classes - 1) }
{
    // Each has one with rank 0.
    let mut sum = m as usize;
    for r in 1..classes {
        let all = counts[r];
        if all < m {
            sum += all as usize;
            continue;
        }
        sum += m as usize;
    }
    sum
}

// How many coarse classes it takes to have `k` fine ones.
pub fn fewest(counts: &Counts, classes: usize, k: u8) -> u8
    requires { (length counts.now ≡ 64) × (classes ≤ 64) × (1 ≤ k) × (k ≤ 12) }
    ensures { Needs counts.now (classes - 1) k result }
{
    for m in 1..k {
        if most(counts, classes, m) >= k as usize {
            return m;
        }
    }
    k
}

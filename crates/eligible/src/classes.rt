// The classes of people, as a table of masks has them.
ghost use Rattle.std.specs.Prelude.{◌≡◌, ◌<◌};
ghost use Rattle.pattern.specs.Tables.{class_in};
ghost use Rattle.eligible.specs.Classes.{OneLevel};

use bits::sizes::{Crowds, MOST_PEOPLE};

// The people of a person's class. Table and level stay two parameters, here and in what narrows: a struct of both would hold a
// reference, and each clause would then have to say whether it speaks of it at entry or at exit.
pub fn mates(crowd: &Crowds, level: usize, p: usize) -> u64
    requires { OneLevel crowd.now level × (p < 64) }
    ensures { result ≡ class_in crowd.now level p }
{
    crowd[(level - 1) * MOST_PEOPLE + p]
}

// The classes of one level, of a table that has a class for each person at each class level.
ghost use Rattle.std.specs.Prelude.{◌≡◌, ◌≤◌, length};
ghost use Rattle.bits.specs.Columns.{column_of};
ghost use Rattle.bits.specs.Sizes.{most_class_levels, class_words};

use crate::sizes::{ClassWords, MOST_PEOPLE, PersonWords};

// The classes of a level, from 1.
pub fn column(class: &ClassWords, level: usize) -> PersonWords
    requires { (length class.now ≡ class_words) × (1 ≤ level) × (level ≤ most_class_levels) }
    ensures { result ≡ column_of class.now level }
{
    let top = (level - 1) * MOST_PEOPLE;
    let mut words = [0u16; MOST_PEOPLE];
    words.copy_from_slice(&class[top..top + MOST_PEOPLE]);
    words
}

// Groups of people who are away together.
ghost use Rattle.std.specs.Prelude.{[], ◌∷◌, ◌++◌, ◌≡◌, suc, ◌<◌, length};
ghost use Rattle.resiliency.specs.Group.{members_in, Sized, Suiting, Masking};

use bits::set::{ALL, Set};
use bits::sizes::MOST_PEOPLE;

// How many people stay away at most.
pub const MOST_AWAY: usize = 3;

// A group in crew order. There is no heap to keep it on, so that its size stands beside the members.
#[derive(Clone, Copy)]
pub struct Group {
    pub member: [u8; MOST_AWAY],
    pub size: usize,
}

impl Group {
    // Nobody.
    pub fn none() -> Group
        ensures { Sized result × (members_in result ≡ []) }
    {
        Group {
            member: [0; MOST_AWAY],
            size: 0,
        }
    }

    // The group and one person more.
    pub fn and(self, p: usize) -> Group
        requires { Sized self × (self.size < 3) × (p < 64) }
        ensures { Sized result × (result.size ≡ suc self.size) × (members_in result ≡ members_in self ++ p ∷ []) }
    {
        let mut more = self;
        more.member[self.size] = p as u8;
        more.size += 1;
        more
    }

    // The group as a set.
    pub fn set(self) -> u64
        requires { Sized self }
        ensures { Masking (members_in self) result }
    {
        let mut people: u64 = 0;
        for p in &self.member[..self.size] {
            people = people.with(*p as usize);
        }
        people
    }

    // The kept plans that do without all of them.
    pub fn spared_by(self, known: &[u64; MOST_PEOPLE]) -> u64
        requires { Sized self × (length known.now ≡ 64) }
        ensures { Suiting known.now (members_in self) result }
    {
        let mut plans = ALL;
        for p in &self.member[..self.size] {
            plans = plans & known[*p as usize];
        }
        plans
    }
}

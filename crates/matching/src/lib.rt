// Bipartite matching by augmenting paths: groups, numbered below 12, are given classes, numbered
// below 64, along edges and no class twice, or it is known that this cannot be done.
#![tactic(auto)]

ghost use Rattle.std.specs.Prelude.{◌≡◌, length, is_some};
ghost use Rattle.matching.specs.Assignment.{Covers, in_mask, suits, classes_of};
ghost use Rattle.matching.specs.State.{Holder, Unserved, Crowded, Placement};

use bits::set::{ALL, Set, members};
use bits::sizes::MOST_STEPS;

// The classes that suit each group.
pub type Edges = [u64; MOST_STEPS];

// The class of each group, 64 where it has none.
pub type Places = [u8; MOST_STEPS];

// A number past the classes, and no Option: each group that was asked for has a class in an answer, so who reads one would have to
// open an Option that is never None.
const NOWHERE: u8 = 64;

// The group that has class `c`, where one has.
fn holder(at: &Places, c: u8) -> Option<usize>
    requires { length at.now ≡ 12 }
    ensures { Holder at.now c result }
{
    at.iter().position(|class| *class == c)
}

// Gives group `g` a class: a free one, or one whose holder can be given another. Nobody has a class
// of `free`. On failure `at` and `free` are as they were, and `unseen` has lost what was tried.
#[cycle(augment_place)]
fn place(edges: &Edges, at: &mut Places, free: &mut u64, unseen: &mut u64, g: usize) -> bool
    requires { Unserved edges.now at.old free.old g }
    ensures { Placement edges.now at.old at.new free.old free.new unseen.old unseen.new g result }
{
    let idle = edges[g] & *free;
    if idle != 0 {
        let class = idle.lowest();
        *free = (*free).without(class);
        at[g] = class as u8;
        return true;
    }
    augment(edges, at, free, unseen, g)
}

// The same for a group that no free class suits: it takes a class from its holder, who is placed
// anew, and gives it back where that fails.
#[cycle(augment_place)]
fn augment(edges: &Edges, at: &mut Places, free: &mut u64, unseen: &mut u64, g: usize) -> bool
    requires { Crowded edges.now at.old free.old g }
    ensures { Placement edges.now at.old at.new free.old free.new unseen.old unseen.new g result }
{
    let suited = edges[g];
    // No iterator over the set: a holder that is placed anew has seen classes too, so what is left is asked for in each turn.
    loop {
        let left = suited & *unseen;
        if left == 0 {
            return false;
        }
        let class = left.lowest();
        *unseen = (*unseen).without(class);
        let c = class as u8;
        let held = holder(at, c);
        at[g] = c;
        let Some(h) = held else {
            return true;
        };
        at[h] = NOWHERE;
        if place(edges, at, free, unseen, h) {
            return true;
        }
        at[h] = c;
        at[g] = NOWHERE;
    }
}

// A class for each group of `groups`, where there are enough.
pub fn assign(edges: &Edges, groups: u16) -> Option<Places>
    ensures { Covers (in_mask groups) (suits edges.now) (is_some result) (classes_of result) }
{
    let mut at = [NOWHERE; MOST_STEPS];
    let mut free = ALL;
    let mut unseen = ALL;
    for g in members(groups % 4096) {
        if !place(edges, &mut at, &mut free, &mut unseen, g) {
            return None;
        }
        unseen = ALL;
    }
    Some(at)
}

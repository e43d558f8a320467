// The people who may do each step once some steps are signed: a signed step is left to its signer alone.
ghost use Rattle.std.specs.Prelude.{◌≡◌, length};
ghost use Rattle.signing.specs.Masks.{Left, BoundMasks};

use bits::set::Set;
use bits::sizes::{Domains, MOST_PEOPLE, MOST_STEPS};

// Those of some people who are left by a signer.
fn left(mask: u64, signer: u8) -> u64
    ensures { Left mask signer result }
{
    if signer == 0 {
        return mask;
    }
    if signer as usize > MOST_PEOPLE {
        return 0;
    }
    let p = signer as usize - 1;
    if !mask.has(p) {
        return 0;
    }
    0.with(p)
}

// The same for each step.
pub fn bound_masks(may: &Domains, signer: &[u8; MOST_STEPS]) -> Domains
    requires { (length may.now ≡ 12) × (length signer.now ≡ 12) }
    ensures { BoundMasks may.now signer.now 12 result }
{
    let mut rest = [0u64; MOST_STEPS];
    for s in 0..MOST_STEPS {
        rest[s] = left(may[s], signer[s]);
    }
    rest
}

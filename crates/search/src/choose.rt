// Which step to place next. No promise rests on the choice: any open step will do. Few ways left, many
// rules and many failed searches bring a step to the front.
ghost use Rattle.std.specs.Prelude.{true, ◌≡◌, ◌<◌, length};
ghost use Rattle.bits.specs.Word.{has_bit};
ghost use Rattle.bits.specs.Sizes.{label_entries};
ghost use Rattle.search.specs.State.{Prepared};

use super::find::Front;
use super::setting::Setting;
use super::ways::keys;
use bits::least::least_key;
use bits::sizes::{Labels, Weights};

// The open step to place next, with the labels of the placed ones.
pub fn next_step(setting: &Setting, front: Front, label: &Labels, weight: &Weights) -> usize
    requires { Prepared setting.now × (front.placed < 4096) × (front.rest < 4096) × (front.rest ≡ 0 → ⊥)
        × (length label.now ≡ label_entries) × (length weight.now ≡ 12) }
    ensures { has_bit front.rest result ≡ true }
{
    let order = keys(
        setting.size,
        setting.rule,
        setting.reach,
        front.placed,
        front.rest,
        label,
        weight,
    );
    least_key(&order, front.rest)
}

// Minutes as hours and minutes, with the sign apart.
#![tactic(auto)]

ghost use mathlib.Core.Path.{◌≡◌};
ghost use lib.IntN.{◌-ℤ◌};
ghost use Rattle.times.specs.Time.{time_of, Natural};

const HOUR: u32 = 60;

// A number of minutes: whether it is negative, and its size as hours and minutes.
#[derive(Drop)]
pub struct Time {
    pub negative: bool,
    pub hours: u32,
    pub minutes: u32,
}

// A number of minutes, any at all.
pub fn time_of(minutes: i32) -> Time
    ensures { result ≡ time_of minutes }
{
    let size = minutes.unsigned_abs();
    Time {
        negative: minutes < 0,
        hours: size / HOUR,
        minutes: size % HOUR,
    }
}

// Taken minutes less quoted minutes: negative when quicker.
pub fn difference(taken: i32, quoted: i32) -> i32
    requires { Natural taken × Natural quoted }
    ensures { result ≡ taken -ℤ quoted }
{
    taken - quoted
}
